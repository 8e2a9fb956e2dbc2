//! Marks, exhibits and the answers to commands.
use crate::{Ctr, GhostLine, Line, Tag};

/// A mark: the begin of a page's re-encryption, or one seal of a data line. No program reads a seal's
/// cipher, so it is there for clauses alone, and a mark takes 40 bytes.
#[derive(Drop)]
pub enum Mark {
    Begin {
        page: u32,
    },
    Seal {
        at: u32,
        ctr: Ctr,
        cipher: GhostLine,
        tag: Tag,
    },
}

/// What a refusal names: a data line, or a metadata line.
#[derive(Clone, Copy, Debug, PartialEq, Eq)]
pub enum Place {
    Line { at: u32 },
    Meta { x: u32 },
}

/// The shown evidence of a break.
#[derive(Clone, Copy, Debug, PartialEq, Eq)]
pub enum Exhibit {
    Clash {
        x: u32,
        first: Line,
        second: Line,
    },
    Forged {
        at: u32,
        ctr: Ctr,
        cipher: Line,
        tag: Tag,
    },
    Twin {
        at: u32,
        major: u64,
        low: u8,
        high: u8,
        cipher: Line,
        tag: Tag,
    },
}

/// The five counts of `stat`.
#[derive(Clone, Copy, Debug, PartialEq, Eq)]
pub struct Stat {
    pub reads: u64,
    pub writes: u64,
    pub latches: u64,
    pub tags: u64,
    pub digests: u64,
}

/// The answer to one command. `drained` is `None` for a drain and a read, and a count for a fence.
#[derive(Clone, Copy, Debug, PartialEq, Eq)]
pub enum Answer {
    Ok,
    Drained {
        steps: u64,
    },
    Fenced {
        drained: u8,
        steps: u64,
    },
    Turned {
        left: u8,
        steps: u64,
    },
    Flushed {
        x: u32,
        steps: u64,
    },
    Got {
        line: Line,
        steps: u64,
    },
    CutKept {
        drained: Option<u8>,
        steps: u64,
    },
    CutLost {
        drained: Option<u8>,
        steps: u64,
    },
    Cut {
        steps: u64,
    },
    Refused {
        drained: Option<u8>,
        place: Place,
        steps: u64,
    },
    Spent {
        drained: Option<u8>,
        page: u32,
        steps: u64,
    },
    Recovered {
        trials: u64,
        digests: u64,
        steps: u64,
    },
    NoCounter {
        at: u32,
        steps: u64,
    },
    WrongRoot {
        kept: Tag,
        found: Tag,
        steps: u64,
    },
    Raw {
        line: Line,
    },
    Counts(Stat),
    LossSet {
        steps: u64,
    },
    Full,
    Empty,
    Idle,
    Clean,
    Off,
    Already,
    Range,
    NoSnap,
    Shown(Exhibit),
}
