//! Lines of memory and their counters.
ghost use Rattle.std.specs.Prelude.{◌≡◌, ℕ, List};
ghost use Rattle.pmem_base.specs.Lines.{AreBytes, zero_line, zero_counter};

use std::marker::Model;

/// A keyed tag or a digest: 16 bytes.
pub type Tag = [u8; 16];

/// One line of a device: 64 bytes.
#[derive(Clone, Copy, Debug, PartialEq, Eq)]
pub struct Line(pub [u8; 64]);

impl Line {
    ghost use Rattle.pmem_base.specs.Lines.{IsLine};

    /// A law: a line has 64 bytes, each below 256.
    pub fn is_whole(&self)
        ensures { IsLine self.now }
    {
        are_bytes(&self.0);
    }
}

/// A law: bytes are below 256.
fn are_bytes(bytes: &[u8])
    ensures { AreBytes bytes.now }
{}

/// A line that only clauses and proofs read: there it is a `Line`, and a program keeps nothing of it,
/// so it takes no memory.
#[derive(Drop)]
pub struct GhostLine {
    ghost bytes: { List ℕ },
}

impl Model for GhostLine {
    ghost use Rattle.std.specs.Borrow.{ftrue};
    ghost use Rattle.pmem_base.specs.declared.lines.Line.{Line};
    ghost use Rattle.pmem_base.specs.Lines.{line_of};

    ghost Value = { Line };

    ghost view = { λ ghost_line. line_of ghost_line.bytes };

    ghost also_owns = { λ _. ftrue };
}

impl GhostLine {
    /// A line as clauses read it.
    pub fn of(_line: &Line) -> GhostLine
        ensures { result ≡ _line.now }
    {
        GhostLine {}
    }
}

/// The zero line.
impl Default for Line {
    ghost is_default = { λ line. line ≡ zero_line };

    #[tactic(auto, unfolding(crate::specs::Lines::zero_line))]
    fn default() -> Self {
        Line([0; 64])
    }
}

/// The split counter under which a data line is sealed: its page's major, and its own minor of at
/// most 127.
#[derive(Clone, Copy, Debug, PartialEq, Eq)]
pub struct Ctr {
    pub major: u64,
    pub minor: u8,
}

/// Major 0 and minor 0.
impl Default for Ctr {
    ghost is_default = { λ ctr. ctr ≡ zero_counter };

    fn default() -> Self {
        Ctr { major: 0, minor: 0 }
    }
}
