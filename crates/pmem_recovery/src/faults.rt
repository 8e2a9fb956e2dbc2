//! What recovery answers besides an engine.
use pmem_base::{Cut, Line, MemFault, Tag};

/// Why a recovery stops.
#[derive(Clone, Copy, Debug, PartialEq, Eq)]
pub enum RecFault {
    /// Memory could not be had. Nothing has changed.
    Memory,
    /// Power was cut.
    Cut,
    /// No minor of its window fits data line `at`.
    NoCounter {
        at: u32,
    },
    /// The digest of the top line, once it is made again, isn't the root register.
    Root {
        kept: Tag,
        found: Tag,
    },
    /// Two minors or more fit data line `at`: the least two, with the line's cipher and tag as read.
    Twin {
        at: u32,
        major: u64,
        low: u8,
        high: u8,
        cipher: Line,
        tag: Tag,
    },
}

impl From<Cut> for RecFault {
    ghost use Rattle.std.specs.Prelude.{◌≡◌};
    ghost use Rattle.pmem_recovery.specs.declared.faults.RecFault.{RecFault};

    ghost from_gives = { λ _ fault. fault ≡ RecFault.Cut };

    fn from(_: Cut) -> Self {
        RecFault::Cut
    }
}

impl From<MemFault> for RecFault {
    ghost use Rattle.std.specs.Prelude.{◌≡◌};
    ghost use Rattle.pmem_recovery.specs.declared.faults.RecFault.{RecFault};

    ghost from_gives = { λ _ fault. fault ≡ RecFault.Memory };

    fn from(_: MemFault) -> Self {
        RecFault::Memory
    }
}
