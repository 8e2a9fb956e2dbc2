//! The commands of a trace, and why a line of it is refused.
ghost use Rattle.std.specs.Prelude.{◌≡◌};
ghost use Rattle.pmem_base.specs.Lines.{first_byte_of_zeros};

use crate::Line;

/// Which rule of the grammar a line breaks.
#[derive(Clone, Copy, Debug, PartialEq, Eq)]
pub enum Kind {
    /// The first word isn't a command.
    Word = 1,
    /// The number of words is wrong.
    Count = 2,
    /// A word isn't a number in its range.
    Number = 3,
    /// A port is above the greatest one.
    Port = 4,
    /// A word isn't the hex digits asked for.
    Hex = 5,
    /// The line has more than 1,024 bytes.
    Long = 6,
}

/// A posted write of `len` bytes, 1 to 64, at place `from` of data line `at`. The bytes stand at
/// their places in `line`, whose other bytes are 0.
#[derive(Clone, Copy, Debug, PartialEq, Eq)]
pub struct Posted {
    pub at: u32,
    pub from: u8,
    pub len: u8,
    pub line: Line,
}

/// One byte of 0, at the beginning of data line 0.
impl Default for Posted {
    ghost is_default = { λ write. write ≡ first_byte_of_zeros };

    fn default() -> Self {
        Posted {
            at: 0,
            from: 0,
            len: 1,
            line: Line::default(),
        }
    }
}

/// One command of a trace. The numbers are as the trace gives them, so a place may be out of range.
#[derive(Clone, Copy, Debug, PartialEq, Eq)]
pub enum Command {
    /// A whole line waits at a port to be written.
    Post {
        port: u8,
        at: u64,
        line: Line,
    },
    /// `count` bytes wait at a port to be written at place `from` of a line. They are the first bytes of `line`, whose
    /// other bytes are 0.
    Part {
        port: u8,
        at: u64,
        from: u64,
        count: u8,
        line: Line,
    },
    /// The port's oldest waiting write is done.
    Drain {
        port: u8,
    },
    /// All writes that wait at a port are done, the oldest first.
    Fence {
        port: u8,
    },
    /// A data line is read at a port.
    Read {
        port: u8,
        at: u64,
    },
    /// One line of the oldest page under re-encryption is resealed.
    Turn,
    /// The oldest dirty metadata line is written back.
    Flush,
    /// Power is to be cut after `n` more persist steps.
    Cut {
        n: u64,
    },
    /// Power goes off.
    Off,
    /// Power comes on, with recovery.
    On,
    /// A device line is written past the controller.
    Poke {
        at: u64,
        line: Line,
    },
    /// A bit of a device line, 0 to 511, is turned past the controller.
    Flip {
        at: u64,
        bit: u64,
    },
    /// A device line is copied to another place past the controller.
    Move {
        from: u64,
        to: u64,
    },
    /// A copy of all device lines is kept.
    Snap,
    /// A device line gets the bytes of that copy.
    Back {
        at: u64,
    },
    /// A device line is shown.
    Peek {
        at: u64,
    },
    /// The counts since formatting are shown.
    Stat,
    /// The stop-loss number is set.
    Loss {
        n: u64,
    },
}
