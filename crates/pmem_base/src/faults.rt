//! What a call may answer instead of its value.
ghost use Rattle.std.specs.Prelude.{⊤};

use std::alloc::AllocError;

/// Memory could not be had.
#[derive(Clone, Copy, Debug, PartialEq, Eq)]
pub struct MemFault;

impl From<AllocError> for MemFault {
    ghost from_gives = { λ _ _. ⊤ };

    fn from(_: AllocError) -> Self {
        MemFault
    }
}

/// Power was cut before the persist step.
#[derive(Clone, Copy, Debug, PartialEq, Eq)]
pub struct Cut;

/// No snapshot is kept.
#[derive(Clone, Copy, Debug, PartialEq, Eq)]
pub struct NoSnap;

/// Sixteen writes wait in the queue.
#[derive(Clone, Copy, Debug, PartialEq, Eq)]
pub struct Full;

/// The page's major counter is used up: it is 2^64 - 1.
#[derive(Clone, Copy, Debug, PartialEq, Eq)]
pub struct Spent {
    pub page: u32,
}
