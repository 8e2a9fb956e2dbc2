//! One access of a board.
use pmem_base::GhostLine;

/// One access of a board, as it was answered. No program reads a written line, so it is there for clauses alone.
#[derive(Drop)]
pub enum Access {
    /// The line at a place was read.
    Read { at: u32 },
    /// A line was written at a place: one persist step.
    Write { at: u32, line: GhostLine },
    /// All registers were replaced, after which the commit group has `armed` lines: one persist step.
    Latch { armed: u32 },
}
