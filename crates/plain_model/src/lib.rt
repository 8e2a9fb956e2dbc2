//! The plain machine that a user sees, the language of its traces, and what a run prints.
//! Definitions and a law of them: nothing here is executed.
#![tactic(auto)]

ghost use Rattle.plain_model.specs.Waiting.{DurableWritesStay};

use pmem_base::Kind;

/// Why a run ends.
#[derive(Clone, Copy, Debug, PartialEq, Eq)]
pub enum Stop {
    /// The trace was read to its end.
    Finished,
    /// Memory could not be had.
    Memory,
    /// The words of the command line break its rules.
    Words,
    /// The source failed.
    ReadFault,
    /// The sink failed.
    WriteFault,
    /// Line `number`, counted from 1, isn't in the grammar.
    Refused { number: u32, kind: Kind },
    /// The last answer is an exhibit.
    Shown,
    /// A byte follows the greatest number of lines.
    TooManyLines,
}

/// A law: in a durable queue a write stays in its place until a drain or a fence answers for it, or a
/// posted one takes its place. No cut, `off` or recovery takes it away.
pub fn durable_writes_stay()
    ensures { DurableWritesStay }
{}
