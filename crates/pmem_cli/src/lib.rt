//! The whole program: traces answered, sample traces made, exhibits checked. Traces of other languages, answered
//! by any session.
#![tactic(auto)]

mod bytes;
mod checking;
mod determined;
mod ending;
mod lines;
mod logging;
mod making;
mod options;
mod printer;
mod program;
mod pulls;
mod sampling;
mod serving;
mod session;
mod sink;
mod source;
mod talking;
mod telling;
mod tree;
mod txn;
mod wear;

pub use bytes::GhostBytes;
pub use determined::{disturbed_run_is_a_prefix, run_is_determined, told_is_left};
pub use options::{Choices, SuiteName, Task, read_task};
pub use printer::{push_access, push_work};
pub use program::run;
pub use pulls::Pulls;
pub use sink::{MemSink, Sink, StdSink};
pub use source::{Failed, MemSource, Source, StdSource};
pub use talking::talk_all;
