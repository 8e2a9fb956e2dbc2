//! A call of an engine over a board in memory whose power is watched and whose accesses are logged: one watched board
//! for each command, so that its steps are those of the whole command.
#![tactic(auto)]

mod call;

pub use call::{BoardCall, CallEnd, make_call};
