//! A log of the accesses that calls make of a board in memory, in their order.
#![tactic(auto)]

mod laws;
mod log;
mod logged;

pub use laws::logs_are_exact;
pub use log::AccessLog;
pub use logged::{Entry, Logged};
