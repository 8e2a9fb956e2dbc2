//! Posted writes waiting at eight ports.
#![tactic(auto)]

mod ports;
mod queue;
mod seen;

pub use ports::Ports;
pub use seen::{Seen, overlay};
