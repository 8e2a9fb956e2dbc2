//! A device of lines and a register file, whose power may be cut between two persist steps.
#![tactic(auto)]

mod access;
mod accesses;
mod device;
mod memory;
mod tripped;

pub use access::Access;
pub use accesses::GhostAccesses;
pub use device::Board;
pub use memory::MemBoard;
pub use tripped::Tripped;
