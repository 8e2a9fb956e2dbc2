//! Shadow tables: entries that name a dirty block by the slot that it lies in.
#![tactic(auto)]

mod entries;
mod mirror;

pub use entries::{entry, named};
pub use mirror::Mirror;
