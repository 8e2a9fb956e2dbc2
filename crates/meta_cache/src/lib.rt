//! The metadata cache: a bank for each level, of sets of ways, by recency.
#![tactic(auto)]

mod bank;
mod cache;
mod set;
mod slot;

pub use cache::Cache;
pub use slot::Slot;
