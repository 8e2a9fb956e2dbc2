//! A page's path of the hash tree in the metadata cache: fetched and checked, named, renewed, and
//! written back.
#![tactic(auto)]

mod faults;
mod fetching;
mod naming;
mod renewal;
mod writing;

pub use faults::PathFault;
pub use fetching::fetch_path;
pub use naming::make_dirty;
pub use renewal::{Path, next_path, store_path};
pub use writing::write_back_one;
