//! The engine over a counter tree, whose cached nodes are kept in a shadow that a tree on the chip protects.
#![tactic(auto)]

mod cache;
mod calls;
mod determined;
mod engine;
mod fault;
mod fetching;
mod formatting;
mod laws;
mod recovery;
mod room;
mod seals;
mod writing;

pub use cache::CachedNode;
pub use determined::{
    tree_format_is_determined, tree_read_is_determined, tree_recover_is_determined,
    tree_write_is_determined,
};
pub use engine::TreeEngine;
pub use fault::TreeFault;
pub use formatting::tree_format;
pub use laws::{
    fetches_are_few, fetches_are_true, formatting_is_sound, groups_are_durable,
    kept_places_are_read, paths_are_named, places_are_kept, plain_machine_goes_along,
    reads_are_plain, recovery_restores, slots_are_apart, writes_are_atomic,
};
pub use recovery::{TreeRec, tree_recover};
