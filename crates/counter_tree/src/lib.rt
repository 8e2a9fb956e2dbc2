//! A counter tree: nodes of four counters and a tag, and their places on a device.
#![tactic(auto)]

mod accepted;
mod book;
mod differences;
mod laws;
mod layout;
mod nodes;
mod shadow;
mod slots;
mod watch;

pub use accepted::{FetchFault, fetch_line, fetch_node};
pub use book::WatchBook;
pub use laws::{
    chip_tree_stays_true, nodes_are_read_back, one_root_shows_clash, writes_keep_trees,
};
pub use layout::{
    node_place, slot_place, tag_place, tree_layout_is_one_to_one, tree_lines, tree_size, tree_slots,
};
pub use nodes::{Node, node_line, read_node, version};
pub use shadow::{ShadowTree, shadow_height};
pub use slots::{read_slot, slot_line, slot_of};
pub use watch::{LineSeal, Watch};
