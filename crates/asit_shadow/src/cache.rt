//! What a slot of the cache holds.
use counter_tree::Node;

/// A cached node, and whether the device may have an older one.
#[derive(Clone, Copy)]
pub struct CachedNode {
    pub x: u32,
    pub node: Node,
    pub dirty: bool,
}
