//! The memory that an engine takes, and that recovery and formatting work in.
ghost use Rattle.std.specs.Prelude.{◌≡◌, replicate, length, IfOk, Option, None};
ghost use Rattle.pmem_base.specs.Geo.{shape_of};
ghost use Rattle.pmem_base.specs.Lines.{zero_line};
ghost use Rattle.counter_tree.specs.Layout.{tree_slots};
ghost use Rattle.counter_tree.specs.Shadow.{unfilled_tree};

use crate::cache::CachedNode;
use counter_tree::{ShadowTree, tree_slots};
use pmem_base::{Geo, Line, MemFault};
use std::alloc::Global;

/// An empty cache, slot lines, and a shadow tree, all zero.
#[derive(Drop)]
pub(crate) struct Room {
    pub cache: Vec<Option<CachedNode>>,
    pub slots: Vec<Line>,
    pub tree: ShadowTree,
}

/// Takes the memory of an engine. Errors: running out of memory.
pub(crate) fn take_room(alloc: Global, geo: &Geo) -> Result<Room, MemFault>
    ensures cache { IfOk result (λ room. room.cache.items ≡ replicate (tree_slots (shape_of geo.now)) None) }
    ensures slots { IfOk result (λ room. room.slots.items ≡ replicate (tree_slots (shape_of geo.now)) zero_line) }
    ensures tree { IfOk result (λ room. room.tree ≡ unfilled_tree (shape_of geo.now)) }
{
    let count = tree_slots(geo) as usize;
    let cache = vec![in alloc; None; count]?;
    let slots = vec![in alloc; Line::default(); count]?;
    let tree = ShadowTree::new(alloc, geo)?;
    Ok(Room { cache, slots, tree })
}
