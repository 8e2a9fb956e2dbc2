//! The place of each part of a counter tree on a device.
ghost use Rattle.std.specs.Prelude.{◌≡◌, ◌<◌, ◌≤◌};
ghost use Rattle.pmem_base.specs.Layout.{meta_lines};
ghost use Rattle.pmem_base.specs.Geo.{shape_of};
ghost use Rattle.counter_tree.specs.Layout.{tree_lines, tree_slots, tree_size, line_of_tag, line_of_node, line_of_slot, IsTreeOneToOne};

use pmem_base::Geo;

/// The number of data lines: four for each node of the last level.
#[tactic(auto, using(crate::proofs::LayoutLemmas::four_pages))]
pub fn tree_lines(geo: &Geo) -> u32
    ensures value { result ≡ tree_lines (shape_of geo.now) }
    ensures bound { result ≤ 16384 }
{
    4 * geo.pages()
}

/// The number of device lines: data, tags, nodes and slots.
pub fn tree_size(geo: &Geo) -> u32
    ensures value { result ≡ tree_size (shape_of geo.now) }
    ensures bound { result ≤ 38614 }
{
    2 * tree_lines(geo) + geo.metas() + tree_slots(geo)
}

/// The number of slots: one for the top, and one for each set of each lower level.
pub fn tree_slots(geo: &Geo) -> u32
    ensures value { result ≡ tree_slots (shape_of geo.now) }
    ensures bound { result ≤ 385 }
{
    1 + u32::from(geo.levels()) * u32::from(geo.sets())
}

/// The device line with the tag of data line `at`.
pub fn tag_place(geo: &Geo, at: u32) -> u32
    requires { at < tree_lines (shape_of geo.now) }
    ensures value { result ≡ line_of_tag (shape_of geo.now) at }
    ensures within { result < tree_size (shape_of geo.now) }
{
    tree_lines(geo) + at
}

/// The device line of node `x`.
pub fn node_place(geo: &Geo, x: u32) -> u32
    requires { x < meta_lines (shape_of geo.now) }
    ensures value { result ≡ line_of_node (shape_of geo.now) x }
    ensures within { result < tree_size (shape_of geo.now) }
{
    2 * tree_lines(geo) + x
}

/// The device line of slot `i`.
pub fn slot_place(geo: &Geo, i: u32) -> u32
    requires { i < tree_slots (shape_of geo.now) }
    ensures value { result ≡ line_of_slot (shape_of geo.now) i }
    ensures within { result < tree_size (shape_of geo.now) }
{
    2 * tree_lines(geo) + geo.metas() + i
}

/// A law: no two parts of the tree stand at one place of the device, and together they fill it.
pub fn tree_layout_is_one_to_one(geo: &Geo)
    ensures { IsTreeOneToOne (shape_of geo.now) }
{}
