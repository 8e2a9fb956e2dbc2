//! Recovery: the armed group is redone, the slot lines are read and compared with the root, and each
//! named node is put into its slot.
ghost use Rattle.std.specs.Prelude.{ℕ, ◌≡◌, ◌≢◌, ◌<◌, ◌^◌, ◌↔◌, true, false, length, All, Err, IsTrue, IfOk, IfSome, OnOk, OnErr, Some};
ghost use Rattle.pmem_base.specs.Geo.{shape_of};
ghost use Rattle.pmem_base.specs.Lines.{IsLine, line_at};
ghost use Rattle.board.specs.Steps.{Tells};
ghost use Rattle.counter_tree.specs.Accepted.{IsCutReading};
ghost use Rattle.counter_tree.specs.Layout.{tree_slots, tree_size, line_of_slot};
ghost use Rattle.counter_tree.specs.Shadow.{shadow_digests, shadow_height};
ghost use Rattle.counter_tree.specs.Nodes.{total};
ghost use Rattle.counter_tree.specs.Slots.{slot_read};
ghost use Rattle.pmem_base.specs.Layout.{meta_lines};
ghost use Rattle.asit_shadow.specs.declared.cache.CachedNode.{CachedNode};
ghost use Rattle.asit_shadow.specs.State.{cache_at, IsHeldNode};
ghost use Rattle.asit_shadow.specs.Steps.{held_of};
ghost use Rattle.call_plan.specs.Following.{Follows};
ghost use Rattle.asit_shadow.specs.RecoverPlans.{RecoverParts, slots_plan, slots_end, cached_named, cache_named};
ghost use Rattle.asit_shadow.specs.Recovering.{IsRestUsable, IsNameable, AreNamed, HasOnlyReadLines, rest_at};
ghost use Rattle.asit_shadow.specs.Promised.{Recovers, FollowsRecovery, FillsTaken, FollowsFill};

use crate::cache::CachedNode;
use crate::engine::TreeEngine;
use crate::room::take_room;
use board::Board;
use call_effects::Work;
use commit_regs::finish;
use counter_tree::{
    Node, ShadowTree, Watch, read_slot, shadow_height, slot_place, tree_slots, version,
};
use pmem_base::{Cut, Geo, Line, MemFault, Tag};
use seal_ledger::Go;
use std::alloc::Global;
use suite::Suite;

/// Why a recovery stops.
#[derive(Clone, Copy, Debug, PartialEq, Eq)]
pub enum TreeRec {
    /// Memory could not be had. Nothing has changed.
    Memory,
    /// Power was cut.
    Cut,
    /// The root over the slot lines read isn't the root register.
    Shadow { kept: Tag, found: Tag },
    /// The watch stopped: the slot lines read aren't the true ones, and have their root.
    Shown,
}

impl From<Cut> for TreeRec {
    ghost use Rattle.std.specs.Prelude.{◌≡◌};
    ghost use Rattle.asit_shadow.specs.declared.recovery.TreeRec.{TreeRec};

    ghost from_gives = { λ _ fault. fault ≡ TreeRec.Cut };

    fn from(_: Cut) -> Self {
        TreeRec::Cut
    }
}

impl From<MemFault> for TreeRec {
    ghost use Rattle.std.specs.Prelude.{◌≡◌};
    ghost use Rattle.asit_shadow.specs.declared.recovery.TreeRec.{TreeRec};

    ghost from_gives = { λ _ fault. fault ≡ TreeRec.Memory };

    fn from(_: MemFault) -> Self {
        TreeRec::Memory
    }
}

/// Recovers an engine over a device that power was cut from. The answer is the engine, and the digests that were made.
/// Errors: `Memory`, and nothing has changed, since memory is taken first; `Cut`; `Shadow { kept, found }` if the root
/// over the slot lines isn't the root register; `Shown` if the roots are equal and the slot lines aren't the true ones.
pub fn tree_recover<B: Board, S: Suite, W: Watch>(
    alloc: Global,
    geo: &Geo,
    board: &mut B,
    suite: &mut S,
    watch: &mut W,
) -> Result<(TreeEngine, Work), TreeRec>
    requires { IsRestUsable (shape_of geo.now) (rest_at B.Board W.Watch board.old watch.old) }
    ensures recovered { Recovers B.Board S.Suite W.Watch geo.now board.old suite.old watch.old
        board.new suite.new watch.new result }
    ensures usable { IsRestUsable (shape_of geo.now) (rest_at B.Board W.Watch board.new watch.new) }
    ensures shape { IfOk result (λ made. made.0.shape ≡ shape_of geo.now) }
    ensures keys { S.keys suite.new ≡ S.keys suite.old }
    ensures pads { S.pads suite.new ≡ S.pads suite.old }
    ensures tags { S.tags suite.new ≡ S.tags suite.old }
    ensures plan { FollowsRecovery B.Board S.Suite W.Watch geo.now board.old suite.old watch.old
        board.new suite.new watch.new result }
{
    let mut room = take_room(alloc, geo)?;
    geo.layout_is_one_to_one();
    match fill_room(
        geo,
        board,
        suite,
        watch,
        &mut room.slots,
        &mut room.cache,
        &mut room.tree,
    ) {
        Ok(()) => {}
        Err(fault) => return Err(fault),
    }
    let work = Work {
        trials: 0,
        digests: tree_digests(geo),
    };
    Ok((TreeEngine::new(*geo, room.cache, room.tree), work))
}

/// Finishes the armed group, reads the slot lines, compares their root, and puts each named node into
/// its slot.
fn fill_room<B: Board, S: Suite, W: Watch>(
    geo: &Geo,
    board: &mut B,
    suite: &mut S,
    watch: &mut W,
    slots: &mut [Line],
    cache: &mut [Option<CachedNode>],
    tree: &mut ShadowTree,
) -> Result<(), TreeRec>
    requires usable { IsRestUsable (shape_of geo.now) (rest_at B.Board W.Watch board.old watch.old) }
    requires slots { length slots.old ≡ tree_slots (shape_of geo.now) }
    requires whole { All IsLine slots.old }
    requires cache { length cache.old ≡ tree_slots (shape_of geo.now) }
    requires height { tree.old.height ≡ shadow_height (shape_of geo.now) }
    ensures filled { FillsTaken B.Board S.Suite W.Watch geo.now board.old suite.old watch.old
        board.new suite.new watch.new cache.new tree.new result }
    ensures usable { IsRestUsable (shape_of geo.now) (rest_at B.Board W.Watch board.new watch.new) }
    ensures keys { S.keys suite.new ≡ S.keys suite.old }
    ensures pads { S.pads suite.new ≡ S.pads suite.old }
    ensures tags { S.tags suite.new ≡ S.tags suite.old }
    ensures plan { FollowsFill B.Board S.Suite W.Watch geo.now board.old suite.old watch.old
        board.new suite.new watch.new slots.old cache.new tree.new result }
{
    geo.layout_is_one_to_one();
    match finish(board) {
        Ok(()) => {}
        Err(_) => return Err(TreeRec::Cut),
    }
    match read_slots(geo, board, slots) {
        Ok(()) => {}
        Err(_) => return Err(TreeRec::Cut),
    }
    let found = tree.fill(suite, slots);
    tree.is_whole();
    let kept = board.regs().root;
    if !is_kept(&kept, &found) {
        return Err(TreeRec::Shadow { kept, found });
    }
    match watch.see_slots(slots) {
        Go::Stop => return Err(TreeRec::Shown),
        Go::On => {}
    }
    put_named(geo, slots, cache);
    Ok(())
}

/// The digests of a shadow tree: one for each of its lines.
fn tree_digests(geo: &Geo) -> u64
    ensures { result ≡ shadow_digests (shape_of geo.now) }
{
    (4_u64.pow(u32::from(shadow_height(geo)) + 1) - 1) / 3
}

/// Reads all slot lines.
fn read_slots<B: Board>(geo: &Geo, board: &mut B, slots: &mut [Line]) -> Result<(), Cut>
    requires size { (B.device board.old).size ≡ tree_size (shape_of geo.now) }
    requires slots { length slots.old ≡ tree_slots (shape_of geo.now) }
    requires whole { All IsLine slots.old }
    ensures ok { OnOk result (HasOnlyReadLines (tree_slots (shape_of geo.now)) (B.device board.old) (B.device board.new)) }
    ensures whole { OnOk result (All IsLine slots.new) }
    ensures told { OnOk result ((i : ℕ) → i < tree_slots (shape_of geo.now)
        → Tells (B.device board.old).lines (line_of_slot (shape_of geo.now) i) (line_at slots.new i)) }
    ensures cut { OnErr result (IsCutReading (B.device board.old) (B.device board.new)) }
    ensures only_off { OnErr result ((B.device board.old).live ≡ false) }
    ensures plan { (at : RecoverParts) → Follows (slots_plan (shape_of geo.now) at slots.old) (B.device board.old) (B.device board.new)
        (slots_end at result slots.new) }
{
    'slots: for i in 0..tree_slots(geo) {
        let line = board.read_line(slot_place(geo, i))?;
        line.is_whole();
        slots[i as usize] = line;
    }
    Ok(())
}

/// Whether the root found is the one kept.
fn is_kept(kept: &Tag, found: &Tag) -> bool
    ensures { IsTrue result ↔ (kept.now ≡ found.now) }
{
    kept == found
}

/// Puts each named node into its slot, dirty.
fn put_named(geo: &Geo, slots: &[Line], cache: &mut [Option<CachedNode>])
    requires slots { length slots.now ≡ tree_slots (shape_of geo.now) }
    requires cache { length cache.old ≡ tree_slots (shape_of geo.now) }
    ensures held { (i : ℕ) (held : CachedNode) → cache_at cache.new i ≡ Some held → IsHeldNode (shape_of geo.now) held }
    ensures named { AreNamed (shape_of geo.now) slots.now cache.new }
    ensures value { cache.new ≡ cache_named (shape_of geo.now) slots.now }
{
    'slots: for i in 0..tree_slots(geo) {
        cache[i as usize] = named(geo, &slots[i as usize]);
    }
}

/// The node that a slot line names. `None` if that node can't be cached, which no true slot line names.
fn named(geo: &Geo, line: &Line) -> Option<CachedNode>
    ensures held { IfSome result (IsHeldNode (shape_of geo.now)) }
    ensures named { IsNameable (shape_of geo.now) (slot_read line.now) → result ≡ held_of (slot_read line.now) }
    ensures value { result ≡ cached_named (shape_of geo.now) (slot_read line.now) }
{
    match read_slot(line) {
        None => None,
        Some((x, node)) => held_if_whole(geo, x, node),
    }
}

/// A node in its slot, dirty. `None` if it isn't a node of the tree, or has no version.
fn held_if_whole(geo: &Geo, x: u32, node: Node) -> Option<CachedNode>
    ensures held { IfSome result (IsHeldNode (shape_of geo.now)) }
    ensures whole { x < meta_lines (shape_of geo.now) → total node < 2 ^ 64
        → result ≡ Some (record { x = x; node = node; dirty = true }) }
    ensures value { result ≡ cached_named (shape_of geo.now) (Some (record { x = x; node = node })) }
{
    node.is_whole();
    if x >= geo.metas() || version(&node).is_none() {
        return None;
    }
    Some(CachedNode {
        x,
        node,
        dirty: true,
    })
}
