//! A write: its path raised, armed with the new slot lines and their root, told to the watch, and
//! written.
ghost use Rattle.std.specs.Prelude.{suc, ◌≡◌, ◌<◌, ◌≤◌, ◌+◌, ◌*◌, ◌-◌, ◌%◌, ◌^◌, ◌==◌, ◌↔◌, false, true, All, length};
ghost use Rattle.pmem_base.specs.Counts.{risen_times};
ghost use Rattle.pmem_base.specs.Layout.{meta_lines};
ghost use Rattle.pmem_base.specs.Geo.{shape_of};
ghost use Rattle.counter_tree.specs.Layout.{tree_lines};
ghost use Rattle.counter_tree.specs.Nodes.{IsNode, counter, total};
ghost use Rattle.counter_tree.specs.Trees.{raised};
ghost use Rattle.asit_shadow.specs.State.{IsCached, IsCachedAs, IsHeldNode, top_node};
ghost use Rattle.asit_shadow.specs.Calls.{IsTreeSpentAnswer};
ghost use Rattle.asit_shadow.specs.Paths.{line_path};
ghost use Rattle.asit_shadow.specs.Steps.{KeepsOtherRegisters};
ghost use Rattle.asit_shadow.specs.Parts.{IsWatchReady, IsTreeUsable, tree_parts_at};
ghost use Rattle.asit_shadow.specs.WritePlans.{cached_node, raised_node, raised_path, named_all};
ghost use Rattle.asit_shadow.specs.Writing.{set_pairs, position_below, IsPathRaised, dirty_entries, armed_lines, IsWriteTold, pair_at};
ghost use Rattle.asit_shadow.specs.Promised.{WritesUp, FollowsWriteUp};

use crate::cache::CachedNode;
use crate::engine::TreeEngine;
use crate::fault::TreeFault;
use crate::seals::{sealed, tag_line};
use arrayvec::ArrayVec;
use board::Board;
use bonsai_tree::{child_slot, path};
use commit_regs::{arm, finish};
use counter_tree::{LineSeal, Node, Watch, slot_line, slot_of, slot_place, tag_place, version};
use pmem_base::{Geo, Line, Regs};
use suite::Suite;

impl TreeEngine {
    /// Writes data line `at`. The answer is its new counter.
    pub(crate) fn write_line<B: Board, S: Suite, W: Watch>(
        &mut self,
        board: &mut B,
        suite: &mut S,
        watch: &mut W,
        at: u32,
        line: &Line,
    ) -> Result<u64, TreeFault>
        requires line { at < tree_lines self.old.shape }
        requires usable { IsTreeUsable self.old.shape (tree_parts_at B.Board W.Watch self.old board.old watch.old) }
        requires up { self.old.down ≡ false }
        ensures written { WritesUp B.Board S.Suite W.Watch self.old board.old suite.old watch.old
            self.new board.new suite.new watch.new at line.now result }
        ensures spent { IsTreeSpentAnswer result ↔ (total (top_node self.old.cache) ≡ 2 ^ 64 - 1) }
        ensures keys { S.keys suite.new ≡ S.keys suite.old }
        ensures plan { FollowsWriteUp B.Board S.Suite W.Watch self.old board.old suite.old watch.old
            self.new board.new suite.new watch.new at line.now result }
    {
        self.is_whole();
        if is_used_up(&self.top()) {
            return Err(TreeFault::Spent);
        }
        match self.fetch(board, suite, watch, at) {
            Ok(_) => {}
            Err(fault) => return Err(fault),
        }
        self.is_whole();
        let nodes = self.raised(at);
        let seal = sealed(suite, at, last_counter(&nodes, at), line);
        let regs = self.next_regs(suite, board.regs(), at, &seal, &nodes);
        match arm(board, &regs) {
            Ok(()) => {}
            Err(_) => return Err(TreeFault::Cut),
        }
        self.tell(watch, at, &seal, &nodes);
        self.store(&nodes);
        match finish(board) {
            Ok(()) => {}
            Err(_) => return Err(TreeFault::Cut),
        }
        Ok(seal.counter)
    }

    /// The nodes of a line's path, from the top down, with one counter more on each level: that of the
    /// position below it.
    fn raised(&self, at: u32) -> ArrayVec<(u32, Node), 7>
        requires { at < tree_lines self.now.shape }
        ensures raised { IsPathRaised self.now.shape self.now.cache at result.items }
        ensures value { result.items ≡ raised_path self.now.shape self.now.cache at (self.now.shape.levels + 1) }
    {
        let geo = self.geo();
        geo.layout_is_one_to_one();
        let path = path(&geo, at / 4);
        let mut raised = ArrayVec::new();
        'levels: for level in 0..geo.levels() + 1 {
            let x = path.as_slice()[usize::from(level)];
            let below = position_below(&geo, &path, at, level);
            raised.push((x, raise(&self.node(x), child_slot(below))));
        }
        raised
    }

    /// Node `x` as its slot holds it, or zeros if the slot holds another node.
    fn node(&self, x: u32) -> Node
        requires { x < meta_lines self.now.shape }
        ensures cached { IsCached self.now.shape self.now.cache x → IsCachedAs self.now.shape self.now.cache x result }
        ensures version { total result < 2 ^ 64 }
        ensures value { result ≡ cached_node self.now.shape self.now.cache x }
    {
        self.is_whole();
        match self.cached(x) {
            Some(node) => node,
            None => Node([0; 4]),
        }
    }

    /// The registers that arm a write: its group, and the root of the shadow tree with the path's nodes
    /// named in their slots.
    fn next_regs<S: Suite>(
        &mut self,
        suite: &mut S,
        regs: &Regs,
        at: u32,
        seal: &LineSeal,
        nodes: &ArrayVec<(u32, Node), 7>,
    ) -> Regs
        requires line { at < tree_lines self.old.shape }
        requires nodes { All (λ pair. pair.0 < meta_lines self.old.shape) nodes.now.items }
        ensures group { result.group.items ≡ armed_lines self.old.shape at seal.now nodes.now.items }
        ensures named { (self.new.tree, result.root) ≡ named_all (S.formulas_of (S.keys suite.old)) self.old.shape nodes.now.items
            (self.old.tree, regs.now.root) }
        ensures others { KeepsOtherRegisters regs.now result }
        ensures shape { self.new.shape ≡ self.old.shape }
        ensures cache { self.new.cache ≡ self.old.cache }
        ensures down { self.new.down ≡ self.old.down }
        ensures keys { S.keys suite.new ≡ S.keys suite.old }
        ensures pads { S.pads suite.new ≡ S.pads suite.old }
        ensures tags { S.tags suite.new ≡ S.tags suite.old }
        ensures digests { S.digests suite.new ≡ risen_times (length nodes.now.items * suc self.old.tree.height) (S.digests suite.old) }
    {
        self.is_whole();
        let geo = self.geo();
        let mut next = regs.emptied();
        next.group.push((at, seal.cipher));
        next.group.push((tag_place(&geo, at), tag_line(&seal.tag)));
        'levels: for (x, node) in nodes.as_slice() {
            let i = slot_of(&geo, *x);
            let line = slot_line(*x, node);
            next.root = self.name(suite, i, &line);
            next.group.push((slot_place(&geo, i), line));
        }
        next
    }

    /// Tells the watch of a write that is armed.
    fn tell<W: Watch>(
        &self,
        watch: &mut W,
        at: u32,
        seal: &LineSeal,
        nodes: &ArrayVec<(u32, Node), 7>,
    )
        requires line { at < tree_lines self.now.shape }
        requires nodes { All (λ pair. pair.0 < meta_lines self.now.shape) nodes.now.items }
        requires ready { IsWatchReady self.now.shape (W.watched watch.old) }
        ensures { IsWriteTold self.now.shape at seal.now nodes.now.items (W.watched watch.old) (W.watched watch.new) }
    {
        let geo = self.geo();
        watch.note_seal(at, seal.counter, &seal.cipher, &seal.tag);
        'levels: for (x, node) in nodes.as_slice() {
            watch.note_node(*x, node);
            watch.note_slot(slot_of(&geo, *x), &slot_line(*x, node));
        }
    }

    /// Lets the slots of a path hold its new nodes, dirty.
    fn store(&mut self, nodes: &ArrayVec<(u32, Node), 7>)
        requires { All (λ pair. IsHeldNode self.old.shape (record { x = pair.0; node = pair.1; dirty = true })) nodes.now.items }
        ensures cache { self.new.cache ≡ set_pairs (dirty_entries self.old.shape nodes.now.items) self.old.cache }
        ensures shape { self.new.shape ≡ self.old.shape }
        ensures tree { self.new.tree ≡ self.old.tree }
        ensures down { self.new.down ≡ self.old.down }
    {
        let geo = self.geo();
        'levels: for (x, node) in nodes.as_slice() {
            let held = CachedNode {
                x: *x,
                node: *node,
                dirty: true,
            };
            self.hold(slot_of(&geo, *x), held);
        }
    }
}

/// Whether no write can be counted in this node any more.
fn is_used_up(node: &Node) -> bool
    requires { total node.now < 2 ^ 64 }
    ensures { result ≡ (total node.now == 2 ^ 64 - 1) }
{
    version(node) == Some(u64::MAX)
}

/// The counter of data line `at` in the last node of its path.
fn last_counter(nodes: &ArrayVec<(u32, Node), 7>, at: u32) -> u64
    requires { 1 ≤ length nodes.now.items }
    ensures { result ≡ counter (pair_at nodes.now.items (length nodes.now.items - 1)).1 (at % 4) }
{
    let (_, node) = nodes.as_slice()[nodes.len() - 1];
    node.0[at as usize % 4]
}

/// The position below a level of the path of data line `at`: the next of the path, or the line's own.
fn position_below(geo: &Geo, path: &ArrayVec<u32, 7>, at: u32, level: u8) -> u32
    requires line { at < tree_lines (shape_of geo.now) }
    requires path { path.now.items ≡ line_path (shape_of geo.now) at }
    requires level { level ≤ (shape_of geo.now).levels }
    ensures value { result ≡ position_below (shape_of geo.now) at level }
{
    if level == geo.levels() {
        geo.metas() + at
    } else {
        path.as_slice()[usize::from(level) + 1]
    }
}

/// A node with one counter raised by 1. If its version is 2^64 - 1, the node stays as it is; no node on the path of a
/// write that isn't spent is in that state.
fn raise(node: &Node, slot: u8) -> Node
    requires slot { slot < 4 }
    requires version { total node.now < 2 ^ 64 }
    ensures raised { total node.now < 2 ^ 64 - 1 → result ≡ raised node.now slot }
    ensures value { result ≡ raised_node node.now slot }
    ensures whole { IsNode result }
    ensures version { total result < 2 ^ 64 }
{
    let mut raised = *node;
    if !is_used_up(node) {
        raised.0[usize::from(slot)] += 1;
    }
    raised.is_whole();
    raised
}
