//! The path of a data line: fetched from the top down, each node under the version that its parent has
//! for it.
ghost use Rattle.std.specs.Prelude.{◌≡◌, ◌<◌, true, length, IfOk, IfErr, OnOk, OnErr, IfSome, IfNone};
ghost use Rattle.pmem_base.specs.Geo.{shape_of};
ghost use Rattle.pmem_base.specs.Layout.{meta_lines};
ghost use Rattle.board.specs.Steps.{WasCut};
ghost use Rattle.counter_tree.specs.Layout.{tree_lines, tree_slots, tree_size};
ghost use Rattle.counter_tree.specs.Slots.{slot_of};
ghost use Rattle.asit_shadow.specs.State.{cache_at, IsCached, IsCachedAs};
ghost use Rattle.asit_shadow.specs.Parts.{IsTreeUsable, tree_parts_at, tree_setup_at};
ghost use Rattle.asit_shadow.specs.Work.{holds_dirty};
ghost use Rattle.asit_shadow.specs.Plans.{node_in};
ghost use Rattle.asit_shadow.specs.Fetching.{IsRoomMade, IsNodeTaken};
ghost use Rattle.asit_shadow.specs.Promised.{FetchesPath, StopsFetch, FetchesNode, MissesNode, FollowsFetch, FollowsLevel, FollowsRoom, FollowsTaken};
ghost use Rattle.call_effects.specs.SuiteStates.{setup_with};

use crate::cache::CachedNode;
use crate::engine::TreeEngine;
use crate::fault::TreeFault;
use board::Board;
use bonsai_tree::{child_slot, path};
use counter_tree::{FetchFault, Node, Watch, fetch_node, node_line, node_place, slot_of};
use pmem_base::{Cut, Geo};
use suite::Suite;

impl TreeEngine {
    /// Fetches the path of data line `at`. The answer is its last node, which has the line's counter. At
    /// most one line write for each level below the top.
    pub(crate) fn fetch<B: Board, S: Suite, W: Watch>(
        &mut self,
        board: &mut B,
        suite: &mut S,
        watch: &mut W,
        at: u32,
    ) -> Result<Node, TreeFault>
        requires line { at < tree_lines self.old.shape }
        requires usable { IsTreeUsable self.old.shape (tree_parts_at B.Board W.Watch self.old board.old watch.old) }
        ensures fetched { IfOk result (FetchesPath B.Board S.Suite W.Watch self.old board.old suite.old watch.old
            self.new board.new suite.new watch.new at) }
        ensures stopped { IfErr result (StopsFetch B.Board S.Suite W.Watch self.old board.old suite.old watch.old
            self.new board.new suite.new watch.new at) }
        ensures keys { S.keys suite.new ≡ S.keys suite.old }
        ensures digests { S.digests suite.new ≡ S.digests suite.old }
        ensures plan { FollowsFetch B.Board S.Suite W.Watch self.old board.old suite.old watch.old
            self.new board.new suite.new watch.new at result }
    {
        let geo = self.geo();
        let path = path(&geo, at / 4);
        self.is_whole();
        let mut node = self.top();
        'levels: for level in 0..geo.levels() {
            let x = path.as_slice()[usize::from(level) + 1];
            let version = node.0[usize::from(child_slot(x))];
            node = match self.node_of(board, suite, watch, x, version) {
                Ok(node) => node,
                Err(fault) => return Err(fault),
            };
        }
        Ok(node)
    }

    /// Node `x`, whose parent says it to be of this version: from its slot, or else from the board; then
    /// it takes its slot.
    fn node_of<B: Board, S: Suite, W: Watch>(
        &mut self,
        board: &mut B,
        suite: &mut S,
        watch: &mut W,
        x: u32,
        version: u64,
    ) -> Result<Node, TreeFault>
        requires position { x < meta_lines self.old.shape }
        requires size { (B.device board.old).size ≡ tree_size self.old.shape }
        requires nodes { length (W.watched watch.old).nodes ≡ meta_lines self.old.shape }
        ensures had { IfOk result (FetchesNode B.Board S.Suite W.Watch self.old board.old suite.old watch.old
            self.new board.new suite.new watch.new x version) }
        ensures missed { IfErr result (MissesNode B.Board S.Suite W.Watch self.old board.old suite.old watch.old
            self.new board.new suite.new watch.new x version) }
        ensures keys { S.keys suite.new ≡ S.keys suite.old }
        ensures digests { S.digests suite.new ≡ S.digests suite.old }
        ensures plan { FollowsLevel B.Board S.Suite W.Watch self.old board.old suite.old watch.old
            self.new board.new suite.new watch.new x version result }
    {
        self.is_whole();
        if let Some(node) = self.cached(x) {
            return Ok(node);
        }
        let geo = self.geo();
        let i = slot_of(&geo, x);
        let node = taken(&geo, board, suite, watch, x, version)?;
        node.is_whole();
        match self.make_room(board, suite, i) {
            Ok(()) => {}
            Err(_) => return Err(TreeFault::Cut),
        }
        let held = CachedNode {
            x,
            node,
            dirty: false,
        };
        self.hold(i, held);
        Ok(node)
    }

    /// Node `x`, if it is in its slot.
    pub(crate) fn cached(&self, x: u32) -> Option<Node>
        requires { x < meta_lines self.now.shape }
        ensures some { IfSome result (IsCachedAs self.now.shape self.now.cache x) }
        ensures none { IfNone result (IsCached self.now.shape self.now.cache x → ⊥) }
        ensures value { result ≡ node_in (cache_at self.now.cache (slot_of self.now.shape x)) x }
    {
        match self.held(slot_of(&self.geo(), x)) {
            Some(held) => { if held.x == x { Some(held.node) } else { None } }
            None => None,
        }
    }

    /// Writes the node of slot `i` to the board with its tag, if the board may have an older one.
    fn make_room<B: Board, S: Suite>(&self, board: &mut B, suite: &mut S, i: u32) -> Result<(), Cut>
        requires slot { i < tree_slots self.now.shape }
        requires size { (B.device board.old).size ≡ tree_size self.now.shape }
        ensures ok { OnOk result (IsRoomMade (tree_setup_at S.Suite self.now suite.old)
            (cache_at self.now.cache i) (B.device board.old) (B.device board.new)) }
        ensures cut { OnErr result (WasCut (B.device board.old) (B.device board.new)) }
        ensures due { OnErr result (holds_dirty (cache_at self.now.cache i) ≡ true) }
        ensures keys { S.keys suite.new ≡ S.keys suite.old }
        ensures pads { S.pads suite.new ≡ S.pads suite.old }
        ensures digests { S.digests suite.new ≡ S.digests suite.old }
        ensures plan { FollowsRoom B.Board S.Suite self.now board.old suite.old board.new suite.new i result }
    {
        self.is_whole();
        let geo = self.geo();
        let held = match self.held(i) {
            Some(held) => held,
            None => return Ok(()),
        };
        if !held.dirty {
            return Ok(());
        }
        let line = node_line(suite, held.x, &held.node);
        board.write_line(node_place(&geo, held.x), &line)
    }
}

/// Reads node `x` under a version.
fn taken<B: Board, S: Suite, W: Watch>(
    geo: &Geo,
    board: &mut B,
    suite: &mut S,
    watch: &mut W,
    x: u32,
    version: u64,
) -> Result<Node, TreeFault>
    requires position { x < meta_lines (shape_of geo.now) }
    requires size { (B.device board.old).size ≡ tree_size (shape_of geo.now) }
    requires nodes { length (W.watched watch.old).nodes ≡ meta_lines (shape_of geo.now) }
    ensures taken { IsNodeTaken (setup_with S.Suite geo.now suite.old) x version
        (B.device board.old) (B.device board.new) (W.watched watch.old) (W.watched watch.new) result }
    ensures keys { S.keys suite.new ≡ S.keys suite.old }
    ensures digests { S.digests suite.new ≡ S.digests suite.old }
    ensures plan { FollowsTaken B.Board S.Suite W.Watch geo.now board.old suite.old watch.old
        board.new suite.new watch.new x version result }
{
    match fetch_node(geo, board, suite, watch, x, version) {
        Ok(node) => Ok(node),
        Err(FetchFault::Cut) => Err(TreeFault::Cut),
        Err(FetchFault::Refused) => Err(TreeFault::Node { x }),
        Err(FetchFault::Shown) => Err(TreeFault::Shown),
    }
}
