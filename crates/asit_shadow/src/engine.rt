//! The engine's parts on the chip: the cache of nodes, and the shadow tree over the slot lines.
ghost use Rattle.std.specs.Prelude.{suc, ◌≡◌, ◌<◌, ◌^◌, false, slice_set, Option, Some};
ghost use Rattle.pmem_base.specs.Counts.{risen_times};
ghost use Rattle.pmem_base.specs.Geo.{shape_of};
ghost use Rattle.pmem_base.specs.Lines.{IsLine};
ghost use Rattle.pmem_base.specs.Shape.{IsShape};
ghost use Rattle.counter_tree.specs.Nodes.{total};
ghost use Rattle.counter_tree.specs.Layout.{tree_slots};
ghost use Rattle.counter_tree.specs.Shadow.{tree_with, tree_root_with};
ghost use Rattle.asit_shadow.specs.State.{TreeState, cache_at, top_node, IsHeldNode, IsTreeEngine};

use crate::cache::CachedNode;
use counter_tree::{Node, ShadowTree};
use pmem_base::{Geo, Line, Tag};
use std::marker::Model;
use suite::Suite;

/// The controller's parts on the chip but its registers. Slot 0 of the cache holds the top, and each
/// lower level has as many slots as the geometry has sets. A contract sees a `TreeState`.
#[derive(Drop)]
pub struct TreeEngine {
    geo: Geo,
    cache: Vec<Option<CachedNode>>,
    tree: ShadowTree,
    down: bool,
}

impl Model for TreeEngine {
    ghost use Rattle.pmem_base.specs.Geo.{shape_of};
    ghost use Rattle.asit_shadow.specs.State.{TreeState, IsTreeEngine};

    ghost Value = { TreeState };

    ghost view = { λ engine. record {
      shape = shape_of engine.geo;
      cache = engine.cache.items;
      tree = engine.tree;
      down = engine.down;
    } };

    ghost invariant = { λ engine. IsTreeEngine (record {
      shape = shape_of engine.geo;
      cache = engine.cache.items;
      tree = engine.tree;
      down = engine.down;
    }) };
}

impl TreeEngine {
    /// An engine with this cache and this shadow tree.
    pub(crate) fn new(geo: Geo, cache: Vec<Option<CachedNode>>, tree: ShadowTree) -> TreeEngine
        requires { IsTreeEngine (record { shape = shape_of geo; cache = cache.items; tree = tree; down = false }) }
        ensures { result ≡ record { shape = shape_of geo; cache = cache.items; tree = tree; down = false } }
    {
        TreeEngine {
            geo,
            cache,
            tree,
            down: false,
        }
    }

    /// A law: the cache has its slots, each cached node stands on the tree and has a version, and the
    /// shadow tree has its height.
    pub fn is_whole(&self)
        ensures engine { IsTreeEngine self.now }
        ensures shape { IsShape self.now.shape }
    {
        self.geo.layout_is_one_to_one();
    }

    /// The geometry.
    pub(crate) fn geo(&self) -> Geo
        ensures { shape_of result ≡ self.now.shape }
    {
        self.geo
    }

    /// Whether an earlier call was cut, or shown.
    pub(crate) fn is_down(&self) -> bool
        ensures { result ≡ self.now.down }
    {
        self.down
    }

    /// Lets this be whether the engine is down.
    pub(crate) fn set_down(&mut self, down: bool)
        ensures shape { self.new.shape ≡ self.old.shape }
        ensures cache { self.new.cache ≡ self.old.cache }
        ensures tree { self.new.tree ≡ self.old.tree }
        ensures down { self.new.down ≡ down }
    {
        self.down = down;
    }

    /// What slot `i` holds.
    pub(crate) fn held(&self, i: u32) -> Option<CachedNode>
        requires { i < tree_slots self.now.shape }
        ensures { result ≡ cache_at self.now.cache i }
    {
        self.cache[i as usize]
    }

    /// The node of the top.
    pub(crate) fn top(&self) -> Node
        ensures value { result ≡ top_node self.now.cache }
        ensures version { total result < 2 ^ 64 }
    {
        self.is_whole();
        match self.held(0) {
            Some(held) => held.node,
            None => Node([0; 4]),
        }
    }

    /// Lets slot `i` hold a node.
    pub(crate) fn hold(&mut self, i: u32, held: CachedNode)
        requires slot { i < tree_slots self.old.shape }
        requires held { IsHeldNode self.old.shape held }
        ensures cache { self.new.cache ≡ slice_set self.old.cache i (Some held) }
        ensures shape { self.new.shape ≡ self.old.shape }
        ensures tree { self.new.tree ≡ self.old.tree }
        ensures down { self.new.down ≡ self.old.down }
    {
        self.cache[i as usize] = Some(held);
    }

    /// Replaces the line of slot `i` in the shadow tree. The answer is the digest of its new top.
    pub(crate) fn name<S: Suite>(&mut self, suite: &mut S, i: u32, line: &Line) -> Tag
        requires { i < tree_slots self.old.shape }
        ensures lines { self.new.tree.lines ≡ tree_with (S.formulas_of (S.keys suite.old)) self.old.tree.height self.old.tree.lines i line.now }
        ensures root { result ≡ tree_root_with (S.formulas_of (S.keys suite.old)) self.old.tree.height self.old.tree.lines i line.now }
        ensures whole { IsLine line.now }
        ensures height { self.new.tree.height ≡ self.old.tree.height }
        ensures shape { self.new.shape ≡ self.old.shape }
        ensures cache { self.new.cache ≡ self.old.cache }
        ensures down { self.new.down ≡ self.old.down }
        ensures keys { S.keys suite.new ≡ S.keys suite.old }
        ensures pads { S.pads suite.new ≡ S.pads suite.old }
        ensures tags { S.tags suite.new ≡ S.tags suite.old }
        ensures digests { S.digests suite.new ≡ risen_times (suc self.old.tree.height) (S.digests suite.old) }
    {
        self.is_whole();
        let root = self.tree.put(suite, i, line);
        self.tree.is_whole();
        root
    }
}
