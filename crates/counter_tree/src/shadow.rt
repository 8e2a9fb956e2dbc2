//! The shadow tree: a hash tree over the slot lines, kept on the chip.
ghost use Rattle.std.specs.Prelude.{ℕ, suc, ◌*◌, ◌+◌, ◌-◌, ◌≡◌, ◌<◌, ◌≤◌, ◌^◌, List, All, length, slice_set, IfOk};
ghost use Rattle.pmem_base.specs.declared.lines.Line.{Line};
ghost use Rattle.pmem_base.specs.Counts.{risen, risen_times};
ghost use Rattle.pmem_base.specs.Geo.{shape_of};
ghost use Rattle.pmem_base.specs.Layout.{level_start};
ghost use Rattle.pmem_base.specs.Lines.{IsLine, line_at};
ghost use Rattle.bonsai_tree.specs.Nodes.{node_over};
ghost use Rattle.bonsai_tree.specs.Paths.{new_path, new_root};
ghost use Rattle.pmem_base.specs.Lines.{put_lines};
ghost use Rattle.counter_tree.specs.Layout.{tree_slots};
ghost use Rattle.counter_tree.specs.Shadow.{shadow_height, root_of, IsShadowTree, tree_with, tree_root_with, ChipTree, IsChipTree, unfilled_tree, IsAtLevelOf, AreLeaves};

use crate::layout::tree_slots;
use bonsai_tree::{child_slot, node_of, parent, set_child};
use pmem_base::{Geo, Line, MemFault, Tag};
use std::alloc::Global;
use std::marker::Model;
use suite::Suite;

/// The levels of the shadow tree below its top: the least number of at least 1 with a leaf for each
/// slot.
pub fn shadow_height(geo: &Geo) -> u8
    ensures value { result ≡ shadow_height (shape_of geo.now) }
    ensures least { 1 ≤ result }
    ensures most { result ≤ 5 }
    ensures room { tree_slots (shape_of geo.now) ≤ 4 ^ result }
    ensures smallest { (h : ℕ) → 1 ≤ h → h < result → 4 ^ h < tree_slots (shape_of geo.now) }
{
    match tree_slots(geo) {
        0..=4 => 1,
        5..=16 => 2,
        17..=64 => 3,
        65..=256 => 4,
        _ => 5,
    }
}

/// The first position of a level of the shadow tree.
fn first_of_level(level: u8) -> u32
    requires { level ≤ 6 }
    ensures value { result ≡ level_start level }
    ensures bound { result ≤ 1365 }
{
    (4_u32.pow(u32::from(level)) - 1) / 3
}

/// The lines of the shadow tree, from the top down. A contract sees its height and the lines.
#[derive(Drop)]
pub struct ShadowTree {
    height: u8,
    lines: Vec<Line>,
}

impl Model for ShadowTree {
    ghost Value = { ChipTree };

    ghost view = { λ tree. record { height = tree.height; lines = tree.lines.items } };

    ghost invariant = { λ tree. IsChipTree (record { height = tree.height; lines = tree.lines.items }) };
}

impl ShadowTree {
    /// The shadow tree of a geometry, all lines zero: it has a leaf for each slot. An error is want of
    /// memory.
    pub fn new(alloc: Global, geo: &Geo) -> Result<ShadowTree, MemFault>
        ensures made { IfOk result (λ tree. tree ≡ unfilled_tree (shape_of geo.now)) }
        ensures room { IfOk result (λ tree. tree_slots (shape_of geo.now) ≤ 4 ^ tree.height) }
    {
        let height = shadow_height(geo);
        let lines = vec![in alloc; Line::default(); first_of_level(height + 1) as usize]?;
        Ok(ShadowTree { height, lines })
    }

    /// A law: the tree has 1 to 5 levels below its top, and all their lines.
    pub fn is_whole(&self)
        ensures { IsChipTree self.now }
    {
        let _ = &self.lines;
    }

    /// Line `x` of the tree.
    pub fn line(&self, x: u32) -> &Line
        requires { x < length self.now.lines }
        ensures { result.now ≡ line_at self.now.lines x }
    {
        &self.lines[x as usize]
    }

    /// Replaces line `x` of the tree.
    fn set_line(&mut self, x: u32, line: &Line)
        requires { x < length self.old.lines }
        ensures lines { self.new.lines ≡ slice_set self.old.lines x line.now }
        ensures height { self.new.height ≡ self.old.height }
    {
        line.is_whole();
        self.lines[x as usize] = *line;
    }

    /// The levels below the top.
    pub(crate) fn height(&self) -> u8
        ensures { result ≡ self.now.height }
    {
        self.height
    }

    /// The position of the leaf of slot `i`.
    pub(crate) fn leaf(&self, i: u32) -> u32
        requires { i < 4 ^ self.now.height }
        ensures value { result ≡ level_start self.now.height + i }
        ensures level { IsAtLevelOf self.now self.now.height result }
        ensures within { result < length self.now.lines }
    {
        self.is_whole();
        first_of_level(self.height()) + i
    }

    /// Makes the whole tree again over these slot lines, and answers the digest of its top. Cost: one digest for each
    /// line.
    pub fn fill<S: Suite>(&mut self, suite: &mut S, slots: &[Line]) -> Tag
        requires { length slots.now ≤ 4 ^ self.old.height }
        ensures tree { IsShadowTree (S.formulas_of (S.keys suite.old)) self.old.height slots.now self.new.lines }
        ensures root { result ≡ root_of (S.formulas_of (S.keys suite.old)) self.old.height slots.now }
        ensures height { self.new.height ≡ self.old.height }
        ensures digests { S.digests suite.new ≡ risen_times (level_start (suc self.old.height)) (S.digests suite.old) }
        ensures keys { S.keys suite.new ≡ S.keys suite.old }
        ensures pads { S.pads suite.new ≡ S.pads suite.old }
        ensures tags { S.tags suite.new ≡ S.tags suite.old }
    {
        self.put_leaves(slots);
        self.make_nodes(suite);
        self.is_whole();
        suite.digest(0, self.line(0))
    }

    /// Puts slot lines into the leaves, and zero lines into the leaves past them.
    fn put_leaves(&mut self, slots: &[Line])
        ensures leaves { AreLeaves self.old.height slots.now self.new.lines }
        ensures height { self.new.height ≡ self.old.height }
    {
        self.is_whole();
        let first = first_of_level(self.height());
        'leaves: for i in 0..first_of_level(self.height() + 1) - first {
            self.set_line(first + i, &line_or_zero(slots, i as usize));
        }
    }

    /// Makes the nodes over the leaves, from the last one up.
    fn make_nodes<S: Suite>(&mut self, suite: &mut S)
        ensures nodes { (x : ℕ) → x < level_start self.old.height
            → line_at self.new.lines x ≡ node_over (S.formulas_of (S.keys suite.old)) x (line_at self.new.lines) }
        ensures leaves { (x : ℕ) → level_start self.old.height ≤ x → line_at self.new.lines x ≡ line_at self.old.lines x }
        ensures height { self.new.height ≡ self.old.height }
        ensures digests { S.digests suite.new ≡ risen_times (4 * level_start self.old.height) (S.digests suite.old) }
        ensures keys { S.keys suite.new ≡ S.keys suite.old }
        ensures pads { S.pads suite.new ≡ S.pads suite.old }
        ensures tags { S.tags suite.new ≡ S.tags suite.old }
    {
        self.is_whole();
        let nodes = first_of_level(self.height());
        'nodes: for made in 0..nodes {
            let x = nodes - 1 - made;
            let node = self.node(suite, x);
            self.set_line(x, &node);
        }
    }

    /// The node over the four children of `x`.
    fn node<S: Suite>(&self, suite: &mut S, x: u32) -> Line
        requires { x < level_start self.now.height }
        ensures node { result ≡ node_over (S.formulas_of (S.keys suite.old)) x (line_at self.now.lines) }
        ensures whole { IsLine result }
        ensures digests { S.digests suite.new ≡ risen_times 4 (S.digests suite.old) }
        ensures keys { S.keys suite.new ≡ S.keys suite.old }
        ensures pads { S.pads suite.new ≡ S.pads suite.old }
        ensures tags { S.tags suite.new ≡ S.tags suite.old }
    {
        let first = self.first_child(x);
        let node = node_of(&[
            suite.digest(first, self.line(first)),
            suite.digest(first + 1, self.line(first + 1)),
            suite.digest(first + 2, self.line(first + 2)),
            suite.digest(first + 3, self.line(first + 3)),
        ]);
        node.is_whole();
        node
    }

    /// The first of the four children of `x`.
    fn first_child(&self, x: u32) -> u32
        requires { x < level_start self.now.height }
        ensures value { result ≡ 4 * x + 1 }
        ensures within { result + 3 < length self.now.lines }
        ensures bound { result ≤ 1361 }
    {
        self.is_whole();
        4 * x + 1
    }

    /// Replaces the line of slot `i`, and the digests on its path. The answer is the digest of the new
    /// top. It takes a digest for each line of the path.
    pub fn put<S: Suite>(&mut self, suite: &mut S, i: u32, line: &Line) -> Tag
        requires { i < 4 ^ self.old.height }
        ensures lines { self.new.lines ≡ tree_with (S.formulas_of (S.keys suite.old)) self.old.height self.old.lines i line.now }
        ensures root { result ≡ tree_root_with (S.formulas_of (S.keys suite.old)) self.old.height self.old.lines i line.now }
        ensures whole { IsLine line.now }
        ensures height { self.new.height ≡ self.old.height }
        ensures digests { S.digests suite.new ≡ risen_times (suc self.old.height) (S.digests suite.old) }
        ensures keys { S.keys suite.new ≡ S.keys suite.old }
        ensures pads { S.pads suite.new ≡ S.pads suite.old }
        ensures tags { S.tags suite.new ≡ S.tags suite.old }
    {
        line.is_whole();
        self.is_whole();
        let height = self.height();
        self.put_at(suite, height, self.leaf(i), line)
    }

    /// Replaces line `x`, which stands this many levels below the top, and the digests above it.
    fn put_at<S: Suite>(&mut self, suite: &mut S, level: u8, x: u32, line: &Line) -> Tag
        requires place { IsAtLevelOf self.old level x }
        ensures lines { self.new.lines ≡ put_lines (new_path (S.formulas_of (S.keys suite.old)) (line_at self.old.lines) level x line.now) self.old.lines }
        ensures root { result ≡ new_root (S.formulas_of (S.keys suite.old)) (line_at self.old.lines) level x line.now }
        ensures height { self.new.height ≡ self.old.height }
        ensures digests { S.digests suite.new ≡ risen_times (suc level) (S.digests suite.old) }
        ensures keys { S.keys suite.new ≡ S.keys suite.old }
        ensures pads { S.pads suite.new ≡ S.pads suite.old }
        ensures tags { S.tags suite.new ≡ S.tags suite.old }
    {
        line.is_whole();
        self.is_whole();
        let digest = suite.digest(x, line);
        if level == 0 {
            self.set_line(x, line);
            return digest;
        }
        let above = parent(x);
        let mut node = *self.line(above);
        set_child(&mut node, child_slot(x), &digest);
        let root = self.put_at(suite, level - 1, above, &node);
        self.set_line(x, line);
        root
    }
}

/// Line `i` of these, or a zero line past them.
pub(crate) fn line_or_zero(lines: &[Line], i: usize) -> Line
    ensures value { result ≡ line_at lines.now i }
    ensures whole { IsLine result }
{
    let line = match lines.get(i) {
        Some(line) => *line,
        None => Line::default(),
    };
    line.is_whole();
    line
}
