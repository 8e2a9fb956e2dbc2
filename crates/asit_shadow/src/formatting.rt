//! Formatting.
ghost use Rattle.std.specs.Prelude.{◌≡◌, ◌<◌, ◌≤◌, ◌+◌, ◌*◌, ◌^◌, true, length, option_map, IfOk, OnOk, OnErr, Ok};
ghost use Rattle.pmem_base.specs.declared.lines.Line.{Line};
ghost use Rattle.pmem_base.specs.Geo.{shape_of};
ghost use Rattle.pmem_base.specs.Layout.{meta_lines};
ghost use Rattle.pmem_base.specs.Registers.{empty_regs};
ghost use Rattle.board.specs.Steps.{HasWritten, HasLatched, with_line};
ghost use Rattle.counter_tree.specs.Layout.{tree_lines, tree_slots, tree_size, line_of_tag};
ghost use Rattle.counter_tree.specs.Shadow.{shadow_digests, shadow_height};
ghost use Rattle.counter_tree.specs.Watch.{HasSealNoted};
ghost use Rattle.call_effects.specs.Steady.{StaysSteady};
ghost use Rattle.call_effects.specs.SuiteStates.{SuiteRise, suite_at, setup_with};
ghost use Rattle.asit_shadow.specs.Parts.{tree_parts_of, IsTreeUsable};
ghost use Rattle.asit_shadow.specs.Paths.{tag_only};
ghost use Rattle.asit_shadow.specs.Recovering.{rest_at};
ghost use Rattle.call_plan.specs.Following.{Follows};
ghost use Rattle.asit_shadow.specs.Formatting.{sealing_turn, sealing_plan, nodes_plan, naming_plan};
ghost use Rattle.asit_shadow.specs.Formatting.{first_tree_seal, first_slots, first_sealed, tree_sealed_lines, node_lines_written, slot_lines_written, AreSealsTold, AreNodesTold, AreSlotsTold, HasDeviceFormatted};
ghost use Rattle.asit_shadow.specs.Promised.{Formats, CountsFormat};

use crate::cache::CachedNode;
use crate::engine::TreeEngine;
use crate::room::take_room;
use crate::seals::{sealed, tag_line};
use board::Board;
use counter_tree::{
    Node, ShadowTree, Watch, node_line, node_place, slot_line, slot_place, tag_place, tree_lines,
    tree_slots,
};
use pmem_base::{Geo, Line, MemFault, Regs, Tag};
use std::alloc::Global;
use suite::Suite;

/// Makes a device new: each data line is sealed as zeros under counter 0, with its tag; the nodes have zero counters;
/// slot 0 names the top, and the other slots are empty. The answer is an engine with the top cached. Errors: running
/// out of memory.
pub fn tree_format<B: Board, S: Suite, W: Watch>(
    alloc: Global,
    geo: &Geo,
    board: &mut B,
    suite: &mut S,
    watch: &mut W,
) -> Result<TreeEngine, MemFault>
    requires size { (B.device board.old).size ≡ tree_size (shape_of geo.now) }
    requires steady { (B.device board.old).steady ≡ true }
    requires seals { length (W.watched watch.old).seals ≡ tree_lines (shape_of geo.now) }
    requires nodes { length (W.watched watch.old).nodes ≡ meta_lines (shape_of geo.now) }
    requires slots { length (W.watched watch.old).slots ≡ tree_slots (shape_of geo.now) }
    ensures formatted { IfOk result (Formats B.Board S.Suite W.Watch geo.now board.old suite.old watch.old
        board.new suite.new watch.new) }
    ensures usable { IfOk result (λ engine. IsTreeUsable (shape_of geo.now) (tree_parts_of engine (B.device board.new) (W.watched watch.new))) }
    ensures counts { OnOk result (CountsFormat S.Suite geo.now suite.old suite.new) }
    ensures keys { S.keys suite.new ≡ S.keys suite.old }
    ensures err { OnErr result (rest_at B.Board W.Watch board.new watch.new ≡ rest_at B.Board W.Watch board.old watch.old) }
    ensures err_counts { OnErr result (SuiteRise 0 0 0 (suite_at S.Suite suite.old)
        (suite_at S.Suite suite.new)) }
{
    let mut room = take_room(alloc, geo)?;
    geo.layout_is_one_to_one();
    let top = Node([0; 4]);
    room.slots[0] = slot_line(0, &top);
    room.cache[0] = Some(CachedNode {
        x: 0,
        node: top,
        dirty: true,
    });
    fill_device(geo, board, suite, watch, &room.slots, &mut room.tree);
    room.tree.is_whole();
    Ok(TreeEngine::new(*geo, room.cache, room.tree))
}

/// Makes a device new, in memory that was taken: writes all lines and reports them to the watch, makes the tree over
/// the slot lines, and latches its root.
fn fill_device<B: Board, S: Suite, W: Watch>(
    geo: &Geo,
    board: &mut B,
    suite: &mut S,
    watch: &mut W,
    slots: &[Line],
    tree: &mut ShadowTree,
)
    requires size { (B.device board.old).size ≡ tree_size (shape_of geo.now) }
    requires steady { (B.device board.old).steady ≡ true }
    requires seals { length (W.watched watch.old).seals ≡ tree_lines (shape_of geo.now) }
    requires nodes { length (W.watched watch.old).nodes ≡ meta_lines (shape_of geo.now) }
    requires slots { length (W.watched watch.old).slots ≡ tree_slots (shape_of geo.now) }
    requires first { slots.now ≡ first_slots (shape_of geo.now) }
    requires height { tree.old.height ≡ shadow_height (shape_of geo.now) }
    ensures formatted { HasDeviceFormatted (setup_with S.Suite geo.now suite.old)
        (rest_at B.Board W.Watch board.old watch.old) (rest_at B.Board W.Watch board.new watch.new) tree.new }
    ensures counts { CountsFormat S.Suite geo.now suite.old suite.new }
    ensures keys { S.keys suite.new ≡ S.keys suite.old }
{
    geo.layout_is_one_to_one();
    seal_lines(geo, board, suite, watch);
    write_nodes(geo, board, suite, watch);
    write_slots(geo, board, watch, slots);
    let root = tree.fill(suite, slots);
    latch_root(board, &root);
}

/// Seals all data lines, and tells their seals.
fn seal_lines<B: Board, S: Suite, W: Watch>(geo: &Geo, board: &mut B, suite: &mut S, watch: &mut W)
    requires size { (B.device board.old).size ≡ tree_size (shape_of geo.now) }
    requires steady { (B.device board.old).steady ≡ true }
    requires seals { length (W.watched watch.old).seals ≡ tree_lines (shape_of geo.now) }
    ensures steady { StaysSteady (2 * tree_lines (shape_of geo.now)) (B.device board.old) (B.device board.new) }
    ensures plan { Follows (sealing_plan (setup_with S.Suite geo.now suite.old)) (B.device board.old) (B.device board.new) (Ok tt) }
    ensures lines { (B.device board.new).lines
        ≡ option_map (tree_sealed_lines (setup_with S.Suite geo.now suite.old) (tree_lines (shape_of geo.now))) (B.device board.old).lines }
    ensures told { AreSealsTold (S.formulas_of (S.keys suite.old)) (tree_lines (shape_of geo.now)) (W.watched watch.old) (W.watched watch.new) }
    ensures counts { SuiteRise (tree_lines (shape_of geo.now)) (tree_lines (shape_of geo.now)) 0
        (suite_at S.Suite suite.old)
        (suite_at S.Suite suite.new) }
    ensures keys { S.keys suite.new ≡ S.keys suite.old }
{
    'lines: for at in 0..tree_lines(geo) {
        seal_one(geo, board, suite, watch, at);
    }
}

/// Seals one data line, and tells its seal.
fn seal_one<B: Board, S: Suite, W: Watch>(
    geo: &Geo,
    board: &mut B,
    suite: &mut S,
    watch: &mut W,
    at: u32,
)
    requires size { (B.device board.old).size ≡ tree_size (shape_of geo.now) }
    requires steady { (B.device board.old).steady ≡ true }
    requires line { at < tree_lines (shape_of geo.now) }
    requires seals { length (W.watched watch.old).seals ≡ tree_lines (shape_of geo.now) }
    ensures steady { StaysSteady 2 (B.device board.old) (B.device board.new) }
    ensures plan { Follows (sealing_turn (setup_with S.Suite geo.now suite.old) at tt) (B.device board.old) (B.device board.new) (Ok tt) }
    ensures lines { (B.device board.new).lines
        ≡ first_sealed (S.formulas_of (S.keys suite.old)) (shape_of geo.now) at (B.device board.old).lines }
    ensures noted { HasSealNoted (W.watched watch.old) (W.watched watch.new) at (first_tree_seal (S.formulas_of (S.keys suite.old)) at) }
    ensures counts { SuiteRise 1 1 0 (suite_at S.Suite suite.old)
        (suite_at S.Suite suite.new) }
    ensures keys { S.keys suite.new ≡ S.keys suite.old }
{
    let seal = sealed(suite, at, 0, &Line::default());
    write_steady(board, at, &seal.cipher);
    write_steady(board, tag_place(geo, at), &tag_line(&seal.tag));
    watch.note_seal(at, 0, &seal.cipher, &seal.tag);
}

/// Writes zero nodes, and tells them.
fn write_nodes<B: Board, S: Suite, W: Watch>(geo: &Geo, board: &mut B, suite: &mut S, watch: &mut W)
    requires size { (B.device board.old).size ≡ tree_size (shape_of geo.now) }
    requires steady { (B.device board.old).steady ≡ true }
    requires nodes { length (W.watched watch.old).nodes ≡ meta_lines (shape_of geo.now) }
    ensures steady { StaysSteady (meta_lines (shape_of geo.now)) (B.device board.old) (B.device board.new) }
    ensures plan { Follows (nodes_plan (setup_with S.Suite geo.now suite.old)) (B.device board.old) (B.device board.new) (Ok tt) }
    ensures lines { (B.device board.new).lines
        ≡ option_map (node_lines_written (setup_with S.Suite geo.now suite.old) (meta_lines (shape_of geo.now))) (B.device board.old).lines }
    ensures told { AreNodesTold (meta_lines (shape_of geo.now)) (W.watched watch.old) (W.watched watch.new) }
    ensures counts { SuiteRise 0 (meta_lines (shape_of geo.now)) 0
        (suite_at S.Suite suite.old)
        (suite_at S.Suite suite.new) }
    ensures keys { S.keys suite.new ≡ S.keys suite.old }
{
    geo.layout_is_one_to_one();
    let node = Node([0; 4]);
    'nodes: for x in 0..geo.metas() {
        let line = node_line(suite, x, &node);
        write_steady(board, node_place(geo, x), &line);
        watch.note_node(x, &node);
    }
}

/// Writes the slot lines, and tells them.
fn write_slots<B: Board, W: Watch>(geo: &Geo, board: &mut B, watch: &mut W, slots: &[Line])
    requires size { (B.device board.old).size ≡ tree_size (shape_of geo.now) }
    requires steady { (B.device board.old).steady ≡ true }
    requires slots { length (W.watched watch.old).slots ≡ tree_slots (shape_of geo.now) }
    requires long { length slots.now ≡ tree_slots (shape_of geo.now) }
    ensures steady { StaysSteady (tree_slots (shape_of geo.now)) (B.device board.old) (B.device board.new) }
    ensures plan { Follows (naming_plan (shape_of geo.now) slots.now) (B.device board.old) (B.device board.new) (Ok tt) }
    ensures lines { (B.device board.new).lines
        ≡ option_map (slot_lines_written (shape_of geo.now) slots.now (tree_slots (shape_of geo.now))) (B.device board.old).lines }
    ensures told { AreSlotsTold slots.now (tree_slots (shape_of geo.now)) (W.watched watch.old) (W.watched watch.new) }
{
    'slots: for i in 0..tree_slots(geo) {
        let line = &slots[i as usize];
        write_steady(board, slot_place(geo, i), line);
        watch.note_slot(i, line);
    }
}

/// Writes a line of a steady board.
fn write_steady<B: Board>(board: &mut B, at: u32, line: &Line)
    requires place { at < (B.device board.old).size }
    requires steady { (B.device board.old).steady ≡ true }
    ensures { HasWritten (B.device board.old) at line.now (B.device board.new) }
{
    let _ = board.write_line(at, line);
}

/// Latches the first registers.
fn latch_root<B: Board>(board: &mut B, root: &Tag)
    requires { (B.device board.old).steady ≡ true }
    ensures { HasLatched (B.device board.old) (record empty_regs { root = root.now }) (B.device board.new) }
{
    let mut regs = Regs::empty();
    regs.root = *root;
    let _ = board.latch(&regs);
}
