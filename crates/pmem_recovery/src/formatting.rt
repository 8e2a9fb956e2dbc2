//! Formatting.
ghost use Rattle.std.specs.Prelude.{ℕ, ◌≡◌, ◌≢◌, ◌<◌, ◌≤◌, ◌+◌, ◌-◌, ◌*◌, ◌/◌, ◌%◌, [], true, All, IfOk, OnOk, OnErr, IsNone, length};
ghost use Rattle.pmem_base.specs.Geo.{shape_of};
ghost use Rattle.pmem_base.specs.Layout.{data_lines, meta_lines, pages, shadow_lines, device_lines, level_start};
ghost use Rattle.pmem_base.specs.Lines.{IsLine, line_at, tag_slot};
ghost use Rattle.board.specs.Steps.{HasWritten, HasLatched};
ghost use Rattle.seal_ledger.specs.Ledger.{IsOfShape};
ghost use Rattle.seal_ledger.specs.Notes.{HasRoom};
ghost use Rattle.split_counters.specs.Blocks.{packed};
ghost use Rattle.bonsai_tree.specs.Positions.{counter_position};
ghost use Rattle.bonsai_tree.specs.Nodes.{node_over, IsHashTree};
ghost use Rattle.pmem_engine.specs.Formatted.{first_block};
ghost use Rattle.pmem_engine.specs.Mendable.{new_engine};
ghost use Rattle.call_effects.specs.SuiteStates.{SuiteRise, setup_with, suite_at};
ghost use Rattle.pmem_recovery.specs.Promised.{CountsFormat};
ghost use Rattle.call_effects.specs.Steady.{StaysSteady};
ghost use Rattle.pmem_recovery.specs.Formatting.{first_cipher, first_tag, HasSealedFrom, HasSealedGroup, HasSealedAll, HasToldMeta, HasWrittenMeta, HasClearedTables, first_regs, HasFormatted};
ghost use Rattle.std.specs.Prelude.{Ok};
ghost use Rattle.call_plan.specs.Following.{Follows};
ghost use Rattle.line_seal.specs.Seals.{with_tag};
ghost use Rattle.pmem_recovery.specs.Formatting.{group_plan, seals_plan, metas_plan, zeros_plan};

use board::Board;
use bonsai_tree::node_of;
use line_seal::{put_tag, seal};
use meta_cache::Cache;
use pmem_base::{Ctr, Geo, Line, MemFault, Regs};
use pmem_engine::Engine;
use seal_ledger::Audit;
use shadow_tables::Mirror;
use split_counters::{Block, pack};
use std::alloc::Global;
use suite::Suite;

/// Makes a device new: each data line is sealed as zeros under the first major and 0, with its tag, the counter blocks
/// and the nodes over them, zero shadow lines, and the root. The answer is an engine with nothing cached. What it does
/// to the board, line by line, is `format_plan` of `specs/Formatting.antt`. Errors: running out of memory.
pub fn format<B: Board, S: Suite, A: Audit>(
    alloc: Global,
    geo: &Geo,
    board: &mut B,
    suite: &mut S,
    audit: &mut A,
) -> Result<Engine, MemFault>
    requires size { (B.device board.old).size ≡ device_lines (shape_of geo.now) }
    requires steady { (B.device board.old).steady ≡ true }
    requires audit { IsOfShape (shape_of geo.now) (A.ledger audit.old) }
    requires no_marks { (A.ledger audit.old).marks ≡ [] }
    requires no_exhibit { IsNone (A.ledger audit.old).exhibit }
    ensures formatted { IfOk result (λ engine. HasFormatted (setup_with S.Suite geo.now suite.old) (A.ledger audit.new) (B.device board.old) (B.device board.new) engine) }
    ensures keys { S.keys suite.new ≡ S.keys suite.old }
    ensures counts { OnOk result (CountsFormat S.Suite geo.now suite.old suite.new) }
    ensures capacity { A.capacity audit.old ≤ A.capacity audit.new }
    ensures err { OnErr result (A.ledger audit.new ≡ A.ledger audit.old) }
    ensures err_capacity { OnErr result (A.capacity audit.new ≡ A.capacity audit.old) }
    ensures err_lines { OnErr result ((B.device board.new).lines ≡ (B.device board.old).lines) }
    ensures err_regs { OnErr result ((B.device board.new).regs ≡ (B.device board.old).regs) }
    ensures err_device { OnErr result (B.device board.new ≡ B.device board.old) }
    ensures err_counts { OnErr result (SuiteRise 0 0 0 (suite_at S.Suite suite.old)
        (suite_at S.Suite suite.new)) }
{
    let cache = Cache::new(alloc, geo)?;
    let mirror = Mirror::new(alloc, geo)?;
    let mut truth = vec![in alloc; Line::default(); geo.metas() as usize]?;
    audit.reserve(geo.lines())?;
    fill_device(board, suite, audit, geo, &mut truth);
    Ok(Engine::new(*geo, cache, mirror))
}

/// Makes a device new, in memory that was taken: `truth` is a place for the metadata lines.
fn fill_device<B: Board, S: Suite, A: Audit>(
    board: &mut B,
    suite: &mut S,
    audit: &mut A,
    geo: &Geo,
    truth: &mut [Line],
)
    requires size { (B.device board.old).size ≡ device_lines (shape_of geo.now) }
    requires steady { (B.device board.old).steady ≡ true }
    requires lines { (A.ledger audit.old).data_lines ≡ data_lines (shape_of geo.now) }
    requires truth { length (A.ledger audit.old).truth ≡ meta_lines (shape_of geo.now) }
    requires no_marks { (A.ledger audit.old).marks ≡ [] }
    requires no_exhibit { IsNone (A.ledger audit.old).exhibit }
    requires room { HasRoom (A.ledger audit.old) (A.capacity audit.old) (data_lines (shape_of geo.now)) }
    requires long { length truth.old ≡ meta_lines (shape_of geo.now) }
    requires whole { All IsLine truth.old }
    ensures formatted { HasFormatted (setup_with S.Suite geo.now suite.old) (A.ledger audit.new) (B.device board.old) (B.device board.new) (new_engine (shape_of geo.now)) }
    ensures capacity { A.capacity audit.new ≡ A.capacity audit.old }
    ensures keys { S.keys suite.new ≡ S.keys suite.old }
    ensures counts { CountsFormat S.Suite geo.now suite.old suite.new }
{
    seal_lines(board, suite, audit, geo);
    fill_blocks(geo, truth);
    grow_nodes(suite, geo, truth);
    write_metadata(board, audit, geo, truth);
    clear_tables(board, geo);
    let top = truth[0];
    latch_root(board, suite, geo, &top);
}

/// Seals all data lines, and writes the tag lines.
fn seal_lines<B: Board, S: Suite, A: Audit>(board: &mut B, suite: &mut S, audit: &mut A, geo: &Geo)
    requires size { (B.device board.old).size ≡ device_lines (shape_of geo.now) }
    requires steady { (B.device board.old).steady ≡ true }
    requires lines { (A.ledger audit.old).data_lines ≡ data_lines (shape_of geo.now) }
    requires room { HasRoom (A.ledger audit.old) (A.capacity audit.old) (data_lines (shape_of geo.now)) }
    ensures capacity { A.capacity audit.new ≡ A.capacity audit.old }
    ensures keys { S.keys suite.new ≡ S.keys suite.old }
    ensures counts { SuiteRise (data_lines (shape_of geo.now)) (data_lines (shape_of geo.now)) (0) (suite_at S.Suite suite.old)
        (suite_at S.Suite suite.new) }
    ensures steady { StaysSteady (80 * pages (shape_of geo.now)) (B.device board.old) (B.device board.new) }
    ensures ledger { HasSealedFrom (setup_with S.Suite geo.now suite.old) 0 (data_lines (shape_of geo.now)) (A.ledger audit.old) (A.ledger audit.new) }
    ensures lines { HasSealedAll (setup_with S.Suite geo.now suite.old) (data_lines (shape_of geo.now)) (B.device board.new) }
    ensures plan { Follows (seals_plan (setup_with S.Suite geo.now suite.old)) (B.device board.old) (B.device board.new) (Ok tt) }
{
    'groups: for group in 0..16 * geo.pages() {
        seal_group(board, suite, audit, geo, group);
    }
}

/// Seals four data lines, and writes their tag line.
fn seal_group<B: Board, S: Suite, A: Audit>(
    board: &mut B,
    suite: &mut S,
    audit: &mut A,
    geo: &Geo,
    group: u32,
)
    requires size { (B.device board.old).size ≡ device_lines (shape_of geo.now) }
    requires steady { (B.device board.old).steady ≡ true }
    requires group { group < 16 * pages (shape_of geo.now) }
    requires lines { (A.ledger audit.old).data_lines ≡ data_lines (shape_of geo.now) }
    requires room { HasRoom (A.ledger audit.old) (A.capacity audit.old) 4 }
    ensures capacity { A.capacity audit.new ≡ A.capacity audit.old }
    ensures keys { S.keys suite.new ≡ S.keys suite.old }
    ensures counts { SuiteRise (4) (4) (0) (suite_at S.Suite suite.old)
        (suite_at S.Suite suite.new) }
    ensures steady { StaysSteady 5 (B.device board.old) (B.device board.new) }
    ensures ledger { HasSealedFrom (setup_with S.Suite geo.now suite.old) (4 * group) 4 (A.ledger audit.old) (A.ledger audit.new) }
    ensures lines { HasSealedGroup (setup_with S.Suite geo.now suite.old) group (B.device board.old) (B.device board.new) }
    ensures plan { Follows (group_plan (setup_with S.Suite geo.now suite.old) group) (B.device board.old) (B.device board.new) (Ok tt) }
{
    let mut tags = Line::default();
    'lines: for i in 0..4 {
        seal_one(board, suite, audit, geo, 4 * group + i, &mut tags);
    }
    write_steady(board, geo.tag_line(4 * group), &tags);
}

/// Seals one data line, and puts its tag into its slot.
fn seal_one<B: Board, S: Suite, A: Audit>(
    board: &mut B,
    suite: &mut S,
    audit: &mut A,
    geo: &Geo,
    at: u32,
    tags: &mut Line,
)
    requires size { (B.device board.old).size ≡ device_lines (shape_of geo.now) }
    requires steady { (B.device board.old).steady ≡ true }
    requires line { at < data_lines (shape_of geo.now) }
    requires lines { (A.ledger audit.old).data_lines ≡ data_lines (shape_of geo.now) }
    requires room { HasRoom (A.ledger audit.old) (A.capacity audit.old) 1 }
    ensures capacity { A.capacity audit.new ≡ A.capacity audit.old }
    ensures keys { S.keys suite.new ≡ S.keys suite.old }
    ensures counts { SuiteRise (1) (1) (0) (suite_at S.Suite suite.old)
        (suite_at S.Suite suite.new) }
    ensures written { HasWritten (B.device board.old) at (first_cipher (setup_with S.Suite geo.now suite.old) at) (B.device board.new) }
    ensures ledger { HasSealedFrom (setup_with S.Suite geo.now suite.old) at 1 (A.ledger audit.old) (A.ledger audit.new) }
    ensures here { tag_slot tags.new at ≡ first_tag (setup_with S.Suite geo.now suite.old) at }
    ensures others { (other : ℕ) → other % 4 ≢ at % 4 → tag_slot tags.new other ≡ tag_slot tags.old other }
    ensures tags { tags.new ≡ with_tag tags.old at (first_tag (setup_with S.Suite geo.now suite.old) at) }
{
    let ctr = Ctr {
        major: geo.major(),
        minor: 0,
    };
    let (cipher, tag) = seal(suite, at, ctr, &Line::default());
    write_steady(board, at, &cipher);
    put_tag(tags, at, &tag);
    audit.note_seal(at, ctr, &cipher, &tag);
}

/// Writes a line of a steady board.
fn write_steady<B: Board>(board: &mut B, at: u32, line: &Line)
    requires place { at < (B.device board.old).size }
    requires steady { (B.device board.old).steady ≡ true }
    ensures { HasWritten (B.device board.old) at line.now (B.device board.new) }
{
    let _ = board.write_line(at, line);
}

/// Equal counter blocks, with all minors 0.
fn fill_blocks(geo: &Geo, truth: &mut [Line])
    requires long { length truth.old ≡ meta_lines (shape_of geo.now) }
    requires whole { All IsLine truth.old }
    ensures whole { All IsLine truth.new }
    ensures blocks { (page : ℕ) → page < pages (shape_of geo.now)
        → line_at truth.new (counter_position (shape_of geo.now) page) ≡ packed (first_block (shape_of geo.now)) }
{
    let first = (geo.pages() - 1) / 3;
    let zeros = Block {
        major: geo.major(),
        minors: [0; 64],
    };
    let block = pack(&zeros);
    block.is_whole();
    'pages: for page in 0..geo.pages() {
        truth[(first + page) as usize] = block;
    }
}

/// The nodes over the counter blocks, from the lowest level up.
fn grow_nodes<S: Suite>(suite: &mut S, geo: &Geo, truth: &mut [Line])
    requires long { length truth.old ≡ meta_lines (shape_of geo.now) }
    requires whole { All IsLine truth.old }
    ensures keys { S.keys suite.new ≡ S.keys suite.old }
    ensures counts { SuiteRise (0) (0) (meta_lines (shape_of geo.now) - 1) (suite_at S.Suite suite.old)
        (suite_at S.Suite suite.new) }
    ensures tree { IsHashTree (shape_of geo.now) (S.formulas_of (S.keys suite.old)) truth.new }
    ensures whole { All IsLine truth.new }
    ensures blocks { (x : ℕ) → level_start (shape_of geo.now).levels ≤ x → line_at truth.new x ≡ line_at truth.old x }
{
    let first = (geo.pages() - 1) / 3;
    'nodes: for done in 0..first {
        let x = first - 1 - done;
        let line = node_above(suite, x, truth);
        line.is_whole();
        truth[x as usize] = line;
    }
}

/// The node over the lines of four children.
fn node_above<S: Suite>(suite: &mut S, x: u32, truth: &[Line]) -> Line
    requires position { x < 1365 }
    requires children { 4 * x + 4 < length truth.now }
    ensures keys { S.keys suite.new ≡ S.keys suite.old }
    ensures counts { SuiteRise (0) (0) (4) (suite_at S.Suite suite.old)
        (suite_at S.Suite suite.new) }
    ensures value { result ≡ node_over (S.formulas_of (S.keys suite.old)) x (line_at truth.now) }
{
    let mut digests = [[0; 16]; 4];
    'children: for i in 0..4_u8 {
        let child = 4 * x + 1 + u32::from(i);
        digests[usize::from(i)] = suite.digest(child, &truth[child as usize]);
    }
    node_of(&digests)
}

/// Writes the metadata lines, and tells them.
fn write_metadata<B: Board, A: Audit>(board: &mut B, audit: &mut A, geo: &Geo, truth: &[Line])
    requires size { (B.device board.old).size ≡ device_lines (shape_of geo.now) }
    requires steady { (B.device board.old).steady ≡ true }
    requires long { length truth.now ≡ meta_lines (shape_of geo.now) }
    requires truth { length (A.ledger audit.old).truth ≡ meta_lines (shape_of geo.now) }
    ensures steady { StaysSteady (meta_lines (shape_of geo.now)) (B.device board.old) (B.device board.new) }
    ensures ledger { HasToldMeta (shape_of geo.now) truth.now (meta_lines (shape_of geo.now)) (A.ledger audit.old) (A.ledger audit.new) }
    ensures lines { HasWrittenMeta (shape_of geo.now) truth.now (meta_lines (shape_of geo.now)) (B.device board.old) (B.device board.new) }
    ensures plan { Follows (metas_plan (shape_of geo.now) truth.now) (B.device board.old) (B.device board.new) (Ok tt) }
    ensures capacity { A.capacity audit.new ≡ A.capacity audit.old }
{
    'lines: for x in 0..geo.metas() {
        let line = &truth[x as usize];
        write_steady(board, geo.meta_line(x), line);
        audit.note_meta(x, line);
    }
}

/// Writes zero shadow lines.
fn clear_tables<B: Board>(board: &mut B, geo: &Geo)
    requires size { (B.device board.old).size ≡ device_lines (shape_of geo.now) }
    requires steady { (B.device board.old).steady ≡ true }
    ensures steady { StaysSteady (shadow_lines (shape_of geo.now)) (B.device board.old) (B.device board.new) }
    ensures lines { HasClearedTables (shape_of geo.now) (shadow_lines (shape_of geo.now)) (B.device board.old) (B.device board.new) }
    ensures plan { Follows (zeros_plan (shape_of geo.now)) (B.device board.old) (B.device board.new) (Ok tt) }
{
    let zero = Line::default();
    'lines: for n in 0..geo.shadows() {
        write_steady(board, geo.shadow_line(n), &zero);
    }
}

/// Latches the first registers: the root, and the stop-loss number of the geometry.
fn latch_root<B: Board, S: Suite>(board: &mut B, suite: &mut S, geo: &Geo, top: &Line)
    requires { (B.device board.old).steady ≡ true }
    ensures keys { S.keys suite.new ≡ S.keys suite.old }
    ensures counts { SuiteRise (0) (0) (1) (suite_at S.Suite suite.old)
        (suite_at S.Suite suite.new) }
    ensures latched { HasLatched (B.device board.old) (first_regs (setup_with S.Suite geo.now suite.old) top.now) (B.device board.new) }
{
    let mut regs = Regs::empty();
    regs.root = suite.digest(0, top);
    regs.loss = geo.loss();
    let _ = board.latch(&regs);
}
