//! Calls of the engine, and recovery, over a board whose fuse is watched: one watched board for each command, so
//! that its steps are those of the whole command.
ghost use Rattle.std.specs.Prelude.{◌≡◌, ◌≢◌, ◌<◌, true, None, Err, All, IfOk, OnOk, length};
ghost use Rattle.pmem_base.specs.Geo.{shape_of};
ghost use Rattle.pmem_base.specs.Layout.{meta_lines};
ghost use Rattle.pmem_base.specs.Lines.{IsLine};
ghost use Rattle.board.specs.Memory.{device_of};
ghost use Rattle.board.specs.MemBoard.{memory_of};
ghost use Rattle.watched_board.specs.Watching.{IsWatched, device_during, none_taken};
ghost use Rattle.access_log.specs.Traced.{GoesOn};
ghost use Rattle.counter_tree.specs.Layout.{tree_lines, tree_slots, tree_size};
ghost use Rattle.asit_shadow.specs.Parts.{IsTreeUsable, tree_parts_of};
ghost use Rattle.asit_shadow.specs.Promised.{CountsFormat};
ghost use Rattle.asit_shadow.specs.Recovering.{IsRestUsable, rest_of};
ghost use Rattle.tree_session.specs.During.{parts_during, rest_during};
ghost use Rattle.tree_session.specs.Promised.{ReadsLineOver, FollowsReadOver, ReadsLine, FollowsRead, WritesLineOver, FollowsWriteOver, WritesLine, FollowsWrite, StaysUsable, RecoversOver, FollowsRecoveryOver, Recovers, FollowsRecovery, StaysRecoverable, Formats};

use access_log::AccessLog;
use asit_shadow::{TreeEngine, TreeFault, TreeRec, tree_format, tree_recover};
use board::{Board, MemBoard};
use call_effects::Work;
use counter_tree::Watch;
use pmem_base::{Geo, Line, MemFault};
use std::alloc::Global;
use std::marker::Brand;
use suite::Suite;
use watched_board::{Kept, Made, Start};
use watched_call::{BoardCall, CallEnd, make_call};

/// Data line `at` is read.
#[derive(Drop)]
struct ReadLine {
    at: u32,
}

impl<W: Watch> BoardCall<W> for ReadLine {
    type Engine = TreeEngine;

    type Answer = Result<Line, TreeFault>;

    ghost can = { λ call engine device watch. (call.at < tree_lines engine.shape)
        × IsTreeUsable engine.shape (tree_parts_of engine device (W.watched watch)) };

    ghost relation = { λ call S suite engine device s w later_engine later_device later_s later_w answer.
        ReadsLineOver suite W.Watch engine device s w later_engine later_device later_s later_w call.at answer
        × FollowsReadOver suite W.Watch engine device s w later_engine later_device later_s later_w call.at answer
        × StaysUsable suite W.Watch engine device s w later_engine later_device later_s later_w };

    fn make<B: Board, S: Suite>(
        &self,
        engine: &mut TreeEngine,
        board: &mut B,
        suite: &mut S,
        notes: &mut W,
    ) -> Result<Line, TreeFault> {
        engine.read(board, suite, notes, self.at)
    }
}

/// Reads a data line.
pub(crate) fn read<S: Suite, W: Watch>(
    engine: &mut TreeEngine,
    board: &mut MemBoard,
    suite: &mut S,
    watch: &mut W,
    at: u32,
    log: &mut AccessLog,
) -> CallEnd<Result<Line, TreeFault>>
    requires line { at < tree_lines engine.old.shape }
    requires on { (memory_of board.old).powered ≡ true }
    requires usable { IsTreeUsable engine.old.shape (parts_during W.Watch engine.old board.old none_taken watch.old) }
    ensures read { ReadsLine S.Suite W.Watch engine.old board.old suite.old watch.old
        engine.new board.new result.taken suite.new watch.new at result.answer }
    ensures plan { FollowsRead S.Suite W.Watch engine.old board.old suite.old watch.old
        engine.new board.new result.taken suite.new watch.new at result.answer }
    ensures watched { IsWatched (memory_of board.old) (memory_of board.new) result.taken }
    ensures logged { GoesOn log.old (memory_of board.old) log.new (memory_of board.new) }
    ensures usable { IsTreeUsable engine.old.shape (parts_during W.Watch engine.new board.new result.taken watch.new) }
    ensures keys { S.keys suite.new ≡ S.keys suite.old }
    ensures shape { engine.new.shape ≡ engine.old.shape }
{
    make_call(&ReadLine { at }, engine, board, suite, watch, log)
}

/// A data line is written.
#[derive(Drop)]
struct WriteLine<'a> {
    at: u32,
    line: &'a Line,
}

impl<'a, W: Watch> BoardCall<W> for WriteLine<'a> {
    type Engine = TreeEngine;

    type Answer = Result<u64, TreeFault>;

    ghost can = { λ call engine device watch. (call.at < tree_lines engine.shape)
        × IsTreeUsable engine.shape (tree_parts_of engine device (W.watched watch)) };

    ghost relation = { λ call S suite engine device s w later_engine later_device later_s later_w answer.
        WritesLineOver suite W.Watch engine device s w later_engine later_device later_s later_w call.at call.line.now answer
        × FollowsWriteOver suite W.Watch engine device s w later_engine later_device later_s later_w call.at call.line.now answer
        × StaysUsable suite W.Watch engine device s w later_engine later_device later_s later_w };

    fn make<B: Board, S: Suite>(
        &self,
        engine: &mut TreeEngine,
        board: &mut B,
        suite: &mut S,
        notes: &mut W,
    ) -> Result<u64, TreeFault> {
        engine.write(board, suite, notes, self.at, self.line)
    }
}

/// Writes a data line.
pub(crate) fn write<S: Suite, W: Watch>(
    engine: &mut TreeEngine,
    board: &mut MemBoard,
    suite: &mut S,
    watch: &mut W,
    at: u32,
    line: &Line,
    log: &mut AccessLog,
) -> CallEnd<Result<u64, TreeFault>>
    requires line { at < tree_lines engine.old.shape }
    requires on { (memory_of board.old).powered ≡ true }
    requires usable { IsTreeUsable engine.old.shape (parts_during W.Watch engine.old board.old none_taken watch.old) }
    ensures written { WritesLine S.Suite W.Watch engine.old board.old suite.old watch.old
        engine.new board.new result.taken suite.new watch.new at line.now result.answer }
    ensures plan { FollowsWrite S.Suite W.Watch engine.old board.old suite.old watch.old
        engine.new board.new result.taken suite.new watch.new at line.now result.answer }
    ensures watched { IsWatched (memory_of board.old) (memory_of board.new) result.taken }
    ensures logged { GoesOn log.old (memory_of board.old) log.new (memory_of board.new) }
    ensures usable { IsTreeUsable engine.old.shape (parts_during W.Watch engine.new board.new result.taken watch.new) }
    ensures keys { S.keys suite.new ≡ S.keys suite.old }
    ensures shape { engine.new.shape ≡ engine.old.shape }
{
    make_call(&WriteLine { at, line }, engine, board, suite, watch, log)
}

/// Power comes on: an engine is recovered.
#[derive(Drop)]
struct Recovery<'a> {
    alloc: Global,
    geo: &'a Geo,
}

impl<'a, W: Watch> BoardCall<W> for Recovery<'a> {
    type Engine = ();

    type Answer = Result<(TreeEngine, Work), TreeRec>;

    ghost can = { λ call engine device watch. IsRestUsable (shape_of call.geo.now) (rest_of device (W.watched watch)) };

    ghost relation = { λ call S suite engine device s w later_engine later_device later_s later_w answer.
        RecoversOver suite W.Watch call.geo.now device s w later_device later_s later_w answer
        × FollowsRecoveryOver suite W.Watch call.geo.now device s w later_device later_s later_w answer
        × StaysRecoverable suite W.Watch call.geo.now device s w later_device later_s later_w answer };

    fn make<B: Board, S: Suite>(
        &self,
        engine: &mut (),
        board: &mut B,
        suite: &mut S,
        notes: &mut W,
    ) -> Result<(TreeEngine, Work), TreeRec> {
        tree_recover(self.alloc, self.geo, board, suite, notes)
    }
}

/// Recovers an engine.
pub(crate) fn recover<S: Suite, W: Watch>(
    alloc: Global,
    geo: &Geo,
    board: &mut MemBoard,
    suite: &mut S,
    watch: &mut W,
    log: &mut AccessLog,
) -> CallEnd<Result<(TreeEngine, Work), TreeRec>>
    requires on { (memory_of board.old).powered ≡ true }
    requires usable { IsRestUsable (shape_of geo.now) (rest_during W.Watch board.old none_taken watch.old) }
    ensures recovered { Recovers S.Suite W.Watch geo.now board.old suite.old watch.old
        board.new result.taken suite.new watch.new result.answer }
    ensures plan { FollowsRecovery S.Suite W.Watch geo.now board.old suite.old watch.old
        board.new result.taken suite.new watch.new result.answer }
    ensures watched { IsWatched (memory_of board.old) (memory_of board.new) result.taken }
    ensures logged { GoesOn log.old (memory_of board.old) log.new (memory_of board.new) }
    ensures usable { IsRestUsable (shape_of geo.now) (rest_during W.Watch board.new result.taken watch.new) }
    ensures shape { IfOk result.answer (λ made. made.0.shape ≡ shape_of geo.now) }
    ensures keys { S.keys suite.new ≡ S.keys suite.old }
    ensures pads { S.pads suite.new ≡ S.pads suite.old }
    ensures tags { S.tags suite.new ≡ S.tags suite.old }
{
    make_call(&Recovery { alloc, geo }, &mut (), board, suite, watch, log)
}

/// Makes the device new.
pub(crate) fn format<S: Suite, W: Watch>(
    alloc: Global,
    geo: &Geo,
    board: &mut MemBoard,
    suite: &mut S,
    watch: &mut W,
) -> Result<TreeEngine, MemFault>
    requires size { length (memory_of board.old).lines ≡ tree_size (shape_of geo.now) }
    requires steady { (device_of (memory_of board.old)).steady ≡ true }
    requires none { (memory_of board.old).snapshot ≡ None }
    requires seals { length (W.watched watch.old).seals ≡ tree_lines (shape_of geo.now) }
    requires nodes { length (W.watched watch.old).nodes ≡ meta_lines (shape_of geo.now) }
    requires slots { length (W.watched watch.old).slots ≡ tree_slots (shape_of geo.now) }
    ensures formatted { IfOk result (Formats S.Suite W.Watch geo.now board.old suite.old watch.old
        board.new watch.new) }
    ensures counts { OnOk result (CountsFormat S.Suite geo.now suite.old suite.new) }
    ensures none { (memory_of board.new).snapshot ≡ None }
    ensures each_line { All IsLine (memory_of board.new).lines }
    ensures keys { S.keys suite.new ≡ S.keys suite.old }
{
    let made = format_kept::<Brand, S, W>(alloc, geo, board, suite, watch);
    let Made {
        board: _found,
        answer,
    } = made;
    answer
}

fn format_kept<'a, K: Start, S: Suite, W: Watch>(
    alloc: Global,
    geo: &Geo,
    board: &'a mut MemBoard,
    suite: &mut S,
    watch: &mut W,
) -> Made<'a, Result<TreeEngine, MemFault>>
    requires size { length (memory_of board.old).lines ≡ tree_size (shape_of geo.now) }
    requires steady { (device_of (memory_of board.old)).steady ≡ true }
    requires none { (memory_of board.old).snapshot ≡ None }
    requires name { board.ghost_name ≡ K.name }
    requires seals { length (W.watched watch.old).seals ≡ tree_lines (shape_of geo.now) }
    requires nodes { length (W.watched watch.old).nodes ≡ meta_lines (shape_of geo.now) }
    requires slots { length (W.watched watch.old).slots ≡ tree_slots (shape_of geo.now) }
    ensures name { result.board.ghost_name ≡ K.name }
    ensures formatted { IfOk result.answer (Formats S.Suite W.Watch geo.now board.old suite.old watch.old
        result.board.now watch.new) }
    ensures counts { OnOk result.answer (CountsFormat S.Suite geo.now suite.old suite.new) }
    ensures none { (memory_of result.board.now).snapshot ≡ None }
    ensures each_line { All IsLine (memory_of result.board.now).lines }
    ensures keys { S.keys suite.new ≡ S.keys suite.old }
{
    let mut kept = Kept::<K>::new(board);
    let answer = tree_format(alloc, geo, &mut kept, suite, watch);
    kept.made(answer)
}
