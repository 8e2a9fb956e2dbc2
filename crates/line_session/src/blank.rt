//! A blank device is formatted, and a store is opened on it, over a board in memory that keeps no snapshot.
ghost use Rattle.std.specs.Prelude.{◌≡◌, [], true, None, IfOk, OnOk, IsNone, length};
ghost use Rattle.pmem_base.specs.Geo.{shape_of};
ghost use Rattle.pmem_base.specs.Layout.{data_lines, device_lines, meta_lines};
ghost use Rattle.board.specs.Memory.{device_of};
ghost use Rattle.board.specs.MemBoard.{memory_of};
ghost use Rattle.seal_ledger.specs.Ledger.{IsOfShape};
ghost use Rattle.seal_ledger.specs.Notes.{HasRoom};
ghost use Rattle.seal_ledger.specs.View.{capacity_of, ledger_of};
ghost use Rattle.call_effects.specs.SuiteStates.{SuiteRise, setup_with, suite_at};
ghost use Rattle.pmem_engine.specs.Calls.{IsUsable};
ghost use Rattle.pmem_recovery.specs.Formatting.{HasFormatted};
ghost use Rattle.line_session.specs.Kept.{OpensLines};
ghost use Rattle.line_session.specs.Promised.{IsOpened};

use crate::starts::StoreOpening;
use board::MemBoard;
use pmem_base::{Geo, MemFault};
use pmem_engine::Engine;
use seal_ledger::Ledger;
use std::alloc::Global;
use std::marker::Brand;
use suite::Suite;
use watched_board::{Kept, Made, Start};

/// Makes the device new.
pub(crate) fn format<S: Suite>(
    alloc: Global,
    geo: &Geo,
    board: &mut MemBoard,
    suite: &mut S,
    ledger: &mut Ledger,
) -> Result<Engine, MemFault>
    requires size { length (memory_of board.old).lines ≡ device_lines (shape_of geo.now) }
    requires steady { (device_of (memory_of board.old)).steady ≡ true }
    requires none { (memory_of board.old).snapshot ≡ None }
    requires ledger { IsOfShape (shape_of geo.now) (ledger_of ledger.old) }
    requires no_marks { (ledger_of ledger.old).marks ≡ [] }
    requires no_exhibit { IsNone (ledger_of ledger.old).exhibit }
    ensures formatted { IfOk result (λ engine. HasFormatted (setup_with S.Suite geo.now suite.old) (ledger_of ledger.new)
        (device_of (memory_of board.old)) (device_of (memory_of board.new)) engine) }
    ensures none { (memory_of board.new).snapshot ≡ None }
    ensures keys { S.keys suite.new ≡ S.keys suite.old }
    ensures counts { OnOk result (SuiteRise (data_lines (shape_of geo.now)) (data_lines (shape_of geo.now)) (meta_lines (shape_of geo.now))
        (suite_at S.Suite suite.old) (suite_at S.Suite suite.new)) }
{
    let made = format_kept::<Brand, S>(alloc, geo, board, suite, ledger);
    let Made {
        board: _found,
        answer,
    } = made;
    answer
}

fn format_kept<'a, K: Start, S: Suite>(
    alloc: Global,
    geo: &Geo,
    board: &'a mut MemBoard,
    suite: &mut S,
    ledger: &mut Ledger,
) -> Made<'a, Result<Engine, MemFault>>
    requires size { length (memory_of board.old).lines ≡ device_lines (shape_of geo.now) }
    requires steady { (device_of (memory_of board.old)).steady ≡ true }
    requires none { (memory_of board.old).snapshot ≡ None }
    requires name { board.ghost_name ≡ K.name }
    requires ledger { IsOfShape (shape_of geo.now) (ledger_of ledger.old) }
    requires no_marks { (ledger_of ledger.old).marks ≡ [] }
    requires no_exhibit { IsNone (ledger_of ledger.old).exhibit }
    ensures name { result.board.ghost_name ≡ K.name }
    ensures formatted { IfOk result.answer (λ engine. HasFormatted (setup_with S.Suite geo.now suite.old) (ledger_of ledger.new)
        (device_of (memory_of board.old)) (device_of (memory_of result.board.now)) engine) }
    ensures none { (memory_of result.board.now).snapshot ≡ None }
    ensures keys { S.keys suite.new ≡ S.keys suite.old }
    ensures counts { OnOk result.answer (SuiteRise (data_lines (shape_of geo.now)) (data_lines (shape_of geo.now)) (meta_lines (shape_of geo.now))
        (suite_at S.Suite suite.old) (suite_at S.Suite suite.new)) }
{
    let mut kept = Kept::<K>::new(board);
    let answer = pmem_recovery::format(alloc, geo, &mut kept, suite, ledger);
    kept.made(answer)
}

/// Opens a store on it.
pub(crate) fn open<S: Suite, O: StoreOpening>(
    opening: &O,
    engine: Engine,
    board: &mut MemBoard,
    suite: &mut S,
    ledger: &mut Ledger,
) -> Result<O::Opened, O::Fault>
    requires can { O.can opening.now }
    requires room { HasRoom (ledger_of ledger.old) (capacity_of ledger.old) (O.room opening.now) }
    requires usable { IsUsable engine.shape engine (device_of (memory_of board.old)) (ledger_of ledger.old) }
    requires none { (memory_of board.old).snapshot ≡ None }
    ensures opened { IsOpened S.Suite (O.relation opening.now) engine (device_of (memory_of board.old)) suite.old ledger.old
        (device_of (memory_of board.new)) suite.new ledger.new result }
    ensures kept { IsOpened S.Suite (OpensLines (λ opened. O.Store.engine (O.store opened)) (O.holds opening.now)) engine
        (device_of (memory_of board.old)) suite.old ledger.old (device_of (memory_of board.new)) suite.new ledger.new result }
    ensures none { (memory_of board.new).snapshot ≡ None }
    ensures keys { S.keys suite.new ≡ S.keys suite.old }
{
    let made = open_kept::<Brand, S, O>(opening, engine, board, suite, ledger);
    let Made {
        board: _found,
        answer,
    } = made;
    answer
}

fn open_kept<'a, K: Start, S: Suite, O: StoreOpening>(
    opening: &O,
    engine: Engine,
    board: &'a mut MemBoard,
    suite: &mut S,
    ledger: &mut Ledger,
) -> Made<'a, Result<O::Opened, O::Fault>>
    requires can { O.can opening.now }
    requires room { HasRoom (ledger_of ledger.old) (capacity_of ledger.old) (O.room opening.now) }
    requires usable { IsUsable engine.shape engine (device_of (memory_of board.old)) (ledger_of ledger.old) }
    requires none { (memory_of board.old).snapshot ≡ None }
    requires name { board.ghost_name ≡ K.name }
    ensures name { result.board.ghost_name ≡ K.name }
    ensures opened { IsOpened S.Suite (O.relation opening.now) engine (device_of (memory_of board.old)) suite.old ledger.old
        (device_of (memory_of result.board.now)) suite.new ledger.new result.answer }
    ensures kept { IsOpened S.Suite (OpensLines (λ opened. O.Store.engine (O.store opened)) (O.holds opening.now)) engine
        (device_of (memory_of board.old)) suite.old ledger.old (device_of (memory_of result.board.now)) suite.new ledger.new result.answer }
    ensures none { (memory_of result.board.now).snapshot ≡ None }
    ensures keys { S.keys suite.new ≡ S.keys suite.old }
{
    let mut kept = Kept::<K>::new(board);
    let answer = opening.open(engine, &mut kept, suite, ledger);
    kept.made(answer)
}
