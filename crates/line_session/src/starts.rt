//! Power comes on: the device is recovered, and a store is opened by the engine that recovery gives.
ghost use Rattle.std.specs.Prelude.{◌≡◌, ◌<◌, ℕ, true, List, Result, IsSome, IfOk, length};
ghost use Rattle.pmem_base.specs.declared.answers.Mark.{Mark};
ghost use Rattle.pmem_base.specs.Geo.{shape_of};
ghost use Rattle.pmem_base.specs.Layout.{data_lines, device_lines};
ghost use Rattle.pmem_base.specs.Marks.{last_seal};
ghost use Rattle.pmem_base.specs.Registers.{IsValidRegs};
ghost use Rattle.board.specs.MemBoard.{memory_of};
ghost use Rattle.suite.specs.Setup.{Setup};
ghost use Rattle.seal_ledger.specs.Ledger.{IsOfShape};
ghost use Rattle.seal_ledger.specs.Notes.{HasRoom};
ghost use Rattle.seal_ledger.specs.View.{capacity_of, ledger_of};
ghost use Rattle.pmem_engine.specs.Engine.{EngineState};
ghost use Rattle.pmem_engine.specs.Parts.{Parts};
ghost use Rattle.pmem_engine.specs.Calls.{IsUsable};
ghost use Rattle.watched_board.specs.Watching.{IsWatched};
ghost use Rattle.access_log.specs.Traced.{GoesOn};
ghost use Rattle.line_session.specs.Promised.{IsOpenedBy, IsKeptOpening, CanStart, IsStarted, IsStartedBy, IsStartedOn, IsUsableDuring};

use crate::calls::LineStore;
use access_log::AccessLog;
use board::{Board, MemBoard};
use pmem_base::Geo;
use pmem_engine::Engine;
use pmem_recovery::{RecFault, recover};
use seal_ledger::Ledger;
use std::alloc::Global;
use suite::Suite;
use watched_call::{BoardCall, CallEnd, make_call};

/// Why power didn't come on.
#[derive(Clone, Copy)]
pub enum StartFault<F> {
    /// The device wasn't recovered.
    Recovery(RecFault),
    /// It was, and its lines weren't opened.
    Opening(F),
}

/// The opening of a store of lines: what it needs of the room for marks, and what it does, by whether the engine is down,
/// by its plan and by what it makes of the lines.
pub trait StoreOpening {
    /// The store.
    type Store: LineStore;
    /// What its opening tells.
    type Told: Copy;
    /// The store with that.
    type Opened: Drop;
    /// Why it isn't opened.
    type Fault: Copy;

    ghost store: { Self.Opened → Self.Store };

    ghost told: { Self.Opened → Self.Told };

    /// The most marks that it makes.
    ghost room: { Self → ℕ };

    ghost can: { Self → Type 0 };

    /// What a store keeps in its lines, by the marks.
    ghost holds: { Self → Setup → List Mark → Type 0 };

    ghost relation: { Self → Setup → EngineState → Parts → (EngineState → Parts) → Result Self.Opened Self.Fault → Type 0 };

    /// The most marks that it makes.
    fn room(&self) -> u32
        ensures { result ≡ room self.now };

    /// The store, and what its opening tells.
    fn split(opened: Self::Opened) -> (Self::Store, Self::Told)
        ensures store { result.0 ≡ store opened }
        ensures told { result.1 ≡ told opened };

    /// Opens the store.
    fn open<B: Board, S: Suite>(
        &self,
        engine: Engine,
        board: &mut B,
        suite: &mut S,
        ledger: &mut Ledger,
    ) -> Result<Self::Opened, Self::Fault>
        requires can { can self.now }
        requires room { HasRoom (ledger_of ledger.old) (capacity_of ledger.old) (room self.now) }
        requires usable { IsUsable engine.shape engine (B.device board.old) (ledger_of ledger.old) }
        ensures opened { IsOpenedBy B.Board S.Suite (relation self.now) engine board.old suite.old ledger.old
            board.new suite.new ledger.new result }
        ensures kept { IsKeptOpening B.Board S.Suite Self.Store.engine store (holds self.now) engine board.old suite.old ledger.old
            board.new suite.new ledger.new result }
        ensures capacity { capacity_of ledger.new ≡ capacity_of ledger.old }
        ensures keys { S.keys suite.new ≡ S.keys suite.old }
        ensures usable { IfOk result (λ opened. IsUsable engine.shape (Self.Store.engine (store opened)) (B.device board.new) (ledger_of ledger.new)) }
        ensures shape { IfOk result (λ opened. (Self.Store.engine (store opened)).shape ≡ engine.shape) };
}

/// The device is recovered, and its store opened.
#[derive(Drop)]
struct Starting<'a, O> {
    alloc: Global,
    geo: &'a Geo,
    opening: &'a O,
}

impl<'a, O: StoreOpening> BoardCall<Ledger> for Starting<'a, O> {
    type Engine = ();

    type Answer = Result<O::Opened, StartFault<O::Fault>>;

    ghost can = { λ starting _ device ledger. O.can starting.opening.now × HasRoom (ledger_of ledger) (capacity_of ledger) (O.room starting.opening.now)
        × CanStart (shape_of starting.geo.now) device (ledger_of ledger) };

    ghost relation = { λ starting S suite _ device s ledger _ later_device later_s later_ledger answer.
        IsStarted suite O.Store.engine O.store O.relation O.holds starting.opening.now starting.geo.now device s ledger later_device later_s later_ledger answer
        × (suite.keys later_s ≡ suite.keys s)
        × IfOk answer (λ opened. IsUsable (shape_of starting.geo.now) (O.Store.engine (O.store opened)) later_device (ledger_of later_ledger)
        × ((O.Store.engine (O.store opened)).shape ≡ shape_of starting.geo.now)) };

    fn make<B: Board, S: Suite>(
        &self,
        engine: &mut (),
        board: &mut B,
        suite: &mut S,
        notes: &mut Ledger,
    ) -> Result<O::Opened, StartFault<O::Fault>> {
        recover_and_open(self.alloc, self.geo, self.opening, board, suite, notes)
    }
}

/// Recovers the device, and opens its store, over the watched board, whose accesses are logged.
pub fn start<O: StoreOpening, S: Suite>(
    alloc: Global,
    geo: &Geo,
    opening: &O,
    board: &mut MemBoard,
    suite: &mut S,
    ledger: &mut Ledger,
    log: &mut AccessLog,
) -> CallEnd<Result<O::Opened, StartFault<O::Fault>>>
    requires can { O.can opening.now }
    requires room { HasRoom (ledger_of ledger.old) (capacity_of ledger.old) (O.room opening.now) }
    requires size { length (memory_of board.old).lines ≡ device_lines (shape_of geo.now) }
    requires on { (memory_of board.old).powered ≡ true }
    requires regs { IsValidRegs (shape_of geo.now) (memory_of board.old).regs }
    requires ledger { IsOfShape (shape_of geo.now) (ledger_of ledger.old) }
    requires each_sealed { (a : ℕ) → a < data_lines (shape_of geo.now) → IsSome (last_seal (ledger_of ledger.old).marks a) }
    ensures started { IsStartedOn S.Suite O.Store.engine O.store O.relation O.holds opening.now geo.now board.old suite.old ledger.old
        board.new suite.new ledger.new result }
    ensures watched { IsWatched (memory_of board.old) (memory_of board.new) result.taken }
    ensures logged { GoesOn log.old (memory_of board.old) log.new (memory_of board.new) }
    ensures keys { S.keys suite.new ≡ S.keys suite.old }
    ensures usable { IfOk result.answer (λ opened. IsUsableDuring (shape_of geo.now) (O.Store.engine (O.store opened)) board.new result.taken ledger.new) }
    ensures shape { IfOk result.answer (λ opened. (O.Store.engine (O.store opened)).shape ≡ shape_of geo.now) }
{
    make_call(
        &Starting {
            alloc,
            geo,
            opening,
        },
        &mut (),
        board,
        suite,
        ledger,
        log,
    )
}

/// Recovers the device, and opens its store, over any board.
fn recover_and_open<B: Board, O: StoreOpening, S: Suite>(
    alloc: Global,
    geo: &Geo,
    opening: &O,
    board: &mut B,
    suite: &mut S,
    ledger: &mut Ledger,
) -> Result<O::Opened, StartFault<O::Fault>>
    requires can { O.can opening.now }
    requires room { HasRoom (ledger_of ledger.old) (capacity_of ledger.old) (O.room opening.now) }
    requires size { (B.device board.old).size ≡ device_lines (shape_of geo.now) }
    requires regs { IsValidRegs (shape_of geo.now) (B.device board.old).regs }
    requires ledger { IsOfShape (shape_of geo.now) (ledger_of ledger.old) }
    requires each_sealed { (a : ℕ) → a < data_lines (shape_of geo.now) → IsSome (last_seal (ledger_of ledger.old).marks a) }
    ensures started { IsStartedBy B.Board S.Suite O.Store.engine O.store O.relation O.holds opening.now geo.now
        board.old suite.old ledger.old board.new suite.new ledger.new result }
    ensures keys { S.keys suite.new ≡ S.keys suite.old }
    ensures usable { IfOk result (λ opened. IsUsable (shape_of geo.now) (O.Store.engine (O.store opened)) (B.device board.new) (ledger_of ledger.new)) }
    ensures shape { IfOk result (λ opened. (O.Store.engine (O.store opened)).shape ≡ shape_of geo.now) }
{
    let engine = match recover(alloc, geo, board, suite, ledger) {
        Err(fault) => return Err(StartFault::Recovery(fault)),
        Ok((engine, _)) => engine,
    };
    match opening.open(engine, board, suite, ledger) {
        Err(fault) => Err(StartFault::Opening(fault)),
        Ok(opened) => Ok(opened),
    }
}
