//! Calls of the engine and of recovery, over a board whose fuse and snapshot are watched.
ghost use Rattle.std.specs.Prelude.{◌≡◌, ◌<◌, ◌≤◌, ℕ, true, false, [], ◌∷◌, None, Some, length, Option, option_map, Result, IsTrue, IsNone, IsSome, IfOk, IfSome, IsOk, OnOk, All, ⊤, if◌then◌else◌, not};
ghost use Rattle.pmem_base.specs.declared.commands.Posted.{Posted};
ghost use Rattle.pmem_base.specs.Lines.{IsLine};
ghost use Rattle.pmem_base.specs.Geo.{shape_of};
ghost use Rattle.pmem_base.specs.Ranges.{IsPosted};
ghost use Rattle.pmem_base.specs.Shape.{Shape, is_loss};
ghost use Rattle.pmem_base.specs.Layout.{data_lines, device_lines};
ghost use Rattle.pmem_base.specs.Registers.{IsValidRegs};
ghost use Rattle.board.specs.Memory.{device_of};
ghost use Rattle.board.specs.MemBoard.{memory_of};
ghost use Rattle.suite.specs.Setup.{Setup};
ghost use Rattle.seal_ledger.specs.Ledger.{IsOfShape, LedgerState};
ghost use Rattle.seal_ledger.specs.Notes.{HasRoom};
ghost use Rattle.seal_ledger.specs.View.{capacity_of, ledger_of};
ghost use Rattle.pmem_engine.specs.declared.fault.Fault.{Fault};
ghost use Rattle.pmem_engine.specs.Parts.{Parts};
ghost use Rattle.call_effects.specs.Outcomes.{is_going};
ghost use Rattle.pmem_engine.specs.Outcomes.{outcome_of};
ghost use Rattle.pmem_engine.specs.Calls.{IsUsable};
ghost use Rattle.watched_board.specs.Watching.{IsWatched, device_during, none_taken};
ghost use Rattle.access_log.specs.Traced.{GoesOn};
ghost use Rattle.pmem_replay.specs.During.{IsTakenApart};
ghost use Rattle.pmem_replay.specs.Planned.{ReadsLine, WritesLine, TurnsPage, FlushesBlock, SetsLoss};
ghost use Rattle.pmem_replay.specs.EngineCalls.{is_outcome_shown, is_outcome_cut};
ghost use Rattle.pmem_replay.specs.Promised.{IsMade, IsCalled, IsFormatted, HasFormatCounts, IsRecovered, IsRecoveredOver};

use access_log::AccessLog;
use board::{Board, MemBoard};
use call_effects::Work;
use pmem_base::{Ctr, Geo, Line, MemFault, Posted};
use pmem_engine::{Engine, Fault};
use pmem_recovery::RecFault;
use seal_ledger::Ledger;
use std::alloc::Global;
use std::marker::Brand;
use suite::Suite;
use watched_board::{Kept, Made, Start};
use watched_call::{BoardCall, CallEnd, make_call};

/// A call of the engine: what it needs of the geometry and of the room for marks, what it does, by its plan and its
/// relation, and the write that it puts, if it is one.
pub(crate) trait Call {
    /// What it answers if it is done.
    type Value: Copy;

    ghost can: { Self → Shape → LedgerState → ℕ → Type 0 };

    ghost relation: { Self → Setup → Parts → Parts → Result Self.Value Fault → Type 0 };

    ghost write: { Self → Option Posted };

    /// Makes the call.
    fn make<B: Board, S: Suite>(
        &self,
        engine: &mut Engine,
        board: &mut B,
        suite: &mut S,
        ledger: &mut Ledger,
    ) -> Result<Self::Value, Fault>
        requires can { can self.now engine.old.shape (ledger_of ledger.old) (capacity_of ledger.old) }
        requires usable { IsUsable engine.old.shape engine.old (B.device board.old) (ledger_of ledger.old) }
        requires up { engine.old.down ≡ false }
        ensures made { IsMade S.Suite relation write self.now engine.old (B.device board.old) suite.old ledger.old
            engine.new (B.device board.new) suite.new ledger.new result }
        ensures down { engine.new.down ≡ not (is_going (outcome_of result)) }
        ensures capacity { capacity_of ledger.new ≡ capacity_of ledger.old }
        ensures keys { S.keys suite.new ≡ S.keys suite.old };

    /// The data line that it writes, if it is a write.
    fn line(&self) -> Option<u32>
        ensures { result ≡ option_map (λ w. w.at) (write self.now) };
}

/// Data line `at` is read.
#[derive(Drop)]
pub(crate) struct ReadLine {
    pub(crate) at: u32,
}

impl Call for ReadLine {
    type Value = Line;

    ghost can = { λ c g ledger capacity. c.at < data_lines g };

    ghost relation = { λ c setup old new answer. ReadsLine c.at setup old new answer };

    ghost write = { λ c. None };

    fn make<B: Board, S: Suite>(
        &self,
        engine: &mut Engine,
        board: &mut B,
        suite: &mut S,
        ledger: &mut Ledger,
    ) -> Result<Line, Fault> {
        engine.read(board, suite, ledger, self.at)
    }

    fn line(&self) -> Option<u32> {
        None
    }
}

/// The next line of the oldest page under re-encryption is sealed.
#[derive(Drop)]
pub(crate) struct TurnPage;

impl Call for TurnPage {
    type Value = Option<(u32, u8)>;

    ghost can = { λ c g ledger capacity. HasRoom ledger capacity 1 };

    ghost relation = { λ c setup old new answer. TurnsPage setup old new answer };

    ghost write = { λ c. None };

    fn make<B: Board, S: Suite>(
        &self,
        engine: &mut Engine,
        board: &mut B,
        suite: &mut S,
        ledger: &mut Ledger,
    ) -> Result<Option<(u32, u8)>, Fault> {
        engine.turn(board, suite, ledger)
    }

    fn line(&self) -> Option<u32> {
        None
    }
}

/// The bytes of a posted write are written into their line.
#[derive(Drop)]
pub(crate) struct WriteLine {
    pub(crate) write: Posted,
}

impl Call for WriteLine {
    type Value = Ctr;

    ghost can = { λ c g ledger capacity. (c.write.at < data_lines g) × IsPosted c.write × HasRoom ledger capacity 66 };

    ghost relation = { λ c setup old new answer. WritesLine c.write setup old new answer };

    ghost write = { λ c. Some c.write };

    fn make<B: Board, S: Suite>(
        &self,
        engine: &mut Engine,
        board: &mut B,
        suite: &mut S,
        ledger: &mut Ledger,
    ) -> Result<Ctr, Fault> {
        engine.write_part(board, suite, ledger, &self.write)
    }

    fn line(&self) -> Option<u32> {
        Some(self.write.at)
    }
}

/// The oldest dirty block is written back.
#[derive(Drop)]
pub(crate) struct FlushBlock;

impl Call for FlushBlock {
    type Value = Option<u32>;

    ghost can = { λ c g ledger capacity. ⊤ };

    ghost relation = { λ c setup old new answer. FlushesBlock setup old new answer };

    ghost write = { λ c. None };

    fn make<B: Board, S: Suite>(
        &self,
        engine: &mut Engine,
        board: &mut B,
        suite: &mut S,
        ledger: &mut Ledger,
    ) -> Result<Option<u32>, Fault> {
        engine.flush(board)
    }

    fn line(&self) -> Option<u32> {
        None
    }
}

/// The stop-loss number is set.
#[derive(Drop)]
pub(crate) struct SetLoss {
    pub(crate) n: u8,
}

impl Call for SetLoss {
    type Value = u32;

    ghost can = { λ c g ledger capacity. IsTrue (is_loss c.n) };

    ghost relation = { λ c setup old new answer. SetsLoss c.n setup old new answer };

    ghost write = { λ c. None };

    fn make<B: Board, S: Suite>(
        &self,
        engine: &mut Engine,
        board: &mut B,
        suite: &mut S,
        ledger: &mut Ledger,
    ) -> Result<u32, Fault> {
        engine.set_loss(board, self.n)
    }

    fn line(&self) -> Option<u32> {
        None
    }
}

/// A call of the engine, as one over a watched board.
#[derive(Drop)]
struct OfEngine<'a, C> {
    call: &'a C,
}

impl<'a, C: Call> BoardCall<Ledger> for OfEngine<'a, C> {
    type Engine = Engine;

    type Answer = Result<C::Value, Fault>;

    ghost can = { λ made engine device ledger. C.can made.call.now engine.shape (ledger_of ledger) (capacity_of ledger)
        × IsUsable engine.shape engine device (ledger_of ledger) × (engine.down ≡ false) };

    ghost relation = { λ made S suite engine device s ledger later_engine later_device later_s later_ledger answer.
        IsMade suite C.relation C.write made.call.now engine device s ledger later_engine later_device later_s later_ledger answer
        × (later_engine.down ≡ not (is_going (outcome_of answer)))
        × (capacity_of later_ledger ≡ capacity_of ledger) × (suite.keys later_s ≡ suite.keys s) };

    fn make<B: Board, S: Suite>(
        &self,
        engine: &mut Engine,
        board: &mut B,
        suite: &mut S,
        notes: &mut Ledger,
    ) -> Result<C::Value, Fault> {
        self.call.make(engine, board, suite, notes)
    }
}

/// Makes a call over the watched board, whose accesses are logged.
pub(crate) fn make<C: Call, S: Suite>(
    call: &C,
    engine: &mut Engine,
    board: &mut MemBoard,
    suite: &mut S,
    ledger: &mut Ledger,
    log: &mut AccessLog,
) -> CallEnd<Result<C::Value, Fault>>
    requires can { C.can call.now engine.old.shape (ledger_of ledger.old) (capacity_of ledger.old) }
    requires on { (memory_of board.old).powered ≡ true }
    requires usable { IsUsable engine.old.shape engine.old (device_during (memory_of board.old) none_taken) (ledger_of ledger.old) }
    requires up { engine.old.down ≡ false }
    ensures made { IsCalled S.Suite C.relation C.write call.now engine.old board.old suite.old ledger.old
        engine.new board.new result.taken suite.new ledger.new result.answer }
    ensures down { engine.new.down ≡ not (is_going (outcome_of result.answer)) }
    ensures watched { IsWatched (memory_of board.old) (memory_of board.new) result.taken }
    ensures capacity { capacity_of ledger.new ≡ capacity_of ledger.old }
    ensures logged { GoesOn log.old (memory_of board.old) log.new (memory_of board.new) }
    ensures keys { S.keys suite.new ≡ S.keys suite.old }
{
    make_call(&OfEngine { call }, engine, board, suite, ledger, log)
}

/// Whether an exhibit ended the call.
pub(crate) fn is_shown<T>(answer: &Result<T, Fault>) -> bool
    ensures { result ≡ is_outcome_shown (outcome_of answer.now) }
{
    match answer {
        Err(Fault::Shown) => true,
        _ => false,
    }
}

/// Whether power was cut in the call.
pub(crate) fn is_cut<T>(answer: &Result<T, Fault>) -> bool
    ensures { result ≡ is_outcome_cut (outcome_of answer.now) }
{
    match answer {
        Err(Fault::Cut) => true,
        _ => false,
    }
}

/// Makes the device new. If it is done the engine is there.
pub(crate) fn format<S: Suite>(
    alloc: Global,
    geo: &Geo,
    board: &mut MemBoard,
    suite: &mut S,
    ledger: &mut Ledger,
    engine: &mut Option<Engine>,
) -> Result<(), MemFault>
    requires size { length (memory_of board.old).lines ≡ device_lines (shape_of geo.now) }
    requires steady { (device_of (memory_of board.old)).steady ≡ true }
    requires none { (memory_of board.old).snapshot ≡ None }
    requires ledger { IsOfShape (shape_of geo.now) (ledger_of ledger.old) }
    requires no_marks { (ledger_of ledger.old).marks ≡ [] }
    requires no_exhibit { IsNone (ledger_of ledger.old).exhibit }
    requires engine { engine.old ≡ None }
    ensures formatted { IfOk result (λ _. IsFormatted S.Suite geo.now board.old suite.old board.new ledger.new engine.new) }
    ensures none { (memory_of board.new).snapshot ≡ None }
    ensures each_line { All IsLine (memory_of board.new).lines }
    ensures keys { S.keys suite.new ≡ S.keys suite.old }
    ensures work { OnOk result (HasFormatCounts S.Suite geo.now suite.old suite.new) }
{
    let made = format_kept::<Brand, S>(alloc, geo, board, suite, ledger, engine);
    let Made { board: _, answer } = made;
    answer
}

fn format_kept<'a, K: Start, S: Suite>(
    alloc: Global,
    geo: &Geo,
    board: &'a mut MemBoard,
    suite: &mut S,
    ledger: &mut Ledger,
    engine: &mut Option<Engine>,
) -> Made<'a, Result<(), MemFault>>
    requires size { length (memory_of board.old).lines ≡ device_lines (shape_of geo.now) }
    requires steady { (device_of (memory_of board.old)).steady ≡ true }
    requires none { (memory_of board.old).snapshot ≡ None }
    requires name { board.ghost_name ≡ K.name }
    requires ledger { IsOfShape (shape_of geo.now) (ledger_of ledger.old) }
    requires no_marks { (ledger_of ledger.old).marks ≡ [] }
    requires no_exhibit { IsNone (ledger_of ledger.old).exhibit }
    requires engine { engine.old ≡ None }
    ensures name { result.board.ghost_name ≡ K.name }
    ensures formatted { IfOk result.answer (λ _. IsFormatted S.Suite geo.now board.old suite.old result.board.now ledger.new engine.new) }
    ensures none { (memory_of result.board.now).snapshot ≡ None }
    ensures each_line { All IsLine (memory_of result.board.now).lines }
    ensures keys { S.keys suite.new ≡ S.keys suite.old }
    ensures work { OnOk result.answer (HasFormatCounts S.Suite geo.now suite.old suite.new) }
{
    let mut kept = Kept::<K>::new(board);
    let answer = pmem_recovery::format(alloc, geo, &mut kept, suite, ledger);
    let outcome = put(answer, engine);
    kept.made(outcome)
}

/// Puts a new engine in its place.
fn put(answer: Result<Engine, MemFault>, engine: &mut Option<Engine>) -> Result<(), MemFault>
    requires { engine.old ≡ None }
    ensures { IfOk result (λ _. IfOk answer (λ found. engine.new ≡ Some found) × IsOk answer) }
{
    match answer {
        Ok(found) => {
            *engine = Some(found);
            Ok(())
        }
        Err(fault) => Err(fault),
    }
}

/// The device is recovered, as the ledger knows it.
#[derive(Drop)]
struct Recovery<'a> {
    alloc: Global,
    geo: &'a Geo,
    ledger: &'a Ledger,
}

impl<'a> BoardCall<()> for Recovery<'a> {
    type Engine = Option<Engine>;

    type Answer = Result<Work, RecFault>;

    ghost can = { λ recovery engine device _. (device.size ≡ device_lines (shape_of recovery.geo.now))
        × IsValidRegs (shape_of recovery.geo.now) device.regs
        × IsOfShape (shape_of recovery.geo.now) (ledger_of recovery.ledger.now) × (engine ≡ None) };

    ghost relation = { λ recovery S suite _ device s _ later_engine later_device later_s _ answer.
        IsRecoveredOver suite recovery.geo.now recovery.ledger.now device s later_device later_s later_engine answer };

    fn make<B: Board, S: Suite>(
        &self,
        engine: &mut Option<Engine>,
        board: &mut B,
        suite: &mut S,
        notes: &mut (),
    ) -> Result<Work, RecFault> {
        let answer = pmem_recovery::recover(self.alloc, self.geo, board, suite, self.ledger);
        taken_apart(answer, engine)
    }
}

/// Recovers the device. If it is done the engine is there.
pub(crate) fn recover<S: Suite>(
    alloc: Global,
    geo: &Geo,
    board: &mut MemBoard,
    suite: &mut S,
    ledger: &Ledger,
    engine: &mut Option<Engine>,
    log: &mut AccessLog,
) -> CallEnd<Result<Work, RecFault>>
    requires size { length (memory_of board.old).lines ≡ device_lines (shape_of geo.now) }
    requires on { (memory_of board.old).powered ≡ true }
    requires regs { IsValidRegs (shape_of geo.now) (memory_of board.old).regs }
    requires ledger { IsOfShape (shape_of geo.now) (ledger_of ledger.now) }
    requires engine { engine.old ≡ None }
    ensures recovered { IsRecovered S.Suite geo.now ledger.now board.old suite.old
        board.new result.taken suite.new engine.new result.answer }
    ensures watched { IsWatched (memory_of board.old) (memory_of board.new) result.taken }
    ensures logged { GoesOn log.old (memory_of board.old) log.new (memory_of board.new) }
{
    make_call(
        &Recovery { alloc, geo, ledger },
        engine,
        board,
        suite,
        &mut (),
        log,
    )
}

/// Puts a recovery's engine in its place.
fn taken_apart(
    answer: Result<(Engine, Work), RecFault>,
    engine: &mut Option<Engine>,
) -> Result<Work, RecFault>
    requires { engine.old ≡ None }
    ensures { IsTakenApart answer engine.new result }
{
    match answer {
        Ok((found, work)) => {
            *engine = Some(found);
            Ok(work)
        }
        Err(fault) => Err(fault),
    }
}
