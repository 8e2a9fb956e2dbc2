//! A call of a store over a board whose fuse is watched, and whose accesses are logged: one watched board for each
//! command, so that its steps are those of the whole command.
ghost use Rattle.std.specs.Prelude.{◌≡◌, ◌<◌, ℕ, Bool, true, Option, Result, IfSome};
ghost use Rattle.board.specs.MemBoard.{memory_of};
ghost use Rattle.suite.specs.Setup.{Setup};
ghost use Rattle.seal_ledger.specs.Notes.{HasRoom};
ghost use Rattle.seal_ledger.specs.View.{capacity_of, ledger_of};
ghost use Rattle.pmem_engine.specs.Engine.{EngineState};
ghost use Rattle.pmem_engine.specs.Parts.{Parts};
ghost use Rattle.pmem_engine.specs.Calls.{IsUsable};
ghost use Rattle.watched_board.specs.Watching.{IsWatched, none_taken};
ghost use Rattle.access_log.specs.Traced.{GoesOn};
ghost use Rattle.line_session.specs.Kept.{KeepsLines};
ghost use Rattle.line_session.specs.Promised.{IsMade, IsMadeBy, IsKeptBy, StaysUsable, IsCalled, IsKeptCall, IsUsableDuring};

use access_log::AccessLog;
use board::{Board, MemBoard};
use seal_ledger::Ledger;
use suite::Suite;
use watched_call::{BoardCall, CallEnd, make_call};

/// A store of lines over an engine.
pub trait LineStore: Drop {
    /// Its engine.
    ghost engine: { Self → EngineState };

    ghost lines: { Self → ℕ };

    /// How many lines it has.
    fn lines(&self) -> u32
        ensures { result ≡ lines self.now };
}

/// A call of a store of lines over an engine: what it needs of the store and of the room for marks, and what it does of
/// the store and of the engine's parts, by whether the engine is down, by its plan and by what it makes of the lines.
pub trait StoreCall {
    /// The store.
    type Store: LineStore;
    /// What the call answers if it is done.
    type Value: Copy;
    /// Why it isn't.
    type Fault: Copy;

    /// The line that it asks for, if it asks for one.
    ghost asked: { Self → Option ℕ };

    /// The line whose own seal shows that the call's change stays if power is cut in it.
    ghost own: { Self → Self.Store → ℕ };

    /// The most marks that it makes.
    ghost room: { Self → ℕ };

    ghost can: { Self → Self.Store → Type 0 };

    ghost is_cut: { Result Self.Value Self.Fault → Bool };

    ghost relation: { Self → Setup → Self.Store → Self.Store → Parts → Parts → Result Self.Value Self.Fault → Type 0 };

    /// The line that it asks for, if it asks for one.
    fn asked(&self) -> Option<u64>
        ensures { result ≡ asked self.now };

    /// The line whose own seal shows that the call's change stays if power is cut in it.
    fn own(&self, store: &Self::Store) -> u32
        requires asked { IfSome (asked self.now) (λ at. at < Self.Store.lines store.now) }
        ensures { result ≡ own self.now store.now };

    /// The most marks that it makes.
    fn room(&self) -> u32
        ensures { result ≡ room self.now };

    /// Whether power was cut.
    fn is_cut(answer: &Result<Self::Value, Self::Fault>) -> bool
        ensures { result ≡ is_cut answer.now };

    /// Makes the call.
    fn make<B: Board, S: Suite>(
        &self,
        store: &mut Self::Store,
        board: &mut B,
        suite: &mut S,
        ledger: &mut Ledger,
    ) -> Result<Self::Value, Self::Fault>
        requires asked { IfSome (asked self.now) (λ at. at < Self.Store.lines store.old) }
        requires can { can self.now store.old }
        requires room { HasRoom (ledger_of ledger.old) (capacity_of ledger.old) (room self.now) }
        requires usable { IsUsable (Self.Store.engine store.old).shape (Self.Store.engine store.old) (B.device board.old) (ledger_of ledger.old) }
        ensures made { IsMadeBy B.Board S.Suite Self.Store.engine (relation self.now) store.old board.old suite.old ledger.old
            store.new board.new suite.new ledger.new result }
        ensures kept { IsKeptBy B.Board S.Suite Self.Store.engine is_cut store.old board.old suite.old ledger.old
            store.new board.new suite.new ledger.new result }
        ensures capacity { capacity_of ledger.new ≡ capacity_of ledger.old }
        ensures keys { S.keys suite.new ≡ S.keys suite.old }
        ensures usable { IsUsable (Self.Store.engine store.old).shape (Self.Store.engine store.new) (B.device board.new) (ledger_of ledger.new) }
        ensures shape { (Self.Store.engine store.new).shape ≡ (Self.Store.engine store.old).shape };
}

/// A call of a store, as one over a watched board.
#[derive(Drop)]
struct OfStore<'a, C> {
    call: &'a C,
}

impl<'a, C: StoreCall> BoardCall<Ledger> for OfStore<'a, C> {
    type Engine = C::Store;

    type Answer = Result<C::Value, C::Fault>;

    ghost can = { λ made store device ledger. IfSome (C.asked made.call.now) (λ at. at < C.Store.lines store)
        × C.can made.call.now store × HasRoom (ledger_of ledger) (capacity_of ledger) (C.room made.call.now)
        × IsUsable (C.Store.engine store).shape (C.Store.engine store) device (ledger_of ledger) };

    ghost relation = { λ made S suite store device s ledger later_store later_device later_s later_ledger answer.
        IsMade suite C.Store.engine (C.relation made.call.now) store device s ledger later_store later_device later_s later_ledger answer
        × IsMade suite C.Store.engine (KeepsLines C.Store.engine C.is_cut) store device s ledger later_store later_device later_s later_ledger answer
        × StaysUsable suite C.Store.engine store s ledger later_store later_device later_s later_ledger };

    fn make<B: Board, S: Suite>(
        &self,
        engine: &mut C::Store,
        board: &mut B,
        suite: &mut S,
        notes: &mut Ledger,
    ) -> Result<C::Value, C::Fault> {
        self.call.make(engine, board, suite, notes)
    }
}

/// Makes a call over the watched board, whose accesses are logged.
pub fn call<C: StoreCall, S: Suite>(
    call: &C,
    store: &mut C::Store,
    board: &mut MemBoard,
    suite: &mut S,
    ledger: &mut Ledger,
    log: &mut AccessLog,
) -> CallEnd<Result<C::Value, C::Fault>>
    requires asked { IfSome (C.asked call.now) (λ at. at < C.Store.lines store.old) }
    requires can { C.can call.now store.old }
    requires room { HasRoom (ledger_of ledger.old) (capacity_of ledger.old) (C.room call.now) }
    requires on { (memory_of board.old).powered ≡ true }
    requires usable { IsUsableDuring (C.Store.engine store.old).shape (C.Store.engine store.old) board.old none_taken ledger.old }
    ensures made { IsCalled S.Suite C.Store.engine (C.relation call.now) store.old board.old suite.old ledger.old
        store.new board.new suite.new ledger.new result }
    ensures kept { IsKeptCall S.Suite C.Store.engine C.is_cut store.old board.old suite.old ledger.old
        store.new board.new suite.new ledger.new result }
    ensures watched { IsWatched (memory_of board.old) (memory_of board.new) result.taken }
    ensures logged { GoesOn log.old (memory_of board.old) log.new (memory_of board.new) }
    ensures capacity { capacity_of ledger.new ≡ capacity_of ledger.old }
    ensures keys { S.keys suite.new ≡ S.keys suite.old }
    ensures usable { IsUsableDuring (C.Store.engine store.old).shape (C.Store.engine store.new) board.new result.taken ledger.new }
    ensures shape { (C.Store.engine store.new).shape ≡ (C.Store.engine store.old).shape }
{
    make_call(&OfStore { call }, store, board, suite, ledger, log)
}
