//! A call over a watched board.
ghost use Rattle.std.specs.Prelude.{◌≡◌, true};
ghost use Rattle.board.specs.Device.{Device};
ghost use Rattle.board.specs.MemBoard.{memory_of};
ghost use Rattle.suite.specs.declared.Suite.{Ghosts as SuiteOf};
ghost use Rattle.watched_board.specs.Watching.{IsWatched};
ghost use Rattle.access_log.specs.Traced.{GoesOn, as_seen};
ghost use Rattle.watched_call.specs.Seen.{as_found, as_left};

use access_log::{AccessLog, Entry, Logged};
use board::{Board, MemBoard};
use std::marker::Brand;
use suite::Suite;
use watched_board::{Left, Start, Taken};

/// A call's answer, and the steps that it took.
#[derive(Drop)]
pub struct CallEnd<T> {
    pub taken: Taken,
    pub answer: T,
}

/// A call of an engine, or of a store over one: what it needs, and what it does of the engine, the device, the suite and
/// the notes `N` of what was sealed and seen, as a ledger or a watch.
pub trait BoardCall<N> {
    /// The engine, or the store over it.
    type Engine;
    /// What the call answers.
    type Answer;

    ghost can: { Self → Self.Engine → Device → N → Type 0 };

    ghost relation: { Self → (S : Type 0) → SuiteOf S → Self.Engine → Device → S → N
        → Self.Engine → Device → S → N → Self.Answer → Type 0 };

    /// Makes the call.
    fn make<B: Board, S: Suite>(
        &self,
        engine: &mut Self::Engine,
        board: &mut B,
        suite: &mut S,
        notes: &mut N,
    ) -> Self::Answer
        requires can { can self.now engine.old (B.device board.old) notes.old }
        ensures made { relation self.now S S.Suite engine.old (B.device board.old) suite.old notes.old
            engine.new (B.device board.new) suite.new notes.new result };
}

/// Makes a call over the watched board, whose accesses are logged.
pub fn make_call<N, C: BoardCall<N>, S: Suite>(
    call: &C,
    engine: &mut C::Engine,
    board: &mut MemBoard,
    suite: &mut S,
    notes: &mut N,
    log: &mut AccessLog,
) -> CallEnd<C::Answer>
    requires can { C.can call.now engine.old (as_found board.old) notes.old }
    requires on { (memory_of board.old).powered ≡ true }
    ensures made { C.relation call.now S S.Suite engine.old (as_found board.old) suite.old notes.old
        engine.new (as_seen board.new result.taken) suite.new notes.new result.answer }
    ensures watched { IsWatched (memory_of board.old) (memory_of board.new) result.taken }
    ensures logged { GoesOn log.old (memory_of board.old) log.new (memory_of board.new) }
{
    let left = call_logged::<Brand, N, C, S>(call, engine, board, suite, notes, log);
    let Left {
        board: _found,
        taken,
        answer,
    } = left;
    CallEnd { taken, answer }
}

fn call_logged<'a, K: Start + Entry, N, C: BoardCall<N>, S: Suite>(
    call: &C,
    engine: &mut C::Engine,
    board: &'a mut MemBoard,
    suite: &mut S,
    notes: &mut N,
    log: &mut AccessLog,
) -> Left<'a, C::Answer>
    requires can { C.can call.now engine.old (as_found board.old) notes.old }
    requires start { memory_of board.old ≡ K.start }
    requires name { board.ghost_name ≡ K.name }
    requires log { log.old ≡ K.log }
    requires on { (memory_of board.old).powered ≡ true }
    ensures name { result.board.ghost_name ≡ K.name }
    ensures made { C.relation call.now S S.Suite engine.old (as_found board.old) suite.old notes.old
        engine.new (as_left result) suite.new notes.new result.answer }
    ensures watched { IsWatched K.start (memory_of result.board.now) result.taken }
    ensures logged { GoesOn K.log K.start log.new (memory_of result.board.now) }
{
    let mut logged = Logged::<K>::new(board, log.take());
    let answer = call.make(engine, &mut logged, suite, notes);
    logged.left(answer, log)
}
