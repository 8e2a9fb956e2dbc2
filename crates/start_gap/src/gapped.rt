//! Levelled lines over an engine: reads and writes of logical lines, and a move of the gap after a number of writes.
ghost use Rattle.std.specs.Prelude.{◌≡◌, ◌≤◌, ◌<◌, ◌+◌, ◌^◌, false, not, IfOk};
ghost use Rattle.pmem_base.specs.Layout.{data_lines};
ghost use Rattle.pmem_engine.specs.Engine.{EngineState};
ghost use Rattle.call_effects.specs.Outcomes.{is_going};
ghost use Rattle.pmem_engine.specs.Outcomes.{outcome_of};
ghost use Rattle.pmem_engine.specs.Calls.{IsUsable};
ghost use Rattle.start_gap.specs.Wear.{IsWear};
ghost use Rattle.start_gap.specs.Logical.{move_edits};
ghost use Rattle.seal_ledger.specs.Notes.{HasRoom};

use crate::record::{read_wear, wear_line};
use crate::wear::{Wear, next, place, source};
use board::Board;
use engine_lines::{Edit, edit_all};
use pmem_base::Line;
use pmem_engine::{Engine, Fault};
use seal_ledger::Audit;
use suite::Suite;

/// What became of the move at a write whose own line was written.
#[derive(Clone, Copy, Debug, PartialEq, Eq)]
pub enum Moved {
    /// No move was due.
    Not,
    /// The gap moved.
    Made,
    /// A line of the move is spent: the gap stays, and the next move is tried `every` writes later.
    Held { page: u32 },
}

/// Why a write ended: the fault of the engine's call, and whether the line's own write had been answered Ok.
#[derive(Clone, Copy, Debug, PartialEq, Eq)]
pub struct WriteFault {
    pub fault: Fault,
    pub written: bool,
}

/// Why no lines were opened. The engine is dropped; recovery over the board makes another.
#[derive(Clone, Copy, Debug, PartialEq, Eq)]
pub enum GapFault {
    /// The record wasn't read.
    Engine(Fault),
    /// The line of the record isn't a record.
    BadWear { line: Line },
}

/// An engine whose data lines are levelled: n = L - 2 logical lines lie in the places 0 to n, and data line
/// n + 1 holds the record of the wear. At each `every`th write since opening the gap moves.
#[derive(Drop)]
pub struct Gapped {
    engine: Engine,
    lines: u32,
    wear: Wear,
    every: u32,
    count: u32,
    pub ghost its_lines: { lines + 2 ≡ data_lines engine.shape },
    pub ghost few_lines: { lines ≤ 2 ^ 30 },
    pub ghost its_wear: { IsWear lines wear },
    pub ghost not_due: { count < every },
}

impl Gapped {
    ghost use Rattle.start_gap.specs.Promised.{OpensLevelled, ReadsRecord, FollowsRecord, ReadsLevelled, WritesLevelled, WritesAndMoves, FollowsWriting, MovesGap, FollowsMove};
    ghost use Rattle.start_gap.specs.Gapped.{IsSpentUnwritten, HasWear, write_answer_by, write_outcome_by, wear_by};

    /// Reads the record of the wear. Errors: `BadWear` if and only if its line isn't a record; otherwise the fault of
    /// the engine's read, which is `Down` if the engine is down, and then nothing is read.
    pub fn open<B: Board, S: Suite, A: Audit>(
        engine: Engine,
        board: &mut B,
        suite: &mut S,
        audit: &mut A,
        every: u32,
    ) -> Result<Gapped, GapFault>
        requires every { 1 ≤ every }
        requires usable { IsUsable engine.shape engine (B.device board.old) (A.ledger audit.old) }
        ensures opened { OpensLevelled B.Board S.Suite A.Audit engine board.old suite.old audit.old
            board.new suite.new audit.new every result }
        ensures capacity { A.capacity audit.new ≡ A.capacity audit.old }
        ensures keys { S.keys suite.new ≡ S.keys suite.old }
        ensures usable { IfOk result (λ gapped. IsUsable engine.shape gapped.engine (B.device board.new) (A.ledger audit.new)) }
        ensures shape { IfOk result (λ gapped. gapped.engine.shape ≡ engine.shape) }
        ensures left { (last : EngineState) × IsUsable engine.shape last (B.device board.new) (A.ledger audit.new) }
    {
        if engine.is_down() {
            return Err(GapFault::Engine(Fault::Down));
        }
        Gapped::open_up(engine, board, suite, audit, every)
    }

    // The same by an engine that is up: the read of which the rest follows.
    fn open_up<B: Board, S: Suite, A: Audit>(
        engine: Engine,
        board: &mut B,
        suite: &mut S,
        audit: &mut A,
        every: u32,
    ) -> Result<Gapped, GapFault>
        requires every { 1 ≤ every }
        requires usable { IsUsable engine.shape engine (B.device board.old) (A.ledger audit.old) }
        requires up { engine.down ≡ false }
        ensures opened { ReadsRecord B.Board S.Suite A.Audit engine board.old suite.old audit.old
            board.new suite.new audit.new every result }
        ensures plan { FollowsRecord B.Board S.Suite A.Audit engine board.old suite.old audit.old
            board.new suite.new audit.new result }
        ensures capacity { A.capacity audit.new ≡ A.capacity audit.old }
        ensures keys { S.keys suite.new ≡ S.keys suite.old }
        ensures usable { IfOk result (λ gapped. IsUsable engine.shape gapped.engine (B.device board.new) (A.ledger audit.new)) }
        ensures shape { IfOk result (λ gapped. gapped.engine.shape ≡ engine.shape) }
        ensures up { IfOk result (λ gapped. gapped.engine.down ≡ false) }
        ensures left { (last : EngineState) × IsUsable engine.shape last (B.device board.new) (A.ledger audit.new) }
    {
        let mut engine = engine;
        let lines = engine.geo().lines() - 2;
        let line = match engine.read(board, suite, audit, lines + 1) {
            Err(fault) => return Err(GapFault::Engine(fault)),
            Ok(line) => line,
        };
        match read_wear(lines, &line) {
            None => Err(GapFault::BadWear { line }),
            Some(wear) => Ok(Gapped {
                engine,
                lines,
                wear,
                every,
                count: 0,
            }),
        }
    }

    /// The wear that is recorded.
    pub fn wear(&self) -> &Wear
        ensures { result.now ≡ self.now.wear }
    {
        &self.wear
    }

    /// How many logical lines there are.
    pub fn lines(&self) -> u32
        ensures value { result ≡ self.now.lines }
        ensures levelled { result + 2 ≡ data_lines self.now.engine.shape }
    {
        self.lines
    }

    /// A logical line, read at its place. Errors: the fault of the engine's read, which is `Down` if the engine is
    /// down.
    pub fn read<B: Board, S: Suite, A: Audit>(
        &mut self,
        board: &mut B,
        suite: &mut S,
        audit: &mut A,
        line: u32,
    ) -> Result<Line, Fault>
        requires line { line < self.old.lines }
        requires usable { IsUsable self.old.engine.shape self.old.engine (B.device board.old) (A.ledger audit.old) }
        ensures read { ReadsLevelled B.Board S.Suite A.Audit self.old board.old suite.old audit.old
            self.new board.new suite.new audit.new line result }
        ensures wear { HasWear self.old.wear self.old.count self.old self.new }
        ensures capacity { A.capacity audit.new ≡ A.capacity audit.old }
        ensures keys { S.keys suite.new ≡ S.keys suite.old }
        ensures usable { IsUsable self.old.engine.shape self.new.engine (B.device board.new) (A.ledger audit.new) }
        ensures shape { self.new.engine.shape ≡ self.old.engine.shape }
    {
        let at = place(self.lines, &self.wear, line);
        self.engine.read(board, suite, audit, at)
    }

    /// Writes a logical line to its place, and moves the gap if that is due. Wherever the write ends, the line is there
    /// whole or as it was, and so is every other. Errors: `WriteFault`, with the fault of the engine's call and
    /// `written`, whether the line's own write was answered; with `written` the fault is never that a line is spent. If
    /// the engine is down nothing is done.
    pub fn write<B: Board, S: Suite, A: Audit>(
        &mut self,
        board: &mut B,
        suite: &mut S,
        audit: &mut A,
        line: u32,
        plain: &Line,
    ) -> Result<Moved, WriteFault>
        requires line { line < self.old.lines }
        requires room { HasRoom (A.ledger audit.old) (A.capacity audit.old) 198 }
        requires usable { IsUsable self.old.engine.shape self.old.engine (B.device board.old) (A.ledger audit.old) }
        ensures written { WritesLevelled B.Board S.Suite A.Audit self.old board.old suite.old audit.old
            self.new board.new suite.new audit.new line plain.now result }
        ensures spent { IsSpentUnwritten result }
        ensures capacity { A.capacity audit.new ≡ A.capacity audit.old }
        ensures keys { S.keys suite.new ≡ S.keys suite.old }
        ensures usable { IsUsable self.old.engine.shape self.new.engine (B.device board.new) (A.ledger audit.new) }
        ensures shape { self.new.engine.shape ≡ self.old.engine.shape }
    {
        plain.is_whole();
        if self.engine.is_down() {
            return Err(WriteFault {
                fault: Fault::Down,
                written: false,
            });
        }
        self.write_and_move(board, suite, audit, line, plain)
    }

    // The line's own write, and then the move if that is due.
    fn write_and_move<B: Board, S: Suite, A: Audit>(
        &mut self,
        board: &mut B,
        suite: &mut S,
        audit: &mut A,
        line: u32,
        plain: &Line,
    ) -> Result<Moved, WriteFault>
        requires line { line < self.old.lines }
        requires room { HasRoom (A.ledger audit.old) (A.capacity audit.old) 198 }
        requires usable { IsUsable self.old.engine.shape self.old.engine (B.device board.old) (A.ledger audit.old) }
        requires up { self.old.engine.down ≡ false }
        ensures written { WritesAndMoves B.Board S.Suite A.Audit self.old board.old suite.old audit.old
            self.new board.new suite.new audit.new line plain.now result }
        ensures plan { FollowsWriting B.Board S.Suite A.Audit self.old board.old suite.old audit.old
            self.new board.new suite.new audit.new line plain.now result }
        ensures down { self.new.engine.down ≡ not (is_going (write_outcome_by result)) }
        ensures capacity { A.capacity audit.new ≡ A.capacity audit.old }
        ensures keys { S.keys suite.new ≡ S.keys suite.old }
        ensures usable { IsUsable self.old.engine.shape self.new.engine (B.device board.new) (A.ledger audit.new) }
        ensures shape { self.new.engine.shape ≡ self.old.engine.shape }
    {
        let at = place(self.lines, &self.wear, line);
        if let Err(fault) = self.engine.write(board, suite, audit, at, plain) {
            return Err(WriteFault {
                fault,
                written: false,
            });
        }
        if self.count + 1 < self.every {
            self.count += 1;
            return Ok(Moved::Not);
        }
        self.count = 0;
        let tried = self.move_gap(board, suite, audit);
        Gapped::answer_of_move(tried)
    }

    // Copies the line of the source into the gap, and then records the next wear.
    fn move_gap<B: Board, S: Suite, A: Audit>(
        &mut self,
        board: &mut B,
        suite: &mut S,
        audit: &mut A,
    ) -> Result<(), Fault>
        requires room { HasRoom (A.ledger audit.old) (A.capacity audit.old) 132 }
        requires usable { IsUsable self.old.engine.shape self.old.engine (B.device board.old) (A.ledger audit.old) }
        requires up { self.old.engine.down ≡ false }
        ensures moved { MovesGap B.Board S.Suite A.Audit self.old board.old suite.old audit.old
            self.new board.new suite.new audit.new result }
        ensures plan { FollowsMove B.Board S.Suite A.Audit self.old board.old suite.old audit.old
            self.new board.new suite.new audit.new result }
        ensures down { self.new.engine.down ≡ not (is_going (outcome_of result)) }
        ensures wear { HasWear (wear_by result self.old.lines self.old.wear) self.old.count self.old self.new }
        ensures capacity { A.capacity audit.new ≡ A.capacity audit.old }
        ensures keys { S.keys suite.new ≡ S.keys suite.old }
        ensures usable { IsUsable self.old.engine.shape self.new.engine (B.device board.new) (A.ledger audit.new) }
        ensures shape { self.new.engine.shape ≡ self.old.engine.shape }
    {
        let edits = moving(self.lines, &self.wear);
        edit_all(&mut self.engine, board, suite, audit, &edits)?;
        self.wear = next(self.lines, &self.wear);
        Ok(())
    }

    // The answer of a write whose own line was written, by that of its move.
    fn answer_of_move(tried: Result<(), Fault>) -> Result<Moved, WriteFault>
        ensures { result ≡ write_answer_by tried }
    {
        match tried {
            Ok(()) => Ok(Moved::Made),
            Err(fault) => match fault {
                Fault::Spent { page } => Ok(Moved::Held { page }),
                _ => Err(WriteFault {
                    fault,
                    written: true,
                }),
            },
        }
    }
}

// The changes of a move: the line of the source is copied into the gap, and then the next wear is recorded.
fn moving(n: u32, wear: &Wear) -> [Edit; 2]
    requires lines { n ≤ 2 ^ 30 }
    requires wear { IsWear n wear.now }
    ensures { result ≡ move_edits n wear.now }
{
    let copy = Edit::Copy {
        from: source(n, wear),
        at: wear.gap,
    };
    let record = Edit::Put {
        at: n + 1,
        line: wear_line(n, &next(n, wear)),
    };
    [copy, record]
}
