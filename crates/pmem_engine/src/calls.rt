//! The engine's calls. A call that was cut or stopped ends the engine.
ghost use Rattle.std.specs.Prelude.{◌≡◌, ◌<◌, ◌↔◌, IsOk, true, false, not, IsTrue, IfErr, OnOk, OnErr};
ghost use Rattle.pmem_base.specs.Shape.{is_loss};
ghost use Rattle.pmem_base.specs.Layout.{data_lines};
ghost use Rattle.pmem_base.specs.Ranges.{IsPosted};
ghost use Rattle.seal_ledger.specs.Notes.{HasRoom};
ghost use Rattle.pmem_engine.specs.declared.fault.Fault.TheVariants as Fail;
ghost use Rattle.call_effects.specs.Outcomes.{is_going};
ghost use Rattle.pmem_engine.specs.Outcomes.{of_cut, outcome_of};
ghost use Rattle.pmem_engine.specs.Engine.{on_chip};
ghost use Rattle.pmem_engine.specs.CallFacts.{IsReady, IsUsable, whole_write};
ghost use Rattle.pmem_engine.specs.Promised.{ReadsLine, WritesLine, Turns, Flushes, SetsLoss};

use crate::engine::Engine;
use crate::fault::{Fault, line_answer};
use board::Board;
use pmem_base::{Ctr, Cut, Line, Posted};
use seal_ledger::Audit;
use suite::Suite;

impl Engine {
    /// Reads the plain line `at`: fetches and checks its page's path, and checks its tag. Errors: `Cut`, `Meta`, `Tag`,
    /// `Shown`, `Down` (see `Fault`; docs/ENGINE.md has their causes), never `Spent`. Cost: at most one line write for
    /// each level, then two line reads and a tag.
    pub fn read<B: Board, S: Suite, A: Audit>(
        &mut self,
        board: &mut B,
        suite: &mut S,
        audit: &mut A,
        at: u32,
    ) -> Result<Line, Fault>
        requires line { at < data_lines self.old.shape }
        requires usable { IsUsable self.old.shape self.old (B.device board.old) (A.ledger audit.old) }
        ensures read { ReadsLine B.Board S.Suite A.Audit self.old board.old suite.old audit.old
            self.new board.new suite.new audit.new at result }
        ensures capacity { A.capacity audit.new ≡ A.capacity audit.old }
        ensures keys { S.keys suite.new ≡ S.keys suite.old }
        ensures usable { IsUsable self.old.shape self.new (B.device board.new) (A.ledger audit.new) }
        ensures shape { self.new.shape ≡ self.old.shape }
    {
        self.is_up()?;
        let answer = self.chip.read_line(board, suite, audit, at);
        self.ended(answer)
    }

    /// Writes a whole line, and answers the counter that it is sealed under. Requires room for 66 marks. Errors: `Cut`,
    /// `Meta`, `Tag`, `Spent`, `Shown`, `Down` (see `Fault`; docs/ENGINE.md has their causes). Cost: 4 or 5 persist
    /// steps if the path is cached and named, and the line's minor isn't 127.
    pub fn write<B: Board, S: Suite, A: Audit>(
        &mut self,
        board: &mut B,
        suite: &mut S,
        audit: &mut A,
        at: u32,
        line: &Line,
    ) -> Result<Ctr, Fault>
        requires line { at < data_lines self.old.shape }
        requires room { HasRoom (A.ledger audit.old) (A.capacity audit.old) 66 }
        requires usable { IsUsable self.old.shape self.old (B.device board.old) (A.ledger audit.old) }
        ensures written { WritesLine B.Board S.Suite A.Audit self.old board.old suite.old audit.old
            self.new board.new suite.new audit.new (whole_write at line.now) result }
        ensures capacity { A.capacity audit.new ≡ A.capacity audit.old }
        ensures keys { S.keys suite.new ≡ S.keys suite.old }
        ensures usable { IsUsable self.old.shape self.new (B.device board.new) (A.ledger audit.new) }
        ensures shape { self.new.shape ≡ self.old.shape }
    {
        line.is_whole();
        let write = Posted {
            at,
            from: 0,
            len: 64,
            line: *line,
        };
        self.write_part(board, suite, audit, &write)
    }

    /// Writes the bytes of a posted write into their line, and answers the counter that it is sealed under. If the
    /// write is shorter than a line, the line is read and unsealed before. Errors and cost: those of `write`, and two
    /// line reads and a tag if the write is shorter than a line.
    pub fn write_part<B: Board, S: Suite, A: Audit>(
        &mut self,
        board: &mut B,
        suite: &mut S,
        audit: &mut A,
        write: &Posted,
    ) -> Result<Ctr, Fault>
        requires line { write.now.at < data_lines self.old.shape }
        requires posted { IsPosted write.now }
        requires room { HasRoom (A.ledger audit.old) (A.capacity audit.old) 66 }
        requires usable { IsUsable self.old.shape self.old (B.device board.old) (A.ledger audit.old) }
        ensures written { WritesLine B.Board S.Suite A.Audit self.old board.old suite.old audit.old
            self.new board.new suite.new audit.new write.now result }
        ensures capacity { A.capacity audit.new ≡ A.capacity audit.old }
        ensures keys { S.keys suite.new ≡ S.keys suite.old }
        ensures usable { IsUsable self.old.shape self.new (B.device board.new) (A.ledger audit.new) }
        ensures shape { self.new.shape ≡ self.old.shape }
    {
        self.is_up()?;
        let answer = self.chip.write_posted(board, suite, audit, write);
        self.ended(answer)
    }

    /// Seals the lowest line not done of the oldest page under re-encryption. The answer is the line, and how many
    /// lines of the page are left. `None` if and only if no page is open. Errors: `Cut`, `Tag`, `Shown`, `Down`. Cost:
    /// four persist steps, two reads and two tags.
    pub fn turn<B: Board, S: Suite, A: Audit>(
        &mut self,
        board: &mut B,
        suite: &mut S,
        audit: &mut A,
    ) -> Result<Option<(u32, u8)>, Fault>
        requires room { HasRoom (A.ledger audit.old) (A.capacity audit.old) 1 }
        requires usable { IsUsable self.old.shape self.old (B.device board.old) (A.ledger audit.old) }
        ensures turned { Turns B.Board S.Suite A.Audit self.old board.old suite.old audit.old
            self.new board.new suite.new audit.new result }
        ensures capacity { A.capacity audit.new ≡ A.capacity audit.old }
        ensures keys { S.keys suite.new ≡ S.keys suite.old }
        ensures usable { IsUsable self.old.shape self.new (B.device board.new) (A.ledger audit.new) }
        ensures shape { self.new.shape ≡ self.old.shape }
    {
        self.is_up()?;
        if board.regs().progress.is_empty() {
            return Ok(None);
        }
        let answer = self.chip.reseal(board, suite, audit, 0);
        let sealed = self.ended(line_answer(answer))?;
        Ok(Some(sealed))
    }

    /// Writes the oldest dirty block to its place. `None` if no block is dirty. Errors: `Cut`; `Down`. Cost: one
    /// persist step, none if no block is dirty.
    pub fn flush<B: Board>(&mut self, board: &mut B) -> Result<Option<u32>, Fault>
        requires ready { IsReady self.old.shape self.old (B.device board.old) }
        ensures flushed { Flushes B.Board self.old board.old self.new board.new result }
        ensures reads { (B.device board.new).reads ≡ (B.device board.old).reads }
        ensures ready { IsReady self.old.shape self.new (B.device board.new) }
        ensures shape { self.new.shape ≡ self.old.shape }
    {
        self.is_up()?;
        let answer = self.chip.write_back(board);
        self.ended_or_cut(answer)
    }

    /// Sets the stop-loss number, which is 1, 2, 4, 8 or 16, and answers the persist steps taken. A smaller number is
    /// latched once every dirty counter block is written to its place. Errors: `Cut`, `Down`. Cost: no step if the
    /// number stays, one if it rises; if it falls, one, and one for each dirty counter block.
    pub fn set_loss<B: Board>(&mut self, board: &mut B, n: u8) -> Result<u32, Fault>
        requires number { IsTrue (is_loss n) }
        requires ready { IsReady self.old.shape self.old (B.device board.old) }
        ensures set { SetsLoss B.Board self.old board.old self.new board.new n result }
        ensures reads { (B.device board.new).reads ≡ (B.device board.old).reads }
        ensures ready { IsReady self.old.shape self.new (B.device board.new) }
        ensures shape { self.new.shape ≡ self.old.shape }
    {
        self.chip.has_shape();
        self.is_up()?;
        let answer = self.chip.latch_loss(board, n);
        self.ended_or_cut(answer)
    }

    // Whether no earlier call was cut or stopped.
    fn is_up(&self) -> Result<(), Fault>
        ensures exactly { IsOk result ↔ (self.now.down ≡ false) }
        ensures up { OnOk result (self.now.down ≡ false) }
        ensures down { OnErr result (self.now.down ≡ true) }
        ensures fault { IfErr result (λ fault. fault ≡ Fail.Down) }
    {
        if self.down {
            return Err(Fault::Down);
        }
        Ok(())
    }

    // The answer of a call, which ends the engine if it was cut or stopped.
    fn ended<T>(&mut self, answer: Result<T, Fault>) -> Result<T, Fault>
        requires up { self.old.down ≡ false }
        ensures answer { result ≡ answer }
        ensures down { self.new.down ≡ not (is_going (outcome_of answer)) }
        ensures chip { on_chip self.new ≡ on_chip self.old }
    {
        if let Err(Fault::Cut | Fault::Shown) = answer {
            self.down = true;
        }
        answer
    }

    // The same of a call that nothing but a cut ends.
    fn ended_or_cut<T>(&mut self, answer: Result<T, Cut>) -> Result<T, Fault>
        requires up { self.old.down ≡ false }
        ensures answer { result ≡ of_cut answer }
        ensures down { self.new.down ≡ not (is_going (outcome_of (of_cut answer))) }
        ensures chip { on_chip self.new ≡ on_chip self.old }
    {
        match answer {
            Ok(value) => Ok(value),
            Err(cut) => self.ended(Err(Fault::from(cut))),
        }
    }
}
