//! Writing: the steps of a write, in their order.
ghost use Rattle.std.specs.Prelude.{◌≡◌, ◌<◌, ◌≤◌, ◌-◌, ◌^◌, None, false, true, length, IfOk, IfSome, IsNone, OnOk};
ghost use Rattle.pmem_base.specs.Layout.{page_of, index_in_page, data_lines, pages};
ghost use Rattle.pmem_base.specs.Ranges.{IsPosted};
ghost use Rattle.pmem_base.specs.WaitingWrites.{put_write};
ghost use Rattle.seal_ledger.specs.Notes.{HasRoom};
ghost use Rattle.split_counters.specs.Blocks.{next_block};
ghost use Rattle.page_reencrypt.specs.Registers.{register_of};
ghost use Rattle.meta_path.specs.Blocks.{IsPathCached};
ghost use Rattle.pmem_engine.specs.CallFacts.{IsUsableWith, IsPathNamedInMirror};
ghost use Rattle.pmem_engine.specs.Inner.{cached_block};
ghost use Rattle.pmem_engine.specs.Writing.{overflow_of, register_to_finish};
ghost use Rattle.pmem_engine.specs.Promised.{IsLineWritten, FollowsWrite, MakesPlain, FollowsPlain, FinishesFor, FollowsFinishFor, FinishesPage, FollowsFinish, BeginsFor, FollowsBeginFor};

use crate::engine::OnChip;
use crate::fault::{Fault, LineFault};
use arrayvec::ArrayVec;
use board::Board;
use page_reencrypt::{find_open, left};
use pmem_base::{Ctr, Line, Posted, Progress};
use seal_ledger::Audit;
use suite::Suite;

impl OnChip {
    // Writes a posted write: fetches its path, unseals its line if it is shorter than a line, makes
    // room for a page that has to be re-encrypted, names the path's blocks, begins the page, and
    // seals.
    pub(crate) fn write_posted<B: Board, S: Suite, A: Audit>(
        &mut self,
        board: &mut B,
        suite: &mut S,
        audit: &mut A,
        write: &Posted,
    ) -> Result<Ctr, Fault>
        requires line { write.now.at < data_lines self.old.shape }
        requires posted { IsPosted write.now }
        requires usable { IsUsableWith self.old.shape false (B.device board.old) (A.ledger audit.old) }
        requires room { HasRoom (A.ledger audit.old) (A.capacity audit.old) 66 }
        ensures written { IsLineWritten B.Board S.Suite A.Audit self.old board.old suite.old audit.old
            self.new board.new suite.new audit.new write.now result }
        ensures plan { FollowsWrite B.Board S.Suite A.Audit self.old board.old suite.old audit.old
            self.new board.new suite.new audit.new write.now result }
        ensures capacity { A.capacity audit.new ≡ A.capacity audit.old }
        ensures keys { S.keys suite.new ≡ S.keys suite.old }
    {
        let page = write.at / 64;
        self.fetch(board, suite, audit, page)?;
        let overflows = self.overflows(write.at)?;
        let plain = self.plain_after(board, suite, audit, write)?;
        self.finish_for(board, suite, audit, page, overflows)?;
        self.name_path(board, page)?;
        self.begin_for(board, suite, audit, page, overflows)?;
        let ctr = self.seal_next(board, suite, audit, write.at, &plain)?;
        Ok(ctr)
    }

    // Whether the line's minor in its page's counter block stands at its end. Spent if the major
    // does too.
    fn overflows(&self, at: u32) -> Result<bool, Fault>
        requires line { at < data_lines self.now.shape }
        ensures exactly { result ≡ overflow_of (cached_block self.now.shape self.now (page_of at)) (page_of at) (index_in_page at) }
        ensures major { IfOk result (λ overflows. overflows ≡ true → (cached_block self.now.shape self.now (page_of at)).major < 2 ^ 64 - 1) }
    {
        let ctr = self.block_counter(at);
        if ctr.minor < 127 {
            return Ok(false);
        }
        if ctr.major == u64::MAX {
            return Err(Fault::Spent { page: at / 64 });
        }
        Ok(true)
    }

    // The plain line with the write's bytes in it. A write of a whole line needs nothing of the old one.
    fn plain_after<B: Board, S: Suite, A: Audit>(
        &self,
        board: &mut B,
        suite: &mut S,
        audit: &mut A,
        write: &Posted,
    ) -> Result<Line, LineFault>
        requires line { write.now.at < data_lines self.now.shape }
        requires posted { IsPosted write.now }
        requires usable { IsUsableWith self.now.shape false (B.device board.old) (A.ledger audit.old) }
        ensures made { MakesPlain B.Board S.Suite A.Audit self.now board.old suite.old audit.old
            self.now board.new suite.new audit.new write.now result }
        ensures plan { FollowsPlain B.Board S.Suite A.Audit self.now board.old suite.old audit.old
            self.now board.new suite.new audit.new write.now result }
        ensures capacity { A.capacity audit.new ≡ A.capacity audit.old }
        ensures keys { S.keys suite.new ≡ S.keys suite.old }
    {
        if write.len == 64 {
            return Ok(write.line);
        }
        let ctr = self.counter(board, write.at);
        let unsealed = self.unseal_line(board, suite, audit, write.at, ctr)?;
        Ok(line_with(&unsealed.plain, write))
    }

    // If the page has to be re-encrypted: finishes it if it is open, or the oldest page if four
    // are.
    fn finish_for<B: Board, S: Suite, A: Audit>(
        &self,
        board: &mut B,
        suite: &mut S,
        audit: &mut A,
        page: u32,
        overflows: bool,
    ) -> Result<(), LineFault>
        requires usable { IsUsableWith self.now.shape false (B.device board.old) (A.ledger audit.old) }
        requires room { HasRoom (A.ledger audit.old) (A.capacity audit.old) 64 }
        ensures finished { FinishesFor B.Board S.Suite A.Audit self.now board.old suite.old audit.old
            self.now board.new suite.new audit.new overflows page result }
        ensures closed { OnOk result (overflows ≡ true → register_of (B.device board.new).regs.progress.items page ≡ None) }
        ensures not_full { OnOk result (overflows ≡ true → length (B.device board.new).regs.progress.items < 4) }
        ensures plan { FollowsFinishFor B.Board S.Suite A.Audit self.now board.old suite.old audit.old
            self.now board.new suite.new audit.new overflows page result }
        ensures capacity { A.capacity audit.new ≡ A.capacity audit.old }
        ensures keys { S.keys suite.new ≡ S.keys suite.old }
    {
        if !overflows {
            return Ok(());
        }
        match to_finish(&board.regs().progress, page) {
            Some(n) => self.finish_page(board, suite, audit, n),
            None => Ok(()),
        }
    }

    // Seals every line not done of register `n`'s page, from the lowest.
    fn finish_page<B: Board, S: Suite, A: Audit>(
        &self,
        board: &mut B,
        suite: &mut S,
        audit: &mut A,
        n: usize,
    ) -> Result<(), LineFault>
        requires usable { IsUsableWith self.now.shape false (B.device board.old) (A.ledger audit.old) }
        requires room { HasRoom (A.ledger audit.old) (A.capacity audit.old) 64 }
        requires register { n < length (B.device board.old).regs.progress.items }
        ensures finished { FinishesPage B.Board S.Suite A.Audit self.now board.old suite.old audit.old
            self.now board.new suite.new audit.new n result }
        ensures plan { FollowsFinish B.Board S.Suite A.Audit self.now board.old suite.old audit.old
            self.now board.new suite.new audit.new n result }
        ensures capacity { A.capacity audit.new ≡ A.capacity audit.old }
        ensures keys { S.keys suite.new ≡ S.keys suite.old }
    {
        let lines = left(&board.regs().progress[n]);
        'lines: for _line in 0..lines {
            self.reseal(board, suite, audit, n)?;
        }
        Ok(())
    }

    // Begins the page if it has to be re-encrypted.
    fn begin_for<B: Board, S: Suite, A: Audit>(
        &mut self,
        board: &mut B,
        suite: &mut S,
        audit: &mut A,
        page: u32,
        overflows: bool,
    ) -> Result<(), Fault>
        requires page { page < pages self.old.shape }
        requires usable { IsUsableWith self.old.shape false (B.device board.old) (A.ledger audit.old) }
        requires room { HasRoom (A.ledger audit.old) (A.capacity audit.old) 1 }
        requires cached { IsPathCached self.old.shape self.old.cache page }
        requires named { IsPathNamedInMirror self.old.shape self.old page }
        requires closed { overflows ≡ true → register_of (B.device board.old).regs.progress.items page ≡ None }
        requires not_full { overflows ≡ true → length (B.device board.old).regs.progress.items < 4 }
        requires major { overflows ≡ true → (cached_block self.old.shape self.old page).major < 2 ^ 64 - 1 }
        ensures begun { BeginsFor B.Board S.Suite A.Audit self.old board.old suite.old audit.old
            self.new board.new suite.new audit.new overflows page result }
        ensures rolled { OnOk result (overflows ≡ true → cached_block self.old.shape self.new page ≡ next_block (cached_block self.old.shape self.old page)) }
        ensures plan { FollowsBeginFor B.Board S.Suite A.Audit self.old board.old suite.old audit.old
            self.new board.new suite.new audit.new overflows page result }
        ensures capacity { A.capacity audit.new ≡ A.capacity audit.old }
        ensures keys { S.keys suite.new ≡ S.keys suite.old }
    {
        if !overflows {
            return Ok(());
        }
        self.begin_page(board, suite, audit, page)
    }
}

// The place of the register whose page is finished before `page` begins: its own if it is open,
// else the oldest if four are.
fn to_finish(registers: &ArrayVec<Progress, 4>, page: u32) -> Option<usize>
    ensures found { result ≡ register_to_finish registers.now.items page }
    ensures inside { IfSome result (λ n. n < length registers.now.items) }
    ensures few { length registers.now.items ≤ 4 }
    ensures closed { IsNone result → register_of registers.now.items page ≡ None }
    ensures not_full { IsNone result → length registers.now.items < 4 }
{
    let is_full = registers.is_full();
    match find_open(registers, page) {
        Some(n) => Some(usize::from(n)),
        None if is_full => Some(0),
        None => None,
    }
}

// A line with the write's bytes in their place.
fn line_with(line: &Line, write: &Posted) -> Line
    requires { IsPosted write.now }
    ensures { result ≡ put_write line.now write.now }
{
    let mut line = *line;
    let from = usize::from(write.from);
    let to = from + usize::from(write.len);
    line.0[from..to].copy_from_slice(&write.line.0[from..to]);
    line
}
