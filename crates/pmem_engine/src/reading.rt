//! Reading: a page's path, and a line under its counter.
ghost use Rattle.std.specs.Prelude.{◌≡◌, ◌<◌, ◌≤◌, All, IsSome, false, length};
ghost use Rattle.pmem_base.specs.Layout.{data_lines, meta_lines, device_lines, pages, page_of, index_in_page};
ghost use Rattle.pmem_base.specs.Lines.{IsCtr};
ghost use Rattle.bonsai_tree.specs.Positions.{counter_position};
ghost use Rattle.pmem_base.specs.Marks.{last_seal};
ghost use Rattle.split_counters.specs.Blocks.{IsBlock, block_counter};
ghost use Rattle.page_reencrypt.specs.Registers.{counter_of};
ghost use Rattle.meta_path.specs.Blocks.{line_in};
ghost use Rattle.pmem_engine.specs.CallFacts.{IsUsableWith};
ghost use Rattle.pmem_engine.specs.Inner.{cached_block, IsCounterOfTrusted};
ghost use Rattle.pmem_engine.specs.Promised.{IsLineRead, FollowsRead, FetchesPath, FollowsFetch, UnsealsLine, FollowsUnseal};

use crate::engine::OnChip;
use crate::fault::{Fault, LineFault};
use board::Board;
use line_seal::{tag_at, unseal};
use meta_path::{PathFault, fetch_path};
use page_reencrypt::{ctr_of, is_left};
use pmem_base::{Ctr, Line};
use seal_ledger::{Audit, Go};
use split_counters::{Block, counter_at, unpack};
use suite::Suite;

/// A data line that was unsealed: its plain line, and its tag line as read.
#[derive(Clone, Copy, Debug, PartialEq, Eq)]
pub(crate) struct Unsealed {
    pub(crate) plain: Line,
    pub(crate) tag_line: Line,
}

impl OnChip {
    // Reads line `at`: its page's path, and the line under its counter.
    pub(crate) fn read_line<B: Board, S: Suite, A: Audit>(
        &mut self,
        board: &mut B,
        suite: &mut S,
        audit: &mut A,
        at: u32,
    ) -> Result<Line, Fault>
        requires line { at < data_lines self.old.shape }
        requires usable { IsUsableWith self.old.shape false (B.device board.old) (A.ledger audit.old) }
        ensures read { IsLineRead B.Board S.Suite A.Audit self.old board.old suite.old audit.old
            self.new board.new suite.new audit.new at result }
        ensures plan { FollowsRead B.Board S.Suite A.Audit self.old board.old suite.old audit.old
            self.new board.new suite.new audit.new at result }
        ensures capacity { A.capacity audit.new ≡ A.capacity audit.old }
        ensures keys { S.keys suite.new ≡ S.keys suite.old }
    {
        self.fetch(board, suite, audit, at / 64)?;
        let ctr = self.counter(board, at);
        let unsealed = self.unseal_line(board, suite, audit, at, ctr)?;
        Ok(unsealed.plain)
    }

    // Every block of the page's path is cached afterwards.
    pub(crate) fn fetch<B: Board, S: Suite, A: Audit>(
        &mut self,
        board: &mut B,
        suite: &mut S,
        audit: &mut A,
        page: u32,
    ) -> Result<(), PathFault>
        requires page { page < pages self.old.shape }
        requires size { (B.device board.old).size ≡ device_lines self.old.shape }
        requires truth { length (A.ledger audit.old).truth ≡ meta_lines self.old.shape }
        ensures fetched { FetchesPath B.Board S.Suite A.Audit self.old board.old suite.old audit.old
            self.new board.new suite.new audit.new page result }
        ensures plan { FollowsFetch B.Board S.Suite A.Audit self.old board.old suite.old audit.old
            self.new board.new suite.new audit.new page result }
        ensures capacity { A.capacity audit.new ≡ A.capacity audit.old }
        ensures keys { S.keys suite.new ≡ S.keys suite.old }
    {
        self.cache.are_banks();
        fetch_path(&self.geo, &mut self.cache, board, suite, audit, page)?;
        Ok(())
    }

    // The position of a page's counter block.
    pub(crate) fn block_position(&self, page: u32) -> u32
        requires { page < pages self.now.shape }
        ensures position { result ≡ counter_position self.now.shape page }
        ensures inside { result < meta_lines self.now.shape }
    {
        self.geo.metas() - self.geo.pages() + page
    }

    // The counter block of a page, which is cached.
    pub(crate) fn block(&self, page: u32) -> Block
        requires page { page < pages self.now.shape }
        ensures cached { result ≡ cached_block self.now.shape self.now page }
        ensures range { All (λ m. m ≤ 127) result.minors }
        ensures valid { IsBlock result }
    {
        match self
            .cache
            .look(self.geo.levels(), self.block_position(page))
        {
            Some(line) => unpack(line),
            None => unpack(&Line::default()),
        }
    }

    // The line of the counter block of a page, which is cached.
    pub(crate) fn counter_line(&self, page: u32) -> Line
        requires page { page < pages self.now.shape }
        ensures cached { result ≡ line_in self.now.shape self.now.cache self.now.shape.levels (counter_position self.now.shape page) }
    {
        match self
            .cache
            .look(self.geo.levels(), self.block_position(page))
        {
            Some(line) => *line,
            None => Line::default(),
        }
    }

    // The counter that the counter block of line `at`, which is cached, has for it.
    #[inline(always)]
    pub(crate) fn block_counter(&self, at: u32) -> Ctr
        requires { at < data_lines self.now.shape }
        ensures cached { result ≡ block_counter (cached_block self.now.shape self.now (page_of at)) (index_in_page at) }
        ensures range { IsCtr result }
    {
        match self
            .cache
            .look(self.geo.levels(), self.block_position(at / 64))
        {
            Some(line) => counter_at(line, (at % 64) as u8),
            None => counter_at(&Line::default(), (at % 64) as u8),
        }
    }

    // The counter that line `at`, whose page's path is cached, is sealed under.
    pub(crate) fn counter<B: Board>(&self, board: &B, at: u32) -> Ctr
        requires line { at < data_lines self.now.shape }
        ensures cached { result ≡ counter_of (B.device board.now).regs.progress.items (cached_block self.now.shape self.now (page_of at)) at }
        ensures last { IsCounterOfTrusted self.now (B.device board.now).regs at result }
    {
        let progress = &board.regs().progress;
        if is_left(progress, at) {
            return ctr_of(progress, &self.block(at / 64), at);
        }
        self.block_counter(at)
    }

    // Reads and unseals line `at` under a counter, and tells the audit.
    pub(crate) fn unseal_line<B: Board, S: Suite, A: Audit>(
        &self,
        board: &mut B,
        suite: &mut S,
        audit: &mut A,
        at: u32,
        ctr: Ctr,
    ) -> Result<Unsealed, LineFault>
        requires line { at < data_lines self.now.shape }
        requires size { (B.device board.old).size ≡ device_lines self.now.shape }
        requires lines { (A.ledger audit.old).data_lines ≡ data_lines self.now.shape }
        requires sealed { IsSome (last_seal (A.ledger audit.old).marks at) }
        ensures unsealed { UnsealsLine B.Board S.Suite A.Audit self.now board.old suite.old audit.old
            self.now board.new suite.new audit.new at ctr result }
        ensures plan { FollowsUnseal B.Board S.Suite A.Audit self.now board.old suite.old audit.old
            self.now board.new suite.new audit.new at ctr result }
        ensures capacity { A.capacity audit.new ≡ A.capacity audit.old }
        ensures keys { S.keys suite.new ≡ S.keys suite.old }
    {
        let cipher = board.read_line(at)?;
        cipher.is_whole();
        let tag_line = board.read_line(self.geo.tag_line(at))?;
        tag_line.is_whole();
        let tag = tag_at(&tag_line, at);
        match unseal(suite, at, ctr, &cipher, &tag) {
            None => Err(LineFault::Tag { at }),
            Some(plain) => match audit.note_unseal(at, ctr, &cipher, &tag) {
                Go::Stop => Err(LineFault::Shown),
                Go::On => Ok(Unsealed { plain, tag_line }),
            },
        }
    }
}
