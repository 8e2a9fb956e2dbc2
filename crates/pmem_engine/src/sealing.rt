//! Sealing with a page's new path: a line under its next counter, and a page's begin. What belongs to
//! the group is armed by one latch together with the registers.
ghost use Rattle.std.specs.Prelude.{◌≡◌, ◌≢◌, ◌<◌, ◌-◌, ◌^◌, None, false, ◌%◌, ◌+◌, ◌≤◌, ◌++◌, ◌∷◌, [], true, length, All, IsTrue, OnOk};
ghost use Rattle.pmem_base.specs.Shape.{is_loss};
ghost use Rattle.pmem_base.specs.Lines.{IsCtr, IsLine};
ghost use Rattle.pmem_base.specs.Layout.{page_of, index_in_page, data_lines, device_lines, meta_lines, pages};
ghost use Rattle.pmem_base.specs.Registers.{IsGroup, IsValidRegs};
ghost use Rattle.seal_ledger.specs.Notes.{HasRoom};
ghost use Rattle.meta_path.specs.Blocks.{IsPathCached};
ghost use Rattle.meta_path.specs.Storing.{IsPathOf, HasMetaLines};
ghost use Rattle.page_reencrypt.specs.Registers.{registers_with_done, register_of};
ghost use Rattle.split_counters.specs.Blocks.{packed, minor_of, next_block};
ghost use Rattle.pmem_engine.specs.SealPlans.{with_path, with_true_path};
ghost use Rattle.plain_model.specs.Bounds.{begun_lines};
ghost use Rattle.pmem_engine.specs.CallFacts.{IsUsableWith, IsPathNamedInMirror, grouped_lines};
ghost use Rattle.pmem_engine.specs.Inner.{cached_block};
ghost use Rattle.pmem_engine.specs.Sealing.{next_counter_of, raised_block, HasStoredPath, path_entries, seal_group, begin_group};
ghost use Rattle.pmem_engine.specs.Promised.{SealsNext, FollowsSeal, BeginsPage, FollowsBegin, EndsSeal, FollowsSealGroup, EndsBegin, FollowsBeginGroup};

use crate::engine::OnChip;
use crate::fault::Fault;
use crate::resealing::{NextSeal, next_seal};
use board::Board;
use commit_regs::{arm, finish_armed};
use meta_path::{Path, next_path, store_path};
use page_reencrypt::begin;
use pmem_base::{Ctr, Cut, Line, Progress, Regs};
use seal_ledger::Audit;
use split_counters::{pack, raise_at};
use stop_loss::due;
use suite::Suite;

impl OnChip {
    // Seals a plain line under its next counter, which isn't used up. The page's path is cached and
    // named.
    pub(crate) fn seal_next<B: Board, S: Suite, A: Audit>(
        &mut self,
        board: &mut B,
        suite: &mut S,
        audit: &mut A,
        at: u32,
        plain: &Line,
    ) -> Result<Ctr, Cut>
        requires line { at < data_lines self.old.shape }
        requires usable { IsUsableWith self.old.shape false (B.device board.old) (A.ledger audit.old) }
        requires room { HasRoom (A.ledger audit.old) (A.capacity audit.old) 1 }
        requires cached { IsPathCached self.old.shape self.old.cache (page_of at) }
        requires named { IsPathNamedInMirror self.old.shape self.old (page_of at) }
        requires minor { minor_of (cached_block self.old.shape self.old (page_of at)) (index_in_page at) < 127 }
        ensures sealed { SealsNext B.Board S.Suite A.Audit self.old board.old suite.old audit.old
            self.new board.new suite.new audit.new at plain.now result }
        ensures plan { FollowsSeal B.Board S.Suite A.Audit self.old board.old suite.old audit.old
            self.new board.new suite.new audit.new at plain.now result }
        ensures capacity { A.capacity audit.new ≡ A.capacity audit.old }
        ensures keys { S.keys suite.new ≡ S.keys suite.old }
    {
        plain.is_whole();
        let (ctr, block) = self.next_counter(at);
        let path = next_path(&self.geo, &self.cache, suite, at / 64, &block);
        let tag_line = board.read_line(self.geo.tag_line(at))?;
        tag_line.is_whole();
        let next = next_seal(suite, at, ctr, plain, &tag_line);
        let grouped = self.grouped_lines(ctr.minor, board.regs().loss);
        self.commit_seal(board, audit, &next, &path, grouped)?;
        Ok(ctr)
    }

    // The next counter of line `at`, and its page's counter block with it.
    #[inline(always)]
    fn next_counter(&self, at: u32) -> (Ctr, Line)
        requires line { at < data_lines self.now.shape }
        requires minor { minor_of (cached_block self.now.shape self.now (page_of at)) (index_in_page at) < 127 }
        ensures ctr { result.0 ≡ next_counter_of self.now.shape self.now at }
        ensures range { IsCtr result.0 }
        ensures block { result.1 ≡ packed (raised_block self.now.shape self.now at) }
    {
        let mut block = self.counter_line(at / 64);
        let ctr = raise_at(&mut block, (at % 64) as u8);
        (ctr, block)
    }

    // Opens a page for re-encryption: its counter block rolls over, and a register keeps the old one.
    pub(crate) fn begin_page<B: Board, S: Suite, A: Audit>(
        &mut self,
        board: &mut B,
        suite: &mut S,
        audit: &mut A,
        page: u32,
    ) -> Result<(), Fault>
        requires page { page < pages self.old.shape }
        requires usable { IsUsableWith self.old.shape false (B.device board.old) (A.ledger audit.old) }
        requires room { HasRoom (A.ledger audit.old) (A.capacity audit.old) 1 }
        requires cached { IsPathCached self.old.shape self.old.cache page }
        requires named { IsPathNamedInMirror self.old.shape self.old page }
        requires closed { register_of (B.device board.old).regs.progress.items page ≡ None }
        requires not_full { length (B.device board.old).regs.progress.items < 4 }
        requires major { (cached_block self.old.shape self.old page).major < 2 ^ 64 - 1 }
        ensures begun { BeginsPage B.Board S.Suite A.Audit self.old board.old suite.old audit.old
            self.new board.new suite.new audit.new page result }
        ensures rolled { OnOk result (cached_block self.old.shape self.new page ≡ next_block (cached_block self.old.shape self.old page)) }
        ensures plan { FollowsBegin B.Board S.Suite A.Audit self.old board.old suite.old audit.old
            self.new board.new suite.new audit.new page result }
        ensures capacity { A.capacity audit.new ≡ A.capacity audit.old }
        ensures keys { S.keys suite.new ≡ S.keys suite.old }
    {
        let (block, register) = begin(&self.block(page), page)?;
        let block = pack(&block);
        let path = next_path(&self.geo, &self.cache, suite, page, &block);
        self.commit_begin(board, audit, page, &path, &register)?;
        Ok(())
    }

    // Commits a seal with its page's new path, whose lowest `grouped` lines are in the group.
    fn commit_seal<B: Board, A: Audit>(
        &mut self,
        board: &mut B,
        audit: &mut A,
        next: &NextSeal,
        path: &Path,
        grouped: u8,
    ) -> Result<(), Cut>
        requires line { next.now.at < data_lines self.old.shape }
        requires grouped { grouped ≤ self.old.shape.levels + 1 }
        requires path { IsPathOf self.old.shape (page_of next.now.at) path.now.lines.items }
        requires whole { All (λ entry. IsLine entry.1) path.now.lines.items }
        requires cached { IsPathCached self.old.shape self.old.cache (page_of next.now.at) }
        requires size { (B.device board.old).size ≡ device_lines self.old.shape }
        requires valid { IsValidRegs self.old.shape (B.device board.old).regs }
        requires no_group { (B.device board.old).regs.group.items ≡ [] }
        requires lines { (A.ledger audit.old).data_lines ≡ data_lines self.old.shape }
        requires truth { length (A.ledger audit.old).truth ≡ meta_lines self.old.shape }
        requires room { HasRoom (A.ledger audit.old) (A.capacity audit.old) 1 }
        ensures ended { EndsSeal B.Board A.Audit self.old board.old audit.old
            self.new board.new audit.new next.now grouped path.now result }
        ensures plan { FollowsSealGroup B.Board A.Audit self.old board.old audit.old
            self.new board.new audit.new next.now grouped path.now result }
        ensures capacity { A.capacity audit.new ≡ A.capacity audit.old }
    {
        let mut regs = Regs::empty();
        regs.set(board.regs());
        self.put_seal_and_path(&mut regs, next, path, grouped);
        arm(board, &regs)?;
        audit.note_seal(next.at, next.ctr, &next.cipher, &next.tag);
        self.store(audit, next.at / 64, path, grouped);
        finish_armed(board, &mut regs)
    }

    // Lets registers with no group arm a seal with its page's new path.
    fn put_seal_and_path(&self, regs: &mut Regs, next: &NextSeal, path: &Path, grouped: u8)
        requires line { next.now.at < data_lines self.now.shape }
        requires grouped { grouped ≤ self.now.shape.levels + 1 }
        requires path { IsPathOf self.now.shape (page_of next.now.at) path.now.lines.items }
        requires whole { All (λ entry. IsLine entry.1) path.now.lines.items }
        requires valid { IsValidRegs self.now.shape regs.old }
        requires no_group { regs.old.group.items ≡ [] }
        ensures root { regs.new.root ≡ path.now.root }
        ensures progress { regs.new.progress.items ≡ registers_with_done regs.old.progress.items next.now.at }
        ensures loss { regs.new.loss ≡ regs.old.loss }
        ensures group { regs.new.group.items ≡ seal_group self.now.shape next.now grouped path.now.lines.items }
        ensures is_group { IsGroup (device_lines self.now.shape) (seal_group self.now.shape next.now grouped path.now.lines.items) }
        ensures armed { regs.new.group.items ≢ [] }
    {
        self.put_seal(regs, next);
        regs.root = path.root;
        self.put_path(regs, path, grouped);
    }

    // Commits a page's begin.
    fn commit_begin<B: Board, A: Audit>(
        &mut self,
        board: &mut B,
        audit: &mut A,
        page: u32,
        path: &Path,
        register: &Progress,
    ) -> Result<(), Cut>
        requires page { page < pages self.old.shape }
        requires path { IsPathOf self.old.shape page path.now.lines.items }
        requires whole { All (λ entry. IsLine entry.1) path.now.lines.items }
        requires cached { IsPathCached self.old.shape self.old.cache page }
        requires size { (B.device board.old).size ≡ device_lines self.old.shape }
        requires not_full { length (B.device board.old).regs.progress.items < 4 }
        requires no_group { (B.device board.old).regs.group.items ≡ [] }
        requires truth { length (A.ledger audit.old).truth ≡ meta_lines self.old.shape }
        requires room { HasRoom (A.ledger audit.old) (A.capacity audit.old) 1 }
        ensures ended { EndsBegin B.Board A.Audit self.old board.old audit.old
            self.new board.new audit.new page register.now path.now result }
        ensures plan { FollowsBeginGroup B.Board A.Audit self.old board.old audit.old
            self.new board.new audit.new page register.now path.now result }
        ensures capacity { A.capacity audit.new ≡ A.capacity audit.old }
    {
        let mut regs = Regs::empty();
        regs.set(board.regs());
        self.put_begin(&mut regs, page, path, register);
        arm(board, &regs)?;
        audit.note_begin(page);
        self.store(audit, page, path, self.begun_lines());
        finish_armed(board, &mut regs)
    }

    // Lets registers with no group arm a page's begin: its register last, the lowest lines of its path in
    // the group.
    fn put_begin(&self, regs: &mut Regs, page: u32, path: &Path, register: &Progress)
        requires path { IsPathOf self.now.shape page path.now.lines.items }
        requires whole { All (λ entry. IsLine entry.1) path.now.lines.items }
        requires not_full { length regs.old.progress.items < 4 }
        requires no_group { regs.old.group.items ≡ [] }
        ensures root { regs.new.root ≡ path.now.root }
        ensures progress { regs.new.progress.items ≡ regs.old.progress.items ++ register.now ∷ [] }
        ensures loss { regs.new.loss ≡ regs.old.loss }
        ensures group { regs.new.group.items ≡ begin_group self.now.shape path.now.lines.items }
        ensures is_group { IsGroup (device_lines self.now.shape) (begin_group self.now.shape path.now.lines.items) }
        ensures armed { regs.new.group.items ≢ [] }
    {
        regs.root = path.root;
        regs.progress.push(*register);
        self.put_path(regs, path, self.begun_lines());
    }

    // Puts the lowest `grouped` lines of a path into a group, from the top down.
    fn put_path(&self, regs: &mut Regs, path: &Path, grouped: u8)
        requires grouped { grouped ≤ self.now.shape.levels + 1 }
        requires long { length path.now.lines.items ≡ self.now.shape.levels + 1 }
        requires on_tree { All (λ entry. entry.0 < meta_lines self.now.shape) path.now.lines.items }
        requires room { length regs.old.group.items ≤ 5 }
        ensures group { regs.new.group.items ≡ regs.old.group.items ++ path_entries self.now.shape grouped path.now.lines.items }
        ensures few { self.now.shape.levels ≤ 6 }
        ensures policy { self.now.shape.persist ≤ self.now.shape.levels + 1 }
        ensures root { regs.new.root ≡ regs.old.root }
        ensures progress { regs.new.progress ≡ regs.old.progress }
        ensures loss { regs.new.loss ≡ regs.old.loss }
    {
        let geo = &self.geo;
        let count = path.lines.len();
        let first = count - usize::from(grouped);
        'lines: for bank in first..count {
            let (x, line) = path.lines.as_slice()[bank];
            regs.group.push((geo.meta_line(x), line));
        }
    }

    // How many of the path's lowest lines are in the group of a seal with this minor.
    fn grouped_lines(&self, minor: u8, loss: u8) -> u8
        requires loss { IsTrue (is_loss loss) }
        ensures value { result ≡ grouped_lines self.now.shape loss minor }
        ensures bound { result ≤ self.now.shape.levels + 1 }
    {
        if due(minor, loss) {
            self.begun_lines()
        } else {
            self.geo.persist()
        }
    }

    // How many of the path's lowest lines are in the group of a begin.
    fn begun_lines(&self) -> u8
        ensures value { result ≡ begun_lines self.now.shape }
        ensures bound { result ≤ self.now.shape.levels + 1 }
    {
        match self.geo.persist() {
            0 => 1,
            persist => persist,
        }
    }

    // Stores a page's new path, and tells it to the audit.
    fn store<A: Audit>(&mut self, audit: &mut A, page: u32, path: &Path, grouped: u8)
        requires path { IsPathOf self.old.shape page path.now.lines.items }
        requires cached { IsPathCached self.old.shape self.old.cache page }
        requires truth { length (A.ledger audit.old).truth ≡ meta_lines self.old.shape }
        ensures stored { HasStoredPath self.old.shape page grouped path.now.lines.items self.old self.new }
        ensures exact { self.new ≡ with_path self.old.shape page grouped path.now.lines.items self.old }
        ensures told { HasMetaLines path.now.lines.items (A.ledger audit.old) (A.ledger audit.new) }
        ensures true_path { A.ledger audit.new ≡ with_true_path path.now.lines.items (A.ledger audit.old) }
        ensures capacity { A.capacity audit.new ≡ A.capacity audit.old }
    {
        self.cache.are_banks();
        store_path(&mut self.cache, audit, path, grouped);
        self.cache.are_banks();
    }
}
