//! Writing back what is dirty, and the stop-loss number.
ghost use Rattle.std.specs.Prelude.{ℕ, ◌≡◌, ◌<◌, ◌≤◌, ◌+◌, ◌∷◌, Some, Err, IfOk, IfErr, IfSome, IsNone, OnOk, OnErr, IsTrue, option_map};
ghost use Rattle.pmem_base.specs.Shape.{is_loss};
ghost use Rattle.pmem_base.specs.Layout.{device_lines};
ghost use Rattle.board.specs.Steps.{WasCut};
ghost use Rattle.meta_cache.specs.Banks.{is_cached, is_cached_dirty};
ghost use Rattle.meta_cache.specs.State.{bank_of, oldest_dirty_of, oldest_dirty};
ghost use Rattle.meta_path.specs.Blocks.{line_in, bank_dirty_count};
ghost use Rattle.call_plan.specs.Plans.{ended};
ghost use Rattle.call_plan.specs.Following.{Follows};
ghost use Rattle.pmem_engine.specs.Plans.{oldest_block_plan, block_plan, counter_blocks_plan, make_way_plan, latch_loss_plan};
ghost use Rattle.pmem_engine.specs.DirtyOrder.{dirty_order};
ghost use Rattle.pmem_engine.specs.Flushed.{HasWrittenBack, HasWrittenOldest, HasWrittenBlocks, HasMadeWay, HasChangedLoss, with_loss, IsBankClean};

use crate::engine::OnChip;
use board::Board;
use meta_path::write_back_one;
use pmem_base::{Cut, Line, Regs};

impl OnChip {
    // Writes the oldest dirty block to its place.
    pub(crate) fn write_back<B: Board>(&mut self, board: &mut B) -> Result<Option<u32>, Cut>
        requires size { (B.device board.old).size ≡ device_lines self.old.shape }
        ensures written { HasWrittenOldest self.old self.new (B.device board.old) (B.device board.new) result }
        ensures oldest { IfOk result (λ found. found ≡ option_map (λ block. block.1) (oldest_dirty self.old.cache)) }
        ensures mirror { self.new.mirror ≡ self.old.mirror }
        ensures reads { (B.device board.new).reads ≡ (B.device board.old).reads }
        ensures plan { Follows (oldest_block_plan self.old) (B.device board.old) (B.device board.new) (ended result self.new) }
    {
        self.cache.are_banks();
        let x = write_back_one(&self.geo, &mut self.cache, board)?;
        Ok(x)
    }

    // Latches another stop-loss number, and answers the persist steps taken. A smaller number comes
    // after every dirty counter block is written to its place.
    pub(crate) fn latch_loss<B: Board>(&mut self, board: &mut B, n: u8) -> Result<u32, Cut>
        requires number { IsTrue (is_loss n) }
        requires size { (B.device board.old).size ≡ device_lines self.old.shape }
        ensures changed { HasChangedLoss n self.old self.new (B.device board.old) (B.device board.new) result }
        ensures reads { (B.device board.new).reads ≡ (B.device board.old).reads }
        ensures plan { Follows (latch_loss_plan n (B.device board.old).regs self.old) (B.device board.old) (B.device board.new)
            (ended result self.new) }
    {
        if n == board.regs().loss {
            return Ok(0);
        }
        let written = self.make_way(board, n)?;
        let next = regs_with_loss(board.regs(), n);
        board.latch(&next)?;
        Ok(written + 1)
    }

    // If the number gets smaller, writes every dirty counter block to its place, and answers how
    // many there were.
    fn make_way<B: Board>(&mut self, board: &mut B, n: u8) -> Result<u32, Cut>
        requires size { (B.device board.old).size ≡ device_lines self.old.shape }
        ensures ok { IfOk result (λ count. HasMadeWay n count self.old self.new (B.device board.old) (B.device board.new)) }
        ensures few { IfOk result (λ count. count ≤ 512) }
        ensures cut { IfErr result (λ cut. HasChangedLoss n self.old self.new (B.device board.old) (B.device board.new) (Err cut)) }
        ensures plan { Follows (make_way_plan n (B.device board.old).regs self.old) (B.device board.old) (B.device board.new)
            (ended result self.new) }
    {
        if board.regs().loss <= n {
            return Ok(0);
        }
        self.write_back_blocks(board)
    }

    // Writes every dirty counter block to its place, and answers how many there were.
    fn write_back_blocks<B: Board>(&mut self, board: &mut B) -> Result<u32, Cut>
        requires size { (B.device board.old).size ≡ device_lines self.old.shape }
        ensures ok { IfOk result (λ count. HasWrittenBlocks count self.old self.new (B.device board.old) (B.device board.new)) }
        ensures clean { OnOk result (IsBankClean self.new self.new.shape.levels) }
        ensures all { IfOk result (λ count. count ≡ bank_dirty_count self.old.shape self.old.cache self.old.shape.levels) }
        ensures few { IfOk result (λ count. count ≤ 512) }
        ensures cut { (n : ℕ) → n < (B.device board.old).regs.loss
            → IfErr result (λ cut. HasChangedLoss n self.old self.new (B.device board.old) (B.device board.new) (Err cut)) }
        ensures plan { Follows (counter_blocks_plan self.old) (B.device board.old) (B.device board.new) (ended result self.new) }
    {
        self.cache.are_banks();
        let mut written: u32 = 0;
        'blocks: while let Some(x) = self.dirty_block() {
            self.write_back_block(board, x)?;
            written += 1;
        }
        Ok(written)
    }

    // The oldest dirty counter block.
    fn dirty_block(&self) -> Option<u32>
        ensures oldest { result ≡ oldest_dirty_of (bank_of self.now.cache self.now.shape.levels) }
        ensures dirty { IfSome result (λ x. IsTrue (is_cached_dirty self.now.shape self.now.cache self.now.shape.levels x)) }
        ensures clean { IsNone result → IsBankClean self.now self.now.shape.levels }
        ensures none { IsNone result → bank_dirty_count self.now.shape self.now.cache self.now.shape.levels ≡ 0 }
    {
        self.cache.are_banks();
        self.cache.oldest_dirty_of(self.geo.levels())
    }

    // Writes the oldest dirty counter block to its place.
    fn write_back_block<B: Board>(&mut self, board: &mut B, x: u32) -> Result<(), Cut>
        requires size { (B.device board.old).size ≡ device_lines self.old.shape }
        requires dirty { IsTrue (is_cached_dirty self.old.shape self.old.cache self.old.shape.levels x) }
        requires oldest { oldest_dirty_of (bank_of self.old.cache self.old.shape.levels) ≡ Some x }
        ensures ok { OnOk result (HasWrittenBack self.old.shape.levels x self.old self.new (B.device board.old) (B.device board.new)) }
        ensures cut { OnErr result (WasCut (B.device board.old) (B.device board.new)) }
        ensures same { OnErr result (self.new ≡ self.old) }
        ensures fewer { OnOk result (bank_dirty_count self.old.shape self.new.cache self.old.shape.levels + 1
            ≡ bank_dirty_count self.old.shape self.old.cache self.old.shape.levels) }
        ensures order { OnOk result (dirty_order (bank_of self.old.cache self.old.shape.levels)
            ≡ x ∷ dirty_order (bank_of self.new.cache self.old.shape.levels)) }
        ensures plan { Follows (block_plan self.old.shape.levels x self.old) (B.device board.old) (B.device board.new)
            (ended result self.new) }
    {
        self.cache.are_banks();
        board.write_line(self.geo.meta_line(x), self.block_line(x))?;
        self.cache.set_clean(self.geo.levels(), x);
        self.cache.are_banks();
        Ok(())
    }

    // The line of a counter block, which is cached.
    fn block_line(&self, x: u32) -> &Line
        requires cached { IsTrue (is_cached self.now.shape self.now.cache self.now.shape.levels x) }
        ensures { result.now ≡ line_in self.now.shape self.now.cache self.now.shape.levels x }
    {
        match self.cache.look(self.geo.levels(), x) {
            Some(line) => line,
            None => unreachable!(),
        }
    }
}

// The registers with another stop-loss number, and no group.
fn regs_with_loss(regs: &Regs, n: u8) -> Regs
    ensures { result ≡ with_loss regs.now n }
{
    let mut next = regs.emptied();
    next.loss = n;
    next
}
