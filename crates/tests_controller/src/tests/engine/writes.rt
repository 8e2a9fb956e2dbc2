//! Writes: their counters, steps and counts, on a warm and on a cold cache, with an overflow, and cut at
//! each step.
ghost use Rattle.pmem_base.specs.Ranges.{IsPosted};

use super::{Bench, Chip, either, formatted};
use crate::tests::{equal, part};
use board::Board;
use bonsai_tree::node_of;
use line_seal::tag_at;
use pmem_base::{Ctr, Line, Mark, Posted, Tag};
use pmem_engine::Fault;
use seal_ledger::Audit;
use split_counters::unpack;
use std::alloc::Global;
use std::process::Abort;
use std::test::Fail;
use stop_loss::{Found, find, window};

impl Bench {
    /// Makes the true node at `x` over the lines below it.
    fn put_node(&mut self, rt: &impl Abort, x: u32) {
        assert!(rt; x < 5);
        let digests = [
            self.digest(rt, 4 * x + 1),
            self.digest(rt, 4 * x + 2),
            self.digest(rt, 4 * x + 3),
            self.digest(rt, 4 * x + 4),
        ];
        self.put_meta(rt, x, &node_of(&digests));
    }

    /// Seals all data lines, and makes the tree of 16 pages.
    fn format_deep(&mut self, rt: &impl Abort) -> Result<Tag, Fail> {
        self.seal_all(rt)?;
        'nodes: for back in 0..5_u32 {
            self.put_node(rt, 4 - back);
        }
        Ok(self.digest(rt, 0))
    }
}

// An engine over a formatted device of 16 pages.
fn formatted_deep(rt: &impl Abort, alloc: Global) -> Result<Chip, Fail> {
    let mut bench = Bench::new(alloc, 2, 1)?;
    let root = bench.format_deep(rt)?;
    bench.chip(rt, alloc, root, false)
}

impl Chip {
    fn write(&mut self, rt: &impl Abort, at: u32, line: &Line) -> Result<Ctr, Fault> {
        assert!(rt; at < self.engine.geo().lines() && self.ledger.reserve(66).is_ok());
        self.engine.write(&mut self.board, &mut self.suite, &mut self.ledger, at, line)
    }

    /// A write has this answer.
    fn writes(&mut self, rt: &impl Abort, at: u32, line: &Line, wanted: Result<Ctr, Fault>) {
        equal(rt, self.write(rt, at, line), wanted);
    }

    fn write_part(&mut self, rt: &impl Abort, write: &Posted) -> Result<Ctr, Fault>
        requires { IsPosted write.now }
    {
        assert!(rt; write.at < self.engine.geo().lines() && self.ledger.reserve(66).is_ok());
        self.engine
            .write_part(&mut self.board, &mut self.suite, &mut self.ledger, write)
    }

    /// Writes zeros to a line `times` times.
    pub(super) fn wear(&mut self, rt: &impl Abort, at: u32, times: u8) {
        let zero = Line::default();
        'writes: for _write in 0..times {
            assert!(rt; self.write(rt, at, &zero).is_ok());
        }
    }

    /// How many marks were made.
    fn marks(&self) -> usize {
        self.ledger.marks().len()
    }

    /// Checks that `marks` marks were made since there were `before` of them.
    fn has_made(&self, rt: &impl Abort, before: usize, marks: usize) {
        equal(rt, self.marks().wrapping_sub(before), marks);
    }

    /// The last mark begins page 0.
    fn has_begun(&self) -> bool {
        matches!(self.ledger.marks().last(), Some(Mark::Begin { page: 0 }))
    }

    /// The oldest open page.
    fn oldest(&self) -> Option<u32> {
        match self.board.regs().progress.first() {
            Some(oldest) => Some(oldest.page),
            None => None,
        }
    }

    /// The newest open page.
    fn newest(&self) -> Option<u32> {
        match self.board.regs().progress.last() {
            Some(newest) => Some(newest.page),
            None => None,
        }
    }
}

/// A line of 64 equal bytes.
const FULL: Line = Line([0x99; 64]);

fn ctr(major: u64, minor: u8) -> Result<Ctr, Fault> {
    Ok(Ctr { major, minor })
}

// The first drain of a line names its path and fetches it, each fourth writes its counter block, and the
// 128th begins its page. Then the page's lines take their turns.
#[test]
fn drains(rt: HostRuntime) -> Result<(), Fail> {
    let mut chip = formatted(&rt, rt.alloc(), false, 1)?;
    let zero = Line::default();
    let start = chip.counts();
    chip.writes(&rt, 0, &zero, ctr(0, 1));
    chip.took(&rt, start, (6, 3, 1, 4));
    for minor in 2..128_u8 {
        let start = chip.counts();
        chip.writes(&rt, 0, &zero, ctr(0, minor));
        chip.took(&rt, start, (either(minor % 4 == 0, 5, 4), 1, 1, 2));
    }
    let start = chip.counts();
    chip.writes(&rt, 0, &zero, ctr(1, 1));
    chip.took(&rt, start, (7, 1, 1, 4));
    let start = chip.counts();
    chip.turns(&rt, Ok(Some((1, 62))));
    chip.took(&rt, start, (4, 2, 2, 0));
    chip.writes(&rt, 2, &FULL, ctr(1, 1));
    chip.turns(&rt, Ok(Some((3, 60))));
    chip.reads(&rt, 2, Ok(FULL));
    Ok(())
}

// In banks of one block a write evicts the two dirty blocks of another page's path: each is written to
// its place first.
#[test]
fn evictions(rt: HostRuntime) -> Result<(), Fail> {
    let mut chip = formatted_deep(&rt, rt.alloc())?;
    let start = chip.counts();
    chip.writes(&rt, 0, &Line::default(), ctr(0, 1));
    chip.took(&rt, start, (7, 4, 1, 6));
    let start = chip.counts();
    chip.writes(&rt, 960, &Line::default(), ctr(0, 1));
    chip.took(&rt, start, (8, 3, 1, 5));
    let start = chip.counts();
    chip.writes(&rt, 0, &FULL, ctr(0, 2));
    chip.took(&rt, start, (8, 3, 1, 5));
    chip.reads(&rt, 0, Ok(FULL));
    chip.reads(&rt, 960, Ok(Line::default()));
    Ok(())
}

// A part reads and unseals its line first, and leaves the line's other bytes.
#[test]
fn parts(rt: HostRuntime) -> Result<(), Fail> {
    let mut chip = formatted(&rt, rt.alloc(), false, 1)?;
    chip.writes(&rt, 0, &FULL, ctr(0, 1));
    let start = chip.counts();
    equal(&rt, chip.write_part(&rt, &part(0, 2, 2, 0xaa)), ctr(0, 2));
    chip.took(&rt, start, (4, 3, 2, 2));
    let mut line = FULL;
    line.0[2] = 0xaa;
    line.0[3] = 0xaa;
    chip.reads(&rt, 0, Ok(line));
    // The line's tag is checked before, and the page isn't touched by what is refused.
    chip.flip(&rt, 0, 9);
    let start = chip.counts();
    equal(
        &rt,
        chip.write_part(&rt, &part(0, 2, 2, 0xaa)),
        Err(Fault::Tag { at: 0 }),
    );
    chip.took(&rt, start, (0, 2, 1, 0));
    chip.writes(&rt, 0, &FULL, ctr(0, 3));
    chip.reads(&rt, 0, Ok(FULL));
    Ok(())
}

// This page begins, the fifth if it is page 4.
fn begins(rt: &impl Abort, chip: &mut Chip, page: u8) {
    let at = 64 * u32::from(page);
    chip.wear(rt, at, 127);
    let (start, marks) = (chip.counts(), chip.marks());
    chip.writes(rt, at, &Line::default(), ctr(1, 1));
    let is_fifth = page == 4;
    chip.took(
        rt,
        start,
        either(is_fifth, (259, 127, 127, 6), (7, 1, 1, 6)),
    );
    chip.has_made(rt, marks, either(is_fifth, 65, 2));
    equal(rt, chip.newest(), Some(u32::from(page)));
    equal(rt, chip.oldest(), Some(u32::from(is_fifth)));
}

// A fifth page begins: the oldest of the four open ones is finished first, its lines upwards.
#[test]
fn five_pages(rt: HostRuntime) -> Result<(), Fail> {
    let mut chip = formatted_deep(&rt, rt.alloc())?;
    for page in 0..5_u8 {
        begins(&rt, &mut chip, page);
    }
    Ok(())
}

// A page that is used up again while it is open is finished itself.
#[test]
fn own_page(rt: HostRuntime) -> Result<(), Fail> {
    let mut chip = formatted(&rt, rt.alloc(), false, 1)?;
    chip.wear(&rt, 0, 127);
    chip.wear(&rt, 0, 127);
    let start = chip.counts();
    chip.writes(&rt, 0, &FULL, ctr(2, 1));
    chip.took(&rt, start, (259, 127, 127, 4));
    equal(&rt, chip.board.regs().progress.len(), 1);
    chip.reads(&rt, 0, Ok(FULL));
    chip.reads(&rt, 63, Ok(Line::default()));
    Ok(())
}

/// The number of marks made by a write that begins its page and is cut after `fuse` steps.
fn marks_made(fuse: u8) -> usize {
    match fuse {
        0 => 0,
        1..4 => 1,
        _ => 2,
    }
}

/// The lines that it has armed.
fn lines_armed(fuse: u8) -> usize {
    match fuse {
        1 | 2 => 1,
        4..7 => 2,
        _ => 0,
    }
}

// A write that begins its page, and is cut after that many steps of seven.
fn cut_overflow(rt: &impl Abort, alloc: Global, fuse: u8) -> Result<(), Fail> {
    let mut chip = formatted(rt, alloc, false, 1)?;
    chip.wear(rt, 0, 127);
    let (start, marks) = (chip.counts(), chip.marks());
    chip.arm(fuse);
    let is_cut = fuse < 7;
    chip.writes(rt, 0, &FULL, either(is_cut, Err(Fault::Cut), ctr(1, 1)));
    equal(rt, chip.since(start).0, u64::from(fuse));
    chip.has_made(rt, marks, marks_made(fuse));
    chip.has_armed(rt, lines_armed(fuse));
    equal(
        rt,
        chip.done(),
        either(fuse == 0, None, Some(u64::from(fuse > 3))),
    );
    equal(rt, chip.has_begun(), matches!(fuse, 1..4));
    chip.power();
    chip.writes(rt, 0, &FULL, Err(either(is_cut, Fault::Down, Fault::Cut)));
    Ok(())
}

// Each cut of a write that begins its page: nothing before the first latch, then the begin with its
// group armed for two steps, then the begin alone, and then the seal with its group.
#[test]
fn cut_overflows(rt: HostRuntime) -> Result<(), Fail> {
    for fuse in 0..8_u8 {
        cut_overflow(&rt, rt.alloc(), fuse)?;
    }
    Ok(())
}

impl Chip {
    /// What the trials of line 0 find: from the minor in page 0's counter block on the device, to the
    /// end of its window under the number in the registers.
    fn trials(&mut self, rt: &impl Abort) -> Found {
        let block = unpack(&self.peek(rt, 321));
        let loss = self.board.regs().loss;
        assert!(rt; matches!(loss, 1 | 2 | 4 | 8 | 16));
        let candidates = window(block.minors[0], loss);
        let cipher = self.peek(rt, 0);
        let tag = tag_at(&self.peek(rt, 256), 0);
        find(&mut self.suite, 0, block.major, candidates, &cipher, &tag)
    }
}

// After three writes of line 0 an older counter block is put back, if it is to be once the cache is
// flushed. The trials then find the true minor, and under the new number 2, which takes that many
// steps, this.
fn old_block(
    rt: &impl Abort,
    alloc: Global,
    flushed: bool,
    steps: u32,
    found: Found,
) -> Result<(), Fail> {
    let mut chip = formatted(rt, alloc, false, 1)?;
    let old = chip.peek(rt, 321);
    chip.wear(rt, 0, 3);
    if flushed {
        chip.flushes(rt, Ok(Some(0)));
        chip.flushes(rt, Ok(Some(1)));
        equal(rt, chip.peek(rt, 321) != old, true);
    }
    chip.poke(rt, 321, &old);
    equal(rt, chip.trials(rt), Found::One(3));
    chip.sets_loss(rt, 2, Ok(steps));
    equal(rt, chip.trials(rt), found);
    chip.reads(rt, 0, Ok(Line::default()));
    Ok(())
}

// After three writes of line 0 an older counter block, put back by an attacker, still has the true
// minor in its window of 4. If the page's block is cached dirty, the new number 2 writes it first.
// If it isn't, the old block stays, and its window of 2 ends before the true minor.
#[test]
fn old_blocks_leave_their_windows(rt: HostRuntime) -> Result<(), Fail> {
    old_block(&rt, rt.alloc(), false, 2, Found::One(3))?;
    old_block(&rt, rt.alloc(), true, 1, Found::Nothing)
}
