//! Reads, turns, flushes and stop-loss numbers over a device in memory, for four pages under the weak
//! suite: whole, tampered with, and cut at each step.
ghost use Rattle.std.specs.Prelude.{◌≡◌, ◌<◌, ◌∷◌, ℕ, [], length, IsSome, if◌then◌else◌};
ghost use Rattle.pmem_base.specs.Geo.{shape_of};
ghost use Rattle.pmem_base.specs.Layout.{data_lines, device_lines, meta_lines};
ghost use Rattle.pmem_base.specs.Marks.{last_seal};
ghost use Rattle.pmem_base.specs.Registers.{empty_progress};
ghost use Rattle.board.specs.MemBoard.{memory_of};
ghost use Rattle.board.specs.Memory.{device_of};
ghost use Rattle.seal_ledger.specs.View.{ledger_of};
ghost use Rattle.pmem_engine.specs.Calls.{IsUsable};

use crate::tests::equal;
use board::{Board, MemBoard};
use bonsai_tree::node_of;
use line_seal::{put_tag, seal};
use meta_cache::Cache;
use page_reencrypt::begin;
use pmem_base::{Ctr, Exhibit, Geo, Line, Progress, Regs, Tag};
use pmem_engine::{Engine, Fault};
use seal_ledger::{Audit, Ledger};
use shadow_tables::Mirror;
use split_counters::{pack, unpack};
use std::alloc::Global;
use std::process::Abort;
use std::test::Fail;
use suite::{Counted, Suite, WeakSuite};

mod writes;

/// A device that is being formatted: `sealed` of its data lines are sealed.
#[derive(Drop)]
struct Bench {
    geo: Geo,
    board: MemBoard,
    suite: WeakSuite,
    ledger: Ledger,
    sealed: u32,
    ghost its_size: { length (memory_of board).lines ≡ device_lines (shape_of geo) },
    ghost its_truth: { length (ledger_of ledger).truth ≡ meta_lines (shape_of geo) },
    ghost its_lines: { (ledger_of ledger).data_lines ≡ data_lines (shape_of geo) },
    ghost its_seals: { (a : ℕ) → a < sealed → IsSome (last_seal (ledger_of ledger).marks a) },
}

/// A controller over a device.
#[derive(Drop)]
struct Chip {
    board: MemBoard,
    suite: WeakSuite,
    ledger: Ledger,
    engine: Engine,
    ghost usable: { IsUsable engine.shape engine (device_of (memory_of board)) (ledger_of ledger) },
}

impl Bench {
    /// Nothing is sealed yet, with `levels` levels and one set of `ways` ways in each bank.
    fn new(alloc: Global, levels: u8, ways: u8) -> Result<Bench, Fail> {
        let geo = Geo::new(levels, 1, ways, 4, 0)?;
        Ok(Bench {
            geo,
            board: MemBoard::new(alloc, geo.size())?,
            suite: WeakSuite::new(&[0; 16], &[0x10], false),
            ledger: Ledger::new(alloc, &geo)?,
            sealed: 0,
        })
    }

    /// Seals the next data line as zeros under major 0 and minor 0.
    fn seal_next(&mut self, rt: &impl Abort) -> Result<(), Fail> {
        let at = self.sealed;
        assert!(rt; at < self.geo.lines());
        let ctr = Ctr { major: 0, minor: 0 };
        let (cipher, tag) = seal(&mut self.suite, at, ctr, &Line::default());
        self.ledger.reserve(1)?;
        self.ledger.note_seal(at, ctr, &cipher, &tag);
        self.sealed = at + 1;
        self.store(rt, at, &cipher);
        let place = self.geo.tag_line(at);
        let mut line = *self.board.peek(place);
        put_tag(&mut line, at, &tag);
        self.store(rt, place, &line);
        Ok(())
    }

    /// Writes a device line past the controller.
    fn store(&mut self, rt: &impl Abort, at: u32, line: &Line)
        ensures geo { self.new.geo ≡ self.old.geo }
        ensures sealed { self.new.sealed ≡ self.old.sealed }
    {
        assert!(rt; at < self.geo.size());
        self.board.poke(at, line);
    }

    /// Makes the true line at `x` this one, on the device and in the ledger.
    fn put_meta(&mut self, rt: &impl Abort, x: u32, line: &Line) {
        assert!(rt; x < self.geo.metas());
        self.ledger.note_meta(x, line);
        let place = self.geo.meta_line(x);
        self.store(rt, place, line);
    }

    /// The digest of the line at `x` on the device.
    fn digest(&mut self, rt: &impl Abort, x: u32) -> Tag {
        assert!(rt; x < self.geo.metas());
        let line = *self.board.peek(self.geo.meta_line(x));
        self.suite.digest(x, &line)
    }

    /// Registers with this root, and page 0 under re-encryption if `opened`.
    fn regs(&self, root: Tag, opened: bool) -> Regs
        ensures loss { result.loss ≡ (shape_of self.now.geo).loss }
        ensures no_group { result.group.items ≡ [] }
        ensures pages { result.progress.items ≡ (if opened then empty_progress ∷ [] else []) }
    {
        let mut regs = Regs::empty();
        regs.root = root;
        regs.loss = self.geo.loss();
        if !opened {
            return regs;
        }
        regs.progress.push(Progress::default());
        regs
    }

    /// Latches registers.
    fn latch(&mut self, rt: &impl Abort, regs: &Regs)
        ensures geo { self.new.geo ≡ self.old.geo }
        ensures regs { (memory_of self.new.board).regs ≡ regs.now }
    {
        assert!(rt; self.board.latch(regs).is_ok());
    }

    /// All data lines are sealed.
    fn is_sealed(&self, rt: &impl Abort)
        ensures { self.now.sealed ≡ data_lines (shape_of self.now.geo) }
    {
        assert!(rt; self.sealed == self.geo.lines());
    }

    /// The counter block of a page that was begun from a block of zeros.
    fn begun_block() -> Result<Line, Fail> {
        let (block, _) = begin(&unpack(&Line::default()), 0)?;
        Ok(pack(&block))
    }

    /// Seals all data lines, and makes the tree.
    fn format(&mut self, rt: &impl Abort, opened: bool) -> Result<Tag, Fail> {
        self.seal_all(rt)?;
        if opened {
            let block = Bench::begun_block()?;
            self.put_meta(rt, 1, &block);
        }
        let digests = [
            self.digest(rt, 1),
            self.digest(rt, 2),
            self.digest(rt, 3),
            self.digest(rt, 4),
        ];
        self.put_meta(rt, 0, &node_of(&digests));
        Ok(self.digest(rt, 0))
    }

    fn seal_all(&mut self, rt: &impl Abort) -> Result<(), Fail> {
        'lines: for _line in 0..self.geo.lines() {
            self.seal_next(rt)?;
        }
        Ok(())
    }

    /// The device formatted, and an engine over it.
    fn formatted(mut self, rt: &impl Abort, alloc: Global, opened: bool) -> Result<Chip, Fail> {
        let root = self.format(rt, opened)?;
        self.chip(rt, alloc, root, opened)
    }

    /// An engine over the device, whose tree has this root.
    fn chip(
        mut self,
        rt: &impl Abort,
        alloc: Global,
        root: Tag,
        opened: bool,
    ) -> Result<Chip, Fail> {
        let regs = self.regs(root, opened);
        self.latch(rt, &regs);
        self.is_sealed(rt);
        let geo = self.geo;
        let cache = Cache::new(alloc, &geo)?;
        let mirror = Mirror::new(alloc, &geo)?;
        let engine = Engine::new(geo, cache, mirror);
        let Bench {
            board,
            suite,
            ledger,
            ..
        } = self;
        Ok(Chip {
            board,
            suite,
            ledger,
            engine,
        })
    }
}

fn formatted(rt: &impl Abort, alloc: Global, opened: bool, ways: u8) -> Result<Chip, Fail> {
    Bench::new(alloc, 1, ways)?.formatted(rt, alloc, opened)
}

/// Persist steps, reads, tags and digests.
type Counts = (u64, u64, u64, u64);

impl Chip {
    /// The counts so far.
    fn counts(&self) -> Counts {
        let (reads, writes, latches) = self.board.counts();
        let (_, tags, digests) = self.suite.counts();
        (writes.wrapping_add(latches), reads, tags, digests)
    }

    /// The counts since then.
    fn since(&self, start: Counts) -> Counts {
        let now = self.counts();
        (
            now.0.wrapping_sub(start.0),
            now.1.wrapping_sub(start.1),
            now.2.wrapping_sub(start.2),
            now.3.wrapping_sub(start.3),
        )
    }

    /// Turns a bit of a device line.
    fn flip(&mut self, rt: &impl Abort, at: u32, bit: u16) {
        assert!(rt; at < self.engine.geo().size() && bit < 512);
        self.board.flip(at, bit);
    }

    /// Writes a device line past the controller.
    fn poke(&mut self, rt: &impl Abort, at: u32, line: &Line) {
        assert!(rt; at < self.engine.geo().size());
        self.board.poke(at, line);
    }

    /// The line of the device at a place.
    fn peek(&self, rt: &impl Abort, at: u32) -> Line {
        assert!(rt; at < self.engine.geo().size());
        *self.board.peek(at)
    }

    /// Cuts power after `fuse` more steps.
    fn arm(&mut self, fuse: u8) {
        self.board.arm(u64::from(fuse));
    }

    fn power(&mut self) {
        self.board.power();
    }

    fn read(&mut self, rt: &impl Abort, at: u32) -> Result<Line, Fault> {
        assert!(rt; at < self.engine.geo().lines());
        self.engine
            .read(&mut self.board, &mut self.suite, &mut self.ledger, at)
    }

    fn turn(&mut self, rt: &impl Abort) -> Result<Option<(u32, u8)>, Fault> {
        assert!(rt; self.ledger.reserve(1).is_ok());
        self.engine
            .turn(&mut self.board, &mut self.suite, &mut self.ledger)
    }

    fn flush(&mut self) -> Result<Option<u32>, Fault> {
        self.engine.flush(&mut self.board)
    }

    fn set_loss(&mut self, rt: &impl Abort, n: u8) -> Result<u32, Fault> {
        assert!(rt; matches!(n, 1 | 2 | 4 | 8 | 16));
        self.engine.set_loss(&mut self.board, n)
    }

    /// A read has this answer.
    fn reads(&mut self, rt: &impl Abort, at: u32, wanted: Result<Line, Fault>) {
        equal(rt, self.read(rt, at), wanted);
    }

    /// A turn has this answer.
    fn turns(&mut self, rt: &impl Abort, wanted: Result<Option<(u32, u8)>, Fault>) {
        equal(rt, self.turn(rt), wanted);
    }

    /// A flush has this answer.
    fn flushes(&mut self, rt: &impl Abort, wanted: Result<Option<u32>, Fault>) {
        equal(rt, self.flush(), wanted);
    }

    /// A new stop-loss number has this answer.
    fn sets_loss(&mut self, rt: &impl Abort, n: u8, wanted: Result<u32, Fault>) {
        equal(rt, self.set_loss(rt, n), wanted);
    }

    /// So much was counted since then.
    fn took(&self, rt: &impl Abort, start: Counts, wanted: Counts) {
        equal(rt, self.since(start), wanted);
    }

    /// So many lines are armed.
    fn has_armed(&self, rt: &impl Abort, lines: usize) {
        equal(rt, self.board.regs().group.len(), lines);
    }

    /// The lines that are done of the oldest open page, if there is one.
    fn done(&self) -> Option<u64> {
        match self.board.regs().progress.first() {
            Some(oldest) => Some(oldest.done),
            None => None,
        }
    }
}

/// The first of two values if `is_so`, and otherwise the second.
fn either<T: Copy>(is_so: bool, first: T, second: T) -> T {
    if is_so { first } else { second }
}

// A path is fetched once. A cached block that is tampered with isn't noticed, one that isn't cached is
// refused, a line is refused by its tag, and an exhibit ends the engine.
#[test]
fn reads(rt: HostRuntime) -> Result<(), Fail> {
    let mut chip = formatted(&rt, rt.alloc(), false, 1)?;
    let cold = chip.counts();
    chip.reads(&rt, 5, Ok(Line::default()));
    chip.took(&rt, cold, (0, 4, 1, 2));
    let warm = chip.counts();
    chip.flip(&rt, 320, 0);
    chip.flip(&rt, 321, 0);
    chip.reads(&rt, 7, Ok(Line::default()));
    chip.took(&rt, warm, (0, 2, 1, 0));
    chip.flip(&rt, 322, 0);
    chip.reads(&rt, 64, Err(Fault::Meta { x: 2 }));
    chip.flip(&rt, 7, 0);
    chip.reads(&rt, 7, Err(Fault::Tag { at: 7 }));
    // The weak tag of two flipped bits is that of none.
    chip.flip(&rt, 7, 8);
    chip.reads(&rt, 7, Err(Fault::Shown));
    assert!(rt; matches!(chip.ledger.exhibit(), Some(Exhibit::Forged { at: 7, .. })));
    chip.reads(&rt, 5, Err(Fault::Down));
    chip.turns(&rt, Err(Fault::Down));
    chip.flushes(&rt, Err(Fault::Down));
    chip.sets_loss(&rt, 8, Err(Fault::Down));
    Ok(())
}

// Two flipped bits leave a counter block's weak digest as it was: the clash is kept, and ends the engine.
#[test]
fn clashes(rt: HostRuntime) -> Result<(), Fail> {
    let mut chip = formatted(&rt, rt.alloc(), false, 1)?;
    let second = chip.peek(&rt, 321);
    chip.flip(&rt, 321, 0);
    chip.flip(&rt, 321, 8);
    let first = chip.peek(&rt, 321);
    let start = chip.counts();
    chip.reads(&rt, 0, Err(Fault::Shown));
    chip.took(&rt, start, (0, 2, 0, 2));
    equal(
        &rt,
        chip.ledger.exhibit(),
        Some(&Exhibit::Clash {
            x: 1,
            first,
            second,
        }),
    );
    chip.reads(&rt, 64, Err(Fault::Down));
    Ok(())
}

// Each line of the open page takes a turn of four steps, lowest first, and then none is left.
#[test]
fn turns(rt: HostRuntime) -> Result<(), Fail> {
    let mut chip = formatted(&rt, rt.alloc(), true, 1)?;
    for at in 0..64_u8 {
        let start = chip.counts();
        chip.turns(&rt, Ok(Some((u32::from(at), 63 - at))));
        chip.took(&rt, start, (4, 2, 2, 0));
    }
    let start = chip.counts();
    chip.turns(&rt, Ok(None));
    chip.took(&rt, start, (0, 0, 0, 0));
    chip.reads(&rt, 63, Ok(Line::default()));
    Ok(())
}

// A turn that is cut after that many steps of four.
fn cut_turn(rt: &impl Abort, alloc: Global, fuse: u8) -> Result<(), Fail> {
    let mut chip = formatted(rt, alloc, true, 1)?;
    let (cipher, tag_line) = (chip.peek(rt, 0), chip.peek(rt, 256));
    let start = chip.counts();
    chip.arm(fuse);
    let is_cut = fuse < 4;
    chip.turns(rt, either(is_cut, Err(Fault::Cut), Ok(Some((0, 63)))));
    chip.took(rt, start, (u64::from(fuse), 2, 2, 0));
    equal(rt, chip.ledger.marks().len(), either(fuse == 0, 256, 257));
    chip.has_armed(rt, either(fuse == 0 || fuse == 4, 0, 2));
    equal(rt, chip.done(), Some(u64::from(fuse > 0)));
    equal(rt, chip.peek(rt, 0) != cipher, fuse >= 2);
    equal(rt, chip.peek(rt, 256) != tag_line, fuse >= 3);
    chip.power();
    chip.turns(rt, Err(either(is_cut, Fault::Down, Fault::Cut)));
    Ok(())
}

// A turn that is cut: nothing has changed before its latch, and then the group is armed, with its mark
// made and its line done, until all four steps are taken.
#[test]
fn cut_turns(rt: HostRuntime) -> Result<(), Fail> {
    for fuse in 0..5_u8 {
        cut_turn(&rt, rt.alloc(), fuse)?;
    }
    Ok(())
}

// Into a set of one way another block comes: the dirty one is written to its place, which puts right
// what was done to it there. A clean one takes no step, and a cut before the write leaves the engine down.
#[test]
fn write_backs(rt: HostRuntime) -> Result<(), Fail> {
    let mut chip = formatted(&rt, rt.alloc(), false, 1)?;
    let mut block = unpack(&chip.peek(&rt, 321));
    block.minors[0] = 1;
    chip.wear(&rt, 0, 1);
    chip.flip(&rt, 321, 3);
    let dirty = chip.counts();
    chip.reads(&rt, 64, Ok(Line::default()));
    chip.took(&rt, dirty, (1, 3, 1, 1));
    equal(&rt, unpack(&chip.peek(&rt, 321)), block);
    let clean = chip.counts();
    chip.reads(&rt, 0, Ok(Line::default()));
    chip.took(&rt, clean, (0, 3, 1, 1));
    chip.wear(&rt, 0, 1);
    let dirty = chip.counts();
    chip.flushes(&rt, Ok(Some(0)));
    chip.flushes(&rt, Ok(Some(1)));
    chip.flushes(&rt, Ok(None));
    chip.took(&rt, dirty, (2, 0, 0, 0));
    chip.wear(&rt, 0, 1);
    let dirty = chip.counts();
    chip.arm(0);
    chip.reads(&rt, 64, Err(Fault::Cut));
    chip.took(&rt, dirty, (0, 1, 0, 1));
    chip.power();
    chip.flushes(&rt, Err(Fault::Down));
    Ok(())
}

// A smaller number that is cut after that many steps of three.
fn cut_loss(rt: &impl Abort, alloc: Global, fuse: u8) -> Result<(), Fail> {
    let mut chip = formatted(rt, alloc, false, 2)?;
    let start = chip.counts();
    chip.sets_loss(rt, 4, Ok(0));
    chip.took(rt, start, (0, 0, 0, 0));
    chip.sets_loss(rt, 8, Ok(1));
    chip.reads(rt, 0, Ok(Line::default()));
    chip.reads(rt, 64, Ok(Line::default()));
    chip.wear(rt, 0, 1);
    chip.wear(rt, 64, 1);
    let blocks = (chip.peek(rt, 321), chip.peek(rt, 322));
    let start = chip.counts();
    chip.arm(fuse);
    let is_cut = fuse < 3;
    chip.sets_loss(rt, 2, either(is_cut, Err(Fault::Cut), Ok(3)));
    chip.took(rt, start, (u64::from(fuse), 0, 0, 0));
    equal(rt, chip.board.regs().loss, either(is_cut, 8, 2));
    equal(rt, chip.peek(rt, 321) != blocks.0, fuse > 0);
    equal(rt, chip.peek(rt, 322) != blocks.1, fuse > 1);
    chip.power();
    chip.arm(1);
    chip.flushes(rt, either(is_cut, Err(Fault::Down), Ok(Some(0))));
    chip.flushes(rt, either(is_cut, Err(Fault::Down), Ok(None)));
    Ok(())
}

// The present number takes no step and a greater one a latch. A smaller one comes after both dirty
// counter blocks, and a cut leaves the old number.
#[test]
fn losses(rt: HostRuntime) -> Result<(), Fail> {
    for fuse in 0..4_u8 {
        cut_loss(&rt, rt.alloc(), fuse)?;
    }
    Ok(())
}
