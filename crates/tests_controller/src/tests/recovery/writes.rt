//! Writes of the engine that are cut at each step, recovered, and read.
ghost use Rattle.std.specs.Prelude.{◌≡◌};
ghost use Rattle.pmem_base.specs.Geo.{shape_of};
ghost use Rattle.pmem_base.specs.Ranges.{IsPosted};
ghost use Rattle.board.specs.Memory.{device_of};
ghost use Rattle.board.specs.MemBoard.{memory_of};
ghost use Rattle.pmem_engine.specs.Calls.{IsReady};

use super::{Bench, fresh_with, mend_and_read, mended};
use crate::tests::part;
use pmem_base::{Ctr, Line, Posted};
use pmem_engine::{Engine, Fault};
use pmem_recovery::RecFault;
use seal_ledger::Audit;
use std::alloc::Global;
use std::process::Abort;
use std::test::Fail;

/// The plain line that is written in the end.
const FULL: Line = Line([0x99; 64]);

/// Writes bytes into their line.
fn put(
    rt: &impl Abort,
    bench: &mut Bench,
    engine: &mut Engine,
    write: &Posted,
) -> Result<Ctr, Fault>
    requires posted { IsPosted write.now }
    requires shape { engine.old.shape ≡ shape_of bench.old.geo }
    requires ready { IsReady engine.old.shape engine.old (device_of (memory_of bench.old.board)) }
    ensures geo { shape_of bench.new.geo ≡ shape_of bench.old.geo }
    ensures shape { engine.new.shape ≡ engine.old.shape }
    ensures ready { IsReady engine.new.shape engine.new (device_of (memory_of bench.new.board)) }
{
    assert!(rt; write.at < bench.geo.lines() && bench.ledger.reserve(66).is_ok());
    engine.write_part(&mut bench.board, &mut bench.suite, &mut bench.ledger, write)
}

/// A write of a whole line.
fn whole(at: u32, line: &Line) -> Posted
    ensures { IsPosted result }
{
    line.is_whole();
    Posted {
        at,
        from: 0,
        len: 64,
        line: *line,
    }
}

/// Writes zeros to line 0 `times` times.
fn wear(rt: &impl Abort, bench: &mut Bench, engine: &mut Engine, times: u8)
    requires shape { engine.old.shape ≡ shape_of bench.old.geo }
    requires ready { IsReady engine.old.shape engine.old (device_of (memory_of bench.old.board)) }
    ensures geo { shape_of bench.new.geo ≡ shape_of bench.old.geo }
    ensures shape { engine.new.shape ≡ engine.old.shape }
    ensures ready { IsReady engine.new.shape engine.new (device_of (memory_of bench.new.board)) }
{
    let zeros = whole(0, &Line::default());
    'writes: for _write in 0..times {
        assert!(rt; put(rt, bench, engine, &zeros).is_ok());
    }
}

/// Writes zeros to line 0 `times` times, and then this with `fuse` steps before a cut. The answer is whether it was
/// done.
fn cut_write(
    rt: &impl Abort,
    alloc: Global,
    bench: &mut Bench,
    before: u8,
    write: &Posted,
    fuse: u64,
) -> Result<bool, Fail>
    requires posted { IsPosted write.now }
{
    let Ok(mut engine) = mended(alloc, bench) else {
        return Err(Fail::new("not recovered"));
    };
    wear(rt, bench, &mut engine, before);
    bench.board.arm(fuse);
    let answer = put(rt, bench, &mut engine, write);
    assert!(rt; answer.is_ok() || answer == Err(Fault::Cut), "at {fuse}");
    bench.board.off();
    bench.board.power();
    Ok(answer.is_ok())
}

/// A new memory, whose cache has one block a bank unless it is deep.
fn new_bench(alloc: Global, deep: bool) -> Result<Bench, Fail> {
    let banks = if deep { (4, 2) } else { (1, 1) };
    fresh_with(alloc, banks, false, 4)
}

/// Recovers the memory and reads its lines: zeros, and the one that was written if it is there.
fn read_with(
    rt: &impl Abort,
    alloc: Global,
    bench: &mut Bench,
    write: &Posted,
    is_there: bool,
) -> Result<(), RecFault> {
    let mut lines = [Line::default(); 1024];
    assert!(rt; (write.at as usize) < lines.len());
    if is_there {
        lines[write.at as usize] = write.line;
    }
    mend_and_read(rt, alloc, bench, &lines)
}

/// Cuts this write, after `before` writes of line 0, at each of its steps except the last. Up to a cut after `latch`
/// steps it is absent, and from then on whole, after recovery too.
fn cut_each(
    rt: &impl Abort,
    alloc: Global,
    deep: bool,
    before: u8,
    write: &Posted,
    steps: u8,
    latch: u8,
) -> Result<(), Fail>
    requires posted { IsPosted write.now }
{
    for fuse in 0..=steps {
        let mut bench = new_bench(alloc, deep)?;
        let done = cut_write(rt, alloc, &mut bench, before, write, u64::from(fuse))?;
        assert_eq!(rt; done, fuse == steps, "at {fuse}");
        let read = read_with(rt, alloc, &mut bench, write, fuse > latch);
        assert_eq!(rt; read, Ok(()), "at {fuse}");
    }
    Ok(())
}

// The first write of a line names its path by three steps; the fourth has its counter block in the
// group; the 128th begins its page first.
#[test]
fn writes_are_whole_or_absent(rt: HostRuntime) -> Result<(), Fail> {
    let full = whole(0, &FULL);
    cut_each(&rt, rt.alloc(), true, 0, &full, 7, 3)?;
    cut_each(&rt, rt.alloc(), true, 3, &full, 5, 0)?;
    cut_each(&rt, rt.alloc(), true, 127, &full, 7, 3)
}

// Two dirty blocks are written to their places first, then two are named.
#[test]
fn writes_that_evict_are_whole_or_absent(rt: HostRuntime) -> Result<(), Fail> {
    cut_each(&rt, rt.alloc(), false, 1, &whole(960, &FULL), 8, 4)
}

// A part leaves the other bytes of its line.
#[test]
fn parts_are_whole_or_absent(rt: HostRuntime) -> Result<(), Fail> {
    cut_each(&rt, rt.alloc(), true, 1, &part(0, 3, 2, 0x77), 4, 0)
}
