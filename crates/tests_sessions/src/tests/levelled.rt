//! A memory of 1,022 logical lines under the weak suite: written, moved, cut at each step of a write with its
//! move, recovered and read.
ghost use Rattle.std.specs.Prelude.{◌≡◌, ◌≤◌, IfOk};
ghost use Rattle.pmem_base.specs.Geo.{shape_of};
ghost use Rattle.board.specs.Memory.{device_of};
ghost use Rattle.board.specs.MemBoard.{memory_of};
ghost use Rattle.pmem_engine.specs.Calls.{IsReady};

use super::bench::{Bench, fresh, recovered, steps, write_past};
use crate::tests::equal;
use board::Board;
use pmem_base::Line;
use pmem_engine::{Engine, Fault};
use seal_ledger::Audit;
use start_gap::{GapFault, Gapped, Moved, Wear, WriteFault, place};
use std::alloc::Global;
use std::process::Abort;
use std::test::Fail;

/// Opens the lines of an engine over the memory, with a move at each `every`th write.
fn open(bench: &mut Bench, engine: Engine, every: u32) -> Result<Gapped, GapFault>
    requires every { 1 ≤ every }
    requires shape { engine.shape ≡ shape_of bench.old.geo }
    requires ready { IsReady engine.shape engine (device_of (memory_of bench.old.board)) }
    ensures geo { shape_of bench.new.geo ≡ shape_of bench.old.geo }
    ensures shape { IfOk result (λ gapped. gapped.engine.shape ≡ shape_of bench.old.geo) }
    ensures ready { IfOk result (λ gapped. IsReady gapped.engine.shape gapped.engine (device_of (memory_of bench.new.board))) }
{
    Gapped::open(
        engine,
        &mut bench.board,
        &mut bench.suite,
        &mut bench.ledger,
        every,
    )
}

/// Recovers the memory, and opens its lines with a move at each `every`th write.
fn opened(alloc: Global, bench: &mut Bench, every: u32) -> Result<Gapped, Fail>
    requires { 1 ≤ every }
    ensures geo { shape_of bench.new.geo ≡ shape_of bench.old.geo }
    ensures shape { IfOk result (λ gapped. gapped.engine.shape ≡ shape_of bench.old.geo) }
    ensures ready { IfOk result (λ gapped. IsReady gapped.engine.shape gapped.engine (device_of (memory_of bench.new.board))) }
{
    let engine = recovered(alloc, bench)?;
    match open(bench, engine, every) {
        Ok(gapped) => Ok(gapped),
        Err(_) => Err(Fail::new("not opened")),
    }
}

/// Writes a line.
fn put(
    rt: &impl Abort,
    bench: &mut Bench,
    gapped: &mut Gapped,
    line: u32,
    plain: &Line,
) -> Result<Moved, WriteFault>
    requires shape { gapped.old.engine.shape ≡ shape_of bench.old.geo }
    requires ready { IsReady gapped.old.engine.shape gapped.old.engine (device_of (memory_of bench.old.board)) }
    ensures geo { shape_of bench.new.geo ≡ shape_of bench.old.geo }
    ensures shape { gapped.new.engine.shape ≡ gapped.old.engine.shape }
    ensures ready { IsReady gapped.new.engine.shape gapped.new.engine (device_of (memory_of bench.new.board)) }
{
    assert!(rt; line < gapped.lines() && bench.ledger.reserve(198).is_ok());
    gapped.write(
        &mut bench.board,
        &mut bench.suite,
        &mut bench.ledger,
        line,
        plain,
    )
}

/// Reads a line, which has to be this one.
fn read(rt: &impl Abort, bench: &mut Bench, gapped: &mut Gapped, line: u32, plain: &Line)
    requires shape { gapped.old.engine.shape ≡ shape_of bench.old.geo }
    requires ready { IsReady gapped.old.engine.shape gapped.old.engine (device_of (memory_of bench.old.board)) }
    ensures geo { shape_of bench.new.geo ≡ shape_of bench.old.geo }
    ensures shape { gapped.new.engine.shape ≡ gapped.old.engine.shape }
    ensures ready { IsReady gapped.new.engine.shape gapped.new.engine (device_of (memory_of bench.new.board)) }
{
    assert!(rt; line < gapped.lines());
    let answer = gapped.read(&mut bench.board, &mut bench.suite, &mut bench.ledger, line);
    equal(rt, (line, answer), (line, Ok(*plain)));
}

// The first line and then the last one are written, each with a move.
#[test]
fn lines_are_written_and_move(rt: HostRuntime) -> Result<(), Fail> {
    let mut bench = fresh(rt.alloc(), 0)?;
    let mut gapped = opened(rt.alloc(), &mut bench, 1)?;
    let before = steps(&bench);
    let first = put(&rt, &mut bench, &mut gapped, 0, &Line([0xaa; 64]));
    equal(&rt, first, Ok(Moved::Made));
    equal(&rt, steps(&bench).wrapping_sub(before), 17);
    equal(
        &rt,
        gapped.wear(),
        &Wear {
            start: 0,
            gap: 1021,
        },
    );
    read(&rt, &mut bench, &mut gapped, 0, &Line([0xaa; 64]));
    let before = steps(&bench);
    let last = put(&rt, &mut bench, &mut gapped, 1021, &Line([0xbb; 64]));
    equal(&rt, last, Ok(Moved::Made));
    equal(&rt, steps(&bench).wrapping_sub(before), 12);
    read(&rt, &mut bench, &mut gapped, 1021, &Line([0xbb; 64]));
    read(&rt, &mut bench, &mut gapped, 0, &Line([0xaa; 64]));
    Ok(())
}

/// Cuts power after `fuse` steps of a write with its move, and reads the line.
fn cut_write(rt: &impl Abort, alloc: Global, fuse: u8) -> Result<(), Fail> {
    let mut bench = fresh(alloc, 0)?;
    let mut gapped = opened(alloc, &mut bench, 1)?;
    bench.board.arm(u64::from(fuse));
    match put(rt, &mut bench, &mut gapped, 0, &Line([0xaa; 64])) {
        Ok(moved) => equal(rt, (fuse, moved), (17, Moved::Made)),
        Err(fault) => equal(
            rt,
            (fuse, fault.fault, fault.written),
            (fuse, Fault::Cut, fuse > 6),
        ),
    }
    bench.board.off();
    bench.board.power();
    let mut gapped = opened(alloc, &mut bench, 1)?;
    let gap = if fuse > 13 { 1021 } else { 1022 };
    equal(rt, (fuse, gapped.wear()), (fuse, &Wear { start: 0, gap }));
    let plain = if fuse > 3 {
        Line([0xaa; 64])
    } else {
        Line::default()
    };
    read(rt, &mut bench, &mut gapped, 0, &plain);
    Ok(())
}

// The write takes 17 steps. From the latch on, its fourth step, the line is there; from the latch of the record on,
// its fourteenth, the gap has moved.
#[test]
fn cuts_keep_each_line(rt: HostRuntime) -> Result<(), Fail> {
    for fuse in 0..18 {
        cut_write(&rt, rt.alloc(), fuse)?;
    }
    Ok(())
}

/// Changes a line of the device: then the record isn't read.
fn change(rt: &impl Abort, alloc: Global, at: u32) -> Result<(), Fail> {
    let mut bench = fresh(alloc, 0)?;
    if at >= bench.board.size() {
        return Err(Fail::new("no line of the device"));
    }
    bench.board.poke(at, &Line([1; 64]));
    let engine = recovered(alloc, &mut bench)?;
    let fault = GapFault::Engine(Fault::Tag { at: 1023 });
    equal(rt, open(&mut bench, engine, 1).err(), Some(fault));
    Ok(())
}

// Line 1,023 holds the record. If it was written past the levelling it isn't a record, and if its
// line or its tag was changed it isn't read.
#[test]
fn faulty_records_are_told(rt: HostRuntime) -> Result<(), Fail> {
    let mut bench = fresh(rt.alloc(), 0)?;
    let mut engine = recovered(rt.alloc(), &mut bench)?;
    let line = Line([1; 64]);
    let written = write_past(&rt, &mut bench, &mut engine, 1023, &line);
    equal(&rt, written.is_ok(), true);
    let fault = open(&mut bench, engine, 1).err();
    equal(&rt, fault, Some(GapFault::BadWear { line }));
    change(&rt, rt.alloc(), 1023)?;
    change(&rt, rt.alloc(), 1024 + 255)
}
