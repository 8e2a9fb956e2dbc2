//! Recovery and formatting when an allocation is refused, as a run that makes the n-th one fail does.
ghost use Rattle.std.specs.Prelude.{◌≡◌, IfOk};
ghost use Rattle.pmem_base.specs.Geo.{shape_of};
ghost use Rattle.board.specs.Memory.{device_of};
ghost use Rattle.board.specs.MemBoard.{memory_of};
ghost use Rattle.pmem_engine.specs.Calls.{IsReady};

use super::{Bench, fresh, line, mended, read_all, write_armed};
use crate::tests::equal;
use board::{Board, MemBoard};
use pmem_base::{Geo, Line, Regs};
use pmem_engine::Engine;
use pmem_recovery::{RecFault, format};
use seal_ledger::{Audit, Ledger};
use std::alloc::Global;
use std::process::Abort;
use std::test::Fail;
use suite::{Counted, WeakSuite};

/// Both devices have the same lines.
fn have_same_lines(rt: &impl Abort, first: &Bench, second: &Bench) {
    'lines: for at in 0..first.geo.size() {
        assert_eq!(rt; line(rt, first, at), line(rt, second, at), "line {at}");
    }
}

/// Recovers the memory. If memory is refused, nothing was counted and the device is as the other one; the memory is
/// recovered again then.
fn mended_at_last(
    rt: &impl Abort,
    alloc: Global,
    bench: &mut Bench,
    other: &Bench,
) -> Result<Engine, RecFault>
    ensures geo { shape_of bench.new.geo ≡ shape_of bench.old.geo }
    ensures shape { IfOk result (λ engine. engine.shape ≡ shape_of bench.old.geo) }
    ensures ready { IfOk result (λ engine. IsReady engine.shape engine (device_of (memory_of bench.new.board))) }
{
    let steps = bench.board.counts();
    let calls = bench.suite.counts();
    let answer = mended(alloc, bench);
    if !matches!(answer, Err(RecFault::Memory)) {
        return answer;
    }
    equal(rt, bench.board.counts(), steps);
    equal(rt, bench.suite.counts(), calls);
    equal(rt, bench.board.regs(), other.board.regs());
    have_same_lines(rt, bench, other);
    mended(alloc, bench)
}

#[test]
fn refused_memory_changes_nothing(rt: HostRuntime) -> Result<(), Fail> {
    let plain = Line([0x11; 64]);
    let mut other = fresh(rt.alloc(), false, 4)?;
    write_armed(&rt, &mut other, &plain, 1)?;
    let mut bench = fresh(rt.alloc(), false, 4)?;
    write_armed(&rt, &mut bench, &plain, 1)?;
    let Ok(mut engine) = mended_at_last(&rt, rt.alloc(), &mut bench, &other) else {
        return Err(Fail::new("not recovered"));
    };
    read_all(&rt, &mut bench, &mut engine, &[plain]);
    Ok(())
}

#[test]
fn refused_memory_formats_nothing(rt: HostRuntime) -> Result<(), Fail> {
    let geo = Geo::new(2, 4, 2, 4, 0)?;
    let mut board = MemBoard::new(rt.alloc(), geo.size())?;
    let mut suite = WeakSuite::new(&[0; 16], &[0x10], false);
    let mut ledger = Ledger::new(rt.alloc(), &geo)?;
    if format(rt.alloc(), &geo, &mut board, &mut suite, &mut ledger).is_err() {
        equal(&rt, board.counts(), (0, 0, 0));
        equal(&rt, suite.counts(), (0, 0, 0));
        equal(&rt, board.regs(), &Regs::empty());
        equal(&rt, ledger.marks().len(), 0);
        assert!(rt; board.size() == geo.size());
        board.off();
        board.power();
        format(rt.alloc(), &geo, &mut board, &mut suite, &mut ledger)?;
    }
    equal(&rt, ledger.marks().len(), 1024);
    Ok(())
}
