//! A memory of 1,008 lines under the weak suite: transactions are committed, cut at each step of the commit and
//! of its redo, and the lines are read.
ghost use Rattle.std.specs.Prelude.{◌≡◌, IfOk};
ghost use Rattle.pmem_base.specs.Geo.{shape_of};
ghost use Rattle.board.specs.Memory.{device_of};
ghost use Rattle.board.specs.MemBoard.{memory_of};
ghost use Rattle.pmem_engine.specs.Calls.{IsReady};
ghost use Rattle.line_txn.specs.Header.{AreDistinctBelow};
ghost use Rattle.line_txn.specs.Logged.{targets_of};

use super::bench::{Bench, fresh, recovered, steps, write_past};
use crate::tests::equal;
use arrayvec::ArrayVec;
use line_txn::{CommitFault, Committed, Opened, Store, TxnFault};
use pmem_base::Line;
use pmem_engine::{Engine, Fault};
use seal_ledger::Audit;
use std::alloc::Global;
use std::process::Abort;
use std::test::Fail;

/// Opens the lines of an engine over the memory.
fn open(rt: &impl Abort, bench: &mut Bench, engine: Engine) -> Result<(Store, Opened), TxnFault>
    requires shape { engine.shape ≡ shape_of bench.old.geo }
    requires ready { IsReady engine.shape engine (device_of (memory_of bench.old.board)) }
    ensures geo { shape_of bench.new.geo ≡ shape_of bench.old.geo }
    ensures shape { IfOk result (λ opened. opened.0.engine.shape ≡ shape_of bench.old.geo) }
    ensures ready { IfOk result (λ opened. IsReady opened.0.engine.shape opened.0.engine (device_of (memory_of bench.new.board))) }
{
    assert!(rt; bench.ledger.reserve(1056).is_ok());
    Store::open(
        engine,
        &mut bench.board,
        &mut bench.suite,
        &mut bench.ledger,
    )
}

/// Recovers the memory, and opens its lines.
fn opened(rt: &impl Abort, alloc: Global, bench: &mut Bench) -> Result<(Store, Opened), Fail>
    ensures geo { shape_of bench.new.geo ≡ shape_of bench.old.geo }
    ensures shape { IfOk result (λ opened. opened.0.engine.shape ≡ shape_of bench.old.geo) }
    ensures ready { IfOk result (λ opened. IsReady opened.0.engine.shape opened.0.engine (device_of (memory_of bench.new.board))) }
{
    let engine = recovered(alloc, bench)?;
    match open(rt, bench, engine) {
        Ok(both) => Ok(both),
        Err(_) => Err(Fail::new("not opened")),
    }
}

/// Commits these lines.
fn commit(
    rt: &impl Abort,
    bench: &mut Bench,
    store: &mut Store,
    txn: &ArrayVec<(u32, Line), 15>,
) -> Result<Committed, CommitFault>
    requires shape { store.old.engine.shape ≡ shape_of bench.old.geo }
    requires ready { IsReady store.old.engine.shape store.old.engine (device_of (memory_of bench.old.board)) }
    requires targets { AreDistinctBelow store.old.lines (targets_of txn.now.items) }
    ensures geo { shape_of bench.new.geo ≡ shape_of bench.old.geo }
    ensures shape { store.new.engine.shape ≡ store.old.engine.shape }
    ensures ready { IsReady store.new.engine.shape store.new.engine (device_of (memory_of bench.new.board)) }
{
    assert!(rt; store.stuck().is_none() && bench.ledger.reserve(2112).is_ok());
    store.commit(&mut bench.board, &mut bench.suite, &mut bench.ledger, txn)
}

/// Reads a line.
fn read(rt: &impl Abort, bench: &mut Bench, store: &mut Store, at: u32) -> Line
    requires shape { store.old.engine.shape ≡ shape_of bench.old.geo }
    requires ready { IsReady store.old.engine.shape store.old.engine (device_of (memory_of bench.old.board)) }
    ensures geo { shape_of bench.new.geo ≡ shape_of bench.old.geo }
    ensures shape { store.new.engine.shape ≡ store.old.engine.shape }
    ensures ready { IsReady store.new.engine.shape store.new.engine (device_of (memory_of bench.new.board)) }
{
    assert!(rt; at < store.lines());
    let answer = store.read(&mut bench.board, &mut bench.suite, &mut bench.ledger, at);
    assert!(rt; answer.is_ok(), "line {at}");
    answer.unwrap_or_default()
}

/// A transaction of the lines 0 and 64.
fn pair(rt: &impl Abort, store: &Store) -> ArrayVec<(u32, Line), 15>
    ensures { AreDistinctBelow store.now.lines (targets_of result.items) }
{
    assert!(rt; store.lines() > 64);
    let mut txn = ArrayVec::new();
    txn.push((0, Line([0x11; 64])));
    txn.push((64, Line([0x22; 64])));
    txn
}

// Two lines are committed in 30 steps, and no lines in none.
#[test]
fn transactions_are_applied(rt: HostRuntime) -> Result<(), Fail> {
    let mut bench = fresh(rt.alloc(), 0)?;
    let (mut store, first) = opened(&rt, rt.alloc(), &mut bench)?;
    equal(
        &rt,
        first,
        Opened {
            redone: 0,
            stuck: None,
        },
    );
    equal(&rt, store.lines(), 1008);
    let before = steps(&bench);
    let done = commit(&rt, &mut bench, &mut store, &ArrayVec::new());
    equal(&rt, (done, steps(&bench)), (Ok(Committed::Applied), before));
    let txn = pair(&rt, &store);
    let done = commit(&rt, &mut bench, &mut store, &txn);
    equal(&rt, done, Ok(Committed::Applied));
    equal(&rt, steps(&bench).wrapping_sub(before), 30);
    equal(&rt, read(&rt, &mut bench, &mut store, 0), Line([0x11; 64]));
    equal(&rt, read(&rt, &mut bench, &mut store, 64), Line([0x22; 64]));
    equal(&rt, read(&rt, &mut bench, &mut store, 1), Line::default());
    Ok(())
}

/// Cuts power after `fuse` steps of a commit of two lines, and reads them.
fn cut_commit(rt: &impl Abort, alloc: Global, fuse: u8) -> Result<(), Fail> {
    let mut bench = fresh(alloc, 0)?;
    let (mut store, _) = opened(rt, alloc, &mut bench)?;
    let txn = pair(rt, &store);
    bench.board.arm(u64::from(fuse));
    match commit(rt, &mut bench, &mut store, &txn) {
        Ok(done) => equal(rt, (fuse, done), (30, Committed::Applied)),
        Err(fault) => equal(
            rt,
            (fuse, fault.fault, fault.committed),
            (fuse, Fault::Cut, fuse > 14),
        ),
    }
    bench.board.off();
    bench.board.power();
    let (mut store, again) = opened(rt, alloc, &mut bench)?;
    let whole = fuse > 11;
    let redone = if whole && fuse < 27 { 2 } else { 0 };
    let wanted = Opened {
        redone,
        stuck: None,
    };
    equal(rt, (fuse, again), (fuse, wanted));
    let lines = if whole {
        [Line([0x11; 64]), Line([0x22; 64])]
    } else {
        [Line::default(); 2]
    };
    let found = [
        read(rt, &mut bench, &mut store, 0),
        read(rt, &mut bench, &mut store, 64),
    ];
    equal(rt, (fuse, found), (fuse, lines));
    Ok(())
}

// Power is cut after each number of steps. From the twelfth on, the latch of the header's write, both lines are
// there; before that none is.
#[test]
fn cuts_leave_all_or_none(rt: HostRuntime) -> Result<(), Fail> {
    for fuse in 0..31 {
        cut_commit(&rt, rt.alloc(), fuse)?;
    }
    Ok(())
}

/// The header of fifteen targets, 240 and from 1 to 14, with one byte set to this one.
fn header_with(at: usize, byte: u8) -> Line {
    let mut line = Line([0; 64]);
    line.0[0] = 15;
    line.0[7] = 240;
    for i in 1..15_u8 {
        line.0[usize::from(i) * 4 + 7] = i;
    }
    if at < 64 {
        line.0[at] = byte;
    }
    line
}

/// Writes this line in the place of the header, and opens the lines.
fn open_over(
    rt: &impl Abort,
    alloc: Global,
    line: &Line,
) -> Result<Result<Opened, TxnFault>, Fail> {
    let mut bench = fresh(alloc, 0)?;
    let mut engine = recovered(alloc, &mut bench)?;
    let written = write_past(rt, &mut bench, &mut engine, 1008, line);
    equal(rt, written.is_ok(), true);
    match open(rt, &mut bench, engine) {
        Ok((_, opened)) => Ok(Ok(opened)),
        Err(fault) => Ok(Err(fault)),
    }
}

/// With this byte changed the line isn't a header.
fn refuse(rt: &impl Abort, alloc: Global, at: usize, byte: u8) -> Result<(), Fail> {
    let line = header_with(at, byte);
    let found = open_over(rt, alloc, &line)?;
    equal(rt, (at, found), (at, Err(TxnFault::Header { line })));
    Ok(())
}

// A header of fifteen targets is in force. With one byte changed no commit could have written it.
#[test]
fn other_headers_are_refused(rt: HostRuntime) -> Result<(), Fail> {
    let found = open_over(&rt, rt.alloc(), &header_with(0, 15))?;
    let opened = Opened {
        redone: 15,
        stuck: None,
    };
    equal(&rt, found, Ok(opened));
    // the count is above 15, and one that leaves a target out
    refuse(&rt, rt.alloc(), 0, 16)?;
    refuse(&rt, rt.alloc(), 0, 14)?;
    // the first target isn't below 1,008, and is the sixth one too
    refuse(&rt, rt.alloc(), 6, 3)?;
    refuse(&rt, rt.alloc(), 7, 5)?;
    // another byte isn't 0
    refuse(&rt, rt.alloc(), 1, 1)?;
    refuse(&rt, rt.alloc(), 3, 1)
}
