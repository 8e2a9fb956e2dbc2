//! A memory under the weak suite, with what belongs to it.
ghost use Rattle.std.specs.Prelude.{ℕ, ◌≡◌, ◌<◌, IsSome, IfOk, length};
ghost use Rattle.pmem_base.specs.Geo.{shape_of};
ghost use Rattle.pmem_base.specs.Layout.{data_lines, meta_lines, device_lines};
ghost use Rattle.pmem_base.specs.Marks.{last_seal};
ghost use Rattle.pmem_base.specs.Registers.{IsValidRegs};
ghost use Rattle.board.specs.Memory.{device_of};
ghost use Rattle.board.specs.MemBoard.{memory_of};
ghost use Rattle.seal_ledger.specs.View.{ledger_of};
ghost use Rattle.pmem_engine.specs.Calls.{IsReady};

use board::MemBoard;
use pmem_base::{Ctr, Geo, Line};
use pmem_engine::{Engine, Fault};
use pmem_recovery::{format, recover};
use seal_ledger::{Audit, Ledger};
use std::alloc::Global;
use std::process::Abort;
use std::test::Fail;
use suite::WeakSuite;

/// A memory with what belongs to it.
#[derive(Drop)]
pub(super) struct Bench {
    pub(super) geo: Geo,
    pub(super) board: MemBoard,
    pub(super) suite: WeakSuite,
    pub(super) ledger: Ledger,
    ghost its_size: { length (memory_of board).lines ≡ device_lines (shape_of geo) },
    ghost its_regs: { IsValidRegs (shape_of geo) (memory_of board).regs },
    ghost its_truth: { length (ledger_of ledger).truth ≡ meta_lines (shape_of geo) },
    ghost its_lines: { (ledger_of ledger).data_lines ≡ data_lines (shape_of geo) },
    ghost each_sealed: { (a : ℕ) → a < data_lines (shape_of geo) → IsSome (last_seal (ledger_of ledger).marks a) },
}

/// A new memory of two levels, with this first major counter.
pub(super) fn fresh(alloc: Global, major: u64) -> Result<Bench, Fail> {
    let geo = Geo::new(2, 4, 2, 4, major)?;
    let mut board = MemBoard::new(alloc, geo.size())?;
    let mut suite = WeakSuite::new(&[0; 16], &[0x10], false);
    let mut ledger = Ledger::new(alloc, &geo)?;
    format(alloc, &geo, &mut board, &mut suite, &mut ledger)?;
    Ok(Bench {
        geo,
        board,
        suite,
        ledger,
    })
}

/// Recovers the memory.
pub(super) fn recovered(alloc: Global, bench: &mut Bench) -> Result<Engine, Fail>
    ensures geo { shape_of bench.new.geo ≡ shape_of bench.old.geo }
    ensures shape { IfOk result (λ engine. engine.shape ≡ shape_of bench.old.geo) }
    ensures ready { IfOk result (λ engine. IsReady engine.shape engine (device_of (memory_of bench.new.board))) }
{
    match recover(
        alloc,
        &bench.geo,
        &mut bench.board,
        &mut bench.suite,
        &bench.ledger,
    ) {
        Ok((engine, _)) => Ok(engine),
        Err(_) => Err(Fail::new("not recovered")),
    }
}

/// How many persist steps were made.
pub(super) fn steps(bench: &Bench) -> u64 {
    let (_, writes, latches) = bench.board.counts();
    writes.wrapping_add(latches)
}

/// Writes a data line by the engine, past what is kept over it.
pub(super) fn write_past(
    rt: &impl Abort,
    bench: &mut Bench,
    engine: &mut Engine,
    at: u32,
    line: &Line,
) -> Result<Ctr, Fault>
    requires shape { engine.old.shape ≡ shape_of bench.old.geo }
    requires ready { IsReady engine.old.shape engine.old (device_of (memory_of bench.old.board)) }
    ensures geo { shape_of bench.new.geo ≡ shape_of bench.old.geo }
    ensures shape { engine.new.shape ≡ engine.old.shape }
    ensures ready { IsReady engine.new.shape engine.new (device_of (memory_of bench.new.board)) }
{
    assert!(rt; at < engine.geo().lines() && bench.ledger.reserve(66).is_ok());
    engine.write(
        &mut bench.board,
        &mut bench.suite,
        &mut bench.ledger,
        at,
        line,
    )
}
