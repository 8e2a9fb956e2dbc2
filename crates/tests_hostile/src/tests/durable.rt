//! That nothing is refused over a board that trips: here it is proved, by the contracts of the calls.
ghost use Rattle.pmem_engine.specs.Calls.{IsUnrefused};
ghost use Rattle.tests_hostile.specs.Ends.{IsUnrefusedRecovery};

use board::{Board, MemBoard, Tripped};
use call_effects::Work;
use pmem_base::{Ctr, Geo, Line};
use pmem_engine::{Engine, Fault};
use pmem_recovery::{RecFault, format, recover};
use seal_ledger::{Audit, Ledger};
use std::alloc::Global;
use std::test::Fail;
use suite::WeakSuite;

/// Whether a write was done.
fn is_written(answer: &Result<Ctr, Fault>) -> bool
    requires { IsUnrefused answer.now }
{
    match answer {
        Ok(_) => true,
        Err(Fault::Cut | Fault::Spent { .. }) => false,
        Err(Fault::Down | Fault::Meta { .. } | Fault::Tag { .. } | Fault::Shown) => unreachable!(),
    }
}

/// Whether a recovery went through.
fn is_recovered(answer: &Result<(Engine, Work), RecFault>) -> bool
    requires { IsUnrefusedRecovery answer.now }
{
    match answer {
        Ok(_) => true,
        Err(RecFault::Memory | RecFault::Cut | RecFault::Twin { .. }) => false,
        Err(RecFault::NoCounter { .. } | RecFault::Root { .. }) => unreachable!(),
    }
}

/// Writes line 0 of a formatted device over a board that trips after `n` calls, and recovers over the inner
/// one. The answer is whether the write was done, and whether the recovery went through.
fn write_and_recover(alloc: Global, n: u64) -> Result<(bool, bool), Fail> {
    let geo = Geo::new(2, 4, 2, 4, 0)?;
    let mut inner = MemBoard::new(alloc, geo.size())?;
    let mut suite = WeakSuite::new(&[0; 16], &[0x10], false);
    let mut ledger = Ledger::new(alloc, &geo)?;
    let mut engine = format(alloc, &geo, &mut inner, &mut suite, &mut ledger)?;
    ledger.reserve(66)?;
    let mut board = Tripped::new(inner, n);
    let line = Line([0x11; 64]);
    let write = engine.write(&mut board, &mut suite, &mut ledger, 0, &line);
    let written = is_written(&write);
    let mut inner = board.into_inner();
    let recovery = recover(alloc, &geo, &mut inner, &mut suite, &ledger);
    Ok((written, is_recovered(&recovery)))
}

#[test]
fn nothing_is_refused(rt: HostRuntime) -> Result<(), Fail> {
    for n in 0..=11_u8 {
        let ends = write_and_recover(rt.alloc(), u64::from(n))?;
        assert_eq!(rt; ends, (n == 11, true), "at {n}");
    }
    Ok(())
}
