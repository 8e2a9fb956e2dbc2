//! Sessions over lines that are written by transactions.
mod cuts;
mod tables;
mod used_up;

use super::{KEY, TAG_KEY, converse};
use pmem_base::Geo;
use std::alloc::Global;
use std::process::Abort;
use std::test::Fail;
use suite::WeakSuite;
use txn_session::TxnWorld;

/// A new session: levels, sets, ways, the stop-loss number and the first major; and whether the suite makes twins.
fn new_session(
    alloc: Global,
    shape: (u8, u8, u8, u8, u64),
    blur: bool,
) -> Result<TxnWorld<WeakSuite>, Fail> {
    let (levels, sets, ways, loss, major) = shape;
    let geo = Geo::new(levels, sets, ways, loss, major)?;
    let suite = WeakSuite::new(&KEY, &TAG_KEY, blur);
    Ok(TxnWorld::new(alloc, geo, suite)?)
}

/// A new session answers these steps.
fn check<R: Abort + AllocGlobal>(
    rt: &R,
    shape: (u8, u8, u8, u8, u64),
    blur: bool,
    steps: &str,
) -> Result<(), Fail> {
    let mut session = new_session(rt.alloc(), shape, blur)?;
    converse(rt, rt.alloc(), &mut session, steps)
}
