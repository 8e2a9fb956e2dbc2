//! Sessions over levelled lines.
ghost use Rattle.std.specs.Prelude.{◌≤◌};

mod cuts;
mod tables;
mod used_up;

use super::{KEY, TAG_KEY, converse};
use pmem_base::Geo;
use std::alloc::Global;
use std::process::Abort;
use std::test::Fail;
use suite::WeakSuite;
use wear_session::WearWorld;

/// A new session: levels, sets, ways, the stop-loss number and the first major; the writes that a move follows;
/// and whether the suite makes twins.
fn new_session(
    alloc: Global,
    shape: (u8, u8, u8, u8, u64),
    every: u32,
    blur: bool,
) -> Result<WearWorld<WeakSuite>, Fail>
    requires { 1 ≤ every }
{
    let (levels, sets, ways, loss, major) = shape;
    let geo = Geo::new(levels, sets, ways, loss, major)?;
    let suite = WeakSuite::new(&KEY, &TAG_KEY, blur);
    Ok(WearWorld::new(alloc, geo, suite, every)?)
}

/// A new session answers these steps.
fn check<R: Abort + AllocGlobal>(
    rt: &R,
    shape: (u8, u8, u8, u8, u64),
    every: u32,
    blur: bool,
    steps: &str,
) -> Result<(), Fail>
    requires { 1 ≤ every }
{
    let mut session = new_session(rt.alloc(), shape, every, blur)?;
    converse(rt, rt.alloc(), &mut session, steps)
}
