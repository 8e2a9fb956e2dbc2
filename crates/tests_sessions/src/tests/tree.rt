//! Sessions over a counter tree.
mod lines;
mod tables;

use super::{KEY, TAG_KEY, converse};
use pmem_base::Geo;
use std::alloc::Global;
use std::process::Abort;
use std::test::Fail;
use suite::WeakSuite;
use tree_session::TreeWorld;

/// A new session with this number of levels and of sets.
fn new_session(alloc: Global, levels: u8, sets: u8) -> Result<TreeWorld<WeakSuite>, Fail> {
    let geo = Geo::new(levels, sets, 2, 4, 0)?;
    let suite = WeakSuite::new(&KEY, &TAG_KEY, false);
    let watch_suite = WeakSuite::new(&KEY, &TAG_KEY, false);
    Ok(TreeWorld::new(alloc, geo, suite, watch_suite)?)
}

/// A new session with this number of levels and of sets answers these steps.
fn check<R: Abort + AllocGlobal>(rt: &R, levels: u8, sets: u8, steps: &str) -> Result<(), Fail> {
    let mut session = new_session(rt.alloc(), levels, sets)?;
    converse(rt, rt.alloc(), &mut session, steps)
}
