//! A device whose lines are levelled, and what a session keeps of it.
ghost use Rattle.std.specs.Prelude.{◌≡◌, ◌≤◌, IfOk};
ghost use Rattle.pmem_base.specs.Geo.{shape_of};
ghost use Rattle.line_session.specs.New.{IsNewByPlan};
ghost use Rattle.wear_session.specs.Planned.{open_call};
ghost use Rattle.wear_session.specs.State.{IsNewWear};

use crate::calls::{LevelledLines, OpenLines};
use line_session::{LineSession, NewFault};
use pmem_base::{Geo, MemFault};
use std::alloc::Global;
use std::marker::Model;
use suite::Suite;

/// A session over levelled lines. At each `every`th write since power came on the gap moves.
#[derive(Drop)]
pub struct WearWorld<S: Suite + Drop> {
    pub(crate) session: LineSession<S, LevelledLines>,
    pub(crate) every: u32,
}

impl<S: Suite + Drop> Model for WearWorld<S> {
    ghost use Rattle.line_session.specs.State.{setup_in};
    ghost use Rattle.wear_session.specs.State.{WearState};
    ghost use Rattle.wear_session.specs.World.{wear_of, IsWearWorld};

    ghost Value = { WearState };

    ghost view = { λ w. wear_of (setup_in S.formulas_of w.session.state) w.every w.session };

    ghost invariant = { λ w. IsWearWorld (setup_in S.formulas_of w.session.state) w.every w.session };
}

impl<S: Suite + Drop> WearWorld<S> {
    /// A formatted device with power on and its lines opened: all are zeros, and no move was made. Formatting and the
    /// opening follow their plans. Errors: running out of memory.
    pub fn new(alloc: Global, geo: Geo, suite: S, every: u32) -> Result<WearWorld<S>, MemFault>
        requires { 1 ≤ every }
        ensures new { IfOk result (λ world. IsNewWear (record { shape = shape_of geo; formulas = S.formulas_of (S.keys suite) }) every world) }
        ensures opened { IfOk result (λ world. IsNewByPlan (record { shape = shape_of geo; formulas = S.formulas_of (S.keys suite) })
            (open_call (record { shape = shape_of geo; formulas = S.formulas_of (S.keys suite) })) (S.tags suite) (S.digests suite) world.session) }
        ensures keys { IfOk result (λ world. world.session.keys ≡ S.keys suite) }
    {
        match LineSession::new(alloc, geo, suite, &OpenLines { every }) {
            Ok(session) => Ok(WearWorld { session, every }),
            Err(NewFault::Memory) => Err(MemFault),
            // The record of zero lines is one.
            Err(NewFault::Opening(_fault)) => unreachable!(),
        }
    }
}
