//! Power comes on in a session.
ghost use Rattle.std.specs.Prelude.{◌≡◌, IfSome, IfOk, IfErr, IsNone};
ghost use Rattle.trace_text.specs.Logged.{IsLoggedBy};
ghost use Rattle.line_session.specs.State.{setup_in};
ghost use Rattle.line_session.specs.World.{IsLineWorld};
ghost use Rattle.line_session.specs.Turned.{IsTurnedUnder, IsTurnHalt, unturned};

use crate::calls::LineStore;
use crate::session::LineSession;
use crate::starts::{StartFault, StoreOpening, start};
use access_log::AccessLog;
use pmem_base::{Exhibit, MemFault};
use pmem_recovery::RecFault;
use seal_ledger::Audit;
use std::alloc::Global;
use suite::Suite;
use trace_text::Halt;

/// What power on comes to in a session.
#[derive(Clone, Copy)]
pub enum Turned<T> {
    /// Power was on.
    Already,
    /// Power is on and the store opened, after this number of steps; `told` is what its opening answers.
    On { steps: u64, told: T },
    /// Power was cut in recovery or in the opening, after this number of steps.
    Cut { steps: u64 },
}

impl<S: Suite + Drop, L: LineStore> LineSession<S, L> {
    /// Switches power on, with recovery, and opens the store. Errors: running out of memory, or a twin; power is off
    /// then.
    pub fn on<O: StoreOpening<Store = L>>(
        &mut self,
        alloc: Global,
        opening: &O,
        log: &mut AccessLog,
    ) -> Result<Turned<O::Told>, Halt>
        requires can { O.can opening.now }
        requires holds { O.holds opening.now (setup_in S.formulas_of self.old.state) self.old.state.ledger.marks }
        ensures world { IsLineWorld L.engine (setup_in S.formulas_of self.old.state) self.old }
        ensures turned { IfOk result (λ turned. IsTurnedUnder S.formulas_of O.store O.told (O.relation opening.now) L.engine self.old turned self.new) }
        ensures halted { IfErr result (λ halt. IsTurnHalt (setup_in S.formulas_of self.old.state) self.old halt self.new) }
        ensures logged { IsLoggedBy (unturned result) log.old self.old.state.board log.new self.new.state.board }
    {
        if self.store.is_some() {
            return Ok(Turned::Already);
        }
        if let Err(MemFault) = self.ledger.reserve(opening.room()) {
            return Err(Halt::Memory);
        }
        self.board.power();
        let done = start(
            alloc,
            &self.geo,
            opening,
            &mut self.board,
            &mut self.suite,
            &mut self.ledger,
            log,
        );
        let steps = done.taken.steps();
        match done.answer {
            Ok(opened) => {
                let (store, told) = O::split(opened);
                self.store = Some(store);
                Ok(Turned::On { steps, told })
            }
            Err(StartFault::Recovery(fault)) => match fault {
                RecFault::Cut => Ok(Turned::Cut { steps }),
                RecFault::Memory => {
                    self.board.rest();
                    Err(Halt::Memory)
                }
                RecFault::Twin {
                    at,
                    major,
                    low,
                    high,
                    cipher,
                    tag,
                } => {
                    self.board.rest();
                    Err(Halt::Shown(Exhibit::Twin {
                        at,
                        major,
                        low,
                        high,
                        cipher,
                        tag,
                    }))
                }
                // A durable device has a counter for each line, and the root.
                RecFault::NoCounter { .. } | RecFault::Root { .. } => unreachable!(),
            },
            // Over sound lines that hold what a store keeps in them, an opening ends otherwise by a cut alone.
            Err(StartFault::Opening(_fault)) => Ok(Turned::Cut { steps }),
        }
    }
}
