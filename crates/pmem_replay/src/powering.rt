//! Power, and recovery.
ghost use Rattle.std.specs.Prelude.{◌≡◌, false, IfOk, OnOk, OnErr};
ghost use Rattle.pmem_base.specs.Lines.{AreBytes, IsTag};
ghost use Rattle.pmem_base.specs.declared.commands.Command.TheVariants as Do;
ghost use Rattle.access_log.specs.Traced.{GoesOn};
ghost use Rattle.pmem_replay.specs.World.{setup_of_world};
ghost use Rattle.pmem_replay.specs.Logged.{IsLogKept};
ghost use Rattle.pmem_replay.specs.Replies.{without_marks};
ghost use Rattle.pmem_replay.specs.Stepped.{HasStepped, CanWantMemory};

use crate::{World, calls};
use access_log::AccessLog;
use pmem_base::{Answer, Exhibit, MemFault, Tag};
use pmem_recovery::RecFault;
use std::alloc::Global;
use suite::Counted;
use watched_board::is_number;

impl<S: Counted + Drop> World<S> {
    /// Power is to be cut after `n` more persist steps.
    pub(crate) fn cut(&mut self, n: u64) -> Answer
        requires { self.old.shown ≡ false }
        ensures { HasStepped (setup_of_world S.formulas_of self.old) self.old (Do.Cut n) (without_marks result) self.new }
    {
        self.board.arm(n);
        Answer::Ok
    }

    /// Power goes off.
    pub(crate) fn off(&mut self) -> Answer
        requires { self.old.shown ≡ false }
        ensures { HasStepped (setup_of_world S.formulas_of self.old) self.old Do.Off (without_marks result) self.new }
    {
        if self.engine.is_none() {
            return Answer::Off;
        }
        self.board.off();
        self.engine = None;
        self.ports.lose_power(self.geo.is_durable());
        Answer::Ok
    }

    /// Switches power on, with recovery. Errors: running out of memory.
    pub(crate) fn on(&mut self, alloc: Global, log: &mut AccessLog) -> Result<Answer, MemFault>
        requires { self.old.shown ≡ false }
        ensures stepped { IfOk result (λ answer. HasStepped (setup_of_world S.formulas_of self.old) self.old Do.On (without_marks answer) self.new) }
        ensures err { OnErr result (self.new ≡ self.old) }
        ensures wanting { OnErr result (CanWantMemory self.old.state Do.On) }
        ensures logged { OnOk result (GoesOn log.old self.old.board log.new self.new.board) }
        ensures kept { IsLogKept self.old.shape self.old.state Do.On log.old log.new }
    {
        if self.engine.is_some() {
            return Ok(Answer::Already);
        }
        self.board.power();
        let done = calls::recover(
            alloc,
            &self.geo,
            &mut self.board,
            &mut self.suite,
            &self.ledger,
            &mut self.engine,
            log,
        );
        let steps = done.taken.steps();
        self.steps = self.steps.saturating_add(steps);
        match done.answer {
            Ok(work) => {
                is_number(work.trials);
                is_number(work.digests);
                self.tampered.loosen();
                self.dirtied.clean();
                Ok(Answer::Recovered {
                    trials: work.trials,
                    digests: work.digests,
                    steps,
                })
            }
            Err(RecFault::Memory) => {
                self.board.rest();
                Err(MemFault)
            }
            Err(RecFault::Cut) => {
                self.tampered.loosen();
                self.ports.lose_power(self.geo.is_durable());
                Ok(Answer::Cut { steps })
            }
            Err(RecFault::NoCounter { at }) => {
                self.board.rest();
                Ok(Answer::NoCounter { at, steps })
            }
            Err(RecFault::Root { kept, found }) => {
                is_tag(&kept);
                is_tag(&found);
                self.board.rest();
                Ok(Answer::WrongRoot { kept, found, steps })
            }
            Err(
                RecFault::Twin {
                    at,
                    major,
                    low,
                    high,
                    cipher,
                    tag,
                },
            ) => {
                is_number(major);
                cipher.is_whole();
                is_tag(&tag);
                self.board.rest();
                self.shown = true;
                Ok(Answer::Shown(Exhibit::Twin {
                    at,
                    major,
                    low,
                    high,
                    cipher,
                    tag,
                }))
            }
        }
    }
}

/// A law: a tag is 16 bytes.
fn is_tag(tag: &Tag)
    ensures { IsTag tag.now }
{
    are_bytes(tag);
}

/// A law: bytes are below 256.
fn are_bytes(bytes: &[u8])
    ensures { AreBytes bytes.now }
{}
