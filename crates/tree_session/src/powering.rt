//! Power, and recovery.
ghost use Rattle.std.specs.Prelude.{◌≡◌, IfOk, IfErr, None};
ghost use Rattle.tree_session.specs.declared.commands.TreeCommand.TheVariants as Do;
ghost use Rattle.tree_session.specs.State.{tree_setup_in};
ghost use Rattle.tree_session.specs.Answered.{IsTreeAnswered, IsTreeHalt};
ghost use Rattle.tree_session.specs.Logged.{IsTreeLogged};

use crate::answers::TreeAnswer;
use crate::calls;
use crate::world::TreeWorld;
use access_log::AccessLog;
use asit_shadow::TreeRec;
use std::alloc::Global;
use suite::Suite;
use trace_text::Halt;
use watched_call::CallEnd;

impl<S: Suite + Drop> TreeWorld<S> {
    /// Power is to be cut after `n` more persist steps.
    pub(crate) fn cut(&mut self, n: u64) -> TreeAnswer
        requires { self.old.shown ≡ None }
        ensures { IsTreeAnswered (tree_setup_in S.formulas_of self.old) self.old (Do.Cut n) result self.new }
    {
        self.board.arm(n);
        TreeAnswer::Ok
    }

    /// Power goes off.
    pub(crate) fn off(&mut self) -> TreeAnswer
        requires { self.old.shown ≡ None }
        ensures { IsTreeAnswered (tree_setup_in S.formulas_of self.old) self.old Do.Off result self.new }
    {
        if self.engine.is_none() {
            return TreeAnswer::Off;
        }
        self.board.off();
        self.engine = None;
        TreeAnswer::Ok
    }

    /// Switches power on, with recovery. Errors: running out of memory, or a clash.
    pub(crate) fn on(&mut self, alloc: Global, log: &mut AccessLog) -> Result<TreeAnswer, Halt>
        requires { self.old.shown ≡ None }
        ensures answered { IfOk result (λ answer. IsTreeAnswered (tree_setup_in S.formulas_of self.old) self.old Do.On answer self.new) }
        ensures halted { IfErr result (λ halt. IsTreeHalt (tree_setup_in S.formulas_of self.old) self.old Do.On halt self.new) }
        ensures logged { IsTreeLogged Do.On log.old self.old log.new self.new }
    {
        if self.engine.is_some() {
            return Ok(TreeAnswer::Already);
        }
        self.board.power();
        let done = calls::recover(
            alloc,
            &self.geo,
            &mut self.board,
            &mut self.suite,
            &mut self.watch,
            log,
        );
        let CallEnd { taken, answer } = done;
        let steps = taken.steps();
        match answer {
            Ok(made) => {
                let digests = made.1.digests;
                self.engine = Some(made.0);
                Ok(TreeAnswer::Recovered { digests, steps })
            }
            Err(TreeRec::Cut) => Ok(TreeAnswer::Cut { steps }),
            Err(TreeRec::Shadow { kept, found }) => {
                self.board.rest();
                Ok(TreeAnswer::RefusedShadow { kept, found, steps })
            }
            Err(TreeRec::Memory) => {
                self.board.rest();
                Err(Halt::Memory)
            }
            Err(TreeRec::Shown) => {
                self.board.rest();
                Err(self.shown())
            }
        }
    }
}
