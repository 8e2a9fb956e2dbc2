//! Commands on data lines.
ghost use Rattle.std.specs.Prelude.{◌≡◌, IfOk, IfErr, IsSome, Some, None};
ghost use Rattle.std.specs.Option.{option_map};
ghost use Rattle.tree_session.specs.declared.commands.TreeCommand.TheVariants as Do;
ghost use Rattle.trace_text.specs.declared.talk.Halt.TheVariants as Stop;
ghost use Rattle.tree_session.specs.State.{tree_setup_in};
ghost use Rattle.tree_session.specs.Answered.{IsTreeAnswered, IsTreeHalt};
ghost use Rattle.tree_session.specs.Logged.{IsTreeLogged};

use crate::answers::TreeAnswer;
use crate::calls;
use crate::world::TreeWorld;
use access_log::AccessLog;
use asit_shadow::TreeFault;
use counter_tree::tree_lines;
use pmem_base::Line;
use suite::Suite;
use trace_text::Halt;

impl<S: Suite + Drop> TreeWorld<S> {
    /// A data line is written. It stops at a forged node.
    pub(crate) fn write(
        &mut self,
        at: u64,
        line: &Line,
        log: &mut AccessLog,
    ) -> Result<TreeAnswer, Halt>
        requires { self.old.shown ≡ None }
        ensures answered { IfOk result (λ answer. IsTreeAnswered (tree_setup_in S.formulas_of self.old) self.old (Do.Write at line.now) answer self.new) }
        ensures halted { IfErr result (λ halt. IsTreeHalt (tree_setup_in S.formulas_of self.old) self.old (Do.Write at line.now) halt self.new) }
        ensures logged { IsTreeLogged (Do.Write at line.now) log.old self.old log.new self.new }
    {
        let Some(engine) = &mut self.engine else {
            return Ok(TreeAnswer::Off);
        };
        if at >= u64::from(tree_lines(&self.geo)) {
            return Ok(TreeAnswer::Range);
        }
        line.is_whole();
        let done = calls::write(
            engine,
            &mut self.board,
            &mut self.suite,
            &mut self.watch,
            at as u32,
            line,
            log,
        );
        let steps = done.taken.steps();
        match done.answer {
            Ok(_) => {
                self.hurt[at as usize] = false;
                Ok(TreeAnswer::Written { steps })
            }
            Err(TreeFault::Node { x }) => Ok(TreeAnswer::RefusedNode { x, steps }),
            Err(TreeFault::Spent) => Ok(TreeAnswer::Spent { steps }),
            Err(TreeFault::Cut) => {
                self.engine = None;
                // The first latch of a write arms it.
                if done.taken.latches > 0 {
                    self.hurt[at as usize] = false;
                    Ok(TreeAnswer::CutKept { steps })
                } else {
                    Ok(TreeAnswer::CutLost { steps })
                }
            }
            Err(TreeFault::Shown) => {
                self.engine = None;
                self.board.rest();
                Err(self.shown())
            }
            // The engine of a session isn't down, and a write reads no data line.
            Err(TreeFault::Down | TreeFault::Tag { .. }) => unreachable!(),
        }
    }

    /// A data line is read. It stops at a forged node or line.
    pub(crate) fn read(&mut self, at: u64, log: &mut AccessLog) -> Result<TreeAnswer, Halt>
        requires { self.old.shown ≡ None }
        ensures answered { IfOk result (λ answer. IsTreeAnswered (tree_setup_in S.formulas_of self.old) self.old (Do.Read at) answer self.new) }
        ensures halted { IfErr result (λ halt. IsTreeHalt (tree_setup_in S.formulas_of self.old) self.old (Do.Read at) halt self.new) }
        ensures logged { IsTreeLogged (Do.Read at) log.old self.old log.new self.new }
    {
        let Some(engine) = &mut self.engine else {
            return Ok(TreeAnswer::Off);
        };
        if at >= u64::from(tree_lines(&self.geo)) {
            return Ok(TreeAnswer::Range);
        }
        let done = calls::read(
            engine,
            &mut self.board,
            &mut self.suite,
            &mut self.watch,
            at as u32,
            log,
        );
        let steps = done.taken.steps();
        match done.answer {
            Ok(line) => Ok(TreeAnswer::Got { line, steps }),
            Err(TreeFault::Node { x }) => Ok(TreeAnswer::RefusedNode { x, steps }),
            Err(TreeFault::Tag { at }) => Ok(TreeAnswer::RefusedData { at, steps }),
            Err(TreeFault::Cut) => {
                self.engine = None;
                Ok(TreeAnswer::Cut { steps })
            }
            Err(TreeFault::Shown) => {
                self.engine = None;
                self.board.rest();
                Err(self.shown())
            }
            // The engine of a session isn't down, and a read is never spent.
            Err(TreeFault::Down | TreeFault::Spent) => unreachable!(),
        }
    }

    /// The exhibit that the watch stopped with.
    pub(crate) fn shown(&self) -> Halt
        requires { IsSome self.now.shown }
        ensures { Some result ≡ option_map Stop.Shown self.now.shown }
    {
        match self.watch.exhibit() {
            Some(exhibit) => Halt::Shown(*exhibit),
            None => unreachable!(),
        }
    }
}
