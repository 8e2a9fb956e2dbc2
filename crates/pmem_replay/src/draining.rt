//! Waiting writes, given to the engine one by one.
ghost use Rattle.std.specs.Prelude.{◌≡◌, ◌<◌, ◌≤◌, ◌*◌, ◌⊎◌, ◌&&◌, not, false, length, drop, Some, IsSome, IfOk, OnErr, if◌then◌else◌};
ghost use Rattle.pmem_base.specs.declared.commands.Command.TheVariants as Do;
ghost use Rattle.pmem_base.specs.WaitingWrites.{queue_of};
ghost use Rattle.seal_ledger.specs.Notes.{HasRoom};
ghost use Rattle.plain_model.specs.After.{steps_of};
ghost use Rattle.pmem_engine.specs.Outcomes.{is_sealed_by, outcome_of};
ghost use Rattle.access_log.specs.Traced.{GoesOn};
ghost use Rattle.pmem_replay.specs.EngineCalls.{IsFront, is_outcome_cut, without_oldest};
ghost use Rattle.pmem_replay.specs.Given.{HasWriteGiven, CanEndFence};
ghost use Rattle.pmem_replay.specs.Logged.{IsLogKept};
ghost use Rattle.pmem_replay.specs.Replies.{with_marks_since};
ghost use Rattle.pmem_replay.specs.Stepped.{HasStepped, CanWantMemory, EndsWrites};
ghost use Rattle.pmem_replay.specs.World.{setup_of_world};

use crate::World;
use crate::calling::is_sealed_since;
use crate::calls::{self, WriteLine};
use access_log::AccessLog;
use pmem_base::{Answer, Ctr, MemFault, Posted};
use pmem_engine::Fault;
use suite::Counted;

impl<S: Counted + Drop> World<S> {
    /// How many writes wait at the port.
    fn waiting(&self, port: u8) -> u8
        requires { port < 8 }
        ensures value { result ≡ length (queue_of self.now.state.queues port) }
        ensures most { result < 17 }
    {
        self.ports.waiting(port)
    }

    /// The port's oldest write is drained.
    pub(crate) fn drain(&mut self, port: u8, log: &mut AccessLog) -> Result<Answer, MemFault>
        requires shown { self.old.shown ≡ false }
        requires port { port < 8 }
        ensures stepped { IfOk result (λ answer. HasStepped (setup_of_world S.formulas_of self.old) self.old (Do.Drain port) (with_marks_since self.old self.new answer) self.new) }
        ensures err { OnErr result (self.new ≡ self.old) }
        ensures wanting { OnErr result (CanWantMemory self.old.state (Do.Drain port)) }
        ensures logged { GoesOn log.old self.old.board log.new self.new.board }
        ensures kept { IsLogKept self.old.shape self.old.state (Do.Drain port) log.old log.new }
    {
        self.holds();
        if !self.is_on() {
            return Ok(Answer::Off);
        }
        if self.waiting(port) == 0 {
            return Ok(Answer::Empty);
        }
        self.make_room(66)?;
        Ok(self.give(port, log))
    }

    /// All writes of the port are drained, the oldest first.
    pub(crate) fn fence(&mut self, port: u8, log: &mut AccessLog) -> Result<Answer, MemFault>
        requires shown { self.old.shown ≡ false }
        requires port { port < 8 }
        ensures stepped { IfOk result (λ answer. HasStepped (setup_of_world S.formulas_of self.old) self.old (Do.Fence port) (with_marks_since self.old self.new answer) self.new) }
        ensures err { OnErr result (self.new ≡ self.old) }
        ensures wanting { OnErr result (CanWantMemory self.old.state (Do.Fence port)) }
        ensures logged { GoesOn log.old self.old.board log.new self.new.board }
        ensures kept { IsLogKept self.old.shape self.old.state (Do.Fence port) log.old log.new }
    {
        self.holds();
        if !self.is_on() {
            return Ok(Answer::Off);
        }
        let count = self.waiting(port);
        self.make_room(66 * u32::from(count))?;
        Ok(self.drain_all(port, count, log))
    }

    /// The `count` writes of the port are drained.
    fn drain_all(&mut self, port: u8, count: u8, log: &mut AccessLog) -> Answer
        requires shown { self.old.shown ≡ false }
        requires port { port < 8 }
        requires on { IsSome self.old.engine }
        requires count { count ≡ length (queue_of self.old.state.queues port) }
        requires most { count < 17 }
        requires room { HasRoom self.old.ledger self.old.capacity (66 * count) }
        ensures stepped { HasStepped (setup_of_world S.formulas_of self.old) self.old (Do.Fence port) (with_marks_since self.old self.new result) self.new }
        ensures logged { GoesOn log.old self.old.board log.new self.new.board }
        ensures kept { (log.new ≡ log.old) ⊎ (0 < count) }
    {
        self.holds();
        let mut done: u8 = 0;
        let mut steps: u64 = 0;
        'writes: while done < count {
            let more = match self.give(port, log) {
                Answer::Drained { steps } => steps,
                stopped => return ended(stopped, done, steps),
            };
            done += 1;
            steps += more;
        }
        Answer::Fenced {
            drained: done,
            steps,
        }
    }

    /// The port's oldest write is given to the engine. The answer is that of a drain.
    pub(crate) fn give(&mut self, port: u8, log: &mut AccessLog) -> Answer
        requires shown { self.old.shown ≡ false }
        requires port { port < 8 }
        requires on { IsSome self.old.engine }
        requires some { 0 < length (queue_of self.old.state.queues port) }
        requires room { HasRoom self.old.ledger self.old.capacity 66 }
        ensures given { HasWriteGiven (setup_of_world S.formulas_of self.old) self.old port result self.new }
        ensures logged { GoesOn log.old self.old.board log.new self.new.board }
    {
        self.holds();
        let write = self.front(port);
        let from = self.marks().len();
        let done = self.call(&WriteLine { write }, log);
        let put = self.has_sealed(from, write.at);
        self.take_off(port, is_lost(&done.answer, put));
        let steps = done.taken.steps();
        match done.answer {
            Ok(_) => Answer::Drained { steps },
            Err(fault) => self.stopped(fault, Some(put), steps),
        }
    }

    /// The port's oldest write.
    fn front(&self, port: u8) -> Posted
        requires shown { self.now.shown ≡ false }
        requires port { port < 8 }
        requires some { 0 < length (queue_of self.now.state.queues port) }
        ensures { IsFront self.now port result }
    {
        let Some(write) = self.ports.front(port) else {
            unreachable!()
        };
        write
    }

    /// The port's oldest write is answered for, and waits no more, unless it was lost: that one waits in a
    /// durable queue still.
    fn take_off(&mut self, port: u8, lost: bool)
        requires { port < 8 }
        ensures left { self.new ≡ (if lost then self.old else without_oldest self.old port) }
        ensures board { self.new.board ≡ self.old.board }
        ensures ledger { self.new.ledger ≡ self.old.ledger }
    {
        if !lost {
            self.ports.pop(port);
        }
    }

    /// Whether a mark from the `from`-th on seals data line `at`.
    fn has_sealed(&self, from: usize, at: u32) -> bool
        requires { from ≤ length self.now.ledger.marks }
        ensures { result ≡ is_sealed_by (drop from self.now.ledger.marks) at }
    {
        is_sealed_since(&self.ledger, from, at)
    }
}

/// Whether a write was lost: power was cut before it was put.
fn is_lost(answer: &Result<Ctr, Fault>, put: bool) -> bool
    ensures { result ≡ (is_outcome_cut (outcome_of answer.now) && not put) }
{
    calls::is_cut(answer) && !put
}

/// What a fence answers that ends with this drain, after `done` drained writes that took `steps` steps.
fn ended(one: Answer, done: u8, steps: u64) -> Answer
    requires small { steps ≤ 65536 * 16 }
    requires few { steps_of one ≤ 65536 }
    requires ends { CanEndFence one }
    ensures { EndsWrites (Some done) steps one result }
{
    match one {
        Answer::Refused {
            place,
            steps: more,
            ..
        } => Answer::Refused {
            drained: Some(done),
            place,
            steps: steps + more,
        },
        Answer::Spent {
            page,
            steps: more,
            ..
        } => Answer::Spent {
            drained: Some(done),
            page,
            steps: steps + more,
        },
        Answer::CutKept { steps: more, .. } => Answer::CutKept {
            drained: Some(done),
            steps: steps + more,
        },
        Answer::CutLost { steps: more, .. } => Answer::CutLost {
            drained: Some(done),
            steps: steps + more,
        },
        Answer::Shown(exhibit) => Answer::Shown(exhibit),
        _ => unreachable!(),
    }
}
