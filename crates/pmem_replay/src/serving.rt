//! Commands that the engine serves.
ghost use Rattle.std.specs.Prelude.{◌≡◌, ◌<◌, false, Some, IfOk, OnErr};
ghost use Rattle.pmem_base.specs.declared.commands.Command.TheVariants as Do;
ghost use Rattle.pmem_base.specs.Shape as shape;
ghost use Rattle.pmem_base.specs.Layout.{data_lines, meta_lines};
ghost use Rattle.pmem_base.specs.WaitingWrites.{queue_of, writes_to};
ghost use Rattle.plain_model.specs.State.{with_flag};
ghost use Rattle.plain_model.specs.After.{after_clean};
ghost use Rattle.access_log.specs.Traced.{GoesOn};
ghost use Rattle.pmem_replay.specs.World.{setup_of_world};
ghost use Rattle.pmem_replay.specs.Logged.{IsLogKept};
ghost use Rattle.pmem_replay.specs.Replies.{without_marks, with_marks_since};
ghost use Rattle.pmem_replay.specs.Stepped.{HasStepped, CanWantMemory};
ghost use Rattle.pmem_replay.specs.EngineCalls.{IsOverlayOf, IsCleanIn, IsCleanAt};

use crate::World;
use crate::calls::{FlushBlock, ReadLine, SetLoss, TurnPage};
use access_log::AccessLog;
use board::Board;
use pmem_base::{Answer, MemFault};
use suite::Counted;
use watched_board::is_byte;
use write_ports::{Seen, overlay};

impl<S: Counted + Drop> World<S> {
    /// How many data lines there are.
    fn lines(&self) -> u32
        ensures { result ≡ data_lines self.now.shape }
    {
        self.geo.lines()
    }

    /// What the port's waiting writes to data line `at` show of it.
    fn look(&self, port: u8, at: u32) -> Seen
        requires { port < 8 }
        ensures { IsOverlayOf (writes_to (queue_of self.now.state.queues port) at) result }
    {
        self.ports.look(port, at)
    }

    /// A data line as the port sees it.
    pub(crate) fn read(&mut self, port: u8, at: u64, log: &mut AccessLog) -> Answer
        requires shown { self.old.shown ≡ false }
        requires port { port < 8 }
        ensures stepped { HasStepped (setup_of_world S.formulas_of self.old) self.old (Do.Read port at) (without_marks result) self.new }
        ensures logged { GoesOn log.old self.old.board log.new self.new.board }
        ensures kept { IsLogKept self.old.shape self.old.state (Do.Read port at) log.old log.new }
    {
        self.holds();
        if !self.is_on() {
            return Answer::Off;
        }
        if at >= u64::from(self.lines()) {
            return Answer::Range;
        }
        let seen = self.look(port, at as u32);
        if seen.mask == u64::MAX {
            seen.line.is_whole();
            return Answer::Got {
                line: seen.line,
                steps: 0,
            };
        }
        let done = self.call(&ReadLine { at: at as u32 }, log);
        let steps = done.taken.steps();
        match done.answer {
            Ok(line) => {
                line.is_whole();
                Answer::Got {
                    line: overlay(&line, &seen),
                    steps,
                }
            }
            Err(fault) => self.stopped(fault, None, steps),
        }
    }

    /// Reseals one line of the oldest page under re-encryption. Its seal has the minor 0, so it leaves no block dirty.
    pub(crate) fn turn(&mut self, log: &mut AccessLog) -> Result<Answer, MemFault>
        requires { self.old.shown ≡ false }
        ensures stepped { IfOk result (λ answer. HasStepped (setup_of_world S.formulas_of self.old) self.old Do.Turn (with_marks_since self.old self.new answer) self.new) }
        ensures err { OnErr result (self.new ≡ self.old) }
        ensures wanting { OnErr result (CanWantMemory self.old.state Do.Turn) }
        ensures logged { GoesOn log.old self.old.board log.new self.new.board }
        ensures kept { IsLogKept self.old.shape self.old.state Do.Turn log.old log.new }
    {
        self.holds();
        if !self.is_on() {
            return Ok(Answer::Off);
        }
        self.make_room(1)?;
        let done = self.call(&TurnPage, log);
        let steps = done.taken.steps();
        match done.answer {
            Ok(None) => Ok(Answer::Idle),
            Ok(Some(turned)) => {
                let left = turned.1;
                is_byte(left);
                Ok(Answer::Turned { left, steps })
            }
            Err(fault) => Ok(self.stopped(fault, None, steps)),
        }
    }

    /// The oldest dirty block is written back.
    pub(crate) fn flush(&mut self, log: &mut AccessLog) -> Answer
        requires { self.old.shown ≡ false }
        ensures stepped { HasStepped (setup_of_world S.formulas_of self.old) self.old Do.Flush (without_marks result) self.new }
        ensures logged { GoesOn log.old self.old.board log.new self.new.board }
        ensures kept { IsLogKept self.old.shape self.old.state Do.Flush log.old log.new }
    {
        self.holds();
        if !self.is_on() {
            return Answer::Off;
        }
        let done = self.call(&FlushBlock, log);
        let steps = done.taken.steps();
        match done.answer {
            Ok(None) => {
                self.note_clean();
                Answer::Clean
            }
            Ok(Some(x)) => {
                self.note_flushed(x);
                Answer::Flushed { x, steps }
            }
            Err(fault) => self.stopped(fault, None, steps),
        }
    }

    /// No block is dirty.
    fn note_clean(&mut self)
        requires shown { self.old.shown ≡ false }
        requires clean { IsCleanIn self.old.shape self.old.engine }
        ensures { self.new ≡ record (self.old) { state = after_clean self.old.shape self.old.state } }
    {
        self.dirtied.clean();
    }

    /// The block at `x` was written back.
    fn note_flushed(&mut self, x: u32)
        requires shown { self.old.shown ≡ false }
        requires within { x < meta_lines self.old.shape }
        requires clean { IsCleanAt self.old.shape self.old.engine x }
        ensures { self.new ≡ record (self.old) { state = record (self.old.state) { flushed = with_flag self.old.state.flushed x } } }
    {
        self.dirtied.flush(x);
    }

    /// The stop-loss number of the registers.
    fn loss_now(&self) -> u8
        ensures { result ≡ self.now.state.loss }
    {
        self.board.regs().loss
    }

    /// The stop-loss number is set.
    pub(crate) fn loss(&mut self, n: u64, log: &mut AccessLog) -> Answer
        requires { self.old.shown ≡ false }
        ensures stepped { HasStepped (setup_of_world S.formulas_of self.old) self.old (Do.Loss n) (without_marks result) self.new }
        ensures logged { GoesOn log.old self.old.board log.new self.new.board }
        ensures kept { IsLogKept self.old.shape self.old.state (Do.Loss n) log.old log.new }
    {
        self.holds();
        if !self.is_on() {
            return Answer::Off;
        }
        if !is_loss(n) {
            return Answer::Range;
        }
        if n == u64::from(self.loss_now()) {
            return Answer::LossSet { steps: 0 };
        }
        let done = self.call(&SetLoss { n: n as u8 }, log);
        let steps = done.taken.steps();
        match done.answer {
            Ok(_) => Answer::LossSet { steps },
            Err(fault) => self.stopped(fault, None, steps),
        }
    }
}

/// Whether a stop-loss number is one that can be set.
fn is_loss(n: u64) -> bool
    ensures { result ≡ shape.is_loss n }
{
    n == 1 || n == 2 || n == 4 || n == 8 || n == 16
}
