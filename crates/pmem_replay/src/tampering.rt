//! The attacker's commands, and looks past the controller.
ghost use Rattle.std.specs.Prelude.{◌≡◌, ◌<◌, ◌≤◌, ◌-◌, IfOk, OnErr, false};
ghost use Rattle.pmem_base.specs.Counts.{last_count};
ghost use Rattle.pmem_base.specs.declared.commands.Command.TheVariants as Do;
ghost use Rattle.pmem_replay.specs.World.{setup_of_world};
ghost use Rattle.pmem_replay.specs.Replies.{without_marks};
ghost use Rattle.pmem_replay.specs.Stepped.{HasStepped, CanWantMemory};

use crate::World;
use crate::world::counts_of;
use pmem_base::{Answer, Line, MemFault, Stat};
use suite::Counted;

impl<S: Counted + Drop> World<S> {
    /// A device line is replaced.
    pub(crate) fn poke(&mut self, at: u64, line: &Line) -> Answer
        requires { self.old.shown ≡ false }
        ensures { HasStepped (setup_of_world S.formulas_of self.old) self.old (Do.Poke at line.now) (without_marks result) self.new }
    {
        if at >= u64::from(self.geo.size()) {
            return Answer::Range;
        }
        self.board.poke(at as u32, line);
        self.tampered
            .tamper(&self.geo, at as u32, false, self.engine.is_some());
        Answer::Ok
    }

    /// A bit of a device line is turned.
    pub(crate) fn flip(&mut self, at: u64, bit: u64) -> Answer
        requires { self.old.shown ≡ false }
        ensures { HasStepped (setup_of_world S.formulas_of self.old) self.old (Do.Flip at bit) (without_marks result) self.new }
    {
        if at >= u64::from(self.geo.size()) || bit > 511 {
            return Answer::Range;
        }
        self.board.flip(at as u32, bit as u16);
        self.tampered
            .tamper(&self.geo, at as u32, true, self.engine.is_some());
        Answer::Ok
    }

    /// A device line is copied to another place.
    pub(crate) fn move_line(&mut self, from: u64, to: u64) -> Answer
        requires { self.old.shown ≡ false }
        ensures { HasStepped (setup_of_world S.formulas_of self.old) self.old (Do.Move from to) (without_marks result) self.new }
    {
        let size = u64::from(self.geo.size());
        if from >= size || to >= size {
            return Answer::Range;
        }
        self.board.move_line(from as u32, to as u32);
        self.tampered
            .tamper(&self.geo, to as u32, false, self.engine.is_some());
        Answer::Ok
    }

    /// A copy of all device lines is kept. Only the first takes memory.
    pub(crate) fn snap(&mut self) -> Result<Answer, MemFault>
        requires { self.old.shown ≡ false }
        ensures stepped { IfOk result (λ answer. HasStepped (setup_of_world S.formulas_of self.old) self.old Do.Snap (without_marks answer) self.new) }
        ensures err { OnErr result (self.new ≡ self.old) }
        ensures wanting { OnErr result (CanWantMemory self.old.state Do.Snap) }
    {
        self.board.snap()?;
        Ok(Answer::Ok)
    }

    /// A device line gets the bytes of that copy.
    pub(crate) fn back(&mut self, at: u64) -> Answer
        requires { self.old.shown ≡ false }
        ensures { HasStepped (setup_of_world S.formulas_of self.old) self.old (Do.Back at) (without_marks result) self.new }
    {
        if at >= u64::from(self.geo.size()) {
            return Answer::Range;
        }
        if self.board.back(at as u32).is_err() {
            return Answer::NoSnap;
        }
        self.tampered
            .tamper(&self.geo, at as u32, false, self.engine.is_some());
        Answer::Ok
    }

    /// A device line is shown.
    pub(crate) fn peek(&self, at: u64) -> Answer
        requires { self.now.shown ≡ false }
        ensures { HasStepped (setup_of_world S.formulas_of self.now) self.now (Do.Peek at) (without_marks result) self.now }
    {
        if at >= u64::from(self.geo.size()) {
            return Answer::Range;
        }
        Answer::Raw {
            line: *self.board.peek(at as u32),
        }
    }

    /// The counts since formatting ended.
    pub(crate) fn stat(&self) -> Answer
        requires { self.now.shown ≡ false }
        ensures { HasStepped (setup_of_world S.formulas_of self.now) self.now (Do.Stat) (without_marks result) self.now }
    {
        let now = counts_of(&self.board, &self.suite);
        let (writes, latches) = steps_told(&now, &self.start, self.steps);
        Answer::Counts(Stat {
            reads: now.reads.saturating_sub(self.start.reads),
            writes,
            latches,
            tags: now.tags.saturating_sub(self.start.tags),
            digests: now.digests.saturating_sub(self.start.digests),
        })
    }
}

/// Line writes and latches since formatting ended. A count at its end tells nothing any more; then all
/// steps are answered as line writes.
fn steps_told(now: &Stat, start: &Stat, steps: u64) -> (u64, u64)
    ensures exact { now.now.writes < last_count → now.now.latches < last_count → result ≡ (now.now.writes - start.now.writes, now.now.latches - start.now.latches) }
    ensures all_writes { last_count ≤ now.now.writes → result ≡ (steps, 0) }
    ensures all_latches { last_count ≤ now.now.latches → result ≡ (steps, 0) }
{
    if now.writes == u64::MAX || now.latches == u64::MAX {
        return (steps, 0);
    }
    (
        now.writes.saturating_sub(start.writes),
        now.latches.saturating_sub(start.latches),
    )
}
