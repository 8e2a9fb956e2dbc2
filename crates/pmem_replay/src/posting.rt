//! Writes that are posted.
ghost use Rattle.std.specs.Prelude.{◌≡◌, ◌<◌, ◌≤◌, ◌+◌, false};
ghost use Rattle.pmem_base.specs.declared.commands.Command.TheVariants as Do;
ghost use Rattle.pmem_base.specs.Ranges.{IsPosted, IsPartLine};
ghost use Rattle.plain_model.specs.After.{posted_line, posted_part};
ghost use Rattle.pmem_replay.specs.World.{setup_of_world};
ghost use Rattle.pmem_replay.specs.Replies.{without_marks};
ghost use Rattle.pmem_replay.specs.Stepped.{HasStepped};

use crate::World;
use pmem_base::{Answer, Line, Posted};
use suite::Counted;

impl<S: Counted + Drop> World<S> {
    /// A write of a whole line waits at a port. If lines are combined it may take the place of one that waits.
    pub(crate) fn post(&mut self, port: u8, at: u64, line: &Line) -> Answer
        requires shown { self.old.shown ≡ false }
        requires port { port < 8 }
        ensures { HasStepped (setup_of_world S.formulas_of self.old) self.old (Do.Post port at line.now) (without_marks result) self.new }
    {
        if self.engine.is_none() {
            return Answer::Off;
        }
        if at >= u64::from(self.geo.lines()) {
            return Answer::Range;
        }
        let write = whole_line(at as u32, line);
        if self.ports.post(port, &write, self.geo.combines()).is_err() {
            return Answer::Full;
        }
        Answer::Ok
    }

    /// A write of `count` bytes, the first ones of `line`, waits at a port. One of 64 bytes waits as a whole line does.
    pub(crate) fn part(&mut self, port: u8, at: u64, from: u64, count: u8, line: &Line) -> Answer
        requires shown { self.old.shown ≡ false }
        requires port { port < 8 }
        requires part { IsPartLine count line.now }
        ensures { HasStepped (setup_of_world S.formulas_of self.old) self.old (Do.Part port at from count line.now) (without_marks result) self.new }
    {
        if self.engine.is_none() {
            return Answer::Off;
        }
        if at >= u64::from(self.geo.lines()) {
            return Answer::Range;
        }
        if from > u64::from(64 - count) {
            return Answer::Range;
        }
        let write = part_of_line(at as u32, from as u8, count, line);
        if self.ports.post(port, &write, self.geo.combines()).is_err() {
            return Answer::Full;
        }
        Answer::Ok
    }
}

/// A write of a whole line.
fn whole_line(at: u32, line: &Line) -> Posted
    ensures value { result ≡ posted_line at line.now }
    ensures posted { IsPosted result }
{
    line.is_whole();
    Posted {
        at,
        from: 0,
        len: 64,
        line: *line,
    }
}

/// A write of `count` bytes from the front of `line` to place `from`.
fn part_of_line(at: u32, from: u8, count: u8, line: &Line) -> Posted
    requires part { IsPartLine count line.now }
    requires inside { from + count ≤ 64 }
    ensures value { result ≡ posted_part at from count line.now }
    ensures posted { IsPosted result }
{
    let mut placed = Line::default();
    let start = usize::from(from);
    let len = usize::from(count);
    placed.0[start..start + len].copy_from_slice(&line.0[..len]);
    placed.is_whole();
    Posted {
        at,
        from,
        len: count,
        line: placed,
    }
}
