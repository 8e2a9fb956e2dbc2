//! A watched board whose accesses are logged.
ghost use Rattle.std.specs.Prelude.{◌≡◌, ◌<◌, ℕ, true, false, List, Option, None, length, IfOk, OnOk, OnErr};
ghost use Rattle.std.proofs.Props.{props};
ghost use Rattle.board.specs.MemBoard.{memory_of};
ghost use Rattle.board.specs.Steps.{HasRead, HasWritten, HasLatched, WasCut};
ghost use Rattle.watched_board.specs.Watching.{IsWatched, device_during, none_taken};
ghost use Rattle.board.specs.declared.access.Access.{Access};
ghost use Rattle.board.specs.declared.access.Access.TheVariants as Did;
ghost use Rattle.access_log.specs.Traced.{GoesOn, IsNoted, as_seen};

use crate::AccessLog;
use board::{Access, Board, MemBoard};
use pmem_base::{Cut, GhostLine, Line, Regs};
use std::marker::Brand;
use watched_board::{Left, Start, Watched};

/// The log as a call finds it: what is true of it is written in the call's type. A caller takes `Brand` and says
/// which it means.
pub trait Entry {
    ghost log: { Option (List Access) };
}

impl Entry for Brand {
    ghost log = { None };
}

/// A watched board within one call, whose accesses are logged if a log is kept. Its type keeps the invariant that the
/// log goes on from the board as the call found it to the board as it is.
#[derive(Drop)]
pub struct Logged<'a, K: Start + Entry> {
    watched: Watched<'a, K>,
    log: AccessLog,
    pub ghost goes_on: { GoesOn K.log K.start log (memory_of watched.board.now) } by { Prim.hlevel props },
}

impl<'a, K: Start + Entry> Logged<'a, K> {
    /// The board, which has power, before the first step, and the log that goes on.
    pub fn new(board: &'a mut MemBoard, log: AccessLog) -> Logged<'a, K>
        requires start { memory_of board.old ≡ K.start }
        requires name { board.ghost_name ≡ K.name }
        requires on { (memory_of board.old).powered ≡ true }
        requires log { log ≡ K.log }
        ensures device { as_seen result.watched.board.now result.watched.taken ≡ device_during K.start none_taken }
    {
        Logged {
            watched: Watched::new(board),
            log,
        }
    }

    /// The board, what was taken of it, and the answer of the call. The log is put in its place.
    pub fn left<T>(self, answer: T, log: &mut AccessLog) -> Left<'a, T>
        ensures name { result.board.ghost_name ≡ K.name }
        ensures watched { IsWatched K.start (memory_of result.board.now) result.taken }
        ensures device { as_seen result.board.now result.taken
            ≡ as_seen self.entry.watched.board.now self.entry.watched.taken }
        ensures log { GoesOn K.log K.start log.new (memory_of result.board.now) }
        ensures answer { result.answer ≡ answer }
    {
        let Logged { watched, log: kept } = self;
        log.put(kept);
        watched.left(answer)
    }
}

impl<K: Start + Entry> Board for Logged<'_, K> {
    ghost use Rattle.watched_board.specs.Watching.{device_during};
    ghost use Rattle.board.specs.MemBoard.{memory_of};

    ghost device = { λ l. device_during (memory_of l.watched.board.now) l.watched.taken };

    fn size(&self) -> u32 {
        self.watched.size()
    }

    fn read_line(&mut self, at: u32) -> Result<Line, Cut>
        requires { at < length (memory_of self.old.watched.board.now).lines }
        ensures ok { IfOk result (λ line. HasRead (as_seen self.old.watched.board.now self.old.watched.taken) at line
            (as_seen self.new.watched.board.now self.new.watched.taken)) }
        ensures cut { OnErr result (WasCut (as_seen self.old.watched.board.now self.old.watched.taken)
            (as_seen self.new.watched.board.now self.new.watched.taken)) }
        ensures only_off { OnErr result ((memory_of self.old.watched.board.now).powered ≡ false) }
        ensures noted { OnOk result (IsNoted self.old.log (Did.Read at) self.new.log) }
        ensures silent { OnErr result (self.new.log ≡ self.old.log) }
    {
        let line = self.watched.read_line(at)?;
        self.log.note(Access::Read { at });
        Ok(line)
    }

    fn write_line(&mut self, at: u32, line: &Line) -> Result<(), Cut>
        requires { at < length (memory_of self.old.watched.board.now).lines }
        ensures ok { OnOk result (HasWritten (as_seen self.old.watched.board.now self.old.watched.taken) at line.now
            (as_seen self.new.watched.board.now self.new.watched.taken)) }
        ensures cut { OnErr result (WasCut (as_seen self.old.watched.board.now self.old.watched.taken)
            (as_seen self.new.watched.board.now self.new.watched.taken)) }
        ensures noted { OnOk result (IsNoted self.old.log (Did.Write at line.now) self.new.log) }
        ensures silent { OnErr result (self.new.log ≡ self.old.log) }
    {
        self.watched.write_line(at, line)?;
        self.log.note(Access::Write {
            at,
            line: GhostLine::of(line),
        });
        Ok(())
    }

    fn latch(&mut self, regs: &Regs) -> Result<(), Cut>
        ensures ok { OnOk result (HasLatched (as_seen self.old.watched.board.now self.old.watched.taken) regs.now
            (as_seen self.new.watched.board.now self.new.watched.taken)) }
        ensures cut { OnErr result (WasCut (as_seen self.old.watched.board.now self.old.watched.taken)
            (as_seen self.new.watched.board.now self.new.watched.taken)) }
        ensures noted { OnOk result (IsNoted self.old.log (Did.Latch (length regs.now.group.items)) self.new.log) }
        ensures silent { OnErr result (self.new.log ≡ self.old.log) }
    {
        self.watched.latch(regs)?;
        self.log.note(Access::Latch {
            armed: regs.group.len() as u32,
        });
        Ok(())
    }

    fn regs(&self) -> &Regs {
        self.watched.regs()
    }

    ghost use Rattle.std.specs.Prelude.{refl};

    ghost whole = { λ l. record { count = refl; each = l.watched.board.now.each_line } };
}
