//! A board in memory, watched through calls that know it only as a board.
ghost use Rattle.std.specs.Prelude.{◌≡◌, ◌<◌, ◌≤◌, ◌+◌, ℕ, true, Some, length, IfOk, OnOk, OnErr};
ghost use Rattle.std.proofs.Props.{props};
ghost use Rattle.board.specs.Memory.{BoardMemory, after_cut, new_memory};
ghost use Rattle.board.specs.MemBoard.{memory_of};
ghost use Rattle.watched_board.specs.Watching.{AreInCount, FollowsOn, IsWatched, device_during, none_taken};

use crate::numbers::is_number;
use crate::taken::Taken;
use board::{Board, MemBoard};
use pmem_base::{Cut, Line, Regs};
use std::marker::{Brand, PhantomData};

/// More steps than a call ever takes. A board that is asked for more is cut.
const STEP_LIMIT: u32 = 65_536;

/// The board as a call finds it, and the reference to it: what is true of both is written in the call's type.
/// A caller takes `Brand` and says which it means.
pub trait Start {
    ghost start: { BoardMemory };

    ghost name: { ℕ };
}

impl Start for Brand {
    ghost start = { new_memory 0 };

    ghost name = { 0 };
}

/// A board in memory within one call, which counts the line writes, latches and cuts of that call. Its
/// type keeps that the snapshot stays, that the fuse burns by a step each, and that each cut is the board's.
/// A line write or latch after 65,536 of them is cut.
#[derive(Drop)]
pub struct Watched<'a, K: Start> {
    board: &'a mut MemBoard,
    /// What was taken of the board so far.
    pub taken: Taken,
    start: PhantomData<K>,
    pub ghost follows: { FollowsOn K.start (memory_of board.now) taken } by { Prim.hlevel props },
    pub ghost in_count: { AreInCount K.start },
    pub ghost its_name: { board.ghost_name ≡ K.name },
}

/// What a call on a watched board leaves: the board, the steps taken, and the call's answer.
#[derive(Drop)]
pub struct Left<'a, T> {
    pub board: &'a mut MemBoard,
    pub taken: Taken,
    pub answer: T,
}

impl<'a, K: Start> Watched<'a, K> {
    /// The board, which has power, before the first step.
    pub fn new(board: &'a mut MemBoard) -> Watched<'a, K>
        requires start { memory_of board.old ≡ K.start }
        requires name { board.ghost_name ≡ K.name }
        requires on { (memory_of board.old).powered ≡ true }
        ensures taken { result.taken ≡ none_taken }
        ensures name { result.board.ghost_name ≡ board.entry.ghost_name }
        ensures now { memory_of result.board.now ≡ K.start }
    {
        let (_, writes, latches) = board.counts();
        is_number(writes);
        is_number(latches);
        Watched {
            board,
            taken: Taken {
                writes: 0,
                latches: 0,
                cuts: 0,
            },
            start: PhantomData,
        }
    }

    /// The board, what was taken of it, and the answer of the call.
    pub fn left<T>(self, answer: T) -> Left<'a, T>
        ensures name { result.board.ghost_name ≡ K.name }
        ensures watched { IsWatched K.start (memory_of result.board.now) result.taken }
        ensures device { device_during (memory_of result.board.now) result.taken ≡ device_during (memory_of self.entry.board.now) self.entry.taken }
        ensures answer { result.answer ≡ answer }
    {
        let Watched {
            board,
            taken,
            start: _,
        } = self;
        Left {
            board,
            taken,
            answer,
        }
    }
}

impl<K: Start> Board for Watched<'_, K> {
    ghost use Rattle.watched_board.specs.Watching.{device_during};
    ghost use Rattle.board.specs.MemBoard.{memory_of};

    ghost device = { λ w. device_during (memory_of w.board.now) w.taken };

    fn size(&self) -> u32 {
        self.board.size()
    }

    fn read_line(&mut self, at: u32) -> Result<Line, Cut> {
        match self.board.read_line(at) {
            Ok(line) => Ok(line),
            Err(cut) => {
                self.taken.cuts = self.taken.cuts.saturating_add(1);
                Err(cut)
            }
        }
    }

    fn write_line(&mut self, at: u32, line: &Line) -> Result<(), Cut> {
        if self.taken.writes + self.taken.latches >= STEP_LIMIT {
            cut_off(self.board);
            self.taken.cuts = self.taken.cuts.saturating_add(1);
            return Err(Cut);
        }
        match self.board.write_line(at, line) {
            Ok(()) => {
                self.taken.writes += 1;
                Ok(())
            }
            Err(cut) => {
                self.taken.cuts = self.taken.cuts.saturating_add(1);
                Err(cut)
            }
        }
    }

    fn latch(&mut self, regs: &Regs) -> Result<(), Cut> {
        if self.taken.writes + self.taken.latches >= STEP_LIMIT {
            cut_off(self.board);
            self.taken.cuts = self.taken.cuts.saturating_add(1);
            return Err(Cut);
        }
        match self.board.latch(regs) {
            Ok(()) => {
                self.taken.latches += 1;
                Ok(())
            }
            Err(cut) => {
                self.taken.cuts = self.taken.cuts.saturating_add(1);
                Err(cut)
            }
        }
    }

    fn regs(&self) -> &Regs {
        self.board.regs()
    }

    ghost use Rattle.std.specs.Prelude.{refl};

    ghost whole = { λ w. record { count = refl; each = w.board.now.each_line } };
}

/// Power goes off with a step due, which the board counts as a cut.
fn cut_off(board: &mut MemBoard)
    ensures { memory_of board.new ≡ after_cut (memory_of board.old) }
{
    board.off();
    match board.latch(&Regs::empty()) {
        Ok(()) => unreachable!(),
        Err(_) => {}
    }
}
