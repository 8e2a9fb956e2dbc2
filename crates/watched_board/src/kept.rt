//! A board in memory, kept without a snapshot through calls that know it only as a board.
ghost use Rattle.std.specs.Prelude.{◌≡◌, None, All};
ghost use Rattle.pmem_base.specs.Lines.{IsLine};
ghost use Rattle.board.specs.MemBoard.{memory_of};

use crate::watched::Start;
use board::{Board, MemBoard};
use pmem_base::{Cut, Line, Regs};
use std::marker::PhantomData;

/// A board in memory within one call, which has no snapshot: its type keeps that none is made.
#[derive(Drop)]
pub struct Kept<'a, K: Start> {
    board: &'a mut MemBoard,
    start: PhantomData<K>,
    pub ghost no_snapshot: { (memory_of board.now).snapshot ≡ None },
    pub ghost its_name: { board.ghost_name ≡ K.name },
}

/// What a call on such a board leaves: the board, and the call's answer.
#[derive(Drop)]
pub struct Made<'a, T> {
    pub board: &'a mut MemBoard,
    pub answer: T,
}

impl<'a, K: Start> Kept<'a, K> {
    /// The board before the call.
    pub fn new(board: &'a mut MemBoard) -> Kept<'a, K>
        requires none { (memory_of board.old).snapshot ≡ None }
        requires name { board.ghost_name ≡ K.name }
        ensures now { memory_of result.board.now ≡ memory_of board.old }
    {
        Kept {
            board,
            start: PhantomData,
        }
    }

    /// The board, and the answer of the call.
    pub fn made<T>(self, answer: T) -> Made<'a, T>
        ensures name { result.board.ghost_name ≡ K.name }
        ensures none { (memory_of result.board.now).snapshot ≡ None }
        ensures now { memory_of result.board.now ≡ memory_of self.entry.board.now }
        ensures each_line { All IsLine (memory_of result.board.now).lines }
        ensures answer { result.answer ≡ answer }
    {
        let Kept { board, start: _ } = self;
        Made { board, answer }
    }
}

impl<K: Start> Board for Kept<'_, K> {
    ghost use Rattle.board.specs.Memory.{device_of};
    ghost use Rattle.board.specs.MemBoard.{memory_of};

    ghost device = { λ k. device_of (memory_of k.board.now) };

    fn size(&self) -> u32 {
        self.board.size()
    }

    fn read_line(&mut self, at: u32) -> Result<Line, Cut> {
        self.board.read_line(at)
    }

    fn write_line(&mut self, at: u32, line: &Line) -> Result<(), Cut> {
        self.board.write_line(at, line)
    }

    fn latch(&mut self, regs: &Regs) -> Result<(), Cut> {
        self.board.latch(regs)
    }

    fn regs(&self) -> &Regs {
        self.board.regs()
    }

    ghost use Rattle.std.specs.Prelude.{refl};

    ghost whole = { λ k. record { count = refl; each = k.board.now.each_line } };
}
