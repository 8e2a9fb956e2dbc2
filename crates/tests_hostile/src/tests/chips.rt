//! A controller over a device under the weak suite, and the device without it.
ghost use Rattle.std.specs.Prelude.{◌≡◌, ◌<◌, ◌≤◌, ◌+◌, ℕ, IfOk, IsSome, IsTrue, length};
ghost use Rattle.pmem_base.specs.Geo.{shape_of};
ghost use Rattle.pmem_base.specs.Layout.{data_lines, device_lines, meta_lines};
ghost use Rattle.pmem_base.specs.Marks.{last_seal};
ghost use Rattle.pmem_base.specs.Ranges.{IsPosted};
ghost use Rattle.pmem_base.specs.Registers.{IsValidRegs};
ghost use Rattle.pmem_base.specs.Shape.{is_loss};
ghost use Rattle.board.specs.MemBoard.{memory_of};
ghost use Rattle.seal_ledger.specs.View.{ledger_of};
ghost use Rattle.pmem_engine.specs.Calls.{IsUsable};

use crate::tests::equal;
use board::{Board, MemBoard, Tripped};
use pmem_base::{Geo, Line, Mark, Posted};
use pmem_engine::{Engine, Fault};
use pmem_recovery::{RecFault, format, recover};
use seal_ledger::{Audit, Ledger};
use std::alloc::Global;
use std::process::Abort;
use std::test::Fail;
use suite::WeakSuite;

/// A device that isn't running, with what belongs to it.
#[derive(Drop)]
pub(crate) struct Rest {
    pub(crate) geo: Geo,
    pub(crate) board: MemBoard,
    pub(crate) suite: WeakSuite,
    pub(crate) ledger: Ledger,
    pub ghost its_size: { length (memory_of board).lines ≡ device_lines (shape_of geo) },
    pub ghost its_regs: { IsValidRegs (shape_of geo) (memory_of board).regs },
    pub ghost its_truth: { length (ledger_of ledger).truth ≡ meta_lines (shape_of geo) },
    pub ghost its_lines: { (ledger_of ledger).data_lines ≡ data_lines (shape_of geo) },
    pub ghost each_sealed: { (a : ℕ) → a < data_lines (shape_of geo) → IsSome (last_seal (ledger_of ledger).marks a) },
}

/// A controller over a device.
#[derive(Drop)]
pub(crate) struct Chip<B: Board + Drop> {
    pub(crate) geo: Geo,
    pub(crate) board: B,
    pub(crate) suite: WeakSuite,
    pub(crate) ledger: Ledger,
    pub(crate) engine: Engine,
    pub ghost shape: { engine.shape ≡ shape_of geo },
    pub ghost usable: { IsUsable (shape_of geo) engine (B.device board) (ledger_of ledger) },
}

/// One call of a controller.
#[derive(Clone, Copy, Debug)]
pub(crate) enum Call {
    /// A line is written with equal bytes.
    Write {
        at: u32,
        byte: u8,
    },
    /// `len` bytes of a line are written with this one, from a place on.
    Part {
        at: u32,
        from: u8,
        len: u8,
        byte: u8,
    },
    Turn,
    Loss {
        n: u8,
    },
}

/// `len` bytes of this value at place `from` of a line.
fn part(at: u32, from: u8, len: u8, byte: u8) -> Posted
    requires some { 1 ≤ len }
    requires inside { from + len ≤ 64 }
    ensures at { result.at ≡ at }
    ensures posted { IsPosted result }
{
    let mut line = Line::default();
    let start = usize::from(from);
    let end = start + usize::from(len);
    line.0[start..end].fill(byte);
    line.is_whole();
    Posted {
        at,
        from,
        len,
        line,
    }
}

impl Rest {
    /// A formatted device of 16 pages, for banks of `sets` sets of `ways` ways.
    pub(crate) fn fresh(alloc: Global, sets: u8, ways: u8) -> Result<Rest, Fail> {
        let geo = Geo::new(2, sets, ways, 4, 0)?;
        let mut board = MemBoard::new(alloc, geo.size())?;
        let mut suite = WeakSuite::new(&[0; 16], &[0x10], false);
        let mut ledger = Ledger::new(alloc, &geo)?;
        format(alloc, &geo, &mut board, &mut suite, &mut ledger)?;
        Ok(Rest {
            geo,
            board,
            suite,
            ledger,
        })
    }

    /// Recovers the device.
    pub(crate) fn recovered(self, alloc: Global) -> Result<Chip<MemBoard>, RecFault> {
        let Rest {
            geo,
            mut board,
            mut suite,
            ledger,
        } = self;
        let (engine, _) = recover(alloc, &geo, &mut board, &mut suite, &ledger)?;
        Ok(Chip {
            geo,
            board,
            suite,
            ledger,
            engine,
        })
    }

    /// Recovers the device over a board that trips after `n` calls. The answer is whether it was done, and the device.
    pub(crate) fn recovered_tripped(self, rt: &impl Abort, alloc: Global, n: u64) -> (bool, Rest) {
        let Rest {
            geo,
            board,
            mut suite,
            ledger,
        } = self;
        let mut board = Tripped::new(board, n);
        let answer = recover(alloc, &geo, &mut board, &mut suite, &ledger);
        let fault = answer.err();
        assert!(rt; fault.is_none() || fault == Some(RecFault::Cut), "at {n}");
        let rest = Rest {
            geo,
            board: board.into_inner(),
            suite,
            ledger,
        };
        (fault.is_none(), rest)
    }
}

impl<B: Board + Drop> Chip<B> {
    /// Makes a call. The answer is why it failed, if it did.
    pub(crate) fn call(&mut self, rt: &impl Abort, call: &Call) -> Option<Fault> {
        assert!(rt; self.ledger.reserve(66).is_ok());
        match *call {
            Call::Write { at, byte } => {
                assert!(rt; at < self.geo.lines());
                let line = Line([byte; 64]);
                let answer = self.engine.write(
                    &mut self.board,
                    &mut self.suite,
                    &mut self.ledger,
                    at,
                    &line,
                );
                answer.err()
            }
            Call::Part {
                at,
                from,
                len,
                byte,
            } => {
                assert!(rt; at < self.geo.lines() && 1 <= len && len <= 64 && from <= 64 - len);
                let write = part(at, from, len, byte);
                let answer = self
                    .engine
                    .write_part(&mut self.board, &mut self.suite, &mut self.ledger, &write);
                answer.err()
            }
            Call::Turn => {
                let answer = self
                    .engine
                    .turn(&mut self.board, &mut self.suite, &mut self.ledger);
                answer.err()
            }
            Call::Loss { n } => {
                assert!(rt; matches!(n, 1 | 2 | 4 | 8 | 16));
                self.engine.set_loss(&mut self.board, n).err()
            }
        }
    }

    /// The line at this place is this one.
    pub(crate) fn has_line(&mut self, rt: &impl Abort, at: u32, plain: &Line) {
        assert!(rt; at < self.geo.lines());
        let answer = self
            .engine
            .read(&mut self.board, &mut self.suite, &mut self.ledger, at);
        assert_eq!(rt; answer, Ok(*plain), "line {at}");
    }

    /// Whether this line is sealed by one of the marks from this number on.
    pub(crate) fn seals(&self, from: usize, at: u32) -> bool {
        for mark in self.ledger.marks().iter().skip(from) {
            if matches!(mark, Mark::Seal { at: sealed, .. } if *sealed == at) {
                return true;
            }
        }
        false
    }
}

impl Chip<MemBoard> {
    /// Lets the board trip after `n` calls.
    pub(crate) fn tripped(self, n: u64) -> Chip<Tripped<MemBoard>> {
        let Chip {
            geo,
            board,
            suite,
            ledger,
            engine,
        } = self;
        Chip {
            geo,
            board: Tripped::new(board, n),
            suite,
            ledger,
            engine,
        }
    }

    /// Drops the controller.
    pub(crate) fn rested(self) -> Rest {
        let Chip {
            geo,
            board,
            suite,
            ledger,
            engine: _,
        } = self;
        Rest {
            geo,
            board,
            suite,
            ledger,
        }
    }

    /// Cuts power after `fuse` persist steps, and switches it on again after the call.
    pub(crate) fn cut_after(&mut self, rt: &impl Abort, fuse: u64, call: &Call) {
        self.board.arm(fuse);
        equal(rt, self.call(rt, call), Some(Fault::Cut));
        self.board.power();
    }
}

impl Chip<Tripped<MemBoard>> {
    /// Drops the controller, and gives the inner board back.
    pub(crate) fn rested(self) -> Rest {
        let Chip {
            geo,
            board,
            suite,
            ledger,
            engine: _,
        } = self;
        Rest {
            geo,
            board: board.into_inner(),
            suite,
            ledger,
        }
    }
}
