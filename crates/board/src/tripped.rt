//! A board that answers `Cut` after a number of calls, reads included.
ghost use Rattle.std.specs.Prelude.{◌≡◌, ◌<◌, ◌≤◌, ◌-◌, ◌↔◌, IsErr, IfOk, OnOk, OnErr};
ghost use Rattle.pmem_base.specs.Counts.{risen};
ghost use Rattle.board.specs.Steps.{HasRead, HasWritten, HasLatched};
ghost use Rattle.board.specs.Tripped.{IsDue, cuts_of, inner_of, left_of};

use crate::Board;
use pmem_base::{Cut, Line, Regs};

/// A board that passes a number of calls of `read_line`, `write_line` and `latch` to the inner board, and then answers
/// `Cut` to each of them. It is never steady and never live, and counts its own cuts.
#[derive(Drop)]
pub struct Tripped<B> {
    inner: B,
    left: u64,
    cuts: u64,
}

impl<B> Tripped<B> {
    /// Passes `n` calls.
    pub fn new(inner: B, n: u64) -> Tripped<B>
        ensures inner { inner_of result ≡ inner }
        ensures left { left_of result ≡ n }
        ensures cuts { cuts_of result ≡ 0 }
    {
        Tripped {
            inner,
            left: n,
            cuts: 0,
        }
    }

    /// Gives the inner board back.
    pub fn into_inner(self) -> B
        ensures { result ≡ inner_of self }
    {
        let Tripped {
            inner,
            left: _,
            cuts: _,
        } = self;
        inner
    }

    /// Takes one off the calls that are passed, or counts a cut if none is left.
    fn pass(&mut self) -> Result<(), Cut>
        ensures trips { IsErr result ↔ (left_of self.old ≡ 0) }
        ensures inner { inner_of self.new ≡ inner_of self.old }
        ensures left { left_of self.new ≡ left_of self.old - 1 }
        ensures ok { OnOk result (cuts_of self.new ≡ cuts_of self.old) }
        ensures err { OnErr result (cuts_of self.new ≡ risen (cuts_of self.old)) }
        ensures cuts { cuts_of self.old ≤ cuts_of self.new }
    {
        if self.left == 0 {
            return Err(self.cut());
        }
        self.left -= 1;
        Ok(())
    }

    /// Counts a cut.
    fn cut(&mut self) -> Cut
        ensures inner { inner_of self.new ≡ inner_of self.old }
        ensures left { left_of self.new ≡ left_of self.old }
        ensures rises { cuts_of self.new ≡ risen (cuts_of self.old) }
        ensures cuts { cuts_of self.old ≤ cuts_of self.new }
    {
        self.cuts = self.cuts.saturating_add(1);
        Cut
    }
}

impl<B: Board> Board for Tripped<B> {
    ghost use Rattle.std.specs.Prelude.{false};
    ghost use Rattle.board.specs.Tripped.{cuts_of, inner_of};

    ghost device = { λ board. record (B.device (inner_of board)) {
      steady = false;
      live = false;
      cuts = cuts_of board;
    } };

    fn size(&self) -> u32 {
        self.inner.size()
    }

    fn read_line(&mut self, at: u32) -> Result<Line, Cut>
        requires { at < (B.device (inner_of self.old)).size }
        ensures trips { left_of self.old ≡ 0 → IsErr result }
        ensures untouched { left_of self.old ≡ 0 → inner_of self.new ≡ inner_of self.old }
        ensures ok { IfOk result (λ line. HasRead (B.device (inner_of self.old)) at line (B.device (inner_of self.new))) }
        ensures due { OnErr result (IsDue (left_of self.old) (B.device (inner_of self.old)) (B.device (inner_of self.new))) }
        ensures left { left_of self.new ≡ left_of self.old - 1 }
        ensures uncut { OnOk result (cuts_of self.new ≡ cuts_of self.old) }
        ensures cut { OnErr result (cuts_of self.new ≡ risen (cuts_of self.old)) }
        ensures cuts { cuts_of self.old ≤ cuts_of self.new }
    {
        self.pass()?;
        match self.inner.read_line(at) {
            Ok(line) => Ok(line),
            Err(Cut) => Err(self.cut()),
        }
    }

    fn write_line(&mut self, at: u32, line: &Line) -> Result<(), Cut>
        requires { at < (B.device (inner_of self.old)).size }
        ensures trips { left_of self.old ≡ 0 → IsErr result }
        ensures untouched { left_of self.old ≡ 0 → inner_of self.new ≡ inner_of self.old }
        ensures ok { OnOk result (HasWritten (B.device (inner_of self.old)) at line.now (B.device (inner_of self.new))) }
        ensures due { OnErr result (IsDue (left_of self.old) (B.device (inner_of self.old)) (B.device (inner_of self.new))) }
        ensures left { left_of self.new ≡ left_of self.old - 1 }
        ensures uncut { OnOk result (cuts_of self.new ≡ cuts_of self.old) }
        ensures cut { OnErr result (cuts_of self.new ≡ risen (cuts_of self.old)) }
        ensures cuts { cuts_of self.old ≤ cuts_of self.new }
    {
        self.pass()?;
        match self.inner.write_line(at, line) {
            Ok(()) => Ok(()),
            Err(Cut) => Err(self.cut()),
        }
    }

    fn latch(&mut self, regs: &Regs) -> Result<(), Cut>
        ensures trips { left_of self.old ≡ 0 → IsErr result }
        ensures untouched { left_of self.old ≡ 0 → inner_of self.new ≡ inner_of self.old }
        ensures ok { OnOk result (HasLatched (B.device (inner_of self.old)) regs.now (B.device (inner_of self.new))) }
        ensures due { OnErr result (IsDue (left_of self.old) (B.device (inner_of self.old)) (B.device (inner_of self.new))) }
        ensures left { left_of self.new ≡ left_of self.old - 1 }
        ensures uncut { OnOk result (cuts_of self.new ≡ cuts_of self.old) }
        ensures cut { OnErr result (cuts_of self.new ≡ risen (cuts_of self.old)) }
        ensures cuts { cuts_of self.old ≤ cuts_of self.new }
    {
        self.pass()?;
        match self.inner.latch(regs) {
            Ok(()) => Ok(()),
            Err(Cut) => Err(self.cut()),
        }
    }

    fn regs(&self) -> &Regs {
        self.inner.regs()
    }

    ghost whole = { λ board. B.whole (inner_of board) };
}
