//! A board in memory, with a fuse that cuts power after a number of persist steps, and with the ways to tamper with its
//! lines.
ghost use Rattle.std.specs.Prelude.{◌≡◌, ◌<◌, ◌≤◌, ◌^◌, ◌↔◌, true, false, Some, None, All, length, IsErr, IfOk, OnOk, OnErr};
ghost use Rattle.std.specs.Option.{ForSome};
ghost use Rattle.pmem_base.specs.Lines.{IsLine, line_at};
ghost use Rattle.board.specs.Device.{AreLinesOf};
ghost use Rattle.board.specs.Memory.{new_memory, IsSpent, burnt_fuse, after_read, after_write, after_latch, after_cut, with_lines, with_line_at, flipped_line, restored_lines};

use crate::{Access, Board, GhostAccesses};
use pmem_base::{Cut, GhostLine, Line, MemFault, NoSnap, Regs};
use std::alloc::Global;

/// A board that keeps its lines in memory, and tells them.
#[derive(Drop)]
pub struct MemBoard {
    alloc: Global,
    lines: Vec<Line>,
    regs: Regs,
    powered: bool,
    fuse: Option<u64>,
    snapshot: Option<Vec<Line>>,
    reads: u64,
    writes: u64,
    latches: u64,
    cuts: u64,
    accesses: GhostAccesses,
    pub ghost in_range: { length lines.items < 2 ^ 32 },
    pub ghost each_line: { All IsLine lines.items },
    pub ghost same_size: { ForSome snapshot (λ kept. AreLinesOf (length lines.items) kept.items) },
}

impl MemBoard {
    ghost use Rattle.board.specs.MemBoard.{memory_of};

    /// Zero lines, empty registers, power on, and neither a fuse nor a snapshot. Errors: running out of memory.
    #[tactic(auto, using(crate::proofs::LineLemmas::zero_lines))]
    pub fn new(alloc: Global, size: u32) -> Result<MemBoard, MemFault>
        ensures { IfOk result (λ board. memory_of board ≡ new_memory size) }
    {
        let lines = vec![in alloc; Line::default(); size as usize]?;
        Ok(MemBoard {
            alloc,
            lines,
            regs: Regs::empty(),
            powered: true,
            fuse: None,
            snapshot: None,
            reads: 0,
            writes: 0,
            latches: 0,
            cuts: 0,
            accesses: GhostAccesses::none(),
        })
    }

    /// Sets the fuse, with power on or off: power is cut after `n` more persist steps.
    pub fn arm(&mut self, n: u64)
        ensures { memory_of self.new ≡ record (memory_of self.old) { fuse = Some n } }
    {
        self.fuse = Some(n);
    }

    /// Turns power off and clears the fuse.
    pub fn off(&mut self)
        ensures { memory_of self.new ≡ record (memory_of self.old) { powered = false; fuse = None } }
    {
        self.rest();
        self.fuse = None;
    }

    /// Turns power off and keeps the fuse.
    pub fn rest(&mut self)
        ensures { memory_of self.new ≡ record (memory_of self.old) { powered = false } }
    {
        self.powered = false;
    }

    /// Turns power on.
    pub fn power(&mut self)
        ensures { memory_of self.new ≡ record (memory_of self.old) { powered = true } }
    {
        self.powered = true;
    }

    /// Writes a line past the controller.
    #[tactic(auto, using(crate::proofs::LineLemmas::set_lines))]
    pub fn poke(&mut self, at: u32, line: &Line)
        requires { at < length (memory_of self.old).lines }
        ensures { memory_of self.new ≡ with_line_at (memory_of self.old) at line.now }
    {
        line.is_whole();
        self.lines[at as usize] = *line;
    }

    /// Turns one bit of a line past the controller: of byte `bit / 8`, the one of value
    /// `1 << (bit % 8)`.
    pub fn flip(&mut self, at: u32, bit: u16)
        requires place { at < length (memory_of self.old).lines }
        requires bit { bit < 512 }
        ensures { memory_of self.new ≡ with_line_at (memory_of self.old) at
            (flipped_line (line_at (memory_of self.old).lines at) bit) }
    {
        let mut line = self.lines[at as usize];
        line.0[usize::from(bit / 8)] ^= 1 << (bit % 8);
        self.poke(at, &line);
    }

    /// Copies the line at `from` to `to`, past the controller.
    pub fn move_line(&mut self, from: u32, to: u32)
        requires from { from < length (memory_of self.old).lines }
        requires to { to < length (memory_of self.old).lines }
        ensures { memory_of self.new ≡ with_line_at (memory_of self.old) to
            (line_at (memory_of self.old).lines from) }
    {
        self.lines[to as usize] = self.lines[from as usize];
    }

    /// Keeps a copy of all lines, instead of an earlier one. Errors: running out of memory, and then nothing changes.
    /// Only the first copy takes memory.
    pub fn snap(&mut self) -> Result<(), MemFault>
        ensures ok { OnOk result
            (memory_of self.new ≡ record (memory_of self.old) { snapshot = Some (memory_of self.old).lines }) }
        ensures err { OnErr result (memory_of self.new ≡ memory_of self.old) }
        ensures first_only { OnErr result ((memory_of self.old).snapshot ≡ None) }
    {
        match &mut self.snapshot {
            Some(kept) => kept.copy_from_slice(&self.lines),
            None => self.snapshot = Some(self.lines.to_vec(self.alloc)?),
        }
        Ok(())
    }

    /// Gives a line the bytes that it has in the snapshot. Errors: `NoSnap` if and only if there is no snapshot, and
    /// then nothing changes.
    pub fn back(&mut self, at: u32) -> Result<(), NoSnap>
        requires { at < length (memory_of self.old).lines }
        ensures none { IsErr result ↔ ((memory_of self.old).snapshot ≡ None) }
        ensures lines { memory_of self.new ≡ with_lines (memory_of self.old)
            (restored_lines (memory_of self.old).lines (memory_of self.old).snapshot at) }
    {
        let Some(kept) = &self.snapshot else {
            return Err(NoSnap);
        };
        self.lines[at as usize] = kept[at as usize];
        Ok(())
    }

    /// The line at a place, read past the controller.
    pub fn peek(&self, at: u32) -> &Line
        requires { at < length (memory_of self.now).lines }
        ensures { result.now ≡ line_at (memory_of self.now).lines at }
    {
        &self.lines[at as usize]
    }

    /// The counts of reads, line writes and latches.
    pub fn counts(&self) -> (u64, u64, u64)
        ensures { result
            ≡ ((memory_of self.now).reads, (memory_of self.now).writes, (memory_of self.now).latches) }
    {
        (self.reads, self.writes, self.latches)
    }

    /// Takes one off the fuse, or cuts power if no persist step is left.
    fn step(&mut self) -> Result<(), Cut>
        ensures cut { IsErr result ↔ IsSpent (memory_of self.old) }
        ensures ok { OnOk result
            (memory_of self.new ≡ record (memory_of self.old) { fuse = burnt_fuse (memory_of self.old).fuse }) }
        ensures err { OnErr result (memory_of self.new ≡ after_cut (memory_of self.old)) }
        ensures cuts { (memory_of self.old).cuts ≤ (memory_of self.new).cuts }
    {
        match self.fuse {
            None if self.powered => Ok(()),
            Some(left) if self.powered && left > 0 => {
                self.fuse = Some(left - 1);
                Ok(())
            }
            _ => {
                self.cut();
                Err(Cut)
            }
        }
    }

    /// Cuts power.
    fn cut(&mut self)
        ensures state { memory_of self.new ≡ after_cut (memory_of self.old) }
        ensures cuts { (memory_of self.old).cuts ≤ (memory_of self.new).cuts }
    {
        self.off();
        self.cuts = self.cuts.saturating_add(1);
    }
}

impl Board for MemBoard {
    ghost use Rattle.board.specs.Memory.{device_of};
    ghost use Rattle.board.specs.MemBoard.{memory_of};
    ghost use Rattle.std.specs.Prelude.{refl};

    ghost device = { λ board. device_of (memory_of board) };

    fn size(&self) -> u32 {
        self.lines.len() as u32
    }

    fn read_line(&mut self, at: u32) -> Result<Line, Cut>
        requires { at < length (memory_of self.old).lines }
        ensures cut { IsErr result ↔ ((memory_of self.old).powered ≡ false) }
        ensures line { IfOk result (λ line. line ≡ line_at (memory_of self.old).lines at) }
        ensures ok { OnOk result (memory_of self.new ≡ after_read (memory_of self.old) at) }
        ensures err { OnErr result (memory_of self.new ≡ after_cut (memory_of self.old)) }
        ensures reads { (memory_of self.old).reads ≤ (memory_of self.new).reads }
        ensures cuts { (memory_of self.old).cuts ≤ (memory_of self.new).cuts }
    {
        if !self.powered {
            self.cut();
            return Err(Cut);
        }
        self.reads = self.reads.saturating_add(1);
        self.accesses.note(&Access::Read { at });
        Ok(self.lines[at as usize])
    }

    fn write_line(&mut self, at: u32, line: &Line) -> Result<(), Cut>
        requires { at < length (memory_of self.old).lines }
        ensures cut { IsErr result ↔ IsSpent (memory_of self.old) }
        ensures ok { OnOk result (memory_of self.new ≡ after_write (memory_of self.old) at line.now) }
        ensures err { OnErr result (memory_of self.new ≡ after_cut (memory_of self.old)) }
        ensures writes { (memory_of self.old).writes ≤ (memory_of self.new).writes }
        ensures cuts { (memory_of self.old).cuts ≤ (memory_of self.new).cuts }
    {
        self.step()?;
        self.poke(at, line);
        self.writes = self.writes.saturating_add(1);
        self.accesses.note(&Access::Write {
            at,
            line: GhostLine::of(line),
        });
        Ok(())
    }

    fn latch(&mut self, regs: &Regs) -> Result<(), Cut>
        ensures cut { IsErr result ↔ IsSpent (memory_of self.old) }
        ensures ok { OnOk result (memory_of self.new ≡ after_latch (memory_of self.old) regs.now) }
        ensures err { OnErr result (memory_of self.new ≡ after_cut (memory_of self.old)) }
        ensures latches { (memory_of self.old).latches ≤ (memory_of self.new).latches }
        ensures cuts { (memory_of self.old).cuts ≤ (memory_of self.new).cuts }
    {
        self.step()?;
        self.regs.set(regs);
        self.latches = self.latches.saturating_add(1);
        self.accesses.note(&Access::Latch {
            armed: regs.group.len() as u32,
        });
        Ok(())
    }

    fn regs(&self) -> &Regs {
        &self.regs
    }

    ghost whole = { λ board. record { count = refl; each = board.each_line } };
}
