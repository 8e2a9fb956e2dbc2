//! What a controller asks of a board.
ghost use Rattle.std.specs.Prelude.{◌≡◌, ◌<◌, false, IfOk, OnOk, OnErr};
ghost use Rattle.board.specs.Device.{Device, IsDevice};
ghost use Rattle.board.specs.Steps.{HasRead, HasWritten, HasLatched, WasCut};

use pmem_base::{Cut, Line, Regs};

/// An untrusted device of lines, with a register file on the chip. One line write or one latch of
/// all registers is one persist step, and power may be cut between two of them.
pub trait Board {
    /// The size, the lines if the board exposes them, the registers, whether it is steady and live, the counts, and the
    /// accesses if the board exposes them.
    ghost device: { Self → Device };

    /// The number of lines.
    fn size(&self) -> u32
        ensures { result ≡ (device self.now).size };

    /// The line at a place. Errors: `Cut`, only if power is off.
    fn read_line(&mut self, at: u32) -> Result<Line, Cut>
        requires { at < (device self.old).size }
        ensures ok { IfOk result (λ line. HasRead (device self.old) at line (device self.new)) }
        ensures cut { OnErr result (WasCut (device self.old) (device self.new)) }
        ensures only_off { OnErr result ((device self.old).live ≡ false) };

    /// Writes the line at a place. `Cut` comes before the write, and nothing is written.
    fn write_line(&mut self, at: u32, line: &Line) -> Result<(), Cut>
        requires { at < (device self.old).size }
        ensures ok { OnOk result (HasWritten (device self.old) at line.now (device self.new)) }
        ensures cut { OnErr result (WasCut (device self.old) (device self.new)) };

    /// Replaces all registers at once. `Cut` comes before the latch, and no register changes.
    fn latch(&mut self, regs: &Regs) -> Result<(), Cut>
        ensures ok { OnOk result (HasLatched (device self.old) regs.now (device self.new)) }
        ensures cut { OnErr result (WasCut (device self.old) (device self.new)) };

    /// The registers.
    fn regs(&self) -> &Regs
        ensures { result.now ≡ (device self.now).regs };

    /// A law: if the board exposes its lines, their number is the size, and each has 64 bytes.
    ghost whole: { (board : Self) → IsDevice (device board) };
}
