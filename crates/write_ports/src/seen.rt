//! What a port's waiting writes show of a line.
ghost use Rattle.std.specs.Prelude.{◌≡◌, ◌<◌, ◌||◌, ℕ, [], ◌∷◌, if◌then◌else◌};
ghost use Rattle.pmem_base.specs.Lines.{IsLine};
ghost use Rattle.pmem_base.specs.Ranges.{IsPosted};
ghost use Rattle.pmem_base.specs.WaitingWrites.{put_write, put_writes, writes_to, has_byte};
ghost use Rattle.write_ports.specs.Queues.{have_byte};
ghost use Rattle.write_ports.specs.Seen.{is_seen, overlaid, overlaid_byte};

use pmem_base::{Line, Posted};

/// The bytes of a line that waiting writes have: bit i of `mask` is set if byte i is one of them, and byte i of `line`
/// is then the newest; the other bytes of `line` are 0.
#[derive(Clone, Copy, Debug, PartialEq, Eq, Default)]
pub struct Seen {
    pub mask: u64,
    pub line: Line,
}

impl Seen {
    /// With the bytes of a newer write to the same line.
    fn with(&self, write: &Posted) -> Seen
        requires { IsPosted write.now }
        ensures line { result.line ≡ put_write self.now.line write.now }
        ensures mask { (i : ℕ) → i < 64 → is_seen result i ≡ (is_seen self.now i || has_byte write.now i) }
    {
        let from = usize::from(write.from);
        let end = from + usize::from(write.len);
        let mut line = self.line;
        line.0[from..end].copy_from_slice(&write.line.0[from..end]);
        let bits = (u64::MAX >> (64 - write.len)) << write.from;
        Seen {
            mask: self.mask | bits,
            line,
        }
    }

    /// With the bytes of a newer write, if it is one to line `at`.
    pub(crate) fn then(&self, write: &Posted, at: u32) -> Seen
        requires { IsPosted write.now }
        ensures line { result.line ≡ put_writes self.now.line (writes_to (write.now ∷ []) at) }
        ensures mask { (i : ℕ) → i < 64
            → is_seen result i ≡ (is_seen self.now i || have_byte (writes_to (write.now ∷ []) at) i) }
    {
        if write.at == at {
            self.with(write)
        } else {
            *self
        }
    }

    /// Byte `i` of a line with the bytes that were seen over its own.
    fn byte_over(&self, line: &Line, i: u8) -> u8
        requires { i < 64 }
        ensures { result ≡ overlaid_byte line.now self.now i }
    {
        if (self.mask >> i) & 1 == 1 {
            self.line.0[usize::from(i)]
        } else {
            line.0[usize::from(i)]
        }
    }
}

/// The line with the bytes that were seen over its own.
pub fn overlay(line: &Line, seen: &Seen) -> Line
    ensures value { result ≡ overlaid line.now seen.now }
    ensures whole { IsLine result }
{
    let mut bytes = line.0;
    'bytes: for i in 0..64_u8 {
        bytes[usize::from(i)] = seen.byte_over(line, i);
    }
    let overlaid = Line(bytes);
    overlaid.is_whole();
    overlaid
}
