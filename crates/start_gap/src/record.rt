//! The record of a wear, which is one line: the start in bytes 0 to 3, how far the gap has moved down from
//! place n in bytes 4 to 7, the highest byte first, and 56 zeros.
ghost use Rattle.std.specs.Prelude.{◌≡◌, ◌≤◌, ◌+◌, slice_range};
ghost use Rattle.pmem_base.specs.Lines.{IsLine, from_big_endian};
ghost use Rattle.start_gap.specs.Record.{wear_record, recorded};

use crate::wear::Wear;
use pmem_base::Line;

/// The line that records a wear. Zeros record the start 0 and the gap n.
pub fn wear_line(n: u32, wear: &Wear) -> Line
    requires { wear.now.gap ≤ n }
    ensures record { result ≡ wear_record n wear.now }
    ensures whole { IsLine result }
{
    let mut bytes = [0; 64];
    bytes[..4].copy_from_slice(&wear.start.to_be_bytes());
    bytes[4..8].copy_from_slice(&(n - wear.gap).to_be_bytes());
    let line = Line(bytes);
    line.is_whole();
    line
}

/// The wear that a line records. `None` if and only if the start isn't below n, the gap has moved by more than n
/// places, or a byte from 8 on isn't 0.
pub fn read_wear(n: u32, line: &Line) -> Option<Wear>
    ensures { result ≡ recorded n line.now }
{
    line.is_whole();
    let start = number_at(line, 0);
    let moved = number_at(line, 4);
    if start >= n || moved > n {
        return None;
    }
    let wear = Wear {
        start,
        gap: n - moved,
    };
    if wear_line(n, &wear) == *line {
        Some(wear)
    } else {
        None
    }
}

// The number in the four bytes from `at` on, the highest first.
fn number_at(line: &Line, at: usize) -> u32
    requires { at + 4 ≤ 64 }
    ensures { result ≡ from_big_endian (slice_range line.now.0 at (at + 4)) }
{
    let bytes = &line.0;
    u32::from_be_bytes([bytes[at], bytes[at + 1], bytes[at + 2], bytes[at + 3]])
}
