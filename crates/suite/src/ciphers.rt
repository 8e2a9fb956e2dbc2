//! A line's cipher and its plain line.
ghost use Rattle.std.specs.Prelude.{◌≡◌};
ghost use Rattle.pmem_base.specs.Lines.{xor_lines};

use pmem_base::Line;

/// A line combined byte by byte with a pad, by exclusive or. So a plain line becomes its cipher,
/// and a cipher its plain line.
pub fn xor_lines(line: &Line, pad: &Line) -> Line
    ensures { result ≡ xor_lines line.now pad.now }
{
    let mut out = Line::default();
    for i in 0..64 {
        out.0[i] = line.0[i] ^ pad.0[i];
    }
    out
}
