//! Laws: a number is in the range of its type.
ghost use Rattle.std.specs.Prelude.{◌<◌, ◌^◌};

/// A law: a number of 8 bits is in its range.
pub fn is_byte(n: u8)
    ensures { n < 2 ^ 8 }
{
    let _ = n;
}

/// A law: a number of 64 bits is in its range.
pub fn is_number(n: u64)
    ensures { n < 2 ^ 64 }
{
    let _ = n;
}
