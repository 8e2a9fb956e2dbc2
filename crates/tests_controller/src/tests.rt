//! Each layer over a device in memory.
ghost use Rattle.std.specs.Prelude.{◌≤◌, ◌+◌};
ghost use Rattle.pmem_base.specs.Ranges.{IsPosted};

mod engine;
mod paths;
mod recovery;

use pmem_base::{Line, Posted};
use std::fmt::Debug;
use std::process::Abort;

/// Stops the test, with both values, unless they are equal. A macro is proved again at each place, and this once.
fn equal<T: PartialEq + Debug + Drop>(rt: &impl Abort, found: T, wanted: T) {
    assert_eq!(rt; found, wanted);
}

/// `len` bytes of this value at place `from` of line `at`.
fn part(at: u32, from: u8, len: u8, byte: u8) -> Posted
    requires some { 1 ≤ len }
    requires inside { from + len ≤ 64 }
    ensures { IsPosted result }
{
    let mut line = Line::default();
    let start = usize::from(from);
    let end = start + usize::from(len);
    line.0[start..end].fill(byte);
    line.is_whole();
    Posted {
        at,
        from,
        len,
        line,
    }
}
