//! Writes waiting at two ports, and parts of one line over each other.
ghost use Rattle.std.specs.Prelude.{◌≤◌, ◌+◌};
ghost use Rattle.pmem_base.specs.Ranges.{IsPosted};

use pmem_base::{Line, Posted};
use std::test::Fail;
use write_ports::*;

/// `len` bytes of this value at place `from` of line `at`.
fn part(at: u32, from: u8, len: u8, byte: u8) -> Posted
    requires some { 1 ≤ len }
    requires inside { from + len ≤ 64 }
    ensures { IsPosted result }
{
    let mut line = Line::default();
    let start = usize::from(from);
    let end = start + usize::from(len);
    line.0[start..end].fill(byte);
    line.is_whole();
    Posted {
        at,
        from,
        len,
        line,
    }
}

#[test]
fn parts_over_each_other(rt: HostRuntime) -> Result<(), Fail> {
    let mut ports = Ports::new();
    assert!(rt; ports.post(3, &part(5, 0, 4, 0x11), false).is_ok());
    assert!(rt; ports.post(3, &part(6, 0, 64, 0x22), false).is_ok());
    assert!(rt; ports.post(3, &part(5, 2, 4, 0x33), false).is_ok());
    assert!(rt; ports.post(3, &part(5, 60, 4, 0x44), false).is_ok());
    let seen = ports.look(3, 5);
    assert_eq!(rt; seen.mask, 0xf000_0000_0000_003f);
    let line = overlay(&Line([0xee; 64]), &seen);
    let front = [0x11, 0x11, 0x33, 0x33, 0x33, 0x33, 0xee];
    assert_eq!(rt; &line.0[..7], front.as_slice());
    let back = [0xee, 0x44, 0x44, 0x44, 0x44];
    assert_eq!(rt; &line.0[59..], back.as_slice());
    assert_eq!(rt; ports.look(3, 6).mask, u64::MAX);
    assert_eq!(rt; (ports.look(2, 5).mask, ports.waiting(3)), (0, 4));
    Ok(())
}
