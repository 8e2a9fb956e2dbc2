//! Notes that go on and that stop, for four pages.
ghost use Rattle.std.specs.Prelude.{◌≡◌, ◌<◌, IfOk};

use pmem_base::{Ctr, Exhibit, Geo, Line, Mark, MemFault};
use seal_ledger::{Audit, Go, Ledger};
use std::test::Fail;

const FIRST: Ctr = Ctr { major: 0, minor: 1 };

const SECOND: Ctr = Ctr { major: 1, minor: 0 };

/// Seals a line and unseals it.
fn seal_and_unseal<A: Audit>(
    audit: &mut A,
    at: u32,
    ctr: Ctr,
    cipher: &Line,
) -> Result<Go, MemFault>
    requires { at < (A.ledger audit.old).data_lines }
    ensures { IfOk result (λ go. go ≡ Go.On) }
{
    audit.reserve(1)?;
    audit.note_seal(at, ctr, cipher, &[7; 16]);
    Ok(audit.note_unseal(at, ctr, cipher, &[7; 16]))
}

/// Whether a mark is the seal of line 3 under this counter.
fn is_sealed(mark: &Mark, under: Ctr) -> bool {
    match mark {
        Mark::Begin { .. } => false,
        Mark::Seal { at, ctr, tag, .. } => *at == 3 && *ctr == under && *tag == [7; 16],
    }
}

/// Whether the marks are a seal under each counter, with the begin of page 0 between them.
fn are_told(marks: &[Mark]) -> bool {
    match marks {
        [first, Mark::Begin { page: 0 }, second] => {
            is_sealed(first, FIRST) && is_sealed(second, SECOND)
        }
        _ => false,
    }
}

#[test]
fn forged_seal_is_shown(rt: HostRuntime) -> Result<(), Fail> {
    let mut ledger = Ledger::new(rt.alloc(), &Geo::new(1, 1, 1, 1, 0)?)?;
    let old = Line([5; 64]);
    let new = Line([6; 64]);
    ledger.reserve(2)?;
    ledger.note_seal(3, FIRST, &old, &[7; 16]);
    assert_eq!(rt; ledger.note_unseal(3, FIRST, &old, &[7; 16]), Go::On);
    ledger.note_begin(0);
    assert_eq!(rt; ledger.note_unseal(3, SECOND, &new, &[9; 16]), Go::Stop);
    assert_eq!(rt; ledger.note_fetch(4, &old), Go::Stop);
    assert_eq!(rt; seal_and_unseal(&mut ledger, 3, SECOND, &new)?, Go::On);
    let forged = Exhibit::Forged {
        at: 3,
        ctr: SECOND,
        cipher: new,
        tag: [9; 16],
    };
    assert_eq!(rt; ledger.exhibit(), Some(&forged));
    assert!(rt; are_told(ledger.marks()));
    assert_eq!(rt; size_of::<Mark>(), 40);
    Ok(())
}

#[test]
fn clash_is_shown(rt: HostRuntime) -> Result<(), Fail> {
    let mut ledger = Ledger::new(rt.alloc(), &Geo::new(1, 1, 1, 1, 0)?)?;
    let line = Line([5; 64]);
    assert_eq!(rt; ledger.note_fetch(4, &Line::default()), Go::On);
    ledger.note_meta(4, &line);
    assert_eq!(rt; ledger.note_fetch(4, &line), Go::On);
    assert!(rt; ledger.exhibit().is_none());
    assert_eq!(rt; ledger.note_fetch(4, &Line::default()), Go::Stop);
    assert_eq!(rt; ledger.note_fetch(0, &line), Go::Stop);
    let clash = Exhibit::Clash {
        x: 4,
        first: Line::default(),
        second: line,
    };
    assert_eq!(rt; ledger.exhibit(), Some(&clash));
    Ok(())
}
