//! Worked windows and trials.
use pmem_base::Line;
use stop_loss::{Found, due, find, window};
use suite::{Counted, WeakSuite};

#[test]
fn windows(rt: HostRuntime) {
    assert_eq!(rt; window(5, 4), (5, 7));
    assert_eq!(rt; window(9, 1), (9, 9));
    assert_eq!(rt; window(127, 16), (127, 127));
    assert!(rt; due(8, 4));
    assert!(rt; !due(9, 4));
}

// Line 0 under major 0 and the cipher 01 to 40 hex. Under the weak suite a minor m has the tag 50 hex
// xor m, under its blur form 50 hex xor m/2.
#[test]
fn trials(rt: HostRuntime) {
    let mut cipher = Line::default();
    for i in 0..64_u8 {
        cipher.0[usize::from(i)] = i + 1;
    }
    let rows = [
        (false, (0_u8, 3_u8), 0x51_u8, Found::One(1), 4_u64),
        (false, (2, 3), 0x51, Found::Nothing, 2),
        (false, (3, 1), 0x51, Found::Nothing, 0),
        (true, (0, 3), 0x50, Found::Twin(0, 1), 4),
        (true, (1, 3), 0x50, Found::One(1), 3),
    ];
    for (blur, (first, last), byte, found, tries) in rows {
        let mut suite = WeakSuite::new(&[0; 16], &[0x10], blur);
        let mut tag = [0; 16];
        tag[15] = byte;
        assert_eq!(rt;
            find(&mut suite, 0, 0, (first, last % 128), &cipher, &tag),
            found
        );
        assert_eq!(rt; suite.counts(), (0, tries, 0));
    }
}
