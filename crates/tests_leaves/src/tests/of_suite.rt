//! Worked pads, tags and digests, and the counts of their calls.
use pmem_base::{Ctr, Line, Tag};
use suite::{AesSuite, Counted, Suite, WeakSuite, xor_lines};

/// Bytes from `first` on, each one greater than the last.
fn rising<const N: usize>(first: u8) -> [u8; N] {
    let mut bytes = [first; N];
    let mut byte = first;
    for i in 0..N {
        bytes[i] = byte;
        byte = byte.wrapping_add(1);
    }
    bytes
}

/// Fifteen zeros and one byte.
fn short(byte: u8) -> Tag {
    let mut tag = [0; 16];
    tag[15] = byte;
    tag
}

fn counter(major: u64, minor: u8) -> Ctr {
    Ctr { major, minor }
}

/// The cipher and the tag of a plain line.
fn sealed<S: Suite>(suite: &mut S, at: u32, ctr: Ctr, plain: &Line) -> (Line, Tag) {
    let cipher = xor_lines(plain, &suite.pad(at, ctr));
    let tag = suite.tag(at, ctr, &cipher);
    (cipher, tag)
}

#[test]
fn weak_values(rt: HostRuntime) {
    let (key, tag_key): ([u8; 16], [u8; 32]) = (rising(0x00), rising(0x10));
    let mut weak = WeakSuite::new(&key, &tag_key, false);
    let mut blur = WeakSuite::new(&key, &tag_key, true);
    assert_eq!(rt; weak.pad(0, counter(0, 0)), Line(rising(0)));
    assert_eq!(rt; weak.digest(0, &Line::default()), short(0x01));
    let mut first_is_one = Line::default();
    first_is_one.0[0] = 1;
    assert_eq!(rt; weak.digest(5, &first_is_one), short(0x05));
    // Zero lines sealed: the line, the counter, the cipher's first byte, the tags of weak and blur.
    let rows = [
        (0, counter(0, 1), 0x01, 0x51, 0x50),
        (0, counter(0, 2), 0x02, 0x12, 0x11),
        (0, counter(0, 3), 0x03, 0x53, 0x51),
        (64, counter(0, 1), 0x41, 0x91, 0x90),
        (63, counter(1, 0), 0x40, 0x2e, 0x2e),
        (4032, counter(0, 1), 0xc1, 0x1e, 0x1f),
    ];
    for (at, ctr, first, tag, blurred) in rows {
        let cipher = Line(rising(first));
        assert_eq!(rt;
            sealed(&mut weak, at, ctr, &Line::default()),
            (cipher, short(tag))
        );
        assert_eq!(rt; blur.tag(at, ctr, &cipher), short(blurred));
    }
    assert_eq!(rt; (weak.counts(), blur.counts()), ((7, 6, 2), (0, 6, 0)));
}

#[test]
fn aes_values(rt: HostRuntime) {
    // By OpenSSL and by Python's hashlib and hmac.
    let pad = Line([
        0x29, 0xfc, 0x41, 0x7f, 0x02, 0x81, 0xa2, 0x0e, 0x37, 0xb5, 0x25, 0xa8, 0xcb, 0x71, 0x8a,
        0xdb, 0xc0, 0x16, 0xaa, 0x33, 0x94, 0xa0, 0x0e, 0x38, 0xf0, 0x52, 0x18, 0x6d, 0xab, 0xba,
        0xcb, 0x71, 0xdb, 0x49, 0xf2, 0x5f, 0x20, 0x9a, 0x58, 0xbe, 0xf0, 0x59, 0x33, 0x8d, 0xf5,
        0xcd, 0xe8, 0x90, 0x4e, 0xcf, 0x4d, 0xf6, 0x2f, 0xb6, 0xa3, 0xd0, 0x31, 0xed, 0x08, 0xc8,
        0xb0, 0xcb, 0xab, 0xab,
    ]);
    let tag = [
        0xcb, 0xf2, 0x5d, 0xc6, 0x9f, 0xb2, 0x05, 0xbd, 0x54, 0x70, 0x14, 0x7d, 0xc0, 0x6d, 0xae,
        0xad,
    ];
    let digest = [
        0x46, 0x78, 0x35, 0xff, 0x9b, 0x1e, 0xb7, 0x7b, 0xd6, 0xe2, 0x2b, 0xb4, 0xef, 0xee, 0xf8,
        0xa2,
    ];
    let (key, tag_key): ([u8; 16], [u8; 32]) = (rising(0x00), rising(0x10));
    let mut aes = AesSuite::new(&key, &tag_key);
    let line = Line(rising(1));
    let (at, ctr) = (0x0001_0203, counter(0x0102_0304_0506_0708, 0x79));
    assert_eq!(rt;
        sealed(&mut aes, at, ctr, &xor_lines(&line, &pad)),
        (line, tag)
    );
    assert_eq!(rt; aes.digest(0x554, &line), digest);
    assert_eq!(rt; aes.counts(), (1, 1, 1));
}
