//! Worked counter blocks.
use pmem_base::{Line, Spent};
use split_counters::{Block, Bumped, bump, pack, roll, unpack};

// A minor raised once in a block of zeros, and the one byte of its line that isn't 0.
#[test]
fn layout(rt: HostRuntime) {
    for (minor, place, byte) in [(0_u8, 8_usize, 0x02_u8), (5, 13, 0x40), (63, 63, 0x01)] {
        let mut block = unpack(&Line::default());
        assert_eq!(rt; bump(&mut block, minor % 64), Bumped::Done);
        let mut line = Line::default();
        line.0[place % 64] = byte;
        assert_eq!(rt; pack(&block), line);
        assert_eq!(rt; unpack(&line), block);
    }
}

#[test]
fn last_minor(rt: HostRuntime) {
    let mut line = Line([0xff; 64]);
    line.0[7] = 0xfe;
    let full = unpack(&line);
    assert_eq!(rt;
        full,
        Block {
            major: u64::MAX - 1,
            minors: [127; 64]
        }
    );
    let mut block = full;
    assert_eq!(rt; bump(&mut block, 9), Bumped::Overflow);
    assert_eq!(rt; block, full);
    let next = Block {
        major: u64::MAX,
        minors: [0; 64],
    };
    assert_eq!(rt; roll(&block, 7), Ok(next));
    assert_eq!(rt; roll(&next, 7), Err(Spent { page: 7 }));
}
