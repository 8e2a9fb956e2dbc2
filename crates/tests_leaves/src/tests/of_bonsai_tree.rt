//! Worked positions, paths and nodes.
use arrayvec::ArrayVec;
use bonsai_tree::{check_child, child, child_slot, level, node_of, parent, path, set_child};
use pmem_base::{Geo, Line, Tag};
use std::test::Fail;
use suite::{Counted, Suite, WeakSuite};

#[test]
fn paths(rt: HostRuntime) -> Result<(), Fail> {
    let rows: [(u8, u32, &[u32]); 4] = [
        (2, 0, &[0, 1, 5]),
        (2, 15, &[0, 4, 20]),
        (3, 0, &[0, 1, 5, 21]),
        (3, 63, &[0, 4, 20, 84]),
    ];
    for (levels, page, positions) in rows {
        let geo = Geo::new(levels, 4, 2, 4, 0)?;
        assert!(rt; page < geo.pages());
        assert_eq!(rt; path(&geo, page).as_slice(), positions);
    }
    for (x, above, slot, at_level) in [
        (1, 0, 0, 1),
        (20, 4, 3, 2),
        (21, 5, 0, 3),
        (5460, 1364, 3, 6),
    ] {
        assert!(rt; 1 <= x && x < 5461);
        assert_eq!(rt;
            (parent(x), child_slot(x), level(x)),
            (above, slot, at_level)
        );
    }
    Ok(())
}

/// Fifteen zeros and one byte.
fn short(byte: u8) -> Tag {
    let mut digest = [0; 16];
    digest[15] = byte;
    digest
}

/// The node above the lines at `first` and the three positions after it.
fn above(suite: &mut WeakSuite, first: u16, lines: &[Line; 4]) -> Line {
    let first = u32::from(first);
    node_of(&[
        suite.digest(first, &lines[0]),
        suite.digest(first + 1, &lines[1]),
        suite.digest(first + 2, &lines[2]),
        suite.digest(first + 3, &lines[3]),
    ])
}

// The tree over 16 counter blocks of zeros, and then page 0's block with its first minor 1.
#[test]
fn nodes(rt: HostRuntime) {
    let mut weak = WeakSuite::new(&[0; 16], &[0x10], false);
    let zeros = [Line::default(); 4];
    let old = above(&mut weak, 5, &zeros);
    let others = [
        above(&mut weak, 9, &zeros),
        above(&mut weak, 13, &zeros),
        above(&mut weak, 17, &zeros),
    ];
    let mut top = above(&mut weak, 1, &[old, others[0], others[1], others[2]]);
    assert_eq!(rt; weak.digest(0, &top), short(0x15));
    let mut block = Line::default();
    block.0[8] = 0x02;
    let mut node = old;
    set_child(&mut node, 0, &weak.digest(5, &block));
    set_child(&mut top, 0, &weak.digest(1, &node));
    assert_eq!(rt; weak.digest(0, &top), short(0x17));
    assert_eq!(rt;
        (child(&node, 0), child(&node, 1)),
        (short(0x06), short(0x07))
    );
    assert!(rt; check_child(&mut weak, &top, 1, &node) && check_child(&mut weak, &node, 5, &block));
    assert!(rt;
        !check_child(&mut weak, &top, 1, &old)
            && !check_child(&mut weak, &node, 5, &Line::default())
    );
    assert_eq!(rt; weak.counts(), (0, 0, 28));
}
