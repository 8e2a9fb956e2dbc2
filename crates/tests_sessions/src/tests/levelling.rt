//! Worked wears: a memory of three lines through each move of a turn, and records.
use crate::tests::equal;
use pmem_base::Line;
use start_gap::{Wear, next, place, read_wear, source, wear_line};

// Start and gap, the places of lines 0 to 2, and the place that the next move copies.
const ROWS: [(u32, u32, [u32; 3], u32); 6] = [
    (0, 3, [0, 1, 2], 2),
    (0, 2, [0, 1, 3], 1),
    (0, 1, [0, 2, 3], 0),
    (0, 0, [1, 2, 3], 3),
    (1, 3, [1, 2, 0], 2),
    (1, 2, [1, 3, 0], 1),
];

#[test]
fn moves(rt: HostRuntime) {
    let mut wear = Wear { start: 0, gap: 3 };
    for (start, gap, places, copied) in ROWS {
        equal(&rt, wear, Wear { start, gap });
        if wear.start < 3 && wear.gap <= 3 {
            let here = [place(3, &wear, 0), place(3, &wear, 1), place(3, &wear, 2)];
            equal(&rt, here, places);
            equal(&rt, source(3, &wear), copied);
            wear = next(3, &wear);
        }
    }
    let last = Wear { start: 2, gap: 0 };
    equal(&rt, next(3, &last), Wear { start: 0, gap: 3 });
}

#[test]
fn records(rt: HostRuntime) {
    let first = Wear {
        start: 0,
        gap: 1022,
    };
    equal(&rt, wear_line(1022, &first), Line::default());
    equal(&rt, read_wear(1022, &Line::default()), Some(first));
    let wear = Wear {
        start: 262_141,
        gap: 5,
    };
    let mut line = Line::default();
    line.0[1..8].copy_from_slice(&[3, 0xff, 0xfd, 0, 3, 0xff, 0xf9]);
    equal(&rt, wear_line(262_142, &wear), line);
    equal(&rt, read_wear(262_142, &line), Some(wear));
    // the start isn't below n, the gap has moved too far, and a byte behind isn't 0
    equal(&rt, read_wear(262_141, &line), None);
    equal(&rt, read_wear(4, &Line([1; 64])), None);
    let mut other = line;
    other.0[5] = 4;
    equal(&rt, read_wear(262_142, &other), None);
    other = line;
    other.0[63] = 1;
    equal(&rt, read_wear(262_142, &other), None);
}
