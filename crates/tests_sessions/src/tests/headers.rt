//! Worked headers of transactions.
use crate::tests::equal;
use line_txn::{header_line, read_header};
use pmem_base::Line;

#[test]
fn headers_are_read_back(rt: HostRuntime) {
    equal(&rt, header_line(&[]), Line::default());
    assert!(rt; read_header(1, &Line::default()).is_some_and(|targets| targets.is_empty()));
    let mut line = Line::default();
    line.0[0] = 2;
    line.0[4..12].copy_from_slice(&[0, 3, 0xff, 0xef, 0, 0, 1, 0]);
    let targets = [262_127, 256];
    equal(&rt, header_line(&targets), line);
    assert!(rt;
        read_header(262_128, &line).is_some_and(|read| read.as_slice() == targets.as_slice())
    );
    let most = [14, 13, 12, 11, 10, 9, 8, 7, 6, 5, 4, 3, 2, 1, 0];
    assert!(rt;
        read_header(15, &header_line(&most)).is_some_and(|read| read.as_slice() == most.as_slice())
    );
}

#[test]
fn other_lines_are_refused(rt: HostRuntime) {
    let line = header_line(&[0, 64]);
    // a target isn't below n
    assert!(rt; read_header(64, &line).is_none());
    // two targets are equal
    assert!(rt; read_header(1008, &header_line(&[5, 5])).is_none());
    // the count is above 15, and one that leaves a target out
    for count in [16, 1] {
        let mut other = line;
        other.0[0] = count;
        assert!(rt; read_header(1008, &other).is_none());
    }
    // another byte isn't 0
    for at in [1, 3, 12, 63] {
        let mut other = line;
        if at < 64 {
            other.0[at] = 1;
        }
        assert!(rt; read_header(1008, &other).is_none());
    }
}
