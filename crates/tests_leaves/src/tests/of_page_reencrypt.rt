//! A page from its begin to its last line.
use arrayvec::ArrayVec;
use page_reencrypt::{begin, ctr_of, find_open, left, mark, next_left};
use pmem_base::{Ctr, Line, Progress};
use split_counters::{bump, unpack};
use std::test::Fail;

#[test]
fn one_page(rt: HostRuntime) -> Result<(), Fail> {
    let mut block = unpack(&Line::default());
    bump(&mut block, 1);
    let (next, mut register) = begin(&block, 2)?;
    let mut list: ArrayVec<Progress, 4> = ArrayVec::new();
    list.push(register);
    assert_eq!(rt; find_open(&list, 2), Some(0));
    assert_eq!(rt; find_open(&list, 1), None);
    assert_eq!(rt; ctr_of(&list, &next, 129), Ctr { major: 0, minor: 1 });
    for i in 0..63 {
        assert_eq!(rt; next_left(&register), Some(i));
        assert_eq!(rt; left(&register), 64 - i);
        register = mark(&register, i).ok_or("a line is left")?;
    }
    assert_eq!(rt; next_left(&register), Some(63));
    assert_eq!(rt; left(&register), 1);
    assert_eq!(rt; mark(&register, 63), None);
    let mut later: ArrayVec<Progress, 4> = ArrayVec::new();
    later.push(register);
    assert_eq!(rt; ctr_of(&later, &next, 129), Ctr { major: 1, minor: 0 });
    assert_eq!(rt; ctr_of(&later, &next, 191), Ctr { major: 0, minor: 0 });
    Ok(())
}
