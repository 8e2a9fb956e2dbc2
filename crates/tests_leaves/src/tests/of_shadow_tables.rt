//! Entries through naming and reading, for 16 pages and 8 slots a bank.
use pmem_base::Geo;
use shadow_tables::*;
use std::test::Fail;

#[test]
fn entries_named_and_read(rt: HostRuntime) -> Result<(), Fail> {
    let geo = Geo::new(2, 4, 2, 4, 0)?;
    let mut mirror = Mirror::new(rt.alloc(), &geo)?;
    let (at, line) = mirror.name_slot(&geo, 2, 3, 7).ok_or("named before")?;
    assert_eq!(rt; (at, line.0[14], line.0[15]), (1301, 0, 8));
    assert!(rt; mirror.name_slot(&geo, 2, 3, 7).is_none());
    let (at, line) = mirror.name_slot(&geo, 1, 3, 2).ok_or("named before")?;
    assert_eq!(rt; (at, line.0[46], line.0[47]), (1302, 0, 3));
    assert_eq!(rt; (entry(&line, 11), entry(&line, 3)), (Some(2), None));
    assert_eq!(rt;
        [
            named(&geo, 2, 4),
            named(&geo, 2, 5),
            named(&geo, 2, 20),
            named(&geo, 2, 21),
            named(&geo, 0, 4),
            named(&geo, 1, 5),
        ],
        [false, true, true, false, true, false]
    );
    Ok(())
}
