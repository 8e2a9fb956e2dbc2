//! Calls of the engine and of recovery over a board that trips after each number of calls, reads included.
use super::chips::{Call, Chip, Rest};
use board::MemBoard;
use pmem_base::Line;
use pmem_engine::Fault;
use std::alloc::Global;
use std::process::Abort;
use std::test::Fail;

/// A device, which lines of it are written how often before the call, the call, after how many calls of
/// the board it is whole, and after how many the line is there that it writes.
#[derive(Clone, Copy)]
struct Row {
    banks: (u8, u8),
    before: [(u32, u8); 5],
    call: Call,
    calls: u64,
    kept: u64,
}

/// No call of the board makes a line be there.
const NEVER: u64 = u64::MAX;

/// Writes a line `times` times, each time with another byte, and notes the last one.
fn wear(rt: &impl Abort, chip: &mut Chip<MemBoard>, lines: &mut [Line], at: u32, times: u8) {
    for n in 0..times {
        let byte = n.wrapping_add(1);
        let call = Call::Write { at, byte };
        assert!(rt; chip.call(rt, &call).is_none());
        put(lines, at, Line([byte; 64]));
    }
}

/// Notes a line.
fn put(lines: &mut [Line], at: u32, line: Line) {
    if let Some(place) = lines.get_mut(at as usize) {
        *place = line;
    }
}

/// Notes what the call writes.
fn put_written(lines: &mut [Line], call: &Call) {
    match *call {
        Call::Write { at, byte } => put(lines, at, Line([byte; 64])),
        Call::Part {
            at,
            from,
            len,
            byte,
        } => {
            let mut line = lines.get(at as usize).copied().unwrap_or_default();
            let bytes = line
                .0
                .iter_mut()
                .skip(usize::from(from))
                .take(usize::from(len));
            for place in bytes {
                *place = byte;
            }
            put(lines, at, line);
        }
        _ => {}
    }
}

/// The line that the call writes.
fn written(call: &Call) -> Option<u32> {
    match *call {
        Call::Write { at, .. } => Some(at),
        Call::Part { at, .. } => Some(at),
        _ => None,
    }
}

/// A controller over a device whose lines were written as the row says.
fn worn(
    rt: &impl Abort,
    alloc: Global,
    row: &Row,
    lines: &mut [Line],
) -> Result<Chip<MemBoard>, Fail> {
    let (sets, ways) = row.banks;
    let Ok(mut chip) = Rest::fresh(alloc, sets, ways)?.recovered(alloc) else {
        return Err(Fail::new("not recovered"));
    };
    for (at, times) in row.before {
        wear(rt, &mut chip, lines, at, times);
    }
    Ok(chip)
}

/// Recovers the device and reads all its lines.
fn mend_and_read(rt: &impl Abort, alloc: Global, rest: Rest, lines: &[Line]) -> Result<(), Fail> {
    let Ok(mut chip) = rest.recovered(alloc) else {
        return Err(Fail::new("not recovered"));
    };
    for at in 0..chip.geo.lines() {
        let plain = lines.get(at as usize).copied().unwrap_or_default();
        chip.has_line(rt, at, &plain);
    }
    Ok(())
}

/// Makes the row's call over a board that trips after `n` calls, recovers over the inner one, and reads
/// all lines: the write is whole from the row's number on, and else absent. The answer is whether the
/// call was done.
fn call_tripped(rt: &impl Abort, alloc: Global, row: &Row, n: u64) -> Result<bool, Fail> {
    let mut lines = vec![in alloc; Line::default(); 1024]?;
    let mut chip = worn(rt, alloc, row, &mut lines)?.tripped(n);
    let from = chip.ledger.marks().len();
    let fault = chip.call(rt, &row.call);
    assert!(rt; fault.is_none() || fault == Some(Fault::Cut), "at {n}");
    if let Some(at) = written(&row.call) {
        assert_eq!(rt; chip.seals(from, at), n >= row.kept, "at {n}");
    }
    if n >= row.kept {
        put_written(&mut lines, &row.call);
    }
    mend_and_read(rt, alloc, chip.rested(), &lines)?;
    Ok(fault.is_none())
}

/// Each number of calls up to the one at which the call is whole.
fn trip_each(rt: &impl Abort, alloc: Global, row: &Row) -> Result<(), Fail> {
    for n in 0..row.calls {
        assert!(rt; !call_tripped(rt, alloc, row, n)?, "at {n}");
    }
    assert!(rt; call_tripped(rt, alloc, row, row.calls)?);
    Ok(())
}

#[test]
fn calls_of_the_engine_trip(rt: HostRuntime) -> Result<(), Fail> {
    let none = (0, 0);
    // The path isn't cached: it is fetched and named.
    trip_each(
        &rt,
        rt.alloc(),
        &Row {
            banks: (4, 2),
            before: [none, none, none, none, none],
            call: Call::Write { at: 0, byte: 0xee },
            calls: 11,
            kept: 8,
        },
    )?;
    // Dirty blocks give way to the path.
    trip_each(
        &rt,
        rt.alloc(),
        &Row {
            banks: (1, 1),
            before: [(0, 1), none, none, none, none],
            call: Call::Write {
                at: 960,
                byte: 0xee,
            },
            calls: 11,
            kept: 8,
        },
    )?;
    // The minor overflows, and the page is begun.
    trip_each(
        &rt,
        rt.alloc(),
        &Row {
            banks: (4, 2),
            before: [(0, 127), none, none, none, none],
            call: Call::Write { at: 0, byte: 0xee },
            calls: 8,
            kept: 5,
        },
    )?;
    trip_each(
        &rt,
        rt.alloc(),
        &Row {
            banks: (1, 1),
            before: [(0, 127), (960, 1), none, none, none],
            call: Call::Write { at: 0, byte: 0xee },
            calls: 14,
            kept: 11,
        },
    )?;
    // A few bytes.
    trip_each(
        &rt,
        rt.alloc(),
        &Row {
            banks: (4, 2),
            before: [none, none, none, none, none],
            call: Call::Part {
                at: 0,
                from: 3,
                len: 2,
                byte: 0x77,
            },
            calls: 13,
            kept: 10,
        },
    )?;
    trip_each(
        &rt,
        rt.alloc(),
        &Row {
            banks: (4, 2),
            before: [(0, 1), none, none, none, none],
            call: Call::Part {
                at: 0,
                from: 3,
                len: 2,
                byte: 0x77,
            },
            calls: 7,
            kept: 4,
        },
    )?;
    trip_each(
        &rt,
        rt.alloc(),
        &Row {
            banks: (4, 2),
            before: [(0, 128), none, none, none, none],
            call: Call::Turn,
            calls: 6,
            kept: NEVER,
        },
    )?;
    // Three counter blocks are dirty.
    trip_each(
        &rt,
        rt.alloc(),
        &Row {
            banks: (4, 2),
            before: [(0, 1), (64, 1), (128, 2), (960, 3), none],
            call: Call::Loss { n: 2 },
            calls: 5,
            kept: NEVER,
        },
    )?;
    Ok(())
}

#[test]
fn a_write_that_finishes_a_page_trips(rt: HostRuntime) -> Result<(), Fail> {
    let row = Row {
        banks: (4, 2),
        before: [(0, 128), (64, 128), (128, 128), (192, 128), (256, 127)],
        call: Call::Write {
            at: 256,
            byte: 0xee,
        },
        calls: 386,
        kept: 383,
    };
    trip_each(&rt, rt.alloc(), &row)
}

/// Cuts a write of line 0 after a number of steps, recovers over a board that trips after `n` calls, recovers again
/// over the inner one, and reads all lines. The answer is whether the first recovery was done.
fn recover_tripped(
    rt: &impl Abort,
    alloc: Global,
    row: &Row,
    fuse: u64,
    n: u64,
) -> Result<bool, Fail> {
    let mut lines = vec![in alloc; Line::default(); 1024]?;
    let mut chip = worn(rt, alloc, row, &mut lines)?;
    chip.cut_after(rt, fuse, &row.call);
    if fuse >= row.kept {
        put_written(&mut lines, &row.call);
    }
    let (done, rest) = chip.rested().recovered_tripped(rt, alloc, n);
    mend_and_read(rt, alloc, rest, &lines)?;
    Ok(done)
}

/// Recoveries of the row's device trip at each number of calls up to the one at which they are done.
fn trip_recoveries(
    rt: &impl Abort,
    alloc: Global,
    row: &Row,
    fuse: u64,
    calls: u64,
) -> Result<(), Fail> {
    for n in 0..calls {
        assert!(rt; !recover_tripped(rt, alloc, row, fuse, n)?, "at {n}");
    }
    assert!(rt; recover_tripped(rt, alloc, row, fuse, calls)?);
    Ok(())
}

#[test]
fn recoveries_trip(rt: HostRuntime) -> Result<(), Fail> {
    // Blocks of three pages and the nodes above them are named, without a group and with one.
    let row = Row {
        banks: (4, 2),
        before: [(0, 1), (64, 1), (960, 3), (0, 0), (0, 0)],
        call: Call::Write { at: 0, byte: 0xee },
        calls: 0,
        kept: 1,
    };
    trip_recoveries(&rt, rt.alloc(), &row, 0, 407)?;
    trip_recoveries(&rt, rt.alloc(), &row, 1, 410)
}
