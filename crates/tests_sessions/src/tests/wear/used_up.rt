//! Moves while a page is re-encrypted, and counters that are exhausted.
use super::new_session;
use crate::tests::{ask, converse};
use std::alloc::Global;
use std::process::Abort;
use std::test::Fail;
use trace_text::Talk;

/// Writes `count` lines from `first` on, `step` apart: each one must be answered `ok`.
fn write_many<T: Talk>(
    rt: &impl Abort,
    alloc: Global,
    session: &mut T,
    first: u8,
    step: u8,
    times: u8,
) -> Result<(), Fail> {
    let mut line = first;
    for byte in 0..times {
        let command = format!(in alloc; "write {line} [{byte:02x}]")?;
        ask(rt, alloc, session, command.as_str(), "ok ..")?;
        line = line.wrapping_add(step);
    }
    Ok(())
}

/// Lines that are written: the first one, how far apart they are, and how many.
type Written = (u8, u8, u8);

/// Writes lines, and makes the session answer these steps.
fn wear_once<T: Talk>(
    rt: &impl Abort,
    alloc: Global,
    session: &mut T,
    lines: Written,
    steps: &str,
) -> Result<(), Fail> {
    let (first, step, times) = lines;
    write_many(rt, alloc, session, first, step, times)?;
    converse(rt, alloc, session, steps)
}

/// Does what `wear_once` does twice, with these lines and steps and then with the others.
fn wear_twice<T: Talk>(
    rt: &impl Abort,
    alloc: Global,
    session: &mut T,
    (lines, steps): (Written, &str),
    (more, then): (Written, &str),
) -> Result<(), Fail> {
    wear_once(rt, alloc, session, lines, steps)?;
    wear_once(rt, alloc, session, more, then)
}

// The record is written at each write, so its counter runs over at the 128th: its page is opened.
// At the 255th it runs over again, and the page's lines are resealed first. There the gap is at
// place 0 too.
#[test]
fn page_of_the_record_runs_over(rt: HostRuntime) -> Result<(), Fail> {
    let mut session = new_session(rt.alloc(), (1, 1, 1, 4, 0), 1, false)?;
    wear_twice(
        &rt,
        rt.alloc(),
        &mut session,
        ((0, 1, 127), "write 27 [7f]: ok 21 / read 26: line [1a] 1"),
        (
            (0, 1, 126),
            "place 253: at 254 / write 54 [fe]: ok 272 / place 253: at 0 / read 53: line [35] 1 / read 54: line [fe] 0 / read 253: line [00] 0 / write 253 [ff]: ok 15 / place 253: at 0 / place 252: at 254 / place 0: at 1 / off: ok / on: on 1 253 4 / read 253: line [ff] 0 / read 27: line [1b] 0",
        ),
    )
}

// The counter of the record is used up: the line is written, and its move is held, now and later.
#[test]
fn move_is_held_by_the_record(rt: HostRuntime) -> Result<(), Fail> {
    let mut session = new_session(rt.alloc(), (1, 4, 2, 4, u64::MAX), 1, false)?;
    wear_once(
        &rt,
        rt.alloc(),
        &mut session,
        (0, 1, 127),
        "write 1 [a0]: held 3 8 / place 253: at 254 / read 1: line [a0] 0 / write 2 [a1]: held 3 8 / write 0 [a2]: held 3 8 / place 253: at 254 / off: ok / on: on 0 127 7 / write 3 [a3]: held 3 12 / read 0: line [a2] 0 / read 1: line [a0] 0 / read 2: line [a1] 0 / read 3: line [a3] 0 / place 126: at 126 / place 127: at 128",
    )
}

// The counter of the gap is used up, so nothing of the move is done.
#[test]
fn move_is_held_by_the_gap(rt: HostRuntime) -> Result<(), Fail> {
    let mut session = new_session(rt.alloc(), (1, 4, 2, 4, u64::MAX), 128, false)?;
    wear_twice(
        &rt,
        rt.alloc(),
        &mut session,
        (
            (253, 0, 127),
            "write 0 [a0]: ok 13 / place 253: at 254 / place 252: at 252 / read 253: line [7e] 0",
        ),
        (
            (1, 0, 127),
            "write 2 [a2]: held 3 4 / place 253: at 254 / place 252: at 252 / read 2: line [a2] 0 / write 1 [a3]: spent 0 0 / read 1: line [7e] 0 / write 3 [a4]: ok 4 / read 3: line [a4] 0 / off: ok / on: on 0 253 5 / read 253: line [7e] 0",
        ),
    )
}

// The counter of the line's place is used up: nothing is written, and the write isn't counted.
#[test]
fn line_is_spent(rt: HostRuntime) -> Result<(), Fail> {
    let mut session = new_session(rt.alloc(), (1, 4, 2, 4, u64::MAX), 129, false)?;
    wear_once(
        &rt,
        rt.alloc(),
        &mut session,
        (5, 0, 127),
        "write 5 [a0]: spent 0 0 / read 5: line [7e] 0 / write 6 [a1]: ok 4 / write 5 [a2]: spent 0 0 / place 253: at 253 / write 7 [a3]: ok 13 / place 253: at 254 / off: ok / on: on 0 253 5 / write 5 [a4]: spent 0 0 / read 5: line [7e] 0",
    )
}
