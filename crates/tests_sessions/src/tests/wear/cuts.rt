//! A cut at each step of a write with its move, and of recovery: then all lines are read.
use super::new_session;
use crate::tests::{ask, converse};
use std::alloc::Global;
use std::process::Abort;
use std::test::Fail;
use trace_text::Talk;

/// What comes before each cut: three lines are written, and three moved.
const BEFORE: &str = "write 0 [aa]: ok 16 / write 7 [bb]: ok 16 / write 253 [cc]: ok 12";

/// Reads all 254 lines: the first has this byte, two more are those written before, and the others are zeros.
fn read_all<T: Talk>(
    rt: &impl Abort,
    alloc: Global,
    session: &mut T,
    first: u8,
) -> Result<(), Fail> {
    for line in 0..254_u8 {
        let byte = match line {
            0 => first,
            7 => 0xbb,
            253 => 0xcc,
            _ => 0,
        };
        let command = format!(in alloc; "read {line}")?;
        let front = format!(in alloc; "line [{byte:02x}]..")?;
        ask(rt, alloc, session, command.as_str(), front.as_str())?;
    }
    Ok(())
}

/// Makes a session answer what comes before, and then these steps, and reads all lines.
fn cut_and_read<T: Talk>(
    rt: &impl Abort,
    alloc: Global,
    session: &mut T,
    steps: &str,
    first: u8,
) -> Result<(), Fail> {
    converse(rt, alloc, session, BEFORE)?;
    converse(rt, alloc, session, steps)?;
    read_all(rt, alloc, session, first)
}

/// Makes a new session answer what comes before, and then these steps, and reads all lines.
fn check_cut<R: Abort + AllocGlobal>(rt: &R, steps: &str, first: u8) -> Result<(), Fail> {
    let mut session = new_session(rt.alloc(), (1, 1, 1, 4, 0), 1, false)?;
    cut_and_read(rt, rt.alloc(), &mut session, steps, first)
}

/// A cut of a write before each of its 17 steps, and after them.
const WRITE_CUTS: &str = "cut 0: ok / write 0 [dd]: cut lost 0 / on: on 0 251 4
    cut 1: ok / write 0 [dd]: cut lost 1 / on: on 0 251 3
    cut 2: ok / write 0 [dd]: cut lost 2 / on: on 0 251 3
    cut 3: ok / write 0 [dd]: cut kept 3 / on: on 0 251 7
    cut 4: ok / write 0 [dd]: cut kept 4 / on: on 0 251 7
    cut 5: ok / write 0 [dd]: cut kept 5 / on: on 0 251 7
    cut 6: ok / write 0 [dd]: cut kept 6 / on: on 0 251 4
    cut 7: ok / write 0 [dd]: cut kept 7 / on: on 0 251 3
    cut 8: ok / write 0 [dd]: cut kept 8 / on: on 0 251 3
    cut 9: ok / write 0 [dd]: cut kept 9 / on: on 0 251 7
    cut 10: ok / write 0 [dd]: cut kept 10 / on: on 0 251 7
    cut 11: ok / write 0 [dd]: cut kept 11 / on: on 0 251 7
    cut 12: ok / write 0 [dd]: cut kept 12 / on: on 0 251 4
    cut 13: ok / write 0 [dd]: cut kept 13 / on: on 0 250 7
    cut 14: ok / write 0 [dd]: cut kept 14 / on: on 0 250 7
    cut 15: ok / write 0 [dd]: cut kept 15 / on: on 0 250 7
    cut 16: ok / write 0 [dd]: cut kept 16 / on: on 0 250 7
    cut 17: ok / write 0 [dd]: ok 17 / on: already
    cut 18: ok / write 0 [dd]: ok 17 / on: already";

// From the third step on the line is there: its seal is in the group that is armed there. From the thirteenth step
// on the record is, so the gap has moved.
#[test]
fn each_cut_of_a_write_keeps_the_lines(rt: HostRuntime) -> Result<(), Fail> {
    let mut fuse = 0_u8;
    for steps in WRITE_CUTS.split('\n') {
        let first = if fuse < 3 { 0xaa } else { 0xdd };
        check_cut(&rt, steps.trim(), first)?;
        fuse = fuse.wrapping_add(1);
    }
    Ok(())
}

/// Recovery is cut after no step, after one and so on, each time from the state that the last cut left.
const RECOVERY_CUTS: &str =
    "cut 1: ok / write 0 [dd]: cut lost 1 / cut 0: ok / on: cut 0 / cut 1: ok / on: cut 1 / cut 2: ok / on: on 0 251 2
    cut 8: ok / write 0 [dd]: cut kept 8 / cut 0: ok / on: cut 0 / cut 1: ok / on: cut 1 / cut 2: ok / on: on 0 251 2
    cut 10: ok / write 0 [dd]: cut kept 10 / cut 0: ok / on: cut 0 / cut 1: ok / on: cut 1 / cut 2: ok / on: cut 2 / cut 3: ok / on: cut 3 / cut 4: ok / on: on 0 251 4
    cut 14: ok / write 0 [dd]: cut kept 14 / cut 0: ok / on: cut 0 / cut 1: ok / on: cut 1 / cut 2: ok / on: cut 2 / cut 3: ok / on: cut 3 / cut 4: ok / on: cut 4 / cut 5: ok / on: on 0 250 3";

// The line isn't there after the first of these cuts, and is there after the others.
#[test]
fn each_cut_of_recovery_keeps_the_lines(rt: HostRuntime) -> Result<(), Fail> {
    let mut first = 0xaa;
    for steps in RECOVERY_CUTS.split('\n') {
        check_cut(&rt, steps.trim(), first)?;
        first = 0xdd;
    }
    Ok(())
}
