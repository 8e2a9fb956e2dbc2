//! Each answer of each command, and what lines ask for.
use super::check;
use crate::tests::{equal, spelled};
use pmem_base::{Kind, Line};
use std::process::Abort;
use std::test::Fail;
use wear_session::{WearCommand, read_wear_command};

/// With a move at each second write: every answer but `held`, `spent` and a twin.
const EACH_ANSWER: &str =
    "read 0: line [00] 0 / place 253: at 253 / write 253 [aa]: ok 6 / place 253: at 253 / read 253: line [aa] 0 / \
    write 254 [bb]: range / read 254: range / place 254: range / place 18446744073709551615: range / on: already / \
    write 1 [cc]: ok 16 / place 252: at 252 / place 253: at 254 / read 253: line [aa] 0 / read 1: line [cc] 1 / \
    cut 3: ok / write 1 [dd]: cut kept 3 / off: off / write 1 [dd]: off / read 1: off / place 1: off / off: off / \
    on: on 0 253 7 / read 1: line [dd] 0 / cut 2: ok / write 1 [ee]: cut lost 2 / cut 1: ok / on: cut 1 / \
    cut 2: ok / on: on 0 253 1 / cut 20: ok / on: already / read 1: line [dd] 0 / write 2 [11]: ok 6 / \
    write 18446744073709551615 [11]: range / cut 0: ok / read 254: range / read 70: cut 0 / on: on 0 253 4 / \
    read 70: line [00] 0 / cut 0: ok / read 190: line [00] 0 / read 1: line [dd] 0 / on: already / \
    write 3 [33]: cut lost 0 / write 70 [44]: off / cut 9: ok / write 140 [55]: off / write 5 [66]: off / \
    on: on 0 253 0 / read 140: line [00] 0 / read 5: line [00] 0 / cut 18446744073709551615: ok / \
    write 200 [77]: ok 6 / off: ok / off: off / cut 0: ok / on: cut 0 / place 0: off / on: on 0 253 4 / \
    place 252: at 252 / place 253: at 254 / read 200: line [77] 0 / read 253: line [aa] 0";

// Two lines are written, each with a move: the gap goes down by two places.
#[test]
fn lines_move_and_are_read(rt: HostRuntime) -> Result<(), Fail> {
    check(
        &rt,
        (2, 4, 2, 4, 0),
        1,
        false,
        "write 0 [aa]: ok 17 / place 0: at 0 / place 1021: at 1022 / read 0: line [aa] 0 / write 1021 [bb]: ok 12",
    )
}

// The line is written before the cut comes, in the copy of the move.
#[test]
fn cut_move_is_not_made(rt: HostRuntime) -> Result<(), Fail> {
    check(
        &rt,
        (2, 4, 2, 4, 0),
        1,
        false,
        "cut 8: ok / write 0 [aa]: cut kept 8 / on: on 0 1022 5 / read 0: line [aa] 0",
    )
}

#[test]
fn each_answer_comes(rt: HostRuntime) -> Result<(), Fail> {
    check(&rt, (1, 1, 1, 4, 0), 2, false, EACH_ANSWER)
}

// Under a suite whose tags tell no minors apart recovery shows a twin.
#[test]
fn twin_ends_a_session(rt: HostRuntime) -> Result<(), Fail> {
    check(
        &rt,
        (1, 1, 1, 4, 0),
        1,
        true,
        "write 0 [aa]: ok 16 / write 0 [bb]: ok 16 / off: ok / on: twin 192 0 0 1 ..",
    )
}

/// A line has to ask for this, or to be faulty so.
fn means(rt: &impl Abort, line: &str, wanted: Result<Option<WearCommand>, Kind>) {
    equal(
        rt,
        (line, read_wear_command(line.as_bytes())),
        (line, wanted),
    );
}

#[test]
fn lines_are_commands_or_faulty(rt: HostRuntime) -> Result<(), Fail> {
    means(&rt, "", Ok(None));
    means(&rt, "\r", Ok(None));
    means(&rt, " \t", Ok(None));
    means(&rt, " # off", Ok(None));
    means(&rt, "on", Ok(Some(WearCommand::On)));
    means(&rt, " off\t\r", Ok(Some(WearCommand::Off)));
    means(&rt, "on\r\r", Err(Kind::Word));
    means(&rt, "read\t0007", Ok(Some(WearCommand::Read { at: 7 })));
    means(
        &rt,
        "place 18446744073709551615",
        Ok(Some(WearCommand::Place { at: u64::MAX })),
    );
    means(&rt, "place 18446744073709551616", Err(Kind::Number));
    means(&rt, "cut 0", Ok(Some(WearCommand::Cut { n: 0 })));
    means(&rt, "cut 000000000000000000000", Err(Kind::Number));
    means(&rt, "turn", Err(Kind::Word));
    means(&rt, "Write 0", Err(Kind::Word));
    means(&rt, "write", Err(Kind::Count));
    means(&rt, "write 0", Err(Kind::Count));
    means(&rt, "write 0 aa 0", Err(Kind::Count));
    means(&rt, "write x aa", Err(Kind::Number));
    means(&rt, "write 0 aa", Err(Kind::Hex));
    means(&rt, "read", Err(Kind::Count));
    means(&rt, "read 0 0", Err(Kind::Count));
    means(&rt, "place -1", Err(Kind::Number));
    means(&rt, "cut", Err(Kind::Count));
    means(&rt, "off 0", Err(Kind::Count));
    means(&rt, "on #", Err(Kind::Count));
    equal(&rt, read_wear_command(&[b'#'; 1024]), Ok(None));
    equal(&rt, read_wear_command(&[b'#'; 1025]), Err(Kind::Long));
    let line = spelled(rt.alloc(), "write 5 [Aa]")?;
    let write = WearCommand::Write {
        at: 5,
        line: Line([0xaa; 64]),
    };
    equal(&rt, read_wear_command(line.as_bytes()), Ok(Some(write)));
    Ok(())
}

#[test]
fn skipped_and_malformed_lines_do_nothing(rt: HostRuntime) -> Result<(), Fail> {
    check(
        &rt,
        (1, 1, 1, 4, 0),
        1,
        false,
        "# on: skipped / write 0: miscounted / read 0: line [00] 0 / place 253: at 253",
    )
}
