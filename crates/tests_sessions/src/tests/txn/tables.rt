//! Each answer of each command, and what lines ask for.
use super::check;
use crate::tests::{equal, spelled};
use pmem_base::{Kind, Line};
use std::process::Abort;
use std::test::Fail;
use txn_session::{TxnCommand, read_txn_command};

/// Every answer but `stuck`, `spent` and a twin.
const EACH_ANSWER: &str =
    "commit: closed / put 0 [11]: closed / abort: closed / begin: ok / begin: busy / put 240 [11]: range / \
    put 18446744073709551615 [11]: range / commit: ok 0 / commit: closed / read 240: range / \
    read 239: line [00] 0 / on: already / begin: ok / put 0 [11]: ok / put 239 [22]: ok / put 0 [33]: ok / \
    read 0: line [33] 0 / read 239: line [22] 0 / read 1: line [00] 0 / abort: ok / read 0: line [00] 0 / \
    abort: closed / begin: ok / put 0 [01]: ok / put 1 [02]: ok / put 2 [03]: ok / put 3 [04]: ok / \
    put 4 [05]: ok / put 5 [06]: ok / put 6 [07]: ok / put 7 [08]: ok / put 8 [09]: ok / put 9 [0a]: ok / \
    put 10 [0b]: ok / put 11 [0c]: ok / put 12 [0d]: ok / put 13 [0e]: ok / put 14 [0f]: ok / \
    put 15 [ff]: full / put 14 [ee]: ok / put 240 [00]: range / read 14: line [ee] 0 / \
    read 15: line [00] 0 / commit: ok 134 / read 14: line [ee] 1 / read 0: line [01] 0 / \
    read 15: line [00] 0 / begin: ok / put 70 [aa]: ok / put 3 [bb]: ok / cut 12: ok / \
    commit: cut kept 12 / begin: off / put 0 [00]: off / commit: off / abort: off / read 0: off / \
    off: off / on: on 2 23 / read 70: line [aa] 0 / read 3: line [bb] 0 / cut 2: ok / begin: ok / \
    put 70 [cc]: ok / commit: cut lost 2 / cut 3: ok / on: cut 3 / on: on 0 4 / read 70: line [aa] 0 / \
    begin: ok / put 5 [55]: ok / cut 0: ok / read 200: line [00] 0 / on: already / read 5: line [55] 0 / \
    begin: busy / put 6 [66]: ok / put 7 [77]: ok / cut 13: ok / commit: cut lost 13 / cut 8: ok / \
    on: on 0 7 / cut 21: ok / on: already / on: already / read 6: line [07] 0 / read 7: line [08] 0 / \
    begin: ok / put 6 [00]: ok / off: ok / read 6: off / off: off / on: on 0 0 / commit: closed / \
    read 6: line [07] 0 / cut 18446744073709551615: ok / begin: ok / put 100 [10]: ok / commit: ok 22 / \
    off: ok / cut 0: ok / on: cut 0 / on: on 0 4 / read 100: line [10] 0 / cut 5: ok / on: already / \
    cut 0: ok / begin: ok / put 239 [99]: ok / commit: cut lost 0 / on: on 0 0 / read 239: line [00] 0 / \
    begin: ok / cut 0: ok / commit: ok 0 / read 0: line [01] 0 / put 0 [12]: closed / read 0: line [01] 0 / \
    commit: closed / cut 18446744073709551615: ok / begin: ok / put 5 [99]: ok / commit: ok 23 / begin: ok / \
    put 5 [98]: ok / commit: ok 20 / begin: ok / put 6 [66]: ok / cut 0: ok / read 6: line [66] 0 / \
    read 140: cut 0 / read 6: off / put 6 [67]: off / on: on 0 4 / commit: closed / read 6: line [07] 0 / \
    read 5: line [98] 0 / read 140: line [00] 0";

// Two lines are committed.
#[test]
fn lines_are_committed(rt: HostRuntime) -> Result<(), Fail> {
    check(
        &rt,
        (2, 4, 2, 4, 0),
        false,
        "begin: ok / put 0 [11]: ok / put 64 [22]: ok / read 0: line [11] 0 / commit: ok 30 / read 64: line [22] 0",
    )
}

// Power is cut one step before the header is there, and with it.
#[test]
fn header_decides(rt: HostRuntime) -> Result<(), Fail> {
    check(
        &rt,
        (2, 4, 2, 4, 0),
        false,
        "begin: ok / put 0 [11]: ok / put 64 [22]: ok / cut 11: ok / commit: cut lost 11 / on: on 0 5 / \
        read 0: line [00] 0",
    )?;
    check(
        &rt,
        (2, 4, 2, 4, 0),
        false,
        "begin: ok / put 0 [11]: ok / put 64 [22]: ok / cut 12: ok / commit: cut kept 12 / on: on 2 26 / \
        read 0: line [11] 0",
    )
}

#[test]
fn each_answer_comes(rt: HostRuntime) -> Result<(), Fail> {
    check(&rt, (1, 1, 1, 4, 0), false, EACH_ANSWER)
}

// Under a suite whose tags tell no minors apart recovery shows a twin.
#[test]
fn twin_ends_a_session(rt: HostRuntime) -> Result<(), Fail> {
    check(
        &rt,
        (1, 1, 1, 4, 0),
        true,
        "begin: ok / put 0 [aa]: ok / commit: ok 22 / off: ok / on: twin 192 0 0 1 ..",
    )
}

/// A line has to ask for this, or to be faulty so.
fn means(rt: &impl Abort, line: &str, wanted: Result<Option<TxnCommand>, Kind>) {
    equal(
        rt,
        (line, read_txn_command(line.as_bytes())),
        (line, wanted),
    );
}

#[test]
fn lines_are_commands_or_faulty(rt: HostRuntime) -> Result<(), Fail> {
    means(&rt, "", Ok(None));
    means(&rt, "\r", Ok(None));
    means(&rt, " \t", Ok(None));
    means(&rt, " # off", Ok(None));
    means(&rt, "begin", Ok(Some(TxnCommand::Begin)));
    means(&rt, " commit\t\r", Ok(Some(TxnCommand::Commit)));
    means(&rt, "abort ", Ok(Some(TxnCommand::Abort)));
    means(&rt, "on", Ok(Some(TxnCommand::On)));
    means(&rt, " off\t\r", Ok(Some(TxnCommand::Off)));
    means(&rt, "on\r\r", Err(Kind::Word));
    means(&rt, "read\t0007", Ok(Some(TxnCommand::Read { at: 7 })));
    means(
        &rt,
        "read 18446744073709551615",
        Ok(Some(TxnCommand::Read { at: u64::MAX })),
    );
    means(&rt, "read 18446744073709551616", Err(Kind::Number));
    means(&rt, "cut 0", Ok(Some(TxnCommand::Cut { n: 0 })));
    means(&rt, "cut 000000000000000000000", Err(Kind::Number));
    means(&rt, "write 0", Err(Kind::Word));
    means(&rt, "Begin", Err(Kind::Word));
    means(&rt, "begin 0", Err(Kind::Count));
    means(&rt, "commit 0", Err(Kind::Count));
    means(&rt, "abort 0", Err(Kind::Count));
    means(&rt, "put", Err(Kind::Count));
    means(&rt, "put 0", Err(Kind::Count));
    means(&rt, "put 0 aa 0", Err(Kind::Count));
    means(&rt, "put x aa", Err(Kind::Number));
    means(&rt, "put 0 aa", Err(Kind::Hex));
    means(&rt, "read", Err(Kind::Count));
    means(&rt, "read 0 0", Err(Kind::Count));
    means(&rt, "read -1", Err(Kind::Number));
    means(&rt, "cut", Err(Kind::Count));
    means(&rt, "off 0", Err(Kind::Count));
    means(&rt, "on #", Err(Kind::Count));
    equal(&rt, read_txn_command(&[b'#'; 1024]), Ok(None));
    equal(&rt, read_txn_command(&[b'#'; 1025]), Err(Kind::Long));
    let line = spelled(rt.alloc(), "put 5 [Aa]")?;
    let put = TxnCommand::Put {
        at: 5,
        line: Line([0xaa; 64]),
    };
    equal(&rt, read_txn_command(line.as_bytes()), Ok(Some(put)));
    Ok(())
}

#[test]
fn skipped_and_malformed_lines_do_nothing(rt: HostRuntime) -> Result<(), Fail> {
    check(
        &rt,
        (1, 1, 1, 4, 0),
        false,
        "begin: ok / # on: skipped / put 0: miscounted / begin: busy / read 0: line [00] 0",
    )
}
