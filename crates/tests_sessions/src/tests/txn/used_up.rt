//! Counters that are used up: a store that is stuck, and a commit that is spent.
use super::new_session;
use crate::tests::{ask, converse};
use std::alloc::Global;
use std::process::Abort;
use std::test::Fail;
use trace_text::Talk;

/// After a commit that is stuck at the zero header: no transaction is opened, and the log serves the line.
const STUCK: &str =
    "begin: stuck 15 / put 0 [44]: closed / commit: closed / abort: closed / read 0: line [33] 0 / \
    read 64: line [00] 0 / off: ok / on: stuck 15 13 / begin: stuck 15 / read 0: line [33] 0 / cut 2: ok / \
    on: already / read 0: line [33] 0 / begin: stuck 15 / off: ok / cut 1: ok / on: cut 1 / cut 5: ok / \
    on: cut 5 / on: stuck 15 8 / read 0: line [33] 0 / begin: stuck 15";

/// After a commit whose header is spent.
const SPENT: &str =
    "begin: ok / put 1 [01]: ok / commit: spent 3 4 / read 1: line [00] 0 / off: ok / on: on 0 5 / \
    begin: ok / put 5 [55]: ok / commit: spent 3 6 / read 0: line [7e] 0 / read 5: line [00] 0";

/// Commits a byte to line 0, and compares the answer.
fn commit<T: Talk>(
    rt: &impl Abort,
    alloc: Global,
    session: &mut T,
    byte: u8,
    answer: &str,
) -> Result<(), Fail> {
    ask(rt, alloc, session, "begin", "ok")?;
    let put = format!(in alloc; "put 0 [{byte:02x}]")?;
    ask(rt, alloc, session, put.as_str(), "ok")?;
    ask(rt, alloc, session, "commit", answer)
}

/// Commits until the zero header is spent, and then goes on.
fn spend_zero_header<T: Talk>(rt: &impl Abort, alloc: Global, session: &mut T) -> Result<(), Fail> {
    for round in 0..64_u8 {
        let answer = match (round, round % 4) {
            (0, _) => "ok 21",
            (63, _) => "stuck 15 14",
            (_, 3) => "ok 19",
            (_, 1) => "ok 17",
            _ => "ok 16",
        };
        commit(rt, alloc, session, 0x33, answer)?;
    }
    converse(rt, alloc, session, STUCK)
}

// The header is written twice in a commit, so the zero header of the 64th is its line's 128th write.
#[test]
fn zero_header_is_spent(rt: HostRuntime) -> Result<(), Fail> {
    let mut session = new_session(rt.alloc(), (2, 4, 2, 4, u64::MAX), false)?;
    spend_zero_header(&rt, rt.alloc(), &mut session)
}

/// Commits until the header is spent, and then goes on.
fn spend_header<T: Talk>(rt: &impl Abort, alloc: Global, session: &mut T) -> Result<(), Fail> {
    for round in 0..128_u8 {
        let answer = match (round, round % 4) {
            (63, _) => "ok 21",
            (127, _) => "spent 3 5",
            (0, _) | (_, 3) => "ok 19",
            (_, 1) => "ok 17",
            _ => "ok 16",
        };
        commit(rt, alloc, session, round, answer)?;
    }
    converse(rt, alloc, session, SPENT)
}

// With one more major the page of the log rolls once, at a zero header. So from then on it is a header that comes to
// the last minor, and the 128th commit is spent.
#[test]
fn header_is_spent(rt: HostRuntime) -> Result<(), Fail> {
    let mut session = new_session(rt.alloc(), (1, 4, 2, 4, u64::MAX - 1), false)?;
    spend_header(&rt, rt.alloc(), &mut session)
}
