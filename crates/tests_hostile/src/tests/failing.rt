//! Sources and sinks that fail at each of their calls.
use std::process::Abort;
use std::test::Fail;
use tests_support::{
    NEVER, PLACES, Row, check_end, check_faults, check_pulls, check_pushes, ran, ran_by_bytes,
    spelled,
};

/// A forged tag under the weak suite.
const FORGED: &str =
    "forged 5 0.0 04070708090a0b0c0d0e0f101112131415161718191a1b1c1d1e1f202122232425262728292a2b2c2d2e2f303132333435363738393a3b3c3d3e3f4041424344 {55}";

/// A write and its recovery are cut.
const CUTS: Row<'static> = Row {
    words: "run --suite weak",
    trace: "post 0 0 [11] / cut 4 / drain 0 / cut 3 / on / on / read 0 0 / post 0 0 [11] / drain 0",
    status: 0,
    output: "ok / ok / seal 0 0.1 {51} & cut kept 4 / ok / cut 3 / on 256 9 5 / line [11] 0 / ok / seal 0 0.2 {12} & ok 7",
};

#[test]
fn a_trace_fails_at_each_pull(rt: HostRuntime) -> Result<(), Fail> {
    check_pulls(&rt, &CUTS)
}

#[test]
fn a_trace_fails_at_each_push(rt: HostRuntime) -> Result<(), Fail> {
    check_pushes(&rt, &CUTS)
}

#[test]
fn an_exhibit_fails_at_each_call(rt: HostRuntime) -> Result<(), Fail> {
    check_faults(
        &rt,
        "
        run --suite weak
        flip 5 0 / flip 5 8 / read 0 5
        6: ok / ok / forged 5 0.0 04070708090a0b0c0d0e0f101112131415161718191a1b1c1d1e1f202122232425262728292a2b2c2d2e2f303132333435363738393a3b3c3d3e3f4041424344 {55}",
    )
}

#[test]
fn a_malformed_line_fails_at_each_call(rt: HostRuntime) -> Result<(), Fail> {
    check_faults(
        &rt,
        "
        run --suite weak
        post 0 0 [11] / drain 0 / read 0 0 / read 0 0 0
        5: ok / seal 0 0.1 {51} & ok 7 / line [11] 0 / stop line 4 2",
    )
}

/// Lets each pull of a byte fail in turn, for a run that puts nothing before the end: only `stop read` is put.
fn check_quiet_pulls<R: Abort + AllocGlobal>(rt: &R, row: &Row) -> Result<(), Fail> {
    let given = spelled(rt, row.trace)?;
    let count = given.len() as u64;
    for pull in 0..=count {
        let found = ran_by_bytes(rt, row.words, given.as_slice(), (pull, NEVER))?;
        check_end(row.trace, found, 3, b"stop read\n")?;
    }
    let after = (count.saturating_add(1), NEVER);
    let due = spelled(rt, row.output)?;
    let found = ran_by_bytes(rt, row.words, given.as_slice(), after)?;
    check_end(row.trace, found, row.status, due.as_slice())?;
    Ok(())
}

/// The check of an exhibit fails at each pull and at each push.
fn check_exhibit<R: Abort + AllocGlobal>(
    rt: &R,
    words: &str,
    output: &str,
    status: u8,
) -> Result<(), Fail> {
    let row = Row {
        words,
        trace: FORGED,
        status,
        output,
    };
    check_quiet_pulls(rt, &row)?;
    check_pushes(rt, &row)
}

#[test]
fn a_checked_exhibit_fails_at_each_call(rt: HostRuntime) -> Result<(), Fail> {
    check_exhibit(&rt, "check --suite weak", "holds", 0)?;
    check_exhibit(&rt, "check", "fails", 8)
}

/// A sample pulls nothing, and fails at each push.
fn check_sample<R: Abort + AllocGlobal>(rt: &R, words: &str, output: &str) -> Result<(), Fail> {
    let row = Row {
        words,
        trace: "",
        status: 0,
        output,
    };
    check_pushes(rt, &row)?;
    let whole = spelled(rt, output)?;
    let found = ran(rt, words, b"", (0, NEVER), PLACES)?;
    check_end(words, found, 0, whole.as_slice())?;
    Ok(())
}

#[test]
fn samples_fail_at_each_push(rt: HostRuntime) -> Result<(), Fail> {
    check_sample(
        &rt,
        "make 0 5",
        "flush / post 7 357 [78] / flush / read 6 129 / drain 1 / stat",
    )?;
    check_sample(&rt, "sample 0 5", "stat 5 0 0 1 3")
}

/// A pull or a push of the greatest chunks fails: the replies are put if there are any, and `stop read` if the row says
/// so.
fn check_chunks<R: Abort + AllocGlobal>(
    rt: &R,
    failing: (u64, u64),
    status: u8,
    has_replies: bool,
    stop: &[u8],
) -> Result<(), Fail> {
    let given = spelled(rt, CUTS.trace)?;
    let mut due = spelled(rt, if has_replies { CUTS.output } else { "" })?;
    due.extend_from_slice(stop)?;
    let found = ran(rt, CUTS.words, given.as_slice(), failing, PLACES)?;
    check_end(CUTS.words, found, status, due.as_slice())?;
    Ok(())
}

/// In the greatest chunks: each of the three pulls and of the pushes of a trace fails.
#[test]
fn chunks_fail(rt: HostRuntime) -> Result<(), Fail> {
    check_chunks(&rt, (0, NEVER), 3, false, b"stop read\n")?;
    check_chunks(&rt, (1, NEVER), 3, true, b"stop read\n")?;
    check_chunks(&rt, (2, NEVER), 0, true, b"")?;
    check_chunks(&rt, (NEVER, 0), 4, false, b"")?;
    check_chunks(&rt, (NEVER, 1), 0, true, b"")
}
