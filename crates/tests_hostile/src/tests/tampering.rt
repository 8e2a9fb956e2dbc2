//! Tampering while power is off or on: the trace, and what it is answered.
use super::runs::{setting_of, stepped_with, words_with};
use std::process::Abort;
use std::test::Fail;
use tests_support::{NEVER, PLACES, Row, check_found, ran, row_of, spelled};

/// The row's trace is answered as it says in the setting that it names, by the whole program and by a world's steps.
fn check<R: Abort + AllocGlobal>(rt: &R, row: &Row) -> Result<(), Fail> {
    let Some(setting) = setting_of(row.words) else {
        return Err(Fail::new("no setting"));
    };
    let words = words_with(rt, &setting)?;
    let given = spelled(rt, row.trace)?;
    let (status, put) = ran(rt, words.as_str(), given.as_slice(), (NEVER, NEVER), PLACES)?;
    check_found(rt, row, status, put.as_slice())?;
    let stepped = stepped_with(rt, &setting, given.as_slice())?;
    assert!(rt; stepped == put, "the steps of {}: {}", row.words, row.trace);
    Ok(())
}

/// Each row of a table.
pub(crate) fn check_rows<R: Abort + AllocGlobal>(rt: &R, rows: &str) -> Result<(), Fail> {
    for text in rows.split("\n\n") {
        check(rt, &row_of(text)?)?;
    }
    Ok(())
}

/// The write of line 0 is done; with power off the device is changed, and then power comes on.
#[test]
fn recovery_refuses_or_mends(rt: HostRuntime) -> Result<(), Fail> {
    check_rows(
        &rt,
        "
        // No candidate has the tag {d1}.
        weak
        post 0 0 [00] / drain 0 / off / flip 1024 127 / on
        0: ok / seal 0 0.1 {51} / ok 7 / ok / ok / refused counter 0 0

        // Candidate 0 has the tag {50}.
        weak
        post 0 0 [00] / drain 0 / off / flip 1024 120 / on
        0: ok / seal 0 0.1 {51} / ok 7 / ok / ok / refused root {17} {15} 0

        // Another major finds other minors.
        weak
        post 0 0 [00] / drain 0 / off / flip 1285 0 / on
        0: ok / seal 0 0.1 {51} / ok 7 / ok / ok / refused root {17} {16} 0

        // The node is named and made anew.
        weak
        post 0 0 [00] / drain 0 / off / flip 1281 0 / on
        0: ok / seal 0 0.1 {51} / ok 7 / ok / ok / on 256 9 5

        // An unnamed child of the top.
        weak
        post 0 0 [00] / drain 0 / off / flip 1282 0 / on
        0: ok / seal 0 0.1 {51} / ok 7 / ok / ok / refused root {17} {16} 0

        // The counter block isn't named.
        weak
        post 0 0 [00] / drain 0 / off / poke 1301 [00] / on
        0: ok / seal 0 0.1 {51} / ok 7 / ok / ok / refused root {17} {15} 0

        // The nodes aren't named.
        weak
        post 0 0 [00] / drain 0 / off / poke 1302 [00] / on
        0: ok / seal 0 0.1 {51} / ok 7 / ok / ok / refused root {17} {15} 0

        // Line 2's cipher has another xor.
        weak
        post 0 0 [00] / drain 0 / off / move 2 0 / on
        0: ok / seal 0 0.1 {51} / ok 7 / ok / ok / refused counter 0 0

        // Under the weak suite both ciphers are 01 to 40.
        weak
        post 0 0 [00] / drain 0 / off / move 1 0 / on
        0: ok / seal 0 0.1 {51} / ok 7 / ok / ok / on 256 9 5",
    )
}

#[test]
fn lines_are_changed_behind_the_controller(rt: HostRuntime) -> Result<(), Fail> {
    check_rows(
        &rt,
        "
        // The armed cipher is written anew.
        weak
        post 0 0 [11] / cut 4 / drain 0 / poke 0 [ff] / on / read 0 0
        0: ok / ok / seal 0 0.1 {51} / cut kept 4 / ok / on 256 9 8 / line [11] 0

        // The tag is another.
        weak
        flip 1024 0 / read 0 0
        0: ok / refused data 0 0

        // The counter block is cached.
        weak
        post 0 0 [00] / drain 0 / flip 1285 0 / read 0 0
        0: ok / seal 0 0.1 {51} / ok 7 / ok / line [00] 0",
    )
}
