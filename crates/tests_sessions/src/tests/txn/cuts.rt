//! A cut at each step of a commit of fifteen lines, and of its redo: then all lines are read.
use super::{check, new_session};
use crate::tests::{ask, begins, equal};
use std::alloc::Global;
use std::process::Abort;
use std::test::Fail;
use trace_text::Talk;

/// Fifteen lines on as many pages, in a memory with one set of one way, and then recovery.
const PAGES: &str =
    "begin: ok / put 0 [01]: ok / put 64 [02]: ok / put 128 [03]: ok / put 192 [04]: ok / put 256 [05]: ok / \
    put 320 [06]: ok / put 384 [07]: ok / put 448 [08]: ok / put 512 [09]: ok / put 576 [0a]: ok / \
    put 640 [0b]: ok / put 704 [0c]: ok / put 768 [0d]: ok / put 832 [0e]: ok / put 896 [0f]: ok / \
    commit: ok 171 / off: ok / on: on 0 5 / read 0: line [01] 0 / read 896: line [0f] 0 / read 1: line [00] 0";

/// Opens a transaction of the lines 0, 16 and so on to 224.
fn put_fifteen<T: Talk>(rt: &impl Abort, alloc: Global, session: &mut T) -> Result<(), Fail> {
    ask(rt, alloc, session, "begin", "ok")?;
    for i in 0..15_u8 {
        let at = 16_u32.wrapping_mul(u32::from(i));
        let command = format!(in alloc; "put {at} [{i:02x}]")?;
        ask(rt, alloc, session, command.as_str(), "ok")?;
    }
    Ok(())
}

/// Reads those fifteen lines and the one behind each, or all 240 lines: the fifteen are there, or none is.
fn read_lines<T: Talk>(
    rt: &impl Abort,
    alloc: Global,
    session: &mut T,
    whole: bool,
    all: bool,
) -> Result<(), Fail> {
    for line in 0..240_u8 {
        if line % 16 > 1 && !all {
            continue;
        }
        let byte = if whole && line % 16 == 0 {
            line / 16
        } else {
            0
        };
        let command = format!(in alloc; "read {line}")?;
        let front = format!(in alloc; "line [{byte:02x}]..")?;
        ask(rt, alloc, session, command.as_str(), front.as_str())?;
    }
    Ok(())
}

/// Cuts a commit of the fifteen lines after `fuse` steps, recovers, and reads them.
fn cut_commit<T: Talk>(
    rt: &impl Abort,
    alloc: Global,
    session: &mut T,
    fuse: u8,
) -> Result<(), Fail> {
    put_fifteen(rt, alloc, session)?;
    let cut = format!(in alloc; "cut {fuse}")?;
    ask(rt, alloc, session, cut.as_str(), "ok")?;
    let whole = fuse >= 63;
    let word = if whole { "kept" } else { "lost" };
    let answer = format!(in alloc; "cut {word} {fuse}")?;
    ask(rt, alloc, session, "commit", answer.as_str())?;
    let redone = if whole && fuse < 135 {
        "on 15 .."
    } else {
        "on 0 .."
    };
    ask(rt, alloc, session, "on", redone)?;
    read_lines(rt, alloc, session, whole, fuse / 2 == 31)
}

/// A commit takes 138 steps. It is cut before each of these, and recovered.
fn cut_commits(rt: &impl Abort, alloc: Global, from: u8, to: u8) -> Result<(), Fail> {
    for fuse in from..to {
        let mut session = new_session(alloc, (1, 1, 1, 4, 0), false)?;
        cut_commit(rt, alloc, &mut session, fuse)?;
    }
    Ok(())
}

#[test]
fn each_cut_before_the_header_leaves_none(rt: HostRuntime) -> Result<(), Fail> {
    cut_commits(&rt, rt.alloc(), 0, 63)
}

#[test]
fn each_cut_in_the_first_targets_leaves_all(rt: HostRuntime) -> Result<(), Fail> {
    cut_commits(&rt, rt.alloc(), 63, 100)
}

#[test]
fn each_cut_in_the_last_targets_leaves_all(rt: HostRuntime) -> Result<(), Fail> {
    cut_commits(&rt, rt.alloc(), 100, 138)
}

/// A redo is cut after no step, after one and so on, each time from the state that the last cut left, until it is
/// through.
fn cut_redo<T: Talk>(rt: &impl Abort, alloc: Global, session: &mut T) -> Result<(), Fail> {
    put_fifteen(rt, alloc, session)?;
    ask(rt, alloc, session, "cut 63", "ok")?;
    ask(rt, alloc, session, "commit", "cut kept 63")?;
    let mut cuts = 0_u32;
    for fuse in 0..200_u8 {
        let cut = format!(in alloc; "cut {fuse}")?;
        ask(rt, alloc, session, cut.as_str(), "ok")?;
        if !begins(alloc, session, "on", cut.as_str())? {
            break;
        }
        cuts = cuts.wrapping_add(1);
    }
    equal(rt, cuts, 83);
    read_lines(rt, alloc, session, true, true)
}

#[test]
fn each_cut_of_a_redo_keeps_all(rt: HostRuntime) -> Result<(), Fail> {
    let mut session = new_session(rt.alloc(), (1, 1, 1, 4, 0), false)?;
    cut_redo(&rt, rt.alloc(), &mut session)
}

#[test]
fn fifteen_pages_go_through_one_set(rt: HostRuntime) -> Result<(), Fail> {
    check(&rt, (2, 1, 1, 4, 0), false, PAGES)
}

#[test]
fn commit_of_nothing_is_not_cut(rt: HostRuntime) -> Result<(), Fail> {
    check(
        &rt,
        (1, 1, 1, 4, 0),
        false,
        "begin: ok / cut 0: ok / commit: ok 0 / on: already / commit: closed",
    )
}
