//! Sessions over small memories: the texts of their answers, as another program of the same rules gives them.
mod bench;
mod headers;
mod levelled;
mod levelling;
mod transactions;
mod tree;
mod tree_engine;
mod txn;
mod wear;

use access_log::AccessLog;
use collision_witness::shown_text;
use pmem_base::Kind;
use std::alloc::Global;
use std::fmt::Debug;
use std::process::Abort;
use std::test::Fail;
use trace_text::{Halt, Talk};

/// Stops the test, with both values, unless they are equal. A macro is proved again at each place, and this once.
fn equal<T: PartialEq + Debug + Drop>(rt: &impl Abort, found: T, wanted: T) {
    assert_eq!(rt; found, wanted);
}

/// The default keys of a session.
const KEY: [u8; 16] = [0, 1, 2, 3, 4, 5, 6, 7, 8, 9, 10, 11, 12, 13, 14, 15];

const TAG_KEY: [u8; 32] = [
    16, 17, 18, 19, 20, 21, 22, 23, 24, 25, 26, 27, 28, 29, 30, 31, 32, 33, 34, 35, 36, 37, 38, 39,
    40, 41, 42, 43, 44, 45, 46, 47,
];

/// Appends a text 64 times.
fn push_64(whole: &mut String, text: &str) -> Result<(), Fail> {
    for _ in 0..64 {
        whole.push_str(text)?;
    }
    Ok(())
}

/// A text in which each `[aa]` stands for the byte aa 64 times.
fn spelled(alloc: Global, text: &str) -> Result<String, Fail> {
    let mut whole = String::new(alloc);
    for piece in text.split('[') {
        match piece.split_once("]") {
            None => whole.push_str(piece)?,
            Some((byte, behind)) => {
                push_64(&mut whole, byte)?;
                whole.push_str(behind)?;
            }
        }
    }
    Ok(whole)
}

/// Compares what a line was answered. An answer that ends with `..` is only the front of it.
fn compare(
    rt: &impl Abort,
    alloc: Global,
    command: &str,
    found: &[u8],
    answer: &str,
) -> Result<(), Fail> {
    match answer.strip_suffix("..") {
        Some(front) => {
            let front = spelled(alloc, front)?;
            assert!(rt;
                found.starts_with(front.as_bytes()),
                "the answer to {command}"
            );
        }
        None => {
            let wanted = spelled(alloc, answer)?;
            equal(rt, (command, found), (command, wanted.as_bytes()));
        }
    }
    Ok(())
}

/// Asks one line, and compares the answer. That of an exhibit is its text, that of a comment `skipped`, and that of a line
/// with a wrong number of words `miscounted`.
fn ask<T: Talk>(
    rt: &impl Abort,
    alloc: Global,
    session: &mut T,
    command: &str,
    answer: &str,
) -> Result<(), Fail> {
    let line = spelled(alloc, command)?;
    match session.talk(alloc, line.as_bytes(), &mut AccessLog::none()) {
        Ok(Some(text)) => compare(rt, alloc, command, text.as_slice(), answer),
        Ok(None) => compare(rt, alloc, command, b"skipped", answer),
        Err(Halt::Shown(exhibit)) => {
            let text = shown_text(&exhibit);
            compare(rt, alloc, command, text.as_slice(), answer)
        }
        Err(Halt::Line(Kind::Count)) => compare(rt, alloc, command, b"miscounted", answer),
        Err(Halt::Line(_)) => Err(Fail::new("a malformed line")),
        Err(Halt::Memory) => Err(Fail::new("no memory")),
    }
}

/// Whether a command's answer begins so.
fn begins<T: Talk>(
    alloc: Global,
    session: &mut T,
    command: &str,
    front: &str,
) -> Result<bool, Fail> {
    match session.talk(alloc, command.as_bytes(), &mut AccessLog::none()) {
        Ok(Some(text)) => Ok(text.as_slice().starts_with(front.as_bytes())),
        _ => Err(Fail::new("no answer")),
    }
}

/// Asks each of these steps, `COMMAND: ANSWER` and so on, set apart by ` / `.
fn converse<T: Talk>(
    rt: &impl Abort,
    alloc: Global,
    session: &mut T,
    steps: &str,
) -> Result<(), Fail> {
    for step in steps.split(" / ") {
        let Some((command, answer)) = step.split_once(": ") else {
            return Err(Fail::new("a step without an answer"));
        };
        ask(rt, alloc, session, command, answer)?;
    }
    Ok(())
}
