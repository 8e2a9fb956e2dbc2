//! Whole runs over memory.
use crate::rows::{Row, row_of};
use crate::shorthand::{spelled, words_of};
use pmem_cli::{MemSink, MemSource, run};
use std::test::Fail;

/// The number of a call that never comes.
pub const NEVER: u64 = 1_000_000_000;

/// Room for the output of every run, in bytes.
pub const PLACES: usize = 400_000;

/// Runs the program over memory. The pulls and the pushes of these numbers fail, counted from 0. Gives the status and
/// what was put into this number of places of a byte. Errors: running out of memory.
pub fn ran<R: AllocGlobal>(
    rt: &R,
    words: &str,
    trace: &[u8],
    (pull, push): (u64, u64),
    places: usize,
) -> Result<(u8, Vec<u8>), Fail> {
    let alloc = rt.alloc();
    let mut source = MemSource::new(trace.to_vec(alloc)?, vec![in alloc; pull]?);
    let mut sink = MemSink::new(vec![in alloc; 0u8; places]?, vec![in alloc; push]?);
    let words = words_of(alloc, words)?;
    let status = run(alloc, words.as_slice(), &mut source, &mut sink);
    Ok((status, sink.put().to_vec(alloc)?))
}

/// Compares the status and the output of a run with those that are due. Fails unless they are equal.
pub fn check_end(at: &str, found: (u8, Vec<u8>), status: u8, output: &[u8]) -> Result<(), Fail> {
    let (ended, put) = found;
    if ended != status {
        return Err(Fail::new(format_args!("the status at {at} is {ended}, and not {status}")));
    }
    if put.as_slice() != output {
        return Err(Fail::new(format_args!("the output at {at} is another")));
    }
    Ok(())
}

/// Whether this is what a row puts. An output that begins with `.. / ` is only the end of it. Errors: running out of
/// memory.
fn is_put<R: AllocGlobal>(rt: &R, row: &Row, put: &[u8]) -> Result<bool, Fail> {
    match row.output.strip_prefix(".. / ") {
        Some(end) => Ok(put.ends_with(spelled(rt, end)?.as_slice())),
        None => Ok(put == spelled(rt, row.output)?.as_slice()),
    }
}

/// Compares the status and the output of a run with those of a row. Errors: they differ, or memory ran out.
pub fn check_found<R: AllocGlobal>(rt: &R, row: &Row, status: u8, put: &[u8]) -> Result<(), Fail> {
    let (words, trace) = (row.words, row.trace);
    if status != row.status {
        return Err(Fail::new(format_args!("the status of {words}: {trace} is {status}")));
    }
    if !is_put(rt, row, put)? {
        return Err(Fail::new(format_args!("the output of {words}: {trace} is another")));
    }
    Ok(())
}

/// Runs the program as a row says. Errors: its status or its output isn't that of the row, or memory ran out.
pub fn check_row<R: AllocGlobal>(rt: &R, row: &Row) -> Result<(), Fail> {
    let given = spelled(rt, row.trace)?;
    let (status, put) = ran(rt, row.words, given.as_slice(), (NEVER, NEVER), PLACES)?;
    check_found(rt, row, status, put.as_slice())
}

/// Checks each row of a table; empty lines stand between the rows. Errors: a run ends otherwise, a text isn't a row, or
/// memory ran out.
pub fn check_rows<R: AllocGlobal>(rt: &R, rows: &str) -> Result<(), Fail> {
    for text in rows.split("\n\n") {
        check_row(rt, &row_of(text)?)?;
    }
    Ok(())
}
