//! Sources and sinks that give and take a byte a call, and runs in which each of their calls fails in turn.
ghost use Rattle.std.specs.Prelude.{Some, None};

use crate::rows::{Row, row_of};
use crate::runs::{NEVER, PLACES, check_end};
use crate::shorthand::{front_of, spelled, words_of};
use pmem_cli::{Failed, MemSink, MemSource, Sink, Source, run};
use std::test::Fail;

/// A source over memory that gives a byte a pull.
#[derive(Drop)]
pub struct ByteSource {
    /// The source that it pulls from.
    pub inner: MemSource,
}

impl Source for ByteSource {
    ghost known = { λ source. record {
      given = source.inner.given;
      given_before = source.inner.given_before;
      left = Some source.inner.left;
    } };

    ghost faults = { λ source. source.inner.faults };

    ghost pulls = { λ source. source.inner.pulls };

    fn pull(&mut self, buf: &mut [u8]) -> Result<usize, Failed> {
        let most = buf.len().min(1);
        self.inner.pull(buf.split_at_mut(most).0)
    }
}

/// A sink over memory that takes a byte a push.
#[derive(Drop)]
pub struct ByteSink {
    /// The sink that it pushes to.
    pub inner: MemSink,
}

impl Sink for ByteSink {
    ghost put = { λ sink. None };

    ghost faults = { λ sink. sink.inner.faults };

    fn push(&mut self, buf: &[u8]) -> Result<usize, Failed> {
        self.inner.push(buf.split_at(buf.len().min(1)).0)
    }
}

/// Runs the program a byte at a time. The pulls and the pushes of these numbers fail, counted from 0. Gives the status
/// and what was put. Errors: running out of memory.
pub fn ran_by_bytes<R: AllocGlobal>(
    rt: &R,
    words: &str,
    trace: &[u8],
    (pull, push): (u64, u64),
) -> Result<(u8, Vec<u8>), Fail> {
    let alloc = rt.alloc();
    let mut source = ByteSource {
        inner: MemSource::new(trace.to_vec(alloc)?, vec![in alloc; pull]?),
    };
    let mut sink = ByteSink {
        inner: MemSink::new(vec![in alloc; 0u8; PLACES]?, vec![in alloc; push]?),
    };
    let words = words_of(alloc, words)?;
    let status = run(alloc, words.as_slice(), &mut source, &mut sink);
    Ok((status, sink.inner.put().to_vec(alloc)?))
}

/// Runs the row's trace a byte at a time, with a call that fails. Errors: another ending.
fn check_failing<R: AllocGlobal>(
    rt: &R,
    row: &Row,
    given: &[u8],
    failing: (u64, u64),
    status: u8,
    output: &[u8],
) -> Result<(), Fail> {
    let found = ran_by_bytes(rt, row.words, given, failing)?;
    check_end(row.trace, found, status, output)
}

/// The bytes of the replies to `lines` lines, and then `stop read`.
fn stopped_after<R: AllocGlobal>(rt: &R, output: &str, lines: usize) -> Result<Vec<u8>, Fail> {
    let mut told = front_of(rt, output, lines)?;
    told.extend_from_slice(b"stop read\n")?;
    Ok(told)
}

/// Lets each pull of a byte fail in turn, of a row whose output has a group of lines for each line of the trace. The
/// replies to the lines that had come are put, and then `stop read`, unless the last of all lines had come, which is
/// the one that stops the run. Errors: another output, or running out of memory.
pub fn check_pulls<R: AllocGlobal>(rt: &R, row: &Row) -> Result<(), Fail> {
    let given = spelled(rt, row.trace)?;
    let (mut ended, mut pull) = (0_usize, 0_u64);
    for byte in given.as_slice() {
        let told = stopped_after(rt, row.output, ended)?;
        check_failing(rt, row, given.as_slice(), (pull, NEVER), 3, told.as_slice())?;
        pull = pull.saturating_add(1);
        if *byte == b'\n' {
            ended = ended.saturating_add(1);
        }
    }
    if row.status == 0 {
        let told = stopped_after(rt, row.output, usize::MAX)?;
        check_failing(rt, row, given.as_slice(), (pull, NEVER), 3, told.as_slice())?;
        pull = pull.saturating_add(1);
    }
    let whole = spelled(rt, row.output)?;
    check_failing(
        rt,
        row,
        given.as_slice(),
        (pull, NEVER),
        row.status,
        whole.as_slice(),
    )
}

/// Lets each push of a byte fail in turn. Just the bytes before it are put. Errors: another output, or running out of
/// memory.
pub fn check_pushes<R: AllocGlobal>(rt: &R, row: &Row) -> Result<(), Fail> {
    let given = spelled(rt, row.trace)?;
    let whole = spelled(rt, row.output)?;
    let mut push = 0_u64;
    let mut told = Vec::new(rt.alloc());
    for byte in whole.as_slice() {
        check_failing(rt, row, given.as_slice(), (NEVER, push), 4, told.as_slice())?;
        push = push.saturating_add(1);
        told.push(*byte)?;
    }
    check_failing(
        rt,
        row,
        given.as_slice(),
        (NEVER, push),
        row.status,
        whole.as_slice(),
    )
}

/// Lets each pull and each push of each row of a table fail in turn, a byte at a time. Errors: another ending, a text
/// that isn't a row, or running out of memory.
pub fn check_faults<R: AllocGlobal>(rt: &R, rows: &str) -> Result<(), Fail> {
    for text in rows.split("\n\n") {
        let row = row_of(text)?;
        check_pulls(rt, &row)?;
        check_pushes(rt, &row)?;
    }
    Ok(())
}
