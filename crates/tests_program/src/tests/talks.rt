//! Sessions in a language of their own, over memory.
ghost use Rattle.std.specs.Prelude.{ℕ, List, [], ◌∷◌, ◌++◌, ◌≡◌, ◌+◌, ◌%◌, ⊤, codes};
ghost use Rattle.tests_program.specs.Echoes.{sort_of_echo};

use access_log::AccessLog;
use arrayvec::ArrayVec;
use pmem_base::{Exhibit, Kind, Line};
use pmem_cli::{MemSink, MemSource, talk_all};
use std::alloc::{AllocError, Global};
use std::process::Abort;
use std::test::Fail;
use tests_support::{ByteSink, ByteSource, NEVER};
use trace_text::{Halt, TEXT_BYTES, Talk};

/// The smallest session: it says a line of one byte back, with the number of lines said before, modulo 10. It allocates
/// for `m`, and shows two equal lines for `x`.
#[derive(Clone, Copy, Debug, PartialEq, Eq, Drop)]
struct Echo {
    said: u8,
}

impl Talk for Echo {
    ghost sort_of = { sort_of_echo };

    ghost answers = { λ old line text new. (text ≡ line ++ (48 + old.said % 10) ∷ []) × (new.said ≡ (old.said + 1) % 256) };

    ghost shows = { λ old line exhibit new. ⊤ };

    ghost wants_memory = { λ old line. line ≡ codes "m" };

    ghost logs = { λ old line log_old log_new new. log_new ≡ log_old };

    ghost work = { λ state. (0, 0) };

    fn talk(
        &mut self,
        _alloc: Global,
        line: &[u8],
        _log: &mut AccessLog,
    ) -> Result<Option<ArrayVec<u8, TEXT_BYTES>>, Halt> {
        if line.is_empty() {
            return Ok(None);
        }
        if line.len() > 1 {
            return Err(Halt::Line(Kind::Word));
        }
        if line[0] == b'm' {
            return Err(Halt::Memory);
        }
        if line[0] == b'x' {
            let zeros = Line([0; 64]);
            return Err(Halt::Shown(Exhibit::Clash {
                x: 0,
                first: zeros,
                second: zeros,
            }));
        }
        let mut text = ArrayVec::new();
        text.push(line[0]);
        text.push(b'0' + self.said % 10);
        self.said = self.said.wrapping_add(1);
        Ok(Some(text))
    }

    fn work(&self) -> (u64, u64) {
        (0, 0)
    }
}

/// Answers a trace by a session over memory. The pulls and the pushes of these numbers fail. Gives the status and what
/// was put.
fn talked<R: AllocGlobal>(
    rt: &R,
    trace: &[u8],
    (pull, push): (u64, u64),
) -> Result<(u8, Vec<u8>), AllocError> {
    let alloc = rt.alloc();
    let mut source = MemSource::new(trace.to_vec(alloc)?, vec![in alloc; pull]?);
    let mut sink = MemSink::new(vec![in alloc; 0u8; 4_000]?, vec![in alloc; push]?);
    let status = talk_all(alloc, Echo { said: 0 }, &mut source, &mut sink);
    Ok((status, sink.put().to_vec(alloc)?))
}

/// Answers a trace a byte at a time, as `talked` does.
fn talked_by_bytes<R: AllocGlobal>(
    rt: &R,
    trace: &[u8],
    (pull, push): (u64, u64),
) -> Result<(u8, Vec<u8>), AllocError> {
    let alloc = rt.alloc();
    let mut source = ByteSource {
        inner: MemSource::new(trace.to_vec(alloc)?, vec![in alloc; pull]?),
    };
    let mut sink = ByteSink {
        inner: MemSink::new(vec![in alloc; 0u8; 4_000]?, vec![in alloc; push]?),
    };
    let status = talk_all(alloc, Echo { said: 0 }, &mut source, &mut sink);
    Ok((status, sink.inner.put().to_vec(alloc)?))
}

/// Compares the status and the output with those that are due.
fn check_talk<R: Abort>(
    rt: &R,
    at: &str,
    found: Result<(u8, Vec<u8>), AllocError>,
    status: u8,
    output: &str,
) {
    assert!(rt; found.is_ok(), "no memory at {at}");
    if let Ok((ended, put)) = found {
        assert_eq!(rt; ended, status, "the status at {at}");
        assert_eq!(rt; put.as_slice(), output.as_bytes(), "the output at {at}");
    }
}

/// The trace, the status and the output, in great chunks and a byte at a time.
fn check_lines<R: Abort + AllocGlobal>(rt: &R, trace: &str, status: u8, output: &str) {
    let found = talked(rt, trace.as_bytes(), (NEVER, NEVER));
    check_talk(rt, trace, found, status, output);
    let found = talked_by_bytes(rt, trace.as_bytes(), (NEVER, NEVER));
    check_talk(rt, trace, found, status, output);
}

#[test]
fn answers_lines(rt: HostRuntime) -> Result<(), Fail> {
    let zeros = "0".repeat(rt.alloc(), 128)?;
    let shown = format!(in rt.alloc(); "a0\nclash 0 {zeros} {zeros}\n")?;
    check_lines(&rt, "", 0, "");
    check_lines(&rt, "a", 0, "a0\n");
    check_lines(&rt, "a\nb\n", 0, "a0\nb1\n");
    check_lines(&rt, "a\n\nb", 0, "a0\nb1\n");
    check_lines(
        &rt,
        "a\nb\nc\nd\ne\nf\ng\nh\ni\nj\nk\n",
        0,
        "a0\nb1\nc2\nd3\ne4\nf5\ng6\nh7\ni8\nj9\nk0\n",
    );
    check_lines(&rt, "a\nbb\nc\n", 5, "a0\nstop line 2 1\n");
    check_lines(&rt, "\n\nbb", 5, "stop line 3 1\n");
    check_lines(&rt, "a\nm\nc\n", 1, "a0\nstop memory\n");
    check_lines(&rt, "m", 1, "stop memory\n");
    check_lines(&rt, "a\nx\nc\n", 6, shown.as_str());
    check_lines(&rt, "a\nx", 6, shown.as_str());
    Ok(())
}

/// A limit on lines: a byte a number of times, the status and the output.
fn check_limit<R: Abort + AllocGlobal>(
    rt: &R,
    byte: u8,
    count: usize,
    status: u8,
    output: &str,
) -> Result<(), Fail> {
    let trace = vec![in rt.alloc(); byte; count]?;
    let found = talked(rt, trace.as_slice(), (NEVER, NEVER));
    check_talk(rt, output, found, status, output);
    Ok(())
}

#[test]
fn keeps_its_limits(rt: HostRuntime) -> Result<(), Fail> {
    check_limit(&rt, b'a', 1_024, 5, "stop line 1 1\n")?;
    check_limit(&rt, b'a', 1_025, 5, "stop line 1 6\n")?;
    check_limit(&rt, b'\n', 1_000_001, 7, "stop lines\n")?;
    Ok(())
}

/// A pull fails, a byte at a time.
fn check_pull<R: Abort + AllocGlobal>(rt: &R, pull: u64, output: &str) {
    let found = talked_by_bytes(rt, b"a\n\nb\n", (pull, NEVER));
    check_talk(rt, output, found, 3, output);
}

/// A push fails, a byte at a time.
fn check_push<R: Abort + AllocGlobal>(rt: &R, push: u64, output: &str) {
    let found = talked_by_bytes(rt, b"a\nbb\nc\n", (NEVER, push));
    check_talk(rt, output, found, 4, output);
}

#[test]
fn tells_each_fault(rt: HostRuntime) {
    check_pull(&rt, 0, "stop read\n");
    check_pull(&rt, 1, "stop read\n");
    check_pull(&rt, 2, "a0\nstop read\n");
    check_pull(&rt, 3, "a0\nstop read\n");
    check_pull(&rt, 4, "a0\nstop read\n");
    check_pull(&rt, 5, "a0\nb1\nstop read\n");
    check_push(&rt, 0, "");
    check_push(&rt, 1, "a");
    check_push(&rt, 2, "a0");
    check_push(&rt, 3, "a0\n");
    check_push(&rt, 4, "a0\ns");
    check_push(&rt, 16, "a0\nstop line 2 1");
    let found = talked_by_bytes(&rt, b"a\nbb\nc\n", (NEVER, 17));
    check_talk(&rt, "the end", found, 5, "a0\nstop line 2 1\n");
}
