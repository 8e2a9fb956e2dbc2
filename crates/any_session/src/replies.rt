//! The texts of replies, kept on the heap.
ghost use Rattle.std.specs.Prelude.{◌≡◌, ◌≢◌, ◌-◌, ◌++◌, [], None, true};
ghost use Rattle.plain_model.specs.Texts.{answer_text, as_line, marks_text};
ghost use Rattle.trace_text.specs.Answers.{HasSmallMinors};
ghost use Rattle.pmem_cli.specs.Logged.{access_text, accesses_text, log_text, work_text};
ghost use Rattle.any_session.specs.Told.{IsTextKept, begun_log, kept_text, log_before};

use access_log::AccessLog;
use arrayvec::ArrayVec;
use board::Access;
use pmem_base::{Answer, Mark};
use pmem_cli::{push_access, push_work};
use std::alloc::Global;
use trace_text::{push_answer, write_mark};

/// Appends a text and its LF to a reply, or empties the reply if there is no memory for them. Answers whether the reply
/// is kept.
fn push_line(reply: &mut Vec<u8>, text: &[u8]) -> bool
    ensures { reply.new.items ≡ kept_text result (reply.old.items ++ as_line text.now) }
{
    if reply.extend_from_slice(text).is_err() || reply.push(b'\n').is_err() {
        reply.clear();
        return false;
    }
    true
}

/// Puts the text of an answer and its LF at the end of a reply, as `push_line` does.
fn push_answer_line(reply: &mut Vec<u8>, answer: &Answer) -> bool
    requires { HasSmallMinors answer.now }
    ensures { reply.new.items ≡ kept_text result (reply.old.items ++ as_line (answer_text answer.now)) }
{
    let mut text = ArrayVec::new();
    push_answer(&mut text, answer);
    push_line(reply, text.as_slice())
}

/// Puts the texts of marks, in order and each with its LF, at the end of a reply, as `push_line` does.
fn push_marks(reply: &mut Vec<u8>, marks: &[Mark]) -> bool
    ensures { reply.new.items ≡ kept_text result (reply.old.items ++ marks_text marks.now) }
{
    'each: for mark in marks {
        if !push_line(reply, write_mark(mark).as_slice()) {
            return false;
        }
    }
    true
}

/// Puts the text of an access and its LF at the end of a reply, as `push_line` does.
fn push_access_line(reply: &mut Vec<u8>, access: &Access) -> bool
    ensures { reply.new.items ≡ kept_text result (reply.old.items ++ as_line (access_text access.now)) }
{
    let mut text = ArrayVec::new();
    push_access(&mut text, access);
    push_line(reply, text.as_slice())
}

/// Puts the texts of accesses, in order and each with its LF, at the end of a reply, as `push_line` does.
fn push_accesses(reply: &mut Vec<u8>, accesses: &[Access]) -> bool
    ensures { reply.new.items ≡ kept_text result (reply.old.items ++ accesses_text accesses.now) }
{
    'each: for access in accesses {
        if !push_access_line(reply, access) {
            return false;
        }
    }
    true
}

/// Appends the line of `work` with these numbers of tags and digests, and its LF, to a reply, as `push_line` does.
fn push_work_line(reply: &mut Vec<u8>, tags: u64, digests: u64) -> bool
    ensures { reply.new.items ≡ kept_text result (reply.old.items ++ as_line (work_text tags digests)) }
{
    let mut text = ArrayVec::new();
    push_work(&mut text, tags, digests);
    push_line(reply, text.as_slice())
}

/// A log for the next command, if the session prints logs.
pub(crate) fn begin_log(alloc: Global, logged: bool) -> AccessLog
    ensures { result ≡ begun_log logged }
{
    if logged {
        AccessLog::empty(alloc)
    } else {
        AccessLog::none()
    }
}

/// Keeps the log of a command, if the session prints logs, with the tags and digests that were made since these
/// numbers. Answers whether it is kept: it isn't if the log was lost, or if there is no memory for its text.
fn keep_log(
    reply: &mut Vec<u8>,
    logged: bool,
    log: &AccessLog,
    before: (u64, u64),
    after: (u64, u64),
) -> bool
    requires empty { reply.old.items ≡ [] }
    ensures text { reply.new.items ≡ kept_text result (log_before logged log.now (after.0 - before.0) (after.1 - before.1)) }
    ensures whole { result ≡ true → logged ≡ true → log.now ≢ None }
{
    if !logged {
        return true;
    }
    let Some(accesses) = log.accesses() else {
        return false;
    };
    let tags = after.0.saturating_sub(before.0);
    let digests = after.1.saturating_sub(before.1);
    push_accesses(reply, accesses) && push_work_line(reply, tags, digests)
}

/// Keeps a reply of one line, with the log of its command before it if the session prints logs. Answers whether it is
/// kept.
#[tactic(auto, using(crate::proofs::Kept::text_kept))]
pub(crate) fn keep_line(
    reply: &mut Vec<u8>,
    logged: bool,
    log: &AccessLog,
    before: (u64, u64),
    after: (u64, u64),
    text: &[u8],
) -> bool
    requires empty { reply.old.items ≡ [] }
    ensures { IsTextKept logged log.now (after.0 - before.0) (after.1 - before.1) (as_line text.now) result reply.new.items }
{
    keep_log(reply, logged, log, before, after) && push_line(reply, text)
}

/// Keeps a reply of the world: its marks in the order made, and its answer, with the log of its command before them if
/// the session prints logs. Answers whether it is kept.
#[tactic(auto, using(crate::proofs::Kept::text_kept))]
pub(crate) fn keep_reply(
    reply: &mut Vec<u8>,
    logged: bool,
    log: &AccessLog,
    before: (u64, u64),
    after: (u64, u64),
    marks: &[Mark],
    answer: &Answer,
) -> bool
    requires empty { reply.old.items ≡ [] }
    requires minors { HasSmallMinors answer.now }
    ensures { IsTextKept logged log.now (after.0 - before.0) (after.1 - before.1)
        (marks_text marks.now ++ as_line (answer_text answer.now)) result reply.new.items }
{
    keep_log(reply, logged, log, before, after)
        && push_marks(reply, marks)
        && push_answer_line(reply, answer)
}
