//! The answers of a memory that is written by transactions, and their texts.
ghost use Rattle.std.specs.Prelude.{◌≡◌, ◌<◌, length};
ghost use Rattle.txn_session.specs.Answers.{txn_text};

use arrayvec::ArrayVec;
use collision_witness::{push_bytes, push_count, push_counts, push_line};
use pmem_base::Line;

/// What a command is answered. Steps are the line writes and latches that it took.
#[derive(Clone, Copy)]
pub enum TxnAnswer {
    /// It is done, with no step.
    Ok,
    /// Power is off, so nothing was done.
    Off,
    /// Power was on.
    Already,
    /// The store is stuck at a line of this page, so no transaction is opened.
    Blocked { page: u32 },
    /// A transaction is open.
    Busy,
    /// No transaction is open.
    Closed,
    /// The data line doesn't exist.
    Range,
    /// Fifteen other lines are in the transaction.
    Full,
    /// The transaction is written, each line to its place.
    Applied { steps: u64 },
    /// The transaction is in force, and a line of this page is spent, so its targets are read from the log.
    Stuck { page: u32, steps: u64 },
    /// A line of the log, which lies in this page, is spent, so the transaction isn't written.
    Spent { page: u32, steps: u64 },
    /// Power was cut, and the transaction is written.
    CutKept { steps: u64 },
    /// Power was cut, and the transaction isn't written.
    CutLost { steps: u64 },
    /// Power was cut in a read or in a recovery.
    Cut { steps: u64 },
    /// A line that was read.
    Got { line: Line, steps: u64 },
    /// Power is on, and a transaction of `redone` lines was redone.
    Opened { redone: u8, steps: u64 },
}

/// The text of an answer, without its LF.
#[tactic(auto, unfolding(crate::specs::Answers::txn_text))]
pub fn write_txn_answer(answer: &TxnAnswer) -> ArrayVec<u8, 512>
    ensures text { result.items ≡ txn_text answer.now }
    ensures room { length result.items < 512 }
{
    let mut text = ArrayVec::new();
    match *answer {
        TxnAnswer::Ok => push_bytes(&mut text, b"ok"),
        TxnAnswer::Off => push_bytes(&mut text, b"off"),
        TxnAnswer::Already => push_bytes(&mut text, b"already"),
        TxnAnswer::Blocked { page } => push_counts(&mut text, b"stuck", &[u64::from(page)]),
        TxnAnswer::Busy => push_bytes(&mut text, b"busy"),
        TxnAnswer::Closed => push_bytes(&mut text, b"closed"),
        TxnAnswer::Range => push_bytes(&mut text, b"range"),
        TxnAnswer::Full => push_bytes(&mut text, b"full"),
        TxnAnswer::Applied { steps } => push_counts(&mut text, b"ok", &[steps]),
        TxnAnswer::Stuck { page, steps } => {
            push_counts(&mut text, b"stuck", &[u64::from(page), steps]);
        }
        TxnAnswer::Spent { page, steps } => {
            push_counts(&mut text, b"spent", &[u64::from(page), steps]);
        }
        TxnAnswer::CutKept { steps } => push_counts(&mut text, b"cut kept", &[steps]),
        TxnAnswer::CutLost { steps } => push_counts(&mut text, b"cut lost", &[steps]),
        TxnAnswer::Cut { steps } => push_counts(&mut text, b"cut", &[steps]),
        TxnAnswer::Got { ref line, steps } => {
            push_bytes(&mut text, b"line ");
            push_line(&mut text, line);
            push_count(&mut text, steps);
        }
        TxnAnswer::Opened { redone, steps } => {
            push_counts(&mut text, b"on", &[u64::from(redone), steps]);
        }
    }
    text
}
