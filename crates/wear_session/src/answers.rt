//! The answers of a levelled memory, and their texts.
ghost use Rattle.std.specs.Prelude.{◌≡◌, ◌<◌, length};
ghost use Rattle.wear_session.specs.Answers.{wear_text};

use arrayvec::ArrayVec;
use collision_witness::{push_bytes, push_count, push_counts, push_line};
use pmem_base::Line;

/// What a command is answered. Steps are the line writes and latches that it took.
#[derive(Clone, Copy)]
pub enum WearAnswer {
    /// A cut is set, or power was turned off.
    Ok,
    /// Power is off, so nothing was done.
    Off,
    /// Power was on.
    Already,
    /// The logical line doesn't exist.
    Range,
    /// The line is written, and its move, if one was due, is made.
    Written { steps: u64 },
    /// The line is written, and the move stays out: the counter of a line of it, which lies in this page, is
    /// used up.
    Held { page: u32, steps: u64 },
    /// The counter of the line's place, which lies in this page, is used up, so nothing was written.
    Spent { page: u32, steps: u64 },
    /// Power was cut, and the line is written.
    CutKept { steps: u64 },
    /// Power was cut, and the line isn't written.
    CutLost { steps: u64 },
    /// Power was cut in a read or in a recovery.
    Cut { steps: u64 },
    /// A line that was read.
    Got { line: Line, steps: u64 },
    /// The place of a logical line.
    At { place: u32 },
    /// Power is on, under this wear.
    Opened { start: u32, gap: u32, steps: u64 },
}

/// The text of an answer, without its LF.
#[tactic(auto, unfolding(crate::specs::Answers::wear_text))]
pub fn write_wear_answer(answer: &WearAnswer) -> ArrayVec<u8, 512>
    ensures text { result.items ≡ wear_text answer.now }
    ensures room { length result.items < 512 }
{
    let mut text = ArrayVec::new();
    match *answer {
        WearAnswer::Ok => push_bytes(&mut text, b"ok"),
        WearAnswer::Off => push_bytes(&mut text, b"off"),
        WearAnswer::Already => push_bytes(&mut text, b"already"),
        WearAnswer::Range => push_bytes(&mut text, b"range"),
        WearAnswer::Written { steps } => push_counts(&mut text, b"ok", &[steps]),
        WearAnswer::Held { page, steps } => {
            push_counts(&mut text, b"held", &[u64::from(page), steps]);
        }
        WearAnswer::Spent { page, steps } => {
            push_counts(&mut text, b"spent", &[u64::from(page), steps]);
        }
        WearAnswer::CutKept { steps } => push_counts(&mut text, b"cut kept", &[steps]),
        WearAnswer::CutLost { steps } => push_counts(&mut text, b"cut lost", &[steps]),
        WearAnswer::Cut { steps } => push_counts(&mut text, b"cut", &[steps]),
        WearAnswer::Got { ref line, steps } => {
            push_bytes(&mut text, b"line ");
            push_line(&mut text, line);
            push_count(&mut text, steps);
        }
        WearAnswer::At { place } => push_counts(&mut text, b"at", &[u64::from(place)]),
        WearAnswer::Opened { start, gap, steps } => {
            push_counts(&mut text, b"on", &[u64::from(start), u64::from(gap), steps]);
        }
    }
    text
}
