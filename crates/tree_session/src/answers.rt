//! The answers of a memory over a counter tree, and their texts.
ghost use Rattle.std.specs.Prelude.{◌≡◌, ◌<◌, length};
ghost use Rattle.tree_session.specs.Answers.{tree_text};

use arrayvec::ArrayVec;
use collision_witness::{push_bytes, push_count, push_counts, push_line, push_tag};
use pmem_base::{Line, Tag};

/// What a command is answered. Steps are the line writes and latches that it took.
#[derive(Clone, Copy)]
pub enum TreeAnswer {
    /// A cut is set, power is off, a snapshot is taken, or a device line was changed.
    Ok,
    /// Power is off, so nothing was done.
    Off,
    /// Power was on.
    Already,
    /// The line doesn't exist.
    Range,
    /// No snapshot was taken.
    NoSnap,
    /// The line is written.
    Written { steps: u64 },
    /// A line that was read.
    Got { line: Line, steps: u64 },
    /// Power is on; recovery made `digests` digests.
    Recovered { digests: u64, steps: u64 },
    /// Node `x` isn't of the version that its parent has for it.
    RefusedNode { x: u32, steps: u64 },
    /// The tag of a data line doesn't fit its cipher.
    RefusedData { at: u32, steps: u64 },
    /// The root over the slot lines isn't the one that is kept.
    RefusedShadow { kept: Tag, found: Tag, steps: u64 },
    /// No write can be counted any more.
    Spent { steps: u64 },
    /// Power was cut, and the line is written.
    CutKept { steps: u64 },
    /// Power was cut, and the line isn't written.
    CutLost { steps: u64 },
    /// Power was cut in a read or in a recovery.
    Cut { steps: u64 },
}

/// The text of an answer, without its LF.
#[tactic(auto, unfolding(crate::specs::Answers::tree_text))]
pub fn write_tree_answer(answer: &TreeAnswer) -> ArrayVec<u8, 512>
    ensures text { result.items ≡ tree_text answer.now }
    ensures room { length result.items < 512 }
{
    let mut text = ArrayVec::new();
    match *answer {
        TreeAnswer::Ok => push_bytes(&mut text, b"ok"),
        TreeAnswer::Off => push_bytes(&mut text, b"off"),
        TreeAnswer::Already => push_bytes(&mut text, b"already"),
        TreeAnswer::Range => push_bytes(&mut text, b"range"),
        TreeAnswer::NoSnap => push_bytes(&mut text, b"none"),
        TreeAnswer::Written { steps } => push_counts(&mut text, b"ok", &[steps]),
        TreeAnswer::Got { ref line, steps } => {
            push_bytes(&mut text, b"line ");
            push_line(&mut text, line);
            push_count(&mut text, steps);
        }
        TreeAnswer::Recovered { digests, steps } => {
            push_counts(&mut text, b"on", &[digests, steps]);
        }
        TreeAnswer::RefusedNode { x, steps } => {
            push_counts(&mut text, b"refused node", &[u64::from(x), steps]);
        }
        TreeAnswer::RefusedData { at, steps } => {
            push_counts(&mut text, b"refused data", &[u64::from(at), steps]);
        }
        TreeAnswer::RefusedShadow {
            ref kept,
            ref found,
            steps,
        } => {
            push_bytes(&mut text, b"refused shadow ");
            push_tag(&mut text, kept);
            push_bytes(&mut text, b" ");
            push_tag(&mut text, found);
            push_count(&mut text, steps);
        }
        TreeAnswer::Spent { steps } => push_counts(&mut text, b"spent", &[steps]),
        TreeAnswer::CutKept { steps } => push_counts(&mut text, b"cut kept", &[steps]),
        TreeAnswer::CutLost { steps } => push_counts(&mut text, b"cut lost", &[steps]),
        TreeAnswer::Cut { steps } => push_counts(&mut text, b"cut", &[steps]),
    }
    text
}
