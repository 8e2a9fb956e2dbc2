//! The texts of marks and answers.
ghost use Rattle.std.specs.Prelude.{◌≡◌, ◌<◌, ◌≤◌, ◌+◌, ◌∷◌, [], ◌++◌, length, codes, decimal, IsTrue};
ghost use Rattle.plain_model.specs.Answers.{is_answer_to};
ghost use Rattle.trace_text.specs.Answers.{HasSmallMinors, HasExhibitValue};
ghost use Rattle.pmem_base.specs.declared.answers.Answer.TheVariants as Say;
ghost use Rattle.collision_witness.specs.Texts.{sentence, hex_text, line_text};
ghost use Rattle.plain_model.specs.Texts.{IsAnswerText, answer_text, mark_text, drained_words, place_words};

use crate::answers::is_in_range;
use crate::sentences::{push_with_number, push_with_three, push_with_two};
use arrayvec::ArrayVec;
use collision_witness::{
    push_bytes, push_count, push_counts, push_line, push_number, push_shown, push_tag,
};
use pmem_base::{Answer, Command, Line, Mark, Place, Stat, Tag};

/// Puts the text of a mark into an empty text, without its LF, as `write_mark` does for a new one.
#[tactic(auto, unfolding(plain_model::specs::Texts::mark_text))]
pub fn push_mark(text: &mut ArrayVec<u8, 512>, mark: &Mark)
    requires { text.old.items ≡ [] }
    ensures text { text.new.items ≡ mark_text mark.now }
    ensures room { length text.new.items < 512 }
{
    match mark {
        Mark::Begin { page } => push_counts(text, b"begin", &[u64::from(*page)]),
        Mark::Seal {
            at,
            ctr,
            cipher: _,
            tag,
        } => {
            push_counts(text, b"seal", &[u64::from(*at), ctr.major]);
            push_bytes(text, b".");
            push_number(text, u64::from(ctr.minor));
            push_bytes(text, b" ");
            push_tag(text, tag);
        }
    }
}

/// The text of a mark, without its LF.
pub fn write_mark(mark: &Mark) -> ArrayVec<u8, 512>
    ensures text { result.items ≡ mark_text mark.now }
    ensures room { length result.items < 512 }
{
    let mut text = ArrayVec::new();
    push_mark(&mut text, mark);
    text
}

/// Appends the answer of a cut drain or fence, which tells how its last write went.
fn push_cut(text: &mut ArrayVec<u8, 512>, how: &[u8], drained: Option<u8>, steps: u64)
    requires room { length text.old.items + length how.now ≤ 400 }
    ensures text { text.new.items ≡ text.old.items
        ++ sentence (codes "cut" ∷ how.now ∷ drained_words drained ++ decimal steps ∷ []) }
    ensures length { length text.new.items ≤ length text.old.items + length how.now + 46 }
{
    push_bytes(text, b"cut ");
    match drained {
        None => push_counts(text, how, &[steps]),
        Some(drained) => push_counts(text, how, &[u64::from(drained), steps]),
    }
}

/// Appends the answer that a page's major is used up.
fn push_spent(text: &mut ArrayVec<u8, 512>, drained: Option<u8>, page: u32, steps: u64)
    requires room { length text.old.items ≤ 400 }
    ensures text { text.new.items ≡ text.old.items
        ++ sentence (codes "spent" ∷ drained_words drained ++ decimal page ∷ decimal steps ∷ []) }
    ensures length { length text.new.items ≤ length text.old.items + 68 }
{
    push_bytes(text, b"spent");
    if let Some(drained) = drained {
        push_count(text, u64::from(drained));
    }
    push_count(text, u64::from(page));
    push_count(text, steps);
}

/// Appends a refusal that names a data line or a metadata line.
fn push_refused(text: &mut ArrayVec<u8, 512>, drained: Option<u8>, place: Place, steps: u64)
    requires room { length text.old.items ≤ 400 }
    ensures text { text.new.items ≡ text.old.items
        ++ sentence (codes "refused" ∷ drained_words drained ++ place_words place ++ decimal steps ∷ []) }
    ensures length { length text.new.items ≤ length text.old.items + 76 }
{
    push_bytes(text, b"refused");
    if let Some(drained) = drained {
        push_count(text, u64::from(drained));
    }
    match place {
        Place::Line { at } => push_counts(text, b" data", &[u64::from(at), steps]),
        Place::Meta { x } => push_counts(text, b" meta", &[u64::from(x), steps]),
    }
}

/// Appends the refusal of a root that isn't the one kept.
fn push_wrong_root(text: &mut ArrayVec<u8, 512>, kept: &Tag, found: &Tag, steps: u64)
    requires room { length text.old.items ≤ 400 }
    ensures text { text.new.items ≡ text.old.items
        ++ sentence (codes "refused" ∷ codes "root" ∷ hex_text kept.now ∷ hex_text found.now ∷ decimal steps ∷ []) }
    ensures length { length text.new.items ≤ length text.old.items + 99 }
{
    push_bytes(text, b"refused root ");
    push_tag(text, kept);
    push_bytes(text, b" ");
    push_tag(text, found);
    push_count(text, steps);
}

/// Appends a read's answer, by its line.
fn push_got(text: &mut ArrayVec<u8, 512>, line: &Line, steps: u64)
    requires room { length text.old.items ≤ 300 }
    ensures text { text.new.items ≡ text.old.items
        ++ sentence (codes "line" ∷ line_text line.now ∷ decimal steps ∷ []) }
    ensures length { length text.new.items ≤ length text.old.items + 154 }
{
    push_bytes(text, b"line ");
    push_line(text, line);
    push_count(text, steps);
}

/// Appends a device line as it is.
fn push_raw(text: &mut ArrayVec<u8, 512>, line: &Line)
    requires room { length text.old.items ≤ 300 }
    ensures text { text.new.items ≡ text.old.items ++ sentence (codes "raw" ∷ line_text line.now ∷ []) }
    ensures length { length text.new.items ≡ length text.old.items + 132 }
{
    push_bytes(text, b"raw ");
    push_line(text, line);
}

/// Appends the five counts.
#[tactic(auto, unfolding(plain_model::specs::Texts::answer_text))]
fn push_stat(text: &mut ArrayVec<u8, 512>, stat: &Stat)
    requires room { length text.old.items ≤ 400 }
    ensures text { text.new.items ≡ text.old.items ++ answer_text (Say.Counts stat.now) }
    ensures length { length text.new.items ≤ length text.old.items + 109 }
{
    push_counts(
        text,
        b"stat",
        &[
            stat.reads,
            stat.writes,
            stat.latches,
            stat.tags,
            stat.digests,
        ],
    );
}

/// Puts the text of an answer into an empty text, without its LF, as `write_answer` does for a new
/// one.
#[tactic(auto, unfolding(plain_model::specs::Texts::answer_text))]
pub fn push_answer(text: &mut ArrayVec<u8, 512>, answer: &Answer)
    requires empty { text.old.items ≡ [] }
    requires minors { HasSmallMinors answer.now }
    ensures text { text.new.items ≡ answer_text answer.now }
    ensures length { length text.new.items < 512 }
{
    match *answer {
        Answer::Ok => push_bytes(text, b"ok"),
        Answer::Drained { steps } => push_with_number(text, b"ok", steps),
        Answer::Fenced { drained, steps } => push_with_two(text, b"ok", u64::from(drained), steps),
        Answer::Turned { left, steps } => push_with_two(text, b"ok", u64::from(left), steps),
        Answer::Flushed { x, steps } => push_with_two(text, b"ok", u64::from(x), steps),
        Answer::Got { ref line, steps } => push_got(text, line, steps),
        Answer::CutKept { drained, steps } => push_cut(text, b"kept", drained, steps),
        Answer::CutLost { drained, steps } => push_cut(text, b"lost", drained, steps),
        Answer::Cut { steps } => push_with_number(text, b"cut", steps),
        Answer::Refused {
            drained,
            place,
            steps,
        } => push_refused(text, drained, place, steps),
        Answer::Spent {
            drained,
            page,
            steps,
        } => push_spent(text, drained, page, steps),
        Answer::Recovered {
            trials,
            digests,
            steps,
        } => push_with_three(text, b"on", trials, digests, steps),
        Answer::NoCounter { at, steps } => push_with_two(
            text,
            b"refused counter",
            u64::from(at),
            steps,
        ),
        Answer::WrongRoot {
            ref kept,
            ref found,
            steps,
        } => push_wrong_root(text, kept, found, steps),
        Answer::Raw { ref line } => push_raw(text, line),
        Answer::Counts(ref stat) => push_stat(text, stat),
        Answer::LossSet { steps } => push_with_number(text, b"ok", steps),
        Answer::Full => push_bytes(text, b"full"),
        Answer::Empty => push_bytes(text, b"empty"),
        Answer::Idle => push_bytes(text, b"idle"),
        Answer::Clean => push_bytes(text, b"clean"),
        Answer::Off => push_bytes(text, b"off"),
        Answer::Already => push_bytes(text, b"already"),
        Answer::Range => push_bytes(text, b"range"),
        Answer::NoSnap => push_bytes(text, b"none"),
        Answer::Shown(ref shown) => push_shown(text, shown),
    }
}

/// The text of an answer that the command can have, without its LF. `read_answer` reads it back, if the minor of a
/// forged line is in its range too.
pub fn write_answer(command: &Command, answer: &Answer) -> ArrayVec<u8, 512>
    requires listed { IsTrue (is_answer_to command.now answer.now) }
    requires minors { HasSmallMinors answer.now }
    ensures text { result.items ≡ answer_text answer.now }
    ensures room { length result.items < 512 }
    ensures read_back { HasExhibitValue answer.now → IsAnswerText command.now result.items answer.now }
{
    let _ = command;
    is_in_range(*answer);
    let mut text = ArrayVec::new();
    push_answer(&mut text, answer);
    text
}
