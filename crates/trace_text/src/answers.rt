//! What a line says in answer to a command.
ghost use Rattle.std.specs.Prelude.{◌≡◌, ◌≤◌, ◌↔◌, Some, None, IsTrue, IfOk, IfSome, IfNone};
ghost use Rattle.pmem_base.specs.declared.answers.Answer.{Answer};
ghost use Rattle.pmem_base.specs.Ranges.{IsAnswer};
ghost use Rattle.collision_witness.specs.Words.{words_of};
ghost use Rattle.collision_witness.specs.Reading.{short_number_of};
ghost use Rattle.plain_model.specs.Texts.{IsAnswerText};
ghost use Rattle.trace_text.specs.Answers.{HasExhibitValue};
ghost use Rattle.trace_text.specs.Loose.{count_and_steps, drained_and_steps, ok_of, cut_of, refused_at, wrong_root_of, long_refusal, refused_of, spent_after, spent_of, got_of, raw_of, stat_of, recovered_of, plain_of, later_plain_of, shown_of, lone_answer, later_answer_of, answer_of_words, loose_answer_of};

use crate::listing::is_listed;
use crate::ranges::{is_drained, is_place, is_stat};
use crate::reading::{has_no_word, is_word};
use crate::values::read_one_number;
use crate::writing::push_answer;
use arrayvec::ArrayVec;
use collision_witness::ranges::{is_tag, is_u8, is_u32, is_u64};
use collision_witness::{
    four_words, next_word, one_word, read_line, read_number, read_number_up_to, read_shown,
    read_tag, three_words, two_words,
};
use pmem_base::{Answer, Command, Kind, Place, Stat};

/// A number up to a greatest one, and the steps.
fn read_count_and_steps(most: u64, text: &[u8]) -> Result<(u64, u64), Kind>
    ensures values { result ≡ count_and_steps most (words_of text.now) }
    ensures within { IfOk result (λ found. found.0 ≤ most) }
{
    let (count, steps) = two_words(text)?;
    let count = read_number_up_to(most, count)?;
    let steps = read_number(steps)?;
    Ok((count, steps))
}

/// How many writes were drained, if the text says it, and the steps. Errors: `Kind::Count` or `Kind::Number`.
fn read_drained_and_steps(text: &[u8]) -> Result<(Option<u8>, u64), Kind>
    ensures { result ≡ drained_and_steps (words_of text.now) }
{
    match read_count_and_steps(255, text) {
        Ok((drained, steps)) => Ok((Some(drained as u8), steps)),
        Err(_) => {
            let steps = read_one_number(text)?;
            Ok((None, steps))
        }
    }
}

/// The answer behind `ok`, which the command tells apart.
fn read_ok(command: &Command, text: &[u8]) -> Result<Answer, Kind>
    ensures answer { result ≡ ok_of command.now (words_of text.now) }
    ensures shown { IfOk result HasExhibitValue }
{
    match command {
        Command::Drain { .. } => {
            let steps = read_one_number(text)?;
            Ok(Answer::Drained { steps })
        }
        Command::Fence { .. } => {
            let (drained, steps) = read_count_and_steps(255, text)?;
            let drained = drained as u8;
            Ok(Answer::Fenced { drained, steps })
        }
        Command::Turn => {
            let (left, steps) = read_count_and_steps(255, text)?;
            let left = left as u8;
            Ok(Answer::Turned { left, steps })
        }
        Command::Flush => {
            let (x, steps) = read_count_and_steps(u64::from(u32::MAX), text)?;
            let x = x as u32;
            Ok(Answer::Flushed { x, steps })
        }
        Command::Loss { .. } => {
            let steps = read_one_number(text)?;
            Ok(Answer::LossSet { steps })
        }
        Command::Post { .. } | Command::Part { .. } | Command::Read { .. } => read_alone(
            Answer::Ok,
            text,
        ),
        Command::Cut { .. } | Command::Off | Command::On => read_alone(Answer::Ok, text),
        Command::Poke { .. } | Command::Flip { .. } | Command::Move { .. } => read_alone(
            Answer::Ok,
            text,
        ),
        Command::Snap | Command::Back { .. } | Command::Peek { .. } => read_alone(Answer::Ok, text),
        Command::Stat => read_alone(Answer::Ok, text),
    }
}

/// An answer behind which no word stands.
fn read_alone(answer: Answer, text: &[u8]) -> Result<Answer, Kind>
    requires { HasExhibitValue answer }
    ensures answer { result ≡ lone_answer answer (words_of text.now) }
    ensures shown { IfOk result HasExhibitValue }
{
    has_no_word(text)?;
    Ok(answer)
}

/// The answer behind `cut`.
fn read_cut(text: &[u8]) -> Result<Answer, Kind>
    ensures answer { result ≡ cut_of (words_of text.now) }
    ensures shown { IfOk result HasExhibitValue }
{
    let Some((how, rest)) = next_word(text) else {
        return Err(Kind::Count);
    };
    if is_word(how, b"kept") {
        let (drained, steps) = read_drained_and_steps(rest)?;
        Ok(Answer::CutKept { drained, steps })
    } else if is_word(how, b"lost") {
        let (drained, steps) = read_drained_and_steps(rest)?;
        Ok(Answer::CutLost { drained, steps })
    } else {
        let steps = read_one_number(text)?;
        Ok(Answer::Cut { steps })
    }
}

/// A number below 2^32.
fn read_short_number(word: &[u8]) -> Result<u32, Kind>
    ensures { result ≡ short_number_of word.now }
{
    Ok(read_number_up_to(u64::from(u32::MAX), word)? as u32)
}

/// The refusal of a place.
fn read_refused_at(
    drained: Option<u8>,
    name: &[u8],
    at: &[u8],
    steps: &[u8],
) -> Result<Answer, Kind>
    ensures answer { result ≡ refused_at drained (name.now, at.now, steps.now) }
    ensures shown { IfOk result HasExhibitValue }
{
    let at = read_short_number(at)?;
    let steps = read_number(steps)?;
    if is_word(name, b"data") {
        let place = Place::Line { at };
        Ok(Answer::Refused {
            drained,
            place,
            steps,
        })
    } else if is_word(name, b"meta") {
        let place = Place::Meta { x: at };
        Ok(Answer::Refused {
            drained,
            place,
            steps,
        })
    } else if is_word(name, b"counter") {
        Ok(Answer::NoCounter { at, steps })
    } else {
        Err(Kind::Word)
    }
}

/// The refusal of a root, by two tags and the steps.
fn read_wrong_root(kept: &[u8], found: &[u8], steps: &[u8]) -> Result<Answer, Kind>
    ensures answer { result ≡ wrong_root_of (kept.now, found.now, steps.now) }
    ensures shown { IfOk result HasExhibitValue }
{
    let kept = read_tag(kept)?;
    let found = read_tag(found)?;
    let steps = read_number(steps)?;
    Ok(Answer::WrongRoot { kept, found, steps })
}

/// The answer behind `refused`.
fn read_refused(text: &[u8]) -> Result<Answer, Kind>
    ensures answer { result ≡ refused_of (words_of text.now) }
    ensures shown { IfOk result HasExhibitValue }
{
    if let Ok((name, at, steps)) = three_words(text) {
        return read_refused_at(None, name, at, steps);
    }
    let (first, second, third, steps) = four_words(text)?;
    if is_word(first, b"root") {
        return read_wrong_root(second, third, steps);
    }
    let drained = read_number_up_to(255, first)? as u8;
    read_refused_at(Some(drained), second, third, steps)
}

/// The answer that a page's major is used up.
fn read_spent_after(drained: Option<u8>, page: &[u8], steps: &[u8]) -> Result<Answer, Kind>
    ensures answer { result ≡ spent_after drained (page.now, steps.now) }
    ensures shown { IfOk result HasExhibitValue }
{
    let page = read_short_number(page)?;
    let steps = read_number(steps)?;
    Ok(Answer::Spent {
        drained,
        page,
        steps,
    })
}

/// The answer behind `spent`.
fn read_spent(text: &[u8]) -> Result<Answer, Kind>
    ensures answer { result ≡ spent_of (words_of text.now) }
    ensures shown { IfOk result HasExhibitValue }
{
    if let Ok((page, steps)) = two_words(text) {
        return read_spent_after(None, page, steps);
    }
    let (drained, page, steps) = three_words(text)?;
    let drained = read_number_up_to(255, drained)? as u8;
    read_spent_after(Some(drained), page, steps)
}

/// The answer behind `line`.
fn read_got(text: &[u8]) -> Result<Answer, Kind>
    ensures answer { result ≡ got_of (words_of text.now) }
    ensures shown { IfOk result HasExhibitValue }
{
    let (line, steps) = two_words(text)?;
    let line = read_line(line)?;
    let steps = read_number(steps)?;
    Ok(Answer::Got { line, steps })
}

/// The answer behind `on`.
fn read_recovered(text: &[u8]) -> Result<Answer, Kind>
    ensures answer { result ≡ recovered_of (words_of text.now) }
    ensures shown { IfOk result HasExhibitValue }
{
    let (trials, digests, steps) = three_words(text)?;
    let trials = read_number(trials)?;
    let digests = read_number(digests)?;
    let steps = read_number(steps)?;
    Ok(Answer::Recovered {
        trials,
        digests,
        steps,
    })
}

/// The answer behind `raw`.
fn read_raw(text: &[u8]) -> Result<Answer, Kind>
    ensures answer { result ≡ raw_of (words_of text.now) }
    ensures shown { IfOk result HasExhibitValue }
{
    let line = read_line(one_word(text)?)?;
    Ok(Answer::Raw { line })
}

/// The answer behind `stat`.
fn read_stat(text: &[u8]) -> Result<Answer, Kind>
    ensures answer { result ≡ stat_of (words_of text.now) }
    ensures shown { IfOk result HasExhibitValue }
{
    let Some((reads, rest)) = next_word(text) else {
        return Err(Kind::Count);
    };
    let (writes, latches, tags, digests) = four_words(rest)?;
    let reads = read_number(reads)?;
    let writes = read_number(writes)?;
    let latches = read_number(latches)?;
    let tags = read_number(tags)?;
    let digests = read_number(digests)?;
    Ok(Answer::Counts(Stat {
        reads,
        writes,
        latches,
        tags,
        digests,
    }))
}

/// The answer that a word is by itself.
fn read_plain(name: &[u8]) -> Result<Answer, Kind>
    ensures answer { result ≡ plain_of name.now }
    ensures shown { IfOk result HasExhibitValue }
{
    if is_word(name, b"full") {
        return Ok(Answer::Full);
    }
    if is_word(name, b"empty") {
        return Ok(Answer::Empty);
    }
    if is_word(name, b"idle") {
        return Ok(Answer::Idle);
    }
    if is_word(name, b"clean") {
        return Ok(Answer::Clean);
    }
    read_later_plain(name)
}

/// The answer that a word is by itself, if it isn't `full`, `empty`, `idle` or `clean`.
fn read_later_plain(name: &[u8]) -> Result<Answer, Kind>
    ensures answer { result ≡ later_plain_of name.now }
    ensures shown { IfOk result HasExhibitValue }
{
    if is_word(name, b"off") {
        return Ok(Answer::Off);
    }
    if is_word(name, b"already") {
        return Ok(Answer::Already);
    }
    if is_word(name, b"range") {
        return Ok(Answer::Range);
    }
    if is_word(name, b"none") {
        return Ok(Answer::NoSnap);
    }
    Err(Kind::Word)
}

/// The answer that an exhibit's line is.
fn read_exhibit(line: &[u8]) -> Result<Answer, Kind>
    ensures answer { result ≡ shown_of line.now }
    ensures shown { IfOk result HasExhibitValue }
{
    let shown = read_shown(line)?;
    Ok(Answer::Shown(shown))
}

/// The answer of a line that may have leading zeros, hex digits in upper case and any gaps.
#[tactic(auto, unfolding(crate::specs::Loose::answer_of_words))]
fn read_loosely(command: &Command, line: &[u8]) -> Result<Answer, Kind>
    ensures answer { result ≡ loose_answer_of command.now line.now }
    ensures shown { IfOk result HasExhibitValue }
{
    let Some((name, rest)) = next_word(line) else {
        return Err(Kind::Word);
    };
    if is_word(name, b"ok") {
        return read_ok(command, rest);
    }
    if is_word(name, b"cut") {
        return read_cut(rest);
    }
    if is_word(name, b"refused") {
        return read_refused(rest);
    }
    if is_word(name, b"spent") {
        return read_spent(rest);
    }
    read_later_answer(line, name, rest)
}

/// The answer of a line by its first word, which isn't `ok`, `cut`, `refused` or `spent`, and the text behind it.
fn read_later_answer(line: &[u8], name: &[u8], text: &[u8]) -> Result<Answer, Kind>
    ensures answer { result ≡ later_answer_of line.now name.now (words_of text.now) }
    ensures shown { IfOk result HasExhibitValue }
{
    if is_word(name, b"line") {
        return read_got(text);
    }
    if is_word(name, b"on") {
        return read_recovered(text);
    }
    if is_word(name, b"raw") {
        return read_raw(text);
    }
    if is_word(name, b"stat") {
        return read_stat(text);
    }
    match read_plain(name) {
        Ok(answer) => read_alone(answer, text),
        Err(_) => read_exhibit(line),
    }
}

/// A law: an answer whose exhibit is in its ranges is in its ranges.
pub(crate) fn is_in_range(answer: Answer)
    ensures { HasExhibitValue answer → IsAnswer answer }
{
    match answer {
        Answer::Drained { steps } | Answer::Cut { steps } | Answer::LossSet { steps } => {
            is_u64(steps)
        }
        Answer::Fenced {
            drained: count,
            steps,
        }
        | Answer::Turned { left: count, steps } => {
            is_u8(count);
            is_u64(steps);
        }
        Answer::Flushed { x, steps } | Answer::NoCounter { at: x, steps } => {
            is_u32(x);
            is_u64(steps);
        }
        Answer::Got { line, steps } => {
            line.is_whole();
            is_u64(steps);
        }
        Answer::CutKept { drained, steps } | Answer::CutLost { drained, steps } => {
            is_drained(drained);
            is_u64(steps);
        }
        Answer::Refused {
            drained,
            place,
            steps,
        } => {
            is_drained(drained);
            is_place(place);
            is_u64(steps);
        }
        Answer::Spent {
            drained,
            page,
            steps,
        } => {
            is_drained(drained);
            is_u32(page);
            is_u64(steps);
        }
        Answer::Recovered {
            trials,
            digests,
            steps,
        } => {
            is_u64(trials);
            is_u64(digests);
            is_u64(steps);
        }
        Answer::WrongRoot { kept, found, steps } => {
            is_tag(&kept);
            is_tag(&found);
            is_u64(steps);
        }
        Answer::Raw { line } => line.is_whole(),
        Answer::Counts(stat) => is_stat(stat),
        Answer::Ok | Answer::Full | Answer::Empty | Answer::Idle | Answer::Clean => {}
        Answer::Off | Answer::Already | Answer::Range | Answer::NoSnap => {}
        Answer::Shown(_) => {}
    }
}

/// Whether a line is the text of an answer to a command.
fn is_text_of(command: &Command, answer: &Answer, line: &[u8]) -> bool
    requires { HasExhibitValue answer.now }
    ensures { IsTrue result ↔ IsAnswerText command.now line.now answer.now }
{
    if !is_listed(command, answer) {
        return false;
    }
    is_in_range(*answer);
    let mut text = ArrayVec::new();
    push_answer(&mut text, answer);
    text.as_slice() == line
}

/// The answer to a command that a line is the text of, without its LF: just what `write_answer`
/// writes, with one space between words, no zeros in front and hex in lower case.
pub fn read_answer(command: &Command, line: &[u8]) -> Option<Answer>
    ensures some { IfSome result (IsAnswerText command.now line.now) }
    ensures none { IfNone result ((answer : Answer) → ¬ IsAnswerText command.now line.now answer) }
    ensures read_back { (answer : Answer) → IsAnswerText command.now line.now answer → result ≡ Some answer }
{
    match read_loosely(command, line) {
        Err(_) => None,
        Ok(answer) => {
            if is_text_of(command, &answer, line) {
                Some(answer)
            } else {
                None
            }
        }
    }
}
