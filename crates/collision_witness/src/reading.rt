//! What a line shows.
ghost use Rattle.std.specs.Prelude.{◌≡◌, ◌≤◌, ◌∷◌, [], length, Err, IfOk, IfSome, IfNone};
ghost use Rattle.std.specs.List.{position_or_len, slice_split};
ghost use Rattle.pmem_base.specs.declared.commands.Kind.TheVariants as Kind;
ghost use Rattle.collision_witness.specs.Exhibits.{AreSmallMinors, HasSmallMinor};
ghost use Rattle.pmem_base.specs.Ranges.{IsExhibitValue};
ghost use Rattle.collision_witness.specs.Words.{words_of, number_up_to};
ghost use Rattle.collision_witness.specs.Reading.{is_dot, counter_of_parts, counter_of_word, short_number_of, clash_of, forged_of, twin_of, exhibit_of_words, exhibit_of_line};

use crate::ranges::{is_tag, is_u32, is_u64};
use crate::values::{read_line, read_number, read_number_up_to, read_tag};
use crate::words::{before_return, four_words, next_word, six_words, three_words};
use pmem_base::{Ctr, Exhibit, Kind};

/// The number of bytes before the first dot.
fn dot_index(word: &[u8]) -> usize
    ensures count { result ≡ position_or_len is_dot word.now }
    ensures within { result ≤ length word.now }
{
    for (i, byte) in word.iter().enumerate() {
        if *byte == b'.' {
            return i;
        }
    }
    word.len()
}

/// The parts of a word before and after its one dot.
fn parts_at_dot(word: &[u8]) -> Option<(&[u8], &[u8])>
    ensures some { IfSome result (λ parts. slice_split is_dot word.now ≡ parts.0.now ∷ parts.1.now ∷ []) }
    ensures none { IfNone result (counter_of_parts (slice_split is_dot word.now) ≡ Err Kind.Number) }
{
    let at = dot_index(word);
    if at == word.len() {
        return None;
    }
    let second = &word[at + 1..];
    if dot_index(second) < second.len() {
        return None;
    }
    Some((&word[..at], second))
}

/// A counter: a number, a dot and a number up to 127. Errors: `Kind::Number`.
#[tactic(auto, unfolding(crate::specs::Reading::counter_of_word))]
pub fn read_counter(word: &[u8]) -> Result<Ctr, Kind>
    ensures counter { result ≡ counter_of_word word.now }
    ensures small { IfOk result (λ ctr. ctr.minor ≤ 127) }
{
    let Some((first, second)) = parts_at_dot(word) else {
        return Err(Kind::Number);
    };
    let major = read_number(first)?;
    let minor = read_minor(second)?;
    Ok(Ctr { major, minor })
}

/// A number up to 127.
#[tactic(auto, unfolding(crate::specs::Words::number_up_to))]
fn read_minor(word: &[u8]) -> Result<u8, Kind>
    ensures minor { result ≡ number_up_to 127 word.now }
    ensures small { IfOk result (λ minor. minor ≤ 127) }
{
    Ok(read_number_up_to(127, word)? as u8)
}

/// A number below 2^32.
#[tactic(auto, unfolding(crate::specs::Words::number_up_to))]
fn read_short_number(word: &[u8]) -> Result<u32, Kind>
    ensures { result ≡ short_number_of word.now }
{
    Ok(read_number_up_to(u64::from(u32::MAX), word)? as u32)
}

/// The clash of the words behind `clash`: a position and two lines.
fn read_clash(text: &[u8]) -> Result<Exhibit, Kind>
    ensures exhibit { result ≡ clash_of (words_of text.now) }
    ensures minors { IfOk result AreSmallMinors }
    ensures counter { IfOk result HasSmallMinor }
{
    let (x, first, second) = three_words(text)?;
    let x = read_short_number(x)?;
    let first = read_line(first)?;
    let second = read_line(second)?;
    Ok(Exhibit::Clash { x, first, second })
}

/// The forged line of the words behind `forged`: a line's number, a counter, a cipher and a tag.
fn read_forged(text: &[u8]) -> Result<Exhibit, Kind>
    ensures exhibit { result ≡ forged_of (words_of text.now) }
    ensures minors { IfOk result AreSmallMinors }
    ensures counter { IfOk result HasSmallMinor }
{
    let (at, ctr, cipher, tag) = four_words(text)?;
    let at = read_short_number(at)?;
    let ctr = read_counter(ctr)?;
    let cipher = read_line(cipher)?;
    let tag = read_tag(tag)?;
    Ok(Exhibit::Forged {
        at,
        ctr,
        cipher,
        tag,
    })
}

/// The twin of the words behind `twin`: a line's number, a major, two minors, a cipher and a tag.
fn read_twin(text: &[u8]) -> Result<Exhibit, Kind>
    ensures exhibit { result ≡ twin_of (words_of text.now) }
    ensures minors { IfOk result AreSmallMinors }
    ensures counter { IfOk result HasSmallMinor }
{
    let (at, major, low, high, cipher, tag) = six_words(text)?;
    let at = read_short_number(at)?;
    let major = read_number(major)?;
    let low = read_minor(low)?;
    let high = read_minor(high)?;
    let cipher = read_line(cipher)?;
    let tag = read_tag(tag)?;
    Ok(Exhibit::Twin {
        at,
        major,
        low,
        high,
        cipher,
        tag,
    })
}

/// A law: an exhibit whose minors are in their range is in all its ranges.
fn is_in_range(shown: Exhibit)
    requires minors { AreSmallMinors shown }
    requires counter { HasSmallMinor shown }
    ensures { IsExhibitValue shown }
{
    match shown {
        Exhibit::Clash { x, first, second } => {
            is_u32(x);
            first.is_whole();
            second.is_whole();
        }
        Exhibit::Forged {
            at,
            ctr,
            cipher,
            tag,
        } => {
            is_u32(at);
            is_u64(ctr.major);
            cipher.is_whole();
            is_tag(&tag);
        }
        Exhibit::Twin {
            at,
            major,
            cipher,
            tag,
            ..
        } => {
            is_u32(at);
            is_u64(major);
            cipher.is_whole();
            is_tag(&tag);
        }
    }
}

/// The exhibit of a first word and the text behind it.
#[tactic(auto, unfolding(crate::specs::Reading::exhibit_of_words))]
fn read_named(name: &[u8], text: &[u8]) -> Result<Exhibit, Kind>
    ensures exhibit { result ≡ exhibit_of_words (name.now ∷ words_of text.now) }
    ensures minors { IfOk result AreSmallMinors }
    ensures counter { IfOk result HasSmallMinor }
{
    if name == b"clash".as_slice() {
        read_clash(text)
    } else if name == b"forged".as_slice() {
        read_forged(text)
    } else if name == b"twin".as_slice() {
        read_twin(text)
    } else {
        Err(Kind::Word)
    }
}

/// What a line shows, which is its bytes before its LF or the end, with its CR. An error tells the
/// first rule that the line breaks; a blank line and a comment have no exhibit, and are
/// `Kind::Word`.
#[tactic(auto, unfolding(crate::specs::Reading::exhibit_of_line, crate::specs::Reading::exhibit_of_words))]
pub fn read_shown(line: &[u8]) -> Result<Exhibit, Kind>
    ensures exhibit { result ≡ exhibit_of_line line.now }
    ensures minors { IfOk result AreSmallMinors }
    ensures range { IfOk result IsExhibitValue }
{
    if line.len() > 1024 {
        return Err(Kind::Long);
    }
    let Some((name, rest)) = next_word(before_return(line)) else {
        return Err(Kind::Word);
    };
    let shown = read_named(name, rest)?;
    is_in_range(shown);
    Ok(shown)
}
