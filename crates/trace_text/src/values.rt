//! The ports and the parts of lines that words spell.
ghost use Rattle.std.specs.Prelude.{◌≡◌, ◌≤◌, IfOk};
ghost use Rattle.pmem_base.specs.Ranges.{IsPartLine};
ghost use Rattle.collision_witness.specs.Words.{words_of};
ghost use Rattle.plain_model.specs.Words.{port_of};
ghost use Rattle.plain_model.specs.Grammar.{one_number, two_numbers, one_port, part_of};
ghost use Rattle.trace_text.specs.Commands.{line_at_front};

use collision_witness::{one_word, read_number, two_words};
use pmem_base::{Kind, Line};

/// A number up to the greatest port. Errors: `Kind::Number` if the word isn't a number; `Kind::Port` if it is above
/// `most`.
#[tactic(auto, unfolding(plain_model::specs::Words::port_of))]
pub fn read_port(most: u8, word: &[u8]) -> Result<u8, Kind>
    ensures port { result ≡ port_of most word.now }
    ensures within { IfOk result (λ port. port ≤ most) }
{
    let number = read_number(word)?;
    if number <= u64::from(most) {
        Ok(number as u8)
    } else {
        Err(Kind::Port)
    }
}

/// The port of a text of exactly one word. Errors: `Kind::Count` for any other text; then those of `read_port`.
pub fn read_one_port(most: u8, text: &[u8]) -> Result<u8, Kind>
    ensures port { result ≡ one_port most (words_of text.now) }
    ensures within { IfOk result (λ port. port ≤ most) }
{
    read_port(most, one_word(text)?)
}

/// The number of a text of exactly one word. Errors: `Kind::Count` for any other text; `Kind::Number`.
pub fn read_one_number(text: &[u8]) -> Result<u64, Kind>
    ensures { result ≡ one_number (words_of text.now) }
{
    read_number(one_word(text)?)
}

/// The numbers of a text of exactly two words. Errors: `Kind::Count` for any other text; `Kind::Number`.
pub fn read_two_numbers(text: &[u8]) -> Result<(u64, u64), Kind>
    ensures { result ≡ two_numbers (words_of text.now) }
{
    let (first, second) = two_words(text)?;
    let first = read_number(first)?;
    let second = read_number(second)?;
    Ok((first, second))
}

/// The bytes of `count` pairs of hex digits, in either case, at the beginning of a line of zeros. Errors: `Kind::Hex`.
#[tactic(auto, unfolding(collision_witness::specs::Words::hex_bytes))]
fn read_front(word: &[u8], count: usize) -> Result<Line, Kind>
    requires { count ≤ 64 }
    ensures line { result ≡ line_at_front count word.now }
    ensures part { 1 ≤ count → IfOk result (IsPartLine count) }
{
    let mut bytes = [0; 64];
    let (front, _) = bytes.split_at_mut(count);
    match hex::decode_to_slice(word, front) {
        Ok(()) => {
            let line = Line(bytes);
            line.is_whole();
            Ok(line)
        }
        Err(_) => Err(Kind::Hex),
    }
}

/// How many bytes a part of a line has, with a line that has them first and zeros after them, by 2 to 128 hex digits,
/// an even number of them, in either case. Errors: `Kind::Hex`.
#[tactic(auto, unfolding(collision_witness::specs::Words::some_hex_bytes))]
pub fn read_part(word: &[u8]) -> Result<(u8, Line), Kind>
    ensures part { result ≡ part_of word.now }
    ensures whole { IfOk result (λ part. IsPartLine part.0 part.1) }
{
    if word.len() < 2 || word.len() > 128 {
        return Err(Kind::Hex);
    }
    let count = word.len() / 2;
    let line = read_front(word, count)?;
    Ok((count as u8, line))
}
