//! The numbers, lines and tags that words spell.
ghost use Rattle.std.specs.Prelude.{◌≡◌, ◌≤◌, IsTrue, IfOk};
ghost use Rattle.std.specs.List.{list_all};
ghost use Rattle.std.specs.Char.{is_ascii_digit};
ghost use Rattle.std.specs.Str.Parse.{digits_value};
ghost use Rattle.collision_witness.specs.Words.{number_of, number_up_to, is_numeral, hex_bytes, hex_line};

use pmem_base::{Kind, Line, Tag};

/// Whether each byte is a digit.
fn are_digits(word: &[u8]) -> bool
    ensures { result ≡ list_all is_ascii_digit word.now }
{
    word.iter().all(|byte| byte.is_ascii_digit())
}

/// Whether a word is one to twenty digits.
fn is_number_form(word: &[u8]) -> bool
    ensures { result ≡ is_numeral word.now }
{
    1 <= word.len() && word.len() <= 20 && are_digits(word)
}

/// The value of one to twenty digits.
fn value_of(word: &[u8]) -> u128
    requires { IsTrue (is_numeral word.now) }
    ensures { result ≡ digits_value 10 word.now }
{
    let mut value: u128 = 0;
    for byte in word {
        value = value * 10 + (*byte - b'0') as u128;
    }
    value
}

/// A number of one to twenty digits that is at most `most`, or `Kind::Number`.
#[tactic(auto, unfolding(crate::specs::Words::number_up_to))]
pub fn read_number_up_to(most: u64, word: &[u8]) -> Result<u64, Kind>
    ensures number { result ≡ number_up_to most word.now }
    ensures within { IfOk result (λ number. number ≤ most) }
{
    if !is_number_form(word) {
        return Err(Kind::Number);
    }
    let value = value_of(word);
    if value <= u128::from(most) {
        Ok(value as u64)
    } else {
        Err(Kind::Number)
    }
}

/// A number below 2^64, or `Kind::Number`.
pub fn read_number(word: &[u8]) -> Result<u64, Kind>
    ensures { result ≡ number_of word.now }
{
    read_number_up_to(u64::MAX, word)
}

/// A line by its 128 hex digits, in either case, or `Kind::Hex`.
#[tactic(auto, unfolding(crate::specs::Words::hex_bytes))]
pub fn read_line(word: &[u8]) -> Result<Line, Kind>
    ensures { result ≡ hex_line word.now }
{
    let mut bytes = [0; 64];
    match hex::decode_to_slice(word, &mut bytes) {
        Ok(()) => Ok(Line(bytes)),
        Err(_) => Err(Kind::Hex),
    }
}

/// A tag by its 32 hex digits, in either case, or `Kind::Hex`.
#[tactic(auto, unfolding(crate::specs::Words::hex_bytes))]
pub fn read_tag(word: &[u8]) -> Result<Tag, Kind>
    ensures { result ≡ hex_bytes 16 word.now }
{
    let mut bytes = [0; 16];
    match hex::decode_to_slice(word, &mut bytes) {
        Ok(()) => Ok(bytes),
        Err(_) => Err(Kind::Hex),
    }
}
