//! Lines by their hex digits, in loops that the compiler makes wide.
ghost use Rattle.std.specs.Prelude.{◌≡◌, ◌<◌, ℕ, length, true, Ok, Some};
ghost use Rattle.std.specs.List.{AllPass, list_all};
ghost use Rattle.hex.specs.Hex.{is_hex_digit, hex_digit_value, pair_value};
ghost use Rattle.collision_witness.specs.Words.{words_of, hex_line};
ghost use Rattle.trace_text.specs.Lines.{one_line};

use collision_witness::{one_word, read_line};
use pmem_base::{Kind, Line};

/// Whether a byte is a hex digit, in either case.
fn is_digit(byte: u8) -> bool
    ensures { result ≡ is_hex_digit byte }
{
    (b'A' <= byte && byte <= b'F')
        || (b'a' <= byte && byte <= b'f')
        || (b'0' <= byte && byte <= b'9')
}

/// Whether all bytes are hex digits. Each is looked at.
fn are_digits(word: &[u8]) -> bool
    ensures { result ≡ list_all is_hex_digit word.now }
{
    let mut all = true;
    for i in 0..word.len() {
        all = all & is_digit(word[i]);
    }
    all
}

/// The value of a hex digit.
#[tactic(auto, using(crate::proofs::LineLemmas::digit_spelled, crate::proofs::LineLemmas::digit_small))]
fn value_of(digit: u8) -> u8
    requires { is_hex_digit digit ≡ true }
    ensures value { hex_digit_value digit ≡ Some result }
    ensures small { result < 16 }
{
    digit % 16 + digit / 64 * 9
}

/// The byte of two hex digits.
fn byte_of(high: u8, low: u8) -> u8
    requires high { is_hex_digit high ≡ true }
    requires low { is_hex_digit low ≡ true }
    ensures { (i : ℕ) → pair_value high low i ≡ Ok result }
{
    value_of(high) * 16 + value_of(low)
}

/// The line of 128 hex digits.
fn line_of_digits(word: &[u8]) -> Line
    requires digits { AllPass is_hex_digit word.now }
    requires whole { length word.now ≡ 128 }
    ensures { hex_line word.now ≡ Ok result }
{
    let mut bytes = [0; 64];
    for i in 0..64 {
        bytes[i] = byte_of(word[2 * i], word[2 * i + 1]);
    }
    Line(bytes)
}

/// The line of a text that has its 128 hex digits alone.
pub(crate) fn read_one_line(text: &[u8]) -> Result<Line, Kind>
    ensures { result ≡ one_line (words_of text.now) }
{
    if text.len() == 129 && text[0] == b' ' {
        let word = text.split_at(1).1;
        if are_digits(word) {
            return Ok(line_of_digits(word));
        }
    }
    read_line(one_word(text)?)
}
