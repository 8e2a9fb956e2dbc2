//! Bytes, numbers and hex digits appended to a text.
ghost use Rattle.std.specs.Prelude.{◌≡◌, ◌+◌, ◌*◌, ◌<◌, ◌≤◌, ◌∷◌, ◌++◌, length, map, slice_index, decimal};
ghost use Rattle.hex.specs.Hex.{lower_digits};
ghost use Rattle.collision_witness.specs.Texts.{sentence, line_text, hex_text};

use arrayvec::ArrayVec;
use pmem_base::{Line, Tag};

/// Appends bytes that have room.
pub fn push_bytes(text: &mut ArrayVec<u8, 512>, bytes: &[u8])
    requires { length text.old.items + length bytes.now ≤ 512 }
    ensures text { text.new.items ≡ text.old.items ++ bytes.now }
    ensures length { length text.new.items ≡ length text.old.items + length bytes.now }
{
    let _ = text.try_extend_from_slice(bytes);
}

/// Appends the digits of a number.
fn push_digits(text: &mut ArrayVec<u8, 512>, number: u64)
    requires { length text.old.items + length (decimal number) ≤ 512 }
    ensures { text.new.items ≡ text.old.items ++ decimal number }
{
    if number < 10 {
        text.push(b'0' + number as u8);
        return;
    }
    push_digits(text, number / 10);
    text.push(b'0' + (number % 10) as u8);
}

/// Appends a number in decimal.
#[tactic(auto, using(crate::proofs::NumberLemmas::digits_of_word))]
pub fn push_number(text: &mut ArrayVec<u8, 512>, number: u64)
    requires { length text.old.items + 20 ≤ 512 }
    ensures text { text.new.items ≡ text.old.items ++ decimal number }
    ensures length { length text.new.items ≤ length text.old.items + 20 }
{
    push_digits(text, number);
}

/// Appends a space and a number.
pub fn push_count(text: &mut ArrayVec<u8, 512>, number: u64)
    requires { length text.old.items + 21 ≤ 512 }
    ensures text { text.new.items ≡ text.old.items ++ 32 ∷ decimal number }
    ensures length { length text.new.items ≤ length text.old.items + 21 }
{
    push_bytes(text, b" ");
    push_number(text, number);
}

/// Appends words and numbers, with a space before each number.
pub fn push_counts(text: &mut ArrayVec<u8, 512>, words: &[u8], numbers: &[u64])
    requires { length text.old.items + length words.now + 21 * length numbers.now ≤ 512 }
    ensures text { text.new.items ≡ text.old.items ++ sentence (words.now ∷ map decimal numbers.now) }
    ensures length { length text.new.items ≤ length text.old.items + length words.now + 21 * length numbers.now }
{
    push_bytes(text, words);
    for number in numbers {
        push_count(text, *number);
    }
}

/// The digit of a value, in lower case.
fn digit(value: u8) -> u8
    requires { value < 16 }
    ensures { result ≡ slice_index lower_digits value }
{
    if value < 10 {
        b'0' + value
    } else {
        b'a' - 10 + value
    }
}

/// Writes bytes in hex. With no table and no branch it goes over many bytes at a time.
fn write_digits(bytes: &[u8], digits: &mut [u8])
    requires { length digits.old ≡ 2 * length bytes.now }
    ensures { digits.new ≡ hex_text bytes.now }
{
    'bytes: for i in 0..bytes.len() {
        digits[2 * i] = digit(bytes[i] / 16);
        digits[2 * i + 1] = digit(bytes[i] % 16);
    }
}

/// Appends a line in hex.
pub fn push_line(text: &mut ArrayVec<u8, 512>, line: &Line)
    requires { length text.old.items + 128 ≤ 512 }
    ensures text { text.new.items ≡ text.old.items ++ line_text line.now }
    ensures length { length text.new.items ≡ length text.old.items + 128 }
{
    let mut digits = [0; 128];
    write_digits(&line.0, &mut digits);
    push_bytes(text, &digits);
}

/// Appends a tag in hex.
pub fn push_tag(text: &mut ArrayVec<u8, 512>, tag: &Tag)
    requires { length text.old.items + 32 ≤ 512 }
    ensures text { text.new.items ≡ text.old.items ++ hex_text tag.now }
    ensures length { length text.new.items ≡ length text.old.items + 32 }
{
    let mut digits = [0; 32];
    write_digits(tag, &mut digits);
    push_bytes(text, &digits);
}
