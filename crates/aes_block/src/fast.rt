//! The steps of a round on the state's four columns, each a word (FIPS 197, 5.1), by tables.

ghost use Rattle.std.specs.Prelude.{◌≡◌, ◌≤◌, ◌∷◌, []};
ghost use Rattle.std.specs.Int.{w32, to_be_bytes};
ghost use Rattle.aes_block.specs.Field.{sub_byte};
ghost use Rattle.aes_block.specs.Cipher.{mix_columns, mixed_column, round_key, shift_rows, sub_bytes, xor_with};
ghost use Rattle.aes_block.specs.Words.{bytes_of};

use crate::bytes::sub_byte;
use crate::keys::{KEY_WORDS, ROUNDS};
use crate::tables::{FIRST_ROW, FOURTH_ROW, SECOND_ROW, THIRD_ROW};

// SubBytes and MixColumns of one column (5.1.1 and 5.1.3).
#[inline(always)]
fn mixed_word(a: u8, b: u8, c: u8, d: u8) -> u32
    ensures { to_be_bytes w32 result ≡ mixed_column (sub_byte a) (sub_byte b) (sub_byte c) (sub_byte d) }
{
    FIRST_ROW[a as usize] ^ SECOND_ROW[b as usize] ^ THIRD_ROW[c as usize] ^ FOURTH_ROW[d as usize]
}

// SubBytes, ShiftRows and MixColumns (5.1.1 to 5.1.3).
#[inline(always)]
pub(crate) fn mixed(state: &[u32; 4]) -> [u32; 4]
    ensures { bytes_of result ≡ mix_columns (shift_rows (sub_bytes (bytes_of state.now))) }
{
    let a = state[0].to_be_bytes();
    let b = state[1].to_be_bytes();
    let c = state[2].to_be_bytes();
    let d = state[3].to_be_bytes();
    [
        mixed_word(a[0], b[1], c[2], d[3]),
        mixed_word(b[0], c[1], d[2], a[3]),
        mixed_word(c[0], d[1], a[2], b[3]),
        mixed_word(d[0], a[1], b[2], c[3]),
    ]
}

// SubBytes of one column.
#[inline(always)]
fn substituted_word(a: u8, b: u8, c: u8, d: u8) -> u32
    ensures { to_be_bytes w32 result ≡ sub_byte a ∷ sub_byte b ∷ sub_byte c ∷ sub_byte d ∷ [] }
{
    u32::from_be_bytes([sub_byte(a), sub_byte(b), sub_byte(c), sub_byte(d)])
}

// SubBytes and ShiftRows (5.1.1 and 5.1.2).
#[inline(always)]
pub(crate) fn shifted(state: &[u32; 4]) -> [u32; 4]
    ensures { bytes_of result ≡ shift_rows (sub_bytes (bytes_of state.now)) }
{
    let a = state[0].to_be_bytes();
    let b = state[1].to_be_bytes();
    let c = state[2].to_be_bytes();
    let d = state[3].to_be_bytes();
    [
        substituted_word(a[0], b[1], c[2], d[3]),
        substituted_word(b[0], c[1], d[2], a[3]),
        substituted_word(c[0], d[1], a[2], b[3]),
        substituted_word(d[0], a[1], b[2], c[3]),
    ]
}

// AddRoundKey (5.1.4).
#[inline(always)]
pub(crate) fn with_round_key(state: &[u32; 4], words: &[u32; KEY_WORDS], round: usize) -> [u32; 4]
    requires { round ≤ ROUNDS }
    ensures { bytes_of result ≡ xor_with (bytes_of state.now) (round_key (bytes_of words.now) round) }
{
    let at = 4 * round;
    [
        state[0] ^ words[at],
        state[1] ^ words[at + 1],
        state[2] ^ words[at + 2],
        state[3] ^ words[at + 3],
    ]
}
