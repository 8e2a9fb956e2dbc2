//! The key expansion (FIPS 197, 5.2).

ghost use Rattle.std.specs.Prelude.{◌≡◌, ◌<◌, ◌≤◌};
ghost use Rattle.std.specs.Int.{w32, to_be_bytes};
ghost use Rattle.aes_block.specs.Cipher.{round_key, temporary};
ghost use Rattle.aes_block.specs.Words.{bytes_of, key_of, IsExpanded};

use crate::bytes::sub_byte;
use crate::words::{load, store};

// The number of rounds at this key length (FIPS 197, 5).
pub(crate) const ROUNDS: usize = 10;

pub(crate) const KEY_WORDS: usize = 4 * (ROUNDS + 1);

// Rcon's first bytes, from Rcon[1] on (5.2).
static ROUND_CONSTANTS: [u8; 10] = [0x01, 0x02, 0x04, 0x08, 0x10, 0x20, 0x40, 0x80, 0x1b, 0x36];

// What word i - 4 is combined with, from the word before word i.
fn temporary(previous: u32, i: usize) -> u32
    requires above { 4 ≤ i }
    requires below { i < KEY_WORDS }
    ensures { to_be_bytes w32 result ≡ temporary (to_be_bytes w32 previous) i }
{
    if i % 4 == 0 {
        let bytes = previous.to_be_bytes();
        u32::from_be_bytes([
            sub_byte(bytes[1]) ^ ROUND_CONSTANTS[i / 4 - 1],
            sub_byte(bytes[2]),
            sub_byte(bytes[3]),
            sub_byte(bytes[0]),
        ])
    } else {
        previous
    }
}

// The words of every round key, those of the key first.
pub(crate) fn expanded_key(key: &[u8; 16]) -> [u32; KEY_WORDS]
    ensures expanded { IsExpanded result }
    ensures key { key_of result ≡ key.now }
{
    let first = load(key);
    let mut words = [0; KEY_WORDS];
    words[0] = first[0];
    words[1] = first[1];
    words[2] = first[2];
    words[3] = first[3];
    for i in 4..KEY_WORDS {
        words[i] = words[i - 4] ^ temporary(words[i - 1], i);
    }
    words
}

// The key of one round, words 4 * round on.
pub(crate) fn round_key(words: &[u32; KEY_WORDS], round: usize) -> [u8; 16]
    requires { round ≤ ROUNDS }
    ensures { result ≡ round_key (bytes_of words.now) round }
{
    let at = 4 * round;
    store(&[words[at], words[at + 1], words[at + 2], words[at + 3]])
}
