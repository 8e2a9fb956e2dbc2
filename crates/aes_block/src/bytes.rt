//! The steps of a round on the state's 16 bytes (FIPS 197, 5.1).

ghost use Rattle.std.specs.Prelude.{◌≡◌};
ghost use Rattle.aes_block.specs.Field.{sub_byte, times_x};
ghost use Rattle.aes_block.specs.Cipher.{sub_bytes, shift_rows, mix_columns, mixed_column, xor_with};

use crate::tables::S_BOX;

// SubBytes of one byte (5.1.1).
pub(crate) fn sub_byte(byte: u8) -> u8
    ensures { result ≡ sub_byte byte }
{
    S_BOX[byte as usize]
}

// SubBytes (5.1.1).
pub(crate) fn sub_bytes(state: &mut [u8; 16])
    ensures { state.new ≡ sub_bytes state.old }
{
    for byte in state.iter_mut() {
        *byte = sub_byte(*byte);
    }
}

// ShiftRows (5.1.2): in row r, the byte of column c comes from column c + r.
pub(crate) fn shift_rows(state: &[u8; 16]) -> [u8; 16]
    ensures { result ≡ shift_rows state.now }
{
    [
        state[0], state[5], state[10], state[15], state[4], state[9], state[14], state[3],
        state[8], state[13], state[2], state[7], state[12], state[1], state[6], state[11],
    ]
}

// The byte times x (4.2).
fn times_x(byte: u8) -> u8
    ensures { result ≡ times_x byte }
{
    if byte < 128 {
        2 * byte
    } else {
        (2 * (byte - 128)) ^ 0x1b
    }
}

// MixColumns of one column (5.1.3).
fn mix_column(a: u8, b: u8, c: u8, d: u8) -> [u8; 4]
    ensures { result ≡ mixed_column a b c d }
{
    let twice_a = times_x(a);
    let twice_b = times_x(b);
    let twice_c = times_x(c);
    let twice_d = times_x(d);
    [
        twice_a ^ (b ^ twice_b) ^ c ^ d,
        a ^ twice_b ^ (c ^ twice_c) ^ d,
        a ^ b ^ twice_c ^ (d ^ twice_d),
        (a ^ twice_a) ^ b ^ c ^ twice_d,
    ]
}

// MixColumns (5.1.3).
pub(crate) fn mix_columns(state: &[u8; 16]) -> [u8; 16]
    ensures { result ≡ mix_columns state.now }
{
    let first = mix_column(state[0], state[1], state[2], state[3]);
    let second = mix_column(state[4], state[5], state[6], state[7]);
    let third = mix_column(state[8], state[9], state[10], state[11]);
    let fourth = mix_column(state[12], state[13], state[14], state[15]);
    [
        first[0], first[1], first[2], first[3], second[0], second[1], second[2], second[3],
        third[0], third[1], third[2], third[3], fourth[0], fourth[1], fourth[2], fourth[3],
    ]
}

// AddRoundKey (5.1.4).
pub(crate) fn add_round_key(state: &mut [u8; 16], key: &[u8; 16])
    ensures { state.new ≡ xor_with state.old key.now }
{
    for i in 0..16 {
        state[i] ^= key[i];
    }
}
