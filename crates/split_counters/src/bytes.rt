//! The 64 bytes of a counter block: 8 of the major, and then the minors as 7 bits each in a row.
ghost use Rattle.std.specs.Prelude.{◌≡◌, ◌<◌, ◌≤◌, ◌+◌, All, length};
ghost use Rattle.pmem_base.specs.Lines.{IsCtr, big_endian, from_big_endian};
ghost use Rattle.split_counters.specs.Blocks.{IsBlock, block_counter, minor_of, with_minor, packed, unpacked, number_of_minors, minors_of_number};
ghost use Rattle.split_counters.specs.Bits.{HasMinorBits};

use crate::Block;
use pmem_base::{Ctr, Line};

/// The line of a block.
pub fn pack(block: &Block) -> Line
    requires { All (λ m. m ≤ 127) block.now.minors }
    ensures { result ≡ packed block.now }
{
    let mut bytes = [0; 64];
    bytes[..8].copy_from_slice(&block.major.to_be_bytes());
    for group in 0..8 {
        let packed = packed_group(&block.minors[8 * group..8 * group + 8]);
        bytes[7 * group + 8..7 * group + 15].copy_from_slice(&packed);
    }
    Line(bytes)
}

/// The block of a line. Every line is that of one block.
pub fn unpack(line: &Line) -> Block
    ensures value { result ≡ unpacked line.now }
    ensures valid { IsBlock result }
{
    line.is_whole();
    let mut major = [0; 8];
    major.copy_from_slice(&line.0[..8]);
    let mut minors = [0; 64];
    for group in 0..8 {
        let unpacked = unpacked_group(&line.0[7 * group + 8..7 * group + 15]);
        minors[8 * group..8 * group + 8].copy_from_slice(&unpacked);
    }
    Block {
        major: u64::from_be_bytes(major),
        minors,
    }
}

/// The counter of line `i` of a page by its block's line: of the minors only the group of `i` is
/// unpacked.
pub fn counter_at(line: &Line, i: u8) -> Ctr
    requires { i < 64 }
    ensures value { result ≡ block_counter (unpacked line.now) i }
    ensures range { IsCtr result }
{
    line.is_whole();
    let mut major = [0; 8];
    major.copy_from_slice(&line.0[..8]);
    let start = 7 * usize::from(i / 8) + 8;
    let minors = unpacked_group(&line.0[start..start + 7]);
    let major = u64::from_be_bytes(major);
    Ctr {
        major,
        minor: minors[usize::from(i % 8)],
    }
}

/// Raises the counter of line `i` of a page, whose minor is below 127, in its block's line, and answers it:
/// of the minors only the group of `i` is unpacked and packed.
pub fn raise_at(line: &mut Line, i: u8) -> Ctr
    requires place { i < 64 }
    requires room { minor_of (unpacked line.old) i < 127 }
    ensures line { line.new ≡ packed (with_minor (unpacked line.old) i (minor_of (unpacked line.old) i + 1)) }
    ensures value { result ≡ record { major = (unpacked line.old).major; minor = minor_of (unpacked line.old) i + 1 } }
    ensures range { IsCtr result }
{
    line.is_whole();
    let mut major = [0; 8];
    major.copy_from_slice(&line.0[..8]);
    let start = 7 * usize::from(i / 8) + 8;
    let place = usize::from(i % 8);
    let mut minors = unpacked_group(&line.0[start..start + 7]);
    minors[place] += 1;
    let group = packed_group(&minors);
    line.0[start..start + 7].copy_from_slice(&group);
    line.is_whole();
    let major = u64::from_be_bytes(major);
    let minor = minors[place];
    Ctr { major, minor }
}

// The 7 bytes of 8 minors.
fn packed_group(minors: &[u8]) -> [u8; 7]
    requires eight { length minors.now ≡ 8 }
    requires seven_bits { All (λ m. m ≤ 127) minors.now }
    ensures { result ≡ big_endian 7 (number_of_minors minors.now) }
{
    let mut number = 0_u64;
    for minor in minors {
        number = 128 * number + u64::from(*minor);
    }
    let mut bytes = [0; 7];
    bytes.copy_from_slice(&number.to_be_bytes()[1..]);
    bytes
}

// The 8 minors of 7 bytes.
fn unpacked_group(bytes: &[u8]) -> [u8; 8]
    requires { length bytes.now ≡ 7 }
    ensures { result ≡ minors_of_number 8 (from_big_endian bytes.now) }
{
    let mut word = [0; 8];
    word[1..].copy_from_slice(bytes);
    let number = u64::from_be_bytes(word);
    [
        (number >> 49 & 127) as u8,
        (number >> 42 & 127) as u8,
        (number >> 35 & 127) as u8,
        (number >> 28 & 127) as u8,
        (number >> 21 & 127) as u8,
        (number >> 14 & 127) as u8,
        (number >> 7 & 127) as u8,
        (number & 127) as u8,
    ]
}

/// A law: a block in its range comes back from its line.
pub fn block_is_kept(block: &Block)
    requires { All (λ m. m ≤ 127) block.now.minors }
    ensures range { IsBlock block.now }
    ensures kept { unpacked (packed block.now) ≡ block.now }
{
    let _major = block.major;
}

/// A law: every line comes back from its block.
pub fn line_is_kept(line: &Line)
    ensures { packed (unpacked line.now) ≡ line.now }
{
    line.is_whole();
}

/// A law: minor `i` stands in bits 7i to 7i + 6 after the major. Bit 0 is the top bit of byte 8.
pub fn minors_have_seven_bits(block: &Block)
    requires { All (λ m. m ≤ 127) block.now.minors }
    ensures { HasMinorBits block.now (packed block.now) }
{
    block_is_kept(block);
}
