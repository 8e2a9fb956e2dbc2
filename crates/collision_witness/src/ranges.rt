//! Laws: the ranges that values have by their types.
ghost use Rattle.pmem_base.specs.Lines.{AreBytes, IsTag};
ghost use Rattle.pmem_base.specs.Ranges.{IsU8, IsU32, IsU64};

use pmem_base::Tag;

/// A number of 8 bits is below 2^8.
pub fn is_u8(number: u8)
    ensures { IsU8 number }
{}

/// A number of 32 bits is below 2^32.
pub fn is_u32(number: u32)
    ensures { IsU32 number }
{}

/// A number of 64 bits is below 2^64.
pub fn is_u64(number: u64)
    ensures { IsU64 number }
{}

/// Bytes are below 256.
fn are_bytes(bytes: &[u8])
    ensures { AreBytes bytes.now }
{}

/// A tag has 16 bytes, each below 256.
pub fn is_tag(tag: &Tag)
    ensures { IsTag tag.now }
{
    are_bytes(tag);
}
