//! What the suites share: the bytes that their texts begin with, and how they count.
ghost use Rattle.std.specs.Prelude.{◌≡◌, ◌∷◌, ◌++◌, []};
ghost use Rattle.pmem_base.specs.Lines.{big_endian};
ghost use Rattle.pmem_base.specs.Counts.{risen};

use pmem_base::Ctr;

// The 13 bytes of a line's number and its counter.
pub(crate) fn header(at: u32, ctr: Ctr) -> [u8; 13]
    ensures { result ≡ big_endian 4 at ++ big_endian 8 ctr.major ++ ctr.minor ∷ [] }
{
    let mut header = [ctr.minor; 13];
    header[..4].copy_from_slice(&at.to_be_bytes());
    header[4..12].copy_from_slice(&ctr.major.to_be_bytes());
    header
}

// One more, or still at the end.
pub(crate) fn one_more(count: u64) -> u64
    ensures { result ≡ risen count }
{
    count.saturating_add(1)
}
