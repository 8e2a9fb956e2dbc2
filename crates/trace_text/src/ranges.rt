//! Laws: the ranges that values have by their types.
ghost use Rattle.pmem_base.specs.Ranges.{IsDrained, IsPlace, IsStat};

use collision_witness::ranges::{is_u8, is_u32, is_u64};
use pmem_base::{Place, Stat};

/// A law: a number of drained writes, if there is one, is below 2^8.
pub fn is_drained(drained: Option<u8>)
    ensures { IsDrained drained }
{
    if let Some(drained) = drained {
        is_u8(drained);
    }
}

/// The number of a place is below 2^32.
pub fn is_place(place: Place)
    ensures { IsPlace place }
{
    match place {
        Place::Line { at } => is_u32(at),
        Place::Meta { x } => is_u32(x),
    }
}

/// Each count is below 2^64.
pub fn is_stat(stat: Stat)
    ensures { IsStat stat }
{
    is_u64(stat.reads);
    is_u64(stat.writes);
    is_u64(stat.latches);
    is_u64(stat.tags);
    is_u64(stat.digests);
}
