//! One slot of the cache.
use pmem_base::Line;

/// A cached line: its way, its position, its bytes, and whether the device has older ones.
#[derive(Clone, Copy, Debug, PartialEq, Eq, Default)]
pub struct Slot {
    pub way: u8,
    pub position: u32,
    pub line: Line,
    pub dirty: bool,
}
