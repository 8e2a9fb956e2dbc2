//! Entries of a shadow line.
ghost use Rattle.std.specs.Prelude.{◌≡◌, ◌+◌, ◌<◌, ◌≤◌, ◌^◌, MatchOption};
ghost use Rattle.pmem_base.specs.Lines.{IsLine};
ghost use Rattle.pmem_base.specs.Geo.{shape_of};
ghost use Rattle.shadow_tables.specs.Entries.{entry_of};
ghost use Rattle.shadow_tables.specs.Naming.{with_entry, is_of_table};

use pmem_base::{Geo, Line};

/// Entry `i` of a shadow line, of 16: four bytes, the highest first.
pub(crate) fn read_entry(line: &Line, i: u8) -> u32
    requires { i < 16 }
    ensures { result ≡ entry_of line.now i }
{
    let at = 4 * usize::from(i);
    let bytes = &line.0;
    u32::from_be_bytes([bytes[at], bytes[at + 1], bytes[at + 2], bytes[at + 3]])
}

/// The shadow line with this value as entry `i`.
pub(crate) fn write_entry(line: &Line, i: u8, value: u32) -> Line
    requires { i < 16 }
    ensures value { result ≡ with_entry line.now i value }
    ensures whole { IsLine result }
{
    let at = 4 * usize::from(i);
    let mut written = *line;
    written.0[at..at + 4].copy_from_slice(&value.to_be_bytes());
    written.is_whole();
    written
}

/// The position that entry `i` of a shadow line names: an entry of 0 names nothing, and an entry e
/// names position e - 1.
pub fn entry(line: &Line, i: u8) -> Option<u32>
    requires { i < 16 }
    ensures { MatchOption result (entry_of line.now i ≡ 0) (λ x. entry_of line.now i ≡ x + 1) }
{
    read_entry(line, i).checked_sub(1)
}

/// Whether an entry that names `x` counts: the counter table, that of bank k, names counter blocks
/// alone, and the tree table, that of the banks below, names nodes alone.
pub fn named(geo: &Geo, bank: u8, x: u32) -> bool
    requires { bank ≤ (shape_of geo.now).levels }
    ensures { result ≡ is_of_table (shape_of geo.now) bank x }
{
    let nodes = (geo.pages() - 1) / 3;
    if bank == geo.levels() {
        nodes <= x && x < geo.metas()
    } else {
        x < nodes
    }
}
