//! Doubted positions in order.
ghost use Rattle.std.specs.Prelude.{ℕ, Bool, ◌≡◌, ◌+◌, ◌*◌, ◌/◌, ◌<◌, ◌≤◌, true, length, MatchOption, suc, ◌||◌, ◌==◌};
ghost use Rattle.pmem_base.specs.Geo.{shape_of};
ghost use Rattle.pmem_base.specs.Layout.{shadow_lines, slots, shadow_counter_lines, level_start};
ghost use Rattle.pmem_recovery.specs.Named.{doubts, is_among, IsNext};

use pmem_base::{Geo, Line};
use shadow_tables::entry;

/// The least position of a level, from `from` on and below `end`, that recovery has to make again: none
/// if the level is strict, the first one if the device has no shadow tables, else the first one that
/// the shadow lines name.
pub(crate) fn next_doubted(
    geo: &Geo,
    shadow: &[Line],
    level: u8,
    from: u32,
    end: u32,
) -> Option<u32>
    requires shadow { length shadow.now ≡ shadow_lines (shape_of geo.now) }
    requires level { level ≤ (shape_of geo.now).levels }
    requires from { level_start level ≤ from }
    requires end { end ≤ level_start (suc level) }
    ensures { IsNext (doubts (shape_of geo.now) shadow.now) from end result }
{
    if level >= geo.lazy_levels() {
        return None;
    }
    if !geo.has_shadow() {
        return first_of(from, end);
    }
    if level == geo.levels() {
        least_named(shadow, 0, geo.slots(), from, end)
    } else {
        least_named(shadow, tree_table(geo), tree_entries(geo), from, end)
    }
}

/// The first position from `from` on and below `end`.
fn first_of(from: u32, end: u32) -> Option<u32>
    ensures { IsNext (λ _. true) from end result }
{
    if from < end { Some(from) } else { None }
}

/// The first line of the table of nodes.
fn tree_table(geo: &Geo) -> u32
    ensures { result ≡ shadow_counter_lines (shape_of geo.now) }
{
    geo.slots().div_ceil(16)
}

/// The number of entries of the table of nodes.
fn tree_entries(geo: &Geo) -> u32
    ensures { result ≡ (shape_of geo.now).levels * slots (shape_of geo.now) }
{
    u32::from(geo.levels()) * geo.slots()
}

/// The least position from `from` on and below `end` that one of the first entries of a table names.
fn least_named(shadow: &[Line], first: u32, count: u32, from: u32, end: u32) -> Option<u32>
    requires { first + (count + 15) / 16 ≤ length shadow.now }
    ensures { IsNext (is_among shadow.now first count) from end result }
{
    let mut least = None;
    for n in 0..count {
        let line = &shadow[first as usize + (n / 16) as usize];
        least = nearer(least, entry(line, (n % 16) as u8), from, end);
    }
    least
}

/// The least position so far, and one more named one.
fn nearer(least: Option<u32>, x: Option<u32>, from: u32, end: u32) -> Option<u32>
    ensures { (p : ℕ → Bool) (e : ℕ) → IsNext p from end least → MatchOption x (e ≡ 0) (λ y. e ≡ y + 1)
        → IsNext (λ y. p y || (e == y + 1)) from end result }
{
    match (least, x) {
        (None, Some(x)) if from <= x && x < end => Some(x),
        (Some(y), Some(x)) if from <= x && x < y => Some(x),
        _ => least,
    }
}
