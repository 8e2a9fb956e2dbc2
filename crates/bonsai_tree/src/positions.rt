//! Positions: the top is 0, and the children of `x` are 4x + 1 to 4x + 4.
ghost use Rattle.std.specs.Prelude.{ℕ, ◌≡◌, ◌<◌, ◌≤◌, ◌+◌, length, All, slice_index};
ghost use Rattle.pmem_base.specs.Geo.{shape_of};
ghost use Rattle.pmem_base.specs.Layout.{pages, meta_lines};
ghost use Rattle.bonsai_tree.specs.Positions.{parent, child_slot, level_of, counter_position, path_of};

use arrayvec::ArrayVec;
use pmem_base::Geo;

/// The position above `x`.
pub fn parent(x: u32) -> u32
    requires { 1 ≤ x }
    ensures value { result ≡ parent x }
    ensures above { result < x }
{
    (x - 1) / 4
}

/// Which child of its parent `x` is, 0 to 3.
pub fn child_slot(x: u32) -> u8
    requires { 1 ≤ x }
    ensures value { result ≡ child_slot x }
    ensures bound { result < 4 }
{
    ((x - 1) % 4) as u8
}

/// The level of `x`: 0 for the top, and one more than that of its parent.
pub fn level(x: u32) -> u8
    requires { x < 5461 }
    ensures value { result ≡ level_of x }
    ensures bound { result ≤ 6 }
{
    match x {
        0 => 0,
        1..=4 => 1,
        5..=20 => 2,
        21..=84 => 3,
        85..=340 => 4,
        341..=1364 => 5,
        _ => 6,
    }
}

/// The positions from the top down to the page's counter block, one of each level.
pub fn path(geo: &Geo, page: u32) -> ArrayVec<u32, 7>
    requires { page < pages (shape_of geo.now) }
    ensures value { result.items ≡ path_of (shape_of geo.now) page }
    ensures levels { length result.items ≡ (shape_of geo.now).levels + 1 }
    ensures top { slice_index result.items 0 ≡ 0 }
    ensures block { slice_index result.items (shape_of geo.now).levels ≡ counter_position (shape_of geo.now) page }
    ensures within { All (λ x. x < meta_lines (shape_of geo.now)) result.items }
{
    let mut path = ArrayVec::new();
    let mut x = 0;
    let mut pages_below = geo.pages();
    path.push(x);
    for _level in 0..geo.levels() {
        pages_below /= 4;
        x = 4 * x + 1 + page / pages_below % 4;
        path.push(x);
    }
    path
}
