//! The positions at which two lists of slot lines, and their shadow trees, differ.
ghost use Rattle.std.specs.Prelude.{◌≡◌, ◌≢◌, ◌<◌, ◌≤◌, ◌+◌, ◌^◌, true, false, length, IfSome, IfNone};
ghost use Rattle.pmem_base.specs.Layout.{level_start};
ghost use Rattle.pmem_base.specs.Lines.{line_at};
ghost use Rattle.counter_tree.specs.Shadow.{FirstDiffers, IsTopDifference};

use crate::shadow::{ShadowTree, line_or_zero};
use bonsai_tree::parent;
use pmem_base::Line;

/// The first place at which two lists of as many lines differ.
pub(crate) fn first_difference(first: &[Line], second: &[Line]) -> Option<u32>
    requires count { length first.now ≡ length second.now }
    requires few { length first.now ≤ 385 }
    ensures none { IfNone result (first.now ≡ second.now) }
    ensures some { IfSome result (λ i. FirstDiffers first.now second.now i) }
{
    'slots: for i in 0..first.len() {
        if is_other(&line_or_zero(first, i), &line_or_zero(second, i)) {
            return Some(i as u32);
        }
    }
    None
}

/// The highest position on the path of slot `i` at which two shadow trees differ, if they differ at that slot.
pub(crate) fn top_difference(seen: &ShadowTree, kept: &ShadowTree, i: u32) -> u32
    requires inside { i < 4 ^ seen.now.height }
    requires height { kept.now.height ≡ seen.now.height }
    requires slot { line_at seen.now.lines (level_start seen.now.height + i) ≢ line_at kept.now.lines (level_start seen.now.height + i) }
    ensures { IsTopDifference seen.now.height seen.now.lines kept.now.lines (level_start seen.now.height + i) result }
{
    seen.is_whole();
    kept.is_whole();
    let mut x = seen.leaf(i);
    let mut found = x;
    'levels: for level in 0..seen.height() {
        let _ = level;
        x = parent(x);
        found = higher(seen, kept, x, found);
    }
    found
}

/// Position `x` if the trees differ there, and otherwise what was found below.
fn higher(seen: &ShadowTree, kept: &ShadowTree, x: u32, found: u32) -> u32
    requires seen { x < length seen.now.lines }
    requires kept { x < length kept.now.lines }
    ensures same { line_at seen.now.lines x ≡ line_at kept.now.lines x → result ≡ found }
    ensures other { line_at seen.now.lines x ≢ line_at kept.now.lines x → result ≡ x }
{
    if is_other(seen.line(x), kept.line(x)) {
        return x;
    }
    found
}

/// Whether two lines differ.
fn is_other(first: &Line, second: &Line) -> bool
    ensures same { result ≡ false → first.now ≡ second.now }
    ensures other { result ≡ true → first.now ≢ second.now }
{
    if first == second {
        return false;
    }
    true
}
