#![tactic(auto)]
//! Stop-loss windows and their trials.
ghost use Rattle.std.specs.Prelude.{◌≡◌, ◌≤◌, ◌+◌, ◌%◌, ◌↔◌, IsTrue, length, min};
ghost use Rattle.pmem_base.specs.Counts.{last_count, risen_times};
ghost use Rattle.pmem_base.specs.Lines.{same_bytes};
ghost use Rattle.pmem_base.specs.Shape.{is_loss};
ghost use Rattle.stop_loss.specs.Trials.{matching_minors, found_among, found_after, IsFoundWithin};
ghost use Rattle.stop_loss.specs.Windows.{minors_within, window_ends, window_minors, HoldsCandidates};

use pmem_base::{Ctr, Line, Tag};
use suite::Suite;

/// What the trials of a window found: one minor, none, or two or more, with the least two.
#[derive(Clone, Copy, Debug, PartialEq, Eq)]
pub enum Found {
    One(u8),
    Nothing,
    Twin(u8, u8),
}

/// Whether a counter block is written back together with the line that gets this minor.
pub fn due(minor: u8, n: u8) -> bool
    requires { IsTrue (is_loss n) }
    ensures { IsTrue result ↔ (minor % n ≡ 0) }
{
    minor % n == 0
}

/// The first and the last minor that a line may have whose block was stored with the minor
/// `stored`, under the stop-loss number `n`.
pub fn window(stored: u8, n: u8) -> (u8, u8)
    requires loss { IsTrue (is_loss n) }
    requires minor { stored ≤ 127 }
    ensures ends { result ≡ window_ends stored n }
    ensures within { result.1 ≤ 127 }
    ensures minors { minors_within result.0 result.1 ≡ window_minors stored n }
    ensures candidates { HoldsCandidates stored n result }
{
    (stored, stored / n * n + (n - 1))
}

/// Tries each minor of a window against the tag of data line `at`'s cipher, from the first minor to
/// the last. A window whose first minor is above its last has none.
pub fn find<S: Suite>(
    suite: &mut S,
    at: u32,
    major: u64,
    window: (u8, u8),
    cipher: &Line,
    tag: &Tag,
) -> Found
    requires { window.1 ≤ 127 }
    ensures found { result ≡ found_among (matching_minors (S.formulas_of (S.keys suite.old)) at major
        cipher.now tag.now (minors_within window.0 window.1)) }
    ensures inside { IsFoundWithin window.0 window.1 result }
    // Each candidate is tried once.
    ensures tries { S.tags suite.new ≡ risen_times (length (minors_within window.0 window.1)) (S.tags suite.old) }
    ensures count { S.tags suite.old ≤ last_count
        → S.tags suite.new ≡ min (S.tags suite.old + length (minors_within window.0 window.1)) last_count }
    ensures keys { S.keys suite.new ≡ S.keys suite.old }
    ensures pads { S.pads suite.new ≡ S.pads suite.old }
    ensures digests { S.digests suite.new ≡ S.digests suite.old }
{
    let (first, last) = window;
    let mut found = Found::Nothing;
    for minor in first..last + 1 {
        let trial = suite.tag(at, Ctr { major, minor }, cipher);
        found = after_trial(found, minor, is_same(&trial, tag));
    }
    found
}

// What is found after one more candidate.
fn after_trial(found: Found, minor: u8, matches: bool) -> Found
    ensures { result ≡ found_after found minor matches }
{
    match (found, matches) {
        (_, false) => found,
        (Found::Nothing, true) => Found::One(minor),
        (Found::One(low), true) => Found::Twin(low, minor),
        (Found::Twin(..), true) => found,
    }
}

// Whether two tags are equal.
fn is_same(first: &Tag, second: &Tag) -> bool
    ensures { result ≡ same_bytes first.now second.now }
{
    first == second
}
