//! Whether an exhibit shows what it claims.
ghost use Rattle.std.specs.Prelude.{◌≡◌, ◌↔◌, IsTrue, if◌then◌else◌};
ghost use Rattle.pmem_base.specs.Lines.{same_bytes};
ghost use Rattle.collision_witness.specs.Calls.{are_minors, digests_after, tags_after};
ghost use Rattle.collision_witness.specs.Exhibits.{IsExhibit, IsClash, IsTagOf, IsTwin};
ghost use Rattle.pmem_base.specs.Counts.{risen};

use pmem_base::{Ctr, Exhibit, Line, Tag};
use suite::Suite;

/// Whether two tags are equal.
fn is_same_tag(first: &Tag, second: &Tag) -> bool
    ensures { IsTrue result ↔ (first.now ≡ second.now) }
{
    first == second
}

/// Whether two lines are equal.
fn is_same_line(first: &Line, second: &Line) -> bool
    ensures test { result ≡ same_bytes first.now.0 second.now.0 }
    ensures equal { IsTrue result ↔ (first.now ≡ second.now) }
{
    first == second
}

/// Whether two lines differ and have one digest at position `x`.
fn is_clash<S: Suite>(suite: &mut S, x: u32, first: &Line, second: &Line) -> bool
    ensures clash { IsTrue result ↔ IsClash (S.formulas_of (S.keys suite.old)) x first.now second.now }
    ensures keys { S.keys suite.new ≡ S.keys suite.old }
    ensures pads { S.pads suite.new ≡ S.pads suite.old }
    ensures tags { S.tags suite.new ≡ S.tags suite.old }
    ensures digests { S.digests suite.new ≡ (if same_bytes first.now.0 second.now.0
        then S.digests suite.old else risen (risen (S.digests suite.old))) }
{
    if is_same_line(first, second) {
        return false;
    }
    let first = suite.digest(x, first);
    let second = suite.digest(x, second);
    is_same_tag(&first, &second)
}

/// Whether the tag is that of data line `at`'s cipher under a counter.
fn is_tag_of<S: Suite>(suite: &mut S, at: u32, ctr: Ctr, cipher: &Line, tag: &Tag) -> bool
    ensures fits { IsTrue result ↔ IsTagOf (S.formulas_of (S.keys suite.old)) at ctr cipher.now tag.now }
    ensures keys { S.keys suite.new ≡ S.keys suite.old }
    ensures pads { S.pads suite.new ≡ S.pads suite.old }
    ensures tags { S.tags suite.new ≡ risen (S.tags suite.old) }
    ensures digests { S.digests suite.new ≡ S.digests suite.old }
{
    let made = suite.tag(at, ctr, cipher);
    is_same_tag(&made, tag)
}

/// Whether the tag fits a cipher under two minors, the first below the second, of one major.
fn is_twin<S: Suite>(
    suite: &mut S,
    at: u32,
    major: u64,
    minors: (u8, u8),
    cipher: &Line,
    tag: &Tag,
) -> bool
    ensures twin { IsTrue result ↔ IsTwin (S.formulas_of (S.keys suite.old)) at major minors.0 minors.1 cipher.now tag.now }
    ensures keys { S.keys suite.new ≡ S.keys suite.old }
    ensures pads { S.pads suite.new ≡ S.pads suite.old }
    ensures tags { S.tags suite.new ≡ (if are_minors minors.0 minors.1
        then risen (risen (S.tags suite.old)) else S.tags suite.old) }
    ensures digests { S.digests suite.new ≡ S.digests suite.old }
{
    let (low, high) = minors;
    if low >= high || high > 127 {
        return false;
    }
    let fits_low = is_tag_of(suite, at, Ctr { major, minor: low }, cipher, tag);
    let fits_high = is_tag_of(suite, at, Ctr { major, minor: high }, cipher, tag);
    fits_low && fits_high
}

/// Whether an exhibit shows what it claims, under the suite's keys. A clash shows two lines that
/// differ and have one digest at a position, a forged line a tag that fits a cipher under a counter,
/// and a twin a tag that fits one cipher under two counters. What can't hold by its numbers or bytes
/// alone costs no call of the suite.
pub fn holds<S: Suite>(suite: &mut S, shown: &Exhibit) -> bool
    ensures exhibit { IsTrue result ↔ IsExhibit (S.formulas_of (S.keys suite.old)) shown.now }
    ensures keys { S.keys suite.new ≡ S.keys suite.old }
    ensures pads { S.pads suite.new ≡ S.pads suite.old }
    ensures tags { S.tags suite.new ≡ tags_after shown.now (S.tags suite.old) }
    ensures digests { S.digests suite.new ≡ digests_after shown.now (S.digests suite.old) }
{
    match *shown {
        Exhibit::Clash {
            x,
            ref first,
            ref second,
        } => is_clash(suite, x, first, second),
        Exhibit::Forged {
            at,
            ctr,
            ref cipher,
            ref tag,
        } => is_tag_of(suite, at, ctr, cipher, tag),
        Exhibit::Twin {
            at,
            major,
            low,
            high,
            ref cipher,
            ref tag,
        } => is_twin(suite, at, major, (low, high), cipher, tag),
    }
}
