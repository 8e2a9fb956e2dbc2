//! Sealed data lines, each a cipher and a tag, and the tag lines that keep four tags each.
#![tactic(auto)]

ghost use Rattle.std.specs.Prelude.{◌≡◌, ◌≢◌, ◌↔◌, IsTrue, IsNone, Some, is_some, if◌then◌else◌};
ghost use Rattle.pmem_base.specs.Counts.{risen};
ghost use Rattle.pmem_base.specs.Lines.{IsCtr, IsLine, same_bytes};
ghost use Rattle.pmem_base.specs.declared.lines.Line.{Line};
ghost use Rattle.line_seal.specs.Seals.{sealed, unsealed};

mod tags;

use pmem_base::{Ctr, Line, Tag};
use suite::{Suite, xor_lines};
pub use tags::{put_tag, tag_at};

/// The cipher of data line `at` under a counter, and the cipher's tag.
#[inline(always)]
pub fn seal<S: Suite>(suite: &mut S, at: u32, ctr: Ctr, plain: &Line) -> (Line, Tag)
    ensures value { result ≡ sealed (S.formulas_of (S.keys suite.old)) at ctr plain.now }
    ensures keys { S.keys suite.new ≡ S.keys suite.old }
    ensures pads { S.pads suite.new ≡ risen (S.pads suite.old) }
    ensures tags { S.tags suite.new ≡ risen (S.tags suite.old) }
    ensures digests { S.digests suite.new ≡ S.digests suite.old }
{
    let cipher = xor_lines(plain, &suite.pad(at, ctr));
    let tag = suite.tag(at, ctr, &cipher);
    (cipher, tag)
}

/// The plain line of data line `at`'s cipher under a counter. `None` if `tag` isn't the cipher's tag; then no pad is
/// made.
#[inline(always)]
pub fn unseal<S: Suite>(suite: &mut S, at: u32, ctr: Ctr, cipher: &Line, tag: &Tag) -> Option<Line>
    ensures value { result ≡ unsealed (S.formulas_of (S.keys suite.old)) at ctr cipher.now tag.now }
    ensures none { IsNone result ↔ ((S.formulas_of (S.keys suite.old)).tag_of at ctr cipher.now ≢ tag.now) }
    // What was sealed under the same line and counter comes back.
    ensures back { (plain : Line) → IsCtr ctr → IsLine plain
        → sealed (S.formulas_of (S.keys suite.old)) at ctr plain ≡ (cipher.now, tag.now) → result ≡ Some plain }
    ensures keys { S.keys suite.new ≡ S.keys suite.old }
    ensures pads { S.pads suite.new ≡ (if is_some result then risen (S.pads suite.old) else S.pads suite.old) }
    ensures tags { S.tags suite.new ≡ risen (S.tags suite.old) }
    ensures digests { S.digests suite.new ≡ S.digests suite.old }
{
    if !is_same(&suite.tag(at, ctr, cipher), tag) {
        return None;
    }
    Some(xor_lines(cipher, &suite.pad(at, ctr)))
}

// Whether two tags are equal.
fn is_same(first: &Tag, second: &Tag) -> bool
    ensures test { result ≡ same_bytes first.now second.now }
    ensures fact { IsTrue result ↔ (first.now ≡ second.now) }
{
    first == second
}
