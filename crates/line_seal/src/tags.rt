//! Tag lines: the tags of four data lines, in the order of the lines.
ghost use Rattle.std.specs.Prelude.{ℕ, ◌≡◌, ◌≢◌, ◌≤◌, ◌+◌, ◌%◌, ◌++◌, length, take, drop};
ghost use Rattle.pmem_base.specs.Lines.{tag_slot};
ghost use Rattle.line_seal.specs.Seals.{with_tag};

use pmem_base::{Line, Tag};

/// Puts the tag of data line `at` into its slot of a tag line: slot `at` mod 4.
pub fn put_tag(line: &mut Line, at: u32, tag: &Tag)
    ensures value { line.new ≡ with_tag line.old at tag.now }
    ensures here { tag_slot line.new at ≡ tag.now }
    ensures others { (other : ℕ) → other % 4 ≢ at % 4 → tag_slot line.new other ≡ tag_slot line.old other }
{
    copy_to(&mut line.0, 16 * (at % 4) as usize, tag);
}

/// The tag of data line `at` in its tag line.
pub fn tag_at(line: &Line, at: u32) -> Tag
    ensures { result ≡ tag_slot line.now at }
{
    let start = 16 * (at % 4) as usize;
    let mut tag = [0; 16];
    tag.copy_from_slice(&line.0[start..start + 16]);
    tag
}

// Copies a tag into its place.
fn copy_to(out: &mut [u8], at: usize, tag: &Tag)
    requires { at + 16 ≤ length out.old }
    ensures { out.new ≡ take at out.old ++ tag.now ++ drop (at + 16) out.old }
{
    out[at..at + 16].copy_from_slice(tag);
}
