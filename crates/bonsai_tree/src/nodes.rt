//! Nodes: the digests of four children, and the check of a child.
ghost use Rattle.std.specs.Prelude.{ℕ, ◌≡◌, ◌≢◌, ◌<◌, ◌≤◌, ◌+◌, ◌++◌, ◌↔◌, IsTrue, length, take, drop};
ghost use Rattle.pmem_base.specs.Counts.{risen};
ghost use Rattle.bonsai_tree.specs.Positions.{child_slot};
ghost use Rattle.bonsai_tree.specs.Nodes.{node_of, child_digest};
ghost use Rattle.bonsai_tree.specs.Paths.{with_child_digest};

use crate::child_slot;
use pmem_base::{Line, Tag};
use suite::Suite;

/// The node of four children with these digests.
pub fn node_of(digests: &[Tag; 4]) -> Line
    ensures { result ≡ node_of digests.now }
{
    let mut node = Line::default();
    for slot in 0..4 {
        copy_to(&mut node.0, 16 * slot, &digests[slot]);
    }
    node
}

/// Gives the child in `slot` another digest.
pub fn set_child(node: &mut Line, slot: u8, digest: &Tag)
    requires { slot < 4 }
    ensures value { node.new ≡ with_child_digest node.old slot digest.now }
    ensures here { child_digest node.new slot ≡ digest.now }
    ensures others { (other : ℕ) → other < 4 → other ≢ slot → child_digest node.new other ≡ child_digest node.old other }
{
    copy_to(&mut node.0, 16 * usize::from(slot), digest);
}

/// The digest of the child in `slot`.
pub fn child(node: &Line, slot: u8) -> Tag
    requires { slot < 4 }
    ensures { result ≡ child_digest node.now slot }
{
    let start = 16 * usize::from(slot);
    let mut digest = [0; 16];
    digest.copy_from_slice(&node.0[start..start + 16]);
    digest
}

/// Whether the digest of the line at `x` is the one that its parent has for it.
pub fn check_child<S: Suite>(suite: &mut S, parent: &Line, x: u32, line: &Line) -> bool
    requires { 1 ≤ x }
    ensures answer { IsTrue result
        ↔ ((S.formulas_of (S.keys suite.old)).digest_of x line.now ≡ child_digest parent.now (child_slot x)) }
    ensures keys { S.keys suite.new ≡ S.keys suite.old }
    ensures pads { S.pads suite.new ≡ S.pads suite.old }
    ensures tags { S.tags suite.new ≡ S.tags suite.old }
    ensures digests { S.digests suite.new ≡ risen (S.digests suite.old) }
{
    let digest = suite.digest(x, line);
    is_same(&digest, &child(parent, child_slot(x)))
}

// Whether two digests are equal.
fn is_same(first: &Tag, second: &Tag) -> bool
    ensures { IsTrue result ↔ (first.now ≡ second.now) }
{
    first == second
}

// Copies a digest into its place.
fn copy_to(out: &mut [u8], at: usize, digest: &Tag)
    requires { at + 16 ≤ length out.old }
    ensures { out.new ≡ take at out.old ++ digest.now ++ drop (at + 16) out.old }
{
    out[at..at + 16].copy_from_slice(digest);
}
