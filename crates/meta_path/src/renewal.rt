//! New lines of a path: computed over the cached ones, and stored.
ghost use Rattle.std.specs.Prelude.{◌≡◌, ◌<◌, ◌≤◌, ◌+◌, ◌-◌, nat_lt, ℕ, length, All, IsTrue};
ghost use Rattle.pmem_base.specs.declared.lines.Line.{Line};
ghost use Rattle.pmem_base.specs.Counts.{risen, risen_times};
ghost use Rattle.pmem_base.specs.Geo.{shape_of};
ghost use Rattle.pmem_base.specs.Layout.{pages, meta_lines};
ghost use Rattle.pmem_base.specs.Lines.{IsLine, IsTag};
ghost use Rattle.bonsai_tree.specs.Positions.{parent, child_slot};
ghost use Rattle.bonsai_tree.specs.Paths.{path_with, root_with, with_child_digest};
ghost use Rattle.seal_ledger.specs.Notes.{HasMeta};
ghost use Rattle.meta_cache.specs.Banks.{set_index, is_cached};
ghost use Rattle.meta_cache.specs.State.{ChangesSet};
ghost use Rattle.meta_path.specs.Blocks.{slots_at, cached_line, line_in, IsPathCached, AreInTheirBanks};
ghost use Rattle.meta_path.specs.Storing.{stored_set, IsPathOf, IsOfCachedPath, HasMetaLines, KeepsSlots};
ghost use Rattle.meta_path.specs.Promised.{RenewsTruth, StoresPath};

use crate::writing::cached_line;
use arrayvec::ArrayVec;
use bonsai_tree::{child_slot, parent, path, set_child};
use meta_cache::Cache;
use pmem_base::{Geo, Line, Tag};
use seal_ledger::Audit;
use suite::Suite;

/// New lines of a page's path, with their positions, from the top down, and the digest of the top.
#[derive(Debug, Drop, PartialEq, Eq)]
pub struct Path {
    pub lines: ArrayVec<(u32, Line), 7>,
    pub root: Tag,
}

/// The path of a page, which is cached, with this new counter block: each node above it has the new
/// digest of the line below. It takes a digest for each level.
pub fn next_path<S: Suite>(geo: &Geo, cache: &Cache, suite: &mut S, page: u32, block: &Line) -> Path
    requires page { page < pages (shape_of geo.now) }
    requires shape { cache.now.shape ≡ shape_of geo.now }
    requires cached { IsPathCached (shape_of geo.now) cache.now.banks page }

    ensures lines { result.lines.items ≡ path_with (shape_of geo.now) (S.formulas_of (S.keys suite.old))
        (cached_line (shape_of geo.now) cache.now.banks) page block.now }
    ensures root { result.root ≡ root_with (shape_of geo.now) (S.formulas_of (S.keys suite.old))
        (cached_line (shape_of geo.now) cache.now.banks) page block.now }
    ensures on_truth { RenewsTruth S.Suite geo.now cache.now suite.old page block.now result }

    ensures path { IsPathOf (shape_of geo.now) page result.lines.items }
    ensures whole { All (λ entry. IsLine entry.1) result.lines.items }
    ensures digest { IsTag result.root }
    ensures digests { S.digests suite.new ≡ risen_times ((shape_of geo.now).levels + 1) (S.digests suite.old) }
    ensures keys { S.keys suite.new ≡ S.keys suite.old }
    ensures pads { S.pads suite.new ≡ S.pads suite.old }
    ensures tags { S.tags suite.new ≡ S.tags suite.old }
{
    let path = path(geo, page);
    let mut lines = ArrayVec::new();
    let mut x = path.as_slice()[usize::from(geo.levels())];
    block.is_whole();
    let mut line = *block;
    'levels: for made in 0..geo.levels() {
        lines.push((x, line));
        line = node_above(cache, suite, geo.levels() - 1 - made, x, &line);
        x = parent(x);
    }
    lines.push((x, line));
    lines.reverse();
    let root = suite.digest(x, &line);
    Path { lines, root }
}

/// The parent of position `x`, which is cached in this bank, with the digest of this new line at `x`.
fn node_above<S: Suite>(cache: &Cache, suite: &mut S, bank: u8, x: u32, line: &Line) -> Line
    requires bank { bank ≤ cache.now.shape.levels }
    requires below { 1 ≤ x }
    requires cached { IsTrue (is_cached cache.now.shape cache.now.banks bank (parent x)) }
    ensures node { result ≡ with_child_digest (line_in cache.now.shape cache.now.banks bank (parent x)) (child_slot x)
        ((S.formulas_of (S.keys suite.old)).digest_of x line.now) }
    ensures whole { IsLine result }
    ensures digests { S.digests suite.new ≡ risen (S.digests suite.old) }
    ensures keys { S.keys suite.new ≡ S.keys suite.old }
    ensures pads { S.pads suite.new ≡ S.pads suite.old }
    ensures tags { S.tags suite.new ≡ S.tags suite.old }
{
    let digest = suite.digest(x, line);
    let mut node = *cached_line(cache, bank, parent(x));
    set_child(&mut node, child_slot(x), &digest);
    node.is_whole();
    node
}

/// Stores the new lines of a path, whose positions are cached, and tells them to the audit. The lowest
/// `grouped` of them, which stand in the commit group, are clean then, and those above are dirty.
pub fn store_path<A: Audit>(cache: &mut Cache, audit: &mut A, path: &Path, grouped: u8)
    requires path { IsOfCachedPath cache.old.shape cache.old.banks path.now.lines.items }
    requires truth { length (A.ledger audit.old).truth ≡ meta_lines cache.old.shape }
    ensures cache { StoresPath grouped path.now cache.old cache.new }
    ensures slots { (page : ℕ) → IsPathOf cache.old.shape page path.now.lines.items
        → KeepsSlots cache.old.shape page grouped path.now.lines.items cache.old.banks cache.new.banks }
    ensures cached { (page : ℕ) → IsPathCached cache.old.shape cache.old.banks page
        → IsPathCached cache.old.shape cache.new.banks page }
    ensures banks { AreInTheirBanks cache.old.shape cache.old.banks → AreInTheirBanks cache.old.shape cache.new.banks }
    ensures shape { cache.new.shape ≡ cache.old.shape }
    ensures ledger { HasMetaLines path.now.lines.items (A.ledger audit.old) (A.ledger audit.new) }
    ensures capacity { A.capacity audit.new ≡ A.capacity audit.old }
{
    cache.are_banks();
    let count = path.lines.len();
    'levels: for (bank, (x, line)) in path.lines.as_slice().iter().enumerate() {
        let dirty = is_left_dirty(bank, count, grouped);
        store_level(cache, audit, bank as u8, *x, line, dirty);
    }
}

/// Whether the block of a level is dirty after its new line was stored.
fn is_left_dirty(bank: usize, count: usize, grouped: u8) -> bool
    ensures { result ≡ nat_lt bank (count - grouped) }
{
    bank < count.saturating_sub(usize::from(grouped))
}

/// Stores the new line of position `x`, which is cached, with this mark, and tells it to the audit.
fn store_level<A: Audit>(
    cache: &mut Cache,
    audit: &mut A,
    bank: u8,
    x: u32,
    line: &Line,
    dirty: bool,
)
    requires bank { bank ≤ cache.old.shape.levels }
    requires cached { IsTrue (is_cached cache.old.shape cache.old.banks bank x) }
    requires truth { x < length (A.ledger audit.old).truth }
    ensures cache { ChangesSet cache.old cache.new bank (set_index cache.old.shape x)
        (stored_set (slots_at cache.old.shape cache.old.banks bank x) x line.now dirty) }
    ensures ledger { HasMeta (A.ledger audit.old) (A.ledger audit.new) x line.now }
    ensures capacity { A.capacity audit.new ≡ A.capacity audit.old }
{
    cache.store(bank, x, line);
    if dirty {
        cache.set_dirty(bank, x);
    } else {
        cache.set_clean(bank, x);
    }
    audit.note_meta(x, line);
}
