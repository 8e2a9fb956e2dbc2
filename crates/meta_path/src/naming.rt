//! The blocks of a path are named in the shadow tables.
ghost use Rattle.std.specs.Prelude.{◌≡◌, ◌<◌, ◌≤◌, true, length, IsTrue, OnOk, OnErr};
ghost use Rattle.pmem_base.specs.Shape.{named_levels};
ghost use Rattle.pmem_base.specs.Geo.{shape_of};
ghost use Rattle.pmem_base.specs.Layout.{pages, meta_lines, shadow_lines, device_lines};
ghost use Rattle.call_plan.specs.Plans.{ended};
ghost use Rattle.call_plan.specs.Following.{Follows};
ghost use Rattle.shadow_tables.specs.Naming.{Names};
ghost use Rattle.meta_cache.specs.Banks.{is_cached};
ghost use Rattle.meta_path.specs.Blocks.{number_in, IsPathCached};
ghost use Rattle.meta_path.specs.Naming.{naming_writes, IsNamedTo, IsNamingCut};
ghost use Rattle.meta_path.specs.Plans.{naming_plan};
ghost use Rattle.meta_path.specs.Promised.{KeepsOtherEntries, FollowsNaming};

use board::Board;
use bonsai_tree::path;
use meta_cache::Cache;
use pmem_base::{Cut, Geo};
use shadow_tables::Mirror;

/// Names the blocks of a page's path that may get dirty, which are cached, from the top down: those of lazy levels, and
/// none on a device without shadow tables. If the entry of a block's slot doesn't name the block, the entry is changed
/// and its shadow line written. Errors: `Cut`, before such a write; the mirror has that entry already.
pub fn make_dirty<B: Board>(
    geo: &Geo,
    cache: &Cache,
    mirror: &mut Mirror,
    board: &mut B,
    page: u32,
) -> Result<(), Cut>
    requires page { page < pages (shape_of geo.now) }
    requires shape { cache.now.shape ≡ shape_of geo.now }
    requires cached { IsPathCached (shape_of geo.now) cache.now.banks page }
    requires mirror { length mirror.old ≡ shadow_lines (shape_of geo.now) }
    requires size { (B.device board.old).size ≡ device_lines (shape_of geo.now) }
    ensures ok { OnOk result (IsNamedTo (shape_of geo.now) cache.now.banks page (named_levels (shape_of geo.now))
        mirror.old mirror.new (B.device board.old) (B.device board.new)) }
    ensures cut { OnErr result (IsNamingCut (shape_of geo.now) cache.now.banks page
        mirror.old mirror.new (B.device board.old) (B.device board.new)) }
    ensures others { KeepsOtherEntries (shape_of geo.now) cache.now.banks page mirror.old mirror.new }
    ensures one_a_level { length (naming_writes (shape_of geo.now) cache.now.banks page mirror.old
        (named_levels (shape_of geo.now))) ≤ named_levels (shape_of geo.now) }
    ensures long { length mirror.new ≡ shadow_lines (shape_of geo.now) }
    ensures plan { Follows (naming_plan (shape_of geo.now) cache.now.banks page mirror.old)
        (B.device board.old) (B.device board.new) (ended result mirror.new) }
{
    cache.are_banks();
    let path = path(geo, page);
    'levels: for bank in 0..geo.named_levels() {
        let x = path.as_slice()[usize::from(bank)];
        name_level(geo, cache, mirror, board, bank, x)?;
    }
    Ok(())
}

/// Names position `x` of a bank, which is cached.
fn name_level<B: Board>(
    geo: &Geo,
    cache: &Cache,
    mirror: &mut Mirror,
    board: &mut B,
    bank: u8,
    x: u32,
) -> Result<(), Cut>
    requires tables { (shape_of geo.now).shadow ≡ true }
    requires shape { cache.now.shape ≡ shape_of geo.now }
    requires mirror { length mirror.old ≡ shadow_lines (shape_of geo.now) }
    requires size { (B.device board.old).size ≡ device_lines (shape_of geo.now) }
    requires bank { bank ≤ (shape_of geo.now).levels }
    requires position { x < meta_lines (shape_of geo.now) }
    requires cached { IsTrue (is_cached (shape_of geo.now) cache.now.banks bank x) }
    ensures names { Names (shape_of geo.now) mirror.old mirror.new bank
        (number_in (shape_of geo.now) cache.now.banks bank x) x }
    ensures long { length mirror.new ≡ shadow_lines (shape_of geo.now) }
    ensures plan { FollowsNaming B.Board geo.now cache.now mirror.old board.old mirror.new board.new bank x result }
{
    let slot = cache.slot_of(bank, x);
    if let Some((at, line)) = mirror.name_slot(geo, bank, slot, x) {
        board.write_line(at, &line)?;
    }
    Ok(())
}
