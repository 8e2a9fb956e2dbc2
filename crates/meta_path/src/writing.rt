//! Dirty blocks are written back to their places on the board.
ghost use Rattle.std.specs.Prelude.{◌≡◌, ◌<◌, ◌≤◌, List, option_map, OnOk, OnErr, IfOk, IsSome, IsTrue};
ghost use Rattle.pmem_base.specs.Geo.{shape_of};
ghost use Rattle.pmem_base.specs.Layout.{meta_lines, device_lines};
ghost use Rattle.pmem_base.specs.declared.lines.Line.{Line};
ghost use Rattle.board.specs.Steps.{WasCut};
ghost use Rattle.call_plan.specs.Plans.{ended};
ghost use Rattle.call_plan.specs.Following.{Follows};
ghost use Rattle.meta_cache.specs.Banks.{is_cached};
ghost use Rattle.meta_cache.specs.State.{oldest_dirty};
ghost use Rattle.meta_path.specs.Blocks.{line_in, AreInTheirBanks, AreCachedTrue};
ghost use Rattle.meta_path.specs.Plans.{write_back_plan, oldest_plan};
ghost use Rattle.meta_path.specs.Storing.{IsCleaned, IsOneWrittenBack};

use board::Board;
use meta_cache::Cache;
use pmem_base::{Cut, Geo, Line};

/// Writes the oldest dirty block back to its place, by one line write, and marks it clean. The answer is its position,
/// or `None` if no block is dirty. Errors: `Cut`, before the write, and then nothing changes.
pub fn write_back_one<B: Board>(
    geo: &Geo,
    cache: &mut Cache,
    board: &mut B,
) -> Result<Option<u32>, Cut>
    requires shape { cache.old.shape ≡ shape_of geo.now }
    requires banks { AreInTheirBanks (shape_of geo.now) cache.old.banks }
    requires size { (B.device board.old).size ≡ device_lines (shape_of geo.now) }
    ensures answer { IfOk result (λ answer. answer
        ≡ option_map (λ found. found.1) (oldest_dirty cache.old.banks)) }
    ensures ok { OnOk result (IsOneWrittenBack (shape_of geo.now) (oldest_dirty cache.old.banks)
        cache.old cache.new (B.device board.old) (B.device board.new)) }
    ensures cut { OnErr result (WasCut (B.device board.old) (B.device board.new)) }
    ensures same { OnErr result (cache.new ≡ cache.old) }
    ensures some_dirty { OnErr result (IsSome (oldest_dirty cache.old.banks)) }
    ensures shape { cache.new.shape ≡ cache.old.shape }
    ensures banks { AreInTheirBanks (shape_of geo.now) cache.new.banks }
    ensures lines { (truth : List Line) → AreCachedTrue cache.old.banks truth → AreCachedTrue cache.new.banks truth }
    ensures plan { Follows (oldest_plan cache.old) (B.device board.old) (B.device board.new) (ended result cache.new) }
{
    cache.are_banks();
    let Some((bank, x)) = cache.oldest_dirty() else {
        return Ok(None);
    };
    write_back(geo, cache, board, bank, x)?;
    Ok(Some(x))
}

/// Writes position `x`, which is cached, back to its place, and marks it clean. `Cut` changes nothing.
pub(crate) fn write_back<B: Board>(
    geo: &Geo,
    cache: &mut Cache,
    board: &mut B,
    bank: u8,
    x: u32,
) -> Result<(), Cut>
    requires shape { cache.old.shape ≡ shape_of geo.now }
    requires size { (B.device board.old).size ≡ device_lines (shape_of geo.now) }
    requires bank { bank ≤ (shape_of geo.now).levels }
    requires position { x < meta_lines (shape_of geo.now) }
    requires cached { IsTrue (is_cached (shape_of geo.now) cache.old.banks bank x) }
    ensures ok { OnOk result (IsCleaned (shape_of geo.now) bank x cache.old cache.new (B.device board.old) (B.device board.new)) }
    ensures cut { OnErr result (WasCut (B.device board.old) (B.device board.new)) }
    ensures same { OnErr result (cache.new ≡ cache.old) }
    ensures plan { Follows (write_back_plan cache.old bank x) (B.device board.old) (B.device board.new) (ended result cache.new) }
{
    board.write_line(geo.meta_line(x), cached_line(cache, bank, x))?;
    cache.set_clean(bank, x);
    Ok(())
}

/// The line of position `x`, which is cached.
pub(crate) fn cached_line(cache: &Cache, bank: u8, x: u32) -> &Line
    requires bank { bank ≤ cache.now.shape.levels }
    requires cached { IsTrue (is_cached cache.now.shape cache.now.banks bank x) }
    ensures { result.now ≡ line_in cache.now.shape cache.now.banks bank x }
{
    match cache.look(bank, x) {
        Some(line) => line,
        None => unreachable!(),
    }
}
