//! Naming: a page's path in the shadow tables.
ghost use Rattle.std.specs.Prelude.{◌≡◌, ◌<◌};
ghost use Rattle.pmem_base.specs.Layout.{pages, device_lines};
ghost use Rattle.call_plan.specs.Plans.{ended};
ghost use Rattle.call_plan.specs.Following.{Follows};
ghost use Rattle.meta_path.specs.Blocks.{IsPathCached};
ghost use Rattle.pmem_engine.specs.Plans.{name_plan};
ghost use Rattle.pmem_engine.specs.Promised.{NamesPath};

use crate::engine::OnChip;
use board::Board;
use meta_path::make_dirty;
use pmem_base::Cut;

impl OnChip {
    // Writes the shadow entries that don't name the path's blocks yet. The path is cached.
    pub(crate) fn name_path<B: Board>(&mut self, board: &mut B, page: u32) -> Result<(), Cut>
        requires page { page < pages self.old.shape }
        requires size { (B.device board.old).size ≡ device_lines self.old.shape }
        requires cached { IsPathCached self.old.shape self.old.cache page }
        ensures named { NamesPath B.Board self.old board.old self.new board.new page result }
        ensures cache { self.new.cache ≡ self.old.cache }
        ensures plan { Follows (name_plan page self.old) (B.device board.old) (B.device board.new) (ended result self.new) }
    {
        self.cache.are_banks();
        self.mirror.are_lines();
        make_dirty(&self.geo, &self.cache, &mut self.mirror, board, page)?;
        Ok(())
    }
}
