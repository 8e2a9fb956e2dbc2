//! The writes of recovery: the lines made, and then zero shadow lines.
ghost use Rattle.std.specs.Prelude.{◌≡◌, ◌<◌, All, length};
ghost use Rattle.pmem_base.specs.Geo.{shape_of};
ghost use Rattle.pmem_base.specs.Layout.{meta_lines, shadow_lines, device_lines};
ghost use Rattle.call_plan.specs.Following.{Follows};
ghost use Rattle.pmem_recovery.specs.Plans.{changed_plan, entries_plan, clear_plan};

use crate::entries::{MadeEntry, is_other};
use board::Board;
use pmem_base::{Cut, Geo, Line};

/// Writes the lines made that are other lines than the device's, in order.
pub(crate) fn write_made<B: Board>(board: &mut B, geo: &Geo, made: &[MadeEntry]) -> Result<(), Cut>
    requires size { (B.device board.old).size ≡ device_lines (shape_of geo.now) }
    requires on_tree { All (λ entry. entry.at < meta_lines (shape_of geo.now)) made.now }
    ensures plan { Follows (entries_plan (shape_of geo.now) made.now) (B.device board.old) (B.device board.new) result }
{
    'entries: for entry in made {
        write_changed(board, geo.meta_line(entry.at), &entry.line, entry.changed)?;
    }
    Ok(())
}

/// Writes zeros over the shadow lines that aren't zero, in order.
pub(crate) fn clear_shadow<B: Board>(board: &mut B, geo: &Geo, shadow: &[Line]) -> Result<(), Cut>
    requires size { (B.device board.old).size ≡ device_lines (shape_of geo.now) }
    requires shadow { length shadow.now ≡ shadow_lines (shape_of geo.now) }
    ensures plan { Follows (clear_plan (shape_of geo.now) shadow.now) (B.device board.old) (B.device board.new) result }
{
    let zero = Line::default();
    'lines: for n in 0..geo.shadows() {
        let changed = is_other(&shadow[n as usize], &zero);
        write_changed(board, geo.shadow_line(n), &zero, changed)?;
    }
    Ok(())
}

/// Writes a line if it differs from the device's.
fn write_changed<B: Board>(board: &mut B, at: u32, line: &Line, changed: bool) -> Result<(), Cut>
    requires { at < (B.device board.old).size }
    ensures plan { Follows (changed_plan at line.now changed) (B.device board.old) (B.device board.new) result }
{
    if changed {
        board.write_line(at, line)
    } else {
        Ok(())
    }
}
