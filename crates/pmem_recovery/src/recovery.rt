//! Recovery after a cut.
ghost use Rattle.std.specs.Prelude.{◌≡◌, ◌<◌, ◌≤◌, ◌+◌, ◌*◌, [], IsTrue, IfOk, OnOk, length, vec_capacity};
ghost use Rattle.pmem_base.specs.Geo.{shape_of};
ghost use Rattle.pmem_base.specs.Shape.{is_loss};
ghost use Rattle.pmem_base.specs.Layout.{meta_lines, shadow_lines, device_lines};
ghost use Rattle.plain_model.specs.Bounds.{most_blocks, most_nodes};
ghost use Rattle.pmem_base.specs.Registers.{IsValidRegs};
ghost use Rattle.call_plan.specs.Plans.{ended};
ghost use Rattle.call_plan.specs.Following.{Follows};
ghost use Rattle.pmem_recovery.specs.Plans.{shadow_plan};
ghost use Rattle.pmem_recovery.specs.Promised.{FollowsMending, FollowsMaking, Recovers};

use crate::RecFault;
use crate::counters::fix_counters;
use crate::entries::MadeLines;
use crate::nodes::{check_root, fix_nodes};
use crate::writing::{clear_shadow, write_made};
use board::Board;
use call_effects::Work;
use commit_regs::finish;
use meta_cache::Cache;
use pmem_base::{Cut, Geo, Line, MemFault, Regs};
use pmem_engine::Engine;
use seal_ledger::Audit;
use shadow_tables::Mirror;
use std::alloc::Global;
use suite::Suite;

/// Recovers a device after power went off: redoes the armed group, finds the minors of the doubted
/// counter blocks by trials, makes the doubted nodes again, compares the root, writes what changed, and
/// clears the shadow lines. Doubted are the blocks of lazy levels that the shadow tables name, or all of
/// them on a device without shadow tables. The answer is an engine with nothing cached, and how much was tried. What it
/// does to the board, step by step, is `recover_plan` of `specs/Plans.antt`. The audit isn't called.
///
/// Errors: `Memory`, and nothing changes, since all memory is taken first. `NoCounter` and `Twin` at the first line
/// that doesn't have exactly one minor; `Root` if each has one and the found root isn't the register; these change
/// nothing except by the redo. `Cut` as the board says.
pub fn recover<B: Board, S: Suite, A: Audit>(
    alloc: Global,
    geo: &Geo,
    board: &mut B,
    suite: &mut S,
    audit: &A,
) -> Result<(Engine, Work), RecFault>
    requires size { (B.device board.old).size ≡ device_lines (shape_of geo.now) }
    requires regs { IsValidRegs (shape_of geo.now) (B.device board.old).regs }
    ensures { Recovers B.Board S.Suite geo.now board.old suite.old board.new suite.new (A.ledger audit.now) result }
{
    let _audit = audit;
    let cache = Cache::new(alloc, geo)?;
    let mirror = Mirror::new(alloc, geo)?;
    let mut room = Room::new(alloc, geo)?;
    finish(board)?;
    let work = mend(board, suite, geo, &mut room)?;
    Ok((Engine::new(*geo, cache, mirror), work))
}

/// The memory that a recovery needs: for the shadow lines as read, and for the lines made.
#[derive(Drop)]
struct Room {
    shadow: Vec<Line>,
    made: MadeLines,
}

impl Room {
    /// Room for all shadow lines, and for all lines that may be made. Errors: running out of memory.
    fn new(alloc: Global, geo: &Geo) -> Result<Room, MemFault>
        ensures shadow { IfOk result (λ room. room.shadow.items ≡ []) }
        ensures made { IfOk result (λ room. room.made.entries ≡ []) }
        ensures shadow_room { IfOk result (λ room. shadow_lines (shape_of geo.now) ≤ vec_capacity room.shadow) }
        ensures made_room { IfOk result (λ room. room.made.room ≡ most_blocks (shape_of geo.now) + most_nodes (shape_of geo.now)) }
        ensures positions { IfOk result (λ room. room.made.positions ≡ meta_lines (shape_of geo.now)) }
    {
        let shadow = Vec::with_capacity(alloc, geo.shadows() as usize)?;
        let made = MadeLines::new(alloc, geo)?;
        Ok(Room { shadow, made })
    }
}

/// Makes the doubted lines, compares the root, and writes what changed. No group is armed.
fn mend<B: Board, S: Suite>(
    board: &mut B,
    suite: &mut S,
    geo: &Geo,
    room: &mut Room,
) -> Result<Work, RecFault>
    requires size { (B.device board.old).size ≡ device_lines (shape_of geo.now) }
    requires loss { IsTrue (is_loss (B.device board.old).regs.loss) }
    requires shadow { room.old.shadow.items ≡ [] }
    requires made { room.old.made.entries ≡ [] }
    requires shadow_room { shadow_lines (shape_of geo.now) ≤ vec_capacity room.old.shadow }
    requires made_room { room.old.made.room ≡ most_blocks (shape_of geo.now) + most_nodes (shape_of geo.now) }
    requires positions { room.old.made.positions ≡ meta_lines (shape_of geo.now) }
    ensures keys { S.keys suite.new ≡ S.keys suite.old }
    ensures pads { S.pads suite.new ≡ S.pads suite.old }
    ensures plan { FollowsMending B.Board S.Suite geo.now board.old suite.old board.new suite.new result }
{
    let regs = board.regs().same();
    let work = make_lines(board, suite, geo, &regs, room)?;
    write_made(board, geo, room.made.entries())?;
    clear_shadow(board, geo, &room.shadow)?;
    Ok(work)
}

/// Reads the shadow lines, makes the doubted lines and compares the root.
fn make_lines<B: Board, S: Suite>(
    board: &mut B,
    suite: &mut S,
    geo: &Geo,
    regs: &Regs,
    room: &mut Room,
) -> Result<Work, RecFault>
    requires size { (B.device board.old).size ≡ device_lines (shape_of geo.now) }
    requires loss { IsTrue (is_loss regs.now.loss) }
    requires shadow { room.old.shadow.items ≡ [] }
    requires made { room.old.made.entries ≡ [] }
    requires shadow_room { shadow_lines (shape_of geo.now) ≤ vec_capacity room.old.shadow }
    requires made_room { room.old.made.room ≡ most_blocks (shape_of geo.now) + most_nodes (shape_of geo.now) }
    requires positions { room.old.made.positions ≡ meta_lines (shape_of geo.now) }
    ensures keys { S.keys suite.new ≡ S.keys suite.old }
    ensures pads { S.pads suite.new ≡ S.pads suite.old }
    ensures plan { FollowsMaking B.Board S.Suite geo.now board.old suite.old board.new suite.new
        regs.now room.new.shadow.items room.new.made.entries result }
{
    read_shadow(board, geo, &mut room.shadow)?;
    let trials = fix_counters(board, suite, geo, regs, &room.shadow, &mut room.made)?;
    let digests = fix_nodes(board, suite, geo, &room.shadow, &mut room.made)?;
    check_root(board, suite, geo, regs, &room.made)?;
    Ok(Work {
        trials,
        digests: digests + 1,
    })
}

/// Reads all shadow lines.
fn read_shadow<B: Board>(board: &mut B, geo: &Geo, shadow: &mut Vec<Line>) -> Result<(), Cut>
    requires size { (B.device board.old).size ≡ device_lines (shape_of geo.now) }
    requires empty { shadow.old.items ≡ [] }
    requires room { shadow_lines (shape_of geo.now) ≤ vec_capacity shadow.old }
    ensures long { OnOk result (length shadow.new.items ≡ shadow_lines (shape_of geo.now)) }
    ensures plan { Follows (shadow_plan (shape_of geo.now)) (B.device board.old) (B.device board.new) (ended result shadow.new.items) }
{
    'lines: for n in 0..geo.shadows() {
        let line = board.read_line(geo.shadow_line(n))?;
        line.is_whole();
        shadow.push_reserved(line);
    }
    Ok(())
}
