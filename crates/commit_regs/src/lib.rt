//! Commit groups: lines that are written as one act, by the registers of a board.
#![tactic(auto)]

ghost use Rattle.std.specs.Prelude.{◌≡◌, ◌≢◌, ◌<◌, [], All, length, IsOk, OnOk, OnErr};
ghost use Rattle.pmem_base.specs.Registers.{IsGroup, without_group};
ghost use Rattle.board.specs.Steps.{HasLatched, WasCut};
ghost use Rattle.call_plan.specs.Following.{Follows};
ghost use Rattle.commit_regs.specs.Groups.{HasRedone, HasFinished, IsInterrupted};
ghost use Rattle.commit_regs.specs.Plans.{arm_plan, lines_plan, finish_plan};
ghost use Rattle.commit_regs.specs.Laws.{CutGroupsAreFronts, DoneGroupsAreWritten, GroupStepsAreCounted, GroupsAreOneAct};

use board::Board;
use pmem_base::{Cut, Line, Regs};

/// Arms a group by one latch of the next registers: from then on its lines count as written. `Cut`
/// changes nothing.
pub fn arm<B: Board>(board: &mut B, next: &Regs) -> Result<(), Cut>
    requires unarmed { (B.device board.old).regs.group.items ≡ [] }
    requires armed { next.now.group.items ≢ [] }
    requires group { IsGroup (B.device board.old).size next.now.group.items }
    ensures ok { OnOk result (HasLatched (B.device board.old) next.now (B.device board.new)) }
    ensures cut { OnErr result (WasCut (B.device board.old) (B.device board.new)) }
    ensures plan { Follows (arm_plan next.now) (B.device board.old) (B.device board.new) result }
{
    board.latch(next)
}

/// Finishes the armed group: writes its lines in order, and empties it by one latch. If no group is armed it does
/// nothing. Errors: `Cut`; the group is still armed then, and finishing it again leaves the lines as finishing it once
/// would have.
pub fn finish<B: Board>(board: &mut B) -> Result<(), Cut>
    requires { IsGroup (B.device board.old).size (B.device board.old).regs.group.items }
    ensures ok { OnOk result (HasFinished (B.device board.old) (B.device board.new)) }
    ensures cut { OnErr result
        (IsInterrupted (B.device board.old).regs.group.items (B.device board.old) (B.device board.new)) }
    ensures empty { (B.device board.old).regs.group.items ≡ [] → IsOk result × (board.new ≡ board.old) }
    ensures plan { (B.device board.old).regs.group.items ≢ []
        → Follows (finish_plan (B.device board.old).regs) (B.device board.old) (B.device board.new) result }
{
    if board.regs().group.is_empty() {
        return Ok(());
    }
    let mut armed = board.regs().same();
    finish_armed(board, &mut armed)
}

/// Finishes an armed group as `finish` does, by the registers that it was armed with: their group is empty afterwards.
/// Errors: those of `finish`.
pub fn finish_armed<B: Board>(board: &mut B, armed: &mut Regs) -> Result<(), Cut>
    requires latched { (B.device board.old).regs ≡ armed.old }
    requires armed { armed.old.group.items ≢ [] }
    requires group { IsGroup (B.device board.old).size armed.old.group.items }
    ensures ok { OnOk result (HasFinished (B.device board.old) (B.device board.new)) }
    ensures cut { OnErr result (IsInterrupted armed.old.group.items (B.device board.old) (B.device board.new)) }
    ensures emptied { armed.new ≡ without_group armed.old }
    ensures plan { Follows (finish_plan armed.old) (B.device board.old) (B.device board.new) result }
{
    let written = write_all(board, armed.group.as_slice());
    armed.group.clear();
    written?;
    board.latch(armed)
}

/// Writes the lines of a group in order.
fn write_all<B: Board>(board: &mut B, group: &[(u32, Line)]) -> Result<(), Cut>
    requires { All (λ entry. entry.0 < (B.device board.old).size) group.now }
    ensures ok { OnOk result (HasRedone (B.device board.old) group.now (B.device board.new)) }
    ensures cut { OnErr result (IsInterrupted group.now (B.device board.old) (B.device board.new)) }
    ensures plan { Follows (lines_plan group.now) (B.device board.old) (B.device board.new) result }
{
    for (at, line) in group {
        board.write_line(*at, line)?;
    }
    Ok(())
}

/// A law: a group's lines are written in order. If power is cut before the group is emptied, a prefix of them was
/// written, and the registers are unchanged; otherwise each line took one write, and the group one latch.
pub fn groups_are_written_in_order()
    ensures cut { CutGroupsAreFronts }
    ensures done { DoneGroupsAreWritten }
    ensures steps { GroupStepsAreCounted }
{}

/// A law: an engine's group is one act, together with the state next to the board that belongs to it. If power is cut
/// before the group is armed nothing has changed. From then on the state is the next one, the registers are the armed
/// ones, and the first of the group's lines are written, in order. A finished group has all its lines written by one
/// line write each, and took two latches.
pub fn groups_are_one_act<S>()
    ensures { GroupsAreOneAct S }
{}
