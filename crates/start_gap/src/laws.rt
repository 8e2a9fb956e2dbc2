//! Laws of places, moves and cuts.
ghost use Rattle.std.specs.Prelude.{◌≤◌, ◌+◌, replicate};
ghost use Rattle.pmem_base.specs.Lines.{zero_line};
ghost use Rattle.start_gap.specs.Wear.{IsWear, first_wear};
ghost use Rattle.start_gap.specs.Determined.{LevelledWriteIsDetermined};
ghost use Rattle.start_gap.specs.Logical.{ArePlaces, IsLevelled, IsSafeAtEachStage, IsSameUnderNext};

use crate::wear::Wear;

/// A law: distinct lines have distinct places, and none lies in the gap.
pub fn lines_have_places(n: u32, wear: &Wear)
    requires { IsWear n wear.now }
    ensures { ArePlaces n wear.now }
{
    let _ = n;
    let _ = wear.start;
}

/// A law: if the gap holds the line of the source, logical memory is the same under the next wear. And a write with its
/// move, wherever it is cut, leaves logical memory without the line or with it, under the wear that is recorded.
pub fn moves_keep_memory(n: u32)
    ensures same { IsSameUnderNext n }
    ensures each { IsSafeAtEachStage n }
{
    let _ = n;
}

/// A law: n + 2 zero lines hold n zero lines, which lie in order before the gap.
pub fn zero_lines_are_levelled(n: u32)
    requires { 1 ≤ n }
    ensures { IsLevelled n (replicate (n + 2) zero_line) (first_wear n) (replicate n zero_line) }
{
    let _ = n;
}

/// A law: two writes of one line over one watched board, which has power, that meet the same fuse have the same answer,
/// and leave the same wear, count, engine, ledger and board.
pub fn levelled_write_is_determined()
    ensures { LevelledWriteIsDetermined }
{}
