//! Laws of the marks that the engine's calls make, from their plans alone.
ghost use Rattle.pmem_engine.specs.SealLaws.{OwnSealsStayArmed};
ghost use Rattle.pmem_engine.specs.MarkLaws.{CutWritesMakeFronts, CutTurnsMakeFronts, WritesKeepMarks, TurnsKeepMarks};

/// A law: a write or a turn that is cut has made a prefix of the marks that it would have made from the same board,
/// whatever chip and device are; and the earlier marks stay, wherever it ends.
pub fn cut_calls_make_a_front()
    ensures write { CutWritesMakeFronts }
    ensures turn { CutTurnsMakeFronts }
    ensures kept_by_write { WritesKeepMarks }
    ensures kept_by_turn { TurnsKeepMarks }
{}

/// A law: if power is cut while a write's own line is sealed, either the seal isn't made and the registers are as they
/// were, or its group is still armed.
pub fn own_seals_stay_armed()
    ensures { OwnSealsStayArmed }
{}
