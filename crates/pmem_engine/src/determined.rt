//! That the contracts of the engine's calls leave nothing open.
ghost use Rattle.pmem_engine.specs.Determined.{FlushIsDetermined, SetLossIsDetermined, TurnIsDetermined, ReadIsDetermined, WriteIsDetermined, WritePartIsDetermined};

/// A law: two flushes of one engine over one watched board, which has power, that meet the same fuse have the
/// same answer and leave the same engine and board.
pub fn flush_is_determined()
    ensures { FlushIsDetermined }
{}

/// A law: two turns of one engine over one watched board, which has power, that meet the same fuse have the same answer
/// and leave the same engine, board, ledger and counts.
pub fn turn_is_determined()
    ensures { TurnIsDetermined }
{}

/// A law: two reads of one line by one engine over one watched board, which has power, that meet the same fuse have the
/// same answer and leave the same engine, board, ledger and counts.
pub fn read_is_determined()
    ensures { ReadIsDetermined }
{}

/// A law: two writes of one line by one engine over one watched board, which has power, that meet the same fuse have
/// the same answer and leave the same engine, board, ledger and counts.
pub fn write_is_determined()
    ensures { WriteIsDetermined }
{}

/// A law: two posted writes, of the same bytes, by one engine over one watched board, which has power, that meet the
/// same fuse have the same answer and leave the same engine, board, ledger and counts.
pub fn write_part_is_determined()
    ensures { WritePartIsDetermined }
{}

/// A law: two changes to one stop-loss number of one engine over one watched board, which has power, that meet the same
/// fuse have the same answer and leave the same engine and board.
pub fn set_loss_is_determined()
    ensures { SetLossIsDetermined }
{}
