//! That the contracts of the engine's calls leave nothing open.
ghost use Rattle.asit_shadow.specs.Determined.{TreeReadIsDetermined, TreeWriteIsDetermined, TreeRecoverIsDetermined, TreeFormatIsDetermined};

/// A law: two reads of one line by one engine over one watched board, which has power, that meet the same
/// fuse have the same answer and leave the same engine, board and watch, and the same counts.
pub fn tree_read_is_determined()
    ensures { TreeReadIsDetermined }
{}

/// A law: two writes of one line by one engine over one watched board, which has power, that meet the same fuse have
/// the same answer and leave the same engine, board and watch, and the same counts.
pub fn tree_write_is_determined()
    ensures { TreeWriteIsDetermined }
{}

/// A law: two formats of one device, which has power and exposes its lines, leave the same engine, watch and device.
pub fn tree_format_is_determined()
    ensures { TreeFormatIsDetermined }
{}

/// A law: two recoveries of one device over one watched board, which has power, that had their memory and meet the same
/// fuse have the same answer, and leave the same board, watch and digests.
pub fn tree_recover_is_determined()
    ensures { TreeRecoverIsDetermined }
{}
