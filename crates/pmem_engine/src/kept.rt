//! Laws of what the engine's calls leave as it was, from their plans alone.
ghost use Rattle.pmem_engine.specs.KeptLaws.{ReadsWriteMetadataAlone, FlushesWriteMetadataAlone, LossesWriteMetadataAlone, TurnsWriteTheirLine, TurnsKeepMirror, BlocksAreWrittenInOrder};

/// A law: wherever a read, a flush or a new stop-loss number ends, only metadata lines were written: the lines of data,
/// of tags and of the shadow tables are as they were, if the board exposes them, and so is the engine's copy of the
/// shadow lines. A read and a flush latch nothing; a new number is latched by itself, and a cut leaves the old one.
pub fn some_calls_write_metadata_alone()
    ensures read { ReadsWriteMetadataAlone }
    ensures flush { FlushesWriteMetadataAlone }
    ensures loss { LossesWriteMetadataAlone }
{}

/// A law: wherever a turn ends, no line was written but that of the line not done yet that is lowest in the page begun
/// first, and its tag line; and the engine's copy of the shadow lines is as it was.
pub fn turns_write_their_line()
    ensures lines { TurnsWriteTheirLine }
    ensures mirror { TurnsKeepMirror }
{}

/// A law: a smaller stop-loss number writes the dirty counter blocks in order, the oldest first: each once, to its
/// place, as it is cached, and it is clean then. If power is cut, the first of them are written and clean, and the
/// others are as they were.
pub fn dirty_blocks_are_written_in_order()
    ensures { BlocksAreWrittenInOrder }
{}
