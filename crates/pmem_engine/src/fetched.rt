//! Laws of how a read and a write fetch the page's path and name it, and of what a write leaves that doesn't end well,
//! from their plans alone.
ghost use Rattle.pmem_engine.specs.FetchLaws.{ReadsFetchFirst, CachedReadsTakeNoStep, StoppedWritesAreTold, BlocksAreWrittenWhereDue};
ghost use Rattle.pmem_engine.specs.NameLaws.{PathsAreNamedInOrder};

/// A law: wherever a read ends, the first levels of its path were fetched, by the cache as it was; of the lines, those
/// of the evicted dirty blocks were written and no others; and nothing was latched. All levels were fetched if the line
/// was unsealed or its tag refused; those above it if a metadata line was refused or clashes, which is of a level that
/// wasn't cached. Power that is on is cut only if the next level isn't cached and a dirty block must be evicted for it.
pub fn reads_fetch_their_path()
    ensures { ReadsFetchFirst }
{}

/// A law: a read whose path is cached writes and latches nothing and makes no digest, whatever it answers, and power
/// that is on isn't cut.
pub fn cached_reads_take_no_step()
    ensures { CachedReadsTakeNoStep }
{}

/// A law: a write that is refused, shown or cut leaves what its fetch left. If the path is refused or the counter is
/// exhausted, the fetch's write-backs were written and nothing else, no mark was made, nothing was latched, and the
/// registers are unchanged. If a tag is refused or a seal is a forged one, the whole path was fetched, no other
/// metadata line was written, and no block is named; some lines of the page that must be finished, or none, are
/// resealed, each by a mark, two line writes and two latches, and done in its register. A cut comes in the fetch, which
/// then leaves what a refused path leaves, or once the whole path was fetched and the counter isn't exhausted; then no
/// block came in or was evicted since.
pub fn stopped_writes_leave_their_fetch()
    ensures { StoppedWritesAreTold }
{}

/// A law: wherever a write ends, its page's counter block stands on the device as it did, if the board exposes it,
/// unless a page was begun or the line was sealed under a minor that the stop-loss number divides.
pub fn counter_blocks_are_written_where_due()
    ensures { BlocksAreWrittenWhereDue }
{}

/// A law: a write names the blocks of its page's path from the top down, by one line write for each that isn't named
/// yet. If power is cut, the first of them are named in the engine's copy of the shadow lines, and on the device one
/// fewer. Nothing else changes.
pub fn paths_are_named_in_order()
    ensures { PathsAreNamedInOrder }
{}
