//! Laws of headers, and of a memory with a log.
ghost use Rattle.std.specs.Prelude.{◌+◌, [], replicate};
ghost use Rattle.pmem_base.specs.Lines.{zero_line};
ghost use Rattle.line_txn.specs.Header.{IsNamedOnce};
ghost use Rattle.line_txn.specs.Logged.{IsLogged, IsWholeAtEachStage, IsKeptByRedo, IsKeptByTarget, IsKeptByOpening, IsReadThroughLog};
ghost use Rattle.line_txn.specs.Determined.{OpeningIsDetermined, CommitIsDetermined};

/// A law: a line is the header of one list of targets at most.
pub fn headers_name_one_list(n: u32)
    ensures { IsNamedOnce n }
{
    let _ = n;
}

/// A law: a commit that is cut leaves memory without its transaction until its header is written, and with all of it
/// from then on. A redo of the header in force keeps memory however far it comes, also if it is begun again; so does a
/// write of any line at a target, and an opening, wherever it ends. Under a header a target is read from its body, and
/// every other line from its place.
pub fn transactions_are_whole(n: u32)
    ensures each { IsWholeAtEachStage n }
    ensures redo { IsKeptByRedo n }
    ensures target { IsKeptByTarget n }
    ensures opening { IsKeptByOpening n }
    ensures read { IsReadThroughLog n }
{
    let _ = n;
}

/// A law: n + 16 zero lines hold n zero lines, and no transaction is in force.
pub fn zero_lines_are_logged(n: u32)
    ensures { IsLogged n (replicate (n + 16) zero_line) [] (replicate n zero_line) }
{
    let _ = n;
}

/// A law: two openings over one watched board, which has power, that meet the same fuse have the same answer, and leave
/// the same engine, ledger and board.
pub fn opening_is_determined()
    ensures { OpeningIsDetermined }
{}

/// A law: two commits of one transaction over one watched board, which has power, that meet the same fuse have the same
/// answer, and leave the same engine, ledger and board. How the store serves its lines then follows from the answer.
pub fn commit_is_determined()
    ensures { CommitIsDetermined }
{}
