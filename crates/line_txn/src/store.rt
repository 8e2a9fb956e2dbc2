//! Data lines over an engine, written by transactions of several lines.
ghost use Rattle.std.specs.Prelude.{◌≡◌, ◌≤◌, ◌<◌, ◌+◌, ◌^◌, [], false, not, None, IfOk};
ghost use Rattle.pmem_base.specs.Layout.{data_lines};
ghost use Rattle.pmem_engine.specs.Engine.{EngineState};
ghost use Rattle.call_effects.specs.Outcomes.{is_going};
ghost use Rattle.pmem_engine.specs.Calls.{IsUsable};
ghost use Rattle.line_txn.specs.Header.{AreDistinctBelow};
ghost use Rattle.line_txn.specs.Logged.{targets_of};
ghost use Rattle.seal_ledger.specs.Notes.{HasRoom};

use crate::edits::{applying, deciding, redoing, targets_in};
use crate::header::read_header;
use arrayvec::ArrayVec;
use board::Board;
use engine_lines::edit_all;
use pmem_base::Line;
use pmem_engine::{Engine, Fault};
use seal_ledger::Audit;
use suite::Suite;

/// What became of a transaction that was decided.
#[derive(Clone, Copy, Debug, PartialEq, Eq)]
pub enum Committed {
    /// Each of its lines was written to its place.
    Applied,
    /// A target or the header is spent: from now on the log serves the targets.
    Stuck { page: u32 },
}

/// Why a commit ended: the fault of the engine's call, and whether the header's write had been answered Ok.
#[derive(Clone, Copy, Debug, PartialEq, Eq)]
pub struct CommitFault {
    pub fault: Fault,
    pub committed: bool,
}

/// Why no lines were opened. The engine is dropped; recovery over the board makes another.
#[derive(Clone, Copy, Debug, PartialEq, Eq)]
pub enum TxnFault {
    /// A call of the engine wasn't done.
    Engine(Fault),
    /// The line of the header isn't a header.
    Header { line: Line },
}

/// The number of lines of the transaction that was found in force, and the page of a spent line if the redo ended at
/// one.
#[derive(Clone, Copy, Debug, PartialEq, Eq)]
pub struct Opened {
    pub redone: u8,
    pub stuck: Option<u32>,
}

/// An engine whose first n = L - 16 data lines are written by transactions. Data line n holds the header, and the next
/// 15 hold the bodies. If a line of a transaction in force is spent, the store is stuck: its targets are read from
/// their bodies.
#[derive(Drop)]
pub struct Store {
    engine: Engine,
    lines: u32,
    logged: ArrayVec<u32, 15>,
    stuck: Option<u32>,
    pub ghost its_lines: { lines + 16 ≡ data_lines engine.shape },
    pub ghost few_lines: { lines ≤ 2 ^ 30 },
    pub ghost only_stuck: { stuck ≡ None → logged.items ≡ [] },
}

impl Store {
    ghost use Rattle.line_txn.specs.Edits.{IsWholeTxn};
    ghost use Rattle.line_txn.specs.Serving.{served_from};
    ghost use Rattle.line_txn.specs.Store.{IsSpentUndecided, IsServedAs, commit_outcome_by, logged_lines};
    ghost use Rattle.line_txn.specs.Promised.{OpensStore, OpensLines, FollowsOpeningLines, ReadsServed, CommitsTxn, CommitsLines, FollowsCommitting, IsCommitRefused};

    /// Reads the header, and redoes the transaction in force. Errors: `Header` if and only if the line isn't a header;
    /// `Engine` with the fault of the engine's call, which is `Down` if the engine is down, and then nothing is read.
    pub fn open<B: Board, S: Suite, A: Audit>(
        engine: Engine,
        board: &mut B,
        suite: &mut S,
        audit: &mut A,
    ) -> Result<(Store, Opened), TxnFault>
        requires room { HasRoom (A.ledger audit.old) (A.capacity audit.old) 1056 }
        requires usable { IsUsable engine.shape engine (B.device board.old) (A.ledger audit.old) }
        ensures opened { OpensStore B.Board S.Suite A.Audit engine board.old suite.old audit.old
            board.new suite.new audit.new result }
        ensures capacity { A.capacity audit.new ≡ A.capacity audit.old }
        ensures keys { S.keys suite.new ≡ S.keys suite.old }
        ensures usable { IfOk result (λ opened. IsUsable engine.shape opened.0.engine (B.device board.new) (A.ledger audit.new)) }
        ensures shape { IfOk result (λ opened. opened.0.engine.shape ≡ engine.shape) }
        ensures left { (last : EngineState) × IsUsable engine.shape last (B.device board.new) (A.ledger audit.new) }
    {
        if engine.is_down() {
            return Err(TxnFault::Engine(Fault::Down));
        }
        Store::open_lines(engine, board, suite, audit)
    }

    // The same by an engine that is up: the calls of which the rest follows.
    fn open_lines<B: Board, S: Suite, A: Audit>(
        engine: Engine,
        board: &mut B,
        suite: &mut S,
        audit: &mut A,
    ) -> Result<(Store, Opened), TxnFault>
        requires room { HasRoom (A.ledger audit.old) (A.capacity audit.old) 1056 }
        requires usable { IsUsable engine.shape engine (B.device board.old) (A.ledger audit.old) }
        requires up { engine.down ≡ false }
        ensures opened { OpensLines B.Board S.Suite A.Audit engine board.old suite.old audit.old
            board.new suite.new audit.new result }
        ensures plan { FollowsOpeningLines B.Board S.Suite A.Audit engine board.old suite.old audit.old
            board.new suite.new audit.new result }
        ensures few { logged_lines engine.shape ≤ 2 ^ 30 }
        ensures capacity { A.capacity audit.new ≡ A.capacity audit.old }
        ensures keys { S.keys suite.new ≡ S.keys suite.old }
        ensures usable { IfOk result (λ opened. IsUsable engine.shape opened.0.engine (B.device board.new) (A.ledger audit.new)) }
        ensures shape { IfOk result (λ opened. opened.0.engine.shape ≡ engine.shape) }
        ensures up { IfOk result (λ opened. opened.0.engine.down ≡ false) }
        ensures left { (last : EngineState) × IsUsable engine.shape last (B.device board.new) (A.ledger audit.new) }
    {
        let mut engine = engine;
        let lines = engine.geo().lines() - 16;
        let header = match engine.read(board, suite, audit, lines) {
            Err(fault) => return Err(TxnFault::Engine(fault)),
            Ok(header) => header,
        };
        let Some(targets) = read_header(lines, &header) else {
            return Err(TxnFault::Header { line: header });
        };
        let redone = targets.len() as u8;
        let edits = redoing(lines, &targets);
        match edit_all(&mut engine, board, suite, audit, &edits) {
            Ok(()) => Ok((
                Store {
                    engine,
                    lines,
                    logged: ArrayVec::new(),
                    stuck: None,
                },
                Opened {
                    redone,
                    stuck: None,
                },
            )),
            Err(fault) => match fault {
                Fault::Spent { page } => Ok((
                    Store {
                        engine,
                        lines,
                        logged: targets,
                        stuck: Some(page),
                    },
                    Opened {
                        redone,
                        stuck: Some(page),
                    },
                )),
                _ => Err(TxnFault::Engine(fault)),
            },
        }
    }

    /// The page of the spent line that the store is stuck at.
    pub fn stuck(&self) -> Option<u32>
        ensures { result ≡ self.now.stuck }
    {
        self.stuck
    }

    /// How many data lines there are.
    pub fn lines(&self) -> u32
        ensures value { result ≡ self.now.lines }
        ensures logged { result + 16 ≡ data_lines self.now.engine.shape }
    {
        self.lines
    }

    /// A data line. A stuck store reads its targets from the log. Errors: the fault of the engine's read, which is
    /// `Down` if the engine is down.
    pub fn read<B: Board, S: Suite, A: Audit>(
        &mut self,
        board: &mut B,
        suite: &mut S,
        audit: &mut A,
        at: u32,
    ) -> Result<Line, Fault>
        requires line { at < self.old.lines }
        requires usable { IsUsable self.old.engine.shape self.old.engine (B.device board.old) (A.ledger audit.old) }
        ensures read { ReadsServed B.Board S.Suite A.Audit self.old board.old suite.old audit.old
            self.new board.new suite.new audit.new at result }
        ensures served { IsServedAs self.old.logged.items self.old.stuck self.old self.new }
        ensures capacity { A.capacity audit.new ≡ A.capacity audit.old }
        ensures keys { S.keys suite.new ≡ S.keys suite.old }
        ensures usable { IsUsable self.old.engine.shape self.new.engine (B.device board.new) (A.ledger audit.new) }
        ensures shape { self.new.engine.shape ≡ self.old.engine.shape }
    {
        let place = self.place(at);
        self.engine.read(board, suite, audit, place)
    }

    // Where a data line is read.
    fn place(&self, at: u32) -> u32
        requires line { at < self.now.lines }
        ensures place { result ≡ served_from self.now.lines self.now.logged.items at }
        ensures low { result < self.now.lines + 16 }
    {
        let _full = self.logged.is_full();
        'targets: for (i, target) in self.logged.iter().enumerate() {
            if *target == at {
                return self.lines + 1 + i as u32;
            }
        }
        at
    }

    /// Writes these lines, all of them or none: the bodies into the log, then the header, then each line to its place,
    /// and then the zero header. Without lines nothing is done. Wherever it ends, memory is what it was until the
    /// header is written, and has the whole transaction from then on. Errors: `CommitFault` with the fault of the write
    /// that ended it, and `committed`, whether the header's write was answered; `Down` if there are lines and the
    /// engine is down, and then nothing is done.
    pub fn commit<B: Board, S: Suite, A: Audit>(
        &mut self,
        board: &mut B,
        suite: &mut S,
        audit: &mut A,
        txn: &ArrayVec<(u32, Line), 15>,
    ) -> Result<Committed, CommitFault>
        requires targets { AreDistinctBelow self.old.lines (targets_of txn.now.items) }
        requires free { self.old.stuck ≡ None }
        requires room { HasRoom (A.ledger audit.old) (A.capacity audit.old) 2112 }
        requires usable { IsUsable self.old.engine.shape self.old.engine (B.device board.old) (A.ledger audit.old) }
        ensures committed { CommitsTxn B.Board S.Suite A.Audit self.old board.old suite.old audit.old
            self.new board.new suite.new audit.new txn.now.items result }
        ensures spent { IsSpentUndecided result }
        ensures whole { IsWholeTxn txn.now.items }
        ensures capacity { A.capacity audit.new ≡ A.capacity audit.old }
        ensures keys { S.keys suite.new ≡ S.keys suite.old }
        ensures usable { IsUsable self.old.engine.shape self.new.engine (B.device board.new) (A.ledger audit.new) }
        ensures shape { self.new.engine.shape ≡ self.old.engine.shape }
    {
        if self.engine.is_down() {
            return self.refused(txn);
        }
        self.commit_lines(board, suite, audit, txn)
    }

    // The answer of a commit if the engine is down.
    fn refused(&self, txn: &ArrayVec<(u32, Line), 15>) -> Result<Committed, CommitFault>
        ensures answer { IsCommitRefused txn.now.items result }
        ensures spent { IsSpentUndecided result }
        ensures whole { IsWholeTxn txn.now.items }
    {
        if txn.is_empty() {
            return Ok(Committed::Applied);
        }
        // its lines are whole
        let _whole = deciding(self.lines, txn);
        Err(CommitFault {
            fault: Fault::Down,
            committed: false,
        })
    }

    // The same by an engine that is up: the calls of which the rest follows.
    fn commit_lines<B: Board, S: Suite, A: Audit>(
        &mut self,
        board: &mut B,
        suite: &mut S,
        audit: &mut A,
        txn: &ArrayVec<(u32, Line), 15>,
    ) -> Result<Committed, CommitFault>
        requires targets { AreDistinctBelow self.old.lines (targets_of txn.now.items) }
        requires room { HasRoom (A.ledger audit.old) (A.capacity audit.old) 2112 }
        requires usable { IsUsable self.old.engine.shape self.old.engine (B.device board.old) (A.ledger audit.old) }
        requires up { self.old.engine.down ≡ false }
        ensures committed { CommitsLines B.Board S.Suite A.Audit self.old board.old suite.old audit.old
            self.new board.new suite.new audit.new txn.now.items result }
        ensures plan { FollowsCommitting B.Board S.Suite A.Audit self.old board.old suite.old audit.old
            self.new board.new suite.new audit.new txn.now.items result }
        ensures down { self.new.engine.down ≡ not (is_going (commit_outcome_by result)) }
        ensures whole { IsWholeTxn txn.now.items }
        ensures capacity { A.capacity audit.new ≡ A.capacity audit.old }
        ensures keys { S.keys suite.new ≡ S.keys suite.old }
        ensures usable { IsUsable self.old.engine.shape self.new.engine (B.device board.new) (A.ledger audit.new) }
        ensures shape { self.new.engine.shape ≡ self.old.engine.shape }
    {
        if txn.is_empty() {
            return Ok(Committed::Applied);
        }
        let edits = deciding(self.lines, txn);
        if let Err(fault) = edit_all(&mut self.engine, board, suite, audit, &edits) {
            return Err(CommitFault {
                fault,
                committed: false,
            });
        }
        let edits = applying(self.lines, txn);
        match edit_all(&mut self.engine, board, suite, audit, &edits) {
            Ok(()) => Ok(Committed::Applied),
            Err(fault) => match fault {
                Fault::Spent { page } => {
                    self.logged = targets_in(txn);
                    self.stuck = Some(page);
                    Ok(Committed::Stuck { page })
                }
                _ => Err(CommitFault {
                    fault,
                    committed: true,
                }),
            },
        }
    }
}
