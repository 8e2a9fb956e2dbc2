//! Changes of data lines, made by an engine one after the other.
ghost use Rattle.std.specs.Prelude.{◌≡◌, ◌≤◌, ◌<◌, ◌+◌, ◌*◌, false, not, length, All, IfOk};
ghost use Rattle.pmem_base.specs.Layout.{data_lines};
ghost use Rattle.call_effects.specs.Outcomes.{is_going};
ghost use Rattle.pmem_engine.specs.Outcomes.{outcome_of};
ghost use Rattle.pmem_engine.specs.Calls.{IsUsable};
ghost use Rattle.engine_lines.specs.Edits.{IsEditOf};
ghost use Rattle.engine_lines.specs.Promised.{PutsLine, EditsLine, EditsInOrder, FollowsPut, FollowsEdit, FollowsEdits, EditsAll};
ghost use Rattle.seal_ledger.specs.Notes.{HasRoom};

use board::Board;
use pmem_base::Line;
use pmem_engine::{Engine, Fault};
use seal_ledger::Audit;
use suite::Suite;

/// A change of one data line: what moves of a gap, commits and redos are made of.
#[derive(Clone, Copy, Debug, PartialEq, Eq)]
pub enum Edit {
    /// It is written.
    Put { at: u32, line: Line },
    /// Another one is read, and written to it.
    Copy { from: u32, at: u32 },
}

impl Default for Edit {
    /// Line 0 is copied to itself.
    fn default() -> Self {
        Edit::Copy { from: 0, at: 0 }
    }
}

/// Makes these changes in order, up to one that isn't made: a fault is that of the engine's call that ended it, and of an
/// engine that is down `Down`, without changes too. Each change makes at most 66 marks. What is done of the board is
/// `edits_plan` of `specs/Plans.antt`.
pub fn edit_all<B: Board, S: Suite, A: Audit>(
    engine: &mut Engine,
    board: &mut B,
    suite: &mut S,
    audit: &mut A,
    edits: &[Edit],
) -> Result<(), Fault>
    requires places { All (IsEditOf (data_lines engine.old.shape)) edits.now }
    requires room { HasRoom (A.ledger audit.old) (A.capacity audit.old) (66 * length edits.now) }
    requires usable { IsUsable engine.old.shape engine.old (B.device board.old) (A.ledger audit.old) }
    ensures edited { EditsAll B.Board S.Suite A.Audit engine.old board.old suite.old audit.old
        engine.new board.new suite.new audit.new edits.now result }
    ensures few { IfOk result (λ done. length (A.ledger audit.new).marks ≤ length (A.ledger audit.old).marks + 66 * length edits.now) }
    ensures capacity { A.capacity audit.new ≡ A.capacity audit.old }
    ensures keys { S.keys suite.new ≡ S.keys suite.old }
    ensures usable { IsUsable engine.old.shape engine.new (B.device board.new) (A.ledger audit.new) }
    ensures shape { engine.new.shape ≡ engine.old.shape }
{
    if engine.is_down() {
        return Err(Fault::Down);
    }
    edit_each(engine, board, suite, audit, edits)
}

// The same of an engine that is up.
fn edit_each<B: Board, S: Suite, A: Audit>(
    engine: &mut Engine,
    board: &mut B,
    suite: &mut S,
    audit: &mut A,
    edits: &[Edit],
) -> Result<(), Fault>
    requires places { All (IsEditOf (data_lines engine.old.shape)) edits.now }
    requires room { HasRoom (A.ledger audit.old) (A.capacity audit.old) (66 * length edits.now) }
    requires usable { IsUsable engine.old.shape engine.old (B.device board.old) (A.ledger audit.old) }
    requires up { engine.old.down ≡ false }
    ensures edited { EditsInOrder B.Board S.Suite A.Audit engine.old board.old suite.old audit.old
        engine.new board.new suite.new audit.new edits.now result }
    ensures plan { FollowsEdits B.Board S.Suite A.Audit engine.old board.old suite.old audit.old
        engine.new board.new suite.new audit.new edits.now result }
    ensures down { engine.new.down ≡ not (is_going (outcome_of result)) }
    ensures few { IfOk result (λ done. length (A.ledger audit.new).marks ≤ length (A.ledger audit.old).marks + 66 * length edits.now) }
    ensures capacity { A.capacity audit.new ≡ A.capacity audit.old }
    ensures keys { S.keys suite.new ≡ S.keys suite.old }
    ensures usable { IsUsable engine.old.shape engine.new (B.device board.new) (A.ledger audit.new) }
    ensures shape { engine.new.shape ≡ engine.old.shape }
{
    'edits: for edit in edits {
        if let Err(fault) = edit_line(engine, board, suite, audit, edit) {
            return Err(fault);
        }
    }
    Ok(())
}

// Makes one change.
fn edit_line<B: Board, S: Suite, A: Audit>(
    engine: &mut Engine,
    board: &mut B,
    suite: &mut S,
    audit: &mut A,
    edit: &Edit,
) -> Result<(), Fault>
    requires places { IsEditOf (data_lines engine.old.shape) edit.now }
    requires room { HasRoom (A.ledger audit.old) (A.capacity audit.old) 66 }
    requires usable { IsUsable engine.old.shape engine.old (B.device board.old) (A.ledger audit.old) }
    requires up { engine.old.down ≡ false }
    ensures edited { EditsLine B.Board S.Suite A.Audit engine.old board.old suite.old audit.old
        engine.new board.new suite.new audit.new edit.now result }
    ensures plan { FollowsEdit B.Board S.Suite A.Audit engine.old board.old suite.old audit.old
        engine.new board.new suite.new audit.new edit.now result }
    ensures down { engine.new.down ≡ not (is_going (outcome_of result)) }
    ensures few { IfOk result (λ done. length (A.ledger audit.new).marks ≤ length (A.ledger audit.old).marks + 66) }
    ensures capacity { A.capacity audit.new ≡ A.capacity audit.old }
    ensures keys { S.keys suite.new ≡ S.keys suite.old }
    ensures usable { IsUsable engine.old.shape engine.new (B.device board.new) (A.ledger audit.new) }
    ensures shape { engine.new.shape ≡ engine.old.shape }
{
    match edit {
        Edit::Put { at, line } => put_line(engine, board, suite, audit, *at, line),
        Edit::Copy { from, at } => match engine.read(board, suite, audit, *from) {
            Err(fault) => Err(fault),
            Ok(line) => put_line(engine, board, suite, audit, *at, &line),
        },
    }
}

// Writes a line.
fn put_line<B: Board, S: Suite, A: Audit>(
    engine: &mut Engine,
    board: &mut B,
    suite: &mut S,
    audit: &mut A,
    at: u32,
    line: &Line,
) -> Result<(), Fault>
    requires line { at < data_lines engine.old.shape }
    requires room { HasRoom (A.ledger audit.old) (A.capacity audit.old) 66 }
    requires usable { IsUsable engine.old.shape engine.old (B.device board.old) (A.ledger audit.old) }
    requires up { engine.old.down ≡ false }
    ensures put { PutsLine B.Board S.Suite A.Audit engine.old board.old suite.old audit.old
        engine.new board.new suite.new audit.new at line.now result }
    ensures plan { FollowsPut B.Board S.Suite A.Audit engine.old board.old suite.old audit.old
        engine.new board.new suite.new audit.new at line.now result }
    ensures down { engine.new.down ≡ not (is_going (outcome_of result)) }
    ensures few { IfOk result (λ done. length (A.ledger audit.new).marks ≤ length (A.ledger audit.old).marks + 66) }
    ensures capacity { A.capacity audit.new ≡ A.capacity audit.old }
    ensures keys { S.keys suite.new ≡ S.keys suite.old }
    ensures usable { IsUsable engine.old.shape engine.new (B.device board.new) (A.ledger audit.new) }
    ensures shape { engine.new.shape ≡ engine.old.shape }
{
    match engine.write(board, suite, audit, at, line) {
        Ok(_) => Ok(()),
        Err(fault) => Err(fault),
    }
}
