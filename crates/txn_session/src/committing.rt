//! The open transaction, and its commit.
ghost use Rattle.std.specs.Prelude.{◌≡◌, ◌<◌, ◌==◌, not, length, IfSome, IfOk, OnErr, true, false};
ghost use Rattle.std.specs.List.{position_from};
ghost use Rattle.txn_session.specs.declared.commands.TxnCommand.TheVariants as Do;
ghost use Rattle.txn_session.specs.State.{txn_setup_in, with_put_line};
ghost use Rattle.txn_session.specs.Answered.{IsTxnAnswered, is_txn_full, IsTxnMemoryWanted};
ghost use Rattle.txn_session.specs.Logged.{IsTxnLogged};
ghost use Rattle.txn_session.specs.Planned.{commit_done_said};

use crate::answers::TxnAnswer;
use crate::calls::CommitTxn;
use crate::world::TxnWorld;
use access_log::AccessLog;
use arrayvec::ArrayVec;
use line_session::Done;
use line_txn::{CommitFault, Committed};
use pmem_base::{Line, MemFault};
use pmem_engine::Fault;
use suite::Suite;

/// The place that a data line has in a transaction.
fn place_in(txn: &[(u32, Line)], at: u32) -> Option<usize>
    ensures place { result ≡ position_from (λ entry. entry.0 == at) 0 txn.now }
    ensures inside { IfSome result (λ i. i < length txn.now) }
{
    'entries: for (i, (target, _line)) in txn.iter().enumerate() {
        if *target == at {
            return Some(i);
        }
    }
    None
}

/// Puts a line into a transaction, instead of an earlier one if that is there. Answers false if it is full.
fn put_line(txn: &mut ArrayVec<(u32, Line), 15>, at: u32, line: &Line) -> bool
    ensures put { result ≡ true → txn.new.items ≡ with_put_line txn.old.items at line.now }
    ensures full { result ≡ not (is_txn_full txn.old.items at) }
    ensures left { result ≡ false → txn.new.items ≡ txn.old.items }
{
    match place_in(txn, at) {
        Some(i) => {
            txn[i] = (at, *line);
            true
        }
        None => {
            let room = !txn.is_full();
            if room {
                txn.push((at, *line));
            }
            room
        }
    }
}

/// The answer of a commit, by what its call comes to: with power on, and no line asked for, it is made.
fn commit_answer(done: Done<Committed, CommitFault>) -> TxnAnswer
    ensures { result ≡ commit_done_said done }
{
    match done {
        Done::Off => TxnAnswer::Off,
        Done::Range => TxnAnswer::Range,
        Done::Ended {
            steps,
            sealed,
            answer,
        } => match answer {
            Ok(Committed::Applied) => TxnAnswer::Applied { steps },
            Ok(Committed::Stuck { page }) => TxnAnswer::Stuck { page, steps },
            Err(CommitFault { fault, committed }) => match fault {
                Fault::Spent { page } => TxnAnswer::Spent { page, steps },
                _ if committed || sealed => TxnAnswer::CutKept { steps },
                _ => TxnAnswer::CutLost { steps },
            },
        },
    }
}

impl<S: Suite + Drop> TxnWorld<S> {
    /// A transaction is opened.
    pub(crate) fn begin(&mut self) -> TxnAnswer
        ensures { IsTxnAnswered (txn_setup_in S.formulas_of self.old) self.old Do.Begin result self.new }
    {
        let Some(store) = self.session.store() else {
            return TxnAnswer::Off;
        };
        if let Some(page) = store.inner.stuck() {
            return TxnAnswer::Blocked { page };
        }
        if self.txn.is_some() {
            return TxnAnswer::Busy;
        }
        self.txn = Some(ArrayVec::new());
        TxnAnswer::Ok
    }

    /// A line is put into the open transaction.
    pub(crate) fn put(&mut self, at: u64, line: &Line) -> TxnAnswer
        ensures { IsTxnAnswered (txn_setup_in S.formulas_of self.old) self.old (Do.Put at line.now) result self.new }
    {
        let Some(store) = self.session.store() else {
            return TxnAnswer::Off;
        };
        let Some(txn) = &mut self.txn else {
            return TxnAnswer::Closed;
        };
        if at >= u64::from(store.inner.lines()) {
            return TxnAnswer::Range;
        }
        if put_line(txn, at as u32, line) {
            TxnAnswer::Ok
        } else {
            TxnAnswer::Full
        }
    }

    /// The open transaction is dropped.
    pub(crate) fn abort(&mut self) -> TxnAnswer
        ensures { IsTxnAnswered (txn_setup_in S.formulas_of self.old) self.old Do.Abort result self.new }
    {
        if self.session.store().is_none() {
            return TxnAnswer::Off;
        }
        if self.txn.is_none() {
            return TxnAnswer::Closed;
        }
        self.txn = None;
        TxnAnswer::Ok
    }

    /// Writes the open transaction. Errors: running out of memory.
    pub(crate) fn commit(&mut self, log: &mut AccessLog) -> Result<TxnAnswer, MemFault>
        ensures answered { IfOk result (λ answer. IsTxnAnswered (txn_setup_in S.formulas_of self.old) self.old Do.Commit answer self.new) }
        ensures err { OnErr result (self.new ≡ self.old) }
        ensures wanting { OnErr result (IsTxnMemoryWanted self.old Do.Commit) }
        ensures logged { IsTxnLogged Do.Commit log.old self.old log.new self.new }
    {
        if self.session.store().is_none() {
            return Ok(TxnAnswer::Off);
        }
        let Some(txn) = &self.txn else {
            return Ok(TxnAnswer::Closed);
        };
        if txn.is_empty() {
            self.txn = None;
            return Ok(TxnAnswer::Applied { steps: 0 });
        }
        let done = self.session.make(&CommitTxn { txn }, log)?;
        self.txn = None;
        Ok(commit_answer(done))
    }
}
