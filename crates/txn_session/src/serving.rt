//! Reads.
ghost use Rattle.std.specs.Prelude.{◌≡◌, [], None, option_map, unwrap_or, IfOk, IsOk, if◌then◌else◌};
ghost use Rattle.txn_session.specs.declared.commands.TxnCommand.TheVariants as Do;
ghost use Rattle.txn_session.specs.State.{txn_setup_in, entry_in};
ghost use Rattle.txn_session.specs.Answered.{IsTxnAnswered};
ghost use Rattle.txn_session.specs.Logged.{IsTxnLogged};
ghost use Rattle.txn_session.specs.Planned.{is_read_stopped, read_done_said};

use crate::answers::TxnAnswer;
use crate::calls::ReadLine;
use crate::world::TxnWorld;
use access_log::AccessLog;
use arrayvec::ArrayVec;
use line_session::Done;
use pmem_base::{Line, MemFault};
use pmem_engine::Fault;
use suite::Suite;

/// The line that a transaction holds for a data line.
fn line_put(txn: &[(u32, Line)], at: u64) -> Option<Line>
    ensures { result ≡ entry_in txn.now at }
{
    for (target, line) in txn {
        if u64::from(*target) == at {
            return Some(*line);
        }
    }
    None
}

/// The line that the open transaction holds for a data line.
fn line_held(txn: &Option<ArrayVec<(u32, Line), 15>>, at: u64) -> Option<Line>
    ensures { result ≡ entry_in (unwrap_or (option_map (λ entries. entries.items) txn.now) []) at }
{
    match txn {
        Some(entries) => line_put(entries, at),
        None => None,
    }
}

/// Whether power was cut in a read.
fn is_read_cut(done: &Result<Done<Line, Fault>, MemFault>) -> bool
    ensures { result ≡ is_read_stopped done.now }
{
    matches!(done, Ok(Done::Ended { answer: Err(_), .. }))
}

/// Drops the open transaction if power was cut.
fn close_if(txn: &mut Option<ArrayVec<(u32, Line), 15>>, cut: bool)
    ensures { option_map (λ entries. entries.items) txn.new ≡ (if cut then None else option_map (λ entries. entries.items) txn.old) }
{
    if cut {
        *txn = None;
    }
}

/// The answer of a read, by what its call comes to.
fn read_answer(done: Result<Done<Line, Fault>, MemFault>) -> TxnAnswer
    requires { IsOk done }
    ensures { IfOk done (λ done. result ≡ read_done_said done) }
{
    match done {
        // A read makes no mark.
        Err(MemFault) => unreachable!(),
        Ok(Done::Off) => TxnAnswer::Off,
        Ok(Done::Range) => TxnAnswer::Range,
        Ok(Done::Ended { steps, answer, .. }) => match answer {
            Ok(line) => TxnAnswer::Got { line, steps },
            // Over a sound device no other fault comes.
            Err(_fault) => TxnAnswer::Cut { steps },
        },
    }
}

impl<S: Suite + Drop> TxnWorld<S> {
    /// Reads a data line: as the open transaction has it, if that holds it.
    pub(crate) fn read(&mut self, at: u64, log: &mut AccessLog) -> TxnAnswer
        ensures answered { IsTxnAnswered (txn_setup_in S.formulas_of self.old) self.old (Do.Read at) result self.new }
        ensures logged { IsTxnLogged (Do.Read at) log.old self.old log.new self.new }
    {
        if self.session.store().is_none() {
            return TxnAnswer::Off;
        }
        if let Some(line) = line_held(&self.txn, at) {
            return TxnAnswer::Got { line, steps: 0 };
        }
        let done = self.session.make(&ReadLine { at }, log);
        close_if(&mut self.txn, is_read_cut(&done));
        read_answer(done)
    }
}
