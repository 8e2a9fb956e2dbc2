//! Power, and recovery.
ghost use Rattle.std.specs.Prelude.{◌≡◌, IfOk, IfErr};
ghost use Rattle.txn_session.specs.declared.commands.TxnCommand.TheVariants as Do;
ghost use Rattle.txn_session.specs.State.{txn_setup_in};
ghost use Rattle.txn_session.specs.Answered.{IsTxnAnswered, IsTxnHalt};
ghost use Rattle.txn_session.specs.Logged.{IsTxnLogged};
ghost use Rattle.txn_session.specs.Planned.{turned_said};

use crate::answers::TxnAnswer;
use crate::calls::OpenStore;
use crate::world::TxnWorld;
use access_log::AccessLog;
use line_session::Turned;
use line_txn::Opened;
use std::alloc::Global;
use suite::Suite;
use trace_text::Halt;

/// The answer of power that comes on, by what that comes to.
fn opened_answer(turned: Result<Turned<Opened>, Halt>) -> Result<TxnAnswer, Halt>
    ensures { result ≡ turned_said turned }
{
    match turned? {
        Turned::Already => Ok(TxnAnswer::Already),
        Turned::On { steps, told } => match told.stuck {
            Some(page) => Ok(TxnAnswer::Stuck { page, steps }),
            None => Ok(TxnAnswer::Opened {
                redone: told.redone,
                steps,
            }),
        },
        Turned::Cut { steps } => Ok(TxnAnswer::Cut { steps }),
    }
}

impl<S: Suite + Drop> TxnWorld<S> {
    /// Power is to be cut after `n` more persist steps.
    pub(crate) fn cut(&mut self, n: u64) -> TxnAnswer
        ensures { IsTxnAnswered (txn_setup_in S.formulas_of self.old) self.old (Do.Cut n) result self.new }
    {
        self.session.cut(n);
        TxnAnswer::Ok
    }

    /// Power goes off, and the open transaction is dropped.
    pub(crate) fn off(&mut self) -> TxnAnswer
        ensures { IsTxnAnswered (txn_setup_in S.formulas_of self.old) self.old Do.Off result self.new }
    {
        if self.session.store().is_none() {
            return TxnAnswer::Off;
        }
        self.session.off();
        self.txn = None;
        TxnAnswer::Ok
    }

    /// Switches power on, with recovery, and redoes the transaction in force. Errors: running out of memory, or a twin.
    pub(crate) fn on(&mut self, alloc: Global, log: &mut AccessLog) -> Result<TxnAnswer, Halt>
        ensures answered { IfOk result (λ answer. IsTxnAnswered (txn_setup_in S.formulas_of self.old) self.old Do.On answer self.new) }
        ensures halted { IfErr result (λ halt. IsTxnHalt (txn_setup_in S.formulas_of self.old) self.old Do.On halt self.new) }
        ensures logged { IsTxnLogged Do.On log.old self.old log.new self.new }
    {
        let turned = self.session.on(alloc, &OpenStore, log);
        opened_answer(turned)
    }
}
