//! The session, line by line.
ghost use Rattle.std.specs.Prelude.{◌≡◌, IfOk, IfErr};
ghost use Rattle.txn_session.specs.State.{txn_setup_in};
ghost use Rattle.txn_session.specs.Answered.{IsTxnAnswered, IsTxnHalt};
ghost use Rattle.txn_session.specs.Logged.{IsTxnLogged};

use crate::answers::{TxnAnswer, write_txn_answer};
use crate::commands::{TxnCommand, read_txn_command};
use crate::world::TxnWorld;
use access_log::AccessLog;
use arrayvec::ArrayVec;
use pmem_base::MemFault;
use std::alloc::Global;
use suite::{Counted, Suite};
use trace_text::{Halt, TEXT_BYTES, Talk};

impl<S: Suite + Drop> TxnWorld<S> {
    /// What a command answers.
    fn answer(
        &mut self,
        alloc: Global,
        command: &TxnCommand,
        log: &mut AccessLog,
    ) -> Result<TxnAnswer, Halt>
        ensures answered { IfOk result (λ answer. IsTxnAnswered (txn_setup_in S.formulas_of self.old) self.old command.now answer self.new) }
        ensures halted { IfErr result (λ halt. IsTxnHalt (txn_setup_in S.formulas_of self.old) self.old command.now halt self.new) }
        ensures logged { IsTxnLogged command.now log.old self.old log.new self.new }
    {
        match command {
            TxnCommand::Begin => Ok(self.begin()),
            TxnCommand::Put { at, line } => Ok(self.put(*at, line)),
            TxnCommand::Commit => match self.commit(log) {
                Ok(answer) => Ok(answer),
                Err(MemFault) => Err(Halt::Memory),
            },
            TxnCommand::Abort => Ok(self.abort()),
            TxnCommand::Read { at } => Ok(self.read(*at, log)),
            TxnCommand::Cut { n } => Ok(self.cut(*n)),
            TxnCommand::Off => Ok(self.off()),
            TxnCommand::On => self.on(alloc, log),
        }
    }
}

impl<S: Counted + Drop> Talk for TxnWorld<S> {
    ghost use Rattle.txn_session.specs.Commands.{sort_of_txn, reading_of_txn};
    ghost use Rattle.txn_session.specs.State.{txn_setup_in};
    ghost use Rattle.txn_session.specs.Answered.{IsTxnTalkedOf, IsTxnShownOf, IsTxnStarvedOf};
    ghost use Rattle.txn_session.specs.Logged.{IsTxnLogOf};

    ghost sort_of = { sort_of_txn };

    ghost answers = { λ old line text new. IsTxnTalkedOf (txn_setup_in S.formulas_of old) old line text new };

    ghost shows = { λ old line exhibit new. IsTxnShownOf (txn_setup_in S.formulas_of old) old line exhibit new };

    ghost wants_memory = { λ old line. IsTxnStarvedOf old line };

    ghost logs = { λ old line log_old log_new new. IsTxnLogOf (reading_of_txn line) log_old old log_new new };

    ghost work = { λ state. (state.session.tags, state.session.digests) };

    fn talk(
        &mut self,
        alloc: Global,
        line: &[u8],
        log: &mut AccessLog,
    ) -> Result<Option<ArrayVec<u8, TEXT_BYTES>>, Halt> {
        match read_txn_command(line) {
            Err(kind) => Err(Halt::Line(kind)),
            Ok(None) => Ok(None),
            Ok(Some(command)) => {
                let answer = self.answer(alloc, &command, log)?;
                Ok(Some(write_txn_answer(&answer)))
            }
        }
    }

    fn work(&self) -> (u64, u64) {
        self.session.work()
    }
}
