//! The session, line by line.
ghost use Rattle.std.specs.Prelude.{◌≡◌, IfOk, IfErr};
ghost use Rattle.wear_session.specs.State.{wear_setup_in};
ghost use Rattle.wear_session.specs.Answered.{IsWearAnswered, IsWearHalt};
ghost use Rattle.wear_session.specs.Logged.{IsWearLogged};

use crate::answers::{WearAnswer, write_wear_answer};
use crate::commands::{WearCommand, read_wear_command};
use crate::world::WearWorld;
use access_log::AccessLog;
use arrayvec::ArrayVec;
use pmem_base::MemFault;
use std::alloc::Global;
use suite::{Counted, Suite};
use trace_text::{Halt, TEXT_BYTES, Talk};

impl<S: Suite + Drop> WearWorld<S> {
    /// What a command answers.
    fn answer(
        &mut self,
        alloc: Global,
        command: &WearCommand,
        log: &mut AccessLog,
    ) -> Result<WearAnswer, Halt>
        ensures answered { IfOk result (λ answer. IsWearAnswered (wear_setup_in S.formulas_of self.old) self.old command.now answer self.new) }
        ensures halted { IfErr result (λ halt. IsWearHalt (wear_setup_in S.formulas_of self.old) self.old command.now halt self.new) }
        ensures logged { IsWearLogged command.now log.old self.old log.new self.new }
    {
        match command {
            WearCommand::Write { at, line } => match self.write(*at, line, log) {
                Ok(answer) => Ok(answer),
                Err(MemFault) => Err(Halt::Memory),
            },
            WearCommand::Read { at } => Ok(self.read(*at, log)),
            WearCommand::Place { at } => Ok(self.place(*at)),
            WearCommand::Cut { n } => Ok(self.cut(*n)),
            WearCommand::Off => Ok(self.off()),
            WearCommand::On => self.on(alloc, log),
        }
    }
}

impl<S: Counted + Drop> Talk for WearWorld<S> {
    ghost use Rattle.wear_session.specs.Commands.{sort_of_wear, reading_of_wear};
    ghost use Rattle.wear_session.specs.State.{wear_setup_in};
    ghost use Rattle.wear_session.specs.Answered.{IsWearTalkedOf, IsWearShownOf, IsWearStarvedOf};
    ghost use Rattle.wear_session.specs.Logged.{IsWearLogOf};

    ghost sort_of = { sort_of_wear };

    ghost answers = { λ old line text new. IsWearTalkedOf (wear_setup_in S.formulas_of old) old line text new };

    ghost shows = { λ old line exhibit new. IsWearShownOf (wear_setup_in S.formulas_of old) old line exhibit new };

    ghost wants_memory = { λ old line. IsWearStarvedOf old line };

    ghost logs = { λ old line log_old log_new new. IsWearLogOf (reading_of_wear line) log_old old log_new new };

    ghost work = { λ state. (state.session.tags, state.session.digests) };

    fn talk(
        &mut self,
        alloc: Global,
        line: &[u8],
        log: &mut AccessLog,
    ) -> Result<Option<ArrayVec<u8, TEXT_BYTES>>, Halt> {
        match read_wear_command(line) {
            Err(kind) => Err(Halt::Line(kind)),
            Ok(None) => Ok(None),
            Ok(Some(command)) => {
                let answer = self.answer(alloc, &command, log)?;
                Ok(Some(write_wear_answer(&answer)))
            }
        }
    }

    fn work(&self) -> (u64, u64) {
        self.session.work()
    }
}
