//! The session, line by line.
ghost use Rattle.std.specs.Prelude.{◌≡◌, IfOk, IfErr};
ghost use Rattle.tree_session.specs.State.{tree_setup_in};
ghost use Rattle.tree_session.specs.Answered.{IsTreeAnswered, IsTreeHalt};
ghost use Rattle.tree_session.specs.Logged.{IsTreeLogged};

use crate::answers::{TreeAnswer, write_tree_answer};
use crate::commands::{TreeCommand, read_tree_command};
use crate::world::TreeWorld;
use access_log::AccessLog;
use arrayvec::ArrayVec;
use std::alloc::Global;
use suite::{Counted, Suite};
use trace_text::{Halt, TEXT_BYTES, Talk};

impl<S: Suite + Drop> TreeWorld<S> {
    /// What a command answers. After an exhibit it is that exhibit.
    fn answer(
        &mut self,
        alloc: Global,
        command: &TreeCommand,
        log: &mut AccessLog,
    ) -> Result<TreeAnswer, Halt>
        ensures answered { IfOk result (λ answer. IsTreeAnswered (tree_setup_in S.formulas_of self.old) self.old command.now answer self.new) }
        ensures halted { IfErr result (λ halt. IsTreeHalt (tree_setup_in S.formulas_of self.old) self.old command.now halt self.new) }
        ensures logged { IsTreeLogged command.now log.old self.old log.new self.new }
    {
        if let Some(exhibit) = self.watch.exhibit() {
            return Err(Halt::Shown(*exhibit));
        }
        match command {
            TreeCommand::Write { at, line } => self.write(*at, line, log),
            TreeCommand::Read { at } => self.read(*at, log),
            TreeCommand::On => self.on(alloc, log),
            TreeCommand::Off => Ok(self.off()),
            TreeCommand::Cut { n } => Ok(self.cut(*n)),
            TreeCommand::Poke { at, line } => Ok(self.poke(*at, line)),
            TreeCommand::Snap => self.snap(),
            TreeCommand::Back { at } => Ok(self.back(*at)),
        }
    }
}

impl<S: Counted + Drop> Talk for TreeWorld<S> {
    ghost use Rattle.tree_session.specs.Commands.{sort_of_tree, reading_of_tree};
    ghost use Rattle.tree_session.specs.State.{tree_setup_in};
    ghost use Rattle.tree_session.specs.Answered.{IsTreeTalkedOf, IsTreeShownOf, IsTreeStarvedOf};
    ghost use Rattle.tree_session.specs.Logged.{IsTreeLogOf};

    ghost sort_of = { sort_of_tree };

    ghost answers = { λ old line text new. IsTreeTalkedOf (tree_setup_in S.formulas_of old) old line text new };

    ghost shows = { λ old line exhibit new. IsTreeShownOf (tree_setup_in S.formulas_of old) old line exhibit new };

    ghost wants_memory = { λ old line. IsTreeStarvedOf old line };

    ghost logs = { λ old line log_old log_new new. IsTreeLogOf (reading_of_tree line) log_old old log_new new };

    ghost work = { λ state. (state.tags, state.digests) };

    fn talk(
        &mut self,
        alloc: Global,
        line: &[u8],
        log: &mut AccessLog,
    ) -> Result<Option<ArrayVec<u8, TEXT_BYTES>>, Halt> {
        match read_tree_command(line) {
            Err(kind) => Err(Halt::Line(kind)),
            Ok(None) => Ok(None),
            Ok(Some(command)) => match self.answer(alloc, &command, log) {
                Ok(answer) => Ok(Some(write_tree_answer(&answer))),
                Err(halt) => Err(halt),
            },
        }
    }

    fn work(&self) -> (u64, u64) {
        let (_, tags, digests) = self.suite.counts();
        (tags, digests)
    }
}
