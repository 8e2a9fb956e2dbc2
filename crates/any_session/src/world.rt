//! The world behind a run, which an exhibit ends.
ghost use Rattle.std.specs.Prelude.{◌≡◌, [], false};
ghost use Rattle.any_suite.specs.Kinds.{any_formulas};
ghost use Rattle.plain_model.specs.Answers.{is_shown};
ghost use Rattle.any_session.specs.Told.{HasTold};
ghost use Rattle.any_session.specs.Worlds.{world_lines};

use crate::Told;
use crate::replies::{begin_log, keep_reply};
use any_suite::AnySuite;
use pmem_base::Answer;
use pmem_replay::World;
use std::alloc::Global;
use trace_text::read_command;

/// Whether an answer is an exhibit.
fn is_shown(answer: &Answer) -> bool
    ensures { result ≡ is_shown answer.now }
{
    matches!(answer, Answer::Shown(_))
}

/// A world, whether it prints a log before each reply, and whether an exhibit ended it.
#[derive(Drop)]
pub struct WorldSession {
    world: World<AnySuite>,
    logged: bool,
    over: bool,
    ghost ends_with_its_world: { over ≡ world.shown },
}

impl WorldSession {
    /// The world goes on.
    pub(crate) fn new(world: World<AnySuite>, logged: bool) -> WorldSession
        requires goes_on { world.shown ≡ false }
        ensures world { result.world ≡ world }
        ensures log { result.logged ≡ logged }
    {
        WorldSession {
            world,
            logged,
            over: false,
        }
    }

    /// Tells the world a line, without its LF, and keeps the text of its reply, each line of it with its LF.
    pub(crate) fn tell(&mut self, alloc: Global, line: &[u8], reply: &mut Vec<u8>) -> Told
        requires empty { reply.old.items ≡ [] }
        ensures log { self.new.logged ≡ self.old.logged }
        ensures told { HasTold (world_lines any_formulas) self.old.logged result line.now reply.new.items
            self.old.world.shown self.old.world self.new.world.shown self.new.world }
    {
        if self.over {
            return Told::Over;
        }
        let command = match read_command(line) {
            Err(kind) => return Told::Faulty(kind),
            Ok(None) => return Told::Skipped,
            Ok(Some(command)) => command,
        };
        let before = self.world.work();
        let mut log = begin_log(alloc, self.logged);
        let Ok(answered) = self.world.step_logged(alloc, &command, &mut log) else {
            return Told::NoMemory;
        };
        self.over = is_shown(&answered.answer);
        let after = self.world.work();
        let marks = &self.world.marks()[answered.from..answered.to];
        Told::Replied {
            over: self.over,
            kept: keep_reply(
                reply,
                self.logged,
                &log,
                before,
                after,
                marks,
                &answered.answer,
            ),
        }
    }
}
