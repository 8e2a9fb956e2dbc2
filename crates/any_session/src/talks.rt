//! A session in its own language, which an exhibit ends.
ghost use Rattle.std.specs.Prelude.{◌≡◌, ◌-◌, [], false};
ghost use Rattle.plain_model.specs.Texts.{as_line};
ghost use Rattle.any_session.specs.Told.{HasTold, IsTextKept, lines_of};

use crate::Told;
use crate::replies::{begin_log, keep_line};
use access_log::AccessLog;
use collision_witness::shown_text;
use std::alloc::Global;
use trace_text::{Halt, Talk};

/// A session, whether it prints a log before each reply, and whether an exhibit ended it.
#[derive(Drop)]
pub struct TalkSession<T: Talk + Drop> {
    session: T,
    logged: bool,
    over: bool,
}

impl<T: Talk + Drop> TalkSession<T> {
    /// The session goes on.
    pub(crate) fn new(session: T, logged: bool) -> TalkSession<T>
        ensures session { result.session ≡ session }
        ensures log { result.logged ≡ logged }
        ensures goes_on { result.over ≡ false }
    {
        TalkSession {
            session,
            logged,
            over: false,
        }
    }

    /// Tells the session a line, without its LF, and keeps the text of its reply, each line of it with its LF.
    pub(crate) fn tell(&mut self, alloc: Global, line: &[u8], reply: &mut Vec<u8>) -> Told
        requires empty { reply.old.items ≡ [] }
        ensures log { self.new.logged ≡ self.old.logged }
        ensures told { HasTold (lines_of T.Talk) self.old.logged result line.now reply.new.items
            self.old.over self.old.session self.new.over self.new.session }
    {
        if self.over {
            return Told::Over;
        }
        let before = self.session.work();
        let mut log = begin_log(alloc, self.logged);
        match self.session.talk(alloc, line, &mut log) {
            Ok(None) => Told::Skipped,
            Ok(Some(text)) => Told::Replied {
                over: false,
                kept: self.keep(before, &log, text.as_slice(), reply),
            },
            Err(Halt::Memory) => Told::NoMemory,
            Err(Halt::Line(kind)) => Told::Faulty(kind),
            Err(Halt::Shown(exhibit)) => {
                self.over = true;
                let text = shown_text(&exhibit);
                Told::Replied {
                    over: true,
                    kept: self.keep(before, &log, text.as_slice(), reply),
                }
            }
        }
    }

    /// Keeps a text as the reply, with the log of its command before it if the session prints logs.
    fn keep(&self, before: (u64, u64), log: &AccessLog, text: &[u8], reply: &mut Vec<u8>) -> bool
        requires empty { reply.old.items ≡ [] }
        ensures { IsTextKept self.now.logged log.now ((T.work self.now.session).0 - before.0)
            ((T.work self.now.session).1 - before.1) (as_line text.now) result reply.new.items }
    {
        let after = self.session.work();
        keep_line(reply, self.logged, log, before, after, text)
    }
}
