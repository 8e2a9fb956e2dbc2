//! The kinds of sessions.
ghost use Rattle.std.specs.Prelude.{◌≡◌, []};
ghost use Rattle.any_session.specs.Kinds.{IsTold};

use crate::Told;
use crate::talks::TalkSession;
use crate::world::WorldSession;
use any_suite::AnySuite;
use std::alloc::Global;
use tree_session::TreeWorld;
use txn_session::TxnWorld;
use wear_session::WearWorld;

/// A session of any kind.
#[derive(Drop)]
pub enum AnySession {
    Run(WorldSession),
    Wear(TalkSession<WearWorld<AnySuite>>),
    Txn(TalkSession<TxnWorld<AnySuite>>),
    Tree(TalkSession<TreeWorld<AnySuite>>),
}

impl AnySession {
    /// Tells the session a line, without its LF, and keeps the text of its reply, each line of it with its LF.
    pub fn tell(&mut self, alloc: Global, line: &[u8], reply: &mut Vec<u8>) -> Told
        requires empty { reply.old.items ≡ [] }
        ensures { IsTold self.old line.now result reply.new.items self.new }
    {
        match self {
            AnySession::Run(session) => session.tell(alloc, line, reply),
            AnySession::Wear(session) => session.tell(alloc, line, reply),
            AnySession::Txn(session) => session.tell(alloc, line, reply),
            AnySession::Tree(session) => session.tell(alloc, line, reply),
        }
    }
}
