//! What a handle holds.
ghost use Rattle.std.specs.Prelude.{◌≡◌, []};
ghost use Rattle.pmem_c.specs.Sessions.{HasToldLine, status_of_told};
ghost use Rattle.any_session.specs.declared.Told.TheVariants.{Faulty};

use any_session::{AnySession, Told};
use pmem_base::Kind;
use std::alloc::Global;

/// A session, and the text of its last reply.
#[derive(Drop)]
pub struct Session {
    any: AnySession,
    reply: Vec<u8>,
}

/// The number of a kind, as the program's last line tells it, after 50.
fn faulty_status(kind: Kind) -> u8
    ensures { result ≡ status_of_told (Faulty kind) }
{
    match kind {
        Kind::Word => 51,
        Kind::Count => 52,
        Kind::Number => 53,
        Kind::Port => 54,
        Kind::Hex => 55,
        Kind::Long => 56,
    }
}

/// The status of what came of a line.
fn told_status(told: Told) -> u8
    ensures { result ≡ status_of_told told }
{
    match told {
        Told::Skipped => 0,
        Told::Replied { kept: false, .. } => 4,
        Told::Replied { over: true, .. } => 6,
        Told::Replied { .. } => 0,
        Told::NoMemory => 1,
        Told::Faulty(kind) => faulty_status(kind),
        Told::Over => 66,
    }
}

impl Session {
    /// A session that has no reply yet.
    pub(crate) fn new(alloc: Global, any: AnySession) -> Session
        ensures any { result.any ≡ any }
        ensures reply { result.reply.items ≡ [] }
    {
        Session {
            any,
            reply: Vec::new(alloc),
        }
    }

    /// The text of the last reply.
    pub(crate) fn reply(&self) -> &[u8]
        ensures { result.now ≡ self.now.reply.items }
    {
        self.reply.as_slice()
    }

    /// Tells it a line, and gives the status.
    pub(crate) fn tell(&mut self, alloc: Global, line: &[u8]) -> u8
        ensures { HasToldLine self.old line.now result self.new }
    {
        self.reply.clear();
        told_status(self.any.tell(alloc, line, &mut self.reply))
    }
}
