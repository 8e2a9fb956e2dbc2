//! A session of any kind and suite, which answers lines one by one: the world behind a run, a levelled memory, a
//! memory that is written by transactions, and one over a counter tree. The program's own task says which, with its
//! options.
#![tactic(auto)]

mod kinds;
mod laws;
mod opening;
mod replies;
mod talks;
mod world;

pub use kinds::AnySession;
pub use laws::told_is_determined;
pub use opening::Unopened;
use pmem_base::Kind;
pub use talks::TalkSession;
pub use world::WorldSession;

/// What became of a line that a session was given.
#[derive(Clone, Copy, Debug, PartialEq, Eq)]
pub enum Told {
    /// It is blank or a comment, and nothing was done.
    Skipped,
    /// It was answered: by an exhibit, which ends the session, or not. The text of the reply is kept, with the log
    /// before it if the session tells its log, or there was no memory for them.
    Replied { over: bool, kept: bool },
    /// There was no memory for the answer, and nothing was done.
    NoMemory,
    /// It isn't in the grammar, and nothing was done.
    Faulty(Kind),
    /// An exhibit had ended the session, and nothing was done.
    Over,
}
