//! The session that C asks for by words.
ghost use Rattle.std.specs.Prelude.{◌≡◌, [], IfErr, IfOk};
ghost use Rattle.pmem_c.specs.Opened.{IsOpenedBy, IsUnopened};

use crate::session::Session;
use crate::words::{Unread, read_words};
use any_session::{AnySession, Unopened};
use pmem_cli::read_task;
use std::alloc::Global;
use std::boxed::Box;

/// The session of these words on the heap, with no reply yet, or the status that says why there is none.
pub(crate) fn boxed_session(alloc: Global, words: &[u8]) -> Result<Box<Session, Global>, u8>
    ensures opened { IfOk result (λ kept. IsOpenedBy words.now kept.value.any) }
    ensures reply { IfOk result (λ kept. kept.value.reply.items ≡ []) }
    ensures none { IfErr result (IsUnopened words.now) }
{
    let words = match read_words(alloc, words) {
        Ok(words) => words,
        Err(Unread::NoText) => return Err(2),
        Err(Unread::NoMemory) => return Err(1),
    };
    let Some(task) = read_task(words.as_slice()) else {
        return Err(2);
    };
    let any = match AnySession::open(alloc, task) {
        Ok(any) => any,
        Err(Unopened::NoSession) => return Err(2),
        Err(Unopened::NoMemory) => return Err(1),
    };
    match Box::new(alloc, Session::new(alloc, any)) {
        Ok(kept) => Ok(kept),
        Err(_) => Err(1),
    }
}
