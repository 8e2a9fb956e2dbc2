//! The controller behind C: the whole program as one call, and sessions behind handles that answer lines one by one.
#![tactic(auto)]

mod answering;
mod ends;
mod handle;
mod laws;
mod opening;
mod session;
mod words;

ghost use Rattle.std.specs.Prelude.{◌≡◌, ℕ, List, None, Some, IsSome, drop, length};
ghost use Rattle.pmem_c.specs.Answered.{IsAnswer, IsCopied};
ghost use Rattle.pmem_c.specs.Sessions.{IsHandle, HasOpened, HasToldHeld, HasClosed, reply_held};

use crate::answering::{answer, copy_out};
use crate::ends::HeapSink;
use crate::handle::Handle;
use crate::opening::boxed_session;
use crate::session::Session;
pub use laws::answer_is_determined;
use loose::Loose;
use std::alloc::Global;
use std::boxed::Box;
use std::mem;

/// A handle as C has it: open exactly if it holds a session.
#[repr(C)]
pub struct Pmem {
    is_open: bool,
    handle: Handle,
}

/// Takes the session out of an open handle, which is closed then.
fn take_session(handle: &mut Handle, alloc: Global) -> Box<Session, Global>
    requires { IsSome handle.old.held }
    ensures session { Some result.value ≡ handle.old.held }
    ensures closed { handle.new.held ≡ None }
{
    mem::replace(handle, Handle::closed(alloc))
        .into_loose(alloc)
        .into_box()
}

/// Runs the whole program over the words and the trace. Puts as much of what it says as there is room for, and how
/// long all of it is, and gives the status.
#[unsafe(no_mangle)]
pub extern "C" fn pmem_answer(
    alloc: Global,
    words: &[u8],
    trace: &[u8],
    out: &mut [u8],
    whole: &mut usize,
) -> u8
    ensures { (put : List ℕ) × IsAnswer words.now trace.now result put × IsCopied put out.old out.new × (whole.new ≡ length put) }
{
    let mut sink = HeapSink::new(alloc);
    let status = answer(alloc, words, trace, &mut sink);
    copy_out(sink.bytes(), out);
    *whole = sink.bytes().len();
    status
}

/// Opens a closed handle on the session that the program begins with for these words: those of `run`, `wear`, `txn` or
/// `tree`, each ended by a byte 0 or by the end. Gives a status: 0 if it is open now, 1 if there was no memory, 2 if the
/// words are not those of a session, and 65 if it was open.
#[unsafe(no_mangle)]
pub extern "C" fn pmem_session_open(alloc: Global, pmem: &mut Pmem, words: &[u8]) -> u8
    requires handle { IsHandle pmem.old }
    ensures handle { IsHandle pmem.new }
    ensures opened { HasOpened pmem.old.handle.held words.now result pmem.new.handle.held }
{
    if pmem.is_open {
        return 65;
    }
    match boxed_session(alloc, words) {
        Ok(kept) => {
            pmem.handle = Handle::of(Loose::of(kept));
            pmem.is_open = true;
            0
        }
        Err(status) => status,
    }
}

/// Tells the session a line, and gives a status. Puts as much of the reply's text as there is room for, and how long
/// all of it is. A closed handle gives 64.
#[unsafe(no_mangle)]
pub extern "C" fn pmem_session_tell(
    alloc: Global,
    pmem: &mut Pmem,
    line: &[u8],
    out: &mut [u8],
    whole: &mut usize,
) -> u8
    requires handle { IsHandle pmem.old }
    ensures handle { IsHandle pmem.new }
    ensures told { HasToldHeld pmem.old.handle.held line.now result pmem.new.handle.held }
    ensures out { IsCopied (reply_held pmem.new.handle.held) out.old out.new }
    ensures whole { whole.new ≡ length (reply_held pmem.new.handle.held) }
{
    *whole = 0;
    if !pmem.is_open {
        return 64;
    }
    let mut kept = take_session(&mut pmem.handle, alloc);
    let status = kept.tell(alloc, line);
    copy_out(kept.reply(), out);
    *whole = kept.reply().len();
    pmem.handle = Handle::of(Loose::of(kept));
    status
}

/// Puts as much of the kept reply's text, from a byte on, as there is room for, and gives how long all of it is.
#[unsafe(no_mangle)]
pub extern "C" fn pmem_session_reply(
    alloc: Global,
    pmem: &mut Pmem,
    from: usize,
    out: &mut [u8],
) -> usize
    requires handle { IsHandle pmem.old }
    ensures handle { IsHandle pmem.new }
    ensures same { pmem.new.handle.held ≡ pmem.old.handle.held }
    ensures out { IsCopied (drop from (reply_held pmem.old.handle.held)) out.old out.new }
    ensures whole { result ≡ length (reply_held pmem.old.handle.held) }
{
    if !pmem.is_open {
        return 0;
    }
    let kept = take_session(&mut pmem.handle, alloc);
    let reply = kept.reply();
    let whole = reply.len();
    copy_out(reply.split_at(from.min(whole)).1, out);
    pmem.handle = Handle::of(Loose::of(kept));
    whole
}

/// Closes a handle, and gives a status: 0 if it was open, and 64 if it was closed. What the handle owned is given back:
/// a handle that holds a session can't be let go.
#[unsafe(no_mangle)]
pub extern "C" fn pmem_session_close(alloc: Global, pmem: &mut Pmem) -> u8
    requires handle { IsHandle pmem.old }
    ensures handle { IsHandle pmem.new }
    ensures closed { HasClosed pmem.old.handle.held result pmem.new.handle.held }
{
    if !pmem.is_open {
        return 64;
    }
    take_session(&mut pmem.handle, alloc);
    pmem.is_open = false;
    0
}
