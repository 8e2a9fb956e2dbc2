//! A session that prints its accesses of the board before each answer.
ghost use Rattle.std.specs.Prelude.{◌≤◌, ◌-◌, ◌++◌, ℕ, List, length, OnOk, OnErr, Some};
ghost use Rattle.plain_model.specs.Texts.{as_line};
ghost use Rattle.trace_text.specs.Conversations.{talk_protocol};
ghost use Rattle.pmem_cli.specs.Causes.{HasCause};
ghost use Rattle.pmem_cli.specs.Logged.{log_text};
ghost use Rattle.pmem_cli.specs.Printed.{with_waiting, HasPrinted, HasPrintedFront, Across, IfPulled};
ghost use Rattle.pmem_cli.specs.Pulling.{IsInTime};
ghost use Rattle.pmem_cli.specs.Talked.{HasToldFirst};
ghost use Rattle.pmem_cli.specs.Telling.{told_protocol, TellsWork, voice_of};
ghost use Rattle.pmem_cli.specs.Turns.{StopsByCause, HasAnswered};
ghost use Rattle.pmem_cli.specs.Wholes.{HasGiven};

use crate::logging::print_log;
use crate::printer::Printer;
use crate::serving::Serve;
use crate::session::serve_all;
use crate::sink::Sink;
use crate::source::{Failed, Source};
use crate::talking::talk_trace;
use access_log::AccessLog;
use board::Access;
use collision_witness::shown_text;
use plain_model::Stop;
use std::alloc::Global;
use std::marker::Model;
use trace_text::{Halt, Talk};

/// A session that answers a trace, and tells its accesses of the board with each answer. Contracts see the session.
#[derive(Drop)]
struct Teller<T: Talk> {
    session: T,
}

impl<T: Talk> Model for Teller<T> {
    ghost Value = { T };

    ghost view = { λ teller. teller.session };
}

/// Prints a log, and then a text as a line.
fn print_told<K: Sink>(
    accesses: &[Access],
    tags: u64,
    digests: u64,
    text: &[u8],
    printer: &mut Printer,
    out: &mut K,
) -> Result<(), Failed>
    requires short { length text.now ≤ 65536 }
    ensures ok { OnOk result (HasPrinted K.put out.old out.new printer.old printer.new
        (log_text accesses.now tags digests ++ as_line text.now)) }
    ensures err { OnErr result (HasPrintedFront K.put out.old out.new printer.old printer.new
        (log_text accesses.now tags digests ++ as_line text.now)) }
    ensures cause { HasCause (K.faults out.old) (K.faults out.new) result }
{
    print_log(accesses, tags, digests, printer, out)?;
    printer.print_line(out, text)
}

/// Prints what a command answered with its log before it, and says why the run stops, if it does. If memory for the log
/// ran out, the command isn't reported.
fn tell_line<K: Sink>(
    log: &AccessLog,
    before: (u64, u64),
    after: (u64, u64),
    text: &[u8],
    printer: &mut Printer,
    out: &mut K,
) -> Option<Stop>
    requires short { length text.now ≤ 65536 }
    ensures told { TellsWork result log.now before after text.now
        (with_waiting (K.put out.old) printer.old) (with_waiting (K.put out.new) printer.new) }
    ensures cause { StopsByCause result 0 0 (K.faults out.old) (K.faults out.new) }
{
    let Some(accesses) = log.accesses() else {
        return Some(Stop::Memory);
    };
    let tags = after.0.saturating_sub(before.0);
    let digests = after.1.saturating_sub(before.1);
    match print_told(accesses, tags, digests, text, printer, out) {
        Err(Failed) => Some(Stop::WriteFault),
        Ok(()) => None,
    }
}

/// A reply of a session is the text of an answer, which is printed as a line, with what its command took before it.
impl<T: Talk> Serve for Teller<T> {
    ghost use Rattle.pmem_cli.specs.Telling.{Told};

    ghost ReplyData = { Told (List ℕ) };

    ghost protocol = { told_protocol (talk_protocol T.sort_of T.answers T.shows T.wants_memory) T.logs T.work };

    fn serve_line<K: Sink>(
        &mut self,
        alloc: Global,
        number: u32,
        line: &[u8],
        printer: &mut Printer,
        out: &mut K,
    ) -> Option<Stop> {
        let before = self.session.work();
        let mut log = AccessLog::empty(alloc);
        match self.session.talk(alloc, line, &mut log) {
            Err(Halt::Memory) => Some(Stop::Memory),
            Err(Halt::Line(kind)) => Some(Stop::Refused { number, kind }),
            Err(Halt::Shown(exhibit)) => {
                let text = shown_text(&exhibit);
                let after = self.session.work();
                match tell_line(&log, before, after, text.as_slice(), printer, out) {
                    Some(stop) => Some(stop),
                    None => Some(Stop::Shown),
                }
            }
            Ok(None) => None,
            Ok(Some(text)) => {
                let after = self.session.work();
                tell_line(&log, before, after, text.as_slice(), printer, out)
            }
        }
    }
}

/// Answers a trace by a session, each answer with its log before it if `logged`, and says why that stops.
pub(crate) fn converse<T: Talk + Drop, S: Source, K: Sink>(
    alloc: Global,
    session: T,
    logged: bool,
    trace: &mut S,
    printer: &mut Printer,
    out: &mut K,
) -> Stop
    ensures stopped { Across (HasAnswered (voice_of T.Talk logged) result session)
        S.known trace.old trace.new K.put out.old out.new printer.old printer.new }
    ensures cause { StopsByCause (Some result) (S.faults trace.old) (S.faults trace.new) (K.faults out.old) (K.faults out.new) }
    ensures gave { HasGiven (S.known trace.old) (S.known trace.new) }
    ensures in_time { IsInTime (S.pulls trace.old) (S.pulls trace.new) }
    ensures replies_first { IfPulled (HasToldFirst (voice_of T.Talk logged) session)
        S.known trace.old trace.new K.put out.old out.new printer.old }
{
    if logged {
        serve_all(alloc, Teller { session }, trace, printer, out)
    } else {
        talk_trace(alloc, session, trace, printer, out)
    }
}
