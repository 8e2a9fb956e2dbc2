//! A session in its own language, over a whole trace.
ghost use Rattle.std.specs.Prelude.{◌≡◌, ◌≢◌, ◌≤◌, ◌+◌, ◌⊎◌, [], ℕ, List, Some};
ghost use Rattle.plain_model.specs.declared.Stop.TheVariants as Stop;
ghost use Rattle.trace_text.specs.Conversations.{talk_protocol};
ghost use Rattle.pmem_cli.specs.Causes.{Rose, AnyRose};
ghost use Rattle.pmem_cli.specs.Printed.{Across, IfPulled};
ghost use Rattle.pmem_cli.specs.Pulling.{IsInTime};
ghost use Rattle.pmem_cli.specs.Talked.{HasTalked, IsTalkComplete, HasToldFirst, talk_of};
ghost use Rattle.pmem_cli.specs.Turns.{StopsByCause, HasAnswered};
ghost use Rattle.pmem_cli.specs.Wholes.{ForEachWhole, HasGiven, left_in};

use crate::ending::{Ending, finish};
use crate::printer::Printer;
use crate::serving::Serve;
use crate::session::serve_all;
use crate::sink::Sink;
use crate::source::{Failed, Source};
use access_log::AccessLog;
use plain_model::Stop;
use pmem_base::Answer;
use std::alloc::Global;
use std::marker::Model;
use trace_text::{Halt, Talk};

/// A session that answers a trace. Contracts see the session.
#[derive(Drop)]
struct Talker<T: Talk> {
    session: T,
}

impl<T: Talk> Model for Talker<T> {
    ghost Value = { T };

    ghost view = { λ talker. talker.session };
}

/// A reply of a session is the text of an answer, which is printed as a line.
impl<T: Talk> Serve for Talker<T> {
    ghost ReplyData = { List ℕ };

    ghost protocol = { talk_protocol T.sort_of T.answers T.shows T.wants_memory };

    fn serve_line<K: Sink>(
        &mut self,
        alloc: Global,
        number: u32,
        line: &[u8],
        printer: &mut Printer,
        out: &mut K,
    ) -> Option<Stop> {
        match self.session.talk(alloc, line, &mut AccessLog::none()) {
            Err(Halt::Memory) => Some(Stop::Memory),
            Err(Halt::Line(kind)) => Some(Stop::Refused { number, kind }),
            Err(Halt::Shown(exhibit)) => {
                match printer.print_answer(out, &Answer::Shown(exhibit)) {
                    Err(Failed) => Some(Stop::WriteFault),
                    Ok(()) => Some(Stop::Shown),
                }
            }
            Ok(None) => None,
            Ok(Some(text)) => match printer.print_line(out, text.as_slice()) {
                Err(Failed) => Some(Stop::WriteFault),
                Ok(()) => None,
            },
        }
    }
}

/// Answers a trace by a session, and says why that stops.
pub(crate) fn talk_trace<T: Talk + Drop, S: Source, K: Sink>(
    alloc: Global,
    session: T,
    trace: &mut S,
    printer: &mut Printer,
    out: &mut K,
) -> Stop
    ensures stopped { Across (HasAnswered (talk_of T.Talk) result session)
        S.known trace.old trace.new K.put out.old out.new printer.old printer.new }
    ensures cause { StopsByCause (Some result) (S.faults trace.old) (S.faults trace.new) (K.faults out.old) (K.faults out.new) }
    ensures gave { HasGiven (S.known trace.old) (S.known trace.new) }
    ensures in_time { IsInTime (S.pulls trace.old) (S.pulls trace.new) }
    ensures replies_first { IfPulled (HasToldFirst (talk_of T.Talk) session)
        S.known trace.old trace.new K.put out.old out.new printer.old }
{
    serve_all(alloc, Talker { session }, trace, printer, out)
}

/// Answers a trace by a session, prints the last line, and gives the status: each as `run` does with a world.
pub fn talk_all<T: Talk + Drop, S: Source, K: Sink>(
    alloc: Global,
    session: T,
    trace: &mut S,
    out: &mut K,
) -> u8
    // What was put is the texts of the answers to the trace's lines, each in the state that those before it left,
    // and the last line, as the status says.
    ensures told { ForEachWhole (S.known trace.new) (λ whole.
        HasTalked (talk_of T.Talk) session result (Rose (S.faults trace.old) (S.faults trace.new))
        (left_in S.known whole trace.old) (left_in S.known whole trace.new) (K.put out.old) (K.put out.new)) }
    ensures words { result ≢ 2 }

    // A trace in the session's grammar and within the limits goes through, unless source or sink fails.
    ensures complete { ForEachWhole (S.known trace.new) (λ whole. IsTalkComplete (talk_of T.Talk) result (left_in S.known whole trace.old)
        (AnyRose S.faults trace.old trace.new K.faults out.old out.new)) }

    // The statuses for faults come only if source or sink failed. A push that fails gives 4, a pull
    // that fails gives 3 or 4, and neither is made again.
    ensures read { result ≡ 3 → Rose (S.faults trace.old) (S.faults trace.new) }
    ensures write { result ≡ 4 → Rose (K.faults out.old) (K.faults out.new) }
    ensures failed_pull { S.faults trace.new ≢ S.faults trace.old → (result ≡ 3) ⊎ (result ≡ 4) }
    ensures failed_push { K.faults out.new ≢ K.faults out.old → result ≡ 4 }
    ensures one_failed_pull { S.faults trace.new ≤ S.faults trace.old + 1 }
    ensures one_failed_push { K.faults out.new ≤ K.faults out.old + 1 }

    // No pull follows one that failed or gave the end.
    ensures gave { HasGiven (S.known trace.old) (S.known trace.new) }
    ensures in_time { IsInTime (S.pulls trace.old) (S.pulls trace.new) }

    // No answer waits while a pull is made: the answers to all whole lines that the source had
    // given before its last pull were put, also if a push failed since. A sink may fail at any
    // push.
    ensures replies_first { IfPulled (HasToldFirst (talk_of T.Talk) session)
        S.known trace.old trace.new K.put out.old out.new [] }
{
    let mut printer = Printer::new();
    let stop = talk_trace(alloc, session, trace, &mut printer, out);
    finish(Ending::Stopped(stop), &mut printer, out)
}
