//! The run of a trace, whatever answers its lines.
ghost use Rattle.std.specs.Prelude.{◌≡◌, ◌<◌, ◌≤◌, ◌⊎◌, [], length, OnOk, OnErr, Option, Some, None, Contains};
ghost use Rattle.std.specs.Io.KnownBytes.{prepend_known};
ghost use Rattle.pmem_cli.specs.declared.lines.Found.TheVariants.{Line};
ghost use Rattle.pmem_cli.specs.Causes.{HasCause};
ghost use Rattle.pmem_cli.specs.Pulling.{IsInTime, PullsInTime, PullsUndecided};
ghost use Rattle.pmem_cli.specs.Printed.{with_waiting, HasPrinted, HasPrintedFront, Across, IfPulled};
ghost use Rattle.pmem_cli.specs.Talked.{HasToldFirst};
ghost use Rattle.pmem_cli.specs.Wholes.{ForEachWhole, HasGiven, left_in, left_before_in};
ghost use Rattle.pmem_cli.specs.Turns.{StopsByCause, TurnsFound, TurnsRead, PutsBeforePull, HasAnswered};

use crate::lines::{Found, LINE_BYTES, LineReader};
use crate::printer::Printer;
use crate::serving::Serve;
use crate::sink::Sink;
use crate::source::{Failed, Source};
use arrayvec::ArrayVec;
use plain_model::Stop;
use pmem_base::Kind;
use std::alloc::Global;

/// The lines that a trace may have.
pub(crate) const LINE_LIMIT: u32 = 1_000_000;

/// Answers what was found after `served` lines, and says why the run stops, if it does.
fn answer_found<W: Serve, K: Sink>(
    alloc: Global,
    found: Found,
    served: u32,
    line: &[u8],
    server: &mut W,
    printer: &mut Printer,
    out: &mut K,
) -> Option<Stop>
    requires within { served < 1000000 }
    requires short { length line.now ≤ 1024 }
    requires running { W.protocol.runs server.old }
    ensures turn { TurnsFound W.protocol result found line.now server.old server.new
        (with_waiting (K.put out.old) printer.old) (with_waiting (K.put out.new) printer.new) served }
    ensures cause { StopsByCause result 0 0 (K.faults out.old) (K.faults out.new) }
    ensures goes_on { result ≡ None → found ≡ Line }
{
    let number = served + 1;
    match found {
        Found::End => Some(Stop::Finished),
        Found::Long => Some(Stop::Refused {
            number,
            kind: Kind::Long,
        }),
        Found::Line => server.serve_line(alloc, number, line, printer, out),
        Found::Last => match server.serve_line(alloc, number, line, printer, out) {
            None => Some(Stop::Finished),
            Some(stop) => Some(stop),
        },
    }
}

/// Takes and answers the next line, and says why the run stops, if it does: at the limit of lines it looks for more. No
/// reply waits when this may pull.
fn answer_next<W: Serve, S: Source, K: Sink>(
    alloc: Global,
    served: u32,
    reader: &mut LineReader,
    line: &mut ArrayVec<u8, LINE_BYTES>,
    server: &mut W,
    trace: &mut S,
    printer: &mut Printer,
    out: &mut K,
) -> Option<Stop>
    requires pushed { Contains reader.old 10 ⊎ (printer.old ≡ []) }
    requires within { served ≤ 1000000 }
    requires running { W.protocol.runs server.old }
    ensures turn { Across (TurnsRead W.protocol result served server.old server.new reader.old reader.new)
        S.known trace.old trace.new K.put out.old out.new printer.old printer.new }
    ensures cause { StopsByCause result (S.faults trace.old) (S.faults trace.new) (K.faults out.old) (K.faults out.new) }
    ensures gave { HasGiven (S.known trace.old) (S.known trace.new) }
    ensures pulls { PullsInTime result (S.pulls trace.old) (S.pulls trace.new) }
    ensures last_pull { ForEachWhole (S.known trace.new) (λ whole. (trace.new ≡ trace.old) ⊎ ((printer.old ≡ [])
        × PullsUndecided served (prepend_known reader.old (left_in S.known whole trace.old)) (left_before_in S.known whole trace.new))) }
    ensures within_limit { result ≡ None → served < 1000000 }
{
    if served == LINE_LIMIT {
        return match reader.is_ended(trace) {
            Err(Failed) => Some(Stop::ReadFault),
            Ok(true) => Some(Stop::Finished),
            Ok(false) => Some(Stop::TooManyLines),
        };
    }
    match reader.next_line(trace, line) {
        Err(Failed) => Some(Stop::ReadFault),
        Ok(found) => answer_found(alloc, found, served, line.as_slice(), server, printer, out),
    }
}

/// Pushes all that waits, unless a whole line is at hand: a pull may block.
fn flush_before_pull<K: Sink>(
    reader: &LineReader,
    printer: &mut Printer,
    out: &mut K,
) -> Result<(), Failed>
    ensures pushed { Contains reader.now 10 ⊎ (printer.new ≡ []) }
    ensures ok { OnOk result (HasPrinted K.put out.old out.new printer.old printer.new []) }
    ensures err { OnErr result (HasPrintedFront K.put out.old out.new printer.old printer.new []) }
    ensures cause { HasCause (K.faults out.old) (K.faults out.new) result }
{
    if reader.has_line() {
        return Ok(());
    }
    printer.flush(out)
}

/// Serves the next line, and says why the run stops, if it does.
fn serve_next<W: Serve, S: Source, K: Sink>(
    alloc: Global,
    served: u32,
    reader: &mut LineReader,
    line: &mut ArrayVec<u8, LINE_BYTES>,
    server: &mut W,
    trace: &mut S,
    printer: &mut Printer,
    out: &mut K,
) -> Option<Stop>
    requires within { served ≤ 1000000 }
    requires running { W.protocol.runs server.old }
    ensures turn { Across (TurnsRead W.protocol result served server.old server.new reader.old reader.new)
        S.known trace.old trace.new K.put out.old out.new printer.old printer.new }
    ensures cause { StopsByCause result (S.faults trace.old) (S.faults trace.new) (K.faults out.old) (K.faults out.new) }
    ensures gave { HasGiven (S.known trace.old) (S.known trace.new) }
    ensures pulls { PullsInTime result (S.pulls trace.old) (S.pulls trace.new) }
    ensures last_pull { IfPulled (PutsBeforePull served reader.old)
        S.known trace.old trace.new K.put out.old out.new printer.old }
    ensures within_limit { result ≡ None → served < 1000000 }
{
    match flush_before_pull(reader, printer, out) {
        Err(Failed) => Some(Stop::WriteFault),
        Ok(()) => answer_next(alloc, served, reader, line, server, trace, printer, out),
    }
}

/// Answers a trace, and says why the run stops.
pub(crate) fn serve_all<W: Serve + Drop, S: Source, K: Sink>(
    alloc: Global,
    server: W,
    trace: &mut S,
    printer: &mut Printer,
    out: &mut K,
) -> Stop
    requires running { W.protocol.runs server }
    ensures stopped { Across (HasAnswered W.protocol result server)
        S.known trace.old trace.new K.put out.old out.new printer.old printer.new }
    ensures cause { StopsByCause (Some result) (S.faults trace.old) (S.faults trace.new) (K.faults out.old) (K.faults out.new) }
    ensures gave { HasGiven (S.known trace.old) (S.known trace.new) }
    ensures in_time { IsInTime (S.pulls trace.old) (S.pulls trace.new) }
    ensures replies_first { IfPulled (HasToldFirst W.protocol server)
        S.known trace.old trace.new K.put out.old out.new printer.old }
{
    let mut server = server;
    let mut reader = LineReader::new();
    let mut line = ArrayVec::new();
    let mut served = 0;
    'lines: loop {
        if let Some(stop) = serve_next(
            alloc,
            served,
            &mut reader,
            &mut line,
            &mut server,
            trace,
            printer,
            out,
        ) {
            return stop;
        }
        served += 1;
    }
}
