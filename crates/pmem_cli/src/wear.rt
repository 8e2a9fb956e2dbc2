//! A trace answered by a levelled memory.
ghost use Rattle.std.specs.Prelude.{◌≡◌, ◌≤◌, Some};
ghost use Rattle.pmem_cli.specs.Printed.{Across, IfPulled};
ghost use Rattle.pmem_cli.specs.Pulling.{IsInTime};
ghost use Rattle.pmem_cli.specs.Sessions.{HasConversed, HasSaidFirst};
ghost use Rattle.pmem_cli.specs.Turns.{StopsByCause};
ghost use Rattle.pmem_cli.specs.Wear.{wear_made, wear_chosen};
ghost use Rattle.pmem_cli.specs.Words.{AreChosen};
ghost use Rattle.pmem_cli.specs.Wholes.{HasGiven};

use crate::options::{Choices, SuiteName};
use crate::printer::Printer;
use crate::sink::Sink;
use crate::source::Source;
use crate::telling::converse;
use plain_model::Stop;
use pmem_base::Geo;
use std::alloc::Global;
use suite::Counted;
use wear_session::{WearWorld, sessions_keep_lines};

/// Answers a trace by a new levelled memory of this geometry and suite, whose gap moves at each `every`th write,
/// and says why that stops.
fn wear_with<U: Counted + Drop, S: Source, K: Sink>(
    alloc: Global,
    geo: Geo,
    suite: U,
    every: u32,
    logged: bool,
    trace: &mut S,
    printer: &mut Printer,
    out: &mut K,
) -> Stop
    requires some { 1 ≤ every }
    requires unused { (U.tags suite ≡ 0) × (U.digests suite ≡ 0) }
    ensures talked { Across (HasConversed (wear_made geo U.formulas_of U.keys suite every) logged result)
        S.known trace.old trace.new K.put out.old out.new printer.old printer.new }
    ensures cause { StopsByCause (Some result) (S.faults trace.old) (S.faults trace.new) (K.faults out.old) (K.faults out.new) }
    ensures gave { HasGiven (S.known trace.old) (S.known trace.new) }
    ensures in_time { IsInTime (S.pulls trace.old) (S.pulls trace.new) }
    ensures replies_first { IfPulled (HasSaidFirst (wear_made geo U.formulas_of U.keys suite every) logged)
        S.known trace.old trace.new K.put out.old out.new printer.old }
{
    sessions_keep_lines(&geo, &suite);
    match WearWorld::new(alloc, geo, suite, every) {
        Ok(session) => converse(alloc, session, logged, trace, printer, out),
        Err(_) => Stop::Memory,
    }
}

/// Answers a trace by a levelled memory with what was chosen, and says why that stops.
pub(crate) fn wear_trace<S: Source, K: Sink>(
    alloc: Global,
    choices: &Choices,
    trace: &mut S,
    printer: &mut Printer,
    out: &mut K,
) -> Stop
    requires { AreChosen choices.now }
    ensures talked { Across (HasConversed (wear_chosen choices.now) choices.now.log result)
        S.known trace.old trace.new K.put out.old out.new printer.old printer.new }
    ensures cause { StopsByCause (Some result) (S.faults trace.old) (S.faults trace.new) (K.faults out.old) (K.faults out.new) }
    ensures gave { HasGiven (S.known trace.old) (S.known trace.new) }
    ensures in_time { IsInTime (S.pulls trace.old) (S.pulls trace.new) }
    ensures replies_first { IfPulled (HasSaidFirst (wear_chosen choices.now) choices.now.log)
        S.known trace.old trace.new K.put out.old out.new printer.old }
{
    let geo = choices.geometry();
    let every = choices.every();
    match choices.suite_name() {
        SuiteName::Aes => wear_with(
            alloc,
            geo,
            choices.aes_suite(),
            every,
            choices.log,
            trace,
            printer,
            out,
        ),
        SuiteName::Weak => {
            let suite = choices.weak_suite(false);
            wear_with(alloc, geo, suite, every, choices.log, trace, printer, out)
        }
        SuiteName::Blur => {
            let suite = choices.weak_suite(true);
            wear_with(alloc, geo, suite, every, choices.log, trace, printer, out)
        }
    }
}
