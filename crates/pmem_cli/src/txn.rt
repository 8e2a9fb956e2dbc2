//! A trace answered by a memory that is written by transactions.
ghost use Rattle.std.specs.Prelude.{◌≡◌, Some};
ghost use Rattle.pmem_cli.specs.Printed.{Across, IfPulled};
ghost use Rattle.pmem_cli.specs.Pulling.{IsInTime};
ghost use Rattle.pmem_cli.specs.Sessions.{HasConversed, HasSaidFirst};
ghost use Rattle.pmem_cli.specs.Turns.{StopsByCause};
ghost use Rattle.pmem_cli.specs.Txn.{txn_made, txn_chosen};
ghost use Rattle.pmem_cli.specs.Words.{AreChosen};
ghost use Rattle.pmem_cli.specs.Wholes.{HasGiven};

use crate::options::{Choices, SuiteName};
use crate::printer::Printer;
use crate::sink::Sink;
use crate::source::Source;
use crate::telling::converse;
use plain_model::Stop;
use pmem_base::Geo;
use std::alloc::Global;
use suite::Counted;
use txn_session::{TxnWorld, sessions_keep_transactions};

/// Answers a trace by a new memory of this geometry and suite that is written by transactions, and says why that
/// stops.
fn txn_with<U: Counted + Drop, S: Source, K: Sink>(
    alloc: Global,
    geo: Geo,
    suite: U,
    logged: bool,
    trace: &mut S,
    printer: &mut Printer,
    out: &mut K,
) -> Stop
    requires { (U.tags suite ≡ 0) × (U.digests suite ≡ 0) }
    ensures talked { Across (HasConversed (txn_made geo U.formulas_of U.keys suite) logged result)
        S.known trace.old trace.new K.put out.old out.new printer.old printer.new }
    ensures cause { StopsByCause (Some result) (S.faults trace.old) (S.faults trace.new) (K.faults out.old) (K.faults out.new) }
    ensures gave { HasGiven (S.known trace.old) (S.known trace.new) }
    ensures in_time { IsInTime (S.pulls trace.old) (S.pulls trace.new) }
    ensures replies_first { IfPulled (HasSaidFirst (txn_made geo U.formulas_of U.keys suite) logged)
        S.known trace.old trace.new K.put out.old out.new printer.old }
{
    sessions_keep_transactions(&geo, &suite);
    match TxnWorld::new(alloc, geo, suite) {
        Ok(session) => converse(alloc, session, logged, trace, printer, out),
        Err(_) => Stop::Memory,
    }
}

/// Answers a trace by a memory that is written by transactions, with what was chosen, and says why that stops.
pub(crate) fn txn_trace<S: Source, K: Sink>(
    alloc: Global,
    choices: &Choices,
    trace: &mut S,
    printer: &mut Printer,
    out: &mut K,
) -> Stop
    requires { AreChosen choices.now }
    ensures talked { Across (HasConversed (txn_chosen choices.now) choices.now.log result)
        S.known trace.old trace.new K.put out.old out.new printer.old printer.new }
    ensures cause { StopsByCause (Some result) (S.faults trace.old) (S.faults trace.new) (K.faults out.old) (K.faults out.new) }
    ensures gave { HasGiven (S.known trace.old) (S.known trace.new) }
    ensures in_time { IsInTime (S.pulls trace.old) (S.pulls trace.new) }
    ensures replies_first { IfPulled (HasSaidFirst (txn_chosen choices.now) choices.now.log)
        S.known trace.old trace.new K.put out.old out.new printer.old }
{
    let geo = choices.geometry();
    match choices.suite_name() {
        SuiteName::Aes => txn_with(
            alloc,
            geo,
            choices.aes_suite(),
            choices.log,
            trace,
            printer,
            out,
        ),
        SuiteName::Weak => {
            let suite = choices.weak_suite(false);
            txn_with(alloc, geo, suite, choices.log, trace, printer, out)
        }
        SuiteName::Blur => {
            let suite = choices.weak_suite(true);
            txn_with(alloc, geo, suite, choices.log, trace, printer, out)
        }
    }
}
