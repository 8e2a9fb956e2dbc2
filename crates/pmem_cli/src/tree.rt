//! A trace answered by a memory over a counter tree.
ghost use Rattle.std.specs.Prelude.{◌≡◌, Some};
ghost use Rattle.pmem_cli.specs.Printed.{Across, IfPulled};
ghost use Rattle.pmem_cli.specs.Pulling.{IsInTime};
ghost use Rattle.pmem_cli.specs.Sessions.{HasConversed, HasSaidFirst};
ghost use Rattle.pmem_cli.specs.Turns.{StopsByCause};
ghost use Rattle.pmem_cli.specs.Tree.{tree_made, tree_chosen};
ghost use Rattle.pmem_cli.specs.Words.{AreChosen};
ghost use Rattle.pmem_cli.specs.Wholes.{HasGiven};

use crate::options::{Choices, SuiteName};
use crate::printer::Printer;
use crate::sink::Sink;
use crate::source::Source;
use crate::telling::converse;
use plain_model::Stop;
use pmem_base::Geo;
use std::alloc::Global;
use suite::Counted;
use tree_session::TreeWorld;
use tree_session::laws::sessions_keep_lines;

/// Answers a trace by a new memory over a counter tree of this geometry and suite, and says why that stops. The watch
/// has its own suite, of equal keys.
fn tree_with<U: Counted + Drop, S: Source, K: Sink>(
    alloc: Global,
    geo: Geo,
    suite: U,
    watch_suite: U,
    logged: bool,
    trace: &mut S,
    printer: &mut Printer,
    out: &mut K,
) -> Stop
    requires keys { U.keys watch_suite ≡ U.keys suite }
    requires unused { (U.pads suite ≡ 0) × (U.tags suite ≡ 0) × (U.digests suite ≡ 0) }
    ensures talked { Across (HasConversed (tree_made geo U.formulas_of U.keys suite) logged result)
        S.known trace.old trace.new K.put out.old out.new printer.old printer.new }
    ensures cause { StopsByCause (Some result) (S.faults trace.old) (S.faults trace.new) (K.faults out.old) (K.faults out.new) }
    ensures gave { HasGiven (S.known trace.old) (S.known trace.new) }
    ensures in_time { IsInTime (S.pulls trace.old) (S.pulls trace.new) }
    ensures replies_first { IfPulled (HasSaidFirst (tree_made geo U.formulas_of U.keys suite) logged)
        S.known trace.old trace.new K.put out.old out.new printer.old }
{
    sessions_keep_lines(&geo, &suite);
    match TreeWorld::new(alloc, geo, suite, watch_suite) {
        Ok(session) => converse(alloc, session, logged, trace, printer, out),
        Err(_) => Stop::Memory,
    }
}

/// Answers a trace by a memory over a counter tree with what was chosen, and says why that stops.
pub(crate) fn tree_trace<S: Source, K: Sink>(
    alloc: Global,
    choices: &Choices,
    trace: &mut S,
    printer: &mut Printer,
    out: &mut K,
) -> Stop
    requires { AreChosen choices.now }
    ensures talked { Across (HasConversed (tree_chosen choices.now) choices.now.log result)
        S.known trace.old trace.new K.put out.old out.new printer.old printer.new }
    ensures cause { StopsByCause (Some result) (S.faults trace.old) (S.faults trace.new) (K.faults out.old) (K.faults out.new) }
    ensures gave { HasGiven (S.known trace.old) (S.known trace.new) }
    ensures in_time { IsInTime (S.pulls trace.old) (S.pulls trace.new) }
    ensures replies_first { IfPulled (HasSaidFirst (tree_chosen choices.now) choices.now.log)
        S.known trace.old trace.new K.put out.old out.new printer.old }
{
    let geo = choices.geometry();
    match choices.suite_name() {
        SuiteName::Aes => {
            let suite = choices.aes_suite();
            let watch_suite = choices.aes_suite();
            tree_with(
                alloc,
                geo,
                suite,
                watch_suite,
                choices.log,
                trace,
                printer,
                out,
            )
        }
        SuiteName::Weak => {
            let suite = choices.weak_suite(false);
            let watch_suite = choices.weak_suite(false);
            tree_with(
                alloc,
                geo,
                suite,
                watch_suite,
                choices.log,
                trace,
                printer,
                out,
            )
        }
        SuiteName::Blur => {
            let suite = choices.weak_suite(true);
            let watch_suite = choices.weak_suite(true);
            tree_with(
                alloc,
                geo,
                suite,
                watch_suite,
                choices.log,
                trace,
                printer,
                out,
            )
        }
    }
}
