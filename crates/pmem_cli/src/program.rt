//! The whole program: words and bytes in, bytes and a status out.
ghost use Rattle.std.specs.Prelude.{◌≡◌, ◌≢◌, ◌≤◌, ◌+◌, ◌⊎◌, ◌↔◌, [], IfSome, IsNone, Some, map, string_bytes};
ghost use Rattle.plain_model.specs.declared.Stop.TheVariants as Stop;
ghost use Rattle.pmem_cli.specs.Causes.{CountsFault};
ghost use Rattle.pmem_cli.specs.Determined.{call_over, IsCallWith, IsByMachine};
ghost use Rattle.pmem_cli.specs.Pulling.{IsInTime};
ghost use Rattle.pmem_cli.specs.declared.ending.Ending.TheVariants.{Stopped};
ghost use Rattle.pmem_cli.specs.Keys.{setup_chosen, setup_made};
ghost use Rattle.pmem_cli.specs.Words.{task_of, AreChosen, HasChosen, PullsNothing};
ghost use Rattle.pmem_cli.specs.Printed.{Across, IfPulled};
ghost use Rattle.pmem_cli.specs.RepliesFirst.{HasRepliedFromStart, MachineRepliesBeforePull, RepliesBeforePull};
ghost use Rattle.pmem_cli.specs.Turns.{StopsByCause};
ghost use Rattle.pmem_cli.specs.HasRun.{HasEnded, HasReplayed, GoesThrough};
ghost use Rattle.pmem_cli.specs.Wholes.{ForEachWhole, HasGiven, left_in};

use crate::checking::check;
use crate::ending::{Ending, finish};
use crate::logging::log_trace;
use crate::making::make;
use crate::options::{Choices, SuiteName, Task, read_task};
use crate::printer::Printer;
use crate::sampling::sample;
use crate::session::serve_all;
use crate::sink::Sink;
use crate::source::Source;
use crate::tree::tree_trace;
use crate::txn::txn_trace;
use crate::wear::wear_trace;
use plain_model::Stop;
use pmem_base::Geo;
use pmem_replay::World;
use std::alloc::Global;
use suite::Counted;

/// Runs a trace over a new world of this geometry and suite, and says why that stops.
fn run_with<U: Counted + Drop, S: Source, K: Sink>(
    alloc: Global,
    geo: Geo,
    suite: U,
    trace: &mut S,
    printer: &mut Printer,
    out: &mut K,
) -> Stop
    requires { (U.tags suite ≡ 0) × (U.digests suite ≡ 0) }
    ensures run { Across (HasReplayed (setup_made geo U.formulas_of U.keys suite) result)
        S.known trace.old trace.new K.put out.old out.new printer.old printer.new }
    ensures cause { StopsByCause (Some result) (S.faults trace.old) (S.faults trace.new) (K.faults out.old) (K.faults out.new) }
    ensures gave { HasGiven (S.known trace.old) (S.known trace.new) }
    ensures in_time { IsInTime (S.pulls trace.old) (S.pulls trace.new) }
    ensures replies_first { IfPulled (HasRepliedFromStart (setup_made geo U.formulas_of U.keys suite))
        S.known trace.old trace.new K.put out.old out.new printer.old }
{
    match World::new(alloc, geo, suite) {
        Ok(world) => serve_all(alloc, world, trace, printer, out),
        Err(_) => Stop::Memory,
    }
}

/// Runs a trace with what was chosen, and says why that stops.
fn run_trace<S: Source, K: Sink>(
    alloc: Global,
    choices: &Choices,
    trace: &mut S,
    printer: &mut Printer,
    out: &mut K,
) -> Stop
    requires { AreChosen choices.now }
    ensures run { Across (HasReplayed (setup_chosen choices.now) result)
        S.known trace.old trace.new K.put out.old out.new printer.old printer.new }
    ensures cause { StopsByCause (Some result) (S.faults trace.old) (S.faults trace.new) (K.faults out.old) (K.faults out.new) }
    ensures gave { HasGiven (S.known trace.old) (S.known trace.new) }
    ensures in_time { IsInTime (S.pulls trace.old) (S.pulls trace.new) }
    ensures replies_first { IfPulled (HasRepliedFromStart (setup_chosen choices.now))
        S.known trace.old trace.new K.put out.old out.new printer.old }
{
    let geo = choices.geometry();
    match choices.suite_name() {
        SuiteName::Aes => run_with(alloc, geo, choices.aes_suite(), trace, printer, out),
        SuiteName::Weak => run_with(alloc, geo, choices.weak_suite(false), trace, printer, out),
        SuiteName::Blur => run_with(alloc, geo, choices.weak_suite(true), trace, printer, out),
    }
}

/// Does what was asked for, except for the last line.
fn do_task<S: Source, K: Sink>(
    alloc: Global,
    task: Task,
    trace: &mut S,
    printer: &mut Printer,
    out: &mut K,
) -> Ending
    requires { HasChosen task }
    ensures ended { Across (HasEnded task result) S.known trace.old trace.new K.put out.old out.new printer.old printer.new }
    ensures words { result ≢ Stopped Stop.Words }
    ensures reads { CountsFault (result ≡ Stopped Stop.ReadFault) (S.faults trace.old) (S.faults trace.new) }
    ensures writes { CountsFault (result ≡ Stopped Stop.WriteFault) (K.faults out.old) (K.faults out.new) }
    ensures gave { HasGiven (S.known trace.old) (S.known trace.new) }
    ensures in_time { IsInTime (S.pulls trace.old) (S.pulls trace.new) }
    ensures replies_first { MachineRepliesBeforePull task S.known trace.old trace.new K.put out.old out.new printer.old }
    ensures unread { PullsNothing task → trace.new ≡ trace.old }
{
    match task {
        Task::Run(choices) => Ending::Stopped(run_trace(alloc, &choices, trace, printer, out)),
        Task::Log(choices) => Ending::Stopped(log_trace(alloc, &choices, trace, printer, out)),
        Task::Make { seed, count } => Ending::Stopped(make(seed, count, printer, out)),
        Task::Sample { seed, count } => {
            Ending::Stopped(sample(alloc, seed, count, printer, out))
        }
        Task::Check(choices) => check(&choices, trace),
        Task::Wear(choices) => Ending::Stopped(wear_trace(alloc, &choices, trace, printer, out)),
        Task::Tree(choices) => Ending::Stopped(tree_trace(alloc, &choices, trace, printer, out)),
        Task::Txn(choices) => Ending::Stopped(txn_trace(alloc, &choices, trace, printer, out)),
    }
}

/// Does what the arguments ask for, except for the last line.
fn do_words<S: Source, K: Sink>(
    alloc: Global,
    words: &[String],
    trace: &mut S,
    printer: &mut Printer,
    out: &mut K,
) -> Ending
    ensures words { (result ≡ Stopped Stop.Words) ↔ IsNone (task_of (map string_bytes words.now)) }
    ensures ended { IfSome (task_of (map string_bytes words.now)) (λ task.
        Across (HasEnded task result) S.known trace.old trace.new K.put out.old out.new printer.old printer.new) }
    ensures untouched { result ≡ Stopped Stop.Words → trace.new ≡ trace.old }
    ensures kept { result ≡ Stopped Stop.Words → out.new ≡ out.old }
    ensures empty { result ≡ Stopped Stop.Words → printer.new ≡ printer.old }
    ensures reads { CountsFault (result ≡ Stopped Stop.ReadFault) (S.faults trace.old) (S.faults trace.new) }
    ensures writes { CountsFault (result ≡ Stopped Stop.WriteFault) (K.faults out.old) (K.faults out.new) }
    ensures gave { HasGiven (S.known trace.old) (S.known trace.new) }
    ensures in_time { IsInTime (S.pulls trace.old) (S.pulls trace.new) }
    ensures replies_first { IfSome (task_of (map string_bytes words.now)) (λ task.
        MachineRepliesBeforePull task S.known trace.old trace.new K.put out.old out.new printer.old) }
    ensures unread { IfSome (task_of (map string_bytes words.now)) (λ task. PullsNothing task → trace.new ≡ trace.old) }
{
    match read_task(words) {
        None => Ending::Stopped(Stop::Words),
        Some(task) => do_task(alloc, task, trace, printer, out),
    }
}

/// The whole program: does what the words ask for, and gives the status. The words are those of the
/// command line without the program's own name.
pub fn run<S: Source, K: Sink>(alloc: Global, words: &[String], trace: &mut S, out: &mut K) -> u8
    // Faulty words decide before all else. What was put is what the task asks for, as the status says: the replies to
    // the trace's commands and the last line, a sample trace, or whether the exhibit holds. The statuses for faults come
    // only if source or sink failed.
    ensures call { ForEachWhole (S.known trace.new) (λ whole. IsCallWith (map string_bytes words.now)
        (call_over result (left_in S.known whole) S.faults trace.old trace.new K.put K.faults out.old out.new)) }

    // Which machine the replies are from: a world, or a session, that formatting made.
    ensures machine { ForEachWhole (S.known trace.new) (λ whole. IsByMachine (map string_bytes words.now)
        (call_over result (left_in S.known whole) S.faults trace.old trace.new K.put K.faults out.old out.new)) }

    // At faulty words the trace isn't read.
    ensures untouched { result ≡ 2 → trace.new ≡ trace.old }

    // A run of a trace in the grammar and within the limits goes through, unless source or sink fails.
    ensures complete { ForEachWhole (S.known trace.new) (λ whole. IfSome (task_of (map string_bytes words.now)) (λ task.
        GoesThrough task result (left_in S.known whole) S.faults trace.old trace.new K.faults out.old out.new)) }

    // A push that fails gives 4 instead of every status but 2, a pull that fails gives 3 or 4, and
    // neither is made again.
    ensures failed_pull { S.faults trace.new ≢ S.faults trace.old → (result ≡ 3) ⊎ (result ≡ 4) }
    ensures failed_push { K.faults out.new ≢ K.faults out.old → (result ≡ 4) ⊎ (result ≡ 2) }
    ensures one_failed_pull { S.faults trace.new ≤ S.faults trace.old + 1 }
    ensures one_failed_push { K.faults out.new ≤ K.faults out.old + 1 }

    // No pull follows one that failed or gave the end, and if no trace is asked for, nothing is
    // pulled.
    ensures gave { HasGiven (S.known trace.old) (S.known trace.new) }
    ensures in_time { IsInTime (S.pulls trace.old) (S.pulls trace.new) }
    ensures unread { IfSome (task_of (map string_bytes words.now)) (λ task. PullsNothing task → trace.new ≡ trace.old) }

    // No reply waits while a pull is made: the replies to all whole lines that the source had given
    // before its last pull were put, also if a push failed since. A sink may fail at any push.
    ensures replies_first { IfSome (task_of (map string_bytes words.now)) (λ task.
        RepliesBeforePull task S.known trace.old trace.new K.put out.old out.new []) }
    ensures machine_first { IfSome (task_of (map string_bytes words.now)) (λ task.
        MachineRepliesBeforePull task S.known trace.old trace.new K.put out.old out.new []) }
{
    let mut printer = Printer::new();
    let ending = do_words(alloc, words, trace, &mut printer, out);
    finish(ending, &mut printer, out)
}
