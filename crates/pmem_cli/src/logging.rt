//! A run that prints the accesses of the board before each reply.
ghost use Rattle.std.specs.Prelude.{◌≡◌, ◌≤◌, ◌++◌, [], length, OnOk, OnErr, Some, Ok, false};
ghost use Rattle.pmem_base.specs.Ranges.{IsCommand};
ghost use Rattle.plain_model.specs.Texts.{reply_text};
ghost use Rattle.pmem_replay.specs.Stepped.{reply_in};
ghost use Rattle.trace_text.specs.Answers.{HasSmallMinors};
ghost use Rattle.pmem_cli.specs.Causes.{HasCause};
ghost use Rattle.pmem_cli.specs.Keys.{setup_chosen, setup_made};
ghost use Rattle.pmem_cli.specs.Logged.{LoggedStep, log_text, logged_protocol, HasReplayedLogged, AnswersTold, HasRepliedLoggedFromStart};
ghost use Rattle.pmem_cli.specs.Printed.{with_waiting, HasPrinted, HasPrintedFront, Across, IfPulled};
ghost use Rattle.pmem_cli.specs.Pulling.{IsInTime};
ghost use Rattle.pmem_cli.specs.Turns.{StopsByCause};
ghost use Rattle.pmem_cli.specs.Words.{AreChosen};
ghost use Rattle.pmem_cli.specs.Wholes.{HasGiven};

use crate::options::{Choices, SuiteName};
use crate::printer::{Printer, print_accesses};
use crate::serving::{Serve, is_shown, print_reply};
use crate::session::serve_all;
use crate::sink::Sink;
use crate::source::{Failed, Source};
use access_log::AccessLog;
use board::Access;
use plain_model::Stop;
use pmem_base::{Command, Geo};
use pmem_replay::{Reply, World};
use std::alloc::Global;
use std::marker::Model;
use suite::Counted;
use trace_text::read_command;

/// A world that tells its accesses of the board with each reply. Contracts see the world.
#[derive(Drop)]
struct LoggedWorld<U: Counted + Drop> {
    world: World<U>,
}

impl<U: Counted + Drop> Model for LoggedWorld<U> {
    ghost use Rattle.pmem_replay.specs.World.{WorldState};

    ghost Value = { WorldState };

    ghost view = { λ logged. logged.world };
}

/// Prints the log of a command: its accesses in their order, and the tags and digests that were made.
pub(crate) fn print_log<K: Sink>(
    accesses: &[Access],
    tags: u64,
    digests: u64,
    printer: &mut Printer,
    out: &mut K,
) -> Result<(), Failed>
    ensures ok { OnOk result (HasPrinted K.put out.old out.new printer.old printer.new
        (log_text accesses.now tags digests)) }
    ensures err { OnErr result (HasPrintedFront K.put out.old out.new printer.old printer.new
        (log_text accesses.now tags digests)) }
    ensures cause { HasCause (K.faults out.old) (K.faults out.new) result }
{
    print_accesses(accesses, printer, out)?;
    printer.print_work(out, tags, digests)
}

/// Prints a reply with its log before it.
fn print_told<U: Counted + Drop, K: Sink>(
    world: &World<U>,
    accesses: &[Access],
    tags: u64,
    digests: u64,
    reply: &Reply,
    printer: &mut Printer,
    out: &mut K,
) -> Result<(), Failed>
    requires from { reply.now.from ≤ reply.now.to }
    requires to { reply.now.to ≤ length world.now.ledger.marks }
    requires minors { HasSmallMinors reply.now.answer }
    ensures ok { OnOk result (HasPrinted K.put out.old out.new printer.old printer.new
        (log_text accesses.now tags digests ++ reply_text (reply_in world.now reply.now))) }
    ensures err { OnErr result (HasPrintedFront K.put out.old out.new printer.old printer.new
        (log_text accesses.now tags digests ++ reply_text (reply_in world.now reply.now))) }
    ensures cause { HasCause (K.faults out.old) (K.faults out.new) result }
{
    print_log(accesses, tags, digests, printer, out)?;
    print_reply(world, reply, printer, out)
}

/// Answers a command, prints its log and the reply, and says why the run stops, if it does. If memory for the log runs
/// out, the command isn't reported.
fn answer_told<U: Counted + Drop, K: Sink>(
    alloc: Global,
    command: &Command,
    world: &mut World<U>,
    printer: &mut Printer,
    out: &mut K,
) -> Option<Stop>
    requires running { world.old.shown ≡ false }
    requires range { IsCommand command.now }
    ensures answered { AnswersTold U.formulas_of result command.now world.old world.new
        (with_waiting (K.put out.old) printer.old) (with_waiting (K.put out.new) printer.new) }
    ensures cause { StopsByCause result 0 0 (K.faults out.old) (K.faults out.new) }
{
    let (tags_before, digests_before) = world.work();
    let mut log = AccessLog::empty(alloc);
    let Ok(reply) = world.step_logged(alloc, command, &mut log) else {
        return Some(Stop::Memory);
    };
    let Some(accesses) = log.accesses() else {
        return Some(Stop::Memory);
    };
    let (tags_after, digests_after) = world.work();
    let tags = tags_after.saturating_sub(tags_before);
    let digests = digests_after.saturating_sub(digests_before);
    match print_told(world, accesses, tags, digests, &reply, printer, out) {
        Err(Failed) => Some(Stop::WriteFault),
        Ok(()) => {
            if is_shown(&reply.answer) {
                Some(Stop::Shown)
            } else {
                None
            }
        }
    }
}

/// A reply of the world is printed with the accesses and the work of its command.
impl<U: Counted + Drop> Serve for LoggedWorld<U> {
    ghost ReplyData = { LoggedStep };

    ghost protocol = { logged_protocol U.formulas_of };

    fn serve_line<K: Sink>(
        &mut self,
        alloc: Global,
        number: u32,
        line: &[u8],
        printer: &mut Printer,
        out: &mut K,
    ) -> Option<Stop> {
        match read_command(line) {
            Err(kind) => Some(Stop::Refused { number, kind }),
            Ok(None) => None,
            Ok(Some(command)) => answer_told(alloc, &command, &mut self.world, printer, out),
        }
    }
}

/// Runs a trace over a new world of this geometry and suite, with its log, and says why that stops.
fn log_with<U: Counted + Drop, S: Source, K: Sink>(
    alloc: Global,
    geo: Geo,
    suite: U,
    trace: &mut S,
    printer: &mut Printer,
    out: &mut K,
) -> Stop
    requires { (U.tags suite ≡ 0) × (U.digests suite ≡ 0) }
    ensures run { Across (HasReplayedLogged (setup_made geo U.formulas_of U.keys suite) result)
        S.known trace.old trace.new K.put out.old out.new printer.old printer.new }
    ensures cause { StopsByCause (Some result) (S.faults trace.old) (S.faults trace.new) (K.faults out.old) (K.faults out.new) }
    ensures gave { HasGiven (S.known trace.old) (S.known trace.new) }
    ensures in_time { IsInTime (S.pulls trace.old) (S.pulls trace.new) }
    ensures replies_first { IfPulled (HasRepliedLoggedFromStart (setup_made geo U.formulas_of U.keys suite))
        S.known trace.old trace.new K.put out.old out.new printer.old }
{
    match World::new(alloc, geo, suite) {
        Ok(world) => serve_all(alloc, LoggedWorld { world }, trace, printer, out),
        Err(_) => Stop::Memory,
    }
}

/// Runs a trace with what was chosen, with its log, and says why that stops.
pub(crate) fn log_trace<S: Source, K: Sink>(
    alloc: Global,
    choices: &Choices,
    trace: &mut S,
    printer: &mut Printer,
    out: &mut K,
) -> Stop
    requires { AreChosen choices.now }
    ensures run { Across (HasReplayedLogged (setup_chosen choices.now) result)
        S.known trace.old trace.new K.put out.old out.new printer.old printer.new }
    ensures cause { StopsByCause (Some result) (S.faults trace.old) (S.faults trace.new) (K.faults out.old) (K.faults out.new) }
    ensures gave { HasGiven (S.known trace.old) (S.known trace.new) }
    ensures in_time { IsInTime (S.pulls trace.old) (S.pulls trace.new) }
    ensures replies_first { IfPulled (HasRepliedLoggedFromStart (setup_chosen choices.now))
        S.known trace.old trace.new K.put out.old out.new printer.old }
{
    let geo = choices.geometry();
    match choices.suite_name() {
        SuiteName::Aes => log_with(alloc, geo, choices.aes_suite(), trace, printer, out),
        SuiteName::Weak => log_with(alloc, geo, choices.weak_suite(false), trace, printer, out),
        SuiteName::Blur => log_with(alloc, geo, choices.weak_suite(true), trace, printer, out),
    }
}
