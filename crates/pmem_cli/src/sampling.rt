//! Sample traces, run.
ghost use Rattle.std.specs.Prelude.{◌≡◌, IfOk, Some, false};
ghost use Rattle.pmem_base.specs.Ranges.{IsCommand};
ghost use Rattle.plain_model.specs.Defaults.{default_setup};
ghost use Rattle.trace_text.specs.Answers.{HasSmallMinors};
ghost use Rattle.trace_text.specs.Samples.{sample_trace};
ghost use Rattle.pmem_cli.specs.HasRun.{RunsSample};
ghost use Rattle.pmem_cli.specs.Printed.{with_waiting};
ghost use Rattle.pmem_cli.specs.Replies.{IsExecuted};
ghost use Rattle.pmem_cli.specs.Sampled.{HasReachedAnswer, HasToldSample};
ghost use Rattle.pmem_cli.specs.Turns.{StopsByCause};
ghost use Rattle.pmem_cli.specs.Standing.{Standing, standing_of};
ghost use Rattle.pmem_cli.specs.Keys.{setup_made};

use crate::options::Choices;
use crate::printer::Printer;
use crate::serving::is_shown;
use crate::sink::Sink;
use crate::source::Failed;
use plain_model::Stop;
use pmem_base::{Answer, Command, Geo, MemFault};
use pmem_replay::World;
use std::alloc::Global;
use suite::Counted;
use trace_text::Maker;

/// What executes commands, one after the other.
pub(crate) trait Execute {
    /// How far the run of the commands has come.
    ghost standing: { Self → Standing };

    /// Executes a command, and gives its answer. Errors: running out of memory.
    fn execute(&mut self, alloc: Global, command: &Command) -> Result<Answer, MemFault>
        requires running { (standing self.old).world.shown ≡ false }
        requires range { IsCommand command.now }
        ensures executed { IfOk result (IsExecuted (standing self.old) (standing self.new) command.now) }
        ensures minors { IfOk result HasSmallMinors };
}

impl<U: Counted + Drop> Execute for World<U> {
    ghost standing = { standing_of U.formulas_of };

    fn execute(&mut self, alloc: Global, command: &Command) -> Result<Answer, MemFault> {
        let reply = self.step(alloc, command)?;
        Ok(reply.answer)
    }
}

/// Runs the sample trace of a seed and a count, and gives the last answer: that of its `stat`, or an
/// exhibit, which ends the run.
#[tactic(auto, unfolding(trace_text::specs::Samples::sample_trace))]
fn replay_sample<W: Execute>(
    alloc: Global,
    seed: u64,
    count: u32,
    world: &mut W,
) -> Result<Answer, MemFault>
    requires running { (W.standing world.old).world.shown ≡ false }
    ensures reached { IfOk result (HasReachedAnswer (W.standing world.old) (sample_trace seed count)) }
    ensures minors { IfOk result HasSmallMinors }
{
    let mut maker = Maker::new(seed);
    'commands: for made in 0..count {
        let command = maker.next();
        let answer = world.execute(alloc, &command)?;
        if is_shown(&answer) {
            return Ok(answer);
        }
    }
    let answer = world.execute(alloc, &Command::Stat)?;
    Ok(answer)
}

/// Prints the last answer of a sample trace over a new world, and says why the run stops.
fn tell_sample<W: Execute + Drop, K: Sink>(
    alloc: Global,
    seed: u64,
    count: u32,
    world: W,
    printer: &mut Printer,
    out: &mut K,
) -> Stop
    requires running { (W.standing world).world.shown ≡ false }
    ensures told { HasToldSample result (W.standing world) (sample_trace seed count)
        (with_waiting (K.put out.old) printer.old) (with_waiting (K.put out.new) printer.new) }
    ensures cause { StopsByCause (Some result) 0 0 (K.faults out.old) (K.faults out.new) }
{
    let mut world = world;
    let Ok(answer) = replay_sample(alloc, seed, count, &mut world) else {
        return Stop::Memory;
    };
    match printer.print_answer(out, &answer) {
        Err(Failed) => Stop::WriteFault,
        Ok(()) => {
            if is_shown(&answer) {
                Stop::Shown
            } else {
                Stop::Finished
            }
        }
    }
}

/// Runs the sample trace of a seed and a count over a new world of this geometry and suite, prints the last
/// answer, and says why the run stops.
fn sample_with<U: Counted + Drop, K: Sink>(
    alloc: Global,
    seed: u64,
    count: u32,
    geo: Geo,
    suite: U,
    printer: &mut Printer,
    out: &mut K,
) -> Stop
    requires { (U.tags suite ≡ 0) × (U.digests suite ≡ 0) }
    ensures run { RunsSample (setup_made geo U.formulas_of U.keys suite) seed count result
        (with_waiting (K.put out.old) printer.old) (with_waiting (K.put out.new) printer.new) }
    ensures cause { StopsByCause (Some result) 0 0 (K.faults out.old) (K.faults out.new) }
{
    match World::new(alloc, geo, suite) {
        Ok(world) => tell_sample(alloc, seed, count, world, printer, out),
        Err(_) => Stop::Memory,
    }
}

/// Runs the sample trace of a seed and a count with the defaults, prints the last answer, and says why the
/// run stops.
pub(crate) fn sample<K: Sink>(
    alloc: Global,
    seed: u64,
    count: u32,
    printer: &mut Printer,
    out: &mut K,
) -> Stop
    ensures run { RunsSample default_setup seed count result
        (with_waiting (K.put out.old) printer.old) (with_waiting (K.put out.new) printer.new) }
    ensures cause { StopsByCause (Some result) 0 0 (K.faults out.old) (K.faults out.new) }
{
    let choices = Choices::none();
    let (geo, suite) = (choices.geometry(), choices.aes_suite());
    sample_with(alloc, seed, count, geo, suite, printer, out)
}
