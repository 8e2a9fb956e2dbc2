//! Sample traces, printed.
ghost use Rattle.std.specs.Prelude.{◌≡◌, ◌≢◌, ◌≤◌, OnOk, OnErr};
ghost use Rattle.plain_model.specs.declared.Stop.TheVariants as Stop;
ghost use Rattle.trace_text.specs.Samples.{sample_trace, commands_text};
ghost use Rattle.pmem_cli.specs.Causes.{CountsFault, HasCause};
ghost use Rattle.pmem_cli.specs.HasRun.{TextOutcome};
ghost use Rattle.pmem_cli.specs.Printed.{with_waiting, HasPrinted, HasPrintedFront};

use crate::printer::Printer;
use crate::sink::Sink;
use crate::source::Failed;
use plain_model::Stop;
use pmem_base::Command;
use trace_text::Maker;

/// Prints the sample trace of a seed and a count.
#[tactic(auto, unfolding(trace_text::specs::Samples::sample_trace))]
fn print_sample<K: Sink>(
    seed: u64,
    count: u32,
    printer: &mut Printer,
    out: &mut K,
) -> Result<(), Failed>
    ensures ok { OnOk result (HasPrinted K.put out.old out.new printer.old printer.new
        (commands_text (sample_trace seed count))) }
    ensures err { OnErr result (HasPrintedFront K.put out.old out.new printer.old printer.new
        (commands_text (sample_trace seed count))) }
    ensures cause { HasCause (K.faults out.old) (K.faults out.new) result }
{
    let mut maker = Maker::new(seed);
    'commands: for made in 0..count {
        let command = maker.next();
        printer.print_command(out, &command)?;
    }
    printer.print_command(out, &Command::Stat)
}

/// Prints the sample trace of a seed and a count, and says why that stops.
pub(crate) fn make<K: Sink>(seed: u64, count: u32, printer: &mut Printer, out: &mut K) -> Stop
    ensures made { TextOutcome result (with_waiting (K.put out.old) printer.old) (with_waiting (K.put out.new) printer.new)
        (commands_text (sample_trace seed count)) }
    ensures writes { CountsFault (result ≡ Stop.WriteFault) (K.faults out.old) (K.faults out.new) }
{
    match print_sample(seed, count, printer, out) {
        Ok(()) => Stop::Finished,
        Err(Failed) => Stop::WriteFault,
    }
}
