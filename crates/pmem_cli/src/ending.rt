//! How the program ends: its last line and its status.
ghost use Rattle.std.specs.Prelude.{◌≡◌, ◌≢◌, ◌≤◌, ◌+◌, ◌⊎◌, ◌↔◌, [], OnOk, OnErr};
ghost use Rattle.plain_model.specs.declared.Stop.TheVariants as Stop;
ghost use Rattle.plain_model.specs.Run.{stop_text, status_of, kind_number};
ghost use Rattle.pmem_cli.specs.Causes.{HasCause, Rose};
ghost use Rattle.pmem_cli.specs.Endings.{ending_text, ending_status};
ghost use Rattle.pmem_cli.specs.declared.ending.Ending.TheVariants.{Stopped};
ghost use Rattle.pmem_cli.specs.Printed.{HasPrinted, HasPrintedFront};

use crate::printer::Printer;
use crate::sink::Sink;
use crate::source::Failed;
use arrayvec::ArrayVec;
use plain_model::Stop;
use pmem_base::Kind;
use trace_text::{push_bytes, push_number};

/// How the program ends.
#[derive(Clone, Copy)]
pub(crate) enum Ending {
    /// It stopped, as a run does.
    Stopped(Stop),
    /// The exhibit holds.
    Holds,
    /// The exhibit doesn't hold.
    Fails,
}

/// The number of a kind in the last line.
fn kind_number_of(kind: Kind) -> u8
    ensures { result ≡ kind_number kind }
{
    match kind {
        Kind::Word => 1,
        Kind::Count => 2,
        Kind::Number => 3,
        Kind::Port => 4,
        Kind::Hex => 5,
        Kind::Long => 6,
    }
}

/// The last line, with its LF, or nothing.
#[tactic(auto, unfolding(plain_model::specs::Run::stop_text))]
fn write_stop(stop: Stop) -> ArrayVec<u8, 512>
    ensures { result.items ≡ stop_text stop }
{
    let mut text = ArrayVec::new();
    match stop {
        Stop::Finished => {}
        Stop::WriteFault => {}
        Stop::Shown => {}
        Stop::Words => push_bytes(&mut text, b"stop words\n"),
        Stop::Memory => push_bytes(&mut text, b"stop memory\n"),
        Stop::ReadFault => push_bytes(&mut text, b"stop read\n"),
        Stop::TooManyLines => push_bytes(&mut text, b"stop lines\n"),
        Stop::Refused { number, kind } => {
            push_bytes(&mut text, b"stop line ");
            push_number(&mut text, u64::from(number));
            push_bytes(&mut text, b" ");
            push_number(&mut text, u64::from(kind_number_of(kind)));
            push_bytes(&mut text, b"\n");
        }
    }
    text
}

/// The status of a stop.
fn status(stop: Stop) -> u8
    ensures { result ≡ status_of stop }
{
    match stop {
        Stop::Finished => 0,
        Stop::Memory => 1,
        Stop::Words => 2,
        Stop::ReadFault => 3,
        Stop::WriteFault => 4,
        Stop::Refused { .. } => 5,
        Stop::Shown => 6,
        Stop::TooManyLines => 7,
    }
}

/// The last line of an ending, with its LF, or nothing.
fn write_ending(ending: Ending) -> ArrayVec<u8, 512>
    ensures { result.items ≡ ending_text ending }
{
    let mut text = ArrayVec::new();
    match ending {
        Ending::Stopped(stop) => return write_stop(stop),
        Ending::Holds => push_bytes(&mut text, b"holds\n"),
        Ending::Fails => push_bytes(&mut text, b"fails\n"),
    }
    text
}

/// The status of an ending.
fn ending_number(ending: Ending) -> u8
    ensures { result ≡ ending_status ending }
{
    match ending {
        Ending::Stopped(stop) => status(stop),
        Ending::Holds => 0,
        Ending::Fails => 8,
    }
}

/// Prints the last line, and pushes all that waits.
fn tell<K: Sink>(ending: Ending, printer: &mut Printer, out: &mut K) -> Result<(), Failed>
    ensures ok { OnOk result (HasPrinted K.put out.old out.new printer.old [] (ending_text ending)) }
    ensures err { OnErr result (HasPrintedFront K.put out.old out.new printer.old [] (ending_text ending)) }
    ensures cause { HasCause (K.faults out.old) (K.faults out.new) result }
{
    printer.print(out, write_ending(ending).as_slice())?;
    printer.flush(out)
}

/// Prints the ending, and gives the status: 4 if the sink failed, except for invalid arguments.
pub(crate) fn finish<K: Sink>(ending: Ending, printer: &mut Printer, out: &mut K) -> u8
    ensures status { result ≢ 4 → result ≡ ending_status ending }
    ensures words { (result ≡ 2) ↔ (ending ≡ Stopped Stop.Words) }
    ensures write { ending ≡ Stopped Stop.WriteFault → result ≡ 4 }
    ensures kept { ending ≡ Stopped Stop.WriteFault → out.new ≡ out.old }
    ensures whole { result ≢ 4 → result ≢ 2
        → HasPrinted K.put out.old out.new printer.old [] (ending_text ending) }
    ensures words_told { result ≡ 2
        → HasPrinted K.put out.old out.new printer.old [] (ending_text ending)
        ⊎ Rose (K.faults out.old) (K.faults out.new) }
    ensures front { ending ≢ Stopped Stop.WriteFault
        → HasPrintedFront K.put out.old out.new printer.old [] (ending_text ending) }
    ensures fault { result ≡ 4 → (ending ≡ Stopped Stop.WriteFault) ⊎ Rose (K.faults out.old) (K.faults out.new) }
    ensures failed { K.faults out.new ≢ K.faults out.old → (result ≡ 4) ⊎ (result ≡ 2) }
    ensures later { K.faults out.old ≤ K.faults out.new }
    ensures once { K.faults out.new ≤ K.faults out.old + 1 }
{
    match ending {
        Ending::Stopped(Stop::WriteFault) => 4,
        Ending::Stopped(Stop::Words) => match tell(ending, printer, out) {
            Ok(()) | Err(Failed) => 2,
        },
        _ => match tell(ending, printer, out) {
            Ok(()) => ending_number(ending),
            Err(Failed) => 4,
        },
    }
}
