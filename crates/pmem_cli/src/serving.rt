//! What answers the lines of a trace: the world, by its replies.
ghost use Rattle.std.specs.Prelude.{◌≡◌, ◌≤◌, [], length, slice_range, OnOk, OnErr, false, ℕ, List};
ghost use Rattle.pmem_base.specs.Ranges.{IsCommand};
ghost use Rattle.plain_model.specs.Answers.{is_shown};
ghost use Rattle.plain_model.specs.Run.{Step};
ghost use Rattle.plain_model.specs.Texts.{marks_text, reply_text};
ghost use Rattle.pmem_replay.specs.Stepped.{reply_in};
ghost use Rattle.trace_text.specs.Answers.{HasSmallMinors};
ghost use Rattle.trace_text.specs.Conversations.{Protocol};
ghost use Rattle.pmem_cli.specs.Causes.{HasCause};
ghost use Rattle.pmem_cli.specs.Printed.{with_waiting, HasPrinted, HasPrintedFront};
ghost use Rattle.pmem_cli.specs.Replies.{world_protocol, AnswersByWorld};
ghost use Rattle.pmem_cli.specs.Turns.{AnswersLine, StopsByCause};

use crate::printer::{Printer, print_marks};
use crate::sink::Sink;
use crate::source::Failed;
use plain_model::Stop;
use pmem_base::{Answer, Command};
use pmem_replay::{Reply, World};
use std::alloc::Global;
use suite::Counted;
use trace_text::read_command;

/// What answers the lines of a trace and prints the replies.
pub(crate) trait Serve {
    /// What contracts see of a reply.
    ghost ReplyData: { Type 0 };

    /// What the answers mean.
    ghost protocol: { Protocol Self ReplyData };

    /// Answers one line of at most 1,024 bytes, and says why the run stops, if it does.
    fn serve_line<K: Sink>(
        &mut self,
        alloc: Global,
        number: u32,
        line: &[u8],
        printer: &mut Printer,
        out: &mut K,
    ) -> Option<Stop>
        requires running { protocol.runs self.old }
        ensures answered { AnswersLine protocol result line.now number self.old self.new
            (with_waiting (K.put out.old) printer.old) (with_waiting (K.put out.new) printer.new) }
        ensures cause { StopsByCause result 0 0 (K.faults out.old) (K.faults out.new) };
}

/// Whether an answer is an exhibit, which ends a run.
pub(crate) fn is_shown(answer: &Answer) -> bool
    ensures { result ≡ is_shown answer.now }
{
    matches!(answer, Answer::Shown(_))
}

/// Prints a reply: its marks in the order made, and its answer.
pub(crate) fn print_reply<U: Counted + Drop, K: Sink>(
    world: &World<U>,
    reply: &Reply,
    printer: &mut Printer,
    out: &mut K,
) -> Result<(), Failed>
    requires from { reply.now.from ≤ reply.now.to }
    requires to { reply.now.to ≤ length world.now.ledger.marks }
    requires minors { HasSmallMinors reply.now.answer }
    ensures ok { OnOk result (HasPrinted K.put out.old out.new printer.old printer.new
        (reply_text (reply_in world.now reply.now))) }
    ensures err { OnErr result (HasPrintedFront K.put out.old out.new printer.old printer.new
        (reply_text (reply_in world.now reply.now))) }
    ensures cause { HasCause (K.faults out.old) (K.faults out.new) result }
{
    print_marks(&world.marks()[reply.from..reply.to], printer, out)?;
    printer.print_answer(out, &reply.answer)
}

/// Answers a command, and says why the run stops, if it does.
fn answer_command<U: Counted + Drop, K: Sink>(
    alloc: Global,
    command: &Command,
    world: &mut World<U>,
    printer: &mut Printer,
    out: &mut K,
) -> Option<Stop>
    requires running { world.old.shown ≡ false }
    requires range { IsCommand command.now }
    ensures answered { AnswersByWorld U.formulas_of result command.now world.old world.new
        (with_waiting (K.put out.old) printer.old) (with_waiting (K.put out.new) printer.new) }
    ensures cause { StopsByCause result 0 0 (K.faults out.old) (K.faults out.new) }
{
    let Ok(reply) = world.step(alloc, command) else {
        return Some(Stop::Memory);
    };
    match print_reply(world, &reply, printer, out) {
        Err(Failed) => Some(Stop::WriteFault),
        Ok(()) => {
            if is_shown(&reply.answer) {
                Some(Stop::Shown)
            } else {
                None
            }
        }
    }
}

/// A reply of the world is a command's marks and its answer.
impl<U: Counted + Drop> Serve for World<U> {
    ghost ReplyData = { Step };

    ghost protocol = { world_protocol U.formulas_of };

    fn serve_line<K: Sink>(
        &mut self,
        alloc: Global,
        number: u32,
        line: &[u8],
        printer: &mut Printer,
        out: &mut K,
    ) -> Option<Stop> {
        match read_command(line) {
            Err(kind) => Some(Stop::Refused { number, kind }),
            Ok(None) => None,
            Ok(Some(command)) => answer_command(alloc, &command, self, printer, out),
        }
    }
}
