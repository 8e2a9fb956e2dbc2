//! Replies on their way to a sink, held back so that many go in one push.
ghost use Rattle.std.specs.Prelude.{◌≡◌, ◌<◌, ◌≤◌, [], length, OnOk, OnErr};
ghost use Rattle.pmem_cli.specs.Causes.{HasCause};
ghost use Rattle.plain_model.specs.Texts.{answer_text, command_text, mark_text, marks_text, as_line};
ghost use Rattle.trace_text.specs.Commands.{IsWritable};
ghost use Rattle.trace_text.specs.Answers.{HasSmallMinors};
ghost use Rattle.pmem_cli.specs.Logged.{access_text, accesses_text, work_text};
ghost use Rattle.pmem_cli.specs.Printed.{HasPrinted, HasPrintedFront};

use crate::sink::{Sink, push_all};
use crate::source::Failed;
use arrayvec::ArrayVec;
use board::Access;
use collision_witness::push_counts;
use pmem_base::{Answer, Command, Mark};
use std::marker::Model;
use trace_text::{push_answer, push_bytes, push_mark, write_command};

/// The bytes that may wait.
const WAITING_BYTES: usize = 65_536;

/// The bytes that were printed and not pushed yet, and room for one text. Contracts see the bytes
/// that wait.
#[derive(Drop)]
pub(crate) struct Printer {
    waiting: ArrayVec<u8, WAITING_BYTES>,
    text: ArrayVec<u8, 512>,
}

impl Model for Printer {
    ghost use Rattle.std.specs.Prelude.{ℕ, List};

    ghost Value = { List ℕ };

    ghost view = { λ printer. printer.waiting.items };
}

/// Pushes all that waits. After a failed push nothing waits any more.
fn flush_waiting<K: Sink>(
    waiting: &mut ArrayVec<u8, WAITING_BYTES>,
    out: &mut K,
) -> Result<(), Failed>
    ensures ok { OnOk result (HasPrinted K.put out.old out.new waiting.old.items waiting.new.items []) }
    ensures emptied { waiting.new.items ≡ [] }
    ensures err { OnErr result (HasPrintedFront K.put out.old out.new waiting.old.items waiting.new.items []) }
    ensures cause { HasCause (K.faults out.old) (K.faults out.new) result }
{
    let pushed = push_all(out, waiting.as_slice());
    waiting.clear();
    pushed
}

/// Prints a text, which may wait.
fn print_text<K: Sink>(
    waiting: &mut ArrayVec<u8, WAITING_BYTES>,
    out: &mut K,
    text: &[u8],
) -> Result<(), Failed>
    requires { length text.now ≤ 65536 }
    ensures ok { OnOk result (HasPrinted K.put out.old out.new waiting.old.items waiting.new.items text.now) }
    ensures err { OnErr result (HasPrintedFront K.put out.old out.new waiting.old.items waiting.new.items text.now) }
    ensures failed { OnErr result (waiting.new.items ≡ []) }
    ensures cause { HasCause (K.faults out.old) (K.faults out.new) result }
{
    if waiting.remaining_capacity() < text.len() {
        flush_waiting(waiting, out)?;
    }
    let _ = waiting.try_extend_from_slice(text);
    Ok(())
}

impl Printer {
    /// Nothing waits.
    pub fn new() -> Self
        ensures { result ≡ [] }
    {
        Printer {
            waiting: ArrayVec::new(),
            text: ArrayVec::new(),
        }
    }

    /// Pushes all that waits. After a failed push nothing waits any more. Errors: `Failed` if a push fails.
    pub fn flush<K: Sink>(&mut self, out: &mut K) -> Result<(), Failed>
        ensures ok { OnOk result (HasPrinted K.put out.old out.new self.old self.new []) }
        ensures emptied { self.new ≡ [] }
        ensures err { OnErr result (HasPrintedFront K.put out.old out.new self.old self.new []) }
        ensures cause { HasCause (K.faults out.old) (K.faults out.new) result }
    {
        flush_waiting(&mut self.waiting, out)
    }

    /// Prints a text, which may wait. Errors: `Failed` if what waited had to be pushed and the push failed.
    pub fn print<K: Sink>(&mut self, out: &mut K, text: &[u8]) -> Result<(), Failed>
        requires { length text.now ≤ 65536 }
        ensures ok { OnOk result (HasPrinted K.put out.old out.new self.old self.new text.now) }
        ensures err { OnErr result (HasPrintedFront K.put out.old out.new self.old self.new text.now) }
        ensures failed { OnErr result (self.new ≡ []) }
        ensures cause { HasCause (K.faults out.old) (K.faults out.new) result }
    {
        print_text(&mut self.waiting, out, text)
    }

    /// Prints a text as a line, with its LF. Errors: those of `print`.
    pub fn print_line<K: Sink>(&mut self, out: &mut K, text: &[u8]) -> Result<(), Failed>
        requires { length text.now ≤ 65536 }
        ensures ok { OnOk result (HasPrinted K.put out.old out.new self.old self.new (as_line text.now)) }
        ensures err { OnErr result (HasPrintedFront K.put out.old out.new self.old self.new (as_line text.now)) }
        ensures cause { HasCause (K.faults out.old) (K.faults out.new) result }
    {
        self.print(out, text)?;
        self.print(out, b"\n")
    }

    /// Prints the text of an answer, with its LF. Errors: those of `print`.
    pub fn print_answer<K: Sink>(&mut self, out: &mut K, answer: &Answer) -> Result<(), Failed>
        requires { HasSmallMinors answer.now }
        ensures ok { OnOk result (HasPrinted K.put out.old out.new self.old self.new
            (as_line (answer_text answer.now))) }
        ensures err { OnErr result (HasPrintedFront K.put out.old out.new self.old self.new
            (as_line (answer_text answer.now))) }
        ensures cause { HasCause (K.faults out.old) (K.faults out.new) result }
    {
        self.text.clear();
        push_answer(&mut self.text, answer);
        push_bytes(&mut self.text, b"\n");
        print_text(&mut self.waiting, out, self.text.as_slice())
    }

    /// Prints the text of a mark, with its LF.
    fn print_mark<K: Sink>(&mut self, out: &mut K, mark: &Mark) -> Result<(), Failed>
        ensures ok { OnOk result (HasPrinted K.put out.old out.new self.old self.new (as_line (mark_text mark.now))) }
        ensures err { OnErr result (HasPrintedFront K.put out.old out.new self.old self.new
            (as_line (mark_text mark.now))) }
        ensures cause { HasCause (K.faults out.old) (K.faults out.new) result }
    {
        self.text.clear();
        push_mark(&mut self.text, mark);
        push_bytes(&mut self.text, b"\n");
        print_text(&mut self.waiting, out, self.text.as_slice())
    }

    /// Prints the text of an access, with its LF.
    fn print_access<K: Sink>(&mut self, out: &mut K, access: &Access) -> Result<(), Failed>
        ensures ok { OnOk result (HasPrinted K.put out.old out.new self.old self.new
            (as_line (access_text access.now))) }
        ensures err { OnErr result (HasPrintedFront K.put out.old out.new self.old self.new
            (as_line (access_text access.now))) }
        ensures cause { HasCause (K.faults out.old) (K.faults out.new) result }
    {
        self.text.clear();
        push_access(&mut self.text, access);
        push_bytes(&mut self.text, b"\n");
        print_text(&mut self.waiting, out, self.text.as_slice())
    }

    /// Prints how many tags and digests were made, with its LF. Errors: those of `print`.
    pub fn print_work<K: Sink>(
        &mut self,
        out: &mut K,
        tags: u64,
        digests: u64,
    ) -> Result<(), Failed>
        ensures ok { OnOk result (HasPrinted K.put out.old out.new self.old self.new
            (as_line (work_text tags digests))) }
        ensures err { OnErr result (HasPrintedFront K.put out.old out.new self.old self.new
            (as_line (work_text tags digests))) }
        ensures cause { HasCause (K.faults out.old) (K.faults out.new) result }
    {
        self.text.clear();
        push_work(&mut self.text, tags, digests);
        push_bytes(&mut self.text, b"\n");
        print_text(&mut self.waiting, out, self.text.as_slice())
    }

    /// Prints the text of a command, with its LF. Errors: those of `print`.
    pub fn print_command<K: Sink>(&mut self, out: &mut K, command: &Command) -> Result<(), Failed>
        requires { IsWritable command.now }
        ensures ok { OnOk result (HasPrinted K.put out.old out.new self.old self.new
            (as_line (command_text command.now))) }
        ensures err { OnErr result (HasPrintedFront K.put out.old out.new self.old self.new
            (as_line (command_text command.now))) }
        ensures cause { HasCause (K.faults out.old) (K.faults out.new) result }
    {
        let mut text = write_command(command);
        push_bytes(&mut text, b"\n");
        self.print(out, text.as_slice())
    }
}

/// Prints the texts of marks, in order, each with its LF.
pub(crate) fn print_marks<K: Sink>(
    marks: &[Mark],
    printer: &mut Printer,
    out: &mut K,
) -> Result<(), Failed>
    ensures ok { OnOk result (HasPrinted K.put out.old out.new printer.old printer.new (marks_text marks.now)) }
    ensures err { OnErr result (HasPrintedFront K.put out.old out.new printer.old printer.new (marks_text marks.now)) }
    ensures cause { HasCause (K.faults out.old) (K.faults out.new) result }
{
    'each: for mark in marks {
        printer.print_mark(out, mark)?;
    }
    Ok(())
}

/// Puts the text of an access into an empty text, without its LF.
#[tactic(auto, unfolding(crate::specs::Logged::access_text))]
pub fn push_access(text: &mut ArrayVec<u8, 512>, access: &Access)
    requires { text.old.items ≡ [] }
    ensures text { text.new.items ≡ access_text access.now }
    ensures room { length text.new.items < 512 }
{
    match access {
        Access::Read { at } => push_counts(text, b"look", &[u64::from(*at)]),
        Access::Write { at, line: _ } => push_counts(text, b"line", &[u64::from(*at)]),
        Access::Latch { armed } => push_counts(text, b"latch", &[u64::from(*armed)]),
    }
}

/// Puts the text of these numbers of tags and digests into an empty text, without its LF.
#[tactic(auto, unfolding(crate::specs::Logged::work_text))]
pub fn push_work(text: &mut ArrayVec<u8, 512>, tags: u64, digests: u64)
    requires { text.old.items ≡ [] }
    ensures text { text.new.items ≡ work_text tags digests }
    ensures room { length text.new.items < 512 }
{
    push_counts(text, b"work", &[tags, digests]);
}

/// Prints the texts of accesses, in order, each with its LF.
pub(crate) fn print_accesses<K: Sink>(
    accesses: &[Access],
    printer: &mut Printer,
    out: &mut K,
) -> Result<(), Failed>
    ensures ok { OnOk result (HasPrinted K.put out.old out.new printer.old printer.new (accesses_text accesses.now)) }
    ensures err { OnErr result (HasPrintedFront K.put out.old out.new printer.old printer.new
        (accesses_text accesses.now)) }
    ensures cause { HasCause (K.faults out.old) (K.faults out.new) result }
{
    'each: for access in accesses {
        printer.print_access(out, access)?;
    }
    Ok(())
}
