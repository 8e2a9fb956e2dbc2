//! Commands on logical lines.
ghost use Rattle.std.specs.Prelude.{◌≡◌, IfOk, IsOk, OnErr};
ghost use Rattle.wear_session.specs.declared.commands.WearCommand.TheVariants as Do;
ghost use Rattle.wear_session.specs.State.{wear_setup_in};
ghost use Rattle.wear_session.specs.Answered.{IsWearAnswered, IsWearMemoryWanted};
ghost use Rattle.wear_session.specs.Logged.{IsWearLogged};
ghost use Rattle.wear_session.specs.Planned.{write_done_said, read_done_said};

use crate::answers::WearAnswer;
use crate::calls::{ReadLine, WriteLine};
use crate::world::WearWorld;
use access_log::AccessLog;
use line_session::Done;
use pmem_base::{Line, MemFault};
use pmem_engine::Fault;
use start_gap::{Moved, WriteFault, place};
use suite::Suite;

/// The answer of a write, by what its call comes to.
fn write_answer(done: Result<Done<Moved, WriteFault>, MemFault>) -> Result<WearAnswer, MemFault>
    ensures { result ≡ write_done_said done }
{
    match done? {
        Done::Off => Ok(WearAnswer::Off),
        Done::Range => Ok(WearAnswer::Range),
        Done::Ended {
            steps,
            sealed,
            answer,
        } => Ok(match answer {
            Ok(Moved::Not) => WearAnswer::Written { steps },
            Ok(Moved::Made) => WearAnswer::Written { steps },
            Ok(Moved::Held { page }) => WearAnswer::Held { page, steps },
            Err(WriteFault { fault, written }) => match fault {
                Fault::Spent { page } => WearAnswer::Spent { page, steps },
                _ if written || sealed => WearAnswer::CutKept { steps },
                _ => WearAnswer::CutLost { steps },
            },
        }),
    }
}

/// The answer of a read, by what its call comes to.
fn read_answer(done: Result<Done<Line, Fault>, MemFault>) -> WearAnswer
    requires { IsOk done }
    ensures { IfOk done (λ done. result ≡ read_done_said done) }
{
    match done {
        // A read makes no mark.
        Err(MemFault) => unreachable!(),
        Ok(Done::Off) => WearAnswer::Off,
        Ok(Done::Range) => WearAnswer::Range,
        Ok(Done::Ended { steps, answer, .. }) => match answer {
            Ok(line) => WearAnswer::Got { line, steps },
            // Over a sound device no other fault comes.
            Err(_fault) => WearAnswer::Cut { steps },
        },
    }
}

impl<S: Suite + Drop> WearWorld<S> {
    /// Writes a logical line. Errors: running out of memory.
    pub(crate) fn write(
        &mut self,
        at: u64,
        line: &Line,
        log: &mut AccessLog,
    ) -> Result<WearAnswer, MemFault>
        ensures answered { IfOk result (λ answer. IsWearAnswered (wear_setup_in S.formulas_of self.old) self.old (Do.Write at line.now) answer self.new) }
        ensures err { OnErr result (self.new ≡ self.old) }
        ensures wanting { OnErr result (IsWearMemoryWanted self.old (Do.Write at line.now)) }
        ensures logged { IsWearLogged (Do.Write at line.now) log.old self.old log.new self.new }
    {
        line.is_whole();
        let done = self.session.make(&WriteLine { at, line }, log);
        write_answer(done)
    }

    /// A logical line is read.
    pub(crate) fn read(&mut self, at: u64, log: &mut AccessLog) -> WearAnswer
        ensures answered { IsWearAnswered (wear_setup_in S.formulas_of self.old) self.old (Do.Read at) result self.new }
        ensures logged { IsWearLogged (Do.Read at) log.old self.old log.new self.new }
    {
        let done = self.session.make(&ReadLine { at }, log);
        read_answer(done)
    }

    /// The place of a logical line.
    pub(crate) fn place(&self, at: u64) -> WearAnswer
        ensures { IsWearAnswered (wear_setup_in S.formulas_of self.now) self.now (Do.Place at) result self.now }
    {
        let Some(store) = self.session.store() else {
            return WearAnswer::Off;
        };
        let lines = store.gapped.lines();
        if at >= u64::from(lines) {
            return WearAnswer::Range;
        }
        WearAnswer::At {
            place: place(lines, store.gapped.wear(), at as u32),
        }
    }
}
