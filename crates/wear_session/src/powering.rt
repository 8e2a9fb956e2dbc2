//! Power, and recovery.
ghost use Rattle.std.specs.Prelude.{◌≡◌, IfOk, IfErr, if◌then◌else◌};
ghost use Rattle.wear_session.specs.declared.commands.WearCommand.TheVariants as Do;
ghost use Rattle.wear_session.specs.declared.answers.WearAnswer.TheVariants as Say;
ghost use Rattle.wear_session.specs.State.{wear_setup_in};
ghost use Rattle.wear_session.specs.Answered.{IsWearAnswered, IsWearHalt};
ghost use Rattle.wear_session.specs.Logged.{IsWearLogged};
ghost use Rattle.wear_session.specs.Planned.{turned_said};

use crate::answers::WearAnswer;
use crate::calls::OpenLines;
use crate::world::WearWorld;
use access_log::AccessLog;
use line_session::Turned;
use start_gap::Wear;
use std::alloc::Global;
use suite::Suite;
use trace_text::Halt;

/// The answer of power that comes on, by what that comes to.
fn opened_answer(turned: Result<Turned<Wear>, Halt>) -> Result<WearAnswer, Halt>
    ensures { result ≡ turned_said turned }
{
    match turned? {
        Turned::Already => Ok(WearAnswer::Already),
        Turned::On { steps, told } => Ok(WearAnswer::Opened {
            start: told.start,
            gap: told.gap,
            steps,
        }),
        Turned::Cut { steps } => Ok(WearAnswer::Cut { steps }),
    }
}

/// The answer of power that goes off, by whether it was on.
fn off_answer(on: bool) -> WearAnswer
    ensures { result ≡ (if on then Say.Ok else Say.Off) }
{
    if on { WearAnswer::Ok } else { WearAnswer::Off }
}

impl<S: Suite + Drop> WearWorld<S> {
    /// Power is to be cut after `n` more persist steps.
    pub(crate) fn cut(&mut self, n: u64) -> WearAnswer
        ensures { IsWearAnswered (wear_setup_in S.formulas_of self.old) self.old (Do.Cut n) result self.new }
    {
        self.session.cut(n);
        WearAnswer::Ok
    }

    /// Power goes off.
    pub(crate) fn off(&mut self) -> WearAnswer
        ensures { IsWearAnswered (wear_setup_in S.formulas_of self.old) self.old Do.Off result self.new }
    {
        let on = self.session.off();
        off_answer(on)
    }

    /// Switches power on, with recovery, and opens the lines. Errors: running out of memory, or a twin.
    pub(crate) fn on(&mut self, alloc: Global, log: &mut AccessLog) -> Result<WearAnswer, Halt>
        ensures answered { IfOk result (λ answer. IsWearAnswered (wear_setup_in S.formulas_of self.old) self.old Do.On answer self.new) }
        ensures halted { IfErr result (λ halt. IsWearHalt (wear_setup_in S.formulas_of self.old) self.old Do.On halt self.new) }
        ensures logged { IsWearLogged Do.On log.old self.old log.new self.new }
    {
        let turned = self
            .session
            .on(alloc, &OpenLines { every: self.every }, log);
        opened_answer(turned)
    }
}
