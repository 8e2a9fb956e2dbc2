//! That the contracts of recovery and formatting leave nothing open, and that a recovery is its plan.
ghost use Rattle.pmem_recovery.specs.Determined.{RecoverIsDetermined, FormatIsDetermined, CutRecoveriesMakeFewerSteps};
ghost use Rattle.pmem_recovery.specs.Laws.{PlansRecover};

/// A law: two recoveries over one watched board, which has power, that have their memory and meet the same fuse have
/// the same answer with the same numbers, and leave the same counts and board.
pub fn recover_is_determined()
    ensures { RecoverIsDetermined }
{}

/// A law: two formats of one device, which has power and tells its lines, leave the same engine, ledger and device.
pub fn format_is_determined()
    ensures { FormatIsDetermined }
{}

/// A law: a recovery that is cut makes fewer persist steps than one of the same device that isn't, with or without a
/// refusal. So if no step is due none is cut, and a recovery that is done isn't reported as cut.
pub fn cut_recoveries_make_fewer_steps()
    ensures { CutRecoveriesMakeFewerSteps }
{}

/// A law: a board of whole lines that followed `recover_plan` has recovered, whatever code ran, if the suite's keys and
/// pads stay. So everything that `recover` promises once it has its memory is a law about its plan.
pub fn plans_recover()
    ensures { PlansRecover }
{}
