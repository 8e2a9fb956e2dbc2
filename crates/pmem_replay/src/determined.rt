//! That the contracts of a step and of a new world leave nothing open.
ghost use Rattle.pmem_replay.specs.Determined.{LoggedStepIsDetermined, NewWorldIsDetermined, StepIsDetermined};

/// A law: from one world, a command has one reply and leaves one world. Two outcomes that the clause of `World::step`
/// allows, neither of which is running out of memory, are the same except for how many marks there is room for.
pub fn step_is_determined()
    ensures { StepIsDetermined }
{}

/// A law: from one world, two logs of one command have the same accesses of the board, in the same order, if neither is
/// lost because memory ran out. They are those of the engine's calls or of recovery, each by its plan.
pub fn logged_step_is_determined()
    ensures { LoggedStepIsDetermined }
{}

/// A law: two new worlds of one geometry, whose suites have the same keys and counts, are the same except for how many
/// marks there is room for.
pub fn new_world_is_determined()
    ensures { NewWorldIsDetermined }
{}
