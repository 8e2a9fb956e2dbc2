//! Laws of all plans.
ghost use Rattle.call_plan.specs.Laws.{RunsAreDetermined, CallsAreDetermined, ChainsAreDetermined, StepsAreCounted, StepsAreBounded, OtherPlacesStay, MarksAreKept, CutMarksAreFront};

/// A law: two runs of one plan from one board, which has power and tells its lines, that burn the same fuse end
/// alike, and leave the same board. So a contract that tells a call by a plan leaves nothing open.
pub fn runs_are_determined<E, T>()
    ensures { RunsAreDetermined E T }
{}

/// A law: on a watched board two outcomes of one call have the same answer, state, board and steps, and so have
/// calls one after another up to the first fault.
pub fn calls_are_determined<X, S, A, F>()
    ensures call { CallsAreDetermined S A F }
    ensures chain { ChainsAreDetermined X S A F }
{}

/// A law: a run takes the steps of its plan, each counted once; a run that power cuts takes fewer persist steps.
pub fn steps_are_counted<E, T>()
    ensures exact { StepsAreCounted E T }
    ensures bound { StepsAreBounded E T }
{}

/// A law: lines at other places than those that a plan writes to stay as they were, wherever a run ends.
pub fn writes_stay_in_place<E, T>()
    ensures { OtherPlacesStay E T }
{}

/// A law: if the marks rise along a plan, a run keeps the marks from before, and a run that is cut has made a prefix of
/// the marks that it would have made.
pub fn cut_marks_are_a_front<S, A, F>()
    ensures kept { MarksAreKept S A F }
    ensures front { CutMarksAreFront S A F }
{}
