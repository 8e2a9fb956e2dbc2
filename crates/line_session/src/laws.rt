//! That the relations of a session's calls leave nothing open.
ghost use Rattle.line_session.specs.Determined.{CallsAreDetermined, NewSessionsAreDetermined, StartsAreDetermined};

/// A law: two calls of one plan from one session, which has power, end alike, after equally many steps, and leave the
/// same session. So power is cut if and only if a step meets a fuse of 0.
pub fn calls_are_determined<F, A>()
    ensures { CallsAreDetermined F A }
{}

/// A law: two new sessions of one setup and of equal keys, whose lines were opened along one plan and whose suites had made
/// as many tags and digests before, are the same: every line of the device, all registers and counts, the engine and the
/// marks.
pub fn new_sessions_are_determined<F, A>()
    ensures { NewSessionsAreDetermined F A }
{}

/// A law: two starts of one session, with recovery and the opening of the lines, end alike, after equally many steps,
/// and leave the same session. So which twin is shown is settled too.
pub fn starts_are_determined<F, A>()
    ensures { StartsAreDetermined F A }
{}
