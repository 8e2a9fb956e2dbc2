//! That what comes of a line told leaves nothing open.
ghost use Rattle.any_session.specs.Determined.{ToldIsDetermined};

/// A law: a line given to a session has one outcome, one text of its reply with its log, and leaves one session, if
/// there was memory for the answer and for its text. How many marks the world of a run has room for is left open.
pub fn told_is_determined()
    ensures { ToldIsDetermined }
{}
