//! Laws of a log.
ghost use Rattle.access_log.specs.Traced.{LogsAreExact, LogsAreDetermined};

/// A law: the accesses of a log that was begun empty are just those that the board answered since, in their order. So
/// two logs of what a board was asked for between two moments are the same.
pub fn logs_are_exact()
    ensures exact { LogsAreExact }
    ensures determined { LogsAreDetermined }
{}
