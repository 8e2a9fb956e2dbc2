//! A log of accesses.
ghost use Rattle.std.specs.Prelude.{◌≡◌, [], Some, None, option_map};
ghost use Rattle.access_log.specs.Traced.{IsNoted};

use board::Access;
use std::alloc::Global;
use std::marker::Model;

/// The accesses of a board since the log was begun, in order. There is no log if none was asked for, or if memory for
/// it ran out.
#[derive(Drop)]
pub struct AccessLog {
    accesses: Option<Vec<Access>>,
}

impl Model for AccessLog {
    ghost use Rattle.std.specs.Prelude.{List, Option};
    ghost use Rattle.std.specs.Option.{option_map};
    ghost use Rattle.board.specs.declared.access.Access.{Access};

    ghost Value = { Option (List Access) };

    ghost view = { λ log. option_map (λ kept. kept.items) log.accesses };
}

impl AccessLog {
    /// No log: nothing is kept, and no memory is taken.
    pub fn none() -> AccessLog
        ensures { result ≡ None }
    {
        AccessLog { accesses: None }
    }

    /// A log without an access. It takes memory with the first one.
    pub fn empty(alloc: Global) -> AccessLog
        ensures { result ≡ Some [] }
    {
        AccessLog {
            accesses: Some(Vec::new(alloc)),
        }
    }

    /// Notes one more access, if a log is kept. If memory for the access runs out, the log is lost.
    pub fn note(&mut self, access: Access)
        ensures { IsNoted self.old access self.new }
    {
        if let Some(kept) = &mut self.accesses {
            if kept.push(access).is_err() {
                self.accesses = None;
            }
        }
    }

    /// Hands the log on, and leaves none in its place.
    pub fn take(&mut self) -> AccessLog
        ensures taken { result ≡ self.old }
        ensures none { self.new ≡ None }
    {
        AccessLog {
            accesses: self.accesses.take(),
        }
    }

    /// Puts a log in its place.
    pub fn put(&mut self, log: AccessLog)
        ensures { self.new ≡ log }
    {
        *self = log;
    }

    /// The accesses, if a log is kept.
    pub fn accesses(&self) -> Option<&[Access]>
        ensures { option_map (λ accesses. accesses.now) result ≡ self.now }
    {
        match &self.accesses {
            Some(kept) => Some(kept.as_slice()),
            None => None,
        }
    }
}
