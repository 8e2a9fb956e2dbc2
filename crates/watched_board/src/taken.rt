//! What a call took of the board.
ghost use Rattle.std.specs.Prelude.{◌≡◌};
ghost use Rattle.watched_board.specs.Watching.{steps_in};

/// The line writes, the latches and the cuts of one call.
#[derive(Clone, Copy, Debug, PartialEq, Eq)]
pub struct Taken {
    /// Lines written.
    pub writes: u32,
    /// Register files latched.
    pub latches: u32,
    /// Calls of the board that were answered by a cut.
    pub cuts: u64,
}

impl Taken {
    /// The persist steps: line writes and latches.
    pub fn steps(&self) -> u64
        ensures { result ≡ steps_in self.now }
    {
        u64::from(self.writes) + u64::from(self.latches)
    }
}
