//! Why a call of the engine is refused.
use pmem_base::Cut;

/// A refusal of the engine.
#[derive(Clone, Copy, Debug, PartialEq, Eq)]
pub enum TreeFault {
    /// Power was cut.
    Cut,
    /// An earlier call was cut, or shown.
    Down,
    /// Node `x` isn't of the version that its parent has for it.
    Node { x: u32 },
    /// The tag of data line `at` doesn't fit its cipher.
    Tag { at: u32 },
    /// No write can be counted any more.
    Spent,
    /// The watch stopped: what was read is forged.
    Shown,
}

impl From<Cut> for TreeFault {
    ghost use Rattle.std.specs.Prelude.{◌≡◌};
    ghost use Rattle.asit_shadow.specs.declared.fault.TreeFault.{TreeFault};

    ghost from_gives = { λ _ fault. fault ≡ TreeFault.Cut };

    fn from(_: Cut) -> Self {
        TreeFault::Cut
    }
}
