//! Why a path isn't fetched.
ghost use Rattle.std.specs.Prelude.{◌≡◌};

use pmem_base::Cut;

/// What a fetch answers instead of its path.
#[derive(Clone, Copy, Debug, PartialEq, Eq)]
pub enum PathFault {
    /// Power was cut.
    Cut,
    /// The line read at position `x` doesn't have the digest that its parent says.
    Meta { x: u32 },
    /// The audit shows a line with the right digest that isn't the true one.
    Shown,
}

impl From<Cut> for PathFault {
    ghost use Rattle.meta_path.specs.declared.faults.PathFault.TheVariants as Fault;

    ghost from_gives = { λ _ fault. fault ≡ Fault.Cut };

    fn from(_: Cut) -> Self {
        PathFault::Cut
    }
}
