//! How a call of the engine fails.
ghost use Rattle.std.specs.Prelude.{◌≡◌};
ghost use Rattle.pmem_engine.specs.Outcomes.{of_line};

use meta_path::PathFault;
use pmem_base::{Cut, Spent};

/// Why the engine doesn't answer. After `Cut` or `Shown` it answers `Down` alone; after `Meta`, `Tag`
/// and `Spent` it goes on, and the memory's meaning is unchanged.
#[derive(Clone, Copy, Debug, PartialEq, Eq)]
pub enum Fault {
    /// Power was cut before a persist step, or is off.
    Cut,
    /// An earlier call answered `Cut` or `Shown`.
    Down,
    /// The metadata line read at position `x` has another digest than its parent says.
    Meta { x: u32 },
    /// The tag of data line `at` isn't that of the cipher read.
    Tag { at: u32 },
    /// The counter of the line, which lies in this page, is used up.
    Spent { page: u32 },
    /// The audit stopped the engine: it has an exhibit.
    Shown,
}

/// Why a line isn't unsealed, or not resealed.
#[derive(Clone, Copy, Debug, PartialEq, Eq)]
pub(crate) enum LineFault {
    /// Power was cut.
    Cut,
    /// The tag of data line `at` isn't that of the cipher read.
    Tag { at: u32 },
    /// The audit shows a cipher with its right tag that isn't the last one.
    Shown,
}

impl From<Cut> for LineFault {
    ghost use Rattle.pmem_engine.specs.declared.fault.LineFault.TheVariants as AtLine;

    ghost from_gives = { λ _ fault. fault ≡ AtLine.Cut };

    fn from(_: Cut) -> Self {
        LineFault::Cut
    }
}

impl From<LineFault> for Fault {
    ghost use Rattle.pmem_engine.specs.Outcomes.{fault_of_line};

    ghost from_gives = { λ fault result. result ≡ fault_of_line fault };

    fn from(fault: LineFault) -> Self {
        match fault {
            LineFault::Cut => Fault::Cut,
            LineFault::Tag { at } => Fault::Tag { at },
            LineFault::Shown => Fault::Shown,
        }
    }
}

impl From<Cut> for Fault {
    ghost use Rattle.pmem_engine.specs.declared.fault.Fault.TheVariants as Fail;

    ghost from_gives = { λ _ fault. fault ≡ Fail.Cut };

    fn from(_: Cut) -> Self {
        Fault::Cut
    }
}

impl From<Spent> for Fault {
    ghost use Rattle.pmem_engine.specs.declared.fault.Fault.TheVariants as Fail;

    ghost from_gives = { λ spent fault. fault ≡ Fail.Spent spent.page };

    fn from(spent: Spent) -> Self {
        Fault::Spent { page: spent.page }
    }
}

impl From<PathFault> for Fault {
    ghost use Rattle.pmem_engine.specs.Outcomes.{fault_of_path};

    ghost from_gives = { λ fault result. result ≡ fault_of_path fault };

    fn from(fault: PathFault) -> Self {
        match fault {
            PathFault::Cut => Fault::Cut,
            PathFault::Meta { x } => Fault::Meta { x },
            PathFault::Shown => Fault::Shown,
        }
    }
}

// A line's answer as the engine's.
pub(crate) fn line_answer<T>(answer: Result<T, LineFault>) -> Result<T, Fault>
    ensures { result ≡ of_line answer }
{
    match answer {
        Ok(value) => Ok(value),
        Err(fault) => Err(Fault::from(fault)),
    }
}
