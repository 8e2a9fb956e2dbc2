//! How far the pulls of a source have come.
ghost use Rattle.std.specs.Prelude.{◌≡◌};
ghost use Rattle.pmem_cli.specs.Pulling.{pulls_after};

/// How far the pulls of a source have come.
#[derive(Clone, Copy, Debug, PartialEq, Eq)]
pub enum Pulls {
    /// Bytes may follow.
    Open,
    /// The last pull failed, or gave the end.
    Ended,
    /// A pull was made after that.
    Late,
}

/// After one more pull, by whether that failed or gave the end.
pub(crate) fn next_pulls(pulls: Pulls, is_last: bool) -> Pulls
    ensures { result ≡ pulls_after pulls is_last }
{
    match pulls {
        Pulls::Open => { if is_last { Pulls::Ended } else { Pulls::Open } }
        Pulls::Ended | Pulls::Late => Pulls::Late,
    }
}
