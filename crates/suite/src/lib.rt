//! Suites: the pads, tags and digests that guard a memory.
#![tactic(auto)]

ghost use Rattle.std.specs.Prelude.{ℕ, ◌≡◌, List};
ghost use Rattle.pmem_base.specs.Counts.{risen};
ghost use Rattle.suite.specs.Formulas.{Formulas, AreInRange};

mod aes;
mod ciphers;
mod shared;
mod weak;

pub use aes::AesSuite;
pub use ciphers::xor_lines;
use pmem_base::{Ctr, Line, Tag};
pub use weak::WeakSuite;

/// Three formulas over keys that no call changes, and a count of the calls of each. A count stands
/// still at 2^64 - 1.
pub trait Suite {
    /// The bytes of all keys.
    ghost keys: { Self → List ℕ };

    /// The formulas under keys.
    ghost formulas_of: { List ℕ → Formulas };

    /// The pads made so far.
    ghost pads: { Self → ℕ };

    /// The tags made so far.
    ghost tags: { Self → ℕ };

    /// The digests made so far.
    ghost digests: { Self → ℕ };

    /// The pad of data line `at` under a counter. A line's cipher is the plain line xor its pad.
    fn pad(&mut self, at: u32, ctr: Ctr) -> Line
        ensures pad { result ≡ (formulas_of (keys self.old)).pad_of at ctr }
        ensures keys { keys self.new ≡ keys self.old }
        ensures pads { pads self.new ≡ risen (pads self.old) }
        ensures tags { tags self.new ≡ tags self.old }
        ensures digests { digests self.new ≡ digests self.old };

    /// The tag of data line `at`'s cipher under a counter.
    fn tag(&mut self, at: u32, ctr: Ctr, cipher: &Line) -> Tag
        ensures tag { result ≡ (formulas_of (keys self.old)).tag_of at ctr cipher.now }
        ensures keys { keys self.new ≡ keys self.old }
        ensures pads { pads self.new ≡ pads self.old }
        ensures tags { tags self.new ≡ risen (tags self.old) }
        ensures digests { digests self.new ≡ digests self.old };

    /// The digest of the metadata line at position `x`.
    fn digest(&mut self, x: u32, line: &Line) -> Tag
        ensures digest { result ≡ (formulas_of (keys self.old)).digest_of x line.now }
        ensures keys { keys self.new ≡ keys self.old }
        ensures pads { pads self.new ≡ pads self.old }
        ensures tags { tags self.new ≡ tags self.old }
        ensures digests { digests self.new ≡ risen (digests self.old) };

    /// A law: tags and digests are 16 bytes, and pads are whole lines.
    ghost in_range: { (suite : Self) → AreInRange (formulas_of (keys suite)) };
}

/// A suite that tells its counts.
pub trait Counted: Suite {
    /// The numbers of pads, tags and digests made so far, each at most 2^64 - 1.
    fn counts(&self) -> (u64, u64, u64)
        ensures { result ≡ (Self.pads self.now, Self.tags self.now, Self.digests self.now) };
}
