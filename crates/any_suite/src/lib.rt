//! One suite of any kind, for code that is compiled once for all of them.
#![tactic(auto)]

use pmem_base::{Ctr, Line, Tag};
use suite::{AesSuite, Counted, Suite, WeakSuite};

/// A suite of either kind. `blur` is a form of the weak one.
#[derive(Drop)]
pub enum AnySuite {
    /// The suite of AES-128, HMAC and SHA-256.
    Aes(AesSuite),
    /// The weak suite, or its blur form.
    Weak(WeakSuite),
}

/// Each call answers as the suite of this kind does.
impl Suite for AnySuite {
    ghost use Rattle.any_suite.specs.Kinds.{any_keys, any_formulas, any_counts, any_in_range};

    ghost keys = { any_keys };

    ghost formulas_of = { any_formulas };

    ghost pads = { λ suite. (any_counts suite).0 };

    ghost tags = { λ suite. (any_counts suite).1 };

    ghost digests = { λ suite. (any_counts suite).2 };

    fn pad(&mut self, at: u32, ctr: Ctr) -> Line {
        match self {
            AnySuite::Aes(suite) => suite.pad(at, ctr),
            AnySuite::Weak(suite) => suite.pad(at, ctr),
        }
    }

    fn tag(&mut self, at: u32, ctr: Ctr, cipher: &Line) -> Tag {
        match self {
            AnySuite::Aes(suite) => suite.tag(at, ctr, cipher),
            AnySuite::Weak(suite) => suite.tag(at, ctr, cipher),
        }
    }

    fn digest(&mut self, x: u32, line: &Line) -> Tag {
        match self {
            AnySuite::Aes(suite) => suite.digest(x, line),
            AnySuite::Weak(suite) => suite.digest(x, line),
        }
    }

    ghost in_range = { any_in_range };
}

impl Counted for AnySuite {
    fn counts(&self) -> (u64, u64, u64) {
        match self {
            AnySuite::Aes(suite) => suite.counts(),
            AnySuite::Weak(suite) => suite.counts(),
        }
    }
}
