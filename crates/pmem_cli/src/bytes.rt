//! Bytes that clauses and proofs alone read.
ghost use Rattle.std.specs.Prelude.{◌≡◌, ◌++◌, ℕ, List, []};

use std::marker::Model;

/// Bytes in their order. Clauses read them as a list; a program keeps nothing of them, so they take no memory.
#[derive(Drop)]
pub struct GhostBytes {
    ghost items: { List ℕ },
}

impl Model for GhostBytes {
    ghost use Rattle.std.specs.Prelude.{ℕ, List};
    ghost use Rattle.std.specs.Borrow.{ftrue};

    ghost Value = { List ℕ };

    ghost view = { λ bytes. bytes.items };

    ghost also_owns = { λ _. ftrue };
}

impl GhostBytes {
    /// None yet.
    pub fn none() -> GhostBytes
        ensures { result ≡ [] }
    {
        GhostBytes {}
    }

    /// These bytes and more of them.
    fn with(_before: &GhostBytes, _more: &[u8]) -> GhostBytes
        ensures { result ≡ _before.now ++ _more.now }
    {
        GhostBytes {}
    }

    /// Notes more bytes.
    pub fn note(&mut self, more: &[u8])
        ensures { self.new ≡ self.old ++ more.now }
    {
        *self = GhostBytes::with(self, more);
    }
}
