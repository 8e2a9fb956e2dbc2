//! Accesses of a board that clauses and proofs alone read.
ghost use Rattle.std.specs.Prelude.{◌≡◌, ◌++◌, List, [], ◌∷◌};
ghost use Rattle.board.specs.declared.access.Access.{Access};

use crate::access::Access;
use std::marker::Model;

/// The accesses of a board in their order, the first one first. Clauses read them as a list; a program keeps nothing
/// of them, so they take no memory.
#[derive(Drop)]
pub struct GhostAccesses {
    ghost items: { List Access },
}

impl Model for GhostAccesses {
    ghost use Rattle.std.specs.Prelude.{List};
    ghost use Rattle.std.specs.Borrow.{ftrue};
    ghost use Rattle.board.specs.declared.access.Access.{Access};

    ghost Value = { List Access };

    ghost view = { λ accesses. accesses.items };

    ghost also_owns = { λ _. ftrue };
}

impl GhostAccesses {
    /// None yet.
    pub fn none() -> GhostAccesses
        ensures { result ≡ [] }
    {
        GhostAccesses {}
    }

    /// These accesses and one more.
    fn with(_before: &GhostAccesses, _access: &Access) -> GhostAccesses
        ensures { result ≡ _before.now ++ _access.now ∷ [] }
    {
        GhostAccesses {}
    }

    /// Notes one more access.
    pub fn note(&mut self, access: &Access)
        ensures { self.new ≡ self.old ++ access.now ∷ [] }
    {
        *self = GhostAccesses::with(self, access);
    }
}
