//! The session: a device, its store while power is on, the suite and the marks.
ghost use Rattle.std.specs.Prelude.{◌≡◌, option_map, IfOk, IfErr, if◌then◌else◌};
ghost use Rattle.pmem_base.specs.Geo.{shape_of};
ghost use Rattle.call_effects.specs.SuiteStates.{setup_with};
ghost use Rattle.line_session.specs.New.{IsNewStore, IsNewFault, HoldsZeros};
ghost use Rattle.line_session.specs.State.{setup_in, with_fuse};
ghost use Rattle.line_session.specs.World.{IsLineWorld, session_off};

use crate::blank::{format, open};
use crate::calls::LineStore;
use crate::starts::StoreOpening;
use board::MemBoard;
use pmem_base::{Geo, MemFault};
use seal_ledger::{Audit, Ledger};
use std::alloc::Global;
use std::marker::Model;
use suite::{Counted, Suite};

/// A device, its store of lines while power is on, the suite and the marks.
#[derive(Drop)]
pub struct LineSession<S: Suite + Drop, L: LineStore> {
    pub(crate) geo: Geo,
    pub(crate) suite: S,
    pub(crate) board: MemBoard,
    pub(crate) ledger: Ledger,
    pub(crate) store: Option<L>,
}

impl<S: Suite + Drop, L: LineStore> Model for LineSession<S, L> {
    ghost use Rattle.pmem_base.specs.Geo.{shape_of};
    ghost use Rattle.board.specs.MemBoard.{memory_of};
    ghost use Rattle.seal_ledger.specs.View.{ledger_of};
    ghost use Rattle.line_session.specs.World.{StoreSession, session_of, IsLineWorld};

    ghost Value = { StoreSession L };

    ghost view = { λ s. session_of L.engine (shape_of s.geo) (S.keys s.suite) (S.tags s.suite) (S.digests s.suite)
        (memory_of s.board) (ledger_of s.ledger) s.store };

    ghost invariant = { λ s. IsLineWorld L.engine (record { shape = shape_of s.geo; formulas = S.formulas_of (S.keys s.suite) })
        (session_of L.engine (shape_of s.geo) (S.keys s.suite) (S.tags s.suite) (S.digests s.suite)
        (memory_of s.board) (ledger_of s.ledger) s.store) };
}

/// Why there is no new session.
#[derive(Clone, Copy)]
pub enum NewFault<F> {
    /// Memory ran out.
    Memory,
    /// The store wasn't opened.
    Opening(F),
}

impl<S: Suite + Drop, L: LineStore> LineSession<S, L> {
    /// A formatted device with power on, and its store. Errors: `Memory` if memory runs out; `Opening(fault)` if the
    /// store wasn't opened.
    pub fn new<O: StoreOpening<Store = L>>(
        alloc: Global,
        geo: Geo,
        suite: S,
        opening: &O,
    ) -> Result<LineSession<S, L>, NewFault<O::Fault>>
        requires can { O.can opening.now }
        requires zeros { HoldsZeros (O.holds opening.now) (setup_with S.Suite geo suite) }
        ensures new { IfOk result (λ session. IsNewStore O.store (O.relation opening.now) L.engine (setup_with S.Suite geo suite)
            (S.tags suite) (S.digests suite) session) }
        ensures fault { IfErr result (λ fault. IsNewFault (O.relation opening.now) (setup_with S.Suite geo suite) (S.tags suite) (S.digests suite) fault) }
        ensures keys { IfOk result (λ session. session.state.keys ≡ S.keys suite) }
        ensures shape { IfOk result (λ session. session.state.shape ≡ shape_of geo) }
    {
        geo.layout_is_one_to_one();
        let mut suite = suite;
        let Ok(mut board) = MemBoard::new(alloc, geo.size()) else {
            return Err(NewFault::Memory);
        };
        let Ok(mut ledger) = Ledger::new(alloc, &geo) else {
            return Err(NewFault::Memory);
        };
        let Ok(engine) = format(alloc, &geo, &mut board, &mut suite, &mut ledger) else {
            return Err(NewFault::Memory);
        };
        if let Err(MemFault) = ledger.reserve(opening.room()) {
            return Err(NewFault::Memory);
        }
        match open(opening, engine, &mut board, &mut suite, &mut ledger) {
            Err(fault) => Err(NewFault::Opening(fault)),
            Ok(opened) => {
                let (store, _) = O::split(opened);
                Ok(LineSession {
                    geo,
                    suite,
                    board,
                    ledger,
                    store: Some(store),
                })
            }
        }
    }

    /// Power is to be cut after `n` more persist steps.
    pub fn cut(&mut self, n: u64)
        ensures { self.new ≡ record self.old { state = with_fuse self.old.state n } }
    {
        self.board.arm(n);
    }

    /// Power goes off, and the store is dropped. Whether it was on.
    pub fn off(&mut self) -> bool
        ensures was { result ≡ self.old.state.board.powered }
        ensures left { self.new ≡ (if self.old.state.board.powered then session_off self.old else self.old) }
    {
        let on = self.store.is_some();
        if on {
            self.board.off();
            self.store = None;
        }
        on
    }

    /// The store, while power is on.
    pub fn store(&self) -> Option<&L>
        ensures store { option_map (λ store. store.now) result ≡ self.now.store }
        ensures world { IsLineWorld L.engine (setup_in S.formulas_of self.now.state) self.now }
    {
        self.store.as_ref()
    }
}

impl<S: Counted + Drop, L: LineStore> LineSession<S, L> {
    /// How many tags and digests were made.
    pub fn work(&self) -> (u64, u64)
        ensures { result ≡ (self.now.state.tags, self.now.state.digests) }
    {
        let (_, tags, digests) = self.suite.counts();
        (tags, digests)
    }
}
