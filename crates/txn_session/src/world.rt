//! A device whose lines are written by transactions, and what a session keeps of it.
ghost use Rattle.std.specs.Prelude.{◌≡◌, IfOk};
ghost use Rattle.pmem_base.specs.Geo.{shape_of};
ghost use Rattle.line_session.specs.New.{IsNewByPlan};
ghost use Rattle.txn_session.specs.Planned.{open_call};
ghost use Rattle.txn_session.specs.State.{IsNewTxn};

use crate::calls::{OpenStore, TxnStore};
use arrayvec::ArrayVec;
use line_session::{LineSession, NewFault};
use pmem_base::{Geo, Line, MemFault};
use std::alloc::Global;
use std::marker::Model;
use suite::Suite;

/// A session over a store of transactions, and the transaction that is open, while power is on.
#[derive(Drop)]
pub struct TxnWorld<S: Suite + Drop> {
    pub(crate) session: LineSession<S, TxnStore>,
    pub(crate) txn: Option<ArrayVec<(u32, Line), 15>>,
}

impl<S: Suite + Drop> Model for TxnWorld<S> {
    ghost use Rattle.std.specs.Prelude.{option_map};
    ghost use Rattle.line_session.specs.State.{setup_in};
    ghost use Rattle.txn_session.specs.State.{TxnState};
    ghost use Rattle.txn_session.specs.World.{txn_of, IsTxnWorld};

    ghost Value = { TxnState };

    ghost view = { λ w. txn_of (setup_in S.formulas_of w.session.state) w.session (option_map (λ txn. txn.items) w.txn) };

    ghost invariant = { λ w. IsTxnWorld (setup_in S.formulas_of w.session.state) w.session (option_map (λ txn. txn.items) w.txn) };
}

impl<S: Suite + Drop> TxnWorld<S> {
    /// A formatted device with power on and its lines opened: all are zeros, and no transaction is in force or open.
    /// Formatting and the opening follow their plans. Errors: running out of memory.
    pub fn new(alloc: Global, geo: Geo, suite: S) -> Result<TxnWorld<S>, MemFault>
        ensures new { IfOk result (λ world. IsNewTxn (record { shape = shape_of geo; formulas = S.formulas_of (S.keys suite) }) world) }
        ensures opened { IfOk result (λ world. IsNewByPlan (record { shape = shape_of geo; formulas = S.formulas_of (S.keys suite) })
            (open_call (record { shape = shape_of geo; formulas = S.formulas_of (S.keys suite) })) (S.tags suite) (S.digests suite) world.session) }
        ensures keys { IfOk result (λ world. world.session.keys ≡ S.keys suite) }
    {
        match LineSession::new(alloc, geo, suite, &OpenStore) {
            Ok(session) => Ok(TxnWorld { session, txn: None }),
            Err(NewFault::Memory) => Err(MemFault),
            // The header of zero lines is one.
            Err(NewFault::Opening(_fault)) => unreachable!(),
        }
    }
}
