//! The calls of a store of transactions that a session makes, and its opening.
ghost use Rattle.std.specs.Prelude.{◌≡◌, Some, None, ⊤};
ghost use Rattle.line_txn.specs.Header.{AreDistinctBelow};
ghost use Rattle.line_txn.specs.Logged.{targets_of};
ghost use Rattle.line_txn.specs.Promised.{IsStoreOpening};
ghost use Rattle.line_session.specs.Kept.{is_call_cut};
ghost use Rattle.txn_session.specs.StoreCalls.{HasReadAt, HasCommitted, is_commit_cut, HoldsLogged, txn_store};

use arrayvec::ArrayVec;
use board::Board;
use line_session::{LineStore, StoreCall, StoreOpening};
use line_txn::{CommitFault, Committed, Opened, Store, TxnFault};
use pmem_base::Line;
use pmem_engine::{Engine, Fault};
use seal_ledger::Ledger;
use suite::Suite;

/// The most marks of a commit: thirty-two writes of an engine.
const COMMIT_MARKS: u32 = 2112;

/// The most marks of an opening: sixteen writes of an engine.
const OPENING_MARKS: u32 = 1056;

/// Lines that are written by transactions, as the store of a session.
#[derive(Drop)]
pub(crate) struct TxnStore {
    pub(crate) inner: Store,
}

impl LineStore for TxnStore {
    ghost engine = { λ store. store.inner.engine };

    ghost lines = { λ store. store.inner.lines };

    fn lines(&self) -> u32 {
        self.inner.lines()
    }
}

/// A data line is read.
#[derive(Drop)]
pub(crate) struct ReadLine {
    pub(crate) at: u64,
}

impl StoreCall for ReadLine {
    type Store = TxnStore;

    type Value = Line;

    type Fault = Fault;

    ghost asked = { λ call. Some call.at };

    ghost own = { λ call store. call.at };

    ghost room = { λ call. 0 };

    ghost can = { λ call store. ⊤ };

    ghost is_cut = { is_call_cut };

    ghost relation = { λ call setup old new from to answer. HasReadAt setup call.at old.inner new.inner from to answer };

    fn asked(&self) -> Option<u64> {
        Some(self.at)
    }

    fn own(&self, _store: &TxnStore) -> u32 {
        self.at as u32
    }

    fn room(&self) -> u32 {
        0
    }

    fn is_cut(answer: &Result<Line, Fault>) -> bool {
        matches!(answer, Err(Fault::Cut))
    }

    fn make<B: Board, S: Suite>(
        &self,
        store: &mut TxnStore,
        board: &mut B,
        suite: &mut S,
        ledger: &mut Ledger,
    ) -> Result<Line, Fault> {
        store.inner.read(board, suite, ledger, self.at as u32)
    }
}

/// A transaction is committed.
#[derive(Drop)]
pub(crate) struct CommitTxn<'a> {
    pub(crate) txn: &'a ArrayVec<(u32, Line), 15>,
}

impl<'a> StoreCall for CommitTxn<'a> {
    type Store = TxnStore;

    type Value = Committed;

    type Fault = CommitFault;

    ghost asked = { λ call. None };

    ghost own = { λ call store. store.inner.lines };

    ghost room = { λ call. 2112 };

    ghost can = { λ call store. AreDistinctBelow store.inner.lines (targets_of call.txn.now.items) × (store.inner.stuck ≡ None) };

    ghost is_cut = { is_commit_cut };

    ghost relation = { λ call setup old new from to answer. HasCommitted setup call.txn.now.items old.inner new.inner from to answer };

    fn asked(&self) -> Option<u64> {
        None
    }

    fn own(&self, store: &TxnStore) -> u32 {
        store.lines()
    }

    fn room(&self) -> u32 {
        COMMIT_MARKS
    }

    fn is_cut(answer: &Result<Committed, CommitFault>) -> bool
        ensures { result ≡ is_commit_cut answer.now }
    {
        matches!(
            answer,
            Err(CommitFault {
                fault: Fault::Cut,
                ..
            })
        )
    }

    fn make<B: Board, S: Suite>(
        &self,
        store: &mut TxnStore,
        board: &mut B,
        suite: &mut S,
        ledger: &mut Ledger,
    ) -> Result<Committed, CommitFault> {
        store.inner.commit(board, suite, ledger, self.txn)
    }
}

/// A store is opened, and the transaction in force redone.
#[derive(Drop)]
pub(crate) struct OpenStore;

impl StoreOpening for OpenStore {
    type Store = TxnStore;

    type Told = Opened;

    type Opened = (Store, Opened);

    type Fault = TxnFault;

    ghost store = { λ opened. txn_store opened.0 };

    ghost told = { λ opened. opened.1 };

    ghost room = { λ opening. 1056 };

    ghost can = { λ opening. ⊤ };

    ghost holds = { λ opening setup marks. HoldsLogged setup marks };

    ghost relation = { λ opening setup engine old now answer. IsStoreOpening setup engine old now answer };

    fn room(&self) -> u32 {
        OPENING_MARKS
    }

    fn split(opened: (Store, Opened)) -> (TxnStore, Opened) {
        let (inner, told) = opened;
        (TxnStore { inner }, told)
    }

    fn open<B: Board, S: Suite>(
        &self,
        engine: Engine,
        board: &mut B,
        suite: &mut S,
        ledger: &mut Ledger,
    ) -> Result<(Store, Opened), TxnFault> {
        Store::open(engine, board, suite, ledger)
    }
}
