//! Laws of whole sessions.
ghost use Rattle.pmem_base.specs.Geo.{shape_of};
ghost use Rattle.txn_session.specs.Determined.{NewTxnIsDetermined, TxnLogsAreDetermined, TxnRepliesAreDetermined};
ghost use Rattle.txn_session.specs.Guarantees.{AreTxnsKept, AreTxnsSpent};

use pmem_base::Geo;
use suite::Suite;

/// A law: in each session, whatever is asked and wherever power is cut, reads show zeros changed by whole transactions,
/// those that were answered as written and no other; recovery that isn't cut succeeds or is stuck; and `spent` and
/// `stuck` come only if a counter is exhausted.
pub fn sessions_keep_transactions<S: Suite>(geo: &Geo, suite: &S)
    ensures kept { AreTxnsKept (record { shape = shape_of geo.now; formulas = S.formulas_of (S.keys suite.now) }) }
    ensures spent { AreTxnsSpent (record { shape = shape_of geo.now; formulas = S.formulas_of (S.keys suite.now) }) }
{
    let _ = geo.lines();
    let _ = suite;
}

/// A law: unless memory runs out, a command has one reply in each state, an answer or an exhibit, and leaves one state,
/// wherever power is cut. So power is cut if and only if a step meets a fuse of 0, a cut keeps exactly what was written,
/// and which of several twins is shown is settled. A log that isn't lost has the same accesses of the device, in the same
/// order. And two new states of one setup, whose suites had the same keys and had made as many tags and digests before, are
/// the same.
pub fn txn_replies_are_determined<S: Suite>(geo: &Geo, suite: &S)
    ensures replies { TxnRepliesAreDetermined (record { shape = shape_of geo.now; formulas = S.formulas_of (S.keys suite.now) }) }
    ensures begins { NewTxnIsDetermined (record { shape = shape_of geo.now; formulas = S.formulas_of (S.keys suite.now) }) }
    ensures logs { TxnLogsAreDetermined (record { shape = shape_of geo.now; formulas = S.formulas_of (S.keys suite.now) }) }
{
    let _ = geo.lines();
    let _ = suite;
}
