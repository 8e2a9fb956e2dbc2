//! Laws of whole sessions.
ghost use Rattle.pmem_base.specs.Geo.{shape_of};
ghost use Rattle.tree_session.specs.Determined.{NewTreeIsDetermined, TreeLogsAreDetermined, TreeRepliesAreDetermined};
ghost use Rattle.tree_session.specs.Guarantees.{IsTreeKept, IsTreeShown, IsTreeUntouched};

use pmem_base::Geo;
use suite::Suite;

/// A law: two replies to one command in one state, answers or exhibits, are the same, with the same state after them.
/// So a session's relation leaves nothing open except when memory runs out. A log that isn't lost has the same accesses
/// of the device, in the same order. And two new states of one setup, whose suites had the same keys and had made as
/// many pads, tags and digests before, are the same.
pub fn tree_replies_are_determined()
    ensures replies { TreeRepliesAreDetermined }
    ensures begins { NewTreeIsDetermined }
    ensures logs { TreeLogsAreDetermined }
{}

/// A law: in each session, whatever is asked and changed and wherever power is cut, reads show what was written last,
/// each answer and each exhibit is one that the commands and answers before it allow, exhibits hold, and without
/// tampering nothing is refused and nothing is shown.
pub fn sessions_keep_lines<S: Suite>(geo: &Geo, suite: &S)
    ensures kept { IsTreeKept (record { shape = shape_of geo.now; formulas = S.formulas_of (S.keys suite.now) }) }
    ensures shown { IsTreeShown (record { shape = shape_of geo.now; formulas = S.formulas_of (S.keys suite.now) }) }
    ensures untouched { IsTreeUntouched (record { shape = shape_of geo.now; formulas = S.formulas_of (S.keys suite.now) }) }
{
    let _ = geo.lines();
    let _ = suite;
}
