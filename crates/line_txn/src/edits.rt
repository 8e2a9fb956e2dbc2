//! The changes of data lines that a commit and a redo are made of.
ghost use Rattle.std.specs.Prelude.{◌≡◌, ◌≤◌, ◌+◌, ◌^◌, length};
ghost use Rattle.line_txn.specs.Logged.{targets_of};
ghost use Rattle.line_txn.specs.Edits.{IsWholeTxn, deciding_edits, applying_edits, redoing_edits};

use crate::header::header_line;
use arrayvec::ArrayVec;
use engine_lines::Edit;
use pmem_base::Line;

/// What decides a transaction: its bodies, and then its header.
pub(crate) fn deciding(n: u32, txn: &[(u32, Line)]) -> ArrayVec<Edit, 16>
    requires few { n ≤ 2 ^ 30 }
    requires long { length txn.now ≤ 15 }
    ensures edits { result.items ≡ deciding_edits n txn.now }
    ensures whole { IsWholeTxn txn.now }
{
    let mut edits = ArrayVec::new();
    'entries: for (i, (_target, body)) in txn.iter().enumerate() {
        body.is_whole();
        edits.push(Edit::Put {
            at: n + 1 + i as u32,
            line: *body,
        });
    }
    let line = header_line(&targets_in(txn));
    edits.push(Edit::Put { at: n, line });
    edits
}

// The targets of a transaction, in its order.
pub(crate) fn targets_in(txn: &[(u32, Line)]) -> ArrayVec<u32, 15>
    requires { length txn.now ≤ 15 }
    ensures { result.items ≡ targets_of txn.now }
{
    let mut targets = ArrayVec::new();
    'entries: for (target, _body) in txn {
        targets.push(*target);
    }
    targets
}

/// What follows: its targets, and then the zero header.
pub(crate) fn applying(n: u32, txn: &[(u32, Line)]) -> ArrayVec<Edit, 16>
    requires long { length txn.now ≤ 15 }
    ensures { result.items ≡ applying_edits n txn.now }
{
    let mut edits = ArrayVec::new();
    'entries: for (target, body) in txn {
        edits.push(Edit::Put {
            at: *target,
            line: *body,
        });
    }
    let line = Line::default();
    edits.push(Edit::Put { at: n, line });
    edits
}

/// What redoes a transaction with these targets: each body is copied to its target, and then comes the zero
/// header. Without targets nothing is done.
pub(crate) fn redoing(n: u32, targets: &[u32]) -> ArrayVec<Edit, 16>
    requires few { n ≤ 2 ^ 30 }
    requires long { length targets.now ≤ 15 }
    ensures { result.items ≡ redoing_edits n targets.now }
{
    let mut edits = ArrayVec::new();
    if targets.is_empty() {
        return edits;
    }
    'targets: for (i, target) in targets.iter().enumerate() {
        edits.push(Edit::Copy {
            from: n + 1 + i as u32,
            at: *target,
        });
    }
    let line = Line::default();
    edits.push(Edit::Put { at: n, line });
    edits
}
