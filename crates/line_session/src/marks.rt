//! Marks of one call.
ghost use Rattle.std.specs.Prelude.{◌≡◌, ◌≤◌, ◌&&◌, length, drop};
ghost use Rattle.std.specs.List.{list_any};
ghost use Rattle.seal_ledger.specs.View.{ledger_of};
ghost use Rattle.engine_lines.specs.Writes.{is_own_seal};

use pmem_base::Mark;
use seal_ledger::{Audit, Ledger};

/// Whether one of these marks is a write's own seal of line `at`: a line that is only resealed gets the minor 0.
fn has_own_seal(marks: &[Mark], at: u32) -> bool
    ensures { result ≡ list_any (is_own_seal at) marks.now }
{
    for mark in marks {
        if let Mark::Seal { at: line, ctr, .. } = mark {
            if *line == at && ctr.minor > 0 {
                return true;
            }
        }
    }
    false
}

/// Whether power was cut, and a write's own seal of line `at` is among the marks from `from` on.
pub(crate) fn is_kept(ledger: &Ledger, from: usize, at: u32, cut: bool) -> bool
    requires { from ≤ length (ledger_of ledger.now).marks }
    ensures { result ≡ (cut && list_any (is_own_seal at) (drop from (ledger_of ledger.now).marks)) }
{
    cut && has_own_seal(&ledger.marks()[from..], at)
}
