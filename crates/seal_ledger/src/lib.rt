//! The audit: the marks of a run, the true metadata lines, and the first exhibit.
#![tactic(auto)]

ghost use Rattle.std.specs.Prelude.{ℕ, ◌≡◌, ◌<◌, ◌≤◌, All, length, IsSome, OnOk, OnErr};
ghost use Rattle.pmem_base.specs.declared.answers.Mark.TheVariants.{Begin, Seal};
ghost use Rattle.pmem_base.specs.Lines.{IsLine};
ghost use Rattle.pmem_base.specs.Marks.{last_seal};
ghost use Rattle.seal_ledger.specs.Ledger.{LedgerState, IsSealValue};
ghost use Rattle.seal_ledger.specs.Notes.{HasRoom, HasMark, HasSameSeals, HasLastSeal, HasMeta, IsFetchNoted, IsUnsealNoted};

mod ledger;

pub use ledger::Ledger;
use pmem_base::{Ctr, Line, MemFault, Tag};

/// Whether the engine may go on.
#[derive(Clone, Copy, Debug, PartialEq, Eq)]
pub enum Go {
    On,
    Stop,
}

/// What an engine reports of its work. No call reads anything back, so an engine can't take its answers from it. No
/// call changes the number of true lines or of data lines.
pub trait Audit {
    /// The marks in order, the true metadata lines, the number of data lines, and the first exhibit.
    ghost ledger: { Self → LedgerState };

    /// How many marks there is room for in all, the present ones with them.
    ghost capacity: { Self → ℕ };

    /// Makes room for `n` more marks, and changes nothing else. Errors: running out of memory, and then nothing
    /// changes.
    fn reserve(&mut self, n: u32) -> Result<(), MemFault>
        ensures ledger { ledger self.new ≡ ledger self.old }
        ensures ok { OnOk result (HasRoom (ledger self.new) (capacity self.new) n) }
        ensures never_falls { capacity self.old ≤ capacity self.new }
        ensures err { OnErr result (capacity self.new ≡ capacity self.old) }
        ensures wanting { OnErr result (HasRoom (ledger self.old) (capacity self.old) n → ⊥) };

    /// Appends the begin of a page's re-encryption to the marks.
    fn note_begin(&mut self, page: u32)
        requires { HasRoom (ledger self.old) (capacity self.old) 1 }
        ensures capacity { capacity self.new ≡ capacity self.old }
        ensures mark { HasMark (ledger self.old) (ledger self.new) (Begin page) }
        ensures seals { HasSameSeals (ledger self.old) (ledger self.new) };

    /// Appends the seal of data line `at` to the marks.
    fn note_seal(&mut self, at: u32, ctr: Ctr, cipher: &Line, tag: &Tag)
        requires line { at < (ledger self.old).data_lines }
        requires room { HasRoom (ledger self.old) (capacity self.old) 1 }
        ensures capacity { capacity self.new ≡ capacity self.old }
        ensures mark { HasMark (ledger self.old) (ledger self.new) (Seal at ctr cipher.now tag.now) }
        ensures seal { HasLastSeal (ledger self.old) (ledger self.new) at
            (record { ctr = ctr; cipher = cipher.now; tag = tag.now }) }
        ensures fits { IsSealValue ctr cipher.now tag.now };

    /// Replaces the true metadata line at `x`.
    fn note_meta(&mut self, x: u32, line: &Line)
        requires { x < length (ledger self.old).truth }
        ensures line { HasMeta (ledger self.old) (ledger self.new) x line.now }
        ensures capacity { capacity self.new ≡ capacity self.old }
        ensures fits { IsLine line.now };

    /// Stops if a fetched line, whose digest is right, isn't the true line at `x`. The exhibit is the clash of the two.
    fn note_fetch(&mut self, x: u32, line: &Line) -> Go
        requires { x < length (ledger self.old).truth }
        ensures line { IsFetchNoted (ledger self.old) (ledger self.new) x line.now result }
        ensures capacity { capacity self.new ≡ capacity self.old }
        ensures fits { IsLine line.now };

    /// Stops if a cipher, whose tag is right, isn't that of the last seal of data line `at`. The exhibit is the forged
    /// seal.
    fn note_unseal(&mut self, at: u32, ctr: Ctr, cipher: &Line, tag: &Tag) -> Go
        requires line { at < (ledger self.old).data_lines }
        requires sealed { IsSome (last_seal (ledger self.old).marks at) }
        ensures cipher { IsUnsealNoted (ledger self.old) (ledger self.new) at ctr cipher.now tag.now result }
        ensures capacity { capacity self.new ≡ capacity self.old }
        ensures fits { IsSealValue ctr cipher.now tag.now };

    /// A law: each true line has 64 bytes.
    ghost whole: { (audit : Self) → All IsLine (ledger audit).truth };
}
