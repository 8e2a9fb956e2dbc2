//! Which metadata blocks may be dirty.
ghost use Rattle.std.specs.Prelude.{◌≡◌, ◌<◌, ◌≤◌, length, drop, All, IfOk};
ghost use Rattle.pmem_base.specs.Geo.{shape_of};
ghost use Rattle.pmem_base.specs.Shape.{Shape};
ghost use Rattle.pmem_base.specs.Layout.{pages, meta_lines};
ghost use Rattle.seal_ledger.specs.Ledger.{IsMark};
ghost use Rattle.seal_ledger.specs.View.{ledger_of};
ghost use Rattle.plain_model.specs.State.{PlainState, no_flags, with_flag};
ghost use Rattle.plain_model.specs.After.{after_clean, after_mark, after_marks};
ghost use Rattle.pmem_replay.specs.Flagged.{no_dirtying, with_dirtying, HasDirtyingOf};

use crate::Flags;
use pmem_base::{Geo, Mark, MemFault};
use seal_ledger::Ledger;
use std::alloc::Global;
use std::marker::Model;

/// The pages whose blocks may be dirty, and the positions that were written back since.
#[derive(Drop)]
pub(crate) struct Dirtied {
    touched: Flags,
    flushed: Flags,
}

impl Model for Dirtied {
    ghost use Rattle.pmem_replay.specs.Flagged.{Dirtying};

    ghost Value = { Dirtying };

    ghost view = { λ d. record { touched = d.touched; flushed = d.flushed } };
}

impl Dirtied {
    /// Nothing is dirty. Errors: running out of memory.
    pub(crate) fn new(alloc: Global, geo: &Geo) -> Result<Dirtied, MemFault>
        ensures { IfOk result (λ flags. flags ≡ no_dirtying (shape_of geo.now)) }
    {
        Ok(Dirtied {
            touched: Flags::new(alloc, geo.pages())?,
            flushed: Flags::new(alloc, geo.metas())?,
        })
    }

    /// Nothing is dirty any more.
    pub(crate) fn clean(&mut self)
        ensures { (g : Shape) (state : PlainState) → HasDirtyingOf g self.old → with_dirtying state self.new ≡ after_clean g (with_dirtying state self.old) }
    {
        self.touched.clear();
        self.flushed.clear();
    }

    /// The block at `x` was written back.
    pub(crate) fn flush(&mut self, x: u32)
        requires { x < length self.old.flushed }
        ensures { self.new ≡ record (self.old) { flushed = with_flag self.old.flushed x } }
    {
        self.flushed.set(x);
    }

    /// What these marks may leave dirty.
    pub(crate) fn note_all(&mut self, geo: &Geo, marks: &[Mark])
        requires marks { All (IsMark (shape_of geo.now)) marks.now }
        requires flags { HasDirtyingOf (shape_of geo.now) self.old }
        ensures { (state : PlainState) → with_dirtying state self.new ≡ after_marks (shape_of geo.now) (with_dirtying state self.old) marks.now }
    {
        'marks: for mark in marks {
            self.note(geo, mark);
        }
    }

    /// What the ledger's marks from the `from`-th on may leave dirty.
    pub(crate) fn note_since(&mut self, geo: &Geo, ledger: &Ledger, from: usize)
        requires from { from ≤ length (ledger_of ledger.now).marks }
        requires marks { All (IsMark (shape_of geo.now)) (ledger_of ledger.now).marks }
        requires flags { HasDirtyingOf (shape_of geo.now) self.old }
        ensures { (state : PlainState) → with_dirtying state self.new ≡ after_marks (shape_of geo.now) (with_dirtying state self.old) (drop from (ledger_of ledger.now).marks) }
    {
        self.note_all(geo, &ledger.marks()[from..]);
    }

    /// What a mark may leave dirty.
    fn note(&mut self, geo: &Geo, mark: &Mark)
        requires mark { IsMark (shape_of geo.now) mark.now }
        requires flags { HasDirtyingOf (shape_of geo.now) self.old }
        ensures after { (state : PlainState) → with_dirtying state self.new ≡ after_mark (shape_of geo.now) (with_dirtying state self.old) mark.now }
        ensures flags { HasDirtyingOf (shape_of geo.now) self.new }
    {
        let _ = geo;
        match mark {
            Mark::Begin { page } => self.touch(*page),
            Mark::Seal { at, ctr, .. } => {
                if ctr.minor > 0 {
                    self.touch(*at / 64);
                }
            }
        }
    }

    /// Blocks of the page's path may be dirty, those that were written back too.
    fn touch(&mut self, page: u32)
        requires { page < length self.old.touched }
        ensures { self.new ≡ record { touched = with_flag self.old.touched page; flushed = no_flags (length self.old.flushed) } }
    {
        self.touched.set(page);
        self.flushed.clear();
    }
}
