//! One bank of the cache.
ghost use Rattle.std.specs.Prelude.{◌≡◌, ◌<◌, ◌≤◌, List, [], Option, IfOk, IsTrue, length, replicate, slice_set, slice_index_or};
ghost use Rattle.meta_cache.specs.declared.slot.Slot.{Slot};
ghost use Rattle.meta_cache.specs.Sets.{holds, touched, with_slot_line, with_mark, placed, ArePositionsApart};
ghost use Rattle.meta_cache.specs.State.{oldest_dirty_of};

use crate::set::Set;
use pmem_base::{Line, MemFault};
use std::alloc::Global;
use std::marker::Model;

/// The sets of one bank.
#[derive(Drop)]
pub(crate) struct Bank {
    sets: Vec<Set>,
}

impl Model for Bank {
    ghost Value = { List (List Slot) };

    ghost view = { λ bank. bank.sets.items };
}

impl Bank {
    /// So many empty sets.
    pub(crate) fn new(alloc: Global, count: u8) -> Result<Bank, MemFault>
        ensures { IfOk result (λ bank. bank ≡ replicate count []) }
    {
        let mut sets = Vec::with_capacity(alloc, usize::from(count))?;
        'sets: for _i in 0..count {
            sets.push(Set::new()).map_err(|_| MemFault)?;
        }
        Ok(Bank { sets })
    }

    /// A set.
    pub(crate) fn set(&self, n: usize) -> &Set
        requires { n < length self.now }
        ensures { result.now ≡ slice_index_or self.now n [] }
    {
        &self.sets[n]
    }

    /// Position `x` comes first in a set.
    pub(crate) fn touch(&mut self, n: usize, x: u32)
        requires within { n < length self.old }
        requires room { length (slice_index_or self.old n []) ≤ 8 }
        requires holds { IsTrue (holds (slice_index_or self.old n []) x) }
        requires apart { ArePositionsApart (slice_index_or self.old n []) }
        ensures { self.new ≡ slice_set self.old n (touched (slice_index_or self.old n []) x) }
    {
        let set = &mut self.sets[n];
        set.touch(x);
    }

    /// The slot of position `x` of a set gets this line.
    pub(crate) fn store(&mut self, n: usize, x: u32, line: &Line)
        requires within { n < length self.old }
        requires holds { IsTrue (holds (slice_index_or self.old n []) x) }
        requires apart { ArePositionsApart (slice_index_or self.old n []) }
        ensures { self.new ≡ slice_set self.old n (with_slot_line (slice_index_or self.old n []) x line.now) }
    {
        let set = &mut self.sets[n];
        set.store(x, line);
    }

    /// The slot of position `x` of a set gets this mark.
    pub(crate) fn mark(&mut self, n: usize, x: u32, dirty: bool)
        requires within { n < length self.old }
        requires holds { IsTrue (holds (slice_index_or self.old n []) x) }
        requires apart { ArePositionsApart (slice_index_or self.old n []) }
        ensures { self.new ≡ slice_set self.old n (with_mark (slice_index_or self.old n []) x dirty) }
    {
        let set = &mut self.sets[n];
        set.mark(x, dirty);
    }

    /// Puts position `x` first in a set, clean, into the lowest free way or instead of the victim.
    pub(crate) fn place(&mut self, n: usize, ways: u8, x: u32, line: &Line)
        requires within { n < length self.old }
        requires least { 1 ≤ ways }
        requires most { ways ≤ 8 }
        requires room { length (slice_index_or self.old n []) ≤ ways }
        ensures { self.new ≡ slice_set self.old n (placed ways (slice_index_or self.old n []) x line.now) }
    {
        let set = &mut self.sets[n];
        set.place(ways, x, line);
    }

    /// The oldest dirty position: that of the lowest set that has one.
    pub(crate) fn oldest_dirty(&self) -> Option<u32>
        ensures { result ≡ oldest_dirty_of self.now }
    {
        'sets: for set in &self.sets {
            let found = set.oldest_dirty();
            if found.is_some() {
                return found;
            }
        }
        None
    }
}
