//! The cache of all levels.
ghost use Rattle.std.specs.Prelude.{◌≡◌, ◌+◌, ◌<◌, ◌≤◌, ◌↔◌, ◌-◌, ℕ, true, false, Option, [], List, IfOk, IfSome, IsTrue, IsNone, IsSome, is_some, length, replicate, option_map};
ghost use Rattle.std.specs.Option.{option_copied};
ghost use Rattle.pmem_base.specs.Shape.{Shape};
ghost use Rattle.pmem_base.specs.Geo.{shape_of};
ghost use Rattle.pmem_base.specs.Layout.{slots};
ghost use Rattle.pmem_base.specs.Lines.{IsLine};
ghost use Rattle.meta_cache.specs.Banks.{Slot, Banks, set_of, set_index, slot_number, is_cached, is_cached_dirty, IsBanksOf};
ghost use Rattle.meta_cache.specs.Sets.{slot_with, touched, with_slot_line, with_mark, victim_of, HasContents, placed};
ghost use Rattle.meta_cache.specs.State.{CacheState, bank_of, empty_banks, slots_of, IsCacheOf, ChangesSet, oldest_dirty_of, dirty_in_bank, oldest_dirty};

use crate::bank::Bank;
use pmem_base::{Geo, Line, MemFault};
use std::alloc::Global;
use std::marker::Model;

/// A cache of metadata lines: a bank for each level of positions, each of `sets` sets of `ways`
/// slots. Position x belongs to set x mod `sets`. A contract sees the geometry's shape and the banks
/// as lists of sets of slots, the most recently used first.
#[derive(Drop)]
pub struct Cache {
    geo: Geo,
    banks: Vec<Bank>,
}

impl Model for Cache {
    ghost Value = { CacheState };

    ghost view = { λ cache. record { shape = shape_of cache.geo; banks = cache.banks.items } };

    ghost invariant = { λ cache. IsCacheOf (shape_of cache.geo) cache.banks.items };
}

impl Cache {
    /// An empty cache, which takes all the memory that it needs. Errors: running out of memory.
    pub fn new(alloc: Global, geo: &Geo) -> Result<Cache, MemFault>
        ensures { IfOk result (λ cache. cache
            ≡ record { shape = shape_of geo.now; banks = empty_banks (shape_of geo.now) }) }
    {
        let mut banks = Vec::with_capacity(alloc, usize::from(geo.levels()) + 1)?;
        'banks: for _i in 0..geo.levels() + 1 {
            banks
                .push(Bank::new(alloc, geo.sets())?)
                .map_err(|_| MemFault)?;
        }
        Ok(Cache { geo: *geo, banks })
    }

    /// A law: the slots stand in the banks, sets and ways that there are, those of a set differ in
    /// their ways and positions, and each has a position of its set and a line.
    pub fn are_banks(&self)
        ensures cache { IsCacheOf self.now.shape self.now.banks }
        ensures banks { IsBanksOf self.now.shape self.now.banks }
    {
        let _ = &self.banks;
    }

    /// The line of position `x`, if it is cached.
    pub fn look(&self, bank: u8, x: u32) -> Option<&Line>
        requires { bank ≤ self.now.shape.levels }
        ensures value { option_copied result
            ≡ option_map (λ slot. slot.line) (slot_with (slots_of self.now bank x) x) }
        ensures cached { is_some result ≡ is_cached self.now.shape self.now.banks bank x }
    {
        let n = self.set_of(x);
        let bank = &self.banks[usize::from(bank)];
        bank.set(n).look(x)
    }

    /// Position `x`, which is cached, comes first in its set.
    pub fn touch(&mut self, bank: u8, x: u32)
        requires bank { bank ≤ self.old.shape.levels }
        requires cached { IsTrue (is_cached self.old.shape self.old.banks bank x) }
        ensures { ChangesSet self.old self.new bank (set_index self.old.shape x)
            (touched (slots_of self.old bank x) x) }
    {
        let n = self.set_of(x);
        let bank = &mut self.banks[usize::from(bank)];
        bank.touch(n, x);
    }

    /// The number of the slot of position `x`, which is cached: set * ways + way.
    pub fn slot_of(&self, bank: u8, x: u32) -> u32
        requires bank { bank ≤ self.now.shape.levels }
        requires cached { IsTrue (is_cached self.now.shape self.now.banks bank x) }
        ensures value { option_map (λ slot. slot_number self.now.shape (set_index self.now.shape x) slot)
            (slot_with (slots_of self.now bank x) x) ≡ Some result }
        ensures within { result < slots self.now.shape }
    {
        self.are_banks();
        let way = self.way_of(bank, x);
        let n = self.set_of(x);
        n as u32 * u32::from(self.geo.ways()) + u32::from(way)
    }

    /// The way of position `x`.
    fn way_of(&self, bank: u8, x: u32) -> u8
        requires bank { bank ≤ self.now.shape.levels }
        requires cached { IsTrue (is_cached self.now.shape self.now.banks bank x) }
        ensures { option_map (λ slot. slot.way) (slot_with (slots_of self.now bank x) x) ≡ Some result }
    {
        let n = self.set_of(x);
        let bank = &self.banks[usize::from(bank)];
        bank.set(n).way_of(x)
    }

    /// The position that is evicted for `x`, the least recently used one of its set, with its line and whether it is
    /// dirty. `None` if the set has a free way.
    pub fn victim(&self, bank: u8, x: u32) -> Option<(u32, &Line, bool)>
        requires { bank ≤ self.now.shape.levels }
        ensures some { IsSome result ↔ IsSome (victim_of self.now.shape.ways (slots_of self.now bank x)) }
        ensures value { IfSome result (λ victim. IfSome (victim_of self.now.shape.ways (slots_of self.now bank x))
            (HasContents victim.0 victim.1.now victim.2)) }
    {
        let n = self.set_of(x);
        let ways = self.geo.ways();
        let bank = &self.banks[usize::from(bank)];
        bank.set(n).victim(ways)
    }

    /// Puts position `x`, which isn't cached, first in its set, clean and with this line: into the lowest free way, or
    /// instead of the victim, which is clean.
    pub fn place(&mut self, bank: u8, x: u32, line: &Line)
        requires bank { bank ≤ self.old.shape.levels }
        requires absent { is_cached self.old.shape self.old.banks bank x ≡ false }
        requires clean { IfSome (victim_of self.old.shape.ways (slots_of self.old bank x)) (λ slot. slot.dirty ≡ false) }
        ensures { ChangesSet self.old self.new bank (set_index self.old.shape x)
            (placed self.old.shape.ways (slots_of self.old bank x) x line.now) }
    {
        let n = self.set_of(x);
        let ways = self.geo.ways();
        line.is_whole();
        let bank = &mut self.banks[usize::from(bank)];
        bank.place(n, ways, x, line);
    }

    /// The slot of position `x`, which is cached, gets this line.
    pub fn store(&mut self, bank: u8, x: u32, line: &Line)
        requires bank { bank ≤ self.old.shape.levels }
        requires cached { IsTrue (is_cached self.old.shape self.old.banks bank x) }
        ensures { ChangesSet self.old self.new bank (set_index self.old.shape x)
            (with_slot_line (slots_of self.old bank x) x line.now) }
    {
        let n = self.set_of(x);
        line.is_whole();
        let bank = &mut self.banks[usize::from(bank)];
        bank.store(n, x, line);
    }

    /// Position `x`, which is cached, is marked dirty.
    pub fn set_dirty(&mut self, bank: u8, x: u32)
        requires bank { bank ≤ self.old.shape.levels }
        requires cached { IsTrue (is_cached self.old.shape self.old.banks bank x) }
        ensures { ChangesSet self.old self.new bank (set_index self.old.shape x)
            (with_mark (slots_of self.old bank x) x true) }
    {
        self.mark(bank, x, true);
    }

    /// Position `x`, which is cached, is marked clean.
    pub fn set_clean(&mut self, bank: u8, x: u32)
        requires bank { bank ≤ self.old.shape.levels }
        requires cached { IsTrue (is_cached self.old.shape self.old.banks bank x) }
        ensures { ChangesSet self.old self.new bank (set_index self.old.shape x)
            (with_mark (slots_of self.old bank x) x false) }
    {
        self.mark(bank, x, false);
    }

    /// The slot of position `x` gets this mark.
    fn mark(&mut self, bank: u8, x: u32, dirty: bool)
        requires bank { bank ≤ self.old.shape.levels }
        requires cached { IsTrue (is_cached self.old.shape self.old.banks bank x) }
        ensures { ChangesSet self.old self.new bank (set_index self.old.shape x)
            (with_mark (slots_of self.old bank x) x dirty) }
    {
        let n = self.set_of(x);
        let bank = &mut self.banks[usize::from(bank)];
        bank.mark(n, x, dirty);
    }

    /// The oldest dirty position of a bank: in the lowest set that has one, the least recently used.
    pub fn oldest_dirty_of(&self, bank: u8) -> Option<u32>
        requires { bank ≤ self.now.shape.levels }
        ensures value { result ≡ oldest_dirty_of (bank_of self.now.banks bank) }
        ensures dirty { IfSome result (λ x. IsTrue (is_cached_dirty self.now.shape self.now.banks bank x)) }
        ensures clean { IsNone result → (x : ℕ) → is_cached_dirty self.now.shape self.now.banks bank x ≡ false }
    {
        self.are_banks();
        self.first_dirty_of(bank)
    }

    /// The oldest dirty position of a bank.
    fn first_dirty_of(&self, bank: u8) -> Option<u32>
        requires { bank ≤ self.now.shape.levels }
        ensures { result ≡ oldest_dirty_of (bank_of self.now.banks bank) }
    {
        let bank = &self.banks[usize::from(bank)];
        bank.oldest_dirty()
    }

    /// The oldest dirty position, that of the lowest bank that has one, and its bank.
    pub fn oldest_dirty(&self) -> Option<(u8, u32)>
        ensures value { result ≡ oldest_dirty self.now.banks }
        ensures dirty { IfSome result (λ found. (found.0 ≤ self.now.shape.levels)
            × IsTrue (is_cached_dirty self.now.shape self.now.banks found.0 found.1)) }
        ensures clean { IsNone result
            → (bank x : ℕ) → is_cached_dirty self.now.shape self.now.banks bank x ≡ false }
    {
        self.are_banks();
        self.first_dirty()
    }

    /// The oldest dirty position, and its bank.
    fn first_dirty(&self) -> Option<(u8, u32)>
        ensures { result ≡ oldest_dirty self.now.banks }
    {
        'banks: for bank in 0..self.geo.levels() + 1 {
            let found = self.dirty_in(bank);
            if found.is_some() {
                return found;
            }
        }
        None
    }

    /// A bank and its oldest dirty position.
    fn dirty_in(&self, bank: u8) -> Option<(u8, u32)>
        requires { bank ≤ self.now.shape.levels }
        ensures { result ≡ dirty_in_bank self.now.banks bank }
    {
        match self.first_dirty_of(bank) {
            Some(x) => Some((bank, x)),
            None => None,
        }
    }

    /// The set of position `x`.
    fn set_of(&self, x: u32) -> usize
        ensures value { result ≡ set_index self.now.shape x }
        ensures within { result < self.now.shape.sets }
    {
        (x % u32::from(self.geo.sets())) as usize
    }
}
