//! One set of the cache.
ghost use Rattle.std.specs.Prelude.{◌≡◌, ◌<◌, ◌≤◌, ◌-◌, ◌==◌, true, false, List, [], Option, option_map, IsTrue, IfSome, MatchOption, slice_get, IsSome, is_some, length, ◌↔◌, if◌then◌else◌};
ghost use Rattle.std.specs.Option.{option_copied};
ghost use Rattle.std.specs.List.{list_any, position_or_len};
ghost use Rattle.meta_cache.specs.declared.slot.Slot.{Slot};
ghost use Rattle.meta_cache.specs.Alone.{IsAlone};
ghost use Rattle.meta_cache.specs.Sets.{holds, slot_with, touched, with_slot_line, with_mark, victim_of, HasContents, free_way, next_way, without_victim, placed, oldest_dirty_in, ArePositionsApart};

use crate::slot::Slot;
use arrayvec::ArrayVec;
use pmem_base::Line;
use std::marker::Model;

/// At most eight slots, the most recently used first.
#[derive(Drop)]
pub(crate) struct Set {
    slots: ArrayVec<Slot, 8>,
}

impl Model for Set {
    ghost Value = { List Slot };

    ghost view = { λ set. set.slots.items };
}

impl Set {
    /// No slot in use.
    pub(crate) fn new() -> Set
        ensures { result ≡ [] }
    {
        Set {
            slots: ArrayVec::new(),
        }
    }

    /// The place of position `x`, or the number of slots in use if it isn't there.
    fn place_of(&self, x: u32) -> usize
        ensures value { result ≡ position_or_len (λ slot. slot.position == x) self.now }
        ensures found { slot_with self.now x ≡ slice_get self.now result }
        ensures most { result ≤ length self.now }
    {
        'slots: for (i, slot) in self.slots.as_slice().iter().enumerate() {
            if slot.position == x {
                return i;
            }
        }
        self.slots.len()
    }

    /// The place of position `x`, which is there and nowhere else.
    fn own_place(&self, x: u32) -> usize
        requires holds { IsTrue (holds self.now x) }
        requires apart { ArePositionsApart self.now }
        ensures within { result < length self.now }
        ensures found { slot_with self.now x ≡ slice_get self.now result }
        ensures alone { (d : Slot) → IsAlone (λ slot. slot.position == x) self.now result d }
    {
        self.place_of(x)
    }

    /// The line of position `x`.
    pub(crate) fn look(&self, x: u32) -> Option<&Line>
        ensures value { option_copied result ≡ option_map (λ slot. slot.line) (slot_with self.now x) }
        ensures held { is_some result ≡ holds self.now x }
    {
        let i = self.place_of(x);
        if i == self.slots.len() {
            return None;
        }
        Some(&self.slots.as_slice()[i].line)
    }

    /// The way of position `x`.
    pub(crate) fn way_of(&self, x: u32) -> u8
        requires holds { IsTrue (holds self.now x) }
        requires apart { ArePositionsApart self.now }
        ensures { option_map (λ slot. slot.way) (slot_with self.now x) ≡ Some result }
    {
        let i = self.own_place(x);
        self.slots.as_slice()[i].way
    }

    /// Position `x` comes first.
    pub(crate) fn touch(&mut self, x: u32)
        requires room { length self.old ≤ 8 }
        requires holds { IsTrue (holds self.old x) }
        requires apart { ArePositionsApart self.old }
        ensures { self.new ≡ touched self.old x }
    {
        let i = self.own_place(x);
        if i == 0 {
            return;
        }
        let slot = self.slots.remove(i);
        self.slots.insert(0, slot);
    }

    /// The slot of position `x` gets this line.
    pub(crate) fn store(&mut self, x: u32, line: &Line)
        requires holds { IsTrue (holds self.old x) }
        requires apart { ArePositionsApart self.old }
        ensures { self.new ≡ with_slot_line self.old x line.now }
    {
        let i = self.own_place(x);
        let slot = &mut self.slots.as_mut_slice()[i];
        slot.line = *line;
    }

    /// The slot of position `x` gets this mark.
    pub(crate) fn mark(&mut self, x: u32, dirty: bool)
        requires holds { IsTrue (holds self.old x) }
        requires apart { ArePositionsApart self.old }
        ensures { self.new ≡ with_mark self.old x dirty }
    {
        let i = self.own_place(x);
        let slot = &mut self.slots.as_mut_slice()[i];
        slot.dirty = dirty;
    }

    /// The position to be evicted, its line and its mark, if all ways are in use.
    pub(crate) fn victim(&self, ways: u8) -> Option<(u32, &Line, bool)>
        requires least { 1 ≤ ways }
        requires room { length self.now ≤ ways }
        ensures value { MatchOption result (victim_of ways self.now ≡ None)
            (λ victim. IfSome (victim_of ways self.now) (HasContents victim.0 victim.1.now victim.2)) }
        ensures some { IsSome result ↔ IsSome (victim_of ways self.now) }
    {
        if self.slots.len() < usize::from(ways) {
            return None;
        }
        let slot = &self.slots.as_slice()[usize::from(ways) - 1];
        Some((slot.position, &slot.line, slot.dirty))
    }

    /// Whether a slot has this way.
    fn uses(&self, way: u8) -> bool
        ensures { result ≡ list_any (λ slot. slot.way == way) self.now }
    {
        self.slots.as_slice().iter().any(|slot| slot.way == way)
    }

    /// The lowest way that no slot has, or `ways`.
    fn free_way(&self, ways: u8) -> u8
        ensures { result ≡ free_way ways self.now }
    {
        'ways: for way in 0..ways {
            if !self.uses(way) {
                return way;
            }
        }
        ways
    }

    /// A way for one slot more: the lowest free one, else that of the victim, which is gone then.
    fn take_way(&mut self, ways: u8) -> u8
        requires least { 1 ≤ ways }
        requires room { length self.old ≤ ways }
        ensures way { result ≡ next_way ways self.old }
        ensures kept { self.new ≡ without_victim ways self.old }
    {
        if self.slots.len() < usize::from(ways) {
            return self.free_way(ways);
        }
        let way = self.slots.as_slice()[usize::from(ways) - 1].way;
        let _ = self.slots.pop();
        way
    }

    /// Puts position `x` first, clean, into the lowest free way or instead of the victim.
    pub(crate) fn place(&mut self, ways: u8, x: u32, line: &Line)
        requires least { 1 ≤ ways }
        requires most { ways ≤ 8 }
        requires room { length self.old ≤ ways }
        ensures { self.new ≡ placed ways self.old x line.now }
    {
        let way = self.take_way(ways);
        let slot = Slot {
            way,
            position: x,
            line: *line,
            dirty: false,
        };
        self.slots.insert(0, slot);
    }

    /// The least recently used position that is dirty.
    pub(crate) fn oldest_dirty(&self) -> Option<u32>
        ensures { result ≡ oldest_dirty_in self.now }
    {
        let mut oldest = None;
        'slots: for slot in self.slots.as_slice() {
            oldest = newer_dirty(oldest, slot);
        }
        oldest
    }
}

/// The slot's position if it is dirty, and otherwise the one found before.
fn newer_dirty(before: Option<u32>, slot: &Slot) -> Option<u32>
    ensures { result ≡ (if slot.now.dirty then Some slot.now.position else before) }
{
    if slot.dirty {
        Some(slot.position)
    } else {
        before
    }
}
