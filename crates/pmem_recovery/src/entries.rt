//! The metadata lines that recovery makes.
ghost use Rattle.std.specs.Prelude.{◌≡◌, ◌<◌, ◌≤◌, ◌+◌, ◌++◌, ◌∷◌, [], IfOk, length, ◌==◌, if◌then◌else◌};
ghost use Rattle.pmem_base.specs.Geo.{shape_of};
ghost use Rattle.pmem_base.specs.Layout.{meta_lines, level_start};
ghost use Rattle.plain_model.specs.Bounds.{most_blocks, most_nodes};
ghost use Rattle.pmem_recovery.specs.Upward.{line_made, is_other};
ghost use Rattle.pmem_recovery.specs.Made.{numbered_line};

use pmem_base::{Geo, Line, MemFault};
use std::alloc::Global;
use std::marker::Model;

/// The line made for a position, and whether it is another one than the line read.
#[derive(Clone, Copy, Debug)]
pub struct MadeEntry {
    pub at: u32,
    pub line: Line,
    pub changed: bool,
}

/// The lines made so far, in order, with room for all that a recovery may make, and for each position
/// of the tree the number of its entry, from 1 on, or 0 if it has none. A contract sees the entries, for
/// how many there is room, and for how many positions.
#[derive(Drop)]
pub(crate) struct MadeLines {
    entries: Vec<MadeEntry>,
    numbers: Vec<u16>,
}

impl Model for MadeLines {
    ghost use Rattle.std.specs.Prelude.{length, vec_capacity};
    ghost use Rattle.pmem_recovery.specs.Made.{MadeState, IsIndexed};

    ghost Value = { MadeState };

    ghost view = { λ made. record {
      entries = made.entries.items;
      room = vec_capacity made.entries;
      positions = length made.numbers.items;
    } };

    ghost invariant = { λ made. IsIndexed made.entries.items made.numbers.items };
}

impl MadeLines {
    /// No line is made, and there is room for all that a recovery of this memory may make. Errors: running out of
    /// memory.
    pub(crate) fn new(alloc: Global, geo: &Geo) -> Result<MadeLines, MemFault>
        ensures entries { IfOk result (λ made. made.entries ≡ []) }
        ensures room { IfOk result (λ made. made.room ≡ most_blocks (shape_of geo.now) + most_nodes (shape_of geo.now)) }
        ensures positions { IfOk result (λ made. made.positions ≡ meta_lines (shape_of geo.now)) }
    {
        let room = most_blocks(geo) as usize + most_nodes(geo) as usize;
        let entries = Vec::with_capacity(alloc, room)?;
        let numbers = vec![in alloc; 0_u16; geo.metas() as usize]?;
        Ok(MadeLines { entries, numbers })
    }

    /// The entries in order.
    pub(crate) fn entries(&self) -> &[MadeEntry]
        ensures { result.now ≡ self.now.entries }
    {
        &self.entries
    }

    /// The line made for a position.
    pub(crate) fn line(&self, x: u32) -> Option<Line>
        requires { x < self.now.positions }
        ensures { result ≡ line_made self.now.entries x }
    {
        numbered_line(&self.entries, self.numbers[x as usize])
    }

    /// One more entry.
    pub(crate) fn push(&mut self, entry: MadeEntry)
        requires position { entry.at < self.old.positions }
        requires room { length self.old.entries < self.old.room }
        requires few { self.old.room ≤ 65535 }
        ensures entries { self.new.entries ≡ self.old.entries ++ entry ∷ [] }
        ensures room { self.new.room ≡ self.old.room }
        ensures positions { self.new.positions ≡ self.old.positions }
    {
        let x = entry.at as usize;
        let number = first_number(self.numbers[x], self.entries.len() as u16 + 1);
        self.numbers[x] = number;
        self.entries.push_reserved(entry);
    }
}

/// The line of the entry with this number, from 1 on.
fn numbered_line(entries: &[MadeEntry], number: u16) -> Option<Line>
    requires { number ≤ length entries.now }
    ensures { result ≡ numbered_line entries.now number }
{
    if number == 0 {
        return None;
    }
    Some(entries[usize::from(number) - 1].line)
}

/// The number of a position that gets a second one: the first one, unless it is 0.
fn first_number(old: u16, new: u16) -> u16
    ensures { result ≡ (if old == 0 then new else old) }
{
    if old == 0 { new } else { old }
}

/// The most counter blocks that a recovery makes.
pub(crate) fn most_blocks(geo: &Geo) -> u32
    ensures value { result ≡ most_blocks (shape_of geo.now) }
    ensures bound { result ≤ 4096 }
{
    if geo.persist() != 0 {
        0
    } else if geo.has_shadow() {
        geo.slots()
    } else {
        geo.pages()
    }
}

/// The most nodes that a recovery makes.
pub(crate) fn most_nodes(geo: &Geo) -> u32
    ensures value { result ≡ most_nodes (shape_of geo.now) }
    ensures bound { result ≤ 3072 }
{
    let levels = geo.lazy_levels();
    if !geo.has_shadow() {
        first_of_level(levels.min(geo.levels()))
    } else if levels == 0 {
        0
    } else {
        u32::from(geo.levels()) * geo.slots()
    }
}

/// The first position of a level.
pub(crate) fn first_of_level(level: u8) -> u32
    requires { level ≤ 6 }
    ensures value { result ≡ level_start level }
    ensures bound { result ≤ 1365 }
{
    (4_u32.pow(u32::from(level)) - 1) / 3
}

/// Whether the line made is another one than the line read.
pub(crate) fn is_other(read: &Line, line: &Line) -> bool
    ensures { result ≡ is_other read.now line.now }
{
    read.0 != line.0
}
