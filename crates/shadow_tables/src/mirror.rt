//! The copy of the shadow lines on the chip.
ghost use Rattle.std.specs.Prelude.{◌≡◌, ◌+◌, ◌<◌, ◌≤◌, ◌*◌, ◌==◌, ◌↔◌, true, List, All, length, replicate, IfOk, IsNone, IfNone, IfSome, OnSome, if◌then◌else◌};
ghost use Rattle.pmem_base.specs.declared.lines.Line.{Line};
ghost use Rattle.pmem_base.specs.Geo.{shape_of};
ghost use Rattle.pmem_base.specs.Lines.{IsLine, zero_line};
ghost use Rattle.pmem_base.specs.Layout.{slots, meta_lines, shadow_counter_lines, shadow_lines, shadow_line, device_lines};
ghost use Rattle.shadow_tables.specs.Entries.{slot_entry};
ghost use Rattle.shadow_tables.specs.Naming.{entry_line, entry_index, naming_line, with_named, Names};

use crate::entries::{read_entry, write_entry};
use pmem_base::{Geo, Line, MemFault};
use std::alloc::Global;
use std::marker::Model;

/// A copy of the shadow lines: the counter lines first, then the tree lines. A contract sees the list
/// of the lines.
#[derive(Drop)]
pub struct Mirror {
    lines: Vec<Line>,
}

impl Model for Mirror {
    ghost Value = { List Line };

    ghost view = { λ mirror. mirror.lines.items };

    ghost invariant = { λ mirror. All IsLine mirror.lines.items };
}

impl Mirror {
    /// All entries are 0. Errors: running out of memory.
    pub fn new(alloc: Global, geo: &Geo) -> Result<Mirror, MemFault>
        ensures { IfOk result (λ mirror. mirror ≡ replicate (shadow_lines (shape_of geo.now)) zero_line) }
    {
        let lines = vec![in alloc; Line::default(); geo.shadows() as usize]?;
        Ok(Mirror { lines })
    }

    /// A law: each line has 64 bytes.
    pub fn are_lines(&self)
        ensures { All IsLine self.now }
    {
        let _ = &self.lines;
    }

    /// Lets the slot's entry name position `x`, on a device with shadow tables. The answer is the device line to write
    /// and its bytes, or `None` if the entry names `x` already.
    pub fn name_slot(&mut self, geo: &Geo, bank: u8, slot: u32, x: u32) -> Option<(u32, Line)>
        requires tables { (shape_of geo.now).shadow ≡ true }
        requires mirror { length self.old ≡ shadow_lines (shape_of geo.now) }
        requires bank { bank ≤ (shape_of geo.now).levels }
        requires slot { slot < slots (shape_of geo.now) }
        requires position { x < meta_lines (shape_of geo.now) }

        ensures already { IsNone result ↔ (slot_entry (shape_of geo.now) self.old bank slot ≡ x + 1) }
        ensures same { IfNone result (self.new ≡ self.old) }
        ensures written { OnSome result (self.new ≡ with_named (shape_of geo.now) self.old bank slot x) }
        ensures place { IfSome result (λ write.
            write.0 ≡ shadow_line (shape_of geo.now) (entry_line (shape_of geo.now) bank slot)) }
        ensures bytes { IfSome result (λ write.
            write.1 ≡ naming_line (shape_of geo.now) self.old bank slot x) }

        ensures within { IfSome result (λ write. write.0 < device_lines (shape_of geo.now)) }
        ensures whole { IfSome result (λ write. IsLine write.1) }
        ensures long { length self.new ≡ shadow_lines (shape_of geo.now) }
        ensures names { Names (shape_of geo.now) self.old self.new bank slot x }
    {
        self.are_lines();
        self.write_name(geo, bank, slot, x)
    }

    /// Writes the entry of a slot, unless it names the position already.
    fn write_name(&mut self, geo: &Geo, bank: u8, slot: u32, x: u32) -> Option<(u32, Line)>
        requires tables { (shape_of geo.now).shadow ≡ true }
        requires mirror { length self.old ≡ shadow_lines (shape_of geo.now) }
        requires bank { bank ≤ (shape_of geo.now).levels }
        requires slot { slot < slots (shape_of geo.now) }
        requires position { x < meta_lines (shape_of geo.now) }
        ensures already { IsNone result ↔ (slot_entry (shape_of geo.now) self.old bank slot ≡ x + 1) }
        ensures same { IfNone result (self.new ≡ self.old) }
        ensures written { OnSome result (self.new ≡ with_named (shape_of geo.now) self.old bank slot x) }
        ensures place { IfSome result (λ write.
            write.0 ≡ shadow_line (shape_of geo.now) (entry_line (shape_of geo.now) bank slot)) }
        ensures bytes { IfSome result (λ write.
            write.1 ≡ naming_line (shape_of geo.now) self.old bank slot x) }
        ensures within { IfSome result (λ write. write.0 < device_lines (shape_of geo.now)) }
        ensures whole { IfSome result (λ write. IsLine write.1) }
        ensures long { length self.new ≡ shadow_lines (shape_of geo.now) }
    {
        let first = first_line(geo, bank);
        let number = table_number(geo, bank, slot);
        let n = first + number / 16;
        let i = (number % 16) as u8;
        let line = &mut self.lines[n as usize];
        if read_entry(line, i) == x + 1 {
            return None;
        }
        *line = write_entry(line, i, x + 1);
        Some((geo.shadow_line(n), *line))
    }
}

/// The first shadow line of a bank's table.
fn first_line(geo: &Geo, bank: u8) -> u32
    ensures { result ≡ (if bank == (shape_of geo.now).levels then 0 else shadow_counter_lines (shape_of geo.now)) }
{
    if bank == geo.levels() {
        0
    } else {
        geo.slots().div_ceil(16)
    }
}

/// The number of a slot's entry in its table.
fn table_number(geo: &Geo, bank: u8, slot: u32) -> u32
    requires bank { bank ≤ (shape_of geo.now).levels }
    requires slot { slot < slots (shape_of geo.now) }
    ensures { result ≡ (if bank == (shape_of geo.now).levels then slot else bank * slots (shape_of geo.now) + slot) }
{
    if bank == geo.levels() {
        slot
    } else {
        u32::from(bank) * geo.slots() + slot
    }
}
