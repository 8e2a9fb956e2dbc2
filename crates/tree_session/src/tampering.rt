//! What an attacker does to the device.
ghost use Rattle.std.specs.Prelude.{◌≡◌, ◌<◌, true, length, slice_set, IfOk, IfErr, None};
ghost use Rattle.pmem_base.specs.Geo.{shape_of};
ghost use Rattle.counter_tree.specs.Layout.{tree_lines, tree_size};
ghost use Rattle.asit_shadow.specs.Plain.{hurt_with};
ghost use Rattle.tree_session.specs.declared.commands.TreeCommand.TheVariants as Do;
ghost use Rattle.tree_session.specs.State.{tree_setup_in};
ghost use Rattle.tree_session.specs.Answered.{IsTreeAnswered, IsTreeHalt};

use crate::answers::TreeAnswer;
use crate::world::TreeWorld;
use counter_tree::{tree_lines, tree_size};
use pmem_base::{Geo, Line};
use suite::Suite;
use trace_text::Halt;

impl<S: Suite + Drop> TreeWorld<S> {
    /// A device line is changed past the controller.
    pub(crate) fn poke(&mut self, at: u64, line: &Line) -> TreeAnswer
        requires { self.old.shown ≡ None }
        ensures { IsTreeAnswered (tree_setup_in S.formulas_of self.old) self.old (Do.Poke at line.now) result self.new }
    {
        if at >= u64::from(tree_size(&self.geo)) {
            return TreeAnswer::Range;
        }
        self.board.poke(at as u32, line);
        mark(&self.geo, &mut self.tampered, &mut self.hurt, at as u32);
        TreeAnswer::Ok
    }

    /// Takes a snapshot of the device. Errors: running out of memory.
    pub(crate) fn snap(&mut self) -> Result<TreeAnswer, Halt>
        requires { self.old.shown ≡ None }
        ensures answered { IfOk result (λ answer. IsTreeAnswered (tree_setup_in S.formulas_of self.old) self.old Do.Snap answer self.new) }
        ensures halted { IfErr result (λ halt. IsTreeHalt (tree_setup_in S.formulas_of self.old) self.old Do.Snap halt self.new) }
    {
        if self.board.snap().is_err() {
            return Err(Halt::Memory);
        }
        Ok(TreeAnswer::Ok)
    }

    /// A device line is put back as the snapshot has it.
    pub(crate) fn back(&mut self, at: u64) -> TreeAnswer
        requires { self.old.shown ≡ None }
        ensures { IsTreeAnswered (tree_setup_in S.formulas_of self.old) self.old (Do.Back at) result self.new }
    {
        if at >= u64::from(tree_size(&self.geo)) {
            return TreeAnswer::Range;
        }
        if self.board.back(at as u32).is_err() {
            return TreeAnswer::NoSnap;
        }
        mark(&self.geo, &mut self.tampered, &mut self.hurt, at as u32);
        TreeAnswer::Ok
    }
}

/// Keeps that device line `d` was changed, and that the data line whose cipher or tag it holds is hurt.
fn mark(geo: &Geo, tampered: &mut Vec<bool>, hurt: &mut Vec<bool>, d: u32)
    requires line { d < tree_size (shape_of geo.now) }
    requires tampered { length tampered.old.items ≡ tree_size (shape_of geo.now) }
    requires hurt { length hurt.old.items ≡ tree_lines (shape_of geo.now) }
    ensures tampered { tampered.new.items ≡ slice_set tampered.old.items d true }
    ensures hurt { hurt.new.items ≡ hurt_with (shape_of geo.now) hurt.old.items d }
{
    let lines = tree_lines(geo);
    tampered[d as usize] = true;
    if d < lines {
        hurt[d as usize] = true;
    } else if d < lines + lines {
        hurt[(d - lines) as usize] = true;
    }
}
