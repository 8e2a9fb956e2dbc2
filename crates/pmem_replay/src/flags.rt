//! Sets of lines, pages and positions, each operation in one step.
ghost use Rattle.std.specs.Prelude.{◌≡◌, ◌<◌, List, Bool, length, map, IfOk};
ghost use Rattle.plain_model.specs.State.{no_flags, is_flagged, has_flags, with_flag, without_flag};

use pmem_base::MemFault;
use std::alloc::Global;
use std::marker::Model;

/// A flag for each of a fixed number of things. A flag is set if its stamp is the present epoch, so that a new epoch
/// clears all of them at once. Contracts see the list of the flags.
#[derive(Drop)]
pub struct Flags {
    stamps: Vec<u32>,
    epoch: u32,
    count: u32,
}

impl Model for Flags {
    ghost use Rattle.std.specs.Prelude.{List, Bool, map, ◌==◌};
    ghost use Rattle.pmem_replay.specs.Stamps.{flags_of, IsStamped};

    ghost Value = { List Bool };

    ghost view = { λ flags. flags_of flags.stamps.items flags.epoch };

    ghost invariant = { λ flags. IsStamped flags.stamps.items flags.epoch flags.count };
}

impl Flags {
    /// No flag of `n` is set. Errors: running out of memory.
    #[tactic(auto, using(crate::proofs::Boards::StampLemmas::new_flags))]
    pub fn new(alloc: Global, n: u32) -> Result<Flags, MemFault>
        ensures { IfOk result (λ flags. flags ≡ no_flags n) }
    {
        Ok(Flags {
            stamps: vec![in alloc; 0_u32; n as usize]?,
            epoch: 1,
            count: 0,
        })
    }

    /// Whether flag `i` is set.
    #[tactic(auto, using(crate::proofs::Boards::StampLemmas::read_flags))]
    pub fn get(&self, i: u32) -> bool
        requires { i < length self.now }
        ensures { result ≡ is_flagged self.now i }
    {
        self.stamps[i as usize] == self.epoch
    }

    /// Sets flag `i`.
    #[tactic(auto, using(crate::proofs::Boards::StampLemmas::set_flags))]
    pub fn set(&mut self, i: u32)
        requires { i < length self.old }
        ensures { self.new ≡ with_flag self.old i }
    {
        if self.stamps[i as usize] != self.epoch {
            self.stamps[i as usize] = self.epoch;
            self.count += 1;
        }
    }

    /// Clears flag `i`.
    #[tactic(auto, using(crate::proofs::Boards::StampLemmas::set_flags))]
    pub fn unset(&mut self, i: u32)
        requires { i < length self.old }
        ensures { self.new ≡ without_flag self.old i }
    {
        if self.stamps[i as usize] == self.epoch {
            self.stamps[i as usize] = 0;
            self.count -= 1;
        }
    }

    /// Whether any flag is set.
    #[tactic(auto, using(crate::proofs::Boards::StampLemmas::any_flags))]
    pub fn any(&self) -> bool
        ensures { result ≡ has_flags self.now }
    {
        self.count != 0
    }

    /// Clears all flags.
    #[tactic(auto, using(crate::proofs::Boards::StampLemmas::clear_flags))]
    pub fn clear(&mut self)
        ensures { self.new ≡ no_flags (length self.old) }
    {
        if self.epoch < u32::MAX {
            self.epoch += 1;
            self.count = 0;
        } else {
            self.stamps.fill(0);
            self.epoch = 1;
            self.count = 0;
        }
    }
}
