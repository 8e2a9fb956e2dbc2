//! What the attacker has changed.
ghost use Rattle.std.specs.Prelude.{◌≡◌, ◌<◌, ◌+◌, ◌^◌, ◌&&◌, not, length, slice_set, IfOk, false, if◌then◌else◌};
ghost use Rattle.pmem_base.specs.Geo.{shape_of};
ghost use Rattle.pmem_base.specs.Layout.{data_lines, device_lines};
ghost use Rattle.plain_model.specs.State.{PlainState, is_flagged, has_flags, with_flag, without_flag};
ghost use Rattle.plain_model.specs.After.{after_tampering, after_loosening, with_four_flags};
ghost use Rattle.pmem_replay.specs.Flagged.{no_tampering, with_tampering, HasTamperingOf};

use crate::Flags;
use pmem_base::{Geo, MemFault};
use std::alloc::Global;
use std::marker::Model;

/// The device lines that tampering changed, the data lines that this bears on, those that surely differ
/// from what was sealed, and whether power came on over such changes.
#[derive(Drop)]
pub(crate) struct Tampered {
    named: Flags,
    hurt: Flags,
    spoiled: Flags,
    loose: bool,
}

impl Model for Tampered {
    ghost use Rattle.pmem_replay.specs.Flagged.{Tampering};

    ghost Value = { Tampering };

    ghost view = { λ t. record { named = t.named; hurt = t.hurt; spoiled = t.spoiled; loose = t.loose } };
}

impl Tampered {
    /// Nothing was changed. Errors: running out of memory.
    pub(crate) fn new(alloc: Global, geo: &Geo) -> Result<Tampered, MemFault>
        ensures { IfOk result (λ flags. flags ≡ no_tampering (shape_of geo.now)) }
    {
        Ok(Tampered {
            named: Flags::new(alloc, geo.size())?,
            hurt: Flags::new(alloc, geo.lines())?,
            spoiled: Flags::new(alloc, geo.lines())?,
            loose: false,
        })
    }

    /// Whether any device line was changed.
    pub(crate) fn any(&self) -> bool
        ensures { result ≡ has_flags self.now.named }
    {
        self.named.any()
    }

    /// Device line `d` is changed, by a bit turned or otherwise, with power on or off.
    pub(crate) fn tamper(&mut self, geo: &Geo, d: u32, flipped: bool, powered: bool)
        requires line { d < device_lines (shape_of geo.now) }
        requires flags { HasTamperingOf (shape_of geo.now) self.old }
        ensures { (state : PlainState) → state.power ≡ powered
            → with_tampering state self.new ≡ after_tampering (shape_of geo.now) (with_tampering state self.old) flipped d }
    {
        let lines = geo.lines();
        if d < lines {
            self.change_line(d, flipped && powered);
        } else if d < lines + lines / 4 {
            self.hurt_four(4 * (d - lines));
        }
        self.named.set(d);
    }

    /// Data line `at` is changed. It is spoiled if it wasn't hurt and the change surely shows.
    fn change_line(&mut self, at: u32, shows: bool)
        requires hurt { at < length self.old.hurt }
        requires spoiled { at < length self.old.spoiled }
        ensures { self.new ≡ record (self.old) { hurt = with_flag self.old.hurt at; spoiled = slice_set self.old.spoiled at (shows && not (is_flagged self.old.hurt at)) } }
    {
        if shows && !self.hurt.get(at) {
            self.spoiled.set(at);
        } else {
            self.spoiled.unset(at);
        }
        self.hurt.set(at);
    }

    /// The tags of four data lines are changed.
    fn hurt_four(&mut self, at: u32)
        requires four { at + 3 < length self.old.hurt }
        requires small { at + 3 < 2 ^ 32 }
        ensures { self.new ≡ record (self.old) { hurt = with_four_flags self.old.hurt at } }
    {
        self.hurt.set(at);
        self.hurt.set(at + 1);
        self.hurt.set(at + 2);
        self.hurt.set(at + 3);
    }

    /// A write put data line `at` whole and sealed on the device.
    pub(crate) fn heal(&mut self, at: u32)
        requires hurt { at < length self.old.hurt }
        requires spoiled { at < length self.old.spoiled }
        ensures { self.new ≡ record (self.old) { hurt = without_flag self.old.hurt at; spoiled = without_flag self.old.spoiled at } }
    {
        self.hurt.unset(at);
        self.spoiled.unset(at);
    }

    /// Heals data line `at`, as `heal` does, if the write was put.
    pub(crate) fn heal_if(&mut self, put: bool, at: u32)
        requires hurt { at < length self.old.hurt }
        requires spoiled { at < length self.old.spoiled }
        ensures { self.new ≡ (if put then record (self.old) { hurt = without_flag self.old.hurt at; spoiled = without_flag self.old.spoiled at } else self.old) }
    {
        if put {
            self.heal(at);
        }
    }

    /// Power came on, or was cut as it came.
    pub(crate) fn loosen(&mut self)
        ensures { (state : PlainState) → with_tampering state self.new ≡ after_loosening (with_tampering state self.old) }
    {
        if self.named.any() {
            self.loose = true;
        }
    }
}
