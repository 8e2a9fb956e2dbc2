//! The queue of one port.
ghost use Rattle.std.specs.Prelude.{◌≡◌, ◌≤◌, ◌<◌, ◌↔◌, ℕ, [], List, length, drop, take, slice_get, option_map, IfSome, IsErr, OnOk, OnErr, IsTrue};
ghost use Rattle.pmem_base.specs.Ranges.{IsPosted};
ghost use Rattle.pmem_base.specs.declared.commands.Posted.{Posted};
ghost use Rattle.pmem_base.specs.WaitingWrites.{writes_to, newest_to, combined_place, queue_posted, is_queue_full};
ghost use Rattle.write_ports.specs.Queues.{IsQueue};

use crate::Seen;
use arrayvec::ArrayVec;
use pmem_base::{Full, Posted};
use std::marker::Model;

/// At most 16 waiting writes, the oldest first.
#[derive(Drop)]
pub(crate) struct Queue {
    writes: ArrayVec<Posted, 16>,
}

impl Model for Queue {
    ghost Value = { List Posted };

    ghost view = { λ queue. queue.writes.items };
}

impl Queue {
    ghost use Rattle.write_ports.specs.Seen.{IsSight};

    /// No write waits.
    pub(crate) fn new() -> Queue
        ensures { result ≡ [] }
    {
        Queue {
            writes: ArrayVec::new(),
        }
    }

    /// The write waits behind the others, or takes the place of one. Errors: `Full` if it can do neither; then all stays.
    pub(crate) fn post(&mut self, write: &Posted, combines: bool) -> Result<(), Full>
        requires { length self.old ≤ 16 }
        ensures full { IsErr result ↔ IsTrue (is_queue_full combines self.old write.now) }
        ensures ok { OnOk result (self.new ≡ queue_posted combines self.old write.now) }
        ensures err { OnErr result (self.new ≡ self.old) }
    {
        if let Some(place) = self.combined_place(write, combines) {
            self.writes[place] = *write;
            return Ok(());
        }
        if self.writes.is_full() {
            return Err(Full);
        }
        self.writes.push(*write);
        Ok(())
    }

    /// The place that the write takes: that of the newest write to its line, if writes are combined and
    /// both are whole lines.
    fn combined_place(&self, write: &Posted, combines: bool) -> Option<usize>
        ensures place { result ≡ combined_place combines self.now write.now }
        ensures within { IfSome result (λ place. place < length self.now) }
    {
        if !combines || write.len != 64 {
            return None;
        }
        let (place, newest) = self.newest_to(write.at)?;
        if newest.len == 64 { Some(place) } else { None }
    }

    /// The newest write to line `at`, with its place in the queue.
    fn newest_to(&self, at: u32) -> Option<(usize, Posted)>
        ensures newest { result ≡ newest_to self.now at }
        ensures within { IfSome result (λ found. found.0 < length self.now) }
    {
        let mut newest = None;
        'writes: for (place, write) in self.writes.as_slice().iter().enumerate() {
            if write.at == at {
                newest = Some((place, *write));
            }
        }
        newest
    }

    /// The oldest write.
    pub(crate) fn front(&self) -> Option<Posted>
        ensures { result ≡ slice_get self.now 0 }
    {
        self.writes.as_slice().first().copied()
    }

    /// The oldest write waits no more, if one does.
    pub(crate) fn pop(&mut self)
        ensures { self.new ≡ drop 1 self.old }
    {
        if !self.writes.is_empty() {
            let _ = self.writes.remove(0);
        }
    }

    /// How many writes wait.
    pub(crate) fn waiting(&self) -> u8
        ensures { result ≡ length self.now }
    {
        self.writes.len() as u8
    }

    /// What the writes to line `at` show of it.
    pub(crate) fn look(&self, at: u32) -> Seen
        requires { IsQueue self.now }
        ensures { IsSight (writes_to self.now at) result }
    {
        let mut seen = Seen::default();
        'writes: for write in self.writes.as_slice() {
            seen = seen.then(write, at);
        }
        seen
    }
}
