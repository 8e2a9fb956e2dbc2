//! Eight queues of posted writes.
ghost use Rattle.std.specs.Prelude.{◌≡◌, ◌<◌, ◌-◌, ◌^◌, ◌↔◌, ℕ, [], ◌∷◌, ◌++◌, List, length, drop, slice_get, slice_set, IsErr, OnOk, OnErr, IfSome, IsTrue};
ghost use Rattle.pmem_base.specs.Ranges.{IsPosted};
ghost use Rattle.pmem_base.specs.Lines.{zero_line};
ghost use Rattle.pmem_base.specs.declared.lines.Line.{Line};
ghost use Rattle.pmem_base.specs.declared.commands.Posted.{Posted};
ghost use Rattle.pmem_base.specs.WaitingWrites.{no_writes, queue_of, writes_to, put_writes, queue_posted, is_queue_full, queues_after_loss};
ghost use Rattle.write_ports.specs.Queues.{ArePorts, ShowsPosted, have_byte, cover_line};

use crate::Seen;
use crate::queue::Queue;
use pmem_base::{Full, Posted};
use std::marker::Model;

/// Posted writes waiting at eight ports, numbered from 0: a queue for each, the oldest write first.
/// A contract sees the list of the queues.
#[derive(Drop)]
pub struct Ports {
    queues: [Queue; 8],
}

impl Model for Ports {
    ghost Value = { List (List Posted) };

    ghost view = { λ ports. ports.queues };

    ghost invariant = { λ ports. ArePorts ports.queues };
}

impl Ports {
    ghost use Rattle.write_ports.specs.Seen.{is_seen, overlaid};

    /// Nothing waits.
    #[tactic(auto, unfolding(pmem_base::specs::WaitingWrites::no_writes))]
    pub fn new() -> Ports
        ensures { result ≡ no_writes }
    {
        Ports {
            queues: [
                Queue::new(),
                Queue::new(),
                Queue::new(),
                Queue::new(),
                Queue::new(),
                Queue::new(),
                Queue::new(),
                Queue::new(),
            ],
        }
    }

    /// A law: there are eight queues, of at most 16 writes that lie in their lines.
    pub fn are_ports(&self)
        ensures { ArePorts self.now }
    {
        let _ = &self.queues;
    }

    /// The write waits at its port: behind the others, or, if writes are combined and it is a whole
    /// line, in the place of the newest write to its line, if that is a whole line too.
    ///
    /// Errors: `Full` if and only if 16 writes wait there and it takes the place of none of them. Nothing
    /// has then changed.
    pub fn post(&mut self, port: u8, write: &Posted, combines: bool) -> Result<(), Full>
        requires port { port < 8 }
        requires write { IsPosted write.now }
        ensures full { IsErr result ↔ IsTrue (is_queue_full combines (queue_of self.old port) write.now) }
        ensures ok { OnOk result
            (self.new ≡ slice_set self.old port (queue_posted combines (queue_of self.old port) write.now)) }
        ensures shows { OnOk result (ShowsPosted self.old self.new port write.now) }
        ensures err { OnErr result (self.new ≡ self.old) }
    {
        let queue = &mut self.queues[usize::from(port)];
        queue.post(write, combines)
    }

    /// The oldest write that waits at the port.
    pub fn front(&self, port: u8) -> Option<Posted>
        requires { port < 8 }
        ensures value { result ≡ slice_get (queue_of self.now port) 0 }
        ensures posted { IfSome result IsPosted }
    {
        let queue = &self.queues[usize::from(port)];
        queue.front()
    }

    /// The port's oldest write waits no more, if one does.
    pub fn pop(&mut self, port: u8)
        requires { port < 8 }
        ensures { self.new ≡ slice_set self.old port (drop 1 (queue_of self.old port)) }
    {
        let queue = &mut self.queues[usize::from(port)];
        queue.pop();
    }

    /// How many writes wait at the port.
    pub fn waiting(&self, port: u8) -> u8
        requires { port < 8 }
        ensures value { result ≡ length (queue_of self.now port) }
        ensures most { result < 17 }
    {
        let queue = &self.queues[usize::from(port)];
        queue.waiting()
    }

    /// Power is lost: nothing waits any more, unless the queues are durable.
    pub fn lose_power(&mut self, durable: bool)
        ensures { self.new ≡ queues_after_loss durable self.old }
    {
        if !durable {
            *self = Ports::new();
        }
    }

    /// What the port's waiting writes to line `at` show of it: a byte is seen if and only if one of them has it, and
    /// then the newest one is. Laid over any line, that gives the line with those writes put into it in order.
    pub fn look(&self, port: u8, at: u32) -> Seen
        requires { port < 8 }
        ensures mask { (i : ℕ) → i < 64
            → is_seen result i ≡ have_byte (writes_to (queue_of self.now port) at) i }
        ensures newest { result.line ≡ put_writes zero_line (writes_to (queue_of self.now port) at) }
        ensures over { (line : Line) → length line.0 ≡ 64
            → overlaid line result ≡ put_writes line (writes_to (queue_of self.now port) at) }
        ensures full { (result.mask ≡ 2 ^ 64 - 1)
            ↔ IsTrue (cover_line (writes_to (queue_of self.now port) at)) }
    {
        let waiting = &self.queues[usize::from(port)];
        waiting.look(at)
    }
}
