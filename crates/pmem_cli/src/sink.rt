//! The sink that takes the replies.
ghost use Rattle.std.specs.Prelude.{◌≡◌, ◌<◌, ◌≤◌, ◌+◌, ◌-◌, ◌++◌, ◌⊎◌, ◌↔◌, [], min, ℕ, List, Option, Some, length, take, vec_len, IfOk, OnOk, OnErr, IsErr, is_err, Contains, if◌then◌else◌};
ghost use Rattle.std.specs.Io.{WritesAtMost};
ghost use Rattle.std.specs.Io.KnownBytes.{WriteAppends, Appends};
ghost use Rattle.pmem_base.specs.Counts.{risen};
ghost use Rattle.pmem_cli.specs.Causes.{HasCause};
ghost use Rattle.pmem_cli.specs.Printed.{AppendsFront};

use crate::bytes::GhostBytes;
use crate::source::{Failed, copy_front, is_listed};
use std::io::Write;
use std::marker::Model;
use std::snapshot::Snapshot;

/// Takes bytes in order. The count of faults rises by one at each push that fails, up to 2^64 - 1, and stays
/// at each other.
pub trait Sink {
    /// The bytes that were put, if the sink exposes them.
    ghost put: { Self → Option (List ℕ) };

    /// How often a push failed.
    ghost faults: { Self → ℕ };

    /// Puts the first bytes of a piece, at least one unless it is empty, and answers how many. Errors: `Failed`.
    fn push(&mut self, buf: &[u8]) -> Result<usize, Failed>
        ensures bound { WritesAtMost result buf.now }
        ensures moves { IfOk result (λ count. 0 < length buf.now → 0 < count) }
        ensures bytes { WriteAppends (put self.old) (put self.new) result buf.now }
        ensures cause { HasCause (faults self.old) (faults self.new) result };
}

/// Puts all bytes, or a prefix of them if a push fails. No push follows one that failed. Errors: `Failed` if a push
/// fails.
pub(crate) fn push_all<K: Sink>(out: &mut K, bytes: &[u8]) -> Result<(), Failed>
    ensures ok { OnOk result (Appends (K.put out.old) (K.put out.new) bytes.now) }
    ensures err { OnErr result (AppendsFront (K.put out.old) (K.put out.new) bytes.now) }
    ensures cause { HasCause (K.faults out.old) (K.faults out.new) result }
{
    let mut rest = bytes;
    'pushes: while !rest.is_empty() {
        let count = out.push(rest)?;
        rest = rest.split_at(count).1;
    }
    Ok(())
}

/// Copies bytes over those from a place on, as many as fit, and answers how many.
fn write_at(store: &mut [u8], at: usize, bytes: &[u8]) -> usize
    requires { at ≤ length store.old }
    ensures count { result ≡ min (length bytes.now) (length store.old - at) }
    ensures written { take (at + result) store.new ≡ take at store.old ++ take result bytes.now }
{
    copy_front(bytes, store.split_at_mut(at).1)
}

/// Bytes that take the places of a vector's bytes, from the front. The calls whose numbers are
/// listed fail, counted from 0, and so does a push at which all places are taken.
#[derive(Drop)]
pub struct MemSink {
    store: Vec<u8>,
    at: usize,
    failing: Vec<u64>,
    calls: u64,
    faults: u64,
}

impl Model for MemSink {
    ghost use Rattle.std.specs.Prelude.{◌≤◌, take, vec_len};
    ghost use Rattle.pmem_cli.specs.Memory.{MemoryOutput};

    ghost Value = { MemoryOutput };

    ghost view = { λ sink. record {
      put = take sink.at sink.store.items;
      capacity = vec_len sink.store;
      failing = sink.failing.items;
      calls = sink.calls;
      faults = sink.faults;
    } };

    ghost invariant = { λ sink. sink.at ≤ vec_len sink.store };
}

impl MemSink {
    /// A sink with no byte yet, of whose calls those listed fail.
    pub fn new(store: Vec<u8>, failing: Vec<u64>) -> Self
        ensures { result ≡ record {
          put = [];
          capacity = vec_len store;
          failing = failing.items;
          calls = 0;
          faults = 0;
        } }
    {
        MemSink {
            store,
            at: 0,
            failing,
            calls: 0,
            faults: 0,
        }
    }

    /// The bytes that were put.
    pub fn put(&self) -> &[u8]
        ensures { result.now ≡ self.now.put }
    {
        self.store.as_slice().split_at(self.at).0
    }
}

impl Sink for MemSink {
    ghost put = { λ sink. Some sink.put };

    ghost faults = { λ sink. sink.faults };

    /// Puts as many bytes as there are places for.
    fn push(&mut self, buf: &[u8]) -> Result<usize, Failed>
        ensures bound { WritesAtMost result buf.now }
        ensures moves { IfOk result (λ count. 0 < length buf.now → 0 < count) }
        ensures bytes { WriteAppends (Some self.old.put) (Some self.new.put) result buf.now }
        ensures cause { HasCause self.old.faults self.new.faults result }

        ensures failed { IsErr result ↔ (Contains self.old.failing self.old.calls
            ⊎ ((length self.old.put ≡ self.old.capacity) × (0 < length buf.now))) }
        ensures count { IfOk result (λ count. count ≡ min (length buf.now) (self.old.capacity - length self.old.put)) }
        ensures calls { self.new.calls ≡ risen self.old.calls }
        ensures faults { self.new.faults ≡ (if is_err result then risen self.old.faults else self.old.faults) }
        ensures failing { self.new.failing ≡ self.old.failing }
        ensures capacity { self.new.capacity ≡ self.old.capacity }
    {
        let call = self.calls;
        self.calls = call.saturating_add(1);
        let is_full = self.at == self.store.len() && !buf.is_empty();
        if is_full || is_listed(self.failing.as_slice(), call) {
            self.faults = self.faults.saturating_add(1);
            return Err(Failed);
        }
        let count = write_at(&mut self.store, self.at, buf);
        self.at += count;
        Ok(count)
    }
}

/// Any writer. What was put are the bytes that the writer accepted, in their order; or what the writer tells of its bytes,
/// if it told them when the sink was made. Clauses alone read them: they take no memory. A write of 0 bytes of a piece that
/// isn't empty is a push that failed.
#[derive(Drop)]
pub struct StdSink<W> {
    inner: W,
    first: Snapshot<W>,
    accepted: GhostBytes,
    faults: u64,
}

impl<W: Write> StdSink<W> {
    ghost use Rattle.pmem_cli.specs.StdParts.{writer_of, writer_first, bytes_accepted, push_faults};

    /// A sink over the writer. Nothing was put yet, and no push has failed.
    pub fn new(inner: W) -> Self
        ensures writer { writer_of result ≡ inner }
        ensures first { writer_first result ≡ inner }
        ensures accepted { bytes_accepted result ≡ [] }
        ensures faults { push_faults result ≡ 0 }
    {
        let first = Snapshot::of(&inner);
        StdSink {
            inner,
            first,
            accepted: GhostBytes::none(),
            faults: 0,
        }
    }
}

impl<W: Write> Sink for StdSink<W> {
    ghost use Rattle.pmem_cli.specs.StdParts.{writer_of, writer_first, bytes_accepted, push_faults, put_by};

    ghost put = { λ sink. put_by (W.contents (writer_first sink)) (W.contents (writer_of sink)) (bytes_accepted sink) };

    ghost faults = { push_faults };

    fn push(&mut self, buf: &[u8]) -> Result<usize, Failed> {
        match self.inner.write(buf) {
            Ok(0) if !buf.is_empty() => {
                self.faults = self.faults.saturating_add(1);
                Err(Failed)
            }
            Ok(count) => {
                self.accepted.note(buf.split_at(count).0);
                Ok(count)
            }
            Err(_) => {
                self.faults = self.faults.saturating_add(1);
                Err(Failed)
            }
        }
    }
}
