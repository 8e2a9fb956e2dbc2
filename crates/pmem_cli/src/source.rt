//! The source of a trace.
ghost use Rattle.std.specs.Prelude.{◌≡◌, ◌≤◌, ◌<◌, ◌↔◌, ◌++◌, ℕ, List, [], Some, length, min, take, drop, vec_len, IsTrue, IsErr, is_err, IfOk, Contains, false, if◌then◌else◌};
ghost use Rattle.std.specs.Io.{ReadsAtMost};
ghost use Rattle.pmem_base.specs.Counts.{risen};
ghost use Rattle.pmem_cli.specs.Causes.{HasCause};
ghost use Rattle.pmem_cli.specs.declared.pulls.Pulls.{Pulls};
ghost use Rattle.pmem_cli.specs.declared.pulls.Pulls.TheVariants.{Open};
ghost use Rattle.pmem_cli.specs.Pulling.{is_last, pulls_after};
ghost use Rattle.pmem_cli.specs.Wholes.{Known, Gives, left_or_end};

use crate::bytes::GhostBytes;
use crate::pulls::{Pulls, next_pulls};
use std::io::Read;
use std::marker::Model;
use std::snapshot::Snapshot;

/// A pull or a push failed, and moved no byte.
#[derive(Clone, Copy, Debug, PartialEq, Eq)]
pub struct Failed;

/// Gives bytes in order, at most as many as a buffer has room for. If it has room, 0 bytes are the end, behind which
/// no byte is given. The count of faults rises by one at each pull that fails, up to 2^64 - 1, and stays at each other.
pub trait Source {
    /// The bytes that it gave, those that it had given before the last pull, and those that are left, if these are
    /// known: the source exposes them, or it gave its end.
    ghost known: { Self → Known };

    /// How often a pull failed.
    ghost faults: { Self → ℕ };

    /// Whether a pull failed or gave the end, and whether another was made after it.
    ghost pulls: { Self → Pulls };

    /// Puts the next bytes at the beginning of a buffer, and answers how many. Errors: `Failed`.
    fn pull(&mut self, buf: &mut [u8]) -> Result<usize, Failed>
        ensures bound { ReadsAtMost result buf.new }
        ensures gives { Gives (known self.old) (known self.new) result buf.new }
        ensures end { IfOk result (λ count. count ≡ 0 → 0 < length buf.old → (known self.new).left ≡ Some []) }
        ensures remembers { (known self.new).given_before ≡ (known self.old).given }
        ensures cause { HasCause (faults self.old) (faults self.new) result }
        ensures pulls { pulls self.new ≡ pulls_after (pulls self.old) (is_last result (length buf.old)) };
}

/// Copies as many bytes as fit, and answers how many.
pub(crate) fn copy_front(from: &[u8], to: &mut [u8]) -> usize
    ensures count { result ≡ min (length from.now) (length to.old) }
    ensures copied { take result to.new ≡ take result from.now }
    ensures kept { drop result to.new ≡ drop result to.old }
{
    let count = from.len().min(to.len());
    let (front, _) = to.split_at_mut(count);
    front.copy_from_slice(from.split_at(count).0);
    count
}

/// Whether the call of this number is to fail.
pub(crate) fn is_listed(failing: &[u64], call: u64) -> bool
    ensures { IsTrue result ↔ Contains failing.now call }
{
    failing.contains(&call)
}

/// The bytes of a vector, in order. The calls whose numbers are listed fail, counted from 0.
#[derive(Drop)]
pub struct MemSource {
    bytes: Vec<u8>,
    at: usize,
    before: usize,
    failing: Vec<u64>,
    calls: u64,
    faults: u64,
    pulls: Pulls,
}

impl Model for MemSource {
    ghost use Rattle.std.specs.Prelude.{◌≤◌, take, drop, vec_len};
    ghost use Rattle.pmem_cli.specs.Memory.{MemoryInput};

    ghost Value = { MemoryInput };

    ghost view = { λ source. record {
      left = drop source.at source.bytes.items;
      given = take source.at source.bytes.items;
      given_before = take source.before source.bytes.items;
      failing = source.failing.items;
      calls = source.calls;
      faults = source.faults;
      pulls = source.pulls;
    } };

    ghost invariant = { λ source. source.at ≤ vec_len source.bytes };
}

impl MemSource {
    /// A source of all these bytes, of whose calls those listed fail.
    pub fn new(bytes: Vec<u8>, failing: Vec<u64>) -> Self
        ensures { result ≡ record {
          left = bytes.items;
          given = [];
          given_before = [];
          failing = failing.items;
          calls = 0;
          faults = 0;
          pulls = Open;
        } }
    {
        MemSource {
            bytes,
            at: 0,
            before: 0,
            failing,
            calls: 0,
            faults: 0,
            pulls: Pulls::Open,
        }
    }
}

impl Source for MemSource {
    ghost known = { λ source. record {
      given = source.given;
      given_before = source.given_before;
      left = Some source.left;
    } };

    ghost faults = { λ source. source.faults };

    ghost pulls = { λ source. source.pulls };

    /// Gives as many bytes as there are and as the buffer has room for.
    fn pull(&mut self, buf: &mut [u8]) -> Result<usize, Failed>
        ensures bound { ReadsAtMost result buf.new }
        ensures gives { Gives
            (record { given = self.old.given; given_before = self.old.given_before; left = Some self.old.left })
            (record { given = self.new.given; given_before = self.new.given_before; left = Some self.new.left })
            result buf.new }
        ensures end { IfOk result (λ count. count ≡ 0 → 0 < length buf.old → Some self.new.left ≡ Some []) }
        ensures remembers { self.new.given_before ≡ self.old.given }
        ensures cause { HasCause self.old.faults self.new.faults result }
        ensures pulls { self.new.pulls ≡ pulls_after self.old.pulls (is_last result (length buf.old)) }

        ensures failed { IsErr result ↔ Contains self.old.failing self.old.calls }
        ensures count { IfOk result (λ count. count ≡ min (length self.old.left) (length buf.old)) }
        ensures calls { self.new.calls ≡ risen self.old.calls }
        ensures faults { self.new.faults ≡ (if is_err result then risen self.old.faults else self.old.faults) }
        ensures failing { self.new.failing ≡ self.old.failing }
    {
        let call = self.calls;
        self.calls = call.saturating_add(1);
        self.before = self.at;
        if is_listed(self.failing.as_slice(), call) {
            self.faults = self.faults.saturating_add(1);
            self.pulls = next_pulls(self.pulls, true);
            return Err(Failed);
        }
        let count = copy_front(self.bytes.as_slice().split_at(self.at).1, buf);
        self.at += count;
        self.pulls = next_pulls(self.pulls, count == 0 && !buf.is_empty());
        Ok(count)
    }
}

/// Any reader. The source keeps what the reader gave, in order, and what it had given before the last pull. Clauses
/// alone read these bytes: they take no memory. After the reader gave its end it isn't asked again.
#[derive(Drop)]
pub struct StdSource<R> {
    inner: R,
    given: GhostBytes,
    before: Snapshot<GhostBytes>,
    ended: bool,
    faults: u64,
    pulls: Pulls,
}

impl<R: Read> StdSource<R> {
    ghost use Rattle.pmem_cli.specs.StdParts.{reader_of, bytes_given, bytes_given_before, has_ended, pull_faults, pulls_made};

    /// A source of what the reader gives. Nothing was given yet, and no pull has failed.
    pub fn new(inner: R) -> Self
        ensures reader { reader_of result ≡ inner }
        ensures given { bytes_given result ≡ [] }
        ensures before { bytes_given_before result ≡ [] }
        ensures ended { has_ended result ≡ false }
        ensures faults { pull_faults result ≡ 0 }
        ensures pulls { pulls_made result ≡ Open }
    {
        let given = GhostBytes::none();
        let before = Snapshot::of(&given);
        StdSource {
            inner,
            given,
            before,
            ended: false,
            faults: 0,
            pulls: Pulls::Open,
        }
    }
}

impl<R: Read> Source for StdSource<R> {
    ghost use Rattle.pmem_cli.specs.StdParts.{reader_of, bytes_given, bytes_given_before, has_ended, pull_faults, pulls_made};

    ghost known = { λ source. record {
      given = bytes_given source;
      given_before = bytes_given_before source;
      left = left_or_end (has_ended source) (R.remaining (reader_of source));
    } };

    ghost faults = { pull_faults };

    ghost pulls = { pulls_made };

    fn pull(&mut self, buf: &mut [u8]) -> Result<usize, Failed> {
        self.before = Snapshot::of(&self.given);
        if self.ended {
            self.pulls = next_pulls(self.pulls, !buf.is_empty());
            return Ok(0);
        }
        match self.inner.read(buf) {
            Ok(count) => {
                self.given.note(buf.split_at(count).0);
                self.ended = count == 0 && !buf.is_empty();
                self.pulls = next_pulls(self.pulls, self.ended);
                Ok(count)
            }
            Err(_) => {
                self.faults = self.faults.saturating_add(1);
                self.pulls = next_pulls(self.pulls, true);
                Err(Failed)
            }
        }
    }
}
