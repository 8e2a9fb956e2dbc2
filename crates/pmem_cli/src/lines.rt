//! The lines of a source, pulled in chunks.
ghost use Rattle.std.specs.Prelude.{◌≡◌, ◌<◌, ◌≤◌, ◌+◌, ◌++◌, ◌⊎◌, ◌↔◌, [], length, take, drop, IfOk, OnErr, IsTrue, Contains, false};
ghost use Rattle.std.specs.List.{position_or_len};
ghost use Rattle.std.specs.Io.KnownBytes.{Keeps, IsAtEnd, prepend_known};
ghost use Rattle.plain_model.specs.Lines.{is_line_end};
ghost use Rattle.pmem_cli.specs.Causes.{HasCause};
ghost use Rattle.pmem_cli.specs.Pulling.{is_last, pulls_after, StaysOpen, IsInTime, RemembersLeft, PullsWithinLine};
ghost use Rattle.pmem_cli.specs.Wholes.{ForEachWhole, HasGiven, left_in, left_before_in};

use crate::source::{Failed, Source};
use arrayvec::ArrayVec;
use std::marker::Model;
use std::simd::prelude::*;

/// The bytes that a line may have before its LF.
pub(crate) const LINE_BYTES: usize = 1024;

/// The bytes that one pull may bring.
const CHUNK_BYTES: usize = 16_384;

/// The bytes that are looked at together.
const LANES: usize = 16;

/// What ended a piece of a line.
#[derive(Clone, Copy)]
enum Piece {
    /// Its LF.
    Ended,
    /// The end of what is at hand.
    Part,
    /// The greatest length.
    TooLong,
}

/// What stands ahead.
#[derive(Clone, Copy)]
pub(crate) enum Found {
    /// A line with its LF.
    Line,
    /// A line that the trace's end ends.
    Last,
    /// A line of more bytes than a line may have.
    Long,
    /// No byte.
    End,
}

/// The bytes that were pulled and aren't read yet.
#[derive(Drop)]
pub(crate) struct LineReader {
    chunk: [u8; CHUNK_BYTES],
    at: usize,
    end: usize,
}

impl Model for LineReader {
    ghost use Rattle.std.specs.Prelude.{◌-◌, ◌≤◌, ℕ, List, take, drop};

    ghost Value = { List ℕ };

    ghost view = { λ reader. take (reader.end - reader.at) (drop reader.at reader.chunk) };

    ghost invariant = { λ reader. (reader.at ≤ reader.end) × (reader.end ≤ 16384) };
}

/// The number of bytes before the first LF of those that are looked at together, or all of them.
fn length_within_lanes(bytes: &[u8], at: usize) -> usize
    requires { at + LANES ≤ length bytes.now }
    ensures { result ≡ position_or_len is_line_end (take LANES (drop at bytes.now)) }
{
    let ends = u8x16::from_slice(&bytes[at..])
        .simd_eq(u8x16::splat(b'\n'))
        .to_bitmask();
    if ends == 0 {
        LANES
    } else {
        ends.trailing_zeros() as usize
    }
}

/// The number of bytes before the first LF.
fn length_within(bytes: &[u8]) -> usize
    ensures count { result ≡ position_or_len is_line_end bytes.now }
    ensures within { result ≤ length bytes.now }
{
    let mut at = 0;
    while bytes.len() - at >= LANES {
        let length = length_within_lanes(bytes, at);
        if length < LANES {
            return at + length;
        }
        at += LANES;
    }
    for i in at..bytes.len() {
        if bytes[i] == b'\n' {
            return i;
        }
    }
    bytes.len()
}

/// Appends bytes that have room.
fn append(line: &mut ArrayVec<u8, LINE_BYTES>, bytes: &[u8])
    requires { length line.old.items + length bytes.now ≤ 1024 }
    ensures items { line.new.items ≡ line.old.items ++ bytes.now }
    ensures fits { length line.new.items ≤ 1024 }
{
    let _ = line.try_extend_from_slice(bytes);
}

impl LineReader {
    ghost use Rattle.pmem_cli.specs.Pieces.{Takes, Finds, IsUnfinished};
    ghost use Rattle.pmem_cli.specs.declared.lines.Found.TheVariants.{Line};

    /// Nothing was pulled yet.
    pub fn new() -> Self
        ensures { result ≡ [] }
    {
        LineReader {
            chunk: [0; CHUNK_BYTES],
            at: 0,
            end: 0,
        }
    }

    /// Whether no byte is at hand.
    fn is_empty(&self) -> bool
        ensures { IsTrue result ↔ (self.now ≡ []) }
    {
        self.at == self.end
    }

    /// Whether a whole line is at hand, so that the next line takes no pull.
    pub fn has_line(&self) -> bool
        ensures { IsTrue result ↔ Contains self.now 10 }
    {
        self.chunk[self.at..self.end].contains(&b'\n')
    }

    /// Pulls a chunk, and answers its length.
    fn refill<S: Source>(&mut self, source: &mut S) -> Result<usize, Failed>
        requires { self.old ≡ [] }
        ensures gave { HasGiven (S.known source.old) (S.known source.new) }
        ensures ahead { ForEachWhole (S.known source.new) (λ whole.
            Keeps (left_in S.known whole source.old) (prepend_known self.new (left_in S.known whole source.new))) }
        ensures count { IfOk result (λ count. length self.new ≡ count) }
        ensures end { IfOk result (λ count. count ≡ 0 → ForEachWhole (S.known source.new) (λ whole.
            IsAtEnd (left_in S.known whole source.new))) }
        ensures err { OnErr result (self.new ≡ []) }
        ensures cause { HasCause (S.faults source.old) (S.faults source.new) result }
        ensures pulls { S.pulls source.new ≡ pulls_after (S.pulls source.old) (is_last result 16384) }
        ensures remembers { (S.known source.new).given_before ≡ (S.known source.old).given }
    {
        self.at = 0;
        self.end = 0;
        let count = source.pull(&mut self.chunk)?;
        self.end = count;
        Ok(count)
    }

    /// Whether no byte is ahead. If one is, it is at hand then. Errors: `Failed` if the pull fails.
    pub fn is_ended<S: Source>(&mut self, source: &mut S) -> Result<bool, Failed>
        ensures gave { HasGiven (S.known source.old) (S.known source.new) }
        ensures ahead { ForEachWhole (S.known source.new) (λ whole. Keeps (prepend_known self.old (left_in S.known whole source.old))
            (prepend_known self.new (left_in S.known whole source.new))) }
        ensures at_hand { 0 < length self.old → self.new ≡ self.old }
        ensures unpulled { 0 < length self.old → source.new ≡ source.old }
        ensures end { IfOk result (λ ended. IsTrue ended → ForEachWhole (S.known source.new) (λ whole.
            IsAtEnd (prepend_known self.new (left_in S.known whole source.new)))) }
        ensures more { IfOk result (λ ended. ended ≡ false → 0 < length self.new) }
        ensures fault { OnErr result (ForEachWhole (S.known source.new) (λ whole.
            Keeps (prepend_known self.old (left_in S.known whole source.old)) (left_in S.known whole source.new))) }
        ensures cause { HasCause (S.faults source.old) (S.faults source.new) result }
        ensures may_pull { IfOk result (λ ended. ended ≡ false → StaysOpen (S.pulls source.old) (S.pulls source.new)) }
        ensures in_time { IsInTime (S.pulls source.old) (S.pulls source.new) }
        ensures last_pull { ForEachWhole (S.known source.new) (λ whole. (source.new ≡ source.old)
            ⊎ ((self.old ≡ []) × RemembersLeft (left_before_in S.known whole source.new) (left_in S.known whole source.old))) }
    {
        if !self.is_empty() {
            return Ok(false);
        }
        let count = self.refill(source)?;
        Ok(count == 0)
    }

    /// Takes what there is of a line.
    fn take_piece(&mut self, line: &mut ArrayVec<u8, LINE_BYTES>) -> Piece
        ensures { Takes result self.old self.new line.old.items line.new.items }
    {
        let unread = &self.chunk[self.at..self.end];
        let length = length_within(unread);
        if line.len() + length > LINE_BYTES {
            self.at += length;
            return Piece::TooLong;
        }
        append(line, unread.split_at(length).0);
        self.at += length;
        if self.at == self.end {
            return Piece::Part;
        }
        self.at += 1;
        Piece::Ended
    }

    /// Takes the next line. A line that is too long is taken as far as it was pulled. Errors: `Failed` if a pull fails.
    pub fn next_line<S: Source>(
        &mut self,
        source: &mut S,
        line: &mut ArrayVec<u8, LINE_BYTES>,
    ) -> Result<Found, Failed>
        ensures gave { HasGiven (S.known source.old) (S.known source.new) }
        ensures found { IfOk result (λ found. ForEachWhole (S.known source.new) (λ whole.
            Finds found (prepend_known self.old (left_in S.known whole source.old))
            (prepend_known self.new (left_in S.known whole source.new)) line.new.items)) }
        ensures fault { OnErr result (ForEachWhole (S.known source.new) (λ whole.
            IsUnfinished (prepend_known self.old (left_in S.known whole source.old)) (left_in S.known whole source.new) line.new.items)) }
        ensures unpulled { Contains self.old 10 → source.new ≡ source.old }
        ensures cause { HasCause (S.faults source.old) (S.faults source.new) result }
        ensures may_pull { IfOk result (λ found. found ≡ Line → StaysOpen (S.pulls source.old) (S.pulls source.new)) }
        ensures in_time { IsInTime (S.pulls source.old) (S.pulls source.new) }
        ensures last_pull { ForEachWhole (S.known source.new) (λ whole. (source.new ≡ source.old)
            ⊎ PullsWithinLine (prepend_known self.old (left_in S.known whole source.old)) (left_before_in S.known whole source.new)) }
    {
        line.clear();
        'pieces: loop {
            if self.is_ended(source)? {
                return Ok(if line.is_empty() {
                    Found::End
                } else {
                    Found::Last
                });
            }
            match self.take_piece(line) {
                Piece::Ended => return Ok(Found::Line),
                Piece::TooLong => return Ok(Found::Long),
                Piece::Part => {}
            }
        }
    }
}
