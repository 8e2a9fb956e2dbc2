//! The weak suite and its blur form.
ghost use Rattle.std.specs.Prelude.{◌≡◌, ◌≤◌, ◌∷◌, ◌++◌, [], length, fold, bit_xor};
ghost use Rattle.suite.specs.Formulas.{AreInRange};
ghost use Rattle.suite.specs.Weak.{blur_flag, last_byte_tag, weak_formulas};

use crate::shared::{header, one_more};
use crate::{Counted, Suite};
use arrayvec::ArrayVec;
use pmem_base::{Ctr, Line, Tag};
use std::simd::prelude::*;

// The bytes of a line that are combined together.
const LANES: usize = 16;

/// A suite that anyone can break, for tests. The bytes of a pad count up; a tag or a digest is the
/// exclusive or of its bytes, with fifteen zeros before it. Under `blur` the tag takes half of the
/// minor, rounded down, so that two counters can share a tag.
#[derive(Drop)]
pub struct WeakSuite {
    key: [u8; 16],
    tag_key: ArrayVec<u8, 64>,
    blur: bool,
    pads: u64,
    tags: u64,
    digests: u64,
    pub ghost some_tag_key: { 1 ≤ length tag_key.items },
    pub ghost in_range: { AreInRange (weak_formulas (key ++ tag_key.items ++ blur_flag blur ∷ [])) },
}

impl WeakSuite {
    ghost use Rattle.suite.specs.Suites.{weak_keys, weak_counts};

    /// The suite under a key and a tag key of 1 to 64 bytes, in its blur form or not.
    pub fn new(key: &[u8; 16], tag_key: &[u8], blur: bool) -> WeakSuite
        requires some_bytes { 1 ≤ length tag_key.now }
        requires one_block { length tag_key.now ≤ 64 }
        ensures keys { weak_keys result ≡ key.now ++ tag_key.now ++ blur_flag blur ∷ [] }
        ensures counts { weak_counts result ≡ (0, 0, 0) }
    {
        let mut kept = ArrayVec::new();
        let _ = kept.try_extend_from_slice(tag_key);
        WeakSuite {
            key: *key,
            tag_key: kept,
            blur,
            pads: 0,
            tags: 0,
            digests: 0,
        }
    }
}

impl Suite for WeakSuite {
    ghost use Rattle.suite.specs.Suites.{weak_keys, weak_counts};

    ghost keys = { weak_keys };

    ghost formulas_of = { weak_formulas };

    ghost pads = { λ suite. (weak_counts suite).0 };

    ghost tags = { λ suite. (weak_counts suite).1 };

    ghost digests = { λ suite. (weak_counts suite).2 };

    fn pad(&mut self, at: u32, ctr: Ctr) -> Line {
        self.pads = one_more(self.pads);
        let first = u64::from(at) + ctr.major % 256 + u64::from(ctr.minor);
        let mut pad = Line::default();
        for j in 0..64 {
            pad.0[j] = self.key[0] ^ ((first + j as u64) % 256) as u8;
        }
        pad
    }

    fn tag(&mut self, at: u32, ctr: Ctr, cipher: &Line) -> Tag {
        self.tags = one_more(self.tags);
        let minor = if self.blur { ctr.minor / 2 } else { ctr.minor };
        let text = folded(0, &header(at, Ctr { minor, ..ctr }));
        last_byte_tag(self.tag_key[0] ^ folded_line(text, cipher))
    }

    fn digest(&mut self, x: u32, line: &Line) -> Tag {
        self.digests = one_more(self.digests);
        last_byte_tag(folded_line(folded(1, &x.to_be_bytes()), line))
    }

    ghost in_range = { λ suite. suite.in_range };
}

impl Counted for WeakSuite {
    fn counts(&self) -> (u64, u64, u64) {
        (self.pads, self.tags, self.digests)
    }
}

// The exclusive or of a byte and of all these.
fn folded(start: u8, bytes: &[u8]) -> u8
    ensures { result ≡ fold bit_xor start bytes.now }
{
    bytes.iter().fold(start, |all, byte| all ^ byte)
}

// The exclusive or of a byte and of all bytes of a line.
fn folded_line(start: u8, line: &Line) -> u8
    ensures { result ≡ fold bit_xor start line.now.0 }
{
    line.is_whole();
    let bytes = &line.0;
    let all = u8x16::from_slice(bytes)
        ^ u8x16::from_slice(&bytes[LANES..])
        ^ u8x16::from_slice(&bytes[2 * LANES..])
        ^ u8x16::from_slice(&bytes[3 * LANES..]);
    start ^ all.reduce_xor()
}

// One byte as 16, the others 0.
fn last_byte_tag(byte: u8) -> Tag
    ensures { result ≡ last_byte_tag byte }
{
    let mut tag = [0; 16];
    tag[15] = byte;
    tag
}
