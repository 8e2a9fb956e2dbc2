//! The suite of AES-128, HMAC and SHA-256.
ghost use Rattle.std.specs.Prelude.{◌≡◌, ◌≤◌, ◌+◌, ◌++◌, length, take, drop};
ghost use Rattle.suite.specs.Formulas.{AreInRange, tag_text, digest_text};
ghost use Rattle.suite.specs.Aes.{pad_input, four_blocks, aes_formulas};

use crate::shared::{header, one_more};
use crate::{Counted, Suite};
use aes_block::Aes128;
use mac_tags::{HmacKey, tag16};
use pmem_base::{Ctr, Line, Tag};
use sha2::{Digest, Sha256};

/// Pads by AES-128 in counter mode, tags by HMAC with SHA-256, digests by SHA-256. Tags and digests
/// are cut to their leftmost 16 bytes.
#[derive(Drop)]
pub struct AesSuite {
    cipher: Aes128,
    tag_key: HmacKey,
    pads: u64,
    tags: u64,
    digests: u64,
    pub ghost key_length: { length cipher ≡ 16 },
    pub ghost in_range: { AreInRange (aes_formulas (cipher ++ tag_key)) },
}

impl AesSuite {
    ghost use Rattle.suite.specs.Suites.{aes_keys, aes_counts};

    /// The suite under a key and a tag key of 1 to 64 bytes.
    pub fn new(key: &[u8; 16], tag_key: &[u8]) -> AesSuite
        requires some_bytes { 1 ≤ length tag_key.now }
        requires one_block { length tag_key.now ≤ 64 }
        ensures keys { aes_keys result ≡ key.now ++ tag_key.now }
        ensures counts { aes_counts result ≡ (0, 0, 0) }
    {
        AesSuite {
            cipher: Aes128::new(key),
            tag_key: HmacKey::new(tag_key),
            pads: 0,
            tags: 0,
            digests: 0,
        }
    }
}

impl Suite for AesSuite {
    ghost use Rattle.suite.specs.Suites.{aes_keys, aes_counts};

    ghost keys = { aes_keys };

    ghost formulas_of = { aes_formulas };

    ghost pads = { λ suite. (aes_counts suite).0 };

    ghost tags = { λ suite. (aes_counts suite).1 };

    ghost digests = { λ suite. (aes_counts suite).2 };

    fn pad(&mut self, at: u32, ctr: Ctr) -> Line {
        self.pads = one_more(self.pads);
        four_blocks(&self.cipher, at, ctr)
    }

    fn tag(&mut self, at: u32, ctr: Ctr, cipher: &Line) -> Tag {
        self.tags = one_more(self.tags);
        tag16(&self.tag_key.hmac(&tag_text(at, ctr, cipher)))
    }

    fn digest(&mut self, x: u32, line: &Line) -> Tag {
        self.digests = one_more(self.digests);
        tag16(&Sha256::digest(digest_text(x, line)))
    }

    ghost in_range = { λ suite. suite.in_range };
}

impl Counted for AesSuite {
    fn counts(&self) -> (u64, u64, u64) {
        (self.pads, self.tags, self.digests)
    }
}

// The bytes that a tag is taken over, in one piece: the hasher then copies none of its first block.
fn tag_text(at: u32, ctr: Ctr, cipher: &Line) -> [u8; 77]
    ensures { result ≡ tag_text at ctr cipher.now }
{
    cipher.is_whole();
    let mut text = [0; 77];
    text[..13].copy_from_slice(&header(at, ctr));
    text[13..].copy_from_slice(&cipher.0);
    text
}

// The bytes that a digest is taken over, in one piece.
fn digest_text(x: u32, line: &Line) -> [u8; 69]
    ensures { result ≡ digest_text x line.now }
{
    line.is_whole();
    let mut text = [1; 69];
    text[1..5].copy_from_slice(&x.to_be_bytes());
    text[5..].copy_from_slice(&line.0);
    text
}

// Four blocks encrypted under one key.
fn four_blocks(cipher: &Aes128, at: u32, ctr: Ctr) -> Line
    ensures { result ≡ four_blocks cipher.now at ctr }
{
    let mut pad = Line::default();
    for j in 0..4 {
        let block = cipher.encrypt_fast(&pad_input(at, ctr, j));
        copy_to(&mut pad.0, 16 * usize::from(j), &block);
    }
    pad
}

// The input of block `j` of a pad.
fn pad_input(at: u32, ctr: Ctr, j: u8) -> [u8; 16]
    ensures { result ≡ pad_input at ctr j }
{
    let mut input = [0; 16];
    input[..13].copy_from_slice(&header(at, ctr));
    input[13] = j;
    input
}

// Copies a block into its place.
fn copy_to(out: &mut [u8], at: usize, block: &[u8; 16])
    requires { at + 16 ≤ length out.old }
    ensures { out.new ≡ take at out.old ++ block.now ++ drop (at + 16) out.old }
{
    out[at..at + 16].copy_from_slice(block);
}
