//! HMAC (RFC 2104) with SHA-256, and the 16-byte tags made of it.
#![tactic(auto)]

ghost use Rattle.std.specs.Prelude.{◌≡◌, ◌≤◌, ◌++◌, List, ℕ, length, map, take, bit_xor};
ghost use Rattle.mac_tags.specs.Hmac.{padded_key, hmac_of, leftmost_16};
ghost use Rattle.mac_tags.specs.Keyed.{IsKeyed};

use sha2::{Digest, Sha256};
use std::marker::Model;

// The bytes of a block of SHA-256, which are also the most of a key.
const BLOCK_LEN: usize = 64;

// The byte that the inner key is combined with, and that of the outer key (RFC 2104, 2).
const IPAD: u8 = 0x36;

const OPAD: u8 = 0x5c;

// The key with zeros after it, up to a block.
fn padded(key: &[u8]) -> [u8; BLOCK_LEN]
    requires { length key.now ≤ 64 }
    ensures { result ≡ padded_key key.now }
{
    let mut block = [0u8; BLOCK_LEN];
    block[..key.len()].copy_from_slice(key);
    block
}

// Each byte of a block combined with one byte.
fn combined(block: &[u8; BLOCK_LEN], byte: u8) -> [u8; BLOCK_LEN]
    ensures { result ≡ map (λ b. bit_xor b byte) block.now }
{
    let mut out = [0u8; BLOCK_LEN];
    for i in 0..BLOCK_LEN {
        out[i] = block[i] ^ byte;
    }
    out
}

/// A key of at most 64 bytes, made ready for many texts: the two blocks that begin the inner and
/// the outer message are hashed once and for all. Contracts see the key's bytes as a list.
#[derive(Drop)]
pub struct HmacKey {
    // The padded key and the key's length. No call reads them: they say which key this is.
    block: [u8; BLOCK_LEN],
    len: usize,
    // What the hashers of the inner and the outer message have taken in so far.
    inner: Sha256,
    outer: Sha256,
}

impl Model for HmacKey {
    ghost Value = { List ℕ };

    ghost view = { λ k. take k.len k.block };

    ghost invariant = { λ k. IsKeyed k.inner k.outer (take k.len k.block) };
}

impl HmacKey {
    /// Makes a key ready.
    pub fn new(key: &[u8]) -> HmacKey
        requires { length key.now ≤ 64 }
        ensures { result ≡ key.now }
    {
        let block = padded(key);
        HmacKey {
            block,
            len: key.len(),
            inner: Sha256::new_with_prefix(combined(&block, IPAD)),
            outer: Sha256::new_with_prefix(combined(&block, OPAD)),
        }
    }

    /// The HMAC of `text` under this key.
    pub fn hmac(&self, text: &[u8]) -> [u8; 32]
        ensures { result ≡ hmac_of self.now text.now }
    {
        self.hmac_parts(text, &[])
    }

    /// The HMAC of one text given in two parts, so that no caller has to copy them together.
    #[tactic(auto, unfolding(crate::specs::Hmac::hmac_of))]
    pub fn hmac_parts(&self, header: &[u8], body: &[u8]) -> [u8; 32]
        ensures { result ≡ hmac_of self.now (header.now ++ body.now) }
    {
        let mut inner = self.inner.clone().unwrap();
        inner.update(header);
        inner.update(body);
        let mut outer = self.outer.clone().unwrap();
        outer.update(inner.finalize());
        outer.finalize()
    }
}

/// The HMAC of one text of at most 128 bytes, under a key of at most 64. For many texts under one
/// key, `HmacKey` hashes less.
pub fn hmac(key: &[u8], text: &[u8]) -> [u8; 32]
    requires key_fits { length key.now ≤ 64 }
    requires text_fits { length text.now ≤ 128 }
    ensures { result ≡ hmac_of key.now text.now }
{
    HmacKey::new(key).hmac(text)
}

/// The tag made of an HMAC: its leftmost 16 bytes (RFC 2104, 5).
pub fn tag16(full: &[u8; 32]) -> [u8; 16]
    ensures { result ≡ leftmost_16 full.now }
{
    let mut tag = [0u8; 16];
    tag.copy_from_slice(&full[..16]);
    tag
}
