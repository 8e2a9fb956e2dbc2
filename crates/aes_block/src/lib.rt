#![tactic(auto)]
//! The block cipher of FIPS 197 with 128-bit keys, encryption only.

ghost use Rattle.std.specs.Prelude.{◌≡◌};
ghost use Rattle.aes_block.specs.Cipher.{aes128_of};

mod bytes;
mod fast;
mod keys;
mod tables;
mod words;

use bytes::{add_round_key, mix_columns, shift_rows, sub_bytes};
use fast::{mixed, shifted, with_round_key};
use keys::{KEY_WORDS, ROUNDS, expanded_key, round_key};
use std::marker::Model;
use words::{load, store};

/// AES-128 under one key, which is expanded once (FIPS 197, 5.2).
///
/// Contracts see the key, a list of 16 bytes.
#[derive(Clone, Copy)]
pub struct Aes128 {
    words: [u32; KEY_WORDS],
}

impl Model for Aes128 {
    ghost use Rattle.std.specs.Prelude.{List, ℕ};
    ghost use Rattle.aes_block.specs.Cipher.{expanded_key};
    ghost use Rattle.aes_block.specs.Words.{key_of, words_of_bytes, IsExpanded};
    ghost use Rattle.std.proofs.Common.{ap, sym, ◌∙◌};

    ghost Value = { List ℕ };

    ghost view = { λ a. key_of a.words };

    ghost invariant = { λ a. IsExpanded a.words };

    ghost inverse = { λ key. record { words = words_of_bytes (expanded_key key 40) } };

    ghost inverse_ok = { λ a h. ap (λ words. record { words = words }) (ap words_of_bytes (sym h.expanded) ∙ h.in_range) };
}

impl Aes128 {
    /// The cipher under this key.
    pub fn new(key: &[u8; 16]) -> Aes128
        ensures { result ≡ key.now }
    {
        Aes128 {
            words: expanded_key(key),
        }
    }

    /// The block encrypted (FIPS 197, 5.1), step by step on its bytes.
    pub fn encrypt(&self, block: &[u8; 16]) -> [u8; 16]
        ensures { result ≡ aes128_of self.now block.now }
    {
        let mut state = *block;
        add_round_key(&mut state, &round_key(&self.words, 0));
        for round in 1..ROUNDS {
            sub_bytes(&mut state);
            state = mix_columns(&shift_rows(&state));
            add_round_key(&mut state, &round_key(&self.words, round));
        }
        sub_bytes(&mut state);
        state = shift_rows(&state);
        add_round_key(&mut state, &round_key(&self.words, ROUNDS));
        state
    }

    /// The block encrypted (FIPS 197, 5.1), by tables that join the steps of a round.
    pub fn encrypt_fast(&self, block: &[u8; 16]) -> [u8; 16]
        ensures { result ≡ aes128_of self.now block.now }
    {
        let words = &self.words;
        let mut state = with_round_key(&load(block), words, 0);
        for round in 1..ROUNDS {
            state = with_round_key(&mixed(&state), words, round);
        }
        store(&with_round_key(&shifted(&state), words, ROUNDS))
    }
}
