//! What is made, and what comes of it.
ghost use Rattle.std.specs.Prelude.{◌≡◌, ◌*◌, map, replicate, string_bytes};
ghost use Rattle.sha2.specs.Sha256.{sha256};
ghost use Rattle.cipher_rate.specs.Work.{work_of, encrypted, made};

use aes_block::Aes128;
use collision_witness::read_number;
use mac_tags::tag16;
use sha2::{Digest, Sha256};

/// What the words ask for.
#[derive(Clone, Copy, Debug, PartialEq, Eq)]
pub(crate) enum Work {
    /// So many blocks of zeros are hashed as one message.
    Hash { blocks: u64 },
    /// A block of zeros is encrypted so often, each time what came of it before.
    Encrypt { times: u64 },
}

/// What two words ask for: `hash` or `encrypt`, and a number.
pub(crate) fn read_work(words: &[String]) -> Option<Work>
    ensures { result ≡ work_of (map string_bytes words.now) }
{
    let [name, number] = words else {
        return None;
    };
    let Ok(count) = read_number(number.as_bytes()) else {
        return None;
    };
    if name.as_str() == "hash" {
        Some(Work::Hash { blocks: count })
    } else if name.as_str() == "encrypt" {
        Some(Work::Encrypt { times: count })
    } else {
        None
    }
}

/// The digest of `blocks` blocks of zeros: a compression for each, and one for the padding.
fn hashed(blocks: u64) -> [u8; 32]
    ensures { result ≡ sha256 (replicate (64 * blocks) 0) }
{
    let block = [0; 64];
    let mut hasher = Sha256::new();
    for made in 0..blocks {
        hasher.update(block.as_slice());
    }
    hasher.finalize()
}

/// A block of zeros, encrypted so often under a key of zeros.
#[tactic(auto, unfolding(crate::specs::Work::encrypted))]
fn encrypted(times: u64) -> [u8; 16]
    ensures { result ≡ encrypted times }
{
    let cipher = Aes128::new(&[0; 16]);
    let mut block = [0; 16];
    for made in 0..times {
        block = cipher.encrypt_fast(&block);
    }
    block
}

/// What comes of the work: the first 16 bytes of the digest, or the block.
pub(crate) fn made(work: Work) -> [u8; 16]
    ensures { result ≡ made work }
{
    match work {
        Work::Hash { blocks } => tag16(&hashed(blocks)),
        Work::Encrypt { times } => encrypted(times),
    }
}
