#![tactic(auto)]
//! Counter blocks: a page's major counter and the minors of its 64 lines.
ghost use Rattle.std.specs.Prelude.{◌≡◌, ◌≤◌, ◌<◌, ◌-◌, ◌^◌, ◌↔◌, All, IsErr, IfOk, ok_or};
ghost use Rattle.split_counters.specs.Blocks.{IsBlock, minor_of, bumped, rolled};

mod bytes;

pub use bytes::{
    block_is_kept, counter_at, line_is_kept, minors_have_seven_bits, pack, raise_at, unpack,
};
use pmem_base::Spent;

/// A page's major and its lines' minors, each at most 127.
#[derive(Clone, Copy, Debug, PartialEq, Eq)]
pub struct Block {
    pub major: u64,
    pub minors: [u8; 64],
}

/// Whether a minor was raised, or stood at 127.
#[derive(Clone, Copy, Debug, PartialEq, Eq)]
pub enum Bumped {
    Done,
    Overflow,
}

/// Raises minor `i` by one. If it is 127 the block stays as it was.
pub fn bump(block: &mut Block, i: u8) -> Bumped
    requires place { i < 64 }
    requires minors { All (λ m. m ≤ 127) block.old.minors }
    ensures overflow { (result ≡ Bumped.Overflow) ↔ (minor_of block.old i ≡ 127) }
    ensures done { (result ≡ Bumped.Done) ↔ (minor_of block.old i < 127) }
    ensures unchanged { result ≡ Bumped.Overflow → block.new ≡ block.old }
    ensures raised { result ≡ Bumped.Done → bumped block.old i ≡ Some block.new }
    ensures valid { IsBlock block.new }
{
    let minor = &mut block.minors[usize::from(i)];
    if *minor == 127 {
        return Bumped::Overflow;
    }
    *minor += 1;
    Bumped::Done
}

/// The block after a page's last minor: the major one greater and all minors 0. Errors: `Spent`, with the page, if the
/// major is 2^64 - 1.
#[tactic(auto, unfolding(crate::specs::Blocks::zero_minors))]
pub fn roll(block: &Block, page: u32) -> Result<Block, Spent>
    ensures value { result ≡ ok_or (rolled block.now) (record { page = page }) }
    ensures spent { IsErr result ↔ (block.now.major ≡ 2 ^ 64 - 1) }
    ensures valid { IfOk result IsBlock }
{
    match block.major.checked_add(1) {
        Some(major) => Ok(Block {
            major,
            minors: [0; 64],
        }),
        None => Err(Spent { page }),
    }
}
