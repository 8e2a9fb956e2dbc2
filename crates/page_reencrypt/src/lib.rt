#![tactic(auto)]
//! Page re-encryption registers and the counters that they hold back.
ghost use Rattle.std.specs.Prelude.{◌≡◌, ◌≢◌, ◌≤◌, ◌<◌, ◌-◌, ◌^◌, ◌==◌, ◌↔◌, All, IsErr, IsNone, IfErr, IfOk, IfSome, is_some, not, filter, length, position, slice_get};
ghost use Rattle.std.specs.Option.{option_and_then, option_copied};
ghost use Rattle.pmem_base.specs.Lines.{IsCtr};
ghost use Rattle.pmem_base.specs.Layout.{index_in_page};
ghost use Rattle.pmem_base.specs.Registers.{is_done, not_done, places_of_page, with_done};
ghost use Rattle.split_counters.specs.Blocks.{IsBlock, packed, unpacked, rolled, block_counter};
ghost use Rattle.page_reencrypt.specs.Registers.{register_of, register_held, is_holding, counter_of, begun};
ghost use Rattle.page_reencrypt.specs.Marked.{marked};

use arrayvec::ArrayVec;
use pmem_base::{Ctr, Progress, Spent};
use split_counters::{Block, pack, roll, unpack};

/// Begins a page: the block that follows its present one, and a register that keeps the present one's line, with no
/// line done. Errors: `Spent` if the major is exhausted.
pub fn begin(block: &Block, page: u32) -> Result<(Block, Progress), Spent>
    requires { All (λ m. m ≤ 127) block.now.minors }
    ensures spent { IsErr result ↔ (block.now.major ≡ 2 ^ 64 - 1) }
    ensures page { IfErr result (λ e. e.page ≡ page) }
    ensures block { IfOk result (λ r. rolled block.now ≡ Some r.0) }
    ensures valid { IfOk result (λ r. IsBlock r.0) }
    ensures register { IfOk result (λ r. r.1 ≡ begun page (packed block.now)) }
    ensures all_left { IfOk result (λ r. not_done r.1 ≡ places_of_page) }
{
    let next = roll(block, page)?;
    let register = Progress {
        page,
        old: pack(block),
        done: 0,
    };
    Ok((next, register))
}

/// The counter of data line `at`, where `block` is its page's block: that of the old block if a register has the page
/// and the line isn't done, and otherwise that of `block`.
pub fn ctr_of(list: &ArrayVec<Progress, 4>, block: &Block, at: u32) -> Ctr
    ensures value { result ≡ counter_of list.now.items block.now at }
    ensures range { All (λ m. m ≤ 127) block.now.minors → IsCtr result }
{
    match holder(list, at) {
        Some(register) => counter_in(&unpack(&register.old), at),
        None => counter_in(block, at),
    }
}

/// Whether a register holds data line `at`: it has the line's page, and the line isn't done.
pub fn is_left(list: &ArrayVec<Progress, 4>, at: u32) -> bool
    ensures { result ≡ is_some (register_held list.now.items at) }
{
    holder(list, at).is_some()
}

// The register that holds the line.
fn holder(list: &[Progress], at: u32) -> Option<&Progress>
    ensures { option_copied result ≡ register_held list.now at }
{
    list.iter().find(|register| is_held(register, at))
}

// Whether the register is of the line's page, and the line isn't done in it.
fn is_held(register: &Progress, at: u32) -> bool
    ensures { result ≡ is_holding register.now at }
{
    register.page == at / 64 && register.done >> (at % 64) & 1 == 0
}

// The counter of a line in its page's block.
fn counter_in(block: &Block, at: u32) -> Ctr
    ensures value { result ≡ block_counter block.now (index_in_page at) }
    ensures range { All (λ m. m ≤ 127) block.now.minors → IsCtr result }
{
    Ctr {
        major: block.major,
        minor: block.minors[(at % 64) as usize],
    }
}

/// The place of the page's register in the list.
pub fn find_open(list: &ArrayVec<Progress, 4>, page: u32) -> Option<u8>
    ensures place { result ≡ position (λ register. register.page == page) list.now.items }
    ensures register { option_and_then (λ n. slice_get list.now.items n) result ≡ register_of list.now.items page }
    ensures none { IsNone result ↔ All (λ register. register.page ≢ page) list.now.items }
    ensures inside { IfSome result (λ n. n < length list.now.items) }
{
    place_of(list, page).map(|place| place as u8)
}

// The first place of the page.
fn place_of(list: &[Progress], page: u32) -> Option<usize>
    ensures { result ≡ position (λ register. register.page == page) list.now }
{
    list.iter().position(|register| register.page == page)
}

/// The least line of the page that isn't done.
pub fn next_left(progress: &Progress) -> Option<u8>
    ensures least { result ≡ slice_get (not_done progress.now) 0 }
    ensures inside { IfSome result (λ i. i < 64) }
    ensures none { IsNone result ↔ (length (not_done progress.now) ≡ 0) }
{
    if progress.done == u64::MAX {
        return None;
    }
    Some(progress.done.trailing_ones() as u8)
}

/// How many lines of the page aren't done.
pub fn left(progress: &Progress) -> u8
    ensures number { result ≡ length (not_done progress.now) }
    ensures bound { result ≤ 64 }
{
    progress.done.count_zeros() as u8
}

/// The register with line `i` done. `None` if all 64 lines are done then.
pub fn mark(progress: &Progress, i: u8) -> Option<Progress>
    requires { i < 64 }
    ensures value { result ≡ marked progress.now i }
    ensures done { IfSome result (λ next. next ≡ with_done progress.now i) }
    ensures none { IsNone result ↔ (length (not_done (with_done progress.now i)) ≡ 0) }
    // Line i alone is no longer left.
    ensures lines_left { not_done (with_done progress.now i) ≡ filter (λ j. not (j == i)) (not_done progress.now) }
{
    let done = progress.done | 1 << i;
    if done == u64::MAX {
        return None;
    }
    Some(Progress { done, ..*progress })
}
