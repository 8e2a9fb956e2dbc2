//! Paths fetched, tampered with, renewed and written back, for 16 pages.
ghost use Rattle.std.specs.Prelude.{◌≡◌, length};
ghost use Rattle.pmem_base.specs.Geo.{shape_of};
ghost use Rattle.pmem_base.specs.Layout.{meta_lines, shadow_lines, device_lines};
ghost use Rattle.board.specs.MemBoard.{memory_of};
ghost use Rattle.seal_ledger.specs.View.{ledger_of};
ghost use Rattle.meta_path.specs.Blocks.{AreInTheirBanks};

use crate::tests::equal;
use board::{Board, MemBoard};
use bonsai_tree::node_of;
use meta_cache::Cache;
use meta_path::{PathFault, fetch_path, make_dirty, next_path, store_path, write_back_one};
use pmem_base::{Exhibit, Geo, Line, Regs, Tag};
use seal_ledger::{Audit, Ledger};
use shadow_tables::Mirror;
use std::alloc::Global;
use std::process::Abort;
use std::test::Fail;
use suite::{Counted, Suite, WeakSuite};

/// What the calls work on.
#[derive(Drop)]
struct Bench {
    geo: Geo,
    cache: Cache,
    mirror: Mirror,
    board: MemBoard,
    suite: WeakSuite,
    ledger: Ledger,
    ghost its_shape: { cache.shape ≡ shape_of geo },
    ghost its_banks: { AreInTheirBanks (shape_of geo) cache.banks },
    ghost its_mirror: { length mirror ≡ shadow_lines (shape_of geo) },
    ghost its_truth: { length (ledger_of ledger).truth ≡ meta_lines (shape_of geo) },
    ghost its_size: { length (memory_of board).lines ≡ device_lines (shape_of geo) },
}

/// Fifteen zeros and one byte.
fn short(byte: u8) -> Tag {
    let mut digest = [0; 16];
    digest[15] = byte;
    digest
}

/// An empty cache over a memory of 16 pages, whose tree stands over counter blocks of zeros.
fn formatted(rt: &impl Abort, alloc: Global, sets: u8, ways: u8) -> Result<Bench, Fail> {
    let geo = Geo::new(2, sets, ways, 4, 0)?;
    let mut bench = Bench {
        geo,
        cache: Cache::new(alloc, &geo)?,
        mirror: Mirror::new(alloc, &geo)?,
        board: MemBoard::new(alloc, geo.size())?,
        suite: WeakSuite::new(&[0; 16], &[0x10], false),
        ledger: Ledger::new(alloc, &geo)?,
    };
    for x in [4, 3, 2, 1, 0] {
        grow(rt, &mut bench, x);
    }
    let top = *line(rt, &bench, 0);
    let mut regs = Regs::empty();
    regs.root = bench.suite.digest(0, &top);
    equal(rt, bench.board.latch(&regs), Ok(()));
    Ok(bench)
}

/// Makes the node at `x`, below 5, of the digests of its children.
fn grow(rt: &impl Abort, bench: &mut Bench, x: u8) {
    let mut digests = [[0; 16]; 4];
    for i in 0..4_u8 {
        let child = 4 * u32::from(x) + 1 + u32::from(i);
        let below = *line(rt, bench, child);
        digests[usize::from(i)] = bench.suite.digest(child, &below);
    }
    let node = node_of(&digests);
    put_true(rt, bench, u32::from(x), &node);
}

/// The metadata line at `x` on the device.
fn line<'a>(rt: &impl Abort, bench: &'a Bench, x: u32) -> &'a Line {
    assert!(rt; x < bench.geo.metas());
    bench.board.peek(bench.geo.meta_line(x))
}

/// Writes the metadata line at `x` past the controller.
fn put(rt: &impl Abort, bench: &mut Bench, x: u32, line: &Line) {
    assert!(rt; x < bench.geo.metas());
    let place = bench.geo.meta_line(x);
    bench.board.poke(place, line);
}

/// Makes the true metadata line at `x` this one, on the device and in the ledger.
fn put_true(rt: &impl Abort, bench: &mut Bench, x: u32, line: &Line) {
    assert!(rt; x < bench.geo.metas());
    bench.ledger.note_meta(x, line);
    put(rt, bench, x, line);
}

/// The counts of reads, line writes and digests.
fn counts(bench: &Bench) -> (u64, u64, u64) {
    let (reads, writes, _) = bench.board.counts();
    (reads, writes, bench.suite.counts().2)
}

/// Fetches a page's path. The numbers are those of reads, line writes and digests that it took.
fn fetch(
    rt: &impl Abort,
    bench: &mut Bench,
    page: u32,
) -> (Result<(), PathFault>, (u64, u64, u64)) {
    assert!(rt; page < bench.geo.pages());
    let before = counts(bench);
    let answer = fetch_path(
        &bench.geo,
        &mut bench.cache,
        &mut bench.board,
        &mut bench.suite,
        &mut bench.ledger,
        page,
    );
    let after = counts(bench);
    let took = (
        after.0.abs_diff(before.0),
        after.1.abs_diff(before.1),
        after.2.abs_diff(before.2),
    );
    (answer, took)
}

/// Fetches the path of page 0 and names its blocks. The answer is how many lines that wrote, if it wasn't cut.
fn name(rt: &impl Abort, bench: &mut Bench) -> Result<u64, PathFault> {
    assert!(rt; 0 < bench.geo.pages());
    fetch_path(
        &bench.geo,
        &mut bench.cache,
        &mut bench.board,
        &mut bench.suite,
        &mut bench.ledger,
        0,
    )?;
    let before = bench.board.counts().1;
    make_dirty(
        &bench.geo,
        &bench.cache,
        &mut bench.mirror,
        &mut bench.board,
        0,
    )?;
    Ok(bench.board.counts().1.abs_diff(before))
}

/// Fetches the path of page 0 and gives it a counter block with the first minor 1. The answer is the
/// new root.
fn renew(rt: &impl Abort, bench: &mut Bench, persisted: bool) -> Result<Tag, PathFault> {
    assert!(rt; 0 < bench.geo.pages());
    fetch_path(
        &bench.geo,
        &mut bench.cache,
        &mut bench.board,
        &mut bench.suite,
        &mut bench.ledger,
        0,
    )?;
    let mut block = Line::default();
    block.0[8] = 2;
    let path = next_path(&bench.geo, &bench.cache, &mut bench.suite, 0, &block);
    store_path(
        &mut bench.cache,
        &mut bench.ledger,
        &path,
        u8::from(persisted),
    );
    Ok(path.root)
}

/// Writes the oldest dirty block back.
fn flush(bench: &mut Bench) -> Option<u32> {
    write_back_one(&bench.geo, &mut bench.cache, &mut bench.board).unwrap_or(None)
}

/// A fetch has this answer, and takes so much.
fn fetches_to(
    rt: &impl Abort,
    bench: &mut Bench,
    page: u32,
    wanted: Result<(), PathFault>,
    took: (u64, u64, u64),
) {
    equal(rt, fetch(rt, bench, page), (wanted, took));
}

/// A renewal of page 0's counter block makes this root.
fn renews_to(rt: &impl Abort, bench: &mut Bench, persisted: bool, root: u8) {
    equal(rt, renew(rt, bench, persisted), Ok(short(root)));
}

/// The oldest dirty block is this one.
fn flushes_to(rt: &impl Abort, bench: &mut Bench, x: Option<u32>) {
    equal(rt, flush(bench), x);
}

#[test]
fn fetches(rt: HostRuntime) -> Result<(), Fail> {
    let mut bench = formatted(&rt, rt.alloc(), 4, 2)?;
    equal(&rt, bench.board.regs().root, short(0x15));
    // cold, warm, and one block that isn't cached
    fetches_to(&rt, &mut bench, 0, Ok(()), (3, 0, 3));
    fetches_to(&rt, &mut bench, 0, Ok(()), (0, 0, 0));
    fetches_to(&rt, &mut bench, 1, Ok(()), (1, 0, 1));
    let mut bench = formatted(&rt, rt.alloc(), 1, 1)?;
    renews_to(&rt, &mut bench, false, 0x17);
    // two blocks give way, one of which was changed and is written, and is then right
    fetches_to(&rt, &mut bench, 15, Ok(()), (2, 2, 2));
    equal(&rt, line(&rt, &bench, 5).0[8], 2);
    fetches_to(&rt, &mut bench, 0, Ok(()), (2, 0, 2));
    Ok(())
}

#[test]
fn tampered_lines(rt: HostRuntime) -> Result<(), Fail> {
    let mut bench = formatted(&rt, rt.alloc(), 4, 2)?;
    let second = *line(&rt, &bench, 1);
    let mut first = second;
    first.0[15] ^= 1;
    put(&rt, &mut bench, 1, &first);
    fetches_to(&rt, &mut bench, 0, Err(PathFault::Meta { x: 1 }), (2, 0, 2));
    // Under the weak digest the order of the bytes doesn't count.
    first = second;
    first.0.swap(14, 15);
    put(&rt, &mut bench, 1, &first);
    fetches_to(&rt, &mut bench, 0, Err(PathFault::Shown), (1, 0, 1));
    let clash = Exhibit::Clash {
        x: 1,
        first,
        second,
    };
    equal(&rt, bench.ledger.exhibit(), Some(&clash));
    Ok(())
}

#[test]
fn named_and_flushed(rt: HostRuntime) -> Result<(), Fail> {
    let mut bench = formatted(&rt, rt.alloc(), 4, 2)?;
    equal(&rt, name(&rt, &mut bench), Ok(3));
    equal(&rt, name(&rt, &mut bench), Ok(0));
    renews_to(&rt, &mut bench, false, 0x17);
    flushes_to(&rt, &mut bench, Some(0));
    flushes_to(&rt, &mut bench, Some(1));
    flushes_to(&rt, &mut bench, Some(5));
    flushes_to(&rt, &mut bench, None);
    // A counter block that was persisted isn't dirty.
    renews_to(&rt, &mut bench, true, 0x17);
    flushes_to(&rt, &mut bench, Some(0));
    flushes_to(&rt, &mut bench, Some(1));
    flushes_to(&rt, &mut bench, None);
    flushes_to(&rt, &mut bench, None);
    let mut bench = formatted(&rt, rt.alloc(), 4, 2)?;
    bench.board.arm(1);
    equal(&rt, name(&rt, &mut bench), Err(PathFault::Cut));
    equal(&rt, counts(&bench).1, 1);
    Ok(())
}
