//! A page's path is fetched into the cache, level by level from the top.
ghost use Rattle.std.specs.Prelude.{◌≡◌, ◌<◌, ◌≤◌, ◌+◌, ◌↔◌, true, false, length, IsTrue, IsOk, OnOk, IfErr};
ghost use Rattle.pmem_base.specs.Counts.{risen};
ghost use Rattle.pmem_base.specs.Geo.{shape_of};
ghost use Rattle.pmem_base.specs.Layout.{pages, meta_lines, device_lines};
ghost use Rattle.call_plan.specs.Plans.{ended};
ghost use Rattle.call_plan.specs.Following.{Follows};
ghost use Rattle.meta_cache.specs.Banks.{is_cached};
ghost use Rattle.meta_cache.specs.Sets.{victim_of};
ghost use Rattle.meta_path.specs.Blocks.{slots_at, IsPathCached, AreInTheirBanks, dirty_count};
ghost use Rattle.meta_path.specs.Levels.{expected_digest, HasParent, HasRoomMade, dirty_position};
ghost use Rattle.meta_path.specs.Plans.{room_plan};
ghost use Rattle.meta_path.specs.Keeping.{KeepsBlocks};
ghost use Rattle.meta_path.specs.Promised.{FetchesBlocks, FailsAtBlock, LeavesCachedPath, FailsByBoard, FollowsBlocks};
ghost use Rattle.meta_path.specs.Promised.{FollowsLevel, FollowsCheck, HasExpectedDigest};

use crate::faults::PathFault;
use crate::writing::{cached_line, write_back};
use board::Board;
use bonsai_tree::{child, child_slot, parent, path};
use meta_cache::Cache;
use pmem_base::{Cut, Geo, Line, Tag};
use seal_ledger::{Audit, Go};
use suite::Suite;

/// Fetches the path of a page, so that each of its blocks is cached. From the top down, a block that is cached becomes
/// the most recently used of its set. For each other one its line is read, its digest is compared with its parent's
/// entry for it (the root register's at the top), the audit sees the line, a dirty block that is evicted for it is
/// written to its place, and the line is placed, clean. Errors: `Meta { x }` if the line at position x doesn't have the
/// digest that its parent says; `Shown` if its digest is right and the audit knows another line; `Cut`.
pub fn fetch_path<B: Board, S: Suite, A: Audit>(
    geo: &Geo,
    cache: &mut Cache,
    board: &mut B,
    suite: &mut S,
    audit: &mut A,
    page: u32,
) -> Result<(), PathFault>
    requires page { page < pages (shape_of geo.now) }
    requires shape { cache.old.shape ≡ shape_of geo.now }
    requires banks { AreInTheirBanks (shape_of geo.now) cache.old.banks }
    requires truth { length (A.ledger audit.old).truth ≡ meta_lines (shape_of geo.now) }
    requires size { (B.device board.old).size ≡ device_lines (shape_of geo.now) }

    ensures ok { OnOk result (FetchesBlocks B.Board S.Suite A.Audit geo.now cache.old board.old suite.old audit.old
        cache.new board.new suite.new audit.new page) }
    ensures cached { OnOk result (IsPathCached (shape_of geo.now) cache.new.banks page) }
    ensures ledger { OnOk result (A.ledger audit.new ≡ A.ledger audit.old) }
    ensures capacity { A.capacity audit.new ≡ A.capacity audit.old }

    ensures fault { IfErr result (FailsAtBlock B.Board S.Suite A.Audit geo.now cache.old board.old suite.old audit.old
        cache.new board.new suite.new audit.new page) }
    ensures no_fault { IsPathCached (shape_of geo.now) cache.old.banks page → IsOk result }
    ensures undisturbed { LeavesCachedPath B.Board S.Suite A.Audit geo.now cache.old board.old suite.old audit.old
        cache.new board.new suite.new audit.new page }
    ensures cause { FailsByBoard B.Board S.Suite A.Audit geo.now cache.old board.old suite.old audit.old
        cache.new board.new suite.new audit.new result }

    ensures keeps { KeepsBlocks (shape_of geo.now) (A.ledger audit.old).truth page cache.old.banks cache.new.banks
        (B.device board.old) (B.device board.new) }
    ensures shape { cache.new.shape ≡ cache.old.shape }
    ensures truth { (A.ledger audit.new).truth ≡ (A.ledger audit.old).truth }
    ensures dirty_left { result ≡ Err PathFault.Cut → (B.device board.old).live ≡ true
        → 1 ≤ dirty_count (shape_of geo.now) cache.new.banks }
    ensures keys { S.keys suite.new ≡ S.keys suite.old }
    ensures pads { S.pads suite.new ≡ S.pads suite.old }
    ensures tags { S.tags suite.new ≡ S.tags suite.old }

    ensures plan { FollowsBlocks B.Board S.Suite A.Audit geo.now cache.old board.old suite.old audit.old
        cache.new board.new suite.new audit.new page result }
{
    cache.are_banks();
    let path = path(geo, page);
    'levels: for bank in 0..geo.levels() + 1 {
        let x = path.as_slice()[usize::from(bank)];
        fetch_level(geo, cache, board, suite, audit, bank, x)?;
    }
    Ok(())
}

/// Fetches position `x` of a bank, whose parent is cached.
fn fetch_level<B: Board, S: Suite, A: Audit>(
    geo: &Geo,
    cache: &mut Cache,
    board: &mut B,
    suite: &mut S,
    audit: &mut A,
    bank: u8,
    x: u32,
) -> Result<(), PathFault>
    requires shape { cache.old.shape ≡ shape_of geo.now }
    requires banks { AreInTheirBanks (shape_of geo.now) cache.old.banks }
    requires truth { length (A.ledger audit.old).truth ≡ meta_lines (shape_of geo.now) }
    requires size { (B.device board.old).size ≡ device_lines (shape_of geo.now) }
    requires bank { bank ≤ (shape_of geo.now).levels }
    requires position { x < meta_lines (shape_of geo.now) }
    requires parent { HasParent (shape_of geo.now) cache.old.banks bank x }
    ensures capacity { A.capacity audit.new ≡ A.capacity audit.old }
    ensures keys { S.keys suite.new ≡ S.keys suite.old }
    ensures pads { S.pads suite.new ≡ S.pads suite.old }
    ensures tags { S.tags suite.new ≡ S.tags suite.old }
    ensures plan { FollowsLevel B.Board S.Suite A.Audit geo.now cache.old board.old suite.old audit.old
        cache.new board.new suite.new audit.new bank x result }
{
    if cache.look(bank, x).is_some() {
        cache.touch(bank, x);
        return Ok(());
    }
    let line = read_checked(geo, cache, board, suite, audit, bank, x)?;
    cache.are_banks();
    make_room(geo, cache, board, bank, x)?;
    cache.place(bank, x, &line);
    Ok(())
}

/// Reads the line of position `x`, which isn't cached, and checks it against its parent and with the
/// audit.
fn read_checked<B: Board, S: Suite, A: Audit>(
    geo: &Geo,
    cache: &Cache,
    board: &mut B,
    suite: &mut S,
    audit: &mut A,
    bank: u8,
    x: u32,
) -> Result<Line, PathFault>
    requires shape { cache.now.shape ≡ shape_of geo.now }
    requires truth { length (A.ledger audit.old).truth ≡ meta_lines (shape_of geo.now) }
    requires size { (B.device board.old).size ≡ device_lines (shape_of geo.now) }
    requires bank { bank ≤ (shape_of geo.now).levels }
    requires position { x < meta_lines (shape_of geo.now) }
    requires parent { HasParent (shape_of geo.now) cache.now.banks bank x }
    requires absent { is_cached (shape_of geo.now) cache.now.banks bank x ≡ false }
    ensures capacity { A.capacity audit.new ≡ A.capacity audit.old }
    ensures keys { S.keys suite.new ≡ S.keys suite.old }
    ensures pads { S.pads suite.new ≡ S.pads suite.old }
    ensures tags { S.tags suite.new ≡ S.tags suite.old }
    ensures plan { FollowsCheck B.Board S.Suite A.Audit geo.now cache.now board.old suite.old audit.old
        cache.now board.new suite.new audit.new bank x result }
{
    let line = board.read_line(geo.meta_line(x))?;
    line.is_whole();
    if !has_expected(cache, board, suite, bank, x, &line) {
        return Err(PathFault::Meta { x });
    }
    match audit.note_fetch(x, &line) {
        Go::On => Ok(line),
        Go::Stop => Err(PathFault::Shown),
    }
}

/// Whether a line at position `x` has the digest that it has to have.
fn has_expected<B: Board, S: Suite>(
    cache: &Cache,
    board: &B,
    suite: &mut S,
    bank: u8,
    x: u32,
    line: &Line,
) -> bool
    requires bank { bank ≤ cache.now.shape.levels }
    requires parent { HasParent cache.now.shape cache.now.banks bank x }
    ensures answer { IsTrue result
        ↔ HasExpectedDigest B.Board S.Suite cache.now.shape cache.now board.now suite.old bank x line.now }
    ensures keys { S.keys suite.new ≡ S.keys suite.old }
    ensures pads { S.pads suite.new ≡ S.pads suite.old }
    ensures tags { S.tags suite.new ≡ S.tags suite.old }
    ensures digests { S.digests suite.new ≡ risen (S.digests suite.old) }
{
    let digest = suite.digest(x, line);
    digest == expected(cache, board, bank, x)
}

/// The digest that the line at position `x` has to have: its parent's entry for it, or at the top the
/// root register's.
fn expected<B: Board>(cache: &Cache, board: &B, bank: u8, x: u32) -> Tag
    requires bank { bank ≤ cache.now.shape.levels }
    requires parent { HasParent cache.now.shape cache.now.banks bank x }
    ensures { result ≡ expected_digest cache.now.shape (B.device board.now).regs.root cache.now.banks bank x }
{
    if bank == 0 {
        return board.regs().root;
    }
    child(cached_line(cache, bank - 1, parent(x)), child_slot(x))
}

/// Makes room for position `x` of a bank: a dirty block that would give way is written to its place,
/// and marked clean. `Cut` changes nothing.
fn make_room<B: Board>(
    geo: &Geo,
    cache: &mut Cache,
    board: &mut B,
    bank: u8,
    x: u32,
) -> Result<(), Cut>
    requires shape { cache.old.shape ≡ shape_of geo.now }
    requires banks { AreInTheirBanks (shape_of geo.now) cache.old.banks }
    requires size { (B.device board.old).size ≡ device_lines (shape_of geo.now) }
    requires bank { bank ≤ (shape_of geo.now).levels }
    ensures ok { OnOk result (HasRoomMade (shape_of geo.now) bank x cache.old cache.new (B.device board.old) (B.device board.new)) }
    ensures plan { Follows (room_plan cache.old bank x) (B.device board.old) (B.device board.new) (ended result cache.new) }
{
    cache.are_banks();
    if let Some(position) = dirty_victim(cache, bank, x) {
        write_back(geo, cache, board, bank, position)?;
    }
    Ok(())
}

/// The position that would be evicted for `x`, if it is dirty.
fn dirty_victim(cache: &Cache, bank: u8, x: u32) -> Option<u32>
    requires { bank ≤ cache.now.shape.levels }
    ensures { result ≡ dirty_position (victim_of cache.now.shape.ways (slots_at cache.now.shape cache.now.banks bank x)) }
{
    match cache.victim(bank, x) {
        Some((position, _, true)) => Some(position),
        _ => None,
    }
}
