//! The doubted nodes, from the lowest level up, and the root.
ghost use Rattle.std.specs.Prelude.{suc, ◌≡◌, ◌+◌, ◌*◌, ◌<◌, ◌≤◌, IfOk, OnOk, length};
ghost use Rattle.pmem_base.specs.Geo.{shape_of};
ghost use Rattle.pmem_base.specs.Layout.{meta_lines, device_lines, shadow_lines, level_start};
ghost use Rattle.pmem_recovery.specs.Named.{count_doubted};
ghost use Rattle.pmem_recovery.specs.Parts.{IsCompared};
ghost use Rattle.call_plan.specs.Following.{Follows};
ghost use Rattle.pmem_recovery.specs.Plans.{made_plan};
ghost use Rattle.pmem_recovery.specs.Promised.{FollowsNodes, FollowsLevel, FollowsNode, FollowsChildren, FollowsRoot};

use crate::RecFault;
use crate::entries::{MadeEntry, MadeLines, first_of_level, is_other};
use crate::tables::next_doubted;
use board::Board;
use bonsai_tree::node_of;
use pmem_base::{Cut, Geo, Line, Regs, Tag};
use suite::Suite;

/// Makes the lines of all doubted nodes, over the counter blocks made. The answer is the number of
/// digests.
pub(crate) fn fix_nodes<B: Board, S: Suite>(
    board: &mut B,
    suite: &mut S,
    geo: &Geo,
    shadow: &[Line],
    made: &mut MadeLines,
) -> Result<u64, Cut>
    requires size { (B.device board.old).size ≡ device_lines (shape_of geo.now) }
    requires shadow { length shadow.now ≡ shadow_lines (shape_of geo.now) }
    requires room { length made.old.entries + count_doubted (shape_of geo.now) shadow.now 0 (level_start (shape_of geo.now).levels) ≤ made.old.room }
    requires few { made.old.room ≤ 65535 }
    requires positions { made.old.positions ≡ meta_lines (shape_of geo.now) }
    ensures digests { IfOk result (λ digests. digests ≡ 4 * count_doubted (shape_of geo.now) shadow.now 0 (level_start (shape_of geo.now).levels)) }
    ensures positions { made.new.positions ≡ made.old.positions }
    ensures keys { S.keys suite.new ≡ S.keys suite.old }
    ensures pads { S.pads suite.new ≡ S.pads suite.old }
    ensures plan { FollowsNodes B.Board S.Suite geo.now board.old suite.old board.new suite.new
        shadow.now made.old.entries made.new.entries result }
{
    let mut digests = 0;
    'upward: for above in 0..geo.levels() {
        let level = geo.levels() - 1 - above;
        digests += fix_level(board, suite, geo, shadow, level, made)?;
    }
    Ok(digests)
}

/// Makes the lines of the doubted nodes of a level, upwards. The answer is the number of digests.
fn fix_level<B: Board, S: Suite>(
    board: &mut B,
    suite: &mut S,
    geo: &Geo,
    shadow: &[Line],
    level: u8,
    made: &mut MadeLines,
) -> Result<u64, Cut>
    requires size { (B.device board.old).size ≡ device_lines (shape_of geo.now) }
    requires shadow { length shadow.now ≡ shadow_lines (shape_of geo.now) }
    requires level { level < (shape_of geo.now).levels }
    requires room { length made.old.entries + count_doubted (shape_of geo.now) shadow.now (level_start level) (level_start (suc level)) ≤ made.old.room }
    requires few { made.old.room ≤ 65535 }
    requires positions { made.old.positions ≡ meta_lines (shape_of geo.now) }
    ensures digests { IfOk result (λ digests. digests ≡ 4 * count_doubted (shape_of geo.now) shadow.now (level_start level) (level_start (suc level))) }
    ensures counted { OnOk result (length made.new.entries
        ≡ length made.old.entries + count_doubted (shape_of geo.now) shadow.now (level_start level) (level_start (suc level))) }
    ensures capacity { made.new.room ≡ made.old.room }
    ensures positions { made.new.positions ≡ made.old.positions }
    ensures keys { S.keys suite.new ≡ S.keys suite.old }
    ensures pads { S.pads suite.new ≡ S.pads suite.old }
    ensures plan { FollowsLevel B.Board S.Suite geo.now board.old suite.old board.new suite.new
        shadow.now level made.old.entries made.new.entries result }
{
    let start = first_of_level(level);
    let end = first_of_level(level + 1);
    let mut from = start;
    let mut digests = 0;
    'positions: while let Some(x) = next_doubted(geo, shadow, level, from, end) {
        fix_node(board, suite, geo, x, made)?;
        digests += 4;
        from = x + 1;
    }
    Ok(digests)
}

/// Makes the line of a doubted node.
fn fix_node<B: Board, S: Suite>(
    board: &mut B,
    suite: &mut S,
    geo: &Geo,
    x: u32,
    made: &mut MadeLines,
) -> Result<(), Cut>
    requires size { (B.device board.old).size ≡ device_lines (shape_of geo.now) }
    requires node { x < level_start (shape_of geo.now).levels }
    requires room { length made.old.entries < made.old.room }
    requires few { made.old.room ≤ 65535 }
    requires positions { made.old.positions ≡ meta_lines (shape_of geo.now) }
    ensures longer { OnOk result (length made.new.entries ≡ length made.old.entries + 1) }
    ensures capacity { made.new.room ≡ made.old.room }
    ensures positions { made.new.positions ≡ made.old.positions }
    ensures keys { S.keys suite.new ≡ S.keys suite.old }
    ensures pads { S.pads suite.new ≡ S.pads suite.old }
    ensures plan { FollowsNode B.Board S.Suite geo.now board.old suite.old board.new suite.new
        x made.old.entries made.new.entries result }
{
    let read = board.read_line(geo.meta_line(x))?;
    read.is_whole();
    let line = node_line(board, suite, geo, x, made)?;
    made.push(MadeEntry {
        at: x,
        line,
        changed: is_other(&read, &line),
    });
    Ok(())
}

/// The node over the children of a position, as they were made or are read.
fn node_line<B: Board, S: Suite>(
    board: &mut B,
    suite: &mut S,
    geo: &Geo,
    x: u32,
    made: &MadeLines,
) -> Result<Line, Cut>
    requires size { (B.device board.old).size ≡ device_lines (shape_of geo.now) }
    requires node { x < level_start (shape_of geo.now).levels }
    requires positions { made.now.positions ≡ meta_lines (shape_of geo.now) }
    ensures keys { S.keys suite.new ≡ S.keys suite.old }
    ensures pads { S.pads suite.new ≡ S.pads suite.old }
    ensures plan { FollowsChildren B.Board S.Suite geo.now board.old suite.old board.new suite.new
        made.now.entries x result }
{
    let mut digests = [[0; 16]; 4];
    'children: for i in 0..4_u8 {
        let child = 4 * x + 1 + u32::from(i);
        let line = made_or_read(board, geo, child, made)?;
        digests[usize::from(i)] = suite.digest(child, &line);
    }
    Ok(node_of(&digests))
}

/// The line made for a position, or the device's line if none was made.
fn made_or_read<B: Board>(board: &mut B, geo: &Geo, x: u32, made: &MadeLines) -> Result<Line, Cut>
    requires size { (B.device board.old).size ≡ device_lines (shape_of geo.now) }
    requires position { x < meta_lines (shape_of geo.now) }
    requires positions { made.now.positions ≡ meta_lines (shape_of geo.now) }
    ensures plan { Follows (made_plan (shape_of geo.now) made.now.entries x) (B.device board.old) (B.device board.new) result }
{
    match made.line(x) {
        Some(line) => Ok(line),
        None => {
            let line = board.read_line(geo.meta_line(x))?;
            line.is_whole();
            Ok(line)
        }
    }
}

/// Compares the digest of the top with the root register.
pub(crate) fn check_root<B: Board, S: Suite>(
    board: &mut B,
    suite: &mut S,
    geo: &Geo,
    regs: &Regs,
    made: &MadeLines,
) -> Result<(), RecFault>
    requires size { (B.device board.old).size ≡ device_lines (shape_of geo.now) }
    requires positions { made.now.positions ≡ meta_lines (shape_of geo.now) }
    ensures keys { S.keys suite.new ≡ S.keys suite.old }
    ensures pads { S.pads suite.new ≡ S.pads suite.old }
    ensures plan { FollowsRoot B.Board S.Suite geo.now board.old suite.old board.new suite.new
        regs.now.root made.now.entries result }
{
    let top = made_or_read(board, geo, 0, made)?;
    let found = suite.digest(0, &top);
    compared(&regs.root, &found)
}

/// Whether the found root is the kept one.
fn compared(kept: &Tag, found: &Tag) -> Result<(), RecFault>
    ensures { IsCompared kept.now found.now result }
{
    if kept == found {
        return Ok(());
    }
    Err(RecFault::Root {
        kept: *kept,
        found: *found,
    })
}
