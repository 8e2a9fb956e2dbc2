//! The trials: the minors of the lines whose counter block is doubted.
ghost use Rattle.std.specs.Prelude.{◌≡◌, ◌+◌, ◌*◌, ◌<◌, ◌≤◌, [], All, IsTrue, IfOk, OnOk, length};
ghost use Rattle.pmem_base.specs.Geo.{shape_of};
ghost use Rattle.pmem_base.specs.Shape.{is_loss};
ghost use Rattle.pmem_base.specs.Layout.{data_lines, meta_lines, pages, device_lines, tag_line, shadow_lines};
ghost use Rattle.plain_model.specs.Bounds.{most_blocks};
ghost use Rattle.bonsai_tree.specs.Positions.{counter_position};
ghost use Rattle.split_counters.specs.Blocks.{IsBlock};
ghost use Rattle.stop_loss.specs.Windows.{minors_within};
ghost use Rattle.call_effects.specs.SuiteStates.{suite_at};
ghost use Rattle.pmem_recovery.specs.Parts.{SuiteWork, decided_of};
ghost use Rattle.call_plan.specs.Following.{Follows};
ghost use Rattle.pmem_recovery.specs.Plans.{sealed_plan};
ghost use Rattle.pmem_recovery.specs.Promised.{FollowsBlocks, FollowsBlock, FollowsMinors, FollowsTrial, DecidesMinor, IsMinorFound};

use crate::RecFault;
use crate::entries::{MadeEntry, MadeLines, is_other};
use crate::tables::next_doubted;
use board::Board;
use line_seal::tag_at;
use page_reencrypt::is_left;
use pmem_base::{Cut, Geo, Line, Regs, Tag};
use split_counters::{Block, pack, unpack};
use stop_loss::{Found, find, window};
use suite::Suite;

/// Makes the lines of all doubted counter blocks, upwards. The answer is the number of trials.
pub(crate) fn fix_counters<B: Board, S: Suite>(
    board: &mut B,
    suite: &mut S,
    geo: &Geo,
    regs: &Regs,
    shadow: &[Line],
    made: &mut MadeLines,
) -> Result<u64, RecFault>
    requires size { (B.device board.old).size ≡ device_lines (shape_of geo.now) }
    requires loss { IsTrue (is_loss regs.now.loss) }
    requires shadow { length shadow.now ≡ shadow_lines (shape_of geo.now) }
    requires empty { made.old.entries ≡ [] }
    requires room { most_blocks (shape_of geo.now) ≤ made.old.room }
    requires few { made.old.room ≤ 65535 }
    requires positions { made.old.positions ≡ meta_lines (shape_of geo.now) }
    ensures few_made { OnOk result (length made.new.entries ≤ most_blocks (shape_of geo.now)) }
    ensures capacity { made.new.room ≡ made.old.room }
    ensures positions { made.new.positions ≡ made.old.positions }
    ensures keys { S.keys suite.new ≡ S.keys suite.old }
    ensures pads { S.pads suite.new ≡ S.pads suite.old }
    ensures plan { FollowsBlocks B.Board S.Suite geo.now board.old suite.old board.new suite.new
        regs.now shadow.now made.old.entries made.new.entries result }
{
    let mut from = (geo.pages() - 1) / 3;
    let mut trials = 0;
    'positions: while let Some(x) = next_doubted(geo, shadow, geo.levels(), from, geo.metas()) {
        trials += fix_counter(board, suite, geo, regs, x, made)?;
        from = x + 1;
    }
    Ok(trials)
}

/// Makes the line of a doubted counter block. The answer is the number of trials.
fn fix_counter<B: Board, S: Suite>(
    board: &mut B,
    suite: &mut S,
    geo: &Geo,
    regs: &Regs,
    x: u32,
    made: &mut MadeLines,
) -> Result<u64, RecFault>
    requires size { (B.device board.old).size ≡ device_lines (shape_of geo.now) }
    requires loss { IsTrue (is_loss regs.now.loss) }
    requires block { counter_position (shape_of geo.now) 0 ≤ x }
    requires position { x < meta_lines (shape_of geo.now) }
    requires room { length made.old.entries < made.old.room }
    requires most { made.old.room ≤ 65535 }
    requires positions { made.old.positions ≡ meta_lines (shape_of geo.now) }
    ensures few { IfOk result (λ trials. trials ≤ 64 * regs.now.loss) }
    ensures longer { OnOk result (length made.new.entries ≡ length made.old.entries + 1) }
    ensures capacity { made.new.room ≡ made.old.room }
    ensures positions { made.new.positions ≡ made.old.positions }
    ensures keys { S.keys suite.new ≡ S.keys suite.old }
    ensures pads { S.pads suite.new ≡ S.pads suite.old }
    ensures plan { FollowsBlock B.Board S.Suite geo.now board.old suite.old board.new suite.new
        regs.now x made.old.entries made.new.entries result }
{
    let read = board.read_line(geo.meta_line(x))?;
    read.is_whole();
    let page = x - (geo.pages() - 1) / 3;
    let (fixed, trials) = fix_minors(board, suite, geo, regs, page, &unpack(&read))?;
    let line = pack(&fixed);
    made.push(MadeEntry {
        at: x,
        line,
        changed: is_other(&read, &line),
    });
    Ok(trials)
}

/// A page's block with each minor replaced by the one that the trials find, and the number of trials.
fn fix_minors<B: Board, S: Suite>(
    board: &mut B,
    suite: &mut S,
    geo: &Geo,
    regs: &Regs,
    page: u32,
    stored: &Block,
) -> Result<(Block, u64), RecFault>
    requires size { (B.device board.old).size ≡ device_lines (shape_of geo.now) }
    requires loss { IsTrue (is_loss regs.now.loss) }
    requires page { page < pages (shape_of geo.now) }
    requires block { IsBlock stored.now }
    ensures few { IfOk result (λ fixed. fixed.1 ≤ 64 * regs.now.loss) }
    ensures small { IfOk result (λ fixed. All (λ m. m ≤ 127) fixed.0.minors) }
    ensures keys { S.keys suite.new ≡ S.keys suite.old }
    ensures pads { S.pads suite.new ≡ S.pads suite.old }
    ensures plan { FollowsMinors B.Board S.Suite geo.now board.old suite.old board.new suite.new
        regs.now page stored.now result }
{
    let mut fixed = *stored;
    let mut trials = 0;
    'lines: for i in 0..64_u8 {
        let at = 64 * page + u32::from(i);
        let (minor, tries) = try_line(board, suite, geo, regs, stored, at)?;
        fixed.minors[usize::from(i)] = minor;
        trials += tries;
    }
    Ok((fixed, trials))
}

/// The minor of a line, and the number of trials: the stored minor if a register holds the line, and otherwise the one
/// of its window that fits.
fn try_line<B: Board, S: Suite>(
    board: &mut B,
    suite: &mut S,
    geo: &Geo,
    regs: &Regs,
    stored: &Block,
    at: u32,
) -> Result<(u8, u64), RecFault>
    requires size { (B.device board.old).size ≡ device_lines (shape_of geo.now) }
    requires loss { IsTrue (is_loss regs.now.loss) }
    requires line { at < data_lines (shape_of geo.now) }
    requires minors { All (λ m. m ≤ 127) stored.now.minors }
    ensures few { IfOk result (λ tried. tried.1 ≤ regs.now.loss) }
    ensures small { IfOk result (λ tried. tried.0 ≤ 127) }
    ensures keys { S.keys suite.new ≡ S.keys suite.old }
    ensures pads { S.pads suite.new ≡ S.pads suite.old }
    ensures plan { FollowsTrial B.Board S.Suite geo.now board.old suite.old board.new suite.new
        regs.now stored.now at result }
{
    let minor = stored.minors[(at % 64) as usize];
    if is_left(&regs.progress, at) {
        return Ok((minor, 0));
    }
    let (cipher, tag) = read_sealed(board, geo, at)?;
    let ends = window(minor, regs.loss);
    let found = try_window(suite, at, stored.major, ends, &cipher, &tag)?;
    Ok((found, u64::from(ends.1) + 1 - u64::from(ends.0)))
}

/// The cipher of a data line, and its tag.
#[inline(always)]
fn read_sealed<B: Board>(board: &mut B, geo: &Geo, at: u32) -> Result<(Line, Tag), Cut>
    requires size { (B.device board.old).size ≡ device_lines (shape_of geo.now) }
    requires line { at < data_lines (shape_of geo.now) }
    ensures plan { Follows (sealed_plan (shape_of geo.now) at) (B.device board.old) (B.device board.new) result }
{
    let cipher = board.read_line(at)?;
    cipher.is_whole();
    let tags = board.read_line(geo.tag_line(at))?;
    tags.is_whole();
    Ok((cipher, tag_at(&tags, at)))
}

/// The one minor of a window that fits a data line's cipher and tag.
fn try_window<S: Suite>(
    suite: &mut S,
    at: u32,
    major: u64,
    ends: (u8, u8),
    cipher: &Line,
    tag: &Tag,
) -> Result<u8, RecFault>
    requires { ends.1 ≤ 127 }
    ensures worked { SuiteWork (length (minors_within ends.0 ends.1)) 0 (suite_at S.Suite suite.old)
        (suite_at S.Suite suite.new) }
    ensures decided { DecidesMinor S.Suite suite.old at major cipher.now tag.now ends result }
    ensures found { IsMinorFound S.Suite suite.old at major cipher.now tag.now ends result }
{
    let found = find(suite, at, major, ends, cipher, tag);
    decided(found, at, major, cipher, tag)
}

/// The one minor found, or why there is none.
fn decided(found: Found, at: u32, major: u64, cipher: &Line, tag: &Tag) -> Result<u8, RecFault>
    ensures { result ≡ decided_of found at major cipher.now tag.now }
{
    match found {
        Found::One(minor) => Ok(minor),
        Found::Nothing => Err(RecFault::NoCounter { at }),
        Found::Twin(low, high) => Err(RecFault::Twin {
            at,
            major,
            low,
            high,
            cipher: *cipher,
            tag: *tag,
        }),
    }
}
