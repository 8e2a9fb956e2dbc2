//! A memory of 16 pages under the weak suite: written to by hand as the engine leaves it, cut, tampered
//! with, recovered, and read.
ghost use Rattle.std.specs.Prelude.{ℕ, ◌≡◌, ◌<◌, ◌≤◌, [], IsSome, IfOk, IsTrue, length};
ghost use Rattle.pmem_base.specs.Geo.{shape_of};
ghost use Rattle.pmem_base.specs.Layout.{data_lines, meta_lines, device_lines};
ghost use Rattle.pmem_base.specs.Marks.{last_seal};
ghost use Rattle.pmem_base.specs.Registers.{IsProgress, IsValidRegs};
ghost use Rattle.board.specs.Memory.{device_of};
ghost use Rattle.board.specs.MemBoard.{memory_of};
ghost use Rattle.seal_ledger.specs.View.{ledger_of};
ghost use Rattle.pmem_engine.specs.Calls.{IsReady};

mod memory;
mod writes;

use crate::tests::equal;
use board::{Board, MemBoard};
use bonsai_tree::set_child;
use call_effects::Work;
use line_seal::{put_tag, seal, tag_at};
use pmem_base::{Ctr, Geo, Line, Progress, Regs, Tag};
use pmem_engine::{Engine, Fault};
use pmem_recovery::{RecFault, format, recover};
use seal_ledger::{Audit, Ledger};
use std::alloc::Global;
use std::process::Abort;
use std::test::Fail;
use suite::{Counted, Suite, WeakSuite};

/// The first tag line, page 0's counter block, and the first line of each shadow table.
const TAGS: u32 = 1024;

const BLOCK: u32 = 1285;

const BLOCK_TABLE: u32 = 1301;

const NODE_TABLE: u32 = 1302;

/// A memory with what belongs to it.
#[derive(Drop)]
struct Bench {
    geo: Geo,
    board: MemBoard,
    suite: WeakSuite,
    ledger: Ledger,
    ghost its_size: { length (memory_of board).lines ≡ device_lines (shape_of geo) },
    ghost its_regs: { IsValidRegs (shape_of geo) (memory_of board).regs },
    ghost its_truth: { length (ledger_of ledger).truth ≡ meta_lines (shape_of geo) },
    ghost its_lines: { (ledger_of ledger).data_lines ≡ data_lines (shape_of geo) },
    ghost each_sealed: { (a : ℕ) → a < data_lines (shape_of geo) → IsSome (last_seal (ledger_of ledger).marks a) },
}

/// A new memory with `sets` sets of `ways` ways in each bank.
fn fresh_with(alloc: Global, (sets, ways): (u8, u8), blur: bool, loss: u8) -> Result<Bench, Fail> {
    let geo = Geo::new(2, sets, ways, loss, 0)?;
    let mut board = MemBoard::new(alloc, geo.size())?;
    let mut suite = WeakSuite::new(&[0; 16], &[0x10], blur);
    let mut ledger = Ledger::new(alloc, &geo)?;
    format(alloc, &geo, &mut board, &mut suite, &mut ledger)?;
    Ok(Bench {
        geo,
        board,
        suite,
        ledger,
    })
}

/// A new memory.
fn fresh(alloc: Global, blur: bool, loss: u8) -> Result<Bench, Fail> {
    fresh_with(alloc, (4, 2), blur, loss)
}

/// The device line `at`.
fn line(rt: &impl Abort, bench: &Bench, at: u32) -> Line
    ensures { at < device_lines (shape_of bench.now.geo) }
{
    assert!(rt; at < bench.geo.size());
    *bench.board.peek(at)
}

/// Writes the device line `at` past the controller.
fn poke(rt: &impl Abort, bench: &mut Bench, at: u32, line: &Line)
    ensures { shape_of bench.new.geo ≡ shape_of bench.old.geo }
{
    assert!(rt; at < bench.geo.size());
    bench.board.poke(at, line);
}

/// A tag whose last byte isn't 0.
fn one_byte(byte: u8) -> Tag {
    let mut tag = [0; 16];
    tag[15] = byte;
    tag
}

/// Names page 0's counter block and the nodes above it.
fn name_path(rt: &impl Abort, bench: &mut Bench) {
    let mut blocks = Line::default();
    blocks.0[11] = 6;
    poke(rt, bench, BLOCK_TABLE, &blocks);
    let mut nodes = Line::default();
    nodes.0[3] = 1;
    nodes.0[43] = 2;
    poke(rt, bench, NODE_TABLE, &nodes);
}

/// Tells the ledger a true metadata line.
fn tell(rt: &impl Abort, bench: &mut Bench, x: u32, line: &Line) {
    assert!(rt; x < bench.geo.metas());
    bench.ledger.note_meta(x, line);
}

/// Tells the ledger another counter block of page 0, and the nodes that it makes. The answer is their
/// root.
fn grow(rt: &impl Abort, bench: &mut Bench, block: &Line) -> Tag {
    tell(rt, bench, 5, block);
    let mut node = line(rt, bench, BLOCK - 4);
    set_child(&mut node, 0, &bench.suite.digest(5, block));
    tell(rt, bench, 1, &node);
    let mut top = line(rt, bench, BLOCK - 5);
    set_child(&mut top, 0, &bench.suite.digest(1, &node));
    tell(rt, bench, 0, &top);
    bench.suite.digest(0, &top)
}

/// A resealed line: its cipher, its tag line, and the root of the tree that has its counter.
#[derive(Clone, Copy)]
struct Sealed {
    cipher: Line,
    tags: Line,
    root: Tag,
}

/// Reseals line 0 under 0.`minor`, and reports it to the ledger with the path that it makes.
fn seal_anew(rt: &impl Abort, bench: &mut Bench, plain: &Line, minor: u8) -> Result<Sealed, Fail> {
    assert!(rt; 0 < bench.geo.lines() && minor < 128);
    let ctr = Ctr { major: 0, minor };
    let (cipher, tag) = seal(&mut bench.suite, 0, ctr, plain);
    let mut tags = line(rt, bench, TAGS);
    put_tag(&mut tags, 0, &tag);
    bench.ledger.reserve(1)?;
    bench.ledger.note_seal(0, ctr, &cipher, &tag);
    let mut block = Line::default();
    block.0[8] = 2 * minor;
    let root = grow(rt, bench, &block);
    Ok(Sealed { cipher, tags, root })
}

/// Registers with this root and nothing else.
fn rooted(geo: &Geo, root: Tag) -> Regs
    ensures valid { IsValidRegs (shape_of geo.now) result }
    ensures no_group { result.group.items ≡ [] }
    ensures none_open { result.progress.items ≡ [] }
{
    let mut regs = Regs::empty();
    regs.root = root;
    regs.loss = geo.loss();
    regs
}

/// Registers with this root and the group of the sealed line and its tag line.
fn armed(geo: &Geo, line: &Sealed) -> Regs
    requires { TAGS < device_lines (shape_of geo.now) }
    ensures { IsValidRegs (shape_of geo.now) result }
{
    line.cipher.is_whole();
    line.tags.is_whole();
    let root = line.root;
    let mut regs = rooted(geo, root);
    regs.group.push((0, line.cipher));
    regs.group.push((TAGS, line.tags));
    regs
}

/// Latches registers.
fn latch(rt: &impl Abort, bench: &mut Bench, regs: &Regs)
    requires { IsValidRegs (shape_of bench.old.geo) regs.now }
{
    equal(rt, bench.board.latch(regs), Ok(()));
}

/// A write of line 0 cut once its group is armed: `minor` writes of page 0 with this one.
fn write_armed(rt: &impl Abort, bench: &mut Bench, plain: &Line, minor: u8) -> Result<(), Fail> {
    let line = seal_anew(rt, bench, plain, minor)?;
    name_path(rt, bench);
    assert!(rt; TAGS < bench.geo.size());
    let next = armed(&bench.geo, &line);
    latch(rt, bench, &next);
    Ok(())
}

/// A write of line 0 that is done.
fn write_done(rt: &impl Abort, bench: &mut Bench, plain: &Line, minor: u8) -> Result<(), Fail> {
    let line = seal_anew(rt, bench, plain, minor)?;
    name_path(rt, bench);
    poke(rt, bench, 0, &line.cipher);
    poke(rt, bench, TAGS, &line.tags);
    let root = line.root;
    let next = rooted(&bench.geo, root);
    latch(rt, bench, &next);
    Ok(())
}

/// A recovery: its answer, the persist steps that it took, and the calls that the suite counted.
#[derive(Debug, Drop, PartialEq)]
struct Seen {
    answer: Result<Work, RecFault>,
    steps: u64,
    counted: Work,
}

/// What is seen of a recovery that goes through.
fn done(trials: u64, digests: u64, steps: u64) -> Seen {
    let work = Work { trials, digests };
    Seen {
        answer: Ok(work),
        steps,
        counted: work,
    }
}

/// A recovery of the memory.
fn recovered(alloc: Global, bench: &mut Bench) -> Seen {
    let (_, writes, latches) = bench.board.counts();
    let (_, tags, digests) = bench.suite.counts();
    let answer = recover(
        alloc,
        &bench.geo,
        &mut bench.board,
        &mut bench.suite,
        &bench.ledger,
    );
    let (_, later_writes, later_latches) = bench.board.counts();
    let (_, later_tags, later_digests) = bench.suite.counts();
    Seen {
        answer: answer.map(|done| done.1),
        steps: later_writes
            .abs_diff(writes)
            .wrapping_add(later_latches.abs_diff(latches)),
        counted: Work {
            trials: later_tags.abs_diff(tags),
            digests: later_digests.abs_diff(digests),
        },
    }
}

/// What is seen of a recovery.
fn recovers(rt: &impl Abort, alloc: Global, bench: &mut Bench, wanted: Seen) {
    equal(rt, recovered(alloc, bench), wanted);
}

/// The answer and the steps of a recovery.
fn answers(
    rt: &impl Abort,
    alloc: Global,
    bench: &mut Bench,
    answer: Result<Work, RecFault>,
    steps: u64,
) {
    let seen = recovered(alloc, bench);
    equal(rt, (seen.answer, seen.steps), (answer, steps));
}

/// Reads a line, which has to be this one.
fn read_one(rt: &impl Abort, bench: &mut Bench, engine: &mut Engine, at: u32, plain: &Line)
    requires shape { engine.old.shape ≡ shape_of bench.old.geo }
    requires ready { IsReady engine.old.shape engine.old (device_of (memory_of bench.old.board)) }
    ensures geo { shape_of bench.new.geo ≡ shape_of bench.old.geo }
    ensures shape { engine.new.shape ≡ engine.old.shape }
    ensures ready { IsReady engine.new.shape engine.new (device_of (memory_of bench.new.board)) }
{
    assert!(rt; at < bench.geo.lines());
    let answer = engine.read(&mut bench.board, &mut bench.suite, &mut bench.ledger, at);
    assert_eq!(rt; answer, Ok(*plain), "line {at}");
}

/// Reads the lines of the memory: these first ones, and zeros behind them.
fn read_all(rt: &impl Abort, bench: &mut Bench, engine: &mut Engine, first: &[Line])
    requires shape { engine.old.shape ≡ shape_of bench.old.geo }
    requires ready { IsReady engine.old.shape engine.old (device_of (memory_of bench.old.board)) }
    ensures geo { shape_of bench.new.geo ≡ shape_of bench.old.geo }
    ensures shape { engine.new.shape ≡ engine.old.shape }
    ensures ready { IsReady engine.new.shape engine.new (device_of (memory_of bench.new.board)) }
{
    let zero = Line::default();
    'lines: for at in 0..1024 {
        let plain = first.get(at as usize).unwrap_or(&zero);
        read_one(rt, bench, engine, at, plain);
    }
}

/// Recovers the memory. The answer is its engine.
fn mended(alloc: Global, bench: &mut Bench) -> Result<Engine, RecFault>
    ensures geo { shape_of bench.new.geo ≡ shape_of bench.old.geo }
    ensures shape { IfOk result (λ engine. engine.shape ≡ shape_of bench.old.geo) }
    ensures ready { IfOk result (λ engine. IsReady engine.shape engine (device_of (memory_of bench.new.board))) }
{
    let (engine, _) = recover(
        alloc,
        &bench.geo,
        &mut bench.board,
        &mut bench.suite,
        &bench.ledger,
    )?;
    Ok(engine)
}

/// Recovers the memory and reads its lines.
fn mend_and_read(
    rt: &impl Abort,
    alloc: Global,
    bench: &mut Bench,
    first: &[Line],
) -> Result<(), RecFault> {
    let mut engine = mended(alloc, bench)?;
    read_all(rt, bench, &mut engine, first);
    Ok(())
}

#[test]
fn lines_are_made_and_written(rt: HostRuntime) -> Result<(), Fail> {
    let mut bench = fresh(rt.alloc(), false, 4)?;
    equal(&rt, bench.board.regs().root, one_byte(0x15));
    // zeros under the first pad
    equal(&rt, line(&rt, &bench, 0).0[63], 0x3f);
    equal(&rt, tag_at(&line(&rt, &bench, TAGS), 0), one_byte(0x10));
    equal(&rt, tag_at(&line(&rt, &bench, TAGS), 3), one_byte(0x53));
    recovers(&rt, rt.alloc(), &mut bench, done(0, 1, 0));
    name_path(&rt, &mut bench);
    recovers(&rt, rt.alloc(), &mut bench, done(256, 9, 2));
    recovers(&rt, rt.alloc(), &mut bench, done(0, 1, 0));
    write_armed(&rt, &mut bench, &Line([0x11; 64]), 1)?;
    equal(&rt, bench.board.regs().root, one_byte(0x17));
    recovers(&rt, rt.alloc(), &mut bench, done(256, 9, 8));
    equal(&rt, bench.board.regs().root, one_byte(0x17));
    equal(&rt, bench.board.regs().group.len(), 0);
    // the first minor is 1
    equal(&rt, line(&rt, &bench, BLOCK).0[8], 2);
    recovers(&rt, rt.alloc(), &mut bench, done(0, 1, 0));
    // three writes since the block was written, and the group is done
    let mut bench = fresh(rt.alloc(), false, 4)?;
    write_done(&rt, &mut bench, &Line([0; 64]), 3)?;
    recovers(&rt, rt.alloc(), &mut bench, done(256, 9, 5));
    // the first minor is 3
    equal(&rt, line(&rt, &bench, BLOCK).0[8], 6);
    Ok(())
}

/// A recovery that is cut after a number of steps, and then another one, with the trials and the steps that it takes.
fn cut_recovery(
    rt: &impl Abort,
    alloc: Global,
    fuse: u64,
    trials: u64,
    steps: u64,
) -> Result<(), Fail> {
    let plain = Line([0x11; 64]);
    let mut bench = fresh(alloc, false, 4)?;
    write_armed(rt, &mut bench, &plain, 1)?;
    bench.board.arm(fuse);
    answers(rt, alloc, &mut bench, Err(RecFault::Cut), fuse);
    bench.board.power();
    recovers(rt, alloc, &mut bench, done(trials, 9, steps));
    equal(rt, line(rt, &bench, BLOCK).0[8], 2);
    equal(rt, line(rt, &bench, NODE_TABLE), Line::default());
    equal(rt, mend_and_read(rt, alloc, &mut bench, &[plain]), Ok(()));
    Ok(())
}

// The steps are two lines and their latch, a counter block, two nodes and two shadow lines.
#[test]
fn cuts_are_recovered_from(rt: HostRuntime) -> Result<(), Fail> {
    cut_recovery(&rt, rt.alloc(), 0, 256, 8)?;
    cut_recovery(&rt, rt.alloc(), 1, 256, 8)?;
    cut_recovery(&rt, rt.alloc(), 2, 256, 8)?;
    cut_recovery(&rt, rt.alloc(), 3, 256, 5)?;
    cut_recovery(&rt, rt.alloc(), 4, 255, 4)?;
    cut_recovery(&rt, rt.alloc(), 5, 255, 3)?;
    cut_recovery(&rt, rt.alloc(), 6, 255, 2)?;
    cut_recovery(&rt, rt.alloc(), 7, 0, 1)
}

/// What is done to a device.
#[derive(Clone, Copy)]
enum Tampering {
    Flip(u32, u16),
    Poke(u32),
    Move(u32, u32),
}

/// Does it.
fn tamper(rt: &impl Abort, bench: &mut Bench, tampering: &Tampering) {
    match *tampering {
        Tampering::Flip(at, bit) => {
            assert!(rt; at < bench.geo.size() && bit < 512);
            bench.board.flip(at, bit);
        }
        Tampering::Poke(at) => poke(rt, bench, at, &Line::default()),
        Tampering::Move(from, to) => {
            assert!(rt; from < bench.geo.size() && to < bench.geo.size());
            bench.board.move_line(from, to);
        }
    }
}

/// The answer if the found root is another one.
fn wrong_root(found: u8) -> Result<Work, RecFault> {
    Err(RecFault::Root {
        kept: one_byte(0x17),
        found: one_byte(found),
    })
}

/// The answer and the steps of a recovery after a write of line 0 that is done, and this.
fn tampered(
    rt: &impl Abort,
    alloc: Global,
    tampering: Tampering,
    answer: Result<Work, RecFault>,
    steps: u64,
) -> Result<(), Fail> {
    let mut bench = fresh(alloc, false, 4)?;
    write_done(rt, &mut bench, &Line::default(), 1)?;
    tamper(rt, &mut bench, &tampering);
    answers(rt, alloc, &mut bench, answer, steps);
    Ok(())
}

#[test]
fn tampering_is_refused_or_mended(rt: HostRuntime) -> Result<(), Fail> {
    let alloc = rt.alloc();
    let mended = Ok(Work {
        trials: 256,
        digests: 9,
    });
    let no_counter = Err(RecFault::NoCounter { at: 0 });
    // no candidate has the tag
    tampered(&rt, alloc, Tampering::Flip(TAGS, 127), no_counter, 0)?;
    tampered(&rt, alloc, Tampering::Flip(0, 7), no_counter, 0)?;
    tampered(&rt, alloc, Tampering::Move(2, 0), no_counter, 0)?;
    // another candidate has it
    tampered(&rt, alloc, Tampering::Flip(TAGS, 120), wrong_root(0x15), 0)?;
    // another major finds other minors
    tampered(&rt, alloc, Tampering::Flip(BLOCK, 0), wrong_root(0x16), 0)?;
    // an unnamed child of the top
    tampered(
        &rt,
        alloc,
        Tampering::Flip(BLOCK - 3, 0),
        wrong_root(0x16),
        0,
    )?;
    // the block isn't named, the nodes aren't
    tampered(
        &rt,
        alloc,
        Tampering::Poke(BLOCK_TABLE),
        wrong_root(0x15),
        0,
    )?;
    tampered(&rt, alloc, Tampering::Poke(NODE_TABLE), wrong_root(0x15), 0)?;
    // a named node is made again, and the weak suite gives both lines one cipher
    tampered(&rt, alloc, Tampering::Flip(BLOCK - 4, 0), mended, 5)?;
    tampered(&rt, alloc, Tampering::Move(1, 0), mended, 5)
}

#[test]
fn old_lines_are_refused(rt: HostRuntime) -> Result<(), Fail> {
    // resealed, and the shadow lines name nothing: the redo alone is done
    let mut bench = fresh(rt.alloc(), false, 4)?;
    write_armed(&rt, &mut bench, &Line([0x11; 64]), 1)?;
    poke(&rt, &mut bench, BLOCK_TABLE, &Line::default());
    poke(&rt, &mut bench, NODE_TABLE, &Line::default());
    answers(&rt, rt.alloc(), &mut bench, wrong_root(0x15), 3);
    // named again, it goes through
    name_path(&rt, &mut bench);
    recovers(&rt, rt.alloc(), &mut bench, done(256, 9, 5));
    // an armed line is written again, whatever stands in its place
    let plain = Line([0x11; 64]);
    let mut bench = fresh(rt.alloc(), false, 4)?;
    write_armed(&rt, &mut bench, &plain, 1)?;
    poke(&rt, &mut bench, 0, &Line([0xff; 64]));
    recovers(&rt, rt.alloc(), &mut bench, done(256, 9, 8));
    equal(
        &rt,
        mend_and_read(&rt, rt.alloc(), &mut bench, &[plain]),
        Ok(()),
    );
    Ok(())
}

#[test]
fn twins_are_shown(rt: HostRuntime) -> Result<(), Fail> {
    let mut bench = fresh(rt.alloc(), true, 2)?;
    write_armed(&rt, &mut bench, &Line::default(), 1)?;
    let seen = recovered(rt.alloc(), &mut bench);
    let twin = RecFault::Twin {
        at: 0,
        major: 0,
        low: 0,
        high: 1,
        cipher: line(&rt, &bench, 0),
        tag: one_byte(0x50),
    };
    equal(&rt, (seen.answer, seen.steps), (Err(twin), 3));
    equal(&rt, line(&rt, &bench, 0).0[63], 64);
    Ok(())
}

/// Reseals a line on the device, and reports it to the ledger.
fn put_sealed(
    rt: &impl Abort,
    bench: &mut Bench,
    at: u32,
    ctr: Ctr,
    plain: &Line,
) -> Result<(), Fail> {
    assert!(rt; at < bench.geo.lines());
    let (cipher, tag) = seal(&mut bench.suite, at, ctr, plain);
    poke(rt, bench, at, &cipher);
    let place = bench.geo.tag_line(at);
    let mut tags = line(rt, bench, place);
    put_tag(&mut tags, at, &tag);
    poke(rt, bench, place, &tags);
    bench.ledger.reserve(1)?;
    bench.ledger.note_seal(at, ctr, &cipher, &tag);
    Ok(())
}

/// The register of page 0 under re-encryption, begun from zero counters: lines 0, 1 and 5 are done.
fn open_register(geo: &Geo) -> Progress
    ensures { IsProgress (shape_of geo.now) result }
{
    let _pages = geo.pages();
    Progress {
        done: 0b10_0011,
        ..Progress::default()
    }
}

/// Page 0 under re-encryption: line 0 was written with zeros, line 1 was turned, line 5 was written with
/// fives, and the device's counter block is the one that was written as the page was begun.
fn open_page(rt: &impl Abort, bench: &mut Bench, fives: &Line) -> Result<(), Fail> {
    bench.ledger.reserve(1)?;
    bench.ledger.note_begin(0);
    let zero = Line::default();
    put_sealed(rt, bench, 0, Ctr { major: 1, minor: 1 }, &zero)?;
    put_sealed(rt, bench, 1, Ctr { major: 1, minor: 0 }, &zero)?;
    put_sealed(rt, bench, 5, Ctr { major: 1, minor: 1 }, fives)?;
    let mut block = Line::default();
    block.0[7] = 1;
    poke(rt, bench, BLOCK, &block);
    // the minors of lines 0 and 5
    block.0[8] = 2;
    block.0[13] = 0x40;
    let root = grow(rt, bench, &block);
    name_path(rt, bench);
    let register = open_register(&bench.geo);
    let next = with_register(&bench.geo, root, register);
    latch(rt, bench, &next);
    Ok(())
}

/// Registers with this root and a page under re-encryption.
fn with_register(geo: &Geo, root: Tag, register: Progress) -> Regs
    requires { IsProgress (shape_of geo.now) register }
    ensures { IsValidRegs (shape_of geo.now) result }
{
    let mut regs = rooted(geo, root);
    regs.progress.push(register);
    regs
}

/// A turn that is cut after `fuse` steps, over a memory that was recovered.
fn cut_turn(rt: &impl Abort, alloc: Global, bench: &mut Bench, fuse: u64) -> Result<(), Fail> {
    let mut engine = match mended(alloc, bench) {
        Ok(engine) => engine,
        Err(_) => return Err(Fail::new("not recovered")),
    };
    bench.ledger.reserve(1)?;
    bench.board.arm(fuse);
    let answer = engine.turn(&mut bench.board, &mut bench.suite, &mut bench.ledger);
    assert_eq!(rt; answer, Err(Fault::Cut), "at {fuse}");
    bench.board.power();
    Ok(())
}

/// A turn of an open page that is cut after `fuse` steps: it is lost before the latch, and redone after it, in `steps`
/// steps of the recovery.
fn cut_page(rt: &impl Abort, alloc: Global, fuse: u64, steps: u64) -> Result<(), Fail> {
    let zero = Line::default();
    let fives = Line([0x55; 64]);
    let mut bench = fresh(alloc, false, 4)?;
    open_page(rt, &mut bench, &fives)?;
    // the lines that are done are tried alone
    recovers(rt, alloc, &mut bench, done(12, 9, 5));
    cut_turn(rt, alloc, &mut bench, fuse)?;
    recovers(rt, alloc, &mut bench, done(0, 1, steps));
    let lines = [zero, zero, zero, zero, zero, fives];
    equal(rt, mend_and_read(rt, alloc, &mut bench, &lines), Ok(()));
    Ok(())
}

#[test]
fn open_pages_are_recovered(rt: HostRuntime) -> Result<(), Fail> {
    cut_page(&rt, rt.alloc(), 0, 0)?;
    cut_page(&rt, rt.alloc(), 1, 3)?;
    cut_page(&rt, rt.alloc(), 2, 3)?;
    cut_page(&rt, rt.alloc(), 3, 3)
}

/// Sets the stop-loss number 2 over a memory that was recovered, with `fuse` steps before a cut.
fn set_loss(alloc: Global, bench: &mut Bench, fuse: u64) -> Result<Result<u32, Fault>, RecFault> {
    let mut engine = mended(alloc, bench)?;
    bench.board.arm(fuse);
    let answer = engine.set_loss(&mut bench.board, 2);
    bench.board.power();
    Ok(answer)
}

#[test]
fn the_number_of_the_registers_counts(rt: HostRuntime) -> Result<(), Fail> {
    let mut bench = fresh(rt.alloc(), false, 4)?;
    write_done(&rt, &mut bench, &Line([0; 64]), 1)?;
    let cut = set_loss(rt.alloc(), &mut bench, 0);
    equal(&rt, cut, Ok(Err(Fault::Cut)));
    name_path(&rt, &mut bench);
    recovers(&rt, rt.alloc(), &mut bench, done(255, 9, 2));
    equal(&rt, set_loss(rt.alloc(), &mut bench, 9), Ok(Ok(1)));
    name_path(&rt, &mut bench);
    recovers(&rt, rt.alloc(), &mut bench, done(127, 9, 2));
    equal(&rt, mend_and_read(&rt, rt.alloc(), &mut bench, &[]), Ok(()));
    Ok(())
}
