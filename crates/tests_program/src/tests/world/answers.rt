//! A world's answers to commands, as another program gives them.
ghost use Rattle.std.specs.Prelude.{◌<◌};

use super::asked::{Asked, first_byte, last_major, small_world};
use pmem_base::{Answer, Command, Ctr, Exhibit, Line, Place, Stat, Tag};
use std::process::Abort;
use std::test::Fail;

const ZEROS: Line = Line([0; 64]);

const NINES: Line = Line([9; 64]);

/// The line of nines waits.
fn post(port: u8, at: u64) -> Command {
    Command::Post {
        port,
        at,
        line: NINES,
    }
}

/// One byte waits.
fn part(port: u8, at: u64, from: u64, byte: u8) -> Command {
    Command::Part {
        port,
        at,
        from,
        count: 1,
        line: first_byte(byte),
    }
}

fn drain(port: u8) -> Command {
    Command::Drain { port }
}

fn read(port: u8, at: u64) -> Command {
    Command::Read { port, at }
}

/// The line with another byte.
fn with_byte(line: Line, at: usize, byte: u8) -> Line
    requires { at < 64 }
{
    let mut line = line;
    line.0[at] = byte;
    line
}

/// Bytes that rise by one each.
fn rising(first: u8) -> Line {
    let mut line = ZEROS;
    'bytes: for i in 0..64_u8 {
        line.0[usize::from(i)] = first.wrapping_add(i);
    }
    line
}

/// Fifteen zeros and a byte.
fn tag_of(byte: u8) -> Tag {
    let mut tag = [0; 16];
    tag[15] = byte;
    tag
}

fn got(line: Line) -> Answer {
    Answer::Got { line, steps: 0 }
}

fn drained(steps: u64) -> Answer {
    Answer::Drained { steps }
}

fn fenced(drained: u8, steps: u64) -> Answer {
    Answer::Fenced { drained, steps }
}

fn refused(place: Place) -> Answer {
    Answer::Refused {
        drained: None,
        place,
        steps: 0,
    }
}

fn spent(drained: Option<u8>, steps: u64) -> Answer {
    Answer::Spent {
        drained,
        page: 0,
        steps,
    }
}

fn recovered(trials: u64, digests: u64, steps: u64) -> Answer {
    Answer::Recovered {
        trials,
        digests,
        steps,
    }
}

fn wrong_root(kept: u8, found: u8) -> Answer {
    Answer::WrongRoot {
        kept: tag_of(kept),
        found: tag_of(found),
        steps: 0,
    }
}

fn counts(reads: u64, writes: u64, latches: u64, tags: u64, digests: u64) -> Answer {
    Answer::Counts(Stat {
        reads,
        writes,
        latches,
        tags,
        digests,
    })
}

/// Waiting writes are seen by their own port.
fn read_waiting_writes<R: Abort + AllocGlobal>(rt: &R, world: &mut Asked) {
    let mixed = with_byte(NINES, 2, 0xaa);
    let ended = with_byte(ZEROS, 63, 0xbb);
    world.ask(rt, Command::Stat, 0, counts(0, 0, 0, 0, 0));
    world.ask(rt, post(0, 7), 0, Answer::Ok);
    world.ask(rt, read(0, 7), 0, got(NINES));
    world.ask(rt, read(1, 7), 0, got(ZEROS));
    world.ask(rt, part(0, 7, 2, 0xaa), 0, Answer::Ok);
    world.ask(rt, read(0, 7), 0, got(mixed));
    world.ask(rt, part(1, 8, 63, 0xbb), 0, Answer::Ok);
    world.ask(rt, read(1, 8), 0, got(ended));
    world.ask(rt, read(0, 8), 0, got(ZEROS));
}

/// They are drained, the oldest first, and seen by each port.
fn drain_writes<R: Abort + AllocGlobal>(rt: &R, world: &mut Asked) {
    let mixed = with_byte(NINES, 2, 0xaa);
    let ended = with_byte(ZEROS, 63, 0xbb);
    world.ask(rt, drain(0), 1, drained(6));
    world.ask(rt, read(0, 7), 0, got(mixed));
    world.ask(rt, drain(0), 1, drained(5));
    world.ask(rt, drain(0), 0, Answer::Empty);
    world.ask(rt, read(1, 7), 0, got(mixed));
    world.ask(rt, Command::Fence { port: 1 }, 1, fenced(1, 4));
    world.ask(rt, Command::Fence { port: 1 }, 0, fenced(0, 0));
    world.ask(rt, read(0, 8), 0, got(ended));
}

/// Blocks are flushed, and the stop-loss number is set.
fn flush_and_set_loss<R: Abort + AllocGlobal>(rt: &R, world: &mut Asked) {
    world.ask(rt, Command::Turn, 0, Answer::Idle);
    world.ask(rt, Command::Flush, 0, Answer::Flushed { x: 0, steps: 1 });
    world.ask(rt, Command::Flush, 0, Answer::Flushed { x: 1, steps: 1 });
    world.ask(rt, Command::Flush, 0, Answer::Clean);
    world.ask(rt, Command::Flush, 0, Answer::Clean);
    world.ask(rt, Command::Loss { n: 3 }, 0, Answer::Range);
    world.ask(rt, Command::Loss { n: 2 }, 0, Answer::LossSet { steps: 0 });
    world.ask(rt, Command::Loss { n: 8 }, 0, Answer::LossSet { steps: 1 });
    world.ask(rt, Command::Loss { n: 2 }, 0, Answer::LossSet { steps: 1 });
}

/// Power is cut in a fence, and comes on again.
fn cut_in_a_fence<R: Abort + AllocGlobal>(rt: &R, world: &mut Asked) {
    world.ask(rt, post(2, 9), 0, Answer::Ok);
    world.ask(rt, post(2, 10), 0, Answer::Ok);
    world.ask(rt, Command::Cut { n: 5 }, 0, Answer::Ok);
    world.ask(
        rt,
        Command::Fence { port: 2 },
        2,
        Answer::CutKept {
            drained: Some(1),
            steps: 5,
        },
    );
    world.ask(rt, Command::Fence { port: 2 }, 0, Answer::Off);
    world.ask(rt, read(2, 9), 0, Answer::Off);
    world.ask(rt, Command::On, 0, recovered(127, 5, 7));
    world.ask(rt, Command::On, 0, Answer::Already);
    world.ask(rt, read(2, 9), 0, got(NINES));
    world.ask(rt, read(2, 10), 0, got(NINES));
}

/// A line and a tag line are changed on the bus, and put back.
fn change_lines<R: Abort + AllocGlobal>(rt: &R, world: &mut Asked) {
    world.ask(rt, Command::Snap, 0, Answer::Ok);
    world.ask(rt, Command::Poke { at: 5, line: NINES }, 0, Answer::Ok);
    world.ask(rt, read(0, 5), 0, refused(Place::Line { at: 5 }));
    world.ask(rt, read(0, 6), 0, got(ZEROS));
    world.ask(rt, Command::Back { at: 5 }, 0, Answer::Ok);
    world.ask(rt, read(0, 5), 0, got(ZEROS));
    world.ask(rt, Command::Flip { at: 260, bit: 0 }, 0, Answer::Ok);
    world.ask(rt, read(0, 16), 0, refused(Place::Line { at: 16 }));
    world.ask(rt, Command::Fence { port: 0 }, 0, fenced(0, 0));
    world.ask(rt, Command::Flip { at: 260, bit: 0 }, 0, Answer::Ok);
    world.ask(rt, read(0, 16), 0, got(ZEROS));
}

/// A line is moved over another one, and put back.
fn move_lines<R: Abort + AllocGlobal>(rt: &R, world: &mut Asked) {
    world.ask(rt, Command::Move { from: 7, to: 68 }, 0, Answer::Ok);
    world.ask(rt, read(3, 68), 0, refused(Place::Line { at: 68 }));
    world.ask(rt, Command::Back { at: 68 }, 0, Answer::Ok);
    world.ask(rt, read(3, 68), 0, got(ZEROS));
    world.ask(
        rt,
        Command::Peek { at: 68 },
        0,
        Answer::Raw { line: rising(68) },
    );
    world.ask(rt, Command::Peek { at: 405 }, 0, Answer::Range);
}

/// A node is changed on the bus, and put back.
fn change_nodes<R: Abort + AllocGlobal>(rt: &R, world: &mut Asked) {
    world.ask(rt, Command::Flip { at: 323, bit: 0 }, 0, Answer::Ok);
    world.ask(rt, read(0, 128), 0, refused(Place::Meta { x: 3 }));
    world.ask(rt, read(0, 4), 0, got(ZEROS));
    world.ask(rt, Command::Flip { at: 323, bit: 0 }, 0, Answer::Ok);
    world.ask(rt, read(0, 128), 0, got(ZEROS));
}

/// A changed counter block is found by a recovery, and put back.
fn recover_from_a_changed_block<R: Abort + AllocGlobal>(rt: &R, world: &mut Asked) {
    world.ask(
        rt,
        Command::Poke {
            at: 320,
            line: NINES,
        },
        0,
        Answer::Ok,
    );
    world.ask(rt, Command::Off, 0, Answer::Ok);
    world.ask(rt, Command::Off, 0, Answer::Off);
    world.ask(rt, Command::On, 0, wrong_root(9, 1));
    world.ask(rt, Command::Back { at: 320 }, 0, Answer::Ok);
    world.ask(rt, Command::Cut { n: 0 }, 0, Answer::Ok);
    world.ask(rt, Command::On, 0, recovered(0, 1, 0));
    world.ask(rt, Command::Stat, 0, counts(192, 19, 12, 151, 25));
}

/// All kinds of commands are answered.
fn answer_commands<R: Abort + AllocGlobal>(rt: &R, world: &mut Asked) {
    read_waiting_writes(rt, world);
    drain_writes(rt, world);
    flush_and_set_loss(rt, world);
    cut_in_a_fence(rt, world);
    change_lines(rt, world);
    move_lines(rt, world);
    change_nodes(rt, world);
    recover_from_a_changed_block(rt, world);
}

#[test]
fn commands_are_answered(rt: HostRuntime) -> Result<(), Fail> {
    let mut world = small_world(rt.alloc(), 0, false)?;
    answer_commands(&rt, &mut world);
    Ok(())
}

impl Asked {
    /// Line 7 is written until the next write of it uses up its counter.
    fn wear<R: Abort + AllocGlobal>(&mut self, rt: &R) {
        for n in 0..127_u8 {
            self.ask(rt, post(0, 7), 0, Answer::Ok);
            let steps = if n == 0 { 6 } else { 4 + u64::from(n % 2) };
            self.ask(rt, drain(0), 1, drained(steps));
        }
    }
}

/// The re-encryption of a page goes on over a line that is tampered with and mended, up to a cut.
fn seal_anew_to_a_cut<R: Abort + AllocGlobal>(rt: &R, world: &mut Asked) {
    world.ask(rt, Command::Turn, 1, Answer::Turned { left: 58, steps: 4 });
    world.ask(rt, read(0, 1), 0, got(ZEROS));
    world.ask(rt, Command::Flip { at: 5, bit: 0 }, 0, Answer::Ok);
    world.ask(rt, Command::Turn, 1, Answer::Turned { left: 57, steps: 4 });
    world.ask(rt, Command::Turn, 0, refused(Place::Line { at: 5 }));
    world.ask(rt, Command::Flip { at: 5, bit: 0 }, 0, Answer::Ok);
    world.ask(rt, Command::Turn, 1, Answer::Turned { left: 56, steps: 4 });
    world.ask(rt, Command::Cut { n: 3 }, 0, Answer::Ok);
    world.ask(rt, Command::Loss { n: 1 }, 0, Answer::LossSet { steps: 1 });
    world.ask(rt, post(0, 7), 0, Answer::Ok);
    world.ask(
        rt,
        drain(0),
        0,
        Answer::CutLost {
            drained: None,
            steps: 2,
        },
    );
    world.ask(rt, Command::Off, 0, Answer::Off);
    world.ask(rt, drain(0), 0, Answer::Off);
}

/// A page whose counter is exhausted is re-encrypted, by turns and by writes, up to a cut within a turn.
fn seal_anew<R: Abort + AllocGlobal>(rt: &R, world: &mut Asked) {
    world.wear(rt);
    world.ask(rt, post(0, 7), 0, Answer::Ok);
    world.ask(rt, drain(0), 2, drained(7));
    world.ask(rt, read(0, 7), 0, got(NINES));
    world.ask(rt, Command::Turn, 1, Answer::Turned { left: 62, steps: 4 });
    world.ask(rt, post(0, 9), 0, Answer::Ok);
    world.ask(rt, drain(0), 1, drained(4));
    world.ask(rt, Command::Turn, 1, Answer::Turned { left: 60, steps: 4 });
    world.ask(rt, Command::Cut { n: 2 }, 0, Answer::Ok);
    world.ask(rt, Command::Turn, 1, Answer::Cut { steps: 2 });
    world.ask(rt, Command::Turn, 0, Answer::Off);
    world.ask(rt, Command::On, 0, recovered(10, 5, 7));
}

/// A page is re-encrypted, before a cut, after it, and up to the next one.
fn seal_pages<R: Abort + AllocGlobal>(rt: &R, world: &mut Asked) {
    seal_anew(rt, world);
    seal_anew_to_a_cut(rt, world);
    world.ask(rt, Command::Stat, 0, counts(169, 343, 273, 155, 271));
}

#[test]
fn pages_are_sealed_anew(rt: HostRuntime) -> Result<(), Fail> {
    let mut world = small_world(rt.alloc(), 0, false)?;
    seal_pages(&rt, &mut world);
    Ok(())
}

/// The last counters of a page are used up, by a fence and by a drain.
fn use_up_counters<R: Abort + AllocGlobal>(rt: &R, world: &mut Asked) {
    world.wear(rt);
    world.ask(rt, post(0, 8), 0, Answer::Ok);
    world.ask(rt, post(0, 7), 0, Answer::Ok);
    world.ask(rt, post(0, 10), 0, Answer::Ok);
    world.ask(rt, Command::Fence { port: 0 }, 1, spent(Some(1), 4));
    world.ask(rt, drain(0), 1, drained(4));
    world.ask(rt, post(0, 7), 0, Answer::Ok);
    world.ask(rt, drain(0), 0, spent(None, 0));
    world.ask(rt, drain(0), 0, Answer::Empty);
    world.ask(rt, read(0, 7), 0, got(NINES));
}

#[test]
fn counters_are_used_up(rt: HostRuntime) -> Result<(), Fail> {
    let mut world = small_world(rt.alloc(), last_major(), false)?;
    use_up_counters(&rt, &mut world);
    Ok(())
}

#[test]
fn a_forged_tag_is_shown(rt: HostRuntime) -> Result<(), Fail> {
    let mut world = small_world(rt.alloc(), 0, false)?;
    world.ask(&rt, Command::Move { from: 64, to: 68 }, 0, Answer::Ok);
    let forged = Exhibit::Forged {
        at: 68,
        ctr: Ctr { major: 0, minor: 0 },
        cipher: rising(64),
        tag: tag_of(0x44),
    };
    world.shows(&rt, &Command::Read { port: 0, at: 68 }, forged)
}

#[test]
fn two_lines_of_one_digest_are_shown(rt: HostRuntime) -> Result<(), Fail> {
    let mut world = small_world(rt.alloc(), 0, false)?;
    world.ask(
        &rt,
        Command::Poke {
            at: 323,
            line: NINES,
        },
        0,
        Answer::Ok,
    );
    let clash = Exhibit::Clash {
        x: 3,
        first: NINES,
        second: ZEROS,
    };
    world.shows(&rt, &Command::Read { port: 0, at: 128 }, clash)
}

#[test]
fn two_counters_of_one_tag_are_shown(rt: HostRuntime) -> Result<(), Fail> {
    let mut world = small_world(rt.alloc(), 0, true)?;
    world.ask(&rt, post(0, 0), 0, Answer::Ok);
    world.ask(&rt, drain(0), 1, drained(6));
    world.ask(&rt, Command::Off, 0, Answer::Ok);
    let mut cipher = rising(1);
    'bytes: for byte in &mut cipher.0 {
        *byte ^= 9;
    }
    let twin = Exhibit::Twin {
        at: 0,
        major: 0,
        low: 0,
        high: 1,
        cipher,
        tag: tag_of(0x40),
    };
    world.shows(&rt, &Command::On, twin)
}
