//! A sample trace that is cut at each of its persist steps, and then at each step of its recovery.
ghost use Rattle.std.specs.Prelude.{◌≡◌, ◌<◌, ◌^◌, false, IfOk, OnOk};
ghost use Rattle.plain_model.specs.Answers as answers;
ghost use Rattle.pmem_base.specs.Ranges.{IsCommand};
ghost use Rattle.pmem_replay.specs.World.{WorldState};

use crate::tests::equal;
use pmem_base::{Answer, Command, Geo, Line};
use pmem_replay::World;
use std::alloc::Global;
use std::process::Abort;
use std::test::Fail;
use suite::WeakSuite;
use trace_text::Maker;

/// The commands of the trace.
const COMMANDS: u32 = 300;

/// What the replies to commands make of the memory: its lines, and the writes that wait, the oldest first.
#[derive(Drop)]
struct KeptMemory {
    lines: Vec<Line>,
    waiting: Vec<(u8, u64, Line)>,
}

impl KeptMemory {
    /// Lines of zeros, and nothing waits.
    fn new(alloc: Global) -> Result<KeptMemory, Fail> {
        Ok(KeptMemory {
            lines: vec![in alloc; Line::default(); 4096]?,
            waiting: Vec::new(alloc),
        })
    }

    /// The number of the oldest write that waits at a port.
    fn oldest(&self, port: u8) -> Option<usize> {
        for (i, write) in self.waiting.iter().enumerate() {
            if write.0 == port {
                return Some(i);
            }
        }
        None
    }

    /// Puts the oldest write that waits at a port.
    fn put(&mut self, port: u8) {
        let Some(i) = self.oldest(port) else {
            return;
        };
        if i < self.waiting.len() {
            let (_, at, line) = self.waiting.remove(i);
            if let Some(place) = self.lines.get_mut(at as usize) {
                *place = line;
            }
        }
    }

    /// Notes what an answer says of the memory.
    fn note(&mut self, command: &Command, answer: &Answer) -> Result<(), Fail> {
        match (*command, *answer) {
            (Command::Post { port, at, line }, Answer::Ok) => {
                self.waiting.push((port, at, line))?;
            }
            (Command::Drain { port }, Answer::Drained { .. } | Answer::CutKept { .. }) => {
                self.put(port);
            }
            _ => {}
        }
        Ok(())
    }
}

/// A formatted world of 64 pages, with one set of one way in each bank.
fn new_world(alloc: Global) -> Result<World<WeakSuite>, Fail>
    ensures { IfOk result (λ (world : WorldState). world.shown ≡ false) }
{
    let suite = WeakSuite::new(&[0; 16], &[0x10], false);
    Ok(World::new(alloc, Geo::new(3, 1, 1, 4, 0)?, suite)?)
}

/// Whether an answer is an exhibit.
fn is_shown(answer: &Answer) -> bool
    ensures { result ≡ answers.is_shown answer.now }
{
    match answer {
        Answer::Shown(_) => true,
        _ => false,
    }
}

/// What a world answers to a command, which isn't an exhibit.
fn ask<R: Abort + AllocGlobal>(
    rt: &R,
    world: &mut World<WeakSuite>,
    command: &Command,
) -> Result<Answer, Fail>
    requires running { world.old.shown ≡ false }
    requires range { IsCommand command.now }
    ensures { OnOk result (world.new.shown ≡ false) }
{
    let reply = world.step(rt.alloc(), command)?;
    assert!(rt; !is_shown(&reply.answer));
    Ok(reply.answer)
}

/// The persist steps of an answer.
fn steps_of(answer: &Answer) -> u64 {
    match *answer {
        Answer::Drained { steps }
        | Answer::Fenced { steps, .. }
        | Answer::Turned { steps, .. }
        | Answer::Flushed { steps, .. }
        | Answer::Got { steps, .. } => steps,
        _ => 0,
    }
}

/// Whether the answer says that power was cut.
fn is_cut(answer: &Answer) -> bool {
    matches!(
        answer,
        Answer::Cut { .. } | Answer::CutKept { .. } | Answer::CutLost { .. }
    )
}

/// The persist steps of the whole trace.
fn all_steps<R: Abort + AllocGlobal>(rt: &R) -> Result<u64, Fail> {
    let mut world = new_world(rt.alloc())?;
    let mut maker = Maker::new(7);
    let mut steps = 0_u64;
    'commands: for _number in 0..COMMANDS {
        let command = maker.next();
        let answer = ask(rt, &mut world, &command)?;
        steps = steps.saturating_add(steps_of(&answer));
    }
    Ok(steps)
}

/// Sets the fuse.
fn set_fuse<R: Abort + AllocGlobal>(
    rt: &R,
    world: &mut World<WeakSuite>,
    n: u64,
) -> Result<(), Fail>
    requires running { world.old.shown ≡ false }
    ensures { OnOk result (world.new.shown ≡ false) }
{
    let answer = ask(rt, world, &Command::Cut { n })?;
    equal(rt, answer, Answer::Ok);
    Ok(())
}

/// Makes the trace's commands with the fuse at `n`, up to the cut.
fn cut_at<R: Abort + AllocGlobal>(
    rt: &R,
    world: &mut World<WeakSuite>,
    kept: &mut KeptMemory,
    n: u64,
) -> Result<bool, Fail>
    requires running { world.old.shown ≡ false }
    ensures { OnOk result (world.new.shown ≡ false) }
{
    set_fuse(rt, world, n)?;
    let mut maker = Maker::new(7);
    'commands: for _number in 0..COMMANDS {
        let command = maker.next();
        let answer = ask(rt, world, &command)?;
        kept.note(&command, &answer)?;
        if is_cut(&answer) {
            return Ok(true);
        }
    }
    Ok(false)
}

/// Asks for recovery with the fuse at 0, 1, and so on until it isn't cut. The answer is how often it was.
fn recover_at_last<R: Abort + AllocGlobal>(
    rt: &R,
    world: &mut World<WeakSuite>,
) -> Result<u64, Fail>
    requires running { world.old.shown ≡ false }
    ensures { OnOk result (world.new.shown ≡ false) }
{
    'cuts: for m in 0..1_000_u64 {
        set_fuse(rt, world, m)?;
        let answer = ask(rt, world, &Command::On)?;
        if matches!(answer, Answer::Recovered { .. }) {
            return Ok(m);
        }
        equal(rt, answer, Answer::Cut { steps: m });
    }
    Err(Fail::new("cut without end"))
}

/// A read of a line.
fn read_at(at: u64) -> Command
    ensures { IsCommand result }
{
    Command::Read { port: 0, at }
}

/// Reads all lines.
fn read_all<R: Abort + AllocGlobal>(
    rt: &R,
    world: &mut World<WeakSuite>,
    kept: &KeptMemory,
) -> Result<(), Fail>
    requires running { world.old.shown ≡ false }
{
    let mut at = 0_u64;
    'lines: for line in kept.lines.as_slice() {
        let answer = ask(rt, world, &read_at(at))?;
        assert_eq!(rt;
            answer,
            Answer::Got {
                line: *line,
                steps: 0
            },
            "line {at}"
        );
        at = at.saturating_add(1);
    }
    Ok(())
}

#[test]
fn a_sample_is_cut_at_each_step(rt: HostRuntime) -> Result<(), Fail> {
    let steps = all_steps(&rt)?;
    let (mut cuts, mut more) = (0_u64, 0_u64);
    for n in 0..steps {
        let mut world = new_world(rt.alloc())?;
        let mut kept = KeptMemory::new(rt.alloc())?;
        if cut_at(&rt, &mut world, &mut kept, n)? {
            cuts = cuts.saturating_add(1);
        }
        more = more.saturating_add(recover_at_last(&rt, &mut world)?);
        read_all(&rt, &mut world, &kept)?;
    }
    equal(&rt, (steps, cuts, more), (561, 561, 2120));
    Ok(())
}
