//! A world that is asked commands.
ghost use Rattle.std.specs.Prelude.{◌≡◌, ◌<◌, ◌^◌, true, false};
ghost use Rattle.pmem_base.specs.Ranges.{IsCommand, IsPartLine};
ghost use Rattle.plain_model.specs.Answers as answers;

use crate::tests::equal;
use pmem_base::{Answer, Command, Exhibit, Geo, Line};
use pmem_replay::World;
use std::alloc::Global;
use std::process::Abort;
use std::test::Fail;
use suite::WeakSuite;

/// A world that has shown no exhibit.
#[derive(Drop)]
pub(crate) struct Asked {
    world: World<WeakSuite>,
    ghost running: { world.shown ≡ false },
}

/// A formatted world of four pages, with one set of one way in each bank, the stop-loss number 2, and this first major.
/// If the suite blurs, two minors have one tag.
pub(crate) fn small_world(alloc: Global, major: u64, blur: bool) -> Result<Asked, Fail> {
    let suite = WeakSuite::new(&[0; 16], &[0], blur);
    let world = World::new(alloc, Geo::new(1, 1, 1, 2, major)?, suite)?;
    Ok(Asked { world })
}

/// The greatest major, after which a page has used up its counters.
pub(crate) fn last_major() -> u64 {
    u64::MAX
}

/// A line of zeros with a first byte.
pub(crate) fn first_byte(byte: u8) -> Line
    ensures { IsPartLine 1 result }
{
    let mut line = Line([0; 64]);
    line.0[0] = byte;
    line.is_whole();
    line
}

/// A law: a number of 64 bits is in its range.
fn is_number(n: u64)
    ensures { n < 2 ^ 64 }
{
    let _ = n;
}

/// Whether a trace can hold the command. It takes only parts of one byte.
fn is_command(command: &Command) -> bool
    ensures { result ≡ true → IsCommand command.now }
{
    let command = *command;
    match command {
        Command::Post { port, line, .. } => {
            line.is_whole();
            port < 8
        }
        Command::Part {
            port,
            count,
            line,
            ..
        } => port < 8 && count == 1 && line == first_byte(line.0[0]),
        Command::Poke { line, .. } => {
            line.is_whole();
            true
        }
        Command::Drain { port } => port < 8,
        Command::Fence { port } => port < 8,
        Command::Read { port, .. } => port < 8,
        Command::Cut { n } => {
            is_number(n);
            true
        }
        Command::Flip { at, bit } => {
            is_number(at);
            is_number(bit);
            true
        }
        Command::Move { from, to } => {
            is_number(from);
            is_number(to);
            true
        }
        Command::Back { at } => {
            is_number(at);
            true
        }
        Command::Peek { at } => {
            is_number(at);
            true
        }
        Command::Loss { n } => {
            is_number(n);
            true
        }
        Command::Turn => true,
        Command::Flush => true,
        Command::Off => true,
        Command::On => true,
        Command::Snap => true,
        Command::Stat => true,
    }
}

/// Whether an answer is an exhibit.
fn is_shown(answer: &Answer) -> bool
    ensures { result ≡ answers.is_shown answer.now }
{
    match answer {
        Answer::Shown(_) => true,
        _ => false,
    }
}

/// A command is answered as wanted, with this number of marks, and by no exhibit.
fn ask<R: Abort + AllocGlobal>(
    rt: &R,
    world: &mut World<WeakSuite>,
    command: &Command,
    marks: usize,
    wanted: &Answer,
)
    requires running { world.old.shown ≡ false }
    ensures { world.new.shown ≡ false }
{
    assert!(rt; is_command(command));
    let Ok(reply) = world.step(rt.alloc(), command) else {
        assert!(rt; false, "no memory for {command:?}");
        return;
    };
    assert!(rt; !is_shown(&reply.answer));
    assert_eq!(rt; reply.answer, *wanted, "to {command:?}");
    assert_eq!(rt;
        reply.to.saturating_sub(reply.from),
        marks,
        "marks of {command:?}"
    );
}

impl Asked {
    /// A command is answered as wanted, with this number of marks, and by no exhibit.
    pub(crate) fn ask<R: Abort + AllocGlobal>(
        &mut self,
        rt: &R,
        command: Command,
        marks: usize,
        wanted: Answer,
    ) {
        ask(rt, &mut self.world, &command, marks, &wanted);
    }

    /// A command is answered by this exhibit.
    pub(crate) fn shows<R: Abort + AllocGlobal>(
        self,
        rt: &R,
        command: &Command,
        exhibit: Exhibit,
    ) -> Result<(), Fail> {
        let mut world = self.world;
        assert!(rt; is_command(command));
        let reply = world.step(rt.alloc(), command)?;
        equal(rt, reply.answer, Answer::Shown(exhibit));
        Ok(())
    }
}
