//! Traces answered by a world, a command at a time.
ghost use Rattle.std.specs.Prelude.{◌≡◌, IfOk, false, true};
ghost use Rattle.plain_model.specs.Answers as answers;
ghost use Rattle.pmem_replay.specs.World.{WorldState};
ghost use Rattle.trace_text.specs.Answers.{HasSmallMinors};

use arrayvec::ArrayVec;
use pmem_base::{Answer, Command, Exhibit, Geo};
use pmem_replay::World;
use std::process::Abort;
use std::test::Fail;
use suite::{AesSuite, Counted, WeakSuite};
use trace_text::{push_answer, read_command, write_mark};

/// Which suite a run has, the sets and ways of its banks, and its stop-loss number.
#[derive(Clone, Copy)]
pub(crate) struct Setting {
    suite: Keyed,
    sets: u8,
    ways: u8,
    loss: u8,
}

/// A suite under the default keys.
#[derive(Clone, Copy, PartialEq)]
enum Keyed {
    Aes,
    Weak,
    Blur,
}

/// The setting of this name, if there is one: `aes`, `weak` or `blur` for a suite, `narrow` for one way and one set in
/// each bank, or `each` for the weak suite with each write's counter block in the group.
pub(crate) fn setting_of(name: &str) -> Option<Setting> {
    let (suite, sets, ways, loss) = match name {
        "aes" => (Keyed::Aes, 4, 2, 4),
        "narrow" => (Keyed::Aes, 1, 1, 4),
        "weak" => (Keyed::Weak, 4, 2, 4),
        "each" => (Keyed::Weak, 4, 2, 1),
        "blur" => (Keyed::Blur, 4, 2, 2),
        _ => return None,
    };
    Some(Setting {
        suite,
        sets,
        ways,
        loss,
    })
}

/// The words of a run with this setting.
pub(crate) fn words_with<R: AllocGlobal>(rt: &R, setting: &Setting) -> Result<String, Fail> {
    let suite = match setting.suite {
        Keyed::Aes => "aes",
        Keyed::Weak => "weak",
        Keyed::Blur => "blur",
    };
    let (sets, ways, loss) = (setting.sets, setting.ways, setting.loss);
    Ok(format!(in rt.alloc(); "run --suite {suite} --sets {sets} --ways {ways} --loss {loss}")?)
}

/// Whether an answer is an exhibit.
fn is_shown(answer: &Answer) -> bool
    ensures { result ≡ answers.is_shown answer.now }
{
    match answer {
        Answer::Shown(_) => true,
        _ => false,
    }
}

/// Whether a twin that is shown has minors.
fn has_minors(answer: &Answer) -> bool
    ensures { result ≡ true → HasSmallMinors answer.now }
{
    match answer {
        Answer::Shown(Exhibit::Twin { low, high, .. }) => *low < 128 && *high < 128,
        _ => true,
    }
}

/// Appends a text, and LF.
fn push_text(text: &[u8], out: &mut Vec<u8>) -> Result<(), Fail> {
    out.extend_from_slice(text)?;
    out.push(b'\n')?;
    Ok(())
}

/// Answers the command of a line, and appends the texts of its marks and of its answer. Says whether the
/// run goes on.
fn step_line<S: Counted + Drop, R: Abort + AllocGlobal>(
    rt: &R,
    world: &mut World<S>,
    line: &[u8],
    out: &mut Vec<u8>,
) -> Result<bool, Fail>
    requires running { world.old.shown ≡ false }
    ensures { IfOk result (λ goes_on. goes_on ≡ true → world.new.shown ≡ false) }
{
    let Ok(Some(command)) = read_command(line) else {
        return Err(Fail::new("no command"));
    };
    let reply = world.step(rt.alloc(), &command)?;
    for mark in world.marks().iter().skip(reply.from) {
        push_text(&write_mark(mark), out)?;
    }
    let answer = reply.answer;
    assert!(rt; has_minors(&answer));
    let mut text = ArrayVec::new();
    push_answer(&mut text, &answer);
    push_text(&text, out)?;
    Ok(!is_shown(&answer))
}

/// Answers the commands of a trace in turn: the texts of all marks and answers.
fn stepped<S: Counted + Drop, R: Abort + AllocGlobal>(
    rt: &R,
    world: &mut World<S>,
    trace: &[u8],
) -> Result<Vec<u8>, Fail>
    requires running { world.old.shown ≡ false }
{
    let mut out = Vec::new(rt.alloc());
    let mut line = Vec::new(rt.alloc());
    'bytes: for byte in trace {
        if *byte != b'\n' {
            line.push(*byte)?;
            continue;
        }
        if !step_line(rt, world, line.as_slice(), &mut out)? {
            return Ok(out);
        }
        line.clear();
    }
    Ok(out)
}

/// The default keys.
const KEY: [u8; 16] = [0, 1, 2, 3, 4, 5, 6, 7, 8, 9, 10, 11, 12, 13, 14, 15];

const TAG_KEY: [u8; 32] = [
    16, 17, 18, 19, 20, 21, 22, 23, 24, 25, 26, 27, 28, 29, 30, 31, 32, 33, 34, 35, 36, 37, 38, 39,
    40, 41, 42, 43, 44, 45, 46, 47,
];

/// The replies to a trace over a new world of this setting.
pub(crate) fn stepped_with<R: Abort + AllocGlobal>(
    rt: &R,
    setting: &Setting,
    trace: &[u8],
) -> Result<Vec<u8>, Fail> {
    let geo = Geo::new(2, setting.sets, setting.ways, setting.loss, 0)?;
    if setting.suite == Keyed::Aes {
        let suite = AesSuite::new(&KEY, &TAG_KEY);
        return stepped(rt, &mut World::new(rt.alloc(), geo, suite)?, trace);
    }
    let suite = WeakSuite::new(&KEY, &TAG_KEY, setting.suite == Keyed::Blur);
    stepped(rt, &mut World::new(rt.alloc(), geo, suite)?, trace)
}
