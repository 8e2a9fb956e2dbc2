//! Which answers a command can have.
ghost use Rattle.std.specs.Prelude.{◌≡◌, ◌||◌};
ghost use Rattle.plain_model.specs.Answers.{is_off, is_empty, is_range, is_drain_answer, is_fence_answer, is_read_answer, is_turn_answer, is_answer_to};

use pmem_base::{Answer, Command};

/// Whether a drain can have this answer.
fn is_of_drain(answer: &Answer) -> bool
    ensures { result ≡ (is_off answer.now || is_empty answer.now || is_drain_answer answer.now) }
{
    match answer {
        Answer::CutKept { drained, .. } | Answer::CutLost { drained, .. } => drained.is_none(),
        Answer::Refused { drained, .. } | Answer::Spent { drained, .. } => drained.is_none(),
        Answer::Off | Answer::Empty | Answer::Drained { .. } | Answer::Shown(_) => true,
        _ => false,
    }
}

/// Whether a fence can have this answer.
fn is_of_fence(answer: &Answer) -> bool
    ensures { result ≡ (is_off answer.now || is_fence_answer answer.now) }
{
    match answer {
        Answer::CutKept { drained, .. } | Answer::CutLost { drained, .. } => drained.is_some(),
        Answer::Refused { drained, .. } | Answer::Spent { drained, .. } => drained.is_some(),
        Answer::Off | Answer::Fenced { .. } | Answer::Shown(_) => true,
        _ => false,
    }
}

/// Whether a read can have this answer.
fn is_of_read(answer: &Answer) -> bool
    ensures { result ≡ (is_off answer.now || is_range answer.now || is_read_answer answer.now) }
{
    match answer {
        Answer::Refused { drained, .. } => drained.is_none(),
        Answer::Off | Answer::Range => true,
        Answer::Got { .. } | Answer::Cut { .. } | Answer::Shown(_) => true,
        _ => false,
    }
}

/// Whether a turn can have this answer.
fn is_of_turn(answer: &Answer) -> bool
    ensures { result ≡ (is_off answer.now || is_turn_answer answer.now) }
{
    match answer {
        Answer::Refused { drained, .. } => drained.is_none(),
        Answer::Off | Answer::Idle => true,
        Answer::Turned { .. } | Answer::Cut { .. } | Answer::Shown(_) => true,
        _ => false,
    }
}

/// Whether a command can have this answer.
pub fn is_listed(command: &Command, answer: &Answer) -> bool
    ensures { result ≡ is_answer_to command.now answer.now }
{
    match command {
        Command::Post { .. } | Command::Part { .. } => matches!(
            answer,
            Answer::Ok | Answer::Full | Answer::Off | Answer::Range
        ),
        Command::Drain { .. } => is_of_drain(answer),
        Command::Fence { .. } => is_of_fence(answer),
        Command::Read { .. } => is_of_read(answer),
        Command::Turn => is_of_turn(answer),
        Command::Flush => matches!(
            answer,
            Answer::Off | Answer::Clean | Answer::Flushed { .. } | Answer::Cut { .. }
        ),
        Command::Off => matches!(answer, Answer::Ok | Answer::Off),
        Command::On => matches!(
            answer,
            Answer::Already
                | Answer::Recovered { .. }
                | Answer::Cut { .. }
                | Answer::NoCounter { .. }
                | Answer::WrongRoot { .. }
                | Answer::Shown(_)
        ),
        Command::Poke { .. } | Command::Flip { .. } | Command::Move { .. } => {
            matches!(answer, Answer::Ok | Answer::Range)
        }
        Command::Cut { .. } | Command::Snap => matches!(answer, Answer::Ok),
        Command::Back { .. } => matches!(answer, Answer::Ok | Answer::NoSnap | Answer::Range),
        Command::Peek { .. } => matches!(answer, Answer::Raw { .. } | Answer::Range),
        Command::Stat => matches!(answer, Answer::Counts(_)),
        Command::Loss { .. } => matches!(
            answer,
            Answer::LossSet { .. } | Answer::Cut { .. } | Answer::Off | Answer::Range
        ),
    }
}
