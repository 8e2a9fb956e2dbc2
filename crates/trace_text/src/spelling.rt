//! The texts of commands.
ghost use Rattle.std.specs.Prelude.{◌≡◌, ◌<◌, ◌≤◌, ◌+◌, ◌*◌, ◌∷◌, ◌++◌, [], length, take, codes, decimal, Ok, Some};
ghost use Rattle.collision_witness.specs.Texts.{hex_text, line_text, sentence};
ghost use Rattle.plain_model.specs.Grammar.{reading_of};
ghost use Rattle.plain_model.specs.Texts.{command_text};
ghost use Rattle.trace_text.specs.Commands.{IsWritable, HasPartAtFront};

use crate::reading::is_in_range;
use crate::sentences::{push_with_number, push_with_three, push_with_two};
use arrayvec::ArrayVec;
use collision_witness::{push_bytes, push_line};
use pmem_base::{Command, Line};

/// Appends what asks for a post.
fn push_post(text: &mut ArrayVec<u8, 512>, port: u8, at: u64, line: &Line)
    requires { length text.old.items ≤ 300 }
    ensures text { text.new.items ≡ text.old.items
        ++ sentence (codes "post" ∷ decimal port ∷ decimal at ∷ line_text line.now ∷ []) }
    ensures length { length text.new.items ≤ length text.old.items + 175 }
{
    push_with_two(text, b"post", u64::from(port), at);
    push_bytes(text, b" ");
    push_line(text, line);
}

/// Appends what asks for a poke.
fn push_poke(text: &mut ArrayVec<u8, 512>, at: u64, line: &Line)
    requires { length text.old.items ≤ 300 }
    ensures text { text.new.items ≡ text.old.items
        ++ sentence (codes "poke" ∷ decimal at ∷ line_text line.now ∷ []) }
    ensures length { length text.new.items ≤ length text.old.items + 154 }
{
    push_with_number(text, b"poke", at);
    push_bytes(text, b" ");
    push_line(text, line);
}

/// Appends the first bytes of a line in hex.
fn push_front(text: &mut ArrayVec<u8, 512>, line: &Line, count: u8)
    requires room { length text.old.items + 128 ≤ 512 }
    requires within { count ≤ 64 }
    ensures text { text.new.items ≡ text.old.items ++ hex_text (take count line.now.0) }
    ensures length { length text.new.items ≡ length text.old.items + 2 * count }
{
    let count = usize::from(count);
    let mut digits = [0; 128];
    let (front, _) = digits.split_at_mut(2 * count);
    let _ = hex::encode_to_slice(line.0.as_slice().split_at(count).0, front);
    push_bytes(text, front);
}

/// Puts the text of a command into an empty text.
#[tactic(auto, unfolding(plain_model::specs::Texts::command_text))]
fn push_command(text: &mut ArrayVec<u8, 512>, command: &Command)
    requires empty { text.old.items ≡ [] }
    requires part { HasPartAtFront command.now }
    ensures text { text.new.items ≡ command_text command.now }
    ensures length { length text.new.items < 512 }
{
    match *command {
        Command::Post { port, at, ref line } => push_post(text, port, at, line),
        Command::Part {
            port,
            at,
            from,
            count,
            ref line,
        } => {
            push_with_three(text, b"part", u64::from(port), at, from);
            push_bytes(text, b" ");
            push_front(text, line, count);
        }
        Command::Drain { port } => push_with_number(text, b"drain", u64::from(port)),
        Command::Fence { port } => push_with_number(text, b"fence", u64::from(port)),
        Command::Read { port, at } => push_with_two(text, b"read", u64::from(port), at),
        Command::Turn => push_bytes(text, b"turn"),
        Command::Flush => push_bytes(text, b"flush"),
        Command::Cut { n } => push_with_number(text, b"cut", n),
        Command::Off => push_bytes(text, b"off"),
        Command::On => push_bytes(text, b"on"),
        Command::Poke { at, ref line } => push_poke(text, at, line),
        Command::Flip { at, bit } => push_with_two(text, b"flip", at, bit),
        Command::Move { from, to } => push_with_two(text, b"move", from, to),
        Command::Snap => push_bytes(text, b"snap"),
        Command::Back { at } => push_with_number(text, b"back", at),
        Command::Peek { at } => push_with_number(text, b"peek", at),
        Command::Stat => push_bytes(text, b"stat"),
        Command::Loss { n } => push_with_number(text, b"loss", n),
    }
}

/// The text of a command, without its LF. `read_command` reads it back.
pub fn write_command(command: &Command) -> ArrayVec<u8, 512>
    requires { IsWritable command.now }
    ensures text { result.items ≡ command_text command.now }
    ensures room { length result.items < 512 }
    ensures read_back { reading_of result.items ≡ Ok (Some command.now) }
{
    is_in_range(*command);
    let mut text = ArrayVec::new();
    push_command(&mut text, command);
    text
}
