//! What a line of a trace asks for.
ghost use Rattle.std.specs.Prelude.{◌≡◌, [], Ok, None, Some, Err, IfOk, IfSome, option_map};
ghost use Rattle.std.specs.Str.{bytes_eq};
ghost use Rattle.pmem_base.specs.declared.commands.Kind.TheVariants as Kind;
ghost use Rattle.pmem_base.specs.declared.commands.Command.TheVariants as Do;
ghost use Rattle.pmem_base.specs.Ranges.{IsCommand};
ghost use Rattle.collision_witness.specs.Words.{words_of, no_word};
ghost use Rattle.collision_witness.specs.Views.{map_ok};
ghost use Rattle.trace_text.specs.Entries.{entry_of_line};
ghost use Rattle.plain_model.specs.Grammar.{verbs, command_among, reading_of, with_port, post_with, part_with, read_with, poke_values};
ghost use Rattle.trace_text.specs.Lines.{later_verbs, tampering_verbs, last_verbs};
ghost use Rattle.trace_text.specs.Commands.{HasPortWithin, HasPartAtFront, IsWritable};

use crate::lines::read_one_line;
use crate::values::{read_one_number, read_one_port, read_part, read_port, read_two_numbers};
use collision_witness::ranges::is_u64;
use collision_witness::{before_return, four_words, next_word, read_number, two_words};
use pmem_base::{Command, Kind, Line};

/// The greatest of the eight ports.
const LAST_PORT: u8 = 7;

/// Checks that a text has no word. Errors: `Kind::Count` if it has one.
pub fn has_no_word(text: &[u8]) -> Result<(), Kind>
    ensures { map_ok (λ found. []) result ≡ no_word (words_of text.now) }
{
    match next_word(text) {
        None => Ok(()),
        Some(_) => Err(Kind::Count),
    }
}

/// Whether a word of a line is this one.
#[inline]
pub fn is_word(word: &[u8], name: &[u8]) -> bool
    ensures { result ≡ bytes_eq word.now name.now }
{
    word == name
}

/// What `post` asks for: a port, a number and a line are behind it.
fn read_post(most: u8, text: &[u8]) -> Result<Command, Kind>
    ensures command { result ≡ post_with most (words_of text.now) }
    ensures port { IfOk result (HasPortWithin most) }
    ensures part { IfOk result HasPartAtFront }
{
    let Some((port, rest)) = next_word(text) else {
        return Err(Kind::Count);
    };
    let Some((at, rest)) = next_word(rest) else {
        return Err(Kind::Count);
    };
    let line = read_one_line(rest);
    if matches!(line, Err(Kind::Count)) {
        return Err(Kind::Count);
    }
    let port = read_port(most, port)?;
    let at = read_number(at)?;
    let line = line?;
    Ok(Command::Post { port, at, line })
}

/// What `part` asks for: a port, two numbers and a part of a line are behind it.
fn read_posted_part(most: u8, text: &[u8]) -> Result<Command, Kind>
    ensures command { result ≡ part_with most (words_of text.now) }
    ensures port { IfOk result (HasPortWithin most) }
    ensures part { IfOk result HasPartAtFront }
{
    let (port, at, from, part) = four_words(text)?;
    let port = read_port(most, port)?;
    let at = read_number(at)?;
    let from = read_number(from)?;
    let (count, line) = read_part(part)?;
    Ok(Command::Part {
        port,
        at,
        from,
        count,
        line,
    })
}

/// What `drain` asks for: a port is behind it.
fn read_drain(most: u8, text: &[u8]) -> Result<Command, Kind>
    ensures command { result ≡ with_port most Do.Drain (words_of text.now) }
    ensures port { IfOk result (HasPortWithin most) }
    ensures part { IfOk result HasPartAtFront }
{
    let port = read_one_port(most, text)?;
    Ok(Command::Drain { port })
}

/// What `fence` asks for: a port is behind it.
fn read_fence(most: u8, text: &[u8]) -> Result<Command, Kind>
    ensures command { result ≡ with_port most Do.Fence (words_of text.now) }
    ensures port { IfOk result (HasPortWithin most) }
    ensures part { IfOk result HasPartAtFront }
{
    let port = read_one_port(most, text)?;
    Ok(Command::Fence { port })
}

/// What `read` asks for: a port and a number are behind it.
fn read_read(most: u8, text: &[u8]) -> Result<Command, Kind>
    ensures command { result ≡ read_with most (words_of text.now) }
    ensures port { IfOk result (HasPortWithin most) }
    ensures part { IfOk result HasPartAtFront }
{
    let (port, at) = two_words(text)?;
    let port = read_port(most, port)?;
    let at = read_number(at)?;
    Ok(Command::Read { port, at })
}

/// The words after `poke`: a number and a line. Errors: `Kind::Count` if there aren't two words; `Kind::Number` or
/// `Kind::Hex`, by the first wrong word from the left.
pub fn read_poke(text: &[u8]) -> Result<(u64, Line), Kind>
    ensures { result ≡ poke_values (words_of text.now) }
{
    let Some((at, rest)) = next_word(text) else {
        return Err(Kind::Count);
    };
    let line = read_one_line(rest);
    if matches!(line, Err(Kind::Count)) {
        return Err(Kind::Count);
    }
    let at = read_number(at)?;
    Ok((at, line?))
}

/// The command that begins with a first word. The commonest come first, and a function for each leaves what the
/// others need uncleared.
#[tactic(auto, unfolding(plain_model::specs::Grammar::command_among, plain_model::specs::Grammar::command_of))]
fn read_verb(most: u8, verb: &[u8], text: &[u8]) -> Result<Command, Kind>
    ensures command { result ≡ command_among most verbs verb.now (words_of text.now) }
    ensures port { IfOk result (HasPortWithin most) }
    ensures part { IfOk result HasPartAtFront }
{
    if is_word(verb, b"post") {
        return read_post(most, text);
    }
    if is_word(verb, b"part") {
        return read_posted_part(most, text);
    }
    if is_word(verb, b"drain") {
        return read_drain(most, text);
    }
    if is_word(verb, b"fence") {
        return read_fence(most, text);
    }
    if is_word(verb, b"read") {
        return read_read(most, text);
    }
    read_later_verb(most, verb, text)
}

/// The command that begins with a first word behind the five that have ports: of the controller and of its power.
#[tactic(auto, unfolding(plain_model::specs::Grammar::command_among, plain_model::specs::Grammar::command_of))]
#[inline(never)]
fn read_later_verb(most: u8, verb: &[u8], text: &[u8]) -> Result<Command, Kind>
    ensures command { result ≡ command_among most later_verbs verb.now (words_of text.now) }
    ensures port { IfOk result (HasPortWithin most) }
    ensures part { IfOk result HasPartAtFront }
{
    if is_word(verb, b"turn") {
        has_no_word(text)?;
        return Ok(Command::Turn);
    }
    if is_word(verb, b"flush") {
        has_no_word(text)?;
        return Ok(Command::Flush);
    }
    if is_word(verb, b"cut") {
        let n = read_one_number(text)?;
        return Ok(Command::Cut { n });
    }
    if is_word(verb, b"off") {
        has_no_word(text)?;
        return Ok(Command::Off);
    }
    if is_word(verb, b"on") {
        has_no_word(text)?;
        return Ok(Command::On);
    }
    read_tampering_verb(most, verb, text)
}

/// The command that begins with a first word behind those ten: of an attacker.
#[tactic(auto, unfolding(plain_model::specs::Grammar::command_among, plain_model::specs::Grammar::command_of))]
#[inline(never)]
fn read_tampering_verb(most: u8, verb: &[u8], text: &[u8]) -> Result<Command, Kind>
    ensures command { result ≡ command_among most tampering_verbs verb.now (words_of text.now) }
    ensures port { IfOk result (HasPortWithin most) }
    ensures part { IfOk result HasPartAtFront }
{
    if is_word(verb, b"poke") {
        let (at, line) = read_poke(text)?;
        return Ok(Command::Poke { at, line });
    }
    if is_word(verb, b"flip") {
        let (at, bit) = read_two_numbers(text)?;
        return Ok(Command::Flip { at, bit });
    }
    if is_word(verb, b"move") {
        let (from, to) = read_two_numbers(text)?;
        return Ok(Command::Move { from, to });
    }
    if is_word(verb, b"snap") {
        has_no_word(text)?;
        return Ok(Command::Snap);
    }
    read_last_verb(most, verb, text)
}

/// The command that begins with one of the last four first words.
#[tactic(auto, unfolding(plain_model::specs::Grammar::command_among, plain_model::specs::Grammar::command_of))]
#[inline(never)]
fn read_last_verb(most: u8, verb: &[u8], text: &[u8]) -> Result<Command, Kind>
    ensures command { result ≡ command_among most last_verbs verb.now (words_of text.now) }
    ensures port { IfOk result (HasPortWithin most) }
    ensures part { IfOk result HasPartAtFront }
{
    if is_word(verb, b"back") {
        let at = read_one_number(text)?;
        return Ok(Command::Back { at });
    }
    if is_word(verb, b"peek") {
        let at = read_one_number(text)?;
        return Ok(Command::Peek { at });
    }
    if is_word(verb, b"stat") {
        has_no_word(text)?;
        return Ok(Command::Stat);
    }
    if is_word(verb, b"loss") {
        let n = read_one_number(text)?;
        return Ok(Command::Loss { n });
    }
    Err(Kind::Word)
}

/// A law: a command that a trace can spell is in its ranges.
pub(crate) fn is_in_range(command: Command)
    requires { IsWritable command }
    ensures { IsCommand command }
{
    match command {
        Command::Post { at, line, .. } | Command::Poke { at, line } => {
            is_u64(at);
            line.is_whole();
        }
        Command::Part { at, from, .. } => {
            is_u64(at);
            is_u64(from);
        }
        Command::Flip { at, bit } => {
            is_u64(at);
            is_u64(bit);
        }
        Command::Move { from, to } => {
            is_u64(from);
            is_u64(to);
        }
        Command::Read { at, .. } | Command::Back { at } | Command::Peek { at } => is_u64(at),
        Command::Cut { n } | Command::Loss { n } => is_u64(n),
        Command::Drain { .. } | Command::Fence { .. } => {}
        Command::Turn | Command::Flush | Command::Off => {}
        Command::On | Command::Snap | Command::Stat => {}
    }
}

/// The first word of a line, and the text behind it. The line is its bytes before its LF or the end of the trace, with
/// its CR. A blank line and a comment have none. Errors: `Kind::Long` if the line has more than 1,024 bytes.
#[tactic(auto, unfolding(crate::specs::Entries::entry_of_line))]
pub fn first_word(line: &[u8]) -> Result<Option<(&[u8], &[u8])>, Kind>
    ensures { map_ok (option_map (λ found. (found.0.now, words_of found.1.now))) result ≡ entry_of_line line.now }
{
    if line.len() > 1024 {
        return Err(Kind::Long);
    }
    let Some((verb, rest)) = next_word(before_return(line)) else {
        return Ok(None);
    };
    if verb.first() == Some(&b'#') {
        return Ok(None);
    }
    Ok(Some((verb, rest)))
}

/// The command of a line, which is its bytes before its LF or the end of the trace, with its CR. A
/// blank line and a comment have none. An error tells the first rule that the line breaks. What
/// `write_command` writes is read back.
#[tactic(auto, unfolding(plain_model::specs::Grammar::reading_among, plain_model::specs::Grammar::reading_of_words, crate::specs::Entries::entry_of_line))]
pub fn read_command(line: &[u8]) -> Result<Option<Command>, Kind>
    ensures reading { result ≡ reading_of line.now }
    ensures range { IfOk result (λ found. IfSome found IsCommand) }
    ensures writable { IfOk result (λ found. IfSome found IsWritable) }
{
    let Some((verb, rest)) = first_word(line)? else {
        return Ok(None);
    };
    let command = read_verb(LAST_PORT, verb, rest)?;
    is_in_range(command);
    Ok(Some(command))
}
