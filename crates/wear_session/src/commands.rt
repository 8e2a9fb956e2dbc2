//! What a line asks of a levelled memory.
ghost use Rattle.std.specs.Prelude.{◌≡◌};
ghost use Rattle.collision_witness.specs.Words.{words_of};
ghost use Rattle.wear_session.specs.Commands.{wear_command_of, reading_of_wear};

use pmem_base::{Kind, Line};
use trace_text::{first_word, has_no_word, read_one_number, read_poke};

/// A command of the session.
#[derive(Clone, Copy, Debug, PartialEq, Eq)]
pub enum WearCommand {
    /// Write a logical line.
    Write { at: u64, line: Line },
    /// Read a logical line.
    Read { at: u64 },
    /// Tell the place of a logical line.
    Place { at: u64 },
    /// Cut power after `n` more persist steps.
    Cut { n: u64 },
    /// Turn power off.
    Off,
    /// Turn power on, and recover.
    On,
}

/// The command that begins with a first word.
#[tactic(auto, unfolding(crate::specs::Commands::wear_command_of))]
fn read_verb(verb: &[u8], text: &[u8]) -> Result<WearCommand, Kind>
    ensures { result ≡ wear_command_of verb.now (words_of text.now) }
{
    if verb == b"write".as_slice() {
        let (at, line) = read_poke(text)?;
        Ok(WearCommand::Write { at, line })
    } else if verb == b"read".as_slice() {
        let at = read_one_number(text)?;
        Ok(WearCommand::Read { at })
    } else if verb == b"place".as_slice() {
        let at = read_one_number(text)?;
        Ok(WearCommand::Place { at })
    } else if verb == b"cut".as_slice() {
        let n = read_one_number(text)?;
        Ok(WearCommand::Cut { n })
    } else if verb == b"off".as_slice() {
        has_no_word(text)?;
        Ok(WearCommand::Off)
    } else if verb == b"on".as_slice() {
        has_no_word(text)?;
        Ok(WearCommand::On)
    } else {
        Err(Kind::Word)
    }
}

/// The command of a line, which is its bytes before its LF or the end of the trace, with its CR. A blank line
/// and a comment have none. An error tells the first rule that the line breaks.
pub fn read_wear_command(line: &[u8]) -> Result<Option<WearCommand>, Kind>
    ensures { result ≡ reading_of_wear line.now }
{
    let Some((verb, rest)) = first_word(line)? else {
        return Ok(None);
    };
    let command = read_verb(verb, rest)?;
    Ok(Some(command))
}
