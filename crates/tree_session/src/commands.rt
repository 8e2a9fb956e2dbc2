//! What a line asks of a memory over a counter tree.
ghost use Rattle.std.specs.Prelude.{◌≡◌};
ghost use Rattle.collision_witness.specs.Words.{words_of};
ghost use Rattle.tree_session.specs.Commands.{tree_command_of, reading_of_tree};

use pmem_base::{Kind, Line};
use trace_text::{first_word, has_no_word, read_one_number, read_poke};

/// A command of the session.
#[derive(Clone, Copy, Debug, PartialEq, Eq)]
pub enum TreeCommand {
    /// Write a data line.
    Write { at: u64, line: Line },
    /// Read a data line.
    Read { at: u64 },
    /// Turn power on, and recover.
    On,
    /// Turn power off.
    Off,
    /// Cut power after `n` more persist steps.
    Cut { n: u64 },
    /// Change a device line past the controller.
    Poke { at: u64, line: Line },
    /// Take a snapshot of the device.
    Snap,
    /// Put a device line back as the snapshot has it.
    Back { at: u64 },
}

/// The command that begins with a first word.
#[tactic(auto, unfolding(crate::specs::Commands::tree_command_of))]
fn read_verb(verb: &[u8], text: &[u8]) -> Result<TreeCommand, Kind>
    ensures { result ≡ tree_command_of verb.now (words_of text.now) }
{
    if verb == b"write".as_slice() {
        let (at, line) = read_poke(text)?;
        Ok(TreeCommand::Write { at, line })
    } else if verb == b"read".as_slice() {
        let at = read_one_number(text)?;
        Ok(TreeCommand::Read { at })
    } else if verb == b"on".as_slice() {
        has_no_word(text)?;
        Ok(TreeCommand::On)
    } else if verb == b"off".as_slice() {
        has_no_word(text)?;
        Ok(TreeCommand::Off)
    } else if verb == b"cut".as_slice() {
        let n = read_one_number(text)?;
        Ok(TreeCommand::Cut { n })
    } else if verb == b"poke".as_slice() {
        let (at, line) = read_poke(text)?;
        Ok(TreeCommand::Poke { at, line })
    } else if verb == b"snap".as_slice() {
        has_no_word(text)?;
        Ok(TreeCommand::Snap)
    } else if verb == b"back".as_slice() {
        let at = read_one_number(text)?;
        Ok(TreeCommand::Back { at })
    } else {
        Err(Kind::Word)
    }
}

/// The command of a line, which is its bytes before its LF or the end of the trace, with its CR. A blank line
/// and a comment have none. An error tells the first rule that the line breaks.
pub fn read_tree_command(line: &[u8]) -> Result<Option<TreeCommand>, Kind>
    ensures { result ≡ reading_of_tree line.now }
{
    let Some((verb, rest)) = first_word(line)? else {
        return Ok(None);
    };
    let command = read_verb(verb, rest)?;
    Ok(Some(command))
}
