//! What a line asks of a memory that is written by transactions.
ghost use Rattle.std.specs.Prelude.{◌≡◌};
ghost use Rattle.collision_witness.specs.Words.{words_of};
ghost use Rattle.txn_session.specs.Commands.{txn_command_of, reading_of_txn};

use pmem_base::{Kind, Line};
use trace_text::{first_word, has_no_word, read_one_number, read_poke};

/// A command of the session.
#[derive(Clone, Copy, Debug, PartialEq, Eq)]
pub enum TxnCommand {
    /// Open a transaction.
    Begin,
    /// Put a line into the open transaction.
    Put { at: u64, line: Line },
    /// Write the open transaction.
    Commit,
    /// Drop the open transaction.
    Abort,
    /// Read a data line.
    Read { at: u64 },
    /// Cut power after `n` more persist steps.
    Cut { n: u64 },
    /// Turn power off.
    Off,
    /// Turn power on, recover, and redo.
    On,
}

/// The command that begins with a first word.
#[tactic(auto, unfolding(crate::specs::Commands::txn_command_of))]
fn read_verb(verb: &[u8], text: &[u8]) -> Result<TxnCommand, Kind>
    ensures { result ≡ txn_command_of verb.now (words_of text.now) }
{
    if verb == b"begin".as_slice() {
        has_no_word(text)?;
        Ok(TxnCommand::Begin)
    } else if verb == b"put".as_slice() {
        let (at, line) = read_poke(text)?;
        Ok(TxnCommand::Put { at, line })
    } else if verb == b"commit".as_slice() {
        has_no_word(text)?;
        Ok(TxnCommand::Commit)
    } else if verb == b"abort".as_slice() {
        has_no_word(text)?;
        Ok(TxnCommand::Abort)
    } else if verb == b"read".as_slice() {
        let at = read_one_number(text)?;
        Ok(TxnCommand::Read { at })
    } else if verb == b"cut".as_slice() {
        let n = read_one_number(text)?;
        Ok(TxnCommand::Cut { n })
    } else if verb == b"off".as_slice() {
        has_no_word(text)?;
        Ok(TxnCommand::Off)
    } else if verb == b"on".as_slice() {
        has_no_word(text)?;
        Ok(TxnCommand::On)
    } else {
        Err(Kind::Word)
    }
}

/// The command of a line, which is its bytes before its LF or the end of the trace, with its CR. A blank line
/// and a comment have none. An error tells the first rule that the line breaks.
pub fn read_txn_command(line: &[u8]) -> Result<Option<TxnCommand>, Kind>
    ensures { result ≡ reading_of_txn line.now }
{
    let Some((verb, rest)) = first_word(line)? else {
        return Ok(None);
    };
    let command = read_verb(verb, rest)?;
    Ok(Some(command))
}
