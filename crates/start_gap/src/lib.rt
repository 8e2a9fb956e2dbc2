//! Start-gap wear levelling: the place of each logical line, how the gap moves, the record of both, and lines that are
//! levelled in this way over an engine.
#![tactic(auto)]

mod gapped;
mod laws;
mod record;
mod wear;

pub use gapped::{GapFault, Gapped, Moved, WriteFault};
pub use laws::{
    levelled_write_is_determined, lines_have_places, moves_keep_memory, zero_lines_are_levelled,
};
pub use record::{read_wear, wear_line};
pub use wear::{Wear, next, place, source};
