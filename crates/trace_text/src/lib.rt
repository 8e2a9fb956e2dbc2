//! The language of traces both ways: the commands and answers that lines spell, their texts and those of marks, and
//! sample traces. What a session in its own language is.
#![tactic(auto)]

mod answers;
mod lines;
mod listing;
mod ranges;
mod reading;
mod samples;
mod sentences;
mod spelling;
mod talk;
mod values;
mod writing;

pub use answers::read_answer;
pub use collision_witness::{push_bytes, push_number};
pub use reading::{first_word, has_no_word, read_command, read_poke};
pub use samples::Maker;
pub use spelling::write_command;
pub use talk::{Halt, TEXT_BYTES, Talk};
pub use values::{read_one_number, read_part};
pub use writing::{push_answer, push_mark, write_answer, write_mark};
