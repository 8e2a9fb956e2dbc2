//! A session over a levelled memory: the commands that its lines spell, what each answers, and the texts of
//! the answers.
#![tactic(auto)]

mod answers;
mod calls;
mod commands;
mod laws;
mod powering;
mod serving;
mod talking;
mod world;

pub use answers::{WearAnswer, write_wear_answer};
pub use commands::{WearCommand, read_wear_command};
pub use laws::{sessions_keep_lines, wear_replies_are_determined};
pub use world::WearWorld;
