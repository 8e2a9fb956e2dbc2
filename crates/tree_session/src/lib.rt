//! A session over a counter tree: the commands that its lines spell, what each answers, and the texts of the
//! answers.
#![tactic(auto)]

mod answers;
mod calls;
mod commands;
pub mod laws;
mod powering;
mod serving;
mod talking;
mod tampering;
mod world;

pub use answers::{TreeAnswer, write_tree_answer};
pub use commands::{TreeCommand, read_tree_command};
pub use world::TreeWorld;
