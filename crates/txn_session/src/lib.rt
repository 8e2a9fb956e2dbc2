//! A session over a memory that is written by transactions: the commands that its lines spell, what each answers,
//! and the texts of the answers.
#![tactic(auto)]

mod answers;
mod calls;
mod commands;
mod committing;
mod laws;
mod powering;
mod serving;
mod talking;
mod world;

pub use answers::{TxnAnswer, write_txn_answer};
pub use commands::{TxnCommand, read_txn_command};
pub use laws::{sessions_keep_transactions, txn_replies_are_determined};
pub use world::TxnWorld;
