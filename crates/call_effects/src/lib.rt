//! What calls of any engine leave, whatever its tree: how they end, and the power then; counted line writes of a steady
//! device; what is known of the lines; a suite's keys and counts; and how much a recovery tried.
#![tactic(auto)]

mod recovery;

pub use recovery::Work;
