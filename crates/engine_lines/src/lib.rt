//! Data lines over an engine: what its calls, one after another, make of them, and lists of changes that are made in
//! order.
#![tactic(auto)]

mod edits;

pub use edits::{Edit, edit_all};
