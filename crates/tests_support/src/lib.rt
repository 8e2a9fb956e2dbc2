//! What the tests of the program share: lines in shorthand, rows of worked runs, and runs over memory whose source or
//! sink fails at a chosen call.
#![tactic(auto)]

mod faults;
mod rows;
mod runs;
mod shorthand;

pub use faults::{ByteSink, ByteSource, check_faults, check_pulls, check_pushes, ran_by_bytes};
pub use rows::{Row, row_of};
pub use runs::{NEVER, PLACES, check_end, check_found, check_row, check_rows, ran};
pub use shorthand::{front_of, spelled, words_of};
