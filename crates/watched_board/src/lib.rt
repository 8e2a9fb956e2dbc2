//! A board in memory, watched through calls that know it only as a board: its steps are counted from the call's
//! beginning, and its snapshot and fuse are known afterwards.
#![tactic(auto)]

mod kept;
mod numbers;
mod taken;
mod watched;

pub use kept::{Kept, Made};
pub use numbers::{is_byte, is_number};
pub use taken::Taken;
pub use watched::{Left, Start, Watched};
