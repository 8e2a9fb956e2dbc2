//! A session over a store of lines: a device with power, a fuse and marks, an engine whose lines have a meaning of
//! their own, and each call of it over a watched and logged board.
#![tactic(auto)]

mod blank;
mod calls;
mod laws;
mod making;
mod marks;
mod powering;
mod session;
mod starts;

pub use calls::{LineStore, StoreCall};
pub use laws::{calls_are_determined, new_sessions_are_determined, starts_are_determined};
pub use making::Done;
pub use powering::Turned;
pub use session::{LineSession, NewFault};
pub use starts::{StartFault, StoreOpening};
