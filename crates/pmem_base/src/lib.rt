//! Lines, counters, registers, the geometry of a memory, and the words of its traces.
#![tactic(auto)]

mod answers;
mod commands;
mod faults;
mod geometry;
mod lines;
mod registers;

pub use answers::{Answer, Exhibit, Mark, Place, Stat};
pub use commands::{Command, Kind, Posted};
pub use faults::{Cut, Full, MemFault, NoSnap, Spent};
pub use geometry::{Geo, GeoFault};
pub use lines::{Ctr, GhostLine, Line, Tag};
pub use registers::{Progress, Regs};
