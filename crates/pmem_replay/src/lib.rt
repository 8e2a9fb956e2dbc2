//! The world behind a run: queues, power and the attacker around one engine.
#![tactic(auto)]

mod answering;
mod calling;
mod calls;
mod determined;
mod dirtied;
mod draining;
mod flags;
mod posting;
mod powering;
mod serving;
mod tampered;
mod tampering;
mod world;

pub use determined::{logged_step_is_determined, new_world_is_determined, step_is_determined};
pub use flags::Flags;
pub use world::{Reply, World};
