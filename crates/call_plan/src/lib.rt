//! Plans: what a call of a controller does to its board, stated once, as data. A contract says that the board followed
//! the plan; everything else about the call is a law about the plan.
//!
//! A plan reads lines, writes lines, latches registers, and is done or stops; each step has the result of a cut before
//! it. The state next to the board (a cache, marks, counts) isn't in the plan's type: a plan is a function of that
//! state, and its ends carry what it has become. `specs/Plans.antt` has the plans, `specs/Following.antt` what it means
//! that a board follows one, and `specs/Bounds.antt` what a plan may do.
//!
//! Laws about all plans whose statement is about plain data are contracts of the functions here. Laws about any
//! predicate (what each step keeps, what each end leaves, how far a loop has come) can't be stated by a clause: they
//! are lemmas in `proofs/`, and the crates that specify their calls by plans cite them.
#![tactic(auto)]

mod laws;

pub use laws::{
    calls_are_determined, cut_marks_are_a_front, runs_are_determined, steps_are_counted,
    writes_stay_in_place,
};
