//! Evidence for the definitions: they compute to worked values, two of them meet laws that are expected of
//! them, traces with their replies are chains of legal and fitting replies, and wrong replies are refuted. Of
//! 41 traces 28 are whole, from a formatted machine on; 8 begin with a view that is set by hand; and of 5 the
//! last 64 to 70 commands are proved, after others whose replies nothing checks, of one of them without the
//! commands 263 to 267. Nothing here is executed.
#![tactic(auto, unfolding(pmem_base::specs::Lines::zero_line, pmem_base::specs::Registers::places_of_page, pmem_base::specs::Registers::not_done, pmem_base::specs::Registers::old_major, split_counters::specs::Blocks::packed, split_counters::specs::Blocks::unpacked, split_counters::specs::Blocks::zero_minors, plain_model::specs::Defaults::default_shape, plain_model::specs::Defaults::default_keys, plain_model::specs::State::no_flags, pmem_base::specs::WaitingWrites::no_writes, plain_model::specs::State::start_state, plain_model::specs::View::start_view,))]

mod devices;
mod formulas;
mod grammar;
mod random;
mod rare;
mod replies;
mod rows;
mod runs;
mod texts;
mod vectors;
mod wrong;
