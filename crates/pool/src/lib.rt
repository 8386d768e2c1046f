//! An evaluation by one thread a hand, the caller's among them. The caller hires the others as jobs appear. Begin at
//! `evaluations.rt`.
#![tactic(auto)]

mod board_close;
mod context;
mod evaluations;
mod first_turns;
mod host;
mod host_state;
mod job_notifier;
mod notifier;
mod steps;
mod worker;
mod workers;

pub use evaluations::evaluate;
