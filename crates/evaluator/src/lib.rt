//! The evaluation of a file, which can wait for the answers of a glob and go on. Begin at `running.rt` and
//! `specs/Machines.antt`.
#![tactic(auto)]

mod acting;
mod entering;
mod finding;
mod machine;
mod outcome;
mod running;
mod setting;
mod tidying;
mod turning;

pub use machine::Environment;
pub use outcome::{Fault, Outcome, Suspended};
pub use running::{resume, run};
