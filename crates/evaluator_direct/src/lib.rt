//! Direct evaluation, without frames, of the expressions in which nothing can wait: no function of a file and no
//! package call is called there, and no comprehension begins. Begin at `standing.rt` and `specs/Quiet.antt`.
#![tactic(auto)]

mod evaluating;
mod quiet;
mod standing;
mod statements;

pub use standing::{are_quiet_at, is_quiet_at, value_at, values_at};
pub use statements::{holds, run};
