//! The names that pieces of a file bind, in the order in which they are bound first. The parser finds the names of each
//! function, and whoever makes a block finds the others. Begin at `names.rt`.
#![tactic(auto)]

mod finding;
mod functions;
mod gathering;
mod names;
mod parameters;

pub use functions::new_function;
pub use names::{clause_names, file_names, top_names};
