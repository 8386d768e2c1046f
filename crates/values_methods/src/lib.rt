//! The methods of lists, dictionaries and strings, and `+=`. Begin at `calls.rt`.
#![tactic(auto)]

mod calls;
mod dictionaries;
mod lists;
mod names;
mod spaces;
mod splitting;
mod strings;

pub use calls::method;
pub use lists::add_in_place;
