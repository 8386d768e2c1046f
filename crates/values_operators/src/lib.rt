//! What operators do with values on a heap: arithmetic, joining and repeating, what counts as true, equality, order,
//! keys and `in`, index, slice, change and iteration. Begin at `operators.rt`.
#![tactic(auto)]

mod changing;
mod equality;
mod hashing;
mod membership;
mod numbers;
mod operators;
mod ordering;
mod reading;
mod walks;

pub use changing::set_index;
pub use membership::has;
pub use operators::{add, divide, is_true, multiply, negate, plus, remainder, subtract};
pub use reading::{copy_items, index, items, slice};
pub use walks::{compare, equal, hash};
