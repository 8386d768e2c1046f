//! Objects of frozen values, laid out as they come to stand on an empty heap, to which they are attached. Begin at
//! `objects.rt` and `specs/Shift.antt`.
#![tactic(auto)]

mod dict;
mod object;
mod objects;
mod value;

pub use dict::FrozenDict;
pub use object::FrozenObject;
pub use objects::FrozenObjects;
pub use value::{FrozenPair, FrozenVal};
