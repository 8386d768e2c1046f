//! Frozen values: trees apart from any heap. One of many parts is laid out as objects too, which are attached to heaps.
//! Begin at `values.rt` and, for what is attached, `laid.rt`.
#![tactic(auto)]

mod frozen;
mod laid;
mod laying;
mod make;
mod same;
mod thawing;
mod value;
mod values;
mod walk;

pub use frozen::{Frozen, FrozenEntry};
pub use same::same_frozen;
pub use thawing::thaw;
pub use value::{FrozenValue, freeze_value, thaw_value};
pub use values::freeze;
