//! The meaning of the language: what values are, and what each operator, walk and built-in function does with them.
//!
//! The definitions are in `specs/`, and the types that they share with the code are here. They follow the Starlark
//! language specification, and where this repository's profile takes less or decides more, the definition says so.
//!
//! Begin at `val.rt` and `specs/Heap.antt`.
#![tactic(auto)]

mod builtin;
mod bytes;
pub mod faults;
mod key;
mod val;

pub use builtin::{Builtin, PACKAGE, PLAIN};
pub use bytes::Bytes;
pub use key::{Key, Part};
pub use val::{Entry, Operator, Val};
