//! The functions that every file has, the package calls aside, and the texts of values, which `repr` and `str` give.
//! Begin at `calls.rt`.
#![tactic(auto)]

mod calls;
mod dictionaries;
mod lists;
mod names;
mod numbering;
mod orders;
mod plain;
mod printing;
mod quoting;
mod ranges;
mod sorting;
mod strings;
mod text_buffer;
mod truths;
mod zipping;

pub use calls::builtin;
pub use strings::{print, text};
