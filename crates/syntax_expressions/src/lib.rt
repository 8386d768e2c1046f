//! The parser of expressions. Begin at `expression.rt`.
#![tactic(auto)]

mod expression;
mod front;
mod making;
mod postfix;
mod target;

pub use expression::{expr, targets};
pub use front::{ParseError, Tokens};
pub use target::is_target;
