//! The parser of source files. Begin at `statement.rt` and `specs/Answers.antt`.
#![tactic(auto)]

mod function;
mod load;
mod parameters;
mod statement;

pub use statement::parse;
pub use syntax_grammar::FileKind;
pub use syntax_tokens::Refused;
pub use syntax_tree::File;
