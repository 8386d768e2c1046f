//! Tokens of a source file. Begin at `lexer.rt` and `specs/Reading.antt`.
#![tactic(auto)]

mod bytes;
mod lexer;
mod nesting;
mod number;
mod operator;
mod piece;
mod refusal;
mod scanner;
mod string_extent;
mod symbol;
mod token;
mod value;
mod word;

pub use lexer::read_tokens;
pub use refusal::Refused;
pub use symbol::Symbol;
pub use token::{Ascii, Lexeme, Token};
pub use value::string_text;
pub use word::is_name;
