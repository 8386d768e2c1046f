//! Tokens.

ghost use Rattle.std.specs.Prelude.{◌≡◌};
ghost use Rattle.std.specs.Str.{IsAscii};

use crate::symbol::Symbol;

/// A part of the text, all of it ASCII.
#[derive(Clone, Copy)]
pub struct Ascii<'a> {
    pub bytes: &'a [u8],
    ghost ascii: { IsAscii bytes.now },
}

/// A token. Names and strings are borrowed from the text.
#[derive(Clone, Copy)]
pub enum Token<'a> {
    Name(Ascii<'a>),
    /// A number, which is not negative.
    Int(i64),
    /// What is between the quotes of a string, as it is written.
    Text(Ascii<'a>),
    Symbol(Symbol),
}

/// A token with its line, counted from 1.
#[derive(Clone, Copy)]
pub struct Lexeme<'a> {
    pub token: Token<'a>,
    pub line: usize,
}

impl<'a> Ascii<'a> {
    /// Returns the part as text.
    pub fn as_str(self) -> &'a str
        ensures { result.now ≡ self.entry.bytes.now }
    {
        let bytes = self.bytes;
        match std::str::from_utf8(bytes) {
            Ok(text) => text,
            Err(_) => unreachable!(),
        }
    }
}
