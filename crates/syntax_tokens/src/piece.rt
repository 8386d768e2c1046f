//! What is at the front of a text.
ghost use Rattle.std.specs.Prelude.{◌≡◌, ◌+◌, ◌≤◌, ◌<◌, length, true, IfSome};
ghost use Rattle.std.specs.Option.{option_map};
ghost use Rattle.std.specs.Str.{IsAscii};
ghost use Rattle.syntax_tokens.specs.Bytes.{is_digit, is_name_byte, run};
ghost use Rattle.syntax_tokens.specs.Pieces.{word_at, number_at, string_at, piece_at};
ghost use Rattle.syntax_tokens.specs.View.{piece_of};

use crate::bytes::{begins_with_letter, digit_run, is_digit, is_letter, name_run, text_run};
use crate::number::number_of;
use crate::operator::operator_at;
use crate::string_extent::{begins_with_two, extent_of};
use crate::token::{Ascii, Token};
use crate::word::word_of;

/// A space, a comment, a line's end or a token.
#[derive(Clone, Copy, Drop)]
pub(crate) enum Part<'a> {
    Space,
    Comment,
    LineEnd,
    Token(Token<'a>),
}

/// A part, how many bytes it takes, and how many lines end in it.
#[derive(Clone, Copy, Drop)]
pub(crate) struct Piece<'a> {
    pub(crate) part: Part<'a>,
    pub(crate) len: usize,
    pub(crate) line_ends: usize,
}

/// Returns the word at the front, unless it is reserved.
#[tactic(auto, unfolding(crate::specs::Pieces::word_at))]
fn word_at(bytes: &[u8]) -> Option<Piece<'_>>
    requires ascii { IsAscii bytes.now }
    requires some { 0 < run is_name_byte bytes.now }
    ensures exact { option_map piece_of result ≡ word_at bytes.now }
    ensures within { IfSome result (λ p. (0 < p.len) × (p.len ≤ length bytes.now)
        × (p.line_ends ≤ p.len)) }
{
    let len = name_run(bytes);
    let (word, _rest) = bytes.split_at(len);
    match word_of(word) {
        Some(token) => Some(Piece {
            part: Part::Token(token),
            len,
            line_ends: 0,
        }),
        None => None,
    }
}

/// Returns the number at the front, if it is well formed and no letter follows.
#[tactic(auto, unfolding(crate::specs::Pieces::number_at))]
fn number_at(bytes: &[u8]) -> Option<Piece<'_>>
    requires { 0 < run is_digit bytes.now }
    ensures exact { option_map piece_of result ≡ number_at bytes.now }
    ensures within { IfSome result (λ p. (0 < p.len) × (p.len ≤ length bytes.now)
        × (p.line_ends ≤ p.len)) }
{
    let len = digit_run(bytes);
    let (digits, rest) = bytes.split_at(len);
    if begins_with_letter(rest) {
        return None;
    }
    match number_of(digits) {
        Some(n) => Some(Piece {
            part: Part::Token(Token::Int(n as i64)),
            len,
            line_ends: 0,
        }),
        None => None,
    }
}

/// Returns the string that begins with a quote, before the bytes that follow it, if it is well formed.
#[tactic(auto, unfolding(crate::specs::Pieces::string_at))]
fn string_at(quote: u8, rest: &[u8]) -> Option<Piece<'_>>
    requires { IsAscii rest.now }
    ensures exact { option_map piece_of result ≡ string_at quote rest.now }
    ensures within { IfSome result (λ p. (0 < p.len) × (p.len ≤ 1 + length rest.now)
        × (p.line_ends ≤ p.len)) }
{
    if begins_with_two(rest, quote) {
        let (_quotes, body) = rest.split_at(2);
        match extent_of(body, quote, true) {
            Some(found) => {
                let (text, _after) = body.split_at(found.len);
                Some(Piece {
                    part: Part::Token(Token::Text(Ascii { bytes: text })),
                    len: 3 + found.len + 3,
                    line_ends: found.line_ends,
                })
            }
            None => None,
        }
    } else {
        match extent_of(rest, quote, false) {
            Some(found) => {
                let (text, _after) = rest.split_at(found.len);
                Some(Piece {
                    part: Part::Token(Token::Text(Ascii { bytes: text })),
                    len: 1 + found.len + 1,
                    line_ends: found.line_ends,
                })
            }
            None => None,
        }
    }
}

/// Returns the piece at the front, or `None` at the end of the text and where no piece can be there.
#[tactic(auto, unfolding(crate::specs::Pieces::piece_at))]
pub(crate) fn piece_at(bytes: &[u8]) -> Option<Piece<'_>>
    requires { IsAscii bytes.now }
    ensures exact { option_map piece_of result ≡ piece_at bytes.now }
    ensures within { IfSome result (λ p. (0 < p.len) × (p.len ≤ length bytes.now)
        × (p.line_ends ≤ p.len)) }
{
    let (first, rest) = bytes.split_first()?;
    let first = *first;
    if first == b' ' {
        Some(Piece {
            part: Part::Space,
            len: 1,
            line_ends: 0,
        })
    } else if first == b'\n' {
        Some(Piece {
            part: Part::LineEnd,
            len: 1,
            line_ends: 1,
        })
    } else if first == b'#' {
        Some(Piece {
            part: Part::Comment,
            len: 1 + text_run(rest),
            line_ends: 0,
        })
    } else if is_letter(first) {
        word_at(bytes)
    } else if is_digit(first) {
        number_at(bytes)
    } else if first == b'"' || first == b'\'' {
        string_at(first, rest)
    } else {
        match operator_at(first, rest) {
            Some(sign) => Some(Piece {
                part: Part::Token(Token::Symbol(sign.symbol)),
                len: sign.len,
                line_ends: 0,
            }),
            None => None,
        }
    }
}
