//! Words: names, keywords, literals and what is reserved.
ghost use Rattle.std.specs.Prelude.{◌≡◌, length};
ghost use Rattle.std.specs.Option.{option_map};
ghost use Rattle.std.specs.Str.{IsAscii};
ghost use Rattle.syntax_tokens.specs.Token.{tok_of};
ghost use Rattle.syntax_tokens.specs.Words.{words, of_length, word_by, word_of, is_name_text};

use crate::bytes::{begins_with_letter, name_run};
use crate::symbol::Symbol;
use crate::token::{Ascii, Token};

/// Returns the keyword, literal or name that a word is, or `None` where it is reserved.
#[tactic(auto, using(crate::proofs::Words::outside))]
pub(crate) fn word_of(bytes: &[u8]) -> Option<Token<'_>>
    requires { IsAscii bytes.now }
    ensures { option_map tok_of result ≡ word_of bytes.now }
{
    match bytes.len() {
        2 => word_of_two(bytes),
        3 => word_of_three(bytes),
        4 => word_of_four(bytes),
        5 => word_of_five(bytes),
        6 => word_of_six(bytes),
        7 => word_of_seven(bytes),
        8 => word_of_eight(bytes),
        _ => Some(Token::Name(Ascii { bytes })),
    }
}

/// Returns whether the part is a name: a letter, then bytes that names continue with, and no keyword, literal or
/// reserved word.
#[tactic(auto, unfolding(crate::specs::Words::is_name_text))]
pub fn is_name(part: Ascii<'_>) -> bool
    ensures { result ≡ is_name_text part.entry.bytes.now }
{
    let bytes = part.bytes;
    if !begins_with_letter(bytes) || name_run(bytes) != bytes.len() {
        return false;
    }
    match word_of(bytes) {
        Some(Token::Name(_)) => true,
        Some(Token::Symbol(_)) => false,
        Some(Token::Int(_)) => false,
        Some(Token::Text(_)) => false,
        None => false,
    }
}

fn word_of_two(bytes: &[u8]) -> Option<Token<'_>>
    requires ascii { IsAscii bytes.now }
    requires len { length bytes.now ≡ 2 }
    ensures { option_map tok_of result ≡ word_by (of_length 2 words) bytes.now }
{
    match bytes {
        b"if" => Some(Token::Symbol(Symbol::If)),
        b"in" => Some(Token::Symbol(Symbol::In)),
        b"or" => Some(Token::Symbol(Symbol::Or)),
        b"as" | b"is" => None,
        _ => Some(Token::Name(Ascii { bytes })),
    }
}

fn word_of_three(bytes: &[u8]) -> Option<Token<'_>>
    requires ascii { IsAscii bytes.now }
    requires len { length bytes.now ≡ 3 }
    ensures { option_map tok_of result ≡ word_by (of_length 3 words) bytes.now }
{
    match bytes {
        b"and" => Some(Token::Symbol(Symbol::And)),
        b"def" => Some(Token::Symbol(Symbol::Def)),
        b"for" => Some(Token::Symbol(Symbol::For)),
        b"not" => Some(Token::Symbol(Symbol::Not)),
        b"del" | b"try" => None,
        _ => Some(Token::Name(Ascii { bytes })),
    }
}

fn word_of_four(bytes: &[u8]) -> Option<Token<'_>>
    requires ascii { IsAscii bytes.now }
    requires len { length bytes.now ≡ 4 }
    ensures { option_map tok_of result ≡ word_by (of_length 4 words) bytes.now }
{
    if bytes == b"elif".as_slice() {
        Some(Token::Symbol(Symbol::Elif))
    } else if bytes == b"else".as_slice() {
        Some(Token::Symbol(Symbol::Else))
    } else if bytes == b"load".as_slice() {
        Some(Token::Symbol(Symbol::Load))
    } else if bytes == b"pass".as_slice() {
        Some(Token::Symbol(Symbol::Pass))
    } else if bytes == b"None".as_slice() {
        Some(Token::Symbol(Symbol::NoneValue))
    } else if bytes == b"True".as_slice() {
        Some(Token::Symbol(Symbol::TrueValue))
    } else if bytes == b"from".as_slice() {
        None
    } else if bytes == b"with".as_slice() {
        None
    } else {
        Some(Token::Name(Ascii { bytes }))
    }
}

fn word_of_five(bytes: &[u8]) -> Option<Token<'_>>
    requires ascii { IsAscii bytes.now }
    requires len { length bytes.now ≡ 5 }
    ensures { option_map tok_of result ≡ word_by (of_length 5 words) bytes.now }
{
    if bytes == b"break".as_slice() {
        Some(Token::Symbol(Symbol::Break))
    } else if bytes == b"False".as_slice() {
        Some(Token::Symbol(Symbol::FalseValue))
    } else if bytes == b"async".as_slice() {
        None
    } else if bytes == b"await".as_slice() {
        None
    } else if bytes == b"class".as_slice() {
        None
    } else if bytes == b"raise".as_slice() {
        None
    } else if bytes == b"while".as_slice() {
        None
    } else if bytes == b"yield".as_slice() {
        None
    } else {
        Some(Token::Name(Ascii { bytes }))
    }
}

fn word_of_six(bytes: &[u8]) -> Option<Token<'_>>
    requires ascii { IsAscii bytes.now }
    requires len { length bytes.now ≡ 6 }
    ensures { option_map tok_of result ≡ word_by (of_length 6 words) bytes.now }
{
    if bytes == b"return".as_slice() {
        Some(Token::Symbol(Symbol::Return))
    } else if bytes == b"assert".as_slice() {
        None
    } else if bytes == b"except".as_slice() {
        None
    } else if bytes == b"global".as_slice() {
        None
    } else if bytes == b"import".as_slice() {
        None
    } else if bytes == b"lambda".as_slice() {
        None
    } else {
        Some(Token::Name(Ascii { bytes }))
    }
}

fn word_of_seven(bytes: &[u8]) -> Option<Token<'_>>
    requires ascii { IsAscii bytes.now }
    requires len { length bytes.now ≡ 7 }
    ensures { option_map tok_of result ≡ word_by (of_length 7 words) bytes.now }
{
    if bytes == b"finally".as_slice() {
        None
    } else {
        Some(Token::Name(Ascii { bytes }))
    }
}

fn word_of_eight(bytes: &[u8]) -> Option<Token<'_>>
    requires ascii { IsAscii bytes.now }
    requires len { length bytes.now ≡ 8 }
    ensures { option_map tok_of result ≡ word_by (of_length 8 words) bytes.now }
{
    if bytes == b"continue".as_slice() {
        Some(Token::Symbol(Symbol::Continue))
    } else if bytes == b"nonlocal".as_slice() {
        None
    } else {
        Some(Token::Name(Ascii { bytes }))
    }
}
