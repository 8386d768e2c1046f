//! Operators, brackets and other delimiters.
ghost use Rattle.std.specs.Prelude.{◌≡◌, ◌+◌, ◌≤◌, ◌<◌, length, IfSome};
ghost use Rattle.syntax_tokens.specs.Pieces.{operator_at, sign, with_equal};

use crate::bytes::begins_with;
use crate::symbol::Symbol;

/// A symbol, and how many bytes it takes.
#[derive(Clone, Copy, Drop)]
pub(crate) struct OperatorToken {
    pub(crate) symbol: Symbol,
    pub(crate) len: usize,
}

/// Returns the longer symbol if an equals sign follows, else the shorter one.
fn with_equal(long: Symbol, short: Symbol, rest: &[u8]) -> Option<OperatorToken>
    ensures exact { result ≡ with_equal long short rest.now }
    ensures within { IfSome result (λ s. (0 < s.len) × (s.len ≤ 1 + length rest.now)) }
{
    if begins_with(rest, b'=') {
        Some(OperatorToken {
            symbol: long,
            len: 2,
        })
    } else {
        Some(OperatorToken {
            symbol: short,
            len: 1,
        })
    }
}

fn one(symbol: Symbol) -> Option<OperatorToken>
    ensures { result ≡ sign symbol 1 }
{
    Some(OperatorToken { symbol, len: 1 })
}

/// Returns the symbol that begins with a slash, if a second slash follows.
#[tactic(auto, unfolding(crate::specs::Pieces::operator_at))]
fn slashes(rest: &[u8]) -> Option<OperatorToken>
    ensures exact { result ≡ operator_at 47 rest.now }
    ensures within { IfSome result (λ s. (0 < s.len) × (s.len ≤ 1 + length rest.now)) }
{
    match rest {
        [b'/', more @ ..] => {
            if begins_with(more, b'=') {
                Some(OperatorToken {
                    symbol: Symbol::SlashSlashEqual,
                    len: 3,
                })
            } else {
                Some(OperatorToken {
                    symbol: Symbol::SlashSlash,
                    len: 2,
                })
            }
        }
        _ => None,
    }
}

/// Returns the symbol that begins with a byte, before those that follow it, if there is one.
#[tactic(auto, unfolding(crate::specs::Pieces::operator_at))]
pub(crate) fn operator_at(first: u8, rest: &[u8]) -> Option<OperatorToken>
    ensures exact { result ≡ operator_at first rest.now }
    ensures within { IfSome result (λ s. (0 < s.len) × (s.len ≤ 1 + length rest.now)) }
{
    match first {
        b'(' => one(Symbol::LeftParen),
        b')' => one(Symbol::RightParen),
        b',' => one(Symbol::Comma),
        b'=' => with_equal(Symbol::EqualEqual, Symbol::Equal, rest),
        b'[' => one(Symbol::LeftBracket),
        b']' => one(Symbol::RightBracket),
        b':' => one(Symbol::Colon),
        b'.' => one(Symbol::Dot),
        b'{' => one(Symbol::LeftBrace),
        b'}' => one(Symbol::RightBrace),
        b'+' => with_equal(Symbol::PlusEqual, Symbol::Plus, rest),
        b'-' => with_equal(Symbol::MinusEqual, Symbol::Minus, rest),
        b'*' => with_equal(Symbol::StarEqual, Symbol::Star, rest),
        b'%' => with_equal(Symbol::PercentEqual, Symbol::Percent, rest),
        b'<' => with_equal(Symbol::LessEqual, Symbol::Less, rest),
        b'>' => with_equal(Symbol::GreaterEqual, Symbol::Greater, rest),
        b'!' => not_equal(rest),
        b'/' => slashes(rest),
        _ => None,
    }
}

#[tactic(auto, unfolding(crate::specs::Pieces::operator_at))]
fn not_equal(rest: &[u8]) -> Option<OperatorToken>
    ensures exact { result ≡ operator_at 33 rest.now }
    ensures within { IfSome result (λ s. (0 < s.len) × (s.len ≤ 1 + length rest.now)) }
{
    if begins_with(rest, b'=') {
        Some(OperatorToken {
            symbol: Symbol::NotEqual,
            len: 2,
        })
    } else {
        None
    }
}
