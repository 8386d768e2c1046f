//! The text that a string stands for.
ghost use Rattle.std.specs.Prelude.{◌≡◌, ◌<◌, IfOk};
ghost use Rattle.std.specs.Str.{IsAscii};
ghost use Rattle.syntax_tokens.specs.Escapes.{has_escape};
ghost use Rattle.syntax_tokens.specs.Strings.{meant, unescaped};

use crate::token::Ascii;
use base_types::{Memory, Text};
use std::alloc::Global;

/// Returns the byte that an escaped byte stands for.
fn unescape(b: u8) -> u8
    ensures exact { result ≡ meant b }
    ensures ascii { b < 128 → result < 128 }
{
    match b {
        b'n' => b'\n',
        b't' => b'\t',
        b'r' => b'\r',
        _ => b,
    }
}

/// Returns whether a backslash is in the written bytes.
fn has_escape(written: &[u8]) -> bool
    ensures { result ≡ has_escape written.now }
{
    for b in written {
        if *b == b'\\' {
            return true;
        }
    }
    false
}

/// Returns the text that a string stands for, from the bytes written between its quotes. Each backslash and the byte
/// after it stand for one byte.
#[tactic(auto, using(crate::proofs::PlainTexts::as_written))]
pub fn string_text(alloc: Global, written: Ascii<'_>) -> Result<Text, Memory>
    ensures { IfOk result (λ t. t ≡ unescaped written.entry.bytes.now) }
{
    if !has_escape(written.bytes) {
        let text = Text::new(alloc, written.as_str())?;
        return Ok(text);
    }
    let text = without_escapes(alloc, written.bytes)?;
    Ok(text)
}

/// Returns the text that a string stands for, where a backslash may be in it.
fn without_escapes(alloc: Global, bytes: &[u8]) -> Result<Text, Memory>
    requires { IsAscii bytes.now }
    ensures { IfOk result (λ t. t ≡ unescaped bytes.now) }
{
    let mut out = String::new(alloc);
    let mut escaped = false;
    for b in bytes {
        if escaped {
            out.push(char::from(unescape(*b)))?;
            escaped = false;
        } else if *b == b'\\' {
            escaped = true;
        } else {
            out.push(char::from(*b))?;
        }
    }
    let text = Text::from_string(alloc, out)?;
    Ok(text)
}
