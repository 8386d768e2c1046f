//! Where strings end.
ghost use Rattle.std.specs.Prelude.{◌≡◌, ◌+◌, ◌≤◌, length, false, not, ◌&&◌, IfSome, if◌then◌else◌};
ghost use Rattle.syntax_tokens.specs.Strings.{begins_with_two, ends, inside, extent};

use crate::bytes::{is_escape, is_text_byte};

/// How far the text of a string goes.
#[derive(Clone, Copy, Drop)]
pub(crate) struct Extent {
    pub(crate) len: usize,
    pub(crate) line_ends: usize,
}

/// What a byte in a string makes of the next one, and how many lines it ends.
#[derive(Clone, Copy, Drop)]
pub(crate) struct StringBody {
    pub(crate) escaped: bool,
    pub(crate) line_ends: usize,
}

pub(crate) fn begins_with_two(bytes: &[u8], quote: u8) -> bool
    ensures { result ≡ begins_with_two quote bytes.now }
{
    match bytes {
        [a, b, ..] => *a == quote && *b == quote,
        _ => false,
    }
}

fn ends(bytes: &[u8], quote: u8, long: bool) -> bool
    ensures { result ≡ ends long quote bytes.now }
{
    match bytes {
        [b, rest @ ..] => *b == quote && (!long || begins_with_two(rest, quote)),
        [] => false,
    }
}

fn is_over(bytes: &[u8], quote: u8, long: bool, escaped: bool) -> bool
    ensures { result ≡ (not escaped && ends long quote bytes.now) }
{
    !escaped && ends(bytes, quote, long)
}

fn goes_on(b: u8, escaped: bool, long: bool) -> Option<StringBody>
    ensures exact { result ≡ inside long escaped b }
    ensures few { IfSome result (λ i. i.line_ends ≤ 1) }
{
    if escaped {
        if is_escape(b) {
            Some(StringBody {
                escaped: false,
                line_ends: 0,
            })
        } else {
            None
        }
    } else if b == b'\\' {
        Some(StringBody {
            escaped: true,
            line_ends: 0,
        })
    } else if b == b'\n' {
        if long {
            Some(StringBody {
                escaped: false,
                line_ends: 1,
            })
        } else {
            None
        }
    } else if is_text_byte(b) {
        Some(StringBody {
            escaped: false,
            line_ends: 0,
        })
    } else {
        None
    }
}

/// Returns how far the text of a string goes, counted from after its opening quote, if it is well formed and ends.
pub(crate) fn extent_of(bytes: &[u8], quote: u8, long: bool) -> Option<Extent>
    ensures exact { result ≡ extent long quote false bytes.now }
    ensures within { IfSome result (λ e. e.len + (if long then 3 else 1) ≤ length bytes.now) }
    ensures few { IfSome result (λ e. e.line_ends ≤ e.len) }
{
    let mut left = bytes;
    let mut escaped = false;
    let mut len = 0;
    let mut line_ends = 0;
    'text: while let Some((b, rest)) = left.split_first() {
        if is_over(left, quote, long, escaped) {
            return Some(Extent { len, line_ends });
        }
        let next = goes_on(*b, escaped, long)?;
        escaped = next.escaped;
        line_ends += next.line_ends;
        len += 1;
        left = rest;
    }
    None
}
