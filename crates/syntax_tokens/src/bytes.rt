//! Kinds of bytes, and runs of them.
ghost use Rattle.std.specs.Prelude.{◌≡◌, ◌≤◌, ◌==◌, length};
ghost use Rattle.syntax_tokens.specs.Bytes.{is_digit, is_letter, is_name_byte, is_text_byte, is_escape, run, begins};

pub(crate) fn is_digit(b: u8) -> bool
    ensures { result ≡ is_digit b }
{
    b >= b'0' && b <= b'9'
}

pub(crate) fn is_letter(b: u8) -> bool
    ensures { result ≡ is_letter b }
{
    (b >= b'a' && b <= b'z') || (b >= b'A' && b <= b'Z') || b == b'_'
}

pub(crate) fn is_name_byte(b: u8) -> bool
    ensures { result ≡ is_name_byte b }
{
    is_letter(b) || is_digit(b)
}

pub(crate) fn is_text_byte(b: u8) -> bool
    ensures { result ≡ is_text_byte b }
{
    (b >= b' ' && b <= b'~') || b == b'\t'
}

pub(crate) fn is_escape(b: u8) -> bool
    ensures { result ≡ is_escape b }
{
    b == b'\\' || b == b'"' || b == b'\'' || b == b'n' || b == b't' || b == b'r'
}

/// Counts the bytes at the front that may be in a name.
pub(crate) fn name_run(bytes: &[u8]) -> usize
    ensures exact { result ≡ run is_name_byte bytes.now }
    ensures within { result ≤ length bytes.now }
{
    for (i, b) in bytes.iter().enumerate() {
        if !is_name_byte(*b) {
            return i;
        }
    }
    bytes.len()
}

/// Counts the digits at the front.
pub(crate) fn digit_run(bytes: &[u8]) -> usize
    ensures exact { result ≡ run is_digit bytes.now }
    ensures within { result ≤ length bytes.now }
{
    for (i, b) in bytes.iter().enumerate() {
        if !is_digit(*b) {
            return i;
        }
    }
    bytes.len()
}

/// Counts the bytes at the front that may be in a comment.
pub(crate) fn text_run(bytes: &[u8]) -> usize
    ensures exact { result ≡ run is_text_byte bytes.now }
    ensures within { result ≤ length bytes.now }
{
    for (i, b) in bytes.iter().enumerate() {
        if !is_text_byte(*b) {
            return i;
        }
    }
    bytes.len()
}

pub(crate) fn begins_with_letter(bytes: &[u8]) -> bool
    ensures { result ≡ begins is_letter bytes.now }
{
    match bytes {
        [b, ..] => is_letter(*b),
        [] => false,
    }
}

pub(crate) fn begins_with(bytes: &[u8], wanted: u8) -> bool
    ensures { result ≡ begins (λ b. b == wanted) bytes.now }
{
    match bytes {
        [b, ..] => *b == wanted,
        [] => false,
    }
}
