//! Whole numbers.
ghost use Rattle.std.specs.Prelude.{◌≡◌, ◌≤◌, IfSome};
ghost use Rattle.syntax_tokens.specs.Numbers.{number_of, largest};

use crate::bytes::is_digit;

/// The largest number that a text can have, which is the largest of 64 signed bits.
const LARGEST: u64 = 9_223_372_036_854_775_807;

/// Returns the number that the digits spell, if it has no needless zero in front and is not too large.
pub(crate) fn number_of(digits: &[u8]) -> Option<u64>
    ensures exact { result ≡ number_of digits.now }
    ensures few { IfSome result (λ n. n ≤ largest) }
{
    if digits.len() > 1 && digits[0] == b'0' {
        return None;
    }
    let mut value: u64 = 0;
    for b in digits {
        let digit = u64::from(b.saturating_sub(b'0'));
        if value > (LARGEST - digit) / 10 {
            return None;
        }
        value = 10 * value + digit;
    }
    Some(value)
}
