//! A short text.
ghost use Rattle.std.specs.Prelude.{◌≡◌, ◌<◌, length, IfNone, IfSome};

use std::marker::Model;
use std::str;

// The most bytes of a short text. With their number and the kind of the text they take 16 bytes.
const MOST: usize = 14;

/// A text of at most 14 bytes, which are in the value itself. A contract sees the bytes.
#[derive(Drop)]
pub(crate) struct ShortText {
    cells: [u8; MOST],
    len: u8,
}

impl Model for ShortText {
    ghost use Rattle.std.specs.Prelude.{◌≡◌, ◌≤◌, ℕ, List, length, take, IsUtf8};

    ghost Value = { List ℕ };

    ghost view = { λ s. take s.len s.cells };

    ghost invariant = { λ s. (s.len ≤ 14) × (length s.cells ≡ 14)
        × ∥ IsUtf8 (take s.len s.cells) ∥₁ };
}

impl ShortText {
    /// Makes a text from a copy of the bytes, if there are at most 14.
    pub fn new(text: &str) -> Option<ShortText>
        ensures same { IfSome result (λ t. t ≡ text.now) }
        ensures long { IfNone result (14 < length text.now) }
    {
        let len = text.len();
        if len > MOST {
            return None;
        }
        let mut cells = [0; MOST];
        cells[..len].copy_from_slice(text.as_bytes());
        Some(ShortText {
            cells,
            len: len as u8,
        })
    }

    /// Returns the same text.
    pub fn copy(&self) -> ShortText
        ensures { result ≡ self.now }
    {
        ShortText {
            cells: self.cells,
            len: self.len,
        }
    }

    /// Returns the text. The bytes are UTF-8, as they were when the text was made.
    pub fn as_str(&self) -> &str
        ensures { result.now ≡ self.now }
    {
        unsafe { str::from_utf8_unchecked(&self.cells[..self.len as usize]) }
    }
}
