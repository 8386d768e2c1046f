//! Texts in one block of bytes.
ghost use Rattle.std.specs.Prelude.{◌≡◌, ◌≤◌, ◌++◌, ◌∷◌, [], length, IfOk, OnOk, MatchOption};
ghost use Rattle.std.specs.Cmp.{partial_equiv_from_equiv};
ghost use Rattle.std.specs.Cmp.Lexicographic.{pointwise};
ghost use Rattle.values_modules.specs.Equal.{text_eq};
ghost use Rattle.values_modules.specs.EqualLaws.{texts_equiv};
ghost use Rattle.values_modules.specs.Blocks.{number_bytes, text_bytes, block_bytes, number_in, after_number, texts_in};

use base_types::Memory;
use std::alloc::Global;
use std::marker::Model;

// A byte which says that a length continues in the next byte.
const FULL: u8 = 255;

// The bytes that are allocated before the first text is there.
const ROOM: usize = 240;

/// Texts in one block of bytes, each with its length before it. A contract sees the texts.
#[derive(Drop)]
pub struct TextBlock {
    bytes: Vec<u8>,
}

impl Model for TextBlock {
    ghost use Rattle.std.specs.Prelude.{◌≡◌, ℕ, List};
    ghost use Rattle.values_modules.specs.Blocks.{block_bytes, texts_in};

    ghost Value = { List (List ℕ) };

    ghost view = { λ b. texts_in b.bytes.items };

    ghost invariant = { λ b. b.bytes.items ≡ block_bytes (texts_in b.bytes.items) };
}

// Adds a length.
fn push_number(out: &mut Vec<u8>, n: usize) -> Result<(), Memory>
    ensures { OnOk result (out.new.items ≡ out.old.items ++ number_bytes n) }
{
    let mut left = n;
    while left >= FULL as usize {
        out.push(FULL)?;
        left -= FULL as usize;
    }
    Ok(out.push(left as u8)?)
}

// Adds a text with its length before it.
fn push_text(out: &mut Vec<u8>, text: &[u8]) -> Result<(), Memory>
    ensures { OnOk result (out.new.items ≡ out.old.items ++ text_bytes text.now) }
{
    push_number(out, text.len())?;
    Ok(out.extend_from_slice(text)?)
}

// Returns the length with which bytes begin, and the bytes after it.
fn split_number(bytes: &[u8]) -> (usize, &[u8])
    requires { number_in bytes.now ≤ length bytes.now }
    ensures number { result.0 ≡ number_in bytes.now }
    ensures after { result.1.now ≡ after_number bytes.now }
{
    let mut number = 0;
    let mut rest = bytes;
    while let [FULL, after @ ..] = rest {
        number += FULL as usize;
        rest = after;
    }
    match rest {
        [] => (number, rest),
        [last, after @ ..] => (number + *last as usize, after),
    }
}

impl TextBlock {
    /// Makes a block without texts.
    pub fn new(alloc: Global) -> Result<TextBlock, Memory>
        ensures { IfOk result (λ block. block ≡ []) }
    {
        let bytes = Vec::with_capacity(alloc, ROOM)?;
        Ok(TextBlock { bytes })
    }

    /// Adds a text as the last.
    pub fn with(self, text: &[u8]) -> Result<TextBlock, Memory>
        ensures { IfOk result (λ block. block ≡ self ++ text.now ∷ []) }
    {
        let mut bytes = self.bytes;
        push_text(&mut bytes, text)?;
        Ok(TextBlock { bytes })
    }

    /// Returns the same texts in a block of their size.
    pub fn fitted(self, alloc: Global) -> Result<TextBlock, Memory>
        ensures { IfOk result (λ block. block ≡ self) }
    {
        let bytes = Vec::from_slice(alloc, self.bytes.as_slice())?;
        Ok(TextBlock { bytes })
    }

    /// Returns the bytes.
    pub fn as_slice(&self) -> &[u8]
        ensures { result.now ≡ block_bytes self.now }
    {
        self.bytes.as_slice()
    }

    /// Returns a reader of the texts, which begins with the first.
    pub fn reader(&self) -> TextReader<'_>
        ensures { result ≡ self.now }
    {
        TextReader::of(self.bytes.as_slice())
    }
}

impl PartialEq for TextBlock {
    ghost eq = { pointwise text_eq };

    ghost laws = { partial_equiv_from_equiv texts_equiv };

    fn eq(&self, other: &TextBlock) -> bool {
        self.bytes == other.bytes
    }
}

impl Eq for TextBlock {
    ghost laws = { texts_equiv };
}

/// Texts of a block that are still to be read. A contract sees them.
#[derive(Drop)]
pub struct TextReader<'a> {
    rest: &'a [u8],
}

impl<'a> Model for TextReader<'a> {
    ghost use Rattle.std.specs.Prelude.{◌≡◌, ℕ, List};
    ghost use Rattle.values_modules.specs.Blocks.{block_bytes, texts_in};

    ghost Value = { List (List ℕ) };

    ghost view = { λ r. texts_in r.rest.now };

    ghost invariant = { λ r. r.rest.now ≡ block_bytes (texts_in r.rest.now) };
}

impl<'a> TextReader<'a> {
    /// Makes a reader of a block, which begins with its first text.
    pub fn of(bytes: &'a [u8]) -> TextReader<'a>
        requires { bytes.now ≡ block_bytes (texts_in bytes.now) }
        ensures { result ≡ texts_in bytes.now }
    {
        TextReader { rest: bytes }
    }

    /// Reads the next text. Returns `None` if all were read.
    pub fn next(&mut self) -> Option<&'a [u8]>
        ensures { MatchOption result ((self.old ≡ []) × (self.new ≡ []))
            (λ text. self.old ≡ text.now ∷ self.new) }
    {
        if self.rest.is_empty() {
            return None;
        }
        let (len, after) = split_number(self.rest);
        let (text, rest) = after.split_at(len);
        self.rest = rest;
        Some(text)
    }
}
