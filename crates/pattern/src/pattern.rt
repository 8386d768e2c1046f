//! Patterns of paths.
ghost use Rattle.std.specs.Prelude.{◌≡◌, ◌||◌, ◌∷◌, ℕ, List, false, not, bytes_eq, IfOk, IsErrOf, IsTrue};
ghost use Rattle.labels.specs.Paths.{is_name_byte, segments};
ghost use Rattle.pattern.specs.Patterns as patterns;
ghost use Rattle.pattern.specs.Rest.{rest_segments};
ghost use Rattle.pattern.specs.Starless.{is_starless};

use crate::walk::segments_match;
use base_types::{Memory, Text};
use std::alloc::Global;
use std::marker::Model;
use thiserror::Error;

/// Why there is no pattern.
#[derive(Debug, Drop, Error)]
pub enum BadPattern {
    /// The text is not a pattern.
    #[error("not a pattern")]
    Code21,
    /// An allocation failed.
    #[error("out of memory")]
    Memory(Memory),
}

impl From<Memory> for BadPattern {
    ghost use Rattle.std.specs.Prelude.{◌≡◌};
    ghost use Rattle.pattern.specs.declared.pattern.BadPattern.TheVariants.{Memory};
    ghost use Rattle.base_types.specs.Refusals.{memory};

    ghost from_gives = { λ _ e. e ≡ Memory memory };

    fn from(error: Memory) -> BadPattern {
        BadPattern::Memory(error)
    }
}

fn has_two_stars(segment: &[u8]) -> bool
    ensures { result ≡ patterns.has_two_stars segment.now }
{
    let mut left = segment;
    while let Some((first, rest)) = left.split_first() {
        if *first == b'*' && rest.first() == Some(&b'*') {
            return true;
        }
        left = rest;
    }
    false
}

fn is_pattern_byte(byte: u8) -> bool
    ensures { result ≡ is_name_byte byte || patterns.is_star byte }
{
    matches!(byte, b'0'..=b'9' | b'A'..=b'Z' | b'a'..=b'z' | b'_' | b'-' | b'.' | b'*')
}

fn is_no_star(byte: u8) -> bool
    ensures { result ≡ not (patterns.is_star byte) }
{
    byte != b'*'
}

fn has_no_star(text: &str) -> bool
    ensures { result ≡ is_starless text.now }
{
    text.bytes().all(is_no_star)
}

fn is_pattern_segment(segment: &str) -> bool
    ensures { result ≡ patterns.is_pattern_segment segment.now }
{
    if is_double_star(segment) {
        return true;
    }
    if segment.is_empty() || segment == "." || segment == ".." {
        return false;
    }
    if !segment.bytes().all(is_pattern_byte) {
        return false;
    }
    !has_two_stars(segment.as_bytes())
}

fn is_pattern(text: &str) -> bool
    ensures { result ≡ patterns.is_pattern text.now }
{
    if text.len() > 255 {
        return false;
    }
    text.split('/').all(is_pattern_segment)
}

/// A glob pattern: segments joined by `/`, at most 255 bytes. Each segment is `**` alone, or consists of bytes of file
/// names and `*`, without two `*` in a row, and is neither `.` nor `..`. A contract sees its bytes.
#[derive(Drop)]
pub struct Pattern {
    text: Text,
}

impl Model for Pattern {
    ghost use Rattle.std.specs.Prelude.{ℕ, List, IsTrue};
    ghost use Rattle.pattern.specs.Patterns as patterns;

    ghost Value = { List ℕ };

    ghost view = { λ p. p.text };

    ghost invariant = { λ p. IsTrue (patterns.is_pattern p.text) };
}

impl Pattern {
    /// Reads a pattern from a text that is one; another text is `Code21`.
    pub fn read(alloc: Global, text: &str) -> Result<Pattern, BadPattern>
        ensures ok { IfOk result (λ p. p ≡ text.now) }
        ensures pattern { IfOk result (λ p. IsTrue (patterns.is_pattern p)) }
        ensures bad { IsErrOf result BadPattern.Code21 → patterns.is_pattern text.now ≡ false }
    {
        if !is_pattern(text) {
            return Err(BadPattern::Code21);
        }
        let text = Text::new(alloc, text)?;
        Ok(Pattern { text })
    }

    /// Returns the pattern's text.
    pub fn text(&self) -> &Text
        ensures value { result.now ≡ self.now }
        ensures pattern { IsTrue (patterns.is_pattern self.now) }
    {
        &self.text
    }

    /// Returns whether the pattern has no `*`. It then matches the path that is its text, and no other.
    pub fn is_starless(&self) -> bool
        ensures value { result ≡ is_starless self.now }
        ensures path { IsTrue result → (path : List ℕ) → patterns.path_matches (segments self.now)
            (segments path) ≡ bytes_eq self.now path }
    {
        has_no_star(self.text.as_str())
    }

    /// Returns whether the pattern matches the path: `*` matches zero or more bytes inside a segment, and `**` zero or
    /// more whole segments. It allocates nothing. The time is near to the product of the longest run between two `**`
    /// and the path.
    pub fn matches(&self, path: &str) -> bool
        ensures { result ≡ patterns.path_matches (segments self.now) (segments path.now) }
    {
        segments_match(Some(self.text.as_str()), Some(path))
    }

    /// Returns the first segment and the pattern of the others, if there are any.
    pub fn split_first(&self, alloc: Global) -> Result<(Text, Option<Pattern>), Memory>
        ensures { IfOk result (λ x. segments self.now ≡ x.0 ∷ rest_segments x.1) }
    {
        match self.text.as_str().split_once('/') {
            Some((first, rest)) => {
                let first = Text::new(alloc, first)?;
                let rest = Pattern {
                    text: Text::new(alloc, rest)?,
                };
                Ok((first, Some(rest)))
            }
            None => Ok((self.text.share()?, None)),
        }
    }
}

/// Returns whether a segment of a pattern is `**`.
pub fn is_double_star(segment: &str) -> bool
    ensures { result ≡ patterns.is_double_star segment.now }
{
    segment == "**"
}
