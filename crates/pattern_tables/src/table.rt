//! Patterns that are found by a part of the path that they match: bytes that stand in both, none a `*` or a `/`.
ghost use Rattle.std.specs.Prelude.{◌≡◌, ◌==◌, ◌&&◌, ◌-◌, ℕ, List, true, map, filter, IfOk, OnOk};
ghost use Rattle.std.specs.List.{list_any, All};
ghost use Rattle.std.specs.List.Sorted.{IsNonDecreasingBy};
ghost use Rattle.labels.specs.Paths.{segments};
ghost use Rattle.pattern.specs.Globs.{some_matches};
ghost use Rattle.pattern_tables.specs.Parts as specs;
ghost use Rattle.pattern_tables.specs.PatternTables.{IsRun, HasPart, HasNumber, matches_path, begun_match};

use base_types::Memory;
use pattern::Pattern;
use std::marker::Model;

/// A pattern with a star, and the number of a part of its text. Each path that the pattern matches has this part.
#[derive(Drop)]
pub struct PartPattern {
    /// The number of the part.
    pub number: usize,
    /// The pattern.
    pub pattern: Pattern,
}

/// Patterns with a star. One that matches a path is found by its part, so the others are not tried. A contract sees the
/// patterns.
#[derive(Drop)]
pub struct PatternTable {
    // In the order of their numbers.
    patterns: Vec<PartPattern>,
    // The lengths of their parts, each once.
    lengths: Vec<usize>,
}

impl Model for PatternTable {
    ghost use Rattle.std.specs.Prelude.{List, ℕ, map};
    ghost use Rattle.pattern_tables.specs.PatternTables.{IsTable};

    ghost Value = { List (List ℕ) };

    ghost view = { λ t. map (λ s. s.pattern) t.patterns.items };

    ghost invariant = { λ t. IsTable t.patterns.items t.lengths.items };
}

// Returns whether a byte is neither `*` nor `/`.
fn is_plain(byte: u8) -> bool
    ensures { result ≡ specs.is_plain_byte byte }
{
    byte != b'*' && byte != b'/'
}

// Returns the longest part of a text that has neither `*` nor `/`: where it begins, and where it ends.
fn longest_run(text: &[u8]) -> (usize, usize)
    ensures { IsRun text.now result.0 result.1 }
{
    let mut longest = (0, 0);
    let mut begin = 0;
    for at in 0..text.len() {
        if !is_plain(text[at]) {
            begin = at + 1;
        } else if at - begin >= longest.1 - longest.0 {
            longest = (begin, at + 1);
        }
    }
    longest
}

// Returns the number of a text after which a byte comes.
fn next_number(number: usize, byte: u8) -> usize
    ensures { result ≡ specs.next_number number byte }
{
    number % 4_294_967_291 * 16_777_619 + usize::from(byte)
}

// Returns the number of a part. Equal parts have equal numbers.
fn number_of(part: &[u8]) -> usize
    ensures { result ≡ specs.number_from 0 part.now }
{
    let mut number = 0;
    for byte in part {
        number = next_number(number, *byte);
    }
    number
}

/// Notes a length of a part, in bytes, unless it was noted before.
///
/// # Errors
///
/// Returns `Memory` if an allocation fails.
pub fn note_length(lengths: &mut Vec<usize>, length: usize) -> Result<(), Memory>
    ensures noted { OnOk result (list_any (λ n. n == length) lengths.new.items ≡ true) }
    ensures kept { (other : ℕ) → list_any (λ n. n == other) lengths.old.items ≡ true
        → list_any (λ n. n == other) lengths.new.items ≡ true }
{
    if lengths.as_slice().contains(&length) {
        return Ok(());
    }
    lengths.push(length)?;
    Ok(())
}

/// Returns the number and the length, in bytes, of the longest part of a pattern. The length is 0 if it has no part.
pub fn part_of(pattern: &Pattern) -> (usize, usize)
    ensures { HasNumber pattern.now result.0 result.1 }
{
    let text = pattern.text().as_str().as_bytes();
    let (begin, end) = longest_run(text);
    let part = &text[begin..end];
    (number_of(part), part.len())
}

// Returns those of the patterns in the order of their numbers that have a number, by halving them twice.
fn numbered(patterns: &[PartPattern], number: usize) -> &[PartPattern]
    requires { IsNonDecreasingBy (λ s. s.number) patterns.now }
    ensures { result.now ≡ filter (λ s. s.number == number) patterns.now }
{
    let begin = patterns.partition_point(|s| s.number < number);
    let (_, later) = patterns.split_at(begin);
    let count = later.partition_point(|s| s.number <= number);
    later.split_at(count).0
}

// Returns whether one of the patterns matches a path.
fn one_matches(patterns: &[PartPattern], path: &str) -> bool
    ensures { result ≡ list_any (matches_path path.now) patterns.now }
{
    for one in patterns {
        if one.pattern.matches(path) {
            return true;
        }
    }
    false
}

// Returns whether a pattern matches a path whose rest from some byte on begins with the part of the pattern.
fn begun_matches(patterns: &[PartPattern], lengths: &[usize], rest: &[u8], path: &str) -> bool
    requires { IsNonDecreasingBy (λ s. s.number) patterns.now }
    ensures { result ≡ begun_match patterns.now lengths.now path.now rest.now }
{
    for length in lengths {
        if *length <= rest.len() {
            let number = number_of(&rest[..*length]);
            if one_matches(numbered(patterns, number), path) {
                return true;
            }
        }
    }
    false
}

impl PatternTable {
    /// Makes a table of patterns, of which these are the lengths of the parts.
    ///
    /// # Errors
    ///
    /// Returns `Memory` if an allocation fails.
    pub fn of(patterns: Vec<PartPattern>, lengths: Vec<usize>) -> Result<PatternTable, Memory>
        requires { All (HasPart lengths.items) patterns.items }
        ensures { IfOk result (λ table. (path : List ℕ) → some_matches (map segments table) path
            ≡ some_matches (map segments (map (λ s. s.pattern) patterns.items)) path) }
    {
        let mut patterns = patterns;
        patterns.sort_by_key(|s| s.number)?;
        Ok(PatternTable { patterns, lengths })
    }

    /// Returns whether a pattern matches a path. It tries those whose part is in the path, which it finds by the number
    /// of each part of the path that has one of the lengths.
    pub fn some_matches(&self, path: &str) -> bool
        ensures { result ≡ some_matches (map segments self.now) path.now }
    {
        let patterns = self.patterns.as_slice();
        let lengths = self.lengths.as_slice();
        let mut left = path.as_bytes();
        while let Some((_, rest)) = left.split_first() {
            if begun_matches(patterns, lengths, left, path) {
                return true;
            }
            left = rest;
        }
        false
    }
}
