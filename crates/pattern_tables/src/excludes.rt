//! Patterns of which those without a star are found by the path, as a call of `glob` excludes them.
ghost use Rattle.std.specs.Prelude.{◌≡◌, ◌||◌, ◌∷◌, [], List, ℕ, map, IfOk, OnOk};
ghost use Rattle.std.specs.List.{All};
ghost use Rattle.labels.specs.Paths.{segments};
ghost use Rattle.pattern.specs.Globs.{some_matches};
ghost use Rattle.pattern_tables.specs.Excluding.{is_excluded, is_excluded_unsorted, SortsPatterns};
ghost use Rattle.pattern_tables.specs.PatternTables.{HasPart};

use crate::table::{PartPattern, PatternTable, note_length, part_of};
use base_types::{Memory, Text};
use pattern::{BadPattern, Pattern};
use std::alloc::Global;
use std::collections::HashSet;

/// The most patterns that are tried one after the other before others are found by their parts.
const FEW: usize = 16;

/// Excluded patterns. Those without a star are found by the path, and many with a star by a part of the path.
#[derive(Drop)]
pub struct Excludes {
    plain: HashSet<Text>,
    tried: Vec<Pattern>,
    found: PatternTable,
}

// Excluded patterns of which those with a star are not in order.
#[derive(Drop)]
struct UnsortedExcludes {
    plain: HashSet<Text>,
    tried: Vec<Pattern>,
    starred: Vec<PartPattern>,
    lengths: Vec<usize>,
}

// Reads the text of a pattern again.
fn same_pattern(alloc: Global, pattern: &Pattern) -> Result<Pattern, Memory>
    ensures { IfOk result (λ p. p ≡ pattern.now) }
{
    match Pattern::read(alloc, pattern.text().as_str()) {
        Ok(same) => Ok(same),
        Err(BadPattern::Memory(memory)) => Err(memory),
        Err(BadPattern::Code21) => unreachable!(),
    }
}

// Returns whether some pattern matches a path.
fn some_matches(patterns: &[Pattern], path: &str) -> bool
    ensures { result ≡ some_matches (map segments patterns.now) path.now }
{
    for pattern in patterns {
        if pattern.matches(path) {
            return true;
        }
    }
    false
}

impl UnsortedExcludes {
    // Adds a pattern.
    fn add(&mut self, alloc: Global, pattern: &Pattern) -> Result<(), Memory>
        requires { All (HasPart self.old.lengths.items) self.old.starred.items }
        ensures parts { OnOk result (All (HasPart self.new.lengths.items) self.new.starred.items) }
        ensures added { OnOk result ((path : List ℕ) → is_excluded_unsorted self.new path ≡
            (is_excluded_unsorted self.old path || some_matches (segments pattern.now ∷ []) path)) }
    {
        if pattern.is_starless() {
            self.plain.insert(pattern.text().share()?)?;
            return Ok(());
        }
        let same = same_pattern(alloc, pattern)?;
        let (number, length) = part_of(&same);
        if length == 0 || self.tried.len() < FEW {
            self.tried.push(same)?;
            return Ok(());
        }
        note_length(&mut self.lengths, length)?;
        self.starred.push(PartPattern {
            number,
            pattern: same,
        })?;
        Ok(())
    }
}

impl Excludes {
    /// Sorts patterns.
    pub fn new(alloc: Global, patterns: &[Pattern]) -> Result<Excludes, Memory>
        ensures { IfOk result (SortsPatterns patterns.now) }
    {
        let mut unsorted = UnsortedExcludes {
            plain: HashSet::new(alloc),
            tried: Vec::new(alloc),
            starred: Vec::new(alloc),
            lengths: Vec::new(alloc),
        };
        for pattern in patterns {
            unsorted.add(alloc, pattern)?;
        }
        let UnsortedExcludes {
            plain,
            tried,
            starred,
            lengths,
        } = unsorted;
        let found = PatternTable::of(starred, lengths)?;
        Ok(Excludes {
            plain,
            tried,
            found,
        })
    }

    /// Returns whether a pattern matches a path.
    pub fn some_matches(&self, path: &Text) -> bool
        ensures { result ≡ is_excluded self.now path.now }
    {
        if self.plain.contains(path) {
            return true;
        }
        some_matches(self.tried.as_slice(), path.as_str()) || self.found.some_matches(path.as_str())
    }
}
