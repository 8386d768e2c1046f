//! Targets of a package.
ghost use Rattle.std.specs.Prelude.{◌≡◌, ◌++◌, ◌∷◌, [], IfOk, MatchOption};
ghost use Rattle.std.specs.Cmp.{partial_equiv_from_equiv};
ghost use Rattle.std.specs.Cmp.Lexicographic.{pointwise};
ghost use Rattle.values_modules.specs.Equal.{target_eq};
ghost use Rattle.values_modules.specs.EqualLaws.{all_targets_equiv};
ghost use Rattle.values_modules.specs.Encoding.{BlocksTellTargets};
ghost use Rattle.values_modules.specs.View.{target_of};

use crate::attributes::{AttributeReader, Attributes};
use crate::blocks::{TextBlock, TextReader};
use base_types::Memory;
use std::alloc::Global;
use std::marker::Model;
use std::str;

/// A target: the rule that made it, its name, and its attributes, in byte order of their names.
#[derive(Drop)]
pub struct Target<'a> {
    pub kind: &'a str,
    pub name: &'a [u8],
    pub attributes: AttributeReader<'a>,
}

/// The targets of a package, in byte order of their names, in one block: the rule, the name and the block of attributes
/// of each. Two blocks are the same bytes exactly where the targets are the same. A contract sees a list.
#[derive(Drop)]
pub struct Targets {
    block: TextBlock,
}

impl Model for Targets {
    ghost use Rattle.std.specs.Prelude.{◌≡◌, true, List};
    ghost use Rattle.values_modules.specs.Values.{Target};
    ghost use Rattle.values_modules.specs.Encoding.{target_texts, targets_in, have_text_kinds};

    ghost Value = { List Target };

    ghost view = { λ t. targets_in t.block };

    ghost invariant = { λ t. (t.block ≡ target_texts (targets_in t.block))
        × (have_text_kinds (targets_in t.block) ≡ true) };
}

impl Targets {
    /// Makes a list without targets.
    pub fn new(alloc: Global) -> Result<Targets, Memory>
        ensures { IfOk result (λ targets. targets ≡ []) }
    {
        let block = TextBlock::new(alloc)?;
        Ok(Targets { block })
    }

    /// Adds a target as the last.
    pub fn with(self, kind: &str, name: &[u8], attributes: &Attributes) -> Result<Targets, Memory>
        ensures { IfOk result (λ targets. targets ≡ self
            ++ record { kind = kind.now; name = name.now; attributes = attributes.now } ∷ []) }
    {
        let block = self.block.with(kind.as_bytes())?.with(name)?;
        let block = block.with(attributes.as_slice())?;
        Ok(Targets { block })
    }

    /// Returns the same targets in a block of their size.
    pub fn fitted(self, alloc: Global) -> Result<Targets, Memory>
        ensures { IfOk result (λ targets. targets ≡ self) }
    {
        let block = self.block.fitted(alloc)?;
        Ok(Targets { block })
    }

    /// Returns a reader of the targets, which begins with the first.
    pub fn reader(&self) -> TargetReader<'_>
        ensures { result ≡ self.now }
    {
        TargetReader {
            texts: self.block.reader(),
        }
    }
}

impl PartialEq for Targets {
    ghost eq = { pointwise target_eq };

    ghost laws = { partial_equiv_from_equiv all_targets_equiv };

    fn eq(&self, other: &Targets) -> bool {
        self.block == other.block
    }
}

impl Eq for Targets {
    ghost laws = { all_targets_equiv };
}

/// Targets of a package that are still to be read. A contract sees them.
#[derive(Drop)]
pub struct TargetReader<'a> {
    texts: TextReader<'a>,
}

impl<'a> Model for TargetReader<'a> {
    ghost use Rattle.std.specs.Prelude.{◌≡◌, true, List};
    ghost use Rattle.values_modules.specs.Values.{Target};
    ghost use Rattle.values_modules.specs.Encoding.{target_texts, targets_in, have_text_kinds};

    ghost Value = { List Target };

    ghost view = { λ r. targets_in r.texts };

    ghost invariant = { λ r. (r.texts ≡ target_texts (targets_in r.texts))
        × (have_text_kinds (targets_in r.texts) ≡ true) };
}

impl<'a> TargetReader<'a> {
    /// Reads the next target. Returns `None` if all were read.
    pub fn next(&mut self) -> Option<Target<'a>>
        ensures { MatchOption result ((self.old ≡ []) × (self.new ≡ []))
            (λ t. self.old ≡ target_of t ∷ self.new) }
    {
        let kind = self.texts.next()?;
        let Some(name) = self.texts.next() else {
            unreachable!()
        };
        let Some(attributes) = self.texts.next() else {
            unreachable!()
        };
        let kind = unsafe { str::from_utf8_unchecked(kind) };
        let attributes = AttributeReader::of(TextReader::of(attributes));
        Some(Target {
            kind,
            name,
            attributes,
        })
    }
}

/// States that a block tells its targets: lists of targets with the same bytes are one list.
pub fn blocks_tell_targets()
    ensures { BlocksTellTargets }
{}
