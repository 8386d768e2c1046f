//! Texts that are kept once.
ghost use Rattle.std.specs.Prelude.{◌≡◌, [], OnOk};
ghost use Rattle.evaluator_package_calls.specs.AnswerTables.{HasTexts};
ghost use Rattle.evaluator_package_calls.specs.SameTexts.{with_text};

use base_types::{Memory, Text};
use std::alloc::Global;
use std::collections::HashSet;

/// Texts in the order in which they were added first, each once, and the set of them.
#[derive(Drop)]
pub(crate) struct TextsOnce {
    pub(crate) all: Vec<Text>,
    pub(crate) seen: HashSet<Text>,
    pub(crate) ghost noted: { HasTexts seen all.items },
}

impl TextsOnce {
    /// Makes a list without texts.
    pub(crate) fn new(alloc: Global) -> TextsOnce
        ensures { result.all.items ≡ [] }
    {
        let (all, seen) = (Vec::new(alloc), HashSet::new(alloc));
        TextsOnce { all, seen }
    }

    /// Adds a text, unless it is there.
    pub(crate) fn add(&mut self, text: &Text) -> Result<(), Memory>
        ensures { OnOk result (self.new.all.items ≡ with_text text.now self.old.all.items) }
    {
        if self.seen.contains(text) {
            return Ok(());
        }
        self.all.reserve(1)?;
        let shared = text.share()?;
        self.seen.insert(text.share()?)?;
        self.all.push_reserved(shared);
        Ok(())
    }
}
