//! What a glob searches for.
ghost use Rattle.std.specs.Prelude.{◌≡◌, IfOk};
ghost use Rattle.pattern.specs.Globs.{pattern_in, asks_directories};
ghost use Rattle.functions_directories.specs.Globs as specs;

use base_types::{Memory, Text};
use keys::Key;
use std::alloc::Global;

/// What a glob searches for: what a pattern finds below a directory, files alone or directories too.
#[derive(Clone, Copy, Drop)]
pub struct Search<'a> {
    /// The directory.
    pub directory: &'a str,
    /// Whether directories are searched for too.
    pub directories: bool,
    /// The pattern.
    pub pattern: &'a str,
}

// Splits a question into its pattern and whether it asks for directories too.
fn split_question(question: &str) -> (&str, bool)
    ensures pattern { result.0.now ≡ pattern_in question.now }
    ensures directories { result.1 ≡ asks_directories question.now }
{
    match question.split_once(' ') {
        Some((pattern, _)) => (pattern, true),
        None => (question, false),
    }
}

/// Makes the key by which a question is asked below a directory. A question is a pattern, with a space and `dirs` after
/// it if directories are asked for.
pub fn glob_key(alloc: Global, directory: &Text, question: &str) -> Result<Key, Memory>
    ensures { IfOk result (λ key. key ≡ specs.glob_key directory.now question.now) }
{
    let (pattern, directories) = split_question(question);
    let pattern = Text::new(alloc, pattern)?;
    Ok(Key::Glob(directory.share()?, pattern, directories))
}
