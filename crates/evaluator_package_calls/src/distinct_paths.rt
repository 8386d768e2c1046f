//! The paths that many patterns of a call of `glob` find, each once.
ghost use Rattle.std.specs.Prelude.{◌++◌, IfOk, OnOk};
ghost use Rattle.evaluator_package_calls.specs.GlobResults.{kept_unless, found_all};
ghost use Rattle.evaluator_package_calls.specs.SameTexts.{HasSame};
ghost use Rattle.pattern_tables.specs.Excluding.{is_excluded};

use crate::answers::Answers;
use crate::texts_once::TextsOnce;
use base_types::{Memory, Text};
use pattern_tables::Excludes;
use std::alloc::Global;
use std::collections::HashSet;

/// Returns the paths that the answer to some question has and no exclude matches, each once. Questions that are asked
/// twice, and paths that several questions find, take no memory.
pub(crate) fn distinct_paths(
    alloc: Global,
    answers: &Answers,
    questions: &[Text],
    excludes: &Excludes,
) -> Result<Vec<Text>, Memory>
    ensures { IfOk result (λ v. HasSame v.items (kept_unless (is_excluded excludes.now)
        (found_all answers.now questions.now))) }
{
    let mut asked = HashSet::new(alloc);
    let mut found = TextsOnce::new(alloc);
    'asking: for question in questions {
        if asked.contains(question) {
            continue 'asking;
        }
        asked.insert(question.share()?)?;
        let Some(paths) = answers.answer(question) else {
            continue 'asking;
        };
        add_each(&mut found, paths, excludes)?;
    }
    let TextsOnce { all, seen: _ } = found;
    Ok(all)
}

// Adds the paths that no exclude matches, but for those that are there.
fn add_each(found: &mut TextsOnce, paths: &[Text], excludes: &Excludes) -> Result<(), Memory>
    ensures { OnOk result (HasSame found.new.all.items (found.old.all.items ++ kept_unless
        (is_excluded excludes.now) paths.now)) }
{
    'adding: for path in paths {
        if excludes.some_matches(path) {
            continue 'adding;
        }
        found.add(path)?;
    }
    Ok(())
}
