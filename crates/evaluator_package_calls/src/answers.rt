//! The answers to questions, which are found by the questions.
ghost use Rattle.std.specs.Prelude.{◌≡◌, ◌++◌, ◌∷◌, [], ℕ, List, Some, None, cond, IfOk, OnOk, OnErr, option_map};
ghost use Rattle.std.specs.HashMap.{get};
ghost use Rattle.values_semantics.specs.Comparing.{same_text};
ghost use Rattle.evaluator_semantics.specs.Globs.{answer_to};
ghost use Rattle.evaluator_package_calls.specs.AnswerTables.{answer_of, answers_of, paths_at, earlier_or};

use base_types::{Memory, Text};
use std::alloc::Global;
use std::collections::HashMap;
use std::marker::Model;
use std::sync::Arc;

/// The answer to a question: the paths that are found in the package. The question is the pattern, with a space and
/// `dirs` after it where directories are asked for too.
#[derive(Drop)]
pub struct GlobResult {
    pub pattern: Text,
    pub paths: Arc<Vec<Text>, Global>,
}

// The place of the first answer to each question.
#[derive(Drop)]
struct Places {
    places: HashMap<Text, usize>,
}

/// The answers to questions, in the order in which they came. The first one to a question is found without a search. A
/// contract sees the questions with what was found.
#[derive(Drop)]
pub struct Answers {
    results: Vec<GlobResult>,
    // The table is there unless an allocation failed.
    table: Option<Places>,
}

impl Model for Answers {
    ghost use Rattle.std.specs.Prelude.{◌≡◌, ℕ, List};
    ghost use Rattle.std.specs.Option.{ForSome};
    ghost use Rattle.std.specs.HashMap.{get};
    ghost use Rattle.values_semantics.specs.Comparing.{same_text};
    ghost use Rattle.evaluator_package_calls.specs.AnswerTables.{answers_of, place_of};

    ghost Value = { List (List ℕ × List (List ℕ)) };

    ghost view = { λ a. answers_of a.results.items };

    ghost invariant = { λ a. ForSome a.table (λ t. (x : List ℕ) → get same_text t.places x ≡ place_of x (answers_of a.results.items)) };
}

// Notes the place of an answer to a question, unless there is an earlier one.
fn note_place(table: Places, question: Text, place: usize) -> Result<Places, Memory>
    ensures { IfOk result (λ t. (x : List ℕ) → get same_text t.places x
        ≡ earlier_or (get same_text table.places x)
        (cond (same_text question x) (Some place) None)) }
{
    let mut places = table.places;
    if !places.contains_key(&question) {
        places.insert(question, place)?;
    }
    Ok(Places { places })
}

// Returns the paths of the answer at a place, if there is one.
fn paths_at<'a>(results: &'a [GlobResult], place: Option<usize>) -> Option<&'a [Text]>
    ensures { option_map (λ paths. paths.now) result ≡ paths_at (answers_of results.now) place }
{
    match place {
        Some(i) => match results.get(i) {
            Some(answer) => Some(answer.paths.as_slice()),
            None => None,
        },
        None => None,
    }
}

// Returns the paths that answer a question, if it has an answer.
fn answer_to<'a>(results: &'a [GlobResult], question: &Text) -> Option<&'a [Text]>
    ensures { option_map (λ paths. paths.now) result ≡ answer_to question.now
        (answers_of results.now) }
{
    for answer in results {
        if *question == answer.pattern {
            return Some(answer.paths.as_slice());
        }
    }
    None
}

impl Answers {
    /// Makes a list of no answers.
    pub fn new(alloc: Global) -> Answers
        ensures { result ≡ [] }
    {
        Answers {
            results: Vec::new(alloc),
            table: Some(Places {
                places: HashMap::new(alloc),
            }),
        }
    }

    /// Adds an answer after the others.
    ///
    /// # Errors
    ///
    /// Returns `Memory` if an allocation fails. The answers are then as before.
    pub fn add(&mut self, answer: GlobResult) -> Result<(), Memory>
        ensures ok { OnOk result (self.new ≡ self.old ++ answer_of answer ∷ []) }
        ensures err { OnErr result (self.new ≡ self.old) }
    {
        let place = self.results.len();
        let question = answer.pattern.share()?;
        let Some(table) = self.table.take() else {
            self.results.push(answer)?;
            return Ok(());
        };
        let table = note_place(table, question, place)?;
        self.results.push(answer)?;
        self.table = Some(table);
        Ok(())
    }

    // Returns the answers.
    pub(crate) fn results(&self) -> &[GlobResult]
        ensures { answers_of result.now ≡ self.now }
    {
        self.results.as_slice()
    }

    /// Returns the paths that answer a question, if it has an answer. The cost does not depend on the number of
    /// answers.
    pub fn answer(&self, question: &Text) -> Option<&[Text]>
        ensures { option_map (λ paths. paths.now) result ≡ answer_to question.now self.now }
    {
        let results = self.results.as_slice();
        match &self.table {
            Some(table) => paths_at(results, table.places.get(question).copied()),
            None => answer_to(results, question),
        }
    }
}
