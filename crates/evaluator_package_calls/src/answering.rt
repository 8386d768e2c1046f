//! The result of a call of `glob`.
ghost use Rattle.std.specs.Prelude.{◌≡◌, ◌++◌, [], IfOk, OnOk};
ghost use Rattle.values_semantics.specs.Methods.{makes_texts};
ghost use Rattle.values_semantics.specs.Heap.{makes_text};
ghost use Rattle.evaluator_semantics.specs.Names.{has_name};
ghost use Rattle.evaluator_semantics.specs.Sorting.{in_order};
ghost use Rattle.evaluator_semantics.specs.Globs as globs;
ghost use Rattle.evaluator_semantics.specs.Globs.{answer_to, found_or_none, makes_paths};
ghost use Rattle.values_heap.specs.View.{store_of, Says, SaysItems};
ghost use Rattle.evaluator_package_calls.specs.GlobResults.{kept_of, kept_unless, found_all, with_unanswered};
ghost use Rattle.pattern_tables.specs.Excluding.{is_excluded};

use crate::answers::Answers;
use crate::distinct_paths::distinct_paths;
use crate::ordering::in_order;
use crate::texts_once::TextsOnce;
use base_types::{Memory, Text};
use pattern::Pattern;
use pattern_tables::Excludes;
use std::alloc::Global;
use values_heap::{Bytes, Halt, Heap, MAX_LENGTH, Object, Val};
use values_semantics::faults;

/// The most questions that are compared with one another; for more a set of those that were seen is made.
const FEW: usize = 16;

// Returns whether a text is among others.
fn has_name(x: &Text, texts: &[Text]) -> bool
    ensures { result ≡ has_name x.now texts.now }
{
    for text in texts {
        if *x == *text {
            return true;
        }
    }
    false
}

/// Returns the questions that have no answer, in order and each once.
pub fn queries_without_result(
    alloc: Global,
    answers: &Answers,
    questions: &[Text],
) -> Result<Vec<Text>, Memory>
    ensures { IfOk result (λ v. v.items ≡ globs.queries_without_result answers.now []
        questions.now) }
{
    if questions.len() > FEW {
        return many_unanswered(alloc, answers, questions);
    }
    let mut all = Vec::new(alloc);
    for question in questions {
        add_unanswered(&mut all, answers, question)?;
    }
    Ok(all)
}

// Adds a question, unless it has an answer or is there already.
fn add_unanswered(all: &mut Vec<Text>, answers: &Answers, question: &Text) -> Result<(), Memory>
    ensures { OnOk result (all.new.items ≡ with_unanswered question.now answers.now
        all.old.items) }
{
    if answers.answer(question).is_some() {
        return Ok(());
    }
    if has_name(question, all.as_slice()) {
        return Ok(());
    }
    all.push(question.share()?)?;
    Ok(())
}

// Returns those of many questions that have no answer, in order and each once.
fn many_unanswered(
    alloc: Global,
    answers: &Answers,
    questions: &[Text],
) -> Result<Vec<Text>, Memory>
    ensures { IfOk result (λ v. v.items ≡ globs.queries_without_result answers.now []
        questions.now) }
{
    let mut once = TextsOnce::new(alloc);
    'asking: for question in questions {
        if answers.answer(question).is_some() {
            continue 'asking;
        }
        once.add(question)?;
    }
    let TextsOnce { all, seen: _ } = once;
    Ok(all)
}

/// Returns the paths that the answers to a call's questions have and that no exclude matches, in byte order and without
/// repeats.
pub fn glob_paths(
    alloc: Global,
    answers: &Answers,
    questions: &[Text],
    excludes: &[Pattern],
) -> Result<Vec<Text>, Memory>
    ensures { IfOk result (λ v. v.items ≡ in_order (λ path. path)
        (kept_of excludes.now (found_all answers.now questions.now))) }
{
    let sorted = Excludes::new(alloc, excludes)?;
    if questions.len() > FEW {
        let all = distinct_paths(alloc, answers, questions, &sorted)?;
        return in_order(alloc, all.as_slice());
    }
    let all = matching_paths(alloc, answers, questions, &sorted)?;
    in_order(alloc, all.as_slice())
}

// Returns the paths that the answer to some question has and no exclude matches, in the order in which they are found.
fn matching_paths(
    alloc: Global,
    answers: &Answers,
    questions: &[Text],
    excludes: &Excludes,
) -> Result<Vec<Text>, Memory>
    ensures { IfOk result
        (λ v. v.items ≡ kept_unless (is_excluded excludes.now) (found_all answers.now
        questions.now)) }
{
    let mut all = Vec::new(alloc);
    for question in questions {
        add_found(&mut all, answers, question, excludes)?;
    }
    Ok(all)
}

// Adds the paths that the answer to a question has and no exclude matches.
fn add_found(
    all: &mut Vec<Text>,
    answers: &Answers,
    question: &Text,
    excludes: &Excludes,
) -> Result<(), Memory>
    ensures { OnOk result (all.new.items ≡ all.old.items ++ kept_unless (is_excluded excludes.now)
        (found_or_none (answer_to question.now answers.now))) }
{
    match answers.answer(question) {
        Some(paths) => add_paths(all, paths, excludes),
        None => Ok(()),
    }
}

// Adds the paths that no pattern matches.
fn add_paths(all: &mut Vec<Text>, paths: &[Text], excludes: &Excludes) -> Result<(), Memory>
    ensures { OnOk result (all.new.items ≡ all.old.items ++ kept_unless (is_excluded
        excludes.now) paths.now) }
{
    for path in paths {
        if !excludes.some_matches(path) {
            all.push(path.share()?)?;
        }
    }
    Ok(())
}

/// Makes a new list of paths, or returns fault 22 or 13.
pub fn make_paths(heap: &mut Heap, allow_empty: bool, paths: &[Text]) -> Result<Val, Halt>
    ensures { Says (makes_paths allow_empty paths.now (store_of heap.old)) result
        (store_of heap.new) }
{
    if !allow_empty && paths.is_empty() {
        return Err(Halt::Code(faults::EMPTY_GLOB));
    }
    if paths.len() > MAX_LENGTH {
        return Err(Halt::Code(faults::TOO_LARGE));
    }
    let all = make_texts(heap, paths)?;
    heap.make_list(all)
}

// Makes new strings, in order, or returns fault 13.
fn make_texts(heap: &mut Heap, texts: &[Text]) -> Result<Vec<Val>, Halt>
    ensures { SaysItems (makes_texts texts.now (store_of heap.old)) result (store_of heap.new) }
{
    let mut all = Vec::new(heap.alloc);
    for text in texts {
        match make_text(heap, text) {
            Ok(made) => all.push(made)?,
            Err(halt) => return Err(halt),
        }
    }
    Ok(all)
}

/// Makes a new string, or returns fault 13.
pub fn make_text(heap: &mut Heap, text: &Text) -> Result<Val, Halt>
    ensures { Says (makes_text text.now (store_of heap.old)) result (store_of heap.new) }
{
    if text.as_str().len() > MAX_LENGTH {
        return Err(Halt::Code(faults::TOO_LARGE));
    }
    let bytes = Bytes::of_text(text.share()?);
    heap.make(Object::Text(bytes))
}
