//! The evaluation of a file, which stops at each call of `glob` whose patterns have no answer, and continues from
//! there.
ghost use Rattle.std.specs.Prelude.{◌≡◌, Ok, length, map, option_map, IfOk};
ghost use Rattle.std.specs.Arc.{arc_value};
ghost use Rattle.syntax_tree.specs.Statements.{file_of};
ghost use Rattle.evaluator_semantics.specs.Environment.{Env};
ghost use Rattle.evaluator.specs.Machines.{env_of};
ghost use Rattle.evaluator.specs.Files.{shared_texts};
ghost use Rattle.keys.specs.Turns.{values};
ghost use Rattle.functions.specs.GlobAnswers.{IsHeard};
ghost use Rattle.functions.specs.Goes.{turn_after_answers, env_in, IsWaiting, IsMade, IsOutcome, IsOf, IsWent, IsWithin, LeadsTo};
ghost use Rattle.functions.specs.Sources as specs;

use crate::once::{answer_of, distinct_keys, first_places};
use crate::reply::{Continuation, FileTurn, PackageEvaluation};
use crate::source::Source;
use base_types::{Memory, Text};
use evaluator::{Environment, Outcome, resume, run};
use evaluator_package_calls::{Answers, Package};
use functions_directories::glob_key;
use keys::{Fault, Key, Value};
use std::alloc::Global;
use std::collections::BTreeMap;
use std::sync::Arc;
use syntax::File;
use values_modules::ModuleValue;

// How far the answers let an evaluation advance.
#[derive(Drop)]
pub enum Advance {
    // It ends, or asks for a group.
    Finished(FileTurn),
    // It has reached this outcome, with this many answers.
    Running { outcome: Outcome, used: usize },
}

// Returns the keys of the globs of patterns.
fn glob_keys(alloc: Global, package_name: &Text, patterns: &[Text]) -> Result<Vec<Key>, Memory>
    ensures { IfOk result (λ v. v.items ≡ specs.glob_keys package_name.now patterns.now) }
{
    let mut keys = Vec::new(alloc);
    for pattern in patterns {
        keys.push(glob_key(alloc, package_name, pattern.as_str())?)?;
    }
    Ok(keys)
}

// Returns the paths of an answer, shared.
fn paths_at(alloc: Global, answer: Option<&Value>) -> Result<Arc<Vec<Text>, Global>, Memory>
    ensures { IfOk result
        (λ a. shared_texts a ≡ specs.paths_or_none (option_map (λ v. v.now) answer.entry)) }
{
    match answer {
        Some(Value::Paths(paths)) => paths.share_items(),
        _ => {
            let none = Arc::new(alloc, Vec::new(alloc))?;
            Ok(none)
        }
    }
}

// Returns the paths that each key finds, by the keys' places.
fn paths_in(
    alloc: Global,
    places: &BTreeMap<Key, usize>,
    keys: &[Key],
    answers: &[Arc<Value>],
) -> Result<Vec<Arc<Vec<Text>, Global>>, Memory>
    ensures { IfOk result (λ v. map shared_texts v.items ≡ specs.paths_in places.now keys.now
        (values answers.now)) }
{
    let mut all = Vec::new(alloc);
    for key in keys {
        all.push(paths_at(alloc, answer_of(key, places, answers))?)?;
    }
    Ok(all)
}

// Returns the paths that each key finds by the answers of a group.
fn paths_by(
    alloc: Global,
    group: &[Key],
    keys: &[Key],
    answers: &[Arc<Value>],
) -> Result<Vec<Arc<Vec<Text>, Global>>, Memory>
    ensures { IfOk result (λ v. map shared_texts v.items ≡ specs.paths_by group.now keys.now
        (values answers.now)) }
{
    let places = first_places(alloc, group)?;
    paths_in(alloc, &places, keys, answers)
}

// What the answers give to an evaluation that waits.
#[derive(Drop)]
enum GlobAnswers {
    // None is there: this group is asked for.
    Nothing(Vec<Key>),
    // Too few are there: this group is asked for again.
    TooFew(Vec<Key>),
    // This many answers give these paths.
    Paths {
        paths: Vec<Arc<Vec<Text>, Global>>,
        used: usize,
    },
}

// Returns what the answers give to an evaluation that waits for globs of a package.
fn glob_results(
    alloc: Global,
    package_name: &Text,
    patterns: &[Text],
    answers: &[Arc<Value>],
) -> Result<GlobAnswers, Memory>
    ensures { IfOk result (IsHeard package_name.now patterns.now (values answers.now)) }
{
    let keys = glob_keys(alloc, package_name, patterns)?;
    let group = distinct_keys(alloc, keys.as_slice())?;
    if answers.is_empty() {
        return Ok(GlobAnswers::Nothing(group));
    }
    let count = group.as_slice().len();
    if answers.len() < count {
        return Ok(GlobAnswers::TooFew(group));
    }
    let paths = paths_by(alloc, group.as_slice(), keys.as_slice(), answers)?;
    Ok(GlobAnswers::Paths { paths, used: count })
}

// Resumes an evaluation that waits, if the answers of its group are there.
fn resume_suspended(
    alloc: Global,
    paused: PackageEvaluation,
    answers: &[Arc<Value>],
) -> Result<Advance, Memory>
    ensures within { IfOk result (IsWithin (length answers.now)) }
    ensures went { IfOk result (λ went. IsWaiting paused → IsWent (env_in paused)
        (values answers.now) went) }
{
    let patterns = paused.suspended.patterns();
    match glob_results(alloc, &paused.package_name, patterns, answers) {
        Ok(GlobAnswers::Nothing(group)) => {
            if paused.suspended.is_large() {
                drop(paused);
                return Ok(Advance::Finished(FileTurn::Ask(group)));
            }
            Ok(Advance::Finished(FileTurn::Wait(group, Continuation::Globs(paused))))
        }
        Ok(GlobAnswers::TooFew(group)) => {
            drop(paused);
            Ok(Advance::Finished(FileTurn::Ask(group)))
        }
        Ok(GlobAnswers::Paths { paths, used: count }) => {
            Ok(Advance::Running {
                outcome: resume(paused.suspended, paths)?,
                used: count,
            })
        }
        Err(memory) => {
            drop(paused);
            Err(memory)
        }
    }
}

// Continues from an outcome, if it waits and the answers of its group are there.
fn resume_evaluation(
    alloc: Global,
    package_name: &Text,
    outcome: Outcome,
    answers: &[Arc<Value>],
) -> Result<Advance, Memory>
    ensures within { IfOk result (IsWithin (length answers.now)) }
    ensures went { IfOk result (λ went. (env : Env) → env.package_name ≡ package_name.now
        → IsOutcome env outcome → IsWent env (values answers.now) went) }
{
    match outcome {
        Outcome::Module(loaded) => Ok(Advance::Finished(FileTurn::Done(Value::Module(loaded)))),
        Outcome::Package(targets) => Ok(Advance::Finished(FileTurn::Done(Value::Package(targets)))),
        Outcome::Fault(fault) => {
            let fault = Fault {
                code: fault.code,
                path: fault.path,
                line: fault.line,
            };
            Ok(Advance::Finished(FileTurn::Done(Value::Fault(fault))))
        }
        Outcome::Need(_, suspended) => {
            let paused = PackageEvaluation {
                package_name: package_name.share()?,
                suspended,
            };
            resume_suspended(alloc, paused, answers)
        }
    }
}

// Returns what the answers make of an outcome.
fn answer_globs(
    alloc: Global,
    package_name: &Text,
    first: Outcome,
    answers: &[Arc<Value>],
) -> Result<FileTurn, Memory>
    requires { IsOf package_name.now first }
    ensures { IfOk result (LeadsTo package_name.now first (values answers.now)) }
{
    let mut outcome = first;
    let mut left = answers;
    loop {
        match resume_evaluation(alloc, package_name, outcome, left)? {
            Advance::Finished(reply) => return Ok(reply),
            Advance::Running {
                outcome: next,
                used: taken,
            } => {
                outcome = next;
                let (_, behind) = left.split_at(taken);
                left = behind;
            }
        }
    }
}

/// Returns what the answers make of a suspended evaluation.
pub fn resume_with(
    alloc: Global,
    paused: PackageEvaluation,
    answers: &[Arc<Value>],
) -> Result<FileTurn, Memory>
    requires { IsWaiting paused }
    ensures { IfOk result (IsMade (turn_after_answers (env_in paused)) (values answers.now)) }
{
    let package_name = paused.package_name.share()?;
    match resume_suspended(alloc, paused, answers)? {
        Advance::Finished(reply) => Ok(reply),
        Advance::Running {
            outcome: next,
            used: taken,
        } => answer_globs(alloc, &package_name, next, &answers[taken..]),
    }
}

// Makes the environment of the evaluation of a file, in which no glob is answered.
fn environment(
    alloc: Global,
    source: &Source,
    file: Arc<File, Global>,
    loads: Vec<ModuleValue>,
) -> Result<Environment, Memory>
    ensures { IfOk result (λ e. env_of e ≡ specs.env_of source.now (file_of (arc_value file))
        loads.items) }
{
    let package = Package {
        kind: source.kind,
        name: source.package_name.share()?,
        answers: Answers::new(alloc),
    };
    Ok(Environment {
        label: source.label.share()?,
        path: source.path.share()?,
        file,
        loads,
        package,
    })
}

/// Returns what the evaluation of a file asks for or ends with, from the answers to its globs.
pub fn evaluate_file(
    alloc: Global,
    source: &Source,
    file: Arc<File, Global>,
    loads: Vec<ModuleValue>,
    answers: &[Arc<Value>],
) -> Result<FileTurn, Memory>
    ensures { IfOk result
        (IsMade (specs.after_modules source.now (file_of (arc_value file)) (Ok loads.items))
        (values answers.now)) }
{
    let environment = environment(alloc, source, file, loads)?;
    let first = run(alloc, environment)?;
    answer_globs(alloc, &source.package_name, first, answers)
}
