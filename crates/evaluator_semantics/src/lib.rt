//! The meaning of the language: what the evaluation of a BUILD file or a .bzl file ends with, as definitions.
//!
//! `specs/Files` says it of a whole file; below it are statements, calls, expressions, targets, names, the package
//! calls, and what an evaluation is given and works on. The definitions follow the Starlark language specification, and
//! where this repository's profile takes less or decides more, the definition says so. `proofs/` has programs as texts
//! with the outcomes that the definitions compute of them, and the proofs of the laws.
//!
//! Begin at `specs/Files.antt`.
#![tactic(auto)]

ghost use Rattle.evaluator_semantics.specs.Laws.{FinishedStays, GlobalsStay, GlobsFindFiles, MoreBehind, ModulesDoNotWait, NeedsAreAsked, StepsAreSpent, TargetsRise};

/// States the law that answers do no harm. If an outcome does not wait for globs, it stays the same when more of them
/// are answered. One way to answer more is to add answers after those that are there.
pub fn finished_outcomes_stay()
    ensures stays { FinishedStays }
    ensures more { MoreBehind }
{}

/// States the law of waiting: the patterns that an outcome waits for have no answer, each occurs once, and there is at
/// least one.
pub fn needs_are_asked()
    ensures { NeedsAreAsked }
{}

/// States the law that a .bzl file's evaluation waits for no glob.
pub fn modules_do_not_wait()
    ensures { ModulesDoNotWait }
{}

/// States the law that the targets of a package are in byte order of their names, one of each name.
pub fn targets_rise()
    ensures { TargetsRise }
{}

/// States the law of right answers. Let each include of a call of `glob` be answered by what it finds below the
/// package's directory. Then the call finds what a glob finds among all files.
pub fn globs_find_files()
    ensures { GlobsFindFiles }
{}

/// States the law of steps: a file's evaluation ends with no more steps left than it began with.
pub fn steps_are_spent()
    ensures { StepsAreSpent }
{}

/// States the law of globals: a global that is bound keeps its value to the end, and so do the names of loaded modules.
pub fn globals_stay()
    ensures { GlobalsStay }
{}
