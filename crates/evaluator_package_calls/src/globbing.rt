//! What a call of `glob` asks for.
ghost use Rattle.std.specs.Prelude.{◌≡◌, ◌||◌, IfOk, codes, map, if◌then◌else◌};
ghost use Rattle.values_semantics.specs.Functions.{is_named};
ghost use Rattle.std.specs.List.{list_all};
ghost use Rattle.pattern.specs.Patterns.{is_pattern};
ghost use Rattle.values_semantics.specs.Outcome.{good, bad};
ghost use Rattle.evaluator_semantics.specs.Names.{has_name};
ghost use Rattle.evaluator_semantics.specs.Globs as globs;
ghost use Rattle.pattern.specs.Globs.{question};
ghost use Rattle.evaluator_semantics.specs.Globs.{parameters, plain_parameters, texts_or_none, truth_or, int_or};
ghost use Rattle.values_heap.specs.View.{store_of, Checks, ChecksItems};
ghost use Rattle.evaluator_package_calls.specs.GlobCalls.{asked_of, written_of};
ghost use Rattle.evaluator_package_calls.specs.View.{ChecksAs};

use crate::arguments::{is_named, is_twice, value_named};
use crate::spelling::pattern_of;
use crate::strings::texts_in;
use base_types::{Memory, Text};
use pattern::Pattern;
use std::alloc::Global;
use values_heap::{Bytes, Halt, Heap, Val};
use values_semantics::faults;

/// What a call asks for.
#[derive(Drop)]
pub struct GlobCall {
    pub includes: Vec<Pattern>,
    pub excludes: Vec<Pattern>,
    pub allow_empty: bool,
    /// Whether it finds directories too.
    pub directories: bool,
}

/// What a call asks for, before its patterns are read.
#[derive(Drop)]
pub struct GlobArguments {
    pub includes: Vec<Bytes>,
    pub excludes: Vec<Bytes>,
    pub allow_empty: bool,
    pub directories: bool,
}

/// Reads what a call asks for, or returns fault 25, 5 or 21.
pub fn read_call(heap: &Heap, xs: &[Val], ns: &[(Text, Val)]) -> Result<GlobCall, Halt>
    ensures { ChecksAs asked_of (globs.read_call xs.now ns.now (store_of heap.now)) result }
{
    if !are_arguments(heap.alloc, xs, ns)? {
        return Err(Halt::Code(faults::WRONG_ARGUMENTS));
    }
    let written = checked_call(heap, xs, ns)?;
    with_patterns(heap.alloc, &written)
}

// Returns whether `glob` takes these arguments, by their number and names.
fn are_arguments(alloc: Global, xs: &[Val], ns: &[(Text, Val)]) -> Result<bool, Memory>
    ensures { IfOk result (λ b. b ≡ globs.are_arguments xs.now ns.now) }
{
    if xs.len() > 3 {
        return Ok(false);
    }
    if is_twice(alloc, ns)? {
        return Ok(false);
    }
    if !are_known(ns) || is_given_twice(xs, ns) {
        return Ok(false);
    }
    Ok(argument(0, "include", xs, ns).is_some())
}

// Returns whether each name is the name of a parameter.
fn are_known(ns: &[(Text, Val)]) -> bool
    ensures { result ≡ globs.are_known ns.now parameters }
{
    for n in ns {
        if !is_parameter(n.0.as_str()) {
            return false;
        }
    }
    true
}

// Returns whether a name is the name of a parameter.
fn is_parameter(name: &str) -> bool
    ensures { result ≡ has_name name.now parameters }
{
    if name == "include" {
        return true;
    }
    if name == "exclude" {
        return true;
    }
    if name == "allow_empty" {
        return true;
    }
    name == "exclude_directories"
}

// Returns whether a parameter is given both by its place and by its name.
fn is_given_twice(xs: &[Val], ns: &[(Text, Val)]) -> bool
    ensures { result ≡ globs.given_twice xs.now plain_parameters ns.now }
{
    match xs.len() {
        0 => false,
        1 => is_named("include", ns),
        2 => names_two(ns),
        _ => names_three(ns),
    }
}

// Returns whether one of the first two parameters is named.
fn names_two(ns: &[(Text, Val)]) -> bool
    ensures { result ≡ (is_named (codes "include") ns.now || is_named (codes "exclude") ns.now) }
{
    if is_named("include", ns) {
        return true;
    }
    is_named("exclude", ns)
}

// Returns whether one of the first three parameters is named.
fn names_three(ns: &[(Text, Val)]) -> bool
    ensures { result ≡ ((is_named (codes "include") ns.now || is_named (codes "exclude") ns.now)
        || is_named (codes "allow_empty") ns.now) }
{
    if names_two(ns) {
        return true;
    }
    is_named("allow_empty", ns)
}

// Returns an argument by its place, or else by its name.
fn argument(i: usize, name: &str, xs: &[Val], ns: &[(Text, Val)]) -> Option<Val>
    ensures { result ≡ globs.argument i name.now xs.now ns.now }
{
    match xs.get(i) {
        Some(x) => Some(*x),
        None => value_named(name, ns),
    }
}

// Reads the arguments of a call, with its patterns as texts, or returns fault 5 or 25.
fn checked_call(heap: &Heap, xs: &[Val], ns: &[(Text, Val)]) -> Result<GlobArguments, Halt>
    ensures { ChecksAs written_of (globs.typed xs.now ns.now (store_of heap.now)) result }
{
    let includes = texts_or_none(heap, argument(0, "include", xs, ns))?;
    let excludes = texts_or_none(heap, argument(1, "exclude", xs, ns))?;
    let allow_empty = truth_or(true, argument(2, "allow_empty", xs, ns))?;
    let number = int_or(1, value_named("exclude_directories", ns))?;
    let directories = with_directories(number)?;
    Ok(GlobArguments {
        includes,
        excludes,
        allow_empty,
        directories,
    })
}

// Returns the texts of a list, or fault 5. There are none if the argument is absent.
fn texts_or_none(heap: &Heap, x: Option<Val>) -> Result<Vec<Bytes>, Halt>
    ensures { ChecksItems (texts_or_none x (store_of heap.now)) result }
{
    match x {
        None => Ok(Vec::new(heap.alloc)),
        Some(x) => texts_in(heap, x),
    }
}

// Returns a truth value, or `other` if it is absent, or fault 5.
fn truth_or(other: bool, x: Option<Val>) -> Result<bool, Halt>
    ensures { Checks (truth_or other x) result }
{
    match x {
        None => Ok(other),
        Some(Val::True) => Ok(true),
        Some(Val::False) => Ok(false),
        Some(_) => Err(Halt::Code(faults::WRONG_TYPE)),
    }
}

// Returns an int, or `other` if it is absent, or fault 5.
fn int_or(other: i64, x: Option<Val>) -> Result<i64, Halt>
    ensures { Checks (int_or other x) result }
{
    match x {
        None => Ok(other),
        Some(Val::Int(n)) => Ok(n),
        Some(_) => Err(Halt::Code(faults::WRONG_TYPE)),
    }
}

// Returns whether directories are found too: 1 excludes them, and 0 does not. Any other number is fault 25.
fn with_directories(n: i64) -> Result<bool, Halt>
    ensures { Checks (globs.with_directories n) result }
{
    if n == 0 {
        return Ok(true);
    }
    if n == 1 {
        return Ok(false);
    }
    Err(Halt::Code(faults::WRONG_ARGUMENTS))
}

// Reads the texts as patterns, or returns fault 21.
fn with_patterns(alloc: Global, written: &GlobArguments) -> Result<GlobCall, Halt>
    ensures { ChecksAs asked_of (globs.with_patterns (written_of written.now)) result }
{
    let includes = all_patterns(alloc, written.includes.as_slice())?;
    let excludes = all_patterns(alloc, written.excludes.as_slice())?;
    Ok(GlobCall {
        includes,
        excludes,
        allow_empty: written.allow_empty,
        directories: written.directories,
    })
}

// Reads texts as patterns, or returns fault 21.
fn all_patterns(alloc: Global, texts: &[Bytes]) -> Result<Vec<Pattern>, Halt>
    ensures { ChecksItems (if list_all is_pattern texts.now then good texts.now else bad 21)
        result }
{
    let mut all = Vec::new(alloc);
    for text in texts {
        match pattern_of(alloc, text.as_slice()) {
            Ok(pattern) => all.push(pattern)?,
            Err(halt) => return Err(halt),
        }
    }
    Ok(all)
}

/// Returns the question of each pattern, in order. It is the pattern, with a space and `dirs` after it where
/// directories are asked for.
pub fn questions(
    alloc: Global,
    directories: bool,
    patterns: &[Pattern],
) -> Result<Vec<Text>, Memory>
    ensures { IfOk result (λ v. v.items ≡ map (question directories) patterns.now) }
{
    let mut all = Vec::new(alloc);
    for pattern in patterns {
        all.push(question(alloc, directories, pattern.text())?)?;
    }
    Ok(all)
}

// Returns the question of a pattern.
fn question(alloc: Global, directories: bool, pattern: &Text) -> Result<Text, Memory>
    ensures { IfOk result (λ t. t ≡ question directories pattern.now) }
{
    if !directories {
        return pattern.share();
    }
    let mut text = String::from_str(alloc, pattern.as_str())?;
    text.push_str(" dirs")?;
    Text::from_string(alloc, text)
}
