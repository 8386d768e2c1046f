//! One step of a glob by its pattern.
ghost use Rattle.std.specs.Prelude.{◌≡◌, ◌∷◌, ◌++◌, ◌&&◌, ◌||◌, is_some, IfOk, OnOk, filter};
ghost use Rattle.std.specs.Option.{option_copied};
ghost use Rattle.std.specs.String.{string_bytes};
ghost use Rattle.std.specs.List.{list_all};
ghost use Rattle.labels.specs.Paths.{segments};
ghost use Rattle.pattern.specs.Globs.{path_in};
ghost use Rattle.pattern.specs.Patterns as patterns;
ghost use Rattle.functions_directories.specs.Globs as specs;

use crate::name_ends::{end_of, matches_with_end};
use crate::ordering::in_order;
use crate::search::Search;
use base_types::{Memory, Text};
use pattern::{is_double_star, segment_matches};
use std::alloc::Global;

/// Splits a pattern into its first segment and the pattern of the others.
pub fn split_pattern(pattern: &str) -> (&str, Option<&str>)
    ensures first { result.0.now ≡ specs.first_segment pattern.now }
    ensures others { option_copied result.1 ≡ specs.other_segments pattern.now }
{
    match pattern.split_once('/') {
        Some((first, others)) => (first, Some(others)),
        None => (pattern, None),
    }
}

// Returns whether a segment stands for any number of segments.
fn is_any(segment: &str) -> bool
    ensures { result ≡ patterns.is_double_star segment.now }
{
    is_double_star(segment)
}

// Returns whether all segments of a pattern stand for any number of segments.
fn are_any(pattern: &str) -> bool
    ensures { result ≡ list_all patterns.is_double_star (segments pattern.now) }
{
    pattern.split('/').all(is_any)
}

// Returns whether no segment but `**` is left.
fn ends_here(rest: Option<&str>) -> bool
    ensures { result ≡ specs.ends_here (option_copied rest.entry) }
{
    match rest {
        None => true,
        Some(rest) => are_any(rest),
    }
}

// Returns whether the first segment is `**`.
fn is_deep(pattern: &str) -> bool
    ensures { result ≡ specs.is_deep pattern.now }
{
    is_double_star(split_pattern(pattern).0)
}

// Returns whether the first segment of a pattern matches a name in the directory.
fn matches_name(pattern: &str, name: &str) -> bool
    ensures { result ≡ specs.takes pattern.now name.now }
{
    let (first, others) = split_pattern(pattern);
    ends_here(others) && segment_matches(first, name)
}

// Returns whether a pattern has more than one segment.
fn has_others(pattern: &str) -> bool
    ensures { result ≡ is_some (specs.other_segments pattern.now) }
{
    split_pattern(pattern).1.is_some()
}

// Returns whether a pattern descends into a subdirectory that is not a package.
fn descends_into(pattern: &str, name: &str) -> bool
    ensures { result ≡ specs.enters pattern.now name.now }
{
    is_deep(pattern) || (has_others(pattern) && segment_matches(split_pattern(pattern).0, name))
}

/// Returns whether the other segments of a pattern are searched for in the directory itself too.
pub fn continues_here(pattern: &str) -> bool
    ensures { result ≡ specs.asks_here pattern.now }
{
    is_deep(pattern) && has_others(pattern)
}

/// Returns the pattern of the segments after the first, or the empty text.
pub fn others_of(pattern: &str) -> &str
    ensures { result.now ≡ specs.text_or_none (specs.other_segments pattern.now) }
{
    match split_pattern(pattern).1 {
        Some(others) => others,
        None => "",
    }
}

/// Returns the pattern that is searched for below a subdirectory.
pub fn pattern_below(pattern: &str) -> &str
    ensures { result.now ≡ specs.pattern_below pattern.now }
{
    if is_deep(pattern) {
        pattern
    } else {
        others_of(pattern)
    }
}

/// Adds names, shared.
pub fn add_all(all: &mut Vec<Text>, names: &[Text]) -> Result<(), Memory>
    ensures { OnOk result (all.new.items ≡ all.old.items ++ names.now) }
{
    for name in names {
        all.push(name.share()?)?;
    }
    Ok(())
}

// Adds the names that the first segment matches, shared.
fn add_taken(all: &mut Vec<Text>, pattern: &str, names: &[Text]) -> Result<(), Memory>
    ensures { OnOk result (all.new.items ≡ all.old.items ++ filter (specs.takes pattern.now)
        names.now) }
{
    let (first, others) = split_pattern(pattern);
    if !ends_here(others) {
        return Ok(());
    }
    let end = end_of(first);
    for name in names {
        if matches_with_end(first, end, name.as_str()) {
            all.push(name.share()?)?;
        }
    }
    Ok(())
}

// Adds the names in the directory that a pattern finds there.
fn add_own(all: &mut Vec<Text>, pattern: &str, names: &[Text]) -> Result<(), Memory>
    ensures { OnOk result (all.new.items ≡ all.old.items ++ specs.own_names pattern.now names.now) }
{
    if !is_deep(pattern) {
        return add_taken(all, pattern, names);
    }
    if has_others(pattern) {
        return Ok(());
    }
    add_all(all, names)
}

/// Returns the names in the directory that a search finds there, of its files and of its subdirectories that are not
/// packages.
pub fn own_found(
    alloc: Global,
    search: Search<'_>,
    files: &[Text],
    free: &[Text],
) -> Result<Vec<Text>, Memory>
    ensures { IfOk result
        (λ v. v.items ≡ specs.own_found search.entry.directories search.entry.pattern.now files.now
        free.now) }
{
    let mut all = Vec::new(alloc);
    add_own(&mut all, search.pattern, files)?;
    if search.directories {
        add_own(&mut all, search.pattern, free)?;
    }
    Ok(all)
}

/// Returns the names that a pattern descends into.
pub fn all_entered(alloc: Global, pattern: &str, names: &[Text]) -> Result<Vec<Text>, Memory>
    ensures { IfOk result (λ v. v.items ≡ filter (specs.enters pattern.now) names.now) }
{
    let mut all = Vec::new(alloc);
    for name in names {
        if descends_into(pattern, name.as_str()) {
            all.push(name.share()?)?;
        }
    }
    Ok(all)
}

// Returns whether a search must know whether a subdirectory is a package.
fn asks(search: Search<'_>, name: &str) -> bool
    ensures { result ≡ specs.enters search.entry.pattern.now name.now || search.entry.directories
        && specs.takes search.entry.pattern.now name.now }
{
    descends_into(search.pattern, name)
        || (search.directories && matches_name(search.pattern, name))
}

// Returns the subdirectories of which a search must know whether they are packages.
fn all_asked(alloc: Global, search: Search<'_>, names: &[Text]) -> Result<Vec<Text>, Memory>
    ensures { IfOk result
        (λ v. v.items ≡ filter (λ name. specs.enters search.entry.pattern.now name
        || search.entry.directories && specs.takes search.entry.pattern.now name) names.now) }
{
    let mut all = Vec::new(alloc);
    for name in names {
        if asks(search, name.as_str()) {
            all.push(name.share()?)?;
        }
    }
    Ok(all)
}

/// Returns the subdirectories of which a search must know whether they are packages, in byte order.
pub fn asked_names(alloc: Global, search: Search<'_>, names: &[Text]) -> Result<Vec<Text>, Memory>
    ensures { IfOk result
        (λ v. v.items ≡ specs.asked_names search.entry.directories search.entry.pattern.now
        names.now) }
{
    let all = all_asked(alloc, search, names)?;
    in_order(alloc, all.as_slice())
}

/// Returns the path of a name in a directory; the root's name is empty.
pub fn path_in(alloc: Global, directory: &str, name: &str) -> Result<String, Memory>
    ensures { IfOk result (λ p. string_bytes p ≡ path_in directory.now name.now) }
{
    if directory.is_empty() {
        return Ok(String::from_str(alloc, name)?);
    }
    join_by_slash(alloc, directory, name)
}

/// Returns two texts with a slash between them. It takes one allocation of their size.
pub fn join_by_slash(alloc: Global, front: &str, back: &str) -> Result<String, Memory>
    ensures { IfOk result (λ text. string_bytes text ≡ front.now ++ 47 ∷ back.now) }
{
    let mut text = String::with_capacity(
        alloc,
        front.len().saturating_add(back.len()).saturating_add(1),
    )?;
    text.push_str(front)?;
    text.push_str("/")?;
    text.push_str(back)?;
    Ok(text)
}
