//! The node function of a glob.
ghost use Rattle.std.specs.Prelude.{◌≡◌, ◌∷◌, ◌++◌, ◌&&◌, true, length, nat_lt, IfOk, IfSome, OnOk, map};
ghost use Rattle.keys.specs.Ascending.{ascend};
ghost use Rattle.keys.specs.Turns.{values};
ghost use Rattle.functions_directories.specs.Globs as specs;
ghost use Rattle.functions_directories.specs.Replies.{IsReply};

use crate::glob_pattern::{
    add_all, all_entered, asked_names, continues_here, join_by_slash, others_of, own_found,
    path_in, pattern_below,
};
use crate::name_marks::marked_files;
use crate::ordering::in_order;
use crate::possible_names::possible_names;
use crate::reply::DirectoryTurn;
use crate::search::Search;
use base_types::{Memory, Text};
use keys::{Key, Paths, Value};
use std::alloc::Global;
use std::sync::Arc;

/// Returns the names of the files in a listing.
pub fn files_in(listing: &Value) -> &[Text]
    ensures { result.now ≡ specs.files_in listing.now }
{
    match listing {
        Value::Listing(Some(names)) => names.files(),
        _ => &[],
    }
}

/// Returns the names of the subdirectories in a listing.
pub fn directories_in(listing: &Value) -> &[Text]
    ensures { result.now ≡ specs.directories_in listing.now }
{
    match listing {
        Value::Listing(Some(names)) => names.directories(),
        _ => &[],
    }
}

// Returns whether the names of the files, and those of the subdirectories, in a listing are in byte order, each once.
fn are_in_order(listing: &Value) -> bool
    ensures { result ≡ ascend (specs.files_in listing.now)
        && ascend (specs.directories_in listing.now) }
{
    match listing {
        Value::Listing(Some(names)) => names.are_in_order(),
        _ => true,
    }
}

/// Returns whether a look-up found a BUILD file.
pub fn has_build(answer: &Value) -> bool
    ensures { result ≡ specs.has_build answer.now }
{
    match answer {
        Value::Lookup(Some(_)) => true,
        _ => false,
    }
}

// Returns the paths that a glob found.
fn paths_of(answer: &Value) -> &[Text]
    ensures { result.now ≡ specs.paths_of answer.now }
{
    match answer {
        Value::Paths(paths) => paths.as_slice(),
        _ => &[],
    }
}

// Returns the look-ups of subdirectories.
fn lookups(alloc: Global, directory: &str, names: &[Text]) -> Result<Vec<Key>, Memory>
    ensures { IfOk result (λ g. g.items ≡ specs.lookups directory.now names.now) }
{
    let mut group = Vec::with_capacity(alloc, names.len())?;
    for name in names {
        let path = path_in(alloc, directory, name.as_str())?;
        group.push(Key::Lookup(Text::new(alloc, path.as_str())?))?;
    }
    Ok(group)
}

// Returns the subdirectories that are not packages.
fn open_names(alloc: Global, names: &[Text], answers: &[Arc<Value>]) -> Result<Vec<Text>, Memory>
    ensures { IfOk result (λ v. v.items ≡ specs.open_names names.now (values answers.now)) }
{
    let mut all = Vec::new(alloc);
    for (i, name) in names.iter().enumerate() {
        if i >= answers.len() {
            return Ok(all);
        }
        if !has_build(&answers[i]) {
            all.push(name.share()?)?;
        }
    }
    Ok(all)
}

// Adds to a group the globs of a pattern below subdirectories.
fn add_globs(
    alloc: Global,
    group: &mut Vec<Key>,
    search: Search<'_>,
    pattern: &Text,
    names: &[Text],
) -> Result<(), Memory>
    ensures { OnOk result (group.new.items ≡ group.old.items ++ specs.globs_below
        search.entry.directory.now search.entry.directories pattern.now names.now) }
{
    for name in names {
        let path = Text::from_string(alloc, path_in(alloc, search.directory, name.as_str())?)?;
        group.push(Key::Glob(path, pattern.share()?, search.directories))?;
    }
    Ok(())
}

// Returns whether the globs that a glob asks for are more than these answers.
fn awaits_globs(search: Search<'_>, names: &[Text], answers: &[Arc<Value>]) -> bool
    ensures { result ≡ nat_lt (length answers.now) (length (specs.globs search.entry.directory.now
        search.entry.directories search.entry.pattern.now names.now)) }
{
    if continues_here(search.pattern) {
        answers.len() <= names.len()
    } else {
        answers.len() < names.len()
    }
}

// Returns the globs that a glob asks for.
fn globs(alloc: Global, search: Search<'_>, names: &[Text]) -> Result<Vec<Key>, Memory>
    ensures { IfOk result
        (λ g. g.items ≡ specs.globs search.entry.directory.now search.entry.directories
        search.entry.pattern.now names.now) }
{
    let mut group = Vec::new(alloc);
    if continues_here(search.pattern) {
        let directory = Text::new(alloc, search.directory)?;
        let others = Text::new(alloc, others_of(search.pattern))?;
        group.push(Key::Glob(directory, others, search.directories))?;
    }
    let below = Text::new(alloc, pattern_below(search.pattern))?;
    add_globs(alloc, &mut group, search, &below, names)?;
    Ok(group)
}

// Adds the paths in a subdirectory.
fn add_under(alloc: Global, all: &mut Vec<Text>, name: &Text, paths: &[Text]) -> Result<(), Memory>
    ensures { OnOk result (all.new.items ≡ all.old.items ++ map (λ path. name.now ++ 47 ∷ path)
        paths.now) }
{
    for path in paths {
        let text = join_by_slash(alloc, name.as_str(), path.as_str())?;
        all.push(Text::from_string(alloc, text)?)?;
    }
    Ok(())
}

// Adds the paths that are found below subdirectories.
fn add_below(
    alloc: Global,
    all: &mut Vec<Text>,
    names: &[Text],
    answers: &[Arc<Value>],
) -> Result<(), Memory>
    ensures { OnOk result (all.new.items ≡ all.old.items ++ specs.found_below names.now
        (values answers.now)) }
{
    for (i, name) in names.iter().enumerate() {
        if i >= answers.len() {
            return Ok(());
        }
        add_under(alloc, all, name, paths_of(&answers[i]))?;
    }
    Ok(())
}

// Adds the paths that the answers of a glob's globs have.
fn add_found(
    alloc: Global,
    all: &mut Vec<Text>,
    pattern: &str,
    names: &[Text],
    answers: &[Arc<Value>],
) -> Result<(), Memory>
    ensures { OnOk result (all.new.items ≡ all.old.items ++ specs.found_by pattern.now names.now
        (values answers.now)) }
{
    if !continues_here(pattern) {
        return add_below(alloc, all, names, answers);
    }
    match answers.split_first() {
        None => Ok(()),
        Some((own, answers)) => {
            add_all(all, paths_of(own))?;
            add_below(alloc, all, names, answers)
        }
    }
}

// Returns what comes after the look-ups, from the subdirectories that are not packages and those that the pattern
// descends into.
fn after_lookups(
    alloc: Global,
    search: Search<'_>,
    files: &[Text],
    free: &[Text],
    names: &[Text],
    answers: &[Arc<Value>],
) -> Result<DirectoryTurn, Memory>
    ensures { IfOk result
        (IsReply (specs.after_lookups search.entry.directory.now search.entry.directories
        search.entry.pattern.now files.now free.now names.now (values answers.now))) }
{
    if awaits_globs(search, names, answers) {
        return Ok(DirectoryTurn::Ask(globs(alloc, search, names)?));
    }
    let mut all = own_found(alloc, search, files, free)?;
    add_found(alloc, &mut all, search.pattern, names, answers)?;
    let paths = in_order(alloc, all.as_slice())?;
    Ok(DirectoryTurn::Done(Value::Paths(Paths::new(alloc, paths)?)))
}

// Returns what comes after the look-ups, from the subdirectories that are not packages. Without directories the pattern
// descends into all of them.
fn by_open(
    alloc: Global,
    search: Search<'_>,
    files: &[Text],
    free: &[Text],
    answers: &[Arc<Value>],
) -> Result<DirectoryTurn, Memory>
    ensures { IfOk result
        (IsReply (specs.by_open search.entry.directory.now search.entry.directories
        search.entry.pattern.now files.now free.now (values answers.now))) }
{
    if !search.directories {
        return after_lookups(alloc, search, files, free, free, answers);
    }
    let names = all_entered(alloc, search.pattern, free)?;
    after_lookups(alloc, search, files, free, names.as_slice(), answers)
}

// Returns what comes after the listing, from the names of the files and the subdirectories that are asked for.
fn after_listing(
    alloc: Global,
    search: Search<'_>,
    files: &[Text],
    names: &[Text],
    answers: &[Arc<Value>],
) -> Result<DirectoryTurn, Memory>
    ensures { IfOk result
        (IsReply (specs.after_listing search.entry.directory.now search.entry.directories
        search.entry.pattern.now files.now names.now (values answers.now))) }
{
    if answers.len() < names.len() {
        return Ok(DirectoryTurn::Ask(lookups(alloc, search.directory, names)?));
    }
    let free = open_names(alloc, names, answers)?;
    by_open(
        alloc,
        search,
        files,
        free.as_slice(),
        &answers[names.len()..],
    )
}

// Returns those of the files in a listing that a pattern has to look at. They may have been found by their marks.
fn possible_files<'a>(
    pattern: &str,
    listing: &'a Value,
    in_order: bool,
    marked: &'a Option<Vec<Text>>,
) -> &'a [Text]
    requires ordered { in_order ≡ true → ascend (specs.files_in listing.now) ≡ true }
    requires same { IfSome marked.now (λ v. specs.own_names pattern.now v.items ≡ specs.own_names
        pattern.now (specs.files_in listing.now)) }
    ensures { specs.own_names pattern.now result.now ≡ specs.own_names pattern.now
        (specs.files_in listing.now) }
{
    match marked {
        Some(files) => files.as_slice(),
        None => possible_names(pattern, files_in(listing), in_order),
    }
}

// Returns what comes after a listing, of whose names only those are looked at that the pattern can match.
fn by_listing(
    alloc: Global,
    search: Search<'_>,
    listing: &Value,
    answers: &[Arc<Value>],
) -> Result<DirectoryTurn, Memory>
    ensures { IfOk result
        (IsReply (specs.after_listing search.entry.directory.now search.entry.directories
        search.entry.pattern.now (specs.files_in listing.now)
        (specs.asked_names search.entry.directories search.entry.pattern.now
        (specs.directories_in listing.now)) (values answers.now))) }
{
    let ordered = are_in_order(listing);
    let directories = possible_names(search.pattern, directories_in(listing), ordered);
    let names = asked_names(alloc, search, directories)?;
    let marked = marked_files(alloc, search.pattern, listing)?;
    let files = possible_files(search.pattern, listing, ordered, &marked);
    after_listing(alloc, search, files, names.as_slice(), answers)
}

/// Returns what a glob asks for or ends with.
pub fn glob(
    alloc: Global,
    search: Search<'_>,
    answers: &[Arc<Value>],
) -> Result<DirectoryTurn, Memory>
    ensures { IfOk result
        (IsReply (specs.step search.entry.directory.now search.entry.directories
        search.entry.pattern.now (values answers.now))) }
{
    match answers.split_first() {
        None => {
            let listing = Key::Listing(Text::new(alloc, search.directory)?);
            Ok(DirectoryTurn::Ask(vec![in alloc; listing]?))
        }
        Some((listing, answers)) => by_listing(alloc, search, listing, answers),
    }
}
