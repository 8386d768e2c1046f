//! The turns of the node of package names.
ghost use Rattle.std.specs.Prelude.{◌≡◌, ◌++◌, IfOk, OnOk};
ghost use Rattle.keys.specs.Turns.{values};
ghost use Rattle.functions_directories.specs.Globs as walks_specs;
ghost use Rattle.functions_directories.specs.Replies.{IsReply};
ghost use Rattle.functions_directories.specs.Turns as specs;

use crate::{DirectoryTurn, directories_in, has_build, in_order, path_in};
use base_types::{Memory, Text};
use keys::{Key, Paths, Value};
use std::alloc::Global;
use std::sync::Arc;

// Returns the look-up and the listing of the directory.
fn first_group(alloc: Global, directory: &Text) -> Result<Vec<Key>, Memory>
    ensures { IfOk result (λ g. g.items ≡ specs.first_group directory.now) }
{
    let lookup = Key::Lookup(directory.share()?);
    let listing = Key::Listing(directory.share()?);
    Ok(vec![in alloc; lookup, listing]?)
}

// Returns the keys of the names at and below each subdirectory.
fn keys_below(alloc: Global, directory: &Text, names: &[Text]) -> Result<Vec<Key>, Memory>
    ensures { IfOk result (λ g. g.items ≡ specs.keys_below directory.now names.now) }
{
    let mut group = Vec::new(alloc);
    for name in names {
        let path = path_in(alloc, directory.as_str(), name.as_str())?;
        group.push(Key::Under(Text::new(alloc, path.as_str())?))?;
    }
    Ok(group)
}

// Returns the names that an answer has.
fn names_of(answer: &Value) -> &[Text]
    ensures { result.now ≡ walks_specs.paths_of answer.now }
{
    match answer {
        Value::Paths(names) => names.as_slice(),
        _ => &[],
    }
}

// Returns the directory's own name, if it is a package.
fn own_name(alloc: Global, directory: &Text, lookup: &Value) -> Result<Vec<Text>, Memory>
    ensures { IfOk result (λ v. v.items ≡ specs.own_name directory.now lookup.now) }
{
    let mut all = Vec::new(alloc);
    if has_build(lookup) {
        all.push(directory.share()?)?;
    }
    Ok(all)
}

// Adds names, shared.
fn add_names(all: &mut Vec<Text>, names: &[Text]) -> Result<(), Memory>
    ensures { OnOk result (all.new.items ≡ all.old.items ++ names.now) }
{
    for name in names {
        all.push(name.share()?)?;
    }
    Ok(())
}

// Adds the names that the answers have.
fn add_answers(all: &mut Vec<Text>, answers: &[Arc<Value>]) -> Result<(), Memory>
    ensures { OnOk result (all.new.items ≡ all.old.items ++ specs.names_in (values answers.now)) }
{
    for answer in answers {
        add_names(all, names_of(answer))?;
    }
    Ok(())
}

// Returns what comes after the first group.
fn after_listing(
    alloc: Global,
    directory: &Text,
    lookup: &Value,
    names: &[Text],
    answers: &[Arc<Value>],
) -> Result<DirectoryTurn, Memory>
    ensures { IfOk result
        (IsReply (specs.after_listing directory.now lookup.now names.now (values answers.now))) }
{
    if answers.len() < names.len() {
        return Ok(DirectoryTurn::Ask(keys_below(alloc, directory, names)?));
    }
    let mut all = own_name(alloc, directory, lookup)?;
    add_answers(&mut all, answers)?;
    let names = in_order(alloc, all.as_slice())?;
    Ok(DirectoryTurn::Done(Value::Paths(Paths::new(alloc, names)?)))
}

/// Returns what the node of the packages at and below a directory asks for or ends with.
pub fn package_names(
    alloc: Global,
    directory: &Text,
    answers: &[Arc<Value>],
) -> Result<DirectoryTurn, Memory>
    ensures { IfOk result (IsReply (specs.next directory.now (values answers.now))) }
{
    if answers.len() < 2 {
        return Ok(DirectoryTurn::Ask(first_group(alloc, directory)?));
    }
    let names = in_order(alloc, directories_in(&answers[1]))?;
    after_listing(
        alloc,
        directory,
        &answers[0],
        names.as_slice(),
        &answers[2..],
    )
}
