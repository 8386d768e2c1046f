//! The node function of a look-up.
ghost use Rattle.std.specs.Prelude.{◌≡◌, IfOk};
ghost use Rattle.keys.specs.Turns.{values};
ghost use Rattle.functions_directories.specs.Lookups as specs;
ghost use Rattle.functions_directories.specs.Replies.{IsReply};

use crate::build_files::{build_path, candidates};
use crate::reply::DirectoryTurn;
use base_types::{Memory, Text};
use keys::{BuildName, Key, Value};
use std::alloc::Global;
use std::sync::Arc;

// Returns the group that a look-up asks for.
fn lookup_group(alloc: Global, directory: &Text) -> Result<Vec<Key>, Memory>
    ensures { IfOk result (λ g. g.items ≡ specs.lookup_group directory.now) }
{
    let names = candidates(directory);
    let mut group = Vec::new(alloc);
    for name in names {
        let path = build_path(alloc, directory, *name)?;
        group.push(Key::File(Text::new(alloc, path.as_str())?))?;
    }
    Ok(group)
}

// Returns whether the answer is a file that exists.
fn is_there(answer: &Value) -> bool
    ensures { result ≡ specs.is_there answer.now }
{
    match answer {
        Value::File(Some(_)) => true,
        _ => false,
    }
}

// Returns the first of the names whose answer is a file.
fn first_there(names: &[BuildName], answers: &[Arc<Value>]) -> Option<BuildName>
    ensures { result ≡ specs.first_there names.now (values answers.now) }
{
    for (i, name) in names.iter().enumerate() {
        if i >= answers.len() {
            return None;
        }
        if is_there(&answers[i]) {
            return Some(*name);
        }
    }
    None
}

/// Returns what a look-up asks for or ends with.
pub fn lookup(
    alloc: Global,
    directory: &Text,
    answers: &[Arc<Value>],
) -> Result<DirectoryTurn, Memory>
    ensures { IfOk result (IsReply (specs.next directory.now (values answers.now))) }
{
    if answers.is_empty() {
        let group = lookup_group(alloc, directory)?;
        if group.is_empty() {
            Ok(DirectoryTurn::Done(Value::Lookup(None)))
        } else {
            Ok(DirectoryTurn::Ask(group))
        }
    } else {
        Ok(DirectoryTurn::Done(Value::Lookup(first_there(candidates(directory), answers))))
    }
}
