//! How a line is read as a command, and the first refusal of a request, before anything is evaluated.
ghost use Rattle.std.specs.Prelude.{◌≡◌, IfOk, option_map, Some, None, if◌then◌else◌};
ghost use Rattle.serde_json.specs.View.{view, items_view};
ghost use Rattle.labels.specs.Paths.{is_package_name};
ghost use Rattle.loader_commands.specs.Commands as commands;
ghost use Rattle.loader_commands.specs.View.{command_seen, texts_seen, request_seen};
ghost use Rattle.loader_commands.specs.Refusals as refusals;
ghost use Rattle.filetree.specs.declared.refusals.TheConstants.{BAD_NAME};
ghost use Rattle.filetree.specs.ChangeView.{change_seen, changes_seen};

use crate::command::{Command, Edit, Request};
use base_types::Memory;
use filetree::Change;
use filetree::refusals::{BAD_NAME, NAMES_COUNT};
use labels::{BadLabel, Label, is_package_name};
use serde_json::Value;
use std::alloc::Global;

/// Returns the JSON of a line, if it is JSON.
pub fn data_of(alloc: Global, line: &[u8]) -> Result<Option<Value>, Memory>
    ensures { IfOk result (λ found. option_map view found ≡ commands.data_of line.now) }
{
    match Value::from_slice(alloc, line) {
        Ok(value) => Ok(Some(value)),
        Err(error) => {
            if error.is_memory() {
                Err(Memory::told_by_library())
            } else {
                Ok(None)
            }
        }
    }
}

fn text_at<'a>(value: &'a Value, key: &str) -> Option<&'a str>
    ensures { option_map (λ text. text.now) result ≡ commands.text_at key.now (view value.now) }
{
    value.get(key).and_then(Value::as_str)
}

// Returns the texts of an array, if all its items are texts.
fn texts_of<'a>(alloc: Global, items: &'a [Value]) -> Result<Option<Vec<&'a str>>, Memory>
    ensures { IfOk result (λ found. option_map (λ texts. texts_seen texts.items) found
        ≡ commands.texts_of (items_view items.now)) }
{
    let mut all = Vec::new(alloc);
    for item in items {
        match item.as_str() {
            Some(text) => all.push(text)?,
            None => return Ok(None),
        }
    }
    Ok(Some(all))
}

fn texts_at<'a>(alloc: Global, value: &'a Value, key: &str) -> Result<Option<Vec<&'a str>>, Memory>
    ensures { IfOk result (λ found. option_map (λ texts. texts_seen texts.items) found
        ≡ commands.texts_at key.now (view value.now)) }
{
    match value.get(key).and_then(Value::as_array) {
        Some(items) => texts_of(alloc, items.as_slice()),
        None => Ok(None),
    }
}

fn member_count(value: &Value) -> usize
    ensures { result ≡ commands.member_count (view value.now) }
{
    match value.as_object() {
        None => 0,
        Some(members) => members.len(),
    }
}

fn put_in(value: &Value) -> Option<Change<'_>>
    ensures { option_map change_seen result ≡ commands.put_in (view value.now) }
{
    let path = text_at(value, "path")?;
    let text = text_at(value, "text")?;
    Some(Change::Put(path, text))
}

fn del_in(value: &Value) -> Option<Change<'_>>
    ensures { option_map change_seen result ≡ commands.del_in (view value.now) }
{
    let path = text_at(value, "path")?;
    Some(Change::Del(path))
}

// Returns the change with exactly these members, if there is one.
fn change_in(value: &Value) -> Option<Change<'_>>
    ensures { option_map change_seen result ≡ commands.change_in (view value.now) }
{
    let op = text_at(value, "op")?;
    let count = member_count(value);
    if op == "put" && count == 3 {
        return put_in(value);
    }
    if op == "del" && count == 2 {
        return del_in(value);
    }
    None
}

// Returns the command that makes a change, if there is one.
fn change_command(change: Option<Change<'_>>) -> Option<Command<'_>>
    ensures { option_map command_seen result ≡ option_map commands.one_change
        (option_map change_seen change.entry) }
{
    match change? {
        Change::Put(path, text) => Some(Command::Change(Edit::Put(path, text))),
        Change::Del(path) => Some(Command::Change(Edit::Del(path))),
    }
}

// Returns the changes of an array, if all its items are changes.
fn changes_in(alloc: Global, items: &[Value]) -> Result<Option<Vec<Change<'_>>>, Memory>
    ensures { IfOk result (λ found. option_map (λ changes. changes_seen changes.items) found
        ≡ commands.changes_in (items_view items.now)) }
{
    let mut all = Vec::new(alloc);
    for item in items {
        match change_in(item) {
            Some(change) => all.push(change)?,
            None => return Ok(None),
        }
    }
    Ok(Some(all))
}

fn edits_in(alloc: Global, value: &Value) -> Result<Option<Command<'_>>, Memory>
    ensures { IfOk result (λ found. option_map command_seen found ≡ commands.edits_in
        (view value.now)) }
{
    let Some(items) = value.get("edits").and_then(Value::as_array) else {
        return Ok(None);
    };
    match changes_in(alloc, items.as_slice())? {
        Some(changes) => Ok(Some(Command::Change(Edit::Batch(changes)))),
        None => Ok(None),
    }
}

fn find_in(value: &Value) -> Option<Command<'_>>
    ensures { option_map command_seen result ≡ commands.find_in (view value.now) }
{
    let name = text_at(value, "name")?;
    Some(Command::Ask(Request::Find(name)))
}

fn load_in(alloc: Global, value: &Value) -> Result<Option<Command<'_>>, Memory>
    ensures { IfOk result (λ found. option_map command_seen found ≡ commands.load_in
        (view value.now)) }
{
    match texts_at(alloc, value, "names")? {
        Some(names) => Ok(Some(Command::Ask(Request::Load(names)))),
        None => Ok(None),
    }
}

fn module_in(value: &Value) -> Option<Command<'_>>
    ensures { option_map command_seen result ≡ commands.module_in (view value.now) }
{
    let label = text_at(value, "label")?;
    Some(Command::Ask(Request::Module(label)))
}

fn under_in(value: &Value) -> Option<Command<'_>>
    ensures { option_map command_seen result ≡ commands.under_in (view value.now) }
{
    let directory = text_at(value, "dir")?;
    Some(Command::Ask(Request::Under(directory)))
}

/// Returns the command with exactly these members, if there is one.
pub fn command_of(alloc: Global, value: &Value) -> Result<Option<Command<'_>>, Memory>
    ensures { IfOk result (λ found. option_map command_seen found ≡ commands.command_of
        (view value.now)) }
{
    let Some(op) = text_at(value, "op") else {
        return Ok(None);
    };
    let count = member_count(value);
    if op == "put" && count == 3 {
        return Ok(change_command(put_in(value)));
    }
    if op == "del" && count == 2 {
        return Ok(change_command(del_in(value)));
    }
    if op == "edit" && count == 2 {
        return edits_in(alloc, value);
    }
    if op == "find" && count == 2 {
        return Ok(find_in(value));
    }
    if op == "load" && count == 2 {
        return load_in(alloc, value);
    }
    if op == "module" && count == 2 {
        return Ok(module_in(value));
    }
    if op == "under" && count == 2 {
        return Ok(under_in(value));
    }
    Ok(None)
}

// The most packages that one request may ask for.
const MOST_NAMES: usize = 256;

// Returns 5 for a text that is not a package name.
fn name_refusal(name: &str) -> Option<u64>
    ensures { result ≡ (if is_package_name name.now then None else Some BAD_NAME) }
{
    if is_package_name(name) {
        None
    } else {
        Some(BAD_NAME)
    }
}

// Returns why packages of these names are not loaded: 9 if there are not 1 to 256, else 5 if one is not a package name.
fn load_refusal(names: &[&str]) -> Option<u64>
    ensures { result ≡ refusals.load_refusal (texts_seen names.now) }
{
    if names.is_empty() || names.len() > MOST_NAMES {
        return Some(NAMES_COUNT);
    }
    for name in names {
        if !is_package_name(name) {
            return Some(BAD_NAME);
        }
    }
    None
}

/// Returns the label of a module from a text that begins with `//`. A request by another text is refused with 5.
pub fn module_label(alloc: Global, text: &str) -> Result<Option<Label>, Memory>
    ensures { IfOk result (λ found. found ≡ refusals.module_label text.now) }
{
    if !text.starts_with("//") {
        return Ok(None);
    }
    match Label::read(alloc, text, "") {
        Ok(label) => {
            if label.is_module() {
                Ok(Some(label))
            } else {
                Ok(None)
            }
        }
        Err(BadLabel::Code15) => Ok(None),
        Err(BadLabel::Memory(error)) => Err(error),
    }
}

/// Returns the first refusal of a request. For names it is 9 if there are not 1 to 256, then 5 for one that is not a
/// package name. It is 5 for a label that does not begin with `//`, or is not a module's. It is also 5 for the name of
/// a directory that cannot be a package's name.
pub fn refusal(alloc: Global, request: &Request<'_>) -> Result<Option<u64>, Memory>
    ensures { IfOk result (λ n. n ≡ refusals.request_refusal (request_seen request.now)) }
{
    match request {
        Request::Find(name) => Ok(name_refusal(name)),
        Request::Load(names) => Ok(load_refusal(names.as_slice())),
        Request::Module(text) => match module_label(alloc, text)? {
            Some(_) => Ok(None),
            None => Ok(Some(BAD_NAME)),
        },
        Request::Under(directory) => Ok(name_refusal(directory)),
    }
}
