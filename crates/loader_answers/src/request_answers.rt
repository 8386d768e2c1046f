//! What requests ask for, and the replies to them: packages and modules as JSON.
ghost use Rattle.std.specs.Prelude.{◌≡◌, ◌∷◌, ◌++◌, [], ℕ, List, map, Option, Some, None, IfOk, OnOk, option_map, string_bytes};
ghost use Rattle.filetree.specs.Files.{Files};
ghost use Rattle.keys.specs.declared.value.BuildName.{BuildName};
ghost use Rattle.keys.specs.declared.key.Key.TheVariants as keys;
ghost use Rattle.keys.specs.declared.value.Value.TheVariants as values;
ghost use Rattle.node.specs.Graphs.{record_at, present};
ghost use Rattle.serde_json.specs.Written.{compact_text};
ghost use Rattle.std.specs.Arc.{arc_value};
ghost use Rattle.filetree.specs.Lawful.{HasPaths};
ghost use Rattle.keys.specs.declared.key.Key.{Key};
ghost use Rattle.loader_replies.specs.Answers.{packages_data};
ghost use Rattle.loader_replies.specs.Tokens.{tokens_of};
ghost use Rattle.loader_commands.specs.View.{request_seen, texts_seen};
ghost use Rattle.loader_commands.specs.Refusals.{request_refusal, module_label};
ghost use Rattle.loader_answers.specs.Answers as answers;
ghost use Rattle.loader_answers.specs.Effects as effects;
ghost use Rattle.loader_answers.specs.Effects.{AreSettled, request_roots, reply_roots, module_roots, package_roots};
ghost use Rattle.loader_answers.specs.KeyAnswers.{package_reply, module_reply};

use crate::replies::build_text;
use base_types::{Memory, Text};
use keys::{BuildName, Key, Value};
use loader_commands::{Request, module_label};
use loader_replies::{
    JsonWriter, begin_packages, end_packages, write_cyclic_module, write_cyclic_package,
    write_exports, write_faulty_module, write_faulty_package, write_package,
};
use node::Graph;
use std::alloc::Global;
use std::sync::Arc;

/// Returns the key of each package.
pub fn package_keys(alloc: Global, names: &[&str]) -> Result<Vec<Key>, Memory>
    ensures { IfOk result (λ roots. roots.items ≡ map (λ name. keys.Package name)
        (texts_seen names.now)) }
{
    let mut roots = Vec::new(alloc);
    for name in names {
        roots.push(Key::Package(Text::new(alloc, name)?))?;
    }
    Ok(roots)
}

// Returns the key of a module, if a label names one.
fn module_keys(alloc: Global, label: &str) -> Result<Vec<Key>, Memory>
    ensures { IfOk result (λ keys. keys.items ≡ module_roots (module_label label.now)) }
{
    let mut roots = Vec::new(alloc);
    if let Some(label) = module_label(alloc, label)? {
        roots.push(Key::Module(label.text().share()?))?;
    }
    Ok(roots)
}

/// Returns the keys that a request asks for.
pub fn roots_of(alloc: Global, request: &Request<'_>) -> Result<Vec<Key>, Memory>
    ensures { IfOk result (λ keys. keys.items ≡ request_roots (request_seen request.now)) }
{
    match request {
        Request::Find(name) => {
            let mut roots = Vec::new(alloc);
            roots.push(Key::Lookup(Text::new(alloc, name)?))?;
            Ok(roots)
        }
        Request::Load(names) => package_keys(alloc, names.as_slice()),
        Request::Module(label) => module_keys(alloc, label),
        Request::Under(directory) => {
            let mut roots = Vec::new(alloc);
            roots.push(Key::Under(Text::new(alloc, directory)?))?;
            Ok(roots)
        }
    }
}

/// Returns the keys that a request asks for next, by the value of its first key. For a directory they are the keys of
/// all packages at and below it. Other requests ask for no more.
pub fn later_roots(
    alloc: Global,
    graph: &Graph,
    request: &Request<'_>,
    roots: &[Key],
) -> Result<Option<Vec<Key>>, Memory>
    ensures { IfOk result (λ found. (files : Files) → HasPaths files → roots.now ≡ request_roots
        (request_seen request.now) → AreSettled files roots.now graph.now
        → option_map (λ keys. keys.items) found ≡ effects.later_roots (request_seen request.now)
        files) }
{
    match request {
        Request::Find(_) => Ok(None),
        Request::Load(_) => Ok(None),
        Request::Module(_) => Ok(None),
        Request::Under(_) => {
            let keys = named_keys(alloc, names_held(graph, roots))?;
            Ok(Some(keys))
        }
    }
}

// Returns the key of each package.
fn named_keys(alloc: Global, names: &[Text]) -> Result<Vec<Key>, Memory>
    ensures { IfOk result (λ roots. roots.items ≡ package_roots names.now) }
{
    let mut roots = Vec::new(alloc);
    for name in names {
        roots.push(Key::Package(name.share()?))?;
    }
    Ok(roots)
}

// Returns the names that the first of these keys has as its value in the graph.
fn names_held<'a>(graph: &'a Graph, roots: &[Key]) -> &'a [Text]
    ensures { (directory : List ℕ) (names : List (List ℕ)) → roots.now ≡ keys.Under directory ∷ []
        → present (record_at graph.now (keys.Under directory)) ≡ Some (values.Paths names)
        → result.now ≡ names }
{
    match roots.first() {
        Some(root) => held_names(graph.get(root)),
        None => &[],
    }
}

// Returns the names that a value has.
fn held_names(value: Option<&Arc<Value>>) -> &[Text]
    ensures { (names : List (List ℕ)) → option_map (λ v. arc_value v.now) value.entry
        ≡ Some (values.Paths names) → result.now ≡ names }
{
    match value {
        None => &[],
        Some(value) => match &**value {
            Value::Paths(names) => names.as_slice(),
            _ => &[],
        },
    }
}

/// Returns the text of the reply to a request that is not refused, from the values of its keys in the graph.
pub fn reply_text(
    alloc: Global,
    graph: &Graph,
    request: &Request<'_>,
    roots: &[Key],
) -> Result<String, Memory>
    ensures { IfOk result (λ text. (files : Files) → HasPaths files
        → request_refusal (request_seen request.now) ≡ None → roots.now ≡ reply_roots
        (request_seen request.now) files → AreSettled files roots.now graph.now
        → answers.Tells (answers.IsValueOf (request_seen request.now) files) (string_bytes text)) }
{
    match request {
        Request::Find(_) => build_text(alloc, found_by(graph, roots)),
        Request::Load(_) => packages_text(alloc, graph, roots),
        Request::Module(_) => module_text(alloc, graph, roots),
        Request::Under(_) => packages_text(alloc, graph, roots),
    }
}

// Returns the text of the packages of these keys.
fn packages_text(alloc: Global, graph: &Graph, roots: &[Key]) -> Result<String, Memory>
    ensures { IfOk result
        (λ text. string_bytes text ≡ compact_text
        (packages_data (map (λ k. package_reply k (present (record_at graph.now k))) roots.now))) }
{
    let mut out = JsonWriter::new(alloc);
    write_packages(alloc, &mut out, graph, roots)?;
    Ok(out.into_text())
}

// Writes the packages of these keys.
fn write_packages(
    alloc: Global,
    out: &mut JsonWriter,
    graph: &Graph,
    roots: &[Key],
) -> Result<(), Memory>
    ensures { OnOk result
        (out.new ≡ out.old ++ tokens_of
        (packages_data (map (λ k. package_reply k (present (record_at graph.now k))) roots.now))) }
{
    begin_packages(out)?;
    for root in roots {
        write_package_of(alloc, out, graph, root)?;
    }
    end_packages(out)
}

/// Writes the package of a key.
pub fn write_package_of(
    alloc: Global,
    out: &mut JsonWriter,
    graph: &Graph,
    key: &Key,
) -> Result<(), Memory>
    ensures { OnOk result
        (out.new ≡ out.old ++ tokens_of
        (package_reply key.now (present (record_at graph.now key.now)))) }
{
    match graph.get(key) {
        Some(value) => write_package_value(alloc, out, key.name(), value),
        None => out.null(),
    }
}

// Returns the text of the module of the first of these keys.
fn module_text(alloc: Global, graph: &Graph, roots: &[Key]) -> Result<String, Memory>
    ensures { IfOk result (λ text. (k : Key) → roots.now ≡ k ∷ [] → string_bytes text ≡ compact_text
        (module_reply (present (record_at graph.now k)))) }
{
    let mut out = JsonWriter::new(alloc);
    write_first_module(alloc, &mut out, graph, roots)?;
    Ok(out.into_text())
}

// Writes the module of the first of these keys.
fn write_first_module(
    alloc: Global,
    out: &mut JsonWriter,
    graph: &Graph,
    roots: &[Key],
) -> Result<(), Memory>
    ensures { OnOk result ((k : Key) → roots.now ≡ k ∷ [] → out.new ≡ out.old ++ tokens_of
        (module_reply (present (record_at graph.now k)))) }
{
    match roots.first() {
        Some(root) => write_module_held(alloc, out, graph, root),
        None => out.null(),
    }
}

// Writes the module of a key.
fn write_module_held(
    alloc: Global,
    out: &mut JsonWriter,
    graph: &Graph,
    key: &Key,
) -> Result<(), Memory>
    ensures { OnOk result
        (out.new ≡ out.old ++ tokens_of (module_reply (present (record_at graph.now key.now)))) }
{
    match graph.get(key) {
        Some(value) => write_module_shown(alloc, out, value),
        None => out.null(),
    }
}

// Returns the build file that the look-up of the first of these keys found.
fn found_by(graph: &Graph, roots: &[Key]) -> Option<BuildName>
    ensures { (name : List ℕ) (found : Option BuildName) → roots.now ≡ keys.Lookup name ∷ []
        → present (record_at graph.now (keys.Lookup name)) ≡ Some (values.Lookup found)
        → result ≡ found }
{
    held_build(graph.get(roots.first()?))
}

// Returns the build file that the value of a look-up has.
fn held_build(value: Option<&Arc<Value>>) -> Option<BuildName>
    ensures { (found : Option BuildName) → option_map (λ v. arc_value v.now) value.entry
        ≡ Some (values.Lookup found) → result ≡ found }
{
    match &**value? {
        Value::Lookup(found) => *found,
        _ => None,
    }
}

/// Writes a package, or its fault, or the cycle to which its loads lead, from the value of its node.
pub fn write_package_value(
    alloc: Global,
    out: &mut JsonWriter,
    name: &Text,
    value: &Value,
) -> Result<(), Memory>
    ensures { OnOk result
        (out.new ≡ out.old ++ tokens_of (answers.package_shown name.now value.now)) }
{
    match value {
        Value::Package(targets) => write_package(alloc, out, name.as_str(), targets),
        Value::Fault(found) => {
            write_faulty_package(out, name.as_str(), found.code, &found.path, found.line)
        }
        Value::Cycle(labels) => write_cyclic_package(out, name.as_str(), labels.as_slice()),
        Value::File(_) => out.null(),
        Value::Listing(_) => out.null(),
        Value::Lookup(_) => out.null(),
        Value::Paths(_) => out.null(),
        Value::Module(_) => out.null(),
    }
}

/// Writes a module, or its fault, or the cycle to which its loads lead, from the value of its node.
pub fn write_module_shown(alloc: Global, out: &mut JsonWriter, value: &Value) -> Result<(), Memory>
    ensures { OnOk result (out.new ≡ out.old ++ tokens_of (answers.module_shown value.now)) }
{
    match value {
        Value::Module(loaded) => write_exports(alloc, out, loaded.body()),
        Value::Fault(found) => write_faulty_module(out, found.code, &found.path, found.line),
        Value::Cycle(labels) => write_cyclic_module(out, labels.as_slice()),
        Value::File(_) => out.null(),
        Value::Listing(_) => out.null(),
        Value::Lookup(_) => out.null(),
        Value::Paths(_) => out.null(),
        Value::Package(_) => out.null(),
    }
}
