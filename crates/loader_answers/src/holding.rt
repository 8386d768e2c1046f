//! Which packages have changed since a version, by the values that a graph has of them.
ghost use Rattle.std.specs.Prelude.{◌≡◌, IfOk, map};
ghost use Rattle.loader_commands.specs.View.{texts_seen};
ghost use Rattle.keys.specs.Keys.{name_of};
ghost use Rattle.loader_answers.specs.Holding as specs;

use crate::request_answers::package_keys;
use base_types::{Memory, Text};
use keys::Key;
use node::Graph;
use std::alloc::Global;

/// Which of some packages have changed since a version.
#[derive(Drop)]
pub struct Changes {
    /// The names of the packages whose value is known and has changed after the version, in the order in which they
    /// were asked for.
    pub changed: Vec<Text>,
    /// The names of the packages of which no value is known, in the order in which they were asked for: they were never
    /// loaded, or an edit since then may have changed them. A request for them gives their values.
    pub unknown: Vec<Text>,
}

// Returns whether a key has a value in the graph.
fn is_held(graph: &Graph, key: &Key) -> bool
    ensures { result ≡ specs.is_held graph.now key.now }
{
    graph.get(key).is_some()
}

// Returns whether a key has a value in the graph that has changed after a version.
fn has_changed(graph: &Graph, key: &Key, version: u32) -> bool
    ensures { result ≡ specs.has_changed graph.now version key.now }
{
    if !is_held(graph, key) {
        return false;
    }
    match graph.changed_at(key) {
        None => false,
        Some(changed) => version < changed,
    }
}

// Returns those of these keys that have a value in the graph which has changed after a version.
fn changed_keys(
    alloc: Global,
    graph: &Graph,
    keys: &[Key],
    version: u32,
) -> Result<Vec<Key>, Memory>
    ensures { IfOk result
        (λ changed. changed.items ≡ specs.changed_keys graph.now version keys.now) }
{
    let mut changed = Vec::new(alloc);
    for key in keys {
        if has_changed(graph, key, version) {
            changed.push(key.share()?)?;
        }
    }
    Ok(changed)
}

// Returns those of these keys that have no value in the graph.
fn unknown_keys(alloc: Global, graph: &Graph, keys: &[Key]) -> Result<Vec<Key>, Memory>
    ensures { IfOk result (λ unknown. unknown.items ≡ specs.unknown_keys graph.now keys.now) }
{
    let mut unknown = Vec::new(alloc);
    for key in keys {
        if !is_held(graph, key) {
            unknown.push(key.share()?)?;
        }
    }
    Ok(unknown)
}

// Returns the names of keys.
fn names_of(alloc: Global, keys: &[Key]) -> Result<Vec<Text>, Memory>
    ensures { IfOk result (λ names. names.items ≡ map name_of keys.now) }
{
    let mut names = Vec::new(alloc);
    for key in keys {
        names.push(key.name().share()?)?;
    }
    Ok(names)
}

/// Returns the names of those packages that have a value in the graph which has changed after a version.
pub fn changed_names(
    alloc: Global,
    graph: &Graph,
    names: &[&str],
    version: u32,
) -> Result<Vec<Text>, Memory>
    ensures { IfOk result
        (λ changed. changed.items ≡ specs.changed_names graph.now version (texts_seen names.now)) }
{
    let keys = package_keys(alloc, names)?;
    let changed = changed_keys(alloc, graph, keys.as_slice(), version)?;
    let told = names_of(alloc, changed.as_slice())?;
    Ok(told)
}

/// Returns the names of those packages that have no value in the graph.
pub fn unknown_names(alloc: Global, graph: &Graph, names: &[&str]) -> Result<Vec<Text>, Memory>
    ensures { IfOk result
        (λ unknown. unknown.items ≡ specs.unknown_names graph.now (texts_seen names.now)) }
{
    let keys = package_keys(alloc, names)?;
    let unknown = unknown_keys(alloc, graph, keys.as_slice())?;
    let told = names_of(alloc, unknown.as_slice())?;
    Ok(told)
}
