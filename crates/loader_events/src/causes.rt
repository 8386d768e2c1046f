//! The last run of each node, and what has changed since.
ghost use Rattle.std.specs.Prelude.{◌≡◌, ◌++◌, IfOk, OnOk, []};
ghost use Rattle.std.specs.Option.{option_map};
ghost use Rattle.loader_events.specs.Causes as specs;

use base_types::Memory;
use keys::{Key, is_leaf};
use node::{Graph, Group, Groups};
use round_nodes::Run;
use std::alloc::Global;
use std::collections::BTreeMap;
use std::marker::Model;

// A run: its version, and the members of the groups that its record had then.
#[derive(Drop)]
struct LastRun {
    version: u32,
    members: Vec<Key>,
}

impl Model for LastRun {
    ghost use Rattle.loader_events.specs.Causes.{LastRunView};

    ghost Value = { LastRunView };

    ghost use Rattle.std.specs.Coded.{codes};
    ghost use Rattle.keys.specs.Storage.{loaded_code};

    ghost coded = { Prim.hlevel (codes, loaded_code) };

    ghost view = { λ r. record { version = r.version; members = r.members.items } };
}

/// The last run of each node that is not a leaf.
#[derive(Drop)]
pub(crate) struct LastRuns {
    runs: BTreeMap<Key, LastRun>,
}

// Adds the members of a group.
fn add_group(members: &mut Vec<Key>, group: &Group<'_>) -> Result<(), Memory>
    ensures { OnOk result (members.new.items ≡ members.old.items ++ group.now) }
{
    for i in 0..group.len() {
        members.push(group.member(i).share()?)?;
    }
    Ok(())
}

// Returns the members of groups, in their order.
fn members_in(alloc: Global, groups: &Groups<'_>) -> Result<Vec<Key>, Memory>
    ensures { IfOk result (λ members. members.items ≡ specs.joined groups.now) }
{
    let mut members = Vec::new(alloc);
    for i in 0..groups.len() {
        add_group(&mut members, &groups.group(i))?;
    }
    Ok(members)
}

// Returns the members of the groups of a key's record, in their order.
fn members_of(alloc: Global, graph: &Graph, key: &Key) -> Result<Vec<Key>, Memory>
    ensures { IfOk result (λ members. members.items ≡ specs.members_of graph.now key.now) }
{
    match graph.groups(key) {
        None => Ok(Vec::new(alloc)),
        Some(groups) => members_in(alloc, &groups),
    }
}

// Returns whether the value of a key has changed after a version.
fn has_changed_after(graph: &Graph, key: &Key, version: u32) -> bool
    ensures { result ≡ specs.is_after version (specs.changed_at graph.now key.now) }
{
    match graph.changed_at(key) {
        None => false,
        Some(changed) => version < changed,
    }
}

/// Returns whether the value of a run's key changed at the version of the run.
pub(crate) fn has_changed(graph: &Graph, run: &Run) -> bool
    ensures { result ≡ specs.is_at_version run.now.version
        (specs.changed_at graph.now run.now.key) }
{
    match graph.changed_at(&run.key) {
        None => false,
        Some(changed) => changed == run.version,
    }
}

// Returns those of the members of a run whose value has changed after it.
fn changed_since(alloc: Global, graph: &Graph, last: &LastRun) -> Result<Vec<Key>, Memory>
    ensures { IfOk result (λ keys. keys.items ≡ specs.changed_after graph.now last.now.version
        last.now.members) }
{
    let mut changed = Vec::new(alloc);
    for member in &last.members {
        if has_changed_after(graph, member, last.version) {
            changed.push(member.share()?)?;
        }
    }
    Ok(changed)
}

impl LastRuns {
    /// Makes a record in which no node has run.
    pub(crate) fn new(alloc: Global) -> LastRuns
        ensures { result.runs.entries ≡ [] }
    {
        LastRuns {
            runs: BTreeMap::new(alloc),
        }
    }

    /// Returns why a node ran, unless it ran for the first time. A leaf has no causes: it was touched.
    pub(crate) fn causes(
        &self,
        alloc: Global,
        graph: &Graph,
        key: &Key,
    ) -> Result<Option<Vec<Key>>, Memory>
        ensures { IfOk result (λ causes. option_map (λ v. v.items) causes
            ≡ specs.causes_of graph.now self.now.runs.entries key.now) }
    {
        if is_leaf(key) {
            return Ok(Some(Vec::new(alloc)));
        }
        match self.runs.get(key) {
            None => Ok(None),
            Some(last) => Ok(Some(changed_since(alloc, graph, last)?)),
        }
    }

    // Keeps a run.
    fn keep(&mut self, alloc: Global, graph: &Graph, run: &Run) -> Result<(), Memory>
        ensures { OnOk result (self.new.runs.entries
            ≡ specs.kept_after_run graph.now run.now self.old.runs.entries) }
    {
        if is_leaf(&run.key) {
            return Ok(());
        }
        let last = LastRun {
            version: run.version,
            members: members_of(alloc, graph, &run.key)?,
        };
        self.runs.insert(run.key.share()?, last)?;
        Ok(())
    }

    /// Keeps these runs, each with the groups that its record has.
    pub(crate) fn keep_all(
        &mut self,
        alloc: Global,
        graph: &Graph,
        runs: &[Run],
    ) -> Result<(), Memory>
        ensures { OnOk result (self.new.runs.entries
            ≡ specs.kept_after graph.now runs.now self.old.runs.entries) }
    {
        for run in runs {
            self.keep(alloc, graph, run)?;
        }
        Ok(())
    }
}
