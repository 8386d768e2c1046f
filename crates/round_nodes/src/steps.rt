//! One step of the table of open nodes.
ghost use Rattle.std.specs.Prelude.{◌≡◌, [], OnOk, IfOk, Some, None};
ghost use Rattle.keys.specs.declared.key.Key.{Key};
ghost use Rattle.node.specs.Edges.{IsRemoved};
ghost use Rattle.node.specs.Records.{items_of};
ghost use Rattle.round_nodes.specs.Nodes.{node_at, groups_of, pending};
ghost use Rattle.round_nodes.specs.Steps.{HasEntered, HasPhase, SameRuns, Pends, Readies, HasWatcher, HasLeft, HasNoted, HasAsked};
ghost use Rattle.round_nodes.specs.declared.table.Node.{Node};
ghost use Rattle.round_nodes.specs.declared.table.Phase.TheVariants as phase;

use crate::ready::ReadySet;
use crate::run::Run;
use crate::table::{Node, Nodes, OpenNodes, Phase};
use base_types::Memory;
use indexmap::IndexMap;
use keys::Key;
use std::alloc::Global;

impl OpenNodes {
    /// Makes a table in which nothing is opened yet.
    pub fn new(alloc: Global) -> OpenNodes
        ensures nodes { result.nodes.entries ≡ [] }
        ensures ready { result.ready.keys ≡ [] }
        ensures work { pending result ≡ [] }
        ensures runs { result.runs.items ≡ [] }
    {
        OpenNodes {
            nodes: IndexMap::new(alloc),
            ready: ReadySet::new(alloc),
            queue: Vec::new(alloc),
            visited: 0,
            runs: Vec::new(alloc),
        }
    }
}

// Adds a node to the open ones.
fn enter(alloc: Global, nodes: &mut Nodes, key: Key, phase: Phase) -> Result<(), Memory>
    ensures { OnOk result (HasEntered nodes.old nodes.new key phase) }
{
    let node = Node {
        groups: Vec::new(alloc),
        waiters: Vec::new(alloc),
        phase,
    };
    nodes.insert(key, node)?;
    Ok(())
}

/// Adds the node to those that are to be visited, after the others.
pub fn enqueue(table: &mut OpenNodes, key: &Key) -> Result<(), Memory>
    ensures pends { OnOk result (Pends table.old table.new key.now) }
    ensures nodes { table.new.nodes ≡ table.old.nodes }
    ensures looked { OnOk result (table.new.visited ≡ table.old.visited) }
{
    table.queue.push(key.share()?)?;
    Ok(())
}

/// Adds the node to those whose next turn can be handed out.
pub fn put_ready(table: &mut OpenNodes, key: &Key) -> Result<(), Memory>
    ensures readies { OnOk result (Readies table.old table.new key.now) }
    ensures nodes { table.new.nodes ≡ table.old.nodes }
    ensures looked { OnOk result (table.new.visited ≡ table.old.visited) }
{
    table.ready.insert(key.share()?)?;
    Ok(())
}

/// Opens a node whose record is to be checked.
pub fn begin_check(alloc: Global, table: &mut OpenNodes, key: &Key) -> Result<(), Memory>
    ensures pends { OnOk result (Pends table.old table.new key.now) }
    ensures entered { OnOk result (HasEntered table.old.nodes table.new.nodes key.now
        (phase.Checking 0)) }
    ensures looked { OnOk result (table.new.visited ≡ table.old.visited) }
{
    enqueue(table, key)?;
    enter(alloc, &mut table.nodes, key.share()?, Phase::Checking(0))?;
    Ok(())
}

/// Opens a node that needs its first turn.
pub fn begin_run(alloc: Global, table: &mut OpenNodes, key: &Key) -> Result<(), Memory>
    ensures readies { OnOk result (Readies table.old table.new key.now) }
    ensures entered { OnOk result
        (HasEntered table.old.nodes table.new.nodes key.now phase.Running) }
    ensures looked { OnOk result (table.new.visited ≡ table.old.visited) }
{
    put_ready(table, key)?;
    enter(alloc, &mut table.nodes, key.share()?, Phase::Running)?;
    Ok(())
}

// Sets what a node does from now on.
fn set_phase(nodes: &mut Nodes, key: &Key, phase: Phase)
    ensures { HasPhase nodes.old nodes.new key.now phase }
{
    if let Some(node) = nodes.get_mut(key) {
        node.phase = phase;
    }
}

/// Notes how many groups a check has passed, and adds the node to those that are to be visited.
pub fn pass_groups(table: &mut OpenNodes, key: &Key, passed: usize) -> Result<(), Memory>
    ensures pends { OnOk result (Pends table.old table.new key.now) }
    ensures phase { OnOk result (HasPhase table.old.nodes table.new.nodes key.now
        (phase.Checking passed)) }
    ensures looked { OnOk result (table.new.visited ≡ table.old.visited) }
{
    enqueue(table, key)?;
    set_phase(&mut table.nodes, key, Phase::Checking(passed));
    Ok(())
}

/// Makes a node need its first turn, since its check came to a group with a changed member.
pub fn restart(table: &mut OpenNodes, key: &Key) -> Result<(), Memory>
    ensures readies { OnOk result (Readies table.old table.new key.now) }
    ensures phase { OnOk result (HasPhase table.old.nodes table.new.nodes key.now phase.Running) }
    ensures looked { OnOk result (table.new.visited ≡ table.old.visited) }
{
    put_ready(table, key)?;
    set_phase(&mut table.nodes, key, Phase::Running);
    Ok(())
}

// Makes the node wait for the member.
fn add_waiter(nodes: &mut Nodes, member: &Key, key: Key) -> Result<(), Memory>
    ensures { OnOk result (HasWatcher nodes.old nodes.new member.now key) }
{
    if let Some(node) = nodes.get_mut(member) {
        node.waiters.push(key)?;
    }
    Ok(())
}

/// Makes the node wait for the member.
pub fn wait_for(table: &mut OpenNodes, member: &Key, key: &Key) -> Result<(), Memory>
    ensures watches { OnOk result (HasWatcher table.old.nodes table.new.nodes member.now key.now) }
    ensures pends { OnOk result (pending table.new ≡ pending table.old) }
    ensures ready { OnOk result (table.new.ready.keys ≡ table.old.ready.keys) }
    ensures runs { OnOk result (SameRuns table.old table.new) }
    ensures looked { OnOk result (table.new.visited ≡ table.old.visited) }
{
    add_waiter(&mut table.nodes, member, key.share()?)?;
    Ok(())
}

/// Removes the node, so that those that wait for it are visited. Returns the groups that it asked for.
pub fn close_node(alloc: Global, table: &mut OpenNodes, key: &Key) -> Result<Vec<Vec<Key>>, Memory>
    ensures left { OnOk result ((n : Node) → node_at table.old.nodes key.now ≡ Some n
        → HasLeft table.old table.new key.now n) }
    ensures groups { IfOk result (λ groups. (n : Node) → node_at table.old.nodes key.now ≡ Some n
        → items_of groups.items ≡ groups_of n) }
    ensures looked { OnOk result (table.new.visited ≡ table.old.visited) }
{
    match table.nodes.swap_remove(key) {
        None => Ok(Vec::new(alloc)),
        Some(node) => {
            let Node {
                groups,
                waiters: mut watchers,
                phase: _,
            } = node;
            table.queue.append(&mut watchers)?;
            Ok(groups)
        }
    }
}

/// Adds a run to the log.
pub fn log_run(table: &mut OpenNodes, key: &Key, version: u32, turns: u64) -> Result<(), Memory>
    ensures { OnOk result
        (HasNoted table.old table.new
        (record { key = key.now; version = version; turns = turns })) }
{
    table.runs.push(Run {
        key: key.share()?,
        version,
        turns,
    })?;
    Ok(())
}

/// Notes that the node's job is out.
pub fn set_out(table: &mut OpenNodes, key: &Key)
    ensures phase { HasPhase table.old.nodes table.new.nodes key.now phase.Out }
    ensures ready { IsRemoved table.old.ready.keys table.new.ready.keys key.now }
    ensures pends { pending table.new ≡ pending table.old }
    ensures runs { SameRuns table.old table.new }
    ensures looked { table.new.visited ≡ table.old.visited }
{
    table.ready.remove(key);
    set_phase(&mut table.nodes, key, Phase::Out);
}

// Adds a group after those that a node asked for, and lets the node run.
fn add_group(nodes: &mut Nodes, key: &Key, group: Vec<Key>) -> Result<(), Memory>
    ensures { OnOk result (HasAsked nodes.old nodes.new key.now group.items) }
{
    if let Some(node) = nodes.get_mut(key) {
        node.groups.push(group)?;
        node.phase = Phase::Running;
    }
    Ok(())
}

/// Notes that the node's turn asked for the group.
pub fn ask_group(table: &mut OpenNodes, key: &Key, group: Vec<Key>) -> Result<(), Memory>
    ensures pends { OnOk result (Pends table.old table.new key.now) }
    ensures asked { OnOk result (HasAsked table.old.nodes table.new.nodes key.now group.items) }
    ensures looked { OnOk result (table.new.visited ≡ table.old.visited) }
{
    enqueue(table, key)?;
    add_group(&mut table.nodes, key, group)?;
    Ok(())
}
