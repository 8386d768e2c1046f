//! The nodes that a stall closes.
ghost use Rattle.std.specs.Prelude.{◌≡◌, ◌+◌, ◌∷◌, ◌++◌, [], true, false, IfOk, OnOk, Some, None, take, IsTrue, IsSome, IfSome, IfNone, if◌then◌else◌, ◌↔◌, ◌<◌};
ghost use Rattle.indexmap.specs.IndexMap.{index_map_len, Updates};
ghost use Rattle.std.specs.Option.{is_some};
ghost use Rattle.keys.specs.Keys.{key_eq};
ghost use Rattle.engine_semantics.specs.Graph.{Record};
ghost use Rattle.keys.specs.declared.key.Key.{Key};
ghost use Rattle.keys.specs.declared.value.Value.{Value};
ghost use Rattle.node.specs.Graphs.{record_at};
ghost use Rattle.node.specs.Records.{items_of};
ghost use Rattle.round_nodes.specs.Nodes.{node_at, Holds};
ghost use Rattle.round_nodes.specs.Steps.{HasNoted};
ghost use Rattle.round_nodes.specs.declared.table.OpenNodes.{OpenNodes};
ghost use Rattle.round.specs.Looks.{IsLastGroup};
ghost use Rattle.round.specs.Closing.{ClosesWith, StopsIn, PutsStop, HasTurned, Descends, IsLeast, HasTaken};

use base_types::Memory;
use keys::Key;
use node::{Graph, Group};
use round_nodes::{Node, Nodes, OpenNodes, Phase, first_stop, log_run};
use std::alloc::Global;
use std::collections::BTreeMap;

/// A node that is closed.
#[derive(Drop)]
pub struct Closing {
    /// The node.
    pub key: Key,
    /// Its groups, up to the one that it waits for.
    pub groups: Vec<Vec<Key>>,
}

/// The nodes that are closed, and the member at which each stops.
#[derive(Drop)]
pub struct Stall {
    /// The nodes.
    pub closing: Vec<Closing>,
    /// For each node, the first member of its last group that has no value.
    pub stops: BTreeMap<Key, Key>,
}

// Returns shared copies of a group's members.
fn share_group(alloc: Global, group: &Group) -> Result<Vec<Key>, Memory>
    ensures { IfOk result (λ shared. shared.items ≡ group.now) }
{
    let mut shared = Vec::with_capacity(alloc, group.len())?;
    for i in 0..group.len() {
        shared.push(group.member(i).share()?)?;
    }
    Ok(shared)
}

// Returns the groups of a key's record, up to the one at a place.
fn groups_up_to(alloc: Global, graph: &Graph, key: &Key, at: usize) -> Result<Vec<Vec<Key>>, Memory>
    ensures { IfOk result (λ groups. (r : Record Key Value) → record_at graph.now key.now ≡ Some r
        → items_of groups.items ≡ take (at + 1) r.groups) }
{
    let mut shared = Vec::new(alloc);
    let Some(groups) = graph.groups(key) else {
        return Ok(shared);
    };
    for i in 0..groups.len() {
        if i > at {
            return Ok(shared);
        }
        shared.push(share_group(alloc, &groups.group(i))?)?;
    }
    Ok(shared)
}

// Returns the groups of a node up to the one that it waits for, and whether its turns asked for them.
fn groups_to_close(
    alloc: Global,
    graph: &Graph,
    key: &Key,
    node: Node,
) -> Result<(Vec<Vec<Key>>, bool), Memory>
    ensures groups { IfOk result (λ found. ClosesWith (record_at graph.now) key.now node
        (items_of found.0.items)) }
    ensures turned { IfOk result (λ found. HasTurned node found.1) }
{
    let Node {
        groups,
        waiters: _,
        phase,
    } = node;
    match phase {
        Phase::Checking(at) => Ok((groups_up_to(alloc, graph, key, at)?, false)),
        Phase::Running => Ok((groups, true)),
        Phase::Out => Ok((groups, true)),
    }
}

// Returns the last of some groups, or an empty one.
fn last_of<'a>(groups: &'a [Vec<Key>]) -> &'a [Key]
    ensures { IsLastGroup (items_of groups.now) result.now }
{
    match groups.last() {
        None => &[],
        Some(group) => group.as_slice(),
    }
}

// Returns the first member of the last group that has no value, or that is settled as a cycle.
fn stop_in(graph: &Graph, groups: &[Vec<Key>]) -> Result<Option<Key>, Memory>
    ensures { IfOk result (StopsIn (record_at graph.now) (items_of groups.now)) }
{
    match first_stop(graph, last_of(groups)) {
        None => Ok(None),
        Some(member) => Ok(Some(member.share()?)),
    }
}

// Logs the run of a node that made turns.
fn note_turned(
    table: &mut OpenNodes,
    key: &Key,
    version: u32,
    turned: bool,
    turns: u64,
) -> Result<(), Memory>
    ensures yes { IsTrue turned
        → OnOk result
        (HasNoted table.old table.new
        (record { key = key.now; version = version; turns = turns })) }
    ensures no { turned ≡ false → OnOk result (table.new ≡ table.old) }
{
    if turned {
        log_run(table, key, version, turns)?;
    }
    Ok(())
}

// Puts the member at which a node stops into the map, if there is one.
fn put_stop(stops: &mut BTreeMap<Key, Key>, key: &Key, stop: Option<Key>) -> Result<(), Memory>
    ensures { OnOk result (PutsStop stops.old stops.new key.now stop) }
{
    if let Some(member) = stop {
        stops.insert(key.share()?, member)?;
    }
    Ok(())
}

// Adds a node to those that are closed.
fn put_closing(
    stall: &mut Stall,
    key: Key,
    groups: Vec<Vec<Key>>,
    stop: Option<Key>,
) -> Result<(), Memory>
    ensures closing { OnOk result (stall.new.closing.items ≡ stall.old.closing.items
        ++ record { key = key; groups = groups } ∷ []) }
    ensures stops { OnOk result (PutsStop stall.old.stops stall.new.stops key stop) }
{
    put_stop(&mut stall.stops, &key, stop)?;
    stall.closing.push(Closing { key, groups })?;
    Ok(())
}

// Puts the open nodes in the order of their keys, the least last.
fn put_least_last(nodes: &mut Nodes) -> Result<(), Memory>
    ensures same { (k : Key) → node_at nodes.new k ≡ node_at nodes.old k }
    ensures descends { OnOk result (Descends nodes.new.entries) }
{
    nodes.sort_keys()?;
    nodes.reverse();
    Ok(())
}

// Removes the last of the open nodes, if there is one. It is the least if they descend.
fn take_last(nodes: &mut Nodes) -> Option<(Key, Node)>
    requires { Descends nodes.old.entries }
    ensures descends { Descends nodes.new.entries }
    ensures variant { IsSome result ↔ (0 < index_map_len nodes.old) }
    ensures value { IfSome result (λ p. node_at nodes.old p.0 ≡ Some p.1) }
    ensures updates { IfSome result (λ p. Updates key_eq nodes.old nodes.new p.0 None) }
    ensures least { IfSome result (λ p. IsLeast nodes.old p.0) }
    ensures unchanged { IfNone result (nodes.new.entries ≡ nodes.old.entries) }
    ensures len { index_map_len nodes.new + (if is_some result then 1 else 0)
        ≡ index_map_len nodes.old }
{
    nodes.pop()
}

// Removes the least of the open nodes, which is the last. Returns whether there was one.
fn close_next(
    alloc: Global,
    graph: &Graph,
    table: &mut OpenNodes,
    stall: &mut Stall,
) -> Result<bool, Memory>
    requires { Descends table.old.nodes.entries }
    ensures descends { OnOk result (Descends table.new.nodes.entries) }
    ensures taken { OnOk result ((start : OpenNodes) → Holds (record_at graph.now) start.nodes
        → HasTaken (record_at graph.now) graph.now.version start table.old stall.old
        → HasTaken (record_at graph.now) graph.now.version start table.new stall.new) }
    ensures none { IfOk result (λ more. more ≡ false → (k : Key) → node_at table.new.nodes k
        ≡ None) }
    ensures fewer { IfOk result (λ more. more ≡ true → index_map_len table.new.nodes + 1
        ≡ index_map_len table.old.nodes) }
{
    let Some((key, node)) = take_last(&mut table.nodes) else {
        return Ok(false);
    };
    let (groups, turned) = groups_to_close(alloc, graph, &key, node)?;
    note_turned(table, &key, graph.version(), turned, groups.len() as u64)?;
    let stop = stop_in(graph, groups.as_slice())?;
    put_closing(stall, key, groups, stop)?;
    Ok(true)
}

/// Removes all open nodes, in their order, and logs the runs of those that made turns.
pub fn close_all(alloc: Global, graph: &Graph, table: &mut OpenNodes) -> Result<Stall, Memory>
    ensures taken { IfOk result (λ stall. Holds (record_at graph.now) table.old.nodes
        → HasTaken (record_at graph.now) graph.now.version table.old table.new stall) }
    ensures none { OnOk result ((k : Key) → node_at table.new.nodes k ≡ None) }
{
    put_least_last(&mut table.nodes)?;
    let mut stall = Stall {
        closing: Vec::new(alloc),
        stops: BTreeMap::new(alloc),
    };
    'nodes: loop {
        match close_next(alloc, graph, table, &mut stall) {
            Ok(true) => {}
            Ok(false) => return Ok(stall),
            Err(error) => return Err(error),
        }
    }
}
