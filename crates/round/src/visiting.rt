//! Opening nodes, visiting those that wait, and settling them.
ghost use Rattle.std.specs.Prelude.{◌≡◌, ◌+◌, ◌<◌, [], true, false, IfOk, OnOk, Some, IsTrue, Option, ◌∷◌, None, List};
ghost use Rattle.std.specs.Option.{is_some};
ghost use Rattle.engine_semantics.specs.Value.{In};
ghost use Rattle.filetree.specs.Files.{Files};
ghost use Rattle.round_nodes.specs.Nodes.{IsClean, node_at, pending, IsUnsettled};
ghost use Rattle.keys.specs.Leaves as leaves;
ghost use Rattle.keys.specs.declared.key.Key.{Key};
ghost use Rattle.keys.specs.declared.value.Value.{Value};
ghost use Rattle.node.specs.Graphs.{record_at};
ghost use Rattle.round_nodes.specs.TurnCounts.{MakesNoTurn};
ghost use Rattle.round_nodes.specs.declared.table.Phase.TheVariants as phase;
ghost use Rattle.round.specs.Frames.{KeepsOthers, KeepsOthersBut};
ghost use Rattle.round.specs.Looks.{IsAwaiting, IsChecking, IsLastGroup, IsNextKey, HasPassed};
ghost use Rattle.round.specs.Finding.{Finds, FindsIn};
ghost use Rattle.node.specs.Records.{items_of};
ghost use Rattle.round.specs.Moves.{KeepsInvariant, IsInOrderBut, IsInOrder, KeepsOut, KeepsOpened, KeepsInvariantOf, Wants, IsOpenOrSettled};
ghost use Rattle.round.specs.Turning.{IsOutWith, ComesBack};
ghost use Rattle.round.specs.TurnCalls.{LooksOnce, EndsTruly};

use base_types::Memory;
use filetree::Tree;
use keys::{Key, Value, is_leaf, read_leaf};
use node::{Comparison, Graph};
use round_nodes::{
    Nodes, OpenNodes, Phase, begin_check, begin_run, close_node, enqueue, is_settled, log_run,
    look_at_group, pass_groups, put_ready, restart, some_unsettled, wait_for,
};
use std::alloc::Global;
use std::sync::Arc;

// Reads a leaf that is not settled.
fn read_leaf_node(
    alloc: Global,
    graph: &mut Graph,
    tree: &Tree,
    table: &mut OpenNodes,
    key: &Key,
) -> Result<(), Memory>
    requires leaf { IsTrue (leaves.is_leaf key.now) }
    requires unsettled { IsUnsettled (record_at graph.old) key.now }
    requires closed { node_at table.old.nodes key.now ≡ None }
    ensures wants { OnOk result (Wants graph.old graph.new table.old table.new) }
    ensures wanted { OnOk result (IsOpenOrSettled graph.new table.new key.now) }
    ensures truth { KeepsInvariantOf (key.now ∷ []) (leaves.read tree.now) graph.old graph.new
        table.old table.new result }
    ensures looked { OnOk result (table.new.visited ≡ table.old.visited) }
{
    let value = Arc::new(alloc, read_leaf(alloc, tree, key)?)?;
    log_run(table, key, graph.version(), 0)?;
    graph.record(key.share()?, value, Vec::new(alloc))?;
    Ok(())
}

// Returns whether a key has a record.
fn has_record(graph: &Graph, key: &Key) -> bool
    ensures { result ≡ is_some (record_at graph.now key.now) }
{
    graph.settled_at(key).is_some()
}

/// Returns whether a key is open.
pub fn is_open(nodes: &Nodes, key: &Key) -> bool
    ensures { result ≡ is_some (node_at nodes.now key.now) }
{
    nodes.get(key).is_some()
}

// Opens a node that is not a leaf and not settled.
fn open_inner(alloc: Global, graph: &Graph, table: &mut OpenNodes, key: &Key) -> Result<(), Memory>
    requires unsettled { IsUnsettled (record_at graph.now) key.now }
    requires closed { node_at table.old.nodes key.now ≡ None }
    ensures wants { OnOk result (Wants graph.now graph.now table.old table.new) }
    ensures wanted { OnOk result (IsOpenOrSettled graph.now table.new key.now) }
    ensures truth { (files : Files) → leaves.read files key.now ≡ None → KeepsInvariantOf (key.now ∷
        []) (leaves.read files) graph.now graph.now table.old table.new result }
    ensures looked { OnOk result (table.new.visited ≡ table.old.visited) }
{
    if has_record(graph, key) {
        begin_check(alloc, table, key)?;
    } else {
        begin_run(alloc, table, key)?;
    }
    Ok(())
}

/// Opens a key. If it is neither settled nor open, a leaf is read, a node with a record is to be checked, and any other
/// node makes turns.
pub fn open_node(
    alloc: Global,
    graph: &mut Graph,
    tree: &Tree,
    table: &mut OpenNodes,
    key: &Key,
) -> Result<(), Memory>
    ensures wants { OnOk result (Wants graph.old graph.new table.old table.new) }
    ensures wanted { OnOk result (IsOpenOrSettled graph.new table.new key.now) }
    ensures truth { KeepsInvariantOf (key.now ∷ []) (leaves.read tree.now) graph.old graph.new
        table.old table.new result }
    ensures looked { OnOk result (table.new.visited ≡ table.old.visited) }
{
    if is_settled(graph, key) {
        return Ok(());
    }
    if is_open(&table.nodes, key) {
        return Ok(());
    }
    if is_leaf(key) {
        read_leaf_node(alloc, graph, tree, table, key)?;
    } else {
        open_inner(alloc, graph, table, key)?;
    }
    Ok(())
}

/// Opens all keys.
pub fn open_all(
    alloc: Global,
    graph: &mut Graph,
    tree: &Tree,
    table: &mut OpenNodes,
    keys: &[Key],
) -> Result<(), Memory>
    ensures wants { OnOk result (Wants graph.old graph.new table.old table.new) }
    ensures wanted { OnOk result ((k : Key) → In k keys.now → IsOpenOrSettled graph.new
        table.new k) }
    ensures truth { KeepsInvariantOf keys.now (leaves.read tree.now) graph.old graph.new table.old
        table.new result }
    ensures looked { OnOk result (table.new.visited ≡ table.old.visited) }
{
    for key in keys {
        open_node(alloc, graph, tree, table, key)?;
    }
    Ok(())
}

/// Settles a node whose recorded groups are all settled without a change.
pub fn confirm_node(
    alloc: Global,
    graph: &mut Graph,
    table: &mut OpenNodes,
    key: &Key,
) -> Result<(), Memory>
    requires whole { IsInOrderBut key.now graph.old table.old }
    requires passed { HasPassed graph.old table.old key.now }
    ensures whole { OnOk result (IsInOrder graph.new table.new) }
    ensures out { OnOk result (KeepsOut table.old table.new) }
    ensures keeps { OnOk result (KeepsOpened graph.old graph.new table.old table.new) }
    ensures turns { OnOk result (MakesNoTurn table.old table.new) }
    ensures frame { OnOk result (KeepsOthers graph.old graph.new table.old table.new) }
    ensures truth { (read : Key → Option Value) → KeepsInvariant read graph.old graph.new table.old
        table.new result }
    ensures looked { OnOk result (table.new.visited ≡ table.old.visited) }
{
    let _groups = close_node(alloc, table, key)?;
    graph.confirm(key);
    Ok(())
}

/// Settles a node that ended by its turns. The value is the one that its next turn, from these answers, ends with.
pub fn finish_node(
    alloc: Global,
    graph: &mut Graph,
    table: &mut OpenNodes,
    key: Key,
    value: Value,
) -> Result<(), Memory>
    requires whole { IsInOrder graph.old table.old }
    requires out { (answers : List Value) × IsOutWith graph.old table.old key answers }
    ensures whole { OnOk result (IsInOrder graph.new table.new) }
    ensures back { OnOk result (ComesBack table.old table.new key) }
    ensures settled { OnOk result (IsClean (record_at graph.new) key) }
    ensures keeps { OnOk result (KeepsOpened graph.old graph.new table.old table.new) }
    ensures frame { OnOk result (KeepsOthersBut key graph.old graph.new table.old table.new) }
    ensures truth { EndsTruly key value graph.old graph.new table.old table.new result }
{
    let shared = Arc::new(alloc, value)?;
    let groups = close_node(alloc, table, &key)?;
    log_run(table, &key, graph.version(), groups.len() as u64 + 1)?;
    graph.record(key, shared, groups)?;
    Ok(())
}

// Opens the members of a group, and makes the node wait for one that is then not settled. If there is none, the node is
// to be visited again.
fn wait_for_group(
    alloc: Global,
    graph: &mut Graph,
    tree: &Tree,
    table: &mut OpenNodes,
    key: &Key,
    missing: &[Key],
) -> Result<(), Memory>
    requires whole { IsInOrderBut key.now graph.old table.old }
    requires awaiting { IsAwaiting graph.old table.old key.now missing.now }
    ensures whole { OnOk result (IsInOrder graph.new table.new) }
    ensures out { OnOk result (KeepsOut table.old table.new) }
    ensures keeps { OnOk result (KeepsOpened graph.old graph.new table.old table.new) }
    ensures turns { OnOk result (MakesNoTurn table.old table.new) }
    ensures frame { OnOk result (KeepsOthers graph.old graph.new table.old table.new) }
    ensures truth { KeepsInvariant (leaves.read tree.now) graph.old graph.new table.old table.new
        result }
    ensures looked { OnOk result (table.new.visited ≡ table.old.visited) }
{
    open_all(alloc, graph, tree, table, missing)?;
    match some_unsettled(graph, missing) {
        Some(member) => wait_for(table, member, key)?,
        None => enqueue(table, key)?,
    }
    Ok(())
}

// Visits a node whose record is checked, and which has passed this many groups.
fn check(
    alloc: Global,
    graph: &mut Graph,
    tree: &Tree,
    table: &mut OpenNodes,
    key: &Key,
    passed: usize,
) -> Result<(), Memory>
    requires whole { IsInOrderBut key.now graph.old table.old }
    requires checking { IsChecking table.old key.now passed }
    ensures whole { OnOk result (IsInOrder graph.new table.new) }
    ensures out { OnOk result (KeepsOut table.old table.new) }
    ensures keeps { OnOk result (KeepsOpened graph.old graph.new table.old table.new) }
    ensures turns { OnOk result (MakesNoTurn table.old table.new) }
    ensures frame { OnOk result (KeepsOthers graph.old graph.new table.old table.new) }
    ensures truth { KeepsInvariant (leaves.read tree.now) graph.old graph.new table.old table.new
        result }
    ensures looked { OnOk result (table.new.visited ≡ table.old.visited) }
{
    let found = graph.compare(alloc, key, passed)?;
    match found {
        Comparison::Unchanged => return confirm_node(alloc, graph, table, key),
        Comparison::NeedsMembers(missing) => wait_for_group(
            alloc,
            graph,
            tree,
            table,
            key,
            missing.as_slice(),
        )?,
        Comparison::Changed => restart(table, key)?,
        Comparison::NextGroup(next) => pass_groups(table, key, next)?,
    }
    Ok(())
}

// What a visit of a node finds.
#[derive(Drop)]
enum Look {
    // Its record is checked, and this many groups have passed.
    Checks(usize),
    // These members of the last group that its turns asked for are not settled.
    Lacks(Vec<Key>),
    // All members of that group have values.
    Answered,
    // There is nothing to do: its job is out, it is settled, or it leads into a cycle.
    Rests,
}

// Returns the last of the groups, or nothing if there is none.
fn last_group(groups: &[Vec<Key>]) -> &[Key]
    ensures { IsLastGroup (items_of groups.now) result.now }
{
    match groups.last() {
        None => &[],
        Some(group) => group.as_slice(),
    }
}

// Looks at the last group that the turns of a node asked for.
fn look_in(alloc: Global, graph: &Graph, group: &[Key]) -> Result<Look, Memory>
    ensures { IfOk result (FindsIn (record_at graph.now) group.now) }
{
    let (missing, has_cycle) = look_at_group(alloc, graph, group)?;
    if !missing.is_empty() {
        return Ok(Look::Lacks(missing));
    }
    if has_cycle {
        return Ok(Look::Rests);
    }
    Ok(Look::Answered)
}

// Looks at a node.
fn look_at(alloc: Global, graph: &Graph, table: &OpenNodes, key: &Key) -> Result<Look, Memory>
    ensures { IfOk result (Finds (record_at graph.now) table.now key.now) }
{
    match table.nodes.get(key) {
        None => Ok(Look::Rests),
        Some(node) => match node.phase {
            Phase::Checking(passed) => Ok(Look::Checks(passed)),
            Phase::Running => {
                let found = look_in(alloc, graph, last_group(node.groups.as_slice()))?;
                Ok(found)
            }
            Phase::Out => Ok(Look::Rests),
        },
    }
}

// Visits a node.
fn visit(
    alloc: Global,
    graph: &mut Graph,
    tree: &Tree,
    table: &mut OpenNodes,
    key: &Key,
) -> Result<(), Memory>
    requires whole { IsInOrderBut key.now graph.old table.old }
    ensures whole { OnOk result (IsInOrder graph.new table.new) }
    ensures out { OnOk result (KeepsOut table.old table.new) }
    ensures keeps { OnOk result (KeepsOpened graph.old graph.new table.old table.new) }
    ensures turns { OnOk result (MakesNoTurn table.old table.new) }
    ensures frame { OnOk result (KeepsOthers graph.old graph.new table.old table.new) }
    ensures truth { KeepsInvariant (leaves.read tree.now) graph.old graph.new table.old table.new
        result }
    ensures looked { OnOk result (table.new.visited ≡ table.old.visited) }
{
    let found = look_at(alloc, graph, table, key)?;
    match found {
        Look::Checks(passed) => check(alloc, graph, tree, table, key, passed),
        Look::Lacks(missing) => wait_for_group(alloc, graph, tree, table, key, missing.as_slice()),
        Look::Answered => {
            put_ready(table, key)?;
            Ok(())
        }
        Look::Rests => Ok(()),
    }
}

// Takes the next key that is to be visited.
fn next_key(table: &mut OpenNodes) -> Result<Option<Key>, Memory>
    ensures { IfOk result (IsNextKey table.old table.new) }
{
    if table.visited >= table.queue.len() {
        return Ok(None);
    }
    let key = table.queue[table.visited].share()?;
    table.visited += 1;
    Ok(Some(key))
}

// Visits the next node that is to be visited. Returns whether there was one.
fn visit_next(
    alloc: Global,
    graph: &mut Graph,
    tree: &Tree,
    table: &mut OpenNodes,
) -> Result<bool, Memory>
    requires whole { IsInOrder graph.old table.old }
    ensures whole { OnOk result (IsInOrder graph.new table.new) }
    ensures none { IfOk result (λ more. more ≡ false → pending table.new ≡ []) }
    ensures forward { IfOk result (λ more. more ≡ true → LooksOnce table.old table.new) }
    ensures out { OnOk result (KeepsOut table.old table.new) }
    ensures keeps { OnOk result (KeepsOpened graph.old graph.new table.old table.new) }
    ensures turns { OnOk result (MakesNoTurn table.old table.new) }
    ensures frame { OnOk result (KeepsOthers graph.old graph.new table.old table.new) }
    ensures truth { KeepsInvariant (leaves.read tree.now) graph.old graph.new table.old table.new
        result }
{
    let Some(key) = next_key(table)? else {
        return Ok(false);
    };
    let looked = visit(alloc, graph, tree, table, &key);
    drop(key);
    match looked {
        Ok(()) => Ok(true),
        Err(error) => Err(error),
    }
}

/// Visits each node that is to be visited, until none is left.
pub fn visit_all(
    alloc: Global,
    graph: &mut Graph,
    tree: &Tree,
    table: &mut OpenNodes,
) -> Result<(), Memory>
    requires whole { IsInOrder graph.old table.old }
    ensures whole { OnOk result (IsInOrder graph.new table.new) }
    ensures none { OnOk result (pending table.new ≡ []) }
    ensures out { OnOk result (KeepsOut table.old table.new) }
    ensures keeps { OnOk result (KeepsOpened graph.old graph.new table.old table.new) }
    ensures turns { OnOk result (MakesNoTurn table.old table.new) }
    ensures frame { OnOk result (KeepsOthers graph.old graph.new table.old table.new) }
    ensures truth { KeepsInvariant (leaves.read tree.now) graph.old graph.new table.old table.new
        result }
{
    'looks: loop {
        match visit_next(alloc, graph, tree, table) {
            Ok(true) => {}
            Ok(false) => return Ok(()),
            Err(error) => return Err(error),
        }
    }
}
