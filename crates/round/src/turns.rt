//! Turns that are handed out and taken back.
ghost use Rattle.std.specs.Prelude.{◌≡◌, ◌++◌, ◌∷◌, [], List, IfNone, IfOk, IfSome, OnOk, OnErr, Option, Some, None, IsTrue};
ghost use Rattle.indexmap.specs.IndexMap.{get, Updates};
ghost use Rattle.std.specs.Option.{option_map};
ghost use Rattle.node.specs.Graphs.{record_at};
ghost use Rattle.round_nodes.specs.Members.{Answers};
ghost use Rattle.round.specs.NodeStates.{ArePaused, HasState, NeedsValues, SameStates, TakesOut, kept_answers};
ghost use Rattle.std.specs.Bool.{Decides};
ghost use Rattle.keys.specs.Turns.{values};
ghost use Rattle.keys.specs.Keys.{key_eq};
ghost use Rattle.keys.specs.Leaves as leaves;
ghost use Rattle.keys.specs.declared.key.Key.{Key};
ghost use Rattle.keys.specs.declared.value.Value.{Value};
ghost use Rattle.keys.specs.Jobs.{Made, Waits};
ghost use Rattle.node.specs.Records.{items_of};
ghost use Rattle.round_nodes.specs.Nodes.{node_at, groups_of};
ghost use Rattle.round_nodes.specs.declared.table.Node.{Node};
ghost use Rattle.round_nodes.specs.declared.table.Phase.TheVariants as phase;
ghost use Rattle.round.specs.Moves.{KeepsOpened, IsInOrder};
ghost use Rattle.round.specs.Turning.{IsOutWith, ComesBack};
ghost use Rattle.round.specs.TurnCalls.{ComesBackTruly, KeepsOthersOf, IsPausedIfSome, IsCleanIfNone};

use crate::visiting::finish_node;
use base_types::Memory;
use indexmap::IndexMap;
use keys::{Job, Key, PausedNode, Rules, TurnEnd, Turned, Value};
use node::Graph;
use round_nodes::{Nodes, OpenNodes, Phase, answers_to, ask_group};
use std::alloc::Global;
use std::sync::Arc;

// Returns the groups that a node's turns asked for.
fn asked_groups<'a>(nodes: &'a Nodes, key: &Key) -> &'a [Vec<Key>]
    ensures { (n : Node) → node_at nodes.now key.now ≡ Some n → items_of result.now ≡ groups_of n }
{
    match nodes.get(key) {
        None => &[],
        Some(node) => node.groups.as_slice(),
    }
}

// Returns the values of the members of the last of the groups.
fn last_answers(
    alloc: Global,
    graph: &Graph,
    groups: &[Vec<Key>],
) -> Result<Option<Vec<Arc<Value>>>, Memory>
    ensures { IfOk result (λ found. (passed : List (List Key)) (group : List Key)
        → items_of groups.now ≡ passed ++ group ∷ []
        → Answers (record_at graph.now) (group ∷ []) (option_map (λ v. values v.items) found)) }
{
    let last = groups.len().saturating_sub(1);
    let found = answers_to(alloc, graph, &groups[last..])?;
    Ok(found)
}

/// Returns the values that the next turn of a node needs in addition to its kept state, if it is ready: those of its
/// last group, or of all its groups if no state is kept.
pub fn values_needed<R: Rules>(
    alloc: Global,
    graph: &Graph,
    table: &OpenNodes,
    kept: &IndexMap<Key, PausedNode<R>>,
    key: &Key,
) -> Result<Option<Vec<Arc<Value>>>, Memory>
    requires whole { IsInOrder graph.now table.now }
    requires paused { ArePaused graph.now table.now kept.now }
    ensures { IfOk result (λ found. NeedsValues graph.now table.now kept.now key.now
        (option_map (λ v. values v.items) found)) }
{
    if !table.ready.contains(key) {
        return Ok(None);
    }
    let groups = asked_groups(&table.nodes, key);
    // The state of a node that asked for one group has no answers yet.
    if groups.len() < 2 {
        return Ok(answers_to(alloc, graph, groups)?);
    }
    if kept.contains_key(key) {
        return Ok(last_answers(alloc, graph, groups)?);
    }
    Ok(answers_to(alloc, graph, groups)?)
}

// Adds the values to the answers that the kept state of a key has, or returns them if there is no such state.
fn answer_kept<R: Rules>(
    kept: &mut IndexMap<Key, PausedNode<R>>,
    key: &Key,
    found: Vec<Arc<Value>>,
) -> Result<Option<Vec<Arc<Value>>>, Memory>
    ensures answered { OnOk result ((w : Waits) → get key_eq kept.old key.now ≡ Some w
        → Updates key_eq kept.old kept.new key.now
        (Some (record w { answers = w.answers ++ values found.items }))) }
    ensures none { IfOk result (λ left. IfSome left (λ vs. (vs ≡ found) × (kept.new ≡ kept.old)
        × (get key_eq kept.old key.now ≡ None))) }
    ensures some { IfOk result (λ left. IfNone left (HasState kept.old key.now)) }
    ensures refused { OnErr result (SameStates kept.old kept.new) }
{
    match kept.get_mut(key) {
        None => Ok(Some(found)),
        Some(waiting) => {
            waiting.answer(found)?;
            Ok(None)
        }
    }
}

/// Returns the job of the next turn of a key, from its kept state or from scratch, with these values after the answers
/// that the state has. The state is then no longer kept. Returns `Memory` if an allocation fails; all states are then
/// kept.
pub fn take_job<R: Rules>(
    kept: &mut IndexMap<Key, PausedNode<R>>,
    key: Key,
    found: Vec<Arc<Value>>,
) -> Result<Job<R>, Memory>
    requires { (w : Waits) → get key_eq kept.old key ≡ Some w → w.key ≡ key }
    ensures key { IfOk result (λ job. job.key ≡ key) }
    ensures answers { IfOk result (λ job. job.answers
        ≡ kept_answers (get key_eq kept.old key) ++ values found.items) }
    ensures taken { OnOk result (TakesOut kept.old kept.new key) }
    ensures refused { OnErr result (SameStates kept.old kept.new) }
{
    let left = answer_kept(kept, &key, found)?;
    match left {
        Some(found) => Ok(Job::new(key, found)),
        None => {
            let waiting = kept.swap_remove(&key).unwrap();
            Ok(waiting.into_job())
        }
    }
}

// Returns whether the values are the same, one by one.
fn same_values(a: &[Arc<Value>], b: &[Arc<Value>]) -> bool
    ensures { Decides result (values a.now ≡ values b.now) }
{
    a == b
}

// Returns whether a node's job is out.
fn is_out(nodes: &Nodes, key: &Key) -> bool
    ensures yes { IsTrue result → (n : Node) × (node_at nodes.now key.now ≡ Some n)
        × (n.phase ≡ phase.Out) }
    ensures no { (n : Node) → node_at nodes.now key.now ≡ Some n → n.phase ≡ phase.Out
        → IsTrue result }
{
    match nodes.get(key) {
        None => false,
        Some(node) => match node.phase {
            Phase::Out => true,
            _ => false,
        },
    }
}

/// Returns whether the key's job is out with these answers.
pub fn is_out_with<R: Rules>(
    alloc: Global,
    graph: &Graph,
    table: &OpenNodes,
    turned: &Turned<R>,
) -> Result<bool, Memory>
    requires whole { IsInOrder graph.now table.now }
    ensures { IfOk result
        (λ b. Decides b
        (IsOutWith graph.now table.now turned.now.asked.key turned.now.asked.answers)) }
{
    if !is_out(&table.nodes, turned.key()) {
        return Ok(false);
    }
    match answers_to(alloc, graph, asked_groups(&table.nodes, turned.key()))? {
        None => Ok(false),
        Some(answers) => Ok(same_values(answers.as_slice(), turned.answers())),
    }
}

/// Takes back a turn: its node ends, or asks for its next group, and its state may be kept.
pub fn accept_turn<R: Rules>(
    alloc: Global,
    graph: &mut Graph,
    table: &mut OpenNodes,
    turned: Turned<R>,
) -> Result<Option<PausedNode<R>>, Memory>
    requires whole { IsInOrder graph.old table.old }
    requires out { IsOutWith graph.old table.old turned.asked.key turned.asked.answers }
    ensures whole { OnOk result (IsInOrder graph.new table.new) }
    ensures back { OnOk result (ComesBack table.old table.new turned.asked.key) }
    ensures keeps { OnOk result (KeepsOpened graph.old graph.new table.old table.new) }
    ensures frame { OnOk result (KeepsOthersOf turned graph.old graph.new table.old table.new) }
    ensures truth { ComesBackTruly R.next turned graph.old graph.new table.old table.new result }
    ensures made { OnOk result (turned.ending ≡ Made) }
    ensures paused { IfOk result (IsPausedIfSome graph.new table.new turned.asked.key) }
    ensures ended { IfOk result (IsCleanIfNone graph.new turned.asked.key) }
{
    match turned.into_end()? {
        TurnEnd::Done(key, value) => {
            finish_node(alloc, graph, table, key, value)?;
            Ok(None)
        }
        TurnEnd::Paused(waiting, group) => {
            ask_group(table, waiting.key(), group)?;
            Ok(Some(waiting))
        }
    }
}
