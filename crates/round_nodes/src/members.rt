//! What the graph has of the members of a group.
ghost use Rattle.std.specs.Prelude.{◌≡◌, IfOk};
ghost use Rattle.std.specs.Option.{option_map, is_some};
ghost use Rattle.std.specs.Arc.{arc_value};
ghost use Rattle.keys.specs.Turns.{values};
ghost use Rattle.node.specs.Graphs.{record_at, present};
ghost use Rattle.node.specs.Records.{items_of};
ghost use Rattle.round_nodes.specs.Members as specs;

use base_types::Memory;
use keys::{Key, Value};
use node::Graph;
use std::alloc::Global;
use std::sync::Arc;

/// Returns shared copies of keys.
pub fn share_all(alloc: Global, keys: &[Key]) -> Result<Vec<Key>, Memory>
    ensures { IfOk result (λ shared. shared.items ≡ keys.now) }
{
    let mut shared = Vec::new(alloc);
    for key in keys {
        shared.push(key.share()?)?;
    }
    Ok(shared)
}

/// Returns whether a key is settled.
pub fn is_settled(graph: &Graph, key: &Key) -> bool
    ensures { result ≡ is_some (present (record_at graph.now key.now)) }
{
    graph.get(key).is_some()
}

// Returns whether a value is a cycle.
fn is_cycle(value: &Value) -> bool
    ensures { result ≡ specs.is_cycle value.now }
{
    match value {
        Value::Cycle(_) => true,
        _ => false,
    }
}

/// Returns the members of a group that are not settled, and whether another one is settled as a cycle.
pub fn look_at_group(
    alloc: Global,
    graph: &Graph,
    group: &[Key],
) -> Result<(Vec<Key>, bool), Memory>
    ensures missing { IfOk result
        (λ found. specs.IsMissing (record_at graph.now) group.now found.0.items) }
    ensures cycle { IfOk result
        (λ found. specs.HasCycle (record_at graph.now) group.now found.1) }
{
    let mut missing = Vec::new(alloc);
    let mut has_cycle = false;
    for key in group {
        match graph.get(key) {
            None => missing.push(key.share()?)?,
            Some(value) => {
                if is_cycle(value) {
                    has_cycle = true;
                }
            }
        }
    }
    Ok((missing, has_cycle))
}

/// Fewer keys than this are never halved.
const FEW: usize = 16;

// Returns the last of the keys that is not settled.
fn last_unsettled<'a>(graph: &Graph, keys: &'a [Key]) -> Option<&'a Key>
    ensures { specs.FindsUnsettled (record_at graph.now) keys.now (option_map (λ k. k.now) result) }
{
    for i in (0..keys.len()).rev() {
        let key = &keys[i];
        if !is_settled(graph, key) {
            return Some(key);
        }
    }
    None
}

/// Returns one of the keys that is not settled, if there is one. Turns are handed out in the order of keys, so of keys
/// that ascend the last is settled last. If it is not, the node that waited for it is visited again, with fewer keys.
/// An odd number of many keys is therefore halved: a node is visited a few times until all are settled, from the first
/// to the last or from the last to the first.
pub fn some_unsettled<'a>(graph: &Graph, keys: &'a [Key]) -> Option<&'a Key>
    ensures { specs.FindsUnsettled (record_at graph.now) keys.now (option_map (λ k. k.now) result) }
{
    if keys.len() < FEW || keys.len() % 2 == 0 {
        return last_unsettled(graph, keys);
    }
    let (front, back) = keys.split_at(keys.len() / 2);
    match last_unsettled(graph, front) {
        Some(key) => Some(key),
        None => last_unsettled(graph, back),
    }
}

// Returns the value of a key if it is settled, and not as a cycle.
fn plain_value<'a>(graph: &'a Graph, key: &Key) -> Option<&'a Arc<Value>>
    ensures { option_map (λ v. arc_value v.now) result ≡ specs.plain_value
        (record_at graph.now key.now) }
{
    match graph.get(key) {
        None => None,
        Some(value) => { if is_cycle(value) { None } else { Some(value) } }
    }
}

// Returns whether a key is settled, and not as a cycle.
fn is_plain(graph: &Graph, key: &Key) -> bool
    ensures { result ≡ is_some (specs.plain_value (record_at graph.now key.now)) }
{
    plain_value(graph, key).is_some()
}

/// Returns the first member of a group that has no value, or that is settled as a cycle.
pub fn first_stop<'a>(graph: &Graph, group: &'a [Key]) -> Option<&'a Key>
    ensures { specs.IsStop (record_at graph.now) group.now (option_map (λ k. k.now) result) }
{
    for key in group {
        if !is_plain(graph, key) {
            return Some(key);
        }
    }
    None
}

// Adds the values of a group's members to the answers, up to the first member without one. Returns whether each has
// one.
fn answer_group(graph: &Graph, group: &[Key], answers: &mut Vec<Arc<Value>>) -> Result<bool, Memory>
    ensures { IfOk result (specs.AnswersGroup (record_at graph.now) group.now
        (values answers.old.items) (values answers.new.items)) }
{
    for key in group {
        let Some(value) = plain_value(graph, key) else {
            return Ok(false);
        };
        answers.push(Arc::try_clone(value)?)?;
    }
    Ok(true)
}

/// Returns the values of the members of groups, in order, or `None` if a member has none.
pub fn answers_to(
    alloc: Global,
    graph: &Graph,
    groups: &[Vec<Key>],
) -> Result<Option<Vec<Arc<Value>>>, Memory>
    ensures { IfOk result (λ found. specs.Answers (record_at graph.now) (items_of groups.now)
        (option_map (λ v. values v.items) found)) }
{
    let mut answers = Vec::new(alloc);
    for group in groups {
        if !answer_group(graph, group.as_slice(), &mut answers)? {
            return Ok(None);
        }
    }
    Ok(Some(answers))
}
