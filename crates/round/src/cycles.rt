//! The cycles that the nodes of a stall show.
ghost use Rattle.std.specs.Prelude.{◌≡◌, ◌≤◌, ◌++◌, [], length, take, drop, IfOk, OnOk, Some, None, Option};
ghost use Rattle.std.specs.List.{filter_map};
ghost use Rattle.std.specs.Option.{option_map};
ghost use Rattle.engine_semantics.specs.Rotation.{rotated, text_le};
ghost use Rattle.std.specs.Arc.{arc_value};
ghost use Rattle.engine_semantics.specs.Value.{In, AllDiffer};
ghost use Rattle.keys.specs.Cycles.{cycle, label_of};
ghost use Rattle.keys.specs.declared.key.Key.{Key};
ghost use Rattle.node.specs.Graphs.{record_at};
ghost use Rattle.round.specs.Closing.{stop_at, closing_keys};
ghost use Rattle.round.specs.declared.closing.Closing.{Closing};
ghost use Rattle.round.specs.Showing.{HasWalked, IsFrom, value_in, shown_at, EndsWith, ShowsAll, IsStall, IsShowing, Shows, AreEntries};

use crate::closing::{Closing, Stall};
use base_types::{Memory, Text};
use keys::{Key, Names, Value};
use node::{Entry, Graph};
use std::alloc::Global;
use std::collections::BTreeMap;
use std::sync::Arc;

// Walks along the stops, and removes them, up to a key that has none.
fn walk(
    alloc: Global,
    stops: &mut BTreeMap<Key, Key>,
    start: &Key,
) -> Result<(Vec<Key>, Key), Memory>
    ensures { IfOk result (λ walked. HasWalked stops.old stops.new start.now walked.0.items
        walked.1) }
{
    let mut path = Vec::new(alloc);
    let mut at = start.share()?;
    'steps: loop {
        match stops.remove(&at) {
            None => return Ok((path, at)),
            Some(next) => {
                path.push(at)?;
                at = next;
            }
        }
    }
}

// Returns the part of a path from the key on.
fn from_key<'a>(path: &'a [Key], key: &Key) -> &'a [Key]
    ensures { IsFrom path.now key.now result.now }
{
    for place in 0..path.len() {
        if path[place] == *key {
            return &path[place..];
        }
    }
    &[]
}

// Returns the label by which a cycle names a key, which only modules have.
fn label(key: &Key) -> Option<&Text>
    ensures { option_map (λ t. t.now) result ≡ label_of key.now }
{
    match key {
        Key::File(_) => None,
        Key::Listing(_) => None,
        Key::Lookup(_) => None,
        Key::Glob(_, _, _) => None,
        Key::Module(label) => Some(label),
        Key::Package(_) => None,
        Key::Under(_) => None,
    }
}

// Returns the labels of a cycle's members, of those that have one.
fn labels_of(alloc: Global, members: &[Key]) -> Result<Vec<Text>, Memory>
    ensures { IfOk result (λ labels. labels.items ≡ filter_map label_of members.now) }
{
    let mut labels = Vec::new(alloc);
    for member in members {
        match label(member) {
            Some(text) => labels.push(text.share()?)?,
            None => {}
        }
    }
    Ok(labels)
}

// Returns whether a text is not after another by bytes.
fn is_not_after(a: &Text, b: &Text) -> bool
    ensures { result ≡ text_le a.now b.now }
{
    a <= b
}

// Returns the place of the first least label, or 0 if there is none.
fn least_place(labels: &[Text]) -> usize
    ensures within { result ≤ length labels.now }
    ensures least { rotated labels.now ≡ drop result labels.now ++ take result labels.now }
{
    if labels.is_empty() {
        return 0;
    }
    let mut best = 0;
    for at in 1..labels.len() {
        if !is_not_after(&labels[best], &labels[at]) {
            best = at;
        }
    }
    best
}

// Returns the labels from the least one on, followed by those before it.
fn rotate(mut labels: Vec<Text>) -> Vec<Text>
    ensures { result.items ≡ rotated labels.items }
{
    let place = least_place(labels.as_slice());
    labels.rotate_left(place);
    labels
}

// Returns the value that the members of a cycle share.
fn cycle_value(alloc: Global, members: &[Key]) -> Result<Value, Memory>
    ensures { IfOk result (λ v. v ≡ cycle members.now) }
{
    let labels = labels_of(alloc, members)?;
    Ok(Value::Cycle(Names::new(rotate(labels))))
}

// Returns the value that a path which comes to the key shows.
fn end_value(
    alloc: Global,
    graph: &Graph,
    shown: &BTreeMap<Key, Arc<Value>>,
    path: &[Key],
    end: &Key,
) -> Result<Arc<Value>, Memory>
    ensures { IfOk result
        (λ v. EndsWith (shown_at shown.now end.now) (value_in (record_at graph.now end.now))
        path.now end.now (arc_value v)) }
{
    if let Some(value) = shown.get(end) {
        return Ok(Arc::try_clone(value)?);
    }
    if let Some(value) = graph.get(end) {
        return Ok(Arc::try_clone(value)?);
    }
    let value = cycle_value(alloc, from_key(path, end))?;
    Ok(Arc::new(alloc, value)?)
}

// Makes the keys of a path show the value.
fn show_all(
    shown: &mut BTreeMap<Key, Arc<Value>>,
    path: &[Key],
    value: &Arc<Value>,
) -> Result<(), Memory>
    ensures { OnOk result (ShowsAll shown.old shown.new path.now (arc_value value.now)) }
{
    for key in path {
        shown.insert(key.share()?, Arc::try_clone(value)?)?;
    }
    Ok(())
}

// Returns the value that a node shows.
fn value_of(
    alloc: Global,
    graph: &Graph,
    stops: &mut BTreeMap<Key, Key>,
    shown: &mut BTreeMap<Key, Arc<Value>>,
    key: &Key,
) -> Result<Arc<Value>, Memory>
    ensures { IfOk result (λ v. (all : Key → Option Key) → IsStall all (record_at graph.now)
        → IsShowing all (record_at graph.now) stops.old shown.old
        → ((j : Key) × (all key.now ≡ Some j)) → IsShowing all (record_at graph.now) stops.new
        shown.new × Shows all (record_at graph.now) key.now (arc_value v)) }
{
    let (path, end) = walk(alloc, stops, key)?;
    let value = end_value(alloc, graph, shown, path.as_slice(), &end)?;
    show_all(shown, path.as_slice(), &value)?;
    Ok(value)
}

/// Returns the entries of closed nodes, each with the value that it shows.
pub fn entries_of(alloc: Global, graph: &Graph, stall: Stall) -> Result<Vec<Entry>, Memory>
    ensures { IfOk result (λ entries. IsStall (stop_at stall.stops) (record_at graph.now)
        → ((c : Closing) → In c stall.closing.items → (j : Key)
        × (stop_at stall.stops c.key ≡ Some j)) → AllDiffer (closing_keys stall.closing.items)
        → AreEntries (stop_at stall.stops) (record_at graph.now) stall.closing.items
        entries.items) }
{
    let Stall {
        mut closing,
        mut stops,
    } = stall;
    let mut shown = BTreeMap::new(alloc);
    let mut entries = Vec::new(alloc);
    while let Some(item) = closing.pop() {
        let Closing { key, groups } = item;
        let value = value_of(alloc, graph, &mut stops, &mut shown, &key)?;
        entries.push(Entry { key, value, groups })?;
    }
    Ok(entries)
}
