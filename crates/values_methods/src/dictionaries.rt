//! The methods of dictionaries.
ghost use Rattle.std.specs.Prelude.{◌≡◌, map, IfOk};
ghost use Rattle.values_semantics.specs.Heap.{at};
ghost use Rattle.values_methods.specs.Cases.{entry_list, entry_tuple, entry_tuples, get_at, get_other, found_other, keys_at, values_at, items_at, of_dict};
ghost use Rattle.values_heap.specs.View.{store_of, Says, SaysItems};

use crate::names::{is_name, no_arguments};
use base_types::Memory;
use std::alloc::Global;
use values_heap::{Entries, Entry, Halt, Heap, Key, ObjectRef, Val, keys};
use values_operators::hash;
use values_semantics::faults;

/// Calls a method of a dictionary, or returns fault 5, 11, 12, 13 or 25.
pub fn dict_method(heap: &mut Heap, a: usize, name: &str, xs: &[Val]) -> Result<Val, Halt>
    ensures { Says (of_dict (at a (store_of heap.old)) name.now xs.now (store_of heap.old)) result
        (store_of heap.new) }
{
    if is_name(name, "get") {
        return get(heap, a, xs);
    }
    if is_name(name, "keys") {
        no_arguments(xs)?;
        return all_keys(heap, a);
    }
    if is_name(name, "values") {
        no_arguments(xs)?;
        return all_values(heap, a);
    }
    if is_name(name, "items") {
        no_arguments(xs)?;
        return all_items(heap, a);
    }
    Err(Halt::Code(faults::WRONG_TYPE))
}

// Evaluates `get(k)` or `get(k, other)`.
fn get(heap: &mut Heap, a: usize, xs: &[Val]) -> Result<Val, Halt>
    ensures { Says (get_at (at a (store_of heap.old)) xs.now (store_of heap.old)) result
        (store_of heap.new) }
{
    match heap.object(a)? {
        Some(ObjectRef::Dict { .. }) => {
            let (k, other) = match xs {
                [k] => (*k, Val::Nothing),
                [k, other] => (*k, *other),
                _ => return Err(Halt::Code(faults::WRONG_ARGUMENTS)),
            };
            get_or_else(heap, a, k, other)
        }
        _ => Err(Halt::Code(faults::WRONG_TYPE)),
    }
}

// Returns the value at a key, or another.
#[tactic(auto, unfolding(crate::specs::Cases::get_other))]
fn get_or_else(heap: &mut Heap, a: usize, k: Val, other: Val) -> Result<Val, Halt>
    ensures { Says (get_other (at a (store_of heap.old)) k other (store_of heap.old)) result
        (store_of heap.new) }
{
    let key = hash(heap, k)?;
    get_or(heap, a, &key, other)
}

// Evaluates `keys()`, a new list.
fn all_keys(heap: &mut Heap, a: usize) -> Result<Val, Halt>
    ensures { Says (keys_at (at a (store_of heap.old)) (store_of heap.old)) result
        (store_of heap.new) }
{
    match heap.object(a)? {
        Some(ObjectRef::Dict { entries, .. }) => {
            let all = keys(heap.alloc, &entries)?;
            heap.make_list(all)
        }
        _ => Err(Halt::Code(faults::WRONG_TYPE)),
    }
}

// Evaluates `values()`, a new list.
fn all_values(heap: &mut Heap, a: usize) -> Result<Val, Halt>
    ensures { Says (values_at (at a (store_of heap.old)) (store_of heap.old)) result
        (store_of heap.new) }
{
    match heap.object(a)? {
        Some(ObjectRef::Dict { entries, .. }) => {
            let all = values(heap.alloc, &entries)?;
            heap.make_list(all)
        }
        _ => Err(Halt::Code(faults::WRONG_TYPE)),
    }
}

// Evaluates `items()`, a new list of new pairs.
fn all_items(heap: &mut Heap, a: usize) -> Result<Val, Halt>
    ensures { Says (items_at (at a (store_of heap.old)) (store_of heap.old)) result
        (store_of heap.new) }
{
    match heap.object(a)? {
        Some(ObjectRef::Dict { entries, .. }) => {
            let pairs = pairs(heap.alloc, &entries)?;
            let all = tuples(heap, pairs.as_slice())?;
            heap.make_list(all)
        }
        _ => Err(Halt::Code(faults::WRONG_TYPE)),
    }
}

// Returns the values of a dictionary, in order.
fn values(alloc: Global, entries: &Entries<'_>) -> Result<Vec<Val>, Memory>
    ensures { IfOk result (λ v. v.items ≡ map (λ e. e.value) (entry_list entries.now)) }
{
    let mut all = Vec::new(alloc);
    for e in entries.to_vec(alloc)?.as_slice().iter() {
        all.push(e.value)?;
    }
    Ok(all)
}

// Returns the entries of a dictionary, in order.
fn pairs(alloc: Global, entries: &Entries<'_>) -> Result<Vec<Entry>, Memory>
    ensures { IfOk result (λ v. v.items ≡ entry_list entries.now) }
{
    entries.to_vec(alloc)
}

// Makes pairs of keys and values.
fn tuples(heap: &mut Heap, pairs: &[Entry]) -> Result<Vec<Val>, Halt>
    ensures { SaysItems (entry_tuples pairs.now (store_of heap.old)) result (store_of heap.new) }
{
    let mut all = Vec::new(heap.alloc);
    for pair in pairs {
        match tuple(heap, *pair) {
            Ok(made) => all.push(made)?,
            Err(halt) => return Err(halt),
        }
    }
    Ok(all)
}

// Makes a pair of a key and its value.
fn tuple(heap: &mut Heap, pair: Entry) -> Result<Val, Halt>
    ensures { Says (entry_tuple pair (store_of heap.old)) result (store_of heap.new) }
{
    let members = vec![in heap.alloc; pair.key, pair.value]?;
    heap.make_tuple(members)
}

// Returns the value that a dictionary has at a key, or another.
fn get_or(heap: &Heap, a: usize, key: &Key, other: Val) -> Result<Val, Halt>
    ensures { Says (found_other (at a (store_of heap.now)) other key.now (store_of heap.now)) result
        (store_of heap.now) }
{
    match heap.object(a)? {
        Some(ObjectRef::Dict { entries, .. }) => match entries.get(key) {
            Some(entry) => Ok(entry.value),
            None => Ok(other),
        },
        _ => Err(Halt::Code(faults::WRONG_TYPE)),
    }
}
