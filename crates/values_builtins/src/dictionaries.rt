//! `dict`.
ghost use Rattle.std.specs.Prelude.{◌≡◌, [], IfOk};
ghost use Rattle.values_semantics.specs.Heap.{at};
ghost use Rattle.values_semantics.specs.declared.val.Val.TheVariants.{At};
ghost use Rattle.values_semantics.specs.Functions.{dict_of, dict_from, entries_of, add_all, add_each, add_named, grows, pair_of, object_pair, two_of};
ghost use Rattle.values_heap.specs.View.{store_of, Says, Checks};
ghost use Rattle.values_builtins.specs.Results.{SaysEntries, pairs_of};

use crate::names::is_twice;
use base_types::{Memory, Text};
use indexmap::IndexMap;
use std::alloc::Global;
use values_heap::{
    Bytes, Entries, Entry, Halt, Heap, Key, Members, Object, ObjectRef, Val, has_room, set_entry,
};
use values_operators::{hash, items};
use values_semantics::faults;

/// Evaluates `dict(..)`, or returns fault 25, 5, 11, 12 or 13.
pub fn dict(heap: &mut Heap, xs: &[Val], names: &[(Text, Val)]) -> Result<Val, Halt>
    ensures { Says (dict_of xs.now names.now (store_of heap.old)) result (store_of heap.new) }
{
    if xs.len() > 1 || is_twice(heap.alloc, names)? {
        return Err(Halt::Code(faults::WRONG_ARGUMENTS));
    }
    let mut entries = IndexMap::new(heap.alloc);
    add_from(heap, &mut entries, xs)?;
    add_named(heap, &mut entries, names)?;
    heap.make_dict(entries)
}

// Adds to an empty dictionary what the positional arguments give.
fn add_from(heap: &mut Heap, entries: &mut IndexMap<Key, Entry>, xs: &[Val]) -> Result<(), Halt>
    requires { entries.old.entries ≡ [] }
    ensures { SaysEntries (dict_from xs.now (store_of heap.old)) result entries.new.entries
        (store_of heap.new) }
{
    match xs {
        [] => Ok(()),
        [Val::At(place)] => add_object(heap, entries, *place),
        _ => Err(Halt::Code(faults::WRONG_TYPE)),
    }
}

// Adds to an empty dictionary what an object gives.
fn add_object(heap: &mut Heap, entries: &mut IndexMap<Key, Entry>, place: usize) -> Result<(), Halt>
    requires { entries.old.entries ≡ [] }
    ensures { SaysEntries (entries_of (at place (store_of heap.old)) (At place) (store_of heap.old))
        result entries.new.entries (store_of heap.new) }
{
    if let Some(
        ObjectRef::Dict {
            entries: others,
            ..
        },
    ) = heap.object(place)?
    {
        let pairs = pairs(heap.alloc, &others)?;
        return add_all(heap, entries, pairs.as_slice());
    }
    let members = items(heap, Val::At(place))?;
    add_each(heap, entries, members.as_slice())
}

// Returns the keys of a dictionary with their values.
#[tactic(auto, using(crate::proofs::Pairs::pairs_more, crate::proofs::Pairs::pairs_end, crate::proofs::Pairs::pairs_last))]
fn pairs(alloc: Global, entries: &Entries<'_>) -> Result<Vec<(Val, Val)>, Memory>
    ensures { IfOk result (λ v. v.items ≡ pairs_of entries.now) }
{
    let mut all = Vec::new(alloc);
    for i in 0..entries.len() {
        let Some((_key, entry)) = entries.get_index(i) else {
            return Ok(all);
        };
        all.push((entry.key, entry.value))?;
    }
    Ok(all)
}

// Adds pairs.
fn add_all(
    heap: &mut Heap,
    entries: &mut IndexMap<Key, Entry>,
    pairs: &[(Val, Val)],
) -> Result<(), Halt>
    ensures { SaysEntries (add_all pairs.now entries.old.entries (store_of heap.old)) result
        entries.new.entries (store_of heap.new) }
{
    for pair in pairs.iter() {
        add(heap, entries, pair.0, pair.1)?;
    }
    Ok(())
}

// Adds the pairs that values are.
fn add_each(
    heap: &mut Heap,
    entries: &mut IndexMap<Key, Entry>,
    members: &[Val],
) -> Result<(), Halt>
    ensures { SaysEntries (add_each members.now entries.old.entries (store_of heap.old)) result
        entries.new.entries (store_of heap.new) }
{
    for member in members.iter() {
        let pair = pair(heap, *member)?;
        add(heap, entries, pair.0, pair.1)?;
    }
    Ok(())
}

// Adds the named arguments.
fn add_named(
    heap: &mut Heap,
    entries: &mut IndexMap<Key, Entry>,
    names: &[(Text, Val)],
) -> Result<(), Halt>
    ensures { SaysEntries (add_named names.now entries.old.entries (store_of heap.old)) result
        entries.new.entries (store_of heap.new) }
{
    for named in names.iter() {
        let text = Bytes::of_text(named.0.share()?);
        let key = heap.make(Object::Text(text))?;
        add(heap, entries, key, named.1)?;
    }
    Ok(())
}

// Sets a key of a dictionary that is being made, or returns fault 5, 11, 12 or 13.
fn add(heap: &mut Heap, entries: &mut IndexMap<Key, Entry>, k: Val, x: Val) -> Result<(), Halt>
    ensures { SaysEntries (grows k x entries.old.entries (store_of heap.old)) result
        entries.new.entries (store_of heap.new) }
{
    let key = hash(heap, k)?;
    if !has_room(entries, &key) {
        return Err(Halt::Code(faults::TOO_LARGE));
    }
    set_entry(entries, key, Entry { key: k, value: x })?;
    Ok(())
}

// Returns the two members of a list or tuple, or fault 5.
fn pair(heap: &Heap, x: Val) -> Result<(Val, Val), Halt>
    ensures { Checks (pair_of x (store_of heap.now)) result }
{
    match x {
        Val::At(place) => object_pair(heap, place),
        _ => Err(Halt::Code(faults::WRONG_TYPE)),
    }
}

// Returns the two members of an object, or fault 5.
fn object_pair(heap: &Heap, place: usize) -> Result<(Val, Val), Halt>
    ensures { Checks (object_pair (at place (store_of heap.now))) result }
{
    match heap.object(place)? {
        Some(ObjectRef::List { members, .. }) => two_of(&members),
        Some(ObjectRef::Tuple(members)) => two_of(&members),
        Some(ObjectRef::Text(_)) => Err(Halt::Code(faults::WRONG_TYPE)),
        Some(ObjectRef::Dict { .. }) => Err(Halt::Code(faults::WRONG_TYPE)),
        Some(ObjectRef::Function(_, _)) => Err(Halt::Code(faults::WRONG_TYPE)),
        None => Err(Halt::Code(faults::WRONG_TYPE)),
    }
}

// Returns the two members, or fault 5.
fn two_of(members: &Members<'_>) -> Result<(Val, Val), Halt>
    ensures { Checks (two_of members.now) result }
{
    if members.len() != 2 {
        return Err(Halt::Code(faults::WRONG_TYPE));
    }
    Ok((members.at(0), members.at(1)))
}
