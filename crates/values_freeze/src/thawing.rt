//! Frozen values on a heap.
ghost use Rattle.std.specs.Prelude.{◌≡◌, ◌++◌, map, IfOk, OnOk};
ghost use Rattle.values_semantics.specs.Freezing.{tuple, frozen_key, frozen_keys, thaw, thaw_members, thaw_pairs, thaw_entry};
ghost use Rattle.values_heap.specs.View.{store_of, Says, SaysItems};
ghost use Rattle.values_freeze.specs.View.{frozen_of, entry_of, members_of, pairs_of, SaysSet};

use crate::frozen::{Frozen, FrozenEntry};
use base_types::Memory;
use indexmap::IndexMap;
use std::alloc::Global;
use values_heap::{Entry, Halt, Heap, Key, Object, Part, Val, set_entry};

/// Makes a frozen value on a heap, where its lists and dictionaries are frozen. It takes no steps.
#[cycle(thawing)]
pub fn thaw(heap: &mut Heap, f: &Frozen) -> Result<Val, Halt>
    ensures { Says (thaw (frozen_of f.now) (store_of heap.old)) result (store_of heap.new) }
{
    match f {
        Frozen::Nothing => Ok(Val::Nothing),
        Frozen::Bool(b) => Ok(Val::boolean(*b)),
        Frozen::Int(n) => Ok(Val::Int(*n)),
        Frozen::Builtin(b) => Ok(Val::built_in(*b)),
        Frozen::Text(bytes) => heap.make(Object::Text(bytes.share()?)),
        Frozen::List(members) => {
            let xs = thaw_members(heap, members.as_slice())?;
            let frozen = true;
            heap.make(Object::List {
                members: xs,
                frozen,
            })
        }
        Frozen::Tuple(members) => {
            let xs = thaw_members(heap, members.as_slice())?;
            heap.make(Object::Tuple(xs))
        }
        Frozen::Dict(entries) => {
            let mut all = IndexMap::with_capacity(heap.alloc, entries.len())?;
            thaw_entries(heap, entries.as_slice(), &mut all)?;
            let all = Box::new(heap.alloc, all)?;
            heap.make(Object::Dict {
                entries: all,
                frozen: true,
            })
        }
        Frozen::Function(label, name) => heap.make(Object::Function(label.share()?, name.share()?)),
    }
}

// Makes members on a heap, in order.
#[cycle(thawing)]
fn thaw_members(heap: &mut Heap, members: &[Frozen]) -> Result<Vec<Val>, Halt>
    ensures { SaysItems (thaw_members (members_of (map frozen_of members.now)) (store_of heap.old))
        result (store_of heap.new) }
{
    let mut all = Vec::with_capacity(heap.alloc, members.len())?;
    for f in members.iter() {
        match thaw(heap, f) {
            Ok(x) => all.push(x)?,
            Err(halt) => return Err(halt),
        }
    }
    Ok(all)
}

// Sets the entries of a dictionary, with their keys and values on a heap.
#[cycle(thawing)]
fn thaw_entries(
    heap: &mut Heap,
    entries: &[FrozenEntry],
    all: &mut IndexMap<Key, Entry>,
) -> Result<(), Halt>
    ensures { SaysSet (thaw_pairs all.old.entries (pairs_of (map entry_of entries.now))
        (store_of heap.old)) result all.new.entries (store_of heap.new) }
{
    for e in entries.iter() {
        match thaw_entry(heap, e, all) {
            Ok(()) => {}
            Err(halt) => return Err(halt),
        }
    }
    Ok(())
}

// Sets an entry, with its key and value on a heap.
#[cycle(thawing)]
fn thaw_entry(heap: &mut Heap, e: &FrozenEntry, all: &mut IndexMap<Key, Entry>) -> Result<(), Halt>
    ensures { SaysSet (thaw_entry all.old.entries (entry_of e.now) (store_of heap.old)) result
        all.new.entries (store_of heap.new) }
{
    let at = frozen_key_of(heap.alloc, &e.key)?;
    let key = thaw(heap, &e.key)?;
    let value = thaw(heap, &e.value)?;
    set_entry(all, at, Entry { key, value })?;
    Ok(())
}

/// Returns the key that a frozen value is. A key of a single part takes no list.
pub(crate) fn frozen_key_of(alloc: Global, f: &Frozen) -> Result<Key, Memory>
    ensures { IfOk result (λ k. k ≡ frozen_key (frozen_of f.now)) }
{
    match f {
        Frozen::Nothing => Ok(Key::one(Part::Nothing)),
        Frozen::Bool(b) => Ok(Key::one(Part::Bool(*b))),
        Frozen::Int(n) => Ok(Key::one(Part::Int(*n))),
        Frozen::Text(bytes) => Ok(Key::one(Part::Text(bytes.share()?))),
        _ => {
            let mut parts = Vec::new(alloc);
            add_key(f, &mut parts)?;
            Ok(Key::several(parts))
        }
    }
}

// Adds the parts of a key after others.
#[cycle(keying)]
fn add_key(f: &Frozen, all: &mut Vec<Part>) -> Result<(), Memory>
    ensures { OnOk result (all.new.items ≡ all.old.items ++ frozen_key (frozen_of f.now)) }
{
    match f {
        Frozen::Nothing => all.push(Part::Nothing)?,
        Frozen::Bool(b) => all.push(Part::Bool(*b))?,
        Frozen::Int(n) => all.push(Part::Int(*n))?,
        Frozen::Text(bytes) => all.push(Part::Text(bytes.share()?))?,
        Frozen::Tuple(members) => add_tuple(members.as_slice(), all)?,
        Frozen::List(_) => {}
        Frozen::Dict(_) => {}
        Frozen::Builtin(_) => {}
        Frozen::Function(_, _) => {}
    }
    Ok(())
}

// Adds the parts of a tuple's key after others.
#[cycle(keying)]
#[tactic(auto, using(crate::proofs::TupleKeys::tuple_keyed))]
fn add_tuple(members: &[Frozen], all: &mut Vec<Part>) -> Result<(), Memory>
    ensures { OnOk result
        (all.new.items ≡ all.old.items ++ frozen_key
        (tuple (members_of (map frozen_of members.now)))) }
{
    all.push(Part::Tuple(members.len()))?;
    add_keys(members, all)?;
    Ok(())
}

// Adds the parts of keys after others.
#[cycle(keying)]
fn add_keys(members: &[Frozen], all: &mut Vec<Part>) -> Result<(), Memory>
    ensures { OnOk result (all.new.items ≡ all.old.items ++ frozen_keys
        (members_of (map frozen_of members.now))) }
{
    for f in members.iter() {
        add_key(f, all)?;
    }
    Ok(())
}
