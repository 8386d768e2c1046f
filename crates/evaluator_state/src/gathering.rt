//! What comprehensions and dictionary expressions collect.
ghost use Rattle.std.specs.Prelude.{◌≡◌, ◌≤◌, IfOk};
ghost use Rattle.evaluator_semantics.specs.World.{Here, World};
ghost use Rattle.evaluator_semantics.specs.Loops as l;
ghost use Rattle.values_semantics.specs.Functions.{grows};
ghost use Rattle.values_heap.specs.View.{store_of};
ghost use Rattle.evaluator_state.specs.AimView.{gathered_of, RanInto, SaysInto, set_fresh};

use crate::objects::hash;
use indexmap::IndexMap;
use std::alloc::Global;
use values_heap::{Entry, Halt, Heap, Key, MAX_LENGTH, Val, entry, has_room, set_entry};
use values_semantics::faults;

/// The members of a list, or the entries of a dictionary.
#[derive(Drop)]
pub struct Collection {
    pub members: Vec<Val>,
    pub entries: IndexMap<Key, Entry>,
}

/// Makes a collection without members and entries.
pub fn empty_collection(alloc: Global) -> Collection
    ensures { gathered_of result ≡ l.nothing_yet }
{
    Collection {
        members: Vec::new(alloc),
        entries: IndexMap::new(alloc),
    }
}

/// Adds one more member, or returns fault 13.
pub fn add_member(g: &mut Collection, x: Val) -> Result<(), Halt>
    ensures { (here : Here) (u : World) → RanInto here.site
        (l.one_more x (gathered_of g.old) here u) result (gathered_of g.new) u }
{
    if g.members.len() >= MAX_LENGTH {
        return Err(Halt::Code(faults::TOO_LARGE));
    }
    g.members.push(x)?;
    Ok(())
}

/// Adds one more entry, or returns fault 5, 11, 12 or 13. If the key is there already, the later value replaces the
/// earlier one.
pub fn add_entry(heap: &mut Heap, g: &mut Collection, k: Val, x: Val) -> Result<(), Halt>
    ensures says { SaysInto (grows k x g.old.entries.entries (store_of heap.old)) result
        g.new.entries.entries (store_of heap.new) }
    ensures members { g.new.members ≡ g.old.members }
    ensures steps { IfOk result (λ _. heap.new.steps ≤ heap.old.steps) }
{
    let key = hash(heap, k)?;
    if !has_room(&g.entries, &key) {
        return Err(Halt::Code(faults::TOO_LARGE));
    }
    set_entry(&mut g.entries, key, Entry { key: k, value: x })?;
    Ok(())
}

/// Adds one more entry of a dictionary expression, or returns fault 5, 11, 12, or 25 if the key is there already.
pub fn add_new_entry(
    heap: &mut Heap,
    entries: &mut IndexMap<Key, Entry>,
    k: Val,
    x: Val,
) -> Result<(), Halt>
    ensures says { SaysInto (set_fresh k x entries.old.entries (store_of heap.old)) result
        entries.new.entries (store_of heap.new) }
    ensures steps { IfOk result (λ _. heap.new.steps ≤ heap.old.steps) }
{
    let key = hash(heap, k)?;
    if entry(entries, &key).is_some() {
        return Err(Halt::Code(faults::WRONG_ARGUMENTS));
    }
    set_entry(entries, key, Entry { key: k, value: x })?;
    Ok(())
}
