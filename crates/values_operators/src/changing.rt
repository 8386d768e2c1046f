//! Changes of a member or of what is at a key.
ghost use Rattle.values_semantics.specs.Heap.{at};
ghost use Rattle.values_semantics.specs.Indexing.{set_index, set_object, set_member, set_key, may_change};
ghost use Rattle.values_heap.specs.View.{store_of, Says};

use crate::hash;
use crate::reading::as_int;
use values_heap::{Entry, Halt, Heap, Key, Object, ObjectRef, Val, has_room, place, set_entry};
use values_semantics::faults;

/// Executes `a[i] = x`. The faults are tested in order: type (5), frozen (6), iterated (7), index (8), size (13).
pub fn set_index(heap: &mut Heap, a: Val, i: Val, x: Val) -> Result<(), Halt>
    ensures { Says (set_index a i x (store_of heap.old)) result (store_of heap.new) }
{
    match a {
        Val::At(place) => {
            set_object(heap, place, i, x)?;
            Ok(())
        }
        _ => Err(Halt::Code(faults::WRONG_TYPE)),
    }
}

// Sets what an object has at an index.
fn set_object(heap: &mut Heap, a: usize, i: Val, x: Val) -> Result<(), Halt>
    ensures { Says (set_object a (at a (store_of heap.old)) i x (store_of heap.old)) result
        (store_of heap.new) }
{
    match heap.object(a)? {
        Some(ObjectRef::List { frozen, .. }) => {
            let n = as_int(i)?;
            may_change(heap, a, frozen)?;
            set_member(heap, a, n, x)?;
            Ok(())
        }
        Some(ObjectRef::Dict { frozen, .. }) => {
            let key = hash(heap, i)?;
            may_change(heap, a, frozen)?;
            set_key(heap, a, key, Entry { key: i, value: x })?;
            Ok(())
        }
        Some(ObjectRef::Text(_)) => Err(Halt::Code(faults::WRONG_TYPE)),
        Some(ObjectRef::Tuple(_)) => Err(Halt::Code(faults::WRONG_TYPE)),
        Some(ObjectRef::Function(_, _)) => Err(Halt::Code(faults::WRONG_TYPE)),
        None => Err(Halt::Code(faults::WRONG_TYPE)),
    }
}

// Tests whether the object at a place may be changed: returns fault 6 if it is frozen, 7 if it is iterated.
#[tactic(auto, using(values_heap::proofs::Iterations::iterated_alike))]
fn may_change(heap: &Heap, a: usize, frozen: bool) -> Result<(), Halt>
    ensures { Says (may_change a frozen (store_of heap.now)) result (store_of heap.now) }
{
    if frozen {
        return Err(Halt::Code(faults::FROZEN));
    }
    if heap.iterated.as_slice().contains(&a) {
        return Err(Halt::Code(faults::ITERATED));
    }
    Ok(())
}

// Sets a member of a list.
fn set_member(heap: &mut Heap, a: usize, i: i64, x: Val) -> Result<(), Halt>
    ensures { Says (set_member a (at a (store_of heap.old)) i x (store_of heap.old)) result
        (store_of heap.new) }
{
    let Some(object) = heap.take(a)? else {
        return Err(Halt::Code(faults::WRONG_TYPE));
    };
    let Object::List {
        members: mut members,
        frozen,
    } = object.in_full(heap.alloc)?
    else {
        return Err(Halt::Code(faults::WRONG_TYPE));
    };
    let Some(at) = place(i, members.len()) else {
        return Err(Halt::Code(faults::ABSENT));
    };
    members[at] = x;
    heap.put(a, Object::List { members, frozen })?;
    Ok(())
}

// Sets a key of a dictionary.
fn set_key(heap: &mut Heap, a: usize, key: Key, entry: Entry) -> Result<(), Halt>
    ensures { Says (set_key a (at a (store_of heap.old)) key entry (store_of heap.old)) result
        (store_of heap.new) }
{
    let Some(
        Object::Dict {
            entries: mut entries,
            frozen,
        },
    ) = heap.take(a)?
    else {
        return Err(Halt::Code(faults::WRONG_TYPE));
    };
    if !has_room(&entries, &key) {
        return Err(Halt::Code(faults::TOO_LARGE));
    }
    set_entry(&mut entries, key, entry)?;
    heap.put(a, Object::Dict { entries, frozen })?;
    heap.charge_entry()?;
    Ok(())
}
