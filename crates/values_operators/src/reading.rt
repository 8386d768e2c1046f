//! Indexing, slicing and iteration.
ghost use Rattle.std.specs.Prelude.{◌≡◌, [], ◌∷◌};
ghost use Rattle.values_semantics.specs.Heap.{at, makes_text};
ghost use Rattle.values_semantics.specs.Indexing.{items, items_of, int_of, found_at, found_key, index, index_object, at_key, slice, slice_object};
ghost use Rattle.values_heap.specs.View.{store_of, Says, Checks, ChecksItems};

use crate::hash;
use values_heap::{Halt, Heap, Key, Members, ObjectRef, Val, cut, keys, member};
use values_semantics::faults;

/// Returns the number that an int is, or fault 5, also for a bool.
pub fn as_int(x: Val) -> Result<i64, Halt>
    ensures { Checks (int_of x) result }
{
    match x {
        Val::Int(n) => Ok(n),
        _ => Err(Halt::Code(faults::WRONG_TYPE)),
    }
}

// Returns the byte at an index, or fault 5, or 8 if nothing is there.
fn found_at(xs: &[u8], i: Val) -> Result<u8, Halt>
    ensures { Checks (found_at xs.now i) result }
{
    let n = as_int(i)?;
    match member(xs, n) {
        Some(x) => Ok(x),
        None => Err(Halt::Code(faults::ABSENT)),
    }
}

// Returns the member at an index, or fault 5, or 8 if nothing is there.
#[inline(always)]
fn member_at(xs: &Members<'_>, i: Val) -> Result<Val, Halt>
    ensures { Checks (found_at xs.now i) result }
{
    let n = as_int(i)?;
    match xs.member(n) {
        Some(x) => Ok(x),
        None => Err(Halt::Code(faults::ABSENT)),
    }
}

/// Evaluates `a[i]`, or returns fault 5, or 8 if nothing is there.
pub fn index(heap: &mut Heap, a: Val, i: Val) -> Result<Val, Halt>
    ensures { Says (index a i (store_of heap.old)) result (store_of heap.new) }
{
    match a {
        Val::At(place) => index_object(heap, place, i),
        _ => Err(Halt::Code(faults::WRONG_TYPE)),
    }
}

// Returns the value that an object has at an index.
#[inline(always)]
fn index_object(heap: &mut Heap, a: usize, i: Val) -> Result<Val, Halt>
    ensures { Says (index_object (at a (store_of heap.old)) i (store_of heap.old)) result
        (store_of heap.new) }
{
    match heap.object(a)? {
        Some(ObjectRef::Text(bytes)) => {
            let byte = found_at(bytes.as_slice(), i)?;
            make_letter(heap, byte)
        }
        Some(ObjectRef::List { members, .. }) => member_at(&members, i),
        Some(ObjectRef::Tuple(members)) => member_at(&members, i),
        Some(ObjectRef::Dict { .. }) => found_key(heap, a, i),
        Some(ObjectRef::Function(_, _)) => Err(Halt::Code(faults::WRONG_TYPE)),
        None => Err(Halt::Code(faults::WRONG_TYPE)),
    }
}

// Returns the value that a dictionary has at a key, which is hashed first.
#[inline(never)]
#[tactic(auto, unfolding(values_semantics::specs::Indexing::found_key))]
fn found_key(heap: &mut Heap, a: usize, i: Val) -> Result<Val, Halt>
    ensures { Says (found_key (at a (store_of heap.old)) i (store_of heap.old)) result
        (store_of heap.new) }
{
    let key = hash(heap, i)?;
    at_key(heap, a, &key)
}

// Returns the value at a key.
#[inline(always)]
fn at_key(heap: &Heap, a: usize, key: &Key) -> Result<Val, Halt>
    ensures { Says (at_key (at a (store_of heap.now)) key.now (store_of heap.now)) result
        (store_of heap.now) }
{
    match heap.object(a)? {
        Some(ObjectRef::Dict { entries, .. }) => match entries.get(key) {
            Some(entry) => Ok(entry.value),
            None => Err(Halt::Code(faults::ABSENT)),
        },
        _ => Err(Halt::Code(faults::WRONG_TYPE)),
    }
}

// Makes a string of one byte.
#[inline(never)]
fn make_letter(heap: &mut Heap, byte: u8) -> Result<Val, Halt>
    ensures { Says (makes_text (byte ∷ []) (store_of heap.old)) result (store_of heap.new) }
{
    let mut bytes = Vec::new(heap.alloc);
    bytes.push(byte)?;
    heap.make_text(bytes)
}

/// Evaluates `a[i:j]`, where a bound that is not given is `None`, or returns fault 5.
pub fn slice(heap: &mut Heap, a: Val, i: Val, j: Val) -> Result<Val, Halt>
    ensures { Says (slice a i j (store_of heap.old)) result (store_of heap.new) }
{
    match a {
        Val::At(place) => slice_object(heap, place, i, j),
        _ => Err(Halt::Code(faults::WRONG_TYPE)),
    }
}

// Makes the part of an object between two bounds.
fn slice_object(heap: &mut Heap, a: usize, i: Val, j: Val) -> Result<Val, Halt>
    ensures { Says (slice_object (at a (store_of heap.old)) i j (store_of heap.old)) result
        (store_of heap.new) }
{
    match heap.objects.object_ref(a)? {
        Some(ObjectRef::Text(bytes)) => {
            let part = cut(heap.alloc, bytes.as_slice(), i, j)?;
            heap.make_text(part)
        }
        Some(ObjectRef::List { members, .. }) => {
            let part = members.slice(&mut heap.spare, i, j)?;
            heap.make_list(part)
        }
        Some(ObjectRef::Tuple(members)) => {
            let part = members.slice(&mut heap.spare, i, j)?;
            heap.make_tuple(part)
        }
        _ => Err(Halt::Code(faults::WRONG_TYPE)),
    }
}

/// Returns the values that a loop iterates over: the members, or a dictionary's keys; else fault 5.
pub fn items(heap: &Heap, a: Val) -> Result<Vec<Val>, Halt>
    ensures { ChecksItems (items a (store_of heap.now)) result }
{
    match a {
        Val::At(place) => object_items(heap, place),
        _ => Err(Halt::Code(faults::WRONG_TYPE)),
    }
}

// Returns the values that a loop over an object iterates over.
fn object_items(heap: &Heap, a: usize) -> Result<Vec<Val>, Halt>
    ensures { ChecksItems (items_of (at a (store_of heap.now))) result }
{
    match heap.object(a)? {
        Some(ObjectRef::List { members, .. }) => Ok(members.to_vec(heap.alloc)?),
        Some(ObjectRef::Tuple(members)) => Ok(members.to_vec(heap.alloc)?),
        Some(ObjectRef::Dict { entries, .. }) => Ok(keys(heap.alloc, &entries)?),
        Some(ObjectRef::Text(_)) => Err(Halt::Code(faults::WRONG_TYPE)),
        Some(ObjectRef::Function(_, _)) => Err(Halt::Code(faults::WRONG_TYPE)),
        None => Err(Halt::Code(faults::WRONG_TYPE)),
    }
}

/// Returns the values that an iteration goes over, as `items` does, in memory that was kept for a list if there is some.
pub fn copy_items(heap: &mut Heap, a: Val) -> Result<Vec<Val>, Halt>
    ensures items { ChecksItems (items a (store_of heap.old)) result }
    ensures same { store_of heap.new ≡ store_of heap.old }
{
    match a {
        Val::At(place) => copy_object_items(heap, place),
        _ => Err(Halt::Code(faults::WRONG_TYPE)),
    }
}

// Returns the values that an iteration over an object goes over, in memory that was kept for a list if there is some.
fn copy_object_items(heap: &mut Heap, a: usize) -> Result<Vec<Val>, Halt>
    ensures items { ChecksItems (items_of (at a (store_of heap.old))) result }
    ensures same { store_of heap.new ≡ store_of heap.old }
{
    match heap.objects.object_ref(a)? {
        Some(ObjectRef::List { members, .. }) => Ok(members.copy_in(&mut heap.spare)?),
        Some(ObjectRef::Tuple(members)) => Ok(members.copy_in(&mut heap.spare)?),
        _ => object_items(heap, a),
    }
}
