//! `in`.
ghost use Rattle.std.specs.Prelude.{◌≡◌, map};
ghost use Rattle.values_semantics.specs.Comparing.{equal};
ghost use Rattle.values_semantics.specs.Membership.{any_equal, is_part, text_has, object_has, hashed_has, has_key, has};
ghost use Rattle.values_semantics.specs.Heap.{at};
ghost use Rattle.values_objects.specs.Standings.{object_in};
ghost use Rattle.values_heap.specs.View.{store_of, Says, Checks};

use crate::equality::equal;
use crate::walks::hash;
use memchr::memmem;
use values_heap::{Halt, Heap, Key, MAX_DEPTH, Members, ObjectRef, Objects, Val};
use values_semantics::faults;

// Returns whether a text is a part of another.
#[tactic(auto, using(crate::proofs::Parts::part_found))]
fn is_part(part: &[u8], whole: &[u8]) -> bool
    ensures { result ≡ is_part part.now whole.now }
{
    memmem::find(whole, part).is_some()
}

// Returns whether a value is equal to one of the members. Compares each in order, up to the first that is equal.
#[tactic(auto, using(crate::proofs::Members::any_same, crate::proofs::Members::any_differ, crate::proofs::Members::any_over))]
fn any_equal(
    objects: &Objects,
    steps: &mut u64,
    x: Val,
    members: &Members<'_>,
    left: u32,
) -> Result<bool, Halt>
    ensures { Says (any_equal (equal left (map object_in objects.now)) x members.now steps.old)
        result steps.new }
{
    for i in 0..members.len() {
        let Some(y) = members.get(i) else {
            return Ok(false);
        };
        match equal(objects, steps, x, y, left) {
            Ok(true) => return Ok(true),
            Ok(false) => {}
            Err(halt) => return Err(halt),
        }
    }
    Ok(false)
}

/// Evaluates `x in a`: whether `x` is a member of a list or tuple, a key of a dictionary, or a part of a string. The
/// faults are 5, 11 and 12.
pub fn has(heap: &mut Heap, x: Val, a: Val) -> Result<bool, Halt>
    ensures { Says (has x a (store_of heap.old)) result (store_of heap.new) }
{
    match a {
        Val::At(place) => object_has(heap, place, x),
        _ => Err(Halt::Code(faults::WRONG_TYPE)),
    }
}

// Returns whether a value is in an object.
fn object_has(heap: &mut Heap, a: usize, x: Val) -> Result<bool, Halt>
    ensures { Says (object_has (at a (store_of heap.old)) x (store_of heap.old)) result
        (store_of heap.new) }
{
    match heap.objects.object_ref(a)? {
        Some(ObjectRef::Text(whole)) => text_has(&heap.objects, whole.as_slice(), x),
        Some(ObjectRef::List { members, .. }) => {
            any_equal(&heap.objects, &mut heap.steps, x, &members, MAX_DEPTH)
        }
        Some(ObjectRef::Tuple(members)) => {
            any_equal(&heap.objects, &mut heap.steps, x, &members, MAX_DEPTH)
        }
        Some(ObjectRef::Dict { .. }) => hashed_has(heap, a, x),
        Some(ObjectRef::Function(_, _)) => Err(Halt::Code(faults::WRONG_TYPE)),
        None => Err(Halt::Code(faults::WRONG_TYPE)),
    }
}

// Returns whether a value is a key of a dictionary.
#[tactic(auto, unfolding(values_semantics::specs::Membership::hashed_has))]
fn hashed_has(heap: &mut Heap, a: usize, x: Val) -> Result<bool, Halt>
    ensures { Says (hashed_has (at a (store_of heap.old)) x (store_of heap.old)) result
        (store_of heap.new) }
{
    let key = hash(heap, x)?;
    has_key(heap, a, &key)
}

// Returns whether a dictionary has a key.
fn has_key(heap: &Heap, a: usize, key: &Key) -> Result<bool, Halt>
    ensures { Says (has_key (at a (store_of heap.now)) key.now (store_of heap.now)) result
        (store_of heap.now) }
{
    match heap.object(a)? {
        Some(ObjectRef::Dict { entries, .. }) => Ok(entries.get(key).is_some()),
        _ => Err(Halt::Code(faults::WRONG_TYPE)),
    }
}

// Returns whether a value is a part of a text.
fn text_has(objects: &Objects, whole: &[u8], x: Val) -> Result<bool, Halt>
    ensures { Checks (text_has (map object_in objects.now) whole.now x) result }
{
    match x {
        Val::At(place) => match objects.object_ref(place)? {
            Some(ObjectRef::Text(part)) => Ok(is_part(part.as_slice(), whole)),
            _ => Err(Halt::Code(faults::WRONG_TYPE)),
        },
        _ => Err(Halt::Code(faults::WRONG_TYPE)),
    }
}
