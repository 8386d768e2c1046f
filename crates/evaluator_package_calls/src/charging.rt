//! What the arguments of a rule are charged, since the target keeps texts of its own.
ghost use Rattle.std.specs.Prelude.{◌≡◌, ◌+◌, ◌*◌, IfOk, OnOk, length, slice_get};
ghost use Rattle.std.specs.List.{sum_by};
ghost use Rattle.values_heap.specs.MemoryUse.{place_bytes};
ghost use Rattle.values_heap.specs.View.{store_of};
ghost use Rattle.evaluator_package_calls.specs.Charges.{value_bytes, member_bytes, found_bytes, list_members, argument_bytes};

use base_types::Memory;
use values_heap::{Halt, Heap, ObjectRef, Val};

// Returns how many members the list at a place has. What is no list has none.
fn member_count(heap: &Heap, place: usize) -> Result<usize, Memory>
    ensures { IfOk result (λ n. n ≡ length (list_members place (store_of heap.now))) }
{
    match heap.object(place)? {
        Some(ObjectRef::List { members, .. }) => Ok(members.len()),
        _ => Ok(0),
    }
}

// Returns a member of the list at a place, if it has that many.
fn member_at(heap: &Heap, place: usize, i: usize) -> Result<Option<Val>, Memory>
    ensures { IfOk result (λ x. x ≡ slice_get (list_members place (store_of heap.now)) i) }
{
    match heap.object(place)? {
        Some(ObjectRef::List { members, .. }) => Ok(members.get(i)),
        _ => Ok(None),
    }
}

// Charges a copy of what is at a place.
fn charge_place(heap: &mut Heap, place: usize) -> Result<(), Memory>
    ensures same { store_of heap.new ≡ store_of heap.old }
    ensures charged { OnOk result
        (heap.new.held ≡ heap.old.held + place_bytes place (store_of heap.old)) }
{
    match heap.charge_copy(place) {
        Ok(()) => Ok(()),
        Err(Halt::Memory(error)) => Err(error),
        Err(Halt::Code(_)) => unreachable!(),
    }
}

// Charges members of a list.
fn charge_prefix(heap: &mut Heap, prefix: usize) -> Result<(), Memory>
    ensures same { store_of heap.new ≡ store_of heap.old }
    ensures charged { OnOk result (heap.new.held ≡ heap.old.held + prefix * 16) }
{
    match heap.charge_members(prefix) {
        Ok(()) => Ok(()),
        Err(Halt::Memory(error)) => Err(error),
        Err(Halt::Code(_)) => unreachable!(),
    }
}

// Charges a copy of a value.
fn charge_value(heap: &mut Heap, x: Val) -> Result<(), Memory>
    ensures same { store_of heap.new ≡ store_of heap.old }
    ensures charged { OnOk result
        (heap.new.held ≡ heap.old.held + value_bytes (store_of heap.old) x) }
{
    match x {
        Val::At(place) => charge_place(heap, place),
        _ => Ok(()),
    }
}

// Charges a copy of a member of the list at a place, and as many members of a list as come with it.
fn charge_member(heap: &mut Heap, prefix: usize, place: usize, i: usize) -> Result<(), Memory>
    ensures same { store_of heap.new ≡ store_of heap.old }
    ensures charged { OnOk result (heap.new.held ≡ heap.old.held + found_bytes prefix
        (store_of heap.old) (slice_get (list_members place (store_of heap.old)) i)) }
{
    match member_at(heap, place, i)? {
        Some(x) => {
            charge_prefix(heap, prefix)?;
            charge_value(heap, x)
        }
        None => Ok(()),
    }
}

// Charges copies of the members of the list at a place.
fn charge_list(heap: &mut Heap, prefix: usize, place: usize) -> Result<(), Memory>
    ensures same { store_of heap.new ≡ store_of heap.old }
    ensures charged { OnOk result (heap.new.held ≡ heap.old.held + sum_by
        (member_bytes prefix (store_of heap.old)) (list_members place (store_of heap.old))) }
{
    let number = member_count(heap, place)?;
    for i in 0..number {
        charge_member(heap, prefix, place, i)?;
    }
    Ok(())
}

// Charges a copy of an argument, and of its members if it is a list.
fn charge_argument(heap: &mut Heap, prefix: usize, x: Val) -> Result<(), Memory>
    ensures same { store_of heap.new ≡ store_of heap.old }
    ensures charged { OnOk result
        (heap.new.held ≡ heap.old.held + argument_bytes prefix (store_of heap.old) x) }
{
    match x {
        Val::At(place) => {
            charge_prefix(heap, prefix)?;
            charge_place(heap, place)?;
            charge_list(heap, prefix, place)
        }
        _ => Ok(()),
    }
}

/// Charges copies of the arguments of a rule, and of the members of those that are lists. For each of them `prefix`
/// members of a list are charged besides, for the name of the package that comes before the texts of labels.
pub fn charge_arguments(heap: &mut Heap, prefix: usize, values: &[Val]) -> Result<(), Memory>
    ensures same { store_of heap.new ≡ store_of heap.old }
    ensures charged { OnOk result (heap.new.held ≡ heap.old.held + sum_by
        (argument_bytes prefix (store_of heap.old)) values.now) }
{
    for x in values {
        charge_argument(heap, prefix, *x)?;
    }
    Ok(())
}
