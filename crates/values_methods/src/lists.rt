//! The methods of lists.
ghost use Rattle.values_semantics.specs.Heap.{at};
ghost use Rattle.values_semantics.specs.Indexing.{may_change};
ghost use Rattle.values_semantics.specs.Methods.{adds};
ghost use Rattle.values_methods.specs.Cases.{added, objects_added, extended, append_to, extend_to, of_list};
ghost use Rattle.values_heap.specs.View.{store_of, Says};

use crate::names::is_name;
use values_heap::{Halt, Heap, MAX_LENGTH, Object, ObjectRef, Val};
use values_operators::{add, items};
use values_semantics::faults;

/// Calls a method of a list, or returns fault 5, 6, 7, 13 or 25.
pub fn list_method(heap: &mut Heap, a: usize, name: &str, xs: &[Val]) -> Result<Val, Halt>
    ensures { Says (of_list a (at a (store_of heap.old)) name.now xs.now (store_of heap.old)) result
        (store_of heap.new) }
{
    if is_name(name, "append") {
        return append(heap, a, xs);
    }
    if is_name(name, "extend") {
        return extend(heap, a, xs);
    }
    Err(Halt::Code(faults::WRONG_TYPE))
}

/// Executes `x += y`, where the right side is evaluated. With two lists, adds the members of y to x in place, or
/// returns fault 6, 7 or 13. Otherwise returns `x + y`, or fault 5, 9 or 13.
pub fn add_in_place(heap: &mut Heap, x: Val, y: Val) -> Result<Val, Halt>
    ensures { Says (added x y (store_of heap.old)) result (store_of heap.new) }
{
    if let (Val::At(a), Val::At(b)) = (x, y) {
        return add_objects(heap, a, b);
    }
    add(heap, x, y)
}

// Adds what is at a place to what is at another, in place where both are lists.
fn add_objects(heap: &mut Heap, a: usize, b: usize) -> Result<Val, Halt>
    ensures { Says (objects_added a (at a (store_of heap.old)) b (at b (store_of heap.old))
        (store_of heap.old)) result (store_of heap.new) }
{
    let more = match (heap.object(a)?, heap.object(b)?) {
        (Some(ObjectRef::List { .. }), Some(ObjectRef::List { members, .. })) => members.to_vec(
            heap.alloc,
        )?,
        _ => {
            return add(heap, Val::At(a), Val::At(b));
        }
    };
    add_entry(heap, a, more.as_slice())?;
    Ok(Val::At(a))
}

// Executes `append(x)`.
fn append(heap: &mut Heap, a: usize, xs: &[Val]) -> Result<Val, Halt>
    ensures { Says (append_to a (at a (store_of heap.old)) xs.now (store_of heap.old)) result
        (store_of heap.new) }
{
    let [_] = xs else {
        return Err(Halt::Code(faults::WRONG_ARGUMENTS));
    };
    add_entry(heap, a, xs)?;
    Ok(Val::Nothing)
}

// Executes `extend(x)`. The items of x are taken first.
fn extend(heap: &mut Heap, a: usize, xs: &[Val]) -> Result<Val, Halt>
    ensures { Says (extend_to a (at a (store_of heap.old)) xs.now (store_of heap.old)) result
        (store_of heap.new) }
{
    let [x] = xs else {
        return Err(Halt::Code(faults::WRONG_ARGUMENTS));
    };
    let more = items(heap, *x)?;
    add_entry(heap, a, more.as_slice())?;
    Ok(Val::Nothing)
}

// Adds members at the end of a list, in place.
fn add_entry(heap: &mut Heap, a: usize, more: &[Val]) -> Result<(), Halt>
    ensures { Says (adds a (at a (store_of heap.old)) more.now (store_of heap.old)) result
        (store_of heap.new) }
{
    match heap.object(a)? {
        Some(ObjectRef::List { frozen, .. }) => {
            may_change(heap, a, frozen)?;
            extend_members(heap, a, more)?;
            Ok(())
        }
        _ => Err(Halt::Code(faults::WRONG_TYPE)),
    }
}

// Tests whether the object at a place may be changed: returns fault 6 if it is frozen, 7 if it is iterated.
#[tactic(auto, using(values_heap::proofs::Iterations::iterated_alike))]
fn may_change(heap: &Heap, a: usize, frozen: bool) -> Result<(), Halt>
    ensures { Says (may_change a frozen (store_of heap.now)) result (store_of heap.now) }
{
    if frozen {
        return Err(Halt::Code(faults::FROZEN));
    }
    if heap.iterated.as_slice().contains(&a) {
        return Err(Halt::Code(faults::ITERATED));
    }
    Ok(())
}

// Adds members at the end of a list, or returns fault 13.
fn extend_members(heap: &mut Heap, a: usize, more: &[Val]) -> Result<(), Halt>
    ensures { Says (extended a (at a (store_of heap.old)) more.now (store_of heap.old)) result
        (store_of heap.new) }
{
    let Some(object) = heap.take(a)? else {
        return Err(Halt::Code(faults::WRONG_TYPE));
    };
    let Object::List {
        members: mut members,
        frozen,
    } = object.in_full(heap.alloc)?
    else {
        return Err(Halt::Code(faults::WRONG_TYPE));
    };
    if members.len() > MAX_LENGTH || more.len() > MAX_LENGTH - members.len() {
        return Err(Halt::Code(faults::TOO_LARGE));
    }
    members.extend_from_slice(more)?;
    heap.put(a, Object::List { members, frozen })?;
    heap.charge_members(more.len())?;
    Ok(())
}
