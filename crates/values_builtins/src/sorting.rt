//! `sorted`.
ghost use Rattle.std.specs.Prelude.{◌≡◌, [], true, map, IfOk, is_some};
ghost use Rattle.values_semantics.specs.Heap.{Store};
ghost use Rattle.values_semantics.specs.Functions.{sort, sorted_by, sorted_list, sort_from, plain_order, are_alike, all_so, is_int, as_text};
ghost use Rattle.values_heap.specs.View.{store_of, Says};
ghost use Rattle.values_builtins.specs.Ranks.{int_of, bytes_of, with_bytes};

use crate::orders::{are_alike, are_ints};
use base_types::{Memory, Text};
use std::alloc::Global;
use values_heap::{Bytes, Halt, Heap, ObjectRef, Val};
use values_operators::items;
use values_semantics::faults;

/// Evaluates `sorted(x, reverse = False)`, or returns fault 25 or 5.
pub fn sorted(heap: &mut Heap, xs: &[Val], names: &[(Text, Val)]) -> Result<Val, Halt>
    ensures { Says (sort xs.now names.now (store_of heap.old)) result (store_of heap.new) }
{
    match (xs, names) {
        ([x], []) => sorted_list(heap, *x, false),
        ([x], [named]) => {
            if named.0.as_str() != "reverse" {
                return Err(Halt::Code(faults::WRONG_ARGUMENTS));
            }
            sorted_by(heap, *x, named.1)
        }
        _ => Err(Halt::Code(faults::WRONG_ARGUMENTS)),
    }
}

// Makes a list of the members in order, in the direction that a value says.
fn sorted_by(heap: &mut Heap, x: Val, reverse: Val) -> Result<Val, Halt>
    ensures { Says (sorted_by x reverse (store_of heap.old)) result (store_of heap.new) }
{
    match reverse {
        Val::True => sorted_list(heap, x, true),
        Val::False => sorted_list(heap, x, false),
        _ => Err(Halt::Code(faults::WRONG_TYPE)),
    }
}

// Makes a list of the members in order, or in reverse order.
fn sorted_list(heap: &mut Heap, x: Val, reverse: bool) -> Result<Val, Halt>
    ensures { Says (sorted_list x reverse (store_of heap.old)) result (store_of heap.new) }
{
    let members = items(heap, x)?;
    if !are_alike(heap, members.as_slice())? {
        return Err(Halt::Code(faults::WRONG_TYPE));
    }
    let mut members = sort(heap, members)?;
    if reverse {
        members.reverse();
    }
    heap.make_list(members)
}

// Sorts ints or strings; equal ones keep their order.
fn sort(heap: &Heap, members: Vec<Val>) -> Result<Vec<Val>, Memory>
    requires { are_alike (store_of heap.now) members.items ≡ true }
    ensures { IfOk result (λ v. v.items ≡ sort_from (plain_order (store_of heap.now)) []
        members.items) }
{
    if are_ints(members.as_slice()) {
        let members = sort_ints(members)?;
        Ok(members)
    } else {
        let members = sort_texts(heap, members.as_slice())?;
        Ok(members)
    }
}

// Sorts ints.
fn sort_ints(mut members: Vec<Val>) -> Result<Vec<Val>, Memory>
    requires { all_so is_int members.items ≡ true }
    ensures { (s : Store)
        → IfOk result (λ v. v.items ≡ sort_from (plain_order s) [] members.items) }
{
    members.sort_by_key(|x| int_of(*x))?;
    Ok(members)
}

// Returns the number of an int.
fn int_of(x: Val) -> i64
    ensures { result ≡ int_of x }
{
    match x {
        Val::Int(n) => n,
        _ => 0,
    }
}

// Sorts strings.
fn sort_texts(heap: &Heap, members: &[Val]) -> Result<Vec<Val>, Memory>
    requires { all_so (λ x. is_some (as_text (store_of heap.now) x)) members.now ≡ true }
    ensures { IfOk result (λ v. v.items ≡ sort_from (plain_order (store_of heap.now)) []
        members.now) }
{
    let mut pairs = with_bytes(heap, members)?;
    pairs.sort_by(|x, y| x.0.as_slice().cmp(y.0.as_slice()))?;
    let members = values_of(heap.alloc, pairs.as_slice())?;
    Ok(members)
}

// Returns the values, each with its bytes before it.
fn with_bytes(heap: &Heap, members: &[Val]) -> Result<Vec<(Bytes, Val)>, Memory>
    ensures { IfOk result (λ v. v.items ≡ map (with_bytes (store_of heap.now)) members.now) }
{
    let mut all = Vec::new(heap.alloc);
    for x in members.iter() {
        let bytes = bytes_of(heap, *x)?;
        all.push((bytes, *x))?;
    }
    Ok(all)
}

// Returns values without their bytes.
fn values_of(alloc: Global, pairs: &[(Bytes, Val)]) -> Result<Vec<Val>, Memory>
    ensures { IfOk result (λ v. v.items ≡ map (λ p. p.1) pairs.now) }
{
    let mut all = Vec::new(alloc);
    for pair in pairs.iter() {
        all.push(pair.1)?;
    }
    Ok(all)
}

// Returns the bytes of a string, or no bytes for another value.
fn bytes_of(heap: &Heap, x: Val) -> Result<Bytes, Memory>
    ensures { IfOk result (λ b. b ≡ bytes_of (store_of heap.now) x) }
{
    match x {
        Val::At(place) => match heap.object(place)? {
            Some(ObjectRef::Text(bytes)) => bytes.share(),
            _ => Bytes::new(heap.alloc, Vec::new(heap.alloc)),
        },
        _ => Bytes::new(heap.alloc, Vec::new(heap.alloc)),
    }
}
