//! Ints and strings in order: `min` and `max`.
ghost use Rattle.std.specs.Prelude.{◌≡◌, Some, option_map, is_some, IfOk};
ghost use Rattle.std.specs.Ordering.{is_lt, is_gt};
ghost use Rattle.values_semantics.specs.Functions.{plain_order, as_text, is_int, all_so, are_alike, best, best_of, extreme};
ghost use Rattle.values_heap.specs.View.{store_of, Says};
ghost use Rattle.values_builtins.specs.Ranks.{is_better};

use base_types::Memory;
use std::cmp::Ordering;
use values_heap::{Halt, Heap, ObjectRef, Val};
use values_operators::items;
use values_semantics::faults;

/// Evaluates `min(..)`, or returns fault 25 or 5.
pub fn min(heap: &Heap, xs: &[Val]) -> Result<Val, Halt>
    ensures { Says (extreme is_lt xs.now (store_of heap.now)) result (store_of heap.now) }
{
    extreme(heap, xs, false)
}

/// Evaluates `max(..)`, or returns fault 25 or 5.
pub fn max(heap: &Heap, xs: &[Val]) -> Result<Val, Halt>
    ensures { Says (extreme is_gt xs.now (store_of heap.now)) result (store_of heap.now) }
{
    extreme(heap, xs, true)
}

// Returns the first of the least of the arguments, or of the members of the only one. Returns the first of the greatest
// if that is asked for.
fn extreme(heap: &Heap, xs: &[Val], greatest: bool) -> Result<Val, Halt>
    ensures { Says (extreme (is_better greatest) xs.now (store_of heap.now)) result
        (store_of heap.now) }
{
    match xs {
        [] => Err(Halt::Code(faults::WRONG_ARGUMENTS)),
        [x] => {
            let members = items(heap, *x)?;
            best_of(heap, members.as_slice(), greatest)
        }
        [_, _, ..] => best_of(heap, xs, greatest),
    }
}

// Returns the first of the least, or of the greatest.
fn best_of(heap: &Heap, xs: &[Val], greatest: bool) -> Result<Val, Halt>
    ensures { Says (best_of (is_better greatest) xs.now (store_of heap.now)) result
        (store_of heap.now) }
{
    match xs {
        [] => Err(Halt::Code(faults::WRONG_ARGUMENTS)),
        [x, others @ ..] => {
            if !are_alike(heap, xs)? {
                return Err(Halt::Code(faults::WRONG_TYPE));
            }
            Ok(best(heap, *x, others, greatest)?)
        }
    }
}

// Returns the first of the least or greatest of a value and others.
fn best(heap: &Heap, x: Val, others: &[Val], greatest: bool) -> Result<Val, Memory>
    ensures { IfOk result (λ y. y ≡ best (is_better greatest) (plain_order (store_of heap.now)) x
        others.now) }
{
    let mut found = x;
    for y in others.iter() {
        if is_better(plain_order(heap, *y, found)?, greatest) {
            found = *y;
        }
    }
    Ok(found)
}

// Returns whether an order makes a value better.
fn is_better(o: Ordering, greatest: bool) -> bool
    ensures { result ≡ is_better greatest o }
{
    if greatest { o.is_gt() } else { o.is_lt() }
}

/// Returns whether the values are all ints, or all strings, or `Memory` if one has been freed.
pub fn are_alike(heap: &Heap, xs: &[Val]) -> Result<bool, Memory>
    ensures { IfOk result (λ b. b ≡ are_alike (store_of heap.now) xs.now) }
{
    if are_ints(xs) {
        return Ok(true);
    }
    are_texts(heap, xs)
}

/// Returns whether the values are all ints.
pub fn are_ints(xs: &[Val]) -> bool
    ensures { result ≡ all_so is_int xs.now }
{
    for x in xs.iter() {
        let Val::Int(_) = x else {
            return false;
        };
    }
    true
}

// Returns whether the values are all strings.
fn are_texts(heap: &Heap, xs: &[Val]) -> Result<bool, Memory>
    ensures { IfOk result (λ b. b ≡ all_so (λ x. is_some (as_text (store_of heap.now) x)) xs.now) }
{
    for x in xs.iter() {
        if text_of(heap, *x)?.is_none() {
            return Ok(false);
        }
    }
    Ok(true)
}

// Returns the order of two ints or two strings.
fn plain_order(heap: &Heap, x: Val, y: Val) -> Result<Ordering, Memory>
    ensures { IfOk result (λ o. o ≡ plain_order (store_of heap.now) x y) }
{
    match (x, y) {
        (Val::Int(a), Val::Int(b)) => Ok(a.cmp(&b)),
        _ => match (text_of(heap, x)?, text_of(heap, y)?) {
            (Some(a), Some(b)) => Ok(a.cmp(b)),
            _ => Ok(Ordering::Equal),
        },
    }
}

/// Returns the bytes of a value that is a string, or `Memory` if it has been freed.
pub fn text_of<'a>(heap: &'a Heap, x: Val) -> Result<Option<&'a [u8]>, Memory>
    ensures { IfOk result (λ found. as_text (store_of heap.now) x ≡ option_map (λ t. t.now) found) }
{
    match x {
        Val::At(place) => match heap.object(place)? {
            Some(ObjectRef::Text(bytes)) => Ok(Some(bytes.as_slice())),
            _ => Ok(None),
        },
        _ => Ok(None),
    }
}
