//! Arithmetic, concatenation and repetition.
ghost use Rattle.std.specs.Prelude.{◌≡◌, IfOk};
ghost use Rattle.values_semantics.specs.Heap.{at};
ghost use Rattle.values_semantics.specs.Operators.{add, subtract, multiply, divide, remainder, joins, repeats, negate, plus, is_true, object_is_true};
ghost use Rattle.values_heap.specs.View.{store_of, Says};

use crate::numbers;
use base_types::Memory;
use values_heap::{Halt, Heap, ObjectRef, Val, concat, repeated};
use values_semantics::faults;

/// Evaluates `a + b`.
pub fn add(heap: &mut Heap, a: Val, b: Val) -> Result<Val, Halt>
    ensures { Says (add a b (store_of heap.old)) result (store_of heap.new) }
{
    match (a, b) {
        (Val::Int(x), Val::Int(y)) => x
            .checked_add(y)
            .map(Val::Int)
            .ok_or(Halt::Code(faults::OVERFLOW)),
        (Val::At(x), Val::At(y)) => join(heap, x, y),
        _ => Err(Halt::Code(faults::WRONG_TYPE)),
    }
}

// Joins two strings, lists or tuples, one after the other.
fn join(heap: &mut Heap, a: usize, b: usize) -> Result<Val, Halt>
    ensures { Says (joins (at a (store_of heap.old)) (at b (store_of heap.old)) (store_of heap.old))
        result (store_of heap.new) }
{
    match heap.objects.object_ref(a)? {
        Some(ObjectRef::Text(x)) => match heap.objects.object_ref(b)? {
            Some(ObjectRef::Text(y)) => {
                let bytes = concat(heap.alloc, x.as_slice(), y.as_slice())?;
                heap.make_text(bytes)
            }
            _ => Err(Halt::Code(faults::WRONG_TYPE)),
        },
        Some(ObjectRef::List { members: x, .. }) => match heap.objects.object_ref(b)? {
            Some(ObjectRef::List { members: y, .. }) => {
                let members = x.concat(&mut heap.spare, &y)?;
                heap.make_list(members)
            }
            _ => Err(Halt::Code(faults::WRONG_TYPE)),
        },
        Some(ObjectRef::Tuple(x)) => match heap.objects.object_ref(b)? {
            Some(ObjectRef::Tuple(y)) => {
                let members = x.concat(&mut heap.spare, &y)?;
                heap.make_tuple(members)
            }
            _ => Err(Halt::Code(faults::WRONG_TYPE)),
        },
        _ => Err(Halt::Code(faults::WRONG_TYPE)),
    }
}

/// Evaluates `a - b`.
pub fn subtract(heap: &mut Heap, a: Val, b: Val) -> Result<Val, Halt>
    ensures { Says (subtract a b (store_of heap.old)) result (store_of heap.new) }
{
    match (a, b) {
        (Val::Int(x), Val::Int(y)) => x
            .checked_sub(y)
            .map(Val::Int)
            .ok_or(Halt::Code(faults::OVERFLOW)),
        _ => Err(Halt::Code(faults::WRONG_TYPE)),
    }
}

/// Evaluates `a * b`.
pub fn multiply(heap: &mut Heap, a: Val, b: Val) -> Result<Val, Halt>
    ensures { Says (multiply a b (store_of heap.old)) result (store_of heap.new) }
{
    match (a, b) {
        (Val::Int(x), Val::Int(y)) => x
            .checked_mul(y)
            .map(Val::Int)
            .ok_or(Halt::Code(faults::OVERFLOW)),
        (Val::At(x), Val::Int(n)) => repeat(heap, x, n),
        (Val::Int(n), Val::At(x)) => repeat(heap, x, n),
        _ => Err(Halt::Code(faults::WRONG_TYPE)),
    }
}

// Repeats a string, list or tuple `n` times.
fn repeat(heap: &mut Heap, a: usize, n: i64) -> Result<Val, Halt>
    ensures { Says (repeats (at a (store_of heap.old)) n (store_of heap.old)) result
        (store_of heap.new) }
{
    match heap.objects.object_ref(a)? {
        Some(ObjectRef::Text(x)) => {
            let bytes = repeated(heap.alloc, x.as_slice(), n)?;
            heap.make_text(bytes)
        }
        Some(ObjectRef::List { members: x, .. }) => {
            let members = x.repeat(&mut heap.spare, n)?;
            heap.make_list(members)
        }
        Some(ObjectRef::Tuple(x)) => {
            let members = x.repeat(&mut heap.spare, n)?;
            heap.make_tuple(members)
        }
        Some(ObjectRef::Dict { .. }) => Err(Halt::Code(faults::WRONG_TYPE)),
        Some(ObjectRef::Function(_, _)) => Err(Halt::Code(faults::WRONG_TYPE)),
        None => Err(Halt::Code(faults::WRONG_TYPE)),
    }
}

/// Evaluates `a // b`.
pub fn divide(heap: &mut Heap, a: Val, b: Val) -> Result<Val, Halt>
    ensures { Says (divide a b (store_of heap.old)) result (store_of heap.new) }
{
    match (a, b) {
        (Val::Int(x), Val::Int(y)) => numbers::divide(x, y),
        _ => Err(Halt::Code(faults::WRONG_TYPE)),
    }
}

/// Evaluates `a % b`.
pub fn remainder(heap: &mut Heap, a: Val, b: Val) -> Result<Val, Halt>
    ensures { Says (remainder a b (store_of heap.old)) result (store_of heap.new) }
{
    match (a, b) {
        (Val::Int(x), Val::Int(y)) => numbers::remainder(x, y),
        _ => Err(Halt::Code(faults::WRONG_TYPE)),
    }
}

/// Evaluates `-a`.
pub fn negate(heap: &mut Heap, a: Val) -> Result<Val, Halt>
    ensures { Says (negate a (store_of heap.old)) result (store_of heap.new) }
{
    match a {
        Val::Int(x) => x
            .checked_neg()
            .map(Val::Int)
            .ok_or(Halt::Code(faults::OVERFLOW)),
        _ => Err(Halt::Code(faults::WRONG_TYPE)),
    }
}

/// Evaluates `+a`.
pub fn plus(heap: &mut Heap, a: Val) -> Result<Val, Halt>
    ensures { Says (plus a (store_of heap.old)) result (store_of heap.new) }
{
    match a {
        Val::Int(x) => Ok(Val::Int(x)),
        _ => Err(Halt::Code(faults::WRONG_TYPE)),
    }
}

/// Returns whether a value counts as true, or `Memory` if it has been freed.
pub fn is_true(heap: &Heap, a: Val) -> Result<bool, Memory>
    ensures { IfOk result (λ b. b ≡ is_true a (store_of heap.now)) }
{
    match a {
        Val::Nothing => Ok(false),
        Val::True => Ok(true),
        Val::False => Ok(false),
        Val::Int(n) => Ok(n != 0),
        Val::Builtin(_) => Ok(true),
        Val::At(place) => is_object_true(heap, place),
    }
}

// Returns whether an object counts as true.
fn is_object_true(heap: &Heap, place: usize) -> Result<bool, Memory>
    ensures { IfOk result (λ b. b ≡ object_is_true (at place (store_of heap.now))) }
{
    match heap.object(place)? {
        Some(ObjectRef::Text(bytes)) => Ok(!bytes.as_slice().is_empty()),
        Some(ObjectRef::List { members, .. }) => Ok(!members.is_empty()),
        Some(ObjectRef::Tuple(members)) => Ok(!members.is_empty()),
        Some(ObjectRef::Dict { entries, .. }) => Ok(!entries.is_empty()),
        Some(ObjectRef::Function(_, _)) => Ok(true),
        None => Ok(false),
    }
}
