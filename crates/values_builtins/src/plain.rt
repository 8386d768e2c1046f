//! Functions of one value.
ghost use Rattle.std.specs.Prelude.{◌≡◌, IfOk, ◌<◌, ◌^◌};
ghost use Rattle.values_semantics.specs.Outcome.{gives};
ghost use Rattle.values_semantics.specs.Heap.{at};
ghost use Rattle.values_semantics.specs.Operators.{is_true};
ghost use Rattle.values_semantics.specs.Functions.{len, length_of, type_of, object_type, truth_of};
ghost use Rattle.values_heap.specs.View.{store_of, Says, Checks};
ghost use Rattle.values_builtins.specs.Results.{ChecksBytes};
ghost use Rattle.values_builtins.specs.Parts.{type_text};

use base_types::Memory;
use values_heap::{Halt, Heap, ObjectRef, Val};
use values_operators::is_true;
use values_semantics::faults;

/// Evaluates `len(x)`, or returns fault 5.
pub fn len(heap: &Heap, x: Val) -> Result<Val, Halt>
    ensures { Says (len x (store_of heap.now)) result (store_of heap.now) }
{
    match x {
        Val::At(place) => {
            let n = object_length(heap, place)?;
            Ok(Val::Int(n as i64))
        }
        _ => Err(Halt::Code(faults::WRONG_TYPE)),
    }
}

// Returns how many bytes or members an object has.
fn object_length(heap: &Heap, place: usize) -> Result<usize, Halt>
    ensures value { Checks (length_of (at place (store_of heap.now))) result }
    ensures within { IfOk result (λ n. n < 2 ^ 63) }
{
    match heap.object(place)? {
        Some(ObjectRef::Text(bytes)) => Ok(bytes.as_slice().len()),
        Some(ObjectRef::List { members, .. }) => Ok(members.len()),
        Some(ObjectRef::Tuple(members)) => Ok(members.len()),
        Some(ObjectRef::Dict { entries, .. }) => Ok(entries.len()),
        Some(ObjectRef::Function(_, _)) => Err(Halt::Code(faults::WRONG_TYPE)),
        None => Err(Halt::Code(faults::WRONG_TYPE)),
    }
}

/// Evaluates `type(x)`, a new string.
pub fn type_of(heap: &mut Heap, x: Val) -> Result<Val, Halt>
    ensures { Says (type_text x (store_of heap.old)) result (store_of heap.new) }
{
    let name = type_name(heap, x)?;
    let bytes = Vec::from_slice(heap.alloc, name)?;
    heap.make_text(bytes)
}

// Returns the name of a value's type.
fn type_name(heap: &Heap, x: Val) -> Result<&'static [u8], Halt>
    ensures { ChecksBytes (type_of x (store_of heap.now)) result }
{
    match x {
        Val::Nothing => Ok(b"NoneType"),
        Val::True => Ok(b"bool"),
        Val::False => Ok(b"bool"),
        Val::Int(_) => Ok(b"int"),
        Val::Builtin(_) => Ok(b"function"),
        Val::At(place) => object_type(heap, place),
    }
}

// Returns the name of an object's type.
fn object_type(heap: &Heap, place: usize) -> Result<&'static [u8], Halt>
    ensures { ChecksBytes (object_type (at place (store_of heap.now))) result }
{
    match heap.object(place)? {
        Some(ObjectRef::Text(_)) => Ok(b"string"),
        Some(ObjectRef::List { .. }) => Ok(b"list"),
        Some(ObjectRef::Tuple(_)) => Ok(b"tuple"),
        Some(ObjectRef::Dict { .. }) => Ok(b"dict"),
        Some(ObjectRef::Function(_, _)) => Ok(b"function"),
        None => Err(Halt::Code(faults::WRONG_TYPE)),
    }
}

/// Evaluates `bool(x)`.
pub fn truth(heap: &Heap, x: Val) -> Result<Val, Memory>
    ensures { IfOk result (λ b. truth_of (is_true x (store_of heap.now)) (store_of heap.now)
        ≡ gives b (store_of heap.now)) }
{
    Ok(Val::boolean(is_true(heap, x)?))
}
