//! Calls of methods.
ghost use Rattle.std.specs.Prelude.{◌≡◌, IfOk};
ghost use Rattle.values_semantics.specs.Heap.{at};
ghost use Rattle.values_semantics.specs.Methods.{method, object_method, has_method};
ghost use Rattle.values_heap.specs.View.{store_of, Says};

use crate::dictionaries::dict_method;
use crate::lists::list_method;
use crate::names::is_name;
use crate::strings::text_method;
use base_types::{Memory, Text};
use values_heap::{Halt, Heap, ObjectRef, Val};
use values_semantics::faults;

/// Calls `x.name(..)` with its positional and its named arguments. No method takes a named one. Returns fault 5 for an
/// unknown method, then 25, then 5 for a wrong type. The method's own faults are 6, 7, 11, 12 or 13.
pub fn method(
    heap: &mut Heap,
    x: Val,
    name: &str,
    xs: &[Val],
    named: &[(Text, Val)],
) -> Result<Val, Halt>
    ensures { Says (method x name.now xs.now named.now (store_of heap.old)) result
        (store_of heap.new) }
{
    match x {
        Val::At(place) => {
            if !named.is_empty() {
                if has_method(heap, place, name)? {
                    return Err(Halt::Code(faults::WRONG_ARGUMENTS));
                }
                return Err(Halt::Code(faults::WRONG_TYPE));
            }
            object_method(heap, place, name, xs)
        }
        _ => Err(Halt::Code(faults::WRONG_TYPE)),
    }
}

// Calls a method of the object at a place.
#[tactic(auto, using(crate::proofs::Bridges::text_here, crate::proofs::Bridges::list_here, crate::proofs::Bridges::dict_here))]
fn object_method(heap: &mut Heap, a: usize, name: &str, xs: &[Val]) -> Result<Val, Halt>
    ensures { Says (object_method a (at a (store_of heap.old)) name.now xs.now (store_of heap.old))
        result (store_of heap.new) }
{
    let found = heap.object(a)?;
    match found {
        Some(ObjectRef::Text(bytes)) => {
            let whole = bytes.share()?;
            text_method(heap, whole.as_slice(), name, xs)
        }
        Some(ObjectRef::List { .. }) => list_method(heap, a, name, xs),
        Some(ObjectRef::Dict { .. }) => dict_method(heap, a, name, xs),
        Some(ObjectRef::Tuple(_)) => Err(Halt::Code(faults::WRONG_TYPE)),
        Some(ObjectRef::Function(_, _)) => Err(Halt::Code(faults::WRONG_TYPE)),
        None => Err(Halt::Code(faults::WRONG_TYPE)),
    }
}

// Returns whether the object at a place has a method of this name.
fn has_method(heap: &Heap, a: usize, name: &str) -> Result<bool, Memory>
    ensures { IfOk result (λ b. b ≡ has_method (at a (store_of heap.now)) name.now) }
{
    match heap.object(a)? {
        Some(ObjectRef::Text(_)) => Ok(
            is_name(name, "startswith")
                || is_name(name, "endswith")
                || is_name(name, "join")
                || is_name(name, "split")
                || is_name(name, "replace")
                || is_name(name, "strip"),
        ),
        Some(ObjectRef::List { .. }) => Ok(is_name(name, "append") || is_name(name, "extend")),
        Some(ObjectRef::Dict { .. }) => Ok(
            is_name(name, "get")
                || is_name(name, "keys")
                || is_name(name, "values")
                || is_name(name, "items"),
        ),
        _ => Ok(false),
    }
}
