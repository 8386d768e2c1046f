//! `repr` and `str`.
ghost use Rattle.values_semantics.specs.Heap.{at};
ghost use Rattle.values_semantics.specs.Printing.{repr, str, str_object};
ghost use Rattle.values_semantics.specs.declared.val.Val.TheVariants.{At};
ghost use Rattle.values_heap.specs.View.{store_of, Says};

use crate::printing;
use crate::text_buffer::TextBuffer;
use values_heap::{Halt, Heap, MAX_DEPTH, ObjectRef, Val};
use values_semantics::faults;

/// Evaluates `repr(x)`, a new string, or returns fault 11 or 12 while it prints, and 13 at its end.
pub fn print(heap: &mut Heap, x: Val) -> Result<Val, Halt>
    ensures { Says (repr x (store_of heap.old)) result (store_of heap.new) }
{
    let mut out = TextBuffer::new(heap.alloc);
    printing::print(&heap.objects, &mut heap.steps, x, MAX_DEPTH, &mut out)?;
    let TextBuffer { bytes, long } = out;
    if long {
        return Err(Halt::Code(faults::TOO_LARGE));
    }
    let made = heap.make_text(bytes)?;
    Ok(made)
}

/// Evaluates `str(x)`, which returns a string itself, or returns fault 11, 12 or 13.
pub fn text(heap: &mut Heap, x: Val) -> Result<Val, Halt>
    ensures { Says (str x (store_of heap.old)) result (store_of heap.new) }
{
    match x {
        Val::At(place) => {
            let made = object_text(heap, place)?;
            Ok(made)
        }
        _ => {
            let made = print(heap, x)?;
            Ok(made)
        }
    }
}

// Evaluates `str` of the object at a place.
fn object_text(heap: &mut Heap, place: usize) -> Result<Val, Halt>
    ensures { Says (str_object (at place (store_of heap.old)) (At place) (store_of heap.old)) result
        (store_of heap.new) }
{
    match heap.object(place)? {
        Some(ObjectRef::Text(_)) => return Ok(Val::At(place)),
        Some(ObjectRef::List { .. }) => {}
        Some(ObjectRef::Tuple(_)) => {}
        Some(ObjectRef::Dict { .. }) => {}
        Some(ObjectRef::Function(_, _)) => {}
        None => {}
    }
    let made = print(heap, Val::At(place))?;
    Ok(made)
}
