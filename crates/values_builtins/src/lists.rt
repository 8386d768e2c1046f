//! New lists and tuples.
ghost use Rattle.std.specs.Prelude.{[]};
ghost use Rattle.values_semantics.specs.Heap.{makes_list, makes_tuple};
ghost use Rattle.values_builtins.specs.Parts.{list_from, tuple_from, reversed_from};
ghost use Rattle.values_heap.specs.View.{store_of, Says};

use values_heap::{Halt, Heap, Val};
use values_operators::copy_items;

/// Evaluates `list()`.
pub fn no_list(heap: &mut Heap) -> Result<Val, Halt>
    ensures { Says (makes_list [] (store_of heap.old)) result (store_of heap.new) }
{
    heap.make_list(Vec::new(heap.alloc))
}

/// Evaluates `list(x)`, or returns fault 5.
pub fn list(heap: &mut Heap, x: Val) -> Result<Val, Halt>
    ensures { Says (list_from x (store_of heap.old)) result (store_of heap.new) }
{
    let members = copy_items(heap, x)?;
    heap.make_list(members)
}

/// Evaluates `tuple()`.
pub fn no_tuple(heap: &mut Heap) -> Result<Val, Halt>
    ensures { Says (makes_tuple [] (store_of heap.old)) result (store_of heap.new) }
{
    heap.make_tuple(Vec::new(heap.alloc))
}

/// Evaluates `tuple(x)`, or returns fault 5.
pub fn tuple(heap: &mut Heap, x: Val) -> Result<Val, Halt>
    ensures { Says (tuple_from x (store_of heap.old)) result (store_of heap.new) }
{
    let members = copy_items(heap, x)?;
    heap.make_tuple(members)
}

/// Evaluates `reversed(x)`, or returns fault 5.
pub fn reversed(heap: &mut Heap, x: Val) -> Result<Val, Halt>
    ensures { Says (reversed_from x (store_of heap.old)) result (store_of heap.new) }
{
    let mut members = copy_items(heap, x)?;
    members.reverse();
    heap.make_list(members)
}
