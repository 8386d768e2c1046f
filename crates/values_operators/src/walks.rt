//! Walks that begin outside of all containers.
ghost use Rattle.std.specs.Prelude.{◌≡◌};
ghost use Rattle.values_semantics.specs.Comparing.{equals, compares};
ghost use Rattle.values_semantics.specs.Indexing.{hash};
ghost use Rattle.values_heap.specs.View.{store_of, Says};

use crate::equality;
use crate::hashing::key_of;
use crate::ordering::order;
use std::cmp::Ordering;
use values_heap::{Halt, Heap, Key, MAX_DEPTH, Val};

/// Returns the key that a value is, by a walk, or fault 5 for a value that cannot be a key, or 11 or 12.
#[inline(always)]
pub fn hash(heap: &mut Heap, x: Val) -> Result<Key, Halt>
    ensures says { Says (hash x (store_of heap.old)) result (store_of heap.new) }
    ensures kept { heap.new.objects ≡ heap.old.objects }
{
    key_of(heap.alloc, &heap.objects, &mut heap.steps, x, MAX_DEPTH)
}

/// Evaluates `a == b`, or returns fault 11 or 12.
pub fn equal(heap: &mut Heap, a: Val, b: Val) -> Result<bool, Halt>
    ensures { Says (equals a b (store_of heap.old)) result (store_of heap.new) }
{
    equality::equal(&heap.objects, &mut heap.steps, a, b, MAX_DEPTH)
}

/// Returns the order of two values, or fault 5, 11 or 12.
pub fn compare(heap: &mut Heap, a: Val, b: Val) -> Result<Ordering, Halt>
    ensures { Says (compares a b (store_of heap.old)) result (store_of heap.new) }
{
    order(&heap.objects, &mut heap.steps, a, b, MAX_DEPTH)
}
