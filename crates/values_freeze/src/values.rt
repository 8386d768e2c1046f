//! Freezing.
ghost use Rattle.values_semantics.specs.Freezing.{freezes};
ghost use Rattle.values_heap.specs.View.{store_of};
ghost use Rattle.values_freeze.specs.View.{SaysFrozen};

use crate::frozen::Frozen;
use crate::walk;
use values_heap::{Halt, Heap, MAX_DEPTH, Val};

/// Returns the tree of a value, by a walk that begins outside of all containers, or fault 11 or 12.
pub fn freeze(heap: &mut Heap, x: Val) -> Result<Frozen, Halt>
    ensures { SaysFrozen (freezes x (store_of heap.old)) result (store_of heap.new) }
{
    let f = walk::freeze(heap.alloc, &heap.objects, &mut heap.steps, x, MAX_DEPTH)?;
    Ok(f)
}
