//! Large frozen values, laid out so that heaps can attach them.
ghost use Rattle.std.specs.Prelude.{IfOk, IfSome};
ghost use Rattle.std.specs.Arc.{arc_value};
ghost use Rattle.values_semantics.specs.Freezing.{Fz, thaw};
ghost use Rattle.values_heap.specs.View.{store_of, Says};
ghost use Rattle.values_freeze.specs.Laid.{IsLaid};
ghost use Rattle.values_freeze.specs.View.{frozen_of};

use crate::frozen::{Frozen, FrozenEntry};
use crate::laying::lay_out;
use base_types::Memory;
use std::alloc::Global;
use std::sync::Arc;
use values_frozen_objects::{FrozenObjects, FrozenVal};
use values_heap::{Halt, Heap, Val};

// From this many parts on, a value is laid out, so that it is attached and not copied.
const MANY: usize = 32;

/// A frozen value laid out: the objects that it makes on an empty heap, and the value that names it there.
pub struct Layout {
    pub root: FrozenVal,
    pub objects: Arc<FrozenObjects, Global>,
}

impl Drop for Layout {
    fn drop(self) {
        let Layout {
            root: _,
            objects: _,
        } = self;
    }
}

// Returns how many of `left` parts remain after those of a value.
#[cycle(counting)]
fn left_behind(f: &Frozen, left: usize) -> usize {
    match f {
        Frozen::List(members) => left_behind_all(members.as_slice(), left.saturating_sub(1)),
        Frozen::Tuple(members) => left_behind_all(members.as_slice(), left.saturating_sub(1)),
        Frozen::Dict(entries) => left_behind_entries(entries.as_slice(), left.saturating_sub(1)),
        _ => left.saturating_sub(1),
    }
}

// Returns how many of `number` parts remain after those of members.
#[cycle(counting)]
fn left_behind_all(members: &[Frozen], number: usize) -> usize {
    let mut left = number;
    for f in members.iter() {
        if left == 0 {
            return 0;
        }
        left = left_behind(f, left);
    }
    left
}

// Returns how many of `number` parts remain after those of entries.
#[cycle(counting)]
fn left_behind_entries(entries: &[FrozenEntry], number: usize) -> usize {
    let mut left = number;
    for e in entries.iter() {
        if left == 0 {
            return 0;
        }
        left = left_behind(&e.value, left_behind(&e.key, left));
    }
    left
}

/// Lays out a value of many parts, and returns `None` for another.
///
/// # Errors
///
/// Returns `Memory` if an allocation fails.
pub fn make_layout(alloc: Global, f: &Frozen) -> Result<Option<Arc<Layout, Global>>, Memory>
    ensures { IfOk result (λ o. IfSome o (λ l. IsLaid (frozen_of f.now) (arc_value l))) }
{
    if left_behind(f, MANY) != 0 {
        return Ok(None);
    }
    let mut objects = FrozenObjects::new(alloc);
    match lay_out(&mut objects, alloc, f) {
        Ok(root) => {
            let objects = Arc::new(alloc, objects)?;
            Ok(Some(Arc::new(alloc, Layout { root, objects })?))
        }
        Err(Halt::Memory(error)) => Err(error),
        Err(Halt::Code(_)) => Ok(None),
    }
}

/// Attaches what is laid out to a heap, and returns the value there.
pub fn attach(heap: &mut Heap, laid: &Layout) -> Result<Val, Halt>
    ensures { (f : Fz) → IsLaid f laid.now → Says (thaw f (store_of heap.old)) result
        (store_of heap.new) }
{
    let first = heap.attach(&laid.objects)?;
    Ok(laid.root.shift(first))
}
