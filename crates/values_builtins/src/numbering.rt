//! `enumerate`.
ghost use Rattle.std.specs.Prelude.{[], ◌∷◌};
ghost use Rattle.values_semantics.specs.Heap.{makes_tuple};
ghost use Rattle.values_semantics.specs.Functions.{index_pairs};
ghost use Rattle.values_heap.specs.View.{store_of, Says, SaysItems};
ghost use Rattle.values_builtins.specs.Parts.{enumerate_from};

use values_heap::{Halt, Heap, Val};
use values_operators::copy_items;

/// Evaluates `enumerate(x)`, or returns fault 5.
pub fn enumerate(heap: &mut Heap, x: Val) -> Result<Val, Halt>
    ensures { Says (enumerate_from x (store_of heap.old)) result (store_of heap.new) }
{
    let members = copy_items(heap, x)?;
    let pairs = index_pairs(heap, members.as_slice())?;
    heap.make_list(pairs)
}

// Makes pairs of a place and the member there.
fn index_pairs(heap: &mut Heap, members: &[Val]) -> Result<Vec<Val>, Halt>
    ensures { SaysItems (index_pairs 0 members.now (store_of heap.old)) result (store_of heap.new) }
{
    let mut pairs = Vec::new(heap.alloc);
    for member in members.iter() {
        let n = pairs.len();
        let pair = make_pair(heap, Val::Int(n as i64), *member)?;
        pairs.push(pair)?;
    }
    Ok(pairs)
}

// Makes a tuple of two.
fn make_pair(heap: &mut Heap, a: Val, b: Val) -> Result<Val, Halt>
    ensures { Says (makes_tuple (a ∷ b ∷ []) (store_of heap.old)) result (store_of heap.new) }
{
    let mut members = Vec::new(heap.alloc);
    members.push(a)?;
    members.push(b)?;
    heap.make_tuple(members)
}
