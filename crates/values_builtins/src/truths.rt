//! `any` and `all`.
ghost use Rattle.std.specs.Prelude.{◌≡◌, IfOk};
ghost use Rattle.values_semantics.specs.Functions.{any_true, all_true};
ghost use Rattle.values_builtins.specs.Parts.{any_from, all_from};
ghost use Rattle.values_heap.specs.View.{store_of, Says};

use base_types::Memory;
use values_heap::{Halt, Heap, Val};
use values_operators::{is_true, items};

/// Evaluates `any(x)`, or returns fault 5.
pub fn any(heap: &Heap, x: Val) -> Result<Val, Halt>
    ensures { Says (any_from x (store_of heap.now)) result (store_of heap.now) }
{
    let members = items(heap, x)?;
    Ok(Val::boolean(is_any_true(heap, members.as_slice())?))
}

// Returns whether a member counts as true.
fn is_any_true(heap: &Heap, members: &[Val]) -> Result<bool, Memory>
    ensures { IfOk result (λ b. b ≡ any_true (store_of heap.now) members.now) }
{
    for member in members.iter() {
        if is_true(heap, *member)? {
            return Ok(true);
        }
    }
    Ok(false)
}

/// Evaluates `all(x)`, or returns fault 5.
pub fn all(heap: &Heap, x: Val) -> Result<Val, Halt>
    ensures { Says (all_from x (store_of heap.now)) result (store_of heap.now) }
{
    let members = items(heap, x)?;
    Ok(Val::boolean(are_all_true(heap, members.as_slice())?))
}

// Returns whether each member counts as true.
fn are_all_true(heap: &Heap, members: &[Val]) -> Result<bool, Memory>
    ensures { IfOk result (λ b. b ≡ all_true (store_of heap.now) members.now) }
{
    for member in members.iter() {
        if !is_true(heap, *member)? {
            return Ok(false);
        }
    }
    Ok(true)
}
