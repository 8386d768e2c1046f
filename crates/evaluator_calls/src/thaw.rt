//! Frozen values on a heap, under their names. This takes no steps.
ghost use Rattle.std.specs.Prelude.{◌≡◌, IfOk};
ghost use Rattle.values_semantics.specs.Freezing.{thaw, thaw_members};
ghost use Rattle.values_heap.specs.View.{store_of, Says, SaysItems};
ghost use Rattle.values_freeze.specs.View.{members_of};
ghost use Rattle.evaluator_state.specs.View.{block_of};
ghost use Rattle.evaluator_calls.specs.Thaw.{behind, thaw_names, thaw_defaults, SaysBlock, SaysKept};

use evaluator_state::{FunctionDefaults, Slot};
use std::sync::Arc;
use values_freeze::FrozenValue;
use values_heap::{Halt, Heap, Val};
use values_modules::{Binding, Defaults};

/// Puts a frozen value on a heap.
pub fn thaw_value(heap: &mut Heap, f: &FrozenValue) -> Result<Val, Halt>
    ensures says { Says (thaw f.now (store_of heap.old)) result (store_of heap.new) }
    ensures steps { IfOk result (λ _. heap.new.steps ≡ heap.old.steps) }
{
    values_freeze::thaw_value(heap, f)
}

// Puts frozen values on a heap, in order.
fn thaw_values(heap: &mut Heap, values: &[FrozenValue]) -> Result<Vec<Val>, Halt>
    ensures says { SaysItems (thaw_members (members_of values.now) (store_of heap.old)) result
        (store_of heap.new) }
    ensures steps { IfOk result (λ _. heap.new.steps ≡ heap.old.steps) }
{
    let mut all = Vec::new(heap.alloc);
    for f in values.iter() {
        match thaw_value(heap, f) {
            Ok(x) => all.push(x)?,
            Err(halt) => return Err(halt),
        }
    }
    Ok(all)
}

/// Adds names, with their values on a heap, to a block.
pub fn thaw_names(heap: &mut Heap, bindings: &[Binding], block: &mut Vec<Slot>) -> Result<(), Halt>
    ensures says { SaysBlock
        (behind (block_of block.old) (thaw_names bindings.now (store_of heap.old))) result
        (block_of block.new) (store_of heap.new) }
    ensures steps { IfOk result (λ _. heap.new.steps ≡ heap.old.steps) }
{
    for b in bindings.iter() {
        let value = match thaw_value(heap, b.value()) {
            Ok(x) => Some(x),
            Err(halt) => return Err(halt),
        };
        let name = b.name().share()?;
        block.push(Slot { name, value })?;
    }
    Ok(())
}

/// Puts the values of functions' defaults on a heap.
pub fn thaw_defaults(heap: &mut Heap, defaults: &[Defaults]) -> Result<Vec<FunctionDefaults>, Halt>
    ensures says { SaysKept (thaw_defaults defaults.now (store_of heap.old)) result
        (store_of heap.new) }
    ensures steps { IfOk result (λ _. heap.new.steps ≡ heap.old.steps) }
{
    let mut all = Vec::new(heap.alloc);
    for d in defaults.iter() {
        let values = match thaw_values(heap, d.values()) {
            Ok(values) => values,
            Err(halt) => return Err(halt),
        };
        let function = d.name().share()?;
        let values = Arc::new(heap.alloc, values)?;
        all.push(FunctionDefaults { function, values })?;
    }
    Ok(all)
}
