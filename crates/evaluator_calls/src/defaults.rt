//! The defaults of functions, kept for their calls.
ghost use Rattle.std.specs.Prelude.{◌≡◌};
ghost use Rattle.evaluator_semantics.specs.World.{Here};
ghost use Rattle.evaluator_semantics.specs.Files.{keep_defaults};
ghost use Rattle.evaluator_state.specs.View.{world_of, Ran};

use base_types::Text;
use evaluator_state::{FunctionDefaults, State};
use std::sync::Arc;
use values_heap::{Halt, Val};

/// Keeps the defaults of a function for its calls, in the file with a label.
///
/// # Errors
///
/// Returns `Halt::Memory` if an allocation fails.
pub fn keep_defaults(
    state: &mut State,
    label: &Text,
    name: &Text,
    values: Vec<Val>,
) -> Result<(), Halt>
    ensures says { (here : Here)
        → Ran here.site (keep_defaults label.now name.now values.items (world_of state.old)) result
        (world_of state.new) }
    ensures heap { state.new.heap ≡ state.old.heap }
{
    let function = name.share()?;
    let values = Arc::new(state.heap.alloc, values)?;
    let kept = FunctionDefaults { function, values };
    state.files.add_defaults(label, kept)?;
    Ok(())
}
