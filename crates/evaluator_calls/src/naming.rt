//! The names of modules on the heap.
ghost use Rattle.std.specs.Prelude.{◌≡◌, IfOk};
ghost use Rattle.evaluator_semantics.specs.World.{Here};
ghost use Rattle.evaluator_semantics.specs.Environment.{Env, thaw_body, need_names};
ghost use Rattle.evaluator_state.specs.View.{world_of, Ran};
ghost use Rattle.evaluator_calls.specs.Once.{AreReached};

use crate::module_table::ModuleTable;
use crate::reaching::module_labelled;
use crate::thaw::{thaw_defaults, thaw_names};
use base_types::Text;
use evaluator_state::{Block, DefaultsTable, FileNames, State};
use values_heap::Halt;
use values_modules::{Module, ModuleValue};

// Puts the names of a module on the heap.
fn thaw_names_of(state: &mut State, body: &Module) -> Result<(), Halt>
    ensures says { (here : Here)
        → Ran here.site (thaw_body (Some body.now) here (world_of state.old)) result
        (world_of state.new) }
    ensures steps { IfOk result (λ _. state.new.heap.steps ≡ state.old.heap.steps) }
{
    let mut slots = Vec::new(state.heap.alloc);
    if let Err(halt) = thaw_names(&mut state.heap, body.own(), &mut slots) {
        return Err(halt);
    }
    if let Err(halt) = thaw_names(&mut state.heap, body.loaded_names(), &mut slots) {
        return Err(halt);
    }
    let kept = match thaw_defaults(&mut state.heap, body.defaults()) {
        Ok(kept) => kept,
        Err(halt) => return Err(halt),
    };
    let label = body.label().share()?;
    let block = Block::new(slots)?;
    let defaults = DefaultsTable::of_list(kept)?;
    state.files.add(FileNames {
        label,
        block,
        defaults,
    })?;
    Ok(())
}

/// Puts the names of a module on the heap, if they are not there and the loads reach the module. It takes no steps.
///
/// # Errors
///
/// Returns `Halt::Memory` if an allocation fails.
pub fn ensure_names(
    state: &mut State,
    loads: &[ModuleValue],
    reached: &Option<ModuleTable>,
    label: &Text,
) -> Result<(), Halt>
    requires { AreReached reached.now loads.now }
    ensures says { (env : Env) (here : Here) → env.loads ≡ loads.now
        → Ran here.site (need_names env label.now here (world_of state.old)) result
        (world_of state.new) }
    ensures steps { IfOk result (λ _. state.new.heap.steps ≡ state.old.heap.steps) }
{
    if state.files.with_label(label).is_some() {
        return Ok(());
    }
    match module_labelled(loads, reached, label) {
        Some(body) => thaw_names_of(state, body),
        None => Ok(()),
    }
}
