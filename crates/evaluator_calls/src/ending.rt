//! The module that the evaluation of a file leaves.
ghost use Rattle.std.specs.Prelude.{◌≡◌, ◌≤◌, ℕ, List, IfOk};
ghost use Rattle.evaluator_semantics.specs.Environment.{Env};
ghost use Rattle.evaluator_semantics.specs.Files.{frozen_module};
ghost use Rattle.syntax_tree.specs.Statements.{file_of};
ghost use Rattle.evaluator_state.specs.View.{world_of, here_of, Ran};
ghost use Rattle.evaluator_calls.specs.Modules.{body_of};

use crate::freeze::{freeze_defaults, freeze_globals};
use crate::module_parts::{frozen_loads, functions_of};
use crate::module_table::reached_once;
use crate::own_block;
use base_types::Memory;
use evaluator_state::{Position, State};
use std::alloc::Global;
use syntax_tree::File;
use values_heap::Halt;
use values_modules::{Binding, Defaults, Module, ModuleValue};

// Makes a module of these values.
fn module_of(
    alloc: Global,
    at: &Position,
    file: &File,
    loads: &[ModuleValue],
    own: Vec<Binding>,
    defaults: Vec<Defaults>,
) -> Result<Module, Memory>
    ensures { IfOk result (λ m. m ≡ body_of at.now.label at.now.path (file_of file.now) loads.now
        own.items defaults.items) }
{
    let loaded = frozen_loads(alloc, file.loads.as_slice(), loads)?;
    let functions = functions_of(alloc, file.tops.as_slice())?;
    let label = at.label.share()?;
    let path = at.path.share()?;
    let m = Module::new(alloc, label, path, own, loaded, functions, defaults)?;
    Ok(m)
}

/// Makes the module that the evaluation of a file leaves: its own globals in the order in which they were bound, the
/// names that its loads bound, its functions and their defaults, and the modules that its loads reach, each once.
///
/// # Errors
///
/// Returns fault 4 for a global without a value, 11 if no step is left, and 12 for a value that is nested too deep.
/// Returns `Halt::Memory` if an allocation fails.
pub fn frozen_module(
    state: &mut State,
    at: &Position,
    file: &File,
    loads: &[ModuleValue],
) -> Result<ModuleValue, Halt>
    ensures says { (env : Env) (line : ℕ) (running : List (List ℕ × List ℕ)) → env.label
        ≡ at.now.label → env.path ≡ at.now.path → env.file ≡ file_of file.now → env.loads
        ≡ loads.now → let here = here_of at.now line running in
        Ran here.site (frozen_module env here (world_of state.old)) result (world_of state.new) }
    ensures steps { IfOk result (λ _. state.new.heap.steps ≤ state.old.heap.steps) }
{
    let alloc = state.heap.alloc;
    let names = match own_block(alloc, file.tops.as_slice()) {
        Ok(names) => names,
        Err(halt) => return Err(halt),
    };
    let files = &state.files;
    let own = match freeze_globals(&mut state.heap, files, &at.label, names.as_slice()) {
        Ok(own) => own,
        Err(halt) => return Err(halt),
    };
    let defaults = match freeze_defaults(&mut state.heap, files, &at.label, file.tops.as_slice()) {
        Ok(defaults) => defaults,
        Err(halt) => return Err(halt),
    };
    let body = module_of(alloc, at, file, loads, own, defaults)?;
    let reached = reached_once(alloc, loads)?;
    Ok(ModuleValue::new(body, reached))
}
