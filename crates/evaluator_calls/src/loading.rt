//! What load statements bind.
ghost use Rattle.std.specs.Prelude.{◌≡◌, ◌∷◌, [], ℕ, List, IfOk, map};
ghost use Rattle.evaluator_semantics.specs.Files.{load_items};
ghost use Rattle.syntax_tree.specs.Statements.{item_of};
ghost use Rattle.evaluator_state.specs.View.{world_of, here_of, Ran};

use crate::exports::Exports;
use crate::thaw::thaw_value;
use evaluator_state::{Position, State, bind};
use std::sync::atomic::AtomicUsize;
use syntax_tree::LoadItem;
use values_heap::Halt;
use values_modules::Module;
use values_semantics::faults;

// Binds an item of a load.
fn load_item(
    state: &mut State,
    at: &Position,
    body: &Module,
    exports: &Exports<'_>,
    item: &LoadItem,
) -> Result<(), Halt>
    requires { exports.now ≡ body.now.own }
    ensures says { (line : ℕ) (running : List (List ℕ × List ℕ)) → let here = here_of at.now line
        running in Ran here.site (load_items body.now (item_of item.now ∷ []) here
        (world_of state.old)) result (world_of state.new) }
    ensures steps { IfOk result (λ _. state.new.heap.steps ≡ state.old.heap.steps) }
{
    let Some(f) = exports.value(&item.exported) else {
        return Err(Halt::Code(faults::NOT_EXPORTED));
    };
    let x = match thaw_value(&mut state.heap, f) {
        Ok(x) => x,
        Err(halt) => return Err(halt),
    };
    bind(state, at, &item.local, &AtomicUsize::new(0), x)
}

/// Binds the items of a load, in order. It takes no steps.
///
/// # Errors
///
/// Returns fault 18 for a name that begins with `_` or that the module does not export, and 26 for a global that is
/// bound. Returns `Halt::Memory` if an allocation fails.
pub fn load_items(
    state: &mut State,
    at: &Position,
    body: &Module,
    items: &[LoadItem],
) -> Result<(), Halt>
    ensures says { (line : ℕ) (running : List (List ℕ × List ℕ)) → let here = here_of at.now line
        running in Ran here.site (load_items body.now (map item_of items.now) here
        (world_of state.old)) result (world_of state.new) }
    ensures steps { IfOk result (λ _. state.new.heap.steps ≡ state.old.heap.steps) }
{
    let exports = Exports::of(state.heap.alloc, body, items.len())?;
    for item in items.iter() {
        match load_item(state, at, body, &exports, item) {
            Ok(()) => {}
            Err(halt) => return Err(halt),
        }
    }
    Ok(())
}
