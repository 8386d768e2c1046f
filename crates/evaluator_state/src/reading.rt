//! Reading and binding of names.
ghost use Rattle.std.specs.Prelude.{◌≡◌, ℕ, List, map};
ghost use Rattle.evaluator_semantics.specs.Names.{or_else, slot_among, file_slot, names_at, read, read_universal, bind, is_native_name};
ghost use Rattle.evaluator_state.specs.View.{world_of, here_of, block_view, Ran};
ghost use Rattle.evaluator_state.specs.Scope.{world_in};
ghost use Rattle.values_semantics.specs.Heap.{Store};
ghost use Rattle.values_modules.specs.Values.{Target};
ghost use Rattle.evaluator_semantics.specs.World.{World};
ghost use Rattle.syntax_tree.specs.Tree as tree;

use crate::blocks::{bind_among, innermost, slot_among, slot_in};
use crate::files::Files;
use crate::state::{Position, Scope, State};
use crate::universal::{is_native, universal};
use base_types::Text;
use std::sync::atomic::AtomicUsize;
use values_heap::{Halt, Val};
use values_semantics::faults;

// Returns what a file has at a name.
fn file_slot(files: &Files, label: &Text, x: &Text, last: &AtomicUsize) -> Option<Option<Val>>
    ensures { result ≡ file_slot x.now (names_at label.now files.now) }
{
    match files.with_label(label) {
        Some(file) => slot_in(&file.block, x, last),
        None => None,
    }
}

/// Returns what a name has in a scope: in one of the blocks, or else as a global of the file. `last` is where it was
/// found last.
pub fn slot_in_scope(scope: &Scope<'_>, x: &Text, last: &AtomicUsize) -> Option<Option<Val>>
    ensures { result ≡ or_else (slot_among x.now (map block_view scope.now.blocks.now))
        (file_slot x.now (names_at scope.now.at.now.label scope.now.files.now)) }
{
    match slot_among(scope.blocks, x, last) {
        Some(value) => Some(value),
        None => file_slot(scope.files, &scope.at.label, x, last),
    }
}

/// Returns what a name has at a position: in one of the blocks, or else as a global of the file. `last` is where it was
/// found last.
pub fn slot(state: &State, at: &Position, x: &Text, last: &AtomicUsize) -> Option<Option<Val>>
    ensures { result ≡ or_else (slot_among x.now (map block_view state.now.blocks.items))
        (file_slot x.now (names_at at.now.label state.now.files)) }
{
    let scope = Scope {
        blocks: state.blocks.as_slice(),
        files: &state.files,
        at,
    };
    slot_in_scope(&scope, x, last)
}

// Returns the value of a universal name.
fn read_universal(at: &Position, x: &Text) -> Result<Val, Halt>
    ensures { (line : ℕ) (running : List (List ℕ × List ℕ)) (w : World)
        → let here = here_of at.now line running in Ran here.site (read_universal x.now here w)
        result w }
{
    if is_native(at.kind, x) {
        return Err(Halt::Code(faults::WRONG_TYPE));
    }
    match universal(at.kind, x) {
        Some(f) => Ok(Val::built_in(f)),
        None => Err(Halt::Code(faults::NOT_BOUND)),
    }
}

/// Returns the value of a name in a scope. Returns fault 4 if it has none, and 5 for `native` that is not before a dot.
pub fn read_in_scope(scope: &Scope<'_>, x: &Text, last: &AtomicUsize) -> Result<Val, Halt>
    ensures { (line : ℕ) (running : List (List ℕ × List ℕ)) (store : Store) (targets : List Target)
        → let here = here_of scope.now.at.now line running in let w = world_in store scope.now
        targets in Ran here.site (read x.now here w) result w }
{
    if let Some(value) = innermost(scope.blocks, x, last) {
        return Ok(value);
    }
    match slot_in_scope(scope, x, last) {
        Some(Some(value)) => Ok(value),
        Some(None) => Err(Halt::Code(faults::NOT_BOUND)),
        None => read_universal(scope.at, x),
    }
}

/// Returns the value of a name. Returns fault 4 if it has none, and 5 for `native` that is not before a dot.
pub fn read(state: &State, at: &Position, x: &Text, last: &AtomicUsize) -> Result<Val, Halt>
    ensures { (line : ℕ) (running : List (List ℕ × List ℕ)) → let here = here_of at.now line running
        in Ran here.site (read x.now here (world_of state.now)) result (world_of state.now) }
{
    let scope = Scope {
        blocks: state.blocks.as_slice(),
        files: &state.files,
        at,
    };
    read_in_scope(&scope, x, last)
}

/// Returns whether a name is the `native` of .bzl files.
pub fn is_native_name(state: &State, at: &Position, x: &Text, last: &AtomicUsize) -> bool
    ensures { (line : ℕ) (running : List (List ℕ × List ℕ)) → result ≡ is_native_name
        (tree.name x.now) (here_of at.now line running) (world_of state.now) }
{
    if !is_native(at.kind, x) {
        return false;
    }
    slot(state, at, x, last).is_none()
}

/// Binds a name in the innermost block that has it, or else as a global. Returns fault 26 if the global is bound.
pub fn bind(
    state: &mut State,
    at: &Position,
    x: &Text,
    last: &AtomicUsize,
    value: Val,
) -> Result<(), Halt>
    ensures says { (line : ℕ) (running : List (List ℕ × List ℕ)) → let here = here_of at.now line
        running in Ran here.site (bind x.now value here (world_of state.old)) result
        (world_of state.new) }
    ensures heap { state.new.heap ≡ state.old.heap }
{
    if bind_among(&mut state.blocks, x, last, value)? {
        return Ok(());
    }
    state.files.bind_global(at, x, last, value)
}
