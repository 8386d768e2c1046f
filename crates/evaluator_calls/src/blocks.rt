//! Blocks of names.
ghost use Rattle.std.specs.Prelude.{◌≡◌, ◌++◌, OnOk, IfOk, map};
ghost use Rattle.values_semantics.specs.Outcome.{good};
ghost use Rattle.evaluator_semantics.specs.Names.{new_block, all_unbound, clause_names, load_names, top_names};
ghost use Rattle.evaluator_semantics.specs.Arguments.{plain_part, named_part, arguments};
ghost use Rattle.syntax_tree.specs.View.{clause_trees};
ghost use Rattle.syntax_tree.specs.Statements.{fn_of, top_of, file_of};
ghost use Rattle.std.specs.Arc.{arc_value};
ghost use Rattle.evaluator_state.specs.SharedDefaults.{default_values};
ghost use Rattle.evaluator_state.specs.View.{block_of};
ghost use Rattle.evaluator_calls.specs.View.{Blocks, Enters};

use crate::accepting::arguments;
use crate::functions::defaults_in;
use crate::sparse_calls::sparse_block;
use base_types::{Memory, Text};
use evaluator_state::{Block, Slot};
use std::alloc::Global;
use std::sync::Arc;
use syntax_tree::{Clause, Def, File, Top};
use values_heap::{Halt, Val};

// Adds slots with these names, none of which is bound.
fn push_unbound(slots: &mut Vec<Slot>, names: &[Text]) -> Result<(), Memory>
    ensures { OnOk result (block_of slots.new ≡ block_of slots.old ++ all_unbound names.now) }
{
    for name in names.iter() {
        let name = name.share()?;
        slots.push(Slot { name, value: None })?;
    }
    Ok(())
}

// Makes slots with these names, none of which is bound.
fn unbound(alloc: Global, names: &[Text]) -> Result<Vec<Slot>, Memory>
    ensures { IfOk result (λ slots. block_of slots ≡ all_unbound names.now) }
{
    let mut slots = Vec::new(alloc);
    push_unbound(&mut slots, names)?;
    Ok(slots)
}

/// Makes slots for the names of a comprehension, none of which is bound.
///
/// # Errors
///
/// Returns `Halt::Memory` if an allocation fails.
pub fn comprehension_block(alloc: Global, clauses: &[Clause]) -> Result<Vec<Slot>, Halt>
    ensures { Blocks (good (new_block (clause_names (clause_trees clauses.now)))) result }
{
    let names = syntax_bindings::clause_names(alloc, clauses)?;
    Ok(unbound(alloc, names.as_slice())?)
}

/// Makes the block of a call of a function: its parameters with their values, and the other names that its body binds.
/// The values are those of the call's arguments, of which the last have names, and of the function's defaults.
///
/// # Errors
///
/// Returns fault 25 for an argument that is missing, is given twice, has an unknown name or is one too many. Returns
/// `Halt::Memory` if an allocation fails.
pub fn call_block(
    alloc: Global,
    def: &Arc<Def, Global>,
    xs: &[Val],
    names: &[Text],
    defaults: Option<&Arc<Vec<Val>, Global>>,
) -> Result<Block, Halt>
    ensures { let f = fn_of (arc_value def.now) in Enters f
        (arguments f (plain_part xs.now names.now) (named_part xs.now names.now)
        (default_values defaults.entry)) result }
{
    if let Some(block) = sparse_block(alloc, def, xs, names, defaults)? {
        return Ok(block);
    }
    slot_block(alloc, def, xs, names, defaults_in(defaults))
}

// Makes the block of a call, with a slot for each name.
fn slot_block(
    alloc: Global,
    def: &Def,
    xs: &[Val],
    names: &[Text],
    defaults: &[Val],
) -> Result<Block, Halt>
    ensures { Enters (fn_of def.now)
        (arguments (fn_of def.now) (plain_part xs.now names.now) (named_part xs.now names.now)
        defaults.now) result }
{
    let mut slots = match arguments(alloc, def, xs, names, defaults) {
        Ok(slots) => slots,
        Err(halt) => return Err(halt),
    };
    let params = def.params.as_slice();
    push_unbound(&mut slots, &def.names[params.len()..])?;
    let once = def.once;
    if once {
        Ok(Block::small_block(slots))
    } else {
        Ok(Block::new(slots)?)
    }
}

/// Makes slots for the names of a file, none of which is bound: those that its loads bind and those that its statements
/// bind.
///
/// # Errors
///
/// Returns `Halt::Memory` if an allocation fails.
pub fn file_block(alloc: Global, file: &File) -> Result<Vec<Slot>, Halt>
    ensures { let f = file_of file.now in
        Blocks (good (new_block (load_names f.loads ++ top_names f.tops))) result }
{
    let names = syntax_bindings::file_names(alloc, file)?;
    Ok(unbound(alloc, names.as_slice())?)
}

/// Makes slots for the names that a file's own statements bind, in the order in which they are bound first.
///
/// # Errors
///
/// Returns `Halt::Memory` if an allocation fails.
pub fn own_block(alloc: Global, tops: &[Top]) -> Result<Vec<Slot>, Halt>
    ensures { Blocks (good (new_block (top_names (map top_of tops.now)))) result }
{
    let names = syntax_bindings::top_names(alloc, tops)?;
    Ok(unbound(alloc, names.as_slice())?)
}
