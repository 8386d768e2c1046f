//! Values of a heap that are frozen under their names.
ghost use Rattle.std.specs.Prelude.{◌≡◌, ◌≤◌, IfOk, map};
ghost use Rattle.values_semantics.specs.Freezing.{freezes};
ghost use Rattle.evaluator_semantics.specs.Names.{slot_in, names_at};
ghost use Rattle.evaluator_semantics.specs.Environment.{defs, defaults_among};
ghost use Rattle.syntax_tree.specs.Statements.{top_of};
ghost use Rattle.values_heap.specs.View.{store_of, Says, SaysItems};
ghost use Rattle.evaluator_state.specs.View.{block_view};
ghost use Rattle.evaluator_calls.specs.Freeze.{freeze_values, freeze_names, freeze_defaults, bound_value, block_among, slot_names, SaysFrozen, SaysDefaults};

use crate::defaults_among;
use crate::functions::defaults_in;
use base_types::Text;
use evaluator_state::{Block, Files, Slot, slot_in};
use std::sync::atomic::AtomicUsize;
use syntax_tree::{Def, Top};
use values_freeze::FrozenValue;
use values_heap::{Halt, Heap, Val};
use values_modules::{Binding, Defaults};
use values_semantics::faults;

// Freezes a value.
fn freeze_one(heap: &mut Heap, x: Val) -> Result<FrozenValue, Halt>
    ensures says { Says (freezes x (store_of heap.old)) result (store_of heap.new) }
    ensures steps { IfOk result (λ _. heap.new.steps ≤ heap.old.steps) }
{
    values_freeze::freeze_value(heap, x)
}

// Freezes values, in order.
fn freeze_values(heap: &mut Heap, xs: &[Val]) -> Result<Vec<FrozenValue>, Halt>
    ensures says { SaysFrozen (freeze_values xs.now (store_of heap.old)) result
        (store_of heap.new) }
    ensures steps { IfOk result (λ _. heap.new.steps ≤ heap.old.steps) }
{
    let mut all = Vec::new(heap.alloc);
    for x in xs.iter() {
        match freeze_one(heap, *x) {
            Ok(f) => all.push(f)?,
            Err(halt) => return Err(halt),
        }
    }
    Ok(all)
}

// Returns the value of a name of a block, if it has one. The name is looked up at the place first.
fn bound_value(block: &Block, x: &Text, place: usize) -> Option<Val>
    ensures { result ≡ bound_value (slot_in x.now (block_view block.now)) }
{
    match slot_in(block, x, &AtomicUsize::new(place)) {
        Some(value) => value,
        None => None,
    }
}

// Freezes the values of names of a block, in order. Returns fault 4 for a name without a value, 11 or 12.
fn freeze_names(heap: &mut Heap, block: &Block, names: &[Slot]) -> Result<Vec<Binding>, Halt>
    ensures says { SaysItems (freeze_names (block_view block.now) (slot_names names.now)
        (store_of heap.old)) result (store_of heap.new) }
    ensures steps { IfOk result (λ _. heap.new.steps ≤ heap.old.steps) }
{
    let mut all = Vec::new(heap.alloc);
    for slot in names.iter() {
        let Some(x) = bound_value(block, &slot.name, all.len()) else {
            return Err(Halt::Code(faults::NOT_BOUND));
        };
        let value = match freeze_one(heap, x) {
            Ok(f) => f,
            Err(halt) => return Err(halt),
        };
        let name = slot.name.share()?;
        all.push(Binding::new(name, value))?;
    }
    Ok(all)
}

/// Freezes the values of globals of a file, in order. Returns fault 4 for a global without a value, 11 or 12.
pub fn freeze_globals(
    heap: &mut Heap,
    files: &Files,
    label: &Text,
    names: &[Slot],
) -> Result<Vec<Binding>, Halt>
    ensures says { SaysItems
        (freeze_names (block_among (names_at label.now files.now))
        (slot_names names.now) (store_of heap.old)) result (store_of heap.new) }
    ensures steps { IfOk result (λ _. heap.new.steps ≤ heap.old.steps) }
{
    match files.with_label(label) {
        Some(file) => freeze_names(heap, &file.block, names),
        None => {
            let nothing = Block::new(Vec::new(heap.alloc))?;
            freeze_names(heap, &nothing, names)
        }
    }
}

// Freezes the defaults of a function, in order. Returns fault 11 or 12.
fn freeze_of(heap: &mut Heap, files: &Files, label: &Text, f: &Def) -> Result<Defaults, Halt>
    ensures says { SaysDefaults f.now.name (freeze_values
        (defaults_among f.now.name (names_at label.now files.now))
        (store_of heap.old)) result (store_of heap.new) }
    ensures steps { IfOk result (λ _. heap.new.steps ≤ heap.old.steps) }
{
    let values = match freeze_values(heap, defaults_in(defaults_among(files, label, &f.name))) {
        Ok(values) => values,
        Err(halt) => return Err(halt),
    };
    let name = f.name.share()?;
    Ok(Defaults::new(name, values))
}

/// Freezes the defaults of a file's functions, in order. Returns fault 11 or 12.
pub fn freeze_defaults(
    heap: &mut Heap,
    files: &Files,
    label: &Text,
    tops: &[Top],
) -> Result<Vec<Defaults>, Halt>
    ensures says { SaysItems (freeze_defaults (names_at label.now files.now)
        (defs (map top_of tops.now)) (store_of heap.old)) result (store_of heap.new) }
    ensures steps { IfOk result (λ _. heap.new.steps ≤ heap.old.steps) }
{
    let mut all = Vec::new(heap.alloc);
    for top in tops.iter() {
        if let Top::Def(f) = top {
            match freeze_of(heap, files, label, f) {
                Ok(defaults) => all.push(defaults)?,
                Err(halt) => return Err(halt),
            }
        }
    }
    Ok(all)
}
