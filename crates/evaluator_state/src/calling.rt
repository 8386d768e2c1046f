//! Calls that evaluate no expression of a file.
ghost use Rattle.std.specs.Prelude.{◌≡◌, ◌≤◌, ◌-◌, IfOk, IsOkUnless};
ghost use Rattle.values_objects.specs.declared.halt.Halt.TheVariants.{Memory};
ghost use Rattle.values_heap.specs.View.{store_of, Says};
ghost use Rattle.values_semantics.specs.Functions as m;
ghost use Rattle.values_semantics.specs.Methods as mm;
ghost use Rattle.evaluator_semantics.specs.Arguments.{plain_part, named_part};
ghost use Rattle.evaluator_semantics.specs.Statements.{augmented_sum};
ghost use Rattle.base_types.specs.Refusals.{memory};

use base_types::Text;
use std::alloc::Global;
use values_heap::{Builtin, Halt, Heap, Val};

// Returns the last arguments, with their names.
fn named_arguments(alloc: Global, xs: &[Val], names: &[Text]) -> Result<Vec<(Text, Val)>, Halt>
    ensures ok { IfOk result (λ v. v.items ≡ named_part xs.now names.now) }
    ensures err { IsOkUnless result (Memory memory) }
{
    let rest = &xs[xs.len().saturating_sub(names.len())..];
    let mut named = Vec::new(alloc);
    let mut i = 0;
    while i < names.len() && i < rest.len() {
        named.push((names[i].share()?, rest[i]))?;
        i += 1;
    }
    Ok(named)
}

// Returns the positional arguments.
fn positional_arguments<'a>(xs: &'a [Val], names: &[Text]) -> &'a [Val]
    ensures { result.now ≡ plain_part xs.now names.now }
{
    &xs[..xs.len().saturating_sub(names.len())]
}

/// Calls a built-in function.
pub fn call_builtin(heap: &mut Heap, f: Builtin, xs: &[Val], names: &[Text]) -> Result<Val, Halt>
    ensures says { Says (m.builtin f (plain_part xs.now names.now) (named_part xs.now names.now)
        (store_of heap.old)) result (store_of heap.new) }
    ensures steps { IfOk result (λ _. heap.new.steps ≤ heap.old.steps) }
{
    let named = named_arguments(heap.alloc, xs, names)?;
    values::builtin(heap, f, positional_arguments(xs, names), named.as_slice())
}

/// Calls a method of a value.
pub fn call_method(
    heap: &mut Heap,
    x: Val,
    name: &Text,
    xs: &[Val],
    names: &[Text],
) -> Result<Val, Halt>
    ensures says { Says (mm.method x name.now (plain_part xs.now names.now)
        (named_part xs.now names.now) (store_of heap.old)) result (store_of heap.new) }
    ensures steps { IfOk result (λ _. heap.new.steps ≤ heap.old.steps) }
{
    let named = named_arguments(heap.alloc, xs, names)?;
    values::method(
        heap,
        x,
        name.as_str(),
        positional_arguments(xs, names),
        named.as_slice(),
    )
}

/// Evaluates `x + y` in `x += y`: in place if both are lists.
pub fn add(heap: &mut Heap, x: Val, y: Val) -> Result<Val, Halt>
    ensures says { Says (augmented_sum x y (store_of heap.old)) result (store_of heap.new) }
    ensures steps { IfOk result (λ _. heap.new.steps ≤ heap.old.steps) }
{
    values::add_in_place(heap, x, y)
}
