//! Calls of built-in functions.
ghost use Rattle.std.specs.Prelude.{[], ◌∷◌, ◌≤◌, length};
ghost use Rattle.values_semantics.specs.Functions.{builtin, unnamed, plain};
ghost use Rattle.values_heap.specs.View.{store_of, Says};

use crate::dictionaries::dict;
use crate::lists::{list, no_list, no_tuple, reversed, tuple};
use crate::numbering::enumerate;
use crate::orders::{max, min};
use crate::plain::{len, truth, type_of};
use crate::ranges::range;
use crate::sorting::sorted;
use crate::strings::{print, text};
use crate::truths::{all, any};
use crate::zipping::zip;
use base_types::Text;
use values_heap::{Builtin, Halt, Heap, Val};
use values_semantics::faults;

/// Calls a built-in function that is not a package call, with positional arguments and named ones. Returns its value or
/// its fault: 5, 11, 12, 13, 24 or 25.
pub fn builtin(heap: &mut Heap, f: Builtin, xs: &[Val], names: &[(Text, Val)]) -> Result<Val, Halt>
    ensures { Says (builtin f xs.now names.now (store_of heap.old)) result (store_of heap.new) }
{
    match f {
        Builtin::Sorted => sorted(heap, xs, names),
        Builtin::Dict => dict(heap, xs, names),
        _ => call_positional(heap, f, xs, names),
    }
}

// Calls a function that takes no named arguments.
fn call_positional(
    heap: &mut Heap,
    f: Builtin,
    xs: &[Val],
    names: &[(Text, Val)],
) -> Result<Val, Halt>
    ensures { Says (unnamed f xs.now names.now (store_of heap.old)) result (store_of heap.new) }
{
    if !names.is_empty() {
        return Err(Halt::Code(faults::WRONG_ARGUMENTS));
    }
    match xs {
        [] => call_no_args(heap, f),
        [x] => call_one_arg(heap, f, *x),
        [_, _, ..] => call_args(heap, f, xs),
    }
}

// Calls a function without arguments.
fn call_no_args(heap: &mut Heap, f: Builtin) -> Result<Val, Halt>
    ensures { Says (plain f [] (store_of heap.old)) result (store_of heap.new) }
{
    match f {
        Builtin::List => no_list(heap),
        Builtin::Tuple => no_tuple(heap),
        Builtin::Bool => Ok(Val::False),
        Builtin::Zip => zip(heap, &[]),
        Builtin::Len => Err(Halt::Code(faults::WRONG_ARGUMENTS)),
        Builtin::Range => Err(Halt::Code(faults::WRONG_ARGUMENTS)),
        Builtin::Str => Err(Halt::Code(faults::WRONG_ARGUMENTS)),
        Builtin::Repr => Err(Halt::Code(faults::WRONG_ARGUMENTS)),
        Builtin::Type => Err(Halt::Code(faults::WRONG_ARGUMENTS)),
        Builtin::Reversed => Err(Halt::Code(faults::WRONG_ARGUMENTS)),
        Builtin::Enumerate => Err(Halt::Code(faults::WRONG_ARGUMENTS)),
        Builtin::Any => Err(Halt::Code(faults::WRONG_ARGUMENTS)),
        Builtin::All => Err(Halt::Code(faults::WRONG_ARGUMENTS)),
        Builtin::Min => Err(Halt::Code(faults::WRONG_ARGUMENTS)),
        Builtin::Max => Err(Halt::Code(faults::WRONG_ARGUMENTS)),
        Builtin::Fail => Err(Halt::Code(faults::WRONG_ARGUMENTS)),
        _ => Err(Halt::Code(faults::WRONG_TYPE)),
    }
}

// Calls a function with one argument.
fn call_one_arg(heap: &mut Heap, f: Builtin, x: Val) -> Result<Val, Halt>
    ensures { Says (plain f (x ∷ []) (store_of heap.old)) result (store_of heap.new) }
{
    match f {
        Builtin::Len => len(heap, x),
        Builtin::Range => range(heap, &[x]),
        Builtin::Str => text(heap, x),
        Builtin::Repr => print(heap, x),
        Builtin::Type => type_of(heap, x),
        Builtin::Reversed => reversed(heap, x),
        Builtin::Enumerate => enumerate(heap, x),
        Builtin::Zip => zip(heap, &[x]),
        Builtin::List => list(heap, x),
        Builtin::Tuple => tuple(heap, x),
        Builtin::Bool => Ok(truth(heap, x)?),
        Builtin::Any => any(heap, x),
        Builtin::All => all(heap, x),
        Builtin::Min => min(heap, &[x]),
        Builtin::Max => max(heap, &[x]),
        Builtin::Fail => Err(Halt::Code(faults::FAIL_CALLED)),
        _ => Err(Halt::Code(faults::WRONG_TYPE)),
    }
}

// Calls a function with two arguments or more.
fn call_args(heap: &mut Heap, f: Builtin, xs: &[Val]) -> Result<Val, Halt>
    requires { 2 ≤ length xs.now }
    ensures { Says (plain f xs.now (store_of heap.old)) result (store_of heap.new) }
{
    match f {
        Builtin::Range => range(heap, xs),
        Builtin::Zip => zip(heap, xs),
        Builtin::Min => min(heap, xs),
        Builtin::Max => max(heap, xs),
        Builtin::Len => Err(Halt::Code(faults::WRONG_ARGUMENTS)),
        Builtin::Str => Err(Halt::Code(faults::WRONG_ARGUMENTS)),
        Builtin::Repr => Err(Halt::Code(faults::WRONG_ARGUMENTS)),
        Builtin::Type => Err(Halt::Code(faults::WRONG_ARGUMENTS)),
        Builtin::Reversed => Err(Halt::Code(faults::WRONG_ARGUMENTS)),
        Builtin::Enumerate => Err(Halt::Code(faults::WRONG_ARGUMENTS)),
        Builtin::List => Err(Halt::Code(faults::WRONG_ARGUMENTS)),
        Builtin::Tuple => Err(Halt::Code(faults::WRONG_ARGUMENTS)),
        Builtin::Bool => Err(Halt::Code(faults::WRONG_ARGUMENTS)),
        Builtin::Any => Err(Halt::Code(faults::WRONG_ARGUMENTS)),
        Builtin::All => Err(Halt::Code(faults::WRONG_ARGUMENTS)),
        Builtin::Fail => Err(Halt::Code(faults::WRONG_ARGUMENTS)),
        _ => Err(Halt::Code(faults::WRONG_TYPE)),
    }
}
