//! Frozen values laid out as frozen objects, as they are made on an empty heap.
ghost use Rattle.std.specs.Prelude.{map};
ghost use Rattle.values_semantics.specs.Heap.{makes};
ghost use Rattle.values_semantics.specs.Freezing.{thaw, thaw_members, thaw_pairs, thaw_entry};
ghost use Rattle.values_heap.specs.View.{Says, SaysItems};
ghost use Rattle.values_frozen_objects.specs.Objects.{frozen_obj};
ghost use Rattle.values_freeze.specs.Laid.{over};
ghost use Rattle.values_freeze.specs.View.{frozen_of, entry_of, members_of, pairs_of, SaysSet};

use crate::frozen::{Frozen, FrozenEntry};
use crate::thawing::frozen_key_of;
use base_types::Memory;
use std::alloc::Global;
use values_frozen_objects::{FrozenDict, FrozenObject, FrozenObjects, FrozenPair, FrozenVal};
use values_heap::Halt;

// Adds an object after the others, and returns the value that names it.
fn add(objects: &mut FrozenObjects, object: FrozenObject) -> Result<FrozenVal, Halt>
    ensures { Says (makes (frozen_obj object) (over objects.old)) result (over objects.new) }
{
    let wanted = objects.len() as u128;
    let Ok(place) = u32::try_from(wanted) else {
        return Err(Halt::Memory(Memory::no_number_left(wanted)));
    };
    objects.push(object)?;
    Ok(FrozenVal::at(place))
}

/// Lays out a frozen value after other objects, as thawing makes it on a heap of these alone. Returns `Memory` also if
/// there would be more objects than 32 bits can number.
#[cycle(laying)]
pub fn lay_out(objects: &mut FrozenObjects, alloc: Global, f: &Frozen) -> Result<FrozenVal, Halt>
    ensures { Says (thaw (frozen_of f.now) (over objects.old)) result (over objects.new) }
{
    match f {
        Frozen::Nothing => Ok(FrozenVal::nothing()),
        Frozen::Bool(b) => Ok(FrozenVal::of_bool(*b)),
        Frozen::Int(n) => Ok(FrozenVal::of_int(*n)),
        Frozen::Builtin(b) => Ok(FrozenVal::built_in(*b)),
        Frozen::Text(bytes) => add(objects, FrozenObject::Text(bytes.share()?)),
        Frozen::List(members) => {
            let xs = lay_members(objects, alloc, members.as_slice())?;
            add(objects, FrozenObject::List(xs))
        }
        Frozen::Tuple(members) => {
            let xs = lay_members(objects, alloc, members.as_slice())?;
            add(objects, FrozenObject::Tuple(xs))
        }
        Frozen::Dict(entries) => {
            let mut all = FrozenDict::new(alloc);
            lay_entries(objects, alloc, entries.as_slice(), &mut all)?;
            add(objects, FrozenObject::Dict(all))
        }
        Frozen::Function(label, name) => add(
            objects,
            FrozenObject::Function(label.share()?, name.share()?),
        ),
    }
}

// Lays out members, in order.
#[cycle(laying)]
fn lay_members(
    objects: &mut FrozenObjects,
    alloc: Global,
    members: &[Frozen],
) -> Result<Vec<FrozenVal>, Halt>
    ensures { SaysItems (thaw_members (members_of (map frozen_of members.now)) (over objects.old))
        result (over objects.new) }
{
    let mut all = Vec::with_capacity(alloc, members.len())?;
    for f in members.iter() {
        match lay_out(objects, alloc, f) {
            Ok(x) => all.push(x)?,
            Err(halt) => return Err(halt),
        }
    }
    Ok(all)
}

// Sets the entries of a dictionary, with their keys and values laid out.
#[cycle(laying)]
fn lay_entries(
    objects: &mut FrozenObjects,
    alloc: Global,
    entries: &[FrozenEntry],
    all: &mut FrozenDict,
) -> Result<(), Halt>
    ensures { SaysSet (thaw_pairs all.old (pairs_of (map entry_of entries.now)) (over objects.old))
        result all.new (over objects.new) }
{
    for e in entries.iter() {
        match lay_entry(objects, alloc, e, all) {
            Ok(()) => {}
            Err(halt) => return Err(halt),
        }
    }
    Ok(())
}

// Sets an entry, with its key and value laid out.
#[cycle(laying)]
fn lay_entry(
    objects: &mut FrozenObjects,
    alloc: Global,
    e: &FrozenEntry,
    all: &mut FrozenDict,
) -> Result<(), Halt>
    ensures { SaysSet (thaw_entry all.old (entry_of e.now) (over objects.old)) result all.new
        (over objects.new) }
{
    let at = frozen_key_of(alloc, &e.key)?;
    let key = lay_out(objects, alloc, &e.key)?;
    let value = lay_out(objects, alloc, &e.value)?;
    all.set(at, FrozenPair::new(key, value))?;
    Ok(())
}
