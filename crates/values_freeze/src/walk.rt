//! The walk that freezes a value.
ghost use Rattle.std.specs.Prelude.{map, slice_get};
ghost use Rattle.values_semantics.specs.Freezing.{freeze, inner_freeze, at_once, visit_held, freeze_shape, listed, tupled, mapped, freeze_members, freeze_entry, freeze_entries};
ghost use Rattle.values_objects.specs.Standings.{object_in};
ghost use Rattle.values_freeze.specs.View.{frozen_of, SaysFrozen, SaysMembers, SaysEntry, SaysEntries};

use crate::frozen::{Frozen, FrozenEntry};
use std::alloc::Global;
use values_heap::{Builtin, Entries, Entry, Halt, Members, ObjectRef, Objects, Val, tick};
use values_semantics::faults;

/// Returns the tree of a value, or fault 11 or 12, or 5. Each value visited is a step, and `left` more containers may
/// be entered.
#[cycle(freezing)]
#[tactic(auto, using(crate::proofs::FreezeLaws::freeze_is))]
pub fn freeze(
    alloc: Global,
    objects: &Objects,
    steps: &mut u64,
    x: Val,
    left: u32,
) -> Result<Frozen, Halt>
    ensures { SaysFrozen (freeze left (map object_in objects.now) x steps.old) result steps.new }
{
    match x {
        Val::Nothing => frozen_leaf(steps, Frozen::nothing()),
        Val::True => frozen_leaf(steps, Frozen::of_bool(true)),
        Val::False => frozen_leaf(steps, Frozen::of_bool(false)),
        Val::Int(n) => frozen_leaf(steps, Frozen::of_int(n)),
        Val::Builtin(n) => frozen_leaf(steps, Frozen::built_in(Builtin::at_number(n))),
        Val::At(place) => freeze_object(alloc, objects, steps, place, left),
    }
}

// Returns the tree of a value that has no members, for a step.
fn frozen_leaf(steps: &mut u64, f: Frozen) -> Result<Frozen, Halt>
    ensures { SaysFrozen (at_once (frozen_of f) steps.old) result steps.new }
{
    tick(steps)?;
    Ok(f)
}

// Returns the tree of an object.
#[cycle(freezing)]
fn freeze_object(
    alloc: Global,
    objects: &Objects,
    steps: &mut u64,
    place: usize,
    left: u32,
) -> Result<Frozen, Halt>
    ensures { SaysFrozen (visit_held (inner_freeze left (map object_in objects.now))
        (freeze_shape (slice_get (map object_in objects.now) place)) steps.old) result steps.new }
{
    match objects.object_ref(place)? {
        Some(ObjectRef::Text(bytes)) => frozen_leaf(steps, Frozen::text(bytes.share()?)),
        Some(ObjectRef::List { members, .. }) => freeze_list(alloc, objects, steps, &members, left),
        Some(ObjectRef::Tuple(members)) => freeze_tuple(alloc, objects, steps, &members, left),
        Some(ObjectRef::Dict { entries, .. }) => freeze_dict(alloc, objects, steps, &entries, left),
        Some(ObjectRef::Function(label, name)) => frozen_leaf(
            steps,
            Frozen::function(label.share()?, name.share()?),
        ),
        None => {
            tick(steps)?;
            Err(Halt::Code(faults::WRONG_TYPE))
        }
    }
}

// Returns the tree of a list.
#[cycle(freezing)]
#[tactic(auto, using(crate::proofs::FreezeLaws::list_deep, crate::proofs::FreezeLaws::list_more))]
fn freeze_list(
    alloc: Global,
    objects: &Objects,
    steps: &mut u64,
    members: &Members<'_>,
    left: u32,
) -> Result<Frozen, Halt>
    ensures { SaysFrozen (visit_held (inner_freeze left (map object_in objects.now))
        (listed members.now) steps.old) result steps.new }
{
    if left == 0 {
        return Err(Halt::Code(faults::TOO_DEEP));
    }
    tick(steps)?;
    let fs = freeze_members(alloc, objects, steps, members, left - 1)?;
    Ok(Frozen::list(alloc, fs)?)
}

// Returns the tree of a tuple.
#[cycle(freezing)]
#[tactic(auto, using(crate::proofs::FreezeLaws::tuple_deep, crate::proofs::FreezeLaws::tuple_more))]
fn freeze_tuple(
    alloc: Global,
    objects: &Objects,
    steps: &mut u64,
    members: &Members<'_>,
    left: u32,
) -> Result<Frozen, Halt>
    ensures { SaysFrozen (visit_held (inner_freeze left (map object_in objects.now))
        (tupled members.now) steps.old) result steps.new }
{
    if left == 0 {
        return Err(Halt::Code(faults::TOO_DEEP));
    }
    tick(steps)?;
    let fs = freeze_members(alloc, objects, steps, members, left - 1)?;
    Ok(Frozen::tuple(alloc, fs)?)
}

// Returns the trees of members, in order.
#[cycle(freezing)]
fn freeze_members(
    alloc: Global,
    objects: &Objects,
    steps: &mut u64,
    members: &Members<'_>,
    left: u32,
) -> Result<Vec<Frozen>, Halt>
    ensures { SaysMembers (freeze_members (freeze left (map object_in objects.now)) members.now
        steps.old) result steps.new }
{
    let mut all = Vec::new(alloc);
    for i in 0..members.len() {
        let Some(x) = members.get(i) else {
            return Ok(all);
        };
        match freeze(alloc, objects, steps, x, left) {
            Ok(f) => all.push(f)?,
            Err(halt) => return Err(halt),
        }
    }
    Ok(all)
}

// Returns the tree of a dictionary.
#[cycle(freezing)]
#[tactic(auto, using(crate::proofs::FreezeLaws::dict_deep, crate::proofs::FreezeLaws::dict_more))]
fn freeze_dict(
    alloc: Global,
    objects: &Objects,
    steps: &mut u64,
    entries: &Entries<'_>,
    left: u32,
) -> Result<Frozen, Halt>
    ensures { SaysFrozen (visit_held (inner_freeze left (map object_in objects.now))
        (mapped entries.now) steps.old) result steps.new }
{
    if left == 0 {
        return Err(Halt::Code(faults::TOO_DEEP));
    }
    tick(steps)?;
    let es = freeze_entries(alloc, objects, steps, entries, left - 1)?;
    Ok(Frozen::dict(alloc, es)?)
}

// Returns the trees of keys and values, in order.
#[cycle(freezing)]
fn freeze_entries(
    alloc: Global,
    objects: &Objects,
    steps: &mut u64,
    entries: &Entries<'_>,
    left: u32,
) -> Result<Vec<FrozenEntry>, Halt>
    ensures { SaysEntries
        (freeze_entries (freeze left (map object_in objects.now)) entries.now steps.old)
        result steps.new }
{
    let mut all = Vec::new(alloc);
    for i in 0..entries.len() {
        let Some((_key, entry)) = entries.get_index(i) else {
            return Ok(all);
        };
        match freeze_entry(alloc, objects, steps, entry, left) {
            Ok(e) => all.push(e)?,
            Err(halt) => return Err(halt),
        }
    }
    Ok(all)
}

// Returns the trees of a key and its value.
#[cycle(freezing)]
fn freeze_entry(
    alloc: Global,
    objects: &Objects,
    steps: &mut u64,
    entry: Entry,
    left: u32,
) -> Result<FrozenEntry, Halt>
    ensures { SaysEntry (freeze_entry (freeze left (map object_in objects.now)) entry steps.old)
        result steps.new }
{
    let key = freeze(alloc, objects, steps, entry.key, left)?;
    let value = freeze(alloc, objects, steps, entry.value, left)?;
    Ok(FrozenEntry::new(key, value))
}
