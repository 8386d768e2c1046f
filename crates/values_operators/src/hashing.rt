//! Keys of dictionaries.
ghost use Rattle.std.specs.Prelude.{◌≡◌, map, IfOk};
ghost use Rattle.values_semantics.specs.Hashing.{key, inner_key, along, part_key, visit_key, as_key, parts};
ghost use Rattle.values_objects.specs.Standings.{object_in};
ghost use Rattle.values_heap.specs.View.{Says, SaysItems};
ghost use Rattle.values_operators.specs.View.{key_seen};

use base_types::Memory;
use std::alloc::Global;
use values_heap::{Halt, Key, Members, ObjectRef, Objects, Part, Val, tick};
use values_semantics::faults;

/// What a value is as a key.
#[derive(Drop)]
pub enum KeyForm<'a> {
    Part(Part),
    Parts(Members<'a>),
    NoKey,
}

// Returns a value as a key: one part, the members of a tuple, or no key.
#[inline(always)]
fn as_key<'a>(objects: &'a Objects, x: Val) -> Result<KeyForm<'a>, Memory>
    ensures { IfOk result (λ k. key_seen k ≡ as_key (map object_in objects.now) x) }
{
    match x {
        Val::Nothing => Ok(KeyForm::Part(Part::Nothing)),
        Val::True => Ok(KeyForm::Part(Part::Bool(true))),
        Val::False => Ok(KeyForm::Part(Part::Bool(false))),
        Val::Int(n) => Ok(KeyForm::Part(Part::Int(n))),
        Val::Builtin(_) => Ok(KeyForm::NoKey),
        Val::At(place) => match objects.object_ref(place)? {
            Some(ObjectRef::Text(bytes)) => Ok(KeyForm::Part(Part::Text(bytes.share()?))),
            Some(ObjectRef::Tuple(members)) => Ok(KeyForm::Parts(members)),
            _ => Ok(KeyForm::NoKey),
        },
    }
}

/// Returns the parts of a key, or fault 5 for a value that cannot be a key, or 11 or 12. Each value visited is a step,
/// and `left` more containers may be entered.
#[cycle(hashing)]
#[tactic(auto, using(crate::proofs::Hashes::key_is))]
pub fn key(
    alloc: Global,
    objects: &Objects,
    steps: &mut u64,
    x: Val,
    left: u32,
) -> Result<Vec<Part>, Halt>
    ensures { SaysItems (key left (map object_in objects.now) x steps.old) result steps.new }
{
    match as_key(objects, x)? {
        KeyForm::Part(part) => one_part(alloc, steps, part),
        KeyForm::NoKey => {
            tick(steps)?;
            Err(Halt::Code(faults::WRONG_TYPE))
        }
        KeyForm::Parts(members) => tuple_key(alloc, objects, steps, &members, left),
    }
}

/// Returns a key, by the walk of `key`. The key of a value that is not a tuple takes no list.
#[inline(always)]
#[tactic(auto, using(crate::proofs::Hashes::key_is))]
pub fn key_of(
    alloc: Global,
    objects: &Objects,
    steps: &mut u64,
    x: Val,
    left: u32,
) -> Result<Key, Halt>
    ensures { Says (key left (map object_in objects.now) x steps.old) result steps.new }
{
    match as_key(objects, x)? {
        KeyForm::Part(part) => key_of_part(steps, part),
        _ => {
            let parts = key(alloc, objects, steps, x, left)?;
            Ok(Key::several(parts))
        }
    }
}

// Returns the key that is one part, for a step.
#[inline(always)]
fn key_of_part(steps: &mut u64, x: Part) -> Result<Key, Halt>
    ensures { Says (part_key x steps.old) result steps.new }
{
    tick(steps)?;
    Ok(Key::one(x))
}

// Returns the parts of a key of one part, for a step.
fn one_part(alloc: Global, steps: &mut u64, x: Part) -> Result<Vec<Part>, Halt>
    ensures { SaysItems (part_key x steps.old) result steps.new }
{
    tick(steps)?;
    let mut all = Vec::new(alloc);
    all.push(x)?;
    Ok(all)
}

// Returns the parts of the key of a tuple.
#[cycle(hashing)]
#[tactic(auto, using(crate::proofs::Hashes::tuple_deep, crate::proofs::Hashes::tuple_more))]
fn tuple_key(
    alloc: Global,
    objects: &Objects,
    steps: &mut u64,
    members: &Members<'_>,
    left: u32,
) -> Result<Vec<Part>, Halt>
    ensures { SaysItems (visit_key (inner_key left (map object_in objects.now)) (parts members.now)
        steps.old) result steps.new }
{
    if left == 0 {
        return Err(Halt::Code(faults::TOO_DEEP));
    }
    tick(steps)?;
    let mut all = Vec::new(alloc);
    all.push(Part::Tuple(members.len()))?;
    let mut inner = concat_parts(alloc, objects, steps, members, left - 1)?;
    all.append(&mut inner)?;
    Ok(all)
}

// Returns the parts of keys, one after another.
#[cycle(hashing)]
fn concat_parts(
    alloc: Global,
    objects: &Objects,
    steps: &mut u64,
    members: &Members<'_>,
    left: u32,
) -> Result<Vec<Part>, Halt>
    ensures { SaysItems (along (key left (map object_in objects.now)) members.now steps.old) result
        steps.new }
{
    let mut all = Vec::new(alloc);
    for i in 0..members.len() {
        let mut more = match key(alloc, objects, steps, members.at(i), left) {
            Ok(more) => more,
            Err(halt) => return Err(halt),
        };
        all.append(&mut more)?;
    }
    Ok(all)
}
