//! Comparison by `==`.
ghost use Rattle.std.specs.Prelude.{◌≡◌, map, slice_get, IfOk};
ghost use Rattle.values_semantics.specs.Comparing.{equal, inner_equal, pair, pair_objects, equal_members, equal_entries, equal_entry, equal_found, visit_pair, members, entries};
ghost use Rattle.values_objects.specs.Standings.{object_in};
ghost use Rattle.values_heap.specs.View.{Says};
ghost use Rattle.values_operators.specs.View.{pair_seen};

use base_types::Memory;
use values_heap::{
    Builtin, Entries, Entry, Halt, Key, Members, ObjectRef, Objects, Val, spend, tick,
};
use values_semantics::faults;

/// What is left to compare of two values.
#[derive(Drop)]
pub enum Pair<'a> {
    Decided(bool),
    Members(Members<'a>, Members<'a>),
    Entries(Entries<'a>, Entries<'a>),
}

// Returns how two values are compared: decided directly, by their members, or by their entries.
#[inline(always)]
fn make_pair<'a>(objects: &'a Objects, a: Val, b: Val) -> Result<Pair<'a>, Memory>
    ensures { IfOk result (λ p. pair_seen p ≡ pair (map object_in objects.now) a b) }
{
    match (a, b) {
        (Val::Nothing, Val::Nothing) => Ok(Pair::Decided(true)),
        (Val::True, Val::True) => Ok(Pair::Decided(true)),
        (Val::False, Val::False) => Ok(Pair::Decided(true)),
        (Val::Int(x), Val::Int(y)) => Ok(Pair::Decided(x == y)),
        (Val::Builtin(x), Val::Builtin(y)) => Ok(Pair::Decided(x == y)),
        (Val::At(x), Val::At(y)) => pair_objects(objects, x, y),
        _ => Ok(Pair::Decided(false)),
    }
}

// Returns how two objects are compared: decided directly, by their members, or by their entries.
#[inline(always)]
fn pair_objects<'a>(objects: &'a Objects, a: usize, b: usize) -> Result<Pair<'a>, Memory>
    ensures { IfOk result (λ p. pair_seen p ≡ pair_objects (slice_get (map object_in objects.now) a)
        (slice_get (map object_in objects.now) b)) }
{
    match (objects.object_ref(a)?, objects.object_ref(b)?) {
        (Some(ObjectRef::Text(x)), Some(ObjectRef::Text(y))) => Ok(Pair::Decided(x == y)),
        (Some(ObjectRef::List { members: x, .. }), Some(ObjectRef::List { members: y, .. })) => {
            if x.len() == y.len() {
                Ok(Pair::Members(x, y))
            } else {
                Ok(Pair::Decided(false))
            }
        }
        (Some(ObjectRef::Tuple(x)), Some(ObjectRef::Tuple(y))) => {
            if x.len() == y.len() {
                Ok(Pair::Members(x, y))
            } else {
                Ok(Pair::Decided(false))
            }
        }
        (Some(ObjectRef::Dict { entries: x, .. }), Some(ObjectRef::Dict { entries: y, .. })) => {
            if x.len() == y.len() {
                Ok(Pair::Entries(x, y))
            } else {
                Ok(Pair::Decided(false))
            }
        }
        (Some(ObjectRef::Function(l, f)), Some(ObjectRef::Function(m, g))) => {
            Ok(Pair::Decided(l == m && f == g))
        }
        _ => Ok(Pair::Decided(false)),
    }
}

/// Returns whether two values are equal, or fault 11 or 12. Each pair compared is a step, and `left` more containers
/// may be entered.
#[cycle(comparing)]
#[tactic(auto, using(crate::proofs::Comparisons::equal_is))]
pub fn equal(objects: &Objects, steps: &mut u64, a: Val, b: Val, left: u32) -> Result<bool, Halt>
    ensures { Says (equal left (map object_in objects.now) a b steps.old) result steps.new }
{
    match make_pair(objects, a, b)? {
        Pair::Decided(same) => {
            tick(steps)?;
            Ok(same)
        }
        Pair::Members(xs, ys) => equal_lists(objects, steps, &xs, &ys, left),
        Pair::Entries(xs, ys) => equal_dicts(objects, steps, &xs, &ys, left),
    }
}

// Returns whether the members of two lists of one length are equal.
#[cycle(comparing)]
#[tactic(auto, using(crate::proofs::Comparisons::lists_deep, crate::proofs::Comparisons::lists_more))]
fn equal_lists(
    objects: &Objects,
    steps: &mut u64,
    xs: &Members<'_>,
    ys: &Members<'_>,
    left: u32,
) -> Result<bool, Halt>
    ensures { Says (visit_pair (inner_equal left (map object_in objects.now))
        (members xs.now ys.now) steps.old) result steps.new }
{
    if left == 0 {
        return Err(Halt::Code(faults::TOO_DEEP));
    }
    tick(steps)?;
    equal_members(objects, steps, xs, ys, left - 1)
}

// Returns whether members are equal. Compares up to the first that are not.
#[cycle(comparing)]
#[tactic(auto, using(crate::proofs::Comparisons::members_same, crate::proofs::Comparisons::members_differ, crate::proofs::Comparisons::members_first_over, crate::proofs::Comparisons::members_second_over))]
fn equal_members(
    objects: &Objects,
    steps: &mut u64,
    xs: &Members<'_>,
    ys: &Members<'_>,
    left: u32,
) -> Result<bool, Halt>
    ensures { Says (equal_members (equal left (map object_in objects.now)) xs.now ys.now steps.old)
        result steps.new }
{
    for i in 0..xs.len() {
        let Some(x) = xs.get(i) else {
            return Ok(true);
        };
        let Some(y) = ys.get(i) else {
            return Ok(true);
        };
        match equal(objects, steps, x, y, left) {
            Ok(true) => {}
            Ok(false) => return Ok(false),
            Err(halt) => return Err(halt),
        }
    }
    Ok(true)
}

// Returns whether the entries of two dictionaries of one length are equal.
#[cycle(comparing)]
#[tactic(auto, using(crate::proofs::Comparisons::dicts_deep, crate::proofs::Comparisons::dicts_more))]
fn equal_dicts(
    objects: &Objects,
    steps: &mut u64,
    xs: &Entries<'_>,
    ys: &Entries<'_>,
    left: u32,
) -> Result<bool, Halt>
    ensures { Says (visit_pair (inner_equal left (map object_in objects.now))
        (entries xs.now ys.now) steps.old) result steps.new }
{
    if left == 0 {
        return Err(Halt::Code(faults::TOO_DEEP));
    }
    tick(steps)?;
    equal_entries(objects, steps, xs, ys, left - 1)
}

// Returns whether the right has the keys of the left with equal values. Compares up to the first entry that it does not
// have.
#[cycle(comparing)]
#[tactic(auto, using(crate::proofs::Comparisons::entries_same, crate::proofs::Comparisons::entries_differ))]
fn equal_entries(
    objects: &Objects,
    steps: &mut u64,
    xs: &Entries<'_>,
    ys: &Entries<'_>,
    left: u32,
) -> Result<bool, Halt>
    ensures { Says (equal_entries (equal left (map object_in objects.now)) xs.now
        ys.now steps.old) result steps.new }
{
    for i in 0..xs.len() {
        let Some((key, entry)) = xs.get_index(i) else {
            return Ok(true);
        };
        match equal_entry(objects, steps, key, entry.value, ys, left) {
            Ok(true) => {}
            Ok(false) => return Ok(false),
            Err(halt) => return Err(halt),
        }
    }
    Ok(true)
}

// Returns whether the right has a key with an equal value.
#[cycle(comparing)]
fn equal_entry(
    objects: &Objects,
    steps: &mut u64,
    key: &Key,
    x: Val,
    ys: &Entries<'_>,
    left: u32,
) -> Result<bool, Halt>
    ensures { Says (equal_entry (equal left (map object_in objects.now)) key.now x ys.now
        steps.old) result steps.new }
{
    spend(steps, key.parts().len())?;
    equal_found(objects, steps, x, ys.get(key), left)
}

// Returns whether there is an entry and a value is equal to that of the entry.
#[cycle(comparing)]
fn equal_found(
    objects: &Objects,
    steps: &mut u64,
    x: Val,
    found: Option<Entry>,
    left: u32,
) -> Result<bool, Halt>
    ensures { Says (equal_found (equal left (map object_in objects.now)) x found steps.old) result
        steps.new }
{
    match found {
        Some(entry) => equal(objects, steps, x, entry.value, left),
        None => Ok(false),
    }
}
