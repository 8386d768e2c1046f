//! The order of values.
ghost use Rattle.std.specs.Prelude.{◌≡◌, map, slice_get, IfOk};
ghost use Rattle.values_semantics.specs.Comparing.{equal, order, inner_order, sides, side_objects, visit_sides, listed, parting};
ghost use Rattle.values_operators.specs.ListEnd.{ended};
ghost use Rattle.values_objects.specs.Standings.{object_in};
ghost use Rattle.values_heap.specs.View.{Says};
ghost use Rattle.values_operators.specs.View.{SaysParting, sides_seen};

use crate::equality::equal;
use base_types::Memory;
use std::cmp::Ordering;
use values_heap::{Halt, Members, ObjectRef, Objects, Val, tick};
use values_semantics::faults;

/// What is left to order of two values.
#[derive(Drop)]
pub enum OrderCase<'a> {
    Ordered(Ordering),
    Listed(Members<'a>, Members<'a>),
    NoOrder,
}

/// Where two lists differ first.
#[derive(Clone, Copy)]
pub enum FirstDifference {
    SettledAs(Ordering),
    Unequal(Val, Val),
}

// Returns how two values are ordered: directly, by their members, or not at all.
fn make_sides<'a>(objects: &'a Objects, a: Val, b: Val) -> Result<OrderCase<'a>, Memory>
    ensures { IfOk result (λ s. sides_seen s ≡ sides (map object_in objects.now) a b) }
{
    match (a, b) {
        (Val::Int(x), Val::Int(y)) => Ok(OrderCase::Ordered(x.cmp(&y))),
        (Val::At(x), Val::At(y)) => side_objects(objects, x, y),
        _ => Ok(OrderCase::NoOrder),
    }
}

// Returns how two objects are ordered: directly, by their members, or not at all.
fn side_objects<'a>(objects: &'a Objects, a: usize, b: usize) -> Result<OrderCase<'a>, Memory>
    ensures { IfOk result
        (λ s. sides_seen s ≡ side_objects (slice_get (map object_in objects.now) a)
        (slice_get (map object_in objects.now) b)) }
{
    match (objects.object_ref(a)?, objects.object_ref(b)?) {
        (Some(ObjectRef::Text(x)), Some(ObjectRef::Text(y))) => {
            Ok(OrderCase::Ordered(x.as_slice().cmp(y.as_slice())))
        }
        (Some(ObjectRef::List { members: x, .. }), Some(ObjectRef::List { members: y, .. })) => {
            Ok(OrderCase::Listed(x, y))
        }
        (Some(ObjectRef::Tuple(x)), Some(ObjectRef::Tuple(y))) => { Ok(OrderCase::Listed(x, y)) }
        _ => Ok(OrderCase::NoOrder),
    }
}

/// Returns the order of two values, or fault 5, 11 or 12. Each pair compared is a step, and `left` more containers may
/// be entered.
#[cycle(ordering)]
#[tactic(auto, using(crate::proofs::Comparisons::order_is))]
pub fn order(
    objects: &Objects,
    steps: &mut u64,
    a: Val,
    b: Val,
    left: u32,
) -> Result<Ordering, Halt>
    ensures { Says (order left (map object_in objects.now) a b steps.old) result steps.new }
{
    match make_sides(objects, a, b)? {
        OrderCase::Ordered(o) => {
            tick(steps)?;
            Ok(o)
        }
        OrderCase::Listed(xs, ys) => order_lists(objects, steps, &xs, &ys, left),
        OrderCase::NoOrder => {
            tick(steps)?;
            Err(Halt::Code(faults::WRONG_TYPE))
        }
    }
}

// Returns the order of two lists.
#[cycle(ordering)]
#[tactic(auto, using(crate::proofs::Comparisons::sides_deep, crate::proofs::Comparisons::sides_more))]
fn order_lists(
    objects: &Objects,
    steps: &mut u64,
    xs: &Members<'_>,
    ys: &Members<'_>,
    left: u32,
) -> Result<Ordering, Halt>
    ensures { Says (visit_sides (inner_order left (map object_in objects.now))
        (listed xs.now ys.now) steps.old) result steps.new }
{
    if left == 0 {
        return Err(Halt::Code(faults::TOO_DEEP));
    }
    tick(steps)?;
    match first_difference(objects, steps, xs, ys, left - 1)? {
        FirstDifference::SettledAs(o) => Ok(o),
        FirstDifference::Unequal(x, y) => order(objects, steps, x, y, left - 1),
    }
}

// Returns where two lists differ first.
#[tactic(auto, using(crate::proofs::Comparisons::parts_same, crate::proofs::Comparisons::parts_differ, crate::proofs::Comparisons::parts_end, crate::proofs::Comparisons::parts_last, crate::proofs::Comparisons::parts_greater))]
fn first_difference(
    objects: &Objects,
    steps: &mut u64,
    xs: &Members<'_>,
    ys: &Members<'_>,
    left: u32,
) -> Result<FirstDifference, Halt>
    ensures { SaysParting (parting (equal left (map object_in objects.now)) xs.now ys.now steps.old)
        result steps.new }
{
    for i in 0..xs.len() {
        let Some(x) = xs.get(i) else {
            return Ok(FirstDifference::SettledAs(order_by_length(ys, i)));
        };
        let Some(y) = ys.get(i) else {
            return Ok(FirstDifference::SettledAs(Ordering::Greater));
        };
        match equal(objects, steps, x, y, left) {
            Ok(true) => {}
            Ok(false) => return Ok(FirstDifference::Unequal(x, y)),
            Err(halt) => return Err(halt),
        }
    }
    Ok(FirstDifference::SettledAs(order_by_length(ys, xs.len())))
}

// Returns the order by lengths, where the left list ends at an index.
fn order_by_length(ys: &Members<'_>, i: usize) -> Ordering
    ensures { result ≡ ended (slice_get ys.now i) }
{
    match ys.get(i) {
        Some(_) => Ordering::Less,
        None => Ordering::Equal,
    }
}
