//! `range`.
ghost use Rattle.std.specs.Prelude.{◌≡◌, pos, IfSome};
ghost use Rattle.values_semantics.specs.Heap.{makes_list};
ghost use Rattle.values_semantics.specs.Functions.{range, range_by, range_list, range_count, numbers};
ghost use Rattle.values_heap.specs.View.{store_of, Says};
ghost use Rattle.values_objects.specs.ListSizes.{SizedAs};
ghost use Rattle.values_objects.specs.Numbers.{shown};
ghost use Rattle.values_builtins.specs.Spans.{lies_before, IsNonzero};

use std::alloc::Global;
use values_heap::{Halt, Heap, MAX_LENGTH, Numbers, Object, Val};
use values_semantics::faults;

/// Evaluates `range(to)`, `range(from, to)` or `range(from, to, step)`, or returns fault 25, 5 or 13.
pub fn range(heap: &mut Heap, xs: &[Val]) -> Result<Val, Halt>
    ensures { Says (range xs.now (store_of heap.old)) result (store_of heap.new) }
{
    match xs {
        [to] => range_by(heap, Val::Int(0), *to, Val::Int(1)),
        [from, to] => range_by(heap, *from, *to, Val::Int(1)),
        [from, to, step] => range_by(heap, *from, *to, *step),
        _ => Err(Halt::Code(faults::WRONG_ARGUMENTS)),
    }
}

// Makes the list of a range from its three values.
fn range_by(heap: &mut Heap, from: Val, to: Val, step: Val) -> Result<Val, Halt>
    ensures { Says (range_by from to step (store_of heap.old)) result (store_of heap.new) }
{
    let Val::Int(step) = step else {
        return Err(Halt::Code(faults::WRONG_TYPE));
    };
    if step == 0 {
        return Err(Halt::Code(faults::WRONG_ARGUMENTS));
    }
    match (from, to) {
        (Val::Int(from), Val::Int(to)) => make_range(heap, from, to, step),
        _ => Err(Halt::Code(faults::WRONG_TYPE)),
    }
}

// Makes the list of a range.
fn make_range(heap: &mut Heap, from: i64, to: i64, step: i64) -> Result<Val, Halt>
    requires { IsNonzero step }
    ensures { Says (range_list from to step (store_of heap.old)) result (store_of heap.new) }
{
    if step == 1 {
        if let Some(held) = hold_numbers(from, to) {
            return make_held(heap, held);
        }
    }
    let members = numbers(heap.alloc, from, to, step)?;
    let made = heap.make_list(members)?;
    Ok(made)
}

// Makes a list of consecutive numbers.
fn make_held(heap: &mut Heap, held: Numbers) -> Result<Val, Halt>
    ensures { Says (makes_list (shown held) (store_of heap.old)) result (store_of heap.new) }
{
    if held.len() > MAX_LENGTH {
        return Err(Halt::Code(faults::TOO_LARGE));
    }
    let made = heap.make(Object::Numbers(held))?;
    Ok(made)
}

// Returns the numbers from one up to another, if they are not too many.
fn hold_numbers(from: i64, to: i64) -> Option<Numbers>
    ensures { IfSome result (λ n. shown n ≡ numbers (range_count from to (pos 1)) from (pos 1)) }
{
    if from < to {
        let span = to.checked_sub(from)?;
        return Numbers::new(from, span as usize);
    }
    Numbers::new(from, 0)
}

// Returns for how many numbers memory is allocated at first.
fn room(from: i64, to: i64, step: i64) -> usize {
    let span = to.saturating_sub(from);
    let Some(steps) = span.checked_div(step) else {
        return 0;
    };
    match usize::try_from(steps) {
        Ok(n) => n.saturating_add(1).min(MAX_LENGTH),
        Err(_) => 0,
    }
}

// Returns the numbers of a range, or fault 13.
fn numbers(alloc: Global, from: i64, to: i64, step: i64) -> Result<Vec<Val>, Halt>
    requires { IsNonzero step }
    ensures { SizedAs (numbers (range_count from to step) from step) result }
{
    let mut members = Vec::with_capacity(alloc, room(from, to, step))?;
    let mut next = from;
    while lies_before(next, to, step) {
        if members.len() >= MAX_LENGTH {
            return Err(Halt::Code(faults::TOO_LARGE));
        }
        members.push(Val::Int(next))?;
        match next.checked_add(step) {
            Some(n) => next = n,
            None => return Ok(members),
        }
    }
    Ok(members)
}

// Returns whether a number is before the end of a range.
#[inline(always)]
fn lies_before(n: i64, to: i64, step: i64) -> bool
    ensures { result ≡ lies_before n to step }
{
    if step > 0 { n < to } else { n > to }
}
