//! The strings of values.
ghost use Rattle.values_semantics.specs.Methods.{bytes_of};
ghost use Rattle.evaluator_semantics.specs.Globs.{all_texts, texts_in};
ghost use Rattle.values_heap.specs.View.{store_of, Checks, ChecksItems};
ghost use Rattle.evaluator_package_calls.specs.Lists.{members_of, tested};
ghost use Rattle.evaluator_package_calls.specs.View.{ChecksAs};

use values_heap::{Bytes, Halt, Heap, Members, ObjectRef, Val};
use values_semantics::faults;

/// Returns the bytes of a string, as they are in the heap, or fault 5.
pub fn text_at<'a>(heap: &'a Heap, x: Val) -> Result<&'a Bytes, Halt>
    ensures { ChecksAs (λ b. b.now) (bytes_of x (store_of heap.now)) result }
{
    match x {
        Val::At(place) => match heap.object(place)? {
            Some(ObjectRef::Text(bytes)) => Ok(bytes),
            _ => Err(Halt::Code(faults::WRONG_TYPE)),
        },
        _ => Err(Halt::Code(faults::WRONG_TYPE)),
    }
}

/// Returns the members of a list, as they are in the heap, or fault 5.
pub fn list_at<'a>(heap: &'a Heap, x: Val) -> Result<Members<'a>, Halt>
    ensures { Checks (members_of x (store_of heap.now)) result }
{
    match x {
        Val::At(place) => match heap.object(place)? {
            Some(ObjectRef::List { members, .. }) => Ok(members),
            _ => Err(Halt::Code(faults::WRONG_TYPE)),
        },
        _ => Err(Halt::Code(faults::WRONG_TYPE)),
    }
}

/// Returns the bytes of a string, or fault 5.
pub fn text_in(heap: &Heap, x: Val) -> Result<Bytes, Halt>
    ensures { Checks (bytes_of x (store_of heap.now)) result }
{
    match text_at(heap, x) {
        Ok(bytes) => {
            let bytes = bytes.share()?;
            Ok(bytes)
        }
        Err(halt) => Err(halt),
    }
}

/// Tests that a value is a string, or returns fault 5.
pub fn is_text(heap: &Heap, x: Val) -> Result<(), Halt>
    ensures { Checks (tested (bytes_of x (store_of heap.now))) result }
{
    match text_at(heap, x) {
        Ok(_) => Ok(()),
        Err(halt) => Err(halt),
    }
}

/// Returns the bytes of the strings in a list, or fault 5.
pub fn texts_in(heap: &Heap, x: Val) -> Result<Vec<Bytes>, Halt>
    ensures { ChecksItems (texts_in x (store_of heap.now)) result }
{
    match list_at(heap, x) {
        Ok(members) => all_texts(heap, &members),
        Err(halt) => Err(halt),
    }
}

/// Tests that a value is a list of strings, or returns fault 5.
pub fn are_texts(heap: &Heap, x: Val) -> Result<(), Halt>
    ensures { Checks (tested (texts_in x (store_of heap.now))) result }
{
    match list_at(heap, x) {
        Ok(members) => are_all_texts(heap, &members),
        Err(halt) => Err(halt),
    }
}

// Returns the bytes of strings, or fault 5.
fn all_texts(heap: &Heap, xs: &Members<'_>) -> Result<Vec<Bytes>, Halt>
    ensures { ChecksItems (all_texts xs.now (store_of heap.now)) result }
{
    let mut all = Vec::with_capacity(heap.alloc, xs.len())?;
    for i in 0..xs.len() {
        match text_in(heap, xs.at(i)) {
            Ok(text) => all.push(text)?,
            Err(halt) => return Err(halt),
        }
    }
    Ok(all)
}

// Tests that values are strings, or returns fault 5.
fn are_all_texts(heap: &Heap, xs: &Members<'_>) -> Result<(), Halt>
    ensures { Checks (tested (all_texts xs.now (store_of heap.now))) result }
{
    for i in 0..xs.len() {
        match is_text(heap, xs.at(i)) {
            Ok(()) => {}
            Err(halt) => return Err(halt),
        }
    }
    Ok(())
}
