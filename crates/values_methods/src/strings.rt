//! The methods of strings.
ghost use Rattle.std.specs.Prelude.{◌≤◌, length};
ghost use Rattle.values_semantics.specs.Heap.{makes_text};
ghost use Rattle.values_semantics.specs.Methods.{bytes_of, joins_items, makes_texts, replace};
ghost use Rattle.values_methods.specs.Cases.{only_text, split_only, of_text, are_texts, joined};
ghost use Rattle.values_methods.specs.Texts.{shown, ChecksText, SaysText};
ghost use Rattle.values_heap.specs.View.{store_of, Says, SaysItems};

use crate::names::{is_name, no_arguments};
use crate::spaces::{ends_with, starts_with, strip};
use crate::splitting::{push_part, replace_parts, split_parts};
use base_types::Text;
use values_heap::{Bytes, Halt, Heap, MAX_LENGTH, Object, ObjectRef, Val};
use values_operators::items;
use values_semantics::faults;

// The most bytes of a text that are in the text itself.
const SHORT: usize = 14;

/// Calls a method of a string, or returns fault 5, 13 or 25.
pub fn text_method(heap: &mut Heap, whole: &[u8], name: &str, xs: &[Val]) -> Result<Val, Halt>
    ensures { Says (of_text whole.now name.now xs.now (store_of heap.old)) result
        (store_of heap.new) }
{
    if is_name(name, "startswith") {
        let part = only_text(heap, xs)?;
        return Ok(Val::boolean(starts_with(part, whole)));
    }
    if is_name(name, "endswith") {
        let part = only_text(heap, xs)?;
        return Ok(Val::boolean(ends_with(part, whole)));
    }
    if is_name(name, "join") {
        return join(heap, whole, xs);
    }
    if is_name(name, "split") {
        return split(heap, whole, xs);
    }
    if is_name(name, "replace") {
        return replace(heap, whole, xs);
    }
    if is_name(name, "strip") {
        no_arguments(xs)?;
        return make_copy(heap, strip(whole));
    }
    Err(Halt::Code(faults::WRONG_TYPE))
}

// Returns the text of a value, or fault 5.
fn text_at<'a>(heap: &'a Heap, x: Val) -> Result<&'a [u8], Halt>
    ensures { ChecksText (bytes_of x (store_of heap.now)) result }
{
    match x {
        Val::At(place) => match heap.object(place)? {
            Some(ObjectRef::Text(bytes)) => Ok(bytes.as_slice()),
            _ => Err(Halt::Code(faults::WRONG_TYPE)),
        },
        _ => Err(Halt::Code(faults::WRONG_TYPE)),
    }
}

// Returns the text of the only argument, or fault 25 or 5.
fn only_text<'a>(heap: &'a Heap, xs: &[Val]) -> Result<&'a [u8], Halt>
    ensures { SaysText (only_text xs.now (store_of heap.now)) result (store_of heap.now) }
{
    let [x] = xs else {
        return Err(Halt::Code(faults::WRONG_ARGUMENTS));
    };
    text_at(heap, *x)
}

// Returns fault 5 if one of these values is no text.
fn check_texts(heap: &Heap, xs: &[Val]) -> Result<(), Halt>
    ensures { Says (are_texts xs.now (store_of heap.now)) result (store_of heap.now) }
{
    for x in xs {
        if let Err(halt) = text_at(heap, *x) {
            return Err(halt);
        }
    }
    Ok(())
}

// Returns the texts of values with another one between them, or fault 5 or 13. Fault 5 comes first, also where a value
// that is no text is after a text that is too much.
fn join_texts(heap: &Heap, separator: &[u8], xs: &[Val]) -> Result<Vec<u8>, Halt>
    ensures { SaysItems (joined separator.now xs.now (store_of heap.now)) result
        (store_of heap.now) }
{
    let mut all = Vec::new(heap.alloc);
    let mut between: &[u8] = b"";
    for x in xs {
        let text = text_at(heap, *x)?;
        if let Err(halt) = push_part(&mut all, between, text) {
            check_texts(heap, xs)?;
            return Err(halt);
        }
        between = separator;
    }
    Ok(all)
}

// Makes a string of a short text.
fn make_short(heap: &mut Heap, text: &str) -> Result<Val, Halt>
    requires { length text.now ≤ 14 }
    ensures { Says (makes_text text.now (store_of heap.old)) result (store_of heap.new) }
{
    let text = Text::new(heap.alloc, text)?;
    heap.make(Object::Text(Bytes::of_text(text)))
}

// Makes a string of these bytes, or returns fault 13. A short one takes no memory beside its place.
fn make_copy(heap: &mut Heap, bytes: &[u8]) -> Result<Val, Halt>
    ensures { Says (makes_text bytes.now (store_of heap.old)) result (store_of heap.new) }
{
    if bytes.len() <= SHORT {
        if let Ok(text) = std::str::from_utf8(bytes) {
            return make_short(heap, text);
        }
    }
    let copy = Vec::from_slice(heap.alloc, bytes)?;
    heap.make_text(copy)
}

// Makes strings, in order.
fn make_copies(heap: &mut Heap, parts: &[&[u8]]) -> Result<Vec<Val>, Halt>
    ensures { SaysItems (makes_texts (shown parts.now) (store_of heap.old)) result
        (store_of heap.new) }
{
    let mut all = Vec::new(heap.alloc);
    for part in parts {
        match make_copy(heap, part) {
            Ok(made) => all.push(made)?,
            Err(halt) => return Err(halt),
        }
    }
    Ok(all)
}

// Evaluates `join(x)`.
fn join(heap: &mut Heap, separator: &[u8], xs: &[Val]) -> Result<Val, Halt>
    ensures { Says (joins_items separator.now xs.now (store_of heap.old)) result
        (store_of heap.new) }
{
    let [x] = xs else {
        return Err(Halt::Code(faults::WRONG_ARGUMENTS));
    };
    let members = items(heap, *x)?;
    let all = join_texts(heap, separator, members.as_slice())?;
    heap.make_text(all)
}

// Evaluates `split(s)`.
fn split(heap: &mut Heap, whole: &[u8], xs: &[Val]) -> Result<Val, Halt>
    ensures { Says (split_only whole.now xs.now (store_of heap.old)) result (store_of heap.new) }
{
    let separator = only_text(heap, xs)?;
    if separator.is_empty() {
        return Err(Halt::Code(faults::WRONG_ARGUMENTS));
    }
    let parts = split_parts(heap.alloc, whole, separator)?;
    if parts.len() > MAX_LENGTH {
        return Err(Halt::Code(faults::TOO_LARGE));
    }
    let all = make_copies(heap, parts.as_slice())?;
    heap.make_list(all)
}

// Evaluates `replace(old, new)`.
fn replace(heap: &mut Heap, whole: &[u8], xs: &[Val]) -> Result<Val, Halt>
    ensures { Says (replace whole.now xs.now (store_of heap.old)) result (store_of heap.new) }
{
    let [old, new] = xs else {
        return Err(Halt::Code(faults::WRONG_ARGUMENTS));
    };
    let old = text_at(heap, *old)?;
    if old.is_empty() {
        return Err(Halt::Code(faults::WRONG_ARGUMENTS));
    }
    let new = text_at(heap, *new)?;
    let all = replace_parts(heap.alloc, whole, old, new)?;
    heap.make_text(all)
}
