//! The attributes in a call of a rule.
ghost use Rattle.std.specs.Prelude.{◌≡◌, map, if◌then◌else◌};
ghost use Rattle.std.specs.List.{list_all};
ghost use Rattle.labels.specs.Paths as paths;
ghost use Rattle.values_semantics.specs.Methods.{bytes_of};
ghost use Rattle.values_semantics.specs.Outcome.{then_checked, good, bad};
ghost use Rattle.evaluator_semantics.specs.Globs.{texts_in};
ghost use Rattle.evaluator_semantics.specs.Rules.{typed, label_in};
ghost use Rattle.values_heap.specs.View.{store_of, Checks, ChecksItems};
ghost use Rattle.evaluator_state.specs.View.{attribute_of, attributed_of};
ghost use Rattle.evaluator_package_calls.specs.Fields.{field_name, field_shape};
ghost use Rattle.evaluator_package_calls.specs.Lists.{tested};
ghost use Rattle.evaluator_package_calls.specs.RuleArguments.{typed_fields, read_as, read_fields, labels_each, labels_at};
ghost use Rattle.evaluator_package_calls.specs.View.{ChecksAs};

use crate::fields::{FIELDS, Field, field_name};
use crate::slots::value_at;
use crate::spelling::{is_path, label_in};
use crate::strings::{are_texts, is_text, list_at, text_at, text_in, texts_in};
use base_types::Text;
use evaluator_state::{Attribute, TargetAttribute};
use std::alloc::Global;
use values_heap::{Bytes, Halt, Heap, Members, Val};
use values_semantics::faults;

/// Tests that the attributes of a call have their types, or returns fault 5.
pub fn are_typed(heap: &Heap, fields: &[Field], slots: &[Option<Val>; FIELDS]) -> Result<(), Halt>
    ensures { Checks (tested (typed_fields fields.now slots.now (store_of heap.now))) result }
{
    for field in fields {
        if let Some(x) = value_at(slots, *field) {
            match is_typed(heap, *field, x) {
                Ok(()) => {}
                Err(halt) => return Err(halt),
            }
        }
    }
    Ok(())
}

// Tests that an attribute has its type, or returns fault 5.
fn is_typed(heap: &Heap, field: Field, x: Val) -> Result<(), Halt>
    ensures { Checks (tested (typed (field_shape field) x (store_of heap.now)))
        result }
{
    match field {
        Field::Actual | Field::Cmd | Field::Name => is_text(heap, x),
        _ => are_texts(heap, x),
    }
}

/// Returns the attributes of a call, in byte order, with their labels read in the package, or fault 5 or 15.
pub fn all_read(
    heap: &Heap,
    package_name: &Text,
    fields: &[Field],
    slots: &[Option<Val>; FIELDS],
) -> Result<Vec<TargetAttribute>, Halt>
    ensures { ChecksAs (λ v. map attributed_of v.items)
        (read_fields package_name.now fields.now slots.now (store_of heap.now)) result }
{
    let mut all = Vec::with_capacity(heap.alloc, fields.len())?;
    for field in fields {
        if let Some(x) = value_at(slots, *field) {
            match attribute_read(heap, package_name, *field, x) {
                Ok(attribute) => all.push(attribute)?,
                Err(halt) => return Err(halt),
            }
        }
    }
    Ok(all)
}

// Returns an attribute under its name, or fault 5 or 15.
fn attribute_read(
    heap: &Heap,
    package_name: &Text,
    field: Field,
    x: Val,
) -> Result<TargetAttribute, Halt>
    ensures { ChecksAs attributed_of (then_checked (read_as package_name.now (field_shape field) x
        (store_of heap.now)) (λ a. good (field_name field, a))) result }
{
    match value_read(heap, package_name, field, x) {
        Ok(value) => {
            let name = Bytes::of_text(Text::new(heap.alloc, field_name(field))?);
            Ok(TargetAttribute { name, value })
        }
        Err(halt) => Err(halt),
    }
}

// Returns the value of an attribute, with its labels read in the package, or fault 5 or 15.
fn value_read(heap: &Heap, package_name: &Text, field: Field, x: Val) -> Result<Attribute, Halt>
    ensures { ChecksAs attribute_of (read_as package_name.now (field_shape field) x
        (store_of heap.now)) result }
{
    match field {
        Field::Actual => {
            let label = label_at(heap, package_name, x)?;
            Ok(Attribute::Single(label))
        }
        Field::Cmd | Field::Name => {
            let text = text_in(heap, x)?;
            Ok(Attribute::Single(text))
        }
        Field::Data | Field::Srcs | Field::Tests | Field::Tools => {
            let labels = labels_at(heap, package_name, x)?;
            Ok(Attribute::Several(labels))
        }
        Field::Outs => {
            let paths = paths_at(heap, x)?;
            Ok(Attribute::Several(paths))
        }
        Field::Tags | Field::Visibility => {
            let texts = texts_in(heap, x)?;
            Ok(Attribute::Several(texts))
        }
    }
}

// Returns the text of a label, read in the package, or fault 5 or 15.
fn label_at(heap: &Heap, package_name: &Text, x: Val) -> Result<Bytes, Halt>
    ensures { Checks (then_checked (bytes_of x (store_of heap.now)) (label_in package_name.now))
        result }
{
    match text_at(heap, x) {
        Ok(text) => label_in(heap.alloc, package_name, text.as_slice()),
        Err(halt) => Err(halt),
    }
}

// Returns the texts of labels in a list, read in the package, or fault 5 or 15.
fn labels_at(heap: &Heap, package_name: &Text, x: Val) -> Result<Vec<Bytes>, Halt>
    ensures { ChecksItems (labels_at package_name.now x (store_of heap.now)) result }
{
    match list_at(heap, x) {
        Ok(members) => labels_each(heap, package_name, &members),
        Err(halt) => Err(halt),
    }
}

// Returns the texts of labels, read in the package one after the other, or fault 5 or 15.
fn labels_each(heap: &Heap, package_name: &Text, members: &Members<'_>) -> Result<Vec<Bytes>, Halt>
    ensures { ChecksItems (labels_each package_name.now members.now (store_of heap.now)) result }
{
    let mut all = Vec::with_capacity(heap.alloc, members.len())?;
    for i in 0..members.len() {
        match label_at(heap, package_name, members.at(i)) {
            Ok(label) => all.push(label)?,
            Err(halt) => return Err(halt),
        }
    }
    Ok(all)
}

// Returns the texts of a list, which must be paths, or fault 5 or 15.
fn paths_at(heap: &Heap, x: Val) -> Result<Vec<Bytes>, Halt>
    ensures { ChecksItems (then_checked (texts_in x (store_of heap.now))
        (λ ts. if list_all paths.is_path ts then good ts else bad 15)) result }
{
    let texts = texts_in(heap, x)?;
    if !are_paths(texts.as_slice()) {
        return Err(Halt::Code(faults::BAD_LABEL));
    }
    Ok(texts)
}

// Returns whether all texts are paths.
fn are_paths(texts: &[Bytes]) -> bool
    ensures { result ≡ list_all paths.is_path texts.now }
{
    for text in texts {
        if !is_path(text.as_slice()) {
            return false;
        }
    }
    true
}
