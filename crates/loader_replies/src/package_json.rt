//! Packages and their targets.
ghost use Rattle.std.specs.Prelude.{◌≡◌, ◌++◌, ◌∷◌, [], OnOk, codes, map};
ghost use Rattle.json.specs.Token.{begin_object, end_object, begin_array, end_array, key};
ghost use Rattle.values_modules.specs.View.{attribute_of, target_of};
ghost use Rattle.loader_replies.specs.Answers as answers;
ghost use Rattle.loader_replies.specs.Answers.{fault_data, cycle_data};
ghost use Rattle.loader_replies.specs.Tokens.{tokens_of};

use crate::draft::JsonWriter;
use crate::fault_json::{write_cycle, write_fault};
use crate::order::rows_of;
use crate::strings::{write_string, write_strings};
use base_types::{Memory, Text};
use std::alloc::Global;
use values_modules::{AttributeReader, AttributeValue, Target, Targets};

// Writes the value of an attribute.
fn write_attribute(
    alloc: Global,
    out: &mut JsonWriter,
    value: AttributeValue<'_>,
) -> Result<(), Memory>
    ensures { OnOk result
        (out.new ≡ out.old ++ tokens_of (answers.attribute_data (attribute_of value.entry))) }
{
    match value {
        AttributeValue::Single(text) => write_string(alloc, out, text),
        AttributeValue::Several(texts) => write_strings(alloc, out, texts),
    }
}

// Writes attributes under their names.
fn write_attributes(
    alloc: Global,
    out: &mut JsonWriter,
    attributes: AttributeReader<'_>,
) -> Result<(), Memory>
    ensures { OnOk result
        (out.new ≡ out.old ++ tokens_of (answers.attributes_data attributes.entry)) }
{
    let rows = rows_of(alloc, attributes)?;
    out.begin_object()?;
    for row in rows {
        out.key(row.name.as_str())?;
        write_attribute(alloc, out, row.value)?;
    }
    out.end_object()
}

// Writes a target: its rule, its name and its attributes.
fn write_target(alloc: Global, out: &mut JsonWriter, target: Target<'_>) -> Result<(), Memory>
    ensures { OnOk result
        (out.new ≡ out.old ++ tokens_of (answers.target_data (target_of target.entry))) }
{
    out.begin_object()?;
    out.key("attrs")?;
    write_attributes(alloc, out, target.attributes)?;
    out.string_member("kind", target.kind)?;
    out.key("name")?;
    write_string(alloc, out, target.name)?;
    out.end_object()
}

// Writes targets, in their order.
fn write_targets(alloc: Global, out: &mut JsonWriter, targets: &Targets) -> Result<(), Memory>
    ensures { OnOk result
        (out.new ≡ out.old ++ tokens_of (answers.list (map answers.target_data targets.now))) }
{
    let mut rest = targets.reader();
    out.begin_array()?;
    while let Some(target) = rest.next() {
        write_target(alloc, out, target)?;
    }
    out.end_array()
}

/// Writes a package without a fault: its name and its targets, in their order.
pub fn write_package(
    alloc: Global,
    out: &mut JsonWriter,
    name: &str,
    targets: &Targets,
) -> Result<(), Memory>
    ensures { OnOk result
        (out.new ≡ out.old ++ tokens_of (answers.package_data name.now targets.now)) }
{
    out.begin_object()?;
    out.string_member("name", name)?;
    out.key("targets")?;
    write_targets(alloc, out, targets)?;
    out.end_object()
}

/// Writes a package with a fault: its code, and the path and the line at which it is shown.
pub fn write_faulty_package(
    out: &mut JsonWriter,
    name: &str,
    code: u64,
    path: &Text,
    line: usize,
) -> Result<(), Memory>
    ensures { OnOk result
        (out.new ≡ out.old ++ tokens_of
        (answers.faulty_package name.now (fault_data code path.now line))) }
{
    out.begin_object()?;
    out.key("fault")?;
    write_fault(out, code, path, line)?;
    out.string_member("name", name)?;
    out.end_object()
}

/// Writes a package whose loads lead into a cycle: the labels of the modules on it.
pub fn write_cyclic_package(out: &mut JsonWriter, name: &str, labels: &[Text]) -> Result<(), Memory>
    ensures { OnOk result
        (out.new ≡ out.old ++ tokens_of (answers.faulty_package name.now (cycle_data labels.now))) }
{
    out.begin_object()?;
    out.key("fault")?;
    write_cycle(out, labels)?;
    out.string_member("name", name)?;
    out.end_object()
}

/// Begins a reply with packages.
pub fn begin_packages(out: &mut JsonWriter) -> Result<(), Memory>
    ensures { OnOk result (out.new ≡ out.old ++ begin_object ∷ key (codes "packages") ∷ begin_array
        ∷ []) }
{
    out.begin_object()?;
    out.key("packages")?;
    out.begin_array()
}

/// Ends a reply with packages, each of which was written since its beginning.
pub fn end_packages(out: &mut JsonWriter) -> Result<(), Memory>
    ensures { OnOk result (out.new ≡ out.old ++ end_array ∷ end_object ∷ []) }
{
    out.end_array()?;
    out.end_object()
}
