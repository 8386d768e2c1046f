//! Modules.
ghost use Rattle.std.specs.Prelude.{◌≡◌, ◌++◌, OnOk, IfOk, map};
ghost use Rattle.serde_json.specs.Data.{string};
ghost use Rattle.evaluator_semantics.specs.Modules as modules;
ghost use Rattle.evaluator_semantics.specs.Sorting.{in_order};
ghost use Rattle.loader_replies.specs.Answers as answers;
ghost use Rattle.loader_replies.specs.Answers.{fault_data, cycle_data};
ghost use Rattle.loader_replies.specs.Tokens.{tokens_of};

use crate::draft::JsonWriter;
use crate::fault_json::{write_cycle, write_fault};
use base_types::{Memory, Text};
use std::alloc::Global;
use std::collections::BTreeSet;
use values_modules::{Binding, Module};

// Returns whether a name is private to its file.
fn is_private(name: &Text) -> bool
    ensures { result ≡ modules.is_private name.now }
{
    match name.as_str().as_bytes().first() {
        Some(byte) => *byte == b'_',
        None => false,
    }
}

// Returns the set of the names of bindings, without those that begin with `_`.
fn public_names(alloc: Global, bindings: &[Binding]) -> Result<BTreeSet<Text>, Memory>
    ensures { IfOk result
        (λ set. set.keys ≡ in_order (λ x. x) (answers.public_names bindings.now)) }
{
    let mut set = BTreeSet::new(alloc);
    let mut i = bindings.len();
    while i > 0 {
        i -= 1;
        let name = bindings[i].name();
        if !is_private(name) {
            set.insert(name.share()?)?;
        }
    }
    Ok(set)
}

// Writes names, in byte order.
fn write_names(out: &mut JsonWriter, names: BTreeSet<Text>) -> Result<(), Memory>
    ensures { OnOk result (out.new ≡ out.old ++ tokens_of (answers.list (map string names.keys))) }
{
    out.begin_array()?;
    for name in names {
        out.string(name.as_str())?;
    }
    out.end_array()
}

/// Writes a module without a fault: the names of its own globals that do not begin with `_`, in byte order. The names
/// that its loads bound are not exported.
pub fn write_exports(alloc: Global, out: &mut JsonWriter, body: &Module) -> Result<(), Memory>
    ensures { OnOk result (out.new ≡ out.old ++ tokens_of (answers.module_data body.now)) }
{
    let names = public_names(alloc, body.own())?;
    out.begin_object()?;
    out.key("exports")?;
    write_names(out, names)?;
    out.end_object()
}

/// Writes a module with a fault: its code, and the path and the line at which it is shown.
pub fn write_faulty_module(
    out: &mut JsonWriter,
    code: u64,
    path: &Text,
    line: usize,
) -> Result<(), Memory>
    ensures { OnOk result
        (out.new ≡ out.old ++ tokens_of (answers.faulty_module (fault_data code path.now line))) }
{
    out.begin_object()?;
    out.key("fault")?;
    write_fault(out, code, path, line)?;
    out.end_object()
}

/// Writes a module whose loads lead into a cycle: the labels of the modules on it.
pub fn write_cyclic_module(out: &mut JsonWriter, labels: &[Text]) -> Result<(), Memory>
    ensures { OnOk result
        (out.new ≡ out.old ++ tokens_of (answers.faulty_module (cycle_data labels.now))) }
{
    out.begin_object()?;
    out.key("fault")?;
    write_cycle(out, labels)?;
    out.end_object()
}
