//! Functions by their names, their defaults, and the functions that are being called.
ghost use Rattle.std.specs.Prelude.{◌≡◌, map};
ghost use Rattle.evaluator_semantics.specs.Environment.{defaults_among, defaults_of};
ghost use Rattle.evaluator_semantics.specs.Calls.{is_running};
ghost use Rattle.evaluator_semantics.specs.Names.{names_at};
ghost use Rattle.evaluator_state.specs.SharedDefaults.{default_values};
ghost use Rattle.evaluator_state.specs.View.{world_of};
ghost use Rattle.evaluator_calls.specs.View.{running_of, open_of};

use base_types::Text;
use evaluator_state::{Files, State};
use std::alloc::Global;
use std::sync::Arc;
use values_heap::Val;

/// A function that is being called: the label of its file and its name.
#[derive(Drop)]
pub struct ActiveCall {
    pub label: Text,
    pub name: Text,
}

// Returns whether a function is one of these.
fn is_among(functions: &[ActiveCall], label: &Text, name: &Text) -> bool
    ensures { result ≡ is_running label.now name.now (map open_of functions.now) }
{
    for f in functions.iter() {
        if *label == f.label && *name == f.name {
            return true;
        }
    }
    false
}

/// Returns whether a function is being called.
#[tactic(auto, using(crate::proofs::Runs::running_turned))]
pub fn is_running(running: &[ActiveCall], label: &Text, name: &Text) -> bool
    ensures { result ≡ is_running label.now name.now (running_of running.now) }
{
    is_among(running, label, name)
}

/// Returns the values of a function's defaults, in these files, or none if the file has no such function.
pub fn defaults_among<'a>(
    files: &'a Files,
    label: &Text,
    name: &Text,
) -> Option<&'a Arc<Vec<Val>, Global>>
    ensures { default_values result ≡ defaults_among name.now (names_at label.now files.now) }
{
    match files.with_label(label) {
        Some(file) => file.defaults.defaults_named(name),
        None => None,
    }
}

/// Returns the values of defaults that may be shared.
pub fn defaults_in(defaults: Option<&Arc<Vec<Val>, Global>>) -> &[Val]
    ensures { result.now ≡ default_values defaults.entry }
{
    match defaults {
        Some(values) => values.as_slice(),
        None => &[],
    }
}

/// Returns the values of a function's defaults, or none if the file has no such function.
pub fn defaults_of<'a>(
    state: &'a State,
    label: &Text,
    name: &Text,
) -> Option<&'a Arc<Vec<Val>, Global>>
    ensures { default_values result ≡ defaults_of label.now name.now (world_of state.now) }
{
    defaults_among(&state.files, label, name)
}
