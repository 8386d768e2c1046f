//! Modules that loads reach, and what they export.
ghost use Rattle.std.specs.Prelude.{◌≡◌, ◌∷◌, option_map};
ghost use Rattle.evaluator_semantics.specs.Modules.{frozen_at, is_private, export_of, body_at, all_bodies};
ghost use Rattle.evaluator_calls.specs.Once.{AreReached};

use crate::module_table::ModuleTable;
use base_types::Text;
use values_freeze::FrozenValue;
use values_modules::{Binding, Module, ModuleValue};

// Returns the module with a label.
fn module_at<'a>(modules: &'a [Module], label: &Text) -> Option<&'a Module>
    ensures { option_map (λ m. m.now) result ≡ body_at label.now modules.now }
{
    for m in modules.iter() {
        if *label == *m.label() {
            return Some(m);
        }
    }
    None
}

// Returns the module with a label, of those that a load reaches.
fn module_in<'a>(loaded: &'a ModuleValue, label: &Text) -> Option<&'a Module>
    ensures { let m = loaded.now in option_map (λ m. m.now) result ≡ body_at label.now
        (m.body ∷ m.reached) }
{
    if *label == *loaded.body().label() {
        return Some(loaded.body());
    }
    module_at(loaded.reachable(), label)
}

// Returns the module with a label, of those that loads reach, by a search.
fn module_among<'a>(loads: &'a [ModuleValue], label: &Text) -> Option<&'a Module>
    ensures { option_map (λ m. m.now) result ≡ body_at label.now (all_bodies loads.now) }
{
    for loaded in loads.iter() {
        if let Some(m) = module_in(loaded, label) {
            return Some(m);
        }
    }
    None
}

/// Returns the module with a label, of those that loads reach. Where these were put together, it takes no search.
pub fn module_labelled<'a>(
    loads: &'a [ModuleValue],
    reached: &'a Option<ModuleTable>,
    label: &Text,
) -> Option<&'a Module>
    requires { AreReached reached.now loads.now }
    ensures { option_map (λ m. m.now) result ≡ body_at label.now (all_bodies loads.now) }
{
    match reached {
        Some(reached) => reached.with_label(label),
        None => module_among(loads, label),
    }
}

/// Returns the value of a name.
pub(crate) fn frozen_at<'a>(bindings: &'a [Binding], x: &Text) -> Option<&'a FrozenValue>
    ensures { option_map (λ f. f.now) result ≡ frozen_at x.now bindings.now }
{
    for b in bindings.iter() {
        if *x == *b.name() {
            return Some(b.value());
        }
    }
    None
}

/// Returns whether a name is private to its file.
pub(crate) fn is_private(x: &Text) -> bool
    ensures { result ≡ is_private x.now }
{
    match x.as_str().as_bytes().first() {
        Some(byte) => *byte == b'_',
        None => false,
    }
}

/// Returns what a load of a name from a module gives. That is nothing for a name that begins with `_`, or that a load
/// bound there.
pub fn export<'a>(body: &'a Module, x: &Text) -> Option<&'a FrozenValue>
    ensures { option_map (λ f. f.now) result ≡ export_of x.now body.now }
{
    if is_private(x) {
        return None;
    }
    frozen_at(body.own(), x)
}
