//! The arguments of a rule, each at the place of its parameter.
ghost use Rattle.std.specs.Prelude.{◌≡◌, ◌&&◌, [], not, zip, IfOk};
ghost use Rattle.std.specs.Bool.{OnTrue};
ghost use Rattle.values_semantics.specs.Functions.{KeywordArguments, is_twice};
ghost use Rattle.evaluator_semantics.specs.Rules.{are_attributes, not_none};
ghost use Rattle.evaluator_package_calls.specs.Fields.{field_name, shapes};
ghost use Rattle.evaluator_package_calls.specs.RuleArguments.{HasValues, Takes, is_taken, value_at};

use crate::arguments::{is_twice, named_part};
use crate::fields::{FIELDS, Field, field_named, is_known, place_of};
use base_types::{Memory, Text};
use std::alloc::Global;
use values_heap::Val;

/// Where an argument goes: to the place of a parameter, nowhere since it is None under another name, or it is refused.
#[derive(Clone, Copy)]
pub enum Placement {
    Known,
    Unknown,
    Refused,
}

// Returns whether a rule with these attributes takes a value under the name of a parameter.
fn is_allowed(fields: &[Field], field: Field, x: Val) -> bool
    ensures { result ≡ is_taken (field_name field) x (shapes fields.now) }
{
    match x {
        Val::Nothing => true,
        _ => is_known(field, fields),
    }
}

// Puts a value at the place of a parameter.
fn take_value(
    fields: &[Field],
    field: Field,
    x: Val,
    slots: &mut [Option<Val>; FIELDS],
) -> Placement
    ensures { (ns : KeywordArguments) → HasValues ns slots.old → Takes (field_name field) x
        (shapes fields.now) ns slots.new result }
{
    let place = place_of(field);
    if slots[place].is_some() {
        return Placement::Refused;
    }
    if !is_allowed(fields, field, x) {
        return Placement::Refused;
    }
    slots[place] = Some(x);
    Placement::Known
}

// Puts an argument at the place of its parameter.
fn take_argument(
    fields: &[Field],
    name: &str,
    x: Val,
    slots: &mut [Option<Val>; FIELDS],
) -> Placement
    ensures { (ns : KeywordArguments) → HasValues ns slots.old → Takes name.now x
        (shapes fields.now) ns slots.new result }
{
    match field_named(name) {
        Some(field) => take_value(fields, field, x, slots),
        None => match x {
            Val::Nothing => Placement::Unknown,
            _ => Placement::Refused,
        },
    }
}

/// Puts the arguments at the places of their parameters, which are empty, from the last to the first. Returns whether a
/// rule with these attributes takes them, that is, no two have one name, and each that is not None has the name of a
/// parameter.
pub fn take_arguments(
    alloc: Global,
    fields: &[Field],
    names: &[Text],
    values: &[Val],
    slots: &mut [Option<Val>; FIELDS],
) -> Result<bool, Memory>
    requires { HasValues [] slots.old }
    ensures taken { let ns = zip names.now values.now in IfOk result
        (λ b. b ≡ (not (is_twice ns) && are_attributes (not_none ns) (shapes fields.now))) }
    ensures values { IfOk result
        (λ b. OnTrue b (HasValues (zip names.now values.now) slots.new)) }
{
    let mut others = false;
    let mut i = names.len().min(values.len());
    while i > 0 {
        i -= 1;
        match take_argument(fields, names[i].as_str(), values[i], slots) {
            Placement::Known => {}
            Placement::Unknown => others = true,
            Placement::Refused => return Ok(false),
        }
    }
    if !others {
        return Ok(true);
    }
    let named = named_part(alloc, names, values)?;
    let twice = is_twice(alloc, named.as_slice())?;
    Ok(!twice)
}

/// Returns the value of a parameter. None counts as absent.
pub fn value_at(slots: &[Option<Val>; FIELDS], field: Field) -> Option<Val>
    ensures { result ≡ value_at slots.now field }
{
    match slots.get(place_of(field)) {
        Some(Some(Val::Nothing)) => None,
        Some(x) => *x,
        None => None,
    }
}
