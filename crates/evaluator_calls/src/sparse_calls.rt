//! Calls of functions with many names. The block of such a call holds what the call gives, and not a slot for each name.
ghost use Rattle.std.specs.Prelude.{◌≡◌, ◌≤◌, length, true, map, IfOk, IfSome};
ghost use Rattle.std.specs.Arc.{arc_value};
ghost use Rattle.syntax_tree.specs.Statements.{fn_of, param_of};
ghost use Rattle.evaluator_semantics.specs.Arguments.{plain_part, named_part, arguments};
ghost use Rattle.evaluator_calls.specs.View.{IsEntered};
ghost use Rattle.evaluator_state.specs.SharedDefaults.{default_values};
ghost use Rattle.evaluator_calls.specs.SparseCalls.{NoneNamed, AllNamed, AreGiven};

use crate::named_arguments::{KeptArguments, NamedArguments};
use base_types::{Memory, Text};
use evaluator_state::{Block, SparseBlock};
use std::alloc::Global;
use std::collections::HashMap;
use std::sync::Arc;
use syntax_tree::{Def, Param};
use values_heap::Val;

// Returns whether no parameter of a range is named.
fn none_named(params: &[Param], to: usize, named: &NamedArguments<'_>) -> bool
    requires { to ≤ length params.now }
    ensures { result ≡ true → NoneNamed 0 to (map param_of params.now) named.now }
{
    for i in 0..to {
        if named.value(&params[i].name).is_some() {
            return false;
        }
    }
    true
}

// Returns whether each parameter of a range is named.
fn all_named(params: &[Param], from: usize, to: usize, named: &NamedArguments<'_>) -> bool
    requires { to ≤ length params.now }
    ensures { result ≡ true → AllNamed from to (map param_of params.now) named.now }
{
    for i in from..to {
        if named.value(&params[i].name).is_none() {
            return false;
        }
    }
    true
}

// Shares the values of defaults.
fn share_defaults(
    alloc: Global,
    defaults: Option<&Arc<Vec<Val>, Global>>,
) -> Result<Arc<Vec<Val>, Global>, Memory>
    ensures { IfOk result (λ a. (arc_value a).items ≡ default_values defaults.entry) }
{
    match defaults {
        Some(values) => Ok(Arc::try_clone(values)?),
        None => Ok(Arc::new(alloc, Vec::new(alloc))?),
    }
}

// Returns whether a call gives each parameter one value, if the last parameters have the defaults.
fn are_given(
    params: &[Param],
    required: usize,
    number: usize,
    named: &NamedArguments<'_>,
    defaults: usize,
) -> bool
    ensures { result ≡ true
        → AreGiven (map param_of params.now) required number named.now defaults }
{
    if number > params.len() || required > params.len() || defaults < params.len() - required {
        return false;
    }
    none_named(params, number, named) && all_named(params, number, required, named)
}

/// Makes the block of a call of a function with many names, if it has what the call gives alone. It has not if the
/// arguments are wrong, or if a parameter without a default comes after one that has one.
///
/// # Errors
///
/// Returns `Memory` if an allocation fails.
pub fn sparse_block(
    alloc: Global,
    def: &Arc<Def, Global>,
    xs: &[Val],
    names: &[Text],
    defaults: Option<&Arc<Vec<Val>, Global>>,
) -> Result<Option<Block>, Memory>
    ensures { let f = fn_of (arc_value def.now) in IfOk result
        (λ o. IfSome o (IsEntered f (arguments f (plain_part xs.now names.now)
        (named_part xs.now names.now) (default_values defaults.entry)))) }
{
    let Some(required) = def.required else {
        return Ok(None);
    };
    let Some(index) = &def.index else {
        return Ok(None);
    };
    let (plain, values) = xs.split_at(xs.len().saturating_sub(names.len()));
    let Some(named) = NamedArguments::new(alloc, names, values)? else {
        return Ok(None);
    };
    let params = def.params.as_slice();
    if !named.are_parameters_of(def, index) {
        return Ok(None);
    }
    let defaults = share_defaults(alloc, defaults)?;
    if !are_given(params, required, plain.len(), &named, defaults.len()) {
        return Ok(None);
    }
    let KeptArguments {
        names,
        values,
        table,
    } = named.keep(alloc)?;
    Ok(Some(Block::Sparse(SparseBlock {
        def: Arc::try_clone(def)?,
        positional: Vec::from_slice(alloc, plain)?,
        names,
        values,
        table,
        defaults,
        required,
        bound: HashMap::new(alloc),
    })))
}
