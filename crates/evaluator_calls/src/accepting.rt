//! The arguments of a call and the parameters of a function.
ghost use Rattle.std.specs.Prelude.{◌≡◌, map, drop};
ghost use Rattle.evaluator_semantics.specs.Arguments.{plain_part, named_part, next_default, other_defaults, parameter_block, arguments};
ghost use Rattle.syntax_tree.specs.Statements.{fn_of, param_of};
ghost use Rattle.values_heap.specs.View.{Checks};
ghost use Rattle.evaluator_calls.specs.View.{Blocks};
ghost use Rattle.evaluator_calls.specs.ParameterValue.{parameter_value};

use crate::named_arguments::NamedArguments;
use base_types::Text;
use evaluator_state::Slot;
use std::alloc::Global;
use syntax_tree::{Def, Param};
use values_heap::{Halt, Val};
use values_semantics::faults;

// Returns the values after the first.
fn tail(xs: &[Val]) -> &[Val]
    ensures { result.now ≡ drop 1 xs.now }
{
    if xs.is_empty() { xs } else { &xs[1..] }
}

// Returns the default of a parameter. If it has one, this is the first of these defaults.
fn next_default(param: &Param, defaults: &[Val]) -> Option<Val>
    ensures { result ≡ next_default (param_of param.now) defaults.now }
{
    match param.default {
        Some(_) => defaults.first().copied(),
        None => None,
    }
}

// Returns the defaults of the parameters after one.
fn other_defaults<'a>(param: &Param, defaults: &'a [Val]) -> &'a [Val]
    ensures { result.now ≡ other_defaults (param_of param.now) defaults.now }
{
    match param.default {
        Some(_) => tail(defaults),
        None => defaults,
    }
}

// Returns the value of a parameter: that of the positional arguments that are left, of the named ones, or its default.
fn parameter_value(
    param: &Param,
    plain: &[Val],
    arguments: &NamedArguments<'_>,
    defaults: &[Val],
) -> Result<Val, Halt>
    ensures { Checks (parameter_value (param_of param.now) plain.now arguments.now defaults.now)
        result }
{
    let named = arguments.value(&param.name);
    match plain.first() {
        Some(x) => if named.is_some() {
            Err(Halt::Code(faults::WRONG_ARGUMENTS))
        } else {
            Ok(*x)
        },
        None => match named {
            Some(x) => Ok(x),
            None => match next_default(param, defaults) {
                Some(x) => Ok(x),
                None => Err(Halt::Code(faults::WRONG_ARGUMENTS)),
            },
        },
    }
}

// Returns the parameters with their values, or fault 25. Memory is allocated for `room` slots.
fn bind_parameters(
    alloc: Global,
    room: usize,
    params: &[Param],
    plain: &[Val],
    named: &NamedArguments<'_>,
    defaults: &[Val],
) -> Result<Vec<Slot>, Halt>
    ensures { Blocks (parameter_block (map param_of params.now) plain.now named.now defaults.now)
        result }
{
    let mut block = Vec::with_capacity(alloc, room)?;
    let mut left = plain;
    let mut others = defaults;
    for param in params.iter() {
        let value = match parameter_value(param, left, named, others) {
            Ok(x) => Some(x),
            Err(halt) => return Err(halt),
        };
        let name = param.name.share()?;
        block.push(Slot { name, value })?;
        left = tail(left);
        others = other_defaults(param, others);
    }
    if left.is_empty() {
        Ok(block)
    } else {
        Err(Halt::Code(faults::WRONG_ARGUMENTS))
    }
}

/// Returns the parameters of a function with their values. These are the values of a call's arguments, of which the
/// last have names, and of the function's defaults.
///
/// # Errors
///
/// Returns fault 25 for an argument that is missing, is given twice, has an unknown name or is one too many. Returns
/// `Halt::Memory` if an allocation fails.
pub fn arguments(
    alloc: Global,
    def: &Def,
    xs: &[Val],
    names: &[Text],
    defaults: &[Val],
) -> Result<Vec<Slot>, Halt>
    ensures { Blocks (arguments (fn_of def.now) (plain_part xs.now names.now)
        (named_part xs.now names.now) defaults.now) result }
{
    let (plain, values) = xs.split_at(xs.len().saturating_sub(names.len()));
    let params = def.params.as_slice();
    let Some(named) = NamedArguments::new(alloc, names, values)? else {
        return Err(Halt::Code(faults::WRONG_ARGUMENTS));
    };
    if !named.are_parameters(alloc, params)? {
        return Err(Halt::Code(faults::WRONG_ARGUMENTS));
    }
    let room = def.names.len();
    bind_parameters(alloc, room, params, plain, &named, defaults)
}
