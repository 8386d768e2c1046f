//! The arguments of a call: positional ones and named ones.
ghost use Rattle.std.specs.Prelude.{◌≡◌, ◌-◌, IfOk, drop, length, zip};
ghost use Rattle.values_semantics.specs.Functions.{is_named, is_twice};
ghost use Rattle.evaluator_semantics.specs.Arguments.{plain_part, value_named};

use base_types::{Memory, Text};
use std::alloc::Global;
use std::collections::HashSet;
use values_heap::Val;

/// Returns the positional arguments, which are all but the last ones, which have these names.
pub fn plain_part<'a>(xs: &'a [Val], names: &[Text]) -> &'a [Val]
    ensures { result.now ≡ plain_part xs.now names.now }
{
    &xs[..xs.len().saturating_sub(names.len())]
}

/// Returns the values of the named arguments, which are the last ones and have these names.
pub fn named_values<'a>(xs: &'a [Val], names: &[Text]) -> &'a [Val]
    ensures { result.now ≡ drop (length xs.now - length names.now) xs.now }
{
    &xs[xs.len().saturating_sub(names.len())..]
}

/// Returns the named arguments, with their names.
pub fn named_part(alloc: Global, names: &[Text], values: &[Val]) -> Result<Vec<(Text, Val)>, Memory>
    ensures { IfOk result (λ v. v.items ≡ zip names.now values.now) }
{
    let number = names.len().min(values.len());
    let mut all = Vec::with_capacity(alloc, number)?;
    for i in 0..number {
        all.push((names[i].share()?, values[i]))?;
    }
    Ok(all)
}

/// Returns the value of the first argument with this name, if there is one.
pub fn value_named(name: &str, ns: &[(Text, Val)]) -> Option<Val>
    ensures { result ≡ value_named name.now ns.now }
{
    for n in ns {
        if name == n.0.as_str() {
            return Some(n.1);
        }
    }
    None
}

/// Returns whether an argument has this name.
pub fn is_named(name: &str, ns: &[(Text, Val)]) -> bool
    ensures { result ≡ is_named name.now ns.now }
{
    for n in ns {
        if name == n.0.as_str() {
            return true;
        }
    }
    false
}

/// Returns whether a name occurs twice.
pub fn is_twice(alloc: Global, ns: &[(Text, Val)]) -> Result<bool, Memory>
    ensures { IfOk result (λ b. b ≡ is_twice ns.now) }
{
    let mut later = HashSet::new(alloc);
    let mut i = ns.len();
    while i > 0 {
        i -= 1;
        if !later.insert(ns[i].0.share()?)? {
            return Ok(true);
        }
    }
    Ok(false)
}
