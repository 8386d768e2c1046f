//! What is found once of a function, so that its calls need not look for it.
ghost use Rattle.std.specs.Prelude.{◌≡◌, ◌≤◌, not, length, take, true, IfOk, IfSome, map};
ghost use Rattle.std.specs.Option.{ForSome};
ghost use Rattle.std.specs.List.{list_all};
ghost use Rattle.syntax_tree.specs.Requirements.{AreRequired, has_value};
ghost use Rattle.syntax_tree.specs.Statements.{param_of};

use base_types::{Memory, Text};
use indexmap::IndexSet;
use std::alloc::Global;
use syntax_tree::Param;

/// The least number of names of which a set is made.
const MANY: usize = 64;

/// Returns the set of these names, if they are many and each occurs once.
///
/// # Errors
///
/// Returns `Memory` if an allocation fails.
pub fn index_of(alloc: Global, names: &[Text]) -> Result<Option<IndexSet<Text>>, Memory>
    ensures { IfOk result (λ o. ForSome o (λ s. s.keys ≡ names.now)) }
{
    if names.len() < MANY {
        return Ok(None);
    }
    let mut index = IndexSet::with_capacity(alloc, names.len())?;
    for name in names.iter() {
        let is_new = index.insert(name.share()?)?;
        if !is_new {
            return Ok(None);
        }
    }
    Ok(Some(index))
}

// Returns how many parameters come before the first that has a default.
fn leading(params: &[Param]) -> usize
    ensures within { result ≤ length params.now }
    ensures plain { list_all (λ p. not (has_value p.default))
        (take result (map param_of params.now)) ≡ true }
{
    for i in 0..params.len() {
        if params[i].default.is_some() {
            return i;
        }
    }
    params.len()
}

// Returns whether each of these parameters has a default.
fn have_defaults(params: &[Param]) -> bool
    ensures { result ≡ list_all (λ p. has_value p.default) (map param_of params.now) }
{
    for param in params.iter() {
        if param.default.is_none() {
            return false;
        }
    }
    true
}

/// Returns how many parameters have no default, if all of them come before those that have one.
pub fn required(params: &[Param]) -> Option<usize>
    ensures { IfSome result (λ n. AreRequired n (map param_of params.now)) }
{
    let number = leading(params);
    if have_defaults(&params[number..]) {
        Some(number)
    } else {
        None
    }
}
