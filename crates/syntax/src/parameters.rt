//! The parameters of a function so far.
ghost use Rattle.std.specs.Prelude.{◌≡◌, ◌++◌, ◌∷◌, [], ℕ, List, true, cond, IfOk, IfSome, map};
ghost use Rattle.std.specs.Option.{ForSome};
ghost use Rattle.std.specs.HashSet.{contains};
ghost use Rattle.values_semantics.specs.Comparing.{same_text};
ghost use Rattle.syntax_grammar.specs.Targets.{has_name, has_default};
ghost use Rattle.syntax_tree.specs.Statements.{param_of};
ghost use Rattle.syntax.specs.ParameterNames.{Knows};

use base_types::{Memory, Text};
use std::alloc::Global;
use std::collections::HashSet;
use std::marker::Model;
use syntax_tree::Param;

/// The most parameters that are searched one by one; for more a set of their names is kept.
const FEW: usize = 16;

// The names of many parameters.
#[derive(Drop)]
struct Names {
    set: HashSet<Text>,
}

/// Parameters. Where they are many, a name and a default are found without a search. A contract sees them.
#[derive(Drop)]
pub(crate) struct Parameters {
    found: Vec<Param>,
    names: Option<Names>,
    with_default: bool,
}

impl Model for Parameters {
    ghost use Rattle.std.specs.Prelude.{◌≡◌, List, map};
    ghost use Rattle.std.specs.Option.{ForSome};
    ghost use Rattle.syntax_grammar.specs.Targets.{has_default};
    ghost use Rattle.std.specs.Coded.{coded_list};
    ghost use Rattle.syntax_tree.specs.Statements.{param_of};
    ghost use Rattle.syntax_tree.specs.declared.def.Param.{Param};
    ghost use Rattle.syntax_tree.specs.contracts.def.Param as e;
    ghost use Rattle.syntax.specs.ParameterNames.{Knows};

    ghost Value = { List Param };

    ghost coded = { coded_list e.the_row.coded };

    ghost view = { λ p. p.found.items };

    ghost invariant = { λ p. ForSome p.names (λ n. Knows n.set (map param_of p.found.items))
        × (p.with_default ≡ has_default (map param_of p.found.items)) };
}

// Returns whether a parameter has that name.
fn has_name(params: &[Param], name: &Text) -> bool
    ensures { result ≡ has_name (map param_of params.now) name.now }
{
    for p in params {
        if p.name == *name {
            return true;
        }
    }
    false
}

// Returns the set of the names of parameters.
fn names_of(alloc: Global, params: &[Param]) -> Result<Names, Memory>
    ensures { IfOk result (λ n. Knows n.set (map param_of params.now)) }
{
    let mut set = HashSet::new(alloc);
    let mut i = params.len();
    while i > 0 {
        i -= 1;
        set.insert(params[i].name.share()?)?;
    }
    Ok(Names { set })
}

// Returns names with one more.
fn with_name(names: Names, name: &Text) -> Result<Names, Memory>
    ensures { IfOk result (λ n. (x : List ℕ)
        → contains same_text n.set x ≡ cond (same_text name.now x) true
        (contains same_text names.set x)) }
{
    let mut set = names.set;
    set.insert(name.share()?)?;
    Ok(Names { set })
}

// Returns the names of parameters with one more, if there are many.
fn noted(
    alloc: Global,
    names: Option<Names>,
    params: &[Param],
    name: &Text,
) -> Result<Option<Names>, Memory>
    requires { ForSome names (λ n. Knows n.set (map param_of params.now)) }
    ensures { IfOk result (λ o. IfSome o (λ n. (x : List ℕ)
        → contains same_text n.set x ≡ cond (same_text name.now x) true
        (has_name (map param_of params.now) x))) }
{
    match names {
        Some(names) => Ok(Some(with_name(names, name)?)),
        None => {
            if params.len() < FEW {
                return Ok(None);
            }
            let names = names_of(alloc, params)?;
            Ok(Some(with_name(names, name)?))
        }
    }
}

impl Parameters {
    /// Makes parameters of which there are none.
    pub(crate) fn new(alloc: Global) -> Parameters
        ensures { result ≡ [] }
    {
        Parameters {
            found: Vec::new(alloc),
            names: None,
            with_default: false,
        }
    }

    /// Adds a parameter as the last.
    pub(crate) fn with(self, alloc: Global, param: Param) -> Result<Parameters, Memory>
        ensures { IfOk result (λ p. p ≡ self ++ param ∷ []) }
    {
        let mut found = self.found;
        let with_default = self.with_default || param.default.is_some();
        let names = noted(alloc, self.names, found.as_slice(), &param.name)?;
        found.push(param)?;
        Ok(Parameters {
            found,
            names,
            with_default,
        })
    }

    /// Returns whether one of them has that name. Among many it takes no search.
    pub(crate) fn has_name(&self, name: &Text) -> bool
        ensures { result ≡ has_name (map param_of self.now) name.now }
    {
        match &self.names {
            Some(names) => names.set.contains(name),
            None => has_name(self.found.as_slice(), name),
        }
    }

    /// Returns whether one of them has a default.
    pub(crate) fn has_default(&self) -> bool
        ensures { result ≡ has_default (map param_of self.now) }
    {
        self.with_default
    }

    /// Returns the parameters.
    pub(crate) fn into_params(self) -> Vec<Param>
        ensures { result.items ≡ self }
    {
        self.found
    }
}
