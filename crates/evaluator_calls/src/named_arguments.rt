//! The named arguments of a call, which are found by their names.
ghost use Rattle.std.specs.Prelude.{◌≡◌, ℕ, List, IfOk, false, true, MatchOption, map, zip};
ghost use Rattle.std.specs.HashMap as table;
ghost use Rattle.std.specs.HashSet as set;
ghost use Rattle.values_semantics.specs.Comparing.{same_text};
ghost use Rattle.values_semantics.specs.Functions.{is_twice};
ghost use Rattle.evaluator_semantics.specs.Arguments.{value_named, is_parameter, are_parameters};
ghost use Rattle.syntax_tree.specs.Statements.{param_of};
ghost use Rattle.evaluator_calls.specs.NamedArguments.{Finds, Keeps};

use base_types::{Memory, Text};
use evaluator_state::value_named;
use indexmap::IndexSet;
use std::alloc::Global;
use std::collections::{HashMap, HashSet};
use std::marker::Model;
use syntax_tree::{Def, Param};
use values_heap::Val;

/// The most arguments that are searched one by one; for more a table of their names is made.
const FEW: usize = 16;

// The value of each of many arguments, by its name.
#[derive(Drop)]
struct Table {
    values: HashMap<Text, Val>,
}

/// Named arguments of which no two have one name. A contract sees them in the order of the call.
#[derive(Drop)]
pub struct NamedArguments<'a> {
    names: &'a [Text],
    values: &'a [Val],
    table: Option<Table>,
}

impl<'a> Model for NamedArguments<'a> {
    ghost use Rattle.std.specs.Prelude.{zip};
    ghost use Rattle.std.specs.Option.{ForSome};
    ghost use Rattle.values_semantics.specs.Functions.{KeywordArguments};
    ghost use Rattle.evaluator_calls.specs.NamedArguments.{Finds};

    ghost Value = { KeywordArguments };

    ghost view = { λ n. zip n.names.now n.values.now };

    ghost invariant = { λ n. ForSome n.table (λ t. Finds t.values (zip n.names.now n.values.now)) };
}

// Returns whether a name occurs twice.
fn is_twice(names: &[Text], values: &[Val]) -> bool
    ensures { result ≡ is_twice (zip names.now values.now) }
{
    for i in 0..names.len().min(values.len()) {
        if value_named(&names[i + 1..], &values[i + 1..], &names[i]).is_some() {
            return true;
        }
    }
    false
}

// Makes the table of many arguments, from the last to the first, if no two have one name.
fn table_of(alloc: Global, names: &[Text], values: &[Val]) -> Result<Option<Table>, Memory>
    ensures { let ns = zip names.now values.now in IfOk result
        (λ o. MatchOption o (is_twice ns ≡ true)
        (λ t. (is_twice ns ≡ false) × Finds t.values ns)) }
{
    let mut all = HashMap::new(alloc);
    let mut i = names.len().min(values.len());
    while i > 0 {
        i -= 1;
        let name = &names[i];
        if all.contains_key(name) {
            return Ok(None);
        }
        all.insert(name.share()?, values[i])?;
    }
    Ok(Some(Table { values: all }))
}

// Returns the names of parameters.
fn names_of(alloc: Global, params: &[Param]) -> Result<HashSet<Text>, Memory>
    ensures { IfOk result (λ s. (x : List ℕ)
        → set.contains same_text s x ≡ is_parameter x (map param_of params.now)) }
{
    let mut all = HashSet::new(alloc);
    let mut i = params.len();
    while i > 0 {
        i -= 1;
        all.insert(params[i].name.share()?)?;
    }
    Ok(all)
}

// Returns whether a name is a parameter's, by the set of all names of a function, of which those of the parameters are
// the first.
fn is_parameter_of(def: &Def, index: &IndexSet<Text>, x: &Text) -> bool
    requires { index.now.keys ≡ def.now.names.items }
    ensures { result ≡ is_parameter x.now (map param_of def.now.params.items) }
{
    match index.get_index_of(x) {
        Some(place) => place < def.params.len(),
        None => false,
    }
}

// Returns whether each argument has the name of a parameter, by the set of all names of the function.
fn are_known_to(def: &Def, index: &IndexSet<Text>, names: &[Text], values: &[Val]) -> bool
    requires { index.now.keys ≡ def.now.names.items }
    ensures { result ≡ are_parameters (zip names.now values.now)
        (map param_of def.now.params.items) }
{
    for i in 0..names.len().min(values.len()) {
        if !is_parameter_of(def, index, &names[i]) {
            return false;
        }
    }
    true
}

// Returns whether a name is a parameter's.
fn is_parameter(params: &[Param], x: &Text) -> bool
    ensures { result ≡ is_parameter x.now (map param_of params.now) }
{
    for param in params.iter() {
        if *x == param.name {
            return true;
        }
    }
    false
}

// Returns whether each of a few arguments has the name of a parameter.
fn are_parameters(names: &[Text], values: &[Val], params: &[Param]) -> bool
    ensures { result ≡ are_parameters (zip names.now values.now) (map param_of params.now) }
{
    for i in 0..names.len().min(values.len()) {
        if !is_parameter(params, &names[i]) {
            return false;
        }
    }
    true
}

// Returns whether each of many arguments has one of the names of parameters.
fn are_known(names: &[Text], values: &[Val], known: &HashSet<Text>, params: &[Param]) -> bool
    requires { (x : List ℕ)
        → set.contains same_text known.now x ≡ is_parameter x (map param_of params.now) }
    ensures { result ≡ are_parameters (zip names.now values.now) (map param_of params.now) }
{
    for i in 0..names.len().min(values.len()) {
        if !known.contains(&names[i]) {
            return false;
        }
    }
    true
}

// Copies names.
fn copy_names(alloc: Global, names: &[Text]) -> Result<Vec<Text>, Memory>
    ensures { IfOk result (λ v. v.items ≡ names.now) }
{
    let mut all = Vec::with_capacity(alloc, names.len())?;
    for name in names.iter() {
        all.push(name.share()?)?;
    }
    Ok(all)
}

/// Named arguments as a block has them: few by a list of names and one of values, many by a table.
#[derive(Drop)]
pub struct KeptArguments {
    pub names: Vec<Text>,
    pub values: Vec<Val>,
    pub table: Option<HashMap<Text, Val>>,
}

impl<'a> NamedArguments<'a> {
    /// Makes the named arguments, if no two have one name. The time is proportional to their number.
    ///
    /// # Errors
    ///
    /// Returns `Memory` if an allocation fails.
    pub fn new(
        alloc: Global,
        names: &'a [Text],
        values: &'a [Val],
    ) -> Result<Option<NamedArguments<'a>>, Memory>
        ensures { let ns = zip names.now values.now in IfOk result
            (λ o. MatchOption o (is_twice ns ≡ true) (λ n. (is_twice ns ≡ false) × (n ≡ ns))) }
    {
        if names.len() > FEW {
            return match table_of(alloc, names, values)? {
                Some(table) => Ok(Some(NamedArguments {
                    names,
                    values,
                    table: Some(table),
                })),
                None => Ok(None),
            };
        }
        if is_twice(names, values) {
            return Ok(None);
        }
        Ok(Some(NamedArguments {
            names,
            values,
            table: None,
        }))
    }

    /// Returns the value of the argument with a name. Where there are many, it takes no search.
    pub fn value(&self, x: &Text) -> Option<Val>
        ensures { result ≡ value_named x.now self.now }
    {
        match &self.table {
            Some(table) => table.values.get(x).copied(),
            None => value_named(self.names, self.values, x),
        }
    }

    /// Returns whether each argument has the name of a parameter. The time is proportional to the number of arguments
    /// and parameters.
    ///
    /// # Errors
    ///
    /// Returns `Memory` if an allocation fails.
    pub fn are_parameters(&self, alloc: Global, params: &[Param]) -> Result<bool, Memory>
        ensures { IfOk result (λ b. b ≡ are_parameters self.now (map param_of params.now)) }
    {
        if self.names.len() <= FEW {
            return Ok(are_parameters(self.names, self.values, params));
        }
        let known = names_of(alloc, params)?;
        Ok(are_known(self.names, self.values, &known, params))
    }

    /// Returns whether each argument has the name of a parameter of a function, by the set of the function's names. The
    /// time is proportional to the number of arguments.
    pub fn are_parameters_of(&self, def: &Def, index: &IndexSet<Text>) -> bool
        requires { index.now.keys ≡ def.now.names.items }
        ensures { result ≡ are_parameters self.now (map param_of def.now.params.items) }
    {
        are_known_to(def, index, self.names, self.values)
    }

    /// Returns the arguments as a block has them.
    ///
    /// # Errors
    ///
    /// Returns `Memory` if an allocation fails.
    pub fn keep(self, alloc: Global) -> Result<KeptArguments, Memory>
        ensures { IfOk result (λ k. Keeps k self.entry) }
    {
        let NamedArguments {
            names,
            values,
            table,
        } = self;
        match table {
            Some(Table { values: table }) => Ok(KeptArguments {
                names: Vec::new(alloc),
                values: Vec::new(alloc),
                table: Some(table),
            }),
            None => Ok(KeptArguments {
                names: copy_names(alloc, names)?,
                values: Vec::from_slice(alloc, values)?,
                table: None,
            }),
        }
    }
}
