//! Functions of a file, which are found by their names.
ghost use Rattle.std.specs.Prelude.{◌≡◌, ℕ, List, IfOk, IfSome, option_map};
ghost use Rattle.std.specs.HashMap.{get};
ghost use Rattle.values_semantics.specs.Comparing.{same_text};
ghost use Rattle.values_modules.specs.FunctionNames.{first_named, function_at};

use crate::bindings::Function;
use base_types::Memory;
use std::alloc::Global;
use std::collections::HashMap;
use std::marker::Model;
use values_semantics::Bytes;

/// The most functions that are searched one by one; for more a table of their names is made.
const FEW: usize = 16;

// The place of each of many functions, by its name.
#[derive(Drop)]
struct Index {
    places: HashMap<Bytes, usize>,
}

/// The functions of a file, in its order, which are found by their names. A contract sees the functions.
pub struct Functions {
    items: Vec<Function>,
    index: Option<Index>,
}

impl Drop for Functions {
    fn drop(self) {
        let Functions { items: _, index: _ } = self;
    }
}

impl Model for Functions {
    ghost use Rattle.std.specs.Prelude.{◌≡◌, ℕ, List};
    ghost use Rattle.std.specs.Option.{ForSome};
    ghost use Rattle.std.specs.Coded.{coded_list};
    ghost use Rattle.std.specs.HashMap.{get};
    ghost use Rattle.values_semantics.specs.Comparing.{same_text};
    ghost use Rattle.syntax_tree.specs.Tree.{Fn};
    ghost use Rattle.values_modules.specs.TreeStorage.{fn_code};
    ghost use Rattle.values_modules.specs.FunctionNames.{first_named, function_at};

    ghost Value = { List Fn };

    ghost coded = { coded_list fn_code };

    ghost view = { λ f. f.items.items };

    ghost invariant = { λ f. ForSome f.index (λ i. (x : List ℕ) → function_at f.items.items (get same_text i.places x) ≡ first_named x f.items.items) };
}

// Returns the first function with a name.
fn first_named<'a>(functions: &'a [Function], name: &Bytes) -> Option<&'a Function>
    ensures { option_map (λ f. f.now) result ≡ first_named name.now functions.now }
{
    for function in functions.iter() {
        if name.as_slice() == function.def().name.as_str().as_bytes() {
            return Some(function);
        }
    }
    None
}

// Returns the function at a place, if there is one.
fn function_at<'a>(functions: &'a [Function], place: Option<usize>) -> Option<&'a Function>
    ensures { option_map (λ f. f.now) result ≡ function_at functions.now place }
{
    match place {
        Some(i) => functions.get(i),
        None => None,
    }
}

// Makes the table of the names of many functions, each with the place of its first function.
fn index_of(alloc: Global, functions: &[Function]) -> Result<Option<Index>, Memory>
    ensures { IfOk result
        (λ o. IfSome o (λ i. (x : List ℕ) → function_at functions.now (get same_text i.places x)
        ≡ first_named x functions.now)) }
{
    if functions.len() <= FEW {
        return Ok(None);
    }
    let mut places = HashMap::new(alloc);
    for i in 0..functions.len() {
        let name = Bytes::of_text(functions[i].def().name.share()?);
        if places.contains_key(&name) {
            continue;
        }
        places.insert(name, i)?;
    }
    Ok(Some(Index { places }))
}

impl Functions {
    /// Makes the table of the functions of a file, in its order.
    ///
    /// # Errors
    ///
    /// Returns `Memory` if an allocation fails.
    pub fn new(functions: Vec<Function>) -> Result<Functions, Memory>
        ensures { IfOk result (λ f. f ≡ functions.items) }
    {
        let index = index_of(*functions.allocator(), functions.as_slice())?;
        Ok(Functions {
            items: functions,
            index,
        })
    }

    /// Returns the functions.
    pub fn as_slice(&self) -> &[Function]
        ensures { result.now ≡ self.now }
    {
        self.items.as_slice()
    }

    /// Returns the first function with a name. Where there are many functions it takes no search.
    pub fn function_named(&self, name: &Bytes) -> Option<&Function>
        ensures { option_map (λ f. f.now) result ≡ first_named name.now self.now }
    {
        match &self.index {
            Some(index) => function_at(self.items.as_slice(), index.places.get(name).copied()),
            None => first_named(self.items.as_slice(), name),
        }
    }
}
