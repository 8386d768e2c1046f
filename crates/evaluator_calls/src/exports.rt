//! What a module exports, which is found by the names.
ghost use Rattle.std.specs.Prelude.{◌≡◌, ℕ, List, IfOk, option_map};
ghost use Rattle.std.specs.HashMap.{get};
ghost use Rattle.values_semantics.specs.Comparing.{same_text};
ghost use Rattle.evaluator_semantics.specs.Modules.{frozen_at};
ghost use Rattle.evaluator_calls.specs.ExportTables.{value_at, exported_among};

use crate::reaching::{frozen_at, is_private};
use base_types::{Memory, Text};
use std::alloc::Global;
use std::collections::HashMap;
use std::marker::Model;
use values_freeze::FrozenValue;
use values_modules::{Binding, Module};

/// The most names that are searched one by one; for more a table of the module's own names is made.
const FEW: usize = 16;

// The place of each of a module's own names.
#[derive(Drop)]
struct Places {
    places: HashMap<Text, usize>,
}

/// The names that are a module's own, with their values. A contract sees these.
#[derive(Drop)]
pub struct Exports<'a> {
    own: &'a [Binding],
    table: Option<Places>,
}

impl<'a> Model for Exports<'a> {
    ghost use Rattle.std.specs.Prelude.{◌≡◌, ℕ, List};
    ghost use Rattle.std.specs.Option.{ForSome};
    ghost use Rattle.std.specs.HashMap.{get};
    ghost use Rattle.values_semantics.specs.Comparing.{same_text};
    ghost use Rattle.std.specs.Coded.{coded_list};
    ghost use Rattle.values_modules.specs.Storage.{binding_code};
    ghost use Rattle.values_modules.specs.Values.{Frozen};
    ghost use Rattle.evaluator_semantics.specs.Modules.{frozen_at};
    ghost use Rattle.evaluator_calls.specs.ExportTables.{value_at};

    ghost Value = { List Frozen };

    ghost coded = { coded_list binding_code };

    ghost view = { λ e. e.own.now };

    ghost invariant = { λ e. ForSome e.table (λ t. (x : List ℕ) → value_at e.own.now (get same_text t.places x) ≡ frozen_at x e.own.now) };
}

// Makes the table of a module's own names, from the last to the first.
fn places_of(alloc: Global, own: &[Binding]) -> Result<Places, Memory>
    ensures { IfOk result (λ t. (x : List ℕ)
        → value_at own.now (get same_text t.places x) ≡ frozen_at x own.now) }
{
    let mut places = HashMap::new(alloc);
    let mut i = own.len();
    while i > 0 {
        i -= 1;
        places.insert(own[i].name().share()?, i)?;
    }
    Ok(Places { places })
}

// Returns the value at a place, if there is one.
fn value_at<'a>(own: &'a [Binding], place: Option<usize>) -> Option<&'a FrozenValue>
    ensures { option_map (λ f. f.now) result ≡ value_at own.now place }
{
    match place {
        Some(i) => match own.get(i) {
            Some(b) => Some(b.value()),
            None => None,
        },
        None => None,
    }
}

impl<'a> Exports<'a> {
    /// Makes the exports of a module's own names, of which `wanted` will be looked up.
    ///
    /// # Errors
    ///
    /// Returns `Memory` if an allocation fails.
    pub fn of(alloc: Global, body: &'a Module, wanted: usize) -> Result<Exports<'a>, Memory>
        ensures { IfOk result (λ e. e ≡ body.now.own) }
    {
        let own = body.own();
        if wanted <= FEW {
            return Ok(Exports { own, table: None });
        }
        let table = Some(places_of(alloc, own)?);
        Ok(Exports { own, table })
    }

    /// Returns what a load of a name gives. That is nothing for a name that begins with `_`, or that a load bound
    /// there. Where many names are looked up, it takes no search.
    pub fn value(&self, x: &Text) -> Option<&'a FrozenValue>
        ensures { option_map (λ f. f.now) result ≡ exported_among x.now self.now }
    {
        if is_private(x) {
            return None;
        }
        match &self.table {
            Some(table) => value_at(self.own, table.places.get(x).copied()),
            None => frozen_at(self.own, x),
        }
    }
}
