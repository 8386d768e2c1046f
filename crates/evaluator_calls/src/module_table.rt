//! The modules that loads reach, each once.
ghost use Rattle.std.specs.Prelude.{◌≡◌, ◌∷◌, [], IfOk, OnOk, option_map};
ghost use Rattle.evaluator_semantics.specs.Modules.{all_bodies, body_at, each_once};
ghost use Rattle.evaluator_calls.specs.Once.{labels_of, body_from};

use base_types::{Memory, Text};
use indexmap::IndexSet;
use std::alloc::Global;
use std::marker::Model;
use values_modules::{Module, ModuleValue};

// The labels of modules, in their order.
#[derive(Drop)]
struct Index {
    labels: IndexSet<Text>,
}

/// The modules that loads reach, each once, which are found by their labels. A contract sees the modules.
#[derive(Drop)]
pub struct ModuleTable {
    modules: Vec<Module>,
    index: Index,
}

impl Model for ModuleTable {
    ghost use Rattle.std.specs.Prelude.{◌≡◌, List};
    ghost use Rattle.std.specs.Coded.{coded_list};
    ghost use Rattle.values_modules.specs.Values.{Body};
    ghost use Rattle.values_modules.specs.Storage.{body_code};
    ghost use Rattle.evaluator_calls.specs.Once.{labels_of};

    ghost Value = { List Body };

    ghost coded = { coded_list body_code };

    ghost view = { λ r. r.modules.items };

    ghost invariant = { λ r. r.index.labels.keys ≡ labels_of r.modules.items };
}

// Adds a module if none of the others has its label.
fn add_once(all: &mut Vec<Module>, labels: &mut IndexSet<Text>, m: &Module) -> Result<(), Memory>
    requires { labels.old.keys ≡ labels_of all.old.items }
    ensures labelled { OnOk result (labels.new.keys ≡ labels_of all.new.items) }
    ensures once { OnOk result (all.new.items ≡ each_once all.old.items (m.now ∷ [])) }
{
    let is_new = labels.insert(m.label().share()?)?;
    if is_new {
        all.push(m.share()?)?;
    }
    Ok(())
}

// Adds each of the modules whose label none of the others has.
fn add_each(
    all: &mut Vec<Module>,
    labels: &mut IndexSet<Text>,
    modules: &[Module],
) -> Result<(), Memory>
    requires { labels.old.keys ≡ labels_of all.old.items }
    ensures labelled { OnOk result (labels.new.keys ≡ labels_of all.new.items) }
    ensures once { OnOk result (all.new.items ≡ each_once all.old.items modules.now) }
{
    for m in modules.iter() {
        add_once(all, labels, m)?;
    }
    Ok(())
}

// Returns the module at a place, if there is one.
fn module_from(modules: &[Module], place: Option<usize>) -> Option<&Module>
    ensures { option_map (λ m. m.now) result ≡ body_from modules.now place }
{
    match place {
        Some(i) => modules.get(i),
        None => None,
    }
}

// Returns how many modules the first of some loads reaches, which is mostly as many as all reach.
fn reached_by_first(loads: &[ModuleValue]) -> usize {
    match loads.first() {
        Some(loaded) => loaded.reachable().len().saturating_add(1),
        None => 0,
    }
}

impl ModuleTable {
    /// Returns the modules that loads reach, each once.
    ///
    /// # Errors
    ///
    /// Returns `Memory` if an allocation fails.
    pub fn of(alloc: Global, loads: &[ModuleValue]) -> Result<ModuleTable, Memory>
        ensures { IfOk result (λ r. r ≡ each_once [] (all_bodies loads.now)) }
    {
        let room = reached_by_first(loads);
        let mut all = Vec::with_capacity(alloc, room)?;
        let mut labels = IndexSet::with_capacity(alloc, room)?;
        for loaded in loads.iter() {
            add_once(&mut all, &mut labels, loaded.body())?;
            add_each(&mut all, &mut labels, loaded.reachable())?;
        }
        Ok(ModuleTable {
            modules: all,
            index: Index { labels },
        })
    }

    // Returns the modules.
    fn into_modules(self) -> Vec<Module>
        ensures { result.items ≡ self }
    {
        let ModuleTable { modules, index: _ } = self;
        modules
    }

    /// Returns the module with a label, if there is one. It takes no search.
    pub fn with_label(&self, label: &Text) -> Option<&Module>
        ensures { option_map (λ m. m.now) result ≡ body_at label.now self.now }
    {
        module_from(
            self.modules.as_slice(),
            self.index.labels.get_index_of(label),
        )
    }
}

/// Returns the modules that loads reach, each once, in a list.
pub fn reached_once(alloc: Global, loads: &[ModuleValue]) -> Result<Vec<Module>, Memory>
    ensures { IfOk result (λ v. v.items ≡ each_once [] (all_bodies loads.now)) }
{
    let reached = ModuleTable::of(alloc, loads)?;
    Ok(reached.into_modules())
}
