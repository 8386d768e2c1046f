//! What the evaluation of a file is given, with the functions of the file by their names. It has the modules that the
//! loads reach by their labels, too, once many were looked for.
ghost use Rattle.std.specs.Prelude.{◌≡◌, map, option_map, IfOk};
ghost use Rattle.std.specs.Arc.{arc_value};
ghost use Rattle.syntax_tree.specs.Statements.{top_of};
ghost use Rattle.evaluator_semantics.specs.Environment.{defs};
ghost use Rattle.evaluator_semantics.specs.Modules.{all_bodies, body_at};
ghost use Rattle.values_modules.specs.FunctionNames.{first_named};
ghost use Rattle.evaluator_calls.specs.Once.{AreReached};
ghost use Rattle.evaluator.specs.Files.{HasTables};

use crate::machine::Environment;
use base_types::{Memory, Text};
use evaluator_calls::{ModuleTable, functions_of, module_labelled};
use std::alloc::Global;
use std::marker::Model;
use std::sync::atomic::{AtomicUsize, Ordering};
use values_heap::Bytes;
use values_modules::{Function, Functions, Module, ModuleValue};

/// The most modules that are always looked for one by one.
const FEW: usize = 16;

/// After so many searches the modules are put together.
const MANY_SEARCHES: usize = 16;

/// What is made once for the evaluation of a file.
#[derive(Drop)]
pub struct Tables {
    /// The functions of the file, which are found by their names.
    pub functions: Functions,
    /// The modules that the loads reach, once they were put together.
    pub modules: Option<ModuleTable>,
    /// How many modules were looked for since it was asked whether they are many.
    pub searches: usize,
}

/// Finds the functions of the file that is evaluated.
///
/// # Errors
///
/// Returns `Memory` if an allocation fails.
pub fn functions_in(alloc: Global, environment: &Environment) -> Result<Tables, Memory>
    ensures { IfOk result (HasTables environment.now) }
{
    let functions = functions_of(alloc, environment.file.tops.as_slice())?;
    let functions = Functions::new(functions)?;
    Ok(Tables {
        functions,
        modules: None,
        searches: 0,
    })
}

// Returns whether loads reach so many modules together that a search among them takes long.
fn reach_many(loads: &[ModuleValue]) -> bool {
    let mut count: usize = 0;
    for loaded in loads.iter() {
        count = count.saturating_add(1);
        count = count.saturating_add(loaded.reachable().len());
        if count > FEW {
            return true;
        }
    }
    false
}

/// What the evaluation of a file is given. The functions of the file are found by their names, and the modules that the
/// loads reach by their labels. A contract sees what is given.
#[derive(Drop)]
pub struct Setting<'a> {
    environment: &'a Environment,
    tables: Tables,
    // The searches of the tables, and those since the setting was made.
    searches: AtomicUsize,
}

impl<'a> Model for Setting<'a> {
    ghost use Rattle.evaluator.specs.declared.machine.Environment.{Environment};
    ghost use Rattle.evaluator.specs.contracts.machine.Environment as e;
    ghost use Rattle.evaluator.specs.Files.{HasTables};

    ghost Value = { Environment };

    ghost coded = { e.the_row.coded };

    ghost view = { λ s. s.environment.now };

    ghost invariant = { λ s. HasTables s.environment.now s.tables };
}

impl<'a> Setting<'a> {
    /// Makes the setting of an evaluation in this environment, with the tables of its file.
    pub fn new(environment: &'a Environment, tables: Tables) -> Setting<'a>
        requires { HasTables environment.now tables }
        ensures { result ≡ environment.now }
    {
        let searches = AtomicUsize::new(tables.searches);
        Setting {
            environment,
            tables,
            searches,
        }
    }

    /// Returns the tables of the file.
    pub fn into_tables(self) -> Tables
        ensures { HasTables self.entry result }
    {
        let Setting {
            environment: _,
            tables,
            searches,
        } = self;
        let mut tables = tables;
        tables.searches = searches.load(Ordering::Relaxed);
        tables
    }

    /// Returns what the evaluation is given.
    pub fn given(&self) -> &Environment
        ensures { result.now ≡ self.now }
    {
        self.environment
    }

    /// Returns the first function with a name in the file, if there is one.
    pub fn function(&self, name: &Bytes) -> Option<&Function>
        ensures { option_map (λ f. f.now) result ≡ first_named name.now
            (defs (map top_of (arc_value self.now.file).tops.items)) }
    {
        self.tables.functions.function_named(name)
    }

    /// Returns the modules that the loads reach, if they were put together.
    pub fn reached(&self) -> &Option<ModuleTable>
        ensures { AreReached result.now self.now.loads.items }
    {
        &self.tables.modules
    }

    // Counts a search.
    fn count_search(&self) {
        let searches = self.searches.load(Ordering::Relaxed);
        self.searches
            .store(searches.saturating_add(1), Ordering::Relaxed);
    }

    /// Returns the module with a label, of those that the loads reach.
    pub fn module(&self, label: &Text) -> Option<&Module>
        ensures { option_map (λ m. m.now) result ≡ body_at label.now
            (all_bodies self.now.loads.items) }
    {
        self.count_search();
        module_labelled(
            self.environment.loads.as_slice(),
            &self.tables.modules,
            label,
        )
    }

    /// Puts the modules that the loads reach together, if they are many and were looked for many times.
    ///
    /// # Errors
    ///
    /// Returns `Memory` if an allocation fails.
    pub fn put_together(&mut self, alloc: Global) -> Result<(), Memory>
        ensures { self.new ≡ self.old }
    {
        if self.searches.load(Ordering::Relaxed) < MANY_SEARCHES || self.tables.modules.is_some() {
            return Ok(());
        }
        self.searches.store(0, Ordering::Relaxed);
        let loads = self.environment.loads.as_slice();
        if !reach_many(loads) {
            return Ok(());
        }
        let reached = ModuleTable::of(alloc, loads)?;
        self.tables.modules = Some(reached);
        Ok(())
    }
}
