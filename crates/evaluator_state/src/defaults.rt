//! The defaults of a file's functions.
ghost use Rattle.std.specs.Prelude.{◌≡◌, ◌∷◌, ◌++◌, [], map, false, IfOk, IfSome, IsSomeAnd, OnOk, OnErr};
ghost use Rattle.evaluator_semantics.specs.Environment.{values_named};
ghost use Rattle.evaluator_semantics.specs.Names.{has_name};
ghost use Rattle.evaluator_state.specs.SharedDefaults.{default_values};
ghost use Rattle.evaluator_state.specs.Newest.{kept_of, newest_first, values_at, Lists};

use crate::marking::mark_defaults;
use crate::state::FunctionDefaults;
use base_types::{Memory, Text};
use indexmap::IndexSet;
use std::alloc::Global;
use std::marker::Model;
use std::sync::Arc;
use values_heap::{Marks, Val};

/// The most functions that are searched one by one; for more a set of their names is made.
const FEW: usize = 16;

/// The defaults of a file's functions, which are found by the functions' names. A contract sees them with the newest
/// first.
pub struct DefaultsTable {
    // The newest is the last.
    kept: Vec<FunctionDefaults>,
    // The names of many functions, if each occurs once.
    index: Option<IndexSet<Text>>,
}

impl Drop for DefaultsTable {
    fn drop(self) {
        let DefaultsTable { kept: _, index: _ } = self;
    }
}

impl Model for DefaultsTable {
    ghost use Rattle.std.specs.Prelude.{ℕ, List};
    ghost use Rattle.values_semantics.specs.declared.val.Val.{Val};
    ghost use Rattle.evaluator_state.specs.Newest.{newest_first, Lists};

    ghost Value = { List (List ℕ × List Val) };

    ghost view = { λ d. newest_first d.kept.items };

    ghost invariant = { λ d. Lists d.index d.kept.items };
}

// Returns the defaults of the newest function with a name.
fn newest_named<'a>(kept: &'a [FunctionDefaults], name: &Text) -> Option<&'a Arc<Vec<Val>, Global>>
    ensures { default_values result ≡ values_named name.now (newest_first kept.now) }
{
    let mut newest = None;
    for k in kept.iter() {
        if *name == k.function {
            newest = Some(&k.values);
        }
    }
    newest
}

// Returns the names of functions, if each occurs once.
fn index_of(alloc: Global, kept: &[FunctionDefaults]) -> Result<Option<IndexSet<Text>>, Memory>
    ensures { IfOk result (λ index. Lists index kept.now) }
{
    let mut names = IndexSet::new(alloc);
    for k in kept.iter() {
        if names.contains(&k.function) {
            return Ok(None);
        }
        names.insert(k.function.share()?)?;
    }
    Ok(Some(names))
}

// Returns the defaults of the function at a place, or none if there is no place.
fn values_at<'a>(
    kept: &'a [FunctionDefaults],
    place: Option<usize>,
) -> Option<&'a Arc<Vec<Val>, Global>>
    ensures { default_values result ≡ values_at kept.now place }
{
    match place {
        Some(i) => match kept.get(i) {
            Some(k) => Some(&k.values),
            None => None,
        },
        None => None,
    }
}

/// Returns names with one more, if it is not among them.
pub(crate) fn with_name(
    index: Option<IndexSet<Text>>,
    name: &Text,
) -> Result<Option<IndexSet<Text>>, Memory>
    ensures { IfOk result
        (λ now. IfSome now
        (λ s. IsSomeAnd index (λ o. (has_name name.now o.keys ≡ false)
        × (s.keys ≡ o.keys ++ name.now ∷ [])))) }
{
    let Some(names) = index else {
        return Ok(None);
    };
    let mut names = names;
    if names.contains(name) {
        return Ok(None);
    }
    names.insert(name.share()?)?;
    Ok(Some(names))
}

impl DefaultsTable {
    /// Makes a table without defaults.
    pub fn new(alloc: Global) -> DefaultsTable
        ensures { result ≡ [] }
    {
        DefaultsTable {
            kept: Vec::new(alloc),
            index: None,
        }
    }

    /// Makes a table of these defaults, of which the newest is first.
    ///
    /// # Errors
    ///
    /// Returns `Memory` if an allocation fails.
    pub fn of_list(kept: Vec<FunctionDefaults>) -> Result<DefaultsTable, Memory>
        ensures { IfOk result (λ d. d ≡ map kept_of kept.items) }
    {
        let mut kept = kept;
        kept.reverse();
        if kept.len() <= FEW {
            return Ok(DefaultsTable { kept, index: None });
        }
        let index = index_of(*kept.allocator(), kept.as_slice())?;
        Ok(DefaultsTable { kept, index })
    }

    /// Marks the values of all defaults as reached.
    pub fn reach(&self, reached: &mut Marks) -> Result<(), Memory> {
        mark_defaults(reached, self.kept.as_slice())
    }

    // Makes the set of the functions' names before there are more than `FEW` of them.
    fn begin_index(&mut self) -> Result<(), Memory>
        ensures { self.new ≡ self.old }
    {
        if self.kept.len() != FEW {
            return Ok(());
        }
        self.index = index_of(*self.kept.allocator(), self.kept.as_slice())?;
        Ok(())
    }

    /// Adds the defaults of a function, which are the newest.
    ///
    /// # Errors
    ///
    /// Returns `Memory`, and adds none, if an allocation fails.
    pub fn add(&mut self, kept: FunctionDefaults) -> Result<(), Memory>
        ensures added { OnOk result (self.new ≡ kept_of kept ∷ self.old) }
        ensures refused { OnErr result (self.new ≡ self.old) }
    {
        self.begin_index()?;
        self.kept.reserve(1)?;
        let index = self.index.take();
        self.index = with_name(index, &kept.function)?;
        self.kept.push_reserved(kept);
        Ok(())
    }

    /// Returns the defaults of the newest function with a name, or none if there is no such function. Where there are
    /// many functions, whose names differ, it takes no search.
    pub fn defaults_named(&self, name: &Text) -> Option<&Arc<Vec<Val>, Global>>
        ensures { default_values result ≡ values_named name.now self.now }
    {
        match &self.index {
            Some(names) => values_at(self.kept.as_slice(), names.get_index_of(name)),
            None => newest_named(self.kept.as_slice(), name),
        }
    }
}
