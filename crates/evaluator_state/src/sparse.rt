//! The block of a call of a function with many names. It holds what the call gave and what was bound since, and not a
//! slot for each name, so a call costs no more than what it gives and touches.
ghost use Rattle.std.specs.Prelude.{◌≡◌, zip, OnOk};
ghost use Rattle.std.specs.Arc.{arc_value};
ghost use Rattle.values_semantics.specs.Comparing.{same_text};
ghost use Rattle.evaluator_semantics.specs.Names.{slot_in, bind_in};
ghost use Rattle.evaluator_semantics.specs.Arguments.{value_named};
ghost use Rattle.evaluator_state.specs.Places.{FirstPlace};
ghost use Rattle.evaluator_state.specs.Sparse.{named_at, argument_at, value_at, sparse_view};

use crate::places::is_same;
use base_types::{Memory, Text};
use std::alloc::Global;
use std::collections::HashMap;
use std::sync::Arc;
use syntax_tree::Def;
use values_heap::Val;

/// The names of a call of a function, with what the call gave and what was bound since.
pub struct SparseBlock {
    pub def: Arc<Def, Global>,
    /// The positional arguments.
    pub positional: Vec<Val>,
    /// The names of the other arguments, and their values, if they are few.
    pub names: Vec<Text>,
    pub values: Vec<Val>,
    /// The values of the other arguments by their names, if they are many.
    pub table: Option<HashMap<Text, Val>>,
    /// The values of the defaults, and how many parameters come before the first that has one.
    pub defaults: Arc<Vec<Val>, Global>,
    pub required: usize,
    /// The values that were bound since, by the places of their names.
    pub bound: HashMap<usize, Val>,
}

impl Drop for SparseBlock {
    fn drop(self) {
        let SparseBlock {
            def: _,
            positional: _,
            names: _,
            values: _,
            table: _,
            defaults: _,
            required: _,
            bound: _,
        } = self;
    }
}

/// Returns the value of a named argument.
pub fn value_named(names: &[Text], values: &[Val], x: &Text) -> Option<Val>
    ensures { result ≡ value_named x.now (zip names.now values.now) }
{
    for i in 0..names.len().min(values.len()) {
        if is_same(x, &names[i]) {
            return Some(values[i]);
        }
    }
    None
}

// Returns the first place of a name among others.
fn first_name(names: &[Text], x: &Text) -> Option<usize>
    ensures { FirstPlace (same_text x.now) names.now result }
{
    for i in 0..names.len() {
        if is_same(x, &names[i]) {
            return Some(i);
        }
    }
    None
}

impl SparseBlock {
    // Returns the place of a name.
    fn place(&self, x: &Text) -> Option<usize>
        ensures { FirstPlace (same_text x.now) (arc_value self.now.def).names.items result }
    {
        match &self.def.index {
            Some(index) => index.get_index_of(x),
            None => first_name(self.def.names.as_slice(), x),
        }
    }

    // Returns the value of a named argument.
    fn named(&self, x: &Text) -> Option<Val>
        ensures { result ≡ named_at self.now x.now }
    {
        match &self.table {
            Some(table) => table.get(x).copied(),
            None => value_named(self.names.as_slice(), self.values.as_slice(), x),
        }
    }

    // Returns what the call gives to the name at a place.
    fn argument(&self, place: usize, x: &Text) -> Option<Val>
        ensures { result ≡ argument_at self.now x.now place }
    {
        if place >= self.def.params.len() {
            return None;
        }
        if let Some(value) = self.positional.get(place) {
            return Some(*value);
        }
        if let Some(value) = self.named(x) {
            return Some(value);
        }
        self.defaults
            .get(place.saturating_sub(self.required))
            .copied()
    }

    // Returns the value of the name at a place.
    fn value(&self, place: usize, x: &Text) -> Option<Val>
        ensures { result ≡ value_at self.now x.now place }
    {
        match self.bound.get(&place) {
            Some(value) => Some(*value),
            None => self.argument(place, x),
        }
    }

    /// Returns what the block has at a name, if it has the name: its value, or `None` inside if the name is not bound.
    pub fn slot(&self, x: &Text) -> Option<Option<Val>>
        ensures { result ≡ slot_in x.now (sparse_view self.now) }
    {
        match self.place(x) {
            Some(place) => Some(self.value(place, x)),
            None => None,
        }
    }

    /// Binds a name, if the block has it.
    ///
    /// # Errors
    ///
    /// Returns `Memory` if an allocation fails.
    pub fn bind(&mut self, x: &Text, value: Val) -> Result<(), Memory>
        ensures { OnOk result (sparse_view self.new ≡ bind_in x.now value (sparse_view self.old)) }
    {
        if let Some(place) = self.place(x) {
            self.bound.insert(place, value)?;
        }
        Ok(())
    }
}
