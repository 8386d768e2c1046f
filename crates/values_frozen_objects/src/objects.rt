//! Objects of frozen values, in order.
ghost use Rattle.std.specs.Prelude.{◌≡◌, ◌∷◌, [], ◌++◌, length, slice_get, option_map, OnOk, OnErr};
ghost use Rattle.values_frozen_objects.specs.Objects.{frozen_obj};

use crate::object::FrozenObject;
use base_types::Memory;
use std::alloc::Global;
use std::marker::Model;

/// Objects of frozen values, in the order in which they are made on an empty heap. One names another by its place among
/// them. A contract sees the objects of the definitions.
pub struct FrozenObjects {
    items: Vec<FrozenObject>,
}

impl Drop for FrozenObjects {
    fn drop(self) {
        let FrozenObjects { items: _ } = self;
    }
}

impl Model for FrozenObjects {
    ghost use Rattle.std.specs.Prelude.{List, map};
    ghost use Rattle.values_semantics.specs.Heap.{Obj};

    ghost Value = { List Obj };

    ghost use Rattle.values_frozen_objects.specs.Objects.{frozen_obj};

    ghost view = { λ o. map frozen_obj o.items.items };
}

impl FrozenObjects {
    /// Makes a list of no objects.
    pub fn new(alloc: Global) -> FrozenObjects
        ensures { result ≡ [] }
    {
        FrozenObjects {
            items: Vec::new(alloc),
        }
    }

    /// Returns how many objects there are.
    pub fn len(&self) -> usize
        ensures { result ≡ length self.now }
    {
        self.items.len()
    }

    /// Adds an object at the end.
    ///
    /// # Errors
    ///
    /// Returns `Memory`, and adds nothing, if an allocation fails.
    pub fn push(&mut self, object: FrozenObject) -> Result<(), Memory>
        ensures pushed { OnOk result (self.new ≡ self.old ++ frozen_obj object ∷ []) }
        ensures same { OnErr result (self.new ≡ self.old) }
    {
        self.items.push(object)?;
        Ok(())
    }

    /// Returns the object at a place, if there is one.
    pub fn get(&self, place: usize) -> Option<&FrozenObject>
        ensures { option_map (λ o. frozen_obj o.now) result ≡ slice_get self.now place }
    {
        self.items.get(place)
    }
}
