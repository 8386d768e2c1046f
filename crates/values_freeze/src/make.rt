//! Making of frozen values.
ghost use Rattle.std.specs.Prelude.{◌≡◌, map, IfOk};
ghost use Rattle.values_semantics.specs.Freezing.{nothing, boolean, whole, built_in, text, list, tuple, dict, function};
ghost use Rattle.values_freeze.specs.View.{frozen_of, entry_of, members_of, pairs_of};

use crate::frozen::{Frozen, FrozenEntry};
use base_types::{Memory, Text};
use std::alloc::Global;
use std::sync::Arc;
use values_heap::{Builtin, Bytes};

impl Frozen {
    /// Makes `None`.
    pub fn nothing() -> Frozen
        ensures { frozen_of result ≡ nothing }
    {
        Frozen::Nothing
    }

    /// Makes a bool.
    pub fn of_bool(b: bool) -> Frozen
        ensures { frozen_of result ≡ boolean b }
    {
        Frozen::Bool(b)
    }

    /// Makes an int.
    pub fn of_int(n: i64) -> Frozen
        ensures { frozen_of result ≡ whole n }
    {
        Frozen::Int(n)
    }

    /// Makes a built-in function.
    pub fn built_in(f: Builtin) -> Frozen
        ensures { frozen_of result ≡ built_in f }
    {
        Frozen::Builtin(f)
    }

    /// Makes a string.
    pub fn text(bytes: Bytes) -> Frozen
        ensures { frozen_of result ≡ text bytes }
    {
        Frozen::Text(bytes)
    }

    /// Makes a list.
    pub fn list(alloc: Global, members: Vec<Frozen>) -> Result<Frozen, Memory>
        ensures { IfOk result (λ f. frozen_of f ≡ list (members_of (map frozen_of members.items))) }
    {
        Ok(Frozen::List(Arc::new(alloc, members)?))
    }

    /// Makes a tuple.
    pub fn tuple(alloc: Global, members: Vec<Frozen>) -> Result<Frozen, Memory>
        ensures { IfOk result
            (λ f. frozen_of f ≡ tuple (members_of (map frozen_of members.items))) }
    {
        Ok(Frozen::Tuple(Arc::new(alloc, members)?))
    }

    /// Makes a dictionary.
    pub fn dict(alloc: Global, entries: Vec<FrozenEntry>) -> Result<Frozen, Memory>
        ensures { IfOk result (λ f. frozen_of f ≡ dict (pairs_of (map entry_of entries.items))) }
    {
        Ok(Frozen::Dict(Arc::new(alloc, entries)?))
    }

    /// Makes a function of a file from the file's label and the name.
    pub fn function(label: Text, name: Text) -> Frozen
        ensures { frozen_of result ≡ function label name }
    {
        Frozen::Function(label, name)
    }

    /// Returns the same value, shared.
    pub fn share(&self) -> Result<Frozen, Memory>
        ensures { IfOk result (λ f. frozen_of f ≡ frozen_of self.now) }
    {
        match self {
            Frozen::Nothing => Ok(Frozen::Nothing),
            Frozen::Bool(b) => Ok(Frozen::Bool(*b)),
            Frozen::Int(n) => Ok(Frozen::Int(*n)),
            Frozen::Builtin(f) => Ok(Frozen::Builtin(*f)),
            Frozen::Text(bytes) => Ok(Frozen::Text(bytes.share()?)),
            Frozen::List(members) => Ok(Frozen::List(Arc::try_clone(members)?)),
            Frozen::Tuple(members) => Ok(Frozen::Tuple(Arc::try_clone(members)?)),
            Frozen::Dict(entries) => Ok(Frozen::Dict(Arc::try_clone(entries)?)),
            Frozen::Function(label, name) => Ok(Frozen::Function(label.share()?, name.share()?)),
        }
    }
}

impl FrozenEntry {
    /// Makes an entry of a key with its value.
    pub fn new(key: Frozen, value: Frozen) -> FrozenEntry
        ensures { entry_of result ≡ (frozen_of key, frozen_of value) }
    {
        FrozenEntry { key, value }
    }
}
