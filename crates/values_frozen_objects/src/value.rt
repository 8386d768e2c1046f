//! Values that are in frozen objects.
ghost use Rattle.std.specs.Prelude.{◌≡◌};
ghost use Rattle.values_semantics.specs.declared.val.Val.TheVariants as v;
ghost use Rattle.values_frozen_objects.specs.Shift.{moved_val, moved_entry};
ghost use Rattle.values_semantics.specs.Values.{bool_value, builtin_value};

use std::marker::Model;
use values_semantics::{Builtin, Entry, Val};

// Places take 32 bits, so that the sum of two places is a number of 64 bits.
enum Inner {
    Nothing,
    Bool(bool),
    Int(i64),
    Builtin(Builtin),
    At(u32),
}

impl Drop for Inner {
    fn drop(self) {
        match self {
            Inner::Nothing => {}
            Inner::Bool(_) => {}
            Inner::Int(_) => {}
            Inner::Builtin(_) => {}
            Inner::At(_) => {}
        }
    }
}

/// A value that is in a frozen object. It names an object by its place among the frozen ones. A contract sees a value.
pub struct FrozenVal {
    inner: Inner,
}

impl Drop for FrozenVal {
    fn drop(self) {
        let FrozenVal { inner: _ } = self;
    }
}

impl Model for FrozenVal {
    ghost use Rattle.values_semantics.specs.declared.val.Val.{Val};
    ghost use Rattle.values_frozen_objects.specs.Values.{inner_val};

    ghost Value = { Val };

    ghost view = { λ x. inner_val x.inner };
}

impl FrozenVal {
    /// Makes `None`.
    pub fn nothing() -> FrozenVal
        ensures { result ≡ v.Nothing }
    {
        FrozenVal {
            inner: Inner::Nothing,
        }
    }

    /// Makes a bool.
    pub fn of_bool(b: bool) -> FrozenVal
        ensures { result ≡ bool_value b }
    {
        FrozenVal {
            inner: Inner::Bool(b),
        }
    }

    /// Makes an int.
    pub fn of_int(n: i64) -> FrozenVal
        ensures { result ≡ v.Int n }
    {
        FrozenVal {
            inner: Inner::Int(n),
        }
    }

    /// Makes a built-in function.
    pub fn built_in(f: Builtin) -> FrozenVal
        ensures { result ≡ builtin_value f }
    {
        FrozenVal {
            inner: Inner::Builtin(f),
        }
    }

    /// Makes the value that names the object at a place.
    pub fn at(place: u32) -> FrozenVal
        ensures { result ≡ v.At place }
    {
        FrozenVal {
            inner: Inner::At(place),
        }
    }

    /// Returns the value where `base` objects are before the frozen ones.
    pub fn shift(&self, base: u32) -> Val
        ensures { result ≡ moved_val base self.now }
    {
        match &self.inner {
            Inner::Nothing => Val::Nothing,
            Inner::Bool(b) => Val::boolean(*b),
            Inner::Int(n) => Val::Int(*n),
            Inner::Builtin(f) => Val::built_in(*f),
            Inner::At(place) => Val::At(base as usize + *place as usize),
        }
    }
}

/// What a dictionary of frozen values has at a key: the key's value, and the value. A contract sees an entry.
pub struct FrozenPair {
    key: FrozenVal,
    value: FrozenVal,
}

impl Drop for FrozenPair {
    fn drop(self) {
        let FrozenPair { key: _, value: _ } = self;
    }
}

impl Model for FrozenPair {
    ghost use Rattle.values_semantics.specs.declared.val.Entry.{Entry};

    ghost Value = { Entry };

    ghost view = { λ p. record { key = p.key; value = p.value } };
}

impl FrozenPair {
    /// Makes the entry of a key's value and the value.
    pub fn new(key: FrozenVal, value: FrozenVal) -> FrozenPair
        ensures { result ≡ record { key = key; value = value } }
    {
        FrozenPair { key, value }
    }

    /// Returns the entry where `base` objects are before the frozen ones.
    pub fn shift(&self, base: u32) -> Entry
        ensures { result ≡ moved_entry base self.now }
    {
        Entry {
            key: self.key.shift(base),
            value: self.value.shift(base),
        }
    }
}
