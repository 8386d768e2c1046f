//! Keys of dictionaries.
ghost use Rattle.std.specs.Prelude.{◌≡◌, ◌∷◌, []};
ghost use Rattle.std.specs.Hash as fed;
ghost use Rattle.std.specs.Cmp.{partial_equiv_from_equiv};
ghost use Rattle.values_semantics.specs.Keys.{same_part, same_key};
ghost use Rattle.values_semantics.specs.HashInput.{part_fed};
ghost use Rattle.values_semantics.specs.KeyLaws.{parts_equiv, parts_alike, keys_equiv, keys_alike};

use crate::bytes::Bytes;
use std::hash::{Hash, Hasher};
use std::marker::Model;
use std::slice::from_ref;

/// A part of a key.
pub enum Part {
    /// `None`
    Nothing,
    Bool(bool),
    Int(i64),
    Text(Bytes),
    /// A tuple of this many members, whose parts follow.
    Tuple(usize),
}

impl Drop for Part {
    fn drop(self) {
        match self {
            Part::Nothing => {}
            Part::Bool(_) => {}
            Part::Int(_) => {}
            Part::Text(_) => {}
            Part::Tuple(_) => {}
        }
    }
}

impl PartialEq for Part {
    ghost eq = { same_part };

    ghost laws = { partial_equiv_from_equiv parts_equiv };

    fn eq(&self, other: &Part) -> bool {
        match (self, other) {
            (Part::Nothing, Part::Nothing) => true,
            (Part::Bool(a), Part::Bool(b)) => *a == *b,
            (Part::Int(a), Part::Int(b)) => *a == *b,
            (Part::Text(a), Part::Text(b)) => a == b,
            (Part::Tuple(a), Part::Tuple(b)) => *a == *b,
            _ => false,
        }
    }
}

impl Eq for Part {
    ghost laws = { parts_equiv };
}

impl Hash for Part {
    ghost hash_input = { part_fed };

    ghost respects_eq = { parts_alike.fed };

    fn hash<H: Hasher>(&self, state: &mut H) {
        match self {
            Part::Nothing => 0u8.hash(state),
            Part::Bool(a) => a.hash(state),
            Part::Int(a) => a.hash(state),
            Part::Text(a) => a.hash(state),
            Part::Tuple(a) => a.hash(state),
        }
    }
}

// The parts of a key. Most keys have one part, which takes no list.
#[derive(Drop)]
enum Parts {
    One(Part),
    Several(Vec<Part>),
}

/// A key: the parts of a value without pointers. The members of a tuple follow their number. A contract sees the parts.
pub struct Key {
    parts: Parts,
}

impl Drop for Key {
    fn drop(self) {
        let Key { parts: _ } = self;
    }
}

impl Model for Key {
    ghost use Rattle.std.specs.Prelude.{List};
    ghost use Rattle.values_semantics.specs.declared.key.Part.{Part};
    ghost use Rattle.values_semantics.specs.KeyView.{parts_of};

    ghost Value = { List Part };

    ghost view = { λ k. parts_of k.parts };
}

impl Key {
    /// Makes the key of one part.
    pub fn one(part: Part) -> Key
        ensures { result ≡ part ∷ [] }
    {
        Key {
            parts: Parts::One(part),
        }
    }

    /// Makes the key of these parts.
    pub fn several(parts: Vec<Part>) -> Key
        ensures { result ≡ parts.items }
    {
        Key {
            parts: Parts::Several(parts),
        }
    }

    /// Returns the parts.
    pub fn parts(&self) -> &[Part]
        ensures { result.now ≡ self.now }
    {
        match &self.parts {
            Parts::One(part) => from_ref(part),
            Parts::Several(parts) => parts.as_slice(),
        }
    }
}

impl PartialEq for Key {
    ghost eq = { same_key };

    ghost laws = { partial_equiv_from_equiv keys_equiv };

    fn eq(&self, other: &Key) -> bool {
        self.parts() == other.parts()
    }
}

impl Eq for Key {
    ghost laws = { keys_equiv };
}

impl Hash for Key {
    ghost hash_input = { λ k. fed.slice part_fed k };

    ghost respects_eq = { keys_alike.fed };

    fn hash<H: Hasher>(&self, state: &mut H) {
        self.parts().hash(state);
    }
}
