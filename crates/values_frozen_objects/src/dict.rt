//! Dictionaries of frozen values.
ghost use Rattle.std.specs.Prelude.{◌≡◌, [], length, slice_get, option_map, ◌<◌, ◌^◌, IfOk, OnOk, OnErr};
ghost use Rattle.values_semantics.specs.Comparing.{entry_at};
ghost use Rattle.values_semantics.specs.Indexing.{with_key};
ghost use Rattle.values_frozen_objects.specs.Objects.{pair_seen};

use crate::value::FrozenPair;
use base_types::Memory;
use std::alloc::Global;
use std::collections::HashMap;
use std::marker::Model;
use values_semantics::{Key, Part};

/// A dictionary of frozen values, in the order in which its keys were first set. Finding a key takes one hash. A
/// contract sees the entries with their keys.
pub struct FrozenDict {
    pairs: Vec<(Key, FrozenPair)>,
    places: HashMap<Key, usize>,
}

impl Drop for FrozenDict {
    fn drop(self) {
        let FrozenDict {
            pairs: _,
            places: _,
        } = self;
    }
}

impl Model for FrozenDict {
    ghost use Rattle.values_semantics.specs.Heap.{Entries};
    ghost use Rattle.values_frozen_objects.specs.Places.{HasPlaces};

    ghost Value = { Entries };

    ghost view = { λ d. d.pairs.items };

    ghost invariant = { λ d. HasPlaces d.places d.pairs.items };
}

// Returns the same part, shared.
fn shared_part(part: &Part) -> Result<Part, Memory>
    ensures { IfOk result (λ p. p ≡ part.now) }
{
    match part {
        Part::Nothing => Ok(Part::Nothing),
        Part::Bool(b) => Ok(Part::Bool(*b)),
        Part::Int(n) => Ok(Part::Int(*n)),
        Part::Text(bytes) => Ok(Part::Text(bytes.share()?)),
        Part::Tuple(n) => Ok(Part::Tuple(*n)),
    }
}

// Returns the same key, whose texts are shared.
fn shared_key(alloc: Global, key: &Key) -> Result<Key, Memory>
    ensures { IfOk result (λ k. k ≡ key.now) }
{
    let parts = key.parts();
    if parts.len() == 1 {
        return Ok(Key::one(shared_part(&parts[0])?));
    }
    let mut all = Vec::new(alloc);
    for part in parts.iter() {
        all.push(shared_part(part)?)?;
    }
    Ok(Key::several(all))
}

impl FrozenDict {
    /// Makes an empty dictionary.
    pub fn new(alloc: Global) -> FrozenDict
        ensures { result ≡ [] }
    {
        FrozenDict {
            pairs: Vec::new(alloc),
            places: HashMap::new(alloc),
        }
    }

    /// Sets a key, which keeps its place if it was there.
    ///
    /// # Errors
    ///
    /// Returns `Memory`, and sets nothing, if an allocation fails.
    #[tactic(auto, using(crate::proofs::KeyPlaces::place_within, crate::proofs::KeyPlaces::set_there, crate::proofs::KeyPlaces::places_stay, crate::proofs::KeyPlaces::set_behind, crate::proofs::KeyPlaces::place_more))]
    pub fn set(&mut self, key: Key, entry: FrozenPair) -> Result<(), Memory>
        ensures set { OnOk result (self.new ≡ with_key key entry self.old) }
        ensures same { OnErr result (self.new ≡ self.old) }
    {
        if let Some(place) = self.places.get(&key).copied() {
            self.pairs[place].1 = entry;
            return Ok(());
        }
        let second = shared_key(*self.pairs.allocator(), &key)?;
        self.pairs.reserve(1)?;
        self.places.insert(second, self.pairs.len())?;
        self.pairs.push_reserved((key, entry));
        Ok(())
    }

    /// Returns how many entries there are.
    pub fn len(&self) -> usize
        ensures len { result ≡ length self.now }
        ensures within { result < 2 ^ 63 }
    {
        self.pairs.len()
    }

    /// Returns the entry at a key, if there is one.
    #[tactic(auto, using(crate::proofs::KeyPlaces::place_within, crate::proofs::KeyPlaces::found_there, crate::proofs::KeyPlaces::found_nowhere))]
    pub fn get(&self, key: &Key) -> Option<&FrozenPair>
        ensures { option_map (λ p. p.now) result ≡ entry_at key.now self.now }
    {
        match self.places.get(key) {
            Some(place) => Some(&self.pairs[*place].1),
            None => None,
        }
    }

    /// Returns the key and the entry at a place in the order, if there is one.
    pub fn get_index(&self, i: usize) -> Option<(&Key, &FrozenPair)>
        ensures { option_map pair_seen result ≡ slice_get self.now i }
    {
        match self.pairs.get(i) {
            Some((key, pair)) => Some((key, pair)),
            None => None,
        }
    }
}
