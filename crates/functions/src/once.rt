//! Members of a group that may repeat, and their answers.
ghost use Rattle.std.specs.Prelude.{◌≡◌, ◌∷◌, [], true, Some, is_some, IfOk, OnOk, option_map};
ghost use Rattle.std.specs.BTreeMap.{get, Updates as MapUpdates};
ghost use Rattle.std.specs.BTreeSet.{contains, Updates};
ghost use Rattle.keys.specs.Keys.{key_cmp};
ghost use Rattle.keys.specs.Turns.{values};
ghost use Rattle.functions.specs.Once as specs;
ghost use Rattle.functions.specs.Once.{ArePlaces};

use base_types::Memory;
use keys::{Key, Value};
use std::alloc::Global;
use std::collections::{BTreeMap, BTreeSet};
use std::sync::Arc;

// Returns whether a key is in a set.
fn is_among(set: &BTreeSet<Key>, key: &Key) -> bool
    ensures { result ≡ contains key_cmp set.now key.now }
{
    set.contains(key)
}

// Adds a key to a set.
fn add(set: &mut BTreeSet<Key>, key: Key) -> Result<(), Memory>
    ensures { OnOk result (Updates key_cmp set.old set.new key true) }
{
    set.insert(key)?;
    Ok(())
}

// Makes a list of one key.
fn alone(alloc: Global, key: &Key) -> Result<Vec<Key>, Memory>
    ensures { IfOk result (λ v. v.items ≡ key.now ∷ []) }
{
    let key = key.share()?;
    Ok(vec![in alloc; key]?)
}

/// Returns the keys, each at its first place.
pub fn distinct_keys(alloc: Global, keys: &[Key]) -> Result<Vec<Key>, Memory>
    ensures { IfOk result (λ v. v.items ≡ specs.once keys.now) }
{
    if let [only] = keys {
        return alone(alloc, only);
    }
    let mut all = Vec::new(alloc);
    let mut seen = BTreeSet::new(alloc);
    for key in keys {
        if is_among(&seen, key) {
            continue;
        }
        add(&mut seen, key.share()?)?;
        all.push(key.share()?)?;
    }
    Ok(all)
}

// Returns whether a key has a place.
fn has_place(places: &BTreeMap<Key, usize>, key: &Key) -> bool
    ensures { result ≡ is_some (get key_cmp places.now key.now) }
{
    places.contains_key(key)
}

// Sets the place of a key.
fn set_place(places: &mut BTreeMap<Key, usize>, key: Key, place: usize) -> Result<(), Memory>
    ensures { OnOk result (MapUpdates key_cmp places.old places.new key (Some place)) }
{
    places.insert(key, place)?;
    Ok(())
}

/// Returns each key's first place in a group.
pub fn first_places(alloc: Global, group: &[Key]) -> Result<BTreeMap<Key, usize>, Memory>
    ensures { IfOk result (λ places. ArePlaces places group.now) }
{
    let mut places = BTreeMap::new(alloc);
    for (i, key) in group.iter().enumerate() {
        if has_place(&places, key) {
            continue;
        }
        set_place(&mut places, key.share()?, i)?;
    }
    Ok(places)
}

/// Returns the answer of a key, by the keys' places.
pub fn answer_of<'a>(
    key: &Key,
    places: &BTreeMap<Key, usize>,
    answers: &'a [Arc<Value>],
) -> Option<&'a Value>
    ensures { option_map (λ v. v.now) result ≡ specs.answer_in places.now key.now
        (values answers.now) }
{
    match places.get(key) {
        Some(place) => {
            if *place >= answers.len() {
                return None;
            }
            Some(&answers[*place])
        }
        None => None,
    }
}
