//! Dictionaries, apart from any heap.
ghost use Rattle.std.specs.Prelude.{◌≡◌, length, slice_get, IfOk, OnOk};
ghost use Rattle.values_semantics.specs.Heap.{is_sized};
ghost use Rattle.values_semantics.specs.Comparing.{entry_at};
ghost use Rattle.values_semantics.specs.Indexing.{with_key, keys_of};
ghost use Rattle.values_semantics.specs.declared.val.Entry.{Entry};

use crate::object::MAX_LENGTH;
use crate::object_ref::Entries;
use base_types::Memory;
use indexmap::IndexMap;
use std::alloc::Global;
use values_semantics::{Entry, Key, Val};

/// Returns the entry that a dictionary has at a key, if there is one.
#[tactic(auto, using(crate::proofs::DictionaryKeys::lookup_found))]
pub fn entry(entries: &IndexMap<Key, Entry>, key: &Key) -> Option<Entry>
    ensures { result ≡ entry_at key.now entries.now.entries }
{
    entries.get(key).copied()
}

/// Sets a key, which keeps its place if it was there.
#[tactic(auto, using(crate::proofs::DictionaryKeys::insert_with_key))]
pub fn set_entry(entries: &mut IndexMap<Key, Entry>, key: Key, entry: Entry) -> Result<(), Memory>
    ensures { OnOk result (entries.new.entries ≡ with_key key entry entries.old.entries) }
{
    entries.insert(key, entry)?;
    Ok(())
}

/// Returns whether a dictionary is not too long after the key is set.
#[tactic(auto, using(crate::proofs::DictionaryKeys::with_key_length, crate::proofs::DictionaryKeys::lookup_found))]
pub fn has_room(entries: &IndexMap<Key, Entry>, key: &Key) -> bool
    ensures { (e : Entry) → result ≡ is_sized (length (with_key key.now e entries.now.entries)) }
{
    if entries.len() < MAX_LENGTH {
        return true;
    }
    entries.len() == MAX_LENGTH && entries.contains_key(key)
}

/// Returns the keys of a dictionary, in order.
#[tactic(auto, using(crate::proofs::DictionaryKeys::take_some, crate::proofs::DictionaryKeys::take_none, crate::proofs::DictionaryKeys::take_keys))]
pub fn keys(alloc: Global, entries: &Entries<'_>) -> Result<Vec<Val>, Memory>
    ensures { IfOk result (λ v. v.items ≡ keys_of entries.now) }
{
    let mut all = Vec::new(alloc);
    for i in 0..entries.len() {
        if let Some(key) = key_at(entries, i) {
            all.push(key)?;
        }
    }
    Ok(all)
}

// Returns the key at a place of the order.
#[tactic(auto, using(crate::proofs::DictionaryKeys::key_there))]
fn key_at(entries: &Entries<'_>, i: usize) -> Option<Val>
    ensures { result ≡ slice_get (keys_of entries.now) i }
{
    match entries.get_index(i) {
        Some((_key, entry)) => Some(entry.key),
        None => None,
    }
}
