//! Shared values by names.
ghost use Rattle.std.specs.Prelude.{◌≡◌, ◌==◌, [], length, true, IfOk, OnOk, OnErr, IfSome, bytes_eq, map as each};
ghost use Rattle.std.specs.Option.{option_copied};
ghost use Rattle.std.specs.BTreeMap.{insert_entry};
ghost use Rattle.std.specs.Map.{lookup, remove_entry};
ghost use Rattle.std.specs.Ordering.{nat_cmp};
ghost use Rattle.std.specs.Cmp.Lexicographic.{slice_cmp};
ghost use Rattle.filetree.specs.NameMaps as names;

use base_types::{Memory, Text};
use std::alloc::Global;
use std::collections::BTreeMap;
use std::sync::Arc;

// The most entries for which a list has no spare places.
const MOST_EXACT: usize = 16;

// The most entries in one list, since an insertion moves those after it.
const MOST_LISTED: usize = 256;

/// Shared values by names, in byte order: a few in one list, more in an ordered map. A map stays one when it shrinks.
/// What the calls below require of the names' order holds as long as they alone change it.
#[derive(Drop)]
pub(crate) enum NameMap<V> {
    Few(Vec<(Text, Arc<V>)>),
    Many(BTreeMap<String, Arc<V>>),
}

/// Returns where a name is in a list, or where it would be.
pub(crate) fn find_name<V>(list: &[(Text, Arc<V>)], name: &str) -> Result<usize, usize>
    requires { names.is_ascending (names.listed list.now) ≡ true }
    ensures { names.IsPlace name.now list.now result }
{
    list.binary_search_by(|entry| entry.0.as_str().cmp(name))
}

// Makes room for one more entry, and for no other where the list is short.
fn make_room<V>(list: &mut Vec<(Text, Arc<V>)>) -> Result<(), Memory>
    ensures { list.new.items ≡ list.old.items }
{
    if list.len() < MOST_EXACT {
        list.reserve_exact(1)?;
    }
    Ok(())
}

// Puts a value at a name into a list.
fn put_in_list<V: Drop>(
    list: &mut Vec<(Text, Arc<V>)>,
    alloc: Global,
    name: &str,
    value: Arc<V>,
) -> Result<(), Memory>
    requires { names.is_ascending (names.listed list.old.items) ≡ true }
    ensures ok { OnOk result (names.listed list.new.items ≡ insert_entry (slice_cmp nat_cmp)
        (names.listed list.old.items) name.now value.value) }
    ensures err { OnErr result (names.listed list.new.items ≡ names.listed list.old.items) }
{
    match find_name(list, name) {
        Ok(at) => {
            list[at].1 = value;
        }
        Err(at) => {
            let name = Text::new(alloc, name)?;
            make_room(list)?;
            list.insert(at, (name, value))?;
        }
    }
    Ok(())
}

// Returns a list of the same entries, with shared values.
fn copy_list<V: Drop>(alloc: Global, list: &[(Text, Arc<V>)]) -> Result<Vec<(Text, Arc<V>)>, Memory>
    ensures { IfOk result (λ copy. names.listed copy.items ≡ names.listed list.now) }
{
    let mut copy = Vec::with_capacity(alloc, list.len())?;
    for entry in list {
        copy.push((entry.0.share()?, Arc::try_clone(&entry.1)?))?;
    }
    Ok(copy)
}

// Returns an ordered map of the entries of a list, with shared values.
fn list_as_map<V: Drop>(
    alloc: Global,
    list: &[(Text, Arc<V>)],
) -> Result<BTreeMap<String, Arc<V>>, Memory>
    requires { names.is_ascending (names.listed list.now) ≡ true }
    ensures { IfOk result (λ map. names.mapped map ≡ names.listed list.now) }
{
    let mut map = BTreeMap::new(alloc);
    let mut left = list.len();
    while left > 0 {
        left -= 1;
        let entry = &list[left];
        let name = String::from_str(alloc, entry.0.as_str())?;
        map.insert(name, Arc::try_clone(&entry.1)?)?;
    }
    Ok(map)
}

// Returns the names of a list.
fn list_names<V: Drop>(alloc: Global, list: &[(Text, Arc<V>)]) -> Result<Vec<Text>, Memory>
    ensures { IfOk result (λ found. found.items ≡ each (λ e. e.0) (names.listed list.now)) }
{
    let mut found = Vec::with_capacity(alloc, list.len())?;
    for entry in list {
        found.push(entry.0.share()?)?;
    }
    Ok(found)
}

// Returns the names of an ordered map.
fn map_names<V: Drop>(alloc: Global, map: &BTreeMap<String, Arc<V>>) -> Result<Vec<Text>, Memory>
    ensures { IfOk result (λ found. found.items ≡ each (λ e. e.0) (names.mapped map.now)) }
{
    let mut found = Vec::with_capacity(alloc, map.len())?;
    for name in map.keys() {
        found.push(Text::new(alloc, name.as_str())?)?;
    }
    Ok(found)
}

// Returns an ordered map of the same entries, with shared values.
fn copy_map<V: Drop>(map: &BTreeMap<String, Arc<V>>) -> Result<BTreeMap<String, Arc<V>>, Memory>
    ensures { IfOk result (λ copy. names.mapped copy ≡ names.mapped map.now) }
{
    let copy = map.clone()?;
    Ok(copy)
}

impl<V: Drop> NameMap<V> {
    /// Makes a map without names.
    pub(crate) fn new(alloc: Global) -> NameMap<V>
        ensures { names.folder_entries result ≡ [] }
    {
        NameMap::Few(Vec::new(alloc))
    }

    pub(crate) fn is_empty(&self) -> bool
        ensures { result ≡ (length (names.folder_entries self.now) == 0) }
    {
        match self {
            NameMap::Few(list) => list.is_empty(),
            NameMap::Many(map) => map.is_empty(),
        }
    }

    /// Returns the value at a name.
    pub(crate) fn get(&self, name: &str) -> Option<&V>
        requires { names.is_ascending (names.folder_entries self.now) ≡ true }
        ensures { option_copied result ≡ lookup (bytes_eq name.now) (names.folder_entries
            self.now) }
    {
        match self {
            NameMap::Few(list) => match find_name(list, name) {
                Ok(at) => Some(&list[at].1),
                Err(_) => None,
            },
            NameMap::Many(map) => match map.get(name) {
                Some(value) => Some(value),
                None => None,
            },
        }
    }

    /// Returns a map of the same names with the same values, which are shared.
    pub(crate) fn copy(&self, alloc: Global) -> Result<NameMap<V>, Memory>
        ensures { IfOk result (λ copy. names.folder_entries copy ≡ names.folder_entries self.now) }
    {
        match self {
            NameMap::Few(list) => Ok(NameMap::Few(copy_list(alloc, list)?)),
            NameMap::Many(map) => Ok(NameMap::Many(copy_map(map)?)),
        }
    }

    /// Returns the names.
    pub(crate) fn names(&self, alloc: Global) -> Result<Vec<Text>, Memory>
        ensures { IfOk result (λ found. found.items ≡ each (λ e. e.0) (names.folder_entries
            self.now)) }
    {
        match self {
            NameMap::Few(list) => list_names(alloc, list),
            NameMap::Many(map) => map_names(alloc, map),
        }
    }

    // Returns an ordered map of the same entries, with shared values, if the list is full.
    fn wider(&self, alloc: Global) -> Result<Option<BTreeMap<String, Arc<V>>>, Memory>
        requires { names.is_ascending (names.folder_entries self.now) ≡ true }
        ensures { IfOk result (λ m. IfSome m (λ map. names.mapped map ≡ names.folder_entries
            self.now)) }
    {
        match self {
            NameMap::Few(list) => {
                if list.len() < MOST_LISTED {
                    return Ok(None);
                }
                Ok(Some(list_as_map(alloc, list)?))
            }
            NameMap::Many(_) => Ok(None),
        }
    }

    // Changes a full list to an ordered map.
    fn widen(&mut self, alloc: Global) -> Result<(), Memory>
        requires { names.is_ascending (names.folder_entries self.old) ≡ true }
        ensures { names.folder_entries self.new ≡ names.folder_entries self.old }
    {
        if let Some(map) = self.wider(alloc)? {
            *self = NameMap::Many(map);
        }
        Ok(())
    }

    /// Puts a value at a name. It replaces one that was there.
    pub(crate) fn put(&mut self, alloc: Global, name: &str, value: Arc<V>) -> Result<(), Memory>
        requires { names.is_ascending (names.folder_entries self.old) ≡ true }
        ensures ok { OnOk result (names.folder_entries self.new ≡ insert_entry (slice_cmp nat_cmp)
            (names.folder_entries self.old) name.now value.value) }
        ensures err { OnErr result (names.folder_entries self.new ≡ names.folder_entries self.old) }
    {
        self.widen(alloc)?;
        match self {
            NameMap::Few(list) => put_in_list(list, alloc, name, value),
            NameMap::Many(map) => {
                map.insert(String::from_str(alloc, name)?, value)?;
                Ok(())
            }
        }
    }

    /// Removes the value at a name, if it is there.
    pub(crate) fn remove(&mut self, name: &str)
        requires { names.is_ascending (names.folder_entries self.old) ≡ true }
        ensures { names.folder_entries self.new ≡ remove_entry (bytes_eq name.now)
            (names.folder_entries self.old) }
    {
        match self {
            NameMap::Few(list) => {
                if let Ok(at) = find_name(list, name) {
                    let _ = list.remove(at);
                }
            }
            NameMap::Many(map) => {
                let _ = map.remove(name);
            }
        }
    }
}
