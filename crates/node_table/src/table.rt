//! A table in which a key's number is its place.
ghost use Rattle.std.specs.Prelude.{◌≡◌, ◌<◌, ◌++◌, [], ◌∷◌, None, Some, ◌^◌, ◌↔◌, length, IsSome, IfSome, is_some, IfOk, OnOk, OnErr};
ghost use Rattle.std.specs.Borrow.{sem};
ghost use Rattle.std.specs.Option.{option_copied, option_copied_mut, option_to_list};
ghost use Rattle.std.specs.Map.{values_of};
ghost use Rattle.std.specs.Map.Iter.{ShowsInOrder, deref};
ghost use Rattle.keys.specs.declared.key.Key.{Key};
ghost use Rattle.node_table.specs.Tables.{AreDistinct, key_at, number_of, value_of, value_at};
ghost use Rattle.node_table.specs.Lends.{lends_value, lends_found};

use crate::number::NodeId;
use base_types::Memory;
use indexmap::IndexMap;
use indexmap::map::Values;
use keys::Key;
use std::alloc::Global;
use std::marker::Model;

const MOST: usize = 4_294_967_295;

/// A table from keys to values. A key has a number, which is its place and does not change: only the last entry is ever
/// taken out. A contract sees the entries in order.
#[derive(Drop)]
pub struct Table<V> {
    entries: IndexMap<Key, V>,
}

impl<V> Model for Table<V> {
    ghost use Rattle.std.specs.Prelude.{List};
    ghost use Rattle.keys.specs.declared.key.Key.{Key};
    ghost use Rattle.node_table.specs.Tables.{IsTable};

    ghost Value = { List (Key × V) };

    ghost view = { λ t. t.entries.entries };

    ghost invariant = { λ t. IsTable t.entries.entries };
}

impl<V> Table<V> {
    /// Makes an empty table.
    pub fn new(alloc: Global) -> Table<V>
        ensures empty { result ≡ [] }
        ensures distinct { AreDistinct result }
    {
        Table {
            entries: IndexMap::new(alloc),
        }
    }

    /// Returns how many keys the table has. No key is there twice.
    pub fn len(&self) -> usize
        ensures len { result ≡ length self.now }
        ensures distinct { AreDistinct self.now }
    {
        self.entries.len()
    }

    /// Returns a key's number, or `None` if the key is not there.
    pub fn id_of(&self, key: &Key) -> Option<NodeId>
        ensures number { result ≡ number_of self.now key.now }
        ensures within { IfSome result (λ n. n < length self.now) }
        ensures distinct { AreDistinct self.now }
    {
        match self.entries.get_index_of(key) {
            None => None,
            Some(place) => Some(NodeId::at(place as u32)),
        }
    }

    /// Returns whether a key is there.
    pub fn contains_key(&self, key: &Key) -> bool
        ensures there { result ≡ is_some (value_of self.now key.now) }
        ensures distinct { AreDistinct self.now }
    {
        self.entries.contains_key(key)
    }

    /// Returns the key with a number.
    pub fn key_at(&self, number: NodeId) -> &Key
        requires { number < length self.now }
        ensures { key_at self.now number ≡ Some result.now }
    {
        let (key, _) = self.entries.get_index(number.place()).unwrap();
        key
    }

    /// Returns the value of the key with a number.
    pub fn value_at(&self, number: NodeId) -> &V
        requires { number < length self.now }
        ensures { value_at self.now number ≡ Some result.now }
    {
        &self.entries[number.place()]
    }

    /// Returns the value of a key, or `None` if the key is not there.
    pub fn get(&self, key: &Key) -> Option<&V>
        ensures value { option_copied result ≡ value_of self.now key.now }
    {
        self.entries.get(key)
    }

    /// Returns the values, in the order of their numbers.
    pub fn values(&self) -> Values<'_, Key, V>
        ensures rest { result ≡ values_of self.now }
        ensures len { length result ≡ length self.now }
        ensures runs { ShowsInOrder (deref {X = V}) }
        ensures fits { length self.now < 2 ^ 63 }
    {
        self.entries.values()
    }

    /// Borrows the value of the key with a number, to be changed. The keys and the other values stay.
    pub fn value_mut(&mut self, number: NodeId) -> &mut V
        requires { number < length self.old }
        ensures* writes_back { sem 𝓛 (lends_value V.row self.entry number result) }
        ensures value { value_at self.old number ≡ Some result.now }
    {
        &mut self.entries[number.place()]
    }

    /// Borrows the value of a key, if the key is there, to be changed. The keys and the other values stay.
    pub fn get_mut(&mut self, key: &Key) -> Option<&mut V>
        ensures* writes_back { sem 𝓛 (lends_found V.row self.entry key.now result) }
        ensures value { option_copied_mut result ≡ value_of self.old key.now }
        ensures distinct { AreDistinct self.old }
    {
        self.entries.get_mut(key)
    }

    /// Adds a key that is not there, which becomes the last. Returns its number, or `Memory` if an allocation fails or
    /// no number is left; the table is then unchanged.
    pub fn push(&mut self, key: Key, value: V) -> Result<NodeId, Memory>
    where
        V: Drop,
        requires { value_of self.old key ≡ None }
        ensures ok { OnOk result (self.new ≡ self.old ++ (key, value) ∷ []) }
        ensures number { IfOk result (λ n. n ≡ length self.old) }
        ensures err { OnErr result (self.new ≡ self.old) }
        ensures distinct { AreDistinct self.new }
    {
        let place = self.entries.len();
        if place == MOST {
            return Err(Memory::no_number_left(place as u128 + 1));
        }
        self.entries.insert(key, value)?;
        Ok(NodeId::at(place as u32))
    }

    /// Takes the last key out, if there is one.
    pub fn pop(&mut self) -> Option<(Key, V)>
        ensures rest { self.old ≡ self.new ++ option_to_list result }
        ensures found { IsSome result ↔ (0 < length self.old) }
    {
        self.entries.pop()
    }
}
