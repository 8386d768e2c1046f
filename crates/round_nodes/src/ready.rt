//! Nodes whose next turn can be handed out.
ghost use Rattle.std.specs.Prelude.{◌≡◌, ◌≢◌, [], Some, false, ◌↔◌, All, IfNone, IfSome, IsTrue, OnOk, length};
ghost use Rattle.std.specs.BTreeMap.Range.{IsLeBy};
ghost use Rattle.std.specs.declared.cmp.Ordering.TheVariants.{Less, Equal, Greater};
ghost use Rattle.engine_semantics.specs.Value.{In};
ghost use Rattle.keys.specs.Keys.{key_cmp};
ghost use Rattle.node.specs.Edges.{IsAdded, IsRemoved};
ghost use Rattle.round_nodes.specs.Ready.{keys_of, IsBelow, IsBelowAll};

use base_types::Memory;
use keys::Key;
use std::alloc::Global;
use std::cmp::Ordering;
use std::collections::BTreeSet;
use std::marker::Model;
use std::mem;

/// A set of keys in order. The least key is apart from the others most of the time, since the key that was added last
/// is mostly the least and is taken out next. A contract sees the set.
#[derive(Drop)]
pub struct ReadySet {
    next: Option<Key>,
    rest: BTreeSet<Key>,
}

impl Model for ReadySet {
    ghost use Rattle.std.specs.BTreeSet.{BTreeSet as Seen};
    ghost use Rattle.keys.specs.declared.key.Key.{Key};
    ghost use Rattle.round_nodes.specs.Ready.{keys_of, IsBelow};

    ghost Value = { Seen Key };

    ghost view = { λ s. record { keys = keys_of s.next s.rest.keys } };

    ghost invariant = { λ s. IsBelow s.next s.rest.keys };
}

// Compares a key with the least one of a set; it is below the least of an empty set.
fn compare_least(next: &Option<Key>, rest: &BTreeSet<Key>, key: &Key) -> Ordering
    requires below { IsBelow next.now rest.now.keys }
    ensures less { result ≡ Less → IsBelowAll key.now (keys_of next.now rest.now.keys) }
    ensures equal { result ≡ Equal → In key.now (keys_of next.now rest.now.keys) }
    ensures greater { result ≡ Greater → IfSome next.now (λ n. key_cmp n key.now ≡ Less) }
{
    match next {
        Some(least) => key.cmp(least),
        None => {
            match rest.first() {
                Some(least) => key.cmp(least),
                None => Ordering::Less,
            }
        }
    }
}

// Returns whether this is the key that is apart.
fn is_next(next: &Option<Key>, key: &Key) -> bool
    ensures yes { IsTrue result → next.now ≡ Some key.now }
    ensures no { result ≡ false → next.now ≢ Some key.now }
{
    match next {
        Some(found) => *found == *key,
        None => false,
    }
}

// Puts a key that is below all others before them.
fn put_first(next: &mut Option<Key>, rest: &mut BTreeSet<Key>, key: Key) -> Result<(), Memory>
    requires below { IsBelow next.old rest.old.keys }
    requires least { IsBelowAll key (keys_of next.old rest.old.keys) }
    ensures added { OnOk result
        (IsAdded (keys_of next.old rest.old.keys) (keys_of next.new rest.new.keys) key) }
    ensures below { IsBelow next.new rest.new.keys }
{
    if let Some(second) = mem::replace(next, Some(key)) {
        rest.insert(second)?;
    }
    Ok(())
}

impl ReadySet {
    /// Makes an empty set.
    pub fn new(alloc: Global) -> ReadySet
        ensures { result.keys ≡ [] }
    {
        ReadySet {
            next: None,
            rest: BTreeSet::new(alloc),
        }
    }

    /// Returns the least key, if there is one.
    pub fn first(&self) -> Option<&Key>
        ensures some { IfSome result (λ k. In k.now self.now.keys) }
        ensures none { IfNone result (self.now.keys ≡ []) }
        ensures least { IfSome result (λ k. All (IsLeBy key_cmp k.now) self.now.keys) }
    {
        match &self.next {
            Some(key) => Some(key),
            None => self.rest.first(),
        }
    }

    /// Returns how many keys there are.
    pub fn len(&self) -> usize
        ensures { result ≡ length self.now.keys }
    {
        match &self.next {
            Some(_) => self.rest.len() + 1,
            None => self.rest.len(),
        }
    }

    /// Returns whether a key is in the set.
    pub fn contains(&self, key: &Key) -> bool
        ensures { IsTrue result ↔ In key.now self.now.keys }
    {
        is_next(&self.next, key) || self.rest.contains(key)
    }

    /// Adds a key. Returns `Memory` if an allocation fails.
    pub fn insert(&mut self, key: Key) -> Result<(), Memory>
        ensures { OnOk result (IsAdded self.old.keys self.new.keys key) }
    {
        match compare_least(&self.next, &self.rest, &key) {
            Ordering::Less => put_first(&mut self.next, &mut self.rest, key),
            Ordering::Equal => Ok(()),
            Ordering::Greater => {
                self.rest.insert(key)?;
                Ok(())
            }
        }
    }

    /// Takes a key out, if it is there.
    pub fn remove(&mut self, key: &Key)
        ensures { IsRemoved self.old.keys self.new.keys key.now }
    {
        if is_next(&self.next, key) {
            self.next = None;
        } else {
            let _was_there = self.rest.remove(key);
        }
    }
}
