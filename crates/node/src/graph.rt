//! The graph of records.
ghost use Rattle.std.specs.Prelude.{◌≡◌, ℕ, List, ◌+◌, ◌<◌, [], ◌∷◌, length, IfSome, IfNone, IfOk, OnOk, OnErr, IsSome, IsTrue, Some, false};
ghost use Rattle.std.specs.Option.{option_map};
ghost use Rattle.std.specs.Arc.{arc_value};
ghost use Rattle.std.specs.Map.{keys_of as keys_of_records};
ghost use Rattle.engine_semantics.specs.Graph.{Record, MarksDirty};
ghost use Rattle.keys.specs.declared.key.Key.{Key};
ghost use Rattle.keys.specs.declared.value.Value.{Value};
ghost use Rattle.node.specs.Records.{record_of, items_of};
ghost use Rattle.engine_semantics.specs.Value.{AllDiffer};
ghost use Rattle.node.specs.Comparisons.{Compares};
ghost use Rattle.node.specs.Counts.{edges_of};
ghost use Rattle.node.specs.Batches.{keys_of, HasReadyEntries, SetsAll};
ghost use Rattle.node.specs.Laws.{IsAlwaysLawful, TouchKeepsLawful, SettlingKeepsLawful, BatchKeepsLawful};
ghost use Rattle.node.specs.Writes.{HasReadyMembers, settled_record, is_ready_group, are_ready};
ghost use Rattle.node.specs.Graphs.{record_at, present, IsTouched, paths_seen, AreReached, HasCleanMembers, Sets};

use crate::batch::store_all;
use crate::comparison::{Comparison, compare_next};
use crate::counts::{Counts, edges};
use crate::entry::Entry;
use crate::groups::Groups;
use crate::marks::{clear_all_dirty, keys_with, mark_dirty_from, set_all_dirty, touched_leaves};
use crate::records::{NodeRecord, Records};
use crate::settling::{settle, store};
use base_types::Memory;
use keys::{Key, Value};
use node_table::Table;
use std::alloc::Global;
use std::marker::Model;
use std::sync::Arc;

/// What was recorded of the nodes that were settled. For each node this is its value, the groups that it asked for, the
/// version at which it was last settled, the version at which its value last changed, and whether an edit since then
/// may have changed it (it is then dirty). A contract sees the graph's version and the records, in the order in which
/// their keys were first recorded. The reverse edges, from a key to those whose records have it in a group, are in the
/// key's own record and are the inverse of the groups.
pub struct Graph {
    alloc: Global,
    version: u32,
    records: Records,
}

impl Drop for Graph {
    fn drop(self) {
        let Graph {
            alloc: _,
            version: _,
            records: _,
        } = self;
    }
}

impl Model for Graph {
    ghost use Rattle.node.specs.Graphs.{GraphView, recorded, IsLinkedBy};

    ghost Value = { GraphView };

    ghost use Rattle.std.specs.Coded.{codes};
    ghost use Rattle.keys.specs.Storage.{loaded_code};

    ghost coded = { Prim.hlevel (codes, loaded_code) };

    ghost view = { λ g. recorded g.version g.records };

    ghost invariant = { λ g. IsLinkedBy g.records };
}

impl Graph {
    /// Makes a graph without records, at version 0. It grows by the allocator that it is made with.
    pub fn new(alloc: Global) -> Graph
        ensures version { result.version ≡ 0 }
        ensures records { result.records ≡ [] }
        ensures lawful { IsAlwaysLawful result }
    {
        Graph::new_at(alloc, 0)
    }

    /// Makes a graph without records, at the version.
    pub fn new_at(alloc: Global, version: u32) -> Graph
        ensures version { result.version ≡ version }
        ensures records { result.records ≡ [] }
        ensures lawful { IsAlwaysLawful result }
    {
        Graph {
            alloc,
            version,
            records: Table::new(alloc),
        }
    }

    /// Returns the version.
    pub fn version(&self) -> u32
        ensures { result ≡ self.now.version }
    {
        self.version
    }

    // Returns the record that is kept of a key.
    fn record_of(&self, key: &Key) -> Option<&NodeRecord>
        ensures { option_map (λ e. record_of (keys_of_records self.now.records) e.now) result
            ≡ record_at self.now key.now }
    {
        self.records.get(key)
    }

    /// Returns the value of a key, or `None` if it has no record or is dirty.
    pub fn get(&self, key: &Key) -> Option<&Arc<Value>>
        ensures { option_map (λ v. arc_value v.now) result ≡ present (record_at self.now key.now) }
    {
        match self.record_of(key) {
            None => None,
            Some(kept) => { if kept.dirty { None } else { Some(&kept.value) } }
        }
    }

    /// Returns the groups of a key's record, dirty or not, or `None` if it has none.
    pub fn groups(&self, key: &Key) -> Option<Groups<'_>>
        ensures { result ≡ option_map (λ r. r.groups) (record_at self.now key.now) }
    {
        match self.records.get(key) {
            None => None,
            Some(kept) => Some(Groups::new(&self.records, &kept.groups)),
        }
    }

    /// Returns how the check of a key's record continues after the groups that it passed. It tells whether the next
    /// group is settled, and whether a member's value has changed since the record was settled. The check is over if
    /// there is no record or no group is left. It takes memory only for the members that are not settled. Returns
    /// `Memory` if an allocation fails.
    pub fn compare(&self, alloc: Global, key: &Key, passed: usize) -> Result<Comparison, Memory>
        ensures { IfOk result (Compares (record_at self.now) (record_at self.now key.now) passed) }
    {
        match self.records.get(key) {
            None => Ok(Comparison::Unchanged),
            Some(kept) => compare_next(alloc, &self.records, kept, passed),
        }
    }

    /// Returns the version at which a key's record was last settled, dirty or not, or `None` if it has none.
    pub fn settled_at(&self, key: &Key) -> Option<u32>
        ensures { result ≡ option_map (λ r. r.settled_at) (record_at self.now key.now) }
    {
        match self.record_of(key) {
            None => None,
            Some(kept) => Some(kept.settled_at),
        }
    }

    /// Returns the version at which the value of a key's record last changed, dirty or not, or `None` if it has none.
    pub fn changed_at(&self, key: &Key) -> Option<u32>
        ensures { result ≡ option_map (λ r. r.changed_at) (record_at self.now key.now) }
    {
        match self.record_of(key) {
            None => None,
            Some(kept) => Some(kept.changed_at),
        }
    }

    /// Returns how many records and recorded edges there are, with an edge for each member of the recorded groups. It
    /// visits all records, and allocates nothing.
    pub fn counts(&self) -> Counts
        ensures records { result.records ≡ length self.now.records }
        ensures edges { IfSome result.edges (λ n. n ≡ edges_of self.now) }
        ensures past { IfNone result.edges (u64.MAX < edges_of self.now) }
    {
        Counts {
            records: self.records.len() as u64,
            edges: edges(&self.records),
        }
    }

    /// Returns the keys whose records an edit of these paths has to mark dirty: those that are not dirty and reach a
    /// leaf that the edit touches. These leaves are the file of each path, and the listing of each directory that it
    /// lies below, with the root. The cost is that of the records that are reached. Nothing changes. Returns `Memory`
    /// if an allocation fails.
    pub fn keys_to_dirty(&mut self, paths: &[&str]) -> Result<Vec<Key>, Memory>
        ensures reached { IfOk result
            (λ keys. AreReached (record_at self.old) (IsTouched (paths_seen paths.now))
            keys.items) }
        ensures same { self.new ≡ self.old }
    {
        let leaves = touched_leaves(self.alloc, paths)?;
        let mut marked = Vec::new(self.alloc);
        let spread = mark_dirty_from(&mut self.records, &mut marked, leaves.as_slice());
        clear_all_dirty(&mut self.records, marked.as_slice());
        spread?;
        let keys = keys_with(self.alloc, &self.records, marked.as_slice())?;
        Ok(keys)
    }

    /// Takes in an edit: the version grows by one, and the records of these keys are marked dirty. Returns the new
    /// version. The keys must be what `keys_to_dirty` returns for the edit's paths at the present graph. Nothing else
    /// changes, and nothing is allocated. A graph that is consistent for a history of the files is consistent for the
    /// history with this edit.
    pub fn mark_dirty(&mut self, reached: &[Key]) -> u32
        requires below { self.old.version < u32.MAX }
        requires reached { (paths : List (List ℕ)) × AreReached (record_at self.old)
            (IsTouched paths) reached.now }
        ensures version { result ≡ self.old.version + 1 }
        ensures moved { self.new.version ≡ self.old.version + 1 }
        ensures marks { (paths : List (List ℕ)) → AreReached (record_at self.old) (IsTouched paths)
            reached.now → MarksDirty (record_at self.old) (record_at self.new) (IsTouched paths) }
        ensures lawful { (paths : List (List ℕ)) → AreReached (record_at self.old) (IsTouched paths)
            reached.now → TouchKeepsLawful self.old self.new paths }
    {
        set_all_dirty(&mut self.records, reached, true);
        self.version += 1;
        self.version
    }

    /// Takes in an edit of these paths together: the version grows by one, and the records that `keys_to_dirty` returns
    /// are marked dirty. Then each record is dirty that reaches a leaf which the edit touches. Nothing else changes. A
    /// graph that is consistent for a history of the files is consistent for the history with this edit. Returns the
    /// new version, or `Memory` if an allocation fails; the graph is then unchanged.
    pub fn touch_all(&mut self, paths: &[&str]) -> Result<u32, Memory>
        requires { self.old.version < u32.MAX }
        ensures version { IfOk result (λ v. v ≡ self.old.version + 1) }
        ensures moved { OnOk result (self.new.version ≡ self.old.version + 1) }
        ensures marks { OnOk result (MarksDirty (record_at self.old) (record_at self.new)
            (IsTouched (paths_seen paths.now))) }
        ensures lawful { OnOk result (TouchKeepsLawful self.old self.new (paths_seen paths.now)) }
        ensures refused { OnErr result (self.new ≡ self.old) }
    {
        let reached = self.keys_to_dirty(paths)?;
        let version = self.mark_dirty(reached.as_slice());
        Ok(version)
    }

    /// Takes in an edit of one path, as `touch_all` does for several.
    pub fn touch(&mut self, path: &str) -> Result<u32, Memory>
        requires { self.old.version < u32.MAX }
        ensures version { IfOk result (λ v. v ≡ self.old.version + 1) }
        ensures moved { OnOk result (self.new.version ≡ self.old.version + 1) }
        ensures marks { OnOk result (MarksDirty (record_at self.old) (record_at self.new)
            (IsTouched (path.now ∷ []))) }
        ensures lawful { OnOk result (TouchKeepsLawful self.old self.new (path.now ∷ [])) }
        ensures refused { OnErr result (self.new ≡ self.old) }
    {
        let version = self.touch_all(&[path])?;
        Ok(version)
    }

    // Returns whether each member of a group is the key or has a record that is not dirty.
    fn is_ready_group(&self, key: &Key, group: &[Key]) -> bool
        ensures { result ≡ is_ready_group (record_at self.now) key.now group.now }
    {
        for member in group {
            if key != member && self.get(member).is_none() {
                return false;
            }
        }
        true
    }

    /// Returns whether each member of the groups is the key or has a record that is not dirty. If so, the key can be
    /// recorded with these groups.
    pub fn is_ready(&self, key: &Key, groups: &[Vec<Key>]) -> bool
        ensures test { result ≡ are_ready (record_at self.now) key.now (items_of groups.now) }
        ensures ready { IsTrue result → HasReadyMembers (record_at self.now) key.now
            (items_of groups.now) }
    {
        for group in groups {
            if !self.is_ready_group(key, group.as_slice()) {
                return false;
            }
        }
        true
    }

    /// Stores the record of a key that was settled at the present version with this value, after it asked for these
    /// groups. The version at which its value last changed is kept if an equal value was there, and is the present one
    /// otherwise. No other record changes. If the value and the groups are those of the present files, a consistent
    /// graph stays consistent. Returns `Memory` if an allocation fails; the graph is then unchanged.
    pub fn record(
        &mut self,
        key: Key,
        value: Arc<Value>,
        groups: Vec<Vec<Key>>,
    ) -> Result<(), Memory>
        requires { HasReadyMembers (record_at self.old) key (items_of groups.items) }
        ensures version { self.new.version ≡ self.old.version }
        ensures recorded { OnOk result (Sets (record_at self.old) (record_at self.new) key
            (settled_record (record_at self.old key) (arc_value value) (items_of groups.items)
            self.old.version)) }
        ensures lawful { OnOk result (SettlingKeepsLawful self.old self.new key (arc_value value)
            (items_of groups.items)) }
        ensures refused { OnErr result (self.new ≡ self.old) }
    {
        let version = self.version;
        store(self.alloc, &mut self.records, &key, value, groups, version)?;
        Ok(())
    }

    /// Stores the records of several keys that were settled together at the present version, as `record` does for each,
    /// all or none. The members of a cycle are in one another's groups, so that none of them can be recorded first.
    /// Returns `Memory` if an allocation fails; the graph is then unchanged.
    pub fn record_all(&mut self, entries: Vec<Entry>) -> Result<(), Memory>
        requires differ { AllDiffer (keys_of entries.items) }
        requires ready { HasReadyEntries (record_at self.old) entries.items }
        ensures version { self.new.version ≡ self.old.version }
        ensures recorded { OnOk result
            (SetsAll (record_at self.old) (record_at self.new) entries.items self.old.version) }
        ensures lawful { OnOk result (BatchKeepsLawful self.old self.new entries.items) }
        ensures refused { OnErr result (self.new ≡ self.old) }
    {
        store_all(self.alloc, &mut self.records, entries, self.version)?;
        Ok(())
    }

    /// Settles a key's record at the present version: writes that version into it and clears its dirty flag. Nothing
    /// else changes, and nothing is allocated.
    pub fn confirm(&mut self, key: &Key)
        requires recorded { IsSome (record_at self.old key.now) }
        requires members { HasCleanMembers (record_at self.old) key.now }
        ensures version { self.new.version ≡ self.old.version }
        ensures confirmed { (r : Record Key Value) → record_at self.old key.now ≡ Some r
            → Sets (record_at self.old) (record_at self.new) key.now
            (record r { settled_at = self.old.version; dirty = false }) }
        ensures lawful { (r : Record Key Value) → record_at self.old key.now ≡ Some r
            → SettlingKeepsLawful self.old self.new key.now r.value r.groups }
    {
        settle(&mut self.records, key, self.version);
    }
}
