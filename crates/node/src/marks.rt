//! Dirty flags: the leaves that edits touch, and how records are marked dirty from them along reverse edges.
ghost use Rattle.std.specs.Prelude.{◌≡◌, ◌+◌, ◌<◌, ◌≤◌, [], Some, None, true, false, All, IfOk, OnOk, OnErr, length, vec_len, map, reverse};
ghost use Rattle.std.specs.Map.{keys_of};
ghost use Rattle.labels.specs.Labels.{ancestors};
ghost use Rattle.node_table.specs.Tables.{AreDistinct, Writes, key_at};
ghost use Rattle.node_table.specs.Flats.{members_in};
ghost use Rattle.keys.specs.declared.key.Key.{Key};
ghost use Rattle.keys.specs.EditLeaves.{leaves_of, touched_leaves};
ghost use Rattle.keys.specs.declared.key.Key.TheVariants as kind;
ghost use Rattle.node.specs.Records.{Records, AreNumbers, kept_at, numbers_of, numbers_with, users_of, cleans, cost};
ghost use Rattle.node.specs.Marks.{HasReached, HasReachedAll, HasReachedSome, HasSpread, HasPassed, Lists, Marked, SetsMarks};
ghost use Rattle.node.specs.declared.records.NodeRecord.{NodeRecord};
ghost use Rattle.node.specs.Graphs.{paths_seen};
ghost use Rattle.node.specs.Changes.{users_with};

use crate::records::Records;
use base_types::{Memory, Text};
use keys::Key;
use node_table::NodeId;
use std::alloc::Global;

// Returns the listings of the directories that the path lies below, except the root, the longest name first.
fn listings_above(alloc: Global, path: &str) -> Result<Vec<Key>, Memory>
    ensures { IfOk result (λ ks. reverse ks.items ≡ map kind.Listing (ancestors path.now)) }
{
    let mut listings = Vec::new(alloc);
    let mut rest = path;
    while let Some((directory, _)) = rest.rsplit_once('/') {
        listings.push(Key::Listing(Text::new(alloc, directory)?))?;
        rest = directory;
    }
    Ok(listings)
}

// Returns the leaves that an edit of the path touches: its file, and the listing of each directory that it lies below.
fn touched_by(alloc: Global, path: &str) -> Result<Vec<Key>, Memory>
    ensures { IfOk result (λ ks. ks.items ≡ leaves_of path.now) }
{
    let mut leaves = listings_above(alloc, path)?;
    leaves.push(Key::Listing(Text::new(alloc, "")?))?;
    leaves.push(Key::File(Text::new(alloc, path)?))?;
    leaves.reverse();
    Ok(leaves)
}

/// Returns the leaves that edits of these paths touch.
pub fn touched_leaves(alloc: Global, paths: &[&str]) -> Result<Vec<Key>, Memory>
    ensures { IfOk result (λ ks. ks.items ≡ touched_leaves (paths_seen paths.now)) }
{
    let mut all = Vec::new(alloc);
    for path in paths {
        all.append(&mut touched_by(alloc, path)?)?;
    }
    Ok(all)
}

// Sets or clears the dirty flag of the record with a number.
fn set_at(records: &mut Records, number: NodeId, dirty: bool)
    requires within { number < length records.old }
    requires distinct { AreDistinct records.old }
    ensures updates { (k : Key) (e : NodeRecord) → key_at records.old number ≡ Some k
        → kept_at records.old k ≡ Some e → Writes records.old records.new k
        (record e { dirty = dirty }) }
    ensures work { (k : Key) (e : NodeRecord) → key_at records.old number ≡ Some k
        → kept_at records.old k ≡ Some e → cleans records.new + cost e ≡ cleans records.old + cost
        (record e { dirty = dirty }) }
    ensures keys { keys_of records.new ≡ keys_of records.old }
{
    records.value_mut(number).dirty = dirty;
}

// Sets or clears the dirty flag of a key's record, if it has one.
fn set_dirty(records: &mut Records, key: &Key, dirty: bool)
    ensures updates { (e : NodeRecord) → kept_at records.old key.now ≡ Some e
        → Writes records.old records.new key.now (record e { dirty = dirty }) }
    ensures absent { kept_at records.old key.now ≡ None → records.new ≡ records.old }
    ensures keys { keys_of records.new ≡ keys_of records.old }
{
    if let Some(kept) = records.get_mut(key) {
        kept.dirty = dirty;
    }
}

// Marks the record with a number dirty if it is not, and lists the number.
fn dirty_if_clean(
    records: &mut Records,
    marked: &mut Vec<NodeId>,
    number: NodeId,
) -> Result<(), Memory>
    requires within { number < length records.old }
    requires distinct { AreDistinct records.old }
    ensures ok { OnOk result ((k : Key) → key_at records.old number ≡ Some k
        → HasReached records.old records.new (members_in records.old marked.old.items)
        (members_in records.new marked.new.items) k) }
    ensures err { OnErr result
        ((records.new ≡ records.old) × (marked.new.items ≡ marked.old.items)) }
    ensures work { cleans records.new + vec_len marked.new ≤ cleans records.old
        + vec_len marked.old }
    ensures lists { Lists records.old marked.old.items marked.new.items }
{
    if records.value_at(number).dirty {
        return Ok(());
    }
    marked.push(number)?;
    set_at(records, number, true);
    Ok(())
}

// Marks a leaf's record dirty if it has one that is not, and lists its number.
fn dirty_leaf(records: &mut Records, marked: &mut Vec<NodeId>, leaf: &Key) -> Result<(), Memory>
    ensures ok { OnOk result
        (HasReached records.old records.new (members_in records.old marked.old.items)
        (members_in records.new marked.new.items) leaf.now) }
    ensures err { OnErr result
        ((records.new ≡ records.old) × (marked.new.items ≡ marked.old.items)) }
    ensures lists { Lists records.old marked.old.items marked.new.items }
{
    let Some(number) = records.id_of(leaf) else {
        return Ok(());
    };
    dirty_if_clean(records, marked, number)?;
    Ok(())
}

// Marks the records of the leaves dirty, and lists their numbers.
fn dirty_leaves(
    records: &mut Records,
    marked: &mut Vec<NodeId>,
    leaves: &[Key],
) -> Result<(), Memory>
    ensures some { HasReachedSome records.old records.new (members_in records.old marked.old.items)
        (members_in records.new marked.new.items) leaves.now }
    ensures all { OnOk result (HasReachedAll records.new leaves.now) }
    ensures lists { Lists records.old marked.old.items marked.new.items }
{
    for leaf in leaves {
        dirty_leaf(records, marked, leaf)?;
    }
    Ok(())
}

// Returns the reverse dependencies of the key with a number.
fn rdeps_with(records: &Records, number: NodeId) -> &[NodeId]
    requires { number < length records.now }
    ensures { result.now ≡ numbers_with records.now number }
{
    records.value_at(number).users.as_slice()
}

// Marks the reverse dependencies of the key with a number dirty, and lists their numbers.
fn dirty_rdeps(
    records: &mut Records,
    marked: &mut Vec<NodeId>,
    number: NodeId,
) -> Result<(), Memory>
    requires within { number < length records.old }
    requires users { All (λ n. n < length records.old) (numbers_with records.old number) }
    requires distinct { AreDistinct records.old }
    ensures some { HasReachedSome records.old records.new (members_in records.old marked.old.items)
        (members_in records.new marked.new.items) (users_with records.old number) }
    ensures all { OnOk result (HasReachedAll records.new (users_with records.old number)) }
    ensures work { cleans records.new + vec_len marked.new ≤ cleans records.old
        + vec_len marked.old }
    ensures lists { Lists records.old marked.old.items marked.new.items }
{
    let count = rdeps_with(records, number).len();
    for at in 0..count {
        let user = rdeps_with(records, number)[at];
        dirty_if_clean(records, marked, user)?;
    }
    Ok(())
}

// Marks the records that are reached from the listed ones dirty, and lists their numbers too.
fn dirty_transitively(records: &mut Records, marked: &mut Vec<NodeId>) -> Result<(), Memory>
    requires within { All (λ n. n < length records.old) marked.old.items }
    requires distinct { AreDistinct records.old }
    requires numbers { AreNumbers records.old (numbers_of records.old) }
    ensures spread { HasSpread (users_of records.old) records.old records.new
        (members_in records.old marked.old.items) (members_in records.new marked.new.items) }
    ensures passed { OnOk result (HasPassed (users_of records.old) records.new
        (members_in records.new marked.new.items)) }
    ensures lists { Lists records.old marked.old.items marked.new.items }
{
    let mut at = 0;
    while at < marked.len() {
        let number = marked[at];
        dirty_rdeps(records, marked, number)?;
        at += 1;
    }
    Ok(())
}

/// Sets or clears the dirty flags of these keys' records.
pub fn set_all_dirty(records: &mut Records, keys: &[Key], dirty: bool)
    ensures sets { SetsMarks dirty records.old records.new keys.now }
    ensures keys { keys_of records.new ≡ keys_of records.old }
{
    for key in keys {
        set_dirty(records, key, dirty);
    }
}

/// Clears the dirty flags of the records with these numbers.
pub fn clear_all_dirty(records: &mut Records, numbers: &[NodeId])
    requires within { All (λ n. n < length records.old) numbers.now }
    requires distinct { AreDistinct records.old }
    ensures sets { SetsMarks false records.old records.new (members_in records.old numbers.now) }
    ensures keys { keys_of records.new ≡ keys_of records.old }
{
    for number in numbers {
        set_at(records, *number, false);
    }
}

/// Returns the keys with these numbers.
pub fn keys_with(alloc: Global, records: &Records, numbers: &[NodeId]) -> Result<Vec<Key>, Memory>
    requires { All (λ n. n < length records.now) numbers.now }
    ensures { IfOk result (λ keys. keys.items ≡ members_in records.now numbers.now) }
{
    let mut keys = Vec::with_capacity(alloc, numbers.len())?;
    for number in numbers {
        keys.push(records.key_at(*number).share()?)?;
    }
    Ok(keys)
}

/// Marks the records dirty that are reached from the leaves and not dirty yet, and lists their numbers.
pub fn mark_dirty_from(
    records: &mut Records,
    marked: &mut Vec<NodeId>,
    leaves: &[Key],
) -> Result<(), Memory>
    requires none { marked.old.items ≡ [] }
    requires distinct { AreDistinct records.old }
    requires numbers { AreNumbers records.old (numbers_of records.old) }
    ensures marked { Marked (users_of records.old) leaves.now records.old records.new
        (members_in records.new marked.new.items) }
    ensures keys { keys_of records.new ≡ keys_of records.old }
    ensures within { All (λ n. n < length records.new) marked.new.items }
    ensures passed { OnOk result (HasPassed (users_of records.old) records.new
        (members_in records.new marked.new.items)) }
    ensures begun { OnOk result (HasReachedAll records.new leaves.now) }
{
    dirty_leaves(records, marked, leaves)?;
    dirty_transitively(records, marked)?;
    Ok(())
}
