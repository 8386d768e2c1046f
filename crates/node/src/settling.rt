//! Records written in place.
ghost use Rattle.std.specs.Prelude.{◌≡◌, ◌<◌, Some, None, false, length, IfOk, OnOk, OnErr, if◌then◌else◌};
ghost use Rattle.std.specs.Arc.{arc_value};
ghost use Rattle.std.specs.Map.{keys_of};
ghost use Rattle.node_table.specs.Tables.{AreDistinct, Writes, key_at, number_of};
ghost use Rattle.keys.specs.Values.{value_eq};
ghost use Rattle.keys.specs.declared.key.Key.{Key};
ghost use Rattle.node.specs.Records.{kept_at, items_of, numbers_of, AreNumbers, AsksNumbers, KeepsRecords, asked_of};
ghost use Rattle.node.specs.Writes.{record_after_write, settled_record, HasPlaced, HasReadyMembers};
ghost use Rattle.node.specs.Graphs.{IsLinkedBy, Sets, records_of};
ghost use Rattle.node.specs.Changes.{KeepsRecordsAndUsers, HasMemberRecords, SetsSettled, Relinks};
ghost use Rattle.node.specs.declared.records.NodeRecord.{NodeRecord};

use crate::edges::{drop_edges_except, drop_edges_to, link_members, members_beside, members_with};
use crate::records::{NodeRecord, Records};
use base_types::Memory;
use keys::{Key, Value};
use node_table::{NodeId, NodeIdGroups, NodeIdList};
use std::alloc::Global;
use std::mem;
use std::sync::Arc;

/// Writes a version into a record, and clears its dirty flag.
pub fn settle(records: &mut Records, key: &Key, version: u32)
    ensures updates { (e : NodeRecord) → kept_at records.old key.now ≡ Some e
        → Writes records.old records.new key.now
        (record e { settled_at = version; dirty = false }) }
{
    if let Some(found) = records.get_mut(key) {
        found.settled_at = version;
        found.dirty = false;
    }
}

// Returns when a record's value last changed, if it gets this value now. A value that changed at the version is not
// compared.
fn changed_at(kept: &NodeRecord, value: &Value, version: u32) -> u32
    ensures { result ≡ (if value_eq (arc_value kept.now.value) value.now then kept.now.changed_at
        else version) }
{
    if kept.changed_at == version || *kept.value == *value {
        kept.changed_at
    } else {
        version
    }
}

/// Writes a value and groups into the record with a number, which is settled at the version, and returns the old
/// groups.
pub fn write(
    records: &mut Records,
    number: NodeId,
    value: Arc<Value>,
    groups: NodeIdGroups,
    version: u32,
) -> NodeIdGroups
    requires within { number < length records.old }
    requires distinct { AreDistinct records.old }
    ensures updates { (k : Key) (e : NodeRecord) → key_at records.old number ≡ Some k
        → kept_at records.old k ≡ Some e
        → Writes records.old records.new k (record_after_write e value groups version) }
    ensures groups { (k : Key) (e : NodeRecord) → key_at records.old number ≡ Some k
        → kept_at records.old k ≡ Some e → result ≡ e.groups }
{
    let kept = records.value_mut(number);
    kept.changed_at = changed_at(kept, &value, version);
    kept.value = value;
    kept.settled_at = version;
    kept.dirty = false;
    mem::replace(&mut kept.groups, groups)
}

/// Returns the members of the groups of the record with a number.
pub fn kept_members(records: &Records, number: NodeId) -> &[NodeId]
    requires within { number < length records.now }
    requires distinct { AreDistinct records.now }
    ensures { (k : Key) → key_at records.now number ≡ Some k
        → result.now ≡ asked_of (kept_at records.now k) }
{
    records.value_at(number).groups.members()
}

/// Places a record without groups and reverse dependencies at a key that has none. Returns its number.
pub fn place(
    alloc: Global,
    records: &mut Records,
    key: &Key,
    value: &Arc<Value>,
    version: u32,
) -> Result<NodeId, Memory>
    requires ordered { AreDistinct records.old }
    requires none { kept_at records.old key.now ≡ None }
    ensures ok { OnOk result (HasPlaced records.old records.new key.now (arc_value value.now)
        version) }
    ensures number { IfOk result (λ n. n ≡ length records.old) }
    ensures err { OnErr result (records.new ≡ records.old) }
    ensures ordered { AreDistinct records.new }
{
    let kept = NodeRecord {
        value: Arc::try_clone(value)?,
        groups: NodeIdGroups::new(),
        users: NodeIdList::new(alloc),
        settled_at: version,
        changed_at: version,
        dirty: false,
    };
    let number = records.push(key.share()?, kept)?;
    Ok(number)
}

/// Writes a value and groups into the record with a number, which is that of a key, and the reverse edges with it.
/// Returns `Memory` if an allocation fails. Then no record has changed, and each key has the reverse dependencies that
/// it had.
pub fn rewrite(
    alloc: Global,
    records: &mut Records,
    key: &Key,
    user: NodeId,
    value: Arc<Value>,
    groups: Vec<Vec<Key>>,
    version: u32,
) -> Result<(), Memory>
    requires numbered { number_of records.old key.now ≡ Some user }
    requires linked { IsLinkedBy records.old }
    requires members { HasMemberRecords records.old (items_of groups.items) }
    ensures ok { OnOk result (SetsSettled records.old records.new key.now (arc_value value)
        (items_of groups.items) version) }
    ensures users { OnOk result (Relinks records.old records.new key.now (items_of groups.items)) }
    ensures err { OnErr result (KeepsRecordsAndUsers records.old records.new) }
    ensures keys { keys_of records.new ≡ keys_of records.old }
    ensures numbers { AreNumbers records.new (numbers_of records.new) }
    ensures asks { AsksNumbers records.new }
{
    let keep = members_beside(alloc, kept_members(records, user), groups.as_slice())?;
    let linked = members_with(alloc, records, kept_members(records, user))?;
    let flat = NodeIdGroups::of(alloc, records, groups.as_slice())?;
    if let Err(error) = link_members(records, flat.members(), &linked, user) {
        drop_edges_to(records, flat.members(), user);
        return Err(error);
    }
    let old = write(records, user, value, flat, version);
    drop_edges_except(records, old.members(), keep, user);
    Ok(())
}

/// Stores a record of a key, and the reverse edges with it. Returns `Memory` if an allocation fails; the records are
/// then as before.
pub fn store(
    alloc: Global,
    records: &mut Records,
    key: &Key,
    value: Arc<Value>,
    groups: Vec<Vec<Key>>,
    version: u32,
) -> Result<(), Memory>
    requires linked { IsLinkedBy records.old }
    requires ready { HasReadyMembers (records_of records.old) key.now (items_of groups.items) }
    ensures ok { OnOk result (Sets (records_of records.old) (records_of records.new) key.now
        (settled_record (records_of records.old key.now) (arc_value value) (items_of groups.items)
        version)) }
    ensures err { OnErr result (KeepsRecords records.old records.new) }
    ensures linked { IsLinkedBy records.new }
{
    if let Some(user) = records.id_of(key) {
        rewrite(alloc, records, key, user, value, groups, version)?;
        return Ok(());
    }
    let user = place(alloc, records, key, &value, version)?;
    match rewrite(alloc, records, key, user, value, groups, version) {
        Ok(()) => Ok(()),
        Err(error) => {
            let _placed = records.pop();
            Err(error)
        }
    }
}
