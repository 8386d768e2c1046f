//! Reverse edges, from a key to those whose records have it in a group. They are in the key's own record.
ghost use Rattle.std.specs.Prelude.{◌≡◌, ◌<◌, All, [], length, OnOk, OnErr, IfOk, IfSome, IfNone, IsSome, IsTrue, Some, ◌↔◌};
ghost use Rattle.engine_semantics.specs.Value.{In, IsMember};
ghost use Rattle.std.specs.List.{list_any};
ghost use Rattle.node_table.specs.Tables.{AreDistinct, key_at};
ghost use Rattle.node_table.specs.Flats.{members_in};
ghost use Rattle.keys.specs.Keys.{key_eq};
ghost use Rattle.keys.specs.declared.key.Key.{Key};
ghost use Rattle.node.specs.Records.{items_of, numbers_of, AsksNumbers, KeepsRecords};
ghost use Rattle.node.specs.Writes.{groups_at};
ghost use Rattle.node.specs.Graphs.{records_of};
ghost use Rattle.node.specs.Edges.{IsAdded, HasLinked, HasUnlinked, SameUsers, HasLinkedSome, HasLinkedAll, HasCut, AddsMembers, AreMembers, among};

use crate::records::Records;
use base_types::Memory;
use keys::Key;
use node_table::NodeId;
use std::alloc::Global;
use std::collections::BTreeSet;

// Adds a key to a set.
fn add(set: &mut BTreeSet<Key>, key: Key) -> Result<(), Memory>
    ensures ok { OnOk result (IsAdded set.old.keys set.new.keys key) }
    ensures err { OnErr result (set.new.keys ≡ set.old.keys) }
{
    set.insert(key)?;
    Ok(())
}

// Returns whether a key is in a set.
fn has(set: &BTreeSet<Key>, key: &Key) -> bool
    ensures { IsTrue result ↔ In key.now set.now.keys }
{
    set.contains(key)
}

// Makes the record with a number a reverse dependency of the member, which has a record.
fn link(records: &mut Records, member: &Key, user: NodeId) -> Result<(), Memory>
    requires { IsSome (records_of records.old member.now) }
    ensures ok { OnOk result (HasLinked (numbers_of records.old) (numbers_of records.new) member.now
        user) }
    ensures err { OnErr result (SameUsers (numbers_of records.old) (numbers_of records.new)) }
    ensures same { KeepsRecords records.old records.new }
{
    if let Some(kept) = records.get_mut(member) {
        kept.users.push(user)?;
    }
    Ok(())
}

// Removes the record with a number from the reverse dependencies of the member.
fn unlink(records: &mut Records, member: &Key, user: NodeId)
    ensures users { HasUnlinked (numbers_of records.old) (numbers_of records.new) member.now user }
    ensures same { KeepsRecords records.old records.new }
{
    if let Some(kept) = records.get_mut(member) {
        kept.users.remove(user);
    }
}

// Makes the record with a number a reverse dependency of each member of a group. It already is one of those in the set.
fn link_group(
    records: &mut Records,
    group: &[Key],
    linked: &BTreeSet<Key>,
    user: NodeId,
) -> Result<(), Memory>
    requires linked { (j : Key) → In j linked.now.keys → In user (numbers_of records.old j) }
    requires members { (j : Key) → In j group.now → IsSome (records_of records.old j) }
    ensures some { HasLinkedSome (numbers_of records.old) (numbers_of records.new) user
        (λ j. In j group.now) }
    ensures all { OnOk result (HasLinkedAll (numbers_of records.new) user (λ j. In j group.now)) }
    ensures same { KeepsRecords records.old records.new }
{
    for member in group {
        if !has(linked, member) {
            link(records, member, user)?;
        }
    }
    Ok(())
}

/// Makes the record with a number a reverse dependency of each member of the groups. It already is one of those in the
/// set.
pub fn link_groups(
    records: &mut Records,
    groups: &[Vec<Key>],
    linked: &BTreeSet<Key>,
    user: NodeId,
) -> Result<(), Memory>
    requires linked { (j : Key) → In j linked.now.keys → In user (numbers_of records.old j) }
    requires members { (j : Key) → IsMember j (items_of groups.now) → IsSome (records_of records.old
        j) }
    ensures some { HasLinkedSome (numbers_of records.old) (numbers_of records.new) user
        (λ j. IsMember j (items_of groups.now)) }
    ensures all { OnOk result
        (HasLinkedAll (numbers_of records.new) user (λ j. IsMember j (items_of groups.now))) }
    ensures same { KeepsRecords records.old records.new }
{
    for group in groups {
        link_group(records, group.as_slice(), linked, user)?;
    }
    Ok(())
}

// Makes the record with a number a reverse dependency of the member with a number.
fn link_at(records: &mut Records, member: NodeId, user: NodeId) -> Result<(), Memory>
    requires within { member < length records.old }
    requires distinct { AreDistinct records.old }
    ensures ok { (k : Key) → key_at records.old member ≡ Some k → OnOk result
        (HasLinked (numbers_of records.old) (numbers_of records.new) k user) }
    ensures err { (k : Key) → key_at records.old member ≡ Some k → OnErr result
        (SameUsers (numbers_of records.old) (numbers_of records.new)) }
    ensures same { KeepsRecords records.old records.new }
{
    records.value_mut(member).users.push(user)?;
    Ok(())
}

/// Makes the record with a number a reverse dependency of each of these members. It already is one of those in the set.
pub fn link_members(
    records: &mut Records,
    members: &[NodeId],
    linked: &BTreeSet<Key>,
    user: NodeId,
) -> Result<(), Memory>
    requires numbers { All (λ n. n < length records.old) members.now }
    requires distinct { AreDistinct records.old }
    requires linked { (j : Key) → In j linked.now.keys → In user (numbers_of records.old j) }
    ensures some { HasLinkedSome (numbers_of records.old) (numbers_of records.new) user
        (λ j. In j (members_in records.old members.now)) }
    ensures all { OnOk result (HasLinkedAll (numbers_of records.new) user
        (λ j. In j (members_in records.old members.now))) }
    ensures same { KeepsRecords records.old records.new }
{
    for member in members {
        if !has(linked, records.key_at(*member)) {
            link_at(records, *member, user)?;
        }
    }
    Ok(())
}

// Returns whether the member is the key of one of these numbers.
fn is_named(records: &Records, numbers: &[NodeId], member: &Key) -> bool
    requires { All (λ n. n < length records.now) numbers.now }
    ensures { result ≡ list_any (λ k. key_eq k member.now) (members_in records.now numbers.now) }
{
    for number in numbers {
        if records.key_at(*number) == member {
            return true;
        }
    }
    false
}

// Returns whether the record with a number has the member in a group.
fn asks(records: &Records, user: NodeId, member: &Key) -> bool
    requires within { user < length records.now }
    requires distinct { AreDistinct records.now }
    requires members { AsksNumbers records.now }
    ensures { (k : Key) → key_at records.now user ≡ Some k
        → result ≡ among (groups_at (records_of records.now k)) member.now }
{
    is_named(records, records.value_at(user).groups.members(), member)
}

// Removes the record with a number from the reverse dependencies of a group's members, but not of those that it has in
// a group itself.
fn cut_group(records: &mut Records, group: &[Key], user: NodeId)
    requires within { user < length records.old }
    requires distinct { AreDistinct records.old }
    requires members { AsksNumbers records.old }
    ensures cut { (k : Key) → key_at records.old user ≡ Some k → HasCut (numbers_of records.old)
        (numbers_of records.new) user (λ j. In j group.now)
        (λ j. IsMember j (groups_at (records_of records.old k))) }
    ensures same { KeepsRecords records.old records.new }
{
    for member in group {
        if !asks(records, user, member) {
            unlink(records, member, user);
        }
    }
}

/// Removes the record with a number from the reverse dependencies of the groups' members, but not of those that it has
/// in a group itself.
pub fn drop_edges(records: &mut Records, groups: &[Vec<Key>], user: NodeId)
    requires within { user < length records.old }
    requires distinct { AreDistinct records.old }
    requires members { AsksNumbers records.old }
    ensures cut { (k : Key) → key_at records.old user ≡ Some k → HasCut (numbers_of records.old)
        (numbers_of records.new) user (λ j. IsMember j (items_of groups.now))
        (λ j. IsMember j (groups_at (records_of records.old k))) }
    ensures same { KeepsRecords records.old records.new }
{
    for group in groups {
        cut_group(records, group.as_slice(), user);
    }
}

// Adds the members of a group to a set.
fn add_members(set: &mut BTreeSet<Key>, group: &[Key]) -> Result<(), Memory>
    ensures { OnOk result (AddsMembers set.old.keys set.new.keys group.now) }
{
    for member in group {
        add(set, member.share()?)?;
    }
    Ok(())
}

/// Returns the members of the groups.
pub fn members_of(alloc: Global, groups: &[Vec<Key>]) -> Result<BTreeSet<Key>, Memory>
    ensures { IfOk result (λ set. AreMembers set.keys (items_of groups.now)) }
{
    let mut set = BTreeSet::new(alloc);
    for group in groups {
        add_members(&mut set, group.as_slice())?;
    }
    Ok(set)
}

/// Returns the keys with these numbers.
pub fn members_with(
    alloc: Global,
    records: &Records,
    numbers: &[NodeId],
) -> Result<BTreeSet<Key>, Memory>
    requires { All (λ n. n < length records.now) numbers.now }
    ensures { IfOk result
        (λ set. (j : Key) → In j set.keys ↔ In j (members_in records.now numbers.now)) }
{
    let mut set = BTreeSet::new(alloc);
    for number in numbers {
        add(&mut set, records.key_at(*number).share()?)?;
    }
    Ok(set)
}

/// Returns the members of the new groups, if there are old members.
pub fn members_beside(
    alloc: Global,
    old: &[NodeId],
    new: &[Vec<Key>],
) -> Result<Option<BTreeSet<Key>>, Memory>
    ensures some { IfOk result
        (λ found. IfSome found (λ set. AreMembers set.keys (items_of new.now))) }
    ensures none { IfOk result (λ found. IfNone found (old.now ≡ [])) }
{
    if old.is_empty() {
        return Ok(None);
    }
    Ok(Some(members_of(alloc, new)?))
}

// Removes the record with a number from the reverse dependencies of the member with a number.
fn unlink_at(records: &mut Records, member: NodeId, user: NodeId)
    requires within { member < length records.old }
    requires distinct { AreDistinct records.old }
    ensures users { (k : Key) → key_at records.old member ≡ Some k
        → HasUnlinked (numbers_of records.old) (numbers_of records.new) k user }
    ensures same { KeepsRecords records.old records.new }
{
    records.value_mut(member).users.remove(user);
}

/// Removes the record with a number from the reverse dependencies of these members, but not of those that it has in a
/// group itself.
pub fn drop_edges_to(records: &mut Records, members: &[NodeId], user: NodeId)
    requires within { user < length records.old }
    requires numbers { All (λ n. n < length records.old) members.now }
    requires distinct { AreDistinct records.old }
    requires members { AsksNumbers records.old }
    ensures cut { (k : Key) → key_at records.old user ≡ Some k → HasCut (numbers_of records.old)
        (numbers_of records.new) user (λ j. In j (members_in records.old members.now))
        (λ j. IsMember j (groups_at (records_of records.old k))) }
    ensures same { KeepsRecords records.old records.new }
{
    for member in members {
        if !asks(records, user, records.key_at(*member)) {
            unlink_at(records, *member, user);
        }
    }
}

// Removes the record with a number from the reverse dependencies of these members, but not of those in the set.
fn cut_others(records: &mut Records, members: &[NodeId], keep: &BTreeSet<Key>, user: NodeId)
    requires numbers { All (λ n. n < length records.old) members.now }
    requires distinct { AreDistinct records.old }
    ensures cut { HasCut (numbers_of records.old) (numbers_of records.new) user
        (λ j. In j (members_in records.old members.now)) (λ j. In j keep.now.keys) }
    ensures same { KeepsRecords records.old records.new }
{
    for member in members {
        if !has(keep, records.key_at(*member)) {
            unlink_at(records, *member, user);
        }
    }
}

/// Removes the record with a number from the reverse dependencies of these members, but not of those in the set.
/// Without a set nothing is removed.
pub fn drop_edges_except(
    records: &mut Records,
    members: &[NodeId],
    keep: Option<BTreeSet<Key>>,
    user: NodeId,
)
    requires numbers { All (λ n. n < length records.old) members.now }
    requires distinct { AreDistinct records.old }
    ensures some { IfSome keep (λ set. HasCut (numbers_of records.old) (numbers_of records.new) user
        (λ j. In j (members_in records.old members.now)) (λ j. In j set.keys)) }
    ensures none { IfNone keep (numbers_of records.new ≡ numbers_of records.old) }
    ensures same { KeepsRecords records.old records.new }
{
    match keep {
        None => {}
        Some(set) => cut_others(records, members, &set, user),
    }
}
