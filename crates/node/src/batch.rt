//! Records that are stored together, all or none.
ghost use Rattle.std.specs.Prelude.{◌≡◌, length, IfOk, OnOk, OnErr};
ghost use Rattle.node_table.specs.Tables.{AreDistinct};
ghost use Rattle.engine_semantics.specs.Value.{AllDiffer};
ghost use Rattle.std.specs.Arc.{arc_value};
ghost use Rattle.std.specs.Map.{keys_of as keys_of_records};
ghost use Rattle.node.specs.Records.{Records, numbers_of, users_of, AreNumbers, AsksNumbers, KeepsRecords};
ghost use Rattle.node.specs.Edges.{SameUsers};
ghost use Rattle.node.specs.Graphs.{IsLinkedBy, records_of};
ghost use Rattle.node.specs.Batches.{entry_groups, keys_of, HasReadyEntries, SetsAll, HasPlacedSome, IsThere, HasPlacedAll, AreRecorded, HaveMembers, AreUsers, HasFewer, HasLinkedEntries, HasLinkedEach, HasCutAll, HasReadyFlat, flats_in};
ghost use Rattle.node.specs.Changes.{KeepsRecordsBut, SetsSettled, Relinks, IsToBeWritten, AreToBeWritten, WritesAll};
ghost use Rattle.node.specs.declared.entry.Entry.{Entry};

use crate::edges::{drop_edges, drop_edges_to, link_groups, members_with};
use crate::entry::Entry;
use crate::records::Records;
use crate::settling::{kept_members, place, write};
use base_types::Memory;
use keys::Key;
use node_table::NodeIdGroups;
use std::alloc::Global;

// Places a record without groups and reverse dependencies at the key of an entry, if the key has none.
fn place_entry(
    alloc: Global,
    records: &mut Records,
    entry: &Entry,
    version: u32,
) -> Result<(), Memory>
    requires distinct { AreDistinct records.old }
    requires asks { AsksNumbers records.old }
    ensures some { (original : Records) → HasPlacedSome original records.old
        → HasPlacedSome original records.new }
    ensures there { OnOk result (IsThere (records_of records.old) (records_of records.new) entry.now
        version) }
    ensures others { KeepsRecordsBut entry.now.key records.old records.new }
    ensures asks { AsksNumbers records.new }
    ensures lists { SameUsers (numbers_of records.old) (numbers_of records.new) }
    ensures ordered { AreDistinct records.new }
{
    if records.contains_key(&entry.key) {
        return Ok(());
    }
    place(alloc, records, &entry.key, &entry.value, version)?;
    Ok(())
}

// Places a record without groups and reverse dependencies at the key of each entry, if the key has none.
fn place_all(
    alloc: Global,
    records: &mut Records,
    entries: &[Entry],
    version: u32,
) -> Result<(), Memory>
    requires ordered { AreDistinct records.old }
    requires asks { AsksNumbers records.old }
    requires differ { AllDiffer (keys_of entries.now) }
    ensures some { HasPlacedSome records.old records.new }
    ensures all { OnOk result (HasPlacedAll (records_of records.old) (records_of records.new)
        entries.now version) }
    ensures asks { AsksNumbers records.new }
    ensures lists { SameUsers (numbers_of records.old) (numbers_of records.new) }
    ensures ordered { AreDistinct records.new }
{
    for entry in entries {
        place_entry(alloc, records, entry, version)?;
    }
    Ok(())
}

// Removes all records but the first ones, whose number is `first`.
fn remove_all(records: &mut Records, first: usize)
    ensures { (original : Records) → HasPlacedSome original records.old → first ≡ length original
        → records.new ≡ original }
{
    while records.len() > first {
        drop(records.pop());
    }
}

// Returns the groups of each entry, by the numbers of their members.
fn flats_of(
    alloc: Global,
    records: &Records,
    entries: &[Entry],
) -> Result<Vec<NodeIdGroups>, Memory>
    requires { HaveMembers (records_of records.now) entries.now }
    ensures { IfOk result (λ flats. flats.items ≡ flats_in records.now entries.now) }
{
    let mut flats = Vec::with_capacity(alloc, entries.len())?;
    for entry in entries {
        flats.push(NodeIdGroups::of(alloc, records, entry.groups.as_slice())?)?;
    }
    Ok(flats)
}

// Makes each entry's key a reverse dependency of the members of its groups.
fn link_all(alloc: Global, records: &mut Records, entries: &[Entry]) -> Result<(), Memory>
    requires there { AreRecorded (records_of records.old) entries.now }
    requires members { HaveMembers (records_of records.old) entries.now }
    requires users { AreUsers (records_of records.old) (users_of records.old) entries.now }
    requires numbers { AreNumbers records.old (numbers_of records.old) }
    requires asks { AsksNumbers records.old }
    ensures some { HasLinkedEntries (users_of records.old) (users_of records.new) entries.now }
    ensures all { OnOk result (HasLinkedEach (users_of records.new) entries.now) }
    ensures numbers { AreNumbers records.new (numbers_of records.new) }
    ensures same { KeepsRecords records.old records.new }
{
    for entry in entries {
        let user = records.id_of(&entry.key).unwrap();
        let linked = members_with(alloc, records, kept_members(records, user))?;
        link_groups(records, entry.groups.as_slice(), &linked, user)?;
    }
    Ok(())
}

// Removes each entry's key from the reverse dependencies of its groups' members, but not of those in the groups of its
// record.
fn cut_all(records: &mut Records, entries: &[Entry])
    requires there { AreRecorded (records_of records.old) entries.now }
    requires asks { AsksNumbers records.old }
    ensures cut { HasCutAll (records_of records.old) (users_of records.old) (users_of records.new)
        entries.now }
    ensures fewer { HasFewer (numbers_of records.old) (numbers_of records.new) }
    ensures same { KeepsRecords records.old records.new }
{
    for entry in entries {
        let user = records.id_of(&entry.key).unwrap();
        drop_edges(records, entry.groups.as_slice(), user);
    }
}

// Writes an entry into its key's record, and removes the edges to members that are no longer in its groups.
fn write_entry(records: &mut Records, entry: Entry, flat: NodeIdGroups, version: u32)
    requires asks { AsksNumbers records.old }
    requires members { HasReadyFlat records.old entry flat }
    requires ready { IsToBeWritten records.old entry }
    ensures sets { SetsSettled records.old records.new entry.key (arc_value entry.value)
        (entry_groups entry) version }
    ensures users { Relinks records.old records.new entry.key (entry_groups entry) }
    ensures fewer { HasFewer (numbers_of records.old) (numbers_of records.new) }
    ensures keys { keys_of_records records.new ≡ keys_of_records records.old }
    ensures asks { AsksNumbers records.new }
{
    let Entry {
        key,
        value,
        groups: _,
    } = entry;
    let user = records.id_of(&key).unwrap();
    let old = write(records, user, value, flat, version);
    drop_edges_to(records, old.members(), user);
}

// Writes the entries into their keys' records.
fn write_all(
    records: &mut Records,
    mut entries: Vec<Entry>,
    mut flats: Vec<NodeIdGroups>,
    version: u32,
)
    requires distinct { AreDistinct records.old }
    requires asks { AsksNumbers records.old }
    requires members { HaveMembers (records_of records.old) entries.items }
    requires flats { flats.items ≡ flats_in records.old entries.items }
    requires differ { AllDiffer (keys_of entries.items) }
    requires ready { AreToBeWritten records.old entries.items }
    ensures written { WritesAll records.old records.new entries.items version }
    ensures fewer { HasFewer (numbers_of records.old) (numbers_of records.new) }
    ensures keys { keys_of_records records.new ≡ keys_of_records records.old }
    ensures asks { AsksNumbers records.new }
{
    while let Some(entry) = entries.pop() {
        if let Some(flat) = flats.pop() {
            write_entry(records, entry, flat, version);
        }
    }
}

/// Stores the records of the entries, and the reverse edges with them. Returns `Memory` if an allocation fails; the
/// records are then as before.
pub fn store_all(
    alloc: Global,
    records: &mut Records,
    entries: Vec<Entry>,
    version: u32,
) -> Result<(), Memory>
    requires linked { IsLinkedBy records.old }
    requires differ { AllDiffer (keys_of entries.items) }
    requires ready { HasReadyEntries (records_of records.old) entries.items }
    ensures ok { OnOk result (SetsAll (records_of records.old) (records_of records.new)
        entries.items version) }
    ensures err { OnErr result (KeepsRecords records.old records.new) }
    ensures linked { IsLinkedBy records.new }
{
    let first = records.len();
    if let Err(error) = place_all(alloc, records, entries.as_slice(), version) {
        remove_all(records, first);
        return Err(error);
    }
    let flats = match flats_of(alloc, records, entries.as_slice()) {
        Ok(flats) => flats,
        Err(error) => {
            remove_all(records, first);
            return Err(error);
        }
    };
    if let Err(error) = link_all(alloc, records, entries.as_slice()) {
        cut_all(records, entries.as_slice());
        remove_all(records, first);
        return Err(error);
    }
    write_all(records, entries, flats, version);
    Ok(())
}
