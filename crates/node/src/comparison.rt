//! Recorded groups, compared with what the records have now.
ghost use Rattle.std.specs.Prelude.{◌≡◌, ◌<◌, ◌+◌, All, IfOk, length, slice_get};
ghost use Rattle.node_table.specs.Tables.{AreDistinct};
ghost use Rattle.node_table.specs.Flats.{groups_in, members_in};
ghost use Rattle.node.specs.Comparisons.{any_changed, unsettled_members, ComparesGroup, ComparesNext};
ghost use Rattle.node.specs.Graphs.{records_of};

use crate::marks::keys_with;
use crate::records::{NodeRecord, Records};
use base_types::Memory;
use keys::Key;
use node_table::NodeId;
use std::alloc::Global;

/// How the check of a recorded node continues.
#[derive(Drop)]
pub enum Comparison {
    /// All its groups are settled without a change.
    Unchanged,
    /// These members of the next group are not settled.
    NeedsMembers(Vec<Key>),
    /// The next group is settled, and the value of a member has changed.
    Changed,
    /// The next group is settled without a change, and this many groups are then passed.
    NextGroup(usize),
}

// Returns the keys with these numbers whose records are dirty.
fn unsettled_with(alloc: Global, records: &Records, numbers: &[NodeId]) -> Result<Vec<Key>, Memory>
    requires within { All (λ n. n < length records.now) numbers.now }
    requires distinct { AreDistinct records.now }
    ensures { IfOk result (λ keys. keys.items ≡ unsettled_members (records_of records.now)
        (members_in records.now numbers.now)) }
{
    let mut missing = Vec::new(alloc);
    for number in numbers {
        if !records.value_at(*number).dirty {
            continue;
        }
        missing.push(records.key_at(*number).share()?)?;
    }
    Ok(missing)
}

// Returns whether the value of a record with one of these numbers has changed after a version.
fn any_changed_with(records: &Records, numbers: &[NodeId], since: u32) -> bool
    requires within { All (λ n. n < length records.now) numbers.now }
    requires distinct { AreDistinct records.now }
    ensures { result ≡ any_changed (records_of records.now) (members_in records.now numbers.now)
        since }
{
    for number in numbers {
        if since < records.value_at(*number).changed_at {
            return true;
        }
    }
    false
}

// Compares a group, by the numbers of its members, with what was recorded at a version. If it has not changed, `next`
// groups are passed.
fn compare_group(
    alloc: Global,
    records: &Records,
    numbers: &[NodeId],
    since: u32,
    next: usize,
) -> Result<Comparison, Memory>
    requires within { All (λ n. n < length records.now) numbers.now }
    requires distinct { AreDistinct records.now }
    ensures { IfOk result (ComparesGroup (records_of records.now) (members_in records.now
        numbers.now) since next) }
{
    let missing = unsettled_with(alloc, records, numbers)?;
    if !missing.is_empty() {
        return Ok(Comparison::NeedsMembers(missing));
    }
    if any_changed_with(records, numbers, since) {
        return Ok(Comparison::Changed);
    }
    Ok(Comparison::NextGroup(next))
}

/// Compares the group of a record that is next after those that were passed.
pub fn compare_next(
    alloc: Global,
    records: &Records,
    kept: &NodeRecord,
    passed: usize,
) -> Result<Comparison, Memory>
    requires within { All (All (λ n. n < length records.now)) kept.now.groups }
    requires distinct { AreDistinct records.now }
    ensures { IfOk result
        (ComparesNext (records_of records.now) (slice_get (groups_in records.now kept.now.groups)
        passed) kept.now.settled_at (passed + 1)) }
{
    if passed >= kept.groups.len() {
        return Ok(Comparison::Unchanged);
    }
    compare_group(
        alloc,
        records,
        kept.groups.group(passed),
        kept.settled_at,
        passed + 1,
    )
}
