//! How much is recorded.
ghost use Rattle.std.specs.Prelude.{◌≡◌, ◌<◌, IfSome, IfNone};
ghost use Rattle.node.specs.Counts.{kept_edges};

use crate::records::Records;

/// How many records and how many edges a graph has.
#[derive(Clone, Copy)]
pub struct Counts {
    /// The records, dirty or not.
    pub records: u64,
    /// The recorded edges: one for each member of the recorded groups. `None` if there are more than a `u64` can count.
    pub edges: Option<u64>,
}

/// Returns how many members the groups of all records have, or `None` if there are more than a `u64` can count.
pub fn edges(records: &Records) -> Option<u64>
    ensures some { IfSome result (λ n. n ≡ kept_edges records.now) }
    ensures none { IfNone result (u64.MAX < kept_edges records.now) }
{
    let mut count: u64 = 0;
    for kept in records.values() {
        let Some(sum) = count.checked_add(kept.groups.members().len() as u64) else {
            return None;
        };
        count = sum;
    }
    Some(count)
}
