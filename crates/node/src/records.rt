//! What a graph keeps.
use keys::{Key, Value};
use node_table::{NodeIdGroups, NodeIdList, Table};
use std::sync::Arc;

/// What is kept of a node that was settled. A contract sees all but the reverse dependencies, and the members of the
/// groups by their keys.
#[derive(Drop)]
pub struct NodeRecord {
    /// Its value.
    pub value: Arc<Value>,
    /// The groups that it asked for, by the numbers of their members' records.
    pub groups: NodeIdGroups,
    /// The numbers of the records that have its key in a group.
    pub users: NodeIdList,
    /// The version at which it was last settled.
    pub settled_at: u32,
    /// The version at which its value last changed.
    pub changed_at: u32,
    /// Whether an edit since then may have changed it.
    pub dirty: bool,
}

/// Records by key. A key's number is that of its record.
pub type Records = Table<NodeRecord>;
