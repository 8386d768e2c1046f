//! Groups of numbers, most of which are few.
ghost use Rattle.std.specs.Prelude.{◌≡◌, ◌<◌, [], Some, length, map, slice_get, IfSome, IfOk};
ghost use Rattle.std.specs.List.{concat};
ghost use Rattle.node_table.specs.Flats.{items_of, HaveNumbers, numbers_in, groups_in};
ghost use Rattle.node_table.specs.Groups.{groups_in_order};

use crate::flat::FlatGroups;
use crate::number::NodeId;
use crate::table::Table;
use base_types::Memory;
use keys::Key;
use std::alloc::Global;
use std::marker::Model;

// No group, a group of one or of two numbers, or any groups in memory of their own.
#[derive(Drop)]
enum Groups {
    Empty,
    One([NodeId; 1]),
    Two([NodeId; 2]),
    Many(Box<FlatGroups>),
}

/// Groups of numbers. One group of up to two numbers is in the value itself, so most groups take no memory of their
/// own. A contract sees the groups.
#[derive(Drop)]
pub struct NodeIdGroups {
    groups: Groups,
}

impl Model for NodeIdGroups {
    ghost use Rattle.std.specs.Prelude.{ℕ, List};
    ghost use Rattle.node_table.specs.Groups.{groups_in_order};

    ghost Value = { List (List ℕ) };

    ghost view = { λ g. groups_in_order g.groups };
}

// Returns the groups by the numbers of their members, or `None` if they need memory of their own.
fn small_groups<V>(table: &Table<V>, groups: &[Vec<Key>]) -> Option<Groups>
    requires { HaveNumbers table.now (items_of groups.now) }
    ensures { IfSome result
        (λ small. groups_in_order small ≡ map (numbers_in table.now) (items_of groups.now)) }
{
    match groups {
        [] => Some(Groups::Empty),
        [group] => match group.as_slice() {
            [member] => Some(Groups::One([table.id_of(member).unwrap()])),
            [first, second] => {
                let first = table.id_of(first).unwrap();
                Some(Groups::Two([first, table.id_of(second).unwrap()]))
            }
            _ => None,
        },
        _ => None,
    }
}

impl NodeIdGroups {
    /// Makes a list without groups.
    pub fn new() -> NodeIdGroups
        ensures { result ≡ [] }
    {
        NodeIdGroups {
            groups: Groups::Empty,
        }
    }

    /// Makes a list of these groups by the numbers of their members, which are in the table. Returns `Memory` if an
    /// allocation fails, or if there are more groups or members than 32 bits can count.
    pub fn of<V>(
        alloc: Global,
        table: &Table<V>,
        groups: &[Vec<Key>],
    ) -> Result<NodeIdGroups, Memory>
        requires { HaveNumbers table.now (items_of groups.now) }
        ensures numbers { IfOk result
            (λ made. made ≡ map (numbers_in table.now) (items_of groups.now)) }
        ensures keys { IfOk result (λ made. groups_in table.now made ≡ items_of groups.now) }
    {
        // `len` says that no key is in the table twice.
        let _keys = table.len();
        if let Some(groups) = small_groups(table, groups) {
            return Ok(NodeIdGroups { groups });
        }
        let flat = FlatGroups::of(alloc, table, groups)?;
        Ok(NodeIdGroups {
            groups: Groups::Many(Box::new(alloc, flat)?),
        })
    }

    /// Returns how many groups there are.
    pub fn len(&self) -> usize
        ensures { result ≡ length self.now }
    {
        match &self.groups {
            Groups::Empty => 0,
            Groups::One(_) => 1,
            Groups::Two(_) => 1,
            Groups::Many(flat) => flat.len(),
        }
    }

    /// Returns the members of all groups, in order.
    pub fn members(&self) -> &[NodeId]
        ensures { result.now ≡ concat self.now }
    {
        match &self.groups {
            Groups::Empty => &[],
            Groups::One(one) => one.as_slice(),
            Groups::Two(two) => two.as_slice(),
            Groups::Many(flat) => flat.members(),
        }
    }

    /// Returns the members of a group.
    pub fn group(&self, i: usize) -> &[NodeId]
        requires { i < length self.now }
        ensures { slice_get self.now i ≡ Some result.now }
    {
        match &self.groups {
            Groups::Empty => &[],
            Groups::One(one) => one.as_slice(),
            Groups::Two(two) => two.as_slice(),
            Groups::Many(flat) => flat.group(i),
        }
    }
}
