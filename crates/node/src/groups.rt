//! The groups of a record, borrowed.
ghost use Rattle.std.specs.Prelude.{◌≡◌, ◌<◌, All, Some, length, slice_get};
ghost use Rattle.node_table.specs.Flats.{groups_in, members_in};

use crate::records::Records;
use keys::Key;
use node_table::{NodeId, NodeIdGroups};
use std::marker::Model;

/// The groups of a record, in the order in which they were asked for. They are borrowed: a member is read through the
/// number of its record. A contract sees the groups.
#[derive(Drop)]
pub struct Groups<'a> {
    records: &'a Records,
    groups: &'a NodeIdGroups,
}

impl<'a> Model for Groups<'a> {
    ghost use Rattle.std.specs.Prelude.{◌<◌, List, All, length};
    ghost use Rattle.keys.specs.declared.key.Key.{Key};
    ghost use Rattle.node_table.specs.Flats.{groups_in};

    ghost Value = { List (List Key) };

    ghost view = { λ g. groups_in g.records.now g.groups.now };

    ghost invariant = { λ g. All (All (λ n. n < length g.records.now)) g.groups.now };
}

impl<'a> Groups<'a> {
    // Makes the groups from groups of numbers of these records.
    pub(crate) fn new(records: &'a Records, groups: &'a NodeIdGroups) -> Groups<'a>
        requires { All (All (λ n. n < length records.now)) groups.now }
        ensures { result ≡ groups_in records.now groups.now }
    {
        Groups { records, groups }
    }

    /// Returns how many groups there are.
    pub fn len(&self) -> usize
        ensures { result ≡ length self.now }
    {
        self.groups.len()
    }

    /// Returns the group at a place, counted from 0.
    pub fn group(&self, i: usize) -> Group<'a>
        requires { i < length self.now }
        ensures { slice_get self.now i ≡ Some result }
    {
        Group {
            records: self.records,
            members: self.groups.group(i),
        }
    }
}

/// The members of a group of a record, in their order, borrowed as `Groups` are. A contract sees the members.
#[derive(Drop)]
pub struct Group<'a> {
    records: &'a Records,
    members: &'a [NodeId],
}

impl<'a> Model for Group<'a> {
    ghost use Rattle.std.specs.Prelude.{◌<◌, List, All, length};
    ghost use Rattle.keys.specs.declared.key.Key.{Key};
    ghost use Rattle.node_table.specs.Flats.{members_in};

    ghost Value = { List Key };

    ghost view = { λ g. members_in g.records.now g.members.now };

    ghost invariant = { λ g. All (λ n. n < length g.records.now) g.members.now };
}

impl<'a> Group<'a> {
    /// Returns how many members there are.
    pub fn len(&self) -> usize
        ensures { result ≡ length self.now }
    {
        self.members.len()
    }

    /// Returns the member at a place, counted from 0.
    pub fn member(&self, i: usize) -> &'a Key
        requires { i < length self.now }
        ensures { slice_get self.now i ≡ Some result.now }
    {
        match self.members.get(i) {
            None => unreachable!(),
            Some(number) => self.records.key_at(*number),
        }
    }
}
