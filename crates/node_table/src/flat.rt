//! Groups of numbers in one list.
ghost use Rattle.std.specs.Prelude.{◌≡◌, ◌<◌, ◌+◌, ◌++◌, [], Some, length, map, slice_get, All, IfOk, OnOk};
ghost use Rattle.std.specs.List.{concat};
ghost use Rattle.node_table.specs.Flats.{items_of, HasNumber, HaveNumbers, numbers_in, ends, start, sizes};

use crate::number::NodeId;
use crate::table::Table;
use base_types::Memory;
use keys::Key;
use std::alloc::Global;
use std::marker::Model;

/// Groups of numbers, in one list: how many groups there are, where each ends among the members, and the members. A
/// contract sees the groups.
#[derive(Drop)]
pub struct FlatGroups {
    words: Vec<NodeId>,
}

impl Model for FlatGroups {
    ghost use Rattle.std.specs.Prelude.{◌≡◌, ℕ, List};
    ghost use Rattle.node_table.specs.Flats.{groups_of, words_of};

    ghost Value = { List (List ℕ) };

    ghost view = { λ f. groups_of f.words.items };

    ghost invariant = { λ f. f.words.items ≡ words_of (groups_of f.words.items) };
}

// Adds where each group ends among the members, and returns how many members there are.
fn push_ends(words: &mut Vec<NodeId>, groups: &[Vec<Key>]) -> Result<u32, Memory>
    ensures ends { OnOk result (words.new.items ≡ words.old.items ++ ends 0 (items_of groups.now)) }
    ensures all { IfOk result (λ n. n ≡ sizes (items_of groups.now)) }
{
    let mut end: u32 = 0;
    for group in groups {
        let wanted = end as u128 + group.len() as u128;
        let Ok(next) = u32::try_from(wanted) else {
            return Err(Memory::no_number_left(wanted));
        };
        words.push(NodeId::at(next))?;
        end = next;
    }
    Ok(end)
}

// Adds the numbers of a group's members.
fn push_members<V>(words: &mut Vec<NodeId>, table: &Table<V>, group: &[Key]) -> Result<(), Memory>
    requires { All (HasNumber table.now) group.now }
    ensures { OnOk result (words.new.items ≡ words.old.items ++ numbers_in table.now group.now) }
{
    for member in group {
        words.push(table.id_of(member).unwrap())?;
    }
    Ok(())
}

// Adds the numbers of the groups' members.
fn push_groups<V>(
    words: &mut Vec<NodeId>,
    table: &Table<V>,
    groups: &[Vec<Key>],
) -> Result<(), Memory>
    requires { HaveNumbers table.now (items_of groups.now) }
    ensures { OnOk result
        (words.new.items ≡ words.old.items ++ concat
        (map (numbers_in table.now) (items_of groups.now))) }
{
    for group in groups {
        push_members(words, table, group.as_slice())?;
    }
    Ok(())
}

impl FlatGroups {
    /// Makes a list of these groups by the numbers of their members, which are in the table. Returns `Memory` if an
    /// allocation fails, or if there are more groups or members than 32 bits can count.
    pub fn of<V>(alloc: Global, table: &Table<V>, groups: &[Vec<Key>]) -> Result<FlatGroups, Memory>
        requires { HaveNumbers table.now (items_of groups.now) }
        ensures { IfOk result (λ flat. flat ≡ map (numbers_in table.now) (items_of groups.now)) }
    {
        let mut words = Vec::new(alloc);
        if groups.is_empty() {
            return Ok(FlatGroups { words });
        }
        let wanted = groups.len() as u128;
        let Ok(count) = u32::try_from(wanted) else {
            return Err(Memory::no_number_left(wanted));
        };
        words.push(NodeId::at(count))?;
        let all = push_ends(&mut words, groups)?;
        words.reserve_exact(all as usize)?;
        push_groups(&mut words, table, groups)?;
        Ok(FlatGroups { words })
    }

    /// Returns how many groups there are.
    pub fn len(&self) -> usize
        ensures { result ≡ length self.now }
    {
        match self.words.first() {
            None => 0,
            Some(count) => count.place(),
        }
    }

    // Returns where the groups end among the members, and then the members.
    fn rest(&self) -> &[NodeId]
        ensures { result.now ≡ ends 0 self.now ++ concat self.now }
    {
        match self.words.split_first() {
            None => &[],
            Some((_, rest)) => rest,
        }
    }

    /// Returns the members of all groups, in order.
    pub fn members(&self) -> &[NodeId]
        ensures { result.now ≡ concat self.now }
    {
        let (_, members) = self.rest().split_at(self.len());
        members
    }

    // Returns where a group ends among the members.
    fn end(&self, i: usize) -> usize
        requires { i < length self.now }
        ensures { slice_get (ends 0 self.now) i ≡ Some result }
    {
        match self.rest().get(i) {
            None => 0,
            Some(end) => end.place(),
        }
    }

    // Returns where a group begins among the members.
    fn start(&self, i: usize) -> usize
        requires { i < length self.now }
        ensures { result ≡ start self.now i }
    {
        if i == 0 { 0 } else { self.end(i - 1) }
    }

    /// Returns the members of a group.
    pub fn group(&self, i: usize) -> &[NodeId]
        requires { i < length self.now }
        ensures { slice_get self.now i ≡ Some result.now }
    {
        let start = self.start(i);
        let end = self.end(i);
        let (_, after) = self.members().split_at(start);
        let (group, _) = after.split_at(end - start);
        group
    }
}
