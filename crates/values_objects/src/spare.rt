//! The memory of freed members, kept for members that are made later. The system takes longer for a page of new memory
//! than it takes to copy the members to it.
ghost use Rattle.std.specs.Prelude.{◌≡◌, []};

use crate::object::{MAX_LENGTH, Object};
use std::alloc::Global;
use values_semantics::Val;

// A list with room for fewer members is not kept.
const LEAST_ROOM: usize = 4096;

// The most lists that are kept. Together they take at most 8 MiB.
const MOST_KEPT: usize = 8;

/// Lists whose memory is kept. No contract depends on which these are.
#[derive(Drop)]
pub struct SpareRoom {
    pub(crate) alloc: Global,
    lists: Vec<Vec<Val>>,
}

impl SpareRoom {
    /// Makes a record in which nothing is kept.
    pub fn new(alloc: Global) -> SpareRoom {
        SpareRoom {
            alloc,
            lists: Vec::new(alloc),
        }
    }

    /// Drops an object, but keeps the memory of its members as `give` does.
    pub(crate) fn keep(&mut self, object: Object) {
        match object {
            Object::List {
                members,
                frozen: _frozen,
            } => self.give(members),
            Object::Tuple(members) => self.give(members),
            other => drop(other),
        }
    }

    /// Drops members. Their memory is kept if they are many, unless `MOST_KEPT` lists are kept.
    pub fn give(&mut self, members: Vec<Val>) {
        let room = members.capacity();
        if room >= LEAST_ROOM && room <= MAX_LENGTH && self.lists.len() < MOST_KEPT {
            drop(self.lists.push(members));
        }
    }

    /// Returns an empty list. If a list is kept that has room for `number` members, and for at most twice as many, it
    /// is that one.
    pub fn take(&mut self, number: usize) -> Vec<Val>
        ensures { result.items ≡ [] }
    {
        if number < LEAST_ROOM / 2 {
            return Vec::new(self.alloc);
        }
        for i in 0..self.lists.len() {
            let room = self.lists[i].capacity();
            if number <= room && room / 2 <= number {
                let mut found = self.lists.swap_remove(i);
                found.clear();
                return found;
            }
        }
        Vec::new(self.alloc)
    }
}
