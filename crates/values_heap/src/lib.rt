//! The heap that values stand on: which objects it has, and the steps that are left. Objects are a heap's own, or
//! attached: those of a large frozen value are shared by all heaps. What an object is, and what is read of one, is in
//! `values_objects`, whose names are given on. Begin at `heap.rt`, `specs/View.antt` and, for what is attached,
//! `objects.rt`.
#![tactic(auto)]

mod heap;
mod marks;
mod objects;
mod steps;

pub use heap::{Heap, MAX_DEPTH};
pub use marks::Marks;
pub use objects::Objects;
pub use steps::{spend, tick};
pub use values_objects::{
    Entries, Halt, MAX_LENGTH, Members, Numbers, Object, ObjectRef, SpareRoom, concat, cut, entry,
    has_room, keys, member, place, repeated, set_entry,
};
pub use values_semantics::{Builtin, Bytes, Entry, Key, Operator, PACKAGE, PLAIN, Part, Val};
