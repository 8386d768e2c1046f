//! The objects of a heap, and lists, texts and dictionaries apart from it. Who reads an object sees its members and
//! entries alone, and not how they are stored. A heap's own objects are in pages, whose memory is given back once all
//! their objects have been freed. Begin at `object.rt`, `specs/Objects.antt` and, for what is freed, `pages.rt`.
#![tactic(auto)]

mod dictionaries;
mod halt;
mod heap_object;
mod lists;
mod numbers;
mod object;
mod object_list;
mod object_ref;
mod own_objects;
mod pages;
mod spare;

pub use dictionaries::{entry, has_room, keys, set_entry};
pub use halt::Halt;
pub use lists::{concat, cut, member, place, repeated};
pub use numbers::Numbers;
pub use object::{ENTRY, MAX_LENGTH, MEMBER, Object, frozen_shape, shape_of, size_of};
pub use object_ref::{Entries, Members, ObjectRef, show_lent};
pub use own_objects::OwnObjects;
pub use pages::PAGE;
pub use spare::SpareRoom;
