//! Objects, and the bytes that they count for.
ghost use Rattle.std.specs.Prelude.{◌≡◌, true, IfOk};
ghost use Rattle.values_frozen_objects.specs.Objects.{frozen_obj};
ghost use Rattle.values_objects.specs.Objects.{object_of};
ghost use Rattle.values_objects.specs.Full.{is_in_full};
ghost use Rattle.values_objects.specs.ObjectBytes.{object_bytes, shape_bytes};

use crate::numbers::Numbers;
use base_types::{Memory, Text};
use indexmap::IndexMap;
use std::alloc::Global;
use values_frozen_objects::FrozenObject;
use values_semantics::{Bytes, Entry, Key, Val};

/// The most bytes of a string, and members of a list, tuple or dictionary.
pub const MAX_LENGTH: usize = 65536;

// The bytes that count for an object whatever it has.
const OBJECT: u128 = 64;

/// The bytes that count for a member of a list or tuple.
pub const MEMBER: u128 = 16;

/// The bytes that count for an entry of a dictionary.
pub const ENTRY: u128 = 96;

/// An object of the heap.
#[derive(Drop)]
pub enum Object {
    Text(Bytes),
    List {
        members: Vec<Val>,
        frozen: bool,
    },
    /// A list of consecutive numbers, which becomes a `List` before it is changed.
    Numbers(Numbers),
    Tuple(Vec<Val>),
    /// Boxed, so that the many other objects are small.
    Dict {
        entries: Box<IndexMap<Key, Entry>>,
        frozen: bool,
    },
    /// A function of a file: the file's label, and the name.
    Function(Text, Text),
}

impl Object {
    /// Returns the object in a form in which its members may be changed.
    pub fn in_full(self, alloc: Global) -> Result<Object, Memory>
        ensures same { IfOk result (λ o. object_of o ≡ object_of self) }
        ensures full { IfOk result (λ o. is_in_full o ≡ true) }
    {
        match self {
            Object::Numbers(numbers) => {
                let members = numbers.copy_into(Vec::new(alloc))?;
                Ok(Object::List {
                    members,
                    frozen: false,
                })
            }
            other => Ok(other),
        }
    }
}

/// What the bytes of an object depend on: how many bytes, members or entries it has.
#[derive(Clone, Copy)]
pub enum Shape {
    Bytes(usize),
    Members(usize),
    Entries(usize),
    Plain,
}

/// Returns the shape of an object, on which its bytes depend.
pub fn shape_of(object: &Object) -> Shape
    ensures { shape_bytes result ≡ object_bytes (object_of object.now) }
{
    match object {
        Object::Text(bytes) => Shape::Bytes(bytes.as_slice().len()),
        Object::List { members, .. } => Shape::Members(members.len()),
        Object::Numbers(numbers) => Shape::Members(numbers.len()),
        Object::Tuple(members) => Shape::Members(members.len()),
        Object::Dict { entries, .. } => Shape::Entries(entries.len()),
        Object::Function(_, _) => Shape::Plain,
    }
}

/// Returns the shape of a frozen object.
pub fn frozen_shape(object: &FrozenObject) -> Shape
    ensures { shape_bytes result ≡ object_bytes (frozen_obj object.now) }
{
    match object {
        FrozenObject::Text(bytes) => Shape::Bytes(bytes.as_slice().len()),
        FrozenObject::List(members) => Shape::Members(members.len()),
        FrozenObject::Tuple(members) => Shape::Members(members.len()),
        FrozenObject::Dict(entries) => Shape::Entries(entries.len()),
        FrozenObject::Function(_, _) => Shape::Plain,
    }
}

/// Returns the bytes that an object of a shape counts for.
pub fn size_of(shape: Shape) -> u128
    ensures { result ≡ shape_bytes shape }
{
    let own = match shape {
        Shape::Bytes(n) => n as u128,
        Shape::Members(n) => n as u128 * MEMBER,
        Shape::Entries(n) => n as u128 * ENTRY,
        Shape::Plain => 0,
    };
    own + OBJECT
}
