//! Objects as they are on the heap.
ghost use Rattle.std.specs.Prelude.{◌≡◌, IfOk, OnErr, None, is_none, true, false};
ghost use Rattle.values_objects.specs.Objects.{object_of};
ghost use Rattle.std.specs.Option.{ForSome};
ghost use Rattle.values_objects.specs.LastWrite.{last_written};

use crate::object::{Object, shape_of, size_of};
use crate::spare::SpareRoom;
use base_types::Memory;
use http_server::Log;

/// An object that is on the heap. A contract sees the object even after it has been freed. Then it cannot be read, and
/// the call returns `Memory`. So freeing what is still needed can make a call fail, but never makes its result wrong.
#[derive(Drop)]
pub struct HeapObject {
    // `None` if the object has been freed.
    object: Option<Object>,
    // What was written here, for contracts alone. It takes no memory.
    written: Log<Object, ()>,
    ghost same: { ForSome object (λ o. last_written written.items ≡ object_of o) },
}

impl HeapObject {
    ghost use Rattle.values_objects.specs.Own.{written_object};
    ghost use Rattle.values_objects.specs.ObjectBytes.{object_bytes, counted_bytes};

    /// Makes an object for the heap.
    #[tactic(auto, unfolding(crate::specs::Own::written_object))]
    pub fn new(object: Object) -> HeapObject
        ensures object { written_object result ≡ object_of object }
        ensures there { is_none result.object ≡ false }
    {
        let written = Log::new().and(&object, &());
        HeapObject {
            object: Some(object),
            written,
        }
    }

    /// Returns the object, or `Memory` if it has been freed.
    #[inline(always)]
    #[tactic(auto, unfolding(crate::specs::Own::written_object))]
    pub fn object(&self) -> Result<&Object, Memory>
        ensures object { IfOk result (λ object. object_of object.now ≡ written_object self.now) }
        ensures gone { OnErr result (self.now.object ≡ None) }
    {
        match &self.object {
            Some(object) => Ok(object),
            None => Err(Memory::object_not_there()),
        }
    }

    /// Takes the object, to be changed and then written again. Until then it counts as freed. Returns `Memory` if it
    /// has been freed before.
    #[inline(always)]
    #[tactic(auto, unfolding(crate::specs::Own::written_object))]
    pub fn take(&mut self) -> Result<Object, Memory>
        ensures taken { IfOk result (λ object. object_of object ≡ written_object self.old) }
        ensures same { written_object self.new ≡ written_object self.old }
        ensures gone { OnErr result (self.old.object ≡ None) }
    {
        match self.object.take() {
            Some(object) => Ok(object),
            None => Err(Memory::object_not_there()),
        }
    }

    /// Writes another object in the place of this one.
    #[inline(always)]
    #[tactic(auto, unfolding(crate::specs::Own::written_object))]
    pub fn write(&mut self, object: Object)
        ensures { written_object self.new ≡ object_of object }
    {
        self.written = Log::new().and(&object, &());
        self.object = Some(object);
    }

    /// Frees the object, and returns the bytes that it counted for, or 0 if it was freed before. The memory of many
    /// members is kept for new ones.
    #[tactic(auto, unfolding(crate::specs::Own::written_object))]
    pub fn free(&mut self, spare: &mut SpareRoom) -> u128
        ensures same { written_object self.new ≡ written_object self.old }
        ensures bytes { result ≡ counted_bytes self.old }
        ensures gone { self.new.object ≡ None }
    {
        match self.object.take() {
            Some(object) => {
                let bytes = size_of(shape_of(&object));
                spare.keep(object);
                bytes
            }
            None => 0,
        }
    }

    /// Returns the bytes that the object counts for, or `Memory` if it has been freed.
    #[tactic(auto, unfolding(crate::specs::Own::written_object))]
    pub fn size(&self) -> Result<u128, Memory>
        ensures size { IfOk result (λ n. n ≡ object_bytes (written_object self.now)) }
        ensures there { IfOk result (λ _. is_none self.now.object ≡ false) }
        ensures gone { OnErr result (self.now.object ≡ None) }
    {
        let Some(object) = &self.object else {
            return Err(Memory::object_not_there());
        };
        Ok(size_of(shape_of(object)))
    }

    /// Returns whether the object is there, and not freed.
    pub fn is_there(&self) -> bool
        ensures gone { result ≡ false → is_none self.now.object ≡ true }
    {
        self.object.is_some()
    }
}
