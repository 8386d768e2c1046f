//! A list of a heap's own objects.
ghost use Rattle.std.specs.Prelude.{◌≡◌, length, map, option_map, slice_get, slice_set, IfOk, OnErr, Some, true};
ghost use Rattle.values_objects.specs.Looks.{seen_object};
ghost use Rattle.values_objects.specs.ObjectBytes.{found_bytes, copy_bytes, standing_bytes};
ghost use Rattle.values_objects.specs.Objects.{object_of};
ghost use Rattle.values_objects.specs.Own.{written_object};
ghost use Rattle.values_objects.specs.Standings.{gone_own, has_gone, standing_of};

use crate::heap_object::HeapObject;
use crate::object::Object;
use crate::object_ref::{ObjectRef, show};
use crate::spare::SpareRoom;
use base_types::Memory;

/// Returns the object with a number, if there is one, or `Memory` if it has been freed.
#[inline(always)]
pub fn look_own(objects: &[HeapObject], i: usize) -> Result<Option<ObjectRef<'_>>, Memory>
    ensures found { IfOk result (λ found. option_map written_object (slice_get objects.now i) ≡
        option_map seen_object found) }
    ensures gone { OnErr result (option_map has_gone (slice_get objects.now i) ≡ Some true) }
{
    match objects.get(i) {
        Some(found) => {
            let object = found.object()?;
            Ok(Some(show(object)))
        }
        None => Ok(None),
    }
}

/// Takes the object with a number, if there is one, or returns `Memory` if it has been freed.
#[inline(always)]
pub fn take_own(objects: &mut Vec<HeapObject>, i: usize) -> Result<Option<Object>, Memory>
    ensures same { map written_object objects.new.items ≡ map written_object objects.old.items }
    ensures number { length objects.new.items ≡ length objects.old.items }
    ensures taken { IfOk result (λ found. option_map written_object (slice_get objects.old.items
        i) ≡ option_map object_of found) }
    ensures gone { OnErr result (option_map has_gone (slice_get objects.old.items i) ≡ Some true) }
{
    match objects.get_mut(i) {
        Some(found) => match found.take() {
            Ok(object) => Ok(Some(object)),
            Err(memory) => Err(memory),
        },
        None => Ok(None),
    }
}

/// Puts another object in the place of the one with a number, if there is one.
#[inline(always)]
pub fn put_own(objects: &mut Vec<HeapObject>, i: usize, object: Object)
    ensures put { map written_object objects.new.items ≡ slice_set (map written_object
        objects.old.items) i (object_of object) }
    ensures number { length objects.new.items ≡ length objects.old.items }
{
    if let Some(found) = objects.get_mut(i) {
        found.write(object);
    }
}

/// Frees the object with a number, and returns the bytes that it counted for.
pub fn free_own(objects: &mut Vec<HeapObject>, i: usize, spare: &mut SpareRoom) -> u128
    ensures same { map written_object objects.new.items ≡ map written_object objects.old.items }
    ensures number { length objects.new.items ≡ length objects.old.items }
    ensures bytes { result ≡ standing_bytes
        (option_map standing_of (slice_get objects.old.items i)) }
{
    match objects.get_mut(i) {
        Some(found) => found.free(spare),
        None => 0,
    }
}

/// Returns the bytes that the object with a number counts for, or 0 if there is none, or `Memory` if it has been freed.
pub fn size_own(objects: &[HeapObject], i: usize) -> Result<u128, Memory>
    ensures found { IfOk result (λ n. n ≡ found_bytes
        (option_map written_object (slice_get objects.now i))) }
    ensures counted { IfOk result (λ n. n ≡ copy_bytes
        (option_map standing_of (slice_get objects.now i))) }
    ensures gone { OnErr result (option_map has_gone (slice_get objects.now i) ≡ Some true) }
{
    match objects.get(i) {
        Some(object) => object.size(),
        None => Ok(0),
    }
}

/// Returns whether all objects have been freed.
pub fn all_gone(objects: &[HeapObject]) -> bool
    ensures { result ≡ true → map standing_of objects.now ≡ map gone_own (map written_object
        objects.now) }
{
    for object in objects {
        if object.is_there() {
            return false;
        }
    }
    true
}
