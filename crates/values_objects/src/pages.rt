//! Pages of a heap's own objects. The memory of a page is given back once all its objects have been freed.
ghost use Rattle.std.specs.Prelude.{◌≡◌, length};
ghost use Rattle.values_objects.specs.Wholes.{IsWhole, page_size};

use crate::heap_object::HeapObject;
use crate::object::Object;
use crate::object_list::{all_gone, free_own, look_own, put_own, size_own, take_own};
use crate::object_ref::ObjectRef;
use crate::spare::SpareRoom;
use base_types::Memory;
use http_server::Log;
use std::alloc::Global;

/// How many objects a page has.
pub const PAGE: usize = 256;

/// A page of objects that are on the heap. A contract sees them even after the page has been given back. Then none of
/// them can be read, and the call returns `Memory`.
#[derive(Drop)]
pub struct Page {
    // None if the page has been given back.
    objects: Vec<HeapObject>,
    // What was there when the page was given back, for contracts alone. It takes no memory.
    before: Log<Vec<HeapObject>, ()>,
    // What was written since then, with the number of each object in the page, for contracts alone.
    after: Log<Object, usize>,
    ghost whole: { IsWhole before.items objects.items },
}

impl Page {
    ghost use Rattle.std.specs.Prelude.{◌<◌, map, option_map, slice_get, slice_set, IfOk, OnErr, Some, true};
    ghost use Rattle.values_objects.specs.Looks.{seen_object};
    ghost use Rattle.values_objects.specs.ObjectBytes.{found_bytes, copy_bytes, standing_bytes};
    ghost use Rattle.values_objects.specs.Objects.{object_of};
    ghost use Rattle.values_objects.specs.Pages.{page_standings};
    ghost use Rattle.values_objects.specs.Standings.{is_gone, standing_of, object_in};

    /// Makes a page of objects.
    pub fn new(objects: Vec<HeapObject>) -> Page
        requires { length objects.items ≡ page_size }
        ensures { page_standings result ≡ map standing_of objects.items }
    {
        Page {
            objects,
            before: Log::new(),
            after: Log::new(),
        }
    }

    /// Returns how many objects have memory in the page.
    pub fn len(&self) -> usize {
        self.objects.len()
    }

    /// Returns the object with a number, or `Memory` if it has been freed.
    #[inline(always)]
    pub fn object_ref(&self, i: usize) -> Result<Option<ObjectRef<'_>>, Memory>
        requires { i < page_size }
        ensures found { IfOk result (λ found. slice_get (map object_in (page_standings self.now)) i
            ≡ option_map seen_object found) }
        ensures gone { OnErr result (option_map is_gone (slice_get (page_standings self.now) i) ≡
            Some true) }
    {
        if self.objects.len() == 0 {
            return Err(Memory::object_not_there());
        }
        look_own(self.objects.as_slice(), i)
    }

    /// Takes the object with a number, to be changed and then put there again, or returns `Memory` if it has been
    /// freed.
    #[inline(always)]
    pub fn take(&mut self, i: usize) -> Result<Option<Object>, Memory>
        requires { i < page_size }
        ensures same { map object_in (page_standings self.new) ≡ map object_in
            (page_standings self.old) }
        ensures taken { IfOk result (λ found. slice_get (map object_in (page_standings self.old)) i
            ≡ option_map object_of found) }
        ensures gone { OnErr result (option_map is_gone (slice_get (page_standings self.old) i) ≡
            Some true) }
    {
        if self.objects.len() == 0 {
            return Err(Memory::object_not_there());
        }
        take_own(&mut self.objects, i)
    }

    /// Puts another object in the place of the one with a number. In a page that was given back a contract alone sees
    /// it.
    #[inline(always)]
    pub fn put(&mut self, i: usize, object: Object)
        ensures { map object_in (page_standings self.new) ≡ slice_set (map object_in
            (page_standings self.old)) i (object_of object) }
    {
        if self.objects.len() == 0 {
            self.after = self.after.and(&object, &i);
            return;
        }
        put_own(&mut self.objects, i, object);
    }

    /// Frees the object with a number, and returns the bytes that it counted for.
    pub fn free(&mut self, i: usize, spare: &mut SpareRoom) -> u128
        ensures same { map object_in (page_standings self.new) ≡ map object_in
            (page_standings self.old) }
        ensures bytes { result ≡ standing_bytes (slice_get (page_standings self.old) i) }
    {
        if self.objects.len() == 0 {
            return 0;
        }
        free_own(&mut self.objects, i, spare)
    }

    /// Returns the bytes that the object with a number counts for, or `Memory` if it has been freed.
    pub fn size(&self, i: usize) -> Result<u128, Memory>
        requires { i < page_size }
        ensures found { IfOk result (λ n. n ≡ found_bytes (slice_get (map object_in
            (page_standings self.now)) i)) }
        ensures counted { IfOk result (λ n. n ≡ copy_bytes (slice_get
            (page_standings self.now) i)) }
        ensures gone { OnErr result (option_map is_gone (slice_get (page_standings self.now) i) ≡
            Some true) }
    {
        if self.objects.len() == 0 {
            return Err(Memory::object_not_there());
        }
        size_own(self.objects.as_slice(), i)
    }

    /// Gives the memory of the page back if all its objects have been freed. Returns whether it has none then.
    pub fn give_back(&mut self, alloc: Global) -> bool
        ensures { page_standings self.new ≡ page_standings self.old }
    {
        if self.objects.len() == 0 {
            return true;
        }
        if !all_gone(self.objects.as_slice()) {
            return false;
        }
        self.before = Log::new().and(&self.objects, &());
        self.after = Log::new();
        self.objects = Vec::new(alloc);
        true
    }
}
