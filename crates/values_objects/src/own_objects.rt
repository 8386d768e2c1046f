//! A heap's own objects, in pages.
ghost use Rattle.std.specs.Prelude.{◌≡◌, ◌+◌, ◌*◌, ◌≤◌, ◌<◌, ◌^◌, length};
ghost use Rattle.values_objects.specs.Wholes.{page_size};

use crate::heap_object::HeapObject;
use crate::object::Object;
use crate::object_list::{free_own, look_own, put_own, size_own, take_own};
use crate::object_ref::ObjectRef;
use crate::pages::{PAGE, Page};
use crate::spare::SpareRoom;
use base_types::Memory;
use std::alloc::Global;
use std::mem;

// The most objects in pages.
const MOST: usize = 1 << 62;

/// A heap's own objects: those of full pages, and the last ones. A contract sees what is at each place.
pub struct OwnObjects {
    alloc: Global,
    full: Vec<Page>,
    last: Vec<HeapObject>,
    // How many objects are in full pages.
    first: usize,
    // The numbers of the full pages that have memory. No contract depends on it.
    standing: Vec<usize>,
    ghost paged: { first ≡ length full.items * page_size },
    ghost few: { length last.items ≤ page_size },
    ghost numbered: { first < 2 ^ 62 + page_size },
}

impl Drop for OwnObjects {
    fn drop(self) {
        let OwnObjects {
            alloc: _,
            full: _,
            last: _,
            first: _,
            standing: _,
        } = self;
    }
}

impl OwnObjects {
    ghost use Rattle.std.specs.Prelude.{◌∷◌, [], ◌++◌, map, option_map, slice_get, slice_set, IfOk, OnOk, OnErr, Some, true, false};
    ghost use Rattle.values_objects.specs.Looks.{seen_object};
    ghost use Rattle.values_objects.specs.ObjectBytes.{found_bytes, copy_bytes, standing_bytes};
    ghost use Rattle.values_objects.specs.Objects.{object_of};
    ghost use Rattle.values_objects.specs.Pages.{own_standings};
    ghost use Rattle.values_objects.specs.Standings.{is_gone, own, object_in};

    /// Makes a list without objects.
    pub fn new(alloc: Global) -> OwnObjects
        ensures { own_standings result ≡ [] }
    {
        OwnObjects {
            alloc,
            full: Vec::new(alloc),
            last: Vec::new(alloc),
            first: 0,
            standing: Vec::new(alloc),
        }
    }

    /// Returns how many objects there are, with those that have been freed.
    pub fn len(&self) -> usize
        ensures number { result ≡ length (own_standings self.now) }
        ensures within { result < 2 ^ 63 }
    {
        self.first + self.last.len()
    }

    /// Returns the object with a number, if there is one, or `Memory` if it has been freed.
    #[inline(always)]
    pub fn object_ref(&self, i: usize) -> Result<Option<ObjectRef<'_>>, Memory>
        ensures found { IfOk result (λ found. slice_get (map object_in (own_standings self.now)) i
            ≡ option_map seen_object found) }
        ensures gone { OnErr result (option_map is_gone (slice_get (own_standings self.now) i) ≡
            Some true) }
    {
        if i >= self.first {
            return look_own(self.last.as_slice(), i - self.first);
        }
        match self.full.get(i / PAGE) {
            Some(page) => page.object_ref(i % PAGE),
            None => Ok(None),
        }
    }

    /// Takes the object with a number, if there is one, or returns `Memory` if it has been freed.
    #[inline(always)]
    pub fn take(&mut self, i: usize) -> Result<Option<Object>, Memory>
        ensures same { map object_in (own_standings self.new) ≡ map object_in
            (own_standings self.old) }
        ensures taken { IfOk result (λ found. slice_get (map object_in (own_standings self.old)) i
            ≡ option_map object_of found) }
        ensures gone { OnErr result (option_map is_gone (slice_get (own_standings self.old) i) ≡
            Some true) }
    {
        if i >= self.first {
            return take_own(&mut self.last, i - self.first);
        }
        match self.full.get_mut(i / PAGE) {
            Some(page) => page.take(i % PAGE),
            None => Ok(None),
        }
    }

    /// Puts another object in the place of the one with a number, if there is one.
    #[inline(always)]
    pub fn put(&mut self, i: usize, object: Object)
        ensures { map object_in (own_standings self.new) ≡ slice_set (map object_in
            (own_standings self.old)) i (object_of object) }
    {
        if i >= self.first {
            put_own(&mut self.last, i - self.first, object);
            return;
        }
        if let Some(page) = self.full.get_mut(i / PAGE) {
            page.put(i % PAGE, object);
        }
    }

    /// Frees the object with a number, if there is one, and returns the bytes that it counted for.
    pub fn free(&mut self, i: usize, spare: &mut SpareRoom) -> u128
        ensures same { map object_in (own_standings self.new) ≡ map object_in
            (own_standings self.old) }
        ensures bytes { result ≡ standing_bytes (slice_get (own_standings self.old) i) }
    {
        if i >= self.first {
            return free_own(&mut self.last, i - self.first, spare);
        }
        match self.full.get_mut(i / PAGE) {
            Some(page) => page.free(i % PAGE, spare),
            None => 0,
        }
    }

    /// Returns the bytes that the object with a number counts for, or 0 if there is none, or `Memory` if it has been
    /// freed.
    pub fn size(&self, i: usize) -> Result<u128, Memory>
        ensures found { IfOk result (λ n. n ≡ found_bytes (slice_get (map object_in
            (own_standings self.now)) i)) }
        ensures counted { IfOk result (λ n. n ≡ copy_bytes (slice_get
            (own_standings self.now) i)) }
        ensures gone { OnErr result (option_map is_gone (slice_get (own_standings self.now) i) ≡
            Some true) }
    {
        if i >= self.first {
            return size_own(self.last.as_slice(), i - self.first);
        }
        match self.full.get(i / PAGE) {
            Some(page) => page.size(i % PAGE),
            None => Ok(0),
        }
    }

    /// Adds an object after all others.
    ///
    /// # Errors
    ///
    /// Returns `Memory`, and adds nothing, if an allocation fails.
    pub fn push(&mut self, object: Object) -> Result<(), Memory>
        ensures pushed { OnOk result (own_standings self.new ≡ own_standings self.old ++ own
            (object_of object) false ∷ []) }
        ensures same { OnErr result (own_standings self.new ≡ own_standings self.old) }
    {
        if self.last.len() >= PAGE {
            self.begin_page()?;
        }
        self.last.push(HeapObject::new(object))?;
        Ok(())
    }

    // Makes a page of the last objects, so that there is room for others.
    #[cold]
    fn begin_page(&mut self) -> Result<(), Memory>
        requires { length self.old.last.items ≡ page_size }
        ensures same { own_standings self.new ≡ own_standings self.old }
        ensures empty { OnOk result (self.new.last.items ≡ []) }
    {
        if self.first >= MOST {
            return Err(Memory::no_number_left(self.first as u128));
        }
        self.full.reserve(1)?;
        self.standing.reserve(1)?;
        let room = Vec::with_capacity(self.alloc, PAGE)?;
        let objects = mem::replace(&mut self.last, room);
        let number = self.full.len();
        self.full.push_reserved(Page::new(objects));
        self.standing.push_reserved(number);
        self.first += PAGE;
        Ok(())
    }

    /// Returns how many pages there are. The last one may have few objects, or none.
    pub fn pages(&self) -> usize {
        self.full.len() + 1
    }

    /// Returns how many objects have memory in the page with a number.
    pub fn page_len(&self, page: usize) -> usize {
        match self.full.get(page) {
            Some(found) => found.len(),
            None => self.last.len(),
        }
    }

    /// Returns how many full pages have memory.
    pub fn standing_len(&self) -> usize {
        self.standing.len()
    }

    /// Returns the number of one of the full pages that have memory.
    pub fn standing_page(&self, k: usize) -> Option<usize> {
        self.standing.get(k).copied()
    }

    // Gives the memory of a full page back if all its objects have been freed. Returns whether it has no memory then.
    fn give_page_back(&mut self, page: usize) -> bool
        ensures { own_standings self.new ≡ own_standings self.old }
    {
        let alloc = self.alloc;
        match self.full.get_mut(page) {
            Some(found) => found.give_back(alloc),
            None => false,
        }
    }

    /// Gives the memory of one of the full pages that have some back, if all its objects have been freed. The last one of
    /// these pages is then in its place. The last page of all keeps its memory.
    pub fn give_back(&mut self, k: usize)
        ensures { own_standings self.new ≡ own_standings self.old }
    {
        if let Some(page) = self.standing_page(k) {
            let is_empty = self.give_page_back(page);
            if is_empty && k < self.standing.len() {
                self.standing.swap_remove(k);
            }
        }
    }
}
