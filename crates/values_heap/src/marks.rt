//! What is still reached, and how all else is freed.
ghost use Rattle.std.specs.Prelude.{◌≡◌, ◌≤◌, ◌-◌};
ghost use Rattle.values_heap.specs.View.{store_of};
ghost use Rattle.values_heap.specs.Reclamation.{bytes_of_own};

use crate::heap::Heap;
use crate::objects::Gap;
use base_types::Memory;
use indexmap::IndexMap;
use std::alloc::Global;
use values_objects::{Entries, Members, ObjectRef, PAGE};
use values_semantics::{Entry, Key, Val};

/// The own objects that are known to be reached. Attached ones are not among them, since they are neither followed nor
/// freed. No contract depends on it: if an object is missing here, is freed and is read later, the read returns
/// `Memory`.
#[derive(Drop)]
pub struct Marks {
    // For each page of own objects that has memory, and each object in it, whether it is reached.
    marks: Vec<Vec<bool>>,
    // For each page of own objects the number of pages whose marks were made up to it, or 0 if it has no memory.
    slots: Vec<usize>,
    // The gaps between own objects, in order, by which their numbers are found.
    gaps: Vec<Gap>,
    // The places of reached objects whose members are not visited yet.
    open: Vec<usize>,
}

impl Marks {
    /// Makes a record of the own objects of a heap, of which none is reached. It is for this heap alone, and until
    /// more objects are attached.
    pub fn new(alloc: Global, heap: &Heap) -> Result<Marks, Memory> {
        let mut slots = Vec::new(alloc);
        slots.resize(heap.objects.pages(), 0)?;
        let mut reached = Marks {
            marks: Vec::new(alloc),
            slots,
            gaps: heap.objects.gaps(alloc)?,
            open: Vec::new(alloc),
        };
        for k in 0..heap.objects.standing_len() {
            reached.add_page(alloc, heap, heap.objects.standing_page(k))?;
        }
        reached.add_page(alloc, heap, heap.objects.pages().checked_sub(1))?;
        Ok(reached)
    }

    // Makes the marks of a page.
    fn add_page(&mut self, alloc: Global, heap: &Heap, page: Option<usize>) -> Result<(), Memory> {
        let Some(page) = page else {
            return Ok(());
        };
        let mut unreached = Vec::new(alloc);
        unreached.resize(heap.objects.page_len(page), false)?;
        self.marks.push(unreached)?;
        if let Some(slot) = self.slots.get_mut(page) {
            *slot = self.marks.len();
        }
        Ok(())
    }

    // Returns at which place the marks of a page are, if it has some.
    fn slot(&self, page: usize) -> usize {
        self.slots.get(page).copied().unwrap_or(0).wrapping_sub(1)
    }

    // Returns the number of the own object at a place, or nothing if an attached one is there. This takes one
    // comparison for a place after the last gap.
    fn number(&self, place: usize) -> Option<usize> {
        let gaps = self.gaps.as_slice();
        let begun = match gaps.last() {
            Some(last) if last.start as usize <= place => gaps.len(),
            _ => gaps.partition_point(|gap| gap.start as usize <= place),
        };
        match gaps.get(begun.wrapping_sub(1)) {
            Some(gap) if place < gap.end as usize => None,
            Some(gap) => Some(place.saturating_sub(gap.through as usize)),
            None => Some(place),
        }
    }

    /// Marks a value as reached.
    pub fn add(&mut self, x: Val) -> Result<(), Memory> {
        if let Val::At(place) = x {
            if let Some(number) = self.number(place) {
                self.add_own(number, place)?;
            }
        }
        Ok(())
    }

    // Marks the own object with a number as reached, which is at a place.
    fn add_own(&mut self, number: usize, place: usize) -> Result<(), Memory> {
        let slot = self.slot(number / PAGE);
        if let Some(page) = self.marks.get_mut(slot) {
            if let Some(mark) = page.get_mut(number % PAGE) {
                if !*mark {
                    *mark = true;
                    self.open.push(place)?;
                }
            }
        }
        Ok(())
    }

    /// Marks values as reached.
    pub fn add_all(&mut self, xs: &[Val]) -> Result<(), Memory> {
        for x in xs {
            self.add(*x)?;
        }
        Ok(())
    }

    // Marks the members of an object as reached.
    fn add_held(&mut self, xs: &Members<'_>) -> Result<(), Memory> {
        for i in 0..xs.len() {
            if let Some(x) = xs.get(i) {
                self.add(x)?;
            }
        }
        Ok(())
    }

    // Marks the keys and values of a dictionary as reached.
    fn add_pairs(&mut self, entries: &Entries<'_>) -> Result<(), Memory> {
        for i in 0..entries.len() {
            if let Some((_key, entry)) = entries.get_index(i) {
                self.add(entry.key)?;
                self.add(entry.value)?;
            }
        }
        Ok(())
    }

    /// Marks the keys and values of entries as reached.
    pub fn add_entries(&mut self, entries: &IndexMap<Key, Entry>) -> Result<(), Memory> {
        for entry in entries.values() {
            self.add(entry.key)?;
            self.add(entry.value)?;
        }
        Ok(())
    }

    // Returns which objects of a page are reached.
    fn of_page(&self, page: usize) -> &[bool] {
        match self.marks.get(self.slot(page)) {
            Some(found) => found.as_slice(),
            None => &[],
        }
    }

    // Marks the members of an object as reached.
    fn add_members(&mut self, object: Option<ObjectRef<'_>>) -> Result<(), Memory> {
        match object {
            Some(ObjectRef::List { members, .. }) => self.add_held(&members),
            Some(ObjectRef::Tuple(members)) => self.add_held(&members),
            Some(ObjectRef::Dict { entries, .. }) => self.add_pairs(&entries),
            Some(ObjectRef::Text(_) | ObjectRef::Function(_, _)) | None => Ok(()),
        }
    }
}

impl Heap {
    /// Marks the members of reached objects as reached too. The members of an attached object are not followed, since
    /// they are attached with it.
    pub fn mark_reachable(&self, reached: &mut Marks) -> Result<(), Memory> {
        // Each own object is visited once at most.
        for _i in 0..self.objects.own_len() {
            match reached.open.pop() {
                Some(place) => reached.add_members(self.object(place)?)?,
                None => return Ok(()),
            }
        }
        Ok(())
    }

    /// Frees all own objects that are not reached, and gives the memory of pages back in which none is left. For a
    /// contract they are still there.
    pub fn sweep(&mut self, reached: &Marks)
        ensures same { store_of self.new ≡ store_of self.old }
        ensures held { self.new.held ≤ self.old.held }
    {
        let mut places: usize = 0;
        let pages = self.objects.standing_len();
        for i in 0..pages {
            // From the last one, since one that is given back leaves its place to the last one.
            let k = pages - 1 - i;
            places = places.saturating_add(self.sweep_standing(reached, k));
        }
        let last = self.objects.pages().saturating_sub(1);
        self.sweep_page(last, reached.of_page(last));
        let more = self.objects.page_len(last);
        self.set_threshold(places.saturating_add(more));
    }

    // Frees the own objects that are not reached of one of the full pages that have memory, and gives this back if none
    // is left. Returns how many objects have memory in the page.
    fn sweep_standing(&mut self, reached: &Marks, k: usize) -> usize
        ensures same { store_of self.new ≡ store_of self.old }
        ensures held { self.new.held ≤ self.old.held }
    {
        let Some(page) = self.objects.standing_page(k) else {
            return 0;
        };
        self.sweep_page(page, reached.of_page(page));
        self.objects.give_back(k);
        self.objects.page_len(page)
    }

    // Frees the own objects of a page that are not reached.
    fn sweep_page(&mut self, page: usize, reached: &[bool])
        ensures same { store_of self.new ≡ store_of self.old }
        ensures held { self.new.held ≤ self.old.held }
    {
        let first = page.saturating_mul(PAGE);
        for i in 0..reached.len() {
            if !reached[i] {
                self.free_own(first.saturating_add(i));
            }
        }
    }

    // Frees the own object with a number, and refunds its bytes.
    fn free_own(&mut self, number: usize)
        ensures same { store_of self.new ≡ store_of self.old }
        ensures held { self.new.held ≡ self.old.held - bytes_of_own self.old.objects number }
    {
        let bytes = self.objects.free(number, &mut self.spare);
        self.release(bytes);
    }
}
