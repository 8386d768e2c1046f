//! The objects of a heap: its own, and among them the ranges that are attached to it.
ghost use Rattle.std.specs.Prelude.{◌≡◌, ◌∷◌, [], ◌++◌, ◌+◌, ◌<◌, ◌^◌, ℕ, List, map, length, option_map, slice_get, slice_set, Some, false, IfOk, OnOk, OnErr};
ghost use Rattle.std.specs.Arc.{arc_value};
ghost use Rattle.values_objects.specs.Looks.{seen_object};
ghost use Rattle.values_objects.specs.ObjectBytes.{found_bytes, copy_bytes};
ghost use Rattle.values_objects.specs.Objects.{object_of};
ghost use Rattle.values_heap.specs.Reclamation.{IsGone, IsLent, IsKept, bytes_of_own};
ghost use Rattle.values_objects.specs.Standings.{Standing, own, object_in};
ghost use Rattle.values_heap.specs.Ranges.{Begun, lent_at, InOrder, where_is, found_there, own_number, range_standings};
ghost use Rattle.values_heap.specs.Sought.{sought, sought_number};

use base_types::Memory;
use std::alloc::Global;
use std::marker::Model;
use std::sync::Arc;
use values_frozen_objects::{FrozenObject, FrozenObjects};
use values_objects::{Object, ObjectRef, OwnObjects, SpareRoom, frozen_shape, show_lent, size_of};

// Objects that are attached: the place of the first, the place after the last, how many attached objects there are up
// to that place, and the objects, whose places count from the first of them.
#[derive(Drop)]
struct Range {
    start: u32,
    end: u32,
    through: u32,
    objects: Arc<FrozenObjects, Global>,
}

/// A gap between own objects, in which a range is: the place of its first object, the place after the last, and how
/// many attached objects there are up to that place.
#[derive(Drop)]
pub(crate) struct Gap {
    pub(crate) start: u32,
    pub(crate) end: u32,
    pub(crate) through: u32,
}

/// What is on a heap. Its own objects are in one list. An attached range has the places after all that was there
/// before, and is shared. A contract sees what is at each place.
pub struct Objects {
    own: OwnObjects,
    ranges: Vec<Range>,
    // The place after the last range, and how many objects are attached.
    from: u32,
    lent: u32,
}

impl Drop for Objects {
    fn drop(self) {
        let Objects {
            own: _,
            ranges: _,
            from: _,
            lent: _,
        } = self;
    }
}

impl Model for Objects {
    ghost use Rattle.std.specs.Prelude.{List, length};
    ghost use Rattle.values_objects.specs.Pages.{own_standings};
    ghost use Rattle.values_objects.specs.Standings.{Standing};
    ghost use Rattle.values_heap.specs.Ranges.{laid, InOrder};

    ghost Value = { List Standing };

    ghost view = { λ o. laid o.ranges.items (own_standings o.own) };

    ghost invariant = { λ o. InOrder o.ranges.items 0 0 (length (own_standings o.own)) o.from o.lent };
}

// What is at a place: an own object, by its number among these, or an attached one with the place at which its range
// begins.
enum Spot<'a> {
    Own(usize),
    Lent {
        object: Option<&'a FrozenObject>,
        base: u32,
    },
}

// Returns how many ranges begin at a place or before it, by a binary search of the ranges, which are in order.
fn count_begun(ranges: &[Range], place: usize) -> usize
    ensures { Begun ranges.now place result }
{
    let mut low = 0;
    let mut high = ranges.len();
    'halving: while low < high {
        let middle = low + (high - low) / 2;
        if ranges[middle].start as usize <= place {
            low = middle + 1;
            continue 'halving;
        }
        high = middle;
    }
    low
}

// Finds what is at a place, in the last range that begins there or before, or after it.
fn seek_in<'a>(ranges: &'a [Range], place: usize) -> Spot<'a>
    ensures number { (number from lent : ℕ) → InOrder ranges.now 0 0 number from lent →
        sought_number result ≡ own_number (where_is ranges.now 0 place) }
    ensures found { (number from lent : ℕ) → InOrder ranges.now 0 0 number from lent → (objects :
        List Standing) → sought objects result ≡ found_there range_standings objects (where_is
        ranges.now 0 place) }
{
    let begun = count_begun(ranges, place);
    if begun == 0 {
        return Spot::Own(place);
    }
    let range = &ranges[begun - 1];
    if place >= range.end as usize {
        return Spot::Own(place.saturating_sub(range.through as usize));
    }
    let base = range.start;
    let object = range.objects.get(place - base as usize);
    Spot::Lent { object, base }
}

// Finds what is at a place. This takes one comparison for a place after the last range.
#[inline(always)]
#[tactic(auto, using(crate::proofs::Laid::where_last))]
fn seek<'a>(ranges: &'a [Range], from: u32, lent: u32, place: usize) -> Spot<'a>
    ensures number { (number : ℕ) → InOrder ranges.now 0 0 number from lent → sought_number result
        ≡ own_number (where_is ranges.now 0 place) }
    ensures found { (number : ℕ) → InOrder ranges.now 0 0 number from lent → (objects : List
        Standing) → sought objects result ≡ found_there range_standings objects (where_is
        ranges.now 0 place) }
{
    if place >= from as usize {
        return Spot::Own(place.saturating_sub(lent as usize));
    }
    seek_in(ranges, place)
}

impl Objects {
    /// Makes what is on an empty heap.
    pub fn new(alloc: Global) -> Objects
        ensures { result ≡ [] }
    {
        Objects {
            own: OwnObjects::new(alloc),
            ranges: Vec::new(alloc),
            from: 0,
            lent: 0,
        }
    }

    /// Returns how many objects there are, own and attached.
    #[tactic(auto, using(crate::proofs::Places::all_places))]
    pub fn len(&self) -> usize
        ensures { result ≡ length self.now }
    {
        self.own.len() + self.lent as usize
    }

    /// Returns the object at a place, if one is there, or `Memory` if it has been freed.
    #[inline(always)]
    pub fn object_ref(&self, place: usize) -> Result<Option<ObjectRef<'_>>, Memory>
        ensures found { IfOk result (λ found. slice_get (map object_in self.now) place ≡
            option_map seen_object found) }
        ensures gone { OnErr result (IsGone self.now place) }
    {
        match seek(self.ranges.as_slice(), self.from, self.lent, place) {
            Spot::Own(i) => self.own.object_ref(i),
            Spot::Lent {
                object: Some(object),
                base,
            } => Ok(Some(show_lent(object, base))),
            Spot::Lent {
                object: None,
                base: _base,
            } => Ok(None),
        }
    }

    /// Takes the object at a place, to be changed and then put there again. Until then it counts as freed. Returns
    /// `Memory` if it has been freed before, and for an attached object, since no program changes one.
    #[inline(always)]
    pub fn take(&mut self, place: usize) -> Result<Option<Object>, Memory>
        ensures same { map object_in self.new ≡ map object_in self.old }
        ensures taken { IfOk result (λ found. slice_get (map object_in self.old) place ≡
            option_map object_of found) }
        ensures kept { OnErr result (IsKept self.old place) }
    {
        match seek(self.ranges.as_slice(), self.from, self.lent, place) {
            Spot::Own(i) => self.own.take(i),
            Spot::Lent {
                object: Some(_object),
                base: _base,
            } => Err(Memory::object_not_there()),
            Spot::Lent {
                object: None,
                base: _base,
            } => Ok(None),
        }
    }

    /// Puts another object at a place, if one is there. Returns `Memory`, and puts nothing, for an attached object,
    /// since no program changes one.
    #[inline(always)]
    pub fn put(&mut self, place: usize, object: Object) -> Result<(), Memory>
        ensures put { OnOk result (map object_in self.new ≡ slice_set (map object_in self.old)
            place (object_of object)) }
        ensures same { OnErr result (self.new ≡ self.old) }
        ensures lent { OnErr result (IsLent self.old place) }
    {
        match seek(self.ranges.as_slice(), self.from, self.lent, place) {
            Spot::Own(i) => {
                self.own.put(i, object);
                Ok(())
            }
            Spot::Lent {
                object: Some(_object),
                base: _base,
            } => {
                drop(object);
                Err(Memory::object_not_there())
            }
            Spot::Lent {
                object: None,
                base: _base,
            } => {
                drop(object);
                Ok(())
            }
        }
    }

    /// Returns the bytes that the object at a place counts for, or 0 if there is none, or `Memory` if it has been freed.
    pub fn size_at(&self, place: usize) -> Result<u128, Memory>
        ensures found { IfOk result
            (λ n. n ≡ found_bytes (slice_get (map object_in self.now) place)) }
        ensures counted { IfOk result (λ n. n ≡ copy_bytes (slice_get self.now place)) }
        ensures gone { OnErr result (IsGone self.now place) }
    {
        match seek(self.ranges.as_slice(), self.from, self.lent, place) {
            Spot::Own(i) => self.own.size(i),
            Spot::Lent {
                object: Some(object),
                base: _base,
            } => Ok(size_of(frozen_shape(object))),
            Spot::Lent {
                object: None,
                base: _base,
            } => Ok(0),
        }
    }

    /// Adds an own object after all others.
    ///
    /// # Errors
    ///
    /// Returns `Memory`, and adds nothing, if an allocation fails.
    pub fn push(&mut self, object: Object) -> Result<(), Memory>
        ensures pushed { OnOk result (self.new ≡ self.old ++ own (object_of object) false ∷ []) }
        ensures same { OnErr result (self.new ≡ self.old) }
    {
        self.own.push(object)?;
        Ok(())
    }

    /// Attaches objects, which are then after all others. The time does not depend on their number.
    ///
    /// # Errors
    ///
    /// Returns `Memory`, and attaches nothing, if an allocation fails, or for a place of more than 32 bits.
    pub fn attach(&mut self, objects: &Arc<FrozenObjects, Global>) -> Result<(), Memory>
        ensures lent { OnOk result (self.new ≡ self.old ++ map (lent_at (length self.old))
            (arc_value objects.now)) }
        ensures same { OnErr result (self.new ≡ self.old) }
    {
        let range = range_behind(self.own.len(), self.lent, objects)?;
        let (from, lent) = (range.end, range.through);
        self.ranges.push(range)?;
        self.from = from;
        self.lent = lent;
        Ok(())
    }

    /// Returns how many own objects there are, with those that have been freed.
    pub(crate) fn own_len(&self) -> usize {
        self.own.len()
    }

    /// Returns how many pages the own objects have. The last one may have few objects, or none.
    pub(crate) fn pages(&self) -> usize {
        self.own.pages()
    }

    /// Returns how many own objects have memory in the page with a number.
    pub(crate) fn page_len(&self, page: usize) -> usize {
        self.own.page_len(page)
    }

    /// Returns how many full pages have memory.
    pub(crate) fn standing_len(&self) -> usize {
        self.own.standing_len()
    }

    /// Returns the number of one of the full pages that have memory.
    pub(crate) fn standing_page(&self, k: usize) -> Option<usize> {
        self.own.standing_page(k)
    }

    /// Gives the memory of one of the full pages that have some back, if all its objects have been freed. The last one of
    /// these pages is then in its place.
    pub(crate) fn give_back(&mut self, k: usize)
        ensures { self.new ≡ self.old }
    {
        self.own.give_back(k);
    }

    /// Returns the gaps between own objects, in order. The time depends on the number of ranges, and not on what is in
    /// them.
    pub(crate) fn gaps(&self, alloc: Global) -> Result<Vec<Gap>, Memory> {
        let mut gaps = Vec::new(alloc);
        for range in self.ranges.iter() {
            gaps.push(Gap {
                start: range.start,
                end: range.end,
                through: range.through,
            })?;
        }
        Ok(gaps)
    }

    /// Frees the own object with a number, and returns the bytes that it counted for. These are 0 if it was freed
    /// before. For a contract it is still there.
    pub fn free(&mut self, number: usize, spare: &mut SpareRoom) -> u128
        ensures same { map object_in self.new ≡ map object_in self.old }
        ensures bytes { result ≡ bytes_of_own self.old number }
    {
        self.own.free(number, spare)
    }
}

// Makes the range of objects that are attached after all own and attached ones, or returns `Memory` for a place of more
// than 32 bits.
fn range_behind(
    own: usize,
    lent: u32,
    objects: &Arc<FrozenObjects, Global>,
) -> Result<Range, Memory>
    requires { own < 2 ^ 63 }
    ensures start { IfOk result (λ r. r.start ≡ own + lent) }
    ensures end { IfOk result (λ r. r.end ≡ r.start + length (arc_value objects.now)) }
    ensures through { IfOk result (λ r. r.through ≡ lent + length (arc_value objects.now)) }
    ensures objects { IfOk result (λ r. arc_value r.objects ≡ arc_value objects.now) }
{
    let start = own + lent as usize;
    let wanted = start as u128 + objects.len() as u128;
    let Ok(last) = u32::try_from(wanted) else {
        return Err(Memory::no_number_left(wanted));
    };
    let first = start as u32;
    let through = lent + (last - first);
    Ok(Range {
        start: first,
        end: last,
        through,
        objects: Arc::try_clone(objects)?,
    })
}
