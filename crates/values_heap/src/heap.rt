//! The heap.
ghost use Rattle.std.specs.Prelude.{◌≡◌, [], length, option_map, slice_get, IfOk, OnOk, OnErr, ◌+◌, ◌*◌, ◌-◌, ◌≤◌, nat_le};
ghost use Rattle.values_semantics.specs.Outcome.{gives};
ghost use Rattle.values_semantics.specs.Heap.{at, puts, makes, makes_text, makes_list, makes_tuple, makes_dict};
ghost use Rattle.values_objects.specs.Objects.{object_of};
ghost use Rattle.values_objects.specs.Looks.{seen_object};
ghost use Rattle.std.specs.Arc.{arc_value};
ghost use Rattle.values_heap.specs.View.{store_of, lends, Says};
ghost use Rattle.values_heap.specs.Reclamation.{IsGone, IsLent, IsKept};
ghost use Rattle.values_objects.specs.ObjectBytes.{copy_bytes, object_bytes};
ghost use Rattle.values_heap.specs.MemoryUse.{most_held, place_bytes, Counted, CountedUnless};

use crate::objects::Objects;
use base_types::Memory;
use indexmap::IndexMap;
use std::alloc::Global;
use std::sync::Arc;
use values_frozen_objects::FrozenObjects;
use values_objects::{
    ENTRY, Halt, MAX_LENGTH, MEMBER, Object, ObjectRef, SpareRoom, shape_of, size_of,
};
use values_semantics::{Bytes, Entry, Key, Val, faults};

/// The number of containers, one inside another, that a walk may enter.
pub const MAX_DEPTH: u32 = 64;

/// The most bytes that the objects of one evaluation may take together, with the copies that loops iterate over. A
/// freed object does not count. Texts that are shared with a file or a module count too.
pub const MAX_BYTES: u64 = 268_435_456;

// The number of charged bytes at which garbage is collected for the first time.
const FIRST_FULL: u64 = 8_388_608;

/// The bytes that are made in the time in which a collection visits one place.
const BYTES_A_PLACE: u64 = 64;

/// The most bytes to which the places put off a collection, so that `MAX_BYTES` is kept.
const MAX_BY_PLACES: u64 = 134_217_728;

/// What the values of an evaluation are on: the objects, the places of those that are iterated, in the order in which
/// the iterations began, and the steps that are left.
#[derive(Drop)]
pub struct Heap {
    pub alloc: Global,
    pub objects: Objects,
    pub iterated: Vec<usize>,
    pub steps: u64,
    // Memory of objects that were given back, for new ones.
    pub spare: SpareRoom,
    held: u64,
    // The number of charged bytes at which garbage is collected next.
    full_at: u64,
}

impl Heap {
    /// Makes an empty heap.
    pub fn new(alloc: Global, steps: u64) -> Heap
        ensures store { store_of result ≡ record { heap = []; iterated = []; steps = steps } }
        ensures held { result.held ≡ 0 }
    {
        Heap {
            alloc,
            objects: Objects::new(alloc),
            iterated: Vec::new(alloc),
            steps,
            spare: SpareRoom::new(alloc),
            held: 0,
            full_at: FIRST_FULL,
        }
    }

    /// Returns the object at a place, if one is there, or `Memory` if it has been freed.
    #[inline(always)]
    pub fn object(&self, place: usize) -> Result<Option<ObjectRef<'_>>, Memory>
        ensures found { IfOk result (λ found. at place (store_of self.now) ≡ option_map seen_object
            found) }
        ensures gone { OnErr result (IsGone self.now.objects place) }
    {
        self.objects.object_ref(place)
    }

    /// Takes the object at a place, to be changed and then put there again. Until then it counts as freed. Returns
    /// `Memory` if it has been freed before, or if it is attached, since no program changes an attached object.
    #[inline(always)]
    pub fn take(&mut self, place: usize) -> Result<Option<Object>, Memory>
        ensures same { store_of self.new ≡ store_of self.old }
        ensures taken { IfOk result (λ found. at place (store_of self.old) ≡ option_map object_of
            found) }
        ensures kept { OnErr result (IsKept self.old.objects place) }
        ensures held { self.new.held ≡ self.old.held }
    {
        self.objects.take(place)
    }

    /// Puts another object at a place, if one is there. `charge_members` and `charge_entry` charge the bytes that it
    /// takes more. Returns `Memory`, and puts nothing, if an attached object is there, since no program changes one.
    #[inline(always)]
    pub fn put(&mut self, place: usize, object: Object) -> Result<(), Memory>
        ensures put { OnOk result (puts place (object_of object) (store_of self.old) ≡ gives tt
            (store_of self.new)) }
        ensures same { OnErr result (store_of self.new ≡ store_of self.old) }
        ensures lent { OnErr result (IsLent self.old.objects place) }
        ensures held { self.new.held ≡ self.old.held }
    {
        self.objects.put(place, object)
    }

    /// Returns the bytes that are charged for the objects and for the copies that loops iterate over. A freed object
    /// does not count.
    pub fn allocated_bytes(&self) -> u64
        ensures { result ≡ self.now.held }
    {
        self.held
    }

    // Charges bytes that the objects are about to take. Returns `Memory` if they would take more than `MAX_BYTES`.
    #[inline(always)]
    fn charge(&mut self, bytes: u128) -> Result<(), Halt>
        ensures same { store_of self.new ≡ store_of self.old }
        ensures counted { Counted bytes self.old.held result self.new.held }
    {
        let all = (self.held as u128).saturating_add(bytes);
        if all > MAX_BYTES as u128 {
            return Err(Halt::Memory(Memory::over_the_heap_limit(all)));
        }
        self.held = all as u64;
        Ok(())
    }

    /// Returns whether it is time to collect garbage.
    pub fn needs_collection(&self) -> bool
        ensures { result ≡ nat_le self.now.full_at self.now.held }
    {
        self.held >= self.full_at
    }

    /// Puts off the next collection until twice as many bytes are allocated as now, and at least `FIRST_FULL`. A
    /// collection visits the places of all own objects whose page has memory, so the threshold also grows by some bytes
    /// for each of them.
    pub(crate) fn set_threshold(&mut self, places: usize)
        ensures same { store_of self.new ≡ store_of self.old }
        ensures held { self.new.held ≡ self.old.held }
    {
        let visit = (places as u64).saturating_mul(BYTES_A_PLACE);
        let by_places = self.held.saturating_add(visit).min(MAX_BY_PLACES);
        self.full_at = self.held.saturating_mul(2).max(FIRST_FULL).max(by_places);
    }

    /// Charges members that a list is about to get, 16 bytes each. Returns `Memory` if the objects would take more than
    /// `MAX_BYTES` bytes.
    #[inline(always)]
    pub fn charge_members(&mut self, number: usize) -> Result<(), Halt>
        ensures same { store_of self.new ≡ store_of self.old }
        ensures counted { Counted (number * 16) self.old.held result self.new.held }
    {
        self.charge(number as u128 * MEMBER)
    }

    /// Charges an entry that a dictionary is about to get, 96 bytes, as `charge_members` does.
    #[inline(always)]
    pub fn charge_entry(&mut self) -> Result<(), Halt>
        ensures same { store_of self.new ≡ store_of self.old }
        ensures counted { Counted 96 self.old.held result self.new.held }
    {
        self.charge(ENTRY)
    }

    /// Charges the copy that a loop iterates over of what is at a place, as `charge_members` does. Returns `Memory`, and
    /// charges nothing, also if what is there has been freed.
    pub fn charge_copy(&mut self, place: usize) -> Result<(), Halt>
        ensures same { store_of self.new ≡ store_of self.old }
        ensures counted { CountedUnless (IsGone self.old.objects place) (place_bytes place
            (store_of self.old)) self.old.held result self.new.held }
    {
        let bytes = self.objects.size_at(place)?;
        self.charge(bytes)
    }

    /// Refunds the copy that a loop iterated over. The object at the place must have kept its size since `charge_copy`,
    /// and must not have been freed; otherwise the count is wrong, and nothing but the count.
    pub fn refund_copy(&mut self, at: usize)
        ensures same { store_of self.new ≡ store_of self.old }
        ensures held { self.new.held ≡ self.old.held - copy_bytes (slice_get self.old.objects at) }
    {
        if let Ok(bytes) = self.objects.size_at(at) {
            self.release(bytes);
        }
    }

    // Refunds bytes.
    pub(crate) fn release(&mut self, bytes: u128)
        ensures same { store_of self.new ≡ store_of self.old }
        ensures counted { self.new.held ≡ self.old.held - bytes }
        ensures kept { self.new.objects ≡ self.old.objects }
    {
        self.held = (self.held as u128).saturating_sub(bytes) as u64;
    }

    /// Makes an object. Returns `Memory` also if the objects would take more than `MAX_BYTES` bytes.
    pub fn make(&mut self, object: Object) -> Result<Val, Halt>
        ensures held { OnOk result (self.new.held ≡ self.old.held + object_bytes
            (object_of object)) }
        ensures within { OnOk result (self.new.held ≤ most_held) }
        ensures says { Says (makes (object_of object) (store_of self.old)) result
            (store_of self.new) }
    {
        self.charge(size_of(shape_of(&object)))?;
        let place = self.objects.len();
        self.objects.push(object)?;
        Ok(Val::At(place))
    }

    /// Attaches objects to the heap. They are after all others, and the places that values in them name are moved by
    /// the number of the others. The time does not depend on the number of attached objects. They count for nothing,
    /// since they are shared. Returns the place of the first.
    ///
    /// # Errors
    ///
    /// Returns `Memory`, and attaches nothing, if an allocation fails, or for a place of more than 32 bits.
    pub fn attach(&mut self, objects: &Arc<FrozenObjects, Global>) -> Result<u32, Memory>
        ensures first { IfOk result (λ first. first ≡ length (store_of self.old).heap) }
        ensures lent { OnOk result
            (store_of self.new ≡ lends (arc_value objects.now) (store_of self.old)) }
        ensures same { OnErr result (store_of self.new ≡ store_of self.old) }
        ensures held { self.new.held ≡ self.old.held }
    {
        let wanted = self.objects.len() as u128;
        let Ok(first) = u32::try_from(wanted) else {
            return Err(Memory::no_number_left(wanted));
        };
        self.objects.attach(objects)?;
        Ok(first)
    }

    /// Makes a string, or returns fault 13.
    pub fn make_text(&mut self, bytes: Vec<u8>) -> Result<Val, Halt>
        ensures { Says (makes_text bytes.items (store_of self.old)) result (store_of self.new) }
    {
        if bytes.len() > MAX_LENGTH {
            return Err(Halt::Code(faults::TOO_LARGE));
        }
        let text = Bytes::new(self.alloc, bytes)?;
        let made = self.make(Object::Text(text))?;
        Ok(made)
    }

    /// Makes a list, or returns fault 13.
    pub fn make_list(&mut self, members: Vec<Val>) -> Result<Val, Halt>
        ensures { Says (makes_list members.items (store_of self.old)) result (store_of self.new) }
    {
        if members.len() > MAX_LENGTH {
            return Err(Halt::Code(faults::TOO_LARGE));
        }
        let made = self.make(Object::List {
            members,
            frozen: false,
        })?;
        Ok(made)
    }

    /// Makes a tuple, or returns fault 13.
    pub fn make_tuple(&mut self, members: Vec<Val>) -> Result<Val, Halt>
        ensures { Says (makes_tuple members.items (store_of self.old)) result (store_of self.new) }
    {
        if members.len() > MAX_LENGTH {
            return Err(Halt::Code(faults::TOO_LARGE));
        }
        let made = self.make(Object::Tuple(members))?;
        Ok(made)
    }

    /// Makes a dictionary, or returns fault 13.
    pub fn make_dict(&mut self, entries: IndexMap<Key, Entry>) -> Result<Val, Halt>
        ensures { Says (makes_dict entries.entries (store_of self.old)) result (store_of self.new) }
    {
        if entries.len() > MAX_LENGTH {
            return Err(Halt::Code(faults::TOO_LARGE));
        }
        let entries = Box::new(self.alloc, entries)?;
        let frozen = false;
        let made = self.make(Object::Dict { entries, frozen })?;
        Ok(made)
    }
}
