//! Places of names in blocks. Each name of a tree keeps the place at which it was found last. Whenever the same code is
//! executed, the name is at that place, so it is looked up there first.
ghost use Rattle.std.specs.Prelude.{◌≡◌, true, IfOk, IfSome};
ghost use Rattle.values_semantics.specs.Comparing.{same_text};
ghost use Rattle.evaluator_state.specs.Once.{names_in, differ};
ghost use Rattle.evaluator_state.specs.View.{block_of, block_view};
ghost use Rattle.evaluator_state.specs.Places.{FirstPlace, FirstSo, is_slot};

use crate::state::{Block, Slot, SlotBlock};
use base_types::{Memory, Text};
use indexmap::IndexSet;
use std::alloc::Global;
use std::sync::atomic::{AtomicUsize, Ordering};

/// The most names that are compared with each other; for more a set is made.
const FEW: usize = 16;

/// The most bytes of a short name.
const SHORT: usize = 32;

/// Returns whether two names are the same. Most names are short, and the bytes of those are compared one by one.
pub(crate) fn same_bytes(a: &[u8], b: &[u8]) -> bool
    ensures { result ≡ same_text a.now b.now }
{
    if a.len() != b.len() {
        return false;
    }
    if a.len() > SHORT {
        return a == b;
    }
    for i in 0..a.len() {
        if a[i] != b[i] {
            return false;
        }
    }
    true
}

/// Returns whether two names are the same.
pub(crate) fn is_same(x: &Text, y: &Text) -> bool
    ensures { result ≡ same_text x.now y.now }
{
    same_bytes(x.as_str().as_bytes(), y.as_str().as_bytes())
}

// Returns the first place of a name.
fn first_place(slots: &[Slot], x: &Text) -> Option<usize>
    ensures { FirstPlace (is_slot x.now) slots.now result }
{
    for i in 0..slots.len() {
        if is_same(x, &slots[i].name) {
            return Some(i);
        }
    }
    None
}

/// Returns whether a name is known to be first at a place.
pub(crate) fn is_at(block: &SlotBlock, x: &Text, place: usize) -> bool
    ensures { result ≡ true → FirstSo (is_slot x.now) block.now.slots.items place }
{
    if !block.once || place >= block.slots.len() {
        return false;
    }
    is_same(x, &block.slots[place].name)
}

// Returns the place of a name in a block, wherever it was found before.
fn search(block: &SlotBlock, x: &Text) -> Option<usize>
    ensures { FirstPlace (is_slot x.now) block.now.slots.items result }
{
    match &block.index {
        Some(index) => index.get_index_of(x),
        None => first_place(block.slots.as_slice(), x),
    }
}

/// Returns the place of a name in a block, which is where it was found last unless other code was executed in between.
pub(crate) fn place_in(block: &SlotBlock, x: &Text, last: &AtomicUsize) -> Option<usize>
    ensures { FirstPlace (is_slot x.now) block.now.slots.items result }
{
    let place = last.load(Ordering::Relaxed);
    if is_at(block, x, place) {
        return Some(place);
    }
    let found = search(block, x);
    if let Some(i) = found {
        last.store(i, Ordering::Relaxed);
    }
    found
}

// Returns whether each of a few names occurs once.
fn few_differ(slots: &[Slot]) -> bool
    ensures { result ≡ true → differ (names_in slots.now) ≡ true }
{
    for i in 0..slots.len() {
        if first_place(&slots[..i], &slots[i].name).is_some() {
            return false;
        }
    }
    true
}

// Returns the names of many slots, if each occurs once.
fn index_of(alloc: Global, slots: &[Slot]) -> Result<Option<IndexSet<Text>>, Memory>
    ensures { IfOk result
        (λ o. IfSome o (λ s. (s.keys ≡ names_in slots.now)
        × (differ (names_in slots.now) ≡ true))) }
{
    let mut index = IndexSet::with_capacity(alloc, slots.len())?;
    for slot in slots.iter() {
        let is_new = index.insert(slot.name.share()?)?;
        if !is_new {
            return Ok(None);
        }
    }
    Ok(Some(index))
}

impl Block {
    /// Makes a block with these slots, whose names differ. There must be few slots, since `new` makes a set of more.
    pub fn small_block(slots: Vec<Slot>) -> Block
        requires { differ (names_in slots.items) ≡ true }
        ensures { block_view result ≡ block_of slots }
    {
        Block::Slots(SlotBlock {
            slots,
            once: true,
            index: None,
        })
    }

    /// Makes a block with these slots.
    ///
    /// # Errors
    ///
    /// Returns `Memory` if an allocation fails.
    pub fn new(slots: Vec<Slot>) -> Result<Block, Memory>
        ensures { IfOk result (λ b. block_view b ≡ block_of slots) }
    {
        if slots.len() <= FEW {
            let once = few_differ(slots.as_slice());
            return Ok(Block::Slots(SlotBlock {
                slots,
                once,
                index: None,
            }));
        }
        let index = index_of(*slots.allocator(), slots.as_slice())?;
        let once = index.is_some();
        Ok(Block::Slots(SlotBlock { slots, once, index }))
    }
}
