//! Blocks of names.
ghost use Rattle.std.specs.Prelude.{◌≡◌, true, false, map, is_some, Some, IfSome, IfOk, OnOk};
ghost use Rattle.evaluator_semantics.specs.Names.{slot_in, slot_among, bind_in, bind_among};
ghost use Rattle.evaluator_state.specs.View.{block_of, block_view};
ghost use Rattle.evaluator_state.specs.Places.{FirstSo, is_slot};

use crate::places::{is_at, place_in};
use crate::state::{Block, SlotBlock};
use base_types::{Memory, Text};
use std::sync::atomic::{AtomicUsize, Ordering};
use values_heap::Val;

// Returns what slots have at a name, if one has the name: its value, or `None` inside if the name is not bound.
fn slot_among_slots(block: &SlotBlock, x: &Text, last: &AtomicUsize) -> Option<Option<Val>>
    ensures { result ≡ slot_in x.now (block_of block.now.slots) }
{
    match place_in(block, x, last) {
        Some(i) => Some(block.slots[i].value),
        None => None,
    }
}

/// Returns what a block has at a name, if it has the name: its value, or `None` inside if the name is not bound.
pub fn slot_in(block: &Block, x: &Text, last: &AtomicUsize) -> Option<Option<Val>>
    ensures { result ≡ slot_in x.now (block_view block.now) }
{
    match block {
        Block::Slots(block) => slot_among_slots(block, x, last),
        Block::Sparse(block) => block.slot(x),
    }
}

// Returns the value of a name of slots, if the name is where it was found last and is bound.
fn value_at_last(block: &SlotBlock, x: &Text, last: &AtomicUsize) -> Option<Val>
    ensures { IfSome result (λ v. slot_in x.now (block_of block.now.slots) ≡ Some (Some v)) }
{
    let place = last.load(Ordering::Relaxed);
    if is_at(block, x, place) {
        block.slots[place].value
    } else {
        None
    }
}

// Returns the value of a name of a block, if the name is where it was found last and is bound.
fn value_there(block: &Block, x: &Text, last: &AtomicUsize) -> Option<Val>
    ensures { IfSome result (λ v. slot_in x.now (block_view block.now) ≡ Some (Some v)) }
{
    match block {
        Block::Slots(block) => value_at_last(block, x, last),
        Block::Sparse(_block) => None,
    }
}

/// Returns the value of a name that the innermost block has where the name was found last, if it is bound there. Most
/// names are found in this way; about the others the result says nothing.
pub(crate) fn innermost(blocks: &[Block], x: &Text, last: &AtomicUsize) -> Option<Val>
    ensures { IfSome result (λ v. slot_among x.now (map block_view blocks.now) ≡ Some (Some v)) }
{
    match blocks.first() {
        Some(block) => value_there(block, x, last),
        None => None,
    }
}

/// Returns what the innermost block that has a name has there.
pub fn slot_among(blocks: &[Block], x: &Text, last: &AtomicUsize) -> Option<Option<Val>>
    ensures { result ≡ slot_among x.now (map block_view blocks.now) }
{
    for block in blocks.iter() {
        if let Some(value) = slot_in(block, x, last) {
            return Some(value);
        }
    }
    None
}

// Binds the name that is first at a place of slots.
fn bind_at(block: &mut SlotBlock, x: &Text, place: usize, value: Val)
    requires { FirstSo (is_slot x.now) block.old.slots.items place }
    ensures { block_of block.new.slots ≡ bind_in x.now value (block_of block.old.slots) }
{
    if let Some(slot) = block.slots.get_mut(place) {
        slot.value = Some(value);
    }
}

// Binds a name of slots, if one has the name.
fn bind_slot(block: &mut SlotBlock, x: &Text, last: &AtomicUsize, value: Val)
    ensures { block_of block.new.slots ≡ bind_in x.now value (block_of block.old.slots) }
{
    if let Some(place) = place_in(block, x, last) {
        bind_at(block, x, place, value);
    }
}

/// Binds a name of a block, if the block has it.
///
/// # Errors
///
/// Returns `Memory` if an allocation fails.
pub fn bind_in(block: &mut Block, x: &Text, last: &AtomicUsize, value: Val) -> Result<(), Memory>
    ensures { OnOk result (block_view block.new ≡ bind_in x.now value (block_view block.old)) }
{
    match block {
        Block::Slots(block) => {
            bind_slot(block, x, last, value);
            Ok(())
        }
        Block::Sparse(block) => block.bind(x, value),
    }
}

// Binds a name of a block, if it has slots and the name is where it was found last. Returns whether it did.
#[tactic(auto, using(crate::proofs::Searches::has_first))]
fn bind_there(block: &mut Block, x: &Text, last: &AtomicUsize, value: Val) -> bool
    ensures had { result ≡ true → is_some (slot_in x.now (block_view block.old)) ≡ true }
    ensures bound { result ≡ true
        → block_view block.new ≡ bind_in x.now value (block_view block.old) }
    ensures kept { result ≡ false → block.new ≡ block.old }
{
    let place = last.load(Ordering::Relaxed);
    match block {
        Block::Slots(block) => {
            if !is_at(block, x, place) {
                return false;
            }
            bind_at(block, x, place, value);
            true
        }
        Block::Sparse(_block) => false,
    }
}

// Binds a name of the innermost block, if the name is where it was found last. Returns whether it did.
fn bind_innermost(blocks: &mut Vec<Block>, x: &Text, last: &AtomicUsize, value: Val) -> bool
    ensures had { result ≡ true → is_some (slot_among x.now (map block_view blocks.old.items)) ≡
        true }
    ensures bound { result ≡ true
        → map block_view blocks.new.items ≡ bind_among x.now value (map block_view
        blocks.old.items) }
    ensures kept { result ≡ false → blocks.new.items ≡ blocks.old.items }
{
    match blocks.get_mut(0) {
        Some(block) => bind_there(block, x, last, value),
        None => false,
    }
}

// Binds a name in the first block that has it, and returns whether there is one.
fn bind_first(
    blocks: &mut Vec<Block>,
    x: &Text,
    last: &AtomicUsize,
    value: Val,
) -> Result<bool, Memory>
    ensures had { IfOk result
        (λ b. b ≡ is_some (slot_among x.now (map block_view blocks.old.items))) }
    ensures bound { OnOk result
        (map block_view blocks.new.items ≡ bind_among x.now value (map block_view
        blocks.old.items)) }
    ensures kept { IfOk result (λ b. b ≡ false → blocks.new.items ≡ blocks.old.items) }
{
    for i in 0..blocks.len() {
        if slot_in(&blocks[i], x, last).is_some() {
            if let Some(block) = blocks.get_mut(i) {
                bind_in(block, x, last, value)?;
            }
            return Ok(true);
        }
    }
    Ok(false)
}

/// Binds a name in the innermost block that has it, and returns whether there is one. Most names are in the innermost
/// block, where they were found last.
///
/// # Errors
///
/// Returns `Memory` if an allocation fails.
pub fn bind_among(
    blocks: &mut Vec<Block>,
    x: &Text,
    last: &AtomicUsize,
    value: Val,
) -> Result<bool, Memory>
    ensures had { IfOk result
        (λ b. b ≡ is_some (slot_among x.now (map block_view blocks.old.items))) }
    ensures bound { OnOk result
        (map block_view blocks.new.items ≡ bind_among x.now value (map block_view
        blocks.old.items)) }
    ensures kept { IfOk result (λ b. b ≡ false → blocks.new.items ≡ blocks.old.items) }
{
    if bind_innermost(blocks, x, last, value) {
        return Ok(true);
    }
    bind_first(blocks, x, last, value)
}
