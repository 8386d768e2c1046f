//! Which objects the names of an evaluation reach.

use crate::sparse::SparseBlock;
use crate::state::{Block, FileNames, FunctionDefaults, SlotBlock, State};
use base_types::{Memory, Text};
use std::collections::HashMap;
use values_heap::{Marks, Val};

// Marks the values of slots as reached.
fn mark_slots(reached: &mut Marks, block: &SlotBlock) -> Result<(), Memory> {
    for slot in block.slots.iter() {
        if let Some(value) = slot.value {
            reached.add(value)?;
        }
    }
    Ok(())
}

// Marks the values of many named arguments as reached.
fn mark_table(reached: &mut Marks, table: &HashMap<Text, Val>) -> Result<(), Memory> {
    for value in table.values() {
        reached.add(*value)?;
    }
    Ok(())
}

// Marks what a call gave, and the values that were bound since, as reached. The defaults are reached by their file.
fn mark_sparse(reached: &mut Marks, block: &SparseBlock) -> Result<(), Memory> {
    reached.add_all(block.positional.as_slice())?;
    reached.add_all(block.values.as_slice())?;
    if let Some(table) = &block.table {
        mark_table(reached, table)?;
    }
    for value in block.bound.values() {
        reached.add(*value)?;
    }
    Ok(())
}

// Marks the values of a block's names as reached.
fn mark_block(reached: &mut Marks, block: &Block) -> Result<(), Memory> {
    match block {
        Block::Slots(block) => mark_slots(reached, block),
        Block::Sparse(block) => mark_sparse(reached, block),
    }
}

/// Marks the values of the names in blocks as reached.
pub fn mark_blocks(reached: &mut Marks, blocks: &[Block]) -> Result<(), Memory> {
    for block in blocks {
        mark_block(reached, block)?;
    }
    Ok(())
}

/// Marks the values of defaults as reached.
pub(crate) fn mark_defaults(reached: &mut Marks, kept: &[FunctionDefaults]) -> Result<(), Memory> {
    for k in kept {
        reached.add_all(k.values.as_slice())?;
    }
    Ok(())
}

// Marks the values of a file's names and defaults as reached.
fn mark_file(reached: &mut Marks, file: &FileNames) -> Result<(), Memory> {
    mark_block(reached, &file.block)?;
    file.defaults.reach(reached)
}

/// Marks the values of the names and defaults of files as reached.
pub(crate) fn mark_files(reached: &mut Marks, files: &[FileNames]) -> Result<(), Memory> {
    for file in files {
        mark_file(reached, file)?;
    }
    Ok(())
}

/// Marks the values of all names and defaults of an evaluation as reached.
pub fn mark_names(reached: &mut Marks, state: &State) -> Result<(), Memory> {
    state.files.reach(reached)?;
    mark_blocks(reached, state.blocks.as_slice())
}
