//! Why an edit is refused.

use base_types::Memory;
use std::alloc::{AllocError, AllocFailed};
use thiserror::Error;

/// Why an edit is refused. The numbers are those of the replies to a client.
#[derive(Debug, Drop, Error)]
pub enum TreeError {
    /// The text is not a path.
    #[error("bad path")]
    Code2,
    /// A proper ancestor of the path is a file, or the path is a directory.
    #[error("a file or a directory is in the way")]
    Code3,
    /// There is no such file.
    #[error("no such file")]
    Code4,
    /// The text is longer than 262,144 bytes.
    #[error("text too long")]
    Code7,
    /// An allocation failed.
    #[error("out of memory")]
    Memory(Memory),
}

/// Why none of several changes was made.
#[derive(Debug, Drop, Error)]
pub enum BatchError {
    /// The first change that is refused on the files after those before it, counted from 0, and the number of its
    /// refusal.
    #[error("change {0} refused: {1}")]
    At(usize, u64),
    /// An allocation failed.
    #[error("out of memory")]
    Memory(Memory),
}

impl From<Memory> for BatchError {
    ghost use Rattle.std.specs.Prelude.{◌≡◌};
    ghost use Rattle.filetree.specs.declared.error.BatchError.TheVariants.{Memory};
    ghost use Rattle.base_types.specs.Refusals.{memory};

    ghost from_gives = { λ _ e. e ≡ Memory memory };

    fn from(error: Memory) -> BatchError {
        BatchError::Memory(error)
    }
}

impl From<Memory> for TreeError {
    ghost use Rattle.std.specs.Prelude.{◌≡◌};
    ghost use Rattle.filetree.specs.declared.error.TreeError.TheVariants.{Memory};
    ghost use Rattle.base_types.specs.Refusals.{memory};

    ghost from_gives = { λ _ e. e ≡ Memory memory };

    fn from(error: Memory) -> TreeError {
        TreeError::Memory(error)
    }
}

impl From<AllocError> for TreeError {
    ghost use Rattle.std.specs.Prelude.{◌≡◌};
    ghost use Rattle.filetree.specs.declared.error.TreeError.TheVariants.{Memory};
    ghost use Rattle.base_types.specs.Refusals.{memory};

    ghost from_gives = { λ _ e. e ≡ Memory memory };

    fn from(error: AllocError) -> TreeError {
        TreeError::Memory(Memory::from(error))
    }
}

impl<T: Drop> From<AllocFailed<T>> for TreeError {
    ghost use Rattle.std.specs.Prelude.{◌≡◌};
    ghost use Rattle.filetree.specs.declared.error.TreeError.TheVariants.{Memory};
    ghost use Rattle.base_types.specs.Refusals.{memory};

    ghost from_gives = { λ _ e. e ≡ Memory memory };

    fn from(error: AllocFailed<T>) -> TreeError {
        TreeError::Memory(Memory::from(error))
    }
}
