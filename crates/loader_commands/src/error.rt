//! Why an edit is not made.
use base_types::Memory;
use thiserror::Error;

/// Why an edit was not made. Neither the files nor the version have changed.
#[derive(Debug, Drop, Error)]
pub enum EditError {
    /// The first refusal: 2 for a bad path, 3 if a file is above the path or the path is a directory, 4 if there is no
    /// such file, 7 for a text of over 262,144 bytes, 8 if the version would pass 4,294,967,295, 10 for a batch that
    /// does not have 1 to 256 changes.
    #[error("refused: {0}")]
    Refused(u64),
    /// The first change of a batch that is refused on the files after those before it, counted from 0, and the number
    /// of its refusal: 2, 3, 4 or 7.
    #[error("change {0} refused: {1}")]
    RefusedAt(usize, u64),
    /// An allocation failed.
    #[error("out of memory")]
    Memory(Memory),
}

impl From<Memory> for EditError {
    ghost use Rattle.std.specs.Prelude.{◌≡◌};
    ghost use Rattle.loader_commands.specs.declared.error.EditError.TheVariants.{Memory};
    ghost use Rattle.base_types.specs.Refusals.{memory};

    ghost from_gives = { λ _ e. e ≡ Memory memory };

    fn from(error: Memory) -> EditError {
        EditError::Memory(error)
    }
}
