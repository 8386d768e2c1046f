//! Why an evaluation stops.
ghost use Rattle.std.specs.Prelude.{◌≡◌};
ghost use Rattle.values_objects.specs.declared.halt.Halt.TheVariants.{Memory};

use base_types::Memory;
use std::alloc::{AllocError, AllocFailed};
use thiserror::Error;

/// Why an evaluation stops. After that, its heap can only be dropped.
#[derive(Debug, Drop, Error)]
pub enum Halt {
    /// A fault, by its code.
    #[error("fault {0}")]
    Code(u64),
    /// An allocation failed.
    #[error("out of memory")]
    Memory(Memory),
}

impl From<AllocError> for Halt {
    ghost use Rattle.base_types.specs.Refusals.{memory};

    ghost from_gives = { λ _ e. e ≡ Memory memory };

    fn from(error: AllocError) -> Halt {
        Halt::Memory(Memory::from(error))
    }
}

impl<T: Drop> From<AllocFailed<T>> for Halt {
    ghost use Rattle.base_types.specs.Refusals.{memory};

    ghost from_gives = { λ _ e. e ≡ Memory memory };

    fn from(error: AllocFailed<T>) -> Halt {
        Halt::Memory(Memory::from(error))
    }
}

impl From<Memory> for Halt {
    ghost use Rattle.base_types.specs.Refusals.{memory};

    ghost from_gives = { λ _ e. e ≡ Memory memory };

    fn from(error: Memory) -> Halt {
        Halt::Memory(error)
    }
}
