//! Why a file is refused.
ghost use Rattle.syntax_tokens.specs.declared.refusal.Refused.TheVariants.{Memory};
ghost use Rattle.std.specs.Prelude.{◌≡◌};

use base_types::Memory;
use std::alloc::{AllocError, AllocFailed};
use thiserror::Error;

/// Why a file is refused.
#[derive(Clone, Copy, Debug, Drop, Error)]
pub enum Refused {
    /// The text is not in the language. The code is 2 where a byte is over 127, with the line of the first one, counted
    /// from 1. It is 3 where the text breaks the syntax, and 12 where it is nested too deep, both with the line 0.
    #[error("syntax fault {code} in line {line}")]
    Syntax { code: u64, line: usize },
    /// An allocation failed.
    #[error("out of memory")]
    Memory(Memory),
}

impl From<AllocError> for Refused {
    ghost use Rattle.base_types.specs.Refusals.{memory};

    ghost from_gives = { λ _ e. e ≡ Memory memory };

    fn from(error: AllocError) -> Refused {
        Refused::Memory(Memory::from(error))
    }
}

impl<T: Drop> From<AllocFailed<T>> for Refused {
    ghost use Rattle.base_types.specs.Refusals.{memory};

    ghost from_gives = { λ _ e. e ≡ Memory memory };

    fn from(error: AllocFailed<T>) -> Refused {
        Refused::Memory(Memory::from(error))
    }
}

impl From<Memory> for Refused {
    ghost use Rattle.base_types.specs.Refusals.{memory};

    ghost from_gives = { λ _ e. e ≡ Memory memory };

    fn from(error: Memory) -> Refused {
        Refused::Memory(error)
    }
}
