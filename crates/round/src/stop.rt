//! Why an evaluation ended early.
use base_types::Memory;
use std::alloc::{AllocError, AllocFailed};
use thiserror::Error;

/// Why an evaluation ended early.
#[derive(Debug, Drop, Error)]
pub enum Stop {
    /// The budget of turns is spent.
    #[error("budget spent")]
    Budget,
    /// An allocation failed.
    #[error("out of memory")]
    Memory(Memory),
}

impl From<Memory> for Stop {
    ghost use Rattle.std.specs.Prelude.{◌≡◌};
    ghost use Rattle.round.specs.declared.stop.Stop.TheVariants.{Memory};
    ghost use Rattle.base_types.specs.Refusals.{memory};

    ghost from_gives = { λ _ e. e ≡ Memory memory };

    fn from(error: Memory) -> Stop {
        Stop::Memory(error)
    }
}
