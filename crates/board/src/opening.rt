//! How a board is opened.
ghost use Rattle.std.specs.Prelude.{◌≡◌, ℕ, All, length, IfOk, IsErrOf};
ghost use mathlib.Core.Option.{some};
ghost use lib.ListN.{get_elem?};
ghost use Rattle.board.specs.declared.opening.OpenError.TheVariants as open_error;
ghost use Rattle.board.specs.Orders.{first_of};
ghost use Rattle.board.specs.Places.{IsNewHost, IsNewHand, IsOutOfRange, IsInRange};
ghost use Rattle.base_types.specs.Refusals.{memory};

use crate::board::{Board, Hand, Host};
use crate::looking::first_place;
use crate::table_rule::Enlist;
use atomic_table::Table;
use base_types::Memory;
use keys::Rules;
use std::alloc::{AllocError, Global};

/// Why no board was opened.
#[derive(Drop)]
pub enum OpenError {
    /// There are not 1 to 64 places, or not 1 to 16 hands.
    Range,
    /// An allocation failed.
    Memory(Memory),
}

impl From<AllocError> for OpenError {
    ghost use Rattle.std.specs.Prelude.{◌≡◌};
    ghost use Rattle.board.specs.declared.opening.OpenError.TheVariants.{Memory};
    ghost use Rattle.base_types.specs.Refusals.{memory};

    ghost from_gives = { λ _ e. e ≡ Memory memory };

    fn from(error: AllocError) -> OpenError {
        OpenError::Memory(Memory::from(error))
    }
}

impl<R: Rules> Board<R> {
    /// Opens a board with this many places, and returns its host and this many hands, which begin to look for jobs at
    /// places that lie as far apart as they can. Returns `Range` exactly if there are not 1 to 64 places and 1 to 16
    /// hands, and `Memory` if an allocation fails.
    pub fn open(
        alloc: Global,
        capacity: usize,
        hands: usize,
    ) -> Result<(Board<R>, Host<R>, Vec<Hand<R>>), OpenError>
        ensures range { IsErrOf result open_error.Range → IsOutOfRange capacity hands }
        ensures memory { IsErrOf result (open_error.Memory memory) → IsInRange capacity hands }
        ensures board { IfOk result (λ made. (made.0.capacity ≡ capacity)
            × IsInRange capacity hands) }
        ensures host { IfOk result (λ made. IsNewHost made.0.table.shared.table_id capacity hands
            made.1.seat) }
        ensures hands { IfOk result (λ made. (length made.2.items ≡ hands)
            × All (λ h. IsNewHand made.0.table.shared.table_id h.seat) made.2.items) }
        ensures places { IfOk result (λ made. (made.1.cleared ≡ 0) × ((k : ℕ) (h : _)
            → get_elem? made.2.items k ≡ some h → h.home ≡ first_of capacity hands k)) }
    {
        if capacity == 0 || capacity > 64 || hands == 0 || hands > 16 {
            return Err(OpenError::Range);
        }
        let words = Vec::from_elem(alloc, 0u64, capacity + 1)?;
        let mut list = Vec::with_capacity(alloc, hands)?;
        let (table, mut seat) = match Table::vacant(
            alloc,
            words.as_slice(),
            capacity,
            &(capacity as u64),
        ) {
            Ok(made) => made,
            Err(error) => {
                list.destroy_empty();
                return Err(OpenError::from(error));
            }
        };
        for number in 0..hands {
            let hand = table.shared.split_seat::<Enlist>(&mut seat);
            let home = first_place(capacity, hands, number);
            list.push_reserved(Hand { seat: hand, home });
        }
        let host = Host { seat, cleared: 0 };
        Ok((Board { table, capacity }, host, list))
    }
}
