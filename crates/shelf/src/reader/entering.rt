//! How a reader enters the copy that is shown.
ghost use Rattle.std.specs.Prelude.{◌≡◌, ◌<◌, IfOk, IfErr};
ghost use Rattle.left_right.specs.Sides.{view};
ghost use Rattle.shelf.specs.CopyRule.{Meets};

use crate::rule::{Entrance, Reads, Visit};
use thiserror::Error;

/// The error that `left_right` refused the entry, for example because the keeper is gone. It cannot be made at will: it
/// comes from that refusal, or from a copy that has fewer publishes than the reader knows of.
#[derive(Debug, Drop, Error)]
#[error("no read")]
pub struct NoRead {
    is_old: bool,
}

impl NoRead {
    /// Makes the error that the copy which `left_right` gave has this many publishes, and the reader knows of more.
    pub(crate) fn old_copy(publishes: u64, known: u64) -> NoRead
        requires { publishes < known }
    {
        let _fewer_than_known = (publishes, known);
        NoRead { is_old: true }
    }
}

/// Enters the copy that is shown. Returns the entrance if `left_right` refuses the entry.
pub(crate) fn enter(entrance: Entrance) -> Result<Visit, (Entrance, NoRead)>
    ensures entered { IfOk result (λ visit. Meets (view entrance.place) visit.part.value
        visit.part.value (view visit.place)) }
    ensures refused { IfErr result (λ back. view back.0.place ≡ view entrance.place) }
{
    match entrance.enter_as::<Reads>() {
        Ok(visit) => Ok(visit),
        Err(entrance) => Err((entrance, NoRead { is_old: false })),
    }
}
