//! The place that a reader has with `left_right`.
ghost use Rattle.std.specs.Prelude.{◌≡◌, None, IfOk};
ghost use Rattle.left_right.specs.Sides.{view};

use crate::rule::{Entrance, Publisher};
use std::alloc::AllocError;
use thiserror::Error;

/// The error that `left_right` had no place for a reader. It cannot be made at will: it comes from an error of the
/// library.
#[derive(Debug, Drop, Error)]
#[error("no place for a reader")]
pub struct NoPlace {
    reason: AllocError,
}

/// Takes a place for one more reader, which knows of no shelf yet.
pub(crate) fn seat(writer: &Publisher) -> Result<Entrance, NoPlace>
    ensures view { IfOk result (λ entrance. view entrance.place ≡ None) }
    ensures table { IfOk result
        (λ entrance. entrance.place.table_id ≡ writer.now.desk.place.table_id) }
{
    match writer.factory().reader() {
        Ok(entrance) => Ok(entrance),
        Err(error) => Err(NoPlace { reason: error }),
    }
}
