//! The error of an allocation that failed.
ghost use Rattle.std.specs.Prelude.{◌≤◌, ◌<◌, ◌^◌};

use std::alloc::{AllocError, AllocFailed};
use thiserror::Error;

/// The error that an allocation failed, or that a named limit would be passed. The call that returns it leaves its
/// arguments unchanged, unless it says otherwise.
///
/// It cannot be made at will: it comes from an error of the standard library, or from one of the makers below. Each of
/// these names its reason, and `make lint` has the list of the files that may call it.
#[derive(Clone, Copy, Debug, Error)]
#[error("out of memory")]
pub struct Memory {
    reason: AllocError,
}

impl Memory {
    /// Makes the error that this many things were to be numbered, for which 32 bits are too few.
    pub fn no_number_left(wanted: u128) -> Memory
        requires { 2 ^ 32 ≤ wanted }
    {
        let _more_than_fit = wanted;
        Memory { reason: AllocError }
    }

    /// Makes the error that the values of an evaluation would count for this many bytes, which is more than 256 MiB.
    pub fn over_the_heap_limit(bytes: u128) -> Memory
        requires { 2 ^ 28 < bytes }
    {
        let _more_than_allowed = bytes;
        Memory { reason: AllocError }
    }

    /// Makes the error that an object of an evaluation is needed which was freed, or that an attached object is to be
    /// changed. It is for the heap alone.
    pub fn object_not_there() -> Memory {
        Memory { reason: AllocError }
    }

    /// Makes the error that a library reported a failed allocation, or a thread that could not be made, by a value of
    /// its own that is no error of the standard library.
    pub fn told_by_library() -> Memory {
        Memory { reason: AllocError }
    }
}

impl From<AllocError> for Memory {
    fn from(error: AllocError) -> Memory {
        Memory { reason: error }
    }
}

impl<T: Drop> From<AllocFailed<T>> for Memory {
    fn from(_error: AllocFailed<T>) -> Memory {
        Memory { reason: AllocError }
    }
}
