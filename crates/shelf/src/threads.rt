//! What may go to another thread.
ghost use Rattle.std.specs.Prelude.{◌≡◌};

use crate::keeper::Keeper;
use crate::reader::{Reader, Told};
use std::sync::Wait;

// Returns the same value, of any type that may go to another thread.
fn crossing<T: Send>(value: T) -> T
    ensures { result ≡ value }
{
    value
}

// Returns the same value, of any type that several threads may share.
fn share_across<T: Send + Sync>(value: T) -> T
    ensures { result ≡ value }
{
    value
}

impl Reader {
    /// Returns the same reader, which may go to another thread.
    pub fn for_another_thread(self) -> Reader
        ensures { result ≡ self }
    {
        crossing(self)
    }
}

impl Told {
    /// Returns the same `Told`, which several threads may share.
    pub fn for_other_threads(self) -> Told
        ensures { result ≡ self }
    {
        share_across(self)
    }
}

impl<R: Wait + Drop + Send> Keeper<R> {
    /// Returns the same keeper, which may go to another thread.
    pub fn for_another_thread(self) -> Keeper<R>
        ensures { result ≡ self }
    {
        crossing(self)
    }
}
