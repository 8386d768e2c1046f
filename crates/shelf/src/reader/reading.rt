//! What a reader reads and learns.
ghost use Rattle.std.specs.Prelude.{◌≡◌, ◌⊎◌, ◌≤◌, length, Some, IfOk, OnErr};
ghost use Rattle.left_right.specs.Sides.{view};
ghost use mathlib.Core.List.{IsPrefix};
ghost use Rattle.shelf.specs.Lists.{entry, NotBefore};
ghost use Rattle.shelf.specs.Rules.{BookId, book_id, publishes_of};
ghost use Rattle.shelf.specs.Shelves.{known_to, shelf_read_by, told_in, shelf_told_of};

use super::entering::{NoRead, enter};
use super::{Reader, Told};
use crate::history::Prefix;
use crate::rule::Entrance;
use crate::store::Store;
use base_types::{Memory, Text};
use core::mem::replace_with;
use thiserror::Error;

/// Why a read gives nothing.
#[derive(Debug, Drop, Error)]
pub enum ReadError {
    /// An allocation failed.
    #[error("out of memory")]
    Memory(Memory),
    /// `left_right` refused the entry.
    #[error("no read")]
    NoRead(NoRead),
}

impl Reader {
    /// Returns what the name has after a list that begins with all that this reader knows. From then on it knows that
    /// list.
    pub fn read(&mut self, name: &Text) -> Result<Option<(u64, Text)>, ReadError>
        ensures shelf { shelf_read_by self.new ≡ shelf_read_by self.old }
        ensures later { IfOk result (λ _. IsPrefix (known_to self.old) (known_to self.new)) }
        ensures entry { IfOk result (λ found. found ≡ entry (known_to self.new) name.now) }
        ensures rises { IfOk result
            (λ found. NotBefore (entry (known_to self.old) name.now) found) }
        ensures err { OnErr result (known_to self.new ≡ known_to self.old) }
    {
        let least = self.list.len();
        let (list, found) = replace_with(&mut self.entrance, (name, least), read_entry)?;
        let _one_list = self.list.longest(&list);
        self.list = list;
        Ok(found)
    }

    /// Learns a list that the keeper made known. Of that prefix and the one that this reader knew, the longer one is
    /// known from then on.
    pub fn learn(&mut self, told: &Told)
        requires shelf { shelf_told_of told.now ≡ shelf_read_by self.old }
        ensures shelf { shelf_read_by self.new ≡ shelf_read_by self.old }
        ensures known { IsPrefix (known_to self.old) (known_to self.new) }
        ensures told { IsPrefix (told_in told.now) (known_to self.new) }
        ensures one { (known_to self.new ≡ known_to self.old)
            ⊎ (known_to self.new ≡ told_in told.now) }
    {
        self.list = self.list.longest(&told.list);
    }
}

// Enters, and looks up a name in a list of at least this many publishes.
fn read_entry(
    entrance: Entrance,
    asked: (&Text, u64),
) -> (Entrance, Result<(Prefix, Option<(u64, Text)>), ReadError>)
    ensures view { view result.0.place ≡ view entrance.place }
    ensures list { IfOk result.1 (λ r. (t : BookId) → view entrance.place ≡ Some t
        → t ≡ book_id r.0.known.book) }
    ensures entry { IfOk result.1 (λ r. r.1 ≡ entry r.0.known.log asked.entry.0.now) }
    ensures long { IfOk result.1 (λ r. asked.entry.1 ≤ length r.0.known.log) }
{
    let (name, least) = asked;
    match enter(entrance) {
        Ok(reading) => {
            let found = read_entry_in(reading.get(), name, least);
            (reading.leave(), found)
        }
        Err((entrance, refused)) => (entrance, Err(ReadError::NoRead(refused))),
    }
}

// Looks up a name in a copy of a list of at least this many publishes.
fn read_entry_in(
    store: &Store,
    name: &Text,
    least: u64,
) -> Result<(Prefix, Option<(u64, Text)>), ReadError>
    ensures list { IfOk result (λ r. r.0 ≡ store.now.list) }
    ensures entry { IfOk result (λ r. r.1 ≡ entry (publishes_of store.now.contents.log.items)
        name.now) }
    ensures long { IfOk result (λ r. least ≤ length store.now.list.known.log) }
{
    // The keeper makes nothing known that readers do not get.
    let publishes = store.list.len();
    if publishes < least {
        return Err(ReadError::NoRead(NoRead::old_copy(publishes, least)));
    }
    match store.find(name) {
        Ok(found) => Ok((store.list.again(), found)),
        Err(error) => Err(ReadError::Memory(error)),
    }
}
