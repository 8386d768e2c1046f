//! How a shelf is opened.
ghost use Rattle.std.specs.Prelude.{◌≡◌, ◌↔◌, ◌<◌, ◌≤◌, [], Some, IfOk, OnOk, IsErrOf, All, drop, fold, false};
ghost use Rattle.std.specs.Vec.{vec_len};
ghost use Rattle.left_right.specs.Sides.{view};
ghost use Rattle.shelf.specs.Lists.{is_number_of_readers};
ghost use Rattle.shelf.specs.CopyRule.{after, state_of, id_of, IsReady};
ghost use Rattle.shelf.specs.Shelves.{published_by, shown_by, IsUpToDate};
ghost use Rattle.shelf.specs.declared.keeper.opening.OpenError.TheVariants.{Range};

use super::Keeper;
use super::seating::{NoPlace, seat};
use crate::history::Prefix;
use crate::reader::Reader;
use crate::rule::{BeginsWith, Publisher, SecondCopy, TakesUp};
use crate::store::Store;
use base_types::Memory;
use std::alloc::{AllocError, Global};
use std::sync::Wait;
use thiserror::Error;

/// Why there is no shelf.
#[derive(Debug, Drop, Error)]
pub enum OpenError {
    /// There are not 1 to 16 readers.
    #[error("not 1 to 16 readers")]
    Range,
    /// An allocation failed.
    #[error("out of memory")]
    Memory(Memory),
    /// `left_right` had no place for a reader.
    #[error("no place for a reader")]
    NoPlace(NoPlace),
}

/// A shelf that is to be opened.
pub struct Shelf;

impl Shelf {
    /// Opens a shelf with an empty list and this many readers. Returns `Range` exactly if there are not 1 to 16, and
    /// `Memory` if an allocation fails. Returns `NoPlace` if the kit's `left_right` had no place for a reader.
    pub fn open<R: Wait + Drop>(
        alloc: Global,
        rt: R,
        readers: usize,
    ) -> Result<(Keeper<R>, Vec<Reader>), OpenError>
        ensures keeper { IfOk result (λ r. (published_by r.0 ≡ []) × (shown_by r.0 ≡ [])) }
        ensures count { IfOk result (λ r. vec_len r.1 ≡ readers) }
        ensures readers { IfOk result (λ r. All (λ reader. IsUpToDate reader r.0) r.1.items) }
        ensures range { IsErrOf result Range ↔ (is_number_of_readers readers ≡ false) }
    {
        if !is_number(readers) {
            return Err(OpenError::Range);
        }
        let mut keeper = match Keeper::new(alloc, rt, readers) {
            Ok(keeper) => keeper,
            Err(error) => return Err(OpenError::Memory(error)),
        };
        let all = keeper.readers(alloc, readers)?;
        Ok((keeper, all))
    }
}

// Returns whether a shelf may have this many readers.
fn is_number(readers: usize) -> bool
    ensures { result ≡ is_number_of_readers readers }
{
    readers > 0 && readers <= 16
}

impl<R: Wait + Drop> Keeper<R> {
    // Makes a keeper of an empty list, with memory for this many readers.
    fn new(alloc: Global, rt: R, readers: usize) -> Result<Keeper<R>, Memory>
        requires { (0 < readers) × (readers ≤ 16) }
        ensures list { IfOk result (λ keeper. published_by keeper ≡ []) }
        ensures shown { IfOk result (λ keeper. shown_by keeper ≡ []) }
    {
        let (end, list) = Prefix::new();
        let first = Store::new(alloc, list.again());
        let second = Store::new(alloc, list.again());
        let writer = Publisher::new(alloc, first, second, readers)?;
        let (writer, begun) = begin(writer, &rt);
        if let Err(error) = begun {
            writer.take(&rt);
            return Err(Memory::from(error));
        }
        Ok(Keeper {
            writer,
            rt,
            end,
            list,
            version: 0,
            waiting: None,
        })
    }

    // Makes a reader that knows what the keeper knows.
    fn reader(&mut self) -> Result<Reader, NoPlace>
        ensures list { self.new.list ≡ self.old.list }
        ensures shown { shown_by self.new ≡ shown_by self.old }
        ensures reader { IfOk result (λ reader. reader.list ≡ self.old.list) }
    {
        let mut entrance = seat(&self.writer)?;
        entrance.learn::<TakesUp>(self.writer.tell::<SecondCopy>());
        Ok(Reader {
            entrance,
            list: self.list.again(),
        })
    }

    // Makes this many readers.
    fn readers(&mut self, alloc: Global, count: usize) -> Result<Vec<Reader>, OpenError>
        ensures list { self.new.list ≡ self.old.list }
        ensures shown { shown_by self.new ≡ shown_by self.old }
        ensures readers { IfOk result
            (λ all. (vec_len all ≡ count) × All (λ reader. reader.list ≡ self.old.list) all.items) }
        ensures range { IsErrOf result Range → ⊥ }
    {
        let mut all = match Vec::with_capacity(alloc, count) {
            Ok(all) => all,
            Err(error) => return Err(OpenError::Memory(Memory::from(error))),
        };
        for _ in 0..count {
            let reader = match self.reader() {
                Ok(reader) => reader,
                Err(refused) => return Err(OpenError::NoPlace(refused)),
            };
            if let Err(error) = all.push(reader) {
                return Err(OpenError::Memory(Memory::from(error)));
            }
        }
        Ok(all)
    }
}

// Publishes nothing, by which the keeper knows its own shelf.
fn begin<R: Wait>(writer: Publisher, rt: &R) -> (Publisher, Result<(), AllocError>)
    requires { IsReady writer.desk.shown.value (drop writer.behind writer.log.items) }
    ensures view { OnOk result.1
        (view result.0.desk.place ≡ Some (id_of result.0.desk.shown.value)) }
    ensures shelf { id_of result.0.desk.shown.value ≡ id_of writer.desk.shown.value }
    ensures reaches { fold after (state_of result.0.desk.shown.value)
        (drop result.0.behind result.0.log.items) ≡ fold after (state_of writer.desk.shown.value)
        (drop writer.behind writer.log.items) }
    ensures all { OnOk result.1 (drop result.0.behind result.0.log.items ≡ []) }
{
    let (shown, published) = writer.publish_as::<BeginsWith, R>(rt);
    match published {
        Ok(()) => (shown, Ok(())),
        Err(error) => (shown, Err(error)),
    }
}
