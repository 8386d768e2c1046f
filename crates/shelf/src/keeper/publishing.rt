//! What the keeper publishes.
ghost use Rattle.std.specs.Prelude.{◌≡◌, ◌≤◌, [], IfOk, OnOk, OnErr, drop, fold};
ghost use Rattle.left_right.specs.Sides.{view};
ghost use Rattle.shelf.specs.Lists.{version_of, then_published};
ghost use Rattle.shelf.specs.CopyRule.{after, state_of, id_of, IsReady};
ghost use Rattle.shelf.specs.Shelves.{published_by, shown_by, shelf_of, told_in, shelf_told_of, IsKeptOrHas};

use super::Keeper;
use super::sending::send;
use crate::publish::Batch;
use crate::reader::Told;
use crate::rule::{Publisher, Publishes};
use crate::store::Operation;
use base_types::{Memory, Text};
use core::mem::replace_with;
use std::alloc::AllocError;
use std::sync::Wait;

const MOST: u64 = 1 << 62;

impl<R: Wait + Drop> Keeper<R> {
    /// Returns the version that was last published or taken up, or 0 before any.
    pub fn version(&self) -> u64
        ensures { result ≡ version_of (published_by self.now) }
    {
        self.version
    }

    /// Publishes all entries together, at a version that is not below the last one. It waits for readers that are still
    /// reading the copy from before the last call. Returns `Memory` if an allocation fails; readers then find what they
    /// found before. In that case the list is as before, or has this publish at its end: it was taken up, and a later
    /// publish shows it.
    pub fn publish(&mut self, version: u64, entries: Vec<(Text, Text)>) -> Result<Told, Memory>
        requires { version_of (published_by self.old) ≤ version }
        ensures shelf { shelf_of self.new ≡ shelf_of self.old }
        ensures list { OnOk result (published_by self.new ≡ then_published (published_by self.old)
            version entries.items) }
        ensures told { IfOk result (λ told. (told_in told ≡ published_by self.new)
            × (shelf_told_of told ≡ shelf_of self.new)) }
        ensures shown { OnOk result (shown_by self.new ≡ published_by self.new) }
        ensures err { OnErr result (IsKeptOrHas (published_by self.old) version entries.items
            (published_by self.new)) }
        ensures hidden { OnErr result (shown_by self.new ≡ shown_by self.old) }
    {
        send(&mut self.writer, &mut self.waiting)?;
        let wanted = self.list.len();
        if wanted >= MOST {
            return Err(Memory::no_number_left(wanted as u128));
        }
        let batch = Batch { version, entries };
        let list = self.list.append(&self.end, &batch)?;
        self.list = list.again();
        self.version = version;
        self.waiting = Some(Operation { batch, list });
        send(&mut self.writer, &mut self.waiting)?;
        replace_with(&mut self.writer, &self.rt, publish_all)?;
        Ok(Told {
            list: self.list.again(),
        })
    }
}

// Shows readers all that was sent, or what they saw before.
fn publish_all<R: Wait>(writer: Publisher, rt: &R) -> (Publisher, Result<(), AllocError>)
    requires { IsReady writer.desk.shown.value (drop writer.behind writer.log.items) }
    ensures view { view result.0.desk.place ≡ view writer.desk.place }
    ensures shelf { id_of result.0.desk.shown.value ≡ id_of writer.desk.shown.value }
    ensures reaches { fold after (state_of result.0.desk.shown.value)
        (drop result.0.behind result.0.log.items) ≡ fold after (state_of writer.desk.shown.value)
        (drop writer.behind writer.log.items) }
    ensures all { OnOk result.1 (drop result.0.behind result.0.log.items ≡ []) }
    ensures hidden { OnErr result.1 (result.0.desk.shown.value ≡ writer.desk.shown.value) }
{
    let (shown, published) = writer.publish_as::<Publishes, R>(rt);
    match published {
        Ok(()) => (shown, Ok(())),
        Err(error) => (shown, Err(error)),
    }
}
