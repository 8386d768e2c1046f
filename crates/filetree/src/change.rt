//! Changes of files, one or several together.
ghost use Rattle.std.specs.Prelude.{◌≡◌, [], ◌∷◌};
ghost use Rattle.filetree.specs.Changes as specs;
ghost use Rattle.filetree.specs.Edits.{Edits, refusal_of};
ghost use Rattle.filetree.specs.ChangeView.{change_seen, changes_seen};

use crate::error::{BatchError, TreeError};
use crate::refusals;
use crate::tree::Tree;

/// A change of one file.
#[derive(Drop)]
pub enum Change<'a> {
    /// A text is put at a path. It replaces one that was there.
    Put(&'a str, &'a str),
    /// The file at a path is removed.
    Del(&'a str),
}

impl Change<'_> {
    /// Returns the path of the file that is changed.
    pub fn path(&self) -> &str
        ensures { result.now ≡ specs.path_of (change_seen self.now) }
    {
        match self {
            Change::Put(path, _) => path,
            Change::Del(path) => path,
        }
    }
}

// Returns the error of a change that is refused, with its number among several.
fn refused_at(at: usize, error: &TreeError) -> BatchError
    ensures { result ≡ specs.error_at at (refusal_of error.now) }
{
    match error {
        TreeError::Code2 => BatchError::At(at, refusals::BAD_PATH),
        TreeError::Code3 => BatchError::At(at, refusals::IN_THE_WAY),
        TreeError::Code4 => BatchError::At(at, refusals::NO_FILE),
        TreeError::Code7 => BatchError::At(at, refusals::TEXT_TOO_LONG),
        TreeError::Memory(error) => BatchError::Memory(*error),
    }
}

impl Tree {
    /// Makes a change, as `put` and `del` do.
    pub fn change(&mut self, change: &Change<'_>) -> Result<(), TreeError>
        ensures { Edits result (specs.change_refusal (change_seen change.now) self.old) self.old
            (specs.files_after_change (change_seen change.now) self.old) self.new }
    {
        match change {
            Change::Put(path, text) => self.put(path, text),
            Change::Del(path) => self.del(path),
        }
    }

    // Makes changes in their order, up to the first that is refused.
    fn change_each(&mut self, edits: &[Change<'_>]) -> Result<(), BatchError>
        ensures { specs.MakesAll result (specs.changes_refusal (changes_seen edits.now) self.old)
            (specs.all_changed (changes_seen edits.now) self.old) self.new }
    {
        for (at, edit) in edits.iter().enumerate() {
            if let Err(error) = self.change(edit) {
                return Err(refused_at(at, &error));
            }
        }
        Ok(())
    }

    // Makes one change, as if alone among several.
    fn change_alone(&mut self, edit: &Change<'_>) -> Result<(), BatchError>
        ensures { specs.EditsAll result (specs.changes_refusal (change_seen edit.now ∷ []) self.old)
            self.old (specs.files_after_change (change_seen edit.now) self.old) self.new }
    {
        match self.change(edit) {
            Ok(()) => Ok(()),
            Err(error) => Err(refused_at(0, &error)),
        }
    }

    /// Makes all of these changes in their order, or none. A change is refused as `put` and `del` refuse it on the
    /// files after the changes before it. If a change is refused or an allocation fails, nothing changes. One change is
    /// made in place; of several, each makes new the folders on its path that no change before it made.
    pub fn apply_all(&mut self, edits: &[Change<'_>]) -> Result<(), BatchError>
        ensures { specs.EditsAll result (specs.changes_refusal (changes_seen edits.now) self.old)
            self.old (specs.all_changed (changes_seen edits.now) self.old) self.new }
    {
        if edits.len() == 1 {
            return self.change_alone(&edits[0]);
        }
        let mut changed = self.copy()?;
        changed.change_each(edits)?;
        *self = changed;
        Ok(())
    }
}
