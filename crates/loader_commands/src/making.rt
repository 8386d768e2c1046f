//! Edits of the files.
ghost use Rattle.std.specs.Prelude.{◌≡◌, IfOk, map};
ghost use Rattle.filetree.specs.Changes.{change_refusal, files_after_change};
ghost use Rattle.filetree.specs.Edits.{Edits};
ghost use Rattle.filetree.specs.ChangeView.{change_seen, changes_seen};
ghost use Rattle.loader_commands.specs.Commands as commands;
ghost use Rattle.loader_commands.specs.View.{edit_seen, texts_seen};
ghost use Rattle.loader_commands.specs.Edits as specs;

use crate::Edit;
use crate::error::EditError;
use base_types::Memory;
use filetree::{BatchError, Change, Tree, TreeError, refusals};
use std::alloc::Global;

// The most changes of a batch.
const MOST_CHANGES: usize = 256;

// Puts a text or removes a file, as the tree does.
fn put_or_del(tree: &mut Tree, change: &Change<'_>) -> Result<(), TreeError>
    ensures { Edits result (change_refusal (change_seen change.now) tree.old) tree.old
        (files_after_change (change_seen change.now) tree.old) tree.new }
{
    match change {
        Change::Put(path, text) => tree.put(path, text),
        Change::Del(path) => tree.del(path),
    }
}

// Makes one change, or leaves the files as they are.
fn change_one(tree: &mut Tree, change: &Change<'_>) -> Result<(), EditError>
    ensures { specs.EditsFiles (commands.one (change_seen change.now)) tree.old tree.new result }
{
    match put_or_del(tree, change) {
        Ok(()) => Ok(()),
        Err(TreeError::Code2) => Err(EditError::Refused(refusals::BAD_PATH)),
        Err(TreeError::Code3) => Err(EditError::Refused(refusals::IN_THE_WAY)),
        Err(TreeError::Code4) => Err(EditError::Refused(refusals::NO_FILE)),
        Err(TreeError::Code7) => Err(EditError::Refused(refusals::TEXT_TOO_LONG)),
        Err(TreeError::Memory(error)) => Err(EditError::Memory(error)),
    }
}

// Makes all changes of a batch, or leaves the files as they are.
fn change_all(tree: &mut Tree, changes: &[Change<'_>]) -> Result<(), EditError>
    ensures { specs.EditsFiles (commands.batch (changes_seen changes.now)) tree.old tree.new
        result }
{
    if changes.is_empty() || changes.len() > MOST_CHANGES {
        return Err(EditError::Refused(refusals::CHANGES_COUNT));
    }
    match tree.apply_all(changes) {
        Ok(()) => Ok(()),
        Err(BatchError::At(at, n)) => Err(EditError::RefusedAt(at, n)),
        Err(BatchError::Memory(error)) => Err(EditError::Memory(error)),
    }
}

/// Makes an edit of the files, or leaves them as they are. A batch is refused with 10 if it does not have 1 to 256
/// changes. Otherwise it is refused at its first change that is refused on the files after the changes before it.
pub fn edit_files(tree: &mut Tree, edit: &Edit<'_>) -> Result<(), EditError>
    ensures { specs.EditsFiles (edit_seen edit.now) tree.old tree.new result }
{
    match edit {
        Edit::Put(path, text) => change_one(tree, &Change::Put(path, text)),
        Edit::Del(path) => change_one(tree, &Change::Del(path)),
        Edit::Batch(changes) => change_all(tree, changes.as_slice()),
    }
}

/// Returns why an edit of these files is refused if no version is left for it: its first refusal by the files, or else
/// 8. Returns `Memory` if an allocation fails.
pub fn refusal_at_limit(tree: &Tree, edit: &Edit<'_>) -> EditError
    ensures { specs.TellsRefusal
        (specs.or_version_refusal (specs.files_refusal (edit_seen edit.now) tree.now)
        specs.version_limit) result }
{
    let mut trial = match tree.copy() {
        Ok(trial) => trial,
        Err(error) => return EditError::Memory(error),
    };
    match edit_files(&mut trial, edit) {
        Ok(()) => EditError::Refused(refusals::VERSIONS_SPENT),
        Err(error) => error,
    }
}

// Returns the paths of changes, in their order.
fn paths_in<'a>(alloc: Global, changes: &'a [Change<'_>]) -> Result<Vec<&'a str>, Memory>
    ensures { IfOk result (λ paths. texts_seen paths.items ≡ map commands.path_of
        (changes_seen changes.now)) }
{
    let mut paths = Vec::new(alloc);
    for change in changes {
        paths.push(change.path())?;
    }
    Ok(paths)
}

/// Returns the paths of the files that an edit changes, in their order.
pub fn edited_paths<'a>(alloc: Global, edit: &'a Edit<'_>) -> Result<Vec<&'a str>, Memory>
    ensures { IfOk result (λ paths. texts_seen paths.items ≡ commands.paths_of
        (edit_seen edit.now)) }
{
    let mut paths = Vec::new(alloc);
    match edit {
        Edit::Put(path, _) => paths.push(*path)?,
        Edit::Del(path) => paths.push(*path)?,
        Edit::Batch(changes) => paths = paths_in(alloc, changes.as_slice())?,
    }
    Ok(paths)
}
