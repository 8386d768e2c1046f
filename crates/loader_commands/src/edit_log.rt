//! The edits of a session, for contracts alone.
ghost use Rattle.std.specs.Prelude.{◌≡◌, ◌++◌, ◌∷◌, []};
ghost use Rattle.loader_commands.specs.View.{edit_seen};

use crate::Edit;
use crate::changes::Changes;
use filetree::Change;
use http_server::Log;
use std::marker::Model;

/// The edits that were accepted. A contract sees their list, the oldest first; a program cannot read it, and it takes
/// no memory.
#[derive(Drop)]
pub struct EditLog {
    log: Log<Changes, bool>,
}

impl Model for EditLog {
    ghost use Rattle.std.specs.Prelude.{List, map};
    ghost use Rattle.loader_commands.specs.Edits.{Edit, edit_of};

    ghost Value = { List Edit };

    ghost view = { λ a. map edit_of a.log.items };
}

impl EditLog {
    /// Makes a list without edits.
    pub fn new() -> EditLog
        ensures { result ≡ [] }
    {
        EditLog { log: Log::new() }
    }

    /// Adds an edit.
    pub fn add(&mut self, edit: &Edit<'_>)
        ensures { self.new ≡ self.old ++ edit_seen edit.now ∷ [] }
    {
        let mut changes = Changes::new();
        let together = match edit {
            Edit::Put(path, text) => {
                changes.add(&Change::Put(path, text));
                false
            }
            Edit::Del(path) => {
                changes.add(&Change::Del(path));
                false
            }
            Edit::Batch(batch) => {
                changes.add_all(batch.as_slice());
                true
            }
        };
        self.log = self.log.and(&changes, &together);
    }
}
