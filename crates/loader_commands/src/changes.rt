//! The changes of an edit, for contracts alone.
ghost use Rattle.std.specs.Prelude.{◌≡◌, ◌++◌, ◌∷◌, []};
ghost use Rattle.filetree.specs.ChangeView.{change_seen, changes_seen};

use base_ghost::History;
use filetree::Change;
use http_server::Log;
use std::marker::Model;

/// Changes in their order. A contract sees their list; a program cannot read it, and it takes no memory.
#[derive(Drop)]
pub(crate) struct Changes {
    log: Log<History, Option<History>>,
}

impl Model for Changes {
    ghost use Rattle.std.specs.Prelude.{List, map};
    ghost use Rattle.filetree.specs.Changes.{Change};
    ghost use Rattle.loader_commands.specs.Edits.{change_of};

    ghost Value = { List Change };

    ghost view = { λ a. map change_of a.log.items };
}

// Returns the bytes of a text.
fn bytes_of(text: &str) -> History
    ensures { result ≡ text.now }
{
    let mut bytes = History::new();
    bytes.add_all(text.as_bytes());
    bytes
}

impl Changes {
    /// Makes a list without changes.
    pub(crate) fn new() -> Changes
        ensures { result ≡ [] }
    {
        Changes { log: Log::new() }
    }

    /// Adds a change.
    pub(crate) fn add(&mut self, change: &Change<'_>)
        ensures { self.new ≡ self.old ++ change_seen change.now ∷ [] }
    {
        let path = bytes_of(change.path());
        let text = match change {
            Change::Put(_, text) => Some(bytes_of(text)),
            Change::Del(_) => None,
        };
        self.log = self.log.and(&path, &text);
    }

    /// Adds changes, in their order.
    pub(crate) fn add_all(&mut self, changes: &[Change<'_>])
        ensures { self.new ≡ self.old ++ changes_seen changes.now }
    {
        for change in changes {
            self.add(change);
        }
    }
}
