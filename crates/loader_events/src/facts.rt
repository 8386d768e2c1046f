//! The outcome of a line.
ghost use Rattle.std.specs.Prelude.{◌≡◌};
ghost use Rattle.loader_commands.specs.View.{edit_seen, request_seen};
ghost use Rattle.loader_events.specs.Words as words;

use loader_commands::{Edit, Request};

/// The outcome of a line.
#[derive(Drop)]
pub enum LineOutcome<'a> {
    /// The line was refused with a number. If a change of a batch was refused, `place` is its place in the batch,
    /// counted from 0.
    Refused { place: Option<usize>, code: u64 },
    /// This edit was made.
    Edited(&'a Edit<'a>),
    /// A request was evaluated.
    Evaluated,
}

/// What is known of a line in addition to its runs: the word of its command, if it was one, and its outcome.
#[derive(Drop)]
pub struct LineFacts<'a> {
    pub word: Option<&'static str>,
    pub outcome: LineOutcome<'a>,
}

/// Returns the word that a line gives for an edit in its member `op`.
pub fn edit_word(edit: &Edit<'_>) -> &'static str
    ensures { result.now ≡ words.edit_word (edit_seen edit.now) }
{
    match edit {
        Edit::Put(_, _) => "put",
        Edit::Del(_) => "del",
        Edit::Batch(_) => "edit",
    }
}

/// Returns the word that a line gives for a request in its member `op`.
pub fn request_word(request: &Request<'_>) -> &'static str
    ensures { result.now ≡ words.request_word (request_seen request.now) }
{
    match request {
        Request::Find(_) => "find",
        Request::Load(_) => "load",
        Request::Module(_) => "module",
        Request::Under(_) => "under",
    }
}
