//! What the line of a client came to, and what its evaluation read and ran, and why, as a line of JSON. Begin at
//! `events.rt` and `specs/Lines.antt`.
#![tactic(auto)]

mod causes;
mod events;
mod facts;
mod line_json;
mod run_json;

pub use events::Events;
pub use facts::{LineFacts, LineOutcome, edit_word, request_word};
