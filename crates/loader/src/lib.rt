//! Lines of commands in, lines of replies out: a resident loader of packages. Begin at `session.rt` and
//! `specs/Service.antt`, and read the definitions of `loader_answers` first.
#![tactic(auto)]

mod journal;
mod laws;
mod program;
mod publishing_laws;
mod serving;
mod session;
mod turns;
mod workers;

pub use base_lines::{DeviceError, Input, Output};
pub use filetree::Change;
pub use journal::{EventJournal, GhostJournal, Journal, Runs};
pub use laws::{
    input_determines_output, lines_determine_answers, lines_have_answers,
    unchanged_packages_are_equal,
};
pub use loader_answers::Changes;
pub use loader_commands::{Edit, EditError, Request};
pub use loader_events::{Events, LineFacts, LineOutcome};
pub use program::{ProgramEnd, run_program};
pub use publishing_laws::{published_load_is_found, published_texts_are_answers};
pub use round::{Run, Stop};
pub use serving::{BUDGET, ServeStop, command, serve, serve_here, serve_into, serve_with};
pub use session::{Reply, Session};
