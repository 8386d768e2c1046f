//! What the answers of a session are: which keys a request asks for, and the replies as texts. Begin at
//! `specs/Answers.antt` and `specs/Effects.antt`, and of the sources at `request_answers.rt`.
#![tactic(auto)]

mod holding;
mod publishing;
mod replies;
mod request_answers;

pub use holding::{Changes, changed_names, unknown_names};
pub use publishing::{Packages, packages_reply};
pub use replies::{accepted_text, refusal_text, refusal_text_at};
pub use request_answers::{later_roots, package_keys, reply_text, roots_of};
