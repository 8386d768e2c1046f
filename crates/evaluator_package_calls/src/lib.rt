//! The package calls of the language: `package_name`, `glob` and the rules. Begin at `rules.rt`.
#![tactic(auto)]

mod answering;
mod answers;
mod arguments;
mod attributes;
mod by_name;
mod charging;
mod counting;
mod distinct_paths;
mod fields;
mod globbing;
mod kinds;
mod ordering;
mod rules;
mod slots;
mod spelling;
mod strings;
mod targets;
mod texts_once;

pub use answers::{Answers, GlobResult};
pub use counting::answer_count;
pub use kinds::{CallResult, Package};
pub use rules::package_call;
pub use targets::targets_made;
