//! Lines of an input, read as commands, and the edits among them: why they are refused, what they change, and the list
//! of those that were accepted. Begin at `reading.rt`.
#![tactic(auto)]

mod changes;
mod command;
mod edit_log;
mod error;
mod making;
mod reading;

pub use command::{Command, Edit, Request};
pub use edit_log::EditLog;
pub use error::EditError;
pub use making::{edit_files, edited_paths, refusal_at_limit};
pub use reading::{command_of, data_of, module_label, refusal};
