//! Paths of files, package names and labels. Begin at `path.rt`.
#![tactic(auto)]

mod label;
mod path;

pub use label::{BadLabel, Label, label_text};
pub use path::{BadPath, Path, is_package_name, is_path};
