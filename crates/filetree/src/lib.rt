//! Files by their paths. Begin at `tree.rt` and `specs/Files.antt`.
#![tactic(auto)]

ghost use Rattle.filetree.specs.Lawful.{EditsKeepPaths};
ghost use Rattle.filetree.specs.Trees.{EditsMakeTrees};

mod change;
mod error;
mod folder;
mod listing;
mod name_map;
pub mod refusals;
mod tree;

pub use change::Change;
pub use error::{BatchError, TreeError};
pub use listing::Listing;
pub use tree::Tree;

/// States the law of the names: every file has a path for its name. It holds where there are no files, after each
/// removal, and after each put or batch of changes that is not refused.
pub fn edits_keep_paths()
    ensures { EditsKeepPaths }
{}

/// States the law of trees. Whatever edits are made, from no files on: each file has a path for its name, no file lies
/// below another one, and each text has at most 262,144 bytes. It holds where there are no files, and after each list
/// of changes that is not refused.
pub fn edits_make_trees()
    ensures { EditsMakeTrees }
{}
