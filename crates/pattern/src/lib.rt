//! Glob patterns, and the answer of a glob. Begin at `pattern.rt`, `specs/Patterns.antt` and `specs/Globs.antt`.
#![tactic(auto)]

mod globs;
mod pattern;
mod segment;
mod walk;

pub use globs::{
    glob_is_union_of_patterns, glob_with_directories, question_has_its_pattern, walk_finds_pattern,
};
pub use pattern::{BadPattern, Pattern, is_double_star};
pub use segment::segment_matches;
