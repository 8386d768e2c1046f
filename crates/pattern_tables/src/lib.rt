//! Many patterns, of which those that match a path are found by the path or by a part of it. Begin at `excludes.rt`.
#![tactic(auto)]

mod excludes;
mod table;

pub use excludes::Excludes;
