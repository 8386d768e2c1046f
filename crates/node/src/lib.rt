//! The graph of what was recorded of nodes. Begin at `graph.rt` and `specs/Graphs.antt`.
#![tactic(auto)]

mod batch;
mod comparison;
mod counts;
mod edges;
mod entry;
mod graph;
mod groups;
mod marks;
mod records;
mod settling;

pub use comparison::Comparison;
pub use counts::Counts;
pub use entry::Entry;
pub use graph::Graph;
pub use groups::{Group, Groups};
