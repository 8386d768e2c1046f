//! Tables in which a key's number is its place, and lists and groups of such numbers. Begin at `table.rt`.
#![tactic(auto)]

mod flat;
mod groups;
mod list;
mod number;
mod table;

pub use groups::NodeIdGroups;
pub use list::NodeIdList;
pub use number::NodeId;
pub use table::Table;
