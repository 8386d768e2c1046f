//! The nodes that a round has opened and not settled yet, what there is to do with them, and what the graph holds of
//! the members of their groups. Begin at `steps.rt`.
#![tactic(auto)]

mod members;
mod ready;
mod run;
mod steps;
mod table;

pub use members::{answers_to, first_stop, is_settled, look_at_group, share_all, some_unsettled};
pub use ready::ReadySet;
pub use run::Run;
pub use steps::{
    ask_group, begin_check, begin_run, close_node, enqueue, log_run, pass_groups, put_ready,
    restart, set_out, wait_for,
};
pub use table::{Node, Nodes, OpenNodes, Phase};
