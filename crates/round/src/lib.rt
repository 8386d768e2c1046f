//! The evaluation of nodes, turn by turn and as a whole. Begin at `rounds.rt` and `specs/Rounds.antt`.
#![tactic(auto)]

mod choice;
mod close;
mod closing;
mod cycles;
mod out_keys;
mod play;
mod replaying;
mod rounds;
mod stop;
mod turns;
mod visiting;

pub use choice::{Choice, Replayed};
pub use replaying::replay;
pub use round_nodes::{Run, share_all};
pub use rounds::{
    Round, TakeBackError, close_stall, evaluate_here, has_ready, make_turn, next_key,
};
pub use stop::Stop;
