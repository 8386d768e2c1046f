//! The frames of a machine that evaluates a file, and one transition of it. Begin at `stepping.rt` and
//! `specs/Frames.antt`.
#![tactic(auto)]

mod ahead;
mod begin;
mod completions;
mod deliver;
mod forms;
mod frame;
mod gather;
mod handing;
mod items;
mod leaving;
mod loops;
mod making;
mod moves;
mod once;
mod operands;
mod places;
mod reaching;
mod stack;
mod statements;
mod stepping;
mod targets;
mod tops;

pub use deliver::given_by;
pub use frame::{
    Caller, Comprehension, Control, Exit, Frame, Gathering, Item, MethodCall, Pairs, Purpose,
    Receiver, Series, Signal, Turns,
};
pub use moves::hand_down;
pub use places::{control_line, frame_line};
pub use reaching::{reach_control, reach_frames};
pub use stack::push;
pub use stepping::go_on;
