//! Choices, and what they lead to.
use keys::Key;
use round_nodes::Run;

/// What is done next in an evaluation.
#[derive(Drop)]
pub enum Choice {
    /// The next turn of a node is handed out and made.
    Hand(Key),
    /// The turn of a node comes back.
    Back(Key),
    /// The kept state of a node is dropped.
    Drop(Key),
}

/// What choices lead to.
#[derive(Drop)]
pub enum Replayed {
    /// All roots are settled. These are the runs in the order of settling; choices that were left over were not read.
    Done(Vec<Run>),
    /// All choices were possible, and a root is not settled yet.
    ChoicesEnded,
    /// The choice at this place, counted from 0, was the first that was not possible.
    NotLegal(usize),
}
