//! What the functions of an evaluation work over: what the threads share, and how far the evaluation is.
use crate::notifier::Notifiers;
use board::Board;
use filetree::Tree;
use keys::Rules;
use node::Graph;
use round::Round;
use std::snapshot::Snapshot;

// What the host and the workers of an evaluation share: the runtime, the board with its notifiers, the files, and in
// how many turns at most the roots are evaluated.
#[derive(Drop)]
pub(crate) struct Context<'s, R: Rules, T> {
    pub(crate) rt: &'s T,
    pub(crate) board: &'s Board<R>,
    pub(crate) notifiers: &'s Notifiers,
    pub(crate) tree: &'s Tree,
    pub(crate) budget: u64,
}

// An evaluation of which the first turns were made: its round, the graph as it was before, and how many turns these
// are.
#[derive(Drop)]
pub(crate) struct Evaluation<R: Rules> {
    pub(crate) round: Round<R>,
    pub(crate) before: Snapshot<Graph>,
    pub(crate) first: u64,
}
