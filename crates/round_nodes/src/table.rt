//! What a round keeps of the nodes that it has not settled yet.
ghost use Rattle.std.specs.Prelude.{◌≤◌, length};

use crate::ready::ReadySet;
use crate::run::Run;
use indexmap::IndexMap;
use keys::Key;

/// What an open node does.
#[derive(Drop)]
pub enum Phase {
    /// Its record is checked, and this many recorded groups are settled without a change.
    Checking(usize),
    /// It makes turns, and its next one can be handed out once the last group that it asked for is settled.
    Running,
    /// Its job is out.
    Out,
}

/// A node that is opened and not settled.
#[derive(Drop)]
pub struct Node {
    /// The groups that its turns asked for.
    pub groups: Vec<Vec<Key>>,
    /// The nodes that wait for it.
    pub waiters: Vec<Key>,
    /// What it does.
    pub phase: Phase,
}

/// Open nodes by key. Their order means nothing.
pub type Nodes = IndexMap<Key, Node>;

/// The open nodes, and what there is to do.
#[derive(Drop)]
pub struct OpenNodes {
    /// The open nodes.
    pub nodes: Nodes,
    /// Those whose next turn can be handed out.
    pub ready: ReadySet,
    /// Those that are to be visited, from the place `visited` on.
    pub queue: Vec<Key>,
    /// How many of `queue` were visited.
    pub visited: usize,
    /// The runs so far, in the order of settling.
    pub runs: Vec<Run>,
    ghost within: { visited ≤ length queue.items },
}
