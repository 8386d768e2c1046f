//! Runs.
use keys::Key;

/// A node that was settled by turns, or a leaf that was read.
#[derive(Drop)]
pub struct Run {
    /// The node.
    pub key: Key,
    /// The version at which it was settled.
    pub version: u32,
    /// How many turns it made, which are 0 for a leaf.
    pub turns: u64,
}
