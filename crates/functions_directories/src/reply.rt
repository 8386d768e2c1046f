//! What a turn ends with, without a state.
use keys::{Key, Value};

/// What a turn ends with, without a state.
#[derive(Drop)]
pub enum DirectoryTurn {
    /// A group to be asked for.
    Ask(Vec<Key>),
    /// The node's value.
    Done(Value),
}
