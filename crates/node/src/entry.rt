//! A record that is to be stored.
use keys::{Key, Value};
use std::sync::Arc;

/// What is to be recorded of a node that was settled.
#[derive(Drop)]
pub struct Entry {
    /// The key whose record it is.
    pub key: Key,
    /// Its value.
    pub value: Arc<Value>,
    /// The groups that it asked for.
    pub groups: Vec<Vec<Key>>,
}
