//! Keys of nodes, the values of nodes, the trait of node functions, and the turns that they make.
//!
//! A node function gets other nodes' values only by asking for them, in groups. A turn is one call of it: it ends with
//! the next group to be asked or with the node's value. Between two turns a state may be kept. A leaf has no function:
//! its value is read from the files.
//!
//! Begin at `key.rt` and `rules.rt`.
#![tactic(auto)]

mod job;
mod key;
mod laws;
mod leaf;
mod marks;
mod paused_node;
mod rules;
mod turned;
mod value;

pub use job::Job;
pub use key::Key;
pub use laws::{keys_are_in_the_order_of_their_texts, texts_tell_keys_apart};
pub use leaf::{is_leaf, read_leaf};
pub use marks::{pair_bit, pair_marks};
pub use paused_node::PausedNode;
pub use rules::{Rules, Turn};
pub use turned::{TurnEnd, Turned};
pub use value::{BuildName, DirectoryNames, Fault, Names, Paths, Value};
