//! What a turn ends with, without a state.
use crate::source::Source;
use base_types::Text;
use evaluator::Suspended;
use keys::{Key, Value};
use std::alloc::Global;
use std::sync::Arc;
use syntax::File;

/// What a turn ends with, without a state.
#[derive(Drop)]
pub enum FileTurn {
    /// A group to be asked for.
    Ask(Vec<Key>),
    /// A group to be asked for, and what continues from its answers.
    Wait(Vec<Key>, Continuation),
    /// The node's value.
    Done(Value),
}

/// What continues when its group is answered.
#[derive(Drop)]
pub enum Continuation {
    /// A file with its tree, which waits for the modules of its loads.
    Loads(FileLoads),
    /// The evaluation of a package's file, which waits for globs.
    Globs(PackageEvaluation),
}

/// A file with its tree, and the keys of the modules that its loads name.
#[derive(Drop)]
pub struct FileLoads {
    pub source: Source,
    pub file: Arc<File, Global>,
    pub keys: Vec<Key>,
}

/// The evaluation of a file of a package, which waits for globs of which no answer is there.
#[derive(Drop)]
pub struct PackageEvaluation {
    pub package_name: Text,
    pub suspended: Suspended,
}
