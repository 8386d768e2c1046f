//! What the evaluation of a file is given, and what it keeps while it runs.

use base_types::{Memory, Text};
use evaluator_calls::ActiveCall;
use evaluator_frames::{Control, Frame, Signal};
use evaluator_package_calls::Package;
use evaluator_state::{Position, State};
use std::alloc::Global;
use std::sync::Arc;
use syntax_tree::File;
use values_modules::ModuleValue;

/// What the evaluation of a file is given.
#[derive(Drop)]
pub struct Environment {
    /// The label of a .bzl file; the empty text for a BUILD file.
    pub label: Text,
    pub path: Text,
    pub file: Arc<File, Global>,
    /// A module for each load statement of the file, in order.
    pub loads: Vec<ModuleValue>,
    pub package: Package,
}

/// A file in the middle of its evaluation.
#[derive(Drop)]
pub struct Machine {
    pub state: State,
    /// What waits; the last is the topmost.
    pub frames: Vec<Frame>,
    /// Where what runs stands.
    pub at: Position,
    /// The functions that are open; the last one was called last.
    pub running: Vec<ActiveCall>,
    /// How many more calls may be open.
    pub left: usize,
}

/// How far a turn leads.
#[derive(Drop)]
pub enum Progress {
    Goes(Control),
    Ended(Signal),
    /// A call of `glob`, and its patterns that have no answer, in order.
    Waits(Control, Vec<Text>),
}

/// Why an evaluation stops: at a fault with its code, file and line, or for want of memory.
#[derive(Drop)]
pub enum Stop {
    Fault { code: u64, path: Text, line: usize },
    Memory(Memory),
}
