//! The state of an evaluation.
ghost use Rattle.std.specs.Prelude.{◌≡◌, true, cond};
ghost use Rattle.std.specs.Option.{ForSome};
ghost use Rattle.evaluator_state.specs.Once.{names_in, differ};

use crate::defaults::DefaultsTable;
use crate::files::Files;
use crate::package_targets::PackageTargets;
use crate::sparse::SparseBlock;
use base_types::Text;
use indexmap::IndexSet;
use std::alloc::Global;
use std::sync::Arc;
use syntax_grammar::FileKind;
use values_heap::{Builtin, Bytes, Heap, Val};

/// A name of a block, with its value once it is bound.
pub struct Slot {
    pub name: Text,
    pub value: Option<Val>,
}

impl Drop for Slot {
    fn drop(self) {
        let Slot { name: _, value: _ } = self;
    }
}

/// The names of a function, a comprehension or a file.
pub enum Block {
    /// Each name has its slot.
    Slots(SlotBlock),
    /// The names of a function with many of them.
    Sparse(SparseBlock),
}

impl Drop for Block {
    fn drop(self) {
        match self {
            Block::Slots(_) => {}
            Block::Sparse(_) => {}
        }
    }
}

/// Names of which each has its slot.
pub struct SlotBlock {
    pub slots: Vec<Slot>,
    /// Whether each name is known to be there once, so that no other place need be searched where it is found.
    pub once: bool,
    /// The names of many slots.
    pub index: Option<IndexSet<Text>>,
    pub ghost distinct: { cond once (differ (names_in slots.items)) true ≡ true },
    pub ghost listed: { ForSome index (λ s. s.keys ≡ names_in slots.items) },
}

impl Drop for SlotBlock {
    fn drop(self) {
        let SlotBlock {
            slots: _,
            once: _,
            index: _,
        } = self;
    }
}

/// The values of a function's defaults, in the order of its parameters.
pub struct FunctionDefaults {
    pub function: Text,
    pub values: Arc<Vec<Val>, Global>,
}

impl Drop for FunctionDefaults {
    fn drop(self) {
        let FunctionDefaults {
            function: _,
            values: _,
        } = self;
    }
}

/// A file whose names are on the heap.
pub struct FileNames {
    pub label: Text,
    pub block: Block,
    pub defaults: DefaultsTable,
}

impl Drop for FileNames {
    fn drop(self) {
        let FileNames {
            label: _,
            block: _,
            defaults: _,
        } = self;
    }
}

/// The value of an attribute of a target.
pub enum Attribute {
    Single(Bytes),
    Several(Vec<Bytes>),
}

impl Drop for Attribute {
    fn drop(self) {
        match self {
            Attribute::Single(_) => {}
            Attribute::Several(_) => {}
        }
    }
}

/// An attribute of a target.
pub struct TargetAttribute {
    pub name: Bytes,
    pub value: Attribute,
}

impl Drop for TargetAttribute {
    fn drop(self) {
        let TargetAttribute { name: _, value: _ } = self;
    }
}

/// A target of the package.
pub struct Target {
    /// The rule that made it.
    pub rule: Builtin,
    pub name: Bytes,
    pub attributes: Vec<TargetAttribute>,
}

impl Drop for Target {
    fn drop(self) {
        let Target {
            rule: _,
            name: _,
            attributes: _,
        } = self;
    }
}

/// The state of an evaluation: the heap, the blocks of names from the innermost to that of the function, the names of
/// the files that are on the heap, and the targets that were made.
pub struct State {
    pub heap: Heap,
    pub blocks: Vec<Block>,
    pub files: Files,
    pub targets: PackageTargets,
}

impl Drop for State {
    fn drop(self) {
        let State {
            heap: _,
            blocks: _,
            files: _,
            targets: _,
        } = self;
    }
}

/// The position of a piece of code: its file, and the first line of its function.
pub struct Position {
    pub label: Text,
    pub path: Text,
    pub kind: FileKind,
    /// The first line of the function, or 0 at file level.
    pub line: usize,
}

impl Drop for Position {
    fn drop(self) {
        let Position {
            label: _,
            path: _,
            kind: _,
            line: _,
        } = self;
    }
}

/// Where a name is looked up: the blocks, the names of the files that are on the heap, and the position of the code.
#[derive(Drop)]
pub struct Scope<'a> {
    pub blocks: &'a [Block],
    pub files: &'a Files,
    pub at: &'a Position,
}
