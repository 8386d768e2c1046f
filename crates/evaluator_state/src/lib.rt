//! What the evaluation of a file works on: values on a heap, names with their values, and targets. It also has the
//! pieces of an evaluation that evaluate no expression. Begin at `state.rt`.
#![tactic(auto)]

mod blocks;
mod calling;
mod defaults;
mod files;
mod gathering;
mod lvalue_marking;
mod lvalues;
mod marking;
mod objects;
mod operators;
mod package_targets;
mod places;
mod reading;
mod sparse;
mod state;
mod universal;

pub use blocks::slot_in;
pub use calling::{add, call_builtin, call_method};
pub use defaults::DefaultsTable;
pub use files::Files;
pub use gathering::{Collection, add_entry, add_member, add_new_entry, empty_collection};
pub use lvalue_marking::{mark_collection, mark_lvalue, mark_lvalues};
pub use lvalues::{LValue, read_lvalue, store};
pub use marking::{mark_blocks, mark_names};
pub use objects::{
    hash, index, items, lock, make_dict, make_list, make_text, make_tuple, set_index, slice, tick,
    unlock,
};
pub use operators::{eval_binary, is_true, unary};
pub use package_targets::PackageTargets;
pub use reading::{bind, is_native_name, read, read_in_scope, slot, slot_in_scope};
pub use sparse::{SparseBlock, value_named};
pub use state::{
    Attribute, Block, FileNames, FunctionDefaults, Position, Scope, Slot, SlotBlock, State, Target,
    TargetAttribute,
};
pub use universal::{is_native, package_function, plain_function};
