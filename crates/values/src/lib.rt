//! Values on a heap: what each operator and walk does with them, step by step as the language means it. Begin at
//! `operators.rt`.
#![tactic(auto)]

mod operators;

pub use operators::{binary, less};
pub use values_builtins::{builtin, print, text};
pub use values_freeze::{Frozen, FrozenEntry, freeze, thaw};
pub use values_heap::{Builtin, Bytes, Entry, Halt, Heap, Key, Object, Operator, Part, Val};
pub use values_methods::{add_in_place, method};
pub use values_operators::{equal, index, is_true, items, negate, plus, set_index, slice};
