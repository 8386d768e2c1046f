//! The parts of a call that evaluate no expression: blocks of names, arguments, and functions by their names. Then what
//! a load gives, names of modules on the heap, and what the evaluation of a file leaves. Begin at `blocks.rt`.
#![tactic(auto)]

mod accepting;
mod blocks;
mod defaults;
mod ending;
mod exports;
mod freeze;
mod functions;
mod loading;
mod module_parts;
mod module_table;
mod named_arguments;
mod naming;
mod reaching;
mod sparse_calls;
mod thaw;

pub use blocks::{call_block, comprehension_block, file_block, own_block};
pub use defaults::keep_defaults;
pub use ending::frozen_module;
pub use functions::{ActiveCall, defaults_among, defaults_of, is_running};
pub use loading::load_items;
pub use module_parts::functions_of;
pub use module_table::ModuleTable;
pub use naming::ensure_names;
pub use reaching::{export, module_labelled};
