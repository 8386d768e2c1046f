//! What the evaluation of a file leaves, with exact equality: of a BUILD file its targets, of a .bzl file a module.
//! Begin at `modules.rt` and `specs/Values.antt`.
#![tactic(auto)]

mod attributes;
mod bindings;
mod blocks;
mod exprs;
mod functions;
mod modules;
mod numbers;
mod stmts;
mod targets;

pub use attributes::{Attribute, AttributeReader, AttributeValue, Attributes};
pub use bindings::{Binding, Defaults, Function};
pub use blocks::{TextBlock, TextReader};
pub use functions::Functions;
pub use modules::{Module, ModuleValue};
pub use stmts::same_def;
pub use targets::{Target, TargetReader, Targets, blocks_tell_targets};
