//! Frozen values.

use base_types::Text;
use std::alloc::Global;
use std::sync::Arc;
use values_heap::{Builtin, Bytes};

/// A value that a file's evaluation leaves. What is in it is shared.
#[cycle(frozen)]
pub enum Frozen {
    /// `None`
    Nothing,
    Bool(bool),
    Int(i64),
    Builtin(Builtin),
    Text(Bytes),
    List(Arc<Vec<Frozen>, Global>),
    Tuple(Arc<Vec<Frozen>, Global>),
    /// The entries, in the dictionary's order.
    Dict(Arc<Vec<FrozenEntry>, Global>),
    /// A function of a file: the file's label, and the name.
    Function(Text, Text),
}

impl Drop for Frozen {
    #[cycle(drops)]
    fn drop(self) {
        match self {
            Frozen::Nothing => {}
            Frozen::Bool(_) => {}
            Frozen::Int(_) => {}
            Frozen::Builtin(_) => {}
            Frozen::Text(_) => {}
            Frozen::List(_) => {}
            Frozen::Tuple(_) => {}
            Frozen::Dict(_) => {}
            Frozen::Function(_, _) => {}
        }
    }
}

/// A key of a frozen dictionary with its value.
#[cycle(frozen)]
pub struct FrozenEntry {
    pub key: Frozen,
    pub value: Frozen,
}

impl Drop for FrozenEntry {
    #[cycle(drops)]
    fn drop(self) {
        let FrozenEntry { key: _, value: _ } = self;
    }
}
