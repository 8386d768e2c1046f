//! An object of frozen values.
use crate::dict::FrozenDict;
use crate::value::FrozenVal;
use base_types::Text;
use values_semantics::Bytes;

/// An object of frozen values, which does not change any more.
pub enum FrozenObject {
    Text(Bytes),
    List(Vec<FrozenVal>),
    Tuple(Vec<FrozenVal>),
    Dict(FrozenDict),
    /// A function of a file: the file's label, and the name.
    Function(Text, Text),
}

impl Drop for FrozenObject {
    fn drop(self) {
        match self {
            FrozenObject::Text(_) => {}
            FrozenObject::List(_) => {}
            FrozenObject::Tuple(_) => {}
            FrozenObject::Dict(_) => {}
            FrozenObject::Function(_, _) => {}
        }
    }
}
