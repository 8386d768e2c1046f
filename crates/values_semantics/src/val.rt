//! Values.
ghost use Rattle.std.specs.Prelude.{◌≡◌};
ghost use Rattle.values_semantics.specs.Values.{bool_value, builtin_value};

use crate::builtin::Builtin;

/// A value. A string, a list, a tuple, a dictionary or a function of a file is named by its place in the heap.
#[derive(Clone, Copy)]
pub enum Val {
    /// `None`
    Nothing,
    /// `True`
    True,
    /// `False`
    False,
    Int(i64),
    /// A function that files have without a binding, by its number.
    Builtin(usize),
    /// An object, by its place in the heap.
    At(usize),
}

impl Val {
    /// Makes a bool of the language.
    #[inline(always)]
    pub fn boolean(b: bool) -> Val
        ensures { result ≡ bool_value b }
    {
        if b { Val::True } else { Val::False }
    }

    /// Makes the value that a built-in function is.
    #[inline(always)]
    pub fn built_in(f: Builtin) -> Val
        ensures { result ≡ builtin_value f }
    {
        Val::Builtin(f.number())
    }
}

/// What a dictionary has at a key: the key's value, and the value.
#[derive(Clone, Copy)]
pub struct Entry {
    pub key: Val,
    pub value: Val,
}

/// An operator between two values that are both evaluated.
#[derive(Clone, Copy)]
pub enum Operator {
    Equal,
    NotEqual,
    Less,
    LessEqual,
    Greater,
    GreaterEqual,
    In,
    NotIn,
    Add,
    Subtract,
    Multiply,
    /// `//`
    Divide,
    /// `%`
    Remainder,
}
