//! Kinds of files, of expressions and of places.

/// A kind of files.
#[derive(Clone, Copy, Drop)]
pub enum FileKind {
    /// A BUILD file, which has no functions.
    Build,
    /// A module.
    Bzl,
}

/// A kind of expressions that is read one level down.
#[derive(Clone, Copy, Drop)]
pub enum Kind {
    Test,
    Or,
    Not,
    Unary,
    Postfix,
}

/// A rank of binary operators that group to the left.
#[derive(Clone, Copy, Drop)]
pub enum Rank {
    Or,
    And,
    Sum,
    Term,
}

/// What a statement is in.
#[derive(Clone, Copy, Drop)]
pub struct Within {
    pub in_def: bool,
    pub in_for: bool,
}
