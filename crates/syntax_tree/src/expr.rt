//! Expressions.

use base_types::Text;
use std::alloc::Global;
use std::sync::Arc;
use std::sync::atomic::AtomicUsize;

/// A literal that is a word.
#[derive(Clone, Copy)]
pub enum Literal {
    /// `None`
    NoneValue,
    /// `True`
    TrueValue,
    /// `False`
    FalseValue,
}

/// An operator before one operand.
#[derive(Clone, Copy)]
pub enum UnaryOp {
    Not,
    Plus,
    Minus,
}

/// An operator between two operands.
#[derive(Clone, Copy)]
pub enum BinaryOp {
    Or,
    And,
    Equal,
    NotEqual,
    Less,
    LessEqual,
    Greater,
    GreaterEqual,
    In,
    NotIn,
    Add,
    Subtract,
    Multiply,
    /// `//`
    Divide,
    /// `%`
    Remainder,
}

/// An expression. What is below a node is shared, so that a suspended evaluation can own what is left.
#[cycle(ast)]
pub enum Expr {
    /// A name, and the place at which it was found last. The meaning of a tree does not depend on that place, and
    /// whoever uses the place confirms what is there.
    Name(Text, AtomicUsize),
    Int(i64),
    Str(Text),
    Literal(Literal),
    Tuple(Arc<Vec<Expr>, Global>),
    List(Arc<Vec<Expr>, Global>),
    /// The keys, and as many values.
    Dict(Arc<Vec<Expr>, Global>, Arc<Vec<Expr>, Global>),
    /// `[item clauses]`
    ListOf(Arc<Expr, Global>, Arc<Vec<Clause>, Global>),
    /// `{key: value clauses}`
    DictOf(Arc<Expr, Global>, Arc<Expr, Global>, Arc<Vec<Clause>, Global>),
    Unary(UnaryOp, Arc<Expr, Global>),
    Binary(BinaryOp, Arc<Expr, Global>, Arc<Expr, Global>),
    /// The value if the condition holds, the condition, and the value if it does not.
    Choice(Arc<Expr, Global>, Arc<Expr, Global>, Arc<Expr, Global>),
    Index(Arc<Expr, Global>, Arc<Expr, Global>),
    /// What is sliced, and the bounds that are given.
    Slice(Arc<Expr, Global>, Option<Arc<Expr, Global>>, Option<Arc<Expr, Global>>),
    /// The function, the arguments, and the names of the last ones.
    Call(Arc<Expr, Global>, Arc<Vec<Expr>, Global>, Arc<Vec<Text>, Global>),
    /// The receiver, the method, the arguments, and the names of the last ones.
    Method(Arc<Expr, Global>, Text, Arc<Vec<Expr>, Global>, Arc<Vec<Text>, Global>),
}

impl Drop for Expr {
    #[cycle(expression_drops)]
    fn drop(self) {
        match self {
            Expr::Name(_, _) => {}
            Expr::Int(_) => {}
            Expr::Str(_) => {}
            Expr::Literal(_) => {}
            Expr::Tuple(_) => {}
            Expr::List(_) => {}
            Expr::Dict(_, _) => {}
            Expr::ListOf(_, _) => {}
            Expr::DictOf(_, _, _) => {}
            Expr::Unary(_, _) => {}
            Expr::Binary(_, _, _) => {}
            Expr::Choice(_, _, _) => {}
            Expr::Index(_, _) => {}
            Expr::Slice(_, _, _) => {}
            Expr::Call(_, _, _) => {}
            Expr::Method(_, _, _, _) => {}
        }
    }
}

/// A clause of a comprehension.
#[cycle(ast)]
pub enum Clause {
    /// `for target in sequence`: the target is a name, an index, or a tuple or list of targets.
    For(Arc<Expr, Global>, Arc<Expr, Global>),
    /// `if condition`
    If(Arc<Expr, Global>),
}

impl Drop for Clause {
    #[cycle(expression_drops)]
    fn drop(self) {
        match self {
            Clause::For(_, _) => {}
            Clause::If(_) => {}
        }
    }
}
