//! The nodes of expressions.
ghost use Rattle.std.specs.Prelude.{◌≡◌, IfOk};
ghost use Rattle.syntax_tree.specs.Tree.{name, int, str, literal, tuple, list, dict, list_of, dict_of, unary, binary, choice, index, slice, call, method, for_in, only_if};
ghost use Rattle.syntax_tree.specs.View.{tree_of, trees_of, clause_of, clause_trees, bound_tree, shared_tree};

use crate::expr::{BinaryOp, Clause, Expr, Literal, UnaryOp};
use base_types::{Memory, Text};
use std::alloc::Global;
use std::sync::Arc;
use std::sync::atomic::AtomicUsize;

// Makes two expressions shared. A failure here has no third value to drop.
pub(crate) fn share_two(
    alloc: Global,
    first: Expr,
    second: Expr,
) -> Result<(Arc<Expr, Global>, Arc<Expr, Global>), Memory>
    ensures { IfOk result (λ p. (shared_tree p.0 ≡ tree_of first)
        × (shared_tree p.1 ≡ tree_of second)) }
{
    Ok((Arc::new(alloc, first)?, Arc::new(alloc, second)?))
}

impl Expr {
    /// Makes a name that was not looked up yet.
    pub fn name(text: Text) -> Expr
        ensures { tree_of result ≡ name text }
    {
        Expr::Name(text, AtomicUsize::new(0))
    }

    /// Makes a whole number.
    pub fn int(n: i64) -> Expr
        ensures { tree_of result ≡ int n }
    {
        Expr::Int(n)
    }

    /// Makes a string.
    pub fn string(text: Text) -> Expr
        ensures { tree_of result ≡ str text }
    {
        Expr::Str(text)
    }

    /// Makes `None`, `True` or `False`.
    pub fn literal(value: Literal) -> Expr
        ensures { tree_of result ≡ literal value }
    {
        Expr::Literal(value)
    }

    /// Makes a tuple.
    pub fn tuple(alloc: Global, items: Vec<Expr>) -> Result<Expr, Memory>
        ensures { IfOk result (λ e. tree_of e ≡ tuple (trees_of items.items)) }
    {
        Ok(Expr::Tuple(Arc::new(alloc, items)?))
    }

    /// Makes a list.
    pub fn list(alloc: Global, items: Vec<Expr>) -> Result<Expr, Memory>
        ensures { IfOk result (λ e. tree_of e ≡ list (trees_of items.items)) }
    {
        Ok(Expr::List(Arc::new(alloc, items)?))
    }

    /// Makes a dictionary of keys and as many values.
    pub fn dict(alloc: Global, keys: Vec<Expr>, values: Vec<Expr>) -> Result<Expr, Memory>
        ensures { IfOk result
            (λ e. tree_of e ≡ dict (trees_of keys.items) (trees_of values.items)) }
    {
        Ok(Expr::Dict(Arc::new(alloc, keys)?, Arc::new(alloc, values)?))
    }

    /// Makes a list of an item for each iteration of the clauses.
    pub fn list_of(alloc: Global, item: Expr, clauses: Vec<Clause>) -> Result<Expr, Memory>
        ensures { IfOk result
            (λ e. tree_of e ≡ list_of (tree_of item) (clause_trees clauses.items)) }
    {
        Ok(Expr::ListOf(Arc::new(alloc, item)?, Arc::new(alloc, clauses)?))
    }

    /// Makes a dictionary of a key and a value for each iteration of the clauses.
    pub fn dict_of(
        alloc: Global,
        key: Expr,
        value: Expr,
        clauses: Vec<Clause>,
    ) -> Result<Expr, Memory>
        ensures { IfOk result (λ e. tree_of e ≡ dict_of (tree_of key) (tree_of value)
            (clause_trees clauses.items)) }
    {
        let (key, value) = share_two(alloc, key, value)?;
        Ok(Expr::DictOf(key, value, Arc::new(alloc, clauses)?))
    }

    /// Makes an operation of an operator before an operand.
    pub fn unary(alloc: Global, op: UnaryOp, operand: Expr) -> Result<Expr, Memory>
        ensures { IfOk result (λ e. tree_of e ≡ unary op (tree_of operand)) }
    {
        Ok(Expr::Unary(op, Arc::new(alloc, operand)?))
    }

    /// Makes an operation of an operator between two operands.
    pub fn binary(alloc: Global, op: BinaryOp, left: Expr, right: Expr) -> Result<Expr, Memory>
        ensures { IfOk result (λ e. tree_of e ≡ binary op (tree_of left) (tree_of right)) }
    {
        let (left, right) = share_two(alloc, left, right)?;
        Ok(Expr::Binary(op, left, right))
    }

    /// Makes a choice: the first expression if the condition holds, and the last one if it does not.
    pub fn conditional(
        alloc: Global,
        then: Expr,
        condition: Expr,
        other: Expr,
    ) -> Result<Expr, Memory>
        ensures { IfOk result (λ e. tree_of e ≡ choice (tree_of «then») (tree_of condition)
            (tree_of other)) }
    {
        let (then, condition) = share_two(alloc, then, condition)?;
        Ok(Expr::Choice(then, condition, Arc::new(alloc, other)?))
    }

    /// Makes the member of a value at an index.
    pub fn index(alloc: Global, value: Expr, at: Expr) -> Result<Expr, Memory>
        ensures { IfOk result (λ e. tree_of e ≡ index (tree_of value) (tree_of at)) }
    {
        let (value, at) = share_two(alloc, value, at)?;
        Ok(Expr::Index(value, at))
    }

    /// Makes the part of a value between two bounds.
    pub fn slice(
        alloc: Global,
        value: Expr,
        from: Option<Arc<Expr, Global>>,
        to: Option<Arc<Expr, Global>>,
    ) -> Result<Expr, Memory>
        ensures { IfOk result (λ e. tree_of e ≡ slice (tree_of value) (bound_tree from)
            (bound_tree to)) }
    {
        Ok(Expr::Slice(Arc::new(alloc, value)?, from, to))
    }

    /// Makes a call; the names are those of the last arguments.
    pub fn call(
        alloc: Global,
        function: Expr,
        arguments: Vec<Expr>,
        names: Vec<Text>,
    ) -> Result<Expr, Memory>
        ensures { IfOk result (λ e. tree_of e ≡ call (tree_of function) (trees_of arguments.items)
            names.items) }
    {
        Ok(Expr::Call(
            Arc::new(alloc, function)?,
            Arc::new(alloc, arguments)?,
            Arc::new(alloc, names)?,
        ))
    }

    /// Makes a call of a method; the names are those of the last arguments.
    pub fn method(
        alloc: Global,
        receiver: Expr,
        name: Text,
        arguments: Vec<Expr>,
        names: Vec<Text>,
    ) -> Result<Expr, Memory>
        ensures { IfOk result (λ e. tree_of e ≡ method (tree_of receiver) name
            (trees_of arguments.items) names.items) }
    {
        Ok(Expr::Method(
            Arc::new(alloc, receiver)?,
            name,
            Arc::new(alloc, arguments)?,
            Arc::new(alloc, names)?,
        ))
    }
}

impl Clause {
    /// Makes a clause with an iteration for each item of a sequence.
    pub fn for_clause(alloc: Global, target: Expr, sequence: Expr) -> Result<Clause, Memory>
        ensures { IfOk result (λ c. clause_of c ≡ for_in (tree_of target) (tree_of sequence)) }
    {
        let (target, sequence) = share_two(alloc, target, sequence)?;
        Ok(Clause::For(target, sequence))
    }

    /// Makes a clause with an iteration only where a condition holds.
    pub fn if_clause(alloc: Global, condition: Expr) -> Result<Clause, Memory>
        ensures { IfOk result (λ c. clause_of c ≡ only_if (tree_of condition)) }
    {
        Ok(Clause::If(Arc::new(alloc, condition)?))
    }
}
