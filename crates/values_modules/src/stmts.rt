//! Statements and functions that are one tree, line for line.
ghost use Rattle.std.specs.Prelude.{◌≡◌, map};
ghost use Rattle.std.specs.Cmp.Lexicographic.{pointwise};
ghost use Rattle.syntax_tree.specs.Tree.{pass, break, continue, return, eval, assign, augment, if_else, for_each, more_branches, branch};
ghost use Rattle.syntax_tree.specs.View.{tree_of, bound_tree};
ghost use Rattle.syntax_tree.specs.Statements.{stmt_of, branch_of, stmts_of, branch_trees, param_of, fn_of};
ghost use Rattle.values_modules.specs.Same.{same_st, same_suite, same_branch, same_branches, same_param, same_fn};

use crate::exprs::{same_bound, same_expr};
use crate::numbers::binary_number;
use std::alloc::Global;
use std::sync::Arc;
use syntax_tree::{BinaryOp, Branch, Def, Expr, Param, Stmt};

/// Returns whether two functions are one tree, line for line.
pub fn same_def(a: &Def, b: &Def) -> bool
    ensures { result ≡ same_fn (fn_of a.now) (fn_of b.now) }
{
    a.line == b.line
        && a.name == b.name
        && same_params(a.params.as_slice(), b.params.as_slice())
        && same_stmts(a.body.as_slice(), b.body.as_slice())
}

// Returns whether parameters are the same, in order.
fn same_params(xs: &[Param], ys: &[Param]) -> bool
    ensures { result ≡ pointwise same_param (map param_of xs.now) (map param_of ys.now) }
{
    if xs.len() != ys.len() {
        return false;
    }
    for i in 0..xs.len() {
        if !same_param(&xs[i], &ys[i]) {
            return false;
        }
    }
    true
}

// Returns whether two parameters are the same.
fn same_param(a: &Param, b: &Param) -> bool
    ensures { result ≡ same_param (param_of a.now) (param_of b.now) }
{
    a.name == b.name && same_bound(&a.default, &b.default)
}

// Returns whether two statements are one tree.
#[cycle(stmts)]
fn same_stmt(a: &Stmt, b: &Stmt) -> bool
    ensures { result ≡ same_st (stmt_of a.now) (stmt_of b.now) }
{
    match b {
        Stmt::Pass(line) => is_pass(a, *line),
        Stmt::Break(line) => is_break(a, *line),
        Stmt::Continue(line) => is_continue(a, *line),
        Stmt::Return { line, value } => is_return(a, *line, value),
        Stmt::Eval { line, value } => is_evaluation(a, *line, value),
        Stmt::Assign {
            line,
            target,
            value,
        } => is_assignment(a, *line, target, value),
        Stmt::Augment {
            line,
            target,
            op,
            value,
        } => is_augmentation(a, *line, target, *op, value),
        Stmt::If {
            line,
            condition,
            body,
            branches,
            other,
        } => is_if(a, *line, condition, body, branches, other),
        Stmt::For {
            line,
            target,
            sequence,
            body,
        } => is_for(a, *line, target, sequence, body),
    }
}

// Returns whether a statement is `pass` on that line.
fn is_pass(a: &Stmt, line: usize) -> bool
    ensures { result ≡ same_st (stmt_of a.now) (pass line) }
{
    match a {
        Stmt::Pass(own) => *own == line,
        _ => false,
    }
}

// Returns whether a statement is `break` on that line.
fn is_break(a: &Stmt, line: usize) -> bool
    ensures { result ≡ same_st (stmt_of a.now) (break line) }
{
    match a {
        Stmt::Break(own) => *own == line,
        _ => false,
    }
}

// Returns whether a statement is `continue` on that line.
fn is_continue(a: &Stmt, line: usize) -> bool
    ensures { result ≡ same_st (stmt_of a.now) (continue line) }
{
    match a {
        Stmt::Continue(own) => *own == line,
        _ => false,
    }
}

// Returns whether a statement is a `return` on that line with that value, or with none.
fn is_return(a: &Stmt, line: usize, value: &Option<Arc<Expr, Global>>) -> bool
    ensures { result ≡ same_st (stmt_of a.now) (return line (bound_tree value.now)) }
{
    match a {
        Stmt::Return {
            line: own,
            value: x,
        } => *own == line && same_bound(x, value),
        _ => false,
    }
}

// Returns whether a statement is that expression on that line.
fn is_evaluation(a: &Stmt, line: usize, value: &Expr) -> bool
    ensures { result ≡ same_st (stmt_of a.now) (eval line (tree_of value.now)) }
{
    match a {
        Stmt::Eval {
            line: own,
            value: x,
        } => *own == line && same_expr(x, value),
        _ => false,
    }
}

// Returns whether a statement is an assignment on that line with these parts.
fn is_assignment(a: &Stmt, line: usize, target: &Expr, value: &Expr) -> bool
    ensures { result ≡ same_st (stmt_of a.now)
        (assign line (tree_of target.now) (tree_of value.now)) }
{
    match a {
        Stmt::Assign {
            line: own,
            target: t,
            value: x,
        } => *own == line && same_expr(t, target) && same_expr(x, value),
        _ => false,
    }
}

// Returns whether a statement is an augmented assignment on that line with these parts.
fn is_augmentation(a: &Stmt, line: usize, target: &Expr, op: BinaryOp, value: &Expr) -> bool
    ensures { result ≡ same_st (stmt_of a.now)
        (augment line (tree_of target.now) op (tree_of value.now)) }
{
    match a {
        Stmt::Augment {
            line: own,
            target: t,
            op: o,
            value: x,
        } => {
            *own == line
                && same_expr(t, target)
                && binary_number(*o) == binary_number(op)
                && same_expr(x, value)
        }
        _ => false,
    }
}

// Returns whether a statement is an `if` on that line with these parts.
#[cycle(stmts)]
fn is_if(
    a: &Stmt,
    line: usize,
    condition: &Expr,
    body: &[Stmt],
    branches: &[Branch],
    other: &[Stmt],
) -> bool
    ensures { result ≡ same_st (stmt_of a.now)
        (if_else (more_branches (branch line (tree_of condition.now) (stmts_of body.now))
        (branch_trees branches.now)) (stmts_of other.now)) }
{
    match a {
        Stmt::If {
            line: own,
            condition: x,
            body: xs,
            branches: bs,
            other: ss,
        } => {
            *own == line
                && same_expr(x, condition)
                && same_stmts(xs.as_slice(), body)
                && same_branches(bs.as_slice(), branches)
                && same_stmts(ss.as_slice(), other)
        }
        _ => false,
    }
}

// Returns whether a statement is a `for` on that line with these parts.
#[cycle(stmts)]
fn is_for(a: &Stmt, line: usize, target: &Expr, sequence: &Expr, body: &[Stmt]) -> bool
    ensures { result ≡ same_st (stmt_of a.now)
        (for_each line (tree_of target.now) (tree_of sequence.now) (stmts_of body.now)) }
{
    match a {
        Stmt::For {
            line: own,
            target: t,
            sequence: x,
            body: ss,
        } => {
            *own == line
                && same_expr(t, target)
                && same_expr(x, sequence)
                && same_stmts(ss.as_slice(), body)
        }
        _ => false,
    }
}

// Returns whether statements are the same trees, in order.
#[cycle(stmts)]
fn same_stmts(xs: &[Stmt], ys: &[Stmt]) -> bool
    ensures { result ≡ same_suite (stmts_of xs.now) (stmts_of ys.now) }
{
    if xs.len() != ys.len() {
        return false;
    }
    for i in 0..xs.len() {
        if !same_stmt(&xs[i], &ys[i]) {
            return false;
        }
    }
    true
}

// Returns whether branches are the same trees, in order.
#[cycle(stmts)]
fn same_branches(xs: &[Branch], ys: &[Branch]) -> bool
    ensures { result ≡ same_branches (branch_trees xs.now) (branch_trees ys.now) }
{
    if xs.len() != ys.len() {
        return false;
    }
    for i in 0..xs.len() {
        if !same_branch(&xs[i], &ys[i]) {
            return false;
        }
    }
    true
}

// Returns whether two branches are one tree.
#[cycle(stmts)]
fn same_branch(a: &Branch, b: &Branch) -> bool
    ensures { result ≡ same_branch (branch_of a.now) (branch_of b.now) }
{
    a.line == b.line
        && same_expr(&a.condition, &b.condition)
        && same_stmts(a.body.as_slice(), b.body.as_slice())
}
