//! The nodes of statements.
ghost use Rattle.std.specs.Prelude.{◌≡◌, IfOk, map};
ghost use Rattle.syntax_tree.specs.Tree.{pass, break, continue, return, eval, assign, augment, if_else, for_each, more_branches, branch, stmt, def};
ghost use Rattle.syntax_tree.specs.View.{tree_of, bound_tree};
ghost use Rattle.syntax_tree.specs.Statements.{stmt_of, stmts_of, branch_of, branch_trees, fn_of, top_of, load_of, file_of};

use crate::def::{Def, File, LoadStmt, Top};
use crate::expr::{BinaryOp, Expr};
use crate::make::share_two;
use crate::stmt::{Branch, Stmt};
use base_types::Memory;
use std::alloc::Global;
use std::sync::Arc;

impl Stmt {
    /// Makes a `pass`.
    pub fn pass_stmt(line: usize) -> Stmt
        ensures { stmt_of result ≡ pass line }
    {
        Stmt::Pass(line)
    }

    /// Makes a `break`.
    pub fn break_stmt(line: usize) -> Stmt
        ensures { stmt_of result ≡ break line }
    {
        Stmt::Break(line)
    }

    /// Makes a `continue`.
    pub fn continue_stmt(line: usize) -> Stmt
        ensures { stmt_of result ≡ continue line }
    {
        Stmt::Continue(line)
    }

    /// Makes a `return`, with a value or without one.
    pub fn return_value(line: usize, value: Option<Arc<Expr, Global>>) -> Stmt
        ensures { stmt_of result ≡ return line (bound_tree value) }
    {
        Stmt::Return { line, value }
    }

    /// Makes a statement that evaluates an expression.
    pub fn eval(alloc: Global, line: usize, value: Expr) -> Result<Stmt, Memory>
        ensures { IfOk result (λ s. stmt_of s ≡ eval line (tree_of value)) }
    {
        let value = Arc::new(alloc, value)?;
        Ok(Stmt::Eval { line, value })
    }

    /// Makes an assignment.
    pub fn assign(alloc: Global, line: usize, target: Expr, value: Expr) -> Result<Stmt, Memory>
        ensures { IfOk result (λ s. stmt_of s ≡ assign line (tree_of target) (tree_of value)) }
    {
        let (target, value) = share_two(alloc, target, value)?;
        Ok(Stmt::Assign {
            line,
            target,
            value,
        })
    }

    /// Makes an assignment of the value that an operator gives for the present value and an operand.
    pub fn augment(
        alloc: Global,
        line: usize,
        target: Expr,
        op: BinaryOp,
        value: Expr,
    ) -> Result<Stmt, Memory>
        ensures { IfOk result (λ s. stmt_of s ≡ augment line (tree_of target) op (tree_of value)) }
    {
        let (target, operand) = share_two(alloc, target, value)?;
        Ok(Stmt::Augment {
            line,
            target,
            op,
            value: operand,
        })
    }

    /// Makes an `if` of its first branch, the `elif` branches, and the statements where no condition holds.
    pub fn if_stmt(
        alloc: Global,
        first: Branch,
        branches: Vec<Branch>,
        other: Vec<Stmt>,
    ) -> Result<Stmt, Memory>
        ensures { IfOk result
            (λ s. stmt_of s ≡ if_else
            (more_branches (branch_of first) (branch_trees branches.items))
            (stmts_of other.items)) }
    {
        let Branch {
            line,
            condition,
            body,
        } = first;
        let branches = Arc::new(alloc, branches)?;
        let other = Arc::new(alloc, other)?;
        Ok(Stmt::If {
            line,
            condition,
            body,
            branches,
            other,
        })
    }

    /// Makes a loop: the statements for each item of a sequence.
    pub fn for_each(
        alloc: Global,
        line: usize,
        target: Expr,
        sequence: Expr,
        body: Vec<Stmt>,
    ) -> Result<Stmt, Memory>
        ensures { IfOk result (λ s. stmt_of s ≡ for_each line (tree_of target) (tree_of sequence)
            (stmts_of body.items)) }
    {
        let (target, sequence) = share_two(alloc, target, sequence)?;
        let body = Arc::new(alloc, body)?;
        Ok(Stmt::For {
            line,
            target,
            sequence,
            body,
        })
    }
}

impl Branch {
    /// Makes a branch.
    pub fn new(
        alloc: Global,
        line: usize,
        condition: Expr,
        body: Vec<Stmt>,
    ) -> Result<Branch, Memory>
        ensures { IfOk result (λ b. branch_of b ≡ branch line (tree_of condition)
            (stmts_of body.items)) }
    {
        let condition = Arc::new(alloc, condition)?;
        let body = Arc::new(alloc, body)?;
        Ok(Branch {
            line,
            condition,
            body,
        })
    }
}

impl Top {
    /// Makes a statement of a file.
    pub fn statement(value: Stmt) -> Top
        ensures { top_of result ≡ stmt (stmt_of value) }
    {
        Top::Stmt(value)
    }

    /// Makes a function of a file.
    pub fn function(alloc: Global, value: Def) -> Result<Top, Memory>
        ensures { IfOk result (λ t. top_of t ≡ def (fn_of value)) }
    {
        Ok(Top::Def(Arc::new(alloc, value)?))
    }
}

impl File {
    /// Returns the load statements, in order.
    pub fn loads(&self) -> &[LoadStmt]
        ensures { map load_of result.now ≡ (file_of self.now).loads }
    {
        self.loads.as_slice()
    }
}
