//! Statements.

use crate::expr::{BinaryOp, Expr};
use base_types::Text;
use std::alloc::Global;
use std::sync::Arc;

/// A statement with the line of its first token, counted from 1.
#[cycle(statements)]
pub enum Stmt {
    Pass(usize),
    Break(usize),
    Continue(usize),
    Return {
        line: usize,
        value: Option<Arc<Expr, Global>>,
    },
    Eval {
        line: usize,
        value: Arc<Expr, Global>,
    },
    /// The target is a name, an index, or a tuple or list of targets.
    Assign {
        line: usize,
        target: Arc<Expr, Global>,
        value: Arc<Expr, Global>,
    },
    /// The target is a name or an index.
    Augment {
        line: usize,
        target: Arc<Expr, Global>,
        op: BinaryOp,
        value: Arc<Expr, Global>,
    },
    /// The body is after `if`, the branches are after each `elif`, and the other statements are after `else`.
    If {
        line: usize,
        condition: Arc<Expr, Global>,
        body: Arc<Vec<Stmt>, Global>,
        branches: Arc<Vec<Branch>, Global>,
        other: Arc<Vec<Stmt>, Global>,
    },
    For {
        line: usize,
        target: Arc<Expr, Global>,
        sequence: Arc<Expr, Global>,
        body: Arc<Vec<Stmt>, Global>,
    },
}

impl Drop for Stmt {
    #[cycle(statement_drops)]
    fn drop(self) {
        match self {
            Stmt::Pass(_) => {}
            Stmt::Break(_) => {}
            Stmt::Continue(_) => {}
            Stmt::Return { line: _, value: _ } => {}
            Stmt::Eval { line: _, value: _ } => {}
            Stmt::Assign {
                line: _,
                target: _,
                value: _,
            } => {}
            Stmt::Augment {
                line: _,
                target: _,
                op: _,
                value: _,
            } => {}
            Stmt::If {
                line: _,
                condition: _,
                body: _,
                branches: _,
                other: _,
            } => {}
            Stmt::For {
                line: _,
                target: _,
                sequence: _,
                body: _,
            } => {}
        }
    }
}

/// An `elif` branch with its line: the condition and the statements.
#[cycle(statements)]
#[derive(Drop)]
pub struct Branch {
    pub line: usize,
    pub condition: Arc<Expr, Global>,
    pub body: Arc<Vec<Stmt>, Global>,
}
