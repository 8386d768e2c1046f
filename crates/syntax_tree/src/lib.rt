//! Syntax trees. Begin at `expr.rt` and `specs/Tree.antt`.
#![tactic(auto)]

mod def;
mod expr;
mod make;
mod make_stmt;
mod stmt;

pub use def::{Def, File, LoadItem, LoadStmt, Param, Top};
pub use expr::{BinaryOp, Clause, Expr, Literal, UnaryOp};
pub use stmt::{Branch, Stmt};
