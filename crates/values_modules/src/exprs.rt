//! Expressions that are one tree.
ghost use Rattle.std.specs.Prelude.{◌≡◌, ◌&&◌, nat_eq};
ghost use Rattle.std.specs.Cmp.Lexicographic.{pointwise};
ghost use Rattle.syntax_tree.specs.View.{tree_of, clause_of, trees_of, clause_trees, bound_tree};
ghost use Rattle.values_modules.specs.Same.{same_ex, same_exs, same_bound, same_clause, same_clauses};

use crate::numbers::{binary_number, literal_number, unary_number};
use base_types::Text;
use std::alloc::Global;
use std::sync::Arc;
use syntax_tree::{Clause, Expr};

/// Returns whether two expressions are one tree.
#[cycle(exprs)]
pub fn same_expr(a: &Expr, b: &Expr) -> bool
    ensures { result ≡ same_ex (tree_of a.now) (tree_of b.now) }
{
    match (a, b) {
        (Expr::Name(x, _), Expr::Name(y, _)) => x == y,
        (Expr::Int(x), Expr::Int(y)) => *x == *y,
        (Expr::Str(x), Expr::Str(y)) => x == y,
        (Expr::Literal(x), Expr::Literal(y)) => literal_number(*x) == literal_number(*y),
        (Expr::Tuple(xs), Expr::Tuple(ys)) => same_exprs(xs.as_slice(), ys.as_slice()),
        (Expr::List(xs), Expr::List(ys)) => same_exprs(xs.as_slice(), ys.as_slice()),
        (Expr::Dict(ks, xs), Expr::Dict(ls, ys)) => {
            same_exprs(ks.as_slice(), ls.as_slice()) && same_exprs(xs.as_slice(), ys.as_slice())
        }
        (Expr::ListOf(x, xs), Expr::ListOf(y, ys)) => {
            same_expr(x, y) && same_clauses(xs.as_slice(), ys.as_slice())
        }
        (Expr::DictOf(k, x, xs), Expr::DictOf(l, y, ys)) => {
            same_expr(k, l) && same_expr(x, y) && same_clauses(xs.as_slice(), ys.as_slice())
        }
        (Expr::Unary(o, x), Expr::Unary(p, y)) => {
            unary_number(*o) == unary_number(*p) && same_expr(x, y)
        }
        (Expr::Binary(o, x, z), Expr::Binary(p, y, w)) => {
            binary_number(*o) == binary_number(*p) && same_expr(x, y) && same_expr(z, w)
        }
        (Expr::Choice(x, c, z), Expr::Choice(y, d, w)) => {
            same_expr(x, y) && same_expr(c, d) && same_expr(z, w)
        }
        (Expr::Index(x, i), Expr::Index(y, j)) => same_expr(x, y) && same_expr(i, j),
        (Expr::Slice(x, i, j), Expr::Slice(y, k, l)) => {
            same_expr(x, y) && same_bound(i, k) && same_bound(j, l)
        }
        (Expr::Call(x, xs, ns), Expr::Call(y, ys, ms)) => {
            same_expr(x, y) && same_arguments(xs, ns, ys, ms)
        }
        (Expr::Method(x, n, xs, ns), Expr::Method(y, m, ys, ms)) => {
            same_expr(x, y) && n == m && same_arguments(xs, ns, ys, ms)
        }
        _ => false,
    }
}

// Returns whether two calls have the same arguments, and the same names of the last ones.
#[cycle(exprs)]
fn same_arguments(xs: &[Expr], ns: &[Text], ys: &[Expr], ms: &[Text]) -> bool
    ensures { result ≡ (same_exs (trees_of xs.now) (trees_of ys.now)
        && pointwise (pointwise nat_eq) ns.now ms.now) }
{
    same_exprs(xs, ys) && ns == ms
}

// Returns whether expressions are the same trees, in order.
#[cycle(exprs)]
fn same_exprs(xs: &[Expr], ys: &[Expr]) -> bool
    ensures { result ≡ same_exs (trees_of xs.now) (trees_of ys.now) }
{
    if xs.len() != ys.len() {
        return false;
    }
    for i in 0..xs.len() {
        if !same_expr(&xs[i], &ys[i]) {
            return false;
        }
    }
    true
}

/// Returns whether two expressions are one tree, or both are absent.
#[cycle(exprs)]
pub fn same_bound(a: &Option<Arc<Expr, Global>>, b: &Option<Arc<Expr, Global>>) -> bool
    ensures { result ≡ same_bound (bound_tree a.now) (bound_tree b.now) }
{
    match (a, b) {
        (Some(x), Some(y)) => same_expr(x, y),
        (None, None) => true,
        _ => false,
    }
}

// Returns whether clauses are the same trees, in order.
#[cycle(exprs)]
fn same_clauses(xs: &[Clause], ys: &[Clause]) -> bool
    ensures { result ≡ same_clauses (clause_trees xs.now) (clause_trees ys.now) }
{
    if xs.len() != ys.len() {
        return false;
    }
    for i in 0..xs.len() {
        if !same_clause(&xs[i], &ys[i]) {
            return false;
        }
    }
    true
}

// Returns whether two clauses are one tree.
#[cycle(exprs)]
fn same_clause(a: &Clause, b: &Clause) -> bool
    ensures { result ≡ same_clause (clause_of a.now) (clause_of b.now) }
{
    match (a, b) {
        (Clause::For(t, x), Clause::For(u, y)) => same_expr(t, u) && same_expr(x, y),
        (Clause::If(x), Clause::If(y)) => same_expr(x, y),
        _ => false,
    }
}
