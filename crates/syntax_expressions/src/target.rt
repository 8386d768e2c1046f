//! Targets of assignments.
ghost use Rattle.std.specs.Prelude.{◌≡◌, ◌&&◌};
ghost use Rattle.syntax_grammar.specs.Targets.{is_target, is_some_ex, all_targets};
ghost use Rattle.syntax_tree.specs.View.{tree_of, trees_of};

use syntax_tree::Expr;

/// Returns whether an expression can be assigned to: it is a name, an index, or a tuple or list of one or more targets.
#[cycle(target)]
pub fn is_target(e: &Expr) -> bool
    ensures { result ≡ is_target (tree_of e.now) }
{
    match e {
        Expr::Name(_, _) => true,
        Expr::Index(_, _) => true,
        Expr::Tuple(items) => are_targets(items.as_slice()),
        Expr::List(items) => are_targets(items.as_slice()),
        Expr::Int(_) => false,
        Expr::Str(_) => false,
        Expr::Literal(_) => false,
        Expr::Dict(_, _) => false,
        Expr::ListOf(_, _) => false,
        Expr::DictOf(_, _, _) => false,
        Expr::Unary(_, _) => false,
        Expr::Binary(_, _, _) => false,
        Expr::Choice(_, _, _) => false,
        Expr::Slice(_, _, _) => false,
        Expr::Call(_, _, _) => false,
        Expr::Method(_, _, _, _) => false,
    }
}

/// Returns whether there are expressions, and each of them can be assigned to.
#[cycle(target)]
#[tactic(auto, using(crate::proofs::ManyTargets::some_is))]
fn are_targets(items: &[Expr]) -> bool
    ensures { result ≡ (is_some_ex (trees_of items.now) && all_targets (trees_of items.now)) }
{
    if items.is_empty() {
        return false;
    }
    all_targets(items)
}

/// Returns whether each of the expressions can be assigned to.
#[cycle(target)]
fn all_targets(items: &[Expr]) -> bool
    ensures { result ≡ all_targets (trees_of items.now) }
{
    for item in items {
        if !is_target(item) {
            return false;
        }
    }
    true
}
