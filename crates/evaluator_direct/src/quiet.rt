//! Whether an expression can wait for nothing, and is light: it has few parts, and makes few values.
ghost use Rattle.std.specs.Prelude.{◌≡◌, ◌&&◌};
ghost use Rattle.syntax_tree.specs.View.{tree_of, trees_of, bound_tree};
ghost use Rattle.evaluator_state.specs.Scope.{is_free};
ghost use Rattle.evaluator_direct.specs.Quiet.{is_plain, is_word_native, quiet, quiets, quiet_bound};
ghost use Rattle.evaluator_direct.specs.Weight.{weight, weights, bound_weight, is_light, room};

use evaluator_state::{Scope, plain_function, slot_in_scope};
use std::alloc::Global;
use std::sync::Arc;
use syntax_tree::Expr;

// What the making of a value weighs: as much as so many parts.
const MADE: u64 = 128;

// At most so much is evaluated at once: eight values and the parts between them.
const MOST_WEIGHT: u64 = 1151;

// Returns whether an expression is a function that every file has, where no block and no file has its name.
fn is_plain(scope: &Scope<'_>, e: &Expr) -> bool
    ensures { result ≡ is_plain (is_free scope.now) (tree_of e.now) }
{
    match e {
        Expr::Name(x, last) => {
            slot_in_scope(scope, x, last).is_none() && plain_function(x).is_some()
        }
        _ => false,
    }
}

// Returns whether an expression is the word `native`.
fn is_word_native(e: &Expr) -> bool
    ensures { result ≡ is_word_native (tree_of e.now) }
{
    match e {
        Expr::Name(x, _) => x.as_str().as_bytes() == b"native".as_slice(),
        _ => false,
    }
}

// Returns how much more there may be behind an expression, of so much; nothing where its evaluation can wait. It waits for
// nothing where none in it calls a function of a file or a package call, and none has a block of its own. The cost is
// bounded by `left`, and not by the expression.
#[cycle(room)]
#[tactic(auto, using(crate::proofs::Room::behind, crate::proofs::Room::between, crate::proofs::Room::between_three, crate::proofs::Room::one_more, crate::proofs::Room::nothing_left))]
fn room_behind(scope: &Scope<'_>, e: &Expr, left: u64) -> u64
    ensures { result ≡ room (quiet (is_free scope.now) (tree_of e.now)) (weight (tree_of e.now))
        left }
{
    if left == 0 {
        return 0;
    }
    match e {
        Expr::Name(_, _) => left - 1,
        Expr::Int(_) => left - 1,
        Expr::Str(_) => left - 1,
        Expr::Literal(_) => left - 1,
        Expr::Tuple(es) => room_behind_all(scope, es.as_slice(), left).saturating_sub(1),
        Expr::List(es) => room_behind_all(scope, es.as_slice(), left).saturating_sub(1),
        Expr::Dict(_, _) => 0,
        Expr::ListOf(_, _) => 0,
        Expr::DictOf(_, _, _) => 0,
        Expr::Unary(_, a) => room_behind(scope, a, left).saturating_sub(1),
        Expr::Binary(_, a, b) => {
            room_behind(scope, b, room_behind(scope, a, left)).saturating_sub(MADE)
        }
        Expr::Choice(a, c, b) => {
            let behind = room_behind(scope, c, room_behind(scope, a, left));
            room_behind(scope, b, behind).saturating_sub(1)
        }
        Expr::Index(a, i) => room_behind(scope, i, room_behind(scope, a, left)).saturating_sub(1),
        Expr::Slice(a, i, j) => {
            let left = room_behind(scope, a, left);
            room_behind_bound(scope, j, room_behind_bound(scope, i, left)).saturating_sub(MADE)
        }
        Expr::Call(f, es, _) => {
            if !is_plain(scope, f) {
                return 0;
            }
            room_behind_all(scope, es.as_slice(), left).saturating_sub(MADE)
        }
        Expr::Method(a, _, es, _) => {
            if is_word_native(a) {
                return 0;
            }
            room_behind_all(scope, es.as_slice(), room_behind(scope, a, left)).saturating_sub(MADE)
        }
    }
}

// Returns the same of several expressions.
#[cycle(room)]
#[tactic(auto, using(crate::proofs::Room::nothing_left))]
fn room_behind_all(scope: &Scope<'_>, es: &[Expr], left: u64) -> u64
    ensures { result ≡ room (quiets (is_free scope.now) (trees_of es.now))
        (weights (trees_of es.now)) left }
{
    let mut left = left;
    for e in es.iter() {
        if left == 0 {
            return 0;
        }
        left = room_behind(scope, e, left);
    }
    left
}

// Returns the same of a bound, which may be left out.
#[cycle(room)]
fn room_behind_bound(scope: &Scope<'_>, bound: &Option<Arc<Expr, Global>>, left: u64) -> u64
    ensures { result ≡ room (quiet_bound (is_free scope.now) (bound_tree bound.now))
        (bound_weight (bound_tree bound.now)) left }
{
    match bound {
        Some(e) => room_behind(scope, e, left),
        None => left,
    }
}

/// Returns whether the evaluation of an expression can wait for nothing, and the expression is light.
pub fn is_quiet_and_light(scope: &Scope<'_>, e: &Expr) -> bool
    ensures { result ≡ (quiet (is_free scope.now) (tree_of e.now)
        && is_light (weight (tree_of e.now))) }
{
    room_behind(scope, e, MOST_WEIGHT + 1) > 0
}

/// Returns whether the evaluation of several expressions can wait for nothing, and they are light together.
pub fn are_quiet_and_light(scope: &Scope<'_>, es: &[Expr]) -> bool
    ensures { result ≡ (quiets (is_free scope.now) (trees_of es.now)
        && is_light (weights (trees_of es.now))) }
{
    room_behind_all(scope, es, MOST_WEIGHT + 1) > 0
}
