//! Quiet expressions where code stands in an evaluation.
ghost use Rattle.std.specs.Prelude.{◌≡◌, ◌<◌, ◌≤◌, ◌&&◌, ℕ, List, true, IfOk};
ghost use Rattle.evaluator_semantics.specs.Environment.{Env};
ghost use Rattle.evaluator_semantics.specs.Expressions as ex;
ghost use Rattle.evaluator_semantics.specs.Expressions.{Call};
ghost use Rattle.syntax_tree.specs.View.{tree_of, trees_of};
ghost use Rattle.evaluator_state.specs.View.{world_of, here_of, Ran, RanItems};
ghost use Rattle.evaluator_direct.specs.Quiet.{quiet, quiets};
ghost use Rattle.evaluator_direct.specs.Weight.{weight, weights, is_light};
ghost use Rattle.evaluator_direct.specs.View.{free_at};

use crate::evaluating::{value, values};
use crate::quiet::{are_quiet_and_light, is_quiet_and_light};
use evaluator_state::{Position, Scope, State};
use syntax_tree::Expr;
use values_heap::{Halt, Val};

/// Returns whether an expression is evaluated at once where it stands: its evaluation can wait for nothing, and it is
/// light, with few parts that make few values.
pub fn is_quiet_at(state: &State, at: &Position, e: &Expr) -> bool
    ensures { result ≡ (quiet (free_at at.now state.now) (tree_of e.now) && is_light
        (weight (tree_of e.now))) }
{
    let scope = Scope {
        blocks: state.blocks.as_slice(),
        files: &state.files,
        at,
    };
    is_quiet_and_light(&scope, e)
}

/// Evaluates a quiet expression where it stands. The heap alone is changed.
pub fn value_at(state: &mut State, at: &Position, e: &Expr) -> Result<Val, Halt>
    requires { quiet (free_at at.now state.old) (tree_of e.now) ≡ true }
    ensures says { (env : Env) (call : Call) (line : ℕ) (running : List (List ℕ × List ℕ))
        → let here = here_of at.now line running in
        Ran here.site (ex.value env call (tree_of e.now) here (world_of state.old)) result
        (world_of state.new) }
    ensures steps { IfOk result (λ _. state.new.heap.steps < state.old.heap.steps) }
    ensures kept { (state.new.blocks ≡ state.old.blocks) × (state.new.files ≡ state.old.files) }
{
    let scope = Scope {
        blocks: state.blocks.as_slice(),
        files: &state.files,
        at,
    };
    value(&mut state.heap, &scope, e)
}

/// Returns whether several expressions are evaluated at once where they stand: that can wait for nothing, and they are
/// light together, with few parts that make few values.
pub fn are_quiet_at(state: &State, at: &Position, es: &[Expr]) -> bool
    ensures { result ≡ (quiets (free_at at.now state.now) (trees_of es.now) && is_light
        (weights (trees_of es.now))) }
{
    let scope = Scope {
        blocks: state.blocks.as_slice(),
        files: &state.files,
        at,
    };
    are_quiet_and_light(&scope, es)
}

/// Evaluates several quiet expressions where they stand, in order. The heap alone is changed.
pub fn values_at(state: &mut State, at: &Position, es: &[Expr]) -> Result<Vec<Val>, Halt>
    requires { quiets (free_at at.now state.old) (trees_of es.now) ≡ true }
    ensures says { (env : Env) (call : Call) (line : ℕ) (running : List (List ℕ × List ℕ))
        → let here = here_of at.now line running in RanItems here.site
        (ex.values env call (trees_of es.now) here (world_of state.old)) result
        (world_of state.new) }
    ensures steps { IfOk result (λ _. state.new.heap.steps ≤ state.old.heap.steps) }
    ensures kept { (state.new.blocks ≡ state.old.blocks) × (state.new.files ≡ state.old.files) }
{
    let scope = Scope {
        blocks: state.blocks.as_slice(),
        files: &state.files,
        at,
    };
    values(&mut state.heap, &scope, es)
}
