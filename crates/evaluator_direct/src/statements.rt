//! Statements whose parts are quiet, run at once.
ghost use Rattle.std.specs.Prelude.{◌≡◌, ◌≤◌, ◌&&◌, ℕ, List, is_some, IfOk};
ghost use Rattle.values_heap.specs.View.{store_of};
ghost use Rattle.evaluator_semantics.specs.World.{Here, World, at_line};
ghost use Rattle.evaluator_semantics.specs.Environment.{Env};
ghost use Rattle.evaluator_semantics.specs.Expressions.{Call};
ghost use Rattle.evaluator_semantics.specs.Statements as s;
ghost use Rattle.syntax_tree.specs.Tree as t;
ghost use Rattle.syntax_tree.specs.Statements.{stmt_of};
ghost use Rattle.syntax_tree.specs.View.{tree_of};
ghost use Rattle.evaluator_state.specs.View.{world_of, here_of, Ran};
ghost use Rattle.evaluator_direct.specs.View.{free_at};
ghost use Rattle.evaluator_direct.specs.Running.{at_once, assigned_at_once, augmented_at_once, run_at_once};
ghost use Rattle.evaluator_direct.specs.StatementResults.{Done, Costs, Tested, TestCosts, test_does, stmt_line, eval_does, assign_does, augment_does};

use crate::standing::{is_quiet_at, value_at};
use base_types::Text;
use evaluator_state::{Position, State, add, bind, eval_binary, is_true, read, set_index, tick};
use std::sync::atomic::AtomicUsize;
use syntax_tree::{BinaryOp, Expr, Stmt};
use values_heap::{Halt, Heap, Val};

// Returns the value that an augmented assignment makes of the present one and another.
fn changed(heap: &mut Heap, op: BinaryOp, x: Val, y: Val) -> Result<Val, Halt>
    ensures says { (here : Here) (w : World)
        → Ran here.site (s.augmented_value op x y here (record w { store = store_of heap.old }))
        result (record w { store = store_of heap.new }) }
    ensures steps { IfOk result (λ _. heap.new.steps ≤ heap.old.steps) }
{
    match op {
        BinaryOp::Add => add(heap, x, y),
        op => eval_binary(heap, op, x, y),
    }
}

// Evaluates an expression whose value is left, if that can be done at once. Returns whether it was.
fn evaluate(state: &mut State, at: &Position, e: &Expr) -> Result<bool, Halt>
    ensures says { (env : Env) (call : Call) (line : ℕ) (running : List (List ℕ × List ℕ))
        → let here = here_of at.now line running in
        Done here.site (eval_does (tree_of e.now) env call here (world_of state.old)) result
        (world_of state.new) }
    ensures costs { Costs result state.old state.new }
    ensures exact { IfOk result (λ done. done ≡ at_once (free_at at.now state.old)
        (tree_of e.now)) }
{
    if !is_quiet_at(state, at, e) {
        return Ok(false);
    }
    if let Err(halt) = tick(&mut state.heap) {
        return Err(halt);
    }
    match value_at(state, at, e) {
        Ok(_) => Ok(true),
        Err(halt) => Err(halt),
    }
}

// Executes `x = e`, if that can be done at once. Returns whether it was.
fn assign_name(
    state: &mut State,
    at: &Position,
    x: &Text,
    last: &AtomicUsize,
    e: &Expr,
) -> Result<bool, Halt>
    ensures says { (env : Env) (call : Call) (line : ℕ) (running : List (List ℕ × List ℕ))
        → let here = here_of at.now line running in
        Done here.site (assign_does (t.name x.now) (tree_of e.now) env call here
        (world_of state.old)) result (world_of state.new) }
    ensures costs { Costs result state.old state.new }
    ensures exact { IfOk result (λ done. done ≡ at_once (free_at at.now state.old)
        (tree_of e.now)) }
{
    if !is_quiet_at(state, at, e) {
        return Ok(false);
    }
    if let Err(halt) = tick(&mut state.heap) {
        return Err(halt);
    }
    let value = match value_at(state, at, e) {
        Ok(value) => value,
        Err(halt) => return Err(halt),
    };
    match bind(state, at, x, last, value) {
        Ok(()) => Ok(true),
        Err(halt) => Err(halt),
    }
}

// Executes `a[i] = e`, if that can be done at once. Returns whether it was.
fn assign_member(
    state: &mut State,
    at: &Position,
    a: &Expr,
    i: &Expr,
    e: &Expr,
) -> Result<bool, Halt>
    ensures says { (env : Env) (call : Call) (line : ℕ) (running : List (List ℕ × List ℕ))
        → let here = here_of at.now line running in
        Done here.site (assign_does (t.index (tree_of a.now) (tree_of i.now)) (tree_of e.now) env
        call here (world_of state.old)) result (world_of state.new) }
    ensures costs { Costs result state.old state.new }
    ensures exact { IfOk result
        (λ done. done ≡ (at_once (free_at at.now state.old) (tree_of e.now)
        && (at_once (free_at at.now state.old) (tree_of a.now) && at_once (free_at at.now state.old)
        (tree_of i.now)))) }
{
    if !is_quiet_at(state, at, e) || !is_quiet_at(state, at, a) || !is_quiet_at(state, at, i) {
        return Ok(false);
    }
    if let Err(halt) = tick(&mut state.heap) {
        return Err(halt);
    }
    let value = match value_at(state, at, e) {
        Ok(value) => value,
        Err(halt) => return Err(halt),
    };
    let container = match value_at(state, at, a) {
        Ok(container) => container,
        Err(halt) => return Err(halt),
    };
    let index = match value_at(state, at, i) {
        Ok(index) => index,
        Err(halt) => return Err(halt),
    };
    match set_index(&mut state.heap, container, index, value) {
        Ok(()) => Ok(true),
        Err(halt) => Err(halt),
    }
}

// Executes `x += e`, and so with the other operators, if that can be done at once. Returns whether it was.
fn augment_name(
    state: &mut State,
    at: &Position,
    x: &Text,
    last: &AtomicUsize,
    op: BinaryOp,
    e: &Expr,
) -> Result<bool, Halt>
    ensures says { (env : Env) (call : Call) (line : ℕ) (running : List (List ℕ × List ℕ))
        → let here = here_of at.now line running in
        Done here.site (augment_does (t.name x.now) op (tree_of e.now) env call here
        (world_of state.old)) result (world_of state.new) }
    ensures costs { Costs result state.old state.new }
    ensures exact { IfOk result (λ done. done ≡ at_once (free_at at.now state.old)
        (tree_of e.now)) }
{
    if !is_quiet_at(state, at, e) {
        return Ok(false);
    }
    if let Err(halt) = tick(&mut state.heap) {
        return Err(halt);
    }
    let present = match read(state, at, x, last) {
        Ok(present) => present,
        Err(halt) => return Err(halt),
    };
    let value = match value_at(state, at, e) {
        Ok(value) => value,
        Err(halt) => return Err(halt),
    };
    let made = match changed(&mut state.heap, op, present, value) {
        Ok(made) => made,
        Err(halt) => return Err(halt),
    };
    match bind(state, at, x, last, made) {
        Ok(()) => Ok(true),
        Err(halt) => Err(halt),
    }
}

// Executes an assignment to a name or an index, if that can be done at once. Returns whether it was.
fn assign(state: &mut State, at: &Position, target: &Expr, e: &Expr) -> Result<bool, Halt>
    ensures says { (env : Env) (call : Call) (line : ℕ) (running : List (List ℕ × List ℕ))
        → let here = here_of at.now line running in
        Done here.site (assign_does (tree_of target.now) (tree_of e.now) env call here
        (world_of state.old)) result (world_of state.new) }
    ensures costs { Costs result state.old state.new }
    ensures exact { IfOk result (λ done. done ≡ assigned_at_once (free_at at.now state.old)
        (tree_of target.now) (tree_of e.now)) }
{
    match target {
        Expr::Name(x, last) => assign_name(state, at, x, last, e),
        Expr::Index(a, i) => assign_member(state, at, a, i, e),
        _ => Ok(false),
    }
}

// Executes an augmented assignment to a name, if that can be done at once. Returns whether it was.
fn augment(
    state: &mut State,
    at: &Position,
    target: &Expr,
    op: BinaryOp,
    e: &Expr,
) -> Result<bool, Halt>
    ensures says { (env : Env) (call : Call) (line : ℕ) (running : List (List ℕ × List ℕ))
        → let here = here_of at.now line running in
        Done here.site (augment_does (tree_of target.now) op (tree_of e.now) env call here
        (world_of state.old)) result (world_of state.new) }
    ensures costs { Costs result state.old state.new }
    ensures exact { IfOk result (λ done. done ≡ augmented_at_once (free_at at.now state.old)
        (tree_of target.now) (tree_of e.now)) }
{
    match target {
        Expr::Name(x, last) => augment_name(state, at, x, last, op, e),
        _ => Ok(false),
    }
}

/// Runs a statement whose parts are quiet: an expression, an assignment to a name or an index, or an augmented
/// assignment to a name. Returns whether it ran; then the statement behind it is next. With another statement nothing
/// is done. The faults are those of the statement.
pub fn run(state: &mut State, at: &Position, stmt: &Stmt) -> Result<bool, Halt>
    ensures says { (env : Env) (call : Call) (running : List (List ℕ × List ℕ))
        → let here = here_of at.now at.now.line running in
        Done (at_line (stmt_line (stmt_of stmt.now)) here).site
        (s.exec env call (stmt_of stmt.now) here (world_of state.old)) result (world_of state.new) }
    ensures costs { Costs result state.old state.new }
    ensures exact { IfOk result (λ done. done ≡ run_at_once (free_at at.now state.old)
        (stmt_of stmt.now)) }
{
    match stmt {
        Stmt::Eval { value: e, .. } => evaluate(state, at, e),
        Stmt::Assign {
            target,
            value: e,
            ..
        } => assign(state, at, target, e),
        Stmt::Augment {
            target,
            op,
            value: e,
            ..
        } => augment(state, at, target, *op, e),
        _ => Ok(false),
    }
}

/// Returns whether a condition holds, behind the step of its statement, if it is evaluated at once. With another
/// condition nothing is done. The faults are those of the condition.
pub fn holds(state: &mut State, at: &Position, e: &Expr) -> Result<Option<bool>, Halt>
    ensures says { (env : Env) (call : Call) (line : ℕ) (running : List (List ℕ × List ℕ))
        → let here = here_of at.now line running in
        Tested here.site (test_does (tree_of e.now) env call here) (world_of state.old) result
        (world_of state.new) }
    ensures costs { TestCosts result state.old state.new }
    ensures exact { IfOk result (λ tested. is_some tested ≡ at_once (free_at at.now state.old)
        (tree_of e.now)) }
{
    if !is_quiet_at(state, at, e) {
        return Ok(None);
    }
    if let Err(halt) = tick(&mut state.heap) {
        return Err(halt);
    }
    let x = match value_at(state, at, e) {
        Ok(x) => x,
        Err(halt) => return Err(halt),
    };
    let holds = is_true(&state.heap, x)?;
    Ok(Some(holds))
}
