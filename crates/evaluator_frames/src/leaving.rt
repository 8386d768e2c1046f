//! Statements that leave their suite at once, and statements behind which none stands.
ghost use Rattle.std.specs.Prelude.{◌≡◌, ◌<◌, ◌+◌, ℕ, List, true, IfOk, IsOkUnless};
ghost use Rattle.values_objects.specs.declared.halt.Halt.TheVariants as h;
ghost use Rattle.evaluator_semantics.specs.World.{Here, Ends, then_runs, tick, pure};
ghost use Rattle.evaluator_semantics.specs.Environment.{Env};
ghost use Rattle.evaluator_semantics.specs.Calls.{call};
ghost use Rattle.evaluator_semantics.specs.Expressions as ex;
ghost use Rattle.evaluator_semantics.specs.Expressions.{Call};
ghost use Rattle.evaluator_semantics.specs.Statements.{exec};
ghost use Rattle.syntax_tree.specs.View.{tree_of};
ghost use Rattle.syntax_tree.specs.Statements.{stmt_of};
ghost use Rattle.evaluator_state.specs.View.{world_of, here_of, Ran};
ghost use Rattle.evaluator_direct.specs.Quiet.{quiet};
ghost use Rattle.evaluator_direct.specs.View.{free_at};
ghost use Rattle.evaluator_frames.specs.Frames.{Sig, on, exit_of, frame_does, stack_does};
ghost use Rattle.evaluator_frames.specs.Weight.{frames_weight};
ghost use Rattle.evaluator_frames.specs.Ahead.{Leaves, LeavesAs, IsExit, OnceCosts, is_call, is_run, leaves, leaves_at_once, rest_weight};
ghost use Rattle.evaluator_frames.specs.declared.frame.Frame.TheVariants as f;
ghost use Rattle.base_types.specs.Refusals.{memory};

use crate::ahead::stopped;
use crate::frame::{Control, Exit, Frame, Once, Signal};
use crate::stack::push;
use base_types::Memory;
use evaluator_direct::{is_quiet_at, value_at};
use evaluator_state::{Position, State, tick};
use std::alloc::Global;
use std::sync::Arc;
use syntax_tree::{Expr, Stmt};
use values_heap::{Halt, Val};

// Returns whether an expression is a call. Those of functions of the file wait, and to find out whose it is takes a look-up.
fn is_call(e: &Expr) -> bool
    ensures { result ≡ is_call (tree_of e.now) }
{
    match e {
        Expr::Call(_, _, _) => true,
        _ => false,
    }
}

// Evaluates what a `return` gives, behind the step of its statement.
fn given(state: &mut State, at: &Position, e: &Expr) -> Result<Val, Halt>
    requires { quiet (free_at at.now state.old) (tree_of e.now) ≡ true }
    ensures says { (env : Env) (call : Call) (line : ℕ) (running : List (List ℕ × List ℕ))
        → let here = here_of at.now line running in
        Ran here.site (then_runs (tick here (world_of state.old))
        (λ _. ex.value env call (tree_of e.now) here)) result (world_of state.new) }
    ensures steps { IfOk result (λ _. state.new.heap.steps < state.old.heap.steps) }
{
    if let Err(halt) = tick(&mut state.heap) {
        return Err(halt);
    }
    value_at(state, at, e)
}

// Takes the step of a statement that leaves its suite.
fn left(state: &mut State, line: usize, exit: Exit) -> Result<Once, Memory>
    requires { IsExit exit }
    ensures does { (env : Env) (n : ℕ) (here : Here)
        → IfOk result
        (λ once. LeavesAs env n here (then_runs (tick (on env n here line) (world_of state.old))
        (λ _. pure (exit_of exit))) once (world_of state.new)) }
    ensures exact { IfOk result (λ once. is_run once ≡ true) }
    ensures costs { IfOk result (λ once. OnceCosts once state.old state.new) }
{
    match tick(&mut state.heap) {
        Ok(()) => Ok(Once::Begun(Control::Signal(Signal::Exit(exit)))),
        Err(halt) => stopped(state, line, halt),
    }
}

/// Leaves a suite at once: by a `break`, a `continue`, or a `return` of nothing or of what is no call and is evaluated at
/// once. With any other statement, nothing is done.
pub fn exit_once(state: &mut State, at: &Position, stmt: &Stmt) -> Result<Once, Memory>
    ensures does { (env : Env) (n : ℕ) (running : List (List ℕ × List ℕ))
        → let here = here_of at.now at.now.line running in
        IfOk result
        (λ once. LeavesAs env n here (exec env (call env n) (stmt_of stmt.now) here
        (world_of state.old)) once (world_of state.new)) }
    ensures exact { IfOk result
        (λ once. is_run once ≡ leaves_at_once (free_at at.now state.old) (stmt_of stmt.now)) }
    ensures costs { IfOk result (λ once. OnceCosts once state.old state.new) }
{
    match stmt {
        Stmt::Break(line) => left(state, *line, Exit::Breaks),
        Stmt::Continue(line) => left(state, *line, Exit::Continues),
        Stmt::Return { line, value } => match value {
            None => left(state, *line, Exit::Returns(Val::Nothing)),
            Some(e) => {
                if is_call(e) || !is_quiet_at(state, at, e) {
                    return Ok(Once::Not);
                }
                match given(state, at, e) {
                    Ok(x) => Ok(Once::Begun(Control::Signal(Signal::Exit(Exit::Returns(x))))),
                    Err(halt) => stopped(state, *line, halt),
                }
            }
        },
        _ => Ok(Once::Not),
    }
}

/// Returns whether what comes next leaves a suite, whatever stands behind it there.
pub fn leaves(control: &Control) -> bool
    ensures exact { result ≡ leaves control.now }
    ensures means { result ≡ true → Leaves control.now }
{
    match control {
        Control::Signal(Signal::Exit(Exit::Breaks)) => true,
        Control::Signal(Signal::Exit(Exit::Continues)) => true,
        Control::Signal(Signal::Exit(Exit::Returns(_))) => true,
        _ => false,
    }
}

/// Pushes a frame for the end of a statement, behind which the suite goes on at a place. If nothing stands there, none
/// is needed.
pub fn rest_above(
    frames: &mut Vec<Frame>,
    ss: &Arc<Vec<Stmt>, Global>,
    next: usize,
) -> Result<(), Halt>
    ensures ok { IfOk result (λ _. (env : Env) (n : ℕ) (here : Here) (m : Ends Sig)
        → then_runs (then_runs m (frame_does env n here (f.Rest ss.now next)))
        (stack_does env n here frames.old.items)
        ≡ then_runs m (stack_does env n here frames.new.items)) }
    ensures err { IsOkUnless result (h.Memory memory) }
    ensures weight { IfOk result (λ _. frames_weight frames.new.items
        ≡ frames_weight frames.old.items + rest_weight next ss.now) }
{
    if next >= ss.len() {
        return Ok(());
    }
    let suite = Arc::try_clone(ss)?;
    push(frames, Frame::Rest { suite, next })
}
