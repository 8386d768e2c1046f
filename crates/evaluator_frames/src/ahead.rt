//! Statements that are run at once, as far as they can be.
ghost use Rattle.std.specs.Prelude.{◌≡◌, ◌+◌, ◌<◌, ℕ, List, length, IfOk, IsOkUnless};
ghost use Rattle.std.specs.Arc.{arc_value};
ghost use Rattle.syntax_tree.specs.Statements.{stmt_of};
ghost use Rattle.evaluator_semantics.specs.Calls.{call};
ghost use Rattle.evaluator_semantics.specs.Statements as s;
ghost use Rattle.evaluator_semantics.specs.Statements.{exec};
ghost use Rattle.evaluator_semantics.specs.Environment.{Env};
ghost use Rattle.evaluator_state.specs.View.{world_of, here_of};
ghost use Rattle.values_objects.specs.declared.halt.Halt.TheVariants as h;
ghost use Rattle.evaluator_semantics.specs.World.{World, Here, Ends, then_runs};
ghost use Rattle.evaluator_frames.specs.Frames.{body, shared_suite, suite_from, stack_does, machine_does};
ghost use Rattle.evaluator_frames.specs.Weight.{frames_weight, control_weight};
ghost use Rattle.evaluator_frames.specs.Ahead.{OnceDoes, OnceCosts, SuiteCosts, StopsAs, LeadsTo, LeadCosts, exited_as, left_weight};
ghost use Rattle.base_types.specs.Refusals.{memory};

use crate::frame::{Ahead, Control, Exit, Frame, Once, Signal};
use crate::leaving::{exit_once, leaves, rest_above};
use crate::statements::line_of;
use base_types::Memory;
use evaluator_direct::{holds, run};
use evaluator_state::{Position, State};
use std::alloc::Global;
use std::sync::Arc;
use syntax_tree::Stmt;
use values_heap::Halt;

/// Stops in a line: no step is left. Returns the fault, or `Memory` if memory was refused.
pub(crate) fn stopped(state: &mut State, line: usize, halt: Halt) -> Result<Once, Memory>
    ensures stops { IfOk result (StopsAs line halt) }
    ensures steps { state.new.heap.steps ≡ 0 }
{
    state.heap.steps = 0;
    match halt {
        Halt::Code(code) => Ok(Once::Faulty { line, code }),
        Halt::Memory(error) => Err(error),
    }
}

// Runs the statements of a suite at once, up to the first that cannot be run so, or until objects are to be given back.
fn suite_once(state: &mut State, at: &Position, ss: &Arc<Vec<Stmt>, Global>) -> Result<Once, Memory>
    ensures does { (env : Env) (n : ℕ) (running : List (List ℕ × List ℕ))
        → let here = here_of at.now at.now.line running in
        IfOk result
        (λ once. OnceDoes env n here (body env n here (shared_suite ss.now) (world_of state.old))
        once (world_of state.new)) }
    ensures costs { IfOk result (λ once. SuiteCosts once state.old state.new) }
{
    for i in 0..ss.len() {
        if state.heap.needs_collection() {
            return Ok(Once::Begun(Control::Suite {
                suite: Arc::try_clone(ss)?,
                next: i,
            }));
        }
        let stmt = &ss[i];
        match run(state, at, stmt) {
            Ok(true) => {}
            Ok(false) => return end_once(state, at, ss, i),
            Err(halt) => return stopped(state, line_of(stmt), halt),
        }
    }
    Ok(Once::Done)
}

// Leaves a suite at once by the statement at a place, or leaves that and what stands behind it to be done.
fn end_once(
    state: &mut State,
    at: &Position,
    ss: &Arc<Vec<Stmt>, Global>,
    i: usize,
) -> Result<Once, Memory>
    requires { i < length (arc_value ss.now).items }
    ensures does { (env : Env) (n : ℕ) (running : List (List ℕ × List ℕ))
        → let here = here_of at.now at.now.line running in
        IfOk result
        (λ once. OnceDoes env n here (body env n here (suite_from i ss.now) (world_of state.old))
        once (world_of state.new)) }
    ensures costs { IfOk result (λ once. SuiteCosts once state.old state.new) }
{
    match exit_once(state, at, &ss[i])? {
        Once::Not => Ok(Once::Begun(Control::Suite {
            suite: Arc::try_clone(ss)?,
            next: i,
        })),
        once => Ok(once),
    }
}

// Runs an `if` at once, where its condition is tested so: the statements that it chooses, as far as they can be. So is a
// statement that leaves its suite.
fn if_once(state: &mut State, at: &Position, stmt: &Stmt) -> Result<Once, Memory>
    ensures does { (env : Env) (n : ℕ) (running : List (List ℕ × List ℕ))
        → let here = here_of at.now at.now.line running in
        IfOk result
        (λ once. OnceDoes env n here (exec env (call env n) (stmt_of stmt.now) here
        (world_of state.old)) once (world_of state.new)) }
    ensures costs { IfOk result (λ once. OnceCosts once state.old state.new) }
{
    match stmt {
        Stmt::If {
            line,
            condition,
            body,
            branches,
            other,
        } => match holds(state, at, condition) {
            Ok(Some(holds)) => {
                if holds {
                    return suite_once(state, at, body);
                }
                if branches.is_empty() {
                    return suite_once(state, at, other);
                }
                let branches = Arc::try_clone(branches)?;
                Ok(Once::Begun(Control::Branches {
                    branches,
                    next: 0,
                    other: Arc::try_clone(other)?,
                }))
            }
            Ok(None) => Ok(Once::Not),
            Err(halt) => stopped(state, *line, halt),
        },
        _ => exit_once(state, at, stmt),
    }
}

// Runs a statement at once, as far as it can be.
fn once(state: &mut State, at: &Position, stmt: &Stmt) -> Result<Once, Memory>
    ensures does { (env : Env) (n : ℕ) (running : List (List ℕ × List ℕ))
        → let here = here_of at.now at.now.line running in
        IfOk result
        (λ once. OnceDoes env n here (exec env (call env n) (stmt_of stmt.now) here
        (world_of state.old)) once (world_of state.new)) }
    ensures costs { IfOk result (λ once. OnceCosts once state.old state.new) }
{
    match run(state, at, stmt) {
        Ok(true) => Ok(Once::Done),
        Ok(false) => if_once(state, at, stmt),
        Err(halt) => stopped(state, line_of(stmt), halt),
    }
}

/// Runs the statements of a suite at once, from `next` on, as far as they can be or until objects are to be given back.
pub fn ahead(
    state: &mut State,
    at: &Position,
    ss: &Arc<Vec<Stmt>, Global>,
    next: usize,
) -> Result<Ahead, Memory>
    ensures leads { (env : Env) (n : ℕ) (running : List (List ℕ × List ℕ))
        → let here = here_of at.now at.now.line running in
        IfOk result
        (λ ahead. LeadsTo env n here ss.now
        (body env n here (suite_from next ss.now) (world_of state.old)) ahead
        (world_of state.new)) }
    ensures costs { IfOk result (λ ahead. LeadCosts next ss.now ahead state.old state.new) }
{
    for i in next..ss.len() {
        if i > next && state.heap.needs_collection() {
            return Ok(Ahead::At(i));
        }
        let stmt = &ss[i];
        match once(state, at, stmt) {
            Ok(Once::Done) => {}
            Ok(Once::Begun(control)) => return Ok(Ahead::Above {
                next: i + 1,
                control,
            }),
            Ok(Once::Faulty { line, code }) => return Ok(Ahead::Faulty { line, code }),
            Ok(Once::Not) => return Ok(Ahead::At(i)),
            Err(memory) => return Err(memory),
        }
    }
    Ok(Ahead::Ended)
}

/// Goes on with a suite whose statements were run ahead. Pushes a frame if one of them is left half done, and others
/// stand behind it.
pub fn lead(
    frames: &mut Vec<Frame>,
    ss: Arc<Vec<Stmt>, Global>,
    ahead: Ahead,
) -> Result<Control, Halt>
    ensures goes { (env : Env) (n : ℕ) (here : Here) (says : Ends s.Exit) (u : World)
        → LeadsTo env n here ss says ahead u
        → IfOk result
        (λ control. then_runs (exited_as says) (stack_does env n here frames.old.items)
        ≡ machine_does env n here control frames.new.items u) }
    ensures err { IsOkUnless result (h.Memory memory) }
    ensures weight { IfOk result (λ control. frames_weight frames.new.items + control_weight control
        ≡ frames_weight frames.old.items + left_weight ss ahead) }
{
    match ahead {
        Ahead::Ended => Ok(Control::Signal(Signal::Exit(Exit::GoesOn))),
        Ahead::At(i) => Ok(Control::Suite { suite: ss, next: i }),
        Ahead::Above { next: i, control } => {
            if leaves(&control) {
                return Ok(control);
            }
            if let Err(halt) = rest_above(frames, &ss, i) {
                return Err(halt);
            }
            Ok(control)
        }
        Ahead::Faulty { line, code } => Ok(Control::Fault { line, code }),
    }
}
