//! How statements, branches and loops go on.
ghost use Rattle.std.specs.Prelude.{◌≡◌, ◌<◌, ℕ, List, IfOk};
ghost use Rattle.evaluator_semantics.specs.World.{Ends, then_runs};
ghost use Rattle.evaluator_semantics.specs.Environment.{Env};
ghost use Rattle.evaluator_semantics.specs.Statements as s;
ghost use Rattle.evaluator_semantics.specs.Calls.{call};
ghost use Rattle.syntax_tree.specs.Statements.{stmt_of};
ghost use Rattle.syntax_tree.specs.View.{shared_tree};
ghost use Rattle.evaluator_state.specs.View.{world_of, here_of};
ghost use Rattle.evaluator_frames.specs.Frames.{Sig, Goes, on, ex, a_value, exited, frame_does, calls_below, here_below, stmt_line, above, machine_does};

use crate::frame::{Control, Exit, Frame, Signal, Turns};
use crate::items::begin_above;
use crate::targets::aim_above;
use evaluator_state::{Position, State, tick, unlock};
use std::alloc::Global;
use std::sync::Arc;
use syntax_tree::{Branch, Expr, Stmt};
use values_heap::{Halt, Val};

// Begins an expression of a statement above a frame that waits for its value.
fn part_above(
    state: &mut State,
    frames: &mut Vec<Frame>,
    at: &Position,
    frame: Frame,
    line: usize,
    e: &Arc<Expr, Global>,
) -> Result<Control, Halt>
    ensures goes { (env : Env) (n : ℕ) (running : List (List ℕ × List ℕ)) (before : Ends Sig)
        → let here = here_of at.now at.now.line running in calls_below frame n ≡ n
        → here_below frame here ≡ here → before ≡ then_runs
        (ex env n here (shared_tree e.now) line (world_of state.old))
        (λ v. above env n here (frame_does env n here frame (a_value v)) frames.old.items)
        → Goes (on env n here line).site before result
        (λ control. machine_does env n here control frames.new.items (world_of state.new)) }
    ensures steps { IfOk result (λ _. state.new.heap.steps < state.old.heap.steps) }
{
    begin_above(state, frames, at, frame, line, e)
}

/// Begins a statement.
#[tactic(auto, using(crate::proofs::Bind::under), unfolding(evaluator_semantics::specs::World::tick))]
pub fn begin_stmt(
    state: &mut State,
    frames: &mut Vec<Frame>,
    at: &Position,
    line: usize,
    stmt: &Stmt,
) -> Result<Control, Halt>
    requires { line ≡ stmt_line (stmt_of stmt.now) }
    ensures goes { (env : Env) (n : ℕ) (running : List (List ℕ × List ℕ))
        → let here = here_of at.now at.now.line running in Goes (on env n here line).site
        (above env n here (exited (s.exec env (call env n) (stmt_of stmt.now) here))
        frames.old.items (world_of state.old)) result
        (λ control. machine_does env n here control frames.new.items (world_of state.new)) }
    ensures steps { IfOk result (λ _. state.new.heap.steps < state.old.heap.steps) }
{
    tick(&mut state.heap)?;
    match stmt {
        Stmt::Pass(_) => Ok(Control::Signal(Signal::Exit(Exit::GoesOn))),
        Stmt::Break(_) => Ok(Control::Signal(Signal::Exit(Exit::Breaks))),
        Stmt::Continue(_) => Ok(Control::Signal(Signal::Exit(Exit::Continues))),
        Stmt::Return { value: None, .. } => Ok(Control::Signal(Signal::Exit(Exit::Returns(
            Val::Nothing,
        )))),
        Stmt::Return { value: Some(e), .. } => part_above(
            state,
            frames,
            at,
            Frame::Return,
            line,
            e,
        ),
        Stmt::Eval { value: e, .. } => part_above(state, frames, at, Frame::Discard, line, e),
        Stmt::Assign {
            target,
            value: e,
            ..
        } => {
            let target = Arc::try_clone(target)?;
            part_above(state, frames, at, Frame::Assign { line, target }, line, e)
        }
        Stmt::Augment {
            target,
            op,
            value: e,
            ..
        } => {
            let right = Arc::try_clone(e)?;
            aim_above(
                frames,
                Frame::Augment {
                    line,
                    op: *op,
                    right,
                },
                line,
                target,
            )
        }
        Stmt::If {
            condition,
            body,
            branches,
            other,
            ..
        } => {
            let body = Arc::try_clone(body)?;
            let branches = Arc::try_clone(branches)?;
            let other = Arc::try_clone(other)?;
            let frame = Frame::Branch {
                body,
                branches,
                next: 0,
                other,
            };
            part_above(state, frames, at, frame, line, condition)
        }
        Stmt::For {
            target,
            sequence: e,
            body,
            ..
        } => {
            let target = Arc::try_clone(target)?;
            let body = Arc::try_clone(body)?;
            part_above(
                state,
                frames,
                at,
                Frame::For { line, target, body },
                line,
                e,
            )
        }
    }
}

/// Returns the line of a statement.
pub fn line_of(stmt: &Stmt) -> usize
    ensures { result ≡ stmt_line (stmt_of stmt.now) }
{
    match stmt {
        Stmt::Pass(line) => *line,
        Stmt::Break(line) => *line,
        Stmt::Continue(line) => *line,
        Stmt::Return { line, .. } => *line,
        Stmt::Eval { line, .. } => *line,
        Stmt::Assign { line, .. } => *line,
        Stmt::Augment { line, .. } => *line,
        Stmt::If { line, .. } => *line,
        Stmt::For { line, .. } => *line,
    }
}
