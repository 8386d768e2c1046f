//! How suites, branches and loops go on.
ghost use Rattle.std.specs.Prelude.{◌<◌, ◌+◌, ◌≤◌, length, IfOk};
ghost use Rattle.std.specs.Arc.{arc_value};
ghost use Rattle.syntax_tree.specs.View.{shared_tree};
ghost use Rattle.evaluator_semantics.specs.World.{then_runs, pure};
ghost use Rattle.evaluator_state.specs.View.{world_of};
ghost use Rattle.evaluator_frames.specs.Going.{GetsLighter, LeadsOn};
ghost use Rattle.evaluator_frames.specs.Frames.{Goes, on, an_aim, an_exit, aims_at, frame_does, above, body, shared_suite, turns_behind, stack_does, machine_does, suite_from, branches_from, suite_line, first_line};
ghost use Rattle.evaluator_frames.specs.Weight.{frames_weight};
ghost use Rattle.evaluator_frames.specs.declared.frame.Control.TheVariants as c;
ghost use Rattle.evaluator_frames.specs.declared.frame.Frame.TheVariants as f;

use crate::ahead::{ahead, lead};
use crate::frame::{Ahead, Control, Exit, Frame, Signal, Turns};
use crate::items::begin_above;
use crate::leaving::rest_above;
use crate::making::next_turns;
use crate::stack::push;
use crate::statements::{begin_stmt, line_of};
use crate::targets::begin_aim;
use evaluator_state::{Position, State, bind, tick, unlock};
use std::alloc::Global;
use std::sync::Arc;
use syntax_tree::{Branch, Expr, Stmt};
use values_heap::{Halt, Val};

/// Goes on with a suite. Its statements are run at once, as far as they can be.
pub fn next_stmt(
    state: &mut State,
    frames: &mut Vec<Frame>,
    at: &Position,
    ss: Arc<Vec<Stmt>, Global>,
    next: usize,
) -> Result<Control, Halt>
    ensures goes { LeadsOn at.now (suite_line (suite_from next ss))
        (λ env n here. machine_does env n here (c.Suite ss next) frames.old.items
        (world_of state.old)) result frames.new.items state.new }
    ensures lighter { GetsLighter state.old (frames_weight frames.old.items + 1) result
        frames.new.items state.new }
{
    let ahead = match ahead(state, at, &ss, next) {
        Ok(ahead) => ahead,
        Err(error) => return Err(Halt::Memory(error)),
    };
    match ahead {
        Ahead::At(i) => {
            if i > next {
                return Ok(Control::Suite { suite: ss, next: i });
            }
            stmt_above(state, frames, at, ss, i)
        }
        ahead => lead(frames, ss, ahead),
    }
}

// Begins a statement above a frame that waits for its end, if others stand behind it.
fn stmt_above(
    state: &mut State,
    frames: &mut Vec<Frame>,
    at: &Position,
    ss: Arc<Vec<Stmt>, Global>,
    next: usize,
) -> Result<Control, Halt>
    requires { next < length (arc_value ss).items }
    ensures goes { LeadsOn at.now (suite_line (suite_from next ss))
        (λ env n here. machine_does env n here (c.Suite ss next) frames.old.items
        (world_of state.old)) result frames.new.items state.new }
    ensures steps { IfOk result (λ _. state.new.heap.steps < state.old.heap.steps) }
{
    if let Err(halt) = rest_above(frames, &ss, next + 1) {
        return Err(halt);
    }
    let stmt = &ss[next];
    let line = line_of(stmt);
    begin_stmt(state, frames, at, line, stmt)
}

/// Goes on with the branches of an `if`.
#[tactic(auto, unfolding(evaluator_semantics::specs::World::tick))]
pub fn next_branch(
    state: &mut State,
    frames: &mut Vec<Frame>,
    at: &Position,
    bs: Arc<Vec<Branch>, Global>,
    next: usize,
    other: Arc<Vec<Stmt>, Global>,
) -> Result<Control, Halt>
    ensures goes { LeadsOn at.now (first_line (branches_from next bs))
        (λ env n here. machine_does env n here (c.Branches bs next other) frames.old.items
        (world_of state.old)) result frames.new.items state.new }
    ensures lighter { GetsLighter state.old (frames_weight frames.old.items + 2) result
        frames.new.items state.new }
{
    if next >= bs.len() {
        return Ok(Control::Suite {
            suite: other,
            next: 0,
        });
    }
    let branch = &bs[next];
    tick(&mut state.heap)?;
    let body = Arc::try_clone(&branch.body)?;
    let again = Arc::try_clone(&bs)?;
    let frame = Frame::Branch {
        body,
        branches: again,
        next: next + 1,
        other,
    };
    begin_above(state, frames, at, frame, branch.line, &branch.condition)
}

/// Goes on with a loop.
#[tactic(auto, unfolding(evaluator_semantics::specs::World::tick))]
pub fn next_turn(
    state: &mut State,
    frames: &mut Vec<Frame>,
    at: &Position,
    turns: Box<Turns>,
) -> Result<Control, Halt>
    ensures goes { LeadsOn at.now turns.value.line
        (λ env n here. machine_does env n here (c.Turns turns) frames.old.items
        (world_of state.old)) result frames.new.items state.new }
    ensures lighter { GetsLighter state.old (frames_weight frames.old.items + 1) result
        frames.new.items state.new }
{
    let now = &*turns;
    if now.next >= now.items.len() {
        unlock(&mut state.heap, now.over);
        return Ok(Control::Signal(Signal::Exit(Exit::GoesOn)));
    }
    if let Err(halt) = tick(&mut state.heap) {
        return Err(halt);
    }
    let value = now.items[now.next];
    let next = next_turns(turns);
    aim_turn(state, frames, at, next, value)
}

// Aims at the target of a turn. A name is bound at once, and the body is next.
fn aim_turn(
    state: &mut State,
    frames: &mut Vec<Frame>,
    at: &Position,
    turns: Box<Turns>,
    x: Val,
) -> Result<Control, Halt>
    ensures goes { LeadsOn at.now turns.value.line
        (λ env n here. then_runs
        (aims_at env n here (shared_tree turns.value.target) turns.value.line (world_of state.old))
        (λ a. above env n here (frame_does env n here (f.Turn turns x) (an_aim a))
        frames.old.items)) result frames.new.items state.new }
    ensures steps { IfOk result (λ _. state.new.heap.steps ≤ state.old.heap.steps) }
{
    match &*turns.target {
        Expr::Name(name, last) => {
            if let Err(halt) = bind(state, at, name, last, x) {
                return Err(halt);
            }
            run_turn(state, frames, at, turns)
        }
        _ => {
            let line = turns.line;
            let target = Arc::try_clone(&turns.target)?;
            push(frames, Frame::Turn(turns, x))?;
            begin_aim(state, frames, at, line, &target)
        }
    }
}

// Runs the body of a turn at once, as far as it can be.
fn run_turn(
    state: &mut State,
    frames: &mut Vec<Frame>,
    at: &Position,
    turns: Box<Turns>,
) -> Result<Control, Halt>
    ensures goes { LeadsOn at.now turns.value.line
        (λ env n here. then_runs
        (then_runs (then_runs (body env n here (shared_suite turns.value.body) (world_of state.old))
        (turns_behind env n here turns.value)) (λ e. pure (an_exit e)))
        (stack_does env n here frames.old.items)) result frames.new.items state.new }
    ensures steps { IfOk result (λ _. state.new.heap.steps ≤ state.old.heap.steps) }
{
    match ahead(state, at, &turns.body, 0) {
        Ok(Ahead::Ended) => Ok(Control::Turns(turns)),
        Ok(ahead) => {
            let body = Arc::try_clone(&turns.body)?;
            push(frames, Frame::Turns(turns))?;
            lead(frames, body, ahead)
        }
        Err(error) => Err(Halt::Memory(error)),
    }
}
