//! What waits for the values of operands.
ghost use Rattle.std.specs.Prelude.{◌≡◌, ◌<◌, ◌+◌, ◌≤◌, ℕ, List, IfOk};
ghost use Rattle.evaluator_semantics.specs.World.{Here, by_truth};
ghost use Rattle.evaluator_semantics.specs.Environment.{Env};
ghost use Rattle.evaluator_semantics.specs.Expressions as e;
ghost use Rattle.syntax_tree.specs.View.{shared_tree, bound_tree};
ghost use Rattle.evaluator_state.specs.View.{world_of};
ghost use Rattle.evaluator_frames.specs.Going.{GetsLighter, LeadsOn};
ghost use Rattle.evaluator_frames.specs.Frames.{Goes, on, ex, valued, right, sliced, sliced_from, entry_from, trees_from, above, machine_does};
ghost use Rattle.evaluator_frames.specs.Weight.{frames_weight, control_weight};
ghost use Rattle.evaluator_frames.specs.declared.frame.Control.TheVariants as c;

use crate::begin::begin;
use crate::frame::{Control, Frame, Pairs, Signal};
use crate::items::begin_above;
use crate::once::second_operand;
use evaluator_state::{Position, State, is_true, make_dict, slice, unary};
use std::alloc::Global;
use std::sync::Arc;
use syntax_tree::{BinaryOp, Expr, UnaryOp};
use values_heap::{Halt, Val};

/// Applies an operator to the value behind it.
pub fn unary_done(state: &mut State, op: UnaryOp, x: Val) -> Result<Control, Halt>
    ensures goes { (env : Env) (n : ℕ) (here : Here) (line : ℕ) (frames : List Frame)
        → Goes (on env n here line).site
        (above env n here (valued (e.unary op x (on env n here line))) frames (world_of state.old))
        result (λ control. machine_does env n here control frames (world_of state.new)) }
    ensures steps { IfOk result (λ _. state.new.heap.steps ≤ state.old.heap.steps) }
    ensures light { IfOk result (λ control. control_weight control ≡ 0) }
{
    match unary(&mut state.heap, op, x) {
        Ok(value) => Ok(Control::Signal(Signal::Value(value))),
        Err(halt) => Err(halt),
    }
}

/// Begins the second operand, unless the first decides an `and` or an `or`.
pub fn right_operand(
    state: &mut State,
    frames: &mut Vec<Frame>,
    at: &Position,
    line: usize,
    op: BinaryOp,
    x: Val,
    b: &Arc<Expr, Global>,
) -> Result<Control, Halt>
    ensures goes { LeadsOn at.now line
        (λ env n here. above env n here
        (valued (right op x (ex env n here (shared_tree b.now) line) (on env n here line)))
        frames.old.items (world_of state.old)) result frames.new.items state.new }
    ensures lighter { GetsLighter state.old (frames_weight frames.old.items + 2) result
        frames.new.items state.new }
{
    match op {
        BinaryOp::Or => {
            let holds = is_true(&state.heap, x)?;
            if holds {
                return Ok(Control::Signal(Signal::Value(x)));
            }
            begin(state, frames, at, line, b)
        }
        BinaryOp::And => {
            let holds = is_true(&state.heap, x)?;
            if holds {
                return begin(state, frames, at, line, b);
            }
            Ok(Control::Signal(Signal::Value(x)))
        }
        _ => second_operand(state, frames, at, line, op, x, b),
    }
}

/// Begins one of two expressions, by a condition.
pub fn choose(
    state: &mut State,
    frames: &mut Vec<Frame>,
    at: &Position,
    line: usize,
    x: Val,
    a: &Arc<Expr, Global>,
    b: &Arc<Expr, Global>,
) -> Result<Control, Halt>
    ensures goes { LeadsOn at.now line
        (λ env n here. above env n here
        (valued (by_truth x (ex env n here (shared_tree a.now) line)
        (ex env n here (shared_tree b.now) line))) frames.old.items (world_of state.old)) result
        frames.new.items state.new }
    ensures steps { IfOk result (λ _. state.new.heap.steps < state.old.heap.steps) }
{
    let holds = is_true(&state.heap, x)?;
    if holds {
        return begin(state, frames, at, line, a);
    }
    begin(state, frames, at, line, b)
}

/// Begins the upper bound of a slice, or takes the slice if there is none.
pub fn slice_to(
    state: &mut State,
    frames: &mut Vec<Frame>,
    at: &Position,
    line: usize,
    x: Val,
    y: Val,
    j: &Option<Arc<Expr, Global>>,
) -> Result<Control, Halt>
    ensures goes { LeadsOn at.now line
        (λ env n here. above env n here (valued (sliced env n here x y (bound_tree j.now) line))
        frames.old.items (world_of state.old)) result frames.new.items state.new }
    ensures lighter { GetsLighter state.old (frames_weight frames.old.items + 2) result
        frames.new.items state.new }
{
    match j {
        Some(e) => begin_above(
            state,
            frames,
            at,
            Frame::To {
                line,
                container: x,
                from: y,
            },
            line,
            e,
        ),
        None => Ok(Control::Signal(Signal::Value(slice(&mut state.heap, x, y, Val::Nothing)?))),
    }
}

/// Goes on with the entries of a dictionary.
pub fn next_entry(
    state: &mut State,
    frames: &mut Vec<Frame>,
    at: &Position,
    line: usize,
    pairs: Box<Pairs>,
    next: usize,
) -> Result<Control, Halt>
    ensures goes { LeadsOn at.now line
        (λ env n here. machine_does env n here (c.Entries line pairs next) frames.old.items
        (world_of state.old)) result frames.new.items state.new }
    ensures lighter { GetsLighter state.old (frames_weight frames.old.items + 3) result
        frames.new.items state.new }
{
    let now = &*pairs;
    if next < now.keys.len() && next < now.values.len() {
        let keys = Arc::try_clone(&now.keys)?;
        let frame = Frame::Key { line, pairs, next };
        return begin_above(state, frames, at, frame, line, &keys[next]);
    }
    let pairs = Box::into_inner(pairs);
    Ok(Control::Signal(Signal::Value(make_dict(&mut state.heap, pairs.done)?)))
}

/// Begins the value of a key, or makes the dictionary if no value is left.
pub fn entry_value(
    state: &mut State,
    frames: &mut Vec<Frame>,
    at: &Position,
    line: usize,
    pairs: Box<Pairs>,
    next: usize,
    k: Val,
) -> Result<Control, Halt>
    ensures goes { LeadsOn at.now line
        (λ env n here. above env n here
        (valued (entry_from env n here k (trees_from next pairs.value.values)
        (trees_from (next + 1) pairs.value.keys) pairs.value.done.entries line)) frames.old.items
        (world_of state.old)) result frames.new.items state.new }
    ensures lighter { GetsLighter state.old (frames_weight frames.old.items + 3) result
        frames.new.items state.new }
{
    let now = &*pairs;
    if next < now.values.len() {
        let values = Arc::try_clone(&now.values)?;
        let frame = Frame::Entry {
            line,
            pairs,
            next: next + 1,
            key: k,
        };
        return begin_above(state, frames, at, frame, line, &values[next]);
    }
    let pairs = Box::into_inner(pairs);
    Ok(Control::Signal(Signal::Value(make_dict(&mut state.heap, pairs.done)?)))
}

/// Begins the lower bound of a slice, or goes on with the upper one if there is none.
pub fn slice_from(
    state: &mut State,
    frames: &mut Vec<Frame>,
    at: &Position,
    line: usize,
    x: Val,
    i: &Option<Arc<Expr, Global>>,
    j: Option<Arc<Expr, Global>>,
) -> Result<Control, Halt>
    ensures goes { LeadsOn at.now line
        (λ env n here. above env n here
        (valued (sliced_from env n here x (bound_tree i.now) (bound_tree j) line)) frames.old.items
        (world_of state.old)) result frames.new.items state.new }
    ensures lighter { GetsLighter state.old (frames_weight frames.old.items + 3) result
        frames.new.items state.new }
{
    match i {
        Some(e) => begin_above(
            state,
            frames,
            at,
            Frame::From {
                line,
                container: x,
                to: j,
            },
            line,
            e,
        ),
        None => slice_to(state, frames, at, line, x, Val::Nothing, &j),
    }
}
