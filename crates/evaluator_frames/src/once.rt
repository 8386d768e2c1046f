//! Expressions whose value is known at once.
ghost use Rattle.std.specs.Prelude.{◌≡◌, ◌≤◌, ◌<◌, ◌+◌, ◌++◌, ◌∷◌, [], ℕ, List, length, IfOk, IsOkUnless};
ghost use Rattle.values_objects.specs.declared.halt.Halt.TheVariants.{Memory};
ghost use Rattle.values_semantics.specs.Binary.{binary};
ghost use Rattle.evaluator_semantics.specs.World.{World, Here, Ends, then_runs, on_heap};
ghost use Rattle.evaluator_semantics.specs.Environment.{Env};
ghost use Rattle.evaluator_semantics.specs.Expressions.{operator_of};
ghost use Rattle.syntax_tree.specs.View.{tree_of, shared_tree};
ghost use Rattle.evaluator_state.specs.View.{world_of, here_of};
ghost use Rattle.evaluator_frames.specs.Going.{LeadsOn};
ghost use Rattle.evaluator_frames.specs.Immediate.{AtOnce, Costs};
ghost use Rattle.evaluator_frames.specs.Frames.{Sig, Goes, a_value, on, ex, valued, items_from, trees_from, frame_does, calls_below, here_below, above, machine_does};
ghost use Rattle.evaluator_frames.specs.Weight.{control_weight};
ghost use Rattle.evaluator_frames.specs.declared.frame.Frame.{Frame};
ghost use Rattle.base_types.specs.Refusals.{memory};

use crate::frame::{Control, Frame, Series, Signal};
use crate::items::parts_above;
use crate::stack::push;
use evaluator_direct::{is_quiet_at, value_at};
use evaluator_state::{Position, State, eval_binary};
use std::alloc::Global;
use std::sync::Arc;
use syntax_tree::{BinaryOp, Expr};
use values_heap::{Halt, Val};

/// Evaluates an expression in which nothing can wait. With any other, it does nothing and returns `None`.
pub fn at_once(state: &mut State, at: &Position, e: &Expr) -> Result<Option<Val>, Halt>
    ensures says { (env : Env) (n line : ℕ) (running : List (List ℕ × List ℕ))
        → let here = here_of at.now at.now.line running in AtOnce (on env n here line).site
        (ex env n here (tree_of e.now) line (world_of state.old)) result (world_of state.new) }
    ensures costs { Costs result state.old state.new }
{
    if !is_quiet_at(state, at, e) {
        return Ok(None);
    }
    match value_at(state, at, e) {
        Ok(x) => Ok(Some(x)),
        Err(halt) => Err(halt),
    }
}

/// Adds a value to the items that are done.
pub fn item_done(line: usize, series: Box<Series>, x: Val) -> Result<Control, Halt>
    ensures ok { IfOk result (λ control. (env : Env) (n : ℕ) (here : Here) (frames : List Frame)
        (w : World) → above env n here
        (valued
        (items_from env n here series.value.purpose
        (trees_from (length series.value.done.items + 1) series.value.items)
        (series.value.done.items ++ x ∷ []) line)) frames w ≡ machine_does env n here control frames
        w) }
    ensures err { IsOkUnless result (Memory memory) }
    ensures light { IfOk result (λ control. control_weight control ≡ 8) }
{
    let mut series = series;
    series.done.push(x)?;
    Ok(Control::Items { line, series })
}

/// Evaluates the next item at once, or begins it above a frame that waits for it.
pub fn one_item(
    state: &mut State,
    frames: &mut Vec<Frame>,
    at: &Position,
    line: usize,
    series: Box<Series>,
    e: &Expr,
) -> Result<Control, Halt>
    ensures goes { LeadsOn at.now line
        (λ env n here. then_runs (ex env n here (tree_of e.now) line (world_of state.old))
        (λ v. above env n here
        (valued
        (items_from env n here series.value.purpose
        (trees_from (length series.value.done.items + 1) series.value.items)
        (series.value.done.items ++ v ∷ []) line)) frames.old.items)) result frames.new.items
        state.new }
    ensures steps { IfOk result (λ _. state.new.heap.steps < state.old.heap.steps) }
{
    match at_once(state, at, e) {
        Ok(Some(x)) => item_done(line, series, x),
        Ok(None) => parts_above(state, frames, at, Frame::Items { line, series }, line, e),
        Err(halt) => Err(halt),
    }
}

/// Applies an operator to its two operands.
pub fn both_done(state: &mut State, op: BinaryOp, x: Val, y: Val) -> Result<Control, Halt>
    ensures goes { (env : Env) (n line : ℕ) (here : Here) (frames : List Frame)
        → Goes (on env n here line).site
        (above env n here (valued (on_heap (on env n here line) (binary (operator_of op) x y)))
        frames (world_of state.old)) result (λ control. machine_does env n here control frames
        (world_of state.new)) }
    ensures steps { IfOk result (λ _. state.new.heap.steps ≤ state.old.heap.steps) }
    ensures light { IfOk result (λ control. control_weight control ≡ 0) }
{
    Ok(Control::Signal(Signal::Value(eval_binary(&mut state.heap, op, x, y)?)))
}

/// Evaluates the second operand and applies the operator, or begins the operand above a frame that waits for it.
pub fn second_operand(
    state: &mut State,
    frames: &mut Vec<Frame>,
    at: &Position,
    line: usize,
    op: BinaryOp,
    x: Val,
    e: &Expr,
) -> Result<Control, Halt>
    ensures goes { LeadsOn at.now line
        (λ env n here. then_runs (ex env n here (tree_of e.now) line (world_of state.old))
        (λ y. above env n here (valued (on_heap (on env n here line) (binary (operator_of op) x y)))
        frames.old.items)) result frames.new.items state.new }
    ensures steps { IfOk result (λ _. state.new.heap.steps < state.old.heap.steps) }
{
    match at_once(state, at, e) {
        Ok(Some(y)) => both_done(state, op, x, y),
        Ok(None) => parts_above(
            state,
            frames,
            at,
            Frame::Both { line, op, left: x },
            line,
            e,
        ),
        Err(halt) => Err(halt),
    }
}

/// Pushes a frame that waits for the value of an expression. If nothing in the expression can wait, its value is known
/// at once; if not, it comes next.
pub fn value_above(
    state: &mut State,
    frames: &mut Vec<Frame>,
    at: &Position,
    frame: Frame,
    line: usize,
    e: &Arc<Expr, Global>,
) -> Result<Control, Halt>
    ensures goes { (env : Env) (n : ℕ) (running : List (List ℕ × List ℕ)) (before : Ends Sig)
        → let here = here_of at.now at.now.line running in calls_below frame n ≡ n
        → here_below frame here ≡ here → before ≡ then_runs
        (ex env n here (shared_tree e.now) line (world_of state.old))
        (λ v. above env n here (frame_does env n here frame (a_value v)) frames.old.items)
        → Goes (on env n here line).site before result
        (λ control. machine_does env n here control frames.new.items (world_of state.new)) }
    ensures steps { IfOk result (λ _. state.new.heap.steps ≤ state.old.heap.steps) }
{
    push(frames, frame)?;
    match at_once(state, at, e) {
        Ok(Some(x)) => Ok(Control::Signal(Signal::Value(x))),
        Ok(None) => Ok(Control::Eval {
            line,
            expr: Arc::try_clone(e)?,
        }),
        Err(halt) => Err(halt),
    }
}
