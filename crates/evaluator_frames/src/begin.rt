//! How an expression begins.
ghost use Rattle.std.specs.Prelude.{◌≡◌, ◌<◌, List, IfOk};
ghost use Rattle.evaluator_semantics.specs.Expressions as e;
ghost use Rattle.syntax_tree.specs.View.{tree_of};
ghost use Rattle.evaluator_state.specs.View.{world_of};
ghost use Rattle.evaluator_frames.specs.Going.{LeadsOn};
ghost use Rattle.evaluator_frames.specs.Frames.{ex, valued, above};

use crate::forms::{
    begin_binary, begin_call, begin_choice, begin_dict, begin_dict_of, begin_index, begin_items,
    begin_list_of, begin_method, begin_slice, begin_unary, text_value,
};
use crate::frame::{Control, Frame, Purpose, Signal};
use crate::once::at_once;
use evaluator_state::{Position, State, read, tick};
use syntax_tree::{Expr, Literal};
use values_heap::{Halt, Val};

// Returns the value of a literal word.
fn literal(word: Literal) -> Val
    ensures { result ≡ e.literal word }
{
    match word {
        Literal::NoneValue => Val::Nothing,
        Literal::TrueValue => Val::True,
        Literal::FalseValue => Val::False,
    }
}

/// Begins an expression, or evaluates it at once if nothing in it can wait.
pub fn begin(
    state: &mut State,
    frames: &mut Vec<Frame>,
    at: &Position,
    line: usize,
    e: &Expr,
) -> Result<Control, Halt>
    ensures goes { LeadsOn at.now line
        (λ env n here. above env n here (valued (ex env n here (tree_of e.now) line))
        frames.old.items (world_of state.old)) result frames.new.items state.new }
    ensures steps { IfOk result (λ _. state.new.heap.steps < state.old.heap.steps) }
{
    match at_once(state, at, e) {
        Ok(Some(x)) => Ok(Control::Signal(Signal::Value(x))),
        Ok(None) => begin_parts(state, frames, at, line, e),
        Err(halt) => Err(halt),
    }
}

/// Begins an expression with its first part.
#[tactic(auto, unfolding(evaluator_semantics::specs::World::tick))]
pub fn begin_parts(
    state: &mut State,
    frames: &mut Vec<Frame>,
    at: &Position,
    line: usize,
    e: &Expr,
) -> Result<Control, Halt>
    ensures goes { LeadsOn at.now line
        (λ env n here. above env n here (valued (ex env n here (tree_of e.now) line))
        frames.old.items (world_of state.old)) result frames.new.items state.new }
    ensures steps { IfOk result (λ _. state.new.heap.steps < state.old.heap.steps) }
{
    tick(&mut state.heap)?;
    let alloc = state.heap.alloc;
    match e {
        Expr::Name(x, last) => match read(state, at, x, last) {
            Ok(value) => Ok(Control::Signal(Signal::Value(value))),
            Err(halt) => Err(halt),
        },
        Expr::Int(n) => Ok(Control::Signal(Signal::Value(Val::Int(*n)))),
        Expr::Str(x) => text_value(state, x),
        Expr::Literal(word) => Ok(Control::Signal(Signal::Value(literal(*word)))),
        Expr::Tuple(es) => begin_items(alloc, line, es, Purpose::Tuple),
        Expr::List(es) => begin_items(alloc, line, es, Purpose::List),
        Expr::Dict(ks, vs) => begin_dict(alloc, line, ks, vs),
        Expr::ListOf(item, clauses) => begin_list_of(state, frames, line, item, clauses),
        Expr::DictOf(k, v, clauses) => begin_dict_of(state, frames, line, k, v, clauses),
        Expr::Unary(op, a) => begin_unary(frames, line, *op, a),
        Expr::Binary(op, a, b) => begin_binary(state, frames, at, line, *op, a, b),
        Expr::Choice(a, condition, b) => begin_choice(frames, line, a, condition, b),
        Expr::Index(a, i) => begin_index(state, frames, at, line, a, i),
        Expr::Slice(a, i, j) => begin_slice(frames, line, a, i, j),
        Expr::Call(f, es, names) => begin_call(state, frames, at, line, f, es, names),
        Expr::Method(x, name, es, names) => begin_method(
            state, frames, at, line, x, name, es, names,
        ),
    }
}
