//! How the clauses of a comprehension go on.
ghost use Rattle.std.specs.Prelude.{◌≡◌, ◌<◌, ◌+◌, ◌≤◌, IfOk};
ghost use Rattle.syntax_tree.specs.View.{tree_of};
ghost use Rattle.evaluator_semantics.specs.World.{then_runs};
ghost use Rattle.evaluator_semantics.specs.Targets.{to_name};
ghost use Rattle.evaluator_state.specs.View.{world_of};
ghost use Rattle.evaluator_frames.specs.Going.{GetsLighter, LeadsOn};
ghost use Rattle.evaluator_frames.specs.Frames.{Goes, on, gathered, item_does, an_aim, aims_at, frame_does, above, machine_does};
ghost use Rattle.evaluator_frames.specs.Weight.{frames_weight};
ghost use Rattle.evaluator_state.specs.AimView.{gathered_of};
ghost use Rattle.evaluator_frames.specs.declared.frame.Control.TheVariants as c;
ghost use Rattle.evaluator_frames.specs.declared.frame.Frame.TheVariants as f;

use crate::frame::{Comprehension, Control, Frame, Gathering, Item, Signal};
use crate::items::begin_above;
use crate::making::next_gathering;
use crate::stack::push;
use crate::targets::begin_aim;
use base_types::Text;
use evaluator_state::{Collection, Position, State, bind, tick, unlock};
use std::alloc::Global;
use std::sync::Arc;
use std::sync::atomic::AtomicUsize;
use syntax_tree::{Clause, Expr};
use values_heap::{Halt, Val};

// Begins an item of a comprehension.
fn begin_item(
    state: &mut State,
    frames: &mut Vec<Frame>,
    at: &Position,
    line: usize,
    item: &Item,
    got: Box<Collection>,
) -> Result<Control, Halt>
    ensures goes { LeadsOn at.now line
        (λ env n here. above env n here
        (gathered (item_does env n here item.now line (gathered_of got.value))) frames.old.items
        (world_of state.old)) result frames.new.items state.new }
    ensures steps { IfOk result (λ _. state.new.heap.steps < state.old.heap.steps) }
{
    match item {
        Item::Member(e) => begin_above(state, frames, at, Frame::OneMore { line, got }, line, e),
        Item::Entry(k, e) => {
            let frame = Frame::OneKey {
                line,
                value: Arc::try_clone(e)?,
                got,
            };
            begin_above(state, frames, at, frame, line, k)
        }
    }
}

/// Goes on with the clauses of a comprehension.
pub fn next_clause(
    state: &mut State,
    frames: &mut Vec<Frame>,
    at: &Position,
    line: usize,
    of: Arc<Comprehension, Global>,
    inner: usize,
    got: Box<Collection>,
) -> Result<Control, Halt>
    ensures goes { LeadsOn at.now line
        (λ env n here. machine_does env n here (c.Clauses line of inner got) frames.old.items
        (world_of state.old)) result frames.new.items state.new }
    ensures steps { IfOk result (λ _. state.new.heap.steps < state.old.heap.steps) }
{
    if inner >= of.clauses.len() {
        return begin_item(state, frames, at, line, &of.item, got);
    }
    let again = Arc::try_clone(&of)?;
    match &of.clauses[inner] {
        Clause::For(target, e) => {
            let target = Arc::try_clone(target)?;
            let frame = Frame::Each {
                line,
                target,
                of: again,
                inner: inner + 1,
                got,
            };
            begin_above(state, frames, at, frame, line, e)
        }
        Clause::If(e) => {
            let frame = Frame::Only {
                line,
                of: again,
                inner: inner + 1,
                got,
            };
            begin_above(state, frames, at, frame, line, e)
        }
    }
}

/// Goes on with the members that a clause goes over.
pub fn next_gather(
    state: &mut State,
    frames: &mut Vec<Frame>,
    at: &Position,
    turns: Box<Gathering>,
    got: Box<Collection>,
) -> Result<Control, Halt>
    ensures goes { LeadsOn at.now turns.value.line
        (λ env n here. machine_does env n here (c.Gather turns got) frames.old.items
        (world_of state.old)) result frames.new.items state.new }
    ensures lighter { GetsLighter state.old (frames_weight frames.old.items + 1) result
        frames.new.items state.new }
{
    let now = &*turns;
    if now.next >= now.items.len() {
        unlock(&mut state.heap, now.over);
        return Ok(Control::Signal(Signal::Gathered(got)));
    }
    if let Err(halt) = tick(&mut state.heap) {
        return Err(halt);
    }
    let value = now.items[now.next];
    let line = now.line;
    let target = Arc::try_clone(&now.target)?;
    let next = next_gathering(turns);
    aim_gathering(state, frames, at, line, &target, next, value, got)
}

// Aims at the target of a turn of a clause. A name is bound at once, and the clause behind it is next.
fn aim_gathering(
    state: &mut State,
    frames: &mut Vec<Frame>,
    at: &Position,
    line: usize,
    target: &Expr,
    turns: Box<Gathering>,
    x: Val,
    got: Box<Collection>,
) -> Result<Control, Halt>
    requires { line ≡ turns.value.line }
    ensures goes { LeadsOn at.now line
        (λ env n here. then_runs (aims_at env n here (tree_of target.now) line (world_of state.old))
        (λ a. above env n here (frame_does env n here (f.Aimed turns x got) (an_aim a))
        frames.old.items)) result frames.new.items state.new }
    ensures steps { IfOk result (λ _. state.new.heap.steps ≤ state.old.heap.steps) }
{
    match target {
        Expr::Name(name, last) => gather_named(state, frames, at, name, last, turns, x, got),
        _ => {
            push(frames, Frame::Aimed(turns, x, got))?;
            begin_aim(state, frames, at, line, target)
        }
    }
}

// Binds the name that a turn of a clause is for, and begins the clause behind it.
fn gather_named(
    state: &mut State,
    frames: &mut Vec<Frame>,
    at: &Position,
    name: &Text,
    last: &AtomicUsize,
    turns: Box<Gathering>,
    x: Val,
    got: Box<Collection>,
) -> Result<Control, Halt>
    ensures goes { LeadsOn at.now turns.value.line
        (λ env n here. above env n here
        (frame_does env n here (f.Aimed turns x got) (an_aim (to_name name.now))) frames.old.items
        (world_of state.old)) result frames.new.items state.new }
    ensures steps { state.new.heap ≡ state.old.heap }
{
    if let Err(halt) = bind(state, at, name, last, x) {
        return Err(halt);
    }
    let of = Arc::try_clone(&turns.of)?;
    let line = turns.line;
    let inner = turns.inner;
    push(frames, Frame::Gather(turns))?;
    Ok(Control::Clauses {
        line,
        of,
        inner,
        got,
    })
}
