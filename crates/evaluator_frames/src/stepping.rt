//! One step within a function or a file.
ghost use Rattle.std.specs.Prelude.{◌≡◌, ◌+◌, true, IfOk};
ghost use Rattle.evaluator_state.specs.View.{world_of};
ghost use Rattle.evaluator_frames.specs.Going.{LeadsOn};
ghost use Rattle.evaluator_frames.specs.Frames.{on, control_line, is_within, machine_does};
ghost use Rattle.evaluator_frames.specs.Weight.{Lighter, frames_weight, control_weight};

use crate::begin::begin;
use crate::frame::{Control, Frame};
use crate::gather::{next_clause, next_gather};
use crate::items::next_item;
use crate::loops::{next_branch, next_stmt, next_turn};
use crate::moves::onward;
use crate::operands::next_entry;
use crate::targets::{begin_aim, next_aim};
use crate::tops::{next_default, next_top};
use evaluator_state::{Position, State};
use values_heap::Halt;

/// Makes one step within a function or a file. Signals, calls, `+=` on two values, the binding of a function and the
/// beginning of a comprehension's block are handed back.
pub(crate) fn step(
    state: &mut State,
    frames: &mut Vec<Frame>,
    at: &Position,
    control: Control,
) -> Result<Control, Halt>
    ensures goes { LeadsOn at.now (control_line at.now.line control)
        (λ env n here. machine_does env n here control frames.old.items (world_of state.old)) result
        frames.new.items state.new }
    ensures lighter { is_within control ≡ true
        → IfOk result
        (λ next. Lighter state.old.heap.steps
        (frames_weight frames.old.items + control_weight control) state.new.heap.steps
        (frames_weight frames.new.items + control_weight next)) }
{
    match control {
        Control::Eval { line, expr: e } => begin(state, frames, at, line, &e),
        Control::Items { line, series } => next_item(state, frames, at, line, series),
        Control::Entries { line, pairs, next } => next_entry(state, frames, at, line, pairs, next),
        Control::Aim { line, target: e } => begin_aim(state, frames, at, line, &e),
        Control::Aims {
            line,
            targets: es,
            done,
        } => next_aim(state, frames, at, line, es, done),
        Control::Suite { suite: ss, next } => next_stmt(state, frames, at, ss, next),
        Control::Branches {
            branches: bs,
            next,
            other,
        } => next_branch(state, frames, at, bs, next, other),
        Control::Turns(turns) => next_turn(state, frames, at, turns),
        Control::Clauses {
            line,
            of,
            inner,
            got,
        } => { next_clause(state, frames, at, line, of, inner, got) }
        Control::Gather(turns, got) => next_gather(state, frames, at, turns, got),
        Control::Tops { file, next } => next_top(state, frames, at, file, next),
        Control::Defaults {
            line,
            def,
            next,
            done,
        } => next_default(state, frames, at, line, def, next, done),
        Control::Fault { code, .. } => Err(Halt::Code(code)),
        control => Ok(control),
    }
}

/// Makes a step within a function or a file, and goes on at once. Calls, `+=` on two values, the binding of a function,
/// the beginning of a comprehension's block and the end of a call are handed back. So is what comes next where objects
/// are to be given back, and behind 1,024 moves.
pub fn go_on(
    state: &mut State,
    frames: &mut Vec<Frame>,
    at: &Position,
    control: Control,
) -> Result<Control, Halt>
    ensures goes { LeadsOn at.now (control_line at.now.line control)
        (λ env n here. machine_does env n here control frames.old.items (world_of state.old)) result
        frames.new.items state.new }
    ensures lighter { is_within control ≡ true
        → IfOk result
        (λ next. Lighter state.old.heap.steps
        (frames_weight frames.old.items + control_weight control) state.new.heap.steps
        (frames_weight frames.new.items + control_weight next)) }
{
    match step(state, frames, at, control) {
        Ok(next) => onward(state, frames, at, next),
        Err(halt) => Err(halt),
    }
}
