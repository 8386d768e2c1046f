//! What each frame does with a value, and with any signal.
ghost use Rattle.std.specs.Prelude.{◌≡◌, ◌<◌, ◌+◌, ℕ, List, false, IfOk};
ghost use Rattle.evaluator_semantics.specs.Environment.{Env};
ghost use Rattle.syntax_tree.specs.Tree as t;
ghost use Rattle.syntax_tree.specs.View.{shared_tree};
ghost use Rattle.evaluator_state.specs.View.{world_of, here_of};
ghost use Rattle.evaluator_state.specs.AimView.{aim_of};
ghost use Rattle.evaluator_frames.specs.Going.{GetsLighter, LeadsOn};
ghost use Rattle.evaluator_frames.specs.Frames.{Goes, on, a_value, sig_of, assigned, changes, frame_does, frame_line, is_leave, above, machine_does};
ghost use Rattle.evaluator_frames.specs.declared.frame.Frame.{Frame};
ghost use Rattle.evaluator_frames.specs.Weight.{frames_weight, frame_weight, control_weight, aim_size};

use crate::completions::{
    branch_known, clause_known, default_done, entry_done, entry_gathered, index_done,
    member_gathered, slice_done,
};
use crate::deliver::{deliver_aim, deliver_exit, deliver_gathered};
use crate::frame::{Control, Exit, Frame, Purpose, Receiver, Signal};
use crate::items::{begin_above, begin_arguments};
use crate::making::{clause_over, turns_over};
use crate::once::{both_done, item_done};
use crate::operands::{choose, entry_value, right_operand, slice_from, slice_to, unary_done};
use crate::stack::push;
use crate::targets::begin_aim;
use base_types::Text;
use evaluator_state::{LValue, Position, State, bind, eval_binary, store};
use std::alloc::Global;
use std::sync::Arc;
use std::sync::atomic::AtomicUsize;
use syntax_tree::{BinaryOp, Expr};
use values_heap::{Halt, Val};

// Assigns a value to a name.
fn assign_name(
    state: &mut State,
    at: &Position,
    line: usize,
    name: &Text,
    last: &AtomicUsize,
    x: Val,
) -> Result<Control, Halt>
    ensures goes { (env : Env) (n : ℕ) (running : List (List ℕ × List ℕ)) (frames : List Frame)
        → let here = here_of at.now at.now.line running in Goes (on env n here line).site
        (above env n here (assigned env n here (t.name name.now) x line) frames
        (world_of state.old)) result (λ control. machine_does env n here control frames
        (world_of state.new)) }
    ensures light { IfOk result (λ control. (state.new.heap ≡ state.old.heap)
        × (control_weight control ≡ 0)) }
{
    if let Err(halt) = bind(state, at, name, last, x) {
        return Err(halt);
    }
    Ok(Control::Signal(Signal::Exit(Exit::GoesOn)))
}

// Assigns a value to a target.
fn assign(
    state: &mut State,
    frames: &mut Vec<Frame>,
    at: &Position,
    line: usize,
    target: &Arc<Expr, Global>,
    x: Val,
) -> Result<Control, Halt>
    ensures goes { LeadsOn at.now line
        (λ env n here. above env n here (assigned env n here (shared_tree target.now) x line)
        frames.old.items (world_of state.old)) result frames.new.items state.new }
    ensures lighter { GetsLighter state.old
        (frames_weight frames.old.items + (aim_size (shared_tree target.now) + 4)) result
        frames.new.items state.new }
{
    match &**target {
        Expr::Name(name, last) => assign_name(state, at, line, name, last, x),
        _ => {
            push(frames, Frame::Store { line, value: x })?;
            begin_aim(state, frames, at, line, target)
        }
    }
}

// Changes a target by an operator.
fn change(
    state: &mut State,
    at: &Position,
    frames: &Vec<Frame>,
    line: usize,
    op: BinaryOp,
    aim: Box<LValue>,
    x: Val,
    y: Val,
) -> Result<Control, Halt>
    ensures goes { LeadsOn at.now line
        (λ env n here. above env n here (changes env n here op (aim_of aim.value) x y line)
        frames.now.items (world_of state.old)) result frames.now.items state.new }
    ensures lighter { GetsLighter state.old (frames_weight frames.now.items + 6) result
        frames.now.items state.new }
{
    match op {
        BinaryOp::Add => Ok(Control::Add {
            line,
            aim,
            old: x,
            right: y,
        }),
        op => {
            let z = eval_binary(&mut state.heap, op, x, y)?;
            if let Err(halt) = store(state, at, &aim, z) {
                return Err(halt);
            }
            Ok(Control::Signal(Signal::Exit(Exit::GoesOn)))
        }
    }
}

/// Hands a frame a value.
pub fn deliver_value(
    state: &mut State,
    frames: &mut Vec<Frame>,
    at: &Position,
    frame: Frame,
    x: Val,
) -> Result<Control, Halt>
    requires { is_leave frame ≡ false }
    ensures goes { LeadsOn at.now (frame_line at.now.line frame)
        (λ env n here. above env n here (frame_does env n here frame (a_value x)) frames.old.items
        (world_of state.old)) result frames.new.items state.new }
    ensures lighter { GetsLighter state.old (frames_weight frames.old.items + frame_weight frame)
        result frames.new.items state.new }
{
    match frame {
        Frame::Items { line, series } => item_done(line, series, x),
        Frame::Key { line, pairs, next } => entry_value(state, frames, at, line, pairs, next, x),
        Frame::Entry {
            line,
            pairs,
            next,
            key: k,
        } => entry_done(state, line, pairs, next, k, x),
        Frame::Unary { op, .. } => unary_done(state, op, x),
        Frame::Right { line, op, right: b } => right_operand(state, frames, at, line, op, x, &b),
        Frame::Both { op, left: v, .. } => both_done(state, op, v, x),
        Frame::Choice {
            line,
            chosen: a,
            other: b,
        } => choose(state, frames, at, line, x, &a, &b),
        Frame::Indexed { line, index: i } => begin_above(
            state,
            frames,
            at,
            Frame::Index { line, container: x },
            line,
            &i,
        ),
        Frame::Index { line, container: v } => index_done(state, line, v, x),
        Frame::Sliced {
            line,
            from: i,
            to: j,
        } => slice_from(state, frames, at, line, x, &i, j),
        Frame::From {
            line,
            container: v,
            to: j,
        } => slice_to(state, frames, at, line, v, x, &j),
        Frame::To {
            line,
            container: v,
            from: y,
        } => slice_done(state, line, v, y, x),
        Frame::Called {
            line,
            arguments: es,
            names,
        } => { begin_arguments(state, at, line, &es, Purpose::Call(x, names)) }
        Frame::On {
            line,
            name,
            arguments: es,
            names,
        } => {
            let purpose = Purpose::Method(Receiver::Of(x), name, names);
            begin_arguments(state, at, line, &es, purpose)
        }
        Frame::Container { line, index: i } => {
            begin_above(
                state,
                frames,
                at,
                Frame::Member { line, container: x },
                line,
                &i,
            )
        }
        Frame::Member { container: v, .. } => Ok(Control::Signal(Signal::Aim(LValue::Member(
            v, x,
        )))),
        Frame::Discard => Ok(Control::Signal(Signal::Exit(Exit::GoesOn))),
        Frame::Assign { line, target } => assign(state, frames, at, line, &target, x),
        Frame::Change {
            line,
            op,
            aim,
            old: v,
        } => change(state, at, frames, line, op, aim, v, x),
        Frame::Return => Ok(Control::Signal(Signal::Exit(Exit::Returns(x)))),
        Frame::Branch {
            body: ss,
            branches: bs,
            next,
            other,
        } => branch_known(state, ss, bs, next, other, x),
        Frame::For { line, target, body } => { turns_over(state, line, target, body, x) }
        Frame::First { line, target, of } => Ok(Control::First {
            line,
            target,
            of,
            value: x,
        }),
        Frame::Each {
            line,
            target,
            of,
            inner,
            got,
        } => { clause_over(state, line, target, of, inner, got, x) }
        Frame::Only {
            line,
            of,
            inner,
            got,
        } => clause_known(state, line, of, inner, got, x),
        Frame::OneMore { line, got } => member_gathered(line, got, x),
        Frame::OneKey {
            line,
            value: e,
            got,
        } => {
            begin_above(
                state,
                frames,
                at,
                Frame::OneEntry { line, key: x, got },
                line,
                &e,
            )
        }
        Frame::OneEntry { line, key: k, got } => entry_gathered(state, line, k, got, x),
        Frame::Default {
            line,
            def,
            next,
            done,
        } => default_done(line, def, next, done, x),
        frame => {
            drop(frame);
            Ok(Control::Signal(Signal::Value(x)))
        }
    }
}

/// Hands a frame a signal. One that the frame does not wait for passes it by and goes to the frame below.
pub fn deliver(
    state: &mut State,
    frames: &mut Vec<Frame>,
    at: &Position,
    frame: Frame,
    signal: Signal,
) -> Result<Control, Halt>
    requires { is_leave frame ≡ false }
    ensures goes { LeadsOn at.now (frame_line at.now.line frame)
        (λ env n here. above env n here (frame_does env n here frame (sig_of signal))
        frames.old.items (world_of state.old)) result frames.new.items state.new }
    ensures lighter { GetsLighter state.old (frames_weight frames.old.items + frame_weight frame)
        result frames.new.items state.new }
{
    match signal {
        Signal::Value(x) => deliver_value(state, frames, at, frame, x),
        Signal::Aim(aim) => deliver_aim(state, frames, at, frame, aim),
        Signal::Exit(exit) => deliver_exit(state, frames, at, frame, exit),
        Signal::Gathered(got) => deliver_gathered(state, frames, at, frame, got),
    }
}
