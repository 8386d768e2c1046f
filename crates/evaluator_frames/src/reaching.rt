//! Which objects a machine's frames, and what it does next, reach.

use crate::frame::{Control, Exit, Frame, Gathering, Purpose, Receiver, Series, Signal, Turns};
use base_types::Memory;
use evaluator_state::{
    Collection, LValue, mark_blocks, mark_collection, mark_lvalue, mark_lvalues,
};
use values_heap::{Marks, Val};

// Marks the value that a purpose holds as reached.
fn reach_purpose(reached: &mut Marks, purpose: &Purpose) -> Result<(), Memory> {
    match purpose {
        Purpose::Call(f, _) => reached.add(*f),
        Purpose::Method(Receiver::Of(x), _, _) => reached.add(*x),
        Purpose::Method(Receiver::Native, _, _) | Purpose::Tuple | Purpose::List => Ok(()),
    }
}

// Marks the values of several expressions, and of their purpose, as reached.
fn reach_series(reached: &mut Marks, series: &Series) -> Result<(), Memory> {
    reached.add_all(series.done.as_slice())?;
    reach_purpose(reached, &series.purpose)
}

// Marks the values of a loop, and the value of its turn, as reached.
fn reach_turn(reached: &mut Marks, turns: &Turns, x: Val) -> Result<(), Memory> {
    reached.add(x)?;
    reach_turns(reached, turns)
}

// Marks the values of a loop as reached.
fn reach_turns(reached: &mut Marks, turns: &Turns) -> Result<(), Memory> {
    reached.add(turns.over)?;
    reached.add_all(turns.items.as_slice())
}

// Marks the values of a clause of a comprehension as reached.
fn reach_gathering(reached: &mut Marks, gathering: &Gathering) -> Result<(), Memory> {
    reached.add(gathering.over)?;
    reached.add_all(gathering.items.as_slice())
}

// Marks the values of a clause of a comprehension, and the gathered ones, as reached.
fn reach_clause(
    reached: &mut Marks,
    gathering: &Gathering,
    got: &Collection,
) -> Result<(), Memory> {
    reach_gathering(reached, gathering)?;
    mark_collection(reached, got)
}

// Marks a value, and the gathered ones, as reached.
fn reach_one_more(reached: &mut Marks, x: Val, got: &Collection) -> Result<(), Memory> {
    reached.add(x)?;
    mark_collection(reached, got)
}

// Marks the values of a target, and a value for it, as reached.
fn reach_change(reached: &mut Marks, aim: &LValue, x: Val) -> Result<(), Memory> {
    reached.add(x)?;
    mark_lvalue(reached, aim)
}

// Marks a value, and arguments, as reached.
fn reach_arguments(reached: &mut Marks, x: Val, xs: &[Val]) -> Result<(), Memory> {
    reached.add(x)?;
    reached.add_all(xs)
}

// Marks the value that a statement ends with as reached.
fn reach_exit(reached: &mut Marks, exit: &Exit) -> Result<(), Memory> {
    match exit {
        Exit::Returns(x) => reached.add(*x),
        Exit::GoesOn | Exit::Breaks | Exit::Continues => Ok(()),
    }
}

// Marks the values of a signal as reached.
fn reach_signal(reached: &mut Marks, signal: &Signal) -> Result<(), Memory> {
    match signal {
        Signal::Value(x) => reached.add(*x),
        Signal::Aim(aim) => mark_lvalue(reached, aim),
        Signal::Exit(exit) => reach_exit(reached, exit),
        Signal::Gathered(got) => mark_collection(reached, got),
    }
}

// Marks the values that a frame holds as reached. Each frame that holds a value stands here.
fn reach_frame(reached: &mut Marks, frame: &Frame) -> Result<(), Memory> {
    match frame {
        Frame::Items { series, .. } => reach_series(reached, series),
        Frame::Key { pairs, .. } => reached.add_entries(&pairs.done),
        Frame::Entry { pairs, key: k, .. } => {
            reached.add(*k)?;
            reached.add_entries(&pairs.done)
        }
        Frame::Both { left: x, .. } => reached.add(*x),
        Frame::Index { container: x, .. } => reached.add(*x),
        Frame::From { container: x, .. } => reached.add(*x),
        Frame::To {
            container: x,
            from: y,
            ..
        } => reached.add_all(&[*x, *y]),
        Frame::Member { container: x, .. } => reached.add(*x),
        Frame::Aims { done, .. } => mark_lvalues(reached, done.as_slice()),
        Frame::Store { value: x, .. } => reached.add(*x),
        Frame::Change { aim, old: x, .. } => reach_change(reached, aim, *x),
        Frame::Turn(turns, x) => reach_turn(reached, turns, *x),
        Frame::Turns(turns) => reach_turns(reached, turns),
        Frame::Leave(caller) => mark_blocks(reached, caller.blocks.as_slice()),
        Frame::Default { done, .. } => reached.add_all(done.as_slice()),
        Frame::Unary { .. } | Frame::Right { .. } | Frame::Choice { .. } => Ok(()),
        Frame::Indexed { .. } | Frame::Sliced { .. } | Frame::Called { .. } => Ok(()),
        Frame::On { .. } | Frame::Container { .. } | Frame::Discard => Ok(()),
        Frame::Assign { .. } | Frame::Augment { .. } | Frame::Return => Ok(()),
        Frame::Branch { .. } | Frame::For { .. } | Frame::Rest { .. } => Ok(()),
        Frame::EndBlock | Frame::MakeList(_) | Frame::MakeDict(_) | Frame::Tops { .. } => Ok(()),
        Frame::First { .. } => Ok(()),
        Frame::Each { got, .. } => mark_collection(reached, got),
        Frame::Only { got, .. } => mark_collection(reached, got),
        Frame::Aimed(gathering, x, got) => {
            reached.add(*x)?;
            reach_clause(reached, gathering, got)
        }
        Frame::Gather(gathering) => reach_gathering(reached, gathering),
        Frame::OneMore { got, .. } => mark_collection(reached, got),
        Frame::OneKey { got, .. } => mark_collection(reached, got),
        Frame::OneEntry { key: x, got, .. } => reach_one_more(reached, *x, got),
    }
}

/// Marks the values that frames hold as reached.
pub fn reach_frames(reached: &mut Marks, frames: &[Frame]) -> Result<(), Memory> {
    for frame in frames {
        reach_frame(reached, frame)?;
    }
    Ok(())
}

// Marks the values of a target, and two values for it, as reached.
fn reach_sum(reached: &mut Marks, aim: &LValue, x: Val, y: Val) -> Result<(), Memory> {
    reached.add(y)?;
    reach_change(reached, aim, x)
}

/// Marks the values that a machine goes on with as reached.
pub fn reach_control(reached: &mut Marks, control: &Control) -> Result<(), Memory> {
    match control {
        Control::Signal(signal) => reach_signal(reached, signal),
        Control::Items { series, .. } => reach_series(reached, series),
        Control::Entries { pairs, .. } => reached.add_entries(&pairs.done),
        Control::Aims { done, .. } => mark_lvalues(reached, done.as_slice()),
        Control::Turns(turns) => reach_turns(reached, turns),
        Control::Clauses { got, .. } => mark_collection(reached, got),
        Control::Gather(gathering, got) => reach_clause(reached, gathering, got),
        Control::First { value: x, .. } => reached.add(*x),
        Control::Enter {
            place,
            arguments: xs,
            ..
        } => reach_arguments(reached, Val::At(*place), xs.as_slice()),
        Control::Builtin { arguments: xs, .. } => reached.add_all(xs.as_slice()),
        Control::Method { call, .. } => {
            reach_arguments(reached, call.receiver, call.arguments.as_slice())
        }
        Control::Package { arguments: xs, .. } => reached.add_all(xs.as_slice()),
        Control::Add {
            aim,
            old: x,
            right: y,
            ..
        } => reach_sum(reached, aim, *x, *y),
        Control::Defaults { done: xs, .. } => reached.add_all(xs.as_slice()),
        Control::Define { defaults: xs, .. } => reached.add_all(xs.as_slice()),
        Control::Eval { .. } | Control::Aim { .. } | Control::Suite { .. } => Ok(()),
        Control::Branches { .. } | Control::Tops { .. } | Control::Fault { .. } => Ok(()),
    }
}
