//! What each frame does with the end of a statement, with what is gathered, and with what a target aims at.
ghost use Rattle.std.specs.Prelude.{◌≡◌, ◌<◌, ◌+◌, false};
ghost use Rattle.evaluator_state.specs.View.{world_of};
ghost use Rattle.evaluator_state.specs.AimView.{aim_of, gathered_of};
ghost use Rattle.evaluator_frames.specs.Going.{GetsLighter, LeadsOn};
ghost use Rattle.evaluator_frames.specs.Frames.{an_aim, an_exit, a_gathered, exit_of, sig_of, given_by, frame_does, frame_line, is_leave, above};
ghost use Rattle.evaluator_frames.specs.Weight.{frames_weight, frame_weight};

use crate::completions::{aim_done, augment, begin_body, begin_clause, store_value};
use crate::frame::{Control, Exit, Frame, Signal};
use evaluator_state::{Collection, LValue, Position, State, make_dict, make_list, unlock};
use values_heap::{Halt, Val};

/// Hands a frame how a statement has ended.
pub fn deliver_exit(
    state: &mut State,
    frames: &Vec<Frame>,
    at: &Position,
    frame: Frame,
    exit: Exit,
) -> Result<Control, Halt>
    requires { is_leave frame ≡ false }
    ensures goes { LeadsOn at.now (frame_line at.now.line frame)
        (λ env n here. above env n here (frame_does env n here frame (an_exit (exit_of exit)))
        frames.now.items (world_of state.old)) result frames.now.items state.new }
    ensures lighter { GetsLighter state.old (frames_weight frames.now.items + frame_weight frame)
        result frames.now.items state.new }
{
    match frame {
        Frame::Turns(turns) => match exit {
            Exit::GoesOn => Ok(Control::Turns(turns)),
            Exit::Continues => Ok(Control::Turns(turns)),
            Exit::Breaks => {
                unlock(&mut state.heap, turns.over);
                Ok(Control::Signal(Signal::Exit(Exit::GoesOn)))
            }
            Exit::Returns(x) => {
                unlock(&mut state.heap, turns.over);
                Ok(Control::Signal(Signal::Exit(Exit::Returns(x))))
            }
        },
        Frame::Rest { suite: ss, next } => match exit {
            Exit::GoesOn => Ok(Control::Suite { suite: ss, next }),
            Exit::Breaks => Ok(Control::Signal(Signal::Exit(Exit::Breaks))),
            Exit::Continues => Ok(Control::Signal(Signal::Exit(Exit::Continues))),
            Exit::Returns(x) => Ok(Control::Signal(Signal::Exit(Exit::Returns(x)))),
        },
        Frame::Tops { file, next } => Ok(Control::Tops { file, next }),
        frame => {
            drop(frame);
            Ok(Control::Signal(Signal::Exit(exit)))
        }
    }
}

/// Returns what a call gives its caller, by the signal that its body ends with. The end of a statement becomes a value.
pub fn given_by(signal: Signal) -> Signal
    ensures { sig_of result ≡ given_by (sig_of signal) }
{
    match signal {
        Signal::Exit(Exit::Returns(x)) => Signal::Value(x),
        Signal::Exit(_) => Signal::Value(Val::Nothing),
        signal => signal,
    }
}

/// Hands a frame what a comprehension has gathered.
pub fn deliver_gathered(
    state: &mut State,
    frames: &Vec<Frame>,
    at: &Position,
    frame: Frame,
    got: Box<Collection>,
) -> Result<Control, Halt>
    requires { is_leave frame ≡ false }
    ensures goes { LeadsOn at.now (frame_line at.now.line frame)
        (λ env n here. above env n here
        (frame_does env n here frame (a_gathered (gathered_of got.value))) frames.now.items
        (world_of state.old)) result frames.now.items state.new }
    ensures lighter { GetsLighter state.old (frames_weight frames.now.items + frame_weight frame)
        result frames.now.items state.new }
{
    match frame {
        Frame::Gather(turns) => Ok(Control::Gather(turns, got)),
        Frame::EndBlock => {
            if !state.blocks.is_empty() {
                let _block = state.blocks.remove(0);
            }
            Ok(Control::Signal(Signal::Gathered(got)))
        }
        Frame::MakeList(_) => {
            let got = Box::into_inner(got);
            Ok(Control::Signal(Signal::Value(make_list(&mut state.heap, got.members)?)))
        }
        Frame::MakeDict(_) => {
            let got = Box::into_inner(got);
            Ok(Control::Signal(Signal::Value(make_dict(&mut state.heap, got.entries)?)))
        }
        frame => {
            drop(frame);
            Ok(Control::Signal(Signal::Gathered(got)))
        }
    }
}

/// Hands a frame what a target aims at.
pub fn deliver_aim(
    state: &mut State,
    frames: &mut Vec<Frame>,
    at: &Position,
    frame: Frame,
    aim: LValue,
) -> Result<Control, Halt>
    requires { is_leave frame ≡ false }
    ensures goes { LeadsOn at.now (frame_line at.now.line frame)
        (λ env n here. above env n here (frame_does env n here frame (an_aim (aim_of aim)))
        frames.old.items (world_of state.old)) result frames.new.items state.new }
    ensures lighter { GetsLighter state.old (frames_weight frames.old.items + frame_weight frame)
        result frames.new.items state.new }
{
    match frame {
        Frame::Aims {
            line,
            targets: es,
            done,
        } => aim_done(line, es, done, aim),
        Frame::Store { line, value: x } => store_value(state, at, line, x, aim),
        Frame::Augment { line, op, right: e } => augment(state, frames, at, line, op, e, aim),
        Frame::Turn(turns, x) => begin_body(state, frames, at, turns, x, aim),
        Frame::Aimed(turns, x, got) => begin_clause(state, frames, at, turns, x, got, aim),
        frame => {
            drop(frame);
            Ok(Control::Signal(Signal::Aim(aim)))
        }
    }
}
