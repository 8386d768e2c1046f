//! A signal for the topmost frame.
ghost use Rattle.std.specs.Prelude.{◌≡◌, ◌+◌, ◌++◌, [], ◌∷◌, ℕ, List, true, false, IfOk, IsOkUnless};
ghost use Rattle.evaluator_semantics.specs.Environment.{Env};
ghost use Rattle.evaluator_state.specs.View.{world_of, here_of};
ghost use Rattle.values_objects.specs.declared.halt.Halt.TheVariants.{Memory};
ghost use Rattle.evaluator_frames.specs.Going.{GetsLighter, LeadsOn};
ghost use Rattle.evaluator_frames.specs.Frames.{Goes, on, sig_of, frame_does, frame_line, is_leave, is_within, above, machine_does};
ghost use Rattle.evaluator_frames.specs.Weight.{frames_weight, frame_weight, control_weight};
ghost use Rattle.evaluator_frames.specs.Ahead.{AsLight};
ghost use Rattle.evaluator_frames.specs.declared.frame.Control.TheVariants as c;
ghost use Rattle.base_types.specs.Refusals.{memory};

use crate::frame::{Control, Frame, Signal};
use crate::handing::deliver;
use crate::places::{control_line, frame_line};
use crate::stepping::step;
use evaluator_state::{Position, State};
use values_heap::Halt;

/// So many moves are made at once, at most, so that each call returns.
const MOST_MOVES: usize = 1024;

// Returns whether `step` goes on with a control.
fn is_within(control: &Control) -> bool
    ensures { result ≡ is_within control.now }
{
    match control {
        Control::Signal(_) => false,
        Control::First { .. } => false,
        Control::Enter { .. } => false,
        Control::Builtin { .. } => false,
        Control::Method { .. } => false,
        Control::Package { .. } => false,
        Control::Add { .. } => false,
        Control::Define { .. } => false,
        _ => true,
    }
}

// Returns whether a move leads on: a step, or a signal that is handed to a frame. The end of a call is the machine's own,
// and a fault is shown by it.
fn leads_on(frames: &[Frame], control: &Control) -> bool {
    match control {
        Control::Signal(_) => match frames.last() {
            Some(Frame::Leave(_)) => false,
            Some(_) => true,
            None => false,
        },
        Control::Fault { .. } => false,
        control => is_within(control),
    }
}

// Makes one step. A fault in it comes next, with its line: no step and no frame is left.
fn stepped(
    state: &mut State,
    frames: &mut Vec<Frame>,
    at: &Position,
    control: Control,
) -> Result<Control, Halt>
    requires { is_within control ≡ true }
    ensures goes { (env : Env) (n : ℕ) (running : List (List ℕ × List ℕ))
        → let here = here_of at.now at.now.line running in
        IfOk result (λ next. machine_does env n here control frames.old.items (world_of state.old)
        ≡ machine_does env n here next frames.new.items (world_of state.new)) }
    ensures err { IsOkUnless result (Memory memory) }
    ensures lighter { IfOk result
        (λ next. AsLight state.old.heap.steps
        (frames_weight frames.old.items + control_weight control) state.new.heap.steps
        (frames_weight frames.new.items + control_weight next)) }
{
    let line = control_line(&control, at.line);
    match step(state, frames, at, control) {
        Ok(next) => Ok(next),
        Err(Halt::Code(code)) => {
            state.heap.steps = 0;
            frames.clear();
            Ok(Control::Fault { line, code })
        }
        Err(Halt::Memory(error)) => Err(Halt::Memory(error)),
    }
}

// Hands a signal to the topmost frame, which was taken off the others. A fault in it comes next, with its line: no step
// and no frame is left.
fn handed(
    state: &mut State,
    frames: &mut Vec<Frame>,
    at: &Position,
    frame: Frame,
    signal: Signal,
) -> Result<Control, Halt>
    requires { is_leave frame ≡ false }
    ensures goes { (env : Env) (n : ℕ) (running : List (List ℕ × List ℕ))
        → let here = here_of at.now at.now.line running in
        IfOk result (λ next. machine_does env n here (c.Signal signal)
        (frames.old.items ++ frame ∷ []) (world_of state.old)
        ≡ machine_does env n here next frames.new.items (world_of state.new)) }
    ensures err { IsOkUnless result (Memory memory) }
    ensures lighter { IfOk result
        (λ next. AsLight state.old.heap.steps (frames_weight (frames.old.items ++ frame ∷ []))
        state.new.heap.steps (frames_weight frames.new.items + control_weight next)) }
{
    let line = frame_line(&frame, at.line);
    match deliver(state, frames, at, frame, signal) {
        Ok(next) => Ok(next),
        Err(Halt::Code(code)) => {
            state.heap.steps = 0;
            frames.clear();
            Ok(Control::Fault { line, code })
        }
        Err(Halt::Memory(error)) => Err(Halt::Memory(error)),
    }
}

// Hands a signal to the topmost frame, unless that ends a call.
fn hand_over(
    state: &mut State,
    frames: &mut Vec<Frame>,
    at: &Position,
    signal: Signal,
) -> Result<Control, Halt>
    ensures goes { (env : Env) (n : ℕ) (running : List (List ℕ × List ℕ))
        → let here = here_of at.now at.now.line running in
        IfOk result (λ next. machine_does env n here (c.Signal signal) frames.old.items
        (world_of state.old)
        ≡ machine_does env n here next frames.new.items (world_of state.new)) }
    ensures err { IsOkUnless result (Memory memory) }
    ensures lighter { IfOk result
        (λ next. AsLight state.old.heap.steps (frames_weight frames.old.items)
        state.new.heap.steps (frames_weight frames.new.items + control_weight next)) }
{
    let frame = match frames.pop() {
        Some(frame) => frame,
        None => return Ok(Control::Signal(signal)),
    };
    match frame {
        Frame::Leave(caller) => {
            frames.push(Frame::Leave(caller))?;
            Ok(Control::Signal(signal))
        }
        frame => handed(state, frames, at, frame, signal),
    }
}

// Goes on by one move: a signal is handed over, or a step is made. Any other control is handed back.
fn move_on(
    state: &mut State,
    frames: &mut Vec<Frame>,
    at: &Position,
    control: Control,
) -> Result<Control, Halt>
    ensures goes { (env : Env) (n : ℕ) (running : List (List ℕ × List ℕ))
        → let here = here_of at.now at.now.line running in
        IfOk result (λ next. machine_does env n here control frames.old.items (world_of state.old)
        ≡ machine_does env n here next frames.new.items (world_of state.new)) }
    ensures err { IsOkUnless result (Memory memory) }
    ensures lighter { IfOk result
        (λ next. AsLight state.old.heap.steps
        (frames_weight frames.old.items + control_weight control) state.new.heap.steps
        (frames_weight frames.new.items + control_weight next)) }
{
    match control {
        Control::Signal(signal) => hand_over(state, frames, at, signal),
        control => {
            if is_within(&control) {
                return stepped(state, frames, at, control);
            }
            Ok(control)
        }
    }
}

/// Goes on by moves, until what comes next belongs to the machine or objects are to be given back.
pub fn onward(
    state: &mut State,
    frames: &mut Vec<Frame>,
    at: &Position,
    control: Control,
) -> Result<Control, Halt>
    ensures goes { (env : Env) (n : ℕ) (running : List (List ℕ × List ℕ))
        → let here = here_of at.now at.now.line running in
        IfOk result (λ next. machine_does env n here control frames.old.items (world_of state.old)
        ≡ machine_does env n here next frames.new.items (world_of state.new)) }
    ensures err { IsOkUnless result (Memory memory) }
    ensures lighter { IfOk result
        (λ next. AsLight state.old.heap.steps
        (frames_weight frames.old.items + control_weight control) state.new.heap.steps
        (frames_weight frames.new.items + control_weight next)) }
{
    let mut control = control;
    for _move in 0..MOST_MOVES {
        if state.heap.needs_collection() || !leads_on(frames.as_slice(), &control) {
            return Ok(control);
        }
        control = match move_on(state, frames, at, control) {
            Ok(next) => next,
            Err(halt) => return Err(halt),
        };
    }
    Ok(control)
}

// Hands a frame a signal, and goes on at once.
fn hand_on(
    state: &mut State,
    frames: &mut Vec<Frame>,
    at: &Position,
    frame: Frame,
    signal: Signal,
) -> Result<Control, Halt>
    requires { is_leave frame ≡ false }
    ensures goes { LeadsOn at.now (frame_line at.now.line frame)
        (λ env n here. above env n here (frame_does env n here frame (sig_of signal))
        frames.old.items (world_of state.old)) result frames.new.items state.new }
    ensures lighter { GetsLighter state.old (frames_weight frames.old.items + frame_weight frame)
        result frames.new.items state.new }
{
    match deliver(state, frames, at, frame, signal) {
        Ok(control) => onward(state, frames, at, control),
        Err(halt) => Err(halt),
    }
}

/// Hands a signal to the topmost frame, which was taken off the others and ends no call.
pub fn hand_down(
    state: &mut State,
    frames: &mut Vec<Frame>,
    at: &Position,
    frame: Frame,
    signal: Signal,
) -> Result<Control, Halt>
    requires { is_leave frame ≡ false }
    ensures goes { LeadsOn at.now (frame_line at.now.line frame)
        (λ env n here. machine_does env n here (c.Signal signal) (frames.old.items ++ frame ∷ [])
        (world_of state.old)) result frames.new.items state.new }
    ensures lighter { GetsLighter state.old (frames_weight (frames.old.items ++ frame ∷ [])) result
        frames.new.items state.new }
{
    hand_on(state, frames, at, frame, signal)
}
