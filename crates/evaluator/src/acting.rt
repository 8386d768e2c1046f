//! What stands between the steps of the frames: comprehensions that begin, calls that evaluate no expression of a file, and
//! functions that are bound.
ghost use Rattle.std.specs.Prelude.{◌≡◌, ◌≤◌, ◌<◌, ◌+◌, ℕ, List, IfOk};
ghost use Rattle.evaluator_semantics.specs.World.{Here};
ghost use Rattle.evaluator_semantics.specs.Environment.{Env};
ghost use Rattle.evaluator_state.specs.View.{world_of, here_of};
ghost use Rattle.evaluator_frames.specs.Frames.{Goes, on, machine_does};
ghost use Rattle.evaluator_frames.specs.Weight.{Lighter, frames_weight, control_weight};
ghost use Rattle.evaluator_frames.specs.declared.frame.Control.TheVariants as c;

use base_types::Text;
use evaluator_calls::{comprehension_block, keep_defaults};
use evaluator_frames::{Comprehension, Control, Exit, Frame, Gathering, MethodCall, Signal, push};
use evaluator_state::{
    Block, LValue, Position, State, add, bind, call_builtin, call_method, empty_collection, items,
    lock, store,
};
use std::alloc::Global;
use std::sync::Arc;
use std::sync::atomic::AtomicUsize;
use syntax_tree::{Def, Expr};
use values_heap::{Builtin, Halt, Object, Val};

/// Calls a built-in function.
pub fn built_in(
    state: &mut State,
    line: usize,
    f: Builtin,
    xs: Vec<Val>,
    names: Arc<Vec<Text>, Global>,
) -> Result<Control, Halt>
    ensures goes { (env : Env) (n : ℕ) (here : Here) (frames : List Frame)
        → Goes (on env n here line).site (machine_does env n here (c.Builtin line f xs names) frames
        (world_of state.old)) result (λ control. machine_does env n here control frames
        (world_of state.new)) }
    ensures light { IfOk result (λ control. (state.new.heap.steps ≤ state.old.heap.steps)
        × (control_weight control ≡ 0)) }
{
    let value = call_builtin(&mut state.heap, f, xs.as_slice(), names.as_slice())?;
    Ok(Control::Signal(Signal::Value(value)))
}

/// Calls a method of a value.
pub fn of_value(state: &mut State, line: usize, call: Box<MethodCall>) -> Result<Control, Halt>
    ensures goes { (env : Env) (n : ℕ) (here : Here) (frames : List Frame)
        → Goes (on env n here line).site
        (machine_does env n here (c.Method line call) frames (world_of state.old)) result
        (λ control. machine_does env n here control frames (world_of state.new)) }
    ensures light { IfOk result (λ control. (state.new.heap.steps ≤ state.old.heap.steps)
        × (control_weight control ≡ 0)) }
{
    let value = call_method(
        &mut state.heap,
        call.receiver,
        &call.name,
        call.arguments.as_slice(),
        call.names.as_slice(),
    )?;
    Ok(Control::Signal(Signal::Value(value)))
}

/// Adds two values for `x += y`, and stores the sum in the target.
pub fn added(
    state: &mut State,
    at: &Position,
    line: usize,
    aim: Box<LValue>,
    x: Val,
    y: Val,
) -> Result<Control, Halt>
    ensures goes { (env : Env) (n : ℕ) (running : List (List ℕ × List ℕ)) (frames : List Frame)
        → let here = here_of at.now at.now.line running in Goes (on env n here line).site
        (machine_does env n here (c.Add line aim x y) frames (world_of state.old)) result
        (λ control. machine_does env n here control frames (world_of state.new)) }
    ensures light { IfOk result (λ control. (state.new.heap.steps ≤ state.old.heap.steps)
        × (control_weight control ≡ 0)) }
{
    let z = add(&mut state.heap, x, y)?;
    if let Err(halt) = store(state, at, &aim, z) {
        return Err(halt);
    }
    Ok(Control::Signal(Signal::Exit(Exit::GoesOn)))
}

/// Begins the block of a comprehension, whose first clause goes over a value.
pub fn begin_block(
    state: &mut State,
    frames: &mut Vec<Frame>,
    line: usize,
    target: Arc<Expr, Global>,
    of: Arc<Comprehension, Global>,
    x: Val,
) -> Result<Control, Halt>
    ensures goes { (env : Env) (n : ℕ) (here : Here) → Goes (on env n here line).site
        (machine_does env n here (c.First line target of x) frames.old.items (world_of state.old))
        result (λ control. machine_does env n here control frames.new.items (world_of state.new)) }
    ensures lighter { IfOk result
        (λ control. Lighter state.old.heap.steps (frames_weight frames.old.items + 6)
        state.new.heap.steps (frames_weight frames.new.items + control_weight control)) }
{
    let members = items(&state.heap, x)?;
    lock(&mut state.heap, x)?;
    let alloc = state.heap.alloc;
    let slots = comprehension_block(alloc, of.clauses.as_slice())?;
    let block = Block::new(slots)?;
    state.blocks.insert(0, block)?;
    push(frames, Frame::EndBlock)?;
    let turns = Gathering {
        line,
        target,
        of,
        inner: 1,
        over: x,
        items: members,
        next: 0,
    };
    let turns = Box::new(alloc, turns)?;
    Ok(Control::Gather(turns, Box::new(alloc, empty_collection(alloc))?))
}

/// Makes a function, keeps the values of its defaults, and binds its name.
pub fn define(
    state: &mut State,
    at: &Position,
    line: usize,
    def: &Arc<Def, Global>,
    xs: Vec<Val>,
) -> Result<Control, Halt>
    ensures goes { (env : Env) (n : ℕ) (running : List (List ℕ × List ℕ)) (frames : List Frame)
        → let here = here_of at.now at.now.line running in Goes (on env n here line).site
        (machine_does env n here (c.Define line def.now xs) frames (world_of state.old)) result
        (λ control. machine_does env n here control frames (world_of state.new)) }
    ensures light { IfOk result (λ control. (state.new.heap.steps ≤ state.old.heap.steps)
        × (control_weight control ≡ 0)) }
{
    let name = &def.name;
    let made = state
        .heap
        .make(Object::Function(at.label.share()?, name.share()?))?;
    if let Err(halt) = keep_defaults(state, &at.label, name, xs) {
        return Err(halt);
    }
    if let Err(halt) = bind(state, at, name, &AtomicUsize::new(0), made) {
        return Err(halt);
    }
    Ok(Control::Signal(Signal::Exit(Exit::GoesOn)))
}
