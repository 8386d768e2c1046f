//! How items and entries go on, and what they are for.
ghost use Rattle.std.specs.Prelude.{◌≡◌, ◌<◌, ◌+◌, ◌≤◌, ℕ, List, [], IfOk};
ghost use Rattle.std.specs.Arc.{arc_value};
ghost use Rattle.evaluator_semantics.specs.World.{World, Here, then_runs};
ghost use Rattle.evaluator_semantics.specs.Environment.{Env};
ghost use Rattle.evaluator_semantics.specs.Expressions as e;
ghost use Rattle.evaluator_semantics.specs.Arguments.{plain_part, named_part};
ghost use Rattle.evaluator_semantics.specs.Calls.{call};
ghost use Rattle.evaluator_state.specs.View.{world_of, here_of};
ghost use Rattle.syntax_tree.specs.View.{tree_of};
ghost use Rattle.evaluator_frames.specs.Going.{GetsLighter, LeadsOn, LeadsOnAnywhere};
ghost use Rattle.evaluator_frames.specs.Frames.{Goes, on, ex, valued, a_value, use_items, items_from, shared_trees, receiver_of, frame_does, calls_below, here_below, above, machine_does};
ghost use Rattle.evaluator_frames.specs.Weight.{frames_weight, control_weight};
ghost use Rattle.evaluator_frames.specs.declared.frame.Control.TheVariants as c;

use crate::begin::{begin, begin_parts};
use crate::frame::{Control, Frame, MethodCall, Purpose, Receiver, Series, Signal};
use crate::making::items_of;
use crate::once::one_item;
use crate::stack::push;
use base_types::Text;
use evaluator_direct::{are_quiet_at, values_at};
use evaluator_state::{Position, State, make_list, make_tuple, package_function};
use std::alloc::Global;
use std::sync::Arc;
use syntax_tree::Expr;
use values_heap::{Builtin, Halt, Val};
use values_semantics::faults;

// Begins a call of a value: a function of a file, a built-in function or a package call. Any other value is fault 5.
#[tactic(auto, unfolding(evaluator_semantics::specs::Expressions::apply))]
fn apply(line: usize, g: Val, xs: Vec<Val>, names: Arc<Vec<Text>, Global>) -> Result<Control, Halt>
    ensures goes { (env : Env) (n : ℕ) (here : Here) (w : World) (frames : List Frame)
        → Goes (on env n here line).site
        (above env n here
        (valued (e.apply env (call env n) g (plain_part xs.items (arc_value names).items)
        (named_part xs.items (arc_value names).items) (on env n here line))) frames w) result
        (λ control. machine_does env n here control frames w) }
    ensures light { IfOk result (λ control. control_weight control < 8) }
{
    match g {
        Val::Builtin(n) => {
            let f = Builtin::at_number(n);
            if f.is_package_call() {
                Ok(Control::Package {
                    line,
                    function: f,
                    arguments: xs,
                    names,
                })
            } else {
                Ok(Control::Builtin {
                    line,
                    function: f,
                    arguments: xs,
                    names,
                })
            }
        }
        Val::At(place) => Ok(Control::Enter {
            line,
            place,
            arguments: xs,
            names,
        }),
        _ => Err(Halt::Code(faults::WRONG_TYPE)),
    }
}

// Begins a call of a method. A method of `native` is a package call; one that it does not have is fault 5.
#[tactic(auto, unfolding(evaluator_semantics::specs::Expressions::apply_method))]
fn apply_method(
    alloc: Global,
    line: usize,
    r: Receiver,
    name: Text,
    xs: Vec<Val>,
    names: Arc<Vec<Text>, Global>,
) -> Result<Control, Halt>
    ensures goes { (env : Env) (n : ℕ) (here : Here) (w : World) (frames : List Frame)
        → Goes (on env n here line).site
        (above env n here
        (valued
        (e.apply_method env (receiver_of r) name (plain_part xs.items (arc_value names).items)
        (named_part xs.items (arc_value names).items) (on env n here line))) frames w) result
        (λ control. machine_does env n here control frames w) }
    ensures light { IfOk result (λ control. control_weight control < 8) }
{
    match r {
        Receiver::Native => match package_function(&name) {
            Some(f) => Ok(Control::Package {
                line,
                function: f,
                arguments: xs,
                names,
            }),
            None => Err(Halt::Code(faults::WRONG_TYPE)),
        },
        Receiver::Of(x) => {
            let call = MethodCall {
                receiver: x,
                name,
                arguments: xs,
                names,
            };
            let call = Box::new(alloc, call)?;
            Ok(Control::Method { line, call })
        }
    }
}

// Makes a tuple or a list of the values of several expressions, or begins a call with them.
fn use_items(state: &mut State, line: usize, xs: Vec<Val>, p: Purpose) -> Result<Control, Halt>
    ensures goes { LeadsOnAnywhere line
        (λ env n here frames. above env n here (valued (use_items env n here p xs.items line))
        frames (world_of state.old)) result state.new }
    ensures steps { IfOk result (λ _. state.new.heap.steps ≤ state.old.heap.steps) }
    ensures light { IfOk result (λ control. control_weight control < 8) }
{
    match p {
        Purpose::Tuple => Ok(Control::Signal(Signal::Value(make_tuple(&mut state.heap, xs)?))),
        Purpose::List => Ok(Control::Signal(Signal::Value(make_list(&mut state.heap, xs)?))),
        Purpose::Call(g, names) => apply(line, g, xs, names),
        Purpose::Method(r, name, names) => {
            apply_method(state.heap.alloc, line, r, name, xs, names)
        }
    }
}

/// Begins the arguments of a call, or the call itself if nothing in them can wait.
pub fn begin_arguments(
    state: &mut State,
    at: &Position,
    line: usize,
    es: &Arc<Vec<Expr>, Global>,
    purpose: Purpose,
) -> Result<Control, Halt>
    ensures goes { (env : Env) (n : ℕ) (running : List (List ℕ × List ℕ)) (frames : List Frame)
        → let here = here_of at.now at.now.line running in Goes (on env n here line).site
        (above env n here (valued (items_from env n here purpose (shared_trees es.now) [] line))
        frames (world_of state.old)) result (λ control. machine_does env n here control frames
        (world_of state.new)) }
    ensures steps { IfOk result (λ _. state.new.heap.steps ≤ state.old.heap.steps) }
    ensures light { IfOk result (λ control. control_weight control < 9) }
{
    if !are_quiet_at(state, at, es.as_slice()) {
        return items_of(state.heap.alloc, line, Arc::try_clone(es)?, purpose);
    }
    match values_at(state, at, es.as_slice()) {
        Ok(xs) => use_items(state, line, xs, purpose),
        Err(halt) => Err(halt),
    }
}

/// Begins an expression above a frame that waits for its value.
pub fn begin_above(
    state: &mut State,
    frames: &mut Vec<Frame>,
    at: &Position,
    frame: Frame,
    line: usize,
    e: &Expr,
) -> Result<Control, Halt>
    ensures goes { (env : Env) (n : ℕ) (running : List (List ℕ × List ℕ))
        → let here = here_of at.now at.now.line running in calls_below frame n ≡ n
        → here_below frame here ≡ here → Goes (on env n here line).site
        (then_runs (ex env n here (tree_of e.now) line (world_of state.old))
        (λ v. above env n here (frame_does env n here frame (a_value v)) frames.old.items)) result
        (λ control. machine_does env n here control frames.new.items (world_of state.new)) }
    ensures steps { IfOk result (λ _. state.new.heap.steps < state.old.heap.steps) }
{
    push(frames, frame)?;
    begin(state, frames, at, line, e)
}

/// Begins an expression with its first part, above a frame that waits for its value.
pub fn parts_above(
    state: &mut State,
    frames: &mut Vec<Frame>,
    at: &Position,
    frame: Frame,
    line: usize,
    e: &Expr,
) -> Result<Control, Halt>
    ensures goes { (env : Env) (n : ℕ) (running : List (List ℕ × List ℕ))
        → let here = here_of at.now at.now.line running in calls_below frame n ≡ n
        → here_below frame here ≡ here → Goes (on env n here line).site
        (then_runs (ex env n here (tree_of e.now) line (world_of state.old))
        (λ v. above env n here (frame_does env n here frame (a_value v)) frames.old.items)) result
        (λ control. machine_does env n here control frames.new.items (world_of state.new)) }
    ensures steps { IfOk result (λ _. state.new.heap.steps < state.old.heap.steps) }
{
    push(frames, frame)?;
    begin_parts(state, frames, at, line, e)
}

/// Goes on with several expressions.
pub fn next_item(
    state: &mut State,
    frames: &mut Vec<Frame>,
    at: &Position,
    line: usize,
    series: Box<Series>,
) -> Result<Control, Halt>
    ensures goes { LeadsOn at.now line (λ env n here. machine_does env n here (c.Items line series)
        frames.old.items (world_of state.old)) result frames.new.items state.new }
    ensures lighter { GetsLighter state.old (frames_weight frames.old.items + 8) result
        frames.new.items state.new }
{
    let now = &*series;
    let next = now.done.len();
    if next < now.items.len() {
        let all = Arc::try_clone(&now.items)?;
        return one_item(state, frames, at, line, series, &all[next]);
    }
    let series = Box::into_inner(series);
    use_items(state, line, series.done, series.purpose)
}
