//! What a frame does with the value that it waits for, where nothing is begun, and with what a target aims at.
ghost use Rattle.std.specs.Prelude.{◌≡◌, ◌≤◌, ◌+◌, ℕ, List, length, IfOk, IsOkUnless};
ghost use Rattle.values_objects.specs.declared.halt.Halt.TheVariants.{Memory};
ghost use Rattle.evaluator_semantics.specs.World.{World, Here};
ghost use Rattle.evaluator_semantics.specs.Environment.{Env};
ghost use Rattle.evaluator_state.specs.View.{world_of, here_of};
ghost use Rattle.evaluator_state.specs.AimView.{aim_of};
ghost use Rattle.evaluator_frames.specs.Going.{GetsLighter, LeadsOn, LeadsOnAnywhere, SpendsFor};
ghost use Rattle.evaluator_frames.specs.declared.frame.Frame.{Frame};
ghost use Rattle.evaluator_frames.specs.declared.frame.Frame.TheVariants as f;
ghost use Rattle.evaluator_frames.specs.Frames.{Goes, a_value, an_aim, on, frame_does, params_at, above, machine_does};
ghost use Rattle.evaluator_frames.specs.Weight.{frames_weight, frame_weight, control_weight};
ghost use Rattle.base_types.specs.Refusals.{memory};

use crate::frame::{Comprehension, Control, Exit, Frame, Gathering, Pairs, Signal, Turns};
use crate::items::begin_above;
use crate::stack::push;
use evaluator_state::{
    Collection, LValue, Position, State, add_entry, add_member, add_new_entry, index, is_true,
    read_lvalue, slice, store,
};
use std::alloc::Global;
use std::sync::Arc;
use syntax_tree::{BinaryOp, Branch, Def, Expr, Stmt};
use values_heap::{Halt, Val};

/// Adds an entry, of a key and its value, to those that are done.
pub fn entry_done(
    state: &mut State,
    line: usize,
    pairs: Box<Pairs>,
    next: usize,
    k: Val,
    x: Val,
) -> Result<Control, Halt>
    ensures goes { LeadsOnAnywhere line
        (λ env n here frames. above env n here (frame_does env n here (f.Entry line pairs next k)
        (a_value x)) frames (world_of state.old)) result state.new }
    ensures light { SpendsFor 3 state.old result state.new }
{
    let mut pairs = pairs;
    add_new_entry(&mut state.heap, &mut pairs.done, k, x)?;
    Ok(Control::Entries { line, pairs, next })
}

/// Takes the item of a value at an index.
pub fn index_done(state: &mut State, line: usize, v: Val, x: Val) -> Result<Control, Halt>
    ensures goes { LeadsOnAnywhere line
        (λ env n here frames. above env n here (frame_does env n here (f.Index line v) (a_value x))
        frames (world_of state.old)) result state.new }
    ensures light { SpendsFor 0 state.old result state.new }
{
    Ok(Control::Signal(Signal::Value(index(&mut state.heap, v, x)?)))
}

/// Takes the slice of a value between two bounds.
pub fn slice_done(state: &mut State, line: usize, v: Val, y: Val, x: Val) -> Result<Control, Halt>
    ensures goes { LeadsOnAnywhere line
        (λ env n here frames. above env n here (frame_does env n here (f.To line v y) (a_value x))
        frames (world_of state.old)) result state.new }
    ensures light { SpendsFor 0 state.old result state.new }
{
    Ok(Control::Signal(Signal::Value(slice(&mut state.heap, v, y, x)?)))
}

/// Begins the body of a branch if its condition holds, and goes on with the other branches if not.
pub fn branch_known(
    state: &State,
    ss: Arc<Vec<Stmt>, Global>,
    bs: Arc<Vec<Branch>, Global>,
    next: usize,
    other: Arc<Vec<Stmt>, Global>,
    x: Val,
) -> Result<Control, Halt>
    ensures goes { (env : Env) (n : ℕ) (here : Here) (line : ℕ) (frames : List Frame)
        → Goes (on env n here line).site
        (above env n here (frame_does env n here (f.Branch ss bs next other) (a_value x)) frames
        (world_of state.now)) result (λ control. machine_does env n here control frames
        (world_of state.now)) }
    ensures light { IfOk result (λ control. control_weight control ≤ 2) }
{
    let holds = is_true(&state.heap, x)?;
    if holds {
        Ok(Control::Suite { suite: ss, next: 0 })
    } else {
        Ok(Control::Branches {
            branches: bs,
            next,
            other,
        })
    }
}

/// Goes on with the clause behind a condition if it holds, and ends the turn if not.
pub fn clause_known(
    state: &State,
    line: usize,
    of: Arc<Comprehension, Global>,
    inner: usize,
    got: Box<Collection>,
    x: Val,
) -> Result<Control, Halt>
    ensures goes { LeadsOnAnywhere line
        (λ env n here frames. above env n here (frame_does env n here (f.Only line of inner got)
        (a_value x)) frames (world_of state.now)) result state.now }
    ensures light { IfOk result (λ control. control_weight control ≤ 1) }
{
    let holds = is_true(&state.heap, x)?;
    if holds {
        Ok(Control::Clauses {
            line,
            of,
            inner,
            got,
        })
    } else {
        Ok(Control::Signal(Signal::Gathered(got)))
    }
}

/// Adds a member to what a comprehension gathers.
pub fn member_gathered(line: usize, got: Box<Collection>, x: Val) -> Result<Control, Halt>
    ensures goes { (env : Env) (n : ℕ) (here : Here) (frames : List Frame) (w : World)
        → Goes (on env n here line).site
        (above env n here (frame_does env n here (f.OneMore line got) (a_value x)) frames w) result
        (λ control. machine_does env n here control frames w) }
    ensures light { IfOk result (λ control. control_weight control ≡ 0) }
{
    let mut got = got;
    if let Err(halt) = add_member(&mut got, x) {
        return Err(halt);
    }
    Ok(Control::Signal(Signal::Gathered(got)))
}

/// Adds an entry to what a comprehension gathers.
pub fn entry_gathered(
    state: &mut State,
    line: usize,
    k: Val,
    got: Box<Collection>,
    x: Val,
) -> Result<Control, Halt>
    ensures goes { LeadsOnAnywhere line
        (λ env n here frames. above env n here (frame_does env n here (f.OneEntry line k got)
        (a_value x)) frames (world_of state.old)) result state.new }
    ensures light { SpendsFor 0 state.old result state.new }
{
    let mut got = got;
    add_entry(&mut state.heap, &mut got, k, x)?;
    Ok(Control::Signal(Signal::Gathered(got)))
}

/// Adds the value of a default to those that are done.
pub fn default_done(
    line: usize,
    def: Arc<Def, Global>,
    next: usize,
    done: Vec<Val>,
    x: Val,
) -> Result<Control, Halt>
    ensures ok { IfOk result (λ control. (env : Env) (n : ℕ) (here : Here) (frames : List Frame)
        (w : World) → above env n here (frame_does env n here (f.Default line def next done)
        (a_value x)) frames w ≡ machine_does env n here control frames w) }
    ensures err { IsOkUnless result (Memory memory) }
    ensures light { IfOk result (λ control. control_weight control ≡ length (params_at next def)
        + 7) }
{
    let mut done = done;
    done.push(x)?;
    Ok(Control::Defaults {
        line,
        def,
        next,
        done,
    })
}

/// Adds what one of several targets aims at.
pub(crate) fn aim_done(
    line: usize,
    es: Arc<Vec<Expr>, Global>,
    done: Vec<LValue>,
    aim: LValue,
) -> Result<Control, Halt>
    ensures ok { IfOk result (λ control. (env : Env) (n : ℕ) (here : Here) (frames : List Frame)
        (w : World) → above env n here
        (frame_does env n here (f.Aims line es done) (an_aim (aim_of aim))) frames w
        ≡ machine_does env n here control frames w) }
    ensures err { IsOkUnless result (Memory memory) }
    ensures light { IfOk result (λ control. control_weight control + 1 ≡ frame_weight
        (f.Aims line es done)) }
{
    let mut done = done;
    done.push(aim)?;
    Ok(Control::Aims {
        line,
        targets: es,
        done,
    })
}

/// Stores a value in a target.
pub(crate) fn store_value(
    state: &mut State,
    at: &Position,
    line: usize,
    x: Val,
    aim: LValue,
) -> Result<Control, Halt>
    ensures goes { (env : Env) (n : ℕ) (running : List (List ℕ × List ℕ)) (frames : List Frame)
        → let here = here_of at.now at.now.line running in Goes (on env n here line).site
        (above env n here (frame_does env n here (f.Store line x) (an_aim (aim_of aim))) frames
        (world_of state.old)) result (λ control. machine_does env n here control frames
        (world_of state.new)) }
    ensures light { SpendsFor 0 state.old result state.new }
{
    if let Err(halt) = store(state, at, &aim, x) {
        return Err(halt);
    }
    Ok(Control::Signal(Signal::Exit(Exit::GoesOn)))
}

/// Takes the present value of a target, and begins the right side.
pub(crate) fn augment(
    state: &mut State,
    frames: &mut Vec<Frame>,
    at: &Position,
    line: usize,
    op: BinaryOp,
    e: Arc<Expr, Global>,
    aim: LValue,
) -> Result<Control, Halt>
    ensures goes { LeadsOn at.now line
        (λ env n here. above env n here
        (frame_does env n here (f.Augment line op e) (an_aim (aim_of aim))) frames.old.items
        (world_of state.old)) result frames.new.items state.new }
    ensures lighter { GetsLighter state.old (frames_weight frames.old.items + 2) result
        frames.new.items state.new }
{
    let x = match read_lvalue(state, at, &aim) {
        Ok(x) => x,
        Err(halt) => return Err(halt),
    };
    let aim = Box::new(state.heap.alloc, aim)?;
    begin_above(
        state,
        frames,
        at,
        Frame::Change {
            line,
            op,
            aim,
            old: x,
        },
        line,
        &e,
    )
}

/// Stores the value of a turn in its target, and begins the body.
pub(crate) fn begin_body(
    state: &mut State,
    frames: &mut Vec<Frame>,
    at: &Position,
    turns: Box<Turns>,
    x: Val,
    aim: LValue,
) -> Result<Control, Halt>
    ensures goes { LeadsOn at.now turns.value.line
        (λ env n here. above env n here
        (frame_does env n here (f.Turn turns x) (an_aim (aim_of aim))) frames.old.items
        (world_of state.old)) result frames.new.items state.new }
    ensures lighter { GetsLighter state.old (frames_weight frames.old.items + 8) result
        frames.new.items state.new }
{
    if let Err(halt) = store(state, at, &aim, x) {
        return Err(halt);
    }
    let body = Arc::try_clone(&turns.body)?;
    push(frames, Frame::Turns(turns))?;
    Ok(Control::Suite {
        suite: body,
        next: 0,
    })
}

/// Stores the value of a turn of a clause in its target, and begins the clause behind it.
pub(crate) fn begin_clause(
    state: &mut State,
    frames: &mut Vec<Frame>,
    at: &Position,
    turns: Box<Gathering>,
    x: Val,
    got: Box<Collection>,
    aim: LValue,
) -> Result<Control, Halt>
    ensures goes { LeadsOn at.now turns.value.line
        (λ env n here. above env n here
        (frame_does env n here (f.Aimed turns x got) (an_aim (aim_of aim))) frames.old.items
        (world_of state.old)) result frames.new.items state.new }
    ensures lighter { GetsLighter state.old (frames_weight frames.old.items + 8) result
        frames.new.items state.new }
{
    if let Err(halt) = store(state, at, &aim, x) {
        return Err(halt);
    }
    let of = Arc::try_clone(&turns.of)?;
    let line = turns.line;
    let inner = turns.inner;
    push(frames, Frame::Gather(turns))?;
    Ok(Control::Clauses {
        line,
        of,
        inner,
        got,
    })
}
