//! What begins with nothing done: items, entries and loops.
ghost use Rattle.std.specs.Prelude.{◌≡◌, ◌<◌, ◌+◌, ◌^◌, ℕ, List, [], IfOk, IsOkUnless};
ghost use Rattle.values_objects.specs.declared.halt.Halt.TheVariants.{Memory};
ghost use Rattle.std.specs.Arc.{arc_value};
ghost use Rattle.evaluator_semantics.specs.World.{World, Here};
ghost use Rattle.evaluator_semantics.specs.Environment.{Env};
ghost use Rattle.evaluator_semantics.specs.Calls.{call};
ghost use Rattle.evaluator_semantics.specs.Statements as s;
ghost use Rattle.evaluator_semantics.specs.Loops.{over};
ghost use Rattle.syntax_tree.specs.View.{shared_tree};
ghost use Rattle.evaluator_state.specs.View.{world_of};
ghost use Rattle.evaluator_state.specs.AimView.{gathered_of};
ghost use Rattle.evaluator_frames.specs.Going.{LeadsOnAnywhere, SpendsFor};
ghost use Rattle.evaluator_frames.specs.declared.frame.Frame.{Frame};
ghost use Rattle.evaluator_frames.specs.Frames.{on, valued, exited, gathered, shared_trees, shared_suite, body, items_from, entries_from, each_does, above, machine_does};
ghost use Rattle.evaluator_frames.specs.Weight.{control_weight};
ghost use Rattle.base_types.specs.Refusals.{memory};

use crate::frame::{Comprehension, Control, Gathering, Pairs, Purpose, Series, Turns};
use evaluator_state::{Collection, State, items, lock};
use indexmap::IndexMap;
use std::alloc::Global;
use std::sync::Arc;
use syntax_tree::{Expr, Stmt};
use values_heap::{Halt, Val};

/// Makes a series of expressions, of which none is done.
pub fn items_of(
    alloc: Global,
    line: usize,
    items: Arc<Vec<Expr>, Global>,
    purpose: Purpose,
) -> Result<Control, Halt>
    ensures ok { IfOk result (λ control. (env : Env) (n : ℕ) (here : Here) (frames : List Frame)
        (w : World) → above env n here
        (valued (items_from env n here purpose (shared_trees items) [] line)) frames w
        ≡ machine_does env n here control frames w) }
    ensures err { IsOkUnless result (Memory memory) }
    ensures light { IfOk result (λ control. control_weight control ≡ 8) }
{
    let series = Series {
        items,
        done: Vec::new(alloc),
        purpose,
    };
    Ok(Control::Items {
        line,
        series: Box::new(alloc, series)?,
    })
}

/// Makes the entries of a dictionary, of which none is done.
pub fn entries_of(
    alloc: Global,
    line: usize,
    keys: Arc<Vec<Expr>, Global>,
    values: Arc<Vec<Expr>, Global>,
) -> Result<Control, Halt>
    ensures ok { IfOk result (λ control. (env : Env) (n : ℕ) (here : Here) (frames : List Frame)
        (w : World) → above env n here
        (valued (entries_from env n here (shared_trees keys) (shared_trees values) [] line)) frames
        w ≡ machine_does env n here control frames w) }
    ensures err { IsOkUnless result (Memory memory) }
    ensures light { IfOk result (λ control. control_weight control ≡ 3) }
{
    let pairs = Pairs {
        keys,
        values,
        done: IndexMap::new(alloc),
    };
    Ok(Control::Entries {
        line,
        pairs: Box::new(alloc, pairs)?,
        next: 0,
    })
}

/// Locks a value and makes a loop over its members, before its first turn.
pub fn turns_over(
    state: &mut State,
    line: usize,
    target: Arc<Expr, Global>,
    statements: Arc<Vec<Stmt>, Global>,
    x: Val,
) -> Result<Control, Halt>
    ensures goes { LeadsOnAnywhere line
        (λ env n here frames. above env n here
        (exited
        (over x
        (s.turns (s.turn env (call env n) (shared_tree target)
        (body env n here (shared_suite statements)) (on env n here line))) (on env n here line)))
        frames (world_of state.old)) result state.new }
    ensures light { SpendsFor 1 state.old result state.new }
{
    let members = items(&state.heap, x)?;
    lock(&mut state.heap, x)?;
    let turns = Turns {
        line,
        target,
        body: statements,
        over: x,
        items: members,
        next: 0,
    };
    Ok(Control::Turns(Box::new(state.heap.alloc, turns)?))
}

/// Locks a value and makes a further clause over its members, before its first turn.
pub fn clause_over(
    state: &mut State,
    line: usize,
    target: Arc<Expr, Global>,
    of: Arc<Comprehension, Global>,
    inner: usize,
    got: Box<Collection>,
    x: Val,
) -> Result<Control, Halt>
    ensures goes { LeadsOnAnywhere line
        (λ env n here frames. above env n here
        (gathered (each_does env n here (shared_tree target) (arc_value of) inner line
        (gathered_of got.value) x)) frames (world_of state.old)) result state.new }
    ensures light { SpendsFor 1 state.old result state.new }
{
    let members = items(&state.heap, x)?;
    lock(&mut state.heap, x)?;
    let turns = Gathering {
        line,
        target,
        of,
        inner,
        over: x,
        items: members,
        next: 0,
    };
    Ok(Control::Gather(Box::new(state.heap.alloc, turns)?, got))
}

/// Returns the same loop, one member further.
pub fn next_turns(turns: Box<Turns>) -> Box<Turns>
    requires { turns.value.next + 1 < 2 ^ 64 }
    ensures { result.value ≡ record turns.value { next = turns.value.next + 1 } }
{
    let mut turns = turns;
    turns.next += 1;
    turns
}

/// Returns the same clause, one member further.
pub fn next_gathering(turns: Box<Gathering>) -> Box<Gathering>
    requires { turns.value.next + 1 < 2 ^ 64 }
    ensures { result.value ≡ record turns.value { next = turns.value.next + 1 } }
{
    let mut turns = turns;
    turns.next += 1;
    turns
}
