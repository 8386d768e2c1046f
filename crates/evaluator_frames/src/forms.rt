//! How the forms of expressions begin, behind the step that each takes.
ghost use Rattle.std.specs.Prelude.{◌≡◌, ◌≤◌, ℕ, List, [], IfOk, IsOkUnless};
ghost use Rattle.std.specs.Arc.{arc_value};
ghost use Rattle.values_objects.specs.declared.halt.Halt.TheVariants.{Memory};
ghost use Rattle.values_semantics.specs.Heap.{makes_text};
ghost use Rattle.evaluator_semantics.specs.World.{World, Here, on_heap};
ghost use Rattle.evaluator_semantics.specs.Names.{is_native_name};
ghost use Rattle.evaluator_semantics.specs.Calls.{call};
ghost use Rattle.evaluator_semantics.specs.Environment.{Env};
ghost use Rattle.evaluator_semantics.specs.Expressions as e;
ghost use Rattle.syntax_tree.specs.View.{tree_of, shared_tree, bound_tree, clause_trees};
ghost use Rattle.evaluator_state.specs.View.{world_of, here_of};
ghost use Rattle.evaluator_frames.specs.Going.{LeadsOn};
ghost use Rattle.evaluator_frames.specs.declared.frame.Frame.{Frame};
ghost use Rattle.evaluator_frames.specs.Frames.{Goes, on, valued, gathered, item_does, items_from, entries_from, method_does, unary_does, binary_does, choice_does, index_does, slice_does, call_does, list_of_does, dict_of_does, shared_trees, above, machine_does};
ghost use Rattle.base_types.specs.Refusals.{memory};

use crate::frame::{Comprehension, Control, Frame, Item, Purpose, Receiver, Signal};
use crate::items::begin_arguments;
use crate::making::{entries_of, items_of};
use crate::once::{at_once, value_above};
use crate::stack::{eval_above, push};
use base_types::Text;
use evaluator_state::{Position, State, is_native_name, make_text, tick};
use std::alloc::Global;
use std::sync::Arc;
use syntax_tree::{BinaryOp, Clause, Expr, UnaryOp};
use values_heap::{Halt, Val};
use values_semantics::faults;

/// Makes the value of a string.
pub fn text_value(state: &mut State, x: &Text) -> Result<Control, Halt>
    ensures goes { (env : Env) (n line : ℕ) (here : Here) (frames : List Frame)
        → Goes (on env n here line).site
        (above env n here (valued (on_heap (on env n here line) (makes_text x.now))) frames
        (world_of state.old)) result (λ control. machine_does env n here control frames
        (world_of state.new)) }
    ensures steps { IfOk result (λ _. state.new.heap.steps ≤ state.old.heap.steps) }
{
    Ok(Control::Signal(Signal::Value(make_text(&mut state.heap, x)?)))
}

/// Begins several expressions.
pub fn begin_items(
    alloc: Global,
    line: usize,
    es: &Arc<Vec<Expr>, Global>,
    purpose: Purpose,
) -> Result<Control, Halt>
    ensures ok { IfOk result (λ control. (env : Env) (n : ℕ) (here : Here) (frames : List Frame)
        (w : World) → above env n here
        (valued (items_from env n here purpose (shared_trees es.now) [] line)) frames w
        ≡ machine_does env n here control frames w) }
    ensures err { IsOkUnless result (Memory memory) }
{
    items_of(alloc, line, Arc::try_clone(es)?, purpose)
}

/// Begins a dictionary.
pub fn begin_dict(
    alloc: Global,
    line: usize,
    ks: &Arc<Vec<Expr>, Global>,
    vs: &Arc<Vec<Expr>, Global>,
) -> Result<Control, Halt>
    ensures ok { IfOk result (λ control. (env : Env) (n : ℕ) (here : Here) (frames : List Frame)
        (w : World) → above env n here
        (valued (entries_from env n here (shared_trees ks.now) (shared_trees vs.now) [] line))
        frames w ≡ machine_does env n here control frames w) }
    ensures err { IsOkUnless result (Memory memory) }
{
    let keys = Arc::try_clone(ks)?;
    entries_of(alloc, line, keys, Arc::try_clone(vs)?)
}

/// Begins an operator before an expression.
#[tactic(auto, using(crate::proofs::Bind::under))]
pub fn begin_unary(
    frames: &mut Vec<Frame>,
    line: usize,
    op: UnaryOp,
    a: &Arc<Expr, Global>,
) -> Result<Control, Halt>
    ensures goes { (env : Env) (n : ℕ) (here : Here) (w : World) → Goes (on env n here line).site
        (above env n here (valued (unary_does env n here op (shared_tree a.now) line))
        frames.old.items w) result (λ control. machine_does env n here control frames.new.items w) }
{
    eval_above(frames, Frame::Unary { line, op }, line, a)
}

/// Begins an operator between two expressions.
pub fn begin_binary(
    state: &mut State,
    frames: &mut Vec<Frame>,
    at: &Position,
    line: usize,
    op: BinaryOp,
    a: &Arc<Expr, Global>,
    b: &Arc<Expr, Global>,
) -> Result<Control, Halt>
    ensures goes { LeadsOn at.now line
        (λ env n here. above env n here
        (valued (binary_does env n here op (shared_tree a.now) (shared_tree b.now) line))
        frames.old.items (world_of state.old)) result frames.new.items state.new }
    ensures steps { IfOk result (λ _. state.new.heap.steps ≤ state.old.heap.steps) }
{
    let right = Arc::try_clone(b)?;
    value_above(state, frames, at, Frame::Right { line, op, right }, line, a)
}

/// Begins a choice between two expressions.
#[tactic(auto, using(crate::proofs::Bind::under))]
pub fn begin_choice(
    frames: &mut Vec<Frame>,
    line: usize,
    a: &Arc<Expr, Global>,
    condition: &Arc<Expr, Global>,
    b: &Arc<Expr, Global>,
) -> Result<Control, Halt>
    ensures goes { (env : Env) (n : ℕ) (here : Here) (w : World) → Goes (on env n here line).site
        (above env n here
        (valued (choice_does env n here (shared_tree a.now) (shared_tree condition.now)
        (shared_tree b.now) line)) frames.old.items w) result
        (λ control. machine_does env n here control frames.new.items w) }
{
    let first = Arc::try_clone(a)?;
    let second = Arc::try_clone(b)?;
    eval_above(
        frames,
        Frame::Choice {
            line,
            chosen: first,
            other: second,
        },
        line,
        condition,
    )
}

/// Begins an index.
#[tactic(auto, using(crate::proofs::Bind::under))]
pub fn begin_index(
    state: &mut State,
    frames: &mut Vec<Frame>,
    at: &Position,
    line: usize,
    a: &Arc<Expr, Global>,
    i: &Arc<Expr, Global>,
) -> Result<Control, Halt>
    ensures goes { LeadsOn at.now line
        (λ env n here. above env n here
        (valued (index_does env n here (shared_tree a.now) (shared_tree i.now) line))
        frames.old.items (world_of state.old)) result frames.new.items state.new }
    ensures steps { IfOk result (λ _. state.new.heap.steps ≤ state.old.heap.steps) }
{
    let index = Arc::try_clone(i)?;
    value_above(state, frames, at, Frame::Indexed { line, index }, line, a)
}

/// Begins a slice.
#[tactic(auto, using(crate::proofs::Bind::under))]
pub fn begin_slice(
    frames: &mut Vec<Frame>,
    line: usize,
    a: &Arc<Expr, Global>,
    i: &Option<Arc<Expr, Global>>,
    j: &Option<Arc<Expr, Global>>,
) -> Result<Control, Halt>
    ensures goes { (env : Env) (n : ℕ) (here : Here) (w : World) → Goes (on env n here line).site
        (above env n here
        (valued (slice_does env n here (shared_tree a.now) (bound_tree i.now) (bound_tree j.now)
        line)) frames.old.items w) result
        (λ control. machine_does env n here control frames.new.items w) }
{
    let from = share_bound(i)?;
    let to = share_bound(j)?;
    eval_above(frames, Frame::Sliced { line, from, to }, line, a)
}

/// Begins a call.
#[tactic(auto, using(crate::proofs::Bind::under))]
pub fn begin_call(
    state: &mut State,
    frames: &mut Vec<Frame>,
    at: &Position,
    line: usize,
    f: &Arc<Expr, Global>,
    es: &Arc<Vec<Expr>, Global>,
    names: &Arc<Vec<Text>, Global>,
) -> Result<Control, Halt>
    ensures goes { LeadsOn at.now line
        (λ env n here. above env n here
        (valued (call_does env n here (shared_tree f.now) (shared_trees es.now)
        (arc_value names.now).items line)) frames.old.items (world_of state.old)) result
        frames.new.items state.new }
    ensures steps { IfOk result (λ _. state.new.heap.steps ≤ state.old.heap.steps) }
{
    let names = Arc::try_clone(names)?;
    match at_once(state, at, f) {
        Ok(Some(g)) => begin_arguments(state, at, line, es, Purpose::Call(g, names)),
        Ok(None) => {
            let all = Arc::try_clone(es)?;
            eval_above(
                frames,
                Frame::Called {
                    line,
                    arguments: all,
                    names,
                },
                line,
                f,
            )
        }
        Err(halt) => Err(halt),
    }
}

/// Begins a comprehension of a list.
pub fn begin_list_of(
    state: &mut State,
    frames: &mut Vec<Frame>,
    line: usize,
    e: &Arc<Expr, Global>,
    clauses: &Arc<Vec<Clause>, Global>,
) -> Result<Control, Halt>
    ensures goes { (env : Env) (n : ℕ) (here : Here) → Goes (on env n here line).site
        (above env n here
        (valued
        (list_of_does env n here (shared_tree e.now) (clause_trees (arc_value clauses.now).items)
        line)) frames.old.items (world_of state.old)) result
        (λ control. machine_does env n here control frames.new.items (world_of state.new)) }
    ensures steps { state.new ≡ state.old }
{
    let item = Item::Member(Arc::try_clone(e)?);
    push(frames, Frame::MakeList(line))?;
    begin_comprehension(state, frames, line, item, clauses)
}

/// Begins a comprehension of a dictionary.
pub fn begin_dict_of(
    state: &mut State,
    frames: &mut Vec<Frame>,
    line: usize,
    k: &Arc<Expr, Global>,
    e: &Arc<Expr, Global>,
    clauses: &Arc<Vec<Clause>, Global>,
) -> Result<Control, Halt>
    ensures goes { (env : Env) (n : ℕ) (here : Here) → Goes (on env n here line).site
        (above env n here
        (valued (dict_of_does env n here (shared_tree k.now) (shared_tree e.now)
        (clause_trees (arc_value clauses.now).items) line)) frames.old.items (world_of state.old))
        result (λ control. machine_does env n here control frames.new.items (world_of state.new)) }
    ensures steps { state.new ≡ state.old }
{
    let key = Arc::try_clone(k)?;
    let item = Item::Entry(key, Arc::try_clone(e)?);
    push(frames, Frame::MakeDict(line))?;
    begin_comprehension(state, frames, line, item, clauses)
}

// Returns the same bound, shared.
fn share_bound(bound: &Option<Arc<Expr, Global>>) -> Result<Option<Arc<Expr, Global>>, Halt>
    ensures ok { IfOk result (λ b. bound_tree b ≡ bound_tree bound.now) }
    ensures err { IsOkUnless result (Memory memory) }
{
    match bound {
        Some(e) => Ok(Some(Arc::try_clone(e)?)),
        None => Ok(None),
    }
}

// Begins a comprehension, which gathers items.
fn begin_comprehension(
    state: &mut State,
    frames: &mut Vec<Frame>,
    line: usize,
    item: Item,
    clauses: &Arc<Vec<Clause>, Global>,
) -> Result<Control, Halt>
    ensures goes { (env : Env) (n : ℕ) (here : Here) → Goes (on env n here line).site
        (above env n here
        (gathered (e.comprehension env (call env n) (clause_trees (arc_value clauses.now).items)
        (item_does env n here item line) (on env n here line))) frames.old.items
        (world_of state.old)) result (λ control. machine_does env n here control frames.new.items
        (world_of state.new)) }
    ensures steps { state.new ≡ state.old }
{
    match clauses.as_slice().first() {
        Some(Clause::For(target, sequence)) => {
            let of = Comprehension {
                item,
                clauses: Arc::try_clone(clauses)?,
            };
            let of = Arc::new(state.heap.alloc, of)?;
            let frame = Frame::First {
                line,
                target: Arc::try_clone(target)?,
                of,
            };
            eval_above(frames, frame, line, sequence)
        }
        Some(Clause::If(_)) => Err(Halt::Code(faults::WRONG_TYPE)),
        None => Err(Halt::Code(faults::WRONG_TYPE)),
    }
}

// Returns whether an expression before a dot is `native`.
fn is_native(state: &State, at: &Position, e: &Expr) -> bool
    ensures { (line : ℕ) (running : List (List ℕ × List ℕ)) → result ≡ is_native_name
        (tree_of e.now) (here_of at.now line running) (world_of state.now) }
{
    match e {
        Expr::Name(x, last) => is_native_name(state, at, x, last),
        _ => false,
    }
}

/// Begins a call of a method.
#[tactic(auto, unfolding(evaluator_semantics::specs::World::tick))]
pub fn begin_method(
    state: &mut State,
    frames: &mut Vec<Frame>,
    at: &Position,
    line: usize,
    x: &Arc<Expr, Global>,
    name: &Text,
    es: &Arc<Vec<Expr>, Global>,
    names: &Arc<Vec<Text>, Global>,
) -> Result<Control, Halt>
    ensures goes { LeadsOn at.now line
        (λ env n here. above env n here
        (valued (method_does env n here (shared_tree x.now) name.now (shared_trees es.now)
        (arc_value names.now).items line)) frames.old.items (world_of state.old)) result
        frames.new.items state.new }
    ensures steps { IfOk result (λ _. state.new.heap.steps ≤ state.old.heap.steps) }
{
    let names = Arc::try_clone(names)?;
    let name = name.share()?;
    if is_native(state, at, x) {
        tick(&mut state.heap)?;
        let purpose = Purpose::Method(Receiver::Native, name, names);
        return begin_arguments(state, at, line, es, purpose);
    }
    let all = Arc::try_clone(es)?;
    value_above(
        state,
        frames,
        at,
        Frame::On {
            line,
            name,
            arguments: all,
            names,
        },
        line,
        x,
    )
}
