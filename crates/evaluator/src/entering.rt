//! How a call of a function of a file begins, and how it ends.
ghost use Rattle.std.specs.Prelude.{◌≡◌, ◌≤◌, ◌<◌, ◌+◌, ◌++◌, ◌∷◌, [], ℕ, IfOk, OnErr, IsOkUnless};
ghost use Rattle.values_objects.specs.declared.halt.Halt.TheVariants.{Memory};
ghost use Rattle.evaluator_state.specs.View.{world_of};
ghost use Rattle.evaluator_semantics.specs.Calls.{call};
ghost use Rattle.evaluator_semantics.specs.Expressions.{call_object};
ghost use Rattle.values_semantics.specs.Heap.{at};
ghost use Rattle.values_heap.specs.View.{store_of};
ghost use Rattle.std.specs.Arc.{arc_value};
ghost use Rattle.syntax_tree.specs.Statements.{fn_of};
ghost use Rattle.evaluator_semantics.specs.Arguments.{plain_part, named_part};
ghost use Rattle.evaluator_semantics.specs.Environment.{Env, path_of};
ghost use Rattle.evaluator_frames.specs.Frames.{Goes, on, valued, above, machine_does};
ghost use Rattle.evaluator_frames.specs.Weight.{frames_weight, control_weight};
ghost use Rattle.evaluator_frames.specs.declared.frame.Control.TheVariants as c;
ghost use Rattle.evaluator_frames.specs.declared.frame.Frame.TheVariants as f;
ghost use Rattle.evaluator.specs.Machines.{Under, means, here_in};
ghost use Rattle.evaluator.specs.Finding.{calls_on, IsFunction};
ghost use Rattle.evaluator.specs.Entering.{BeginsBody, AddsCaller};
ghost use Rattle.base_types.specs.Refusals.{memory};

use crate::finding::find;
use crate::machine::Machine;
use crate::setting::Setting;
use base_types::Text;
use evaluator_calls::{ActiveCall, call_block, defaults_of, ensure_names, is_running};
use evaluator_frames::{Caller, Control, Frame, Signal, given_by, push};
use evaluator_state::{Block, Position};
use std::alloc::Global;
use std::mem;
use std::sync::Arc;
use syntax_grammar::FileKind;
use syntax_tree::Def;
use values_heap::{Bytes, Halt, Heap, ObjectRef, Val};
use values_semantics::faults;

// A function of the heap: the label of its file, and its name.
#[derive(Drop)]
struct FunctionName {
    label: Text,
    name: Bytes,
}

// Returns the function that stands at a place of the heap, or fault 5.
fn function_at(heap: &Heap, place: usize) -> Result<FunctionName, Halt>
    ensures { IsFunction (at place (store_of heap.now)) result }
{
    match heap.object(place)? {
        Some(ObjectRef::Function(label, name)) => Ok(FunctionName {
            label: label.share()?,
            name: Bytes::of_text(name.share()?),
        }),
        _ => Err(Halt::Code(faults::WRONG_TYPE)),
    }
}

/// Begins a call of a function of a file, which stands on the heap.
pub fn enter(
    m: &mut Machine,
    e: &Setting<'_>,
    line: usize,
    place: usize,
    xs: &[Val],
    names: &[Text],
) -> Result<Control, Halt>
    ensures goes { Under e.now (λ env. let here = on env m.old.left (here_in m.old) line in
        Goes here.site
        (above env m.old.left (here_in m.old)
        (valued (λ w. call_object (call env m.old.left) (at place w.store)
        (plain_part xs.now names.now) (named_part xs.now names.now) here w)) m.old.frames.items
        (world_of m.old.state)) result (λ control. means env m.new control)) }
    ensures light { IfOk result (λ control. (m.new.state.heap.steps ≤ m.old.state.heap.steps)
        × (frames_weight m.new.frames.items + control_weight control
        ≤ frames_weight m.old.frames.items + 5)) }
    ensures stands { OnErr result (m.new.at ≡ m.old.at) }
{
    let FunctionName { label, name } = match function_at(&m.state.heap, place) {
        Ok(called) => called,
        Err(halt) => return Err(halt),
    };
    if let Err(halt) = ensure_names(
        &mut m.state,
        e.given().loads.as_slice(),
        e.reached(),
        &label,
    ) {
        return Err(halt);
    }
    match find(e, &label, &name)? {
        Some(found) => call(m, label, found.path, &found.def, xs, names),
        None => Err(Halt::Code(faults::WRONG_TYPE)),
    }
}

// Calls a function of the file with a label.
fn call(
    m: &mut Machine,
    label: Text,
    path: Text,
    def: &Arc<Def, Global>,
    xs: &[Val],
    names: &[Text],
) -> Result<Control, Halt>
    ensures goes { (env : Env) (line : ℕ) → path ≡ path_of env label → let here = here_in m.old in
        let f = fn_of (arc_value def.now) in Goes (on env m.old.left here line).site
        (above env m.old.left here
        (valued (calls_on env m.old.left label f (plain_part xs.now names.now)
        (named_part xs.now names.now) (on env m.old.left here line))) m.old.frames.items
        (world_of m.old.state)) result (λ control. means env m.new control) }
    ensures light { IfOk result (λ control. (m.new.state.heap.steps ≤ m.old.state.heap.steps)
        × (frames_weight m.new.frames.items + control_weight control
        ≤ frames_weight m.old.frames.items + 5)) }
    ensures stands { OnErr result (m.new.at ≡ m.old.at) }
{
    let alloc = m.state.heap.alloc;
    let defaults = defaults_of(&m.state, &label, &def.name);
    let block = match call_block(alloc, def, xs, names, defaults) {
        Ok(block) => block,
        Err(halt) => return Err(halt),
    };
    if is_running(m.running.as_slice(), &label, &def.name) {
        return Err(Halt::Code(faults::RECURSION));
    }
    if m.left == 0 {
        return Err(Halt::Code(faults::TOO_DEEP));
    }
    begin_body(m, label, path, def, block)
}

// Begins the body of a function.
fn begin_body(
    m: &mut Machine,
    label: Text,
    path: Text,
    def: &Def,
    block: Block,
) -> Result<Control, Halt>
    requires { 0 < m.old.left }
    ensures goes { IfOk result (BeginsBody m.old m.new label path (fn_of def.now) block) }
    ensures stands { OnErr result (m.new.at ≡ m.old.at) }
    ensures err { IsOkUnless result (Memory memory) }
    ensures light { IfOk result (AddsCaller m.old m.new) }
{
    let mut blocks = Vec::new(m.state.heap.alloc);
    blocks.push(block)?;
    let open = ActiveCall {
        label: label.share()?,
        name: def.name.share()?,
    };
    let caller = copy_of(&m.at)?;
    let body = Arc::try_clone(&def.body)?;
    m.running.push(open)?;
    let callers = mem::replace(&mut m.state.blocks, blocks);
    let caller = Caller {
        at: caller,
        blocks: callers,
        left: m.left,
    };
    let back = Box::new(m.state.heap.alloc, caller)?;
    push(&mut m.frames, Frame::Leave(back))?;
    m.left -= 1;
    m.at = Position {
        label,
        path,
        kind: FileKind::Bzl,
        line: def.line,
    };
    Ok(Control::Suite {
        suite: body,
        next: 0,
    })
}

// Returns the same place of code.
fn copy_of(at: &Position) -> Result<Position, Halt>
    ensures ok { IfOk result (λ copy. copy ≡ at.now) }
    ensures err { IsOkUnless result (Memory memory) }
{
    Ok(Position {
        label: at.label.share()?,
        path: at.path.share()?,
        kind: at.kind,
        line: at.line,
    })
}

/// Ends a call, and returns what it gives. The caller goes on where it stood, with its own blocks and the number of calls
/// that may be open there.
pub fn leave(m: &mut Machine, caller: Box<Caller>, signal: Signal) -> Signal
    ensures goes { (env : Env) → machine_does env m.old.left (here_in m.old) (c.Signal signal)
        (m.old.frames.items ++ f.Leave caller ∷ []) (world_of m.old.state)
        ≡ means env m.new (c.Signal result) }
    ensures steps { m.new.state.heap ≡ m.old.state.heap }
    ensures frames { m.new.frames ≡ m.old.frames }
{
    let caller = Box::into_inner(caller);
    m.at = caller.at;
    m.state.blocks = caller.blocks;
    m.left = caller.left;
    let ended = m.running.pop();
    drop(ended);
    given_by(signal)
}
