//! How targets go on: their operands are evaluated from left to right.
ghost use Rattle.std.specs.Prelude.{◌≡◌, ◌<◌, ◌+◌, ℕ, List, IfOk, IsOkUnless};
ghost use Rattle.values_objects.specs.declared.halt.Halt.TheVariants.{Memory};
ghost use Rattle.evaluator_semantics.specs.World.{World, Here, then_runs};
ghost use Rattle.evaluator_semantics.specs.Environment.{Env};
ghost use Rattle.syntax_tree.specs.View.{tree_of, shared_tree};
ghost use Rattle.evaluator_state.specs.View.{world_of};
ghost use Rattle.evaluator_frames.specs.Going.{GetsLighter, LeadsOn};
ghost use Rattle.evaluator_frames.specs.Frames.{Goes, on, an_aim, aimed, aims_at, frame_does, calls_below, here_below, above, machine_does};
ghost use Rattle.evaluator_frames.specs.Weight.{frames_weight, control_weight, aim_size};
ghost use Rattle.evaluator_frames.specs.declared.frame.Control.TheVariants as c;
ghost use Rattle.base_types.specs.Refusals.{memory};

use crate::frame::{Control, Frame, Signal};
use crate::items::begin_above;
use crate::stack::push;
use evaluator_state::{LValue, Position, State, slot};
use std::alloc::Global;
use std::sync::Arc;
use std::sync::atomic::Ordering;
use syntax_tree::Expr;
use values_heap::Halt;
use values_semantics::faults;

/// Pushes a frame that waits for what a target aims at. The target comes next.
pub fn aim_above(
    frames: &mut Vec<Frame>,
    frame: Frame,
    line: usize,
    e: &Arc<Expr, Global>,
) -> Result<Control, Halt>
    ensures ok { IfOk result (λ control. (env : Env) (n : ℕ) (here : Here) (w : World)
        → calls_below frame n ≡ n → here_below frame here ≡ here
        → then_runs (aims_at env n here (shared_tree e.now) line w)
        (λ a. above env n here (frame_does env n here frame (an_aim a)) frames.old.items)
        ≡ machine_does env n here control frames.new.items w) }
    ensures err { IsOkUnless result (Memory memory) }
{
    push(frames, frame)?;
    Ok(Control::Aim {
        line,
        target: Arc::try_clone(e)?,
    })
}

/// Begins a target.
pub fn begin_aim(
    state: &mut State,
    frames: &mut Vec<Frame>,
    at: &Position,
    line: usize,
    e: &Expr,
) -> Result<Control, Halt>
    ensures goes { LeadsOn at.now line
        (λ env n here. above env n here (aimed (aims_at env n here (tree_of e.now) line))
        frames.old.items (world_of state.old)) result frames.new.items state.new }
    ensures lighter { GetsLighter state.old
        (frames_weight frames.old.items + aim_size (tree_of e.now)) result frames.new.items
        state.new }
{
    match e {
        Expr::Name(x, last) => {
            // The name is looked for, so that its place is known from here on.
            let _slot = slot(state, at, x, last);
            let place = last.load(Ordering::Relaxed);
            Ok(Control::Signal(Signal::Aim(LValue::Name {
                name: x.share()?,
                place,
            })))
        }
        Expr::Index(a, i) => {
            let frame = Frame::Container {
                line,
                index: Arc::try_clone(i)?,
            };
            begin_above(state, frames, at, frame, line, a)
        }
        Expr::Tuple(es) => Ok(Control::Aims {
            line,
            targets: Arc::try_clone(es)?,
            done: Vec::new(state.heap.alloc),
        }),
        Expr::List(es) => Ok(Control::Aims {
            line,
            targets: Arc::try_clone(es)?,
            done: Vec::new(state.heap.alloc),
        }),
        _ => Err(Halt::Code(faults::WRONG_TYPE)),
    }
}

/// Goes on with several targets.
pub fn next_aim(
    state: &mut State,
    frames: &mut Vec<Frame>,
    at: &Position,
    line: usize,
    es: Arc<Vec<Expr>, Global>,
    done: Vec<LValue>,
) -> Result<Control, Halt>
    ensures goes { LeadsOn at.now line (λ env n here. machine_does env n here (c.Aims line es done)
        frames.old.items (world_of state.old)) result frames.new.items state.new }
    ensures lighter { GetsLighter state.old (frames_weight frames.old.items + control_weight
        (c.Aims line es done)) result frames.new.items state.new }
{
    let next = done.len();
    if next < es.len() {
        let all = Arc::try_clone(&es)?;
        push(
            frames,
            Frame::Aims {
                line,
                targets: all,
                done,
            },
        )?;
        return begin_aim(state, frames, at, line, &es[next]);
    }
    Ok(Control::Signal(Signal::Aim(LValue::Each(done))))
}
