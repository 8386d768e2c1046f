//! What waits, on a stack.
ghost use Rattle.std.specs.Prelude.{◌≡◌, ◌+◌, ℕ, OnOk, IfOk, IsOkUnless};
ghost use Rattle.values_objects.specs.declared.halt.Halt.TheVariants.{Memory};
ghost use Rattle.evaluator_semantics.specs.World.{World, Here, then_runs};
ghost use Rattle.evaluator_semantics.specs.Environment.{Env};
ghost use Rattle.syntax_tree.specs.View.{shared_tree};
ghost use Rattle.evaluator_frames.specs.Weight.{frame_weight, frames_weight};
ghost use Rattle.evaluator_frames.specs.Frames.{Sig, a_value, ex, frame_does, stack_does, calls_below, here_below, above, machine_does};
ghost use Rattle.base_types.specs.Refusals.{memory};

use crate::frame::{Control, Frame};
use std::alloc::Global;
use std::sync::Arc;
use syntax_tree::Expr;
use values_heap::Halt;

/// Pushes a frame.
#[tactic(auto, using(crate::proofs::Bind::stack_push))]
pub fn push(frames: &mut Vec<Frame>, frame: Frame) -> Result<(), Halt>
    ensures ok { OnOk result ((env : Env) (n : ℕ) (here : Here)
        → stack_does env n here frames.new.items
        ≡ (λ (sig : Sig) (w : World). then_runs (frame_does env n here frame sig w)
        (stack_does env (calls_below frame n) (here_below frame here) frames.old.items))) }
    ensures err { IsOkUnless result (Memory memory) }
    ensures weight { OnOk result (frames_weight frames.new.items ≡ frames_weight frames.old.items
        + frame_weight frame) }
{
    frames.push(frame)?;
    Ok(())
}

/// Pushes a frame that waits for the value of an expression, which comes next.
pub fn eval_above(
    frames: &mut Vec<Frame>,
    frame: Frame,
    line: usize,
    e: &Arc<Expr, Global>,
) -> Result<Control, Halt>
    ensures ok { IfOk result (λ control. (env : Env) (n : ℕ) (here : Here) (w : World)
        → calls_below frame n ≡ n → here_below frame here ≡ here
        → then_runs (ex env n here (shared_tree e.now) line w)
        (λ v. above env n here (frame_does env n here frame (a_value v)) frames.old.items)
        ≡ machine_does env n here control frames.new.items w) }
    ensures err { IsOkUnless result (Memory memory) }
{
    push(frames, frame)?;
    Ok(Control::Eval {
        line,
        expr: Arc::try_clone(e)?,
    })
}
