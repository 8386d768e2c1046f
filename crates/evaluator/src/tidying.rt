//! Giving back what an evaluation reaches no more.
ghost use Rattle.std.specs.Prelude.{◌≡◌};
ghost use Rattle.evaluator_state.specs.View.{world_of};
ghost use Rattle.evaluator_semantics.specs.Environment.{Env};
ghost use Rattle.evaluator.specs.Machines.{means};

use crate::machine::Machine;
use base_types::Memory;
use evaluator_frames::{Control, Frame, reach_control, reach_frames};
use evaluator_state::{State, mark_names};
use values_heap::Marks;

// Gives back all objects that neither names, nor frames, nor what comes next, reach.
fn give_back(state: &mut State, frames: &[Frame], control: &Control) -> Result<(), Memory>
    ensures same { world_of state.new ≡ world_of state.old }
    ensures steps { state.new.heap.steps ≡ state.old.heap.steps }
{
    let mut reached = Marks::new(state.heap.alloc, &state.heap)?;
    reach_control(&mut reached, control)?;
    reach_frames(&mut reached, frames)?;
    mark_names(&mut reached, state)?;
    state.heap.mark_reachable(&mut reached)?;
    state.heap.sweep(&reached);
    Ok(())
}

/// Gives back the objects that are reached no more, if it is time for that. No outcome hangs on which these are: an
/// object that is missed later ends the evaluation as refused memory does.
pub fn tidy(m: &mut Machine, control: &Control) -> Result<(), Memory>
    ensures same { (env : Env) → means env m.new control.now ≡ means env m.old control.now }
    ensures steps { m.new.state.heap.steps ≡ m.old.state.heap.steps }
{
    if !m.state.heap.needs_collection() {
        return Ok(());
    }
    give_back(&mut m.state, m.frames.as_slice(), control)
}
