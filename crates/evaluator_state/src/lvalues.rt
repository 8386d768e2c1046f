//! Evaluated targets of assignments.
ghost use Rattle.std.specs.Prelude.{◌≡◌, ◌≤◌, ℕ, List, length, map, IfOk};
ghost use Rattle.evaluator_semantics.specs.Targets as t;
ghost use Rattle.evaluator_semantics.specs.Statements as s;
ghost use Rattle.values_heap.specs.View.{store_of, SaysItems};
ghost use Rattle.evaluator_state.specs.View.{world_of, here_of, Ran};
ghost use Rattle.evaluator_state.specs.AimView.{aim_of, aims_of};

use crate::objects::{index, set_index};
use crate::{Position, State, bind, read};
use base_types::Text;
use std::sync::atomic::AtomicUsize;
use values_heap::{Halt, Heap, ObjectRef, Val};
use values_semantics::faults;

/// A target of an assignment whose operands are evaluated.
#[cycle(aims)]
#[derive(Drop)]
pub enum LValue {
    /// A name, and the place at which it was found.
    Name { name: Text, place: usize },
    /// The container and the index.
    Member(Val, Val),
    Each(Vec<LValue>),
}

/// Returns the present value of a target.
pub fn read_lvalue(state: &mut State, at: &Position, aim: &LValue) -> Result<Val, Halt>
    ensures says { (line : ℕ) (running : List (List ℕ × List ℕ)) → let here = here_of at.now line
        running in Ran here.site (s.present (aim_of aim.now) here (world_of state.old)) result
        (world_of state.new) }
    ensures steps { IfOk result (λ _. state.new.heap.steps ≤ state.old.heap.steps) }
{
    match aim {
        LValue::Name { name: x, place } => read(state, at, x, &AtomicUsize::new(*place)),
        LValue::Member(container, i) => index(&mut state.heap, *container, *i),
        LValue::Each(_) => Err(Halt::Code(faults::WRONG_TYPE)),
    }
}

// Returns the members of a list or tuple of a length.
fn unpack(heap: &Heap, n: usize, x: Val) -> Result<Vec<Val>, Halt>
    ensures says { SaysItems (t.unpack n x (store_of heap.now)) result (store_of heap.now) }
    ensures count { IfOk result (λ xs. length xs.items ≡ n) }
{
    let Val::At(place) = x else {
        return Err(Halt::Code(faults::WRONG_TYPE));
    };
    let members = match heap.object(place)? {
        Some(ObjectRef::List { members, .. }) => members,
        Some(ObjectRef::Tuple(members)) => members,
        _ => return Err(Halt::Code(faults::WRONG_TYPE)),
    };
    if members.len() != n {
        return Err(Halt::Code(faults::WRONG_TYPE));
    }
    Ok(members.to_vec(heap.alloc)?)
}

/// Assigns a value to a target.
#[cycle(storing)]
pub fn store(state: &mut State, at: &Position, aim: &LValue, value: Val) -> Result<(), Halt>
    ensures says { (line : ℕ) (running : List (List ℕ × List ℕ)) → let here = here_of at.now line
        running in Ran here.site (t.store (aim_of aim.now) value here (world_of state.old)) result
        (world_of state.new) }
    ensures steps { IfOk result (λ _. state.new.heap.steps ≤ state.old.heap.steps) }
{
    match aim {
        LValue::Name { name: x, place } => bind(state, at, x, &AtomicUsize::new(*place), value),
        LValue::Member(container, i) => set_index(&mut state.heap, *container, *i, value),
        LValue::Each(aims) => {
            let xs = match unpack(&state.heap, aims.len(), value) {
                Ok(xs) => xs,
                Err(halt) => return Err(halt),
            };
            store_each(state, at, aims.as_slice(), xs.as_slice())
        }
    }
}

// Assigns each value to its target, in order.
#[cycle(storing)]
fn store_each(state: &mut State, at: &Position, aims: &[LValue], xs: &[Val]) -> Result<(), Halt>
    requires { length aims.now ≡ length xs.now }
    ensures says { (line : ℕ) (running : List (List ℕ × List ℕ)) → let here = here_of at.now line
        running in Ran here.site (t.store_each (aims_of (map aim_of aims.now)) xs.now here
        (world_of state.old)) result (world_of state.new) }
    ensures steps { IfOk result (λ _. state.new.heap.steps ≤ state.old.heap.steps) }
{
    for i in 0..aims.len() {
        match store(state, at, &aims[i], xs[i]) {
            Ok(()) => {}
            Err(halt) => return Err(halt),
        }
    }
    Ok(())
}
