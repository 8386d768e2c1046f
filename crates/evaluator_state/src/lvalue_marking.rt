//! Which objects lvalues and collections reach.

use crate::gathering::Collection;
use crate::lvalues::LValue;
use base_types::Memory;
use values_heap::Marks;

/// Marks the values of an lvalue's operands as reached.
#[cycle(reaching)]
pub fn mark_lvalue(reached: &mut Marks, aim: &LValue) -> Result<(), Memory> {
    match aim {
        LValue::Name { .. } => Ok(()),
        LValue::Member(container, i) => {
            reached.add(*container)?;
            reached.add(*i)
        }
        LValue::Each(aims) => mark_lvalues(reached, aims.as_slice()),
    }
}

/// Marks the values of the operands of lvalues as reached.
#[cycle(reaching)]
pub fn mark_lvalues(reached: &mut Marks, aims: &[LValue]) -> Result<(), Memory> {
    for i in 0..aims.len() {
        mark_lvalue(reached, &aims[i])?;
    }
    Ok(())
}

/// Marks the collected values as reached.
pub fn mark_collection(reached: &mut Marks, got: &Collection) -> Result<(), Memory> {
    reached.add_all(got.members.as_slice())?;
    reached.add_entries(&got.entries)
}
