//! The operators between two values that are both evaluated.
ghost use Rattle.values_semantics.specs.Binary.{binary, less};
ghost use Rattle.values_heap.specs.View.{store_of, Says};

use values_heap::{Halt, Heap, Operator, Val};
use values_operators::{add, compare, divide, equal, has, multiply, remainder, subtract};

/// Evaluates `a < b`, or returns fault 5, 11 or 12.
pub fn less(heap: &mut Heap, a: Val, b: Val) -> Result<bool, Halt>
    ensures { Says (less a b (store_of heap.old)) result (store_of heap.new) }
{
    let o = compare(heap, a, b)?;
    Ok(o.is_lt())
}

/// Evaluates an operator between two values, or returns its fault: 5, 9, 10, 11, 12 or 13.
pub fn binary(heap: &mut Heap, operator: Operator, a: Val, b: Val) -> Result<Val, Halt>
    ensures { Says (binary operator a b (store_of heap.old)) result (store_of heap.new) }
{
    match operator {
        Operator::Equal => Ok(Val::boolean(equal(heap, a, b)?)),
        Operator::NotEqual => Ok(Val::boolean(!equal(heap, a, b)?)),
        Operator::Less => Ok(Val::boolean(less(heap, a, b)?)),
        Operator::LessEqual => Ok(Val::boolean(compare(heap, a, b)?.is_le())),
        Operator::Greater => Ok(Val::boolean(compare(heap, a, b)?.is_gt())),
        Operator::GreaterEqual => Ok(Val::boolean(compare(heap, a, b)?.is_ge())),
        Operator::In => Ok(Val::boolean(has(heap, a, b)?)),
        Operator::NotIn => Ok(Val::boolean(!has(heap, a, b)?)),
        Operator::Add => Ok(add(heap, a, b)?),
        Operator::Subtract => Ok(subtract(heap, a, b)?),
        Operator::Multiply => Ok(multiply(heap, a, b)?),
        Operator::Divide => Ok(divide(heap, a, b)?),
        Operator::Remainder => Ok(remainder(heap, a, b)?),
    }
}
