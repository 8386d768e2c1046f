//! Operators.
ghost use Rattle.std.specs.Prelude.{◌≡◌, ◌≤◌, IfOk};
ghost use Rattle.values_semantics.specs.Operators as o;
ghost use Rattle.values_semantics.specs.Binary.{binary};
ghost use Rattle.evaluator_semantics.specs.World.{Here, World};
ghost use Rattle.values_heap.specs.View.{store_of, Says};
ghost use Rattle.evaluator_semantics.specs.Expressions as e;
ghost use Rattle.evaluator_state.specs.View.{Ran};

use base_types::Memory;
use syntax_tree::{BinaryOp, UnaryOp};
use values_heap::{Halt, Heap, Operator, Val};

/// Returns whether a value is true, or `Memory` if it has been freed.
pub fn is_true(heap: &Heap, x: Val) -> Result<bool, Memory>
    ensures { IfOk result (λ b. b ≡ o.is_true x (store_of heap.now)) }
{
    values::is_true(heap, x)
}

/// Evaluates an operator before an operand.
pub fn unary(heap: &mut Heap, op: UnaryOp, x: Val) -> Result<Val, Halt>
    ensures says { (here : Here) (w : World)
        → Ran here.site (e.unary op x here (record w { store = store_of heap.old })) result
        (record w { store = store_of heap.new }) }
    ensures steps { IfOk result (λ _. heap.new.steps ≤ heap.old.steps) }
{
    match op {
        UnaryOp::Not => Ok(Val::boolean(!is_true(heap, x)?)),
        UnaryOp::Plus => values::plus(heap, x),
        UnaryOp::Minus => values::negate(heap, x),
    }
}

// Returns the operator between two values that are both evaluated.
fn operator_of(op: BinaryOp) -> Operator
    ensures { result ≡ e.operator_of op }
{
    match op {
        BinaryOp::Equal => Operator::Equal,
        BinaryOp::NotEqual => Operator::NotEqual,
        BinaryOp::Less => Operator::Less,
        BinaryOp::LessEqual => Operator::LessEqual,
        BinaryOp::Greater => Operator::Greater,
        BinaryOp::GreaterEqual => Operator::GreaterEqual,
        BinaryOp::In => Operator::In,
        BinaryOp::NotIn => Operator::NotIn,
        BinaryOp::Add => Operator::Add,
        BinaryOp::Subtract => Operator::Subtract,
        BinaryOp::Multiply => Operator::Multiply,
        BinaryOp::Divide => Operator::Divide,
        BinaryOp::Remainder => Operator::Remainder,
        BinaryOp::Or => Operator::Equal,
        BinaryOp::And => Operator::Equal,
    }
}

/// Evaluates an operator between two values.
pub fn eval_binary(heap: &mut Heap, op: BinaryOp, x: Val, y: Val) -> Result<Val, Halt>
    ensures says { Says (binary (e.operator_of op) x y (store_of heap.old)) result
        (store_of heap.new) }
    ensures steps { IfOk result (λ _. heap.new.steps ≤ heap.old.steps) }
{
    values::binary(heap, operator_of(op), x, y)
}
