//! The value of a quiet expression.
ghost use Rattle.std.specs.Prelude.{◌≡◌, ◌≤◌, ◌<◌, true, false, IfOk};
ghost use Rattle.evaluator_semantics.specs.Expressions as ex;
ghost use Rattle.syntax_tree.specs.View.{tree_of, trees_of, bound_tree};
ghost use Rattle.values_heap.specs.View.{store_of};
ghost use Rattle.evaluator_state.specs.Scope.{is_free};
ghost use Rattle.evaluator_direct.specs.Quiet.{is_plain, plain_of, is_word_native, quiet, quiets, quiet_bound};
ghost use Rattle.evaluator_direct.specs.Parts as p;
ghost use Rattle.evaluator_direct.specs.View.{Does, DoesItems};

use base_types::Text;
use evaluator_state::{
    Scope, call_builtin, call_method, eval_binary, index, is_true, make_list, make_text,
    make_tuple, plain_function, read_in_scope, slice, tick, unary,
};
use std::alloc::Global;
use std::sync::Arc;
use syntax_tree::{BinaryOp, Expr, Literal, UnaryOp};
use values_heap::{Builtin, Halt, Heap, Val};

// Returns the value of a word.
fn literal(word: Literal) -> Val
    ensures { result ≡ ex.literal word }
{
    match word {
        Literal::NoneValue => Val::Nothing,
        Literal::TrueValue => Val::True,
        Literal::FalseValue => Val::False,
    }
}

/// Evaluates a quiet expression; each node begun is a step. The faults are those of the expression, and the heap alone
/// is changed.
#[cycle(values)]
#[tactic(auto, unfolding(evaluator_semantics::specs::World::tick))]
pub fn value(heap: &mut Heap, scope: &Scope<'_>, e: &Expr) -> Result<Val, Halt>
    requires { quiet (is_free scope.now) (tree_of e.now) ≡ true }
    ensures says { Does scope.now (λ env call here. ex.value env call (tree_of e.now) here)
        (store_of heap.old) result (store_of heap.new) }
    ensures steps { IfOk result (λ _. heap.new.steps < heap.old.steps) }
{
    if let Err(halt) = tick(heap) {
        return Err(halt);
    }
    match e {
        Expr::Name(x, last) => read_in_scope(scope, x, last),
        Expr::Int(n) => Ok(Val::Int(*n)),
        Expr::Str(x) => make_text(heap, x),
        Expr::Literal(word) => Ok(literal(*word)),
        Expr::Tuple(es) => tuple(heap, scope, es.as_slice()),
        Expr::List(es) => list(heap, scope, es.as_slice()),
        Expr::Dict(_, _) => unreachable!(),
        Expr::ListOf(_, _) => unreachable!(),
        Expr::DictOf(_, _, _) => unreachable!(),
        Expr::Unary(op, a) => operated(heap, scope, *op, a),
        Expr::Binary(op, a, b) => between(heap, scope, *op, a, b),
        Expr::Choice(a, c, b) => choice(heap, scope, a, c, b),
        Expr::Index(a, i) => member(heap, scope, a, i),
        Expr::Slice(a, i, j) => part(heap, scope, a, i, j),
        Expr::Call(f, es, names) => of_function(heap, scope, f, es.as_slice(), names.as_slice()),
        Expr::Method(a, name, es, names) => {
            of_method(heap, scope, a, name, es.as_slice(), names.as_slice())
        }
    }
}

/// Evaluates several quiet expressions, in order.
#[cycle(values)]
pub fn values(heap: &mut Heap, scope: &Scope<'_>, es: &[Expr]) -> Result<Vec<Val>, Halt>
    requires { quiets (is_free scope.now) (trees_of es.now) ≡ true }
    ensures says { DoesItems scope.now (λ env call here. ex.values env call (trees_of es.now) here)
        (store_of heap.old) result (store_of heap.new) }
    ensures steps { IfOk result (λ _. heap.new.steps ≤ heap.old.steps) }
{
    let mut all = Vec::with_capacity(heap.alloc, es.len())?;
    for e in es.iter() {
        let x = match value(heap, scope, e) {
            Ok(x) => x,
            Err(halt) => return Err(halt),
        };
        all.push(x)?;
    }
    Ok(all)
}

// Makes a tuple of the values of several expressions.
#[cycle(values)]
fn tuple(heap: &mut Heap, scope: &Scope<'_>, es: &[Expr]) -> Result<Val, Halt>
    requires { quiets (is_free scope.now) (trees_of es.now) ≡ true }
    ensures says { Does scope.now (p.tuple_does (trees_of es.now)) (store_of heap.old) result
        (store_of heap.new) }
    ensures steps { IfOk result (λ _. heap.new.steps ≤ heap.old.steps) }
{
    let xs = match values(heap, scope, es) {
        Ok(xs) => xs,
        Err(halt) => return Err(halt),
    };
    make_tuple(heap, xs)
}

// Makes a list of the values of several expressions.
#[cycle(values)]
fn list(heap: &mut Heap, scope: &Scope<'_>, es: &[Expr]) -> Result<Val, Halt>
    requires { quiets (is_free scope.now) (trees_of es.now) ≡ true }
    ensures says { Does scope.now (p.list_does (trees_of es.now)) (store_of heap.old) result
        (store_of heap.new) }
    ensures steps { IfOk result (λ _. heap.new.steps ≤ heap.old.steps) }
{
    let xs = match values(heap, scope, es) {
        Ok(xs) => xs,
        Err(halt) => return Err(halt),
    };
    make_list(heap, xs)
}

// Evaluates an operator before an expression.
#[cycle(values)]
fn operated(heap: &mut Heap, scope: &Scope<'_>, op: UnaryOp, a: &Expr) -> Result<Val, Halt>
    requires { quiet (is_free scope.now) (tree_of a.now) ≡ true }
    ensures says { Does scope.now (p.unary_does op (tree_of a.now)) (store_of heap.old) result
        (store_of heap.new) }
    ensures steps { IfOk result (λ _. heap.new.steps ≤ heap.old.steps) }
{
    let x = match value(heap, scope, a) {
        Ok(x) => x,
        Err(halt) => return Err(halt),
    };
    unary(heap, op, x)
}

// Evaluates an operator between two expressions.
#[cycle(values)]
fn between(
    heap: &mut Heap,
    scope: &Scope<'_>,
    op: BinaryOp,
    a: &Expr,
    b: &Expr,
) -> Result<Val, Halt>
    requires first { quiet (is_free scope.now) (tree_of a.now) ≡ true }
    requires second { quiet (is_free scope.now) (tree_of b.now) ≡ true }
    ensures says { Does scope.now (p.between_does op (tree_of a.now) (tree_of b.now))
        (store_of heap.old) result (store_of heap.new) }
    ensures steps { IfOk result (λ _. heap.new.steps ≤ heap.old.steps) }
{
    let x = match value(heap, scope, a) {
        Ok(x) => x,
        Err(halt) => return Err(halt),
    };
    match op {
        BinaryOp::Or => {
            if is_true(heap, x)? {
                return Ok(x);
            }
            value(heap, scope, b)
        }
        BinaryOp::And => {
            if is_true(heap, x)? {
                return value(heap, scope, b);
            }
            Ok(x)
        }
        op => second(heap, scope, op, x, b),
    }
}

// Evaluates the second operand, where it is evaluated in any case, and the operator.
#[cycle(values)]
fn second(heap: &mut Heap, scope: &Scope<'_>, op: BinaryOp, x: Val, b: &Expr) -> Result<Val, Halt>
    requires { quiet (is_free scope.now) (tree_of b.now) ≡ true }
    ensures says { Does scope.now (p.both_does op x (tree_of b.now)) (store_of heap.old) result
        (store_of heap.new) }
    ensures steps { IfOk result (λ _. heap.new.steps ≤ heap.old.steps) }
{
    let y = match value(heap, scope, b) {
        Ok(y) => y,
        Err(halt) => return Err(halt),
    };
    eval_binary(heap, op, x, y)
}

// Evaluates one of two expressions, by a condition.
#[cycle(values)]
fn choice(heap: &mut Heap, scope: &Scope<'_>, a: &Expr, c: &Expr, b: &Expr) -> Result<Val, Halt>
    requires first { quiet (is_free scope.now) (tree_of a.now) ≡ true }
    requires condition { quiet (is_free scope.now) (tree_of c.now) ≡ true }
    requires second { quiet (is_free scope.now) (tree_of b.now) ≡ true }
    ensures says { Does scope.now (p.choice_does (tree_of a.now) (tree_of c.now) (tree_of b.now))
        (store_of heap.old) result (store_of heap.new) }
    ensures steps { IfOk result (λ _. heap.new.steps ≤ heap.old.steps) }
{
    let x = match value(heap, scope, c) {
        Ok(x) => x,
        Err(halt) => return Err(halt),
    };
    if is_true(heap, x)? {
        return value(heap, scope, a);
    }
    value(heap, scope, b)
}

// Evaluates an index.
#[cycle(values)]
fn member(heap: &mut Heap, scope: &Scope<'_>, a: &Expr, i: &Expr) -> Result<Val, Halt>
    requires first { quiet (is_free scope.now) (tree_of a.now) ≡ true }
    requires second { quiet (is_free scope.now) (tree_of i.now) ≡ true }
    ensures says { Does scope.now (p.index_does (tree_of a.now) (tree_of i.now)) (store_of heap.old)
        result (store_of heap.new) }
    ensures steps { IfOk result (λ _. heap.new.steps ≤ heap.old.steps) }
{
    let x = match value(heap, scope, a) {
        Ok(x) => x,
        Err(halt) => return Err(halt),
    };
    let y = match value(heap, scope, i) {
        Ok(y) => y,
        Err(halt) => return Err(halt),
    };
    index(heap, x, y)
}

// Evaluates a slice.
#[cycle(values)]
fn part(
    heap: &mut Heap,
    scope: &Scope<'_>,
    a: &Expr,
    i: &Option<Arc<Expr, Global>>,
    j: &Option<Arc<Expr, Global>>,
) -> Result<Val, Halt>
    requires value { quiet (is_free scope.now) (tree_of a.now) ≡ true }
    requires from { quiet_bound (is_free scope.now) (bound_tree i.now) ≡ true }
    requires to { quiet_bound (is_free scope.now) (bound_tree j.now) ≡ true }
    ensures says { Does scope.now (p.slice_does (tree_of a.now) (bound_tree i.now)
        (bound_tree j.now)) (store_of heap.old) result (store_of heap.new) }
    ensures steps { IfOk result (λ _. heap.new.steps ≤ heap.old.steps) }
{
    let x = match value(heap, scope, a) {
        Ok(x) => x,
        Err(halt) => return Err(halt),
    };
    let y = match bound_value(heap, scope, i) {
        Ok(y) => y,
        Err(halt) => return Err(halt),
    };
    let z = match bound_value(heap, scope, j) {
        Ok(z) => z,
        Err(halt) => return Err(halt),
    };
    slice(heap, x, y, z)
}

// Evaluates a bound; one that is left out is `None`.
#[cycle(values)]
fn bound_value(
    heap: &mut Heap,
    scope: &Scope<'_>,
    bound: &Option<Arc<Expr, Global>>,
) -> Result<Val, Halt>
    requires { quiet_bound (is_free scope.now) (bound_tree bound.now) ≡ true }
    ensures says { Does scope.now (λ env call here. ex.bound_value env call (bound_tree bound.now)
        here) (store_of heap.old) result (store_of heap.new) }
    ensures steps { IfOk result (λ _. heap.new.steps ≤ heap.old.steps) }
{
    match bound {
        Some(e) => value(heap, scope, e),
        None => Ok(Val::Nothing),
    }
}

// Returns the function that an expression is, if it is one that every file has.
fn plain(e: &Expr) -> Option<Builtin>
    ensures { result ≡ plain_of (tree_of e.now) }
{
    match e {
        Expr::Name(x, _) => plain_function(x),
        _ => None,
    }
}

// Calls a function that every file has. The name of the function is a node, too.
#[cycle(values)]
fn of_function(
    heap: &mut Heap,
    scope: &Scope<'_>,
    f: &Expr,
    es: &[Expr],
    names: &[Text],
) -> Result<Val, Halt>
    requires plain { is_plain (is_free scope.now) (tree_of f.now) ≡ true }
    requires quiet { quiets (is_free scope.now) (trees_of es.now) ≡ true }
    ensures says { Does scope.now (p.call_does (tree_of f.now) (trees_of es.now) names.now)
        (store_of heap.old) result (store_of heap.new) }
    ensures steps { IfOk result (λ _. heap.new.steps ≤ heap.old.steps) }
{
    if let Err(halt) = tick(heap) {
        return Err(halt);
    }
    match plain(f) {
        Some(g) => {
            let xs = match values(heap, scope, es) {
                Ok(xs) => xs,
                Err(halt) => return Err(halt),
            };
            call_builtin(heap, g, xs.as_slice(), names)
        }
        None => unreachable!(),
    }
}

// Calls a method of a value.
#[cycle(values)]
fn of_method(
    heap: &mut Heap,
    scope: &Scope<'_>,
    a: &Expr,
    name: &Text,
    es: &[Expr],
    names: &[Text],
) -> Result<Val, Halt>
    requires word { is_word_native (tree_of a.now) ≡ false }
    requires value { quiet (is_free scope.now) (tree_of a.now) ≡ true }
    requires quiet { quiets (is_free scope.now) (trees_of es.now) ≡ true }
    ensures says { Does scope.now
        (p.method_does (tree_of a.now) name.now (trees_of es.now) names.now) (store_of heap.old)
        result (store_of heap.new) }
    ensures steps { IfOk result (λ _. heap.new.steps ≤ heap.old.steps) }
{
    let x = match value(heap, scope, a) {
        Ok(x) => x,
        Err(halt) => return Err(halt),
    };
    let xs = match values(heap, scope, es) {
        Ok(xs) => xs,
        Err(halt) => return Err(halt),
    };
    call_method(heap, x, name, xs.as_slice(), names)
}
