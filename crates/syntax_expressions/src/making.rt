//! Nodes of expressions, made of their parts.
ghost use Rattle.std.specs.Prelude.{◌≡◌, ◌∷◌, [], List, Option, IfOk, IsOkUnless};
ghost use Rattle.syntax_grammar.specs.Expressions as spec;
ghost use Rattle.syntax_grammar.specs.Front.{Part, and_then, gives, expect};
ghost use Rattle.syntax_grammar.specs.declared.kind.Kind.TheVariants as k;
ghost use Rattle.syntax_tokens.specs.declared.symbol.Symbol.TheVariants as s;
ghost use Rattle.syntax_tokens.specs.Token.{Lex};
ghost use Rattle.syntax_tree.specs.Tree as tree;
ghost use Rattle.syntax_tree.specs.Tree.{Ex};
ghost use Rattle.syntax_expressions.specs.Parts.{pairs_of};
ghost use Rattle.syntax_expressions.specs.View.{rest_of, Reads};
ghost use Rattle.syntax_tree.specs.View.{tree_of, trees_of, clause_trees};
ghost use Rattle.syntax_expressions.specs.declared.front.ParseError.TheVariants.{Memory};
ghost use Rattle.std.specs.Arc.{arc_value};
ghost use Rattle.base_types.specs.Refusals.{memory};

use crate::front::{ParseError, Tokens};
use base_types::{Text, pair_ok};
use std::alloc::Global;
use std::sync::Arc;
use syntax_tokens::Symbol;
use syntax_tree::{BinaryOp, Clause, Expr};

/// The entries of a dictionary so far: keys, and as many values.
#[derive(Drop)]
pub(crate) struct EntriesSoFar {
    pub(crate) keys: Vec<Expr>,
    pub(crate) values: Vec<Expr>,
}

/// The arguments of a call so far, and the names of the last ones.
#[derive(Drop)]
pub(crate) struct ArgumentsSoFar {
    pub(crate) values: Vec<Expr>,
    pub(crate) names: Vec<Text>,
}

/// Makes an expression shared.
pub(crate) fn share(alloc: Global, value: Expr) -> Result<Arc<Expr, Global>, ParseError>
    ensures ok { IfOk result (λ a. arc_value a ≡ value) }
    ensures err { IsOkUnless result (Memory memory) }
{
    Ok(Arc::new(alloc, value)?)
}

/// Makes an operation on an operand and the one that was read after its operator.
pub(crate) fn operation(
    alloc: Global,
    op: BinaryOp,
    left: Expr,
    right: Result<Expr, ParseError>,
) -> Result<Expr, ParseError>
    ensures { (read : Option (Part Ex)) (new : List Lex) → Reads tree_of read right new
        → Reads tree_of (and_then read (λ e. gives (tree.binary op (tree_of left) e))) result new }
{
    let (left, right) = pair_ok(left, right)?;
    Ok(Expr::binary(alloc, op, left, right)?)
}

/// Makes a list of one expression.
pub(crate) fn single(alloc: Global, item: Expr) -> Result<Vec<Expr>, ParseError>
    ensures ok { IfOk result (λ v. v.items ≡ item ∷ []) }
    ensures err { IsOkUnless result (Memory memory) }
{
    let mut found = Vec::new(alloc);
    found.push(item)?;
    Ok(found)
}

/// Makes the entries so far of the first entry of a dictionary.
pub(crate) fn one_entry(alloc: Global, entry: (Expr, Expr)) -> Result<EntriesSoFar, ParseError>
    ensures ok { IfOk result
        (λ e. pairs_of e ≡ record { keys = tree_of entry.0 ∷ []; values = tree_of entry.1 ∷ [] }) }
    ensures err { IsOkUnless result (Memory memory) }
{
    let (key, value) = entry;
    let (value, keys) = pair_ok(value, single(alloc, key))?;
    let (keys, values) = pair_ok(keys, single(alloc, value))?;
    Ok(EntriesSoFar { keys, values })
}

/// Makes a dictionary of its entries.
pub(crate) fn dict(alloc: Global, entries: EntriesSoFar) -> Result<Expr, ParseError>
    ensures ok { IfOk result (λ e. tree_of e ≡ tree.dict (trees_of entries.keys.items)
        (trees_of entries.values.items)) }
    ensures err { IsOkUnless result (Memory memory) }
{
    let EntriesSoFar { keys, values } = entries;
    Ok(Expr::dict(alloc, keys, values)?)
}

/// Makes a dictionary of the entries that clauses give.
pub(crate) fn dict_by_clauses(
    alloc: Global,
    entry: (Expr, Expr),
    clauses: Vec<Clause>,
) -> Result<Expr, ParseError>
    ensures ok { IfOk result (λ e. tree_of e ≡ tree.dict_of (tree_of entry.0) (tree_of entry.1)
        (clause_trees clauses.items)) }
    ensures err { IsOkUnless result (Memory memory) }
{
    let (key, value) = entry;
    Ok(Expr::dict_of(alloc, key, value, clauses)?)
}

/// Makes a call of a method with its arguments.
pub(crate) fn method(
    alloc: Global,
    receiver: (Expr, Text),
    found: ArgumentsSoFar,
) -> Result<Expr, ParseError>
    ensures ok { IfOk result (λ e. tree_of e ≡ tree.method (tree_of receiver.0) receiver.1
        (trees_of found.values.items) found.names.items) }
    ensures err { IsOkUnless result (Memory memory) }
{
    let (value, name) = receiver;
    let ArgumentsSoFar { values, names } = found;
    Ok(Expr::method(alloc, value, name, values, names)?)
}

/// Reads the symbol that closes an expression.
pub(crate) fn expect_close(
    t: &mut Tokens<'_, '_>,
    closer: Symbol,
    whole: Expr,
) -> Result<Expr, ParseError>
    ensures { Reads tree_of (and_then (expect closer (rest_of t.old)) (λ _. gives (tree_of whole)))
        result (rest_of t.new) }
{
    let (whole, ()) = pair_ok(whole, t.expect(closer))?;
    Ok(whole)
}
