//! What follows an operand: arguments of a call, an index, a slice, a call of a method.
ghost use Rattle.std.specs.Prelude.{◌∷◌, ◌++◌, [], map, if◌then◌else◌};
ghost use Rattle.syntax_grammar.specs.Expressions as spec;
ghost use Rattle.syntax_grammar.specs.Front.{and_then, gives, expect, is_at, tail};
ghost use Rattle.syntax_grammar.specs.declared.kind.Kind.TheVariants as k;
ghost use Rattle.syntax_tokens.specs.declared.symbol.Symbol.TheVariants as s;
ghost use Rattle.syntax_tree.specs.Tree as tree;
ghost use Rattle.syntax_expressions.specs.Nests.{Nests};
ghost use Rattle.syntax_expressions.specs.Parts.{arguments_of};
ghost use Rattle.syntax_expressions.specs.View.{rest_of, Reads};
ghost use Rattle.syntax_tree.specs.View.{tree_of, bound_tree, exs_of};

use crate::expression::Grammar;
use crate::front::{ParseError, Tokens};
use crate::making::{ArgumentsSoFar, expect_close, method, share};
use base_types::{Text, pair_ok};
use std::alloc::Global;
use std::sync::Arc;
use syntax_grammar::Kind;
use syntax_tokens::Symbol;
use syntax_tree::Expr;

impl<F: Fn(Global, &mut Tokens<'_, '_>, usize, Kind) -> Result<Expr, ParseError>> Grammar<F> {
    /// Reads the value of an argument, which becomes the last one.
    fn argument_value(
        &self,
        t: &mut Tokens<'_, '_>,
        found: &mut ArgumentsSoFar,
    ) -> Result<(), ParseError>
        requires { Nests self.now.depth (F.pre self.now.expr) (F.post self.now.expr) }
        ensures { Reads (λ _. arguments_of found.new)
            (and_then (spec.expr self.now.depth k.Test (rest_of t.old))
            (λ value. gives
            (record {
              values = map tree_of found.old.values.items ++ value
                  ∷ [];
              names = found.old.names.items;
            }))) result (rest_of t.new) }
    {
        let value = self.expr(t, Kind::Test)?;
        found.values.push(value)?;
        Ok(())
    }

    /// Reads an argument of a call.
    #[tactic(auto, unfolding(syntax_grammar::specs::Expressions::argument))]
    fn argument(&self, t: &mut Tokens<'_, '_>, found: &mut ArgumentsSoFar) -> Result<(), ParseError>
        requires { Nests self.now.depth (F.pre self.now.expr) (F.post self.now.expr) }
        ensures { Reads (λ _. arguments_of found.new)
            (spec.argument (spec.expr self.now.depth) (arguments_of found.old) (rest_of t.old))
            result (rest_of t.new) }
    {
        if t.is_name_before(Symbol::Equal) {
            let name = t.take_name(self.alloc)?;
            found.names.push(name)?;
            t.skip();
            return self.argument_value(t, found);
        }
        if !found.names.is_empty() {
            return Err(ParseError::Malformed);
        }
        self.argument_value(t, found)
    }

    /// Reads the arguments of a call up to its closing bracket.
    #[tactic(auto, unfolding(syntax_grammar::specs::Expressions::arguments_so_far))]
    fn arguments_so_far(&self, t: &mut Tokens<'_, '_>) -> Result<ArgumentsSoFar, ParseError>
        requires { Nests self.now.depth (F.pre self.now.expr) (F.post self.now.expr) }
        ensures { Reads arguments_of (spec.arguments_so_far (spec.expr self.now.depth) (rest_of
            t.old)) result (rest_of t.new) }
    {
        let mut found = ArgumentsSoFar {
            values: Vec::new(self.alloc),
            names: Vec::new(self.alloc),
        };
        for _turn in 0..t.len() {
            if t.is_at(Symbol::RightParen) {
                return Ok(found);
            }
            self.argument(t, &mut found)?;
            if !t.take_if(Symbol::Comma) {
                return Ok(found);
            }
        }
        Ok(found)
    }

    /// Reads the arguments of a call, and its closing bracket.
    #[tactic(auto, unfolding(syntax_grammar::specs::Expressions::arguments))]
    fn arguments(&self, t: &mut Tokens<'_, '_>) -> Result<ArgumentsSoFar, ParseError>
        requires { Nests self.now.depth (F.pre self.now.expr) (F.post self.now.expr) }
        ensures { Reads arguments_of (spec.arguments (spec.expr self.now.depth) (rest_of t.old))
            result (rest_of t.new) }
    {
        let found = self.arguments_so_far(t)?;
        t.expect(Symbol::RightParen)?;
        Ok(found)
    }

    /// Reads the arguments of a call with both brackets.
    fn arguments_behind(&self, t: &mut Tokens<'_, '_>) -> Result<ArgumentsSoFar, ParseError>
        requires { Nests self.now.depth (F.pre self.now.expr) (F.post self.now.expr) }
        ensures { Reads arguments_of
            (and_then (expect s.LeftParen (rest_of t.old))
            (λ _. spec.arguments (spec.expr self.now.depth))) result (rest_of t.new) }
    {
        t.expect(Symbol::LeftParen)?;
        self.arguments(t)
    }

    /// Reads the upper bound of a slice.
    #[tactic(auto, unfolding(syntax_grammar::specs::Expressions::upper_bound))]
    fn upper_bound(&self, t: &mut Tokens<'_, '_>) -> Result<Option<Arc<Expr, Global>>, ParseError>
        requires { Nests self.now.depth (F.pre self.now.expr) (F.post self.now.expr) }
        ensures { Reads bound_tree (spec.upper_bound (spec.expr self.now.depth) (rest_of t.old))
            result (rest_of t.new) }
    {
        if t.is_at(Symbol::RightBracket) {
            return Ok(None);
        }
        let found = self.expr(t, Kind::Test)?;
        let bound = share(self.alloc, found)?;
        Ok(Some(bound))
    }

    /// Reads a slice after its colon.
    #[tactic(auto, unfolding(syntax_grammar::specs::Expressions::slice_from))]
    fn slice_from(
        &self,
        t: &mut Tokens<'_, '_>,
        value: Expr,
        from: Option<Arc<Expr, Global>>,
    ) -> Result<Expr, ParseError>
        requires { Nests self.now.depth (F.pre self.now.expr) (F.post self.now.expr) }
        ensures { Reads tree_of (spec.slice_from (spec.expr self.now.depth) (tree_of value)
            (bound_tree from) (rest_of t.old)) result (rest_of t.new) }
    {
        let ((value, from), to) = pair_ok((value, from), self.upper_bound(t))?;
        let whole = Expr::slice(self.alloc, value, from, to)?;
        expect_close(t, Symbol::RightBracket, whole)
    }

    /// Reads a slice after its colon, from a lower bound.
    fn slice_at(&self, t: &mut Tokens<'_, '_>, value: Expr, at: Expr) -> Result<Expr, ParseError>
        requires { Nests self.now.depth (F.pre self.now.expr) (F.post self.now.expr) }
        ensures { Reads tree_of (spec.slice_from (spec.expr self.now.depth) (tree_of value)
            (tree.bound (tree_of at)) (rest_of t.old)) result (rest_of t.new) }
    {
        let (value, from) = pair_ok(value, share(self.alloc, at))?;
        self.slice_from(t, value, Some(from))
    }

    /// Reads an index or a slice after its first expression.
    fn subscript_at(
        &self,
        t: &mut Tokens<'_, '_>,
        value: Expr,
        at: Expr,
    ) -> Result<Expr, ParseError>
        requires { Nests self.now.depth (F.pre self.now.expr) (F.post self.now.expr) }
        ensures { Reads tree_of (if is_at s.Colon (rest_of t.old) then spec.slice_from
            (spec.expr self.now.depth) (tree_of value) (tree.bound (tree_of at)) (tail (rest_of
            t.old)) else and_then (expect s.RightBracket (rest_of t.old))
            (λ _. gives (tree.index (tree_of value) (tree_of at)))) result (rest_of t.new) }
    {
        if t.take_if(Symbol::Colon) {
            return self.slice_at(t, value, at);
        }
        let whole = Expr::index(self.alloc, value, at)?;
        expect_close(t, Symbol::RightBracket, whole)
    }

    /// Reads an index or a slice after its opening bracket.
    #[tactic(auto, unfolding(syntax_grammar::specs::Expressions::subscript))]
    pub(crate) fn subscript(&self, t: &mut Tokens<'_, '_>, value: Expr) -> Result<Expr, ParseError>
        requires { Nests self.now.depth (F.pre self.now.expr) (F.post self.now.expr) }
        ensures { Reads tree_of (spec.subscript (spec.expr self.now.depth) (tree_of value)
            (rest_of t.old)) result (rest_of t.new) }
    {
        if t.take_if(Symbol::Colon) {
            return self.slice_from(t, value, None);
        }
        let (value, at) = pair_ok(value, self.expr(t, Kind::Test))?;
        self.subscript_at(t, value, at)
    }

    /// Reads a call of a method after the method's name.
    fn method_behind(
        &self,
        t: &mut Tokens<'_, '_>,
        receiver: (Expr, Text),
    ) -> Result<Expr, ParseError>
        requires { Nests self.now.depth (F.pre self.now.expr) (F.post self.now.expr) }
        ensures { Reads tree_of
            (and_then (expect s.LeftParen (rest_of t.old))
            (λ _ us. and_then (spec.arguments (spec.expr self.now.depth) us)
            (λ found. gives (tree.method (tree_of receiver.0) receiver.1 (exs_of found.values)
            found.names)))) result (rest_of t.new) }
    {
        let (receiver, found) = pair_ok(receiver, self.arguments_behind(t))?;
        method(self.alloc, receiver, found)
    }

    /// Reads a call of a method after its dot.
    #[tactic(auto, unfolding(syntax_grammar::specs::Expressions::method_call))]
    pub(crate) fn method_call(
        &self,
        t: &mut Tokens<'_, '_>,
        value: Expr,
    ) -> Result<Expr, ParseError>
        requires { Nests self.now.depth (F.pre self.now.expr) (F.post self.now.expr) }
        ensures { Reads tree_of (spec.method_call (spec.expr self.now.depth) (tree_of value)
            (rest_of t.old)) result (rest_of t.new) }
    {
        let receiver = pair_ok(value, t.take_name(self.alloc))?;
        self.method_behind(t, receiver)
    }

    /// Reads a call after its opening bracket.
    #[tactic(auto, unfolding(syntax_grammar::specs::Expressions::call))]
    pub(crate) fn call(&self, t: &mut Tokens<'_, '_>, value: Expr) -> Result<Expr, ParseError>
        requires { Nests self.now.depth (F.pre self.now.expr) (F.post self.now.expr) }
        ensures { Reads tree_of (spec.call (spec.expr self.now.depth) (tree_of value) (rest_of
            t.old)) result (rest_of t.new) }
    {
        let (value, found) = pair_ok(value, self.arguments(t))?;
        let ArgumentsSoFar { values, names } = found;
        Ok(Expr::call(self.alloc, value, values, names)?)
    }
}
