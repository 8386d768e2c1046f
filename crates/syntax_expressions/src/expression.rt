//! Expressions. A function for what has an expression one level down takes the parser of those as a parameter, so that
//! each function is proved by itself.
ghost use Rattle.std.specs.Prelude.{◌∷◌, ◌++◌, [], map, if◌then◌else◌};
ghost use Rattle.syntax_grammar.specs.Expressions as spec;
ghost use Rattle.syntax_grammar.specs.Front.{and_then, gives, expect};
ghost use Rattle.syntax_grammar.specs.declared.kind.Kind.TheVariants as k;
ghost use Rattle.syntax_tokens.specs.declared.symbol.Symbol.TheVariants as s;
ghost use Rattle.syntax_tree.specs.Tree as tree;
ghost use Rattle.syntax_expressions.specs.Nests.{Nests};
ghost use Rattle.syntax_expressions.specs.Parts.{pairs_of};
ghost use Rattle.syntax_expressions.specs.View.{rest_of, Reads};
ghost use Rattle.syntax_tree.specs.View.{tree_of, clause_of, clauses_of, exs_of};

use crate::front::{ParseError, Tokens, operator_at, require, take_comparison};
use crate::making::{
    EntriesSoFar, dict, dict_by_clauses, expect_close, one_entry, operation, single,
};
use crate::target::is_target;
use base_types::{Text, pair_ok};
use std::alloc::Global;
use syntax_grammar::{Kind, Rank};
use syntax_tokens::{Symbol, Token, string_text};
use syntax_tree::{BinaryOp, Clause, Expr, Literal, UnaryOp};

/// Reads expressions that have others one level down.
#[derive(Clone, Copy)]
pub(crate) struct Grammar<F> {
    pub(crate) alloc: Global,
    /// How many levels may still be entered.
    pub(crate) depth: usize,
    expr: F,
}

impl<F: Fn(Global, &mut Tokens<'_, '_>, usize, Kind) -> Result<Expr, ParseError>> Grammar<F> {
    /// Reads an expression one level down.
    pub(crate) fn expr(&self, t: &mut Tokens<'_, '_>, kind: Kind) -> Result<Expr, ParseError>
        requires { Nests self.now.depth (F.pre self.now.expr) (F.post self.now.expr) }
        ensures { Reads tree_of (spec.expr self.now.depth kind (rest_of t.old)) result (rest_of
            t.new) }
    {
        (self.expr)(self.alloc, t, self.depth, kind)
    }

    /// Reads an expression one level down, after a symbol.
    fn expr_after(
        &self,
        t: &mut Tokens<'_, '_>,
        symbol: Symbol,
        kind: Kind,
    ) -> Result<Expr, ParseError>
        requires { Nests self.now.depth (F.pre self.now.expr) (F.post self.now.expr) }
        ensures { Reads tree_of
            (and_then (expect symbol (rest_of t.old)) (λ _. spec.expr self.now.depth kind)) result
            (rest_of t.new) }
    {
        t.expect(symbol)?;
        self.expr(t, kind)
    }

    /// Reads the rest of a list of expressions up to a closing bracket, which stays.
    #[tactic(auto, unfolding(syntax_grammar::specs::Expressions::items))]
    fn items(
        &self,
        t: &mut Tokens<'_, '_>,
        closer: Symbol,
        first: Expr,
    ) -> Result<Vec<Expr>, ParseError>
        requires { Nests self.now.depth (F.pre self.now.expr) (F.post self.now.expr) }
        ensures { Reads (λ v. map tree_of v.items) (spec.items (spec.expr self.now.depth) closer
            (tree_of first) (rest_of t.old)) result (rest_of t.new) }
    {
        let mut found = Vec::new(self.alloc);
        found.push(first)?;
        for _turn in 0..t.len() {
            if !t.take_if(Symbol::Comma) {
                return Ok(found);
            }
            if t.is_at(closer) {
                return Ok(found);
            }
            let next = self.expr(t, Kind::Test)?;
            found.push(next)?;
        }
        Ok(found)
    }

    /// Reads a target.
    #[tactic(auto, unfolding(syntax_grammar::specs::Expressions::target))]
    fn target(&self, t: &mut Tokens<'_, '_>) -> Result<Expr, ParseError>
        requires { Nests self.now.depth (F.pre self.now.expr) (F.post self.now.expr) }
        ensures { Reads tree_of (spec.target (spec.expr self.now.depth) (rest_of t.old)) result
            (rest_of t.new) }
    {
        let found = self.expr(t, Kind::Postfix)?;
        let is_fit = is_target(&found);
        require(found, is_fit)
    }

    /// Reads the rest of several targets.
    #[tactic(auto, unfolding(syntax_grammar::specs::Expressions::more_targets))]
    fn more_targets(&self, t: &mut Tokens<'_, '_>, first: Expr) -> Result<Vec<Expr>, ParseError>
        requires { Nests self.now.depth (F.pre self.now.expr) (F.post self.now.expr) }
        ensures { Reads (λ v. map tree_of v.items) (spec.more_targets (spec.expr self.now.depth)
            (tree_of first) (rest_of t.old)) result (rest_of t.new) }
    {
        let mut found = Vec::new(self.alloc);
        found.push(first)?;
        for _turn in 0..t.len() {
            if !t.take_if(Symbol::Comma) {
                return Ok(found);
            }
            let next = self.target(t)?;
            found.push(next)?;
        }
        Ok(found)
    }

    /// Reads targets, which are a tuple if a comma is after the first.
    #[tactic(auto, unfolding(syntax_grammar::specs::Expressions::targets))]
    fn targets(&self, t: &mut Tokens<'_, '_>) -> Result<Expr, ParseError>
        requires { Nests self.now.depth (F.pre self.now.expr) (F.post self.now.expr) }
        ensures { Reads tree_of (spec.targets (spec.expr self.now.depth) (rest_of t.old)) result
            (rest_of t.new) }
    {
        let first = self.target(t)?;
        if !t.is_at(Symbol::Comma) {
            return Ok(first);
        }
        let found = self.more_targets(t, first)?;
        Ok(Expr::tuple(self.alloc, found)?)
    }

    /// Reads a `for` clause after its `for`.
    #[tactic(auto, unfolding(syntax_grammar::specs::Expressions::for_clause))]
    fn for_clause(&self, t: &mut Tokens<'_, '_>) -> Result<Clause, ParseError>
        requires { Nests self.now.depth (F.pre self.now.expr) (F.post self.now.expr) }
        ensures { Reads clause_of (spec.for_clause (spec.expr self.now.depth) (rest_of t.old))
            result (rest_of t.new) }
    {
        let target = self.targets(t)?;
        let (target, sequence) = pair_ok(target, self.expr_after(t, Symbol::In, Kind::Or))?;
        Ok(Clause::for_clause(self.alloc, target, sequence)?)
    }

    /// Reads the clauses of a comprehension.
    #[tactic(auto, unfolding(syntax_grammar::specs::Expressions::clauses))]
    fn clauses(&self, t: &mut Tokens<'_, '_>) -> Result<Vec<Clause>, ParseError>
        requires { Nests self.now.depth (F.pre self.now.expr) (F.post self.now.expr) }
        ensures { Reads (λ v. map clause_of v.items)
            (spec.clauses (spec.expr self.now.depth) (rest_of t.old)) result (rest_of t.new) }
    {
        let mut found = Vec::new(self.alloc);
        for _turn in 0..t.len() {
            if t.take_if(Symbol::For) {
                let next = self.for_clause(t)?;
                found.push(next)?;
                continue;
            }
            if t.take_if(Symbol::If) {
                let condition = self.expr(t, Kind::Or)?;
                let next = Clause::if_clause(self.alloc, condition)?;
                found.push(next)?;
                continue;
            }
            return Ok(found);
        }
        Ok(found)
    }

    /// Reads what is after an opening parenthesis.
    #[tactic(auto, unfolding(syntax_grammar::specs::Expressions::in_parens))]
    fn in_parens(&self, t: &mut Tokens<'_, '_>) -> Result<Expr, ParseError>
        requires { Nests self.now.depth (F.pre self.now.expr) (F.post self.now.expr) }
        ensures { Reads tree_of (spec.in_parens (spec.expr self.now.depth) (rest_of t.old)) result
            (rest_of t.new) }
    {
        if t.take_if(Symbol::RightParen) {
            return Ok(Expr::tuple(self.alloc, Vec::new(self.alloc))?);
        }
        let first = self.expr(t, Kind::Test)?;
        if !t.is_at(Symbol::Comma) {
            return expect_close(t, Symbol::RightParen, first);
        }
        let found = self.items(t, Symbol::RightParen, first)?;
        let whole = Expr::tuple(self.alloc, found)?;
        expect_close(t, Symbol::RightParen, whole)
    }

    /// Reads the clauses of a list, and its closing bracket.
    fn list_comprehension(&self, t: &mut Tokens<'_, '_>, first: Expr) -> Result<Expr, ParseError>
        requires { Nests self.now.depth (F.pre self.now.expr) (F.post self.now.expr) }
        ensures { Reads tree_of (and_then (spec.clauses (spec.expr self.now.depth) (rest_of t.old))
            (λ cs us. and_then (expect s.RightBracket us)
            (λ _. gives (tree.list_of (tree_of first) (clauses_of cs))))) result (rest_of t.new) }
    {
        let (first, clauses) = pair_ok(first, self.clauses(t))?;
        let whole = Expr::list_of(self.alloc, first, clauses)?;
        expect_close(t, Symbol::RightBracket, whole)
    }

    /// Reads what is after the opening bracket of a list.
    #[tactic(auto, unfolding(syntax_grammar::specs::Expressions::in_brackets))]
    fn in_brackets(&self, t: &mut Tokens<'_, '_>) -> Result<Expr, ParseError>
        requires { Nests self.now.depth (F.pre self.now.expr) (F.post self.now.expr) }
        ensures { Reads tree_of (spec.in_brackets (spec.expr self.now.depth) (rest_of t.old)) result
            (rest_of t.new) }
    {
        if t.take_if(Symbol::RightBracket) {
            return Ok(Expr::list(self.alloc, Vec::new(self.alloc))?);
        }
        let first = self.expr(t, Kind::Test)?;
        if t.is_at(Symbol::For) {
            return self.list_comprehension(t, first);
        }
        let found = self.items(t, Symbol::RightBracket, first)?;
        let whole = Expr::list(self.alloc, found)?;
        expect_close(t, Symbol::RightBracket, whole)
    }

    /// Reads an entry of a dictionary after its key, which is among the keys already.
    fn entry_value(
        &self,
        t: &mut Tokens<'_, '_>,
        entries: &mut EntriesSoFar,
    ) -> Result<(), ParseError>
        requires { Nests self.now.depth (F.pre self.now.expr) (F.post self.now.expr) }
        ensures { Reads (λ _. pairs_of entries.new)
            (and_then (expect s.Colon (rest_of t.old))
            (λ _ us. and_then (spec.expr self.now.depth k.Test us)
            (λ value. gives
            (record {
              keys = map tree_of entries.old.keys.items;
              values = map tree_of
                  entries.old.values.items ++ value ∷ [];
            })))) result (rest_of t.new) }
    {
        let value = self.expr_after(t, Symbol::Colon, Kind::Test)?;
        entries.values.push(value)?;
        Ok(())
    }

    /// Reads an entry of a dictionary.
    #[tactic(auto, unfolding(syntax_grammar::specs::Expressions::entry))]
    fn entry(&self, t: &mut Tokens<'_, '_>, entries: &mut EntriesSoFar) -> Result<(), ParseError>
        requires { Nests self.now.depth (F.pre self.now.expr) (F.post self.now.expr) }
        ensures { Reads (λ _. pairs_of entries.new)
            (spec.entry (spec.expr self.now.depth) (pairs_of entries.old) (rest_of t.old)) result
            (rest_of t.new) }
    {
        let key = self.expr(t, Kind::Test)?;
        entries.keys.push(key)?;
        self.entry_value(t, entries)
    }

    /// Reads the rest of the entries of a dictionary.
    #[tactic(auto, unfolding(syntax_grammar::specs::Expressions::entries))]
    fn entries(
        &self,
        t: &mut Tokens<'_, '_>,
        first: EntriesSoFar,
    ) -> Result<EntriesSoFar, ParseError>
        requires { Nests self.now.depth (F.pre self.now.expr) (F.post self.now.expr) }
        ensures { Reads pairs_of (spec.entries (spec.expr self.now.depth) (pairs_of first)
            (rest_of t.old)) result (rest_of t.new) }
    {
        let mut found = first;
        for _turn in 0..t.len() {
            if !t.take_if(Symbol::Comma) {
                return Ok(found);
            }
            if t.is_at(Symbol::RightBrace) {
                return Ok(found);
            }
            self.entry(t, &mut found)?;
        }
        Ok(found)
    }

    /// Reads the clauses of a dictionary, and its closing brace.
    fn dict_comprehension(
        &self,
        t: &mut Tokens<'_, '_>,
        entry: (Expr, Expr),
    ) -> Result<Expr, ParseError>
        requires { Nests self.now.depth (F.pre self.now.expr) (F.post self.now.expr) }
        ensures { Reads tree_of (and_then (spec.clauses (spec.expr self.now.depth) (rest_of t.old))
            (λ cs us. and_then (expect s.RightBrace us)
            (λ _. gives (tree.dict_of (tree_of entry.0) (tree_of entry.1) (clauses_of cs))))) result
            (rest_of t.new) }
    {
        let (entry, clauses) = pair_ok(entry, self.clauses(t))?;
        let whole = dict_by_clauses(self.alloc, entry, clauses)?;
        expect_close(t, Symbol::RightBrace, whole)
    }

    /// Reads the rest of the entries of a dictionary, and its closing brace.
    fn dict_with(&self, t: &mut Tokens<'_, '_>, first: EntriesSoFar) -> Result<Expr, ParseError>
        requires { Nests self.now.depth (F.pre self.now.expr) (F.post self.now.expr) }
        ensures { Reads tree_of
            (and_then (spec.entries (spec.expr self.now.depth) (pairs_of first) (rest_of t.old))
            (λ ps us. and_then (expect s.RightBrace us)
            (λ _. gives (tree.dict (exs_of ps.keys) (exs_of ps.values))))) result (rest_of t.new) }
    {
        let found = self.entries(t, first)?;
        let whole = dict(self.alloc, found)?;
        expect_close(t, Symbol::RightBrace, whole)
    }

    /// Reads a dictionary after its first entry.
    #[tactic(auto, unfolding(syntax_grammar::specs::Expressions::dict_after))]
    fn dict_after(&self, t: &mut Tokens<'_, '_>, entry: (Expr, Expr)) -> Result<Expr, ParseError>
        requires { Nests self.now.depth (F.pre self.now.expr) (F.post self.now.expr) }
        ensures { Reads tree_of (spec.dict_after (spec.expr self.now.depth) (tree_of entry.0)
            (tree_of entry.1) (rest_of t.old)) result (rest_of t.new) }
    {
        if t.is_at(Symbol::For) {
            return self.dict_comprehension(t, entry);
        }
        let first = one_entry(self.alloc, entry)?;
        self.dict_with(t, first)
    }

    /// Reads a dictionary after its first key.
    fn dict_behind(&self, t: &mut Tokens<'_, '_>, key: Expr) -> Result<Expr, ParseError>
        requires { Nests self.now.depth (F.pre self.now.expr) (F.post self.now.expr) }
        ensures { Reads tree_of
            (and_then (expect s.Colon (rest_of t.old))
            (λ _ us. and_then (spec.expr self.now.depth k.Test us)
            (λ value. spec.dict_after (spec.expr self.now.depth) (tree_of key) value))) result
            (rest_of t.new) }
    {
        let entry = pair_ok(key, self.expr_after(t, Symbol::Colon, Kind::Test))?;
        self.dict_after(t, entry)
    }

    /// Reads what is after an opening brace.
    #[tactic(auto, unfolding(syntax_grammar::specs::Expressions::in_braces))]
    fn in_braces(&self, t: &mut Tokens<'_, '_>) -> Result<Expr, ParseError>
        requires { Nests self.now.depth (F.pre self.now.expr) (F.post self.now.expr) }
        ensures { Reads tree_of (spec.in_braces (spec.expr self.now.depth) (rest_of t.old)) result
            (rest_of t.new) }
    {
        if t.take_if(Symbol::RightBrace) {
            return Ok(Expr::dict(self.alloc, Vec::new(self.alloc), Vec::new(self.alloc))?);
        }
        let key = self.expr(t, Kind::Test)?;
        self.dict_behind(t, key)
    }

    /// Reads calls, indexes and slices after an operand.
    #[tactic(auto, unfolding(syntax_grammar::specs::Expressions::postfix_rest))]
    fn postfix_rest(&self, t: &mut Tokens<'_, '_>, first: Expr) -> Result<Expr, ParseError>
        requires { Nests self.now.depth (F.pre self.now.expr) (F.post self.now.expr) }
        ensures { Reads tree_of (spec.postfix_rest (spec.expr self.now.depth) (tree_of first)
            (rest_of t.old)) result (rest_of t.new) }
    {
        let mut whole = first;
        for _turn in 0..t.len() {
            if t.take_if(Symbol::Dot) {
                whole = self.method_call(t, whole)?;
                continue;
            }
            if t.take_if(Symbol::LeftParen) {
                whole = self.call(t, whole)?;
                continue;
            }
            if t.take_if(Symbol::LeftBracket) {
                whole = self.subscript(t, whole)?;
                continue;
            }
            return Ok(whole);
        }
        Ok(whole)
    }

    /// Reads an atom after its first token, a symbol.
    #[tactic(auto, unfolding(syntax_grammar::specs::Expressions::symbol_atom))]
    fn symbol_atom(&self, t: &mut Tokens<'_, '_>, first: Symbol) -> Result<Expr, ParseError>
        requires { Nests self.now.depth (F.pre self.now.expr) (F.post self.now.expr) }
        ensures { Reads tree_of (spec.symbol_atom (spec.expr self.now.depth) first (rest_of t.old))
            result (rest_of t.new) }
    {
        match first {
            Symbol::NoneValue => Ok(Expr::literal(Literal::NoneValue)),
            Symbol::TrueValue => Ok(Expr::literal(Literal::TrueValue)),
            Symbol::FalseValue => Ok(Expr::literal(Literal::FalseValue)),
            Symbol::LeftParen => self.in_parens(t),
            Symbol::LeftBracket => self.in_brackets(t),
            Symbol::LeftBrace => self.in_braces(t),
            _ => Err(ParseError::Malformed),
        }
    }

    /// Reads an atom.
    #[tactic(auto, unfolding(syntax_grammar::specs::Expressions::atom))]
    fn atom(&self, t: &mut Tokens<'_, '_>) -> Result<Expr, ParseError>
        requires { Nests self.now.depth (F.pre self.now.expr) (F.post self.now.expr) }
        ensures { Reads tree_of (spec.atom (spec.expr self.now.depth) (rest_of t.old)) result
            (rest_of t.new) }
    {
        match t.take() {
            Some(Token::Name(name)) => {
                let text = Text::new(self.alloc, name.as_str())?;
                Ok(Expr::name(text))
            }
            Some(Token::Int(n)) => Ok(Expr::int(n)),
            Some(Token::Text(written)) => {
                let text = string_text(self.alloc, written)?;
                Ok(Expr::string(text))
            }
            Some(Token::Symbol(first)) => self.symbol_atom(t, first),
            None => Err(ParseError::Malformed),
        }
    }

    /// Reads an atom with calls, indexes and slices.
    #[tactic(auto, unfolding(syntax_grammar::specs::Expressions::postfix))]
    fn postfix(&self, t: &mut Tokens<'_, '_>) -> Result<Expr, ParseError>
        requires { Nests self.now.depth (F.pre self.now.expr) (F.post self.now.expr) }
        ensures { Reads tree_of (spec.postfix (spec.expr self.now.depth) (rest_of t.old)) result
            (rest_of t.new) }
    {
        let first = self.atom(t)?;
        self.postfix_rest(t, first)
    }

    /// Reads an operand with its signs.
    #[tactic(auto, unfolding(syntax_grammar::specs::Expressions::unary))]
    fn unary(&self, t: &mut Tokens<'_, '_>) -> Result<Expr, ParseError>
        requires { Nests self.now.depth (F.pre self.now.expr) (F.post self.now.expr) }
        ensures { Reads tree_of (spec.unary (spec.expr self.now.depth) (rest_of t.old)) result
            (rest_of t.new) }
    {
        if t.take_if(Symbol::Plus) {
            let operand = self.expr(t, Kind::Unary)?;
            return Ok(Expr::unary(self.alloc, UnaryOp::Plus, operand)?);
        }
        if t.take_if(Symbol::Minus) {
            let operand = self.expr(t, Kind::Unary)?;
            return Ok(Expr::unary(self.alloc, UnaryOp::Minus, operand)?);
        }
        self.postfix(t)
    }

    /// Reads a product.
    #[tactic(auto, unfolding(syntax_grammar::specs::Expressions::term, syntax_grammar::specs::Expressions::chain))]
    fn term(&self, t: &mut Tokens<'_, '_>) -> Result<Expr, ParseError>
        requires { Nests self.now.depth (F.pre self.now.expr) (F.post self.now.expr) }
        ensures { Reads tree_of (spec.term (spec.expr self.now.depth) (rest_of t.old)) result
            (rest_of t.new) }
    {
        let mut whole = self.unary(t)?;
        for _turn in 0..t.len() {
            let Some(op) = operator_at(t, Rank::Term) else {
                return Ok(whole);
            };
            t.skip();
            let right = self.unary(t);
            whole = operation(self.alloc, op, whole, right)?;
        }
        Ok(whole)
    }

    /// Reads a sum.
    #[tactic(auto, unfolding(syntax_grammar::specs::Expressions::sum, syntax_grammar::specs::Expressions::chain))]
    fn sum(&self, t: &mut Tokens<'_, '_>) -> Result<Expr, ParseError>
        requires { Nests self.now.depth (F.pre self.now.expr) (F.post self.now.expr) }
        ensures { Reads tree_of (spec.sum (spec.expr self.now.depth) (rest_of t.old)) result
            (rest_of t.new) }
    {
        let mut whole = self.term(t)?;
        for _turn in 0..t.len() {
            let Some(op) = operator_at(t, Rank::Sum) else {
                return Ok(whole);
            };
            t.skip();
            let right = self.term(t);
            whole = operation(self.alloc, op, whole, right)?;
        }
        Ok(whole)
    }

    /// Reads a comparison; comparisons do not chain.
    #[tactic(auto, unfolding(syntax_grammar::specs::Expressions::comparison))]
    fn comparison(&self, t: &mut Tokens<'_, '_>) -> Result<Expr, ParseError>
        requires { Nests self.now.depth (F.pre self.now.expr) (F.post self.now.expr) }
        ensures { Reads tree_of (spec.comparison (spec.sum (spec.expr self.now.depth)) (rest_of
            t.old)) result (rest_of t.new) }
    {
        let first = self.sum(t)?;
        let Some(op) = take_comparison(t) else {
            return Ok(first);
        };
        let right = self.sum(t);
        operation(self.alloc, op, first, right)
    }

    /// Reads a comparison, or the negation of one.
    #[tactic(auto, unfolding(syntax_grammar::specs::Expressions::not_test))]
    fn not_test(&self, t: &mut Tokens<'_, '_>) -> Result<Expr, ParseError>
        requires { Nests self.now.depth (F.pre self.now.expr) (F.post self.now.expr) }
        ensures { Reads tree_of (spec.not_test (spec.expr self.now.depth) (rest_of t.old)) result
            (rest_of t.new) }
    {
        if t.take_if(Symbol::Not) {
            let operand = self.expr(t, Kind::Not)?;
            return Ok(Expr::unary(self.alloc, UnaryOp::Not, operand)?);
        }
        self.comparison(t)
    }

    /// Reads a conjunction.
    #[tactic(auto, unfolding(syntax_grammar::specs::Expressions::and_test, syntax_grammar::specs::Expressions::chain))]
    fn and_test(&self, t: &mut Tokens<'_, '_>) -> Result<Expr, ParseError>
        requires { Nests self.now.depth (F.pre self.now.expr) (F.post self.now.expr) }
        ensures { Reads tree_of (spec.and_test (spec.expr self.now.depth) (rest_of t.old)) result
            (rest_of t.new) }
    {
        let mut whole = self.not_test(t)?;
        for _turn in 0..t.len() {
            let Some(op) = operator_at(t, Rank::And) else {
                return Ok(whole);
            };
            t.skip();
            let right = self.not_test(t);
            whole = operation(self.alloc, op, whole, right)?;
        }
        Ok(whole)
    }

    /// Reads a disjunction.
    #[tactic(auto, unfolding(syntax_grammar::specs::Expressions::or_test, syntax_grammar::specs::Expressions::chain))]
    fn or_test(&self, t: &mut Tokens<'_, '_>) -> Result<Expr, ParseError>
        requires { Nests self.now.depth (F.pre self.now.expr) (F.post self.now.expr) }
        ensures { Reads tree_of (spec.or_test (spec.expr self.now.depth) (rest_of t.old)) result
            (rest_of t.new) }
    {
        let mut whole = self.and_test(t)?;
        for _turn in 0..t.len() {
            let Some(op) = operator_at(t, Rank::Or) else {
                return Ok(whole);
            };
            t.skip();
            let right = self.and_test(t);
            whole = operation(self.alloc, op, whole, right)?;
        }
        Ok(whole)
    }

    /// Reads a choice after its condition.
    fn choice(
        &self,
        t: &mut Tokens<'_, '_>,
        first: Expr,
        condition: Expr,
    ) -> Result<Expr, ParseError>
        requires { Nests self.now.depth (F.pre self.now.expr) (F.post self.now.expr) }
        ensures { Reads tree_of
            (and_then (expect s.Else (rest_of t.old))
            (λ _ us. and_then (spec.expr self.now.depth k.Test us)
            (λ other. gives (tree.choice (tree_of first) (tree_of condition) other)))) result
            (rest_of t.new) }
    {
        let both = (first, condition);
        let ((first, condition), other) = pair_ok(
            both,
            self.expr_after(t, Symbol::Else, Kind::Test),
        )?;
        Ok(Expr::conditional(self.alloc, first, condition, other)?)
    }

    /// Reads an expression that may be a choice.
    #[tactic(auto, unfolding(syntax_grammar::specs::Expressions::conditional))]
    fn test(&self, t: &mut Tokens<'_, '_>) -> Result<Expr, ParseError>
        requires { Nests self.now.depth (F.pre self.now.expr) (F.post self.now.expr) }
        ensures { Reads tree_of (spec.conditional (spec.expr self.now.depth) (rest_of t.old)) result
            (rest_of t.new) }
    {
        let first = self.or_test(t)?;
        if !t.take_if(Symbol::If) {
            return Ok(first);
        }
        let (first, condition) = pair_ok(first, self.or_test(t))?;
        self.choice(t, first, condition)
    }

    /// Reads an expression of a kind. A name, a number or a string that does not continue is one by itself.
    #[tactic(auto, using(crate::proofs::Alone::alone))]
    fn of_kind(&self, t: &mut Tokens<'_, '_>, kind: Kind) -> Result<Expr, ParseError>
        requires { Nests self.now.depth (F.pre self.now.expr) (F.post self.now.expr) }
        ensures { Reads tree_of (spec.of_kind kind (spec.expr self.now.depth) (rest_of t.old))
            result (rest_of t.new) }
    {
        if t.is_alone() {
            return self.atom(t);
        }
        match kind {
            Kind::Test => self.test(t),
            Kind::Or => self.or_test(t),
            Kind::Not => self.not_test(t),
            Kind::Unary => self.unary(t),
            Kind::Postfix => self.postfix(t),
        }
    }
}

/// Reads an expression of a kind, with this many levels. Returns `Memory` only if an allocation fails.
pub fn expr(
    alloc: Global,
    t: &mut Tokens<'_, '_>,
    depth: usize,
    kind: Kind,
) -> Result<Expr, ParseError>
    ensures { Reads tree_of (spec.expr depth kind (rest_of t.old)) result (rest_of t.new) }
{
    if depth == 0 {
        return Err(ParseError::Malformed);
    }
    Grammar {
        alloc,
        depth: depth - 1,
        expr,
    }
    .of_kind(t, kind)
}

/// Reads the targets of a `for`, with this many levels. They are a tuple if there is a comma. Returns `Memory` only if
/// an allocation fails.
pub fn targets(alloc: Global, t: &mut Tokens<'_, '_>, depth: usize) -> Result<Expr, ParseError>
    ensures { Reads tree_of (spec.targets (spec.expr depth) (rest_of t.old)) result (rest_of
        t.new) }
{
    let levels = Grammar { alloc, depth, expr };
    levels.targets(t)
}
