//! Statements and files. A function for what has a statement one level down takes the parser of those as a parameter,
//! so that each function is proved by itself.
ghost use Rattle.std.specs.Prelude.{◌≡◌, ◌∷◌, None, Some, map, if◌then◌else◌, ◌&&◌};
ghost use Rattle.syntax.specs.Inners.{Holds};
ghost use Rattle.syntax.specs.Answers.{Gives, Parses};
ghost use Rattle.syntax_grammar.specs.Front.{and_then, gives, expect};
ghost use Rattle.syntax_grammar.specs.Statements as spec;
ghost use Rattle.syntax_grammar.specs.Targets.{is_target, can_augment};
ghost use Rattle.syntax_grammar.specs.Files as files;
ghost use Rattle.syntax_grammar.specs.Files.{parse_of};
ghost use Rattle.syntax_expressions.specs.View.{rest_of, Reads};
ghost use Rattle.syntax_tree.specs.Tree as tree;
ghost use Rattle.syntax_tree.specs.View.{tree_of};
ghost use Rattle.syntax_tree.specs.Statements.{stmt_of, branch_of, top_of, file_of};
ghost use Rattle.syntax_tokens.specs.declared.symbol.Symbol.TheVariants as s;

use crate::function::def_rest;
use crate::load::loads;
use base_types::pair_ok;
use std::alloc::Global;
use std::sync::Arc;
use syntax_expressions::{ParseError, Tokens, expr, is_target, targets};
use syntax_grammar::{FileKind, Kind, Within};
use syntax_tokens::{Refused, Symbol, read_tokens};
use syntax_tree::{BinaryOp, Branch, Expr, File, Stmt, Top};
use values_semantics::faults;

/// How many levels an expression has: one more than the depth to which brackets, signs and the like can be nested.
pub(crate) const LEVELS: usize = 65;

/// Reads an expression.
#[tactic(auto, unfolding(syntax_grammar::specs::Statements::a_test))]
pub(crate) fn test(alloc: Global, t: &mut Tokens<'_, '_>) -> Result<Expr, ParseError>
    ensures { Reads tree_of (spec.a_test (rest_of t.old)) result (rest_of t.new) }
{
    expr(alloc, t, LEVELS, Kind::Test)
}

/// Reads the targets of a `for`.
#[tactic(auto, unfolding(syntax_grammar::specs::Statements::loop_targets))]
fn loop_targets(alloc: Global, t: &mut Tokens<'_, '_>) -> Result<Expr, ParseError>
    ensures { Reads tree_of (spec.loop_targets (rest_of t.old)) result (rest_of t.new) }
{
    targets(alloc, t, LEVELS - 1)
}

/// Reads the rest of several expressions.
#[tactic(auto, unfolding(syntax_grammar::specs::Statements::more_exprs))]
fn more_exprs(alloc: Global, t: &mut Tokens<'_, '_>, first: Expr) -> Result<Vec<Expr>, ParseError>
    ensures { Reads (λ v. map tree_of v.items) (spec.more_exprs (tree_of first) (rest_of t.old))
        result (rest_of t.new) }
{
    let mut found = Vec::new(alloc);
    found.push(first)?;
    for _turn in 0..t.len() {
        if !t.take_if(Symbol::Comma) {
            return Ok(found);
        }
        let next = test(alloc, t)?;
        found.push(next)?;
    }
    Ok(found)
}

/// Reads expressions, which are a tuple if a comma is after the first.
#[tactic(auto, unfolding(syntax_grammar::specs::Statements::exprs))]
fn exprs(alloc: Global, t: &mut Tokens<'_, '_>) -> Result<Expr, ParseError>
    ensures { Reads tree_of (spec.exprs (rest_of t.old)) result (rest_of t.new) }
{
    let first = test(alloc, t)?;
    if !t.is_at(Symbol::Comma) {
        return Ok(first);
    }
    let found = more_exprs(alloc, t, first)?;
    Ok(Expr::tuple(alloc, found)?)
}

/// Reads what a `for` iterates over, with its word.
fn iterable(alloc: Global, t: &mut Tokens<'_, '_>) -> Result<Expr, ParseError>
    ensures { Reads tree_of (and_then (expect s.In (rest_of t.old)) (λ _. spec.exprs)) result
        (rest_of t.new) }
{
    t.expect(Symbol::In)?;
    exprs(alloc, t)
}

/// Returns the operator of the augmented assignment that the next token is, if it is one.
#[tactic(auto, unfolding(syntax_grammar::specs::Statements::augment_at))]
fn augment_at(t: &Tokens<'_, '_>) -> Option<BinaryOp>
    ensures { result ≡ spec.augment_at (rest_of t.now) }
{
    if t.is_at(Symbol::PlusEqual) {
        Some(BinaryOp::Add)
    } else if t.is_at(Symbol::MinusEqual) {
        Some(BinaryOp::Subtract)
    } else if t.is_at(Symbol::StarEqual) {
        Some(BinaryOp::Multiply)
    } else if t.is_at(Symbol::SlashSlashEqual) {
        Some(BinaryOp::Divide)
    } else if t.is_at(Symbol::PercentEqual) {
        Some(BinaryOp::Remainder)
    } else {
        None
    }
}

/// Returns whether an expression can be the target of an augmented assignment.
fn can_augment(e: &Expr, in_def: bool) -> bool
    ensures { result ≡ can_augment in_def (tree_of e.now) }
{
    match e {
        Expr::Name(_, _) => in_def,
        Expr::Index(_, _) => true,
        Expr::Tuple(_) => false,
        Expr::List(_) => false,
        Expr::Int(_) => false,
        Expr::Str(_) => false,
        Expr::Literal(_) => false,
        Expr::Dict(_, _) => false,
        Expr::ListOf(_, _) => false,
        Expr::DictOf(_, _, _) => false,
        Expr::Unary(_, _) => false,
        Expr::Binary(_, _, _) => false,
        Expr::Choice(_, _, _) => false,
        Expr::Slice(_, _, _) => false,
        Expr::Call(_, _, _) => false,
        Expr::Method(_, _, _, _) => false,
    }
}

/// Reads what is after `return`.
#[tactic(auto, unfolding(syntax_grammar::specs::Statements::return_rest))]
fn return_rest(alloc: Global, t: &mut Tokens<'_, '_>, line: usize) -> Result<Stmt, ParseError>
    ensures { Reads stmt_of (spec.return_rest line (rest_of t.old)) result (rest_of t.new) }
{
    if t.is_at(Symbol::NewLine) {
        return Ok(Stmt::return_value(line, None));
    }
    let found = exprs(alloc, t)?;
    let value = Arc::new(alloc, found)?;
    Ok(Stmt::return_value(line, Some(value)))
}

/// Reads the value of an assignment, if its other side is fit to be a target.
fn assignment_value(alloc: Global, t: &mut Tokens<'_, '_>, is_fit: bool) -> Result<Expr, ParseError>
    ensures { Reads tree_of (if is_fit then spec.exprs (rest_of t.old) else None) result (rest_of
        t.new) }
{
    if !is_fit {
        return Err(ParseError::Malformed);
    }
    exprs(alloc, t)
}

/// Reads an assignment after its `=`.
fn assign_rest(
    alloc: Global,
    t: &mut Tokens<'_, '_>,
    line: usize,
    first: Expr,
) -> Result<Stmt, ParseError>
    ensures { Reads stmt_of (if is_target (tree_of first) then and_then (spec.exprs (rest_of t.old))
        (λ value. gives (tree.assign line (tree_of first) value)) else None) result (rest_of
        t.new) }
{
    let is_fit = is_target(&first);
    let (first, value) = pair_ok(first, assignment_value(alloc, t, is_fit))?;
    Ok(Stmt::assign(alloc, line, first, value)?)
}

/// Reads an augmented assignment from its operator on.
fn augment_rest(
    alloc: Global,
    t: &mut Tokens<'_, '_>,
    within: Within,
    line: usize,
    first: Expr,
    op: BinaryOp,
) -> Result<Stmt, ParseError>
    ensures { Reads stmt_of (spec.augment_rest within line (tree_of first) (Some op) (rest_of
        t.old)) result (rest_of t.new) }
{
    let is_fit = can_augment(&first, within.in_def);
    t.skip();
    let (first, value) = pair_ok(first, assignment_value(alloc, t, is_fit))?;
    Ok(Stmt::augment(alloc, line, first, op, value)?)
}

/// Reads what is after the first expressions of a statement.
#[tactic(auto, unfolding(syntax_grammar::specs::Statements::expr_rest))]
fn expr_rest(
    alloc: Global,
    t: &mut Tokens<'_, '_>,
    within: Within,
    line: usize,
    first: Expr,
) -> Result<Stmt, ParseError>
    ensures { Reads stmt_of (spec.expr_rest within line (tree_of first) (rest_of t.old)) result
        (rest_of t.new) }
{
    if t.take_if(Symbol::Equal) {
        return assign_rest(alloc, t, line, first);
    }
    let Some(op) = augment_at(t) else {
        return Ok(Stmt::eval(alloc, line, first)?);
    };
    augment_rest(alloc, t, within, line, first, op)
}

/// Reads a small statement.
#[tactic(auto, unfolding(syntax_grammar::specs::Statements::small))]
fn small_stmt(alloc: Global, t: &mut Tokens<'_, '_>, within: Within) -> Result<Stmt, ParseError>
    ensures { Reads stmt_of (spec.small within (rest_of t.old)) result (rest_of t.new) }
{
    let line = t.line();
    if t.take_if(Symbol::Pass) {
        return Ok(Stmt::pass_stmt(line));
    }
    if t.take_if(Symbol::Break) {
        if !within.in_for {
            return Err(ParseError::Malformed);
        }
        return Ok(Stmt::break_stmt(line));
    }
    if t.take_if(Symbol::Continue) {
        if !within.in_for {
            return Err(ParseError::Malformed);
        }
        return Ok(Stmt::continue_stmt(line));
    }
    if t.take_if(Symbol::Return) {
        if !within.in_def {
            return Err(ParseError::Malformed);
        }
        return return_rest(alloc, t, line);
    }
    let first = exprs(alloc, t)?;
    expr_rest(alloc, t, within, line, first)
}

/// Reads a small statement and the end of its line.
#[tactic(auto, unfolding(syntax_grammar::specs::Statements::simple))]
pub(crate) fn simple(
    alloc: Global,
    t: &mut Tokens<'_, '_>,
    within: Within,
) -> Result<Stmt, ParseError>
    ensures { Reads stmt_of (spec.simple within (rest_of t.old)) result (rest_of t.new) }
{
    let found = small_stmt(alloc, t, within)?;
    let (found, ()) = pair_ok(found, t.expect(Symbol::NewLine))?;
    Ok(found)
}

/// Reads statements that have others one level down.
#[derive(Clone, Copy)]
pub(crate) struct Suites<F> {
    pub(crate) alloc: Global,
    /// How many levels may still be entered.
    pub(crate) depth: usize,
    pub(crate) stmt: F,
}

impl<F: Fn(Global, &mut Tokens<'_, '_>, usize, Within) -> Result<Stmt, ParseError>> Suites<F> {
    /// Reads a statement one level down.
    fn stmt(&self, t: &mut Tokens<'_, '_>, within: Within) -> Result<Stmt, ParseError>
        requires { Holds self.now.depth (F.pre self.now.stmt) (F.post self.now.stmt) }
        ensures { Reads stmt_of (spec.stmt self.now.depth within (rest_of t.old)) result (rest_of
            t.new) }
    {
        (self.stmt)(self.alloc, t, self.depth, within)
    }

    /// Reads the statements of a block.
    #[tactic(auto, unfolding(syntax_grammar::specs::Statements::stmts))]
    fn stmts(&self, t: &mut Tokens<'_, '_>, within: Within) -> Result<Vec<Stmt>, ParseError>
        requires { Holds self.now.depth (F.pre self.now.stmt) (F.post self.now.stmt) }
        ensures { Reads (λ v. map stmt_of v.items) (spec.stmts (spec.stmt self.now.depth) within
            (rest_of t.old)) result (rest_of t.new) }
    {
        let mut found = Vec::new(self.alloc);
        for _turn in 0..t.len() {
            if t.is_at(Symbol::Dedent) {
                return Ok(found);
            }
            let next = self.stmt(t, within)?;
            found.push(next)?;
        }
        Ok(found)
    }

    /// Reads a block.
    #[tactic(auto, unfolding(syntax_grammar::specs::Statements::block))]
    fn block(&self, t: &mut Tokens<'_, '_>, within: Within) -> Result<Vec<Stmt>, ParseError>
        requires { Holds self.now.depth (F.pre self.now.stmt) (F.post self.now.stmt) }
        ensures { Reads (λ v. map stmt_of v.items) (spec.block (spec.stmt self.now.depth) within
            (rest_of t.old)) result (rest_of t.new) }
    {
        t.expect(Symbol::Indent)?;
        let found = self.stmts(t, within)?;
        t.expect(Symbol::Dedent)?;
        if found.is_empty() {
            return Err(ParseError::Malformed);
        }
        Ok(found)
    }

    /// Reads a suite.
    #[tactic(auto, unfolding(syntax_grammar::specs::Statements::suite))]
    pub(crate) fn suite(
        &self,
        t: &mut Tokens<'_, '_>,
        within: Within,
    ) -> Result<Vec<Stmt>, ParseError>
        requires { Holds self.now.depth (F.pre self.now.stmt) (F.post self.now.stmt) }
        ensures { Reads (λ v. map stmt_of v.items) (spec.suite (spec.stmt self.now.depth) within
            (rest_of t.old)) result (rest_of t.new) }
    {
        if t.take_if(Symbol::NewLine) {
            return self.block(t, within);
        }
        let only = simple(self.alloc, t, within)?;
        let mut found = Vec::new(self.alloc);
        found.push(only)?;
        Ok(found)
    }

    /// Reads a suite with its colon.
    fn suite_behind(&self, t: &mut Tokens<'_, '_>, within: Within) -> Result<Vec<Stmt>, ParseError>
        requires { Holds self.now.depth (F.pre self.now.stmt) (F.post self.now.stmt) }
        ensures { Reads (λ v. map stmt_of v.items)
            (and_then (expect s.Colon (rest_of t.old))
            (λ _. spec.suite (spec.stmt self.now.depth) within)) result (rest_of t.new) }
    {
        t.expect(Symbol::Colon)?;
        self.suite(t, within)
    }

    /// Reads a branch after its word.
    #[tactic(auto, unfolding(syntax_grammar::specs::Statements::branch))]
    fn branch(
        &self,
        t: &mut Tokens<'_, '_>,
        within: Within,
        line: usize,
    ) -> Result<Branch, ParseError>
        requires { Holds self.now.depth (F.pre self.now.stmt) (F.post self.now.stmt) }
        ensures { Reads branch_of (spec.branch (spec.stmt self.now.depth) within line (rest_of
            t.old)) result (rest_of t.new) }
    {
        let condition = test(self.alloc, t)?;
        let (condition, body) = pair_ok(condition, self.suite_behind(t, within))?;
        Ok(Branch::new(self.alloc, line, condition, body)?)
    }

    /// Reads the `elif` branches after the first one.
    #[tactic(auto, unfolding(syntax_grammar::specs::Statements::more_branches))]
    fn more_branches(
        &self,
        t: &mut Tokens<'_, '_>,
        within: Within,
        first: &Branch,
    ) -> Result<Vec<Branch>, ParseError>
        requires { Holds self.now.depth (F.pre self.now.stmt) (F.post self.now.stmt) }
        ensures { Reads (λ v. branch_of first.now ∷ map branch_of v.items)
            (spec.more_branches (spec.stmt self.now.depth) within (branch_of first.now)
            (rest_of t.old)) result (rest_of t.new) }
    {
        let mut found = Vec::new(self.alloc);
        for _turn in 0..t.len() {
            let line = t.line();
            if !t.take_if(Symbol::Elif) {
                return Ok(found);
            }
            let next = self.branch(t, within, line)?;
            found.push(next)?;
        }
        Ok(found)
    }

    /// Reads the `else` branch.
    #[tactic(auto, unfolding(syntax_grammar::specs::Statements::other))]
    fn else_suite(&self, t: &mut Tokens<'_, '_>, within: Within) -> Result<Vec<Stmt>, ParseError>
        requires { Holds self.now.depth (F.pre self.now.stmt) (F.post self.now.stmt) }
        ensures { Reads (λ v. map stmt_of v.items) (spec.other (spec.stmt self.now.depth) within
            (rest_of t.old)) result (rest_of t.new) }
    {
        if !t.take_if(Symbol::Else) {
            return Ok(Vec::new(self.alloc));
        }
        self.suite_behind(t, within)
    }

    /// Reads what is after `if`.
    #[tactic(auto, unfolding(syntax_grammar::specs::Statements::if_rest))]
    fn if_rest(
        &self,
        t: &mut Tokens<'_, '_>,
        within: Within,
        line: usize,
    ) -> Result<Stmt, ParseError>
        requires { Holds self.now.depth (F.pre self.now.stmt) (F.post self.now.stmt) }
        ensures { Reads stmt_of (spec.if_rest (spec.stmt self.now.depth) within line (rest_of
            t.old)) result (rest_of t.new) }
    {
        let first = self.branch(t, within, line)?;
        let branches = self.more_branches(t, within, &first)?;
        let other = self.else_suite(t, within)?;
        Ok(Stmt::if_stmt(self.alloc, first, branches, other)?)
    }

    /// Reads what is after `for`.
    #[tactic(auto, unfolding(syntax_grammar::specs::Statements::for_rest))]
    fn for_rest(
        &self,
        t: &mut Tokens<'_, '_>,
        within: Within,
        line: usize,
    ) -> Result<Stmt, ParseError>
        requires { Holds self.now.depth (F.pre self.now.stmt) (F.post self.now.stmt) }
        ensures { Reads stmt_of (spec.for_rest (spec.stmt self.now.depth) within line (rest_of
            t.old)) result (rest_of t.new) }
    {
        let inside = Within {
            in_def: within.in_def,
            in_for: true,
        };
        let target = loop_targets(self.alloc, t)?;
        let both = pair_ok(target, iterable(self.alloc, t))?;
        let ((target, sequence), body) = pair_ok(both, self.suite_behind(t, inside))?;
        Ok(Stmt::for_each(self.alloc, line, target, sequence, body)?)
    }

    /// Reads a statement.
    #[tactic(auto, unfolding(syntax_grammar::specs::Statements::statement))]
    pub(crate) fn statement(
        &self,
        t: &mut Tokens<'_, '_>,
        within: Within,
    ) -> Result<Stmt, ParseError>
        requires { Holds self.now.depth (F.pre self.now.stmt) (F.post self.now.stmt) }
        ensures { Reads stmt_of (spec.statement (spec.stmt self.now.depth) within (rest_of t.old))
            result (rest_of t.new) }
    {
        let line = t.line();
        if t.take_if(Symbol::If) {
            return self.if_rest(t, within, line);
        }
        if t.take_if(Symbol::For) {
            return self.for_rest(t, within, line);
        }
        simple(self.alloc, t, within)
    }
}

/// Reads a statement, with this many levels.
pub(crate) fn stmt(
    alloc: Global,
    t: &mut Tokens<'_, '_>,
    depth: usize,
    within: Within,
) -> Result<Stmt, ParseError>
    ensures { Reads stmt_of (spec.stmt depth within (rest_of t.old)) result (rest_of t.new) }
{
    if depth == 0 {
        return Err(ParseError::Malformed);
    }
    Suites {
        alloc,
        depth: depth - 1,
        stmt,
    }
    .statement(t, within)
}

/// Returns whether files of the kind have functions.
fn has_defs(kind: FileKind) -> bool
    ensures { result ≡ files.has_defs kind }
{
    match kind {
        FileKind::Build => false,
        FileKind::Bzl => true,
    }
}

/// Reads a statement or a function of a file.
#[tactic(auto, unfolding(syntax_grammar::specs::Files::top))]
fn top(alloc: Global, t: &mut Tokens<'_, '_>, kind: FileKind) -> Result<Top, ParseError>
    ensures { Reads top_of (files.top kind (rest_of t.old)) result (rest_of t.new) }
{
    let line = t.line();
    let is_def = has_defs(kind) && t.is_at(Symbol::Def);
    if is_def {
        t.skip();
        let found = def_rest(alloc, t, line)?;
        return Ok(Top::function(alloc, found)?);
    }
    let within = Within {
        in_def: false,
        in_for: false,
    };
    let found = simple(alloc, t, within)?;
    Ok(Top::statement(found))
}

/// Reads the statements and functions of a file.
#[tactic(auto, unfolding(syntax_grammar::specs::Files::tops))]
fn tops(alloc: Global, t: &mut Tokens<'_, '_>, kind: FileKind) -> Result<Vec<Top>, ParseError>
    ensures { Reads (λ v. map top_of v.items) (files.tops kind (rest_of t.old)) result (rest_of
        t.new) }
{
    let mut found = Vec::new(alloc);
    for _turn in 0..t.len() {
        if t.is_end() {
            return Ok(found);
        }
        let next = top(alloc, t, kind)?;
        found.push(next)?;
    }
    Ok(found)
}

/// Takes a first statement that is one string alone, and returns its line.
#[tactic(auto, unfolding(syntax_grammar::specs::Files::leading))]
fn leading(t: &mut Tokens<'_, '_>) -> Option<usize>
    ensures { files.leading (rest_of t.old) ≡ gives result (rest_of t.new) }
{
    let line = t.line();
    let is_string = t.text().is_some();
    if is_string && t.is_behind(Symbol::NewLine) {
        t.skip();
        t.skip();
        return Some(line);
    }
    None
}

/// Reads a file.
#[tactic(auto, unfolding(syntax_grammar::specs::Files::file))]
fn file(alloc: Global, t: &mut Tokens<'_, '_>, kind: FileKind) -> Result<File, ParseError>
    ensures { Reads file_of (files.file kind (rest_of t.old)) result (rest_of t.new) }
{
    let leading = leading(t);
    let loads = loads(alloc, t)?;
    let tops = tops(alloc, t, kind)?;
    if !t.is_end() {
        return Err(ParseError::Malformed);
    }
    Ok(File {
        leading,
        loads,
        tops,
    })
}

/// Reads a text as the functions of the definitions do.
#[tactic(auto, unfolding(syntax_grammar::specs::Files::parse_of))]
fn parse_tokens(alloc: Global, text: &[u8], kind: FileKind) -> Result<File, Refused>
    ensures { Gives (parse_of kind text.now) result }
{
    match read_tokens(alloc, text) {
        Ok(found) => {
            let mut t = Tokens {
                left: found.as_slice(),
            };
            match file(alloc, &mut t, kind) {
                Ok(whole) => Ok(whole),
                Err(ParseError::Malformed) => Err(Refused::Syntax {
                    code: faults::SYNTAX,
                    line: 0,
                }),
                Err(ParseError::Memory(error)) => Err(Refused::Memory(error)),
            }
        }
        Err(refused) => Err(refused),
    }
}

/// Parses a file. The tree is the one that the grammar relates to the text, with its lines. Returns the first fault
/// that applies, in this order. It is 2 if a byte is over 127, with the line of the first such byte. It is 3 if the
/// tokens are malformed, and 12 if a token is nested deeper than 64. It is 3 if the grammar relates the tokens to no
/// tree. Returns `Memory` only if an allocation fails.
pub fn parse(alloc: Global, text: &[u8], kind: FileKind) -> Result<File, Refused>
    ensures { Parses kind text.now result }
{
    parse_tokens(alloc, text, kind)
}
