//! Functions.
ghost use Rattle.std.specs.Prelude.{map};
ghost use Rattle.syntax_grammar.specs.Front.{and_then, gives, expect};
ghost use Rattle.syntax_grammar.specs.Files as spec;
ghost use Rattle.syntax_expressions.specs.View.{rest_of, Reads};
ghost use Rattle.syntax_tree.specs.Statements.{stmt_of, param_of, fn_of};
ghost use Rattle.syntax_tokens.specs.declared.symbol.Symbol.TheVariants as s;

use crate::parameters::Parameters;
use crate::statement::{LEVELS, Suites, stmt, test};
use base_types::Text;
use std::alloc::Global;
use std::sync::Arc;
use syntax_bindings::new_function;
use syntax_expressions::{ParseError, Tokens};
use syntax_grammar::Within;
use syntax_tokens::Symbol;
use syntax_tree::{Def, Param, Stmt};

/// Reads what is after the name of a parameter.
#[tactic(auto, unfolding(syntax_grammar::specs::Files::param_rest))]
fn param_rest(
    alloc: Global,
    t: &mut Tokens<'_, '_>,
    params: &Parameters,
    name: Text,
) -> Result<Param, ParseError>
    ensures { Reads param_of (spec.param_rest (map param_of params.now) name (rest_of t.old)) result
        (rest_of t.new) }
{
    if t.take_if(Symbol::Equal) {
        let value = test(alloc, t)?;
        let default = Arc::new(alloc, value)?;
        return Ok(Param {
            name,
            default: Some(default),
        });
    }
    if params.has_default() {
        return Err(ParseError::Malformed);
    }
    Ok(Param {
        name,
        default: None,
    })
}

/// Reads a parameter.
#[tactic(auto, unfolding(syntax_grammar::specs::Files::param))]
fn param(alloc: Global, t: &mut Tokens<'_, '_>, params: &Parameters) -> Result<Param, ParseError>
    ensures { Reads param_of (spec.param (map param_of params.now) (rest_of t.old)) result
        (rest_of t.new) }
{
    let name = t.take_name(alloc)?;
    if params.has_name(&name) {
        return Err(ParseError::Malformed);
    }
    param_rest(alloc, t, params, name)
}

/// Reads parameters up to their closing bracket.
#[tactic(auto, unfolding(syntax_grammar::specs::Files::params))]
fn params(alloc: Global, t: &mut Tokens<'_, '_>) -> Result<Vec<Param>, ParseError>
    ensures { Reads (λ v. map param_of v.items) (spec.params (rest_of t.old)) result (rest_of
        t.new) }
{
    let mut found = Parameters::new(alloc);
    for _turn in 0..t.len() {
        if t.is_at(Symbol::RightParen) {
            return Ok(found.into_params());
        }
        let next = param(alloc, t, &found)?;
        found = found.with(alloc, next)?;
        if !t.take_if(Symbol::Comma) {
            return Ok(found.into_params());
        }
    }
    Ok(found.into_params())
}

/// Reads the suite of a function.
#[tactic(auto, unfolding(syntax_grammar::specs::Files::body))]
fn body(alloc: Global, t: &mut Tokens<'_, '_>) -> Result<Vec<Stmt>, ParseError>
    ensures { Reads (λ v. map stmt_of v.items) (spec.body (rest_of t.old)) result (rest_of t.new) }
{
    let levels = Suites {
        alloc,
        depth: LEVELS,
        stmt,
    };
    let within = Within {
        in_def: true,
        in_for: false,
    };
    levels.suite(t, within)
}

/// Reads parameters with both brackets.
fn params_in_brackets(alloc: Global, t: &mut Tokens<'_, '_>) -> Result<Vec<Param>, ParseError>
    ensures { Reads (λ v. map param_of v.items)
        (and_then (expect s.LeftParen (rest_of t.old))
        (λ _ us. and_then (spec.params us)
        (λ ps vs. and_then (expect s.RightParen vs) (λ _. gives ps)))) result (rest_of t.new) }
{
    t.expect(Symbol::LeftParen)?;
    let found = params(alloc, t)?;
    t.expect(Symbol::RightParen)?;
    Ok(found)
}

/// Reads the suite of a function with its colon.
fn body_behind(alloc: Global, t: &mut Tokens<'_, '_>) -> Result<Vec<Stmt>, ParseError>
    ensures { Reads (λ v. map stmt_of v.items)
        (and_then (expect s.Colon (rest_of t.old)) (λ _. spec.body)) result (rest_of t.new) }
{
    t.expect(Symbol::Colon)?;
    body(alloc, t)
}

/// Reads a function after its `def`.
#[tactic(auto, unfolding(syntax_grammar::specs::Files::def_rest))]
pub(crate) fn def_rest(
    alloc: Global,
    t: &mut Tokens<'_, '_>,
    line: usize,
) -> Result<Def, ParseError>
    ensures { Reads fn_of (spec.def_rest line (rest_of t.old)) result (rest_of t.new) }
{
    let name = t.take_name(alloc)?;
    let params = params_in_brackets(alloc, t)?;
    let body = body_behind(alloc, t)?;
    Ok(new_function(alloc, line, name, params, body)?)
}
