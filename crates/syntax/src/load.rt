//! Load statements.
ghost use Rattle.std.specs.Prelude.{map};
ghost use Rattle.syntax_grammar.specs.Front.{and_then, gives, expect};
ghost use Rattle.syntax_grammar.specs.Files as spec;
ghost use Rattle.syntax_expressions.specs.View.{rest_of, Reads};
ghost use Rattle.syntax_tree.specs.Statements.{item_of, load_of};
ghost use Rattle.syntax_tokens.specs.declared.symbol.Symbol.TheVariants as s;

use base_types::Text;
use std::alloc::Global;
use syntax_expressions::{ParseError, Tokens};
use syntax_tokens::{Symbol, is_name, string_text};
use syntax_tree::{LoadItem, LoadStmt};

/// Reads a string, as the text that it stands for.
#[tactic(auto, unfolding(syntax_grammar::specs::Files::a_string))]
fn a_string(alloc: Global, t: &mut Tokens<'_, '_>) -> Result<Text, ParseError>
    ensures { Reads (λ x. x) (spec.a_string (rest_of t.old)) result (rest_of t.new) }
{
    match t.text() {
        Some(written) => {
            let text = string_text(alloc, written)?;
            t.skip();
            Ok(text)
        }
        None => Err(ParseError::Malformed),
    }
}

/// Reads a string that is a name.
#[tactic(auto, unfolding(syntax_grammar::specs::Files::a_name_string))]
fn a_name_string(alloc: Global, t: &mut Tokens<'_, '_>) -> Result<Text, ParseError>
    ensures { Reads (λ x. x) (spec.a_name_string (rest_of t.old)) result (rest_of t.new) }
{
    match t.text() {
        Some(written) => {
            if !is_name(written) {
                return Err(ParseError::Malformed);
            }
            let text = string_text(alloc, written)?;
            t.skip();
            Ok(text)
        }
        None => Err(ParseError::Malformed),
    }
}

/// Reads an item of a load.
#[tactic(auto, unfolding(syntax_grammar::specs::Files::item))]
fn item(alloc: Global, t: &mut Tokens<'_, '_>) -> Result<LoadItem, ParseError>
    ensures { Reads item_of (spec.item (rest_of t.old)) result (rest_of t.new) }
{
    if t.text().is_some() {
        let exported = a_name_string(alloc, t)?;
        let local = exported.share()?;
        return Ok(LoadItem { local, exported });
    }
    let local = t.take_name(alloc)?;
    t.expect(Symbol::Equal)?;
    let exported = a_name_string(alloc, t)?;
    Ok(LoadItem { local, exported })
}

/// Reads the rest of the items of a load.
#[tactic(auto, unfolding(syntax_grammar::specs::Files::more_items))]
fn more_items(
    alloc: Global,
    t: &mut Tokens<'_, '_>,
    first: LoadItem,
) -> Result<Vec<LoadItem>, ParseError>
    ensures { Reads (λ v. map item_of v.items) (spec.more_items (item_of first) (rest_of t.old))
        result (rest_of t.new) }
{
    let mut found = Vec::new(alloc);
    found.push(first)?;
    for _turn in 0..t.len() {
        if !t.take_if(Symbol::Comma) {
            return Ok(found);
        }
        if t.is_at(Symbol::RightParen) {
            return Ok(found);
        }
        let next = item(alloc, t)?;
        found.push(next)?;
    }
    Ok(found)
}

/// Reads the items of a load after its label, and the end of its line.
fn items_behind(alloc: Global, t: &mut Tokens<'_, '_>) -> Result<Vec<LoadItem>, ParseError>
    ensures { Reads (λ v. map item_of v.items)
        (and_then (expect s.Comma (rest_of t.old))
        (λ _ us. and_then (spec.item us)
        (λ x vs. and_then (spec.more_items x vs)
        (λ xs ws. and_then (expect s.RightParen ws)
        (λ _ zs. and_then (expect s.NewLine zs) (λ _. gives xs)))))) result (rest_of t.new) }
{
    t.expect(Symbol::Comma)?;
    let first = item(alloc, t)?;
    let found = more_items(alloc, t, first)?;
    t.expect(Symbol::RightParen)?;
    t.expect(Symbol::NewLine)?;
    Ok(found)
}

/// Reads a load statement after its `load`.
#[tactic(auto, unfolding(syntax_grammar::specs::Files::load_rest))]
fn load_rest(alloc: Global, t: &mut Tokens<'_, '_>, line: usize) -> Result<LoadStmt, ParseError>
    ensures { Reads load_of (spec.load_rest line (rest_of t.old)) result (rest_of t.new) }
{
    t.expect(Symbol::LeftParen)?;
    let label = a_string(alloc, t)?;
    let items = items_behind(alloc, t)?;
    Ok(LoadStmt { line, label, items })
}

/// Reads the load statements.
#[tactic(auto, unfolding(syntax_grammar::specs::Files::loads))]
pub(crate) fn loads(alloc: Global, t: &mut Tokens<'_, '_>) -> Result<Vec<LoadStmt>, ParseError>
    ensures { Reads (λ v. map load_of v.items) (spec.loads (rest_of t.old)) result (rest_of t.new) }
{
    let mut found = Vec::new(alloc);
    for _turn in 0..t.len() {
        let line = t.line();
        if !t.take_if(Symbol::Load) {
            return Ok(found);
        }
        let next = load_rest(alloc, t, line)?;
        found.push(next)?;
    }
    Ok(found)
}
