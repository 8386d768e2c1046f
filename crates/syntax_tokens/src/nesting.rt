//! How deep tokens are nested.
ghost use Rattle.std.specs.Prelude.{◌≡◌, ◌+◌, ◌<◌, ◌≤◌, ◌^◌, map, IfOk, OnOk};
ghost use Rattle.syntax_tokens.specs.Counts.{nesting_of, IsOrdered};
ghost use Rattle.syntax_tokens.specs.Nesting.{role, role_of, with_role, depth, outermost, too_deep};
ghost use Rattle.syntax_tokens.specs.declared.nesting.Role.TheVariants.{Counts, Opens, Closes, Separates, EndsLine, Indents, Dedents, Plain};
ghost use Rattle.syntax_tokens.specs.Token.{tok_of, lex_of};

use crate::symbol::Symbol;
use crate::token::{Lexeme, Token};
use std::alloc::{AllocError, Global};

/// What a token does to the counts of the levels.
#[derive(Clone, Copy, Drop)]
pub(crate) enum Role {
    /// It counts in its level.
    Counts,
    /// It counts in its level, and opens one.
    Opens,
    /// It closes a level.
    Closes,
    /// It ends an item.
    Separates,
    /// It ends the line's level, and begins that of the next line.
    EndsLine,
    Indents,
    Dedents,
    Plain,
}

fn symbol_role(mark: Symbol) -> Role
    ensures { result ≡ role mark }
{
    match mark {
        Symbol::NewLine => Role::EndsLine,
        Symbol::Indent => Role::Indents,
        Symbol::Dedent => Role::Dedents,
        Symbol::Not | Symbol::And | Symbol::Or | Symbol::If | Symbol::Else => Role::Counts,
        Symbol::For | Symbol::In => Role::Counts,
        Symbol::Plus | Symbol::Minus | Symbol::Star => Role::Counts,
        Symbol::SlashSlash | Symbol::Percent | Symbol::Dot => Role::Counts,
        Symbol::EqualEqual | Symbol::NotEqual => Role::Counts,
        Symbol::Less | Symbol::LessEqual => Role::Counts,
        Symbol::Greater | Symbol::GreaterEqual => Role::Counts,
        Symbol::LeftParen | Symbol::LeftBracket | Symbol::LeftBrace => Role::Opens,
        Symbol::RightParen | Symbol::RightBracket | Symbol::RightBrace => Role::Closes,
        Symbol::Comma => Role::Separates,
        _ => Role::Plain,
    }
}

fn token_role(token: Token<'_>) -> Role
    ensures { result ≡ role_of (tok_of token.entry) }
{
    match token {
        Token::Symbol(mark) => symbol_role(mark),
        Token::Name(_) => Role::Plain,
        Token::Int(_) => Role::Plain,
        Token::Text(_) => Role::Plain,
    }
}

/// The open levels of indentation, and the counts of the open levels of the line: the sum of all of them, and for each
/// level the sum of those around it, the innermost last.
#[derive(Drop)]
struct Depth {
    indents: usize,
    total: usize,
    outer: Vec<usize>,
}

impl Depth {
    /// Counts one more in the innermost level.
    fn count(&mut self)
        requires ordered { IsOrdered self.old }
        requires room { self.old.total + 1 < 2 ^ 64 }
        ensures ordered { IsOrdered self.new }
        ensures counts { nesting_of self.new ≡ with_role Counts (nesting_of self.old) }
        ensures few { (self.new.indents ≡ self.old.indents)
            × (self.new.total ≤ self.old.total + 1) }
    {
        if let Some(_around) = self.outer.last() {
            self.total += 1;
        }
    }

    /// Opens a level.
    fn open(&mut self) -> Result<(), AllocError>
        requires ordered { IsOrdered self.old }
        requires room { self.old.total + 1 < 2 ^ 64 }
        ensures ordered { OnOk result (IsOrdered self.new) }
        ensures counts { OnOk result (nesting_of self.new ≡ with_role Opens (nesting_of self.old)) }
        ensures few { (self.new.indents ≡ self.old.indents)
            × (self.new.total ≤ self.old.total + 1) }
    {
        self.count();
        self.outer.push(self.total)?;
        Ok(())
    }

    /// Closes the innermost level.
    fn close(&mut self)
        requires ordered { IsOrdered self.old }
        ensures ordered { IsOrdered self.new }
        ensures counts { nesting_of self.new ≡ with_role Closes (nesting_of self.old) }
        ensures few { (self.new.indents ≡ self.old.indents) × (self.new.total ≤ self.old.total) }
    {
        if let Some(around) = self.outer.pop() {
            self.total = around;
        }
    }

    /// Begins the innermost level's next item.
    fn separate(&mut self)
        requires ordered { IsOrdered self.old }
        ensures ordered { IsOrdered self.new }
        ensures counts { nesting_of self.new ≡ with_role Separates (nesting_of self.old) }
        ensures few { (self.new.indents ≡ self.old.indents) × (self.new.total ≤ self.old.total) }
    {
        if let Some(around) = self.outer.last() {
            self.total = *around;
        }
    }

    /// Begins the level of the next line.
    fn end_line(&mut self) -> Result<(), AllocError>
        ensures ordered { OnOk result (IsOrdered self.new) }
        ensures counts { OnOk result
            (nesting_of self.new ≡ with_role EndsLine (nesting_of self.old)) }
        ensures few { (self.new.indents ≡ self.old.indents) × (self.new.total ≡ 0) }
    {
        self.total = 0;
        self.outer.clear();
        self.outer.push(0)?;
        Ok(())
    }

    /// Counts a token.
    fn add(&mut self, role: Role) -> Result<(), AllocError>
        requires ordered { IsOrdered self.old }
        requires room { self.old.indents + self.old.total + 1 < 2 ^ 64 }
        ensures ordered { OnOk result (IsOrdered self.new) }
        ensures counts { OnOk result (nesting_of self.new ≡ with_role role (nesting_of self.old)) }
        ensures few { self.new.indents + self.new.total ≤ self.old.indents + self.old.total + 1 }
    {
        match role {
            Role::Counts => self.count(),
            Role::Opens => self.open()?,
            Role::Closes => self.close(),
            Role::Separates => self.separate(),
            Role::EndsLine => self.end_line()?,
            Role::Indents => self.indents += 1,
            Role::Dedents => self.indents = self.indents.saturating_sub(1),
            Role::Plain => {}
        }
        Ok(())
    }
}

/// Returns the depth at the start of a text.
fn outermost(alloc: Global) -> Result<Depth, AllocError>
    ensures { IfOk result (λ d. (nesting_of d ≡ outermost) × IsOrdered d × (d.total ≡ 0)
        × (d.indents ≡ 0)) }
{
    let mut around = Vec::new(alloc);
    around.push(0)?;
    Ok(Depth {
        indents: 0,
        total: 0,
        outer: around,
    })
}

/// Returns whether some token is nested deeper than 64.
pub(crate) fn too_deep(alloc: Global, tokens: &[Lexeme<'_>]) -> Result<bool, AllocError>
    ensures { IfOk result (λ deep. deep ≡ too_deep outermost (map lex_of tokens.now)) }
{
    let mut depth = outermost(alloc)?;
    for t in tokens {
        depth.add(token_role(t.token))?;
        if depth.indents + depth.total > 64 {
            return Ok(true);
        }
    }
    Ok(false)
}
