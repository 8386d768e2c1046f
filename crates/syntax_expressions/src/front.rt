//! What is at the front of the tokens that are left.
ghost use Rattle.std.specs.Prelude.{◌≡◌, ◌&&◌, length, map, Ok, Err, if◌then◌else◌};
ghost use Rattle.std.specs.Option.{option_map};
ghost use Rattle.syntax_grammar.specs.Front.{code, same, is_at, tail, line_at, name_at, is_name_before, text_at, is_end, expect, a_name};
ghost use Rattle.syntax_grammar.specs.Expressions.{operator_at, comparison_at};
ghost use Rattle.syntax_tokens.specs.Token.{lex_of};
ghost use Rattle.syntax_expressions.specs.Alone.{joins, goes_on, is_alone};
ghost use Rattle.syntax_expressions.specs.Parts.{Compares};
ghost use Rattle.syntax_expressions.specs.View.{rest_of, Reads, Takes};
ghost use Rattle.syntax_expressions.specs.declared.front.ParseError.TheVariants.{Malformed, Memory};

use base_types::{Memory, Text};
use std::alloc::{AllocError, AllocFailed, Global};
use syntax_grammar::Rank;
use syntax_tokens::{Ascii, Lexeme, Symbol, Token};
use syntax_tree::BinaryOp;

/// Why nothing was read.
#[derive(Clone, Copy, Drop)]
pub enum ParseError {
    /// The tokens do not begin in this way.
    Malformed,
    /// An allocation failed.
    Memory(Memory),
}

impl From<AllocError> for ParseError {
    ghost use Rattle.base_types.specs.Refusals.{memory};

    ghost from_gives = { λ _ e. e ≡ Memory memory };

    fn from(error: AllocError) -> ParseError {
        ParseError::Memory(Memory::from(error))
    }
}

impl<T: Drop> From<AllocFailed<T>> for ParseError {
    ghost use Rattle.base_types.specs.Refusals.{memory};

    ghost from_gives = { λ _ e. e ≡ Memory memory };

    fn from(error: AllocFailed<T>) -> ParseError {
        ParseError::Memory(Memory::from(error))
    }
}

impl From<Memory> for ParseError {
    ghost use Rattle.base_types.specs.Refusals.{memory};

    ghost from_gives = { λ _ e. e ≡ Memory memory };

    fn from(error: Memory) -> ParseError {
        ParseError::Memory(error)
    }
}

/// Returns the number of a symbol, which is its place among the symbols.
fn symbol_code(symbol: Symbol) -> u8
    ensures { result ≡ code symbol }
{
    symbol as u8
}

#[tactic(auto, unfolding(syntax_grammar::specs::Front::same))]
fn same(a: Symbol, b: Symbol) -> bool
    ensures { result ≡ same a b }
{
    symbol_code(a) == symbol_code(b)
}

/// Returns whether an expression may continue with a symbol. Such symbols are a dot, an opening bracket, a binary
/// operator, the `not` of `not in` and the `if` of a choice.
#[tactic(auto, unfolding(crate::specs::Alone::joins, syntax_grammar::specs::Front::same))]
fn joins(symbol: Symbol) -> bool
    ensures { result ≡ joins symbol }
{
    match symbol {
        Symbol::Dot => true,
        Symbol::LeftParen => true,
        Symbol::LeftBracket => true,
        Symbol::Or => true,
        Symbol::And => true,
        Symbol::If => true,
        Symbol::Not => true,
        Symbol::In => true,
        Symbol::Plus => true,
        Symbol::Minus => true,
        Symbol::Star => true,
        Symbol::SlashSlash => true,
        Symbol::Percent => true,
        Symbol::EqualEqual => true,
        Symbol::NotEqual => true,
        Symbol::Less => true,
        Symbol::LessEqual => true,
        Symbol::Greater => true,
        Symbol::GreaterEqual => true,
        _ => false,
    }
}

/// Returns whether an expression may continue with the next token.
#[tactic(auto, unfolding(syntax_grammar::specs::Front::is_at, crate::specs::Alone::goes_on, crate::specs::Alone::joins))]
fn continues(rest: &[Lexeme<'_>]) -> bool
    ensures { result ≡ goes_on (map lex_of rest.now) }
{
    match rest.split_first() {
        Some((first, _)) => match first.token {
            Token::Symbol(found) => joins(found),
            Token::Name(_) => false,
            Token::Int(_) => false,
            Token::Text(_) => false,
        },
        None => false,
    }
}

/// The tokens that are left.
#[derive(Drop)]
pub struct Tokens<'a, 't> {
    /// All of them, in the order of the text.
    pub left: &'a [Lexeme<'t>],
}

impl<'a, 't> Tokens<'a, 't> {
    /// Returns how many tokens are left.
    pub fn len(&self) -> usize
        ensures { result ≡ length (rest_of self.now) }
    {
        self.left.len()
    }

    /// Returns whether that symbol is the next token.
    #[tactic(auto, unfolding(syntax_grammar::specs::Front::is_at))]
    pub fn is_at(&self, wanted: Symbol) -> bool
        ensures { result ≡ is_at wanted (rest_of self.now) }
    {
        match self.left.split_first() {
            Some((first, _)) => match first.token {
                Token::Symbol(found) => same(found, wanted),
                Token::Name(_) => false,
                Token::Int(_) => false,
                Token::Text(_) => false,
            },
            None => false,
        }
    }

    /// Returns whether the next token is a whole expression, that is, a name, a number or a string that does not
    /// continue.
    #[tactic(auto, unfolding(crate::specs::Alone::is_alone))]
    pub(crate) fn is_alone(&self) -> bool
        ensures { result ≡ is_alone (rest_of self.now) }
    {
        match self.left.split_first() {
            Some((first, rest)) => match first.token {
                Token::Symbol(_) => false,
                Token::Name(_) => !continues(rest),
                Token::Int(_) => !continues(rest),
                Token::Text(_) => !continues(rest),
            },
            None => false,
        }
    }

    /// Takes the next token, whatever it is.
    #[tactic(auto, unfolding(syntax_grammar::specs::Front::tail))]
    pub fn skip(&mut self)
        ensures { rest_of self.new ≡ tail (rest_of self.old) }
    {
        if !self.left.is_empty() {
            self.left = &self.left[1..];
        }
    }

    /// Takes the next token, if it is that symbol.
    pub fn take_if(&mut self, wanted: Symbol) -> bool
        ensures found { result ≡ is_at wanted (rest_of self.old) }
        ensures rest { rest_of self.new ≡ (if result then tail (rest_of self.old) else rest_of
            self.old) }
    {
        let found = self.is_at(wanted);
        if found {
            self.skip();
        }
        found
    }

    /// Takes that symbol.
    pub fn expect(&mut self, wanted: Symbol) -> Result<(), ParseError>
        ensures { Reads (λ _. tt) (expect wanted (rest_of self.old)) result (rest_of self.new) }
    {
        if self.take_if(wanted) {
            Ok(())
        } else {
            Err(ParseError::Malformed)
        }
    }

    /// Returns the line of the next token.
    #[tactic(auto, unfolding(syntax_grammar::specs::Front::line_at))]
    pub fn line(&self) -> usize
        ensures { result ≡ line_at (rest_of self.now) }
    {
        match self.left.split_first() {
            Some((first, _)) => first.line,
            None => 0,
        }
    }

    /// Returns the name that the next token is, if it is one.
    #[tactic(auto, unfolding(syntax_grammar::specs::Front::name_at))]
    pub fn name(&self) -> Option<Ascii<'t>>
        ensures { option_map (λ x. x.bytes.now) result ≡ name_at (rest_of self.now) }
    {
        match self.left.split_first() {
            Some((first, _)) => match first.token {
                Token::Name(found) => Some(found),
                Token::Symbol(_) => None,
                Token::Int(_) => None,
                Token::Text(_) => None,
            },
            None => None,
        }
    }

    /// Returns whether the next token is a name, and the one after it that symbol.
    #[tactic(auto, unfolding(syntax_grammar::specs::Front::is_name_before, syntax_grammar::specs::Front::tail))]
    pub fn is_name_before(&self, wanted: Symbol) -> bool
        ensures { result ≡ is_name_before wanted (rest_of self.now) }
    {
        match self.name() {
            Some(_) => {
                let mut behind = Tokens { left: self.left };
                behind.skip();
                behind.is_at(wanted)
            }
            None => false,
        }
    }

    /// Takes a name.
    pub fn take_name(&mut self, alloc: Global) -> Result<Text, ParseError>
        ensures { Reads (λ x. x) (a_name (rest_of self.old)) result (rest_of self.new) }
    {
        match self.name() {
            Some(found) => {
                let text = Text::new(alloc, found.as_str())?;
                self.skip();
                Ok(text)
            }
            None => Err(ParseError::Malformed),
        }
    }

    /// Returns whether those two symbols are the next tokens.
    pub fn are_at(&self, first: Symbol, second: Symbol) -> bool
        ensures { result ≡ (is_at first (rest_of self.now) && is_at second (tail (rest_of
            self.now))) }
    {
        if !self.is_at(first) {
            return false;
        }
        let mut behind = Tokens { left: self.left };
        behind.skip();
        behind.is_at(second)
    }

    /// Takes the next token.
    #[tactic(auto, unfolding(syntax_grammar::specs::Front::tail))]
    pub fn take(&mut self) -> Option<Token<'t>>
        ensures { Takes (rest_of self.old) result (rest_of self.new) }
    {
        match self.left.split_first() {
            Some((first, _)) => {
                let token = first.token;
                self.skip();
                Some(token)
            }
            None => None,
        }
    }

    /// Returns the text between the quotes of the next token, if that is a string.
    #[tactic(auto, unfolding(syntax_grammar::specs::Front::text_at))]
    pub fn text(&self) -> Option<Ascii<'t>>
        ensures { option_map (λ x. x.bytes.now) result ≡ text_at (rest_of self.now) }
    {
        match self.left.split_first() {
            Some((first, _)) => match first.token {
                Token::Text(found) => Some(found),
                Token::Symbol(_) => None,
                Token::Int(_) => None,
                Token::Name(_) => None,
            },
            None => None,
        }
    }

    /// Returns whether no token is left.
    #[tactic(auto, unfolding(syntax_grammar::specs::Front::is_end))]
    pub fn is_end(&self) -> bool
        ensures { result ≡ is_end (rest_of self.now) }
    {
        match self.left.split_first() {
            Some((_first, _)) => false,
            None => true,
        }
    }

    /// Returns whether the token after the next one is that symbol.
    pub fn is_behind(&self, wanted: Symbol) -> bool
        ensures { result ≡ is_at wanted (tail (rest_of self.now)) }
    {
        let mut behind = Tokens { left: self.left };
        behind.skip();
        behind.is_at(wanted)
    }
}

/// Returns the operator of a rank that the next token is, if it is one.
#[tactic(auto, unfolding(syntax_grammar::specs::Expressions::operator_at))]
pub(crate) fn operator_at(t: &Tokens<'_, '_>, rank: Rank) -> Option<BinaryOp>
    ensures { result ≡ operator_at rank (rest_of t.now) }
{
    match rank {
        Rank::Or => {
            if t.is_at(Symbol::Or) {
                Some(BinaryOp::Or)
            } else {
                None
            }
        }
        Rank::And => {
            if t.is_at(Symbol::And) {
                Some(BinaryOp::And)
            } else {
                None
            }
        }
        Rank::Sum => {
            if t.is_at(Symbol::Plus) {
                Some(BinaryOp::Add)
            } else if t.is_at(Symbol::Minus) {
                Some(BinaryOp::Subtract)
            } else {
                None
            }
        }
        Rank::Term => {
            if t.is_at(Symbol::Star) {
                Some(BinaryOp::Multiply)
            } else if t.is_at(Symbol::SlashSlash) {
                Some(BinaryOp::Divide)
            } else if t.is_at(Symbol::Percent) {
                Some(BinaryOp::Remainder)
            } else {
                None
            }
        }
    }
}

/// Takes the operator of a comparison. There is none where the expression does not continue.
#[tactic(auto, unfolding(syntax_grammar::specs::Expressions::comparison_at))]
pub(crate) fn take_comparison(t: &mut Tokens<'_, '_>) -> Option<BinaryOp>
    ensures { Compares (comparison_at (rest_of t.old)) result (rest_of t.old) (rest_of t.new) }
{
    if !continues(t.left) {
        return None;
    }
    if t.take_if(Symbol::EqualEqual) {
        return Some(BinaryOp::Equal);
    }
    if t.take_if(Symbol::NotEqual) {
        return Some(BinaryOp::NotEqual);
    }
    if t.take_if(Symbol::Less) {
        return Some(BinaryOp::Less);
    }
    if t.take_if(Symbol::LessEqual) {
        return Some(BinaryOp::LessEqual);
    }
    if t.take_if(Symbol::Greater) {
        return Some(BinaryOp::Greater);
    }
    if t.take_if(Symbol::GreaterEqual) {
        return Some(BinaryOp::GreaterEqual);
    }
    if t.take_if(Symbol::In) {
        return Some(BinaryOp::In);
    }
    if t.are_at(Symbol::Not, Symbol::In) {
        t.skip();
        t.skip();
        return Some(BinaryOp::NotIn);
    }
    None
}

/// Returns the value that was read if it is fit to be there, and `Malformed` otherwise.
pub(crate) fn require<A: Drop>(value: A, is_fit: bool) -> Result<A, ParseError>
    ensures { result ≡ (if is_fit then Ok value else Err Malformed) }
{
    if is_fit {
        Ok(value)
    } else {
        Err(ParseError::Malformed)
    }
}
