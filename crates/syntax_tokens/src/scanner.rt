//! The tokens so far, and what is open: the statement, levels of indentation, brackets.
ghost use Rattle.std.specs.Prelude.{◌≡◌, ◌∷◌, ◌++◌, ◌+◌, ◌<◌, ◌≤◌, ◌^◌, [], vec_len, IfOk, IsOkUnless, OnOk};
ghost use Rattle.syntax_tokens.specs.Lines.{top, open_levels, dedents, layout, layout_at, begun, begun_at, brackets_after, shut, with_brackets, state_after_token, spaced_at, end_token, ended_at, part_after, after, tokens_of_part, ending, start, lex};
ghost use Rattle.syntax_tokens.specs.Token.{tok_of, symbol};
ghost use Rattle.syntax_tokens.specs.View.{part_of, piece_of, state_of, said_by, Goes, Ends};
ghost use Rattle.syntax_tokens.specs.declared.scanner.ScanError.TheVariants.{Memory};
ghost use Rattle.syntax_tokens.specs.declared.scanner.Place.TheVariants.{Between, Within};
ghost use Rattle.base_types.specs.Refusals.{memory};

use crate::piece::{Part, Piece};
use crate::symbol::Symbol;
use crate::token::{Lexeme, Token};
use base_types::Memory;
use std::alloc::{AllocError, AllocFailed, Global};

/// Where in the file a piece is.
#[derive(Clone, Copy, Drop)]
pub(crate) enum Place {
    /// Before the first statement.
    Start,
    /// At the start of a later line, before its first token.
    Between,
    /// In a statement.
    Within,
}

#[derive(Clone, Copy, Drop)]
pub(crate) enum Bracket {
    Round,
    Square,
    Curly,
}

/// Why scanning has stopped.
#[derive(Clone, Copy, Drop)]
pub(crate) enum ScanError {
    Malformed,
    Memory(Memory),
}

impl From<AllocError> for ScanError {
    ghost use Rattle.base_types.specs.Refusals.{memory};

    ghost from_gives = { λ _ e. e ≡ Memory memory };

    fn from(error: AllocError) -> ScanError {
        ScanError::Memory(Memory::from(error))
    }
}

impl<T: Drop> From<AllocFailed<T>> for ScanError {
    ghost use Rattle.base_types.specs.Refusals.{memory};

    ghost from_gives = { λ _ e. e ≡ Memory memory };

    fn from(error: AllocFailed<T>) -> ScanError {
        ScanError::Memory(Memory::from(error))
    }
}

/// The tokens so far, and what is open.
#[derive(Drop)]
pub(crate) struct Scanner<'a> {
    pub(crate) place: Place,
    pub(crate) spaces: usize,
    pub(crate) levels: Vec<usize>,
    pub(crate) brackets: Vec<Bracket>,
    pub(crate) line: usize,
    pub(crate) out: Vec<Lexeme<'a>>,
}

impl<'a> Scanner<'a> {
    /// Makes a scanner at the start of a text, with room for as many tokens.
    pub(crate) fn new(alloc: Global, tokens: usize) -> Result<Scanner<'a>, ScanError>
        ensures state { IfOk result (λ s. state_of s ≡ start) }
        ensures said { IfOk result (λ s. said_by s ≡ []) }
        ensures place { IfOk result (λ s. (s.line ≡ 1) × (s.spaces ≡ 0)) }
        ensures err { IsOkUnless result (ScanError.Memory memory) }
    {
        let out = Vec::with_capacity(alloc, tokens)?;
        Ok(Scanner {
            place: Place::Start,
            spaces: 0,
            levels: Vec::new(alloc),
            brackets: Vec::new(alloc),
            line: 1,
            out,
        })
    }

    /// Adds a token.
    fn emit(&mut self, token: Token<'a>) -> Result<(), ScanError>
        ensures state { state_of self.new ≡ state_of self.old }
        ensures said { OnOk result (said_by self.new ≡ said_by self.old ++ lex (tok_of
            token.entry) self.old.line ∷ []) }
        ensures err { IsOkUnless result (ScanError.Memory memory) }
    {
        self.out.push(Lexeme {
            token,
            line: self.line,
        })?;
        Ok(())
    }

    /// Returns the spaces of the deepest level.
    fn top(&self) -> usize
        ensures { result ≡ top (state_of self.now).levels }
    {
        match self.levels.last() {
            Some(level) => *level,
            None => 0,
        }
    }

    /// Closes the deepest level.
    fn pop_level(&mut self)
        requires { 0 < top (state_of self.old).levels }
        ensures state { state_of self.old ≡ record (state_of self.new)
            { levels = top (state_of self.old).levels ∷ (state_of self.new).levels } }
        ensures said { said_by self.new ≡ said_by self.old }
        ensures len { vec_len self.new.levels + 1 ≡ vec_len self.old.levels }
    {
        let _level = self.levels.pop();
    }

    /// Closes the levels that a line with this many spaces does not leave open.
    fn close_levels(&mut self, spaces: usize) -> Result<(), ScanError>
        ensures line { self.new.line ≡ self.old.line }
        ensures spaces { self.new.spaces ≡ self.old.spaces }
        ensures state { OnOk result
            (state_of self.new ≡ record (state_of self.old)
            { levels = open_levels spaces (state_of self.old).levels }) }
        ensures said { OnOk result (said_by self.new ≡ said_by self.old ++ dedents
            self.old.line spaces (state_of self.old).levels) }
        ensures err { IsOkUnless result (ScanError.Memory memory) }
    {
        'levels: while spaces < self.top() {
            self.pop_level();
            self.emit(Token::Symbol(Symbol::Dedent))?;
        }
        Ok(())
    }

    /// Begins a statement on a later line.
    fn begin_line(&mut self) -> Result<(), ScanError>
        ensures state { Goes (begun_at Between (state_of self.old)) (state_of self.new) result }
        ensures said { OnOk result (said_by self.new ≡ said_by self.old ++ layout_at
            Between (state_of self.old)) }
        ensures line { self.new.line ≡ self.old.line }
        ensures spaces { self.new.spaces ≡ self.old.spaces }
    {
        let spaces = self.spaces;
        if self.top() < spaces {
            self.open_level()?;
            self.emit(Token::Symbol(Symbol::Indent))?;
            Ok(())
        } else {
            self.close_levels(spaces)?;
            self.place = Place::Within;
            if self.top() == spaces {
                Ok(())
            } else {
                Err(ScanError::Malformed)
            }
        }
    }

    /// Opens a level of the line's spaces.
    fn open_level(&mut self) -> Result<(), ScanError>
        ensures line { self.new.line ≡ self.old.line }
        ensures spaces { self.new.spaces ≡ self.old.spaces }
        ensures state { OnOk result
            (state_of self.new ≡ record (state_of self.old)
            { place = Within; levels = self.old.spaces ∷ (state_of self.old).levels }) }
        ensures said { said_by self.new ≡ said_by self.old }
        ensures err { IsOkUnless result (ScanError.Memory memory) }
    {
        self.place = Place::Within;
        self.levels.push(self.spaces)?;
        Ok(())
    }

    /// Begins a statement, unless one has begun.
    #[tactic(auto, unfolding(crate::specs::Lines::begun, crate::specs::Lines::layout))]
    fn begin(&mut self) -> Result<(), ScanError>
        ensures state { Goes (begun (state_of self.old)) (state_of self.new) result }
        ensures said { OnOk result (said_by self.new ≡ said_by self.old ++ layout
            (state_of self.old)) }
        ensures line { self.new.line ≡ self.old.line }
        ensures spaces { self.new.spaces ≡ self.old.spaces }
    {
        match self.place {
            Place::Within => Ok(()),
            Place::Start => {
                if self.spaces == 0 {
                    self.place = Place::Within;
                    Ok(())
                } else {
                    Err(ScanError::Malformed)
                }
            }
            Place::Between => {
                self.begin_line()?;
                Ok(())
            }
        }
    }

    /// Closes a bracket.
    fn close_bracket(&mut self, bracket: Bracket) -> Result<(), ScanError>
        ensures line { self.new.line ≡ self.old.line }
        ensures spaces { self.new.spaces ≡ self.old.spaces }
        ensures state { Goes
            (with_brackets (state_of self.old) (shut bracket (state_of self.old).brackets))
            (state_of self.new) result }
        ensures said { said_by self.new ≡ said_by self.old }
    {
        match (bracket, self.brackets.pop()) {
            (Bracket::Round, Some(Bracket::Round)) => Ok(()),
            (Bracket::Square, Some(Bracket::Square)) => Ok(()),
            (Bracket::Curly, Some(Bracket::Curly)) => Ok(()),
            _ => Err(ScanError::Malformed),
        }
    }

    fn open_bracket(&mut self, bracket: Bracket) -> Result<(), ScanError>
        ensures line { self.new.line ≡ self.old.line }
        ensures spaces { self.new.spaces ≡ self.old.spaces }
        ensures state { OnOk result
            (state_of self.new ≡ record (state_of self.old)
            { brackets = bracket ∷ (state_of self.old).brackets }) }
        ensures said { said_by self.new ≡ said_by self.old }
        ensures err { IsOkUnless result (ScanError.Memory memory) }
    {
        self.brackets.push(bracket)?;
        Ok(())
    }

    /// Opens or closes a bracket, if the symbol is one.
    #[tactic(auto, unfolding(crate::specs::Lines::brackets_after))]
    fn bracket(&mut self, mark: Symbol) -> Result<(), ScanError>
        ensures line { self.new.line ≡ self.old.line }
        ensures spaces { self.new.spaces ≡ self.old.spaces }
        ensures state { Goes
            (with_brackets (state_of self.old)
            (brackets_after (symbol mark) (state_of self.old).brackets)) (state_of self.new)
            result }
        ensures said { said_by self.new ≡ said_by self.old }
    {
        match mark {
            Symbol::LeftParen => {
                self.open_bracket(Bracket::Round)?;
                Ok(())
            }
            Symbol::LeftBracket => {
                self.open_bracket(Bracket::Square)?;
                Ok(())
            }
            Symbol::LeftBrace => {
                self.open_bracket(Bracket::Curly)?;
                Ok(())
            }
            Symbol::RightParen => {
                self.close_bracket(Bracket::Round)?;
                Ok(())
            }
            Symbol::RightBracket => {
                self.close_bracket(Bracket::Square)?;
                Ok(())
            }
            Symbol::RightBrace => {
                self.close_bracket(Bracket::Curly)?;
                Ok(())
            }
            _ => Ok(()),
        }
    }

    /// Takes a token, with the layout before it.
    #[tactic(auto, unfolding(crate::specs::Lines::brackets_after))]
    fn take(&mut self, token: Token<'a>) -> Result<(), ScanError>
        ensures line { self.new.line ≡ self.old.line }
        ensures spaces { self.new.spaces ≡ self.old.spaces }
        ensures state { Goes (state_after_token (tok_of token.entry) (state_of self.old)) (state_of
            self.new) result }
        ensures said { OnOk result
            (said_by self.new ≡ said_by self.old
            ++ (layout (state_of self.old) ++ lex (tok_of token.entry) self.old.line ∷ [])) }
    {
        self.begin()?;
        self.emit(token)?;
        match token {
            Token::Symbol(mark) => {
                self.bracket(mark)?;
                Ok(())
            }
            Token::Name(_) => Ok(()),
            Token::Int(_) => Ok(()),
            Token::Text(_) => Ok(()),
        }
    }

    /// Counts a space at a line's start.
    fn space(&mut self)
        requires { self.old.spaces + 1 < 2 ^ 64 }
        ensures state { state_of self.new ≡ spaced_at self.old.place (state_of self.old) }
        ensures said { said_by self.new ≡ said_by self.old }
    {
        match self.place {
            Place::Within => {}
            Place::Start | Place::Between => self.spaces += 1,
        }
    }

    /// Ends a statement, if one has begun.
    fn end_statement(&mut self) -> Result<(), ScanError>
        ensures state { state_of self.new ≡ state_of self.old }
        ensures said { OnOk result (said_by self.new ≡ said_by self.old ++ end_token
            self.old.place [] self.old.line) }
        ensures err { IsOkUnless result (ScanError.Memory memory) }
    {
        match self.place {
            Place::Within => {
                self.emit(Token::Symbol(Symbol::NewLine))?;
                Ok(())
            }
            Place::Start | Place::Between => Ok(()),
        }
    }

    /// Ends a line.
    fn end_line(&mut self) -> Result<(), ScanError>
        ensures line { self.new.line ≡ self.old.line }
        ensures spaces { self.new.spaces ≤ self.old.spaces }
        ensures state { OnOk result (state_of self.new ≡ ended_at (state_of self.old).brackets
            (state_of self.old)) }
        ensures said { OnOk result (said_by self.new ≡ said_by self.old ++ end_token
            self.old.place (state_of self.old).brackets self.old.line) }
        ensures err { IsOkUnless result (ScanError.Memory memory) }
    {
        if !self.brackets.is_empty() {
            return Ok(());
        }
        self.end_statement()?;
        self.place = match self.place {
            Place::Start => Place::Start,
            Place::Within | Place::Between => Place::Between,
        };
        self.spaces = 0;
        Ok(())
    }

    /// Takes a part.
    #[tactic(auto, unfolding(crate::specs::Lines::part_after, crate::specs::Lines::tokens_of_part))]
    fn part(&mut self, part: Part<'a>) -> Result<(), ScanError>
        requires { self.old.spaces + 1 < 2 ^ 64 }
        ensures line { self.new.line ≡ self.old.line }
        ensures spaces { self.new.spaces ≤ self.old.spaces + 1 }
        ensures state { Goes (part_after (state_of self.old) (part_of part.entry))
            (state_of self.new) result }
        ensures said { OnOk result (said_by self.new ≡ said_by self.old ++ tokens_of_part
            (state_of self.old) (part_of part.entry)) }
    {
        match part {
            Part::Space => {
                self.space();
                Ok(())
            }
            Part::Comment => Ok(()),
            Part::LineEnd => {
                self.end_line()?;
                Ok(())
            }
            Part::Token(token) => {
                self.take(token)?;
                Ok(())
            }
        }
    }

    /// Takes a piece.
    pub(crate) fn step(&mut self, piece: Piece<'a>) -> Result<(), ScanError>
        requires spaces { self.old.spaces + 1 < 2 ^ 64 }
        requires line { self.old.line + piece.line_ends < 2 ^ 64 }
        ensures line { OnOk result (self.new.line ≡ self.old.line + piece.entry.line_ends) }
        ensures spaces { self.new.spaces ≤ self.old.spaces + 1 }
        ensures state { Goes (after (state_of self.old) (piece_of piece.entry)) (state_of self.new)
            result }
        ensures said { OnOk result (said_by self.new ≡ said_by self.old ++ tokens_of_part
            (state_of self.old) (part_of piece.entry.part)) }
    {
        self.part(piece.part)?;
        self.line += piece.line_ends;
        Ok(())
    }

    /// Ends the text.
    #[tactic(auto, unfolding(crate::specs::Lines::ending))]
    pub(crate) fn end(&mut self) -> Result<(), ScanError>
        ensures { Ends (ending (state_of self.old)) (said_by self.old) (said_by self.new) result }
    {
        if !self.brackets.is_empty() {
            return Err(ScanError::Malformed);
        }
        self.end_statement()?;
        self.close_levels(0)?;
        Ok(())
    }
}
