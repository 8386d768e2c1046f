//! Tokens that are always spelled in the same way, and those of the layout.

/// A keyword, a literal word, an operator, a bracket or other delimiter, or a token of the layout.
#[derive(Clone, Copy)]
pub enum Symbol {
    /// The end of a statement's line.
    NewLine,
    /// A deeper level of indentation opens.
    Indent,
    /// The deepest level of indentation closes.
    Dedent,
    And,
    Break,
    Continue,
    Def,
    Elif,
    Else,
    For,
    If,
    In,
    Load,
    Not,
    Or,
    Pass,
    Return,
    /// `None`
    NoneValue,
    /// `True`
    TrueValue,
    /// `False`
    FalseValue,
    /// `+`
    Plus,
    /// `-`
    Minus,
    /// `*`
    Star,
    /// `//`
    SlashSlash,
    /// `%`
    Percent,
    /// `=`
    Equal,
    /// `+=`
    PlusEqual,
    /// `-=`
    MinusEqual,
    /// `*=`
    StarEqual,
    /// `//=`
    SlashSlashEqual,
    /// `%=`
    PercentEqual,
    /// `==`
    EqualEqual,
    /// `!=`
    NotEqual,
    /// `<`
    Less,
    /// `<=`
    LessEqual,
    /// `>`
    Greater,
    /// `>=`
    GreaterEqual,
    /// `.`
    Dot,
    /// `,`
    Comma,
    /// `:`
    Colon,
    /// `(`
    LeftParen,
    /// `)`
    RightParen,
    /// `[`
    LeftBracket,
    /// `]`
    RightBracket,
    /// `{`
    LeftBrace,
    /// `}`
    RightBrace,
}
