// Tokens.
use cad_syntax::{Items, Keyword, Name, Text};

/// A sign.
#[derive(Clone, Copy, Debug, PartialEq, Eq)]
pub enum Sign {
    /// `<-`
    Move,
    /// `<-!`
    ForceMove,
    /// `<->`
    Swap,
    /// `<=`
    LessOrEqual,
    /// `<`
    Less,
    /// `>=`
    GreaterOrEqual,
    /// `>`
    Greater,
    /// `==`
    Equal,
    /// `=`
    Assign,
    /// `!=`
    NotEqual,
    /// `!`
    Bang,
    /// `&&`
    And,
    /// `&`
    Ampersand,
    /// `||`
    Or,
    /// `|`
    Bar,
    /// `^`
    Caret,
    /// `+`
    Plus,
    /// `->`
    Arrow,
    /// `-`
    Minus,
    /// `*`
    Star,
    /// `/`
    Slash,
    /// `%`
    Percent,
    /// `??`
    Coalesce,
    /// `?.`
    OptionalDot,
    /// `?`
    Question,
    /// `.`
    Dot,
    /// `,`
    Comma,
    /// `:`
    Colon,
    /// `;`
    Semicolon,
    /// `(`
    OpenParenthesis,
    /// `)`
    CloseParenthesis,
    /// `[`
    OpenBracket,
    /// `]`
    CloseBracket,
    /// `{`
    OpenBrace,
    /// `}`
    CloseBrace,
    /// `@`
    At,
    /// `as?`
    AsOptional,
    /// `as!`
    AsForce,
}

/// What a token is. A fixed literal is scaled by 10^8.
#[derive(Debug, Drop)]
pub enum TokenKind {
    Name(Name),
    Keyword(Keyword),
    Whole { value: u128, hexadecimal: bool },
    Fixed(u128),
    Text(Text),
    Sign(Sign),
}

/// A token of a text: it stands at the bytes from `start` to before `end`, and `after_break` says whether a line feed
/// stands between it and the token before it, or the text's begin.
#[derive(Debug, Drop)]
pub struct Token {
    pub kind: TokenKind,
    pub start: usize,
    pub end: usize,
    pub after_break: bool,
}

pub type Tokens = Items<Token>;
