// Tests on tokens.
use cad_grammar::{Sign, Token, TokenKind};
use cad_syntax::Keyword;

/// Whether a token is this sign.
pub fn is_sign(token: &Token, sign: Sign) -> bool {
    match &token.kind {
        TokenKind::Sign(found) => *found == sign,
        _ => false,
    }
}

/// Whether a token is this keyword.
pub fn is_keyword(token: &Token, keyword: Keyword) -> bool {
    match &token.kind {
        TokenKind::Keyword(found) => *found == keyword,
        _ => false,
    }
}

/// Whether a token is a name with this spelling.
pub fn is_name(token: &Token, name: &str) -> bool {
    match &token.kind {
        TokenKind::Name(found) => found.0.as_str() == name,
        _ => false,
    }
}

/// Whether this sign stands at a place.
pub fn stands(tokens: &[Token], place: usize, sign: Sign) -> bool {
    match tokens.get(place) {
        Some(token) => is_sign(token, sign),
        None => false,
    }
}

/// Whether a token opens a bracket.
pub fn opens(token: &Token) -> bool {
    match &token.kind {
        TokenKind::Sign(sign) => matches!(
            sign,
            Sign::OpenParenthesis | Sign::OpenBracket | Sign::OpenBrace
        ),
        _ => false,
    }
}

/// Whether a token closes a bracket.
pub fn closes(token: &Token) -> bool {
    match &token.kind {
        TokenKind::Sign(sign) => matches!(
            sign,
            Sign::CloseParenthesis | Sign::CloseBracket | Sign::CloseBrace
        ),
        _ => false,
    }
}

fn sign_begins(sign: Sign) -> bool {
    matches!(
        sign,
        Sign::Minus
            | Sign::Bang
            | Sign::Star
            | Sign::Move
            | Sign::Ampersand
            | Sign::OpenParenthesis
            | Sign::OpenBracket
            | Sign::OpenBrace
            | Sign::Slash
    )
}

fn keyword_begins(keyword: Keyword) -> bool {
    matches!(
        keyword,
        Keyword::Destroy
            | Keyword::True
            | Keyword::False
            | Keyword::Nil
            | Keyword::Self_
            | Keyword::Create
    )
}

/// Whether a token may begin an expression.
pub fn begins_expression(token: &Token) -> bool {
    match &token.kind {
        TokenKind::Sign(sign) => sign_begins(*sign),
        TokenKind::Keyword(keyword) => keyword_begins(*keyword),
        _ => true,
    }
}

fn keyword_starts(keyword: Keyword) -> bool {
    matches!(
        keyword,
        Keyword::Let
            | Keyword::Var
            | Keyword::If
            | Keyword::While
            | Keyword::For
            | Keyword::Switch
            | Keyword::Break
            | Keyword::Continue
            | Keyword::Return
            | Keyword::Emit
    )
}

/// Whether a token begins a statement or a condition where one may end before it and a line break stands there.
pub fn begins_statement(token: &Token) -> bool {
    match &token.kind {
        TokenKind::Sign(sign) => matches!(
            sign,
            Sign::Bang | Sign::OpenParenthesis | Sign::OpenBracket
        ),
        TokenKind::Keyword(keyword) => keyword_starts(*keyword) || keyword_begins(*keyword),
        _ => true,
    }
}
