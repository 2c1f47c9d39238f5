// Where declarations stand.
use crate::groups::{behind_group, behind_type};
use crate::tokens::{closes, is_keyword, is_name, opens, stands};
use cad_grammar::{Sign, Token, TokenKind};
use cad_syntax::{Keyword, Name};

/// The names of what has no name of its own.
fn keyword_name(keyword: Keyword) -> &'static str {
    match keyword {
        Keyword::Init => "init",
        Keyword::Prepare => "prepare",
        Keyword::Pre => "pre",
        Keyword::Execute => "execute",
        Keyword::Post => "post",
        Keyword::Transaction => "transaction",
        _ => "",
    }
}

/// Whether a token stands before the name that a declaration has.
fn declares(token: &Token) -> bool {
    match &token.kind {
        TokenKind::Keyword(keyword) => matches!(
            keyword,
            Keyword::Contract
                | Keyword::Fun
                | Keyword::Struct
                | Keyword::Resource
                | Keyword::Interface
                | Keyword::Event
                | Keyword::Enum
        ),
        _ => is_name(token, "entitlement") || is_name(token, "mapping"),
    }
}

/// Whether an import brings in the name at a place.
fn is_imported(tokens: &[Token], place: usize) -> bool {
    let mut before = place.saturating_sub(1);
    for _ in 0..place {
        let Some(token) = tokens.get(before) else {
            return false;
        };
        if is_keyword(token, Keyword::Import) {
            return true;
        }
        if !stands(tokens, before, Sign::Comma) || before < 2 {
            return false;
        }
        before = before.saturating_sub(2);
    }
    false
}

/// Whether a declaration stands before the name at a place.
fn is_declared(tokens: &[Token], place: usize) -> bool {
    match tokens.get(place.saturating_sub(1)) {
        Some(before) => place > 0 && declares(before),
        None => false,
    }
}

/// Whether the token at a place names a declaration, or brings one in.
fn declares_name(tokens: &[Token], place: usize, name: &str) -> bool {
    let Some(token) = tokens.get(place) else {
        return false;
    };
    match &token.kind {
        TokenKind::Keyword(keyword) => keyword_name(*keyword) == name,
        TokenKind::Name(found) => {
            found.0.as_str() == name && (is_declared(tokens, place) || is_imported(tokens, place))
        }
        _ => false,
    }
}

/// The places from one to before another.
#[derive(Clone, Copy)]
pub struct Range {
    pub from: usize,
    pub to: usize,
}

/// The place of the name of the first or last declaration with a name that stands in no bracket of a range.
pub fn declaration(tokens: &[Token], range: Range, name: &str, is_last: bool) -> Option<usize> {
    let mut found = None;
    let mut depth: usize = 0;
    for place in range.from..range.to {
        let Some(token) = tokens.get(place) else {
            return found;
        };
        if opens(token) {
            depth = depth.saturating_add(1);
        } else if closes(token) {
            depth = depth.saturating_sub(1);
        } else if depth == 0 && declares_name(tokens, place, name) {
            found = Some(place);
            if !is_last {
                return found;
            }
        }
    }
    found
}

/// The place of the first brace that opens in a range.
fn brace(tokens: &[Token], range: Range) -> Option<usize> {
    for place in range.from..range.to {
        if stands(tokens, place, Sign::OpenBrace) {
            return Some(place);
        }
    }
    None
}

/// What stands in the braces of the declaration whose name stands at a place.
pub fn inside(tokens: &[Token], place: usize, to: usize) -> Option<Range> {
    let open = brace(tokens, Range { from: place, to })?;
    Some(Range {
        from: open.saturating_add(1),
        to: behind_group(tokens, open).saturating_sub(1),
    })
}

/// Whether a function, an initializer or a part of a transaction has its name at a place.
fn is_routine(tokens: &[Token], place: usize) -> bool {
    match tokens.get(place) {
        Some(token) if is_keyword(token, Keyword::Transaction) => false,
        Some(token) => match &token.kind {
            TokenKind::Keyword(_) => true,
            _ => is_function(tokens, place),
        },
        None => false,
    }
}

/// Whether `fun` stands before a place.
fn is_function(tokens: &[Token], place: usize) -> bool {
    match tokens.get(place.saturating_sub(1)) {
        Some(before) => is_keyword(before, Keyword::Fun),
        None => false,
    }
}

/// The place behind the parameters and the result of what has its name at a place.
fn behind_head(tokens: &[Token], place: usize) -> usize {
    let mut next = place.saturating_add(1);
    if stands(tokens, next, Sign::OpenParenthesis) {
        next = behind_group(tokens, next);
    }
    if stands(tokens, next, Sign::Colon) {
        next = behind_type(tokens, next.saturating_add(1));
    }
    next
}

/// The place of the brace that opens the body of what has its name at a place, where it has one.
pub fn body(tokens: &[Token], place: usize) -> Option<usize> {
    let next = behind_head(tokens, place);
    if is_routine(tokens, place) && stands(tokens, next, Sign::OpenBrace) {
        Some(next)
    } else {
        None
    }
}

/// Whether a name is that of a part of a transaction.
pub fn is_transaction_part(name: &Name) -> bool {
    let text = name.0.as_str();
    text == "prepare" || text == "pre" || text == "execute" || text == "post"
}
