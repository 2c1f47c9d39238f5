// Where a refusal stands in a text.
use crate::declarations::{Range, body, declaration, inside, is_transaction_part};
use crate::statements::statement;
use crate::tokens::stands;
use cad_declarations::Rejected;
use cad_grammar::{Phase, Sign, Token};
use cad_lex::{LexStop, lex};
use cad_syntax::Name;
use std::alloc::{AllocError, Global};

/// What stands in the braces of the declarations with these names, one inside the other.
fn enclosed(tokens: &[Token], names: &[Name], whole: Range) -> Option<Range> {
    let mut range = whole;
    for name in names {
        let place = declaration(tokens, range, name.0.as_str(), false)?;
        range = inside(tokens, place, range.to)?;
    }
    Some(range)
}

/// What stands in the braces of the transaction, where a part of it is named; else the whole.
fn around(tokens: &[Token], names: &[Name], whole: Range) -> Option<Range> {
    match names {
        [only] if is_transaction_part(only) => {
            let place = declaration(tokens, whole, "transaction", false)?;
            inside(tokens, place, whole.to)
        }
        _ => Some(whole),
    }
}

/// The places of the names of the first and the last declaration with a name.
#[derive(Clone, Copy)]
struct Namesakes {
    first: usize,
    last: usize,
}

/// Where declarations have the name that a refusal tells.
fn named(tokens: &[Token], names: &[Name]) -> Option<Namesakes> {
    let whole = Range {
        from: 0,
        to: tokens.len(),
    };
    let [outer @ .., own] = names else {
        return None;
    };
    let range = enclosed(tokens, outer, around(tokens, names, whole)?)?;
    Some(Namesakes {
        first: declaration(tokens, range, own.0.as_str(), false)?,
        last: declaration(tokens, range, own.0.as_str(), true)?,
    })
}

/// The place of the statement that a refusal names, or of the declaration's name where no statement is meant. Of two
/// declarations of one name the second is refused in phase `resolve`, and so is a function without statements for its head.
fn meant(tokens: &[Token], rejected: &Rejected) -> Option<usize> {
    let named = named(tokens, rejected.inside.as_slice())?;
    let is_whole = rejected.phase == Phase::Resolve && rejected.at == 0;
    if is_whole && named.first != named.last {
        return Some(named.last);
    }
    if rejected.phase == Phase::Conformance {
        return Some(named.first);
    }
    let Some(open) = body(tokens, named.first) else {
        return Some(named.first);
    };
    let found = statement(tokens, open, rejected.at);
    if is_whole && stands(tokens, found, Sign::CloseBrace) {
        return Some(named.first);
    }
    Some(found)
}

/// The byte at which a token begins; 0 where there is none.
fn start(tokens: &[Token], place: Option<usize>) -> usize {
    match place {
        Some(found) => match tokens.get(found) {
            Some(token) => token.start,
            None => 0,
        },
        None => 0,
    }
}

/// The byte of a text, as bytes, at which a refusal of it stands. For `lex` and `parse` that is the byte that it names. For a
/// later phase it is the start of the first token of its statement, by a walk over the tokens; of the closing brace where
/// the number is that of the statements; of the name where a declaration is refused. 0 where the refusal isn't one of this
/// text. It fails where memory runs out alone.
pub fn place(alloc: Global, text: &[u8], rejected: &Rejected) -> Result<usize, AllocError> {
    if rejected.phase == Phase::Lex || rejected.phase == Phase::Parse {
        return Ok(byte(rejected.at));
    }
    match lex(alloc, text) {
        Ok(tokens) => {
            let all = tokens.as_slice();
            Ok(start(all, meant(all, rejected)))
        }
        Err(LexStop::At(_)) => Ok(0),
        Err(LexStop::Memory) => Err(AllocError),
    }
}

/// A number as a place in a text.
fn byte(number: u64) -> usize {
    number as usize
}
