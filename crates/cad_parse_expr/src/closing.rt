// A test over the tokens alone, before type arguments are read: in `[a<b, a<b, ..` each `<` would be read as their begin, over
// as many nestings as are left, and nothing would come of it.
ghost use Rattle.std.specs.Prelude.{◌≡◌};
ghost use Rattle.cad_parse_expr.specs.Code.Closing as spec;
ghost use Rattle.cad_parse_type.specs.Code.Views.{seen};

use cad_grammar::{Sign, Token, TokenKind};
use cad_parse_type::Spot;
use cad_syntax::Keyword;

/// What a token may be in type arguments.
#[derive(Clone, Copy, Debug)]
pub enum Mark {
    /// `<`
    Opens,
    /// `>`
    Closes,
    /// A token of types that never stands behind a `>`.
    Begins,
    /// Any other token of types.
    Follows,
    /// A token that no type has.
    Other,
}

fn sign_mark(sign: Sign) -> Mark
    ensures { result ≡ spec.sign_mark sign }
{
    match sign {
        Sign::Less => Mark::Opens,
        Sign::Greater => Mark::Closes,
        Sign::OpenParenthesis
        | Sign::OpenBracket
        | Sign::OpenBrace
        | Sign::Dot
        | Sign::Ampersand
        | Sign::Bar
        | Sign::At => Mark::Begins,
        Sign::CloseParenthesis
        | Sign::CloseBracket
        | Sign::CloseBrace
        | Sign::Comma
        | Sign::Colon
        | Sign::Question
        | Sign::Coalesce => Mark::Follows,
        _ => Mark::Other,
    }
}

fn mark_of(kind: &TokenKind) -> Mark
    ensures { result ≡ spec.mark_of kind.now }
{
    match kind {
        TokenKind::Name(_) => Mark::Begins,
        TokenKind::Keyword(Keyword::Auth) => Mark::Begins,
        TokenKind::Sign(sign) => sign_mark(*sign),
        _ => Mark::Other,
    }
}

// Whether a `(` comes next.
fn opens_call(tokens: &[Token]) -> bool
    ensures { result ≡ spec.opens_call tokens.now }
{
    match tokens {
        [] => false,
        [first, ..] => match &first.kind {
            TokenKind::Sign(Sign::OpenParenthesis) => true,
            _ => false,
        },
    }
}

/// Whether the tokens behind a `<` may be type arguments that a `(` follows: never false where they are.
#[tactic(auto, unfolding(crate::specs::Code::Closing::walk, cad_parse_type::specs::Code::Views::seen))]
pub fn closes(spot: Spot<'_>) -> bool
    ensures { result ≡ spec.closes (seen spot.entry) }
{
    let mut tokens = spot.tokens;
    let mut room = spot.left;
    let mut nested = 0u32;
    let mut behind = false;
    while let [first, rest @ ..] = tokens {
        match mark_of(&first.kind) {
            Mark::Opens => {
                if room == 0 {
                    return false;
                }
                room -= 1;
                nested += 1;
                behind = false;
                tokens = rest;
            }
            Mark::Closes => {
                if nested == 0 {
                    return opens_call(rest);
                }
                room += 1;
                nested -= 1;
                behind = true;
                tokens = rest;
            }
            Mark::Begins => {
                if behind {
                    return false;
                }
                tokens = rest;
            }
            Mark::Follows => {
                behind = false;
                tokens = rest;
            }
            Mark::Other => return false,
        }
    }
    false
}
