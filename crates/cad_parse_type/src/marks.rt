// The `?` behind a type.
ghost use Rattle.std.specs.Prelude.{◌≡◌, option_map};
ghost use Rattle.cad_grammar.specs.declared.token.TokenKind.TheVariants as kind;
ghost use Rattle.cad_grammar.specs.Levels as levels;
ghost use Rattle.cad_parse_type.specs.Code.Reading as spec;
ghost use Rattle.cad_parse_type.specs.Code.Views.{seen, seen_with};

use crate::spot::Spot;
use cad_grammar::{Sign, Token, TokenKind, TypePosition};
use cad_syntax::Keyword;

fn sign_begins(sign: Sign) -> bool
    ensures { result ≡ levels.begins_expression (kind.Sign sign) }
{
    matches!(
        sign,
        Sign::Minus
            | Sign::Bang
            | Sign::Star
            | Sign::Move
            | Sign::Ampersand
            | Sign::OpenParenthesis
            | Sign::OpenBracket
            | Sign::OpenBrace
            | Sign::Slash
    )
}

fn keyword_begins(keyword: Keyword) -> bool
    ensures { result ≡ levels.begins_expression (kind.Keyword keyword) }
{
    matches!(
        keyword,
        Keyword::Destroy
            | Keyword::True
            | Keyword::False
            | Keyword::Nil
            | Keyword::Self_
            | Keyword::Create
    )
}

// Whether a token may begin an expression.
fn begins_expression(kind: &TokenKind) -> bool
    ensures { result ≡ levels.begins_expression kind.now }
{
    match kind {
        TokenKind::Sign(sign) => sign_begins(*sign),
        TokenKind::Keyword(keyword) => keyword_begins(*keyword),
        _ => true,
    }
}

// Whether a `?` before this token belongs to the type before it, behind an `as` form.
fn is_over(broken: bool, kind: &TokenKind) -> bool
    ensures { result ≡ levels.is_over broken kind.now }
{
    match kind {
        TokenKind::Sign(Sign::OpenBrace) => true,
        _ => broken || !begins_expression(kind),
    }
}

fn belongs(position: TypePosition, tokens: &[Token]) -> bool
    ensures { result ≡ levels.belongs_of position tokens.now }
{
    match position {
        TypePosition::Anywhere => true,
        TypePosition::BehindAs => match tokens {
            [] => true,
            [first, ..] => is_over(first.after_break, &first.kind),
        },
    }
}

/// The spot behind a `?` that belongs to the type before it.
#[tactic(auto, unfolding(cad_grammar::specs::Levels::question, crate::specs::Code::Views::seen))]
pub fn question(position: TypePosition, spot: Spot<'_>) -> Option<Spot<'_>>
    ensures { option_map seen result ≡ levels.question position (seen spot.entry) }
{
    let rest = spot.after(Sign::Question)?;
    if belongs(position, rest.tokens) {
        Some(rest)
    } else {
        None
    }
}

/// The spot behind a `??` that belongs to the type before it.
#[tactic(auto, unfolding(cad_grammar::specs::Levels::questions, crate::specs::Code::Views::seen))]
pub fn questions(position: TypePosition, spot: Spot<'_>) -> Option<Spot<'_>>
    ensures { option_map seen result ≡ levels.questions position (seen spot.entry) }
{
    let rest = spot.after(Sign::Coalesce)?;
    if belongs(position, rest.tokens) {
        Some(rest)
    } else {
        None
    }
}

/// Whether `??` or else `?` stands behind a type, and the spot behind it; None where neither belongs to the type.
#[tactic(auto, unfolding(crate::specs::Code::Reading::type_tail))]
pub fn type_tail(position: TypePosition, spot: Spot<'_>) -> Option<(bool, Spot<'_>)>
    ensures { option_map (seen_with (λ b. b)) result ≡ spec.type_tail position (seen spot.entry) }
{
    if let Some(rest) = question(position, spot) {
        let rest = rest.opened()?;
        return Some((false, rest));
    }
    let rest = questions(position, spot)?;
    let rest = rest.opened()?;
    let rest = rest.opened()?;
    Some((true, rest))
}
