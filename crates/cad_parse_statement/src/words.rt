// Tests on the tokens of statements.
ghost use Rattle.std.specs.Prelude.{◌≡◌, option_map};
ghost use Rattle.cad_grammar.specs.StatementGrammar as spec;
ghost use Rattle.cad_grammar.specs.Levels as levels;
ghost use Rattle.cad_parse_type.specs.Code.Views.{seen, seen_with};

use cad_grammar::{Sign, TokenKind, Transfer, VariableKind};
use cad_parse_type::Spot;
use cad_syntax::Keyword;

fn variable_kind_of(kind: &TokenKind) -> Option<VariableKind>
    ensures { result ≡ spec.variable_kind_of kind.now }
{
    match kind {
        TokenKind::Keyword(Keyword::Let) => Some(VariableKind::Let),
        TokenKind::Keyword(Keyword::Var) => Some(VariableKind::Var),
        _ => None,
    }
}

/// The `let` or `var` that comes next, and the spot behind it; None where another token does.
#[tactic(auto, unfolding(cad_grammar::specs::Spots::read, cad_parse_type::specs::Code::Views::seen))]
pub fn variable_word(spot: Spot<'_>) -> Option<(VariableKind, Spot<'_>)>
    ensures { option_map (seen_with (λ kind. kind)) result ≡ spec.variable_word (seen spot.entry) }
{
    match spot.tokens {
        [first, rest @ ..] => match variable_kind_of(&first.kind) {
            Some(kind) => Some((kind, spot.behind(rest))),
            None => None,
        },
        [] => None,
    }
}

fn transfer_of(kind: &TokenKind) -> Option<Transfer>
    ensures { result ≡ spec.transfer_of kind.now }
{
    match kind {
        TokenKind::Sign(Sign::Assign) => Some(Transfer::Copy),
        TokenKind::Sign(Sign::Move) => Some(Transfer::Move),
        TokenKind::Sign(Sign::ForceMove) => Some(Transfer::ForceMove),
        _ => None,
    }
}

/// The `=`, `<-` or `<-!` that comes next, and the spot behind it; None where another token does.
#[tactic(auto, unfolding(cad_grammar::specs::Spots::read, cad_parse_type::specs::Code::Views::seen))]
pub fn transfer(spot: Spot<'_>) -> Option<(Transfer, Spot<'_>)>
    ensures { option_map (seen_with (λ t. t)) result ≡ spec.transfer (seen spot.entry) }
{
    match spot.tokens {
        [first, rest @ ..] => match transfer_of(&first.kind) {
            Some(found) => Some((found, spot.behind(rest))),
            None => None,
        },
        [] => None,
    }
}

fn begins_no_statement(kind: &TokenKind) -> bool
    ensures { result ≡ spec.begins_no_statement kind.now }
{
    matches!(
        kind,
        TokenKind::Sign(
            Sign::OpenBrace | Sign::Minus | Sign::Star | Sign::Ampersand | Sign::Move | Sign::Slash
        )
    )
}

/// Whether a token comes next with which a statement or a condition may begin.
#[tactic(auto, unfolding(cad_grammar::specs::Spots::holds, cad_parse_type::specs::Code::Views::seen))]
pub fn begins_plainly(spot: Spot<'_>) -> bool
    ensures { result ≡ spec.begins_plainly (seen spot.entry) }
{
    match spot.tokens {
        [first, ..] => !begins_no_statement(&first.kind),
        [] => false,
    }
}

fn ends_statements(kind: &TokenKind) -> bool
    ensures { result ≡ spec.ends_statements kind.now }
{
    matches!(
        kind,
        TokenKind::Sign(Sign::CloseBrace) | TokenKind::Keyword(Keyword::Case | Keyword::Default)
    )
}

/// Whether statements end before the next token.
#[tactic(auto, unfolding(cad_grammar::specs::Spots::holds, cad_parse_type::specs::Code::Views::seen))]
pub fn ends(spot: Spot<'_>) -> bool
    ensures { result ≡ spec.ends (seen spot.entry) }
{
    match spot.tokens {
        [first, ..] => ends_statements(&first.kind),
        [] => false,
    }
}

#[tactic(auto, unfolding(cad_grammar::specs::Spots::holds, cad_parse_type::specs::Code::Views::seen))]
fn breaks_or_ends(spot: Spot<'_>) -> bool
    ensures { result ≡ spec.breaks_or_ends (seen spot.entry) }
{
    match spot.tokens {
        [first, ..] => first.after_break || ends_statements(&first.kind),
        [] => false,
    }
}

/// The spot behind a statement or a condition: behind the `;` that comes next, or the spot itself where a line break or
/// the end of the statements comes next; None elsewhere.
#[tactic(auto, unfolding(cad_grammar::specs::StatementGrammar::parted))]
pub fn parted(spot: Spot<'_>) -> Option<Spot<'_>>
    ensures { option_map seen result ≡ spec.parted (seen spot.entry) }
{
    if let Some(rest) = spot.after(Sign::Semicolon) {
        return Some(rest);
    }
    if breaks_or_ends(spot) {
        Some(spot)
    } else {
        None
    }
}

fn begins_expression(kind: &TokenKind) -> bool
    ensures { result ≡ levels.begins_expression kind.now }
{
    match kind {
        TokenKind::Sign(sign) => matches!(
            sign,
            Sign::Minus
                | Sign::Bang
                | Sign::Star
                | Sign::Move
                | Sign::Ampersand
                | Sign::OpenParenthesis
                | Sign::OpenBracket
                | Sign::OpenBrace
                | Sign::Slash
        ),
        TokenKind::Keyword(word) => matches!(
            word,
            Keyword::Destroy
                | Keyword::True
                | Keyword::False
                | Keyword::Nil
                | Keyword::Self_
                | Keyword::Create
        ),
        _ => true,
    }
}

/// Whether an expression may begin at the next token, with no line break before it.
#[tactic(auto, unfolding(cad_grammar::specs::Spots::holds, cad_parse_type::specs::Code::Views::seen))]
pub fn value_follows(spot: Spot<'_>) -> bool
    ensures { result ≡ spec.value_follows (seen spot.entry) }
{
    match spot.tokens {
        [first, ..] => !first.after_break && begins_expression(&first.kind),
        [] => false,
    }
}
