// Tests on the signs and words of expressions.
ghost use Rattle.std.specs.Prelude.{◌≡◌, option_map};
ghost use Rattle.cad_grammar.specs.Levels as levels;
ghost use Rattle.cad_grammar.specs.ExpressionGrammar as grammar;
ghost use Rattle.cad_parse_type.specs.Code.Views.{seen, seen_with, seen_name};

use cad_grammar::{BinaryOperator, CastKind, Level, Sign, TokenKind, UnaryOperator};
use cad_parse_type::Spot;
use cad_syntax::{Domain, Keyword, Name};

/// The next tighter level.
pub fn tighter(level: Level) -> Level
    ensures { result ≡ levels.tighter level }
{
    match level {
        Level::Conditional => Level::Or,
        Level::Or => Level::And,
        Level::And => Level::Comparison,
        Level::Comparison => Level::Coalesce,
        Level::Coalesce => Level::BitOr,
        Level::BitOr => Level::BitXor,
        Level::BitXor => Level::BitAnd,
        Level::BitAnd => Level::Sum,
        Level::Sum => Level::Product,
        Level::Product => Level::Cast,
        Level::Cast => Level::Prefix,
        Level::Prefix => Level::Postfix,
        Level::Postfix => Level::Primary,
        Level::Primary => Level::Primary,
    }
}

fn operator_of(level: Level, kind: &TokenKind) -> Option<BinaryOperator>
    ensures { result ≡ levels.operator_of level kind.now }
{
    match (level, kind) {
        (Level::Or, TokenKind::Sign(Sign::Or)) => Some(BinaryOperator::Or),
        (Level::And, TokenKind::Sign(Sign::And)) => Some(BinaryOperator::And),
        (Level::Comparison, TokenKind::Sign(Sign::Less)) => Some(BinaryOperator::Less),
        (Level::Comparison, TokenKind::Sign(Sign::LessOrEqual)) => {
            Some(BinaryOperator::LessOrEqual)
        }
        (Level::Comparison, TokenKind::Sign(Sign::Greater)) => Some(BinaryOperator::Greater),
        (Level::Comparison, TokenKind::Sign(Sign::GreaterOrEqual)) => {
            Some(BinaryOperator::GreaterOrEqual)
        }
        (Level::Comparison, TokenKind::Sign(Sign::Equal)) => Some(BinaryOperator::Equal),
        (Level::Comparison, TokenKind::Sign(Sign::NotEqual)) => Some(BinaryOperator::NotEqual),
        (Level::BitOr, TokenKind::Sign(Sign::Bar)) => Some(BinaryOperator::BitOr),
        (Level::BitXor, TokenKind::Sign(Sign::Caret)) => Some(BinaryOperator::BitXor),
        (Level::BitAnd, TokenKind::Sign(Sign::Ampersand)) => Some(BinaryOperator::BitAnd),
        (Level::Sum, TokenKind::Sign(Sign::Plus)) => Some(BinaryOperator::Add),
        (Level::Sum, TokenKind::Sign(Sign::Minus)) => Some(BinaryOperator::Subtract),
        (Level::Product, TokenKind::Sign(Sign::Star)) => Some(BinaryOperator::Multiply),
        (Level::Product, TokenKind::Sign(Sign::Slash)) => Some(BinaryOperator::Divide),
        (Level::Product, TokenKind::Sign(Sign::Percent)) => Some(BinaryOperator::Remainder),
        _ => None,
    }
}

/// The operator of a level that comes next, and the spot behind it.
#[tactic(auto, unfolding(cad_grammar::specs::Spots::read, cad_parse_type::specs::Code::Views::seen))]
pub fn operator(level: Level, spot: Spot<'_>) -> Option<(BinaryOperator, Spot<'_>)>
    ensures { option_map (seen_with (λ o. o)) result ≡ levels.operator level (seen spot.entry) }
{
    match spot.tokens {
        [first, rest @ ..] => match operator_of(level, &first.kind) {
            Some(found) => Some((found, spot.behind(rest))),
            None => None,
        },
        [] => None,
    }
}

fn cast_of(kind: &TokenKind) -> Option<CastKind>
    ensures { result ≡ levels.cast_of kind.now }
{
    match kind {
        TokenKind::Keyword(Keyword::As) => Some(CastKind::Static),
        TokenKind::Sign(Sign::AsOptional) => Some(CastKind::Failable),
        TokenKind::Sign(Sign::AsForce) => Some(CastKind::Forced),
        _ => None,
    }
}

/// The `as`, `as?` or `as!` that comes next, and the spot behind it.
#[tactic(auto, unfolding(cad_grammar::specs::Spots::read, cad_parse_type::specs::Code::Views::seen))]
pub fn cast_word(spot: Spot<'_>) -> Option<(CastKind, Spot<'_>)>
    ensures { option_map (seen_with (λ o. o)) result ≡ levels.cast_word (seen spot.entry) }
{
    match spot.tokens {
        [first, rest @ ..] => match cast_of(&first.kind) {
            Some(found) => Some((found, spot.behind(rest))),
            None => None,
        },
        [] => None,
    }
}

fn unary_of(kind: &TokenKind) -> Option<UnaryOperator>
    ensures { result ≡ levels.unary_of kind.now }
{
    match kind {
        TokenKind::Sign(Sign::Minus) => Some(UnaryOperator::Negate),
        TokenKind::Sign(Sign::Bang) => Some(UnaryOperator::Not),
        TokenKind::Sign(Sign::Star) => Some(UnaryOperator::Dereference),
        TokenKind::Sign(Sign::Move) => Some(UnaryOperator::Move),
        TokenKind::Keyword(Keyword::Destroy) => Some(UnaryOperator::Destroy),
        _ => None,
    }
}

/// The operator before an expression that comes next, and the spot behind it.
#[tactic(auto, unfolding(cad_grammar::specs::Spots::read, cad_parse_type::specs::Code::Views::seen))]
pub fn unary_word(spot: Spot<'_>) -> Option<(UnaryOperator, Spot<'_>)>
    ensures { option_map (seen_with (λ o. o)) result ≡ levels.unary_word (seen spot.entry) }
{
    match spot.tokens {
        [first, rest @ ..] => match unary_of(&first.kind) {
            Some(found) => Some((found, spot.behind(rest))),
            None => None,
        },
        [] => None,
    }
}

fn dot_of(kind: &TokenKind) -> Option<bool>
    ensures { result ≡ levels.dot_of kind.now }
{
    match kind {
        TokenKind::Sign(Sign::Dot) => Some(false),
        TokenKind::Sign(Sign::OptionalDot) => Some(true),
        _ => None,
    }
}

/// Whether the `.` or `?.` that comes next has a `?`, and the spot behind it.
#[tactic(auto, unfolding(cad_grammar::specs::Spots::read, cad_parse_type::specs::Code::Views::seen))]
pub fn dot(spot: Spot<'_>) -> Option<(bool, Spot<'_>)>
    ensures { option_map (seen_with (λ o. o)) result ≡ levels.dot (seen spot.entry) }
{
    match spot.tokens {
        [first, rest @ ..] => match dot_of(&first.kind) {
            Some(found) => Some((found, spot.behind(rest))),
            None => None,
        },
        [] => None,
    }
}

fn domain_named(name: &Name) -> Option<Domain>
    ensures { result ≡ levels.domain_named name.now }
{
    if name.0.as_str() == "storage" {
        return Some(Domain::Storage);
    }
    if name.0.as_str() == "public" {
        return Some(Domain::Public);
    }
    None
}

fn domain_of(kind: &TokenKind) -> Option<Domain>
    ensures { result ≡ levels.domain_of kind.now }
{
    match kind {
        TokenKind::Name(name) => domain_named(name),
        _ => None,
    }
}

/// The domain of a path that comes next, and the spot behind it.
#[tactic(auto, unfolding(cad_grammar::specs::Spots::read, cad_parse_type::specs::Code::Views::seen))]
pub fn domain_name(spot: Spot<'_>) -> Option<(Domain, Spot<'_>)>
    ensures { option_map (seen_with (λ o. o)) result ≡ levels.domain_name (seen spot.entry) }
{
    match spot.tokens {
        [first, rest @ ..] => match domain_of(&first.kind) {
            Some(found) => Some((found, spot.behind(rest))),
            None => None,
        },
        [] => None,
    }
}

/// The name before a `:` that comes next, and the spot behind the `:`.
#[tactic(auto, unfolding(cad_grammar::specs::ExpressionGrammar::label))]
pub fn label(spot: Spot<'_>) -> Option<(&Name, Spot<'_>)>
    ensures { option_map (seen_with seen_name) result ≡ grammar.label (seen spot.entry) }
{
    let (name, rest) = spot.name()?;
    let rest = rest.after(Sign::Colon)?;
    Some((name, rest))
}
