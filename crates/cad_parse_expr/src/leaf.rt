// Expressions that hold no further one.
ghost use Rattle.std.specs.Prelude.{◌≡◌, IfOk, option_map};
ghost use Rattle.cad_grammar.specs.Levels as levels;
ghost use Rattle.cad_grammar.specs.Views.{expr_of};
ghost use Rattle.cad_parse_expr.specs.Code.Reading as spec;
ghost use Rattle.cad_parse_type.specs.Code.Views.{seen, seen_with};

use crate::word::domain_name;
use cad_grammar::{Expr, Sign, TokenKind};
use cad_parse_type::Spot;
use cad_syntax::{Keyword, Path};
use std::alloc::AllocError;

fn literal_of(kind: &TokenKind) -> Result<Option<Expr>, AllocError>
    ensures { IfOk result (λ o. option_map expr_of o ≡ levels.literal_of kind.now) }
{
    match kind {
        TokenKind::Whole { value, hexadecimal } => Ok(Some(Expr::Whole {
            value: *value,
            hexadecimal: *hexadecimal,
        })),
        TokenKind::Fixed(value) => Ok(Some(Expr::Fixed(*value))),
        TokenKind::Text(text) => Ok(Some(Expr::Text(text.clone()?))),
        TokenKind::Keyword(Keyword::True) => Ok(Some(Expr::Bool(true))),
        TokenKind::Keyword(Keyword::False) => Ok(Some(Expr::Bool(false))),
        TokenKind::Keyword(Keyword::Nil) => Ok(Some(Expr::Nil)),
        TokenKind::Keyword(Keyword::Self_) => Ok(Some(Expr::Self_)),
        _ => Ok(None),
    }
}

/// The expression of one token that is no name, and the spot behind it; None where none comes next.
#[tactic(auto, unfolding(cad_grammar::specs::Spots::read, cad_parse_type::specs::Code::Views::seen))]
pub fn literal(spot: Spot<'_>) -> Result<Option<(Expr, Spot<'_>)>, AllocError>
    ensures { IfOk result (λ o. option_map (seen_with expr_of) o ≡ levels.literal (seen spot.entry)) }
{
    match spot.tokens {
        [first, rest @ ..] => match literal_of(&first.kind)? {
            Some(found) => Ok(Some((found, spot.behind(rest)))),
            None => Ok(None),
        },
        [] => Ok(None),
    }
}

/// The name that comes next as an expression, and the spot behind it; None where none does.
#[tactic(auto, unfolding(crate::specs::Code::Reading::name_expr))]
pub fn name_expr(spot: Spot<'_>) -> Result<Option<(Expr, Spot<'_>)>, AllocError>
    ensures { IfOk result (λ o. option_map (seen_with expr_of) o ≡ spec.name_expr (seen spot.entry)) }
{
    let Some((name, rest)) = spot.name() else {
        return Ok(None);
    };
    Ok(Some((Expr::Name(name.clone()?), rest.named())))
}

/// The path whose first `/` stands before the spot, and the spot behind it; None where none does.
#[tactic(auto, unfolding(crate::specs::Code::Reading::path_tail))]
pub fn path_tail(spot: Spot<'_>) -> Result<Option<(Expr, Spot<'_>)>, AllocError>
    ensures { IfOk result (λ o. option_map (seen_with expr_of) o ≡ spec.path_tail (seen spot.entry)) }
{
    let Some((domain, rest)) = domain_name(spot) else {
        return Ok(None);
    };
    let Some(rest) = rest.after(Sign::Slash) else {
        return Ok(None);
    };
    let Some((name, rest)) = rest.name() else {
        return Ok(None);
    };
    let path = Path {
        domain,
        identifier: name.clone()?,
    };
    Ok(Some((Expr::Path(path), rest)))
}
