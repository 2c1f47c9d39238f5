// Dotted names, lists of them, and entitlements.
ghost use Rattle.std.specs.Prelude.{◌≡◌, [], length, IfOk, Some, option_map};
ghost use Rattle.cad_grammar.specs.TypeGrammar.{dot_name};
ghost use Rattle.cad_parse_type.specs.Code.Reading as spec;
ghost use Rattle.cad_parse_type.specs.Code.Views.{seen, seen_with, seen_name};

use crate::spot::Spot;
use cad_grammar::{Dotted, Entitlements, Sign};
use cad_syntax::{Items, Name};
use std::alloc::{AllocError, Global};

// The name behind a `.`, and the spot behind it; None where none stands there.
#[tactic(auto, unfolding(cad_grammar::specs::TypeGrammar::dot_name))]
fn further(spot: Spot<'_>) -> Option<(&Name, Spot<'_>)>
    ensures { option_map (seen_with seen_name) result ≡ dot_name (seen spot.entry) }
{
    spot.after(Sign::Dot)?.name()
}

// The names with all that stand behind them, each behind a `.`, and the spot behind the last.
#[tactic(auto, unfolding(crate::specs::Code::Reading::climb))]
fn with_further(mut names: Dotted, spot: Spot<'_>) -> Result<(Dotted, Spot<'_>), AllocError>
    ensures { IfOk result (λ x. spec.climb spec.appended dot_name (length spot.entry.tokens.now) names (seen spot.entry) ≡ Some (seen_with (λ n. n) x)) }
{
    let mut rest = spot;
    for _turn in 0..spot.tokens.len() {
        let Some((name, next)) = further(rest) else {
            return Ok((names, rest));
        };
        names.push(name.clone()?)?;
        rest = next;
    }
    Ok((names, rest))
}

/// The longest dotted name from a spot on, and the spot behind it; None where none begins.
#[tactic(auto, unfolding(crate::specs::Code::Reading::dotted, crate::specs::Code::Views::seen))]
pub fn dotted(alloc: Global, spot: Spot<'_>) -> Result<Option<(Dotted, Spot<'_>)>, AllocError>
    ensures { IfOk result (λ o. option_map (seen_with (λ n. n)) o ≡ spec.dotted (seen spot.entry)) }
{
    let Some((first, rest)) = spot.name() else {
        return Ok(None);
    };
    let mut names = Items::new(alloc);
    names.push(first.clone()?)?;
    Ok(Some(with_further(names, rest)?))
}

// The dotted names with commas between them, and the spot behind the closing sign; None where they don't go on up to it.
#[tactic(auto, unfolding(crate::specs::Code::Reading::listed))]
fn listed(
    alloc: Global,
    closing: Sign,
    spot: Spot<'_>,
) -> Result<Option<(Items<Dotted>, Spot<'_>)>, AllocError>
    ensures { IfOk result (λ o. option_map (seen_with (λ n. n)) o ≡ spec.listed spec.dotted closing (length spot.entry.tokens.now) [] (seen spot.entry)) }
{
    let mut found = Items::new(alloc);
    let mut rest = spot;
    for _turn in 0..spot.tokens.len() {
        if let Some(end) = rest.after(closing) {
            return Ok(Some((found, end)));
        }
        let Some((item, next)) = dotted(alloc, rest)? else {
            return Ok(None);
        };
        found.push(item)?;
        if let Some(next) = rest.resumed(Sign::Comma, next) {
            rest = next;
        } else {
            return match rest.resumed(closing, next) {
                Some(end) => Ok(Some((found, end))),
                None => Ok(None),
            };
        }
    }
    Ok(None)
}

// A list that has a name.
fn filled(all: Items<Dotted>, end: Spot<'_>) -> Option<(Items<Dotted>, Spot<'_>)>
    ensures { option_map (seen_with (λ n. n)) result ≡ spec.filled (all, seen end.entry) }
{
    if all.is_empty() {
        None
    } else {
        Some((all, end))
    }
}

/// One dotted name or more, with commas between them, and the spot behind the closing sign, before which one more comma may
/// stand; None where no such list stands there.
#[tactic(auto, unfolding(crate::specs::Code::Reading::dotted_list, crate::specs::Code::Views::seen))]
pub fn dotted_list(
    alloc: Global,
    closing: Sign,
    spot: Spot<'_>,
) -> Result<Option<(Items<Dotted>, Spot<'_>)>, AllocError>
    ensures { IfOk result (λ o. option_map (seen_with (λ n. n)) o ≡ spec.dotted_list closing (seen spot.entry)) }
{
    let Some((all, end)) = listed(alloc, closing, spot)? else {
        return Ok(None);
    };
    Ok(filled(all, end))
}

// Those found and the dotted names from a spot on, with `|` between them, and the spot behind the `)`; None where they don't
// go on up to it.
#[tactic(auto, unfolding(crate::specs::Code::Reading::alternatives))]
fn alternatives(
    alloc: Global,
    mut found: Items<Dotted>,
    spot: Spot<'_>,
) -> Result<Option<(Items<Dotted>, Spot<'_>)>, AllocError>
    ensures { IfOk result (λ o. option_map (seen_with (λ n. n)) o ≡ spec.alternatives (length spot.entry.tokens.now) found (seen spot.entry)) }
{
    let mut rest = spot;
    for _turn in 0..spot.tokens.len() {
        let Some((item, next)) = dotted(alloc, rest)? else {
            return Ok(None);
        };
        found.push(item)?;
        if let Some(next) = next.after(Sign::Bar) {
            rest = next;
        } else {
            return match next.after(Sign::CloseParenthesis) {
                Some(end) => Ok(Some((found, end))),
                None => Ok(None),
            };
        }
    }
    Ok(None)
}

// Two dotted names or more with `|` between them, and the spot behind the `)`; None where no such list stands there.
#[tactic(auto, unfolding(crate::specs::Code::Reading::any_of, crate::specs::Code::Views::seen))]
fn any_of(alloc: Global, spot: Spot<'_>) -> Result<Option<(Entitlements, Spot<'_>)>, AllocError>
    ensures { IfOk result (λ o. option_map (seen_with (λ e. e)) o ≡ spec.any_of (seen spot.entry)) }
{
    let Some((first, next)) = dotted(alloc, spot)? else {
        return Ok(None);
    };
    let Some(rest) = next.after(Sign::Bar) else {
        return Ok(None);
    };
    let mut found = Items::new(alloc);
    found.push(first)?;
    let Some((all, end)) = alternatives(alloc, found, rest)? else {
        return Ok(None);
    };
    Ok(Some((Entitlements::Any(all), end)))
}

/// Entitlements, and the spot behind the `)` that closes them; None where there are none.
#[tactic(auto, unfolding(crate::specs::Code::Reading::entitled))]
pub fn entitled(
    alloc: Global,
    spot: Spot<'_>,
) -> Result<Option<(Entitlements, Spot<'_>)>, AllocError>
    ensures { IfOk result (λ o. option_map (seen_with (λ e. e)) o ≡ spec.entitled (seen spot.entry)) }
{
    if let Some((any, end)) = any_of(alloc, spot)? {
        return Ok(Some((any, end)));
    }
    let Some((all, end)) = dotted_list(alloc, Sign::CloseParenthesis, spot)? else {
        return Ok(None);
    };
    Ok(Some((Entitlements::All(all), end)))
}

/// Entitlements in parentheses, and the spot behind the `)`; None where there are none.
#[tactic(auto, unfolding(crate::specs::Code::Reading::authorized))]
pub fn authorized(
    alloc: Global,
    spot: Spot<'_>,
) -> Result<Option<(Entitlements, Spot<'_>)>, AllocError>
    ensures { IfOk result (λ o. option_map (seen_with (λ e. e)) o ≡ spec.authorized (seen spot.entry)) }
{
    let Some(rest) = spot.after(Sign::OpenParenthesis) else {
        return Ok(None);
    };
    let Some(inside) = rest.opened() else {
        return Ok(None);
    };
    let Some((found, end)) = entitled(alloc, inside)? else {
        return Ok(None);
    };
    Ok(Some((found, spot.back(end))))
}
