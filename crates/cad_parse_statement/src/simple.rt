// The statements in which no statements stand.
ghost use Rattle.std.specs.Prelude.{◌≡◌, IfOk, option_map};
ghost use Rattle.cad_grammar.specs.Views.{stmt_of};
ghost use Rattle.cad_parse_statement.specs.Code.Reading as spec;
ghost use Rattle.cad_parse_type.specs.Code.Views.{seen, seen_with};

use crate::parts::{named_value, seconded};
use crate::words::{begins_plainly, transfer, value_follows};
use cad_grammar::{Sign, Stmt, VariableKind};
use cad_parse_expr::expression;
use cad_parse_type::Spot;
use cad_syntax::Keyword;
use std::alloc::{AllocError, Global};

/// A variable behind its `let` or `var`, and the spot behind it; None where none stands there.
#[tactic(auto, unfolding(crate::specs::Code::Reading::variable))]
pub fn variable(
    alloc: Global,
    kind: VariableKind,
    spot: Spot<'_>,
) -> Result<Option<(Stmt, Spot<'_>)>, AllocError>
    ensures { IfOk result (λ o. option_map (seen_with stmt_of) o ≡ spec.variable kind (seen spot.entry)) }
{
    let Some((first, rest)) = named_value(alloc, spot)? else {
        return Ok(None);
    };
    match seconded(alloc, rest) {
        Ok(Some((second, end))) => {
            let found = Stmt::Variable {
                kind,
                name: first.name,
                annotation: first.annotation,
                transfer: first.transfer,
                value: first.value,
                second,
            };
            Ok(Some((found, end)))
        }
        Ok(None) => {
            drop(first);
            Ok(None)
        }
        Err(error) => {
            drop(first);
            Err(error)
        }
    }
}

/// What stands behind `return`, and the spot behind it; None where an expression begins that can't be read.
#[tactic(auto, unfolding(crate::specs::Code::Reading::returned))]
pub fn returned(alloc: Global, spot: Spot<'_>) -> Result<Option<(Stmt, Spot<'_>)>, AllocError>
    ensures { IfOk result (λ o. option_map (seen_with stmt_of) o ≡ spec.returned (seen spot.entry)) }
{
    if !value_follows(spot) {
        return Ok(Some((Stmt::Return(None), spot)));
    }
    let Some((value, end)) = expression(alloc, spot)? else {
        return Ok(None);
    };
    Ok(Some((Stmt::Return(Some(value)), end)))
}

/// What stands behind `emit`, and the spot behind it; None where no expression stands there.
#[tactic(auto, unfolding(crate::specs::Code::Reading::emitted))]
pub fn emitted(alloc: Global, spot: Spot<'_>) -> Result<Option<(Stmt, Spot<'_>)>, AllocError>
    ensures { IfOk result (λ o. option_map (seen_with stmt_of) o ≡ spec.emitted (seen spot.entry)) }
{
    let Some((event, end)) = expression(alloc, spot)? else {
        return Ok(None);
    };
    Ok(Some((Stmt::Emit(event), end)))
}

/// A statement that begins with an expression, and the spot behind it; None where none stands there.
#[tactic(auto, unfolding(crate::specs::Code::Reading::plain))]
pub fn plain(alloc: Global, spot: Spot<'_>) -> Result<Option<(Stmt, Spot<'_>)>, AllocError>
    ensures { IfOk result (λ o. option_map (seen_with stmt_of) o ≡ spec.plain (seen spot.entry)) }
{
    if !begins_plainly(spot) {
        return Ok(None);
    }
    let Some((first, rest)) = expression(alloc, spot)? else {
        return Ok(None);
    };
    if let Some((transfer, rest)) = transfer(rest) {
        return match expression(alloc, rest) {
            Ok(Some((value, end))) => Ok(Some((Stmt::Assignment(first, transfer, value), end))),
            Ok(None) => {
                drop(first);
                Ok(None)
            }
            Err(error) => {
                drop(first);
                Err(error)
            }
        };
    }
    if let Some(rest) = rest.after(Sign::Swap) {
        return match expression(alloc, rest) {
            Ok(Some((second, end))) => Ok(Some((Stmt::Swap(first, second), end))),
            Ok(None) => {
                drop(first);
                Ok(None)
            }
            Err(error) => {
                drop(first);
                Err(error)
            }
        };
    }
    Ok(Some((Stmt::Expr(first), rest)))
}

/// A statement in which no statements stand and that doesn't begin with `let` or `var`, and the spot behind it; None where
/// none stands there.
#[tactic(auto, unfolding(crate::specs::Code::Reading::unnested))]
pub fn unnested(alloc: Global, spot: Spot<'_>) -> Result<Option<(Stmt, Spot<'_>)>, AllocError>
    ensures { IfOk result (λ o. option_map (seen_with stmt_of) o ≡ spec.unnested (seen spot.entry)) }
{
    if let Some(rest) = spot.keyword(Keyword::Break) {
        return Ok(Some((Stmt::Break, rest)));
    }
    if let Some(rest) = spot.keyword(Keyword::Continue) {
        return Ok(Some((Stmt::Continue, rest)));
    }
    if let Some(rest) = spot.keyword(Keyword::Return) {
        return returned(alloc, rest);
    }
    if let Some(rest) = spot.keyword(Keyword::Emit) {
        return emitted(alloc, rest);
    }
    plain(alloc, spot)
}
