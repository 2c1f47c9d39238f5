// The parts of statements.
ghost use Rattle.std.specs.Prelude.{◌≡◌, IfOk, option_map};
ghost use Rattle.cad_grammar.specs.Views.{annotation_of, expr_of, test_of};
ghost use Rattle.cad_parse_statement.specs.Code.Reading as spec;
ghost use Rattle.cad_parse_statement.specs.Code.Views.{named_value_of, second_in};
ghost use Rattle.cad_parse_type.specs.Code.Views.{seen, seen_with};

use crate::words::{transfer, variable_word};
use cad_grammar::{Expr, Sign, Stmt, Test, Transfer, TypeAnnotation, VariableKind};
use cad_parse_expr::expression;
use cad_parse_type::{Spot, annotation};
use cad_syntax::{Keyword, Name};
use std::alloc::{AllocError, Global};

/// A name with its value, as it stands behind `let` or `var`.
#[derive(Debug, Drop)]
pub struct NamedValue {
    pub name: Name,
    pub annotation: Option<TypeAnnotation>,
    pub transfer: Transfer,
    pub value: Expr,
}

/// `: T` or nothing, and the spot behind it; None where no type annotation stands behind the `:`.
#[tactic(auto, unfolding(crate::specs::Code::Reading::maybe_annotated, cad_parse_type::specs::Code::Reading::maybe))]
pub fn maybe_annotated(
    alloc: Global,
    spot: Spot<'_>,
) -> Result<Option<(Option<TypeAnnotation>, Spot<'_>)>, AllocError>
    ensures { IfOk result (λ o. option_map (seen_with (option_map annotation_of)) o ≡ spec.maybe_annotated (seen spot.entry)) }
{
    let Some(rest) = spot.after(Sign::Colon) else {
        return Ok(Some((None, spot)));
    };
    let Some((found, end)) = annotation(alloc, rest)? else {
        return Ok(None);
    };
    Ok(Some((Some(found), end)))
}

// What stands behind `let` or `var`, with a name of its own.
fn named(
    name: &Name,
    annotation: Option<TypeAnnotation>,
    transfer: Transfer,
    value: Expr,
) -> Result<NamedValue, AllocError>
    ensures { IfOk result (λ b. named_value_of b ≡ record { name = name.now; annotation = option_map annotation_of annotation; transfer = transfer; value = expr_of value }) }
{
    match name.clone() {
        Ok(name) => Ok(NamedValue {
            name,
            annotation,
            transfer,
            value,
        }),
        Err(error) => {
            drop(annotation);
            drop(value);
            Err(error)
        }
    }
}

/// A name, its type or none, and its value, and the spot behind it; None where they don't stand there.
#[tactic(auto, unfolding(crate::specs::Code::Reading::named_value))]
pub fn named_value(
    alloc: Global,
    spot: Spot<'_>,
) -> Result<Option<(NamedValue, Spot<'_>)>, AllocError>
    ensures { IfOk result (λ o. option_map (seen_with named_value_of) o ≡ spec.named_value (seen spot.entry)) }
{
    let Some((name, rest)) = spot.name() else {
        return Ok(None);
    };
    let Some((annotation, rest)) = maybe_annotated(alloc, rest)? else {
        return Ok(None);
    };
    let Some((transfer, rest)) = transfer(rest) else {
        drop(annotation);
        return Ok(None);
    };
    match expression(alloc, rest) {
        Ok(Some((value, end))) => Ok(Some((named(name, annotation, transfer, value)?, end))),
        Ok(None) => {
            drop(annotation);
            Ok(None)
        }
        Err(error) => {
            drop(annotation);
            Err(error)
        }
    }
}

fn binding(kind: VariableKind, first: NamedValue) -> Test
    ensures { test_of result ≡ spec.binding kind (named_value_of first) }
{
    Test::Binding {
        kind,
        name: first.name,
        annotation: first.annotation,
        transfer: first.transfer,
        value: first.value,
    }
}

/// The test of an `if`, and the spot behind it; None where none stands there.
#[tactic(auto, unfolding(crate::specs::Code::Reading::tested))]
pub fn tested(alloc: Global, spot: Spot<'_>) -> Result<Option<(Test, Spot<'_>)>, AllocError>
    ensures { IfOk result (λ o. option_map (seen_with test_of) o ≡ spec.tested (seen spot.entry)) }
{
    if let Some((kind, rest)) = variable_word(spot) {
        let Some((found, end)) = named_value(alloc, rest)? else {
            return Ok(None);
        };
        return Ok(Some((binding(kind, found), end)));
    }
    let Some((value, end)) = expression(alloc, spot)? else {
        return Ok(None);
    };
    Ok(Some((Test::Expr(value), end)))
}

/// A second transfer with its value, or nothing, and the spot behind it; None where no value stands behind the transfer.
#[tactic(auto, unfolding(crate::specs::Code::Reading::seconded))]
pub fn seconded(
    alloc: Global,
    spot: Spot<'_>,
) -> Result<Option<(Option<(Transfer, Expr)>, Spot<'_>)>, AllocError>
    ensures { IfOk result (λ o. option_map (seen_with second_in) o ≡ spec.seconded (seen spot.entry)) }
{
    let Some((transfer, rest)) = transfer(spot) else {
        return Ok(Some((None, spot)));
    };
    let Some((value, end)) = expression(alloc, rest)? else {
        return Ok(None);
    };
    Ok(Some((Some((transfer, value)), end)))
}

/// The names of a `for`, that of the index or none, and the spot behind the `in`; None where they don't stand there.
#[tactic(auto, unfolding(crate::specs::Code::Reading::loops))]
pub fn loops(spot: Spot<'_>) -> Result<Option<((Option<Name>, Name), Spot<'_>)>, AllocError>
    ensures { IfOk result (λ o. option_map (seen_with (λ n. n)) o ≡ spec.loops (seen spot.entry)) }
{
    let Some((first, rest)) = spot.name() else {
        return Ok(None);
    };
    if let Some(rest) = rest.after(Sign::Comma) {
        let Some((second, rest)) = rest.name() else {
            return Ok(None);
        };
        let Some(end) = rest.keyword(Keyword::In) else {
            return Ok(None);
        };
        return Ok(Some(((Some(first.clone()?), second.clone()?), end)));
    }
    let Some(end) = rest.keyword(Keyword::In) else {
        return Ok(None);
    };
    Ok(Some(((None, first.clone()?), end)))
}

/// A statement on the heap.
pub fn boxed(alloc: Global, found: Stmt) -> Result<Box<Stmt>, AllocError>
    ensures { IfOk result (λ b. b.value ≡ found) }
{
    match Box::new(alloc, found) {
        Ok(own) => Ok(own),
        Err(refused) => {
            drop(refused.value);
            Err(AllocError)
        }
    }
}
