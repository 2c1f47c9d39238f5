// Transactions.
ghost use Rattle.std.specs.Prelude.{◌≡◌, [], length, IfOk, Some, option_map};
ghost use Rattle.cad_grammar.specs.Views.{transaction_of, transaction_field_of, prepare_of};
ghost use Rattle.cad_parse.specs.Code.Reading as spec;
ghost use Rattle.cad_parse.specs.Code.Views.{fields_in, maybe_parameters_in, maybe_prepare_of, maybe_stmts_in, phases_in, transaction_body_in};
ghost use Rattle.cad_parse_type.specs.Code.Views.{seen, seen_with};

use crate::function::{conditions_behind, labelled, parameters};
use cad_grammar::{
    Conditions, Parameter, Prepare, Sign, Stmt, Transaction, TransactionField, VariableKind,
};
use cad_parse_statement::{block, variable_word};
use cad_parse_type::{Spot, annotation};
use cad_syntax::Keyword;
use std::alloc::{AllocError, Global};

// The conditions before, the block of `execute`, and the conditions behind it.
type Phases = ((Option<Conditions>, Option<Vec<Stmt>>), Option<Conditions>);

// Fields and `prepare`, and what stands behind them.
type TransactionBody = ((Vec<TransactionField>, Option<Prepare>), Phases);

#[tactic(auto, unfolding(crate::specs::Code::Reading::transaction_field))]
fn transaction_field(
    alloc: Global,
    kind: VariableKind,
    spot: Spot<'_>,
) -> Result<Option<(TransactionField, Spot<'_>)>, AllocError>
    ensures { IfOk result (λ o. option_map (seen_with transaction_field_of) o ≡ spec.transaction_field kind (seen spot.entry)) }
{
    let Some((name, spot)) = labelled(spot) else {
        return Ok(None);
    };
    let Some((annotation, spot)) = annotation(alloc, spot)? else {
        return Ok(None);
    };
    match name.clone() {
        Ok(name) => {
            let field = TransactionField {
                kind,
                name,
                annotation,
            };
            Ok(Some((field, spot)))
        }
        Err(error) => {
            drop(annotation);
            Err(error)
        }
    }
}

#[tactic(auto, unfolding(crate::specs::Code::Reading::fields))]
fn fields(
    alloc: Global,
    spot: Spot<'_>,
) -> Result<Option<(Vec<TransactionField>, Spot<'_>)>, AllocError>
    ensures { IfOk result (λ o. option_map (seen_with fields_in) o ≡ spec.fields (length spot.entry.tokens.now) [] (seen spot.entry)) }
{
    let mut found = Vec::new(alloc);
    let mut here = spot;
    for _turn in 0..spot.tokens.len() {
        let Some((kind, behind)) = variable_word(here) else {
            return Ok(Some((found, here)));
        };
        let Some((item, next)) = transaction_field(alloc, kind, behind)? else {
            return Ok(None);
        };
        found.push(item)?;
        here = next;
    }
    Ok(Some((found, here)))
}

#[tactic(auto, unfolding(crate::specs::Code::Reading::maybe_parameters))]
fn maybe_parameters(
    alloc: Global,
    spot: Spot<'_>,
) -> Result<Option<(Option<Vec<Parameter>>, Spot<'_>)>, AllocError>
    ensures { IfOk result (λ o. option_map (seen_with maybe_parameters_in) o ≡ spec.maybe_parameters (seen spot.entry)) }
{
    let Some(_) = spot.after(Sign::OpenParenthesis) else {
        return Ok(Some((None, spot)));
    };
    let Some((all, end)) = parameters(alloc, spot)? else {
        return Ok(None);
    };
    Ok(Some((Some(all), end)))
}

#[tactic(auto, unfolding(crate::specs::Code::Reading::prepared))]
fn prepared(alloc: Global, spot: Spot<'_>) -> Result<Option<(Prepare, Spot<'_>)>, AllocError>
    ensures { IfOk result (λ o. option_map (seen_with prepare_of) o ≡ spec.prepared (seen spot.entry)) }
{
    let Some((parameters, spot)) = parameters(alloc, spot)? else {
        return Ok(None);
    };
    let Some((body, spot)) = block(alloc, spot)? else {
        return Ok(None);
    };
    Ok(Some((Prepare { parameters, body }, spot)))
}

#[tactic(auto, unfolding(crate::specs::Code::Reading::prepare, cad_parse_type::specs::Code::Reading::maybe))]
fn prepare(alloc: Global, spot: Spot<'_>) -> Result<Option<(Option<Prepare>, Spot<'_>)>, AllocError>
    ensures { IfOk result (λ o. option_map (seen_with maybe_prepare_of) o ≡ spec.prepare (seen spot.entry)) }
{
    let Some(behind) = spot.keyword(Keyword::Prepare) else {
        return Ok(Some((None, spot)));
    };
    let Some((prepare, end)) = prepared(alloc, behind)? else {
        return Ok(None);
    };
    Ok(Some((Some(prepare), end)))
}

#[tactic(auto, unfolding(crate::specs::Code::Reading::execute, cad_parse_type::specs::Code::Reading::maybe))]
fn execute(
    alloc: Global,
    spot: Spot<'_>,
) -> Result<Option<(Option<Vec<Stmt>>, Spot<'_>)>, AllocError>
    ensures { IfOk result (λ o. option_map (seen_with maybe_stmts_in) o ≡ spec.execute (seen spot.entry)) }
{
    let Some(behind) = spot.keyword(Keyword::Execute) else {
        return Ok(Some((None, spot)));
    };
    let Some((body, end)) = block(alloc, behind)? else {
        return Ok(None);
    };
    Ok(Some((Some(body), end)))
}

// What stands behind `prepare`, and the spot behind the `}` of the transaction.
#[tactic(auto, unfolding(crate::specs::Code::Reading::phases))]
fn phases(alloc: Global, spot: Spot<'_>) -> Result<Option<(Phases, Spot<'_>)>, AllocError>
    ensures { IfOk result (λ o. option_map (seen_with phases_in) o ≡ spec.phases (seen spot.entry)) }
{
    let Some((pre, spot)) = conditions_behind(alloc, Keyword::Pre, spot)? else {
        return Ok(None);
    };
    let (execute, spot) = match execute(alloc, spot) {
        Ok(Some(found)) => found,
        Ok(None) => {
            drop(pre);
            return Ok(None);
        }
        Err(error) => {
            drop(pre);
            return Err(error);
        }
    };
    let (post, spot) = match conditions_behind(alloc, Keyword::Post, spot) {
        Ok(Some(found)) => found,
        Ok(None) => {
            drop(pre);
            drop(execute);
            return Ok(None);
        }
        Err(error) => {
            drop(pre);
            drop(execute);
            return Err(error);
        }
    };
    let Some(end) = spot.after(Sign::CloseBrace) else {
        drop(pre);
        drop(execute);
        drop(post);
        return Ok(None);
    };
    Ok(Some((((pre, execute), post), end)))
}

// What stands behind the `{` of a transaction, and the spot behind its `}`.
#[tactic(auto, unfolding(crate::specs::Code::Reading::transaction_body, cad_parse_type::specs::Code::Views::seen))]
fn transaction_body(
    alloc: Global,
    spot: Spot<'_>,
) -> Result<Option<(TransactionBody, Spot<'_>)>, AllocError>
    ensures { IfOk result (λ o. option_map (seen_with transaction_body_in) o ≡ spec.transaction_body (seen spot.entry)) }
{
    let Some((fields, spot)) = fields(alloc, spot)? else {
        return Ok(None);
    };
    let Some((prepare, spot)) = prepare(alloc, spot)? else {
        return Ok(None);
    };
    match phases(alloc, spot) {
        Ok(Some((phases, end))) => Ok(Some((((fields, prepare), phases), end))),
        Ok(None) => {
            drop(prepare);
            Ok(None)
        }
        Err(error) => {
            drop(prepare);
            Err(error)
        }
    }
}

/// The transaction that begins behind its `transaction`, which stands at `from`, and the spot behind its `}`; None where none
/// begins.
#[tactic(auto, unfolding(crate::specs::Code::Reading::transaction, crate::specs::Code::Reading::transaction_body, crate::specs::Code::Reading::phases, cad_parse_type::specs::Code::Views::seen))]
pub fn transaction<'a>(
    alloc: Global,
    from: Spot<'a>,
    spot: Spot<'a>,
) -> Result<Option<(Transaction, Spot<'a>)>, AllocError>
    ensures { IfOk result (λ o. option_map (seen_with transaction_of) o ≡ spec.transaction (seen from.entry) (seen spot.entry)) }
{
    let Some((parameters, spot)) = maybe_parameters(alloc, spot)? else {
        return Ok(None);
    };
    let Some(spot) = spot.opening(Sign::OpenBrace) else {
        drop(parameters);
        return Ok(None);
    };
    match transaction_body(alloc, spot) {
        Ok(Some((body, end))) => {
            let ((fields, prepare), ((pre, execute), post)) = body;
            let transaction = Transaction {
                parameters,
                fields,
                prepare,
                pre,
                execute,
                post,
            };
            Ok(Some((transaction, from.back(end))))
        }
        Ok(None) => {
            drop(parameters);
            Ok(None)
        }
        Err(error) => {
            drop(parameters);
            Err(error)
        }
    }
}
