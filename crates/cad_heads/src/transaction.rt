// Heads of transactions: their parameters, fields and signers.
ghost use Rattle.std.specs.Prelude.{◌≡◌, ◌+◌, IfOk, length, map, option_map};
ghost use Rattle.std.specs.List.{list_all};
ghost use Rattle.cad_syntax.specs.Types as types;
ghost use Rattle.cad_syntax.specs.Types.{pure_type};
ghost use Rattle.cad_syntax.specs.declared.types.Authorization.{Authorization};
ghost use Rattle.cad_grammar.specs.Views.{parameter_of as written_parameter, prepare_of, transaction_field_of, transaction_of as tree_of};
ghost use Rattle.cad_declarations.specs.Kinds.{kinds_of, scope_of as scope_in_tables};
ghost use Rattle.cad_declarations.specs.Points as points;
ghost use Rattle.cad_declarations.specs.Views.{parameter_of as typed_parameter, tables_of};
ghost use Rattle.cad_scopes.specs.Views.{scope_of};
ghost use Rattle.cad_typing.specs.Functions as functions;
ghost use Rattle.cad_typing.specs.Transactions as spec;
ghost use Rattle.cad_typing.specs.Types as classes;

use crate::head::{are_entries, are_parameters, is_annotated, parameter_types, scope_in};
use crate::results::counted;
use cad_declarations::Parameter as TypedParameter;
use cad_environment::{Known, more};
use cad_grammar::{Parameter, Prepare, Transaction, TransactionField};
use cad_scopes::Scope;
use cad_syntax::{Basic, CadType};
use std::alloc::{AllocError, Global};

/// The parameters that are written.
pub fn option_parameters(all: &Option<Vec<Parameter>>) -> &[Parameter]
    ensures { map written_parameter result.now ≡ points.option_parameters (option_map (λ v. map written_parameter v.items) all.now) }
{
    match all {
        Some(all) => all.as_slice(),
        None => &[],
    }
}

/// The parameters of `prepare`.
pub fn signer_parameters(prepare: &Option<Prepare>) -> &[Parameter]
    ensures { map written_parameter result.now ≡ spec.signer_parameters (option_map prepare_of prepare.now) }
{
    match prepare {
        Some(prepare) => prepare.parameters.as_slice(),
        None => &[],
    }
}

/// Whether the type of a field is there.
fn field_is_right(
    alloc: Global,
    scope: Scope<'_>,
    field: &TransactionField,
) -> Result<bool, AllocError>
    ensures { IfOk result (λ b. b ≡ functions.is_annotated (scope_of scope.entry) (transaction_field_of field.now).annotation) }
{
    is_annotated(alloc, scope, &field.annotation)
}

fn fields_are_right(
    alloc: Global,
    scope: Scope<'_>,
    fields: &[TransactionField],
) -> Result<bool, AllocError>
    ensures { IfOk result (λ b. b ≡ list_all (λ f. functions.is_annotated (scope_of scope.entry) f.annotation) (map transaction_field_of fields.now)) }
{
    for field in fields {
        if !field_is_right(alloc, scope, field)? {
            return Ok(false);
        }
    }
    Ok(true)
}

/// Whether the types of the fields are there.
fn has_fields(
    alloc: Global,
    known: Known<'_>,
    transaction: &Transaction,
) -> Result<bool, AllocError>
    ensures { IfOk result (λ b. b ≡ list_all (λ f. functions.is_annotated (scope_in_tables (tables_of known.entry.tables.now)) f.annotation) (tree_of transaction.now).fields) }
{
    fields_are_right(alloc, scope_in(known), transaction.fields.as_slice())
}

/// Whether the types of the parameters are right, and no two have one name.
fn has_parameters(
    alloc: Global,
    known: Known<'_>,
    transaction: &Transaction,
) -> Result<bool, AllocError>
    ensures { IfOk result (λ b. b ≡ functions.are_parameters (scope_in_tables (tables_of known.entry.tables.now)) (points.option_parameters (tree_of transaction.now).parameters)) }
{
    let parameters = option_parameters(&transaction.parameters);
    are_parameters(alloc, scope_in(known), parameters)
}

/// Whether the parameters can be imported.
fn has_entries(
    alloc: Global,
    known: Known<'_>,
    transaction: &Transaction,
) -> Result<bool, AllocError>
    ensures { IfOk result (λ b. b ≡ list_all (λ p. classes.is_importable (kinds_of (tables_of known.entry.tables.now)) p.type) (functions.parameter_types (scope_in_tables (tables_of known.entry.tables.now)) (points.option_parameters (tree_of transaction.now).parameters))) }
{
    are_entries(alloc, known, option_parameters(&transaction.parameters))
}

/// Whether the parameters can be imported, and the types of the fields are there. It fails where memory runs out alone.
pub fn declaration_is_right(
    alloc: Global,
    known: Known<'_>,
    transaction: &Transaction,
) -> Result<bool, AllocError>
    ensures { IfOk result (λ b. b ≡ spec.declaration_is_right (tables_of known.entry.tables.now) (tree_of transaction.now)) }
{
    if !has_parameters(alloc, known, transaction)? {
        return Ok(false);
    }
    if !has_entries(alloc, known, transaction)? {
        return Ok(false);
    }
    has_fields(alloc, known, transaction)
}

/// How many fields and parameters there are. It fails where the number passes 32 bits alone.
pub fn own_count(transaction: &Transaction) -> Result<u32, AllocError>
    ensures { IfOk result (λ n. n ≡ spec.own_count (tree_of transaction.now)) }
{
    let fields = counted(transaction.fields.len())?;
    more(
        fields,
        counted(option_parameters(&transaction.parameters).len())?,
    )
}

/// How many variables there are where `prepare` begins. It fails where the number passes 32 bits alone.
pub fn signed_count(transaction: &Transaction) -> Result<u32, AllocError>
    ensures { IfOk result (λ n. n ≡ spec.own_count (tree_of transaction.now) + length (spec.signer_parameters (tree_of transaction.now).prepare)) }
{
    let signers = counted(signer_parameters(&transaction.prepare).len())?;
    more(own_count(transaction)?, signers)
}

/// Whether a type is `&Account`, with any authorization or none.
fn is_account_reference(t: &CadType) -> bool
    ensures { result ≡ spec.is_account_reference (pure_type t.now) }
{
    match t {
        CadType::Reference(_, target) => is_account(target),
        _ => false,
    }
}

fn is_account(t: &CadType) -> bool
    ensures { (a : Authorization) → result ≡ spec.is_account_reference (types.reference a (pure_type t.now)) }
{
    matches!(t, CadType::Basic(Basic::Account))
}

fn are_account_references(parameters: &[TypedParameter]) -> bool
    ensures { result ≡ list_all (λ p. spec.is_account_reference p.type) (map typed_parameter parameters.now) }
{
    for parameter in parameters {
        if !is_account_reference(&parameter.declared) {
            return false;
        }
    }
    true
}

/// Whether the parameters of `prepare` are references to accounts. It fails where memory runs out alone.
pub fn are_signers(
    alloc: Global,
    known: Known<'_>,
    parameters: &[Parameter],
) -> Result<bool, AllocError>
    ensures { IfOk result (λ b. b ≡ spec.are_signers (tables_of known.entry.tables.now) (map written_parameter parameters.now)) }
{
    let scope = scope_in(known);
    if !are_parameters(alloc, scope, parameters)? {
        return Ok(false);
    }
    let types = parameter_types(alloc, scope, parameters)?;
    Ok(are_account_references(types.as_slice()))
}
