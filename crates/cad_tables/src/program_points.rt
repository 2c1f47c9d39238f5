// Where transactions and the declarations of a program are refused.
ghost use Rattle.std.specs.Prelude.{◌≡◌, ◌&&◌, not, Some, true, ◌∷◌, [], ◌++◌, codes, map, option_map, reverse, if◌then◌else◌, IfOk};
ghost use Rattle.std.specs.List.{list_all};
ghost use Rattle.cad_grammar.specs.Views.{conditions_of, contract_of, decl_of, function_of, parameter_of, prepare_of, stmt_of, transaction_field_of, transaction_of};
ghost use Rattle.cad_declarations.specs.Build as spec;
ghost use Rattle.cad_declarations.specs.Points as points;
ghost use Rattle.cad_declarations.specs.Written.{types_of_parameters, rows_of_body};
ghost use Rattle.cad_scopes.specs.Views.{scope_of};
ghost use Rattle.cad_contracts.specs.Views.{own_of};

use crate::contract_points::contract_stop;
use cad_contracts::Own;
use cad_declarations::{Links, Stop};
use cad_grammar::{
    Conditions, Contract, Decl, Function, Import, Parameter, Prepare, Program, Stmt, Transaction,
    TransactionField,
};
use cad_scopes::Scope;
use cad_stop_points::{
    NamesBefore, annotation_is_there, declaration_name, function_stop, import_names, is_new,
    missing_in_body, missing_in_conditions, parameters_are_there, told_stop, unless_right, word,
};
use cad_syntax::Name;
use std::alloc::{AllocError, Global};

/// Whether the names of fields differ.
#[tactic(auto, using(crate::proofs::Points::reversed_one))]
fn fields_are_new(alloc: Global, fields: &[TransactionField]) -> Result<bool, AllocError>
    ensures { IfOk result (λ b. b ≡ points.are_new [] (map (λ f. f.name) (map transaction_field_of fields.now))) }
{
    let mut before = NamesBefore::new(alloc);
    for field in fields {
        if !is_new(&before, &field.name) {
            return Ok(false);
        }
        before.push(field.name.clone()?)?;
    }
    Ok(true)
}

/// Whether the types of fields are there.
fn fields_are_right(
    alloc: Global,
    scope: Scope<'_>,
    fields: &[TransactionField],
) -> Result<bool, AllocError>
    ensures { IfOk result (λ b. b ≡ list_all (points.transaction_field_is_right (scope_of scope.entry)) (map transaction_field_of fields.now)) }
{
    for field in fields {
        if !annotation_is_there(alloc, scope, &field.annotation)? {
            return Ok(false);
        }
    }
    Ok(true)
}

/// Whether the types of a transaction's parameters are there.
fn option_parameters_are_there(
    alloc: Global,
    scope: Scope<'_>,
    parameters: &Option<Vec<Parameter>>,
) -> Result<bool, AllocError>
    ensures { IfOk result (λ b. b ≡ points.types_are_there (scope_of scope.entry) (types_of_parameters (points.option_parameters (option_map (λ v. map parameter_of v.items) parameters.now)))) }
{
    match parameters {
        Some(all) => parameters_are_there(alloc, scope, all.as_slice()),
        None => Ok(true),
    }
}

/// Whether all that a transaction itself names is there.
fn transaction_is_right(
    alloc: Global,
    scope: Scope<'_>,
    x: &Transaction,
) -> Result<bool, AllocError>
    ensures { IfOk result (λ b. b ≡ (points.types_are_there (scope_of scope.entry) (types_of_parameters (points.option_parameters (transaction_of x.now).parameters)) && (points.are_new [] (map (λ f. f.name) (transaction_of x.now).fields) && list_all (points.transaction_field_is_right (scope_of scope.entry)) (transaction_of x.now).fields))) }
{
    let parameters = option_parameters_are_there(alloc, scope, &x.parameters)?;
    let new = fields_are_new(alloc, x.fields.as_slice())?;
    let fields = fields_are_right(alloc, scope, x.fields.as_slice())?;
    Ok(parameters && new && fields)
}

/// The stop of what a transaction does with accounts.
#[tactic(auto, using(crate::proofs::Points::told_rows))]
fn prepared_stop(alloc: Global, scope: Scope<'_>, x: &Prepare) -> Result<Option<Stop>, AllocError>
    ensures { IfOk result (λ s. s ≡ spec.first_stop (scope_of scope.entry) (points.prepare_points (scope_of scope.entry) (Some (prepare_of x.now)))) }
{
    let name = word(alloc, "prepare")?;
    if !parameters_are_there(alloc, scope, x.parameters.as_slice())? {
        return unless_right(alloc, false, &[], &name);
    }
    let missing = missing_in_body(alloc, scope, x.body.as_slice())?;
    told_stop(alloc, &[], &name, missing)
}

fn prepare_stop(
    alloc: Global,
    scope: Scope<'_>,
    x: &Option<Prepare>,
) -> Result<Option<Stop>, AllocError>
    ensures { IfOk result (λ s. s ≡ spec.first_stop (scope_of scope.entry) (points.prepare_points (scope_of scope.entry) (option_map prepare_of x.now))) }
{
    match x {
        Some(x) => prepared_stop(alloc, scope, x),
        None => Ok(None),
    }
}

/// The stop of a transaction's conditions, which this word begins.
#[tactic(auto, using(crate::proofs::Points::told_rows))]
fn conditions_stop(
    alloc: Global,
    scope: Scope<'_>,
    text: &str,
    all: &Option<Conditions>,
) -> Result<Option<Stop>, AllocError>
    ensures { IfOk result (λ s. s ≡ spec.point_stop (scope_of scope.entry) (points.condition_point text.now (conditions_of all.now))) }
{
    let name = word(alloc, text)?;
    let missing = missing_in_conditions(alloc, scope, all)?;
    told_stop(alloc, &[], &name, missing)
}

/// The first of a transaction's statements that names a type that isn't there.
fn missing_in_execute(
    alloc: Global,
    scope: Scope<'_>,
    body: &Option<Vec<Stmt>>,
) -> Result<Option<u64>, AllocError>
    ensures { IfOk result (λ at. at ≡ option_map spec.told (spec.missing_row (scope_of scope.entry) (rows_of_body (points.option_body (option_map (λ v. map stmt_of v.items) body.now))))) }
{
    match body {
        Some(all) => missing_in_body(alloc, scope, all.as_slice()),
        None => Ok(None),
    }
}

/// The stop of a transaction's statements.
#[tactic(auto, using(crate::proofs::Points::told_rows))]
fn execute_stop(
    alloc: Global,
    scope: Scope<'_>,
    body: &Option<Vec<Stmt>>,
) -> Result<Option<Stop>, AllocError>
    ensures { IfOk result (λ s. s ≡ spec.point_stop (scope_of scope.entry) (points.execute_point (option_map (λ v. map stmt_of v.items) body.now))) }
{
    let name = word(alloc, "execute")?;
    let missing = missing_in_execute(alloc, scope, body)?;
    told_stop(alloc, &[], &name, missing)
}

/// The first stop of a transaction's conditions and statements.
fn parts_stop(alloc: Global, scope: Scope<'_>, x: &Transaction) -> Result<Option<Stop>, AllocError>
    ensures { IfOk result (λ s. s ≡ spec.first_stop (scope_of scope.entry) (points.condition_point (codes "pre") (transaction_of x.now).pre ∷ points.execute_point (transaction_of x.now).execute ∷ points.condition_point (codes "post") (transaction_of x.now).post ∷ [])) }
{
    if let Some(stop) = conditions_stop(alloc, scope, "pre", &x.pre)? {
        return Ok(Some(stop));
    }
    if let Some(stop) = execute_stop(alloc, scope, &x.execute)? {
        return Ok(Some(stop));
    }
    conditions_stop(alloc, scope, "post", &x.post)
}

/// The stop of a transaction itself.
fn transaction_head_stop(
    alloc: Global,
    scope: Scope<'_>,
    before: &NamesBefore,
    x: &Transaction,
) -> Result<Option<Stop>, AllocError>
    ensures { IfOk result (λ s. s ≡ spec.point_stop (scope_of scope.entry) (points.declaration_point (points.transaction_name ∷ []) (points.is_new (reverse before.now) points.transaction_name && (points.types_are_there (scope_of scope.entry) (types_of_parameters (points.option_parameters (transaction_of x.now).parameters)) && (points.are_new [] (map (λ f. f.name) (transaction_of x.now).fields) && list_all (points.transaction_field_is_right (scope_of scope.entry)) (transaction_of x.now).fields))))) }
{
    let name = word(alloc, "transaction")?;
    let right = transaction_is_right(alloc, scope, x)?;
    unless_right(alloc, is_new(before, &name) && right, &[], &name)
}

/// The first stop of what a transaction prepares, of its conditions and of its statements.
#[tactic(auto, using(crate::proofs::Points::first_of_both))]
fn prepared_parts_stop(
    alloc: Global,
    scope: Scope<'_>,
    x: &Transaction,
) -> Result<Option<Stop>, AllocError>
    ensures { IfOk result (λ s. s ≡ spec.first_stop (scope_of scope.entry) (points.prepare_points (scope_of scope.entry) (transaction_of x.now).prepare ++ points.condition_point (codes "pre") (transaction_of x.now).pre ∷ points.execute_point (transaction_of x.now).execute ∷ points.condition_point (codes "post") (transaction_of x.now).post ∷ [])) }
{
    if let Some(stop) = prepare_stop(alloc, scope, &x.prepare)? {
        return Ok(Some(stop));
    }
    parts_stop(alloc, scope, x)
}

/// The first stop of a transaction.
fn transaction_stop(
    alloc: Global,
    scope: Scope<'_>,
    before: &NamesBefore,
    x: &Transaction,
) -> Result<Option<Stop>, AllocError>
    ensures { IfOk result (λ s. s ≡ spec.first_stop (scope_of scope.entry) (points.transaction_points (scope_of scope.entry) (reverse before.now) (transaction_of x.now))) }
{
    if let Some(stop) = transaction_head_stop(alloc, scope, before, x)? {
        return Ok(Some(stop));
    }
    prepared_parts_stop(alloc, scope, x)
}

/// The stop of what has no place in a program.
fn misplaced(alloc: Global, name: &Name) -> Result<Option<Stop>, AllocError>
    ensures { IfOk result (λ s. s ≡ Some (spec.stop_at (name.now ∷ []) 0)) }
{
    unless_right(alloc, false, &[], name)
}

/// The first stop of a contract, by whether no contract stands before.
fn contract_declaration_stop(
    alloc: Global,
    scope: Scope<'_>,
    links: &Links,
    own: &Option<Own<'_>>,
    is_first: bool,
    before: &NamesBefore,
    x: &Contract,
) -> Result<Option<Stop>, AllocError>
    ensures { IfOk result (λ s. s ≡ spec.first_stop (scope_of scope.entry) (spec.contract_declaration_points (scope_of scope.entry) links.now (option_map own_of own.now) is_first (reverse before.now) (contract_of x.now))) }
{
    match own {
        Some(own) => {
            if is_first {
                contract_stop(alloc, scope, links, &own.id, before, x)
            } else {
                misplaced(alloc, &x.name)
            }
        }
        None => misplaced(alloc, &x.name),
    }
}

/// The first stop of a transaction, by whether the program has a place.
fn transaction_declaration_stop(
    alloc: Global,
    scope: Scope<'_>,
    is_placed: bool,
    before: &NamesBefore,
    x: &Transaction,
) -> Result<Option<Stop>, AllocError>
    ensures { IfOk result (λ s. s ≡ spec.first_stop (scope_of scope.entry) (if is_placed then points.misplaced (points.transaction_name ∷ []) ∷ [] else points.transaction_points (scope_of scope.entry) (reverse before.now) (transaction_of x.now))) }
{
    if is_placed {
        let name = word(alloc, "transaction")?;
        misplaced(alloc, &name)
    } else {
        transaction_stop(alloc, scope, before, x)
    }
}

/// The stop of a function outside a contract, by whether the program has a place.
fn function_declaration_stop(
    alloc: Global,
    scope: Scope<'_>,
    is_placed: bool,
    before: &NamesBefore,
    x: &Function,
) -> Result<Option<Stop>, AllocError>
    ensures { IfOk result (λ s. s ≡ spec.first_stop (scope_of scope.entry) (if is_placed then points.misplaced (x.now.name ∷ []) ∷ [] else points.function_point (scope_of scope.entry) [] (reverse before.now) (function_of x.now) ∷ [])) }
{
    if is_placed {
        misplaced(alloc, &x.name)
    } else {
        function_stop(alloc, scope, &[], before, x)
    }
}

/// The first stop of a declaration.
fn declaration_stop(
    alloc: Global,
    scope: Scope<'_>,
    links: &Links,
    is_placed: bool,
    own: &Option<Own<'_>>,
    is_first: bool,
    before: &NamesBefore,
    declaration: &Decl,
) -> Result<Option<Stop>, AllocError>
    ensures { IfOk result (λ s. s ≡ spec.first_stop (scope_of scope.entry) (spec.declaration_points (scope_of scope.entry) links.now is_placed (option_map own_of own.now) is_first (reverse before.now) (decl_of declaration.now))) }
{
    match declaration {
        Decl::Contract(x) => {
            contract_declaration_stop(alloc, scope, links, own, is_first, before, x)
        }
        Decl::Function(x) => function_declaration_stop(alloc, scope, is_placed, before, x),
        Decl::Transaction(x) => transaction_declaration_stop(alloc, scope, is_placed, before, x),
    }
}

/// Whether a declaration is a contract.
fn is_contract(declaration: &Decl) -> bool
    ensures { result ≡ spec.is_contract (decl_of declaration.now) }
{
    matches!(declaration, Decl::Contract(_))
}

/// Whether no contract stands before the next declaration.
fn stays_first(is_first: bool, declaration: &Decl) -> bool
    ensures { result ≡ (is_first && not (spec.is_contract (decl_of declaration.now))) }
{
    is_first && !is_contract(declaration)
}

/// The first stop of declarations behind imports.
fn each_declaration_stop(
    alloc: Global,
    scope: Scope<'_>,
    links: &Links,
    is_placed: bool,
    own: &Option<Own<'_>>,
    imports: &[Import],
    declarations: &[Decl],
) -> Result<Option<Stop>, AllocError>
    ensures { IfOk result (λ s. s ≡ spec.first_stop (scope_of scope.entry) (spec.all_declaration_points (scope_of scope.entry) links.now is_placed (option_map own_of own.now) true (spec.with_names (spec.import_names imports.now) []) (map decl_of declarations.now))) }
{
    let mut before = import_names(alloc, imports)?;
    let mut is_first = true;
    for declaration in declarations {
        if let Some(stop) = declaration_stop(
            alloc,
            scope,
            links,
            is_placed,
            own,
            is_first,
            &before,
            declaration,
        )? {
            return Ok(Some(stop));
        }
        before.push(declaration_name(alloc, declaration)?)?;
        is_first = stays_first(is_first, declaration);
    }
    Ok(None)
}

/// The first stop of a program's declarations.
pub(crate) fn declarations_stop(
    alloc: Global,
    scope: Scope<'_>,
    links: &Links,
    is_placed: bool,
    own: &Option<Own<'_>>,
    program: &Program,
) -> Result<Option<Stop>, AllocError>
    ensures { IfOk result (λ s. s ≡ spec.first_stop (scope_of scope.entry) (spec.all_declaration_points (scope_of scope.entry) links.now is_placed (option_map own_of own.now) true (spec.with_names (spec.import_names program.now.imports.items) []) (map decl_of program.now.declarations.items))) }
{
    each_declaration_stop(
        alloc,
        scope,
        links,
        is_placed,
        own,
        program.imports.as_slice(),
        program.declarations.as_slice(),
    )
}
