// The heads of declarations: types, parameters and results.
ghost use Rattle.std.specs.Prelude.{◌≡◌, ◌&&◌, IfOk, map, option_map};
ghost use Rattle.std.specs.List.{list_all};
ghost use Rattle.cad_syntax.specs.Types.{pure_type};
ghost use Rattle.cad_types.specs.Views.{declarations};
ghost use Rattle.cad_grammar.specs.Views.{annotation_of, parameter_of, type_of};
ghost use Rattle.cad_declarations.specs.Entries as entries;
ghost use Rattle.cad_declarations.specs.Kinds as kinds;
ghost use Rattle.cad_declarations.specs.Views.{tables_of, parameter_of as typed_parameter};
ghost use Rattle.cad_scopes.specs.Views.{scope_of};
ghost use Rattle.cad_typing.specs.Functions as spec;
ghost use Rattle.cad_typing.specs.Types as classes;

use crate::names::are_new;
use cad_declarations::{Parameter as TypedParameter, discard_type};
use cad_environment::Known;
use cad_grammar::{Parameter, TypeAnnotation, TypeExpr};
use cad_scopes::{Scope, is_spelled, resolved_annotation, resolved_type};
use cad_syntax::{Basic, CadType, Name};
use cad_type_classes::is_importable;
use cad_types::DeclaredTypes;
use std::alloc::{AllocError, Global};

/// What the names of a program are looked up in.
pub fn scope_in(known: Known<'_>) -> Scope<'_>
    ensures { scope_of result ≡ kinds.scope_of (tables_of known.entry.tables.now) }
{
    let tables = known.tables;
    Scope {
        contract: tables.contract.as_ref(),
        imports: tables.imports.as_slice(),
        types: known.declared(),
        entitlements: &tables.entitlements,
        mappings: &tables.mappings,
    }
}

/// Whether a type is there, rightly formed, with `@` where it is one of resources.
pub(crate) fn is_annotated(
    alloc: Global,
    scope: Scope<'_>,
    annotation: &TypeAnnotation,
) -> Result<bool, AllocError>
    ensures { IfOk result (λ b. b ≡ spec.is_annotated (scope_of scope.entry) (annotation_of annotation.now)) }
{
    match resolved_annotation(alloc, scope, annotation)? {
        Some(declared) => {
            discard_type(declared);
            Ok(true)
        }
        None => Ok(false),
    }
}

/// The same of a result, which may be left out.
pub(crate) fn is_result(
    alloc: Global,
    scope: Scope<'_>,
    annotation: Option<&TypeAnnotation>,
) -> Result<bool, AllocError>
    ensures { IfOk result (λ b. b ≡ spec.is_result (scope_of scope.entry) (option_map (λ a. annotation_of a.now) annotation.entry)) }
{
    match annotation {
        Some(annotation) => is_annotated(alloc, scope, annotation),
        None => Ok(true),
    }
}

/// Whether the type of a parameter is there.
fn has_type(alloc: Global, scope: Scope<'_>, parameter: &Parameter) -> Result<bool, AllocError>
    ensures { IfOk result (λ b. b ≡ spec.is_annotated (scope_of scope.entry) (parameter_of parameter.now).annotation) }
{
    is_annotated(alloc, scope, &parameter.annotation)
}

fn have_types(alloc: Global, scope: Scope<'_>, parameters: &[Parameter]) -> Result<bool, AllocError>
    ensures { IfOk result (λ b. b ≡ list_all (λ p. spec.is_annotated (scope_of scope.entry) p.annotation) (map parameter_of parameters.now)) }
{
    for parameter in parameters {
        if !has_type(alloc, scope, parameter)? {
            return Ok(false);
        }
    }
    Ok(true)
}

fn parameter_names(alloc: Global, parameters: &[Parameter]) -> Result<Vec<&Name>, AllocError>
    ensures { IfOk result (λ all. map (λ n. n.now) all.items ≡ spec.parameter_names (map parameter_of parameters.now)) }
{
    let mut all = Vec::new(alloc);
    for parameter in parameters {
        all.push(&parameter.name)?;
    }
    Ok(all)
}

/// Whether the types of parameters are right, and no two have one name.
pub(crate) fn are_parameters(
    alloc: Global,
    scope: Scope<'_>,
    parameters: &[Parameter],
) -> Result<bool, AllocError>
    ensures { IfOk result (λ b. b ≡ spec.are_parameters (scope_of scope.entry) (map parameter_of parameters.now)) }
{
    if !have_types(alloc, scope, parameters)? {
        return Ok(false);
    }
    let names = parameter_names(alloc, parameters)?;
    are_new(alloc, names.as_slice())
}

/// A written type; of a name that isn't there nothing is asked.
pub(crate) fn type_entry(
    alloc: Global,
    scope: Scope<'_>,
    written: &TypeExpr,
) -> Result<CadType, AllocError>
    ensures { IfOk result (λ t. pure_type t ≡ entries.type_entry (scope_of scope.entry) (type_of written.now)) }
{
    match resolved_type(alloc, scope, written)? {
        Some(found) => Ok(found),
        None => Ok(CadType::Basic(Basic::Never)),
    }
}

/// The type of an annotation. It fails where memory runs out alone.
pub fn annotated_type(
    alloc: Global,
    scope: Scope<'_>,
    annotation: &TypeAnnotation,
) -> Result<CadType, AllocError>
    ensures { IfOk result (λ t. pure_type t ≡ entries.type_entry (scope_of scope.entry) (annotation_of annotation.now).written) }
{
    type_entry(alloc, scope, &annotation.written)
}

/// The type of a result: Void where it is left out. It fails where memory runs out alone.
pub fn result_entry(
    alloc: Global,
    scope: Scope<'_>,
    annotation: Option<&TypeAnnotation>,
) -> Result<CadType, AllocError>
    ensures { IfOk result (λ t. pure_type t ≡ entries.result_entry (scope_of scope.entry) (option_map (λ a. annotation_of a.now) annotation.entry)) }
{
    match annotation {
        Some(annotation) => annotated_type(alloc, scope, annotation),
        None => Ok(CadType::Basic(Basic::Void)),
    }
}

/// `_` stands for no label.
fn unless_blank(name: &Name) -> Result<Option<Name>, AllocError>
    ensures { IfOk result (λ n. n ≡ entries.unless_blank name.now) }
{
    if is_spelled(name, "_") {
        Ok(None)
    } else {
        Ok(Some(name.clone()?))
    }
}

/// The label of an argument: the parameter's own, else its name.
fn argument_label(label: &Option<Name>, name: &Name) -> Result<Option<Name>, AllocError>
    ensures { IfOk result (λ n. n ≡ entries.argument_label label.now name.now) }
{
    match label {
        Some(label) => unless_blank(label),
        None => unless_blank(name),
    }
}

fn parameter_entry(
    alloc: Global,
    scope: Scope<'_>,
    parameter: &Parameter,
) -> Result<TypedParameter, AllocError>
    ensures { IfOk result (λ p. typed_parameter p ≡ entries.parameter_entry (scope_of scope.entry) (parameter_of parameter.now)) }
{
    let label = argument_label(&parameter.label, &parameter.name)?;
    let name = parameter.name.clone()?;
    let declared = annotated_type(alloc, scope, &parameter.annotation)?;
    Ok(TypedParameter {
        label,
        name,
        declared,
    })
}

/// Parameters with their types. It fails where memory runs out alone.
pub fn parameter_types(
    alloc: Global,
    scope: Scope<'_>,
    parameters: &[Parameter],
) -> Result<Vec<TypedParameter>, AllocError>
    ensures { IfOk result (λ all. map typed_parameter all.items ≡ spec.parameter_types (scope_of scope.entry) (map parameter_of parameters.now)) }
{
    let mut all = Vec::new(alloc);
    for parameter in parameters {
        all.push(parameter_entry(alloc, scope, parameter)?)?;
    }
    Ok(all)
}

/// Whether all of these can be brought into a program.
pub(crate) fn are_importable(
    alloc: Global,
    types: &DeclaredTypes,
    parameters: &[TypedParameter],
) -> Result<bool, AllocError>
    ensures { IfOk result (λ b. b ≡ list_all (λ p. classes.is_importable (declarations types.now) p.type) (map typed_parameter parameters.now)) }
{
    for parameter in parameters {
        if !is_importable(alloc, types, &parameter.declared)? {
            return Ok(false);
        }
    }
    Ok(true)
}

/// Whether these parameters can be imported, by their types.
pub(crate) fn are_entries(
    alloc: Global,
    known: Known<'_>,
    parameters: &[Parameter],
) -> Result<bool, AllocError>
    ensures { IfOk result (λ b. b ≡ list_all (λ p. classes.is_importable (kinds.kinds_of (tables_of known.entry.tables.now)) p.type) (spec.parameter_types (kinds.scope_of (tables_of known.entry.tables.now)) (map parameter_of parameters.now))) }
{
    let types = parameter_types(alloc, scope_in(known), parameters)?;
    are_importable(alloc, known.declared(), types.as_slice())
}
