// What is written in declarations and in heads of functions is there.
ghost use Rattle.std.specs.Prelude.{◌≡◌, ◌&&◌, map, option_map, option_copied, reverse, IfOk};
ghost use Rattle.std.specs.List.{list_all};
ghost use Rattle.cad_grammar.specs.Trees as t;
ghost use Rattle.cad_grammar.specs.Views.{type_of, annotation_of, parameter_of, function_of, event_of, event_parameter_of, field_of};
ghost use Rattle.cad_declarations.specs.Own as own;
ghost use Rattle.cad_declarations.specs.Points as spec;
ghost use Rattle.cad_declarations.specs.Scopes as scopes;
ghost use Rattle.cad_declarations.specs.Written as written_types;
ghost use Rattle.cad_scopes.specs.Views.{meaning_view, scope_of};

use crate::before::NamesBefore;
use crate::expression_types::types_in_option;
use crate::names::is_new;
use cad_grammar::{
    Access, CompositeKind, Dotted, Event, EventParameter, Field, Function, Parameter,
    TypeAnnotation, TypeExpr,
};
use cad_scopes::{Meaning, Scope, meaning, resolved_access, resolved_entitlement, resolved_type};
use cad_syntax::Name;
use cad_types::Sort;
use std::alloc::{AllocError, Global};

/// Whether a written type is there.
pub(crate) fn type_is_there(
    alloc: Global,
    scope: Scope<'_>,
    written: &TypeExpr,
) -> Result<bool, AllocError>
    ensures { IfOk result (λ b. b ≡ spec.type_is_there (scope_of scope.entry) (type_of written.now)) }
{
    match resolved_type(alloc, scope, written)? {
        Some(_) => Ok(true),
        None => Ok(false),
    }
}

/// Whether a type without type arguments is there.
pub fn name_is_there(alloc: Global, scope: Scope<'_>, name: &Dotted) -> Result<bool, AllocError>
    ensures { IfOk result (λ b. b ≡ spec.type_is_there (scope_of scope.entry) (t.named name.now t.no_annotations)) }
{
    let written = TypeExpr::Named {
        name: name.clone()?,
        arguments: Vec::new(alloc),
    };
    type_is_there(alloc, scope, &written)
}

/// Whether the type of an annotation is there.
pub fn annotation_is_there(
    alloc: Global,
    scope: Scope<'_>,
    annotation: &TypeAnnotation,
) -> Result<bool, AllocError>
    ensures { IfOk result (λ b. b ≡ spec.type_is_there (scope_of scope.entry) (annotation_of annotation.now).written) }
{
    type_is_there(alloc, scope, &annotation.written)
}

/// Whether the type of an annotation is there, if there is one.
pub(crate) fn annotated_is_there(
    alloc: Global,
    scope: Scope<'_>,
    annotation: Option<&TypeAnnotation>,
) -> Result<bool, AllocError>
    ensures { IfOk result (λ b. b ≡ spec.types_are_there (scope_of scope.entry) (written_types.annotated (option_map annotation_of (option_copied annotation.entry)))) }
{
    match annotation {
        Some(annotation) => annotation_is_there(alloc, scope, annotation),
        None => Ok(true),
    }
}

/// Whether what a written access names is there.
pub fn access_is_there(alloc: Global, scope: Scope<'_>, access: &Access) -> Result<bool, AllocError>
    ensures { IfOk result (λ b. b ≡ spec.access_is_there (scope_of scope.entry) access.now) }
{
    match resolved_access(alloc, scope, access)? {
        Some(_) => Ok(true),
        None => Ok(false),
    }
}

fn option_access_is_there(
    alloc: Global,
    scope: Scope<'_>,
    access: Option<&Access>,
) -> Result<bool, AllocError>
    ensures { IfOk result (λ b. b ≡ spec.option_access_is_there (scope_of scope.entry) (option_copied access.entry)) }
{
    match access {
        Some(access) => access_is_there(alloc, scope, access),
        None => Ok(true),
    }
}

/// Whether a written entitlement is there.
pub fn entitlement_is_there(
    alloc: Global,
    scope: Scope<'_>,
    names: &[Name],
) -> Result<bool, AllocError>
    ensures { IfOk result (λ b. b ≡ spec.entitlement_is_there (scope_of scope.entry) names.now) }
{
    match resolved_entitlement(alloc, scope, names)? {
        Some(_) => Ok(true),
        None => Ok(false),
    }
}

/// Whether a type is an interface of structs for a struct, and of resources for a resource.
fn is_interface_of(kind: CompositeKind, sort: Sort) -> bool
    ensures { result ≡ spec.same_sort (own.interface_sort kind) sort }
{
    match kind {
        CompositeKind::Struct => matches!(sort, Sort::StructInterface),
        CompositeKind::Resource => matches!(sort, Sort::ResourceInterface),
    }
}

/// Whether what a name stands for is such an interface.
fn means_interface_of(kind: CompositeKind, found: Option<Meaning>) -> bool
    ensures { result ≡ spec.is_interface (own.interface_sort kind) (option_map meaning_view found) }
{
    match found {
        Some(Meaning::Type(_, sort)) => is_interface_of(kind, sort),
        _ => false,
    }
}

/// Whether a written name is such an interface.
fn interface_is_there(
    alloc: Global,
    scope: Scope<'_>,
    kind: CompositeKind,
    names: &[Name],
) -> Result<bool, AllocError>
    ensures { IfOk result (λ b. b ≡ spec.is_interface (own.interface_sort kind) (scopes.meaning (scope_of scope.entry) names.now)) }
{
    let found = meaning(alloc, scope, names)?;
    Ok(means_interface_of(kind, found))
}

/// Whether all of these are interfaces, of structs for a struct and of resources for a resource.
pub(crate) fn interfaces_are_there(
    alloc: Global,
    scope: Scope<'_>,
    kind: CompositeKind,
    all: &[Dotted],
) -> Result<bool, AllocError>
    ensures { IfOk result (λ b. b ≡ spec.interfaces_are_there (scope_of scope.entry) kind all.now) }
{
    for names in all {
        if !interface_is_there(alloc, scope, kind, names.as_slice())? {
            return Ok(false);
        }
    }
    Ok(true)
}

/// Whether a field has a new name, and all that it names is there.
pub fn field_is_right(
    alloc: Global,
    scope: Scope<'_>,
    before: &NamesBefore,
    x: &Field,
) -> Result<bool, AllocError>
    ensures { IfOk result (λ b. b ≡ spec.field_is_right (scope_of scope.entry) (reverse before.now) (field_of x.now)) }
{
    let access = access_is_there(alloc, scope, &x.access)?;
    let declared = annotation_is_there(alloc, scope, &x.annotation)?;
    Ok(is_new(before, &x.name) && access && declared)
}

/// Whether the types of parameters are there.
pub fn parameters_are_there(
    alloc: Global,
    scope: Scope<'_>,
    parameters: &[Parameter],
) -> Result<bool, AllocError>
    ensures { IfOk result (λ b. b ≡ spec.types_are_there (scope_of scope.entry) (written_types.types_of_parameters (map parameter_of parameters.now))) }
{
    for parameter in parameters {
        if !annotation_is_there(alloc, scope, &parameter.annotation)? {
            return Ok(false);
        }
    }
    Ok(true)
}

/// Whether the types of a function's head are there.
#[tactic(auto, using(crate::proofs::Lists::all_append))]
fn head_types_are_there(alloc: Global, scope: Scope<'_>, x: &Function) -> Result<bool, AllocError>
    ensures { IfOk result (λ b. b ≡ spec.types_are_there (scope_of scope.entry) (written_types.types_of_head (function_of x.now))) }
{
    let parameters = parameters_are_there(alloc, scope, x.parameters.as_slice())?;
    let result = annotated_is_there(alloc, scope, x.result.as_ref())?;
    Ok(parameters && result)
}

/// Whether what a function's head names is there.
pub(crate) fn head_is_there(
    alloc: Global,
    scope: Scope<'_>,
    x: &Function,
) -> Result<bool, AllocError>
    ensures { IfOk result (λ b. b ≡ (spec.access_is_there (scope_of scope.entry) (function_of x.now).access && spec.types_are_there (scope_of scope.entry) (written_types.types_of_head (function_of x.now)))) }
{
    let access = access_is_there(alloc, scope, &x.access)?;
    let types = head_types_are_there(alloc, scope, x)?;
    Ok(access && types)
}

/// Whether what a parameter of an event names is there.
fn event_parameter_is_right(
    alloc: Global,
    scope: Scope<'_>,
    x: &EventParameter,
) -> Result<bool, AllocError>
    ensures { IfOk result (λ b. b ≡ spec.event_parameter_is_right (scope_of scope.entry) (event_parameter_of x.now)) }
{
    let declared = annotation_is_there(alloc, scope, &x.parameter.annotation)?;
    let default = types_in_option(alloc, scope, x.default.as_ref())?;
    Ok(declared && default)
}

fn event_parameters_are_right(
    alloc: Global,
    scope: Scope<'_>,
    parameters: &[EventParameter],
) -> Result<bool, AllocError>
    ensures { IfOk result (λ b. b ≡ list_all (spec.event_parameter_is_right (scope_of scope.entry)) (map event_parameter_of parameters.now)) }
{
    for parameter in parameters {
        if !event_parameter_is_right(alloc, scope, parameter)? {
            return Ok(false);
        }
    }
    Ok(true)
}

/// Whether all that an event names is there.
pub(crate) fn event_is_right(alloc: Global, scope: Scope<'_>, x: &Event) -> Result<bool, AllocError>
    ensures { IfOk result (λ b. b ≡ (spec.option_access_is_there (scope_of scope.entry) (event_of x.now).access && list_all (spec.event_parameter_is_right (scope_of scope.entry)) (event_of x.now).parameters)) }
{
    let access = option_access_is_there(alloc, scope, x.access.as_ref())?;
    let parameters = event_parameters_are_right(alloc, scope, x.parameters.as_slice())?;
    Ok(access && parameters)
}
