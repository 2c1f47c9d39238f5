// Written types, accesses and signatures as tables have them.
ghost use Rattle.std.specs.Prelude.{◌≡◌, map, option_copied, option_map, IfOk};
ghost use Rattle.cad_syntax.specs.Types.{pure_type};
ghost use Rattle.cad_grammar.specs.Views as tree;
ghost use Rattle.cad_declarations.specs.Entries as spec;
ghost use Rattle.cad_declarations.specs.Views.{parameter_of, signature_of};
ghost use Rattle.cad_scopes.specs.Views.{scope_of};

use cad_declarations::{MemberAccess, Parameter, Signature};
use cad_grammar::{
    Access, Event, EventParameter, Function, Init, Parameter as WrittenParameter, TypeAnnotation,
    TypeExpr,
};
use cad_scopes::{Scope, is_spelled, resolved_access, resolved_type};
use cad_syntax::{Basic, CadType, Name};
use std::alloc::{AllocError, Global};

/// A written type; of a name that isn't there nothing is asked.
pub(crate) fn type_entry(
    alloc: Global,
    scope: Scope<'_>,
    written: &TypeExpr,
) -> Result<CadType, AllocError>
    ensures { IfOk result (λ t. pure_type t ≡ spec.type_entry (scope_of scope.entry) (tree.type_of written.now)) }
{
    match resolved_type(alloc, scope, written)? {
        Some(found) => Ok(found),
        None => Ok(CadType::Basic(Basic::Never)),
    }
}

/// The type of an annotation.
pub(crate) fn annotation_entry(
    alloc: Global,
    scope: Scope<'_>,
    annotation: &TypeAnnotation,
) -> Result<CadType, AllocError>
    ensures { IfOk result (λ t. pure_type t ≡ spec.type_entry (scope_of scope.entry) (tree.annotation_of annotation.now).written) }
{
    type_entry(alloc, scope, &annotation.written)
}

/// A written access.
pub(crate) fn access_entry(
    alloc: Global,
    scope: Scope<'_>,
    access: &Access,
) -> Result<MemberAccess, AllocError>
    ensures { IfOk result (λ a. a ≡ spec.access_entry (scope_of scope.entry) access.now) }
{
    match resolved_access(alloc, scope, access)? {
        Some(found) => Ok(found),
        None => Ok(MemberAccess::Own),
    }
}

/// A written result, or Void.
fn result_entry(
    alloc: Global,
    scope: Scope<'_>,
    annotation: Option<&TypeAnnotation>,
) -> Result<CadType, AllocError>
    ensures { IfOk result (λ t. pure_type t ≡ spec.result_entry (scope_of scope.entry) (option_map tree.annotation_of (option_copied annotation.entry))) }
{
    match annotation {
        Some(annotation) => annotation_entry(alloc, scope, annotation),
        None => Ok(CadType::Basic(Basic::Void)),
    }
}

/// A label, or none for `_`.
fn unless_blank(name: &Name) -> Result<Option<Name>, AllocError>
    ensures { IfOk result (λ label. label ≡ spec.unless_blank name.now) }
{
    if is_spelled(name, "_") {
        Ok(None)
    } else {
        Ok(Some(name.clone()?))
    }
}

/// The label of an argument: the parameter's own, else its name.
fn argument_label(label: &Option<Name>, name: &Name) -> Result<Option<Name>, AllocError>
    ensures { IfOk result (λ found. found ≡ spec.argument_label label.now name.now) }
{
    match label {
        Some(label) => unless_blank(label),
        None => unless_blank(name),
    }
}

/// A written parameter.
fn parameter_entry(
    alloc: Global,
    scope: Scope<'_>,
    p: &WrittenParameter,
) -> Result<Parameter, AllocError>
    ensures { IfOk result (λ made. parameter_of made ≡ spec.parameter_entry (scope_of scope.entry) (tree.parameter_of p.now)) }
{
    Ok(Parameter {
        label: argument_label(&p.label, &p.name)?,
        name: p.name.clone()?,
        declared: annotation_entry(alloc, scope, &p.annotation)?,
    })
}

/// Written parameters.
fn parameter_entries(
    alloc: Global,
    scope: Scope<'_>,
    all: &[WrittenParameter],
) -> Result<Vec<Parameter>, AllocError>
    ensures { IfOk result (λ made. map parameter_of made.items ≡ map (spec.parameter_entry (scope_of scope.entry)) (map tree.parameter_of all.now)) }
{
    let mut made = Vec::new(alloc);
    for p in all {
        made.push(parameter_entry(alloc, scope, p)?)?;
    }
    Ok(made)
}

/// What a function takes and gives.
pub(crate) fn function_signature(
    alloc: Global,
    scope: Scope<'_>,
    f: &Function,
) -> Result<Signature, AllocError>
    ensures { IfOk result (λ s. signature_of s ≡ spec.function_signature (scope_of scope.entry) (tree.function_of f.now)) }
{
    Ok(Signature {
        is_view: f.is_view,
        parameters: parameter_entries(alloc, scope, f.parameters.as_slice())?,
        result: result_entry(alloc, scope, f.result.as_ref())?,
    })
}

/// What an initializer takes.
pub(crate) fn init_signature(
    alloc: Global,
    scope: Scope<'_>,
    x: &Init,
) -> Result<Signature, AllocError>
    ensures { IfOk result (λ s. signature_of s ≡ spec.init_signature (scope_of scope.entry) (tree.init_of x.now)) }
{
    Ok(Signature {
        is_view: x.is_view,
        parameters: parameter_entries(alloc, scope, x.parameters.as_slice())?,
        result: CadType::Basic(Basic::Void),
    })
}

/// The parameters of an event.
fn event_parameters(
    alloc: Global,
    scope: Scope<'_>,
    all: &[EventParameter],
) -> Result<Vec<Parameter>, AllocError>
    ensures { IfOk result (λ made. map parameter_of made.items ≡ map (λ p. spec.parameter_entry (scope_of scope.entry) p.parameter) (map tree.event_parameter_of all.now)) }
{
    let mut made = Vec::new(alloc);
    for p in all {
        made.push(parameter_entry(alloc, scope, &p.parameter)?)?;
    }
    Ok(made)
}

/// What an event takes.
pub(crate) fn event_signature(
    alloc: Global,
    scope: Scope<'_>,
    x: &Event,
) -> Result<Signature, AllocError>
    ensures { IfOk result (λ s. signature_of s ≡ spec.event_signature (scope_of scope.entry) (tree.event_of x.now)) }
{
    Ok(Signature {
        is_view: false,
        parameters: event_parameters(alloc, scope, x.parameters.as_slice())?,
        result: CadType::Basic(Basic::Void),
    })
}
