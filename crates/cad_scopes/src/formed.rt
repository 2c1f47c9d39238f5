// Which types are rightly formed, and the type of an annotation.
ghost use Rattle.std.specs.Prelude.{◌≡◌, IfOk, option_map, map};
ghost use Rattle.std.specs.List.{list_all, list_any};
ghost use Rattle.cad_syntax.specs.Types.{pure_type};
ghost use Rattle.cad_grammar.specs.Views.{type_of, annotation_of};
ghost use Rattle.cad_grammar.specs.Trees.{annotations_of};
ghost use Rattle.cad_types.specs.Classes.{has_sort};
ghost use Rattle.cad_types.specs.Declarations.{found, is_resource_id};
ghost use Rattle.cad_types.specs.Views.{declarations};
ghost use Rattle.cad_declarations.specs.Formed as spec;
ghost use Rattle.cad_scopes.specs.Views.{scope_of, meaning_view};

use crate::names::Meaning;
use crate::scope::{Scope, meaning};
use crate::written::resolved_type;
use cad_grammar::{TypeAnnotation, TypeExpr};
use cad_syntax::{Basic, CadType, TypeId};
use cad_types::{DeclaredTypes, Sort, is_resource};
use std::alloc::{AllocError, Global};

/// Whether keys of a dictionary may be of a type.
pub fn is_key_type(types: &DeclaredTypes, t: &CadType) -> bool
    ensures { result ≡ spec.is_key_type (declarations types.now) (pure_type t.now) }
{
    match t {
        CadType::Basic(basic) => is_key_basic(*basic),
        CadType::Declared(id) => is_enum(types, id),
        _ => false,
    }
}

fn is_key_basic(basic: Basic) -> bool
    ensures { result ≡ spec.is_key_basic basic }
{
    matches!(
        basic,
        Basic::Number(_)
            | Basic::Bool
            | Basic::Character
            | Basic::String
            | Basic::Path
            | Basic::StoragePath
            | Basic::PublicPath
            | Basic::Meta
    )
}

fn is_enum(types: &DeclaredTypes, id: &TypeId) -> bool
    ensures { result ≡ has_sort spec.is_enum_sort (found (declarations types.now) id.now) }
{
    match types.find(id) {
        Some(declared) => is_enum_sort(declared.sort),
        None => false,
    }
}

fn is_enum_sort(sort: Sort) -> bool
    ensures { result ≡ spec.is_enum_sort sort }
{
    matches!(sort, Sort::Enum)
}

/// Whether a type is rightly formed: each dictionary has a type of keys, a capability lends a reference, and an intersection
/// is of structs or of resources.
pub fn is_formed(types: &DeclaredTypes, t: &CadType) -> bool
    ensures { result ≡ spec.is_formed (declarations types.now) (pure_type t.now) }
{
    match t {
        CadType::Optional(part) | CadType::Array(part) | CadType::Reference(_, part) => {
            is_formed(types, part)
        }
        CadType::Dictionary(key, value) => {
            is_key_type(types, key) && is_formed(types, key) && is_formed(types, value)
        }
        CadType::Intersection(ids) => is_one_sort(types, ids.as_slice()),
        CadType::CapabilityOf(lent) => is_reference(lent) && is_formed(types, lent),
        CadType::Basic(_) | CadType::Declared(_) | CadType::Capability => true,
    }
}

fn is_reference(t: &CadType) -> bool
    ensures { result ≡ spec.is_reference (pure_type t.now) }
{
    matches!(t, CadType::Reference(_, _))
}

/// Whether all of these interfaces are of resources, or none is.
fn is_one_sort(types: &DeclaredTypes, ids: &[TypeId]) -> bool
    ensures { result ≡ spec.is_one_sort (declarations types.now) ids.now }
{
    let some = some_is_resource(types, ids);
    ids.iter()
        .all(|id| is_same_truth(some, types.is_resource(id)))
}

fn some_is_resource(types: &DeclaredTypes, ids: &[TypeId]) -> bool
    ensures { result ≡ list_any (is_resource_id (declarations types.now)) ids.now }
{
    ids.iter().any(|id| types.is_resource(id))
}

fn is_same_truth(a: bool, b: bool) -> bool
    ensures { result ≡ spec.same_truth a b }
{
    if a { b } else { !b }
}

/// Whether the type arguments of a written type are as many as its names take.
#[cycle(arguments)]
fn has_right_arguments(
    written: &TypeExpr,
    alloc: Global,
    scope: Scope<'_>,
) -> Result<bool, AllocError>
    ensures { IfOk result (λ b. b ≡ spec.has_right_arguments (scope_of scope.entry) (type_of written.now)) }
{
    match written {
        TypeExpr::Named { name, arguments } => {
            let right = have_right_arguments(arguments.as_slice(), alloc, scope)?;
            let found = meaning(alloc, scope, name.as_slice())?;
            Ok(may_have_arguments(&found, arguments.as_slice()) && right)
        }
        TypeExpr::Reference { target, .. } => has_right_arguments(target, alloc, scope),
        TypeExpr::Array(element) => has_right_arguments(element, alloc, scope),
        TypeExpr::Dictionary(key, value) => {
            if !has_right_arguments(key, alloc, scope)? {
                return Ok(false);
            }
            has_right_arguments(value, alloc, scope)
        }
        TypeExpr::Intersection(_) => Ok(true),
        TypeExpr::Optional(content) => has_right_arguments(content, alloc, scope),
    }
}

#[cycle(arguments)]
fn have_right_arguments(
    arguments: &[TypeAnnotation],
    alloc: Global,
    scope: Scope<'_>,
) -> Result<bool, AllocError>
    ensures { IfOk result (λ b. b ≡ spec.have_right_arguments (scope_of scope.entry) (annotations_of (map annotation_of arguments.now))) }
{
    for argument in arguments {
        if !has_right_arguments(&argument.written, alloc, scope)? {
            return Ok(false);
        }
    }
    Ok(true)
}

/// Whether a name that stands for this may have these type arguments.
fn may_have_arguments(found: &Option<Meaning>, arguments: &[TypeAnnotation]) -> bool
    ensures { result ≡ spec.may_have_arguments (option_map meaning_view found.now) (annotations_of (map annotation_of arguments.now)) }
{
    match found {
        Some(Meaning::Capability) => is_argument_of_capability(arguments),
        _ => has_no_annotations(arguments),
    }
}

fn is_argument_of_capability(arguments: &[TypeAnnotation]) -> bool
    ensures { result ≡ spec.is_argument_of_capability (annotations_of (map annotation_of arguments.now)) }
{
    let [argument, more @ ..] = arguments else {
        return true;
    };
    match more {
        [] => !argument.is_resource,
        [_second, _others @ ..] => false,
    }
}

fn has_no_annotations(arguments: &[TypeAnnotation]) -> bool
    ensures { result ≡ spec.has_no_annotations (annotations_of (map annotation_of arguments.now)) }
{
    match arguments {
        [] => true,
        [_first, _more @ ..] => false,
    }
}

/// The type that is written, if it is there and rightly formed.
pub fn formed_type(
    alloc: Global,
    scope: Scope<'_>,
    written: &TypeExpr,
) -> Result<Option<CadType>, AllocError>
    ensures { IfOk result (λ t. option_map pure_type t ≡ spec.formed_type (scope_of scope.entry) (type_of written.now)) }
{
    let Some(found) = resolved_type(alloc, scope, written)? else {
        return Ok(None);
    };
    match has_right_arguments(written, alloc, scope) {
        Ok(right) => {
            if right && is_formed(scope.types, &found) {
                Ok(Some(found))
            } else {
                drop(found);
                Ok(None)
            }
        }
        Err(error) => {
            drop(found);
            Err(error)
        }
    }
}

/// The type of an annotation: it is rightly formed, and `@` stands before resource types alone; else None.
pub fn resolved_annotation(
    alloc: Global,
    scope: Scope<'_>,
    annotation: &TypeAnnotation,
) -> Result<Option<CadType>, AllocError>
    ensures { IfOk result (λ t. option_map pure_type t ≡ spec.resolved_annotation (scope_of scope.entry) (annotation_of annotation.now)) }
{
    let Some(found) = formed_type(alloc, scope, &annotation.written)? else {
        return Ok(None);
    };
    if is_same_truth(annotation.is_resource, is_resource(scope.types, &found)) {
        Ok(Some(found))
    } else {
        drop(found);
        Ok(None)
    }
}
