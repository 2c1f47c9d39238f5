// Which types are well formed.
ghost use Rattle.std.specs.Prelude.{◌≡◌, ◌&&◌};
ghost use Rattle.std.specs.List.{list_all};
ghost use Rattle.cad_syntax.specs.TypeIds.{has};
ghost use Rattle.cad_syntax.specs.Types.{pure_type};
ghost use Rattle.cad_values.specs.Shapes as spec;
ghost use Rattle.cad_shapes.specs.Held.{shapes_of};
ghost use Rattle.cad_shapes.specs.Views.{named_by};

use crate::shapes::DeclaredShapes;
use cad_syntax::{Authorization, Basic, CadType, Name, TypeId, contains};
use cad_types::Sort;

/// Whether a declared type is an interface of structs.
fn is_struct_interface(shapes: &DeclaredShapes, id: &TypeId) -> bool
    ensures { result ≡ spec.has_sort spec.is_struct_interface (spec.shape_of (shapes_of shapes.now) id.now) }
{
    match shapes.find(id) {
        Some(shape) => matches!(shape.sort, Sort::StructInterface),
        None => false,
    }
}

/// Whether a declared type is an interface of resources.
fn is_resource_interface(shapes: &DeclaredShapes, id: &TypeId) -> bool
    ensures { result ≡ spec.has_sort spec.is_resource_interface (spec.shape_of (shapes_of shapes.now) id.now) }
{
    match shapes.find(id) {
        Some(shape) => matches!(shape.sort, Sort::ResourceInterface),
        None => false,
    }
}

/// Whether a declared type is an enum.
pub(crate) fn is_enum(shapes: &DeclaredShapes, id: &TypeId) -> bool
    ensures { result ≡ spec.has_sort spec.is_enum (spec.shape_of (shapes_of shapes.now) id.now) }
{
    match shapes.find(id) {
        Some(shape) => matches!(shape.sort, Sort::Enum),
        None => false,
    }
}

/// Whether the last name of an identifier is this word.
fn is_last(word: &str, names: &[Name]) -> bool
    ensures { result ≡ spec.is_last word.now names.now }
{
    match names {
        [] => false,
        [name] => name.0.as_str() == word,
        [_, rest @ ..] => is_last(word, rest),
    }
}

/// Whether types of a sort have names that programs write, with these last names.
fn is_named_sort(sort: Sort, names: &[Name]) -> bool
    ensures { result ≡ named_by sort names.now }
{
    match sort {
        Sort::StructInterface | Sort::ResourceInterface => false,
        Sort::Event => !is_last("ResourceDestroyed", names),
        _ => true,
    }
}

/// Whether a declared type is one that programs name.
fn is_named(shapes: &DeclaredShapes, id: &TypeId) -> bool
    ensures { result ≡ spec.is_named (shapes_of shapes.now) id.now }
{
    match shapes.find(id) {
        Some(shape) => is_named_sort(shape.sort, id.names.as_slice()),
        None => false,
    }
}

fn are_struct_interfaces(shapes: &DeclaredShapes, ids: &[TypeId]) -> bool
    ensures { result ≡ list_all (λ id. spec.has_sort spec.is_struct_interface (spec.shape_of (shapes_of shapes.now) id)) ids.now }
{
    ids.iter().all(|id| is_struct_interface(shapes, id))
}

fn are_resource_interfaces(shapes: &DeclaredShapes, ids: &[TypeId]) -> bool
    ensures { result ≡ list_all (λ id. spec.has_sort spec.is_resource_interface (spec.shape_of (shapes_of shapes.now) id)) ids.now }
{
    ids.iter().all(|id| is_resource_interface(shapes, id))
}

/// Whether these are interfaces of one sort, one at least.
fn are_interfaces(shapes: &DeclaredShapes, ids: &[TypeId]) -> bool
    ensures { result ≡ spec.are_interfaces (shapes_of shapes.now) ids.now }
{
    match ids {
        [] => false,
        _ => are_struct_interfaces(shapes, ids) || are_resource_interfaces(shapes, ids),
    }
}

fn all_declared_entitlements(shapes: &DeclaredShapes, ids: &[TypeId]) -> bool
    ensures { result ≡ list_all (has (shapes_of shapes.now).entitlements) ids.now }
{
    let known = shapes.entitlements();
    ids.iter().all(|id| contains(known, id))
}

/// Whether an authorization names entitlements.
fn are_entitlements(shapes: &DeclaredShapes, authorization: &Authorization) -> bool
    ensures { result ≡ spec.are_entitlements (shapes_of shapes.now) authorization.now }
{
    match authorization {
        Authorization::Unauthorized => true,
        Authorization::All(ids) => all_declared_entitlements(shapes, ids.as_slice()),
        Authorization::Any(ids) => all_declared_entitlements(shapes, ids.as_slice()),
    }
}

fn is_key_basic(basic: Basic) -> bool
    ensures { result ≡ spec.is_key_basic basic }
{
    matches!(
        basic,
        Basic::Number(_)
            | Basic::Bool
            | Basic::Character
            | Basic::String
            | Basic::Path
            | Basic::StoragePath
            | Basic::PublicPath
            | Basic::Meta
    )
}

/// Whether keys of dictionaries can be of a type.
pub fn is_key_type(shapes: &DeclaredShapes, t: &CadType) -> bool
    ensures { result ≡ spec.is_key_type (shapes_of shapes.now) (pure_type t.now) }
{
    match t {
        CadType::Basic(basic) => is_key_basic(*basic),
        CadType::Declared(id) => is_enum(shapes, id),
        _ => false,
    }
}

/// Whether a type is one of references.
pub fn is_reference_type(t: &CadType) -> bool
    ensures { result ≡ spec.is_reference_type (pure_type t.now) }
{
    matches!(t, CadType::Reference(_, _))
}

/// Whether a program can write the type of references that may do this and lead to a target of this type.
pub fn is_lent_type(
    shapes: &DeclaredShapes,
    authorization: &Authorization,
    target: &CadType,
) -> bool
    ensures { result ≡ (spec.are_entitlements (shapes_of shapes.now) authorization.now && spec.is_type (shapes_of shapes.now) (pure_type target.now)) }
{
    are_entitlements(shapes, authorization) && is_type(shapes, target)
}

/// Whether a program can write a type: what it names is declared, keys are of types of keys, and what is lent is a
/// reference.
pub fn is_type(shapes: &DeclaredShapes, t: &CadType) -> bool
    ensures { result ≡ spec.is_type (shapes_of shapes.now) (pure_type t.now) }
{
    match t {
        CadType::Basic(_) => true,
        CadType::Optional(part) | CadType::Array(part) => is_type(shapes, part),
        CadType::Dictionary(key, value) => is_key_type(shapes, key) && is_type(shapes, value),
        CadType::Intersection(ids) => are_interfaces(shapes, ids.as_slice()),
        CadType::Declared(id) => is_named(shapes, id),
        CadType::Reference(authorization, target) => {
            are_entitlements(shapes, authorization) && is_type(shapes, target)
        }
        CadType::Capability => true,
        CadType::CapabilityOf(lent) => is_reference_type(lent) && is_type(shapes, lent),
    }
}
