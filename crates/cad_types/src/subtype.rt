// The order of types.
ghost use Rattle.std.specs.Prelude.{◌≡◌, ◌↔◌, IsTrue};
ghost use Rattle.std.specs.List.{list_any, list_all};
ghost use Rattle.cad_syntax.specs.TypeIds.{has};
ghost use Rattle.cad_syntax.specs.Types.{pure_type, basic};
ghost use Rattle.cad_types.specs.Declarations.{resource, is_resource_id, is_any_resource, interfaces_of};
ghost use Rattle.cad_auth.specs.Tests as tests;
ghost use Rattle.cad_types.specs.Basics as basics;
ghost use Rattle.cad_types.specs.Below as spec;
ghost use Rattle.cad_types.specs.Sub.{Sub};
ghost use Rattle.cad_types.specs.Views.{declarations};

use crate::declared::includes;
use crate::declared_types::DeclaredTypes;
use cad_auth::grants;
use cad_syntax::{Authorization, Basic, CadType, TypeId, contains};

/// Whether one type is below another.
pub fn is_subtype(declared_types: &DeclaredTypes, a: &CadType, b: &CadType) -> bool
    ensures { IsTrue result ↔ Sub (declarations declared_types.now) (pure_type a.now) (pure_type b.now) }
{
    is_below(declared_types, a, b)
}

/// Whether a type is a resource type.
pub fn is_resource(declared_types: &DeclaredTypes, t: &CadType) -> bool
    ensures { result ≡ resource (declarations declared_types.now) (pure_type t.now) }
{
    match t {
        CadType::Basic(basic) => is_any_resource(*basic),
        CadType::Optional(part) | CadType::Array(part) | CadType::Dictionary(_, part) => {
            is_resource(declared_types, part)
        }
        CadType::Intersection(ids) => some_is_resource(declared_types, ids.as_slice()),
        CadType::Declared(id) => declared_types.is_resource(id),
        CadType::Reference(_, _) | CadType::Capability | CadType::CapabilityOf(_) => false,
    }
}

/// Whether some resource type is above a type.
fn reaches_resource(declared_types: &DeclaredTypes, t: &CadType) -> bool
    ensures { result ≡ spec.reaches_resource (declarations declared_types.now) (pure_type t.now) }
{
    match t {
        CadType::Basic(basic) => is_never(*basic) || is_any_resource(*basic),
        CadType::Optional(part) | CadType::Array(part) | CadType::Dictionary(_, part) => {
            reaches_resource(declared_types, part)
        }
        CadType::Intersection(ids) => some_is_resource(declared_types, ids.as_slice()),
        CadType::Declared(id) => declared_types.is_resource(id),
        CadType::Reference(_, _) | CadType::Capability | CadType::CapabilityOf(_) => false,
    }
}

fn some_is_resource(declared_types: &DeclaredTypes, ids: &[TypeId]) -> bool
    ensures { result ≡ list_any (is_resource_id (declarations declared_types.now)) ids.now }
{
    ids.iter().any(|id| declared_types.is_resource(id))
}

fn is_any_resource(basic: Basic) -> bool
    ensures { result ≡ is_any_resource basic }
{
    matches!(basic, Basic::AnyResource)
}

fn is_never(basic: Basic) -> bool
    ensures { result ≡ spec.is_never basic }
{
    matches!(basic, Basic::Never)
}

fn is_below(declared_types: &DeclaredTypes, a: &CadType, b: &CadType) -> bool
    ensures { result ≡ spec.below (declarations declared_types.now) (pure_type a.now) (pure_type b.now) }
{
    if let CadType::Basic(u) = b {
        return is_below_basic(declared_types, a, *u);
    }
    match a {
        CadType::Basic(t) => is_never(*t),
        CadType::Optional(t) => match b {
            CadType::Optional(u) => is_below(declared_types, t, u),
            _ => false,
        },
        CadType::Array(t) => match b {
            CadType::Array(u) => is_below(declared_types, t, u),
            _ => false,
        },
        CadType::Dictionary(key, t) => match b {
            CadType::Dictionary(other_key, u) => is_below(declared_types, key, other_key)
                && is_below(declared_types, t, u),
            _ => false,
        },
        CadType::Intersection(ids) => match b {
            CadType::Intersection(others) => is_narrower(
                declared_types,
                ids.as_slice(),
                others.as_slice(),
            ),
            _ => false,
        },
        CadType::Declared(id) => match b {
            CadType::Declared(other) => id.same(other),
            CadType::Intersection(ids) => conforms(declared_types, id, ids.as_slice()),
            _ => false,
        },
        CadType::Reference(x, t) => match b {
            CadType::Reference(y, u) => is_granted(x, y) && is_below(declared_types, t, u),
            _ => false,
        },
        CadType::Capability => matches!(b, CadType::Capability),
        CadType::CapabilityOf(t) => match b {
            CadType::CapabilityOf(u) => is_below(declared_types, t, u),
            CadType::Capability => true,
            _ => false,
        },
    }
}

/// Whether a type is below a basic one.
fn is_below_basic(declared_types: &DeclaredTypes, a: &CadType, u: Basic) -> bool
    ensures { result ≡ spec.below (declarations declared_types.now) (pure_type a.now) (basic u) }
{
    match a {
        CadType::Basic(t) => basic_is_below(*t, u),
        CadType::Optional(t) => is_below_by_class(is_resource(declared_types, t), false, u),
        CadType::Array(t) | CadType::Dictionary(_, t) => container_is_below(declared_types, t, u),
        CadType::Intersection(ids) => {
            let is_resource = some_is_resource(declared_types, ids.as_slice());
            is_below_by_class(is_resource, is_resource, u)
        }
        CadType::Declared(id) => {
            let is_resource = declared_types.is_resource(id);
            is_below_by_class(is_resource, is_resource, u)
        }
        CadType::Reference(_, _) | CadType::Capability | CadType::CapabilityOf(_) => {
            is_below_by_class(false, false, u)
        }
    }
}

/// Whether what a holder has serves where `need` is asked for.
fn is_granted(holder: &Authorization, need: &Authorization) -> bool
    ensures { result ≡ tests.grants holder.now need.now }
{
    grants(holder, need)
}

fn same_basic(t: Basic, u: Basic) -> bool
    ensures { result ≡ basics.same_basic t u }
{
    t == u
}

fn basic_is_below(t: Basic, u: Basic) -> bool
    ensures { result ≡ spec.below_basic t u }
{
    let is_resource = is_any_resource(t);
    same_basic(t, u)
        || is_never(t)
        || is_below_by_class(is_resource, is_resource, u)
        || is_path_into(t, u)
}

/// Whether a container of a type is below a basic type.
fn container_is_below(declared_types: &DeclaredTypes, t: &CadType, u: Basic) -> bool
    ensures { result ≡ spec.by_class (resource (declarations declared_types.now) (pure_type t.now)) (spec.reaches_resource (declarations declared_types.now) (pure_type t.now)) u }
{
    is_below_by_class(
        is_resource(declared_types, t),
        reaches_resource(declared_types, t),
        u,
    )
}

/// Whether a type is below a basic one by its class: AnyStruct where it is no resource type, AnyResource where one is above
/// it.
fn is_below_by_class(is_resource: bool, reaches: bool, u: Basic) -> bool
    ensures { result ≡ spec.by_class is_resource reaches u }
{
    match u {
        Basic::AnyStruct => !is_resource,
        Basic::AnyResource => reaches,
        _ => false,
    }
}

fn is_path_into(t: Basic, u: Basic) -> bool
    ensures { result ≡ spec.is_path_into t u }
{
    match t {
        Basic::StoragePath | Basic::PublicPath => matches!(u, Basic::Path),
        _ => false,
    }
}

/// Whether these interfaces, or those that they have, are all of those, and both are of resources or neither is.
fn is_narrower(declared_types: &DeclaredTypes, these: &[TypeId], those: &[TypeId]) -> bool
    ensures { result ≡ spec.narrower (declarations declared_types.now) these.now those.now }
{
    some_is_resource(declared_types, these) == some_is_resource(declared_types, those)
        && has_interfaces(declared_types, these, those)
}

fn has_interfaces(declared_types: &DeclaredTypes, these: &[TypeId], those: &[TypeId]) -> bool
    ensures { result ≡ list_all (spec.has_interface (declarations declared_types.now) these.now) those.now }
{
    those
        .iter()
        .all(|id| has_interface(declared_types, these, id))
}

/// Whether one of these interfaces is that interface, or has it.
fn has_interface(declared_types: &DeclaredTypes, ids: &[TypeId], id: &TypeId) -> bool
    ensures { result ≡ spec.has_interface (declarations declared_types.now) ids.now id.now }
{
    contains(ids, id) || some_has_interface(declared_types, ids, id)
}

fn some_has_interface(declared_types: &DeclaredTypes, ids: &[TypeId], id: &TypeId) -> bool
    ensures { result ≡ list_any (λ i. has (interfaces_of (declarations declared_types.now) i) id.now) ids.now }
{
    ids.iter()
        .any(|i| contains(declared_types.interfaces(i), id))
}

/// Whether a declared type has all of these interfaces, and both are of resources or neither is.
fn conforms(declared_types: &DeclaredTypes, id: &TypeId, ids: &[TypeId]) -> bool
    ensures { result ≡ spec.conforms (declarations declared_types.now) id.now ids.now }
{
    declared_types.is_resource(id) == some_is_resource(declared_types, ids)
        && includes(declared_types.interfaces(id), ids)
}
