// The classes of types: by turns, the declared types are found that aren't of a class because one of their fields isn't.
ghost use Rattle.std.specs.Prelude.{◌≡◌, ◌↔◌, IfOk, IsTrue, not, filter, [], map};
ghost use Rattle.std.specs.List.{list_all};
ghost use Rattle.cad_syntax.specs.TypeIds.{has};
ghost use Rattle.cad_syntax.specs.Types.{pure_type};
ghost use Rattle.cad_types.specs.Classes as class;
ghost use Rattle.cad_types.specs.Declarations.{declaration_of, found};
ghost use Rattle.cad_types.specs.Views.{declarations};
ghost use Rattle.cad_typing.specs.Types as spec;
ghost use Rattle.cad_type_classes.specs.Classes as code;

use cad_syntax::{Basic, CadType, TypeId, TypeIds, contains, same_ids};
use cad_types::{Declared, DeclaredTypes, Sort};
use std::alloc::{AllocError, Global};

/// A class of types. That of exportable types is told with the declared types that aren't importable.
#[derive(Clone, Copy)]
enum Class<'a> {
    Storable,
    Importable,
    Exportable(&'a [TypeId]),
}

/// Whether values of a type can be stored. It fails where memory runs out alone.
pub fn is_storable(alloc: Global, types: &DeclaredTypes, t: &CadType) -> Result<bool, AllocError>
    ensures { IfOk result (λ b. b ≡ spec.is_storable (declarations types.now) (pure_type t.now)) }
{
    if has_no_declared_part(t) {
        return Ok(is_storable_but(&[], t));
    }
    let ids = failing(alloc, types, Class::Storable)?;
    Ok(is_storable_but(ids.as_slice(), t))
}

/// Whether an argument can have a type. It fails where memory runs out alone.
pub fn is_importable(alloc: Global, types: &DeclaredTypes, t: &CadType) -> Result<bool, AllocError>
    ensures { IfOk result (λ b. b ≡ spec.is_importable (declarations types.now) (pure_type t.now)) }
{
    if has_no_declared_part(t) {
        return Ok(is_importable_but(types, &[], t));
    }
    let ids = failing(alloc, types, Class::Importable)?;
    Ok(is_importable_but(types, ids.as_slice(), t))
}

/// Whether values of a type can be handed out. It fails where memory runs out alone.
pub fn is_exportable(alloc: Global, types: &DeclaredTypes, t: &CadType) -> Result<bool, AllocError>
    ensures { IfOk result (λ b. b ≡ spec.is_exportable (declarations types.now) (pure_type t.now)) }
{
    if has_no_declared_part(t) {
        return Ok(is_exportable_but(types, &[], &[], t));
    }
    let unimportable = failing(alloc, types, Class::Importable)?;
    let ids = failing(alloc, types, Class::Exportable(unimportable.as_slice()))?;
    Ok(is_exportable_but(types, unimportable.as_slice(), ids.as_slice(), t))
}

/// Whether a type is no declared one, and no part of it is that the classes look at. What stands behind a reference or a
/// capability is none of these parts.
fn has_no_declared_part(t: &CadType) -> bool
    ensures { result ≡ code.has_no_declared_part (pure_type t.now) }
{
    match t {
        CadType::Optional(part) | CadType::Array(part) => has_no_declared_part(part),
        CadType::Dictionary(key, value) => has_no_declared_part(key) && has_no_declared_part(value),
        CadType::Declared(_) => false,
        _ => true,
    }
}

/// The declared types that aren't of a class: those that a turn finds by those of the turn before, until it finds the same.
#[tactic(auto, using(crate::proofs::Turns::turns_stay))]
fn failing(alloc: Global, types: &DeclaredTypes, class: Class<'_>) -> Result<TypeIds, AllocError>
    ensures { IfOk result (λ ids. ids ≡ code.failing_class (declarations types.now) class.entry) }
{
    let declared = types.declared();
    let mut ids = TypeIds::new(alloc);
    for _turn in declared {
        let next = failing_beside(alloc, types, class, ids.as_slice())?;
        if same_ids(&next, &ids) {
            return Ok(ids);
        }
        ids = next;
    }
    Ok(ids)
}

/// One turn: the declared types that have a field outside of the class, where these declared types are.
fn failing_beside(
    alloc: Global,
    types: &DeclaredTypes,
    class: Class<'_>,
    ids: &[TypeId],
) -> Result<TypeIds, AllocError>
    ensures { IfOk result (λ next. next ≡ code.failing_beside (declarations types.now) class.entry ids.now) }
{
    let declared = types.declared();
    let mut next = TypeIds::new(alloc);
    for d in declared {
        if !has_fields(types, class, ids, d.fields.as_slice()) {
            next.push(d.id.clone()?)?;
        }
    }
    Ok(next)
}

/// Whether all of these types are of a class, where these declared types aren't.
fn has_fields(types: &DeclaredTypes, class: Class<'_>, ids: &[TypeId], fields: &[CadType]) -> bool
    ensures { result ≡ list_all (code.is_of (declarations types.now) class.entry ids.now) (map pure_type fields.now) }
{
    for t in fields {
        if !is_of(types, class, ids, t) {
            return false;
        }
    }
    true
}

/// Whether a type is of a class, where these declared types aren't.
fn is_of(types: &DeclaredTypes, class: Class<'_>, ids: &[TypeId], t: &CadType) -> bool
    ensures { result ≡ code.is_of (declarations types.now) class.entry ids.now (pure_type t.now) }
{
    match class {
        Class::Storable => is_storable_but(ids, t),
        Class::Importable => is_importable_but(types, ids, t),
        Class::Exportable(unimportable) => is_exportable_but(types, unimportable, ids, t),
    }
}

/// Whether a type is storable, where these declared types aren't.
fn is_storable_but(ids: &[TypeId], t: &CadType) -> bool
    ensures { result ≡ spec.is_storable_but ids.now (pure_type t.now) }
{
    match t {
        CadType::Basic(basic) => is_storable_basic(*basic),
        CadType::Optional(part) | CadType::Array(part) => is_storable_but(ids, part),
        CadType::Dictionary(key, value) => {
            is_storable_but(ids, key) && is_storable_but(ids, value)
        }
        CadType::Intersection(_) | CadType::Capability | CadType::CapabilityOf(_) => true,
        CadType::Declared(id) => !contains(ids, id),
        CadType::Reference(_, _) => false,
    }
}

fn is_storable_basic(basic: Basic) -> bool
    ensures { result ≡ class.is_storable_basic basic }
{
    !matches!(
        basic,
        Basic::Void
            | Basic::Account
            | Basic::AccountStorage
            | Basic::AccountContracts
            | Basic::AccountCapabilities
            | Basic::AccountStorageCapabilities
            | Basic::StorageCapabilityController
    )
}

/// Whether a type is importable, where these declared types aren't.
fn is_importable_but(types: &DeclaredTypes, ids: &[TypeId], t: &CadType) -> bool
    ensures { result ≡ spec.is_importable_but (declarations types.now) ids.now (pure_type t.now) }
{
    match t {
        CadType::Basic(basic) => is_importable_basic(*basic),
        CadType::Optional(part) | CadType::Array(part) => is_importable_but(types, ids, part),
        CadType::Dictionary(key, value) => {
            is_importable_but(types, ids, key) && is_importable_but(types, ids, value)
        }
        CadType::Declared(id) => is_data(types, id) && !contains(ids, id),
        _ => false,
    }
}

fn is_importable_basic(basic: Basic) -> bool
    ensures { result ≡ class.is_importable_basic basic }
{
    match basic {
        Basic::Number(_)
        | Basic::Bool
        | Basic::Character
        | Basic::String
        | Basic::Path
        | Basic::StoragePath
        | Basic::PublicPath
        | Basic::AnyStruct => true,
        _ => false,
    }
}

/// Whether a declared type is a struct or an enum.
fn is_data(types: &DeclaredTypes, id: &TypeId) -> bool
    ensures { result ≡ class.has_sort class.is_data_sort (found (declarations types.now) id.now) }
{
    match types.find(id) {
        Some(declared) => is_data_sort(declared.sort),
        None => false,
    }
}

fn is_data_sort(sort: Sort) -> bool
    ensures { result ≡ class.is_data_sort sort }
{
    matches!(sort, Sort::Struct | Sort::Enum)
}

/// Whether a type is exportable, where some declared types aren't importable and these resources and events aren't exportable.
fn is_exportable_but(
    types: &DeclaredTypes,
    unimportable: &[TypeId],
    ids: &[TypeId],
    t: &CadType,
) -> bool
    ensures { result ≡ code.is_exportable_beside (declarations types.now) unimportable.now ids.now (pure_type t.now) }
{
    is_importable_but(types, unimportable, t) || is_void(t) || is_carried_but(types, ids, t)
}

fn is_void(t: &CadType) -> bool
    ensures { result ≡ class.is_void (pure_type t.now) }
{
    match t {
        CadType::Basic(basic) => matches!(basic, Basic::Void),
        _ => false,
    }
}

/// Whether a type is a resource or an event, and none of these.
fn is_carried_but(types: &DeclaredTypes, ids: &[TypeId], t: &CadType) -> bool
    ensures { result ≡ spec.is_carried_but (declarations types.now) ids.now (pure_type t.now) }
{
    match t {
        CadType::Declared(id) => is_carried(types, id) && !contains(ids, id),
        _ => false,
    }
}

/// Whether a declared type is a resource or an event.
fn is_carried(types: &DeclaredTypes, id: &TypeId) -> bool
    ensures { result ≡ class.has_sort class.is_carried_sort (found (declarations types.now) id.now) }
{
    match types.find(id) {
        Some(declared) => is_carried_sort(declared.sort),
        None => false,
    }
}

fn is_carried_sort(sort: Sort) -> bool
    ensures { result ≡ class.is_carried_sort sort }
{
    matches!(sort, Sort::Resource | Sort::Event)
}
