// What tables tell of declared types.
ghost use Rattle.std.specs.Prelude.{◌≡◌, option_map};
ghost use Rattle.std.specs.List.{list_any};
ghost use Rattle.cad_syntax.specs.Types.{pure_type};
ghost use Rattle.cad_types.specs.Declarations as types;
ghost use Rattle.cad_declarations.specs.Views.{signature_of, tables_of, type_entry_of};
ghost use Rattle.cad_paths.specs.Fields as spec;
ghost use Rattle.cad_paths.specs.Purity as purity;

use cad_declarations::{Signature, Tables, TypeDeclaration};
use cad_syntax::{Basic, CadType, TypeId};
use cad_types::Sort;

/// The first declaration of an identifier.
#[tactic(auto, using(crate::proofs::Lookups::entry_is))]
pub(crate) fn found_entry<'a>(tables: &'a Tables, id: &TypeId) -> Option<&'a TypeDeclaration>
    ensures { option_map (λ t. type_entry_of t.now) result ≡ spec.found_entry (tables_of tables.now).types id.now }
{
    tables.find(id)
}

/// What a declared type is.
pub(crate) fn sort_in(tables: &Tables, id: &TypeId) -> Option<Sort>
    ensures { result ≡ spec.sort_in (tables_of tables.now) id.now }
{
    match found_entry(tables, id) {
        None => None,
        Some(declared) => Some(declared.sort),
    }
}

/// Whether a declared type is a resource, or an interface of resources.
fn is_resource_sort(sort: Sort) -> bool
    ensures { result ≡ types.is_resource_sort sort }
{
    matches!(sort, Sort::Resource | Sort::ResourceInterface)
}

/// Whether an identifier is that of a resource, or of an interface of resources.
fn is_resource_id(tables: &Tables, id: &TypeId) -> bool
    ensures { result ≡ types.is_resource_id (spec.declarations_in (tables_of tables.now)) id.now }
{
    match sort_in(tables, id) {
        None => false,
        Some(sort) => is_resource_sort(sort),
    }
}

fn some_is_resource(tables: &Tables, ids: &[TypeId]) -> bool
    ensures { result ≡ list_any (types.is_resource_id (spec.declarations_in (tables_of tables.now))) ids.now }
{
    ids.iter().any(|id| is_resource_id(tables, id))
}

fn is_any_resource(basic: Basic) -> bool
    ensures { result ≡ types.is_any_resource basic }
{
    matches!(basic, Basic::AnyResource)
}

/// Whether a type is a resource type.
pub(crate) fn is_resource(tables: &Tables, t: &CadType) -> bool
    ensures { result ≡ types.resource (spec.declarations_in (tables_of tables.now)) (pure_type t.now) }
{
    match t {
        CadType::Basic(basic) => is_any_resource(*basic),
        CadType::Optional(part) | CadType::Array(part) | CadType::Dictionary(_, part) => {
            is_resource(tables, part)
        }
        CadType::Intersection(ids) => some_is_resource(tables, ids.as_slice()),
        CadType::Declared(id) => is_resource_id(tables, id),
        CadType::Reference(_, _) | CadType::Capability | CadType::CapabilityOf(_) => false,
    }
}

/// Whether an initializer is a view one; one that isn't written is.
fn is_view_initializer(initializer: &Option<Signature>) -> bool
    ensures { result ≡ purity.is_view_initializer (option_map signature_of initializer.now) }
{
    match initializer {
        None => true,
        Some(signature) => signature.is_view,
    }
}

/// Whether what makes a value of a type is a view call.
pub(crate) fn makes_by_view(tables: &Tables, id: &TypeId) -> bool
    ensures { result ≡ purity.makes_by_view (tables_of tables.now) id.now }
{
    match found_entry(tables, id) {
        None => true,
        Some(declared) => is_view_initializer(&declared.initializer),
    }
}
