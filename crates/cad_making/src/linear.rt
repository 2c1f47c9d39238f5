// Resource types where a program runs.
ghost use Rattle.std.specs.Prelude.{◌≡◌};
ghost use Rattle.std.specs.List.{list_any};
ghost use Rattle.cad_declarations.specs.Views.{type_entry_of};
ghost use Rattle.cad_syntax.specs.Types.{pure_type};
ghost use Rattle.cad_types.specs.Declarations as spec;
ghost use Rattle.cad_world.specs.Declared.{declarations};
ghost use Rattle.cad_access.specs.RunContracts.{run_of};

use cad_access::entry_of;
use cad_declarations::TypeDeclaration;
use cad_state::RunState;
use cad_syntax::{Basic, CadType, TypeId};
use cad_types::Sort;

/// Whether a declared type is a resource, or an interface of resources.
fn is_resource_sort(entry: &TypeDeclaration) -> bool
    ensures { result ≡ spec.is_resource_sort (type_entry_of entry.now).sort }
{
    matches!(entry.sort, Sort::Resource | Sort::ResourceInterface)
}

/// Whether an identifier is that of a resource, or of an interface of resources.
#[tactic(auto, using(crate::proofs::Resources::resource_entry))]
fn is_resource_id(state: &RunState, id: &TypeId) -> bool
    ensures { result ≡ spec.is_resource_id (declarations (run_of state.now)) id.now }
{
    match entry_of(state, id) {
        Some(entry) => is_resource_sort(entry),
        None => false,
    }
}

/// Whether one of these identifiers is.
fn some_is_resource(state: &RunState, ids: &[TypeId]) -> bool
    ensures { result ≡ list_any (spec.is_resource_id (declarations (run_of state.now))) ids.now }
{
    for id in ids {
        if is_resource_id(state, id) {
            return true;
        }
    }
    false
}

/// Whether a type is a resource type.
pub fn is_linear(state: &RunState, declared: &CadType) -> bool
    ensures { result ≡ spec.resource (declarations (run_of state.now)) (pure_type declared.now) }
{
    match declared {
        CadType::Basic(basic) => matches!(basic, Basic::AnyResource),
        CadType::Optional(part) | CadType::Array(part) | CadType::Dictionary(_, part) => {
            is_linear(state, part)
        }
        CadType::Intersection(ids) => some_is_resource(state, ids.as_slice()),
        CadType::Declared(id) => is_resource_id(state, id),
        CadType::Reference(_, _) | CadType::Capability | CadType::CapabilityOf(_) => false,
    }
}
