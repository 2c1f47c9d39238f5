// The mappings of entitlements where a program runs.
ghost use Rattle.std.specs.Prelude.{◌≡◌, ◌==◌, [], ◌∷◌, find, option_map, IfOk};
ghost use Rattle.std.specs.Cmp.Lexicographic.{pointwise};
ghost use Rattle.cad_syntax.specs.TypeIds.{same_id};
ghost use Rattle.cad_syntax.specs.declared.text.Name.{Name};
ghost use Rattle.cad_declarations.specs.Names.{identity_mapping};
ghost use Rattle.cad_world.specs.Declared as spec;
ghost use Rattle.cad_state.specs.Views.{contract_of};
ghost use Rattle.cad_access.specs.RunContracts.{run_of, contracts_of, mapping_among as mapping_in};

use crate::declared::is_within;
use cad_auth::Mapping;
use cad_state::{Contract, RunState};
use cad_syntax::{Name, Pairs, TypeId};
use std::alloc::{AllocError, Global};

/// The mapping that a contract declares itself under an identifier.
fn own_mapping<'a>(contract: &'a Contract, id: &TypeId) -> Option<&'a Mapping>
    ensures { option_map (λ m. m.now) result ≡ option_map (λ m. m.mapping) (find (λ m. same_id m.id id.now) (spec.own_mappings (contract_of contract.now))) }
{
    if is_within(&contract.id, id) {
        match contract.checked.tables.mappings.find(id) {
            Some(found) => Some(&found.mapping),
            None => None,
        }
    } else {
        None
    }
}

/// The mapping that these contracts declare under an identifier.
fn mapping_among<'a>(contracts: &'a [Contract], id: &TypeId) -> Option<&'a Mapping>
    ensures { option_map (λ m. m.now) result ≡ mapping_in (contracts_of contracts.now) id.now }
{
    for contract in contracts {
        match own_mapping(contract, id) {
            Some(mapping) => return Some(mapping),
            None => {}
        }
    }
    None
}

/// Whether an identifier is that of the built-in mapping of each entitlement to itself.
pub fn is_identity(id: &TypeId) -> bool
    ensures { result ≡ same_id id.now identity_mapping }
{
    id.address.0 == 0 && is_only(id.names.as_slice(), "Identity")
}

/// Whether this text is the only one of these names.
fn is_only(names: &[Name], text: &str) -> bool
    ensures { result ≡ pointwise (λ (m n : Name). pointwise ◌==◌ m.0 n.0) names.now (record { 0 = text.now } ∷ []) }
{
    match names {
        [only] => is_spelled(only, text),
        _ => false,
    }
}

/// Whether a name is this text.
fn is_spelled(name: &Name, text: &str) -> bool
    ensures { result ≡ pointwise ◌==◌ name.now.0 text.now }
{
    name.0.as_str() == text
}

/// The mapping that is declared under an identifier, the built-in one not among them.
pub fn declared_mapping<'a>(state: &'a RunState, id: &TypeId) -> Option<&'a Mapping>
    ensures { option_map (λ m. m.now) result ≡ mapping_in (run_of state.now).contracts id.now }
{
    mapping_among(state.contracts.as_slice(), id)
}

/// The mapping of each entitlement to itself. It takes no memory.
pub fn identity(alloc: Global) -> Mapping
    ensures { result ≡ spec.identity }
{
    Mapping {
        identity: true,
        pairs: Pairs::new(alloc),
    }
}

/// A copy of a mapping.
fn copied(mapping: &Mapping) -> Result<Mapping, AllocError>
    ensures { IfOk result (λ copy. copy ≡ mapping.now) }
{
    Ok(Mapping {
        identity: mapping.identity,
        pairs: mapping.pairs.clone()?,
    })
}

/// A mapping by its identifier.
pub fn mapping_of(
    alloc: Global,
    state: &RunState,
    id: &TypeId,
) -> Result<Option<Mapping>, AllocError>
    ensures { IfOk result (λ o. o ≡ spec.mapping_of (run_of state.now) id.now) }
{
    if is_identity(id) {
        return Ok(Some(identity(alloc)));
    }
    match declared_mapping(state, id) {
        Some(mapping) => Ok(Some(copied(mapping)?)),
        None => Ok(None),
    }
}
