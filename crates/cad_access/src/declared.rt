// What is declared where a program runs.
ghost use Rattle.std.specs.Prelude.{◌≡◌, ◌==◌, map, option_map, find};
ghost use Rattle.std.specs.Cmp.Lexicographic.{pointwise};
ghost use Rattle.cad_syntax.specs.TypeIds.{same_id};
ghost use Rattle.cad_syntax.specs.declared.text.Name.{Name};
ghost use Rattle.cad_declarations.specs.Views.{type_entry_of, type_body_of, member_body_of};
ghost use Rattle.cad_world.specs.Declared as spec;
ghost use Rattle.cad_state.specs.Views.{contract_of};
ghost use Rattle.cad_access.specs.RunContracts.{run_of, contracts_of, entry_among as entry_in, bodies_among as bodies_all};

use cad_declarations::{TypeDeclaration, TypedMember, TypedType, is_same_name};
use cad_state::{Contract, RunState};
use cad_syntax::{Name, TypeId};

/// Whether names begin with these.
fn begins_with(front: &[Name], names: &[Name]) -> bool
    ensures { result ≡ spec.begins_with front.now names.now }
{
    let mut rest = names;
    for name in front {
        let [first, more @ ..] = rest else {
            return false;
        };
        if !is_same_name(name, first) {
            return false;
        }
        rest = more;
    }
    true
}

/// Whether a type is this one, or is declared inside it.
pub fn is_within(outer: &TypeId, inner: &TypeId) -> bool
    ensures { result ≡ spec.is_within outer.now inner.now }
{
    outer.address.0 == inner.address.0
        && begins_with(outer.names.as_slice(), inner.names.as_slice())
}

/// Whether two types are declared in one contract.
pub fn are_of_one_contract(a: &TypeId, b: &TypeId) -> bool
    ensures { result ≡ same_id (spec.contract_of a.now) (spec.contract_of b.now) }
{
    a.address.0 == b.address.0 && have_one_front(a.names.as_slice(), b.names.as_slice())
}

/// Whether names begin with one name, or neither has any.
fn have_one_front(these: &[Name], others: &[Name]) -> bool
    ensures { result ≡ pointwise (λ (m n : Name). pointwise ◌==◌ m.0 n.0) (spec.first_name these.now) (spec.first_name others.now) }
{
    match these {
        [] => others.is_empty(),
        [name, ..] => match others {
            [] => false,
            [other, ..] => is_same_name(name, other),
        },
    }
}

/// The contract with an identifier.
pub fn contract_in<'a>(contracts: &'a [Contract], id: &TypeId) -> Option<&'a Contract>
    ensures { option_map (λ c. contract_of c.now) result ≡ spec.contract_in (contracts_of contracts.now) id.now }
{
    for contract in contracts {
        if contract.id.same(id) {
            return Some(contract);
        }
    }
    None
}

/// What a contract declares itself under an identifier.
fn own_entry<'a>(contract: &'a Contract, id: &TypeId) -> Option<&'a TypeDeclaration>
    ensures { option_map (λ t. type_entry_of t.now) result ≡ find (λ entry. same_id entry.id id.now) (spec.own_types (contract_of contract.now)) }
{
    if is_within(&contract.id, id) {
        contract.checked.tables.find(id)
    } else {
        None
    }
}

/// What these contracts declare under an identifier.
fn entry_among<'a>(contracts: &'a [Contract], id: &TypeId) -> Option<&'a TypeDeclaration>
    ensures { option_map (λ t. type_entry_of t.now) result ≡ entry_in (contracts_of contracts.now) id.now }
{
    for contract in contracts {
        match own_entry(contract, id) {
            Some(entry) => return Some(entry),
            None => {}
        }
    }
    None
}

/// The declaration of a type.
pub fn entry_of<'a>(state: &'a RunState, id: &TypeId) -> Option<&'a TypeDeclaration>
    ensures { option_map (λ t. type_entry_of t.now) result ≡ spec.entry_of (run_of state.now) id.now }
{
    entry_among(state.contracts.as_slice(), id)
}

/// The bodies of an identifier among these.
fn bodies_in<'a>(bodies: &'a [TypedType], id: &TypeId) -> Option<&'a TypedType>
    ensures { option_map (λ b. type_body_of b.now) result ≡ find (λ b. same_id b.id id.now) (map type_body_of bodies.now) }
{
    for one in bodies {
        if one.id.same(id) {
            return Some(one);
        }
    }
    None
}

/// The bodies that a contract has of a type.
fn own_bodies<'a>(contract: &'a Contract, id: &TypeId) -> Option<&'a TypedType>
    ensures { option_map (λ b. type_body_of b.now) result ≡ find (λ b. same_id b.id id.now) (contract_of contract.now).program.bodies.types }
{
    bodies_in(contract.checked.bodies.types.as_slice(), id)
}

/// The bodies that these contracts have of a type.
fn bodies_among<'a>(contracts: &'a [Contract], id: &TypeId) -> Option<&'a TypedType>
    ensures { option_map (λ b. type_body_of b.now) result ≡ bodies_all (contracts_of contracts.now) id.now }
{
    for contract in contracts {
        match own_bodies(contract, id) {
            Some(bodies) => return Some(bodies),
            None => {}
        }
    }
    None
}

/// The bodies of a type.
pub fn bodies_of<'a>(state: &'a RunState, id: &TypeId) -> Option<&'a TypedType>
    ensures { option_map (λ b. type_body_of b.now) result ≡ spec.bodies_of (run_of state.now) id.now }
{
    bodies_among(state.contracts.as_slice(), id)
}

/// The function of a name.
pub fn function_in<'a>(members: &'a [TypedMember], name: &Name) -> Option<&'a TypedMember>
    ensures { option_map (λ m. member_body_of m.now) result ≡ spec.function_in (map member_body_of members.now) name.now }
{
    for member in members {
        if is_same_name(&member.name, name) {
            return Some(member);
        }
    }
    None
}
