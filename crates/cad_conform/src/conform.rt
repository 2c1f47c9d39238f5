// The first type of a program that doesn't meet its interfaces.
ghost use Rattle.std.specs.Prelude.{◌≡◌, ◌↔◌, IsTrue, IsOk, IsNone, IfErr, IfSome, map, option_map, filter_map};
ghost use Rattle.cad_types.specs.Views.{declarations};
ghost use Rattle.cad_declarations.specs.Members as members;
ghost use Rattle.cad_declarations.specs.Meets as spec;
ghost use Rattle.cad_declarations.specs.Meets.{Each};
ghost use Rattle.cad_declarations.specs.Imports as imports;
ghost use Rattle.cad_declarations.specs.Views.{member_of, type_entry_of, tables_of};
ghost use Rattle.cad_conform.specs.Refusals.{Refuses, IsStop};

use crate::meets::member_meets;
use cad_declarations::{
    Member, Refused, Stop, Tables, TypeDeclaration, TypeDeclarations, default_in, find_type,
    interface_member, is_interface_sort, is_same_name, own_member,
};
use cad_syntax::{Name, TypeId};
use cad_types::DeclaredTypes;
use std::alloc::{AllocError, Global};

/// Whether each composite and interface that the program's contract declares meets its interfaces: it has each of their
/// members, of the same type and access, a function with the same labels and a result below, by one body where it has none.
/// `Is` exactly at the first that doesn't; `Memory` where there is no memory.
pub fn conforms(alloc: Global, tables: &Tables) -> Result<(), Refused<Stop>>
    ensures ok { IsOk result → spec.Conforms (tables_of tables.now) }
    ensures err { IfErr result (λ refused. Refuses (tables_of tables.now) refused) }
{
    let Ok(types) = tables.kinds(alloc) else {
        return Err(Refused::Memory);
    };
    match first_unmet(&types, tables) {
        Some(t) => Err(stop_at(t)),
        None => Ok(()),
    }
}

/// Where a type is refused.
fn stop_at(t: &TypeDeclaration) -> Refused<Stop>
    ensures { IsStop (type_entry_of t.now) result }
{
    match t.id.names.clone() {
        Ok(inside) => Refused::Is(Stop { inside, at: 0 }),
        Err(_) => Refused::Memory,
    }
}

/// The first type of the program's contract that doesn't meet its interfaces.
fn first_unmet<'a>(types: &DeclaredTypes, tables: &'a Tables) -> Option<&'a TypeDeclaration>
    ensures none { IsNone result → Each (spec.Meets (declarations types.now) (map type_entry_of tables.now.types)) (spec.own_types tables.now.contract (map type_entry_of tables.now.types)) }
    ensures some { IfSome result (λ t. spec.IsUnmet (declarations types.now) (map type_entry_of tables.now.types) (spec.own_types tables.now.contract (map type_entry_of tables.now.types)) (type_entry_of t.now)) }
{
    for t in tables.types.as_slice() {
        if is_own(&tables.contract, &t.id) && !meets(types, &tables.types, t) {
            return Some(t);
        }
    }
    None
}

/// Whether a type is declared by the program's contract.
fn is_own(contract: &Option<TypeId>, id: &TypeId) -> bool
    ensures { result ≡ spec.is_own contract.now id.now }
{
    match contract {
        Some(contract) => is_part_of(contract, id),
        None => false,
    }
}

/// Whether an identifier is a contract's, or that of something declared in it.
fn is_part_of(contract: &TypeId, id: &TypeId) -> bool
    ensures { result ≡ imports.is_part_of contract.now id.now }
{
    contract.address == id.address && begin_with(id.names.as_slice(), contract.names.as_slice())
}

fn begin_with(names: &[Name], first: &[Name]) -> bool
    ensures { result ≡ imports.begin_with names.now first.now }
{
    let mut left = names;
    for name in first {
        let [own, others @ ..] = left else {
            return false;
        };
        if !is_same_name(own, name) {
            return false;
        }
        left = others;
    }
    true
}

/// Whether a type meets all interfaces that it has.
fn meets(types: &DeclaredTypes, all: &TypeDeclarations, t: &TypeDeclaration) -> bool
    ensures { IsTrue result ↔ spec.Meets (declarations types.now) (map type_entry_of all.now) (type_entry_of t.now) }
{
    for i in t.interfaces.as_slice() {
        if !meets_interface(types, all, t, i) {
            return false;
        }
    }
    true
}

fn meets_interface(
    types: &DeclaredTypes,
    all: &TypeDeclarations,
    t: &TypeDeclaration,
    interface: &TypeId,
) -> bool
    ensures { IsTrue result ↔ spec.MeetsInterface (declarations types.now) (map type_entry_of all.now) (type_entry_of t.now) interface.now }
{
    for asked in members_of(all, interface) {
        if !offers(types, offer(all, t, &asked.name), asked) {
            return false;
        }
    }
    true
}

/// What a type declares itself.
fn members_of<'a>(all: &'a TypeDeclarations, id: &TypeId) -> &'a [Member]
    ensures { map member_of result.now ≡ members.members_in (members.type_in (map type_entry_of all.now) id.now) }
{
    match find_type(all, id) {
        Some(t) => t.members.as_slice(),
        None => &[],
    }
}

/// Whether there is a member, and it meets that of an interface.
fn offers(types: &DeclaredTypes, own: Option<&Member>, asked: &Member) -> bool
    ensures { IsTrue result ↔ spec.Offers (declarations types.now) (option_map (λ m. member_of m.now) own.entry) (member_of asked.now) }
{
    match own {
        Some(own) => member_meets(types, own, asked),
        None => false,
    }
}

/// What stands in a type for the members of a name that its interfaces have.
fn offer<'a>(all: &'a TypeDeclarations, t: &TypeDeclaration, name: &Name) -> Option<&'a Member>
    ensures { option_map (λ m. member_of m.now) result ≡ spec.offer (map type_entry_of all.now) (type_entry_of t.now) name.now }
{
    if is_interface_sort(t.sort) {
        interface_member(all, name, &t.id)
    } else {
        composite_offer(all, t, name)
    }
}

fn composite_offer<'a>(
    all: &'a TypeDeclarations,
    t: &TypeDeclaration,
    name: &Name,
) -> Option<&'a Member>
    ensures { option_map (λ m. member_of m.now) result ≡ spec.composite_offer (map type_entry_of all.now) (type_entry_of t.now) name.now }
{
    if let Some(own) = own_member(all, name, &t.id) {
        return Some(own);
    }
    only_default(all, name, t.interfaces.as_slice())
}

/// The only body that interfaces have for a name.
fn only_default<'a>(all: &'a TypeDeclarations, name: &Name, ids: &[TypeId]) -> Option<&'a Member>
    ensures { option_map (λ m. member_of m.now) result ≡ spec.only (filter_map (members.default_in (map type_entry_of all.now) name.now) ids.now) }
{
    let mut found: Option<&Member> = None;
    for id in ids {
        if let Some(member) = default_in(all, name, id) {
            if found.is_some() {
                return None;
            }
            found = Some(member);
        }
    }
    found
}
