// What the names of a program are looked up in: what is declared in it and in the closure of its imports.
ghost use Rattle.std.specs.Prelude.{◌≡◌, ◌++◌, ◌∷◌, [], flat_map, map, option_copied, option_map, option_to_list, IfOk, OnOk};
ghost use Rattle.cad_grammar.specs.Views.{contract_member_of, program_of};
ghost use Rattle.cad_types.specs.Declarations.{declaration_of as kind_of};
ghost use Rattle.cad_types.specs.Views.{declarations};
ghost use Rattle.cad_declarations.specs.Imports.{all_imported as imported_by};
ghost use Rattle.cad_declarations.specs.Own as spec;
ghost use Rattle.cad_declarations.specs.Scopes as scopes;
ghost use Rattle.cad_scopes.specs.Views.{scope_of};
ghost use Rattle.cad_contracts.specs.Views.{own_of};
ghost use Rattle.cad_entries.specs.Views.{imports_of, known_scope};
ghost use Rattle.cad_contracts.specs.Views.{entry_of};

use cad_auth::Mapping;
use cad_contracts::{Own, all_imported, is_part, tables_in};
use cad_declarations::{
    EntitlementDeclarations, Installed, MappingDeclaration, MappingDeclarations,
};
use cad_grammar::{CompositeKind, ContractMember, Program};
use cad_scopes::{Scope, inside};
use cad_syntax::{Name, Pairs, TypeId, TypeIds, Types};
use cad_types::{Declared, DeclaredTypes, Sort};
use std::alloc::{AllocError, Global};

/// The closure of a program's imports and its own contract, with what both declare.
#[derive(Drop)]
pub struct Known<'a> {
    pub imports: Vec<&'a Installed>,
    pub own: Option<Own<'a>>,
    /// The contracts that are imported by name.
    pub imported: TypeIds,
    pub types: DeclaredTypes,
    pub entitlements: EntitlementDeclarations,
    /// The identifiers of mappings, whose pairs aren't told yet.
    pub mappings: MappingDeclarations,
}

/// The identifier of the program's contract.
pub(crate) fn own_id<'a>(own: &'a Option<Own<'_>>) -> Option<&'a TypeId>
    ensures { option_copied result ≡ option_map (λ o. o.id) own.now }
{
    match own {
        Some(own) => Some(&own.id),
        None => None,
    }
}

/// The scope in which names are looked up.
pub fn scope<'a>(known: &'a Known<'_>) -> Scope<'a>
    ensures { scope_of result ≡ known_scope known.now }
{
    Scope {
        contract: own_id(&known.own),
        imports: known.imported.as_slice(),
        types: &known.types,
        entitlements: &known.entitlements,
        mappings: &known.mappings,
    }
}

/// Appends a declared type whose fields and interfaces aren't told.
fn push_named(
    all: &mut Vec<Declared>,
    alloc: Global,
    id: TypeId,
    sort: Sort,
) -> Result<(), AllocError>
    ensures { OnOk result (map kind_of all.new.items ≡ map kind_of all.old.items ++ spec.named id sort ∷ []) }
{
    all.push(Declared {
        id,
        sort,
        fields: Types::new(alloc),
        interfaces: TypeIds::new(alloc),
    })?;
    Ok(())
}

/// Appends the types that a deployed contract declares.
fn push_imported_types(
    all: &mut Vec<Declared>,
    alloc: Global,
    contract: &Installed,
) -> Result<(), AllocError>
    ensures { OnOk result (map kind_of all.new.items ≡ map kind_of all.old.items ++ map (λ t. spec.named t.id t.sort) (entry_of contract.now).types) }
{
    for t in tables_in(contract).types.as_slice() {
        if is_part(contract, &t.id) {
            push_named(all, alloc, t.id.clone()?, t.sort)?;
        }
    }
    Ok(())
}

/// The sort of a struct or resource.
pub(crate) fn composite_sort(kind: CompositeKind) -> Sort
    ensures { result ≡ spec.composite_sort kind }
{
    match kind {
        CompositeKind::Struct => Sort::Struct,
        CompositeKind::Resource => Sort::Resource,
    }
}

/// The sort of interfaces that a struct or resource has.
pub(crate) fn interface_sort(kind: CompositeKind) -> Sort
    ensures { result ≡ spec.interface_sort kind }
{
    match kind {
        CompositeKind::Struct => Sort::StructInterface,
        CompositeKind::Resource => Sort::ResourceInterface,
    }
}

/// Appends a type that is declared in a contract under a name.
fn push_inside(
    all: &mut Vec<Declared>,
    alloc: Global,
    contract: &TypeId,
    name: &Name,
    sort: Sort,
) -> Result<(), AllocError>
    ensures { OnOk result (map kind_of all.new.items ≡ map kind_of all.old.items ++ spec.named (scopes.inside contract.now name.now) sort ∷ []) }
{
    let id = inside(contract, name)?;
    push_named(all, alloc, id, sort)
}

/// Appends the type that a member of a contract declares.
fn push_named_by(
    all: &mut Vec<Declared>,
    alloc: Global,
    contract: &TypeId,
    member: &ContractMember,
) -> Result<(), AllocError>
    ensures { OnOk result (map kind_of all.new.items ≡ map kind_of all.old.items ++ spec.named_by contract.now (contract_member_of member.now)) }
{
    match member {
        ContractMember::Composite(x) => {
            push_inside(all, alloc, contract, &x.name, composite_sort(x.kind))
        }
        ContractMember::Interface(x) => {
            push_inside(all, alloc, contract, &x.name, interface_sort(x.kind))
        }
        ContractMember::Event(x) => push_inside(all, alloc, contract, &x.name, Sort::Event),
        ContractMember::Enum(x) => push_inside(all, alloc, contract, &x.name, Sort::Enum),
        _ => Ok(()),
    }
}

/// Appends a contract and the types that it declares.
fn push_named_in(all: &mut Vec<Declared>, alloc: Global, own: &Own<'_>) -> Result<(), AllocError>
    ensures { OnOk result (map kind_of all.new.items ≡ map kind_of all.old.items ++ spec.named_in (own_of own.now)) }
{
    push_named(all, alloc, own.id.clone()?, Sort::Contract)?;
    for member in own.members {
        push_named_by(all, alloc, &own.id, member)?;
    }
    Ok(())
}

/// The declared types of a program and its imports.
fn named_types(
    alloc: Global,
    imports: &[&Installed],
    own: &Option<Own<'_>>,
) -> Result<Vec<Declared>, AllocError>
    ensures { IfOk result (λ all. map kind_of all.items ≡ flat_map (λ c. map (λ t. spec.named t.id t.sort) c.types) (map (λ c. entry_of c.now) imports.now) ++ flat_map spec.named_in (option_to_list (option_map own_of own.now))) }
{
    let mut all = Vec::new(alloc);
    for contract in imports {
        push_imported_types(&mut all, alloc, contract)?;
    }
    if let Some(own) = own {
        push_named_in(&mut all, alloc, own)?;
    }
    Ok(all)
}

/// The declared types that names are looked up in.
#[tactic(auto, using(crate::proofs::Plain::named_closed))]
fn known_types(
    alloc: Global,
    imports: &[&Installed],
    own: &Option<Own<'_>>,
) -> Result<DeclaredTypes, AllocError>
    ensures { IfOk result (λ types. declarations types ≡ flat_map (λ c. map (λ t. spec.named t.id t.sort) c.types) (map (λ c. entry_of c.now) imports.now) ++ flat_map spec.named_in (option_to_list (option_map own_of own.now))) }
{
    let all = named_types(alloc, imports, own)?;
    DeclaredTypes::new(alloc, all)
}

/// Appends the entitlements that a deployed contract declares.
fn push_imported_entitlements(all: &mut Vec<TypeId>, contract: &Installed) -> Result<(), AllocError>
    ensures { OnOk result (all.new.items ≡ all.old.items ++ (entry_of contract.now).entitlements) }
{
    for id in tables_in(contract).entitlements.as_slice() {
        if is_part(contract, id) {
            all.push(id.clone()?)?;
        }
    }
    Ok(())
}

/// Appends the entitlement that a member of a contract declares.
fn push_entitlement_by(
    all: &mut Vec<TypeId>,
    contract: &TypeId,
    member: &ContractMember,
) -> Result<(), AllocError>
    ensures { OnOk result (all.new.items ≡ all.old.items ++ spec.entitlement_by contract.now (contract_member_of member.now)) }
{
    match member {
        ContractMember::Entitlement(x) => {
            all.push(inside(contract, &x.name)?)?;
            Ok(())
        }
        _ => Ok(()),
    }
}

/// Appends the entitlements that a contract declares.
fn push_entitlements_in(all: &mut Vec<TypeId>, own: &Own<'_>) -> Result<(), AllocError>
    ensures { OnOk result (all.new.items ≡ all.old.items ++ spec.entitlements_in (own_of own.now)) }
{
    for member in own.members {
        push_entitlement_by(all, &own.id, member)?;
    }
    Ok(())
}

/// The entitlements of a program and its imports, in order.
fn listed_entitlements(
    alloc: Global,
    imports: &[&Installed],
    own: &Option<Own<'_>>,
) -> Result<TypeIds, AllocError>
    ensures { IfOk result (λ ids. ids ≡ flat_map (λ c. c.entitlements) (map (λ c. entry_of c.now) imports.now) ++ flat_map spec.entitlements_in (option_to_list (option_map own_of own.now))) }
{
    let mut all = Vec::new(alloc);
    for contract in imports {
        push_imported_entitlements(&mut all, contract)?;
    }
    if let Some(own) = own {
        push_entitlements_in(&mut all, own)?;
    }
    Ok(TypeIds::from_vec(all))
}

/// The entitlements of a program and its imports.
fn known_entitlements(
    alloc: Global,
    imports: &[&Installed],
    own: &Option<Own<'_>>,
) -> Result<EntitlementDeclarations, AllocError>
    ensures { IfOk result (λ all. all ≡ flat_map (λ c. c.entitlements) (map (λ c. entry_of c.now) imports.now) ++ flat_map spec.entitlements_in (option_to_list (option_map own_of own.now))) }
{
    let all = listed_entitlements(alloc, imports, own)?;
    EntitlementDeclarations::new(alloc, all)
}

/// Appends a mapping whose pairs aren't told.
fn push_mapping(
    all: &mut Vec<MappingDeclaration>,
    alloc: Global,
    id: TypeId,
) -> Result<(), AllocError>
    ensures { OnOk result (map (λ m. m.id) all.new.items ≡ map (λ m. m.id) all.old.items ++ id ∷ []) }
{
    all.push(MappingDeclaration {
        id,
        mapping: Mapping {
            identity: false,
            pairs: Pairs::new(alloc),
        },
    })?;
    Ok(())
}

/// Appends the mappings that a deployed contract declares.
fn push_imported_mappings(
    all: &mut Vec<MappingDeclaration>,
    alloc: Global,
    contract: &Installed,
) -> Result<(), AllocError>
    ensures { OnOk result (map (λ m. m.id) all.new.items ≡ map (λ m. m.id) all.old.items ++ map (λ m. m.id) (entry_of contract.now).mappings) }
{
    for m in tables_in(contract).mappings.as_slice() {
        if is_part(contract, &m.id) {
            push_mapping(all, alloc, m.id.clone()?)?;
        }
    }
    Ok(())
}

/// Appends the mapping that a member of a contract declares.
fn push_mapping_by(
    all: &mut Vec<MappingDeclaration>,
    alloc: Global,
    contract: &TypeId,
    member: &ContractMember,
) -> Result<(), AllocError>
    ensures { OnOk result (map (λ m. m.id) all.new.items ≡ map (λ m. m.id) all.old.items ++ spec.mapping_by contract.now (contract_member_of member.now)) }
{
    match member {
        ContractMember::Mapping(x) => push_mapping(all, alloc, inside(contract, &x.name)?),
        _ => Ok(()),
    }
}

/// Appends the mappings that a contract declares.
fn push_mappings_in(
    all: &mut Vec<MappingDeclaration>,
    alloc: Global,
    own: &Own<'_>,
) -> Result<(), AllocError>
    ensures { OnOk result (map (λ m. m.id) all.new.items ≡ map (λ m. m.id) all.old.items ++ spec.mappings_in (own_of own.now)) }
{
    for member in own.members {
        push_mapping_by(all, alloc, &own.id, member)?;
    }
    Ok(())
}

/// The mappings of a program and its imports, in order.
fn listed_mappings(
    alloc: Global,
    imports: &[&Installed],
    own: &Option<Own<'_>>,
) -> Result<Vec<MappingDeclaration>, AllocError>
    ensures { IfOk result (λ all. map (λ m. m.id) all.items ≡ flat_map (λ c. map (λ m. m.id) c.mappings) (map (λ c. entry_of c.now) imports.now) ++ flat_map spec.mappings_in (option_to_list (option_map own_of own.now))) }
{
    let mut all = Vec::new(alloc);
    for contract in imports {
        push_imported_mappings(&mut all, alloc, contract)?;
    }
    if let Some(own) = own {
        push_mappings_in(&mut all, alloc, own)?;
    }
    Ok(all)
}

/// The mappings of a program and its imports.
fn known_mappings(
    alloc: Global,
    imports: &[&Installed],
    own: &Option<Own<'_>>,
) -> Result<MappingDeclarations, AllocError>
    ensures { IfOk result (λ all. map (λ m. m.id) all ≡ flat_map (λ c. map (λ m. m.id) c.mappings) (map (λ c. entry_of c.now) imports.now) ++ flat_map spec.mappings_in (option_to_list (option_map own_of own.now))) }
{
    let all = listed_mappings(alloc, imports, own)?;
    MappingDeclarations::new(alloc, all)
}

/// What a program is looked up in, beside the closure of its imports.
pub fn look_up<'a>(
    alloc: Global,
    imports: Vec<&'a Installed>,
    own: Option<Own<'a>>,
    program: &Program,
) -> Result<Known<'a>, AllocError>
    ensures scope { IfOk result (λ k. known_scope k ≡ spec.program_scope (map (λ c. entry_of c.now) imports.entry.items) (program_of program.now) (option_map own_of own.entry)) }
    ensures imports { IfOk result (λ k. imports_of k ≡ map (λ c. entry_of c.now) imports.entry.items) }
    ensures own { IfOk result (λ k. k.own ≡ own.entry) }
    ensures imported { IfOk result (λ k. k.imported ≡ imported_by program.now.imports.items) }
{
    let imported = all_imported(alloc, program.imports.as_slice())?;
    let types = known_types(alloc, imports.as_slice(), &own)?;
    let entitlements = known_entitlements(alloc, imports.as_slice(), &own)?;
    let mappings = known_mappings(alloc, imports.as_slice(), &own)?;
    Ok(Known {
        imports,
        own,
        imported,
        types,
        entitlements,
        mappings,
    })
}
