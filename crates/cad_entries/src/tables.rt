// The tables of a program whose names are all right.
ghost use Rattle.std.specs.Prelude.{◌≡◌, ◌++◌, filter_map, flat_map, map, option_copied, option_map, option_to_list, IfOk, OnOk};
ghost use Rattle.cad_grammar.specs.Views.{decl_of, program_of};
ghost use Rattle.cad_declarations.specs.Build as spec;
ghost use Rattle.cad_declarations.specs.Deployed.{linked_type};
ghost use Rattle.cad_declarations.specs.Entries as entries;
ghost use Rattle.cad_declarations.specs.Imports.{all_imported};
ghost use Rattle.cad_declarations.specs.Own.{parent_links as links_of};
ghost use Rattle.cad_declarations.specs.Views.{mapping_entry_of, member_of, tables_of, type_entry_of};
ghost use Rattle.cad_scopes.specs.Views.{scope_of};
ghost use Rattle.cad_entries.specs.Views.{imports_of, known_scope};
ghost use Rattle.cad_contracts.specs.Views.{own_of};
ghost use Rattle.cad_contracts.specs.Views.{entry_of};

use crate::known::{Known, own_id, scope};
use crate::mappings::push_own_mappings;
use crate::members::function_entry;
use crate::types::push_types_in;
use cad_contracts::{Own, push_copied_mappings, push_linked_types};
use cad_declarations::{
    Installed, Links, MappingDeclaration, MappingDeclarations, Member, Tables, TypeDeclaration,
    TypeDeclarations,
};
use cad_grammar::{Decl, Program};
use cad_scopes::Scope;
use cad_syntax::{Address, Names, TypeId};
use std::alloc::{AllocError, Global};

/// Copies of the types that deployed contracts declare, with all interfaces that they have by these links.
pub fn linked_types(
    alloc: Global,
    links: &Links,
    contracts: &[&Installed],
) -> Result<Vec<TypeDeclaration>, AllocError>
    ensures { IfOk result (λ all. map type_entry_of all.items ≡ map (linked_type links.now) (flat_map (λ c. c.types) (map (λ c. entry_of c.now) contracts.now))) }
{
    let mut all = Vec::new(alloc);
    for contract in contracts {
        push_linked_types(&mut all, alloc, links, contract)?;
    }
    Ok(all)
}

/// The types of a program and its imports, in order.
fn listed_types(
    alloc: Global,
    scope: Scope<'_>,
    links: &Links,
    imports: &[&Installed],
    own: &Option<Own<'_>>,
) -> Result<Vec<TypeDeclaration>, AllocError>
    ensures { IfOk result (λ all. map type_entry_of all.items ≡ map (linked_type links.now) (flat_map (λ c. c.types) (map (λ c. entry_of c.now) imports.now)) ++ flat_map (entries.types_in (scope_of scope.entry) links.now) (option_to_list (option_map own_of own.now))) }
{
    let mut all = linked_types(alloc, links, imports)?;
    if let Some(own) = own {
        push_types_in(&mut all, alloc, scope, links, own)?;
    }
    Ok(all)
}

/// The types of a program and its imports.
fn all_types(
    alloc: Global,
    scope: Scope<'_>,
    links: &Links,
    imports: &[&Installed],
    own: &Option<Own<'_>>,
) -> Result<TypeDeclarations, AllocError>
    ensures { IfOk result (λ all. map type_entry_of all ≡ map (linked_type links.now) (flat_map (λ c. c.types) (map (λ c. entry_of c.now) imports.now)) ++ flat_map (entries.types_in (scope_of scope.entry) links.now) (option_to_list (option_map own_of own.now))) }
{
    let all = listed_types(alloc, scope, links, imports, own)?;
    TypeDeclarations::new(alloc, all)
}

/// The mappings of a program and its imports, in order.
fn listed_mappings(
    alloc: Global,
    scope: Scope<'_>,
    imports: &[&Installed],
    own: &Option<Own<'_>>,
) -> Result<Vec<MappingDeclaration>, AllocError>
    ensures { IfOk result (λ all. map mapping_entry_of all.items ≡ flat_map (λ c. c.mappings) (map (λ c. entry_of c.now) imports.now) ++ flat_map (spec.own_mappings (scope_of scope.entry)) (option_to_list (option_map own_of own.now))) }
{
    let mut all = Vec::new(alloc);
    for contract in imports {
        push_copied_mappings(&mut all, alloc, contract)?;
    }
    if let Some(own) = own {
        push_own_mappings(&mut all, alloc, scope, own)?;
    }
    Ok(all)
}

/// The mappings of a program and its imports.
fn all_mappings(
    alloc: Global,
    scope: Scope<'_>,
    imports: &[&Installed],
    own: &Option<Own<'_>>,
) -> Result<MappingDeclarations, AllocError>
    ensures { IfOk result (λ all. map mapping_entry_of all ≡ flat_map (λ c. c.mappings) (map (λ c. entry_of c.now) imports.now) ++ flat_map (spec.own_mappings (scope_of scope.entry)) (option_to_list (option_map own_of own.now))) }
{
    let all = listed_mappings(alloc, scope, imports, own)?;
    MappingDeclarations::new(alloc, all)
}

/// What declares functions outside a contract, which has no name.
fn no_id(alloc: Global) -> TypeId
    ensures { result ≡ entries.no_id }
{
    TypeId {
        address: Address(0),
        names: Names::new(alloc),
    }
}

/// Appends the function that a declaration of a program is.
fn push_function(
    all: &mut Vec<Member>,
    alloc: Global,
    scope: Scope<'_>,
    declaration: &Decl,
) -> Result<(), AllocError>
    ensures { OnOk result (map member_of all.new.items ≡ map member_of all.old.items ++ option_to_list (entries.top_function (scope_of scope.entry) (decl_of declaration.now))) }
{
    match declaration {
        Decl::Function(x) => {
            all.push(function_entry(alloc, scope, no_id(alloc), true, x)?)?;
            Ok(())
        }
        _ => Ok(()),
    }
}

/// The functions of a program that stand outside a contract.
#[tactic(auto, using(crate::proofs::Lists::one_more))]
fn top_functions(
    alloc: Global,
    scope: Scope<'_>,
    declarations: &[Decl],
) -> Result<Vec<Member>, AllocError>
    ensures { IfOk result (λ all. map member_of all.items ≡ filter_map (entries.top_function (scope_of scope.entry)) (map decl_of declarations.now)) }
{
    let mut all = Vec::new(alloc);
    for declaration in declarations {
        push_function(&mut all, alloc, scope, declaration)?;
    }
    Ok(all)
}

/// The identifier of a program's contract.
fn copied_id(id: Option<&TypeId>) -> Result<Option<TypeId>, AllocError>
    ensures { IfOk result (λ copy. copy ≡ option_copied id.entry) }
{
    match id {
        Some(id) => Ok(Some(id.clone()?)),
        None => Ok(None),
    }
}

/// The tables of a program, by what its names are looked up in and the links from its types to the interfaces that they name.
#[tactic(auto, using(crate::proofs::Closed::tables_closed))]
pub fn made_tables(
    alloc: Global,
    place: Option<Address>,
    program: &Program,
    known: &Known<'_>,
    links: &Links,
) -> Result<Tables, AllocError>
    requires linked { links.now ≡ links_of (imports_of known.now) (known_scope known.now) (option_map own_of known.now.own) }
    requires imported { known.now.imported ≡ all_imported program.now.imports.items }
    ensures { IfOk result (λ t. tables_of t ≡ spec.tables_by place (program_of program.now) (spec.setting_in (imports_of known.now) (option_map own_of known.now.own) (known_scope known.now))) }
{
    let within = scope(known);
    let contract = copied_id(own_id(&known.own))?;
    let imports = known.imported.clone()?;
    let entitlements = known.entitlements.copied(alloc)?;
    let mappings = all_mappings(alloc, within, known.imports.as_slice(), &known.own)?;
    let functions = top_functions(alloc, within, program.declarations.as_slice())?;
    let types = all_types(alloc, within, links, known.imports.as_slice(), &known.own)?;
    Ok(Tables {
        place,
        contract,
        imports,
        types,
        entitlements,
        mappings,
        functions,
    })
}
