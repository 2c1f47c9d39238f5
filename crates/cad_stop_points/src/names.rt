// Names that declarations have, and those before them.
ghost use Rattle.std.specs.Prelude.{◌≡◌, ◌++◌, ◌∷◌, [], map, reverse, IfOk, OnOk};
ghost use Rattle.cad_grammar.specs.Views.{composite_member_of, interface_member_of, contract_member_of, decl_of};
ghost use Rattle.cad_declarations.specs.Build as build;
ghost use Rattle.cad_declarations.specs.Names as names;
ghost use Rattle.cad_declarations.specs.Points as spec;

use crate::before::NamesBefore;
use cad_grammar::{CompositeKind, CompositeMember, ContractMember, Decl, Import, InterfaceMember};
use cad_syntax::{Name, Names, Text};
use std::alloc::{AllocError, Global};

/// A name of this text.
pub fn word(alloc: Global, text: &str) -> Result<Name, AllocError>
    ensures { IfOk result (λ name. name ≡ spec.word text.now) }
{
    Ok(Name(Text::from_str(alloc, text)?))
}

/// Whether no declaration before has the name.
#[tactic(auto, using(crate::proofs::Lists::has_reversed))]
pub fn is_new(before: &NamesBefore, name: &Name) -> bool
    ensures { result ≡ spec.is_new (reverse before.now) name.now }
{
    !before.has(name)
}

/// A name of its own behind those of the declaration in which it stands.
pub(crate) fn below(alloc: Global, all: &[Name], name: &Name) -> Result<Names, AllocError>
    ensures { IfOk result (λ made. made ≡ spec.below all.now name.now) }
{
    let mut made = Names::from_vec(Vec::from_clones(alloc, all)?);
    made.push(name.clone()?)?;
    Ok(made)
}

/// Puts names behind those before, the last at the end.
#[tactic(auto, using(crate::proofs::Lists::reversed_one))]
pub fn push_names(before: &mut NamesBefore, all: &[Name]) -> Result<(), AllocError>
    ensures { OnOk result (reverse before.new ≡ build.with_names all.now (reverse before.old)) }
{
    for name in all {
        before.push(name.clone()?)?;
    }
    Ok(())
}

/// The names that a program's imports bring in.
#[tactic(auto)]
pub fn import_names(alloc: Global, imports: &[Import]) -> Result<NamesBefore, AllocError>
    ensures { IfOk result (λ all. reverse all ≡ build.with_names (build.import_names imports.now) []) }
{
    let mut all = NamesBefore::new(alloc);
    for import in imports {
        push_names(&mut all, import.names.as_slice())?;
    }
    Ok(all)
}

/// The built-in members of declared types.
fn names_of_any(alloc: Global) -> Result<NamesBefore, AllocError>
    ensures { IfOk result (λ all. reverse all ≡ spec.names_of_any) }
{
    let mut all = NamesBefore::new(alloc);
    all.push(word(alloc, "isInstance")?)?;
    all.push(word(alloc, "getType")?)?;
    Ok(all)
}

/// The built-in members of contracts.
#[tactic(auto, using(crate::proofs::Lists::reversed_one))]
pub fn names_of_contract(alloc: Global) -> Result<NamesBefore, AllocError>
    ensures { IfOk result (λ all. reverse all ≡ spec.names_of_contract) }
{
    let mut all = names_of_any(alloc)?;
    all.push(word(alloc, "account")?)?;
    Ok(all)
}

/// The built-in members of structs or resources.
#[tactic(auto, using(crate::proofs::Lists::reversed_one))]
pub(crate) fn names_of_composite(
    alloc: Global,
    kind: CompositeKind,
) -> Result<NamesBefore, AllocError>
    ensures { IfOk result (λ all. reverse all ≡ spec.names_of_composite kind) }
{
    match kind {
        CompositeKind::Struct => names_of_any(alloc),
        CompositeKind::Resource => {
            let mut all = names_of_any(alloc)?;
            all.push(word(alloc, "owner")?)?;
            all.push(word(alloc, "uuid")?)?;
            Ok(all)
        }
    }
}

/// The name that a member of a composite has.
pub(crate) fn composite_member_name(
    alloc: Global,
    member: &CompositeMember,
) -> Result<Name, AllocError>
    ensures { IfOk result (λ name. name ≡ spec.composite_member_name (composite_member_of member.now)) }
{
    match member {
        CompositeMember::Field(x) => Ok(x.name.clone()?),
        CompositeMember::Function(x) => Ok(x.name.clone()?),
        CompositeMember::Init(_) => word(alloc, "init"),
        CompositeMember::Event(x) => Ok(x.name.clone()?),
    }
}

/// The name that a member of an interface has.
pub(crate) fn interface_member_name(member: &InterfaceMember) -> Result<Name, AllocError>
    ensures { IfOk result (λ name. name ≡ spec.interface_member_name (interface_member_of member.now)) }
{
    match member {
        InterfaceMember::Field(x) => Ok(x.name.clone()?),
        InterfaceMember::Function(x) => Ok(x.name.clone()?),
    }
}

/// The name that a member of a contract has.
pub fn contract_member_name(alloc: Global, member: &ContractMember) -> Result<Name, AllocError>
    ensures { IfOk result (λ name. name ≡ spec.contract_member_name (contract_member_of member.now)) }
{
    match member {
        ContractMember::Field(x) => Ok(x.name.clone()?),
        ContractMember::Function(x) => Ok(x.name.clone()?),
        ContractMember::Init(_) => word(alloc, "init"),
        ContractMember::Composite(x) => Ok(x.name.clone()?),
        ContractMember::Interface(x) => Ok(x.name.clone()?),
        ContractMember::Event(x) => Ok(x.name.clone()?),
        ContractMember::Enum(x) => Ok(x.name.clone()?),
        ContractMember::Entitlement(x) => Ok(x.name.clone()?),
        ContractMember::Mapping(x) => Ok(x.name.clone()?),
    }
}

/// The name that a declaration of a program has.
pub fn declaration_name(alloc: Global, declaration: &Decl) -> Result<Name, AllocError>
    ensures { IfOk result (λ name. name ≡ build.declaration_name (decl_of declaration.now)) }
{
    match declaration {
        Decl::Contract(x) => Ok(x.name.clone()?),
        Decl::Function(x) => Ok(x.name.clone()?),
        Decl::Transaction(_) => word(alloc, "transaction"),
    }
}
