// The fields of a type that is not declared.
ghost use Rattle.std.specs.Prelude.{◌≡◌, [], IfOk};
ghost use Rattle.std.specs.List.{AllByRecursion};

use cad_declarations::{
    EntitlementDeclarations, MappingDeclarations, Member, MemberAccess, MemberKind, Tables,
    TypeDeclaration, TypeDeclarations,
};
use cad_grammar::VariableKind;
use cad_pure::rules_in;
use cad_syntax::{Address, Basic, CadType, Name, Names, Text, TypeId, TypeIds};
use cad_types::Sort;
use std::alloc::{AllocError, Global};
use std::test::Fail;

fn name(alloc: Global, text: &str) -> Result<Name, AllocError> {
    Ok(Name(Text::from_str(alloc, text)?))
}

fn type_id(alloc: Global, address: u64) -> TypeId {
    TypeId {
        address: Address(address),
        names: Names::new(alloc),
    }
}

/// A struct with these members alone.
fn one_type(alloc: Global, members: Vec<Member>) -> Result<TypeDeclarations, AllocError>
    ensures { IfOk result (λ types. AllByRecursion (λ d. d.interfaces ≡ []) types) }
{
    let mut types = Vec::new(alloc);
    types.push(TypeDeclaration {
        id: type_id(alloc, 1),
        sort: Sort::Struct,
        parents: TypeIds::new(alloc),
        interfaces: TypeIds::new(alloc),
        members,
        initializer: None,
        cases: Names::new(alloc),
        raw: None,
    })?;
    TypeDeclarations::new(alloc, types)
}

/// Tables that declare these types alone.
#[tactic(auto, using(crate::proofs::Alone::closed_alone))]
fn tables_of(alloc: Global, types: TypeDeclarations) -> Result<Tables, AllocError>
    requires { AllByRecursion (λ d. d.interfaces ≡ []) types }
{
    Ok(Tables {
        place: None,
        contract: None,
        imports: TypeIds::new(alloc),
        types,
        entitlements: EntitlementDeclarations::new(alloc, TypeIds::new(alloc))?,
        mappings: MappingDeclarations::new(alloc, Vec::new(alloc))?,
        functions: Vec::new(alloc),
    })
}

fn field_member(alloc: Global, kind: VariableKind, t: Basic) -> Result<Member, AllocError> {
    Ok(Member {
        name: name(alloc, "n")?,
        access: MemberAccess::All,
        declared_by: type_id(alloc, 1),
        kind: MemberKind::Field {
            kind: Some(kind),
            declared: CadType::Basic(t),
        },
    })
}

#[test]
fn what_is_not_declared_has_no_fields(rt: HostRuntime) -> Result<(), Fail> {
    let alloc = rt.alloc();
    let mut members = Vec::new(alloc);
    members.push(field_member(alloc, VariableKind::Let, Basic::Void)?)?;
    let tables = tables_of(alloc, one_type(alloc, members)?)?;
    assert_eq!(rt; rules_in(alloc, &tables, &type_id(alloc, 2))?.len(), 0);
    Ok(())
}
