// The declared types of a run, by which its types are ordered.
ghost use Rattle.std.specs.Prelude.{◌≡◌, ◌++◌, map, option_to_list, IfOk, MatchOption, OnOk};
ghost use Rattle.cad_syntax.specs.Types.{pure_type};
ghost use Rattle.cad_types.specs.Declarations.{IsClosed, declaration_of as kind_of};
ghost use Rattle.cad_types.specs.Below.{below};
ghost use Rattle.cad_types.specs.Views.{declarations};
ghost use Rattle.cad_declarations.specs.Kinds.{declaration_of, field_type};
ghost use Rattle.cad_declarations.specs.Views.{form_of, type_entry_of};
ghost use Rattle.cad_world.specs.Declared.{own_types};
ghost use Rattle.cad_state.specs.Views.{contract_of};
ghost use Rattle.cad_access.specs.RunContracts.{contracts_of, kinds_among};

use crate::declared::is_within;
use cad_declarations::{MemberKind, TypeDeclaration};
use cad_state::Contract;
use cad_syntax::{Basic, CadType, Types};
use cad_types::laws::order_needs_no_steps_between;
use cad_types::{Declared, DeclaredTypes, is_closed, is_subtype};
use std::alloc::{AllocError, Global};

/// The types that contracts declare, as the order of types and its classes are judged by them. None exactly where an interface
/// that a type has has an interface that isn't that type's own.
pub fn kinds_of_run(
    alloc: Global,
    contracts: &[Contract],
) -> Result<Option<DeclaredTypes>, AllocError>
    ensures { IfOk result (λ o. MatchOption o (¬ (IsClosed (kinds_among (contracts_of contracts.now)))) (λ kinds. declarations kinds ≡ kinds_among (contracts_of contracts.now))) }
{
    let declared = all_declared(alloc, contracts)?;
    if is_closed(declared.as_slice()) {
        let kinds = DeclaredTypes::new(alloc, declared)?;
        Ok(Some(kinds))
    } else {
        Ok(None)
    }
}

/// The types that contracts declare, with the types of their fields.
fn all_declared(alloc: Global, contracts: &[Contract]) -> Result<Vec<Declared>, AllocError>
    ensures { IfOk result (λ all. map kind_of all.items ≡ kinds_among (contracts_of contracts.now)) }
{
    let mut all = Vec::new(alloc);
    for contract in contracts {
        push_own(alloc, &mut all, contract)?;
    }
    Ok(all)
}

/// Appends the types that a contract declares.
fn push_own(alloc: Global, all: &mut Vec<Declared>, contract: &Contract) -> Result<(), AllocError>
    ensures { OnOk result (map kind_of all.new.items ≡ map kind_of all.old.items ++ map declaration_of (own_types (contract_of contract.now))) }
{
    for t in contract.checked.tables.types.as_slice() {
        if is_within(&contract.id, &t.id) {
            all.push(declared_of(alloc, t)?)?;
        }
    }
    Ok(())
}

/// A declared type with the types of its fields.
#[tactic(auto, using(crate::proofs::FieldTypes::one_more))]
fn declared_of(alloc: Global, t: &TypeDeclaration) -> Result<Declared, AllocError>
    ensures { IfOk result (λ d. kind_of d ≡ declaration_of (type_entry_of t.now)) }
{
    let mut fields = Vec::new(alloc);
    for member in t.members.iter() {
        push_field(&mut fields, &member.kind)?;
    }
    if let Some(kind) = t.raw {
        fields.push(CadType::Basic(Basic::Number(kind)))?;
    }
    Ok(Declared {
        id: t.id.clone()?,
        sort: t.sort,
        fields: Types::from_vec(fields),
        interfaces: t.interfaces.clone()?,
    })
}

/// Appends the type of a field.
fn push_field(fields: &mut Vec<CadType>, kind: &MemberKind) -> Result<(), AllocError>
    ensures { OnOk result (map pure_type fields.new.items ≡ map pure_type fields.old.items ++ option_to_list (field_type (form_of kind.now))) }
{
    match kind {
        MemberKind::Field { declared, .. } => {
            fields.push(declared.clone()?)?;
            Ok(())
        }
        MemberKind::Function { .. } => Ok(()),
    }
}

/// Whether one type is below another.
pub fn is_below(kinds: &DeclaredTypes, t: &CadType, u: &CadType) -> bool
    ensures { result ≡ below (declarations kinds.now) (pure_type t.now) (pure_type u.now) }
{
    order_needs_no_steps_between();
    is_subtype(kinds, t, u)
}
