// The sorts of the types that contracts declare.
ghost use Rattle.std.specs.Prelude.{◌≡◌, ◌++◌, IfOk, OnOk, map};
ghost use Rattle.cad_contract_shapes.specs.Sorts.{sort_of_entry, sorts};
ghost use Rattle.cad_declarations.specs.Views.{type_entry_of};
ghost use Rattle.cad_state.specs.Views.{contract_of};
ghost use Rattle.cad_types.specs.Declarations.{declaration_of};
ghost use Rattle.cad_types.specs.Views.{declarations};
ghost use Rattle.cad_world.specs.Declared.{own_types};

use cad_access::is_within;
use cad_declarations::TypeDeclaration;
use cad_state::Contract;
use cad_syntax::{TypeIds, Types};
use cad_types::{Declared, DeclaredTypes};
use std::alloc::{AllocError, Global};

/// A declared type of a sort, without its fields and interfaces.
fn sort_of(alloc: Global, t: &TypeDeclaration) -> Result<Declared, AllocError>
    ensures { IfOk result (λ d. declaration_of d ≡ sort_of_entry (type_entry_of t.now)) }
{
    Ok(Declared {
        id: t.id.clone()?,
        sort: t.sort,
        fields: Types::new(alloc),
        interfaces: TypeIds::new(alloc),
    })
}

/// Appends the types that a contract declares.
fn push_own(alloc: Global, all: &mut Vec<Declared>, contract: &Contract) -> Result<(), AllocError>
    ensures { OnOk result (map declaration_of all.new.items ≡ map declaration_of all.old.items ++ map sort_of_entry (own_types (contract_of contract.now))) }
{
    for t in contract.checked.tables.types.as_slice() {
        if is_within(&contract.id, &t.id) {
            all.push(sort_of(alloc, t)?)?;
        }
    }
    Ok(())
}

/// The types that contracts declare.
fn all_sorts(alloc: Global, contracts: &[Contract]) -> Result<Vec<Declared>, AllocError>
    ensures { IfOk result (λ all. map declaration_of all.items ≡ sorts (map contract_of contracts.now)) }
{
    let mut all = Vec::new(alloc);
    for contract in contracts {
        push_own(alloc, &mut all, contract)?;
    }
    Ok(all)
}

/// The types that contracts declare, each of its sort, without fields and interfaces: what is asked where values are told.
pub fn sorts_of_contracts(
    alloc: Global,
    contracts: &[Contract],
) -> Result<DeclaredTypes, AllocError>
    ensures { IfOk result (λ types. declarations types ≡ sorts (map contract_of contracts.now)) }
{
    let all = all_sorts(alloc, contracts)?;
    let types = DeclaredTypes::new(alloc, all)?;
    Ok(types)
}
